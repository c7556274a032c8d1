//! The tags of several types together.
ghost use Rattle.std.specs.Prelude.{◌≡◌, ◌||◌, ◌&&◌, not, IfOk};
ghost use Rattle.std.specs.List.{list_any};
ghost use Rattle.x690.specs.Identifiers.{Identifier};
ghost use Rattle.asn1_schema.specs.Grammar.{has_tag, is_tag_of};
ghost use Rattle.asn1_schema.specs.Build.{IsTagged, Decides};

use crate::build::BuildError;
use crate::schema::{Tags, TypeTag};
use crate::sound::is_among;
use std::alloc::Global;

/// This one tag.
pub(crate) fn one_tag(alloc: Global, tag: TypeTag) -> Result<Tags, BuildError>
    ensures { IfOk result (IsTagged tag) }
{
    Ok(Tags::Among(Vec::from_array(alloc, [tag])?))
}

/// The tags that are among others.
fn shared(alloc: Global, tags: &[TypeTag], others: &[TypeTag]) -> Result<Vec<TypeTag>, BuildError>
    ensures { IfOk result (λ kept. (id : Identifier) → list_any (is_tag_of id) kept.items ≡
        (list_any (is_tag_of id) tags.now && list_any (is_tag_of id) others.now)) }
{
    let mut kept = Vec::new(alloc);
    for tag in tags {
        if is_among(*tag, others) {
            kept.push(*tag)?;
        }
    }
    Ok(kept)
}

/// The tags that are not among others.
fn left(alloc: Global, tags: &[TypeTag], others: &[TypeTag]) -> Result<Vec<TypeTag>, BuildError>
    ensures { IfOk result (λ kept. (id : Identifier) → list_any (is_tag_of id) kept.items ≡
        (list_any (is_tag_of id) tags.now && not (list_any (is_tag_of id) others.now))) }
{
    let mut kept = Vec::new(alloc);
    for tag in tags {
        if !is_among(*tag, others) {
            kept.push(*tag)?;
        }
    }
    Ok(kept)
}

/// The tags and others.
pub(crate) fn united(alloc: Global, tags: Tags, others: &Tags) -> Result<Tags, BuildError>
    ensures { IfOk result (Decides (λ id. has_tag tags id || has_tag others.now id)) }
{
    match tags {
        Tags::Among(mut xs) => match others {
            Tags::Among(ys) => {
                xs.extend_from_slice(ys)?;
                Ok(Tags::Among(xs))
            }
            Tags::AllBut(ys) => Ok(Tags::AllBut(left(alloc, ys, &xs)?)),
        },
        Tags::AllBut(xs) => match others {
            Tags::Among(ys) => Ok(Tags::AllBut(left(alloc, &xs, ys)?)),
            Tags::AllBut(ys) => Ok(Tags::AllBut(shared(alloc, &xs, ys)?)),
        },
    }
}

/// Any tag but these.
pub(crate) fn all_others(tags: Tags) -> Tags
    ensures { Decides (λ id. not (has_tag tags id)) result }
{
    match tags {
        Tags::Among(list) => Tags::AllBut(list),
        Tags::AllBut(list) => Tags::Among(list),
    }
}
