//! Copies of types, and of a type under another tag.
ghost use Rattle.std.specs.Prelude.{◌≡◌, IfSome, IfNone, IfOk};
ghost use Rattle.asn1_schema.specs.declared.schema.Kind.TheVariants as kinds;
ghost use Rattle.asn1_schema.specs.Build.{AreSameTags, IsSamePresence, AreSameFields, IsRetagged, IsUnbounded};

use crate::build::BuildError;
use crate::schema::{Field, Kind, Presence, Tags};
use std::alloc::Global;

/// The place of the type that bounds are on, and the bounds.
pub(crate) fn bounded(kind: &Kind) -> Option<(usize, Option<i128>, Option<i128>)>
    ensures some { IfSome result (λ b. kind.now ≡ kinds.Within b.0 b.1 b.2) }
    ensures none { IfNone result (IsUnbounded kind.now) }
{
    match kind {
        Kind::Within(inner, lower, upper) => Some((*inner, *lower, *upper)),
        _ => None,
    }
}

/// The same tags.
pub(crate) fn copied_tags(alloc: Global, tags: &Tags) -> Result<Tags, BuildError>
    ensures { IfOk result (AreSameTags tags.now) }
{
    match tags {
        Tags::Among(list) => Ok(Tags::Among(Vec::from_slice(alloc, list)?)),
        Tags::AllBut(list) => Ok(Tags::AllBut(Vec::from_slice(alloc, list)?)),
    }
}

/// The same field.
fn copied_field(alloc: Global, field: &Field) -> Result<Field, BuildError>
    ensures of { IfOk result (λ copy. copy.of ≡ field.now.of) }
    ensures presence { IfOk result (λ copy. IsSamePresence field.now.presence copy.presence) }
{
    let presence = match &field.presence {
        Presence::Required => Presence::Required,
        Presence::Optional => Presence::Optional,
        Presence::Default(octets) => Presence::Default(Vec::from_slice(alloc, octets)?),
    };
    Ok(Field {
        of: field.of,
        presence,
    })
}

/// The same fields.
fn copied_fields(alloc: Global, fields: &[Field]) -> Result<Vec<Field>, BuildError>
    ensures { IfOk result (λ copies. AreSameFields fields.now copies.items) }
{
    let mut copies = Vec::new(alloc);
    for field in fields {
        let copy = copied_field(alloc, field)?;
        copies.push(copy)?;
    }
    Ok(copies)
}

/// The kind that a type at a place has under another tag. Bounds then bound the type at another place.
pub(crate) fn retagged(
    alloc: Global,
    of: usize,
    inner: usize,
    kind: &Kind,
) -> Result<Kind, BuildError>
    ensures { IfOk result (IsRetagged of inner kind.now) }
{
    Ok(match kind {
        Kind::Enumerated(numbers, extensible) => {
            Kind::Enumerated(Vec::from_slice(alloc, numbers)?, *extensible)
        }
        Kind::Sequence(fields, unknown) => {
            Kind::Sequence(copied_fields(alloc, fields)?, *unknown)
        }
        Kind::Choice(_) => Kind::Explicit(of),
        Kind::Any => Kind::Explicit(of),
        Kind::Within(_, lower, upper) => Kind::Within(inner, *lower, *upper),
        Kind::Boolean => Kind::Boolean,
        Kind::Null => Kind::Null,
        Kind::Integer => Kind::Integer,
        Kind::Bits(named) => Kind::Bits(*named),
        Kind::Octets => Kind::Octets,
        Kind::Identifier(relative) => Kind::Identifier(*relative),
        Kind::Text(text) => Kind::Text(*text),
        Kind::Time(time) => Kind::Time(*time),
        Kind::Set(fields, unknown) => Kind::Set(copied_fields(alloc, fields)?, *unknown),
        Kind::SequenceOf(member) => Kind::SequenceOf(*member),
        Kind::SetOf(member) => Kind::SetOf(*member),
        Kind::Explicit(within) => Kind::Explicit(*within),
    })
}
