//! The members of objects, by the names of parts.
ghost use Rattle.std.specs.Prelude.{◌≡◌, None, Some, IfOk, IfSome, MatchOption, OnOk, true, string_bytes};
ghost use Rattle.json.specs.Find.{get_member};
ghost use Rattle.json.specs.Json.{member, no_members};
ghost use Rattle.json.specs.Value.{members_view, value_view};
ghost use Rattle.asn1_json.specs.Denotes.{AreNamed, IsNameOfField, IsNameOfPart, arm_from};
ghost use Rattle.asn1_json.specs.Tokens.{name_of_arm, name_of_field, given_types, type_of_unknown};
ghost use Rattle.asn1_json.specs.Types.{arms_of, kind_at, or_name};
ghost use Rattle.asn1_words.specs.Words.{number_text};

use crate::leaves::count_text;
use crate::reading::trail::{Fault, Reason, Step, Trail};
use crate::types::Types;
use json::Value;
use std::alloc::{AllocError, Global};

/// The last member with a name, and its place.
pub(super) fn member_named<'m, 'a>(
    members: &'m [(&'a str, Value<'a>)],
    name: &str,
) -> Option<(usize, &'m Value<'a>)>
    ensures { MatchOption result (get_member name.now (members_view members.now) ≡ None)
        (λ found. get_member name.now (members_view members.now) ≡ Some (value_view found.1.now)) }
{
    let mut found = None;
    for (place, part) in members.iter().enumerate() {
        if part.0 == name {
            found = Some((place, &part.1));
        }
    }
    found
}

/// The one member of an object, by its name.
pub(super) fn only_member<'m, 'a>(
    members: &'m [(&'a str, Value<'a>)],
) -> Option<(&'a str, &'m Value<'a>)>
    ensures { IfSome result (λ one.
        members_view members.now ≡ member one.0.now (value_view one.1.now) no_members) }
{
    match members {
        [one] => Some((one.0, &one.1)),
        _ => None,
    }
}

/// The name of a part, or its number where it has none.
fn name_or_number(alloc: Global, name: &str, number: usize) -> Result<String, AllocError>
    ensures { IfOk result (λ text. string_bytes text ≡ or_name name.now (number_text number)) }
{
    if name.is_empty() {
        return count_text(alloc, number);
    }
    String::from_str(alloc, name)
}

/// The name of a field.
pub(super) fn field_name(
    alloc: Global,
    types: Types<'_, '_>,
    row: usize,
    place: usize,
) -> Result<String, AllocError>
    ensures { IfOk result (λ text.
        string_bytes text ≡ name_of_field (given_types types.entry) (Some row) place) }
{
    let name = types.name(Some(row), Some(place as i128));
    name_or_number(alloc, name, place)
}

/// The name of an arm. An arm of any element without a name is unknown.
fn arm_name(
    alloc: Global,
    types: Types<'_, '_>,
    choice: usize,
    arm: usize,
) -> Result<String, AllocError>
    ensures { IfOk result (λ text.
        string_bytes text ≡ name_of_arm (given_types types.entry) (Some choice) arm) }
{
    let name = types.name(Some(choice), Some(arm as i128));
    if types.is_any(types.of_arm(Some(choice), arm)) && name.is_empty() {
        return String::from_str(alloc, "...");
    }
    name_or_number(alloc, name, arm)
}

/// The first arm with a name.
pub(super) fn arm_named(
    alloc: Global,
    types: Types<'_, '_>,
    choice: usize,
    name: &str,
) -> Result<Option<usize>, AllocError>
    ensures { IfOk result (λ found. IfSome found
        (λ arm. arm_from (given_types types.entry) choice name.now
        (arms_of (kind_at types.entry.table.now (Some choice))) 0 ≡ Some arm)) }
{
    for arm in 0..types.arms(Some(choice)).len() {
        let own = arm_name(alloc, types, choice, arm)?;
        if own.as_str() == name {
            return Ok(Some(arm));
        }
    }
    Ok(None)
}

/// The last member that has the name of a field, and its place.
pub(super) fn member_of_field<'m, 'a>(
    alloc: Global,
    types: Types<'_, '_>,
    row: usize,
    place: usize,
    members: &'m [(&'a str, Value<'a>)],
) -> Result<Option<(usize, &'m Value<'a>)>, AllocError>
    ensures { IfOk result (λ found. MatchOption found
        (get_member (name_of_field (given_types types.entry) (Some row) place)
        (members_view members.now) ≡ None)
        (λ found. get_member (name_of_field (given_types types.entry) (Some row) place)
        (members_view members.now) ≡ Some (value_view found.1.now))) }
{
    let name = field_name(alloc, types, row, place)?;
    Ok(member_named(members, name.as_str()))
}

/// Whether a field of a row has a name.
fn has_field_named(
    alloc: Global,
    types: Types<'_, '_>,
    row: usize,
    name: &str,
) -> Result<bool, AllocError>
    ensures { IfOk result (λ is. is ≡ true → IsNameOfField (given_types types.entry) row name.now) }
{
    for place in 0..types.fields(Some(row)).len() {
        let own = field_name(alloc, types, row, place)?;
        if own.as_str() == name {
            return Ok(true);
        }
    }
    Ok(false)
}

/// Whether a name is that of a field, or `...` where unknown elements may follow them.
fn is_name_of_part(
    alloc: Global,
    types: Types<'_, '_>,
    row: usize,
    name: &str,
) -> Result<bool, AllocError>
    ensures { IfOk result (λ is. is ≡ true →
        IsNameOfPart (given_types types.entry) row
        (type_of_unknown (given_types types.entry) (Some row)) name.now) }
{
    if let Some(_of) = types.of_unknown(Some(row)) {
        if name == "..." {
            return Ok(true);
        }
    }
    has_field_named(alloc, types, row, name)
}

/// Tells whether each member of an object has the name of a field of the row, or `...` where unknown elements may
/// follow them, and none has the name of another.
pub(super) fn judge_names<'a>(
    alloc: Global,
    types: Types<'_, '_>,
    row: usize,
    members: &[(&'a str, Value<'a>)],
    trail: &mut Trail,
) -> Result<(), Fault>
    ensures { OnOk result (AreNamed (given_types types.entry) row
        (type_of_unknown (given_types types.entry) (Some row)) (members_view members.now)) }
{
    let mut rest = members;
    while let [part, others @ ..] = rest {
        let place = members.len().saturating_sub(rest.len());
        let name = part.0;
        if !is_name_of_part(alloc, types, row, name)? {
            return Err(trail.refused_at(Step::Name(place), row, Reason::UnknownName));
        }
        if let Some((behind, _)) = member_named(others, name) {
            let again = place.saturating_add(1).saturating_add(behind);
            return Err(trail.refused_at(Step::Name(again), row, Reason::RepeatedName));
        }
        rest = others;
    }
    Ok(())
}
