//! Values with parts, from JSON.
ghost use Rattle.std.specs.Prelude.{ℕ, ◌≡◌, true, IfOk, OnOk, Option, Some, codes, length, map};
ghost use Rattle.json.specs.Find.{get_member};
ghost use Rattle.json.specs.Value.{members_view, value_view};
ghost use Rattle.asn1_schema.specs.Grammar.{Word};
ghost use Rattle.asn1_schema.specs.Rules.{der};
ghost use Rattle.asn1_schema.specs.Sound.{is_sound};
ghost use Rattle.asn1_json.specs.Denotes.{Denotes, DenotesChosen, DenotesKind, DenotesRow, DenoteUnknown};
ghost use Rattle.asn1_json.specs.Outcomes.{AreJsonMembers, DenoteFirst, DenotesItems, DenotesList, DenotesOnce};
ghost use Rattle.asn1_json.specs.Outcomes.{DenotesSet, LeftOutOnce, Makes, MakesRow, document_of};
ghost use Rattle.asn1_json.specs.Tokens.{name_of_field, given_types, type_of_unknown};
ghost use Rattle.asn1_json.specs.Types.{arms_of, fields_of, kind_at};

use crate::reading::arranged::{Member, arrange, encoded, put_members};
use crate::reading::leaf::{By, judge, read_leaf};
use crate::reading::names::{arm_named, judge_names, member_named, member_of_field, only_member};
use crate::reading::trail::{Fault, Reason, Step, Trail};
use asn1_schema::decode::{DecodeError, decode_der_whole};
use asn1_schema::owned::OwnedTape;
use asn1_schema::refusal::Refusal;
use asn1_schema::schema::{Field, Kind, Presence};
use asn1_schema::tape::Item;
use json::Value;

/// Puts a default on the tape: the value of which these octets are an encoding.
fn put_default(
    by: By<'_, '_>,
    of: usize,
    octets: &[u8],
    made: &mut OwnedTape,
    trail: &mut Trail,
) -> Result<(), Fault>
    requires sound { is_sound by.types.table.now ≡ true }
    ensures { OnOk result (Makes (Word der by.entry.types.table.now by.entry.depth of octets.now)
        made.old made.new) }
{
    let mut tape = Vec::new(by.alloc);
    let mut refusal = Refusal::none();
    match decode_der_whole(
        by.types.table,
        of,
        by.depth,
        octets,
        &mut tape,
        &mut refusal,
    ) {
        Ok(()) => {
            made.append(&tape)?;
            Ok(())
        }
        Err(DecodeError::OutOfMemory) => Err(Fault::Memory),
        Err(_) => Err(trail.refused(of, Reason::Default)),
    }
}

/// A component is left out: it may be, or has a default.
fn leave_out(
    by: By<'_, '_>,
    row: usize,
    place: usize,
    field: &Field,
    made: &mut OwnedTape,
    trail: &mut Trail,
) -> Result<(), Fault>
    requires sound { is_sound by.types.table.now ≡ true }
    ensures { OnOk result (MakesRow (LeftOutOnce by.entry.types.table.now by.entry.depth field.now)
        made.old made.new) }
{
    match &field.presence {
        Presence::Required => Err(trail.lacks(field.of, row, place)),
        Presence::Optional => {
            made.push(&Item::Absent)?;
            Ok(())
        }
        Presence::Default(octets) => put_default(by, field.of, octets, made, trail),
    }
}

/// A component of a row.
#[cycle(making)]
fn read_field<'a>(
    by: By<'_, '_>,
    depth: usize,
    row: usize,
    place: usize,
    field: &Field,
    members: &[(&'a str, Value<'a>)],
    made: &mut OwnedTape,
    trail: &mut Trail,
) -> Result<(), Fault>
    requires sound { is_sound by.types.table.now ≡ true }
    ensures { OnOk result (MakesRow (DenotesOnce (given_types by.entry.types) by.entry.depth
        (Denotes (given_types by.entry.types) by.entry.depth depth) field.now
        (get_member (name_of_field (given_types by.entry.types) (Some row) place)
        (members_view members.now)))
        made.old made.new) }
{
    match member_of_field(by.alloc, by.types, row, place, members)? {
        None => leave_out(by, row, place, field, made, trail),
        Some((member, value)) => {
            trail.enter(Step::Member(member))?;
            read_value(by, depth, field.of, value, made, trail)?;
            trail.leave();
            Ok(())
        }
    }
}

/// The components of a row.
#[cycle(making)]
fn read_fields<'a>(
    by: By<'_, '_>,
    depth: usize,
    row: usize,
    members: &[(&'a str, Value<'a>)],
    made: &mut OwnedTape,
    trail: &mut Trail,
) -> Result<(), Fault>
    requires sound { is_sound by.types.table.now ≡ true }
    ensures { (unknown : Option ℕ) → OnOk result (MakesRow (DenoteFirst (given_types by.entry.types)
        by.entry.depth (Denotes (given_types by.entry.types) by.entry.depth depth) row unknown
        (members_view members.now) (fields_of (kind_at by.entry.types.table.now (Some row)))
        (length (fields_of (kind_at by.entry.types.table.now (Some row))))) made.old made.new) }
{
    let fields = by.types.fields(Some(row));
    for (place, field) in fields.iter().enumerate() {
        read_field(by, depth, row, place, field, members, made, trail)?;
    }
    Ok(())
}

/// An array of values of a type. `of` is the place of the type that it is refused for.
#[cycle(making)]
fn read_array(
    by: By<'_, '_>,
    depth: usize,
    of: usize,
    inner: usize,
    value: &Value<'_>,
    made: &mut OwnedTape,
    trail: &mut Trail,
) -> Result<(), Fault>
    requires sound { is_sound by.types.table.now ≡ true }
    ensures { OnOk result (MakesRow (DenotesItems
        (Denotes (given_types by.entry.types) by.entry.depth depth inner) (value_view value.now))
        made.old made.new) }
{
    let Value::Array(items) = value else {
        return Err(trail.refused(of, Reason::Array));
    };
    let items = items.as_slice();
    for (place, item) in items.iter().enumerate() {
        trail.enter(Step::Item(place))?;
        read_value(by, depth, inner, item, made, trail)?;
        trail.leave();
    }
    Ok(())
}

/// The unknown elements behind the components of a row: the member `...`, where there is one.
#[cycle(making)]
fn read_unknown<'a>(
    by: By<'_, '_>,
    depth: usize,
    row: usize,
    members: &[(&'a str, Value<'a>)],
    made: &mut OwnedTape,
    trail: &mut Trail,
) -> Result<(), Fault>
    requires sound { is_sound by.types.table.now ≡ true }
    ensures { OnOk result (MakesRow (DenoteUnknown
        (Denotes (given_types by.entry.types) by.entry.depth depth)
        (type_of_unknown (given_types by.entry.types) (Some row))
        (get_member (codes "...") (members_view members.now))) made.old made.new) }
{
    let Some(of) = by.types.of_unknown(Some(row)) else {
        return Ok(());
    };
    let Some((member, value)) = member_named(members, "...") else {
        return Ok(());
    };
    trail.enter(Step::Member(member))?;
    read_array(by, depth, of, of, value, made, trail)?;
    trail.leave();
    Ok(())
}

/// A row. `of` is the place of its type, and `row` that of the type that all tags and bounds are on.
#[cycle(making)]
fn read_row(
    by: By<'_, '_>,
    depth: usize,
    of: usize,
    row: usize,
    value: &Value<'_>,
    made: &mut OwnedTape,
    trail: &mut Trail,
) -> Result<(), Fault>
    requires sound { is_sound by.types.table.now ≡ true }
    ensures { OnOk result (Makes (DenotesRow (given_types by.entry.types) by.entry.depth
        (Denotes (given_types by.entry.types) by.entry.depth depth) row
        (fields_of (kind_at by.entry.types.table.now (Some row)))
        (type_of_unknown (given_types by.entry.types) (Some row)) (value_view value.now))
        made.old made.new) }
{
    let Value::Object(members) = value else {
        return Err(trail.refused(of, Reason::Object));
    };
    let members = members.as_slice();
    judge_names(by.alloc, by.types, row, members, trail)?;
    let mut inner = OwnedTape::new(by.alloc);
    read_fields(by, depth, row, members, &mut inner, trail)?;
    read_unknown(by, depth, row, members, &mut inner, trail)?;
    made.push_row(by.alloc, &inner)?;
    Ok(())
}

/// A list of values of a type.
#[cycle(making)]
fn read_list(
    by: By<'_, '_>,
    depth: usize,
    of: usize,
    inner: usize,
    value: &Value<'_>,
    made: &mut OwnedTape,
    trail: &mut Trail,
) -> Result<(), Fault>
    requires sound { is_sound by.types.table.now ≡ true }
    ensures { OnOk result (Makes (DenotesList
        (Denotes (given_types by.entry.types) by.entry.depth depth inner) (value_view value.now))
        made.old made.new) }
{
    let mut items = OwnedTape::new(by.alloc);
    read_array(by, depth, of, inner, value, &mut items, trail)?;
    made.push_row(by.alloc, &items)?;
    Ok(())
}

/// The members of a set-of, as they stand.
#[cycle(making)]
fn read_members<'v, 'a>(
    by: By<'_, '_>,
    depth: usize,
    of: usize,
    items: &'v [Value<'a>],
    trail: &mut Trail,
) -> Result<Vec<Member<'v, 'a>>, Fault>
    requires sound { is_sound by.types.table.now ≡ true }
    ensures all { IfOk result (λ members.
        map document_of members.items ≡ map value_view items.now) }
    ensures each { IfOk result (λ members. AreJsonMembers
        (Denotes (given_types by.entry.types) by.entry.depth depth of) members.items) }
{
    let mut members = Vec::new(by.alloc);
    for (place, item) in items.iter().enumerate() {
        trail.enter(Step::Item(place))?;
        let mut made = OwnedTape::new(by.alloc);
        read_value(by, depth, of, item, &mut made, trail)?;
        let octets = encoded(by, of, &made, trail)?;
        trail.leave();
        members.push(Member { item, made, octets })?;
    }
    Ok(members)
}

/// A set of values of a type. They are arranged.
#[cycle(making)]
fn read_set(
    by: By<'_, '_>,
    depth: usize,
    of: usize,
    inner: usize,
    value: &Value<'_>,
    made: &mut OwnedTape,
    trail: &mut Trail,
) -> Result<(), Fault>
    requires sound { is_sound by.types.table.now ≡ true }
    ensures { OnOk result (Makes (DenotesSet
        (Denotes (given_types by.entry.types) by.entry.depth depth inner) (value_view value.now))
        made.old made.new) }
{
    let Value::Array(items) = value else {
        return Err(trail.refused(of, Reason::Array));
    };
    let items = items.as_slice();
    let mut members = read_members(by, depth, inner, items, trail)?;
    arrange(&mut members)?;
    let mut arranged = OwnedTape::new(by.alloc);
    put_members(by.alloc, members.as_slice(), &mut arranged)?;
    made.push_row(by.alloc, &arranged)?;
    Ok(())
}

/// A choice: an object with one member, which has the name of an arm.
#[cycle(making)]
fn read_choice(
    by: By<'_, '_>,
    depth: usize,
    of: usize,
    choice: usize,
    value: &Value<'_>,
    made: &mut OwnedTape,
    trail: &mut Trail,
) -> Result<(), Fault>
    requires sound { is_sound by.types.table.now ≡ true }
    ensures { OnOk result (Makes (DenotesChosen (given_types by.entry.types)
        (Denotes (given_types by.entry.types) by.entry.depth depth) choice
        (arms_of (kind_at by.entry.types.table.now (Some choice))) (value_view value.now))
        made.old made.new) }
{
    let Value::Object(members) = value else {
        return Err(trail.refused(of, Reason::OneMember));
    };
    let Some((name, inner)) = only_member(members.as_slice()) else {
        return Err(trail.refused(of, Reason::OneMember));
    };
    let Some(arm) = arm_named(by.alloc, by.types, choice, name)? else {
        return Err(trail.refused_at(Step::Name(0), of, Reason::UnknownName));
    };
    let Some(of_arm) = by.types.of_arm(Some(choice), arm) else {
        return Err(trail.refused(of, Reason::MissingType));
    };
    made.push(&Item::Arm(arm))?;
    trail.enter(Step::Member(0))?;
    read_value(by, depth, of_arm, inner, made, trail)?;
    trail.leave();
    made.push(&Item::ArmEnd(arm))?;
    Ok(())
}

/// Puts the value of a kind that JSON denotes on a tape. `of` is the place of its type, and `at` that of the type that
/// all tags and bounds are on.
#[cycle(making)]
fn read_kind(
    by: By<'_, '_>,
    depth: usize,
    of: usize,
    at: usize,
    kind: &Kind,
    value: &Value<'_>,
    made: &mut OwnedTape,
    trail: &mut Trail,
) -> Result<(), Fault>
    requires sound { is_sound by.types.table.now ≡ true }
    requires kind { kind_at by.types.table.now (Some at) ≡ Some kind.now }
    ensures { OnOk result (Makes (DenotesKind (given_types by.entry.types) by.entry.depth
        (Denotes (given_types by.entry.types) by.entry.depth depth) at (Some kind.now)
        (value_view value.now))
        made.old made.new) }
{
    match kind {
        Kind::Sequence(_, _) => read_row(by, depth, of, at, value, made, trail),
        Kind::Set(_, _) => read_row(by, depth, of, at, value, made, trail),
        Kind::SequenceOf(inner) => read_list(by, depth, of, *inner, value, made, trail),
        Kind::SetOf(inner) => read_set(by, depth, of, *inner, value, made, trail),
        Kind::Choice(_) => read_choice(by, depth, of, at, value, made, trail),
        _ => read_leaf(by, of, at, kind, value, made, trail),
    }
}

/// Whether the parts of a value alone may not say whether it is one of a type: its size has bounds, or unknown elements
/// stand in a set.
fn is_judged_whole(of: usize, at: usize, kind: &Kind) -> bool {
    match kind {
        Kind::Set(_, Some(_)) => true,
        Kind::Sequence(_, _) => of != at,
        Kind::Set(_, _) => of != at,
        Kind::SequenceOf(_) => of != at,
        Kind::SetOf(_) => of != at,
        Kind::Choice(_) => of != at,
        _ => false,
    }
}

/// Tells whether what stands on the tape from a place on is a value of a type, where its parts alone do not say it.
fn judge_whole(
    by: By<'_, '_>,
    of: usize,
    at: usize,
    kind: &Kind,
    start: usize,
    made: &OwnedTape,
    trail: &mut Trail,
) -> Result<(), Fault>
    requires { is_sound by.types.table.now ≡ true }
{
    if !is_judged_whole(of, at, kind) {
        return Ok(());
    }
    let tape = made.lend_from(by.alloc, start)?;
    judge(by, of, &tape, trail)
}

/// Puts the value of a type that JSON denotes on a tape, behind what is there. Arrays and objects nest less deep than
/// `depth`.
#[cycle(making)]
pub(super) fn read_value(
    by: By<'_, '_>,
    depth: usize,
    of: usize,
    value: &Value<'_>,
    made: &mut OwnedTape,
    trail: &mut Trail,
) -> Result<(), Fault>
    requires { is_sound by.types.table.now ≡ true }
    ensures { OnOk result (Makes (Denotes (given_types by.entry.types) by.entry.depth depth of
        (value_view value.now)) made.old made.new) }
{
    if depth == 0 {
        return Err(trail.refused(of, Reason::Json));
    }
    let Some(at) = by.types.resolved(Some(of)) else {
        return Err(trail.refused(of, Reason::MissingType));
    };
    let Some(kind) = by.types.kind(Some(at)) else {
        return Err(trail.refused(of, Reason::MissingType));
    };
    let start = made.len();
    read_kind(by, depth - 1, of, at, kind, value, made, trail)?;
    judge_whole(by, of, at, kind, start, made, trail)?;
    Ok(())
}
