//! One writer for all types of all sound tables. It goes through the tape from its end, and puts the one strict word of
//! the value in front of what was written before.
ghost use Rattle.std.specs.Prelude.{◌≡◌, ◌≤◌, ◌<◌, [], true, length, slice_get, Some};
ghost use Rattle.asn1_schema.specs.Sound.{is_sound, all_before};
ghost use Rattle.asn1_schema.specs.Grammar.{Word};
ghost use Rattle.asn1_schema.specs.Rules.{strict};
ghost use Rattle.asn1_schema.specs.Writing.{Writes, WritesRow, WritesField, WritesDefault, is_tagged};
ghost use Rattle.asn1_schema.specs.Writing.{IsContentOfKind, IsArm, IsWithinBounds, IsFieldRow, IsList, AreCounted};
ghost use Rattle.asn1_schema.specs.Writing.{AreCountedItems, IsFieldSet, AreCountedSet};

use crate::endings::{last_absent, last_arm, last_end};
use crate::fault::Fault;
use crate::fronts::{finish, in_front, is_constructed, omit_default};
use crate::put_any::put_any;
use crate::put_bits::put_bits;
use crate::put_leaves::{put_boolean, put_enumerated, put_identifier, put_integer, put_null};
use crate::put_rows::{
    arm_at, begin_arm, begin_row, count_behind, count_unknown, may_precede, none_unknown,
    within_bounds,
};
use crate::put_strings::{put_octets, put_text, put_time};
use crate::schema::{Field, Kind, Node, Presence};
use crate::settling::{are_ascending, settle};
use crate::tagged::node_at;
use crate::tape::Item;
use asn1_headers::buffer::DerBuffer;

/// Writes the value before a place of the tape as a value of a type of a table, in front of the octets. It answers
/// where the value begins on the tape.
#[cycle(writing)]
pub(crate) fn put_value(
    nodes: &[Node],
    depth: usize,
    of: usize,
    tape: &[Item<'_>],
    at: usize,
    buf: &mut DerBuffer,
) -> Result<usize, Fault>
    requires place { at ≤ length tape.now }
    requires sound { is_sound nodes.now ≡ true }
    ensures { Writes (Word strict nodes.now depth of) tape.now at buf.old buf.new result }
{
    if depth == 0 {
        return Err(Fault::Refused);
    }
    let Some(node) = node_at(nodes, of) else {
        return Err(Fault::Refused);
    };
    match &node.kind {
        Kind::Choice(arms) => put_choice(nodes, depth, of, arms, tape, at, buf),
        Kind::Within(inner, lower, upper) => {
            put_within(nodes, depth, of, *inner, *lower, *upper, tape, at, buf)
        }
        Kind::Any => put_any(&node.tags, depth - 1, tape, at, buf),
        _ => put_element(nodes, depth, of, node, tape, at, buf),
    }
}

/// Writes an element with the one tag of its type.
#[cycle(writing)]
fn put_element(
    nodes: &[Node],
    depth: usize,
    of: usize,
    node: &Node,
    tape: &[Item<'_>],
    at: usize,
    buf: &mut DerBuffer,
) -> Result<usize, Fault>
    requires place { at ≤ length tape.now }
    requires sound { is_sound nodes.now ≡ true }
    requires some { 0 < depth }
    requires found { slice_get nodes.now of ≡ Some node.now }
    requires tagged { is_tagged node.now.kind ≡ true }
    ensures { Writes (Word strict nodes.now depth of) tape.now at buf.old buf.new result }
{
    let held = buf.len();
    match put_content(nodes, depth - 1, &node.kind, tape, at, buf) {
        Ok(rest) => finish(&node.tags, is_constructed(&node.kind), held, rest, buf),
        Err(e) => Err(e),
    }
}

/// Writes the value of an arm. The arms stand before their choice.
#[cycle(writing)]
fn put_choice(
    nodes: &[Node],
    depth: usize,
    of: usize,
    arms: &[usize],
    tape: &[Item<'_>],
    at: usize,
    buf: &mut DerBuffer,
) -> Result<usize, Fault>
    requires place { at ≤ length tape.now }
    requires sound { is_sound nodes.now ≡ true }
    requires within { of < length nodes.now }
    requires order { all_before of arms.now ≡ true }
    ensures { Writes (IsArm nodes.now depth arms.now) tape.now at buf.old buf.new result }
{
    let Some(k) = last_arm(tape, at) else {
        return Err(Fault::Refused);
    };
    let Some(arm) = arm_at(arms, k) else {
        return Err(Fault::Refused);
    };
    match put_value(nodes, depth, arm, tape, at - 1, buf) {
        Ok(rest) => begin_arm(tape, rest, k),
        Err(e) => Err(e),
    }
}

/// Writes a value within bounds. Its type stands before them.
#[cycle(writing)]
fn put_within(
    nodes: &[Node],
    depth: usize,
    of: usize,
    inner: usize,
    lower: Option<i128>,
    upper: Option<i128>,
    tape: &[Item<'_>],
    at: usize,
    buf: &mut DerBuffer,
) -> Result<usize, Fault>
    requires place { at ≤ length tape.now }
    requires sound { is_sound nodes.now ≡ true }
    requires within { of < length nodes.now }
    requires order { inner < of }
    ensures { Writes (IsWithinBounds nodes.now depth inner lower upper) tape.now at buf.old buf.new
        result }
{
    match put_value(nodes, depth, inner, tape, at, buf) {
        Ok(rest) => within_bounds(tape, rest, at, lower, upper),
        Err(e) => Err(e),
    }
}

/// Writes the contents octets of a value of a kind whose elements have one tag.
#[cycle(writing)]
fn put_content(
    nodes: &[Node],
    depth: usize,
    kind: &Kind,
    tape: &[Item<'_>],
    at: usize,
    buf: &mut DerBuffer,
) -> Result<usize, Fault>
    requires place { at ≤ length tape.now }
    requires sound { is_sound nodes.now ≡ true }
    requires tagged { is_tagged kind.now ≡ true }
    ensures { Writes (IsContentOfKind nodes.now depth kind.now) tape.now at buf.old buf.new result }
{
    match kind {
        Kind::Boolean => put_boolean(tape, at, buf),
        Kind::Null => put_null(tape, at, buf),
        Kind::Integer => put_integer(tape, at, buf),
        Kind::Enumerated(numbers, extensible) => {
            put_enumerated(numbers, *extensible, tape, at, buf)
        }
        Kind::Bits(named) => put_bits(*named, tape, at, buf),
        Kind::Octets => put_octets(tape, at, buf),
        Kind::Identifier(relative) => put_identifier(*relative, tape, at, buf),
        Kind::Text(text) => put_text(*text, tape, at, buf),
        Kind::Time(time) => put_time(*time, tape, at, buf),
        Kind::Sequence(fields, unknown) => {
            put_row(nodes, depth, fields, *unknown, tape, at, buf)
        }
        Kind::Set(fields, unknown) => put_set(nodes, depth, fields, *unknown, tape, at, buf),
        Kind::SequenceOf(inner) => put_list(nodes, depth, *inner, false, tape, at, buf),
        Kind::SetOf(inner) => put_list(nodes, depth, *inner, true, tape, at, buf),
        Kind::Explicit(inner) => put_value(nodes, depth, *inner, tape, at, buf),
        Kind::Any => Err(Fault::Refused),
        Kind::Choice(_) => Err(Fault::Refused),
        Kind::Within(_, _, _) => Err(Fault::Refused),
    }
}

/// Writes the values of a row of fields and unknown elements, which ends before a place.
#[cycle(writing)]
fn put_row(
    nodes: &[Node],
    depth: usize,
    fields: &[Field],
    unknown: Option<usize>,
    tape: &[Item<'_>],
    at: usize,
    buf: &mut DerBuffer,
) -> Result<usize, Fault>
    requires place { at ≤ length tape.now }
    requires sound { is_sound nodes.now ≡ true }
    ensures { Writes (IsFieldRow nodes.now depth unknown fields.now) tape.now at buf.old buf.new
        result }
{
    let Some(items) = last_end(tape, at) else {
        return Err(Fault::Refused);
    };
    let count = count_unknown(unknown, fields.len(), tape, items, at - 1);
    match put_fields(nodes, depth, fields, unknown, count, tape, at - 1, buf) {
        Ok(rest) => begin_row(tape, at - 1, rest, items),
        Err(e) => Err(e),
    }
}

/// Writes the values of fields, and of so many unknown elements behind them, the last one first.
#[cycle(writing)]
fn put_fields(
    nodes: &[Node],
    depth: usize,
    fields: &[Field],
    unknown: Option<usize>,
    count: usize,
    tape: &[Item<'_>],
    at: usize,
    buf: &mut DerBuffer,
) -> Result<usize, Fault>
    requires place { at ≤ length tape.now }
    requires sound { is_sound nodes.now ≡ true }
    ensures { WritesRow (AreCounted nodes.now depth unknown count fields.now) tape.now at buf.old
        buf.new result }
{
    let mut rest = match put_unknown(nodes, depth, unknown, count, tape, at, buf) {
        Ok(place) => place,
        Err(e) => return Err(e),
    };
    let mut left = fields;
    while let Some((field, others)) = left.split_last() {
        match put_field(nodes, depth, field, tape, rest, buf) {
            Ok(place) => rest = place,
            Err(e) => return Err(e),
        }
        left = others;
    }
    Ok(rest)
}

/// Writes the values of a set of fields and unknown elements, which ends before a place.
#[cycle(writing)]
fn put_set(
    nodes: &[Node],
    depth: usize,
    fields: &[Field],
    unknown: Option<usize>,
    tape: &[Item<'_>],
    at: usize,
    buf: &mut DerBuffer,
) -> Result<usize, Fault>
    requires place { at ≤ length tape.now }
    requires sound { is_sound nodes.now ≡ true }
    ensures { Writes (IsFieldSet nodes.now depth unknown fields.now) tape.now at buf.old buf.new
        result }
{
    let Some(items) = last_end(tape, at) else {
        return Err(Fault::Refused);
    };
    let count = count_unknown(unknown, fields.len(), tape, items, at - 1);
    match put_members(nodes, depth, fields, unknown, count, tape, at - 1, buf) {
        Ok(rest) => begin_row(tape, at - 1, rest, items),
        Err(e) => Err(e),
    }
}

/// Writes the values of the fields of a set, and so many unknown elements, each in its place by its tag (X.690 10.3).
#[cycle(writing)]
fn put_members(
    nodes: &[Node],
    depth: usize,
    fields: &[Field],
    unknown: Option<usize>,
    count: usize,
    tape: &[Item<'_>],
    at: usize,
    buf: &mut DerBuffer,
) -> Result<usize, Fault>
    requires place { at ≤ length tape.now }
    requires sound { is_sound nodes.now ≡ true }
    ensures { WritesRow (AreCountedSet nodes.now depth unknown count fields.now) tape.now at buf.old
        buf.new result }
{
    let held = buf.len();
    let mut rest = match put_unknown(nodes, depth, unknown, count, tape, at, buf) {
        Ok(place) => place,
        Err(e) => return Err(e),
    };
    if !are_ascending(in_front(buf, held)) {
        return Err(Fault::Refused);
    }
    let mut left = fields;
    while let Some((field, others)) = left.split_last() {
        let behind = buf.len();
        match put_field(nodes, depth, field, tape, rest, buf) {
            Ok(place) => rest = place,
            Err(e) => return Err(e),
        }
        if !settle(held, behind, buf) {
            return Err(Fault::Refused);
        }
        left = others;
    }
    Ok(rest)
}

/// Writes so many unknown elements behind an extension mark, where there is one.
#[cycle(writing)]
fn put_unknown(
    nodes: &[Node],
    depth: usize,
    unknown: Option<usize>,
    count: usize,
    tape: &[Item<'_>],
    at: usize,
    buf: &mut DerBuffer,
) -> Result<usize, Fault>
    requires place { at ≤ length tape.now }
    requires sound { is_sound nodes.now ≡ true }
    ensures { WritesRow (AreCounted nodes.now depth unknown count []) tape.now at buf.old buf.new
        result }
{
    match unknown {
        Some(of) => put_items(nodes, depth, of, false, count, tape, at, buf),
        None => none_unknown(count, at),
    }
}

/// Writes the members of a list, which ends before a place.
#[cycle(writing)]
fn put_list(
    nodes: &[Node],
    depth: usize,
    of: usize,
    ascending: bool,
    tape: &[Item<'_>],
    at: usize,
    buf: &mut DerBuffer,
) -> Result<usize, Fault>
    requires place { at ≤ length tape.now }
    requires sound { is_sound nodes.now ≡ true }
    ensures { Writes (IsList nodes.now depth of ascending) tape.now at buf.old buf.new result }
{
    let Some(items) = last_end(tape, at) else {
        return Err(Fault::Refused);
    };
    let count = count_behind(0, tape, items, at - 1);
    match put_items(nodes, depth, of, ascending, count, tape, at - 1, buf) {
        Ok(rest) => begin_row(tape, at - 1, rest, items),
        Err(e) => Err(e),
    }
}

/// Writes so many values of one type, the last one first.
#[cycle(writing)]
fn put_items(
    nodes: &[Node],
    depth: usize,
    of: usize,
    ascending: bool,
    count: usize,
    tape: &[Item<'_>],
    at: usize,
    buf: &mut DerBuffer,
) -> Result<usize, Fault>
    requires place { at ≤ length tape.now }
    requires sound { is_sound nodes.now ≡ true }
    ensures { WritesRow (AreCountedItems nodes.now depth of ascending count) tape.now at buf.old
        buf.new result }
{
    let mut rest = at;
    let mut left = count;
    let mut first = None;
    while left > 0 {
        let held = buf.len();
        match put_value(nodes, depth, of, tape, rest, buf) {
            Ok(place) => rest = place,
            Err(e) => return Err(e),
        }
        if !may_precede(ascending, first, held, buf) {
            return Err(Fault::Refused);
        }
        first = Some(buf.len() - held);
        left -= 1;
    }
    Ok(rest)
}

/// Writes the value of a field with a default: nothing, where it is the default (X.690 11.5).
#[cycle(writing)]
fn put_default(
    nodes: &[Node],
    depth: usize,
    of: usize,
    default: &[u8],
    tape: &[Item<'_>],
    at: usize,
    buf: &mut DerBuffer,
) -> Result<usize, Fault>
    requires place { at ≤ length tape.now }
    requires sound { is_sound nodes.now ≡ true }
    ensures { WritesDefault (Word strict nodes.now depth of) default.now tape.now at buf.old
        buf.new result }
{
    let held = buf.len();
    match put_value(nodes, depth, of, tape, at, buf) {
        Ok(rest) => {
            omit_default(default, held, buf);
            Ok(rest)
        }
        Err(e) => Err(e),
    }
}

/// Writes the value of a field, or nothing where it is left out.
#[cycle(writing)]
fn put_field(
    nodes: &[Node],
    depth: usize,
    field: &Field,
    tape: &[Item<'_>],
    at: usize,
    buf: &mut DerBuffer,
) -> Result<usize, Fault>
    requires place { at ≤ length tape.now }
    requires sound { is_sound nodes.now ≡ true }
    ensures { WritesField (Word strict nodes.now depth field.now.of) field.now.presence tape.now at
        buf.old buf.new result }
{
    match &field.presence {
        Presence::Default(default) => put_default(nodes, depth, field.of, default, tape, at, buf),
        Presence::Required => put_value(nodes, depth, field.of, tape, at, buf),
        Presence::Optional => match last_absent(tape, at) {
            Some(()) => Ok(at - 1),
            None => put_value(nodes, depth, field.of, tape, at, buf),
        },
    }
}
