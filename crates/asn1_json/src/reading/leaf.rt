//! Values without parts, from JSON.
ghost use Rattle.std.specs.Prelude.{ℤ, Bool, [], ◌≡◌, ◌<◌, ◌++◌, true};
ghost use Rattle.std.specs.Prelude.{false, Some, IfOk, MatchResult, OnOk, length};
ghost use Rattle.x690.specs.Strict.{header_octets};
ghost use Rattle.std.specs.declared.vec.Vec.{Vec};
ghost use Rattle.std.specs.declared.alloc.Global.{Global};
ghost use Rattle.json.specs.Json.{string};
ghost use Rattle.json.specs.Value.{value_view};
ghost use Rattle.asn1_schema.specs.declared.schema.Kind.TheVariants as kinds;
ghost use Rattle.asn1_schema.specs.Sound.{is_sound};
ghost use Rattle.asn1_schema.specs.Tape.{leaf_mark, mark, marks};
ghost use Rattle.asn1_schema.specs.Values.{LeafValue, Value as SpecValue, leaf};
ghost use Rattle.asn1_json.specs.DenotedLeaves.{DenotesIdentifier};
ghost use Rattle.asn1_json.specs.Found.{FindsOnly};
ghost use Rattle.asn1_json.specs.Made.{tape_of_value};
ghost use Rattle.asn1_json.specs.Outcomes.{DenotesSimple, HasWord, IsElementFound, Makes, ReadsDenoted, ReadsLeaf};
ghost use Rattle.asn1_json.specs.Types.{labels_at};
ghost use Rattle.asn1_json.specs.declared.reading.trail.Fault.TheVariants as faults;

use crate::leaves::element;
use crate::reading::arcs::{has_arcs, identifier_content};
use crate::reading::bits::{bits_of, hexadecimal};
use crate::reading::characters::{character_octets, text_octets};
use crate::reading::integers::integer_content;
use crate::reading::trail::{Fault, Reason, Trail};
use crate::types::Types;
use asn1_headers::buffer::DerBuffer;
use asn1_headers::der::element_by_der;
use asn1_schema::encode::{EncodeError, encode_der};
use asn1_schema::laws::tapes_begin_with_one_value;
use asn1_schema::owned::OwnedTape;
use asn1_schema::schema::{Kind, TextKind, TimeKind};
use asn1_schema::tape::Item;
use json::Value;
use std::alloc::{AllocError, Global};
use x690::signed::signed_into;

/// What JSON is read by.
#[derive(Debug, Clone, Copy)]
pub(super) struct By<'s, 'n> {
    /// Where memory comes from.
    pub(super) alloc: Global,
    /// The table, and the names beside it.
    pub(super) types: Types<'s, 'n>,
    /// Elements of the encoding may nest so deep.
    pub(super) depth: usize,
}

/// Tells whether a tape is that of a value of a type that has a strict encoding.
pub(super) fn judge(
    by: By<'_, '_>,
    of: usize,
    tape: &[Item<'_>],
    trail: &mut Trail,
) -> Result<(), Fault>
    requires { is_sound by.types.table.now ≡ true }
    ensures { (v : SpecValue) → marks tape.now ≡ tape_of_value v → MatchResult result
        (λ _. HasWord by.entry.types.table.now by.entry.depth of v)
        (λ fault. fault ≡ faults.Refused →
        HasWord by.entry.types.table.now by.entry.depth of v → ⊥) }
{
    tapes_begin_with_one_value();
    let mut buf = DerBuffer::new(by.alloc);
    match encode_der(by.types.table, of, by.depth, tape, &mut buf) {
        Ok(()) => Ok(()),
        Err(EncodeError::OutOfMemory) => Err(Fault::Memory),
        Err(EncodeError::Refused) => Err(trail.refused(of, Reason::Value)),
    }
}

/// Puts a value without parts on a tape, where it is one of the type that has a strict encoding.
fn put(
    by: By<'_, '_>,
    of: usize,
    item: Item<'_>,
    made: &mut OwnedTape,
    trail: &mut Trail,
) -> Result<(), Fault>
    requires { is_sound by.types.table.now ≡ true }
    ensures { (l : LeafValue) → mark item.entry ≡ leaf_mark l → ReadsDenoted (λ v. v ≡ leaf l)
        (HasWord by.entry.types.table.now by.entry.depth of) made.old made.new result }
{
    match judge(by, of, &[item], trail) {
        Ok(()) => {
            made.push(&item)?;
            Ok(())
        }
        Err(fault) => Err(fault),
    }
}

/// A truth value.
fn read_boolean(
    by: By<'_, '_>,
    of: usize,
    value: &Value<'_>,
    made: &mut OwnedTape,
    trail: &mut Trail,
) -> Result<(), Fault>
    requires sound { is_sound by.types.table.now ≡ true }
    ensures { ReadsLeaf by.entry of [] kinds.Boolean (value_view value.now)
        made.old made.new result }
{
    match value {
        Value::Bool(truth) => put(by, of, Item::Boolean(*truth), made, trail),
        _ => Err(trail.refused(of, Reason::Boolean)),
    }
}

/// No value.
fn read_null(
    by: By<'_, '_>,
    of: usize,
    value: &Value<'_>,
    made: &mut OwnedTape,
    trail: &mut Trail,
) -> Result<(), Fault>
    requires sound { is_sound by.types.table.now ≡ true }
    ensures { ReadsLeaf by.entry of [] kinds.Null (value_view value.now)
        made.old made.new result }
{
    match value {
        Value::Null => put(by, of, Item::Null, made, trail),
        _ => Err(trail.refused(of, Reason::Null)),
    }
}

/// An integer.
fn read_integer(
    by: By<'_, '_>,
    of: usize,
    value: &Value<'_>,
    made: &mut OwnedTape,
    trail: &mut Trail,
) -> Result<(), Fault>
    requires sound { is_sound by.types.table.now ≡ true }
    ensures { ReadsLeaf by.entry of [] kinds.Integer (value_view value.now)
        made.old made.new result }
{
    let Value::Number(text) = value else {
        return Err(trail.refused(of, Reason::Integer));
    };
    match integer_content(by.alloc, text)? {
        Some(content) => put(by, of, Item::Integer(&content), made, trail),
        None => Err(trail.refused(of, Reason::Integer)),
    }
}

/// A listed number by its name.
fn read_name(
    by: By<'_, '_>,
    of: usize,
    at: usize,
    name: &str,
    made: &mut OwnedTape,
    trail: &mut Trail,
) -> Result<(), Fault>
    requires sound { is_sound by.types.table.now ≡ true }
    ensures { (numbers : Vec ℤ Global) (extensible : Bool) → ReadsLeaf by.entry of
        (labels_at by.entry.types.names.now (Some at)) (kinds.Enumerated numbers extensible)
        (string name.now)
        made.old made.new result }
{
    let Some(number) = by.types.number(at, name) else {
        return Err(trail.refused(of, Reason::Listed));
    };
    let mut content = [0; 17];
    let start = signed_into(number, &mut content);
    put(by, of, Item::Enumerated(&content[start..]), made, trail)
}

/// A listed number: by its name, or as a number.
fn read_listed(
    by: By<'_, '_>,
    of: usize,
    at: usize,
    value: &Value<'_>,
    made: &mut OwnedTape,
    trail: &mut Trail,
) -> Result<(), Fault>
    requires sound { is_sound by.types.table.now ≡ true }
    ensures { (numbers : Vec ℤ Global) (extensible : Bool) → ReadsLeaf by.entry of
        (labels_at by.entry.types.names.now (Some at)) (kinds.Enumerated numbers extensible)
        (value_view value.now)
        made.old made.new result }
{
    match value {
        Value::String(name) => read_name(by, of, at, name, made, trail),
        Value::Number(text) => match integer_content(by.alloc, text)? {
            Some(content) => put(by, of, Item::Enumerated(&content), made, trail),
            None => Err(trail.refused(of, Reason::Listed)),
        },
        _ => Err(trail.refused(of, Reason::Listed)),
    }
}

/// A bit string.
fn read_bits(
    by: By<'_, '_>,
    of: usize,
    value: &Value<'_>,
    made: &mut OwnedTape,
    trail: &mut Trail,
) -> Result<(), Fault>
    requires sound { is_sound by.types.table.now ≡ true }
    ensures { (named : Bool) → ReadsLeaf by.entry of [] (kinds.Bits named) (value_view value.now)
        made.old made.new result }
{
    let Value::Object(members) = value else {
        return Err(trail.refused(of, Reason::Bits));
    };
    match bits_of(by.alloc, members)? {
        Some((unused, octets)) => put(by, of, Item::Bits(unused, &octets), made, trail),
        None => Err(trail.refused(of, Reason::Bits)),
    }
}

/// An octet string.
fn read_octets(
    by: By<'_, '_>,
    of: usize,
    value: &Value<'_>,
    made: &mut OwnedTape,
    trail: &mut Trail,
) -> Result<(), Fault>
    requires sound { is_sound by.types.table.now ≡ true }
    ensures { ReadsLeaf by.entry of [] kinds.Octets (value_view value.now)
        made.old made.new result }
{
    let Value::String(text) = value else {
        return Err(trail.refused(of, Reason::Octets));
    };
    match hexadecimal(by.alloc, text)? {
        Some(octets) => put(by, of, Item::Octets(&octets), made, trail),
        None => Err(trail.refused(of, Reason::Octets)),
    }
}

/// The contents octets of an identifier: by its arcs, or in hexadecimal where these are too large to be shown.
fn content_of(alloc: Global, relative: bool, text: &str) -> Result<Option<Vec<u8>>, AllocError>
    ensures { IfOk result (FindsOnly (λ content. content.items) (DenotesIdentifier relative text.now)) }
{
    if has_arcs(relative, text) {
        return identifier_content(alloc, relative, text);
    }
    hexadecimal(alloc, text)
}

/// An identifier.
fn read_identifier(
    by: By<'_, '_>,
    of: usize,
    relative: bool,
    value: &Value<'_>,
    made: &mut OwnedTape,
    trail: &mut Trail,
) -> Result<(), Fault>
    requires sound { is_sound by.types.table.now ≡ true }
    ensures { ReadsLeaf by.entry of [] (kinds.Identifier relative) (value_view value.now)
        made.old made.new result }
{
    let Value::String(text) = value else {
        return Err(trail.refused(of, Reason::Identifier));
    };
    match content_of(by.alloc, relative, text)? {
        Some(content) => put(by, of, Item::Identifier(relative, &content), made, trail),
        None => Err(trail.refused(of, Reason::Identifier)),
    }
}

/// A character string.
fn read_text(
    by: By<'_, '_>,
    of: usize,
    kind: TextKind,
    value: &Value<'_>,
    made: &mut OwnedTape,
    trail: &mut Trail,
) -> Result<(), Fault>
    requires sound { is_sound by.types.table.now ≡ true }
    ensures { ReadsLeaf by.entry of [] (kinds.Text kind) (value_view value.now)
        made.old made.new result }
{
    let Value::String(text) = value else {
        return Err(trail.refused(of, Reason::Text));
    };
    match text_octets(by.alloc, kind, text)? {
        Some(octets) => put(by, of, Item::Text(kind, &octets), made, trail),
        None => Err(trail.refused(of, Reason::Text)),
    }
}

/// A time.
fn read_time(
    by: By<'_, '_>,
    of: usize,
    kind: TimeKind,
    value: &Value<'_>,
    made: &mut OwnedTape,
    trail: &mut Trail,
) -> Result<(), Fault>
    requires sound { is_sound by.types.table.now ≡ true }
    ensures { ReadsLeaf by.entry of [] (kinds.Time kind) (value_view value.now)
        made.old made.new result }
{
    let Value::String(text) = value else {
        return Err(trail.refused(of, Reason::Time));
    };
    match character_octets(by.alloc, text)? {
        Some(octets) => put(by, of, Item::Time(kind, &octets), made, trail),
        None => Err(trail.refused(of, Reason::Value)),
    }
}

/// Whether octets are the element with these parts and a strict header.
fn is_element(
    alloc: Global,
    octets: &[u8],
    class: u8,
    constructed: bool,
    number: u32,
    content: &[u8],
) -> Result<bool, AllocError>
    ensures class { IfOk result (λ is. is ≡ true → class < 4) }
    ensures octets { IfOk result (λ is. is ≡ true → octets.now ≡
        header_octets class constructed number (length content.now) ++ content.now) }
    ensures other { IfOk result (λ is. is ≡ false → class < 4 → ¬ (octets.now ≡
        header_octets class constructed number (length content.now) ++ content.now)) }
{
    if class >= 4 {
        return Ok(false);
    }
    let own = element(alloc, class, constructed, number, content)?;
    Ok(own.as_bytes() == octets)
}

/// The one element that octets are, as an item.
///
/// That they are is seen from its strict encoding.
fn element_of(alloc: Global, octets: &[u8]) -> Result<Option<Item<'_>>, AllocError>
    ensures { IfOk result (IsElementFound octets.now) }
{
    let Ok((_, (header, content))) = element_by_der(octets) else {
        return Ok(None);
    };
    let class = header.class().number();
    let constructed = header.constructed();
    let number = header.tag().0;
    if is_element(alloc, octets, class, constructed, number, content)? {
        Ok(Some(Item::Any(class, constructed, number, content)))
    } else {
        Ok(None)
    }
}

/// An element of any type.
fn read_element(
    by: By<'_, '_>,
    of: usize,
    value: &Value<'_>,
    made: &mut OwnedTape,
    trail: &mut Trail,
) -> Result<(), Fault>
    requires sound { is_sound by.types.table.now ≡ true }
    ensures { ReadsLeaf by.entry of [] kinds.Any (value_view value.now)
        made.old made.new result }
{
    let Value::String(text) = value else {
        return Err(trail.refused(of, Reason::Element));
    };
    let Some(octets) = hexadecimal(by.alloc, text)? else {
        return Err(trail.refused(of, Reason::Element));
    };
    match element_of(by.alloc, &octets)? {
        Some(item) => put(by, of, item, made, trail),
        None => Err(trail.refused(of, Reason::Element)),
    }
}

/// Puts the value without parts that JSON denotes on a tape. `of` is the place of its type, and `at` that of the type
/// that all tags and bounds are on.
pub(super) fn read_leaf(
    by: By<'_, '_>,
    of: usize,
    at: usize,
    kind: &Kind,
    value: &Value<'_>,
    made: &mut OwnedTape,
    trail: &mut Trail,
) -> Result<(), Fault>
    requires sound { is_sound by.types.table.now ≡ true }
    ensures { OnOk result (Makes (DenotesSimple (labels_at by.entry.types.names.now (Some at))
        kind.now (value_view value.now)) made.old made.new) }
{
    match kind {
        Kind::Boolean => read_boolean(by, of, value, made, trail),
        Kind::Null => read_null(by, of, value, made, trail),
        Kind::Integer => read_integer(by, of, value, made, trail),
        Kind::Enumerated(_, _) => read_listed(by, of, at, value, made, trail),
        Kind::Bits(_) => read_bits(by, of, value, made, trail),
        Kind::Octets => read_octets(by, of, value, made, trail),
        Kind::Identifier(relative) => read_identifier(by, of, *relative, value, made, trail),
        Kind::Text(kind) => read_text(by, of, *kind, value, made, trail),
        Kind::Time(kind) => read_time(by, of, *kind, value, made, trail),
        Kind::Any => read_element(by, of, value, made, trail),
        _ => Err(trail.refused(of, Reason::MissingType)),
    }
}
