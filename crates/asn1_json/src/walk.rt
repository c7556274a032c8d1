//! A value is shown item by item, over a stack of what is open.
ghost use Rattle.std.specs.Prelude.{suc, ◌≡◌, ◌++◌, ◌∷◌, ◌<◌, [], List, reverse, length, nat_lt, OnOk, IfOk, IsErrOf};
ghost use Rattle.json.specs.Token.{begin_object, key};
ghost use Rattle.asn1_schema.specs.Tape.{Kept, Mark, marks, tape_of, value_of};
ghost use Rattle.asn1_schema.specs.Values.{LeafValue, Values, leaf};
ghost use Rattle.asn1_json.specs.Leaves.{leaf_tokens};
ghost use Rattle.asn1_json.specs.Types.{labels_at, or_name};
ghost use Rattle.asn1_json.specs.Tokens.{Types as SpecTypes, given_types, type_of_arm, type_of_members, name_of_arm};
ghost use Rattle.asn1_json.specs.Tokens.{name_of_field};
ghost use Rattle.asn1_json.specs.Tokens.{count_of_fields, tokens_of_fields};
ghost use Rattle.asn1_json.specs.Walk.{Steps, AwaitNot, OpensRow, BeginsField, items_end};
ghost use Rattle.asn1_json.specs.declared.walk.Frame.{Frame as SpecFrame};
ghost use Rattle.asn1_json.specs.declared.walk.Frame.TheVariants as awaited;
ghost use Rattle.asn1_json.specs.declared.error.JsonError.TheVariants as errors;
ghost use Rattle.asn1_words.specs.Words.{number_text};

use crate::error::JsonError;
use crate::front::{Front, Opening, behind_first, front_of};
use crate::leaves::{count_text, pieces_of, put_leaf};
use crate::out::TokenWriter;
use crate::types::Types;
use asn1_schema::cursor::split_value;
use asn1_schema::tape::Item;
use json::Token;
use std::alloc::{AllocError, Global};

/// What is awaited.
#[derive(Debug, Clone, Copy)]
pub enum Frame {
    /// A value of this type.
    Value(Option<usize>),
    /// Values of this type, and their end: members of a list, or unknown elements where it is `true`.
    Items(Option<usize>, bool),
    /// Fields of the row at a place, from a field on, and the end of the row.
    Fields(Option<usize>, usize),
    /// The end of an arm.
    ArmEnd,
}

/// Writes the name of a member, or a number where it has none.
fn put_key<W: TokenWriter>(
    alloc: Global,
    out: &mut W,
    name: &str,
    number: usize,
) -> Result<(), AllocError>
    ensures { OnOk result (W.written out.new ≡
        W.written out.old ++ key (or_name name.now (number_text number)) ∷ []) }
{
    if !name.is_empty() {
        return out.put(Token::Key(name));
    }
    let text = count_text(alloc, number)?;
    out.put(Token::Key(text.as_str()))
}

/// Writes the name of an arm.
fn put_arm_name<W: TokenWriter>(
    alloc: Global,
    types: Types<'_, '_>,
    at: Option<usize>,
    arm: usize,
    out: &mut W,
) -> Result<(), AllocError>
    ensures { OnOk result (W.written out.new ≡
        W.written out.old ++ key (name_of_arm (given_types types.entry) at arm) ∷ []) }
{
    let name = types.name(at, Some(arm as i128));
    if name.is_empty() && types.is_any(types.of_arm(at, arm)) {
        return out.put(Token::Key("..."));
    }
    put_key(alloc, out, name, arm)
}

/// Writes the name of a field.
fn put_field_name<W: TokenWriter>(
    alloc: Global,
    types: Types<'_, '_>,
    at: Option<usize>,
    place: usize,
    out: &mut W,
) -> Result<(), AllocError>
    ensures { OnOk result (W.written out.new ≡
        W.written out.old ++ key (name_of_field (given_types types.entry) at place) ∷ []) }
{
    put_key(alloc, out, types.name(at, Some(place as i128)), place)
}

/// A row begins.
fn open_row<W: TokenWriter>(
    types: Types<'_, '_>,
    at: Option<usize>,
    frames: &mut Vec<Frame>,
    out: &mut W,
) -> Result<(), AllocError>
    ensures { OnOk result (OpensRow (type_of_members (given_types types.entry) at) at
        frames.old.items
        frames.new.items (W.written out.old) (W.written out.new)) }
{
    match types.of_members(at) {
        Some(of) => {
            frames.push(Frame::Items(Some(of), false))?;
            out.put(Token::BeginArray)
        }
        None => {
            frames.push(Frame::Fields(at, 0))?;
            out.put(Token::BeginObject)
        }
    }
}

/// An arm begins.
fn open_arm<W: TokenWriter>(
    alloc: Global,
    types: Types<'_, '_>,
    at: Option<usize>,
    arm: usize,
    frames: &mut Vec<Frame>,
    out: &mut W,
) -> Result<(), AllocError>
    ensures frames { OnOk result (frames.new.items ≡ (frames.old.items ++ awaited.ArmEnd ∷ []) ++
        awaited.Value (type_of_arm (given_types types.entry) at arm) ∷ []) }
    ensures tokens { OnOk result (W.written out.new ≡ (W.written out.old ++ begin_object ∷ []) ++
        key (name_of_arm (given_types types.entry) at arm) ∷ []) }
{
    frames.push(Frame::ArmEnd)?;
    frames.push(Frame::Value(types.of_arm(at, arm)))?;
    out.put(Token::BeginObject)?;
    put_arm_name(alloc, types, at, arm, out)
}

/// The leaf at the front is written. What is behind it is answered. `NoValue` says that its pieces do not end.
fn put_front_leaf<'t, 'a, W: TokenWriter>(
    alloc: Global,
    types: Types<'_, '_>,
    at: Option<usize>,
    items: &'t [Item<'a>],
    out: &mut W,
) -> Result<&'t [Item<'a>], JsonError>
    ensures behind { (kept : Kept) (rest : List Mark) → marks items.now ≡ tape_of kept ++ rest →
        IfOk result (λ behind. marks behind.now ≡ rest) }
    ensures tokens { (kept : Kept) (rest : List Mark) (l : LeafValue) →
        marks items.now ≡ tape_of kept ++ rest → value_of kept ≡ leaf l →
        OnOk result (W.written out.new ≡
        W.written out.old ++ leaf_tokens (labels_at (given_types types.entry).names at) l) }
    ensures shorter { IfOk result (λ behind. length behind.now < length items.now) }
    ensures none { IsErrOf result errors.NoValue → (kept : Kept) (rest : List Mark) →
        marks items.now ≡ tape_of kept ++ rest → ⊥ }
{
    let (value, behind) = split_value(items);
    if value.is_empty() {
        return Err(JsonError::NoValue);
    }
    put_leaf(alloc, out, types, at, pieces_of(value))?;
    Ok(behind)
}

/// A value is at the front. What is left behind its first item, or behind a leaf, is answered.
fn begin_value<'t, 'a, W: TokenWriter>(
    alloc: Global,
    types: Types<'_, '_>,
    of: Option<usize>,
    items: &'t [Item<'a>],
    frames: &mut Vec<Frame>,
    out: &mut W,
) -> Result<&'t [Item<'a>], JsonError>
    ensures ok { IfOk result (λ behind. Steps (given_types types.entry)
        (awaited.Value of ∷ reverse frames.old.items)
        (marks items.now) (reverse frames.new.items) (marks behind.now) (W.written out.old)
        (W.written out.new)) }
    ensures none { IsErrOf result errors.NoValue →
        AwaitNot (given_types types.entry) (awaited.Value of ∷ reverse frames.old.items)
        (marks items.now) }
{
    let at = types.resolved(of);
    match front_of(items) {
        Front::Value(Opening::Leaf) => {
            let behind = put_front_leaf(alloc, types, at, items, out)?;
            Ok(behind)
        }
        Front::Value(Opening::Row) => {
            open_row(types, at, frames, out)?;
            Ok(behind_first(items))
        }
        Front::Value(Opening::Arm(arm)) => {
            open_arm(alloc, types, at, arm, frames, out)?;
            Ok(behind_first(items))
        }
        Front::Close => Err(JsonError::NoValue),
        Front::Gone => Err(JsonError::NoValue),
        Front::ArmEnd => Err(JsonError::NoValue),
        Front::Nothing => Err(JsonError::NoValue),
    }
}

/// A field is at the front, or an unknown element.
fn begin_field<W: TokenWriter>(
    alloc: Global,
    types: Types<'_, '_>,
    at: Option<usize>,
    place: usize,
    frames: &mut Vec<Frame>,
    out: &mut W,
) -> Result<(), AllocError>
    ensures { OnOk result (BeginsField (nat_lt place (count_of_fields (given_types types.entry) at))
        (given_types types.entry) at place frames.old.items frames.new.items (W.written out.old)
        (W.written out.new)) }
{
    if types.has_field(at, place) {
        frames.push(Frame::Fields(at, place + 1))?;
        frames.push(Frame::Value(types.of_field(at, place)))?;
        return put_field_name(alloc, types, at, place, out);
    }
    let of = types.of_unknown(at);
    frames.push(Frame::Items(of, true))?;
    frames.push(Frame::Value(of))?;
    out.put(Token::Key("..."))?;
    out.put(Token::BeginArray)
}

/// The place of the next field. Behind the last one it stays.
fn next_place(types: Types<'_, '_>, at: Option<usize>, place: usize) -> usize
    ensures { (vs : Values) → tokens_of_fields (given_types types.entry) at result vs ≡
        tokens_of_fields (given_types types.entry) at (suc place) vs }
{
    if types.has_field(at, place) {
        return place + 1;
    }
    place
}

/// Fields are awaited: the next one, or the end of the row.
fn step_fields<'t, 'a, W: TokenWriter>(
    alloc: Global,
    types: Types<'_, '_>,
    at: Option<usize>,
    place: usize,
    items: &'t [Item<'a>],
    frames: &mut Vec<Frame>,
    out: &mut W,
) -> Result<&'t [Item<'a>], JsonError>
    ensures ok { IfOk result (λ behind. Steps (given_types types.entry)
        (awaited.Fields at place ∷ reverse frames.old.items)
        (marks items.now) (reverse frames.new.items) (marks behind.now) (W.written out.old)
        (W.written out.new)) }
    ensures none { IsErrOf result errors.NoValue →
        AwaitNot (given_types types.entry) (awaited.Fields at place ∷ reverse frames.old.items)
        (marks items.now) }
{
    match front_of(items) {
        Front::Value(_) => {
            begin_field(alloc, types, at, place, frames, out)?;
            Ok(items)
        }
        Front::Close => {
            out.put(Token::EndObject)?;
            Ok(behind_first(items))
        }
        Front::Gone => {
            frames.push(Frame::Fields(at, next_place(types, at, place)))?;
            Ok(behind_first(items))
        }
        Front::ArmEnd => Err(JsonError::NoValue),
        Front::Nothing => Err(JsonError::NoValue),
    }
}

/// An array ends, and with unknown elements the object that they are in.
fn end_items<W: TokenWriter>(are_unknown: bool, out: &mut W) -> Result<(), AllocError>
    ensures { OnOk result (W.written out.new ≡ W.written out.old ++ items_end are_unknown) }
{
    out.put(Token::EndArray)?;
    if are_unknown {
        return out.put(Token::EndObject);
    }
    Ok(())
}

/// Values are awaited: the next one, or the end.
fn step_items<'t, 'a, W: TokenWriter>(
    of: Option<usize>,
    are_unknown: bool,
    items: &'t [Item<'a>],
    frames: &mut Vec<Frame>,
    out: &mut W,
) -> Result<&'t [Item<'a>], JsonError>
    ensures ok { (types : SpecTypes) → IfOk result (λ behind. Steps types
        (awaited.Items of are_unknown ∷ reverse frames.old.items)
        (marks items.now) (reverse frames.new.items) (marks behind.now) (W.written out.old)
        (W.written out.new)) }
    ensures none { (types : SpecTypes) → IsErrOf result errors.NoValue →
        AwaitNot types (awaited.Items of are_unknown ∷ reverse frames.old.items) (marks items.now) }
{
    match front_of(items) {
        Front::Value(_) => {
            frames.push(Frame::Items(of, are_unknown))?;
            frames.push(Frame::Value(of))?;
            Ok(items)
        }
        Front::Close => {
            end_items(are_unknown, out)?;
            Ok(behind_first(items))
        }
        Front::Gone => {
            frames.push(Frame::Items(of, are_unknown))?;
            Ok(behind_first(items))
        }
        Front::ArmEnd => Err(JsonError::NoValue),
        Front::Nothing => Err(JsonError::NoValue),
    }
}

/// The end of an arm is awaited.
fn step_arm_end<'t, 'a, W: TokenWriter>(
    items: &'t [Item<'a>],
    out: &mut W,
) -> Result<&'t [Item<'a>], JsonError>
    ensures ok { (types : SpecTypes) (frames : List SpecFrame) → IfOk result (λ behind. Steps types
        (awaited.ArmEnd ∷ frames) (marks items.now) frames (marks behind.now) (W.written out.old)
        (W.written out.new)) }
    ensures none { (types : SpecTypes) (frames : List SpecFrame) → IsErrOf result errors.NoValue →
        AwaitNot types (awaited.ArmEnd ∷ frames) (marks items.now) }
{
    match front_of(items) {
        Front::ArmEnd => {
            out.put(Token::EndObject)?;
            Ok(behind_first(items))
        }
        Front::Value(_) => Err(JsonError::NoValue),
        Front::Close => Err(JsonError::NoValue),
        Front::Gone => Err(JsonError::NoValue),
        Front::Nothing => Err(JsonError::NoValue),
    }
}

/// What the innermost frame awaits is at the front. What is left behind it is answered.
fn step_frame<'t, 'a, W: TokenWriter>(
    alloc: Global,
    types: Types<'_, '_>,
    frame: Frame,
    items: &'t [Item<'a>],
    frames: &mut Vec<Frame>,
    out: &mut W,
) -> Result<&'t [Item<'a>], JsonError>
    ensures ok { IfOk result (λ behind. Steps (given_types types.entry)
        (frame ∷ reverse frames.old.items)
        (marks items.now) (reverse frames.new.items) (marks behind.now) (W.written out.old)
        (W.written out.new)) }
    ensures none { IsErrOf result errors.NoValue →
        AwaitNot (given_types types.entry) (frame ∷ reverse frames.old.items) (marks items.now) }
{
    match frame {
        Frame::Value(of) => begin_value(alloc, types, of, items, frames, out),
        Frame::Items(of, are_unknown) => step_items(of, are_unknown, items, frames, out),
        Frame::Fields(at, place) => step_fields(alloc, types, at, place, items, frames, out),
        Frame::ArmEnd => step_arm_end(items, out),
    }
}

/// What is left of a tape.
#[derive(Debug, Clone, Copy)]
pub struct Left<'t, 'a> {
    /// The items.
    pub items: &'t [Item<'a>],
}

/// One step: what the innermost frame awaits is at the front.
pub fn step<'t, 'a, W: TokenWriter>(
    alloc: Global,
    types: Types<'_, '_>,
    frame: Frame,
    left: Left<'t, 'a>,
    frames: &mut Vec<Frame>,
    out: &mut W,
) -> Result<Left<'t, 'a>, JsonError>
    ensures ok { IfOk result (λ behind. Steps (given_types types.entry)
        (frame ∷ reverse frames.old.items)
        (marks left.entry.items.now) (reverse frames.new.items) (marks behind.items.now)
        (W.written out.old) (W.written out.new)) }
    ensures none { IsErrOf result errors.NoValue →
        AwaitNot (given_types types.entry) (frame ∷ reverse frames.old.items)
        (marks left.entry.items.now) }
{
    let items = step_frame(alloc, types, frame, left.items, frames, out)?;
    Ok(Left { items })
}
