//! The values on a tape: where one ends, and what is in it. Each is skipped in one step.
ghost use Rattle.std.specs.Prelude.{ℕ, ℤ, Bool, List, [], ◌++◌, ◌∷◌, ◌+◌, ◌-◌, ◌*◌, ◌≡◌, ◌≤◌, ◌^◌, Some, IfSome};
ghost use Rattle.std.specs.Prelude.{IfNone, IfOk, IsTrue, MatchOption, OnOk, length, take};
ghost use Rattle.asn1_schema.specs.Values.{leaf};
ghost use Rattle.asn1_schema.specs.Values.{boolean, integer, enumerated, bits, octets, identifier, text, time};
ghost use Rattle.asn1_schema.specs.Grammar.{bits_in};
ghost use Rattle.asn1_schema.specs.Names.{IsPlaceOf, LacksName};
ghost use Rattle.asn1_schema.specs.declared.schema.TextKind.{TextKind};
ghost use Rattle.asn1_schema.specs.declared.schema.TimeKind.{TimeKind};
ghost use Rattle.asn1_schema.specs.Tape.{Mark, Kept, KeptRow, mark, marks, tape_of, tapes_of};
ghost use Rattle.asn1_schema.specs.Tape.{Sort, string, value_of, kept_row, kept_chosen, absent_mark, leaf_mark};
ghost use Rattle.asn1_schema.specs.Tape.{pieces_mark};
ghost use Rattle.asn1_schema.specs.Cursor.{marks_of_first, field_marks, IsNumber, HoldPieces, AppendsBits};

use crate::counting::inner_items;
use crate::fault::Fault;
use crate::joined::octets_in;
use crate::names::{TypeNames, place_of};
use crate::put_bits::put_bit_pieces;
use crate::schema::{TextKind, TimeKind};
use crate::tape::Item;
use asn1_headers::buffer::DerBuffer;
use std::alloc::{AllocError, Global};
use x690::signed::signed_number;

/// How many items a value has that begins with this one; none where a value of an arm follows.
fn len_from(item: &Item<'_>) -> Option<u128>
    ensures some { (ms : List Mark) → IfSome result
        (λ n. marks_of_first (mark item.now ∷ ms) ≡ n) }
    ensures few { IfSome result (λ n. n ≤ 2 ^ 65) }
    ensures none { (ms : List Mark) → IfNone result
        (marks_of_first (mark item.now ∷ ms) ≡ 2 + marks_of_first ms) }
{
    match item {
        Item::Arm(_) => None,
        Item::Begin(n) => Some(*n as u128 + 2),
        Item::Pieces(n) => Some(*n as u128 + 2),
        _ => Some(1),
    }
}

/// How many items the value at the front has.
fn first_len(items: &[Item<'_>]) -> u128
    ensures { result ≡ marks_of_first (marks items.now) }
{
    let mut arms: u128 = 0;
    for item in items {
        match len_from(item) {
            Some(n) => return 2 * arms + n,
            None => arms += 1,
        }
    }
    2 * arms
}

/// The items of the value at the front, and those that follow it. A field that is left out is `Absent` alone.
pub fn split_value<'t, 'a>(items: &'t [Item<'a>]) -> (&'t [Item<'a>], &'t [Item<'a>])
    ensures value { (kept : Kept) (rest : List Mark) → marks items.now ≡ tape_of kept ++ rest →
        marks result.0.now ≡ tape_of kept }
    ensures rest { (kept : Kept) (rest : List Mark) → marks items.now ≡ tape_of kept ++ rest →
        marks result.1.now ≡ rest }
    ensures absent { (rest : List Mark) → marks items.now ≡ absent_mark ∷ rest →
        (marks result.0.now ≡ absent_mark ∷ []) × (marks result.1.now ≡ rest) }
    ensures joined { items.now ≡ result.0.now ++ result.1.now }
    ensures none { marks items.now ≡ [] → (marks result.0.now ≡ []) × (marks result.1.now ≡ []) }
{
    let len = first_len(items).min(items.len() as u128) as usize;
    items.split_at(len)
}

/// The items in a value: of a row those of its fields or members, and of an arm those of its value.
pub fn inner_values<'t, 'a>(value: &'t [Item<'a>]) -> &'t [Item<'a>]
    ensures row { (kept : KeptRow) → marks value.now ≡ tape_of (kept_row kept) →
        marks result.now ≡ tapes_of kept }
    ensures arm { (arm : ℕ) (kept : Kept) → marks value.now ≡ tape_of (kept_chosen arm kept) →
        marks result.now ≡ tape_of kept }
{
    if value.is_empty() {
        return value;
    }
    inner_items(value, 0)
}

/// The items of the field at a place of a row: its value, or `Absent` alone where it is left out. There are none behind
/// the last field.
pub fn field_value<'t, 'a>(fields: &'t [Item<'a>], place: usize) -> &'t [Item<'a>]
    ensures { (kept : KeptRow) → marks fields.now ≡ tapes_of kept →
        marks result.now ≡ field_marks kept place }
{
    let mut start = 0;
    for _ in 0..place {
        start += split_value(&fields[start..]).0.len();
    }
    split_value(&fields[start..]).0
}

/// The arm that a value of a choice has.
pub fn arm_of(value: &[Item<'_>]) -> Option<usize>
    ensures { (arm : ℕ) (kept : Kept) → marks value.now ≡ tape_of (kept_chosen arm kept) →
        result ≡ Some arm }
{
    match value.first() {
        Some(Item::Arm(arm)) => Some(*arm),
        _ => None,
    }
}

/// The number that an integer or a listed number is, where 16 octets hold it.
pub fn number_of(value: &[Item<'_>]) -> Option<i128>
    ensures integer { (n : ℤ) → marks value.now ≡ leaf_mark (integer n) ∷ [] → IsNumber n result }
    ensures listed { (n : ℤ) → marks value.now ≡ leaf_mark (enumerated n) ∷ [] → IsNumber n result }
{
    match value.first() {
        Some(Item::Integer(octets)) => signed_number(octets, 16),
        Some(Item::Enumerated(octets)) => signed_number(octets, 16),
        _ => None,
    }
}

/// The items of the member at a place of a list. There are none behind the last member.
pub fn member_value<'t, 'a>(list: &'t [Item<'a>], place: usize) -> &'t [Item<'a>]
    ensures { (kept : KeptRow) → marks list.now ≡ tape_of (kept_row kept) →
        marks result.now ≡ field_marks kept place }
{
    field_value(inner_values(list), place)
}

/// The items of the field of this name in a row, as [`field_value`] answers them; none where no field has the name.
pub fn named_value<'t, 'a>(
    names: &TypeNames<'_>,
    fields: &'t [Item<'a>],
    name: &str,
) -> Option<&'t [Item<'a>]>
    ensures some { (kept : KeptRow) → marks fields.now ≡ tapes_of kept → IfSome result
        (λ items. (place : ℕ) × IsPlaceOf names.now.labels.items name.now place ×
        (marks items.now ≡ field_marks kept place)) }
    ensures none { IfNone result (LacksName names.now.labels.items name.now) }
{
    match place_of(&names.labels, name) {
        Some(place) => Some(field_value(fields, place)),
        None => None,
    }
}

/// The truth value that a value is.
pub fn truth_of(value: &[Item<'_>]) -> Option<bool>
    ensures { (b : Bool) → marks value.now ≡ leaf_mark (boolean b) ∷ [] → result ≡ Some b }
{
    match value.first() {
        Some(Item::Boolean(truth)) => Some(*truth),
        _ => None,
    }
}

/// Puts the octets of an octet string, a character string or a time behind others. Pieces are joined.
///
/// Where memory runs out, the first pieces may stand there.
pub fn join_octets(value: &[Item<'_>], octets: &mut Vec<u8>) -> Result<(), AllocError>
    ensures { (kept : Kept) (sort : Sort) (said : List ℕ) → marks value.now ≡ tape_of kept →
        value_of kept ≡ leaf (string sort said) →
        OnOk result (octets.new.items ≡ octets.old.items ++ said) }
{
    for item in value {
        octets.extend_from_slice(octets_in(item))?;
    }
    Ok(())
}

/// Whether an item is the mark of pieces that follow.
fn begins_pieces(item: &Item<'_>) -> bool
    ensures yes { IsTrue result → (n : ℕ) × (mark item.now ≡ pieces_mark n) }
    ensures no { (n : ℕ) → mark item.now ≡ pieces_mark n → IsTrue result }
{
    match item {
        Item::Pieces(_) => true,
        _ => false,
    }
}

/// Whether items begin with the mark of pieces.
fn is_in_pieces(value: &[Item<'_>]) -> bool
    ensures yes { IsTrue result → (n : ℕ) × (others : List Mark) ×
        (marks value.now ≡ pieces_mark n ∷ others) }
    ensures no { (n : ℕ) (others : List Mark) → marks value.now ≡ pieces_mark n ∷ others →
        IsTrue result }
{
    match value.split_first() {
        Some((item, _others)) => begins_pieces(item),
        None => false,
    }
}

/// Where the pieces of a bit string begin and end among its items. Bits in one piece are one.
fn piece_places(value: &[Item<'_>]) -> (usize, usize)
    ensures order { result.0 ≤ result.1 }
    ensures within { result.1 ≤ length value.now }
    ensures pieces { (kept : Kept) (bs : List Bool) → marks value.now ≡ tape_of kept →
        value_of kept ≡ leaf (bits bs) → HoldPieces value.now result.0 result.1 bs }
{
    if is_in_pieces(value) {
        (1, value.len().max(2) - 1)
    } else {
        (0, value.len())
    }
}

/// Appends what follows the first of contents octets, and answers that first one.
fn push_behind_first(content: &[u8], octets: &mut Vec<u8>) -> Result<Option<u8>, AllocError>
    ensures { (first : ℕ) (o : List ℕ) → content.now ≡ first ∷ o → IfOk result
        (λ r. (r ≡ Some first) × (octets.new.items ≡ octets.old.items ++ o)) }
{
    match content.split_first() {
        None => Ok(None),
        Some((first, behind)) => {
            octets.extend_from_slice(behind)?;
            Ok(Some(*first))
        }
    }
}

/// Appends the octets of a bit string to others, and answers how many bits of the last one are unused. Pieces are
/// joined (X.690 8.6.4), and unused bits are zeros (11.2.1). `None` comes where the value is no bit string.
pub fn join_bits(
    alloc: Global,
    value: &[Item<'_>],
    octets: &mut Vec<u8>,
) -> Result<Option<u8>, AllocError>
    ensures { (kept : Kept) (bs : List Bool) → marks value.now ≡ tape_of kept →
        value_of kept ≡ leaf (bits bs) →
        IfOk result (AppendsBits bs octets.old.items octets.new.items) }
{
    let (start, end) = piece_places(value);
    let mut content = DerBuffer::new(alloc);
    match put_bit_pieces(value, start, end, &mut content) {
        Ok(()) => push_behind_first(content.as_bytes(), octets),
        Err(Fault::Memory) => Err(AllocError),
        Err(Fault::Refused) => Ok(None),
        Err(Fault::TooDeep) => Ok(None),
    }
}

/// The octets of an octet string in one piece.
pub fn octets_of<'a>(value: &[Item<'a>]) -> Option<&'a [u8]>
    ensures { (o : List ℕ) → marks value.now ≡ leaf_mark (octets o) ∷ [] →
        MatchOption result ⊥ (λ r. r.now ≡ o) }
{
    match value.first() {
        Some(Item::Octets(octets)) => Some(octets),
        _ => None,
    }
}

/// The type and the octets of a character string in one piece.
pub fn text_of<'a>(value: &[Item<'a>]) -> Option<(TextKind, &'a [u8])>
    ensures { (kind : TextKind) (o : List ℕ) → marks value.now ≡ leaf_mark (text kind o) ∷ [] →
        MatchOption result ⊥ (λ r. (r.0 ≡ kind) × (r.1.now ≡ o)) }
{
    match value.first() {
        Some(Item::Text(kind, octets)) => Some((*kind, octets)),
        _ => None,
    }
}

/// The type and the text of a time in one piece.
pub fn time_of<'a>(value: &[Item<'a>]) -> Option<(TimeKind, &'a [u8])>
    ensures { (kind : TimeKind) (o : List ℕ) → marks value.now ≡ leaf_mark (time kind o) ∷ [] →
        MatchOption result ⊥ (λ r. (r.0 ≡ kind) × (r.1.now ≡ o)) }
{
    match value.first() {
        Some(Item::Time(kind, octets)) => Some((*kind, octets)),
        _ => None,
    }
}

/// Whether an identifier is relative, and its contents octets.
pub fn identifier_of<'a>(value: &[Item<'a>]) -> Option<(bool, &'a [u8])>
    ensures { (relative : Bool) (o : List ℕ) →
        marks value.now ≡ leaf_mark (identifier relative o) ∷ [] →
        MatchOption result ⊥ (λ r. (r.0 ≡ relative) × (r.1.now ≡ o)) }
{
    match value.first() {
        Some(Item::Identifier(relative, octets)) => Some((*relative, octets)),
        _ => None,
    }
}

/// The octets of a bit string in one piece, and how many bits at their end are unused.
pub fn bits_of<'a>(value: &[Item<'a>]) -> Option<(u8, &'a [u8])>
    ensures { (bs : List Bool) → marks value.now ≡ leaf_mark (bits bs) ∷ [] → MatchOption result ⊥
        (λ r. take (8 * length r.1.now - r.0) (bits_in r.1.now) ≡ bs) }
{
    match value.first() {
        Some(Item::Bits(unused, octets)) => Some((*unused, octets)),
        _ => None,
    }
}
