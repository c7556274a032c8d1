//! Strings, which by BER may come in pieces (X.690 8.6.4, 8.7.3, 8.23.3).
ghost use Rattle.std.specs.Prelude.{ℕ, List, [], ◌∷◌, ◌++◌, ◌≡◌, ◌<◌, ◌↔◌, length, map, IfSome, IfNone};
ghost use Rattle.std.specs.Prelude.{OnOk, IfErr, IsTrue};
ghost use Rattle.asn1_schema.specs.declared.fault.Fault.TheVariants as faults;
ghost use Rattle.asn1_schema.specs.declared.coding.Coding.TheVariants as codings;
ghost use Rattle.asn1_schema.specs.Values.{joined};
ghost use Rattle.asn1_schema.specs.declared.coding.Coding.{Coding};
ghost use Rattle.asn1_schema.specs.Grammar.{StringOf};
ghost use Rattle.asn1_schema.specs.Tape.{Mark, mark, marks, pieces_mark};
ghost use Rattle.asn1_schema.specs.Reading.{head_parts, HoldsAt, Judges, ReadsValue};
ghost use Rattle.asn1_schema.specs.Pieces.{Elem, string_of, piece_mark, IsPiece, ArePieces};
ghost use Rattle.asn1_schema.specs.Pieces.{SaysPiece, ReadsPieces, ClosesPieces, IsSaid, IsStringOf, IsPrimitiveOf};
ghost use Rattle.asn1_schema.specs.Pieces.{IsConstructedOf};

use crate::bits::bit_content;
use crate::coding::Coding;
use crate::elements::{Head, element, is_at_end};
use crate::fault::Fault;
use crate::joined::Joined;
use crate::moments::{is_time, is_time_text};
use crate::rows::put_item;
use crate::schema::{TextKind, TimeKind};
use crate::tape::Item;
use crate::texts::{are_text, is_text};

/// What a string is of. Characters and times have octet strings for their pieces.
#[derive(Debug, Clone, Copy, PartialEq, Eq)]
pub enum Sort {
    /// Octets.
    Octets,
    /// Characters.
    Text(TextKind),
    /// The characters of a time.
    Time(TimeKind),
    /// Bits.
    Bits,
}

/// The number of the universal tag that pieces have.
fn piece_number(sort: Sort) -> u32
    ensures { (e : Coding) → result ≡ StringOf.number (string_of e sort) }
{
    match sort {
        Sort::Octets => 4,
        Sort::Text(_) => 4,
        Sort::Time(_) => 4,
        Sort::Bits => 3,
    }
}

/// The item of contents octets, and whether others may follow it: bits in their midst are whole octets.
fn piece_item<'a>(coding: Coding, sort: Sort, content: &'a [u8]) -> Option<(Item<'a>, bool)>
    ensures some { IfSome result (λ x. SaysPiece coding sort content.now x.0 x.1) }
    ensures none { IfNone result ((xs : List (Elem sort)) →
        StringOf.Content (string_of coding sort) content.now xs → ⊥) }
{
    match sort {
        Sort::Octets => Some((Item::Octets(content), true)),
        Sort::Text(kind) => Some((Item::Text(kind, content), true)),
        Sort::Time(kind) => Some((Item::Time(kind, content), true)),
        Sort::Bits => match bit_content(coding, content) {
            Some((unused, octets)) => Some((Item::Bits(unused, octets), unused == 0)),
            None => None,
        },
    }
}

/// Puts a piece on the tape that is not made of others, and tells whether others may follow it.
fn put_piece<'a>(
    coding: Coding,
    sort: Sort,
    content: &'a [u8],
    tape: &mut Vec<Item<'a>>,
) -> Result<bool, Fault>
    ensures { ReadsPieces coding sort (StringOf.Content (string_of coding sort) content.now)
        tape.old.items tape.new.items result }
{
    let Some((item, whole)) = piece_item(coding, sort, content) else {
        return Err(Fault::Refused);
    };
    match put_item(tape, item) {
        Ok(()) => Ok(whole),
        Err(e) => Err(e),
    }
}

/// Puts one piece on the tape, or those that it is made of, and tells whether others may follow.
#[cycle(pieces)]
fn read_piece<'a>(
    coding: Coding,
    sort: Sort,
    depth: usize,
    head: Head,
    content: &'a [u8],
    tape: &mut Vec<Item<'a>>,
) -> Result<bool, Fault>
    ensures { (d : ℕ) → HoldsAt depth result d → ReadsPieces coding sort
        (IsPiece coding (string_of coding sort) d (head_parts head content.now))
        tape.old.items tape.new.items result }
{
    if head.class != 0 || head.number != piece_number(sort) {
        return Err(Fault::Refused);
    }
    if depth == 0 {
        return Err(Fault::TooDeep);
    }
    if !head.constructed {
        return put_piece(coding, sort, content, tape);
    }
    match coding {
        Coding::Der => Err(Fault::Refused),
        Coding::Ber(_) => read_pieces(coding, sort, depth - 1, content, tape),
    }
}

/// Puts the pieces that contents octets are on the tape, and tells whether others may follow.
#[cycle(pieces)]
pub(crate) fn read_pieces<'a>(
    coding: Coding,
    sort: Sort,
    depth: usize,
    content: &'a [u8],
    tape: &mut Vec<Item<'a>>,
) -> Result<bool, Fault>
    ensures { (d : ℕ) → HoldsAt depth result d → ReadsPieces coding sort
        (ArePieces coding (string_of coding sort) d content.now)
        tape.old.items tape.new.items result }
{
    let mut rest = content;
    let mut whole = true;
    while !is_at_end(rest) {
        if !whole {
            return Err(Fault::Refused);
        }
        let Some((tail, head, inner)) = element(coding, rest, 0) else {
            return Err(Fault::Refused);
        };
        match read_piece(coding, sort, depth, head, inner, tape) {
            Ok(may_follow) => {
                rest = tail;
                whole = may_follow;
            }
            Err(e) => return Err(e),
        }
    }
    Ok(whole)
}

/// The item of no pieces.
fn no_pieces<'a>(sort: Sort) -> Item<'a>
    ensures { mark result ≡ piece_mark sort [] }
{
    match sort {
        Sort::Octets => Item::Octets(&[]),
        Sort::Text(kind) => Item::Text(kind, &[]),
        Sort::Time(kind) => Item::Time(kind, &[]),
        Sort::Bits => Item::Bits(0, &[]),
    }
}

/// Ends the pieces that began at a place. Where there are none, the string is empty.
pub(crate) fn close_pieces<'a>(
    sort: Sort,
    tape: &mut Vec<Item<'a>>,
    place: usize,
) -> Result<(), Fault>
    requires { place < length tape.old.items }
    ensures err { IfErr result (λ e. e ≡ faults.Memory) }
    ensures closed { (front : List Mark) (xs : List (List (Elem sort))) →
        marks tape.old.items ≡ front ++ pieces_mark 0 ∷ map (piece_mark sort) xs →
        place ≡ length front → OnOk result (ClosesPieces sort xs front tape.new.items) }
{
    let count = tape.len() - place - 1;
    if count == 0 {
        tape[place] = no_pieces(sort);
        return Ok(());
    }
    match tape.push(Item::PiecesEnd(count)) {
        Ok(()) => {
            tape[place] = Item::Pieces(count);
            Ok(())
        }
        Err(_) => Err(Fault::Memory),
    }
}

/// Whether contents octets that are a string of the sort are also text, or a time.
fn is_said(coding: Coding, sort: Sort, content: &[u8]) -> bool
    ensures { (xs : List (Elem sort)) → StringOf.Content (string_of coding sort) content.now xs →
        IsTrue result ↔ IsSaid coding sort xs }
{
    match sort {
        Sort::Octets => true,
        Sort::Text(kind) => is_text(kind, content),
        Sort::Time(kind) => is_time(coding, kind, content),
        Sort::Bits => true,
    }
}

/// Whether pieces join to text, or to a time.
fn are_said(sort: Sort, pieces: &[Item<'_>]) -> bool
    ensures { (max : ℕ) (xs : List (List (Elem sort))) → marks pieces.now ≡ map (piece_mark sort) xs →
        IsTrue result ↔ IsSaid (codings.Ber max) sort (joined xs) }
{
    match sort {
        Sort::Octets => true,
        Sort::Text(kind) => are_text(kind, Joined::of_pieces(pieces)),
        Sort::Time(kind) => is_time_text(kind, Joined::of_pieces(pieces)),
        Sort::Bits => true,
    }
}

/// A string in one piece.
fn string_item<'a>(coding: Coding, sort: Sort, content: &'a [u8]) -> Result<Item<'a>, Fault>
    ensures { Judges (IsPrimitiveOf coding sort content.now) result }
{
    let Some((item, _)) = piece_item(coding, sort, content) else {
        return Err(Fault::Refused);
    };
    if !is_said(coding, sort, content) {
        return Err(Fault::Refused);
    }
    Ok(item)
}

/// Puts a string in pieces on the tape.
fn read_constructed<'a>(
    max: usize,
    sort: Sort,
    depth: usize,
    content: &'a [u8],
    tape: &mut Vec<Item<'a>>,
) -> Result<(), Fault>
    ensures { (d : ℕ) → HoldsAt depth result d →
        ReadsValue (IsConstructedOf (codings.Ber max) sort d content.now) tape.old.items
        tape.new.items result }
{
    let place = tape.len();
    match put_item(tape, Item::Pieces(0)) {
        Ok(()) => match read_pieces(Coding::Ber(max), sort, depth, content, tape) {
            Ok(_) => {
                if !are_said(sort, &tape[place + 1..]) {
                    return Err(Fault::Refused);
                }
                close_pieces(sort, tape, place)
            }
            Err(e) => Err(e),
        },
        Err(e) => Err(e),
    }
}

/// Puts a string on the tape: in one piece, or by BER in several.
pub(crate) fn read_string<'a>(
    coding: Coding,
    sort: Sort,
    depth: usize,
    head: Head,
    content: &'a [u8],
    tape: &mut Vec<Item<'a>>,
) -> Result<(), Fault>
    ensures { (d : ℕ) → HoldsAt depth result d →
        ReadsValue (IsStringOf coding sort d (head_parts head content.now)) tape.old.items
        tape.new.items result }
{
    if !head.constructed {
        return match string_item(coding, sort, content) {
            Ok(item) => put_item(tape, item),
            Err(e) => Err(e),
        };
    }
    match coding {
        Coding::Der => Err(Fault::Refused),
        Coding::Ber(max) => read_constructed(max, sort, depth, content, tape),
    }
}
