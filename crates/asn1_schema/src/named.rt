//! Bit strings, with and without names of bits (X.690 8.6, 11.2.2; X.680 22.7).
ghost use Rattle.std.specs.Prelude.{ℕ, List, Bool, ◌++◌, ◌≡◌, ◌≤◌, ◌<◌, ◌-◌, length, map, take, slice_set};
ghost use Rattle.asn1_schema.specs.declared.coding.Coding.TheVariants as codings;
ghost use Rattle.asn1_schema.specs.declared.schema.Node.{Node};
ghost use Rattle.asn1_schema.specs.declared.schema.Kind.TheVariants as kinds;
ghost use Rattle.asn1_schema.specs.declared.pieces.Sort.TheVariants as sorts;
ghost use Rattle.asn1_schema.specs.Grammar.{trimmed};
ghost use Rattle.asn1_schema.specs.Values.{joined};
ghost use Rattle.asn1_schema.specs.Tape.{Mark, marks};
ghost use Rattle.asn1_schema.specs.Reading.{head_parts, HoldsAt, IsOfKind, Judges, ReadsValue};
ghost use Rattle.asn1_schema.specs.Pieces.{piece_mark};
ghost use Rattle.asn1_schema.specs.Bits.{IsNamedPrimitive, IsNamedConstructed, TrimsPieces};

use crate::bits::{bit_content, named_item, without_zeros};
use crate::coding::Coding;
use crate::elements::Head;
use crate::fault::Fault;
use crate::pieces::{Sort, close_pieces, read_pieces, read_string};
use crate::rows::put_item;
use crate::tape::Item;

/// Ends the tape at a place with an item.
fn end_with<'a>(tape: &mut Vec<Item<'a>>, end: usize, item: Item<'a>)
    requires { (0 < end) × (end ≤ length tape.old.items) }
    ensures { tape.new.items ≡ slice_set (take end tape.old.items) (end - 1) item.entry }
{
    tape.truncate(end);
    tape[end - 1] = item;
}

/// Takes the zeros off the end of bits in pieces, which stand from a place on. A piece that has no other bits is taken
/// off whole.
fn trim_pieces<'a>(tape: &mut Vec<Item<'a>>, place: usize)
    requires { place ≤ length tape.old.items }
    ensures { (front : List Mark) (bs : List (List Bool)) →
        marks tape.old.items ≡ front ++ map (piece_mark sorts.Bits) bs → place ≡ length front →
        TrimsPieces front bs tape.new.items }
{
    let mut end = tape.len();
    while end > place {
        let Item::Bits(unused, octets) = tape[end - 1] else {
            return;
        };
        let (zeros, others) = without_zeros(unused, octets);
        if !others.is_empty() {
            end_with(tape, end, Item::Bits(zeros, others));
            return;
        }
        end -= 1;
    }
    tape.truncate(place);
}

/// Bits with names, in one piece.
fn named_primitive<'a>(coding: Coding, content: &'a [u8]) -> Result<Item<'a>, Fault>
    ensures { Judges (IsNamedPrimitive coding content.now) result }
{
    match bit_content(coding, content) {
        Some((unused, octets)) => named_item(coding, unused, octets),
        None => Err(Fault::Refused),
    }
}

/// Puts bits with names on the tape that come in pieces.
fn named_constructed<'a>(
    max: usize,
    depth: usize,
    content: &'a [u8],
    tape: &mut Vec<Item<'a>>,
) -> Result<(), Fault>
    ensures { (d : ℕ) → HoldsAt depth result d →
        ReadsValue (IsNamedConstructed (codings.Ber max) d content.now) tape.old.items
        tape.new.items result }
{
    let place = tape.len();
    match put_item(tape, Item::Pieces(0)) {
        Ok(()) => match read_pieces(Coding::Ber(max), Sort::Bits, depth, content, tape) {
            Ok(_) => {
                trim_pieces(tape, place + 1);
                close_pieces(Sort::Bits, tape, place)
            }
            Err(e) => Err(e),
        },
        Err(e) => Err(e),
    }
}

/// Puts bits on the tape: in one piece, or by BER in several.
pub(crate) fn read_bits<'a>(
    coding: Coding,
    named: bool,
    depth: usize,
    head: Head,
    content: &'a [u8],
    tape: &mut Vec<Item<'a>>,
) -> Result<(), Fault>
    ensures { (nodes : List Node) (of d : ℕ) → HoldsAt depth result d →
        ReadsValue (IsOfKind coding nodes d of (kinds.Bits named) (head_parts head content.now))
        tape.old.items tape.new.items result }
{
    if !named {
        return read_string(coding, Sort::Bits, depth, head, content, tape);
    }
    if !head.constructed {
        return match named_primitive(coding, content) {
            Ok(item) => put_item(tape, item),
            Err(e) => Err(e),
        };
    }
    match coding {
        Coding::Der => Err(Fault::Refused),
        Coding::Ber(max) => named_constructed(max, depth, content, tape),
    }
}
