//! The contents octets of bit strings are put in front: how many bits are unused, and the octets of all
//! (X.690 8.6.2, 11.2).
ghost use Rattle.std.specs.Prelude.{ℕ, List, Bool, [], ◌∷◌, ◌++◌, ◌≡◌, ◌≤◌, ◌<◌, ◌+◌, ◌-◌, ◌*◌, ◌^◌, ◌/◌, ◌↔◌, length};
ghost use Rattle.std.specs.Prelude.{IsTrue, IfSome, IfNone, IfErr};
ghost use Rattle.asn1_schema.specs.declared.schema.Node.{Node};
ghost use Rattle.asn1_schema.specs.declared.schema.Kind.TheVariants as kinds;
ghost use Rattle.asn1_schema.specs.declared.fault.Fault.TheVariants as faults;
ghost use Rattle.asn1_schema.specs.Rules.{strict};
ghost use Rattle.asn1_schema.specs.Grammar.{bits_in, trimmed, IsBitContent};
ghost use Rattle.asn1_schema.specs.Bits.{used_bits, first_bits};
ghost use Rattle.asn1_schema.specs.Values.{bits};
ghost use Rattle.asn1_schema.specs.Tape.{pieces_end_mark};
ghost use Rattle.asn1_schema.specs.Writing.{before, WritingAnswers, Writes, IsContentOfKind, IsPlainBits, Pushes};
ghost use Rattle.asn1_schema.specs.Writing.{IsPending, LeavesUnused, JoinsBits, PutsBitPieces, NoPieces};

use crate::bits::{bit_content, ends_in_one};
use crate::coding::Coding;
use crate::endings::{last_bits, last_pieces};
use crate::fault::Fault;
use crate::fronts::{in_front, put};
use crate::put_strings::pieces_start;
use crate::tape::Item;
use asn1_headers::buffer::DerBuffer;

/// Bits that are put in front, and do not fill an octet yet.
#[derive(Debug, Clone, Copy)]
pub struct Pending {
    /// The number that has these bits.
    pub number: u16,
    /// How many they are.
    pub count: u8,
}

/// The octets that have bits which are used, and how many bits of the last one are not.
fn used_part(unused: u8, octets: &[u8]) -> (u8, &[u8])
    ensures few { result.0 ≤ 7 }
    ensures within { result.0 ≤ 8 * length result.1.now }
    ensures same { used_bits result.0 result.1.now ≡ used_bits unused octets.now }
{
    let whole = usize::from(unused / 8);
    if whole >= octets.len() {
        return (0, &[]);
    }
    let (used, _others) = octets.split_at(octets.len() - whole);
    (unused % 8, used)
}

/// A power of 2.
fn power(count: u8) -> u16
    requires { count ≤ 7 }
    ensures { result ≡ 2 ^ count }
{
    match count {
        0 => 1,
        1 => 2,
        2 => 4,
        3 => 8,
        4 => 16,
        5 => 32,
        6 => 64,
        _ => 128,
    }
}

/// Puts the bits of an octet but for the last ones, so many, in front.
fn push_octet(pending: Pending, skip: u8, octet: u8, buf: &mut DerBuffer) -> Result<Pending, Fault>
    requires skip { skip ≤ 7 }
    requires pending { IsPending pending }
    ensures { Pushes (first_bits skip octet) pending buf.old buf.new result }
{
    let number = pending.number + u16::from(octet) / power(skip) * power(pending.count);
    let count = pending.count + (8 - skip);
    if count < 8 {
        return Ok(Pending { number, count });
    }
    match put(&[(number % 256) as u8], buf) {
        Ok(()) => Ok(Pending {
            number: number / 256,
            count: count - 8,
        }),
        Err(e) => Err(e),
    }
}

/// Puts the bits of octets in front.
fn push_octets(pending: Pending, octets: &[u8], buf: &mut DerBuffer) -> Result<Pending, Fault>
    requires { IsPending pending }
    ensures { Pushes (bits_in octets.now) pending buf.old buf.new result }
{
    if pending.count == 0 {
        return match put(octets, buf) {
            Ok(()) => Ok(pending),
            Err(e) => Err(e),
        };
    }
    let mut so_far = pending;
    let mut left = octets;
    while let Some((last, others)) = left.split_last() {
        match push_octet(so_far, 0, *last, buf) {
            Ok(next) => so_far = next,
            Err(e) => return Err(e),
        }
        left = others;
    }
    Ok(so_far)
}

/// Puts the bits of a piece in front.
fn push_piece(
    pending: Pending,
    unused: u8,
    octets: &[u8],
    buf: &mut DerBuffer,
) -> Result<Pending, Fault>
    requires { IsPending pending }
    ensures { Pushes (used_bits unused octets.now) pending buf.old buf.new result }
{
    let (skip, used) = used_part(unused, octets);
    match used.split_last() {
        Some((last, front)) => match push_octet(pending, skip, *last, buf) {
            Ok(next) => push_octets(next, front, buf),
            Err(e) => Err(e),
        },
        None => Ok(pending),
    }
}

/// How many bits are unused behind those of the pieces between two places.
fn unused_behind(tape: &[Item<'_>], start: usize, end: usize) -> Option<u8>
    requires within { start ≤ end }
    requires tape { end ≤ length tape.now }
    ensures some { IfSome result (λ unused. LeavesUnused tape.now start end unused) }
    ensures none { IfNone result (NoPieces bits tape.now start end) }
{
    let mut unused = 0;
    let mut rest = end;
    while rest > start {
        let Some((zeros, octets)) = last_bits(tape, rest) else {
            return None;
        };
        let (skip, _used) = used_part(zeros, octets);
        unused = (unused + skip) % 8;
        rest -= 1;
    }
    Some(unused)
}

/// Puts the bits of the pieces between two places in front, the last one first.
fn push_pieces(
    pending: Pending,
    tape: &[Item<'_>],
    start: usize,
    end: usize,
    buf: &mut DerBuffer,
) -> Result<Pending, Fault>
    requires pending { IsPending pending }
    requires within { start ≤ end }
    requires tape { end ≤ length tape.now }
    ensures { WritingAnswers (λ last. JoinsBits tape.now start end pending buf.old buf.new last)
        (NoPieces bits tape.now start end) buf.old buf.new result }
{
    let mut so_far = pending;
    let mut rest = end;
    while rest > start {
        let Some((unused, octets)) = last_bits(tape, rest) else {
            return Err(Fault::Refused);
        };
        match push_piece(so_far, unused, octets, buf) {
            Ok(next) => so_far = next,
            Err(e) => return Err(e),
        }
        rest -= 1;
    }
    Ok(so_far)
}

/// Puts the contents octets of the bits of pieces between two places in front.
pub(crate) fn put_bit_pieces(
    tape: &[Item<'_>],
    start: usize,
    end: usize,
    buf: &mut DerBuffer,
) -> Result<(), Fault>
    requires within { start ≤ end }
    requires tape { end ≤ length tape.now }
    ensures { WritingAnswers (λ _. PutsBitPieces tape.now start end buf.old buf.new)
        (NoPieces bits tape.now start end) buf.old buf.new result }
{
    let Some(unused) = unused_behind(tape, start, end) else {
        return Err(Fault::Refused);
    };
    let none = Pending {
        number: 0,
        count: unused,
    };
    match push_pieces(none, tape, start, end, buf) {
        Ok(_) => put(&[unused], buf),
        Err(e) => Err(e),
    }
}

/// Puts the contents octets of bits in front that stand in so many pieces, which end at a place.
fn put_in_pieces(
    count: usize,
    tape: &[Item<'_>],
    at: usize,
    buf: &mut DerBuffer,
) -> Result<usize, Fault>
    requires place { at ≤ length tape.now }
    requires some { 0 < at }
    requires last { before tape.now at ≡
        before tape.now (at - 1) ++ pieces_end_mark count ∷ [] }
    ensures { Writes IsPlainBits tape.now at buf.old buf.new result }
{
    let Some(start) = pieces_start(tape, count, at - 1) else {
        return Err(Fault::Refused);
    };
    match put_bit_pieces(tape, start, at - 1, buf) {
        Ok(()) => Ok(start - 1),
        Err(e) => Err(e),
    }
}

/// Puts the contents octets of bits in front, whatever is asked of them. Bits in one piece are one piece.
fn put_plain_bits(tape: &[Item<'_>], at: usize, buf: &mut DerBuffer) -> Result<usize, Fault>
    requires { at ≤ length tape.now }
    ensures { Writes IsPlainBits tape.now at buf.old buf.new result }
{
    match last_pieces(tape, at) {
        Some(count) => put_in_pieces(count, tape, at, buf),
        None => {
            if at == 0 {
                return Err(Fault::Refused);
            }
            match put_bit_pieces(tape, at - 1, at, buf) {
                Ok(()) => Ok(at - 1),
                Err(e) => Err(e),
            }
        }
    }
}

/// Whether the last bit that contents octets say is set, or there is none (X.690 11.2.2).
fn is_trimmed(content: &[u8]) -> bool
    ensures { (bs : List Bool) → IsBitContent strict content.now bs →
        IsTrue result ↔ (trimmed bs ≡ bs) }
{
    match bit_content(Coding::Der, content) {
        Some((unused, octets)) => ends_in_one(unused, octets),
        None => false,
    }
}

/// Puts the contents octets of bits in front. Where bits are named, the last one is set (X.680 22.7).
pub(crate) fn put_bits(
    named: bool,
    tape: &[Item<'_>],
    at: usize,
    buf: &mut DerBuffer,
) -> Result<usize, Fault>
    requires { at ≤ length tape.now }
    ensures { (nodes : List Node) (depth : ℕ) →
        Writes (IsContentOfKind nodes depth (kinds.Bits named)) tape.now at buf.old buf.new result }
{
    let held = buf.len();
    match put_plain_bits(tape, at, buf) {
        Ok(rest) => {
            if named && !is_trimmed(in_front(buf, held)) {
                return Err(Fault::Refused);
            }
            Ok(rest)
        }
        Err(e) => Err(e),
    }
}
