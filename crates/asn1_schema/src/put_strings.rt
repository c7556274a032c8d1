//! The contents octets of strings are put in front, also of those that the tape holds in pieces (X.690 10.2).
ghost use Rattle.std.specs.Prelude.{ℕ, List, [], ◌∷◌, ◌++◌, ◌-◌, ◌<◌, ◌≡◌, ◌≤◌, ◌↔◌, length, IsTrue};
ghost use Rattle.asn1_schema.specs.declared.schema.Node.{Node};
ghost use Rattle.asn1_schema.specs.declared.schema.Kind.TheVariants as kinds;
ghost use Rattle.asn1_schema.specs.Tape.{string, pieces_end_mark};
ghost use Rattle.asn1_schema.specs.Writing.{before, WritingAnswers, Writes, IsContentOfKind, IsPlainString, sort_of};
ghost use Rattle.asn1_schema.specs.Writing.{BeginPieces, JoinsPieces, NoPieces};

use crate::coding::Coding;
use crate::endings::{StringSort, last_pieces, last_pieces_begin, last_string};
use crate::fault::Fault;
use crate::fronts::{in_front, put, put_at};
use crate::moments::is_time;
use crate::schema::{TextKind, TimeKind};
use crate::tape::Item;
use crate::texts::is_text;
use asn1_headers::buffer::DerBuffer;

/// Where so many pieces begin that end at a place.
pub(crate) fn pieces_start(tape: &[Item<'_>], count: usize, end: usize) -> Option<usize>
    requires { end ≤ length tape.now }
    ensures { BeginPieces tape.now count end result }
{
    if count == 0 || count >= end {
        return None;
    }
    match last_pieces_begin(tape, end - count) {
        Some(begun) => {
            if begun != count {
                return None;
            }
            Some(end - count)
        }
        None => None,
    }
}

/// Puts the octets of the pieces between two places in front, the last one first.
fn put_pieces(
    sort: StringSort,
    tape: &[Item<'_>],
    start: usize,
    end: usize,
    buf: &mut DerBuffer,
) -> Result<(), Fault>
    requires within { start ≤ end }
    requires tape { end ≤ length tape.now }
    ensures { WritingAnswers (λ _. JoinsPieces (sort_of sort) tape.now start end buf.old buf.new)
        (NoPieces (string (sort_of sort)) tape.now start end) buf.old buf.new result }
{
    let mut rest = end;
    while rest > start {
        let Some(octets) = last_string(sort, tape, rest) else {
            return Err(Fault::Refused);
        };
        match put(octets, buf) {
            Ok(()) => rest -= 1,
            Err(e) => return Err(e),
        }
    }
    Ok(())
}

/// Puts the octets of a string in so many pieces in front, which end at a place.
fn put_in_pieces(
    sort: StringSort,
    count: usize,
    tape: &[Item<'_>],
    at: usize,
    buf: &mut DerBuffer,
) -> Result<usize, Fault>
    requires place { at ≤ length tape.now }
    requires some { 0 < at }
    requires last { before tape.now at ≡
        before tape.now (at - 1) ++ pieces_end_mark count ∷ [] }
    ensures { Writes (IsPlainString (sort_of sort)) tape.now at buf.old buf.new result }
{
    let Some(start) = pieces_start(tape, count, at - 1) else {
        return Err(Fault::Refused);
    };
    match put_pieces(sort, tape, start, at - 1, buf) {
        Ok(()) => Ok(start - 1),
        Err(e) => Err(e),
    }
}

/// Puts the octets of a string in front, whatever is asked of them.
fn put_string(
    sort: StringSort,
    tape: &[Item<'_>],
    at: usize,
    buf: &mut DerBuffer,
) -> Result<usize, Fault>
    requires { at ≤ length tape.now }
    ensures { Writes (IsPlainString (sort_of sort)) tape.now at buf.old buf.new result }
{
    match last_string(sort, tape, at) {
        Some(octets) => put_at(octets, at - 1, buf),
        None => match last_pieces(tape, at) {
            Some(count) => put_in_pieces(sort, count, tape, at, buf),
            None => Err(Fault::Refused),
        },
    }
}

/// Puts octets in front.
pub(crate) fn put_octets(tape: &[Item<'_>], at: usize, buf: &mut DerBuffer) -> Result<usize, Fault>
    requires { at ≤ length tape.now }
    ensures { (nodes : List Node) (depth : ℕ) →
        Writes (IsContentOfKind nodes depth kinds.Octets) tape.now at buf.old buf.new result }
{
    put_string(StringSort::Octets, tape, at, buf)
}

/// Puts characters in front.
pub(crate) fn put_text(
    kind: TextKind,
    tape: &[Item<'_>],
    at: usize,
    buf: &mut DerBuffer,
) -> Result<usize, Fault>
    requires { at ≤ length tape.now }
    ensures { (nodes : List Node) (depth : ℕ) →
        Writes (IsContentOfKind nodes depth (kinds.Text kind)) tape.now at buf.old buf.new result }
{
    let held = buf.len();
    match put_string(StringSort::Text(kind), tape, at, buf) {
        Ok(rest) => {
            if !is_text(kind, in_front(buf, held)) {
                return Err(Fault::Refused);
            }
            Ok(rest)
        }
        Err(e) => Err(e),
    }
}

/// Puts the text of a time in front.
pub(crate) fn put_time(
    kind: TimeKind,
    tape: &[Item<'_>],
    at: usize,
    buf: &mut DerBuffer,
) -> Result<usize, Fault>
    requires { at ≤ length tape.now }
    ensures { (nodes : List Node) (depth : ℕ) →
        Writes (IsContentOfKind nodes depth (kinds.Time kind)) tape.now at buf.old buf.new result }
{
    let held = buf.len();
    match put_string(StringSort::Time(kind), tape, at, buf) {
        Ok(rest) => {
            if !is_time(Coding::Der, kind, in_front(buf, held)) {
                return Err(Fault::Refused);
            }
            Ok(rest)
        }
        Err(e) => Err(e),
    }
}
