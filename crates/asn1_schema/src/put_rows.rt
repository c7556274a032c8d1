//! What writers of rows, of lists and of choices look at on the tape.
ghost use Rattle.std.specs.Prelude.{ℕ, ℤ, List, [], ◌∷◌, ◌++◌, ◌+◌, ◌-◌, ◌≡◌, ◌≤◌, ◌<◌, ◌↔◌, length, IsTrue};
ghost use Rattle.std.specs.Prelude.{Some, None, IfSome, IfNone, IfOk, IfErr, slice_get};
ghost use Rattle.std.specs.List.{concat};
ghost use Rattle.x690.specs.Octets.{IsBeforeOrSame};
ghost use Rattle.asn1_schema.specs.Values.{measure};
ghost use Rattle.asn1_schema.specs.Tape.{Mark, Kept, KeptRow, marks, tape_of, tapes_of, value_of, values_of};
ghost use Rattle.asn1_schema.specs.Reading.{JudgesBounds};
ghost use Rattle.asn1_schema.specs.Writing.{before, BeginsRow, BeginsArm, member_count, row_behind};
ghost use Rattle.asn1_schema.specs.Writing.{FirstIs, order_of};

use crate::bounds::judge_bounds;
use crate::cursor::split_value;
use crate::endings::{last_arm_begin, last_begin};
use crate::fault::Fault;
use crate::fronts::in_front;
use crate::tape::Item;
use asn1_headers::buffer::DerBuffer;

/// The type of an arm.
pub(crate) fn arm_at(arms: &[usize], k: usize) -> Option<usize>
    ensures some { IfSome result (λ arm. slice_get arms.now k ≡ Some arm) }
    ensures none { IfNone result (slice_get arms.now k ≡ None) }
{
    match arms.get(k) {
        Some(arm) => Some(*arm),
        None => None,
    }
}

/// Where a value of an arm begins before a place.
pub(crate) fn begin_arm(tape: &[Item<'_>], place: usize, k: usize) -> Result<usize, Fault>
    requires { place ≤ length tape.now }
    ensures { BeginsArm tape.now place k result }
{
    let Some(arm) = last_arm_begin(tape, place) else {
        return Err(Fault::Refused);
    };
    if arm != k {
        return Err(Fault::Refused);
    }
    Ok(place - 1)
}

/// Where a row begins of which so many items stand between two places.
pub(crate) fn begin_row(
    tape: &[Item<'_>],
    end: usize,
    place: usize,
    count: usize,
) -> Result<usize, Fault>
    requires place { place ≤ end }
    requires tape { end ≤ length tape.now }
    ensures { BeginsRow tape.now end place count result }
{
    let Some(held) = last_begin(tape, place) else {
        return Err(Fault::Refused);
    };
    if held != count || count != end - place {
        return Err(Fault::Refused);
    }
    Ok(place - 1)
}

/// The items behind the first field.
fn behind_first<'t, 'a>(items: &'t [Item<'a>]) -> &'t [Item<'a>]
    ensures { (kept : KeptRow) → marks items.now ≡ tapes_of kept →
        marks result.now ≡ tapes_of (row_behind 1 kept) }
{
    let (_first, others) = split_value(items);
    others
}

/// The items behind so many fields.
fn behind_fields<'t, 'a>(items: &'t [Item<'a>], places: usize) -> &'t [Item<'a>]
    ensures { (kept : KeptRow) → marks items.now ≡ tapes_of kept →
        marks result.now ≡ tapes_of (row_behind places kept) }
{
    let mut rest = items;
    for _ in 0..places {
        rest = behind_first(rest);
    }
    rest
}

/// How many fields or members stand in a row of items.
fn count_members(items: &[Item<'_>]) -> usize
    ensures { (kept : KeptRow) → marks items.now ≡ tapes_of kept →
        result ≡ member_count (values_of kept) }
{
    let mut count = 0;
    let mut rest = items;
    for _ in 0..items.len() {
        if rest.is_empty() {
            return count;
        }
        rest = behind_first(rest);
        count += 1;
    }
    count
}

/// How many fields or members stand behind so many fields among so many items before a place.
pub(crate) fn count_behind(places: usize, tape: &[Item<'_>], items: usize, end: usize) -> usize
    requires { end ≤ length tape.now }
    ensures { (front : List Mark) (kept : KeptRow) → before tape.now end ≡ front ++ tapes_of kept →
        length (tapes_of kept) ≡ items →
        result ≡ member_count (values_of (row_behind places kept)) }
{
    let start = end.saturating_sub(items);
    let row = &tape[start..end];
    count_members(behind_fields(row, places))
}

/// How many unknown elements stand behind so many fields among so many items before a place: none, where there is no
/// extension mark.
pub(crate) fn count_unknown(
    unknown: Option<usize>,
    places: usize,
    tape: &[Item<'_>],
    items: usize,
    end: usize,
) -> usize
    requires { end ≤ length tape.now }
    ensures some { (front : List Mark) (kept : KeptRow) →
        before tape.now end ≡ front ++ tapes_of kept → length (tapes_of kept) ≡ items →
        IfSome unknown (λ t. result ≡ member_count (values_of (row_behind places kept))) }
    ensures none { IfNone unknown (result ≡ 0) }
{
    match unknown {
        Some(_) => count_behind(places, tape, items, end),
        None => 0,
    }
}

/// Writes no unknown elements, where none are counted.
pub(crate) fn none_unknown(count: usize, at: usize) -> Result<usize, Fault>
    ensures ok { IfOk result (λ rest. (rest ≡ at) × (count ≡ 0)) }
    ensures err { IfErr result (λ e. count ≡ 0 → ⊥) }
{
    if count != 0 {
        return Err(Fault::Refused);
    }
    Ok(at)
}

/// Whether a member may stand before those that were put in front, of which the first has so many octets
/// (X.690 11.6).
pub(crate) fn may_precede(
    ascending: bool,
    first: Option<usize>,
    held: usize,
    buf: &DerBuffer,
) -> bool
    ensures { (word old : List ℕ) (words : List (List ℕ)) →
        buf.now ≡ word ++ (concat words ++ old) → held ≡ length (concat words ++ old) →
        FirstIs words first → order_of ascending words →
        (IsTrue result → order_of ascending (word ∷ words))
        × (order_of ascending (word ∷ words) → IsTrue result) }
{
    match first {
        Some(count) => !ascending || is_before_or_same(buf, held, count),
        None => true,
    }
}

/// Whether the octets in front of so many come before the next ones, so many, in dictionary order, or are the same.
fn is_before_or_same(buf: &DerBuffer, held: usize, count: usize) -> bool
    ensures { (word next old : List ℕ) → buf.now ≡ word ++ (next ++ old) →
        held ≡ length (next ++ old) → count ≡ length next → IsTrue result ↔ IsBeforeOrSame word next }
{
    let octets = buf.as_bytes();
    let (one, others) = octets.split_at(octets.len().saturating_sub(held));
    let (next, _old) = others.split_at(count.min(others.len()));
    !next.cmp(one).is_lt()
}

/// Judges the value that stands between two places, and answers the first of them.
pub(crate) fn within_bounds(
    tape: &[Item<'_>],
    place: usize,
    at: usize,
    lower: Option<i128>,
    upper: Option<i128>,
) -> Result<usize, Fault>
    requires tape { at ≤ length tape.now }
    ensures judges { (kept : Kept) → before tape.now at ≡ before tape.now place ++ tape_of kept →
        place ≤ at → JudgesBounds lower upper (measure (value_of kept)) result }
    ensures same { IfOk result (λ n. n ≡ place) }
{
    let (front, _behind) = tape.split_at(at);
    match judge_bounds(front, place, lower, upper) {
        Ok(()) => Ok(place),
        Err(e) => Err(e),
    }
}
