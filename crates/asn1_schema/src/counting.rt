//! How many values stand in a row of items (X.680 51.5: the size of a list is the number of its members).
ghost use Rattle.std.specs.Prelude.{ℕ, List, [], ◌∷◌, ◌++◌, ◌+◌, ◌^◌, ◌<◌, ◌≤◌, ◌≡◌, length};
ghost use Rattle.asn1_schema.specs.Tape.{Mark, mark, marks, arm_end_mark};
ghost use Rattle.asn1_schema.specs.Counting.{one_more, values_from};

use crate::tape::Item;

/// What is counted so far.
#[derive(Debug, Clone, Copy)]
pub(crate) struct Counted {
    /// The values.
    pub(crate) values: usize,
    /// The arms that are open.
    pub(crate) arms: usize,
    /// The items that belong to the value before.
    pub(crate) within: u128,
}

/// A value begins, with so many items behind its first one. Where an arm is open, the arm is the value.
fn with_value(so_far: Counted, within: u128) -> Counted
    requires { so_far.values < 2 ^ 63 }
    ensures values { result.values ≤ so_far.values + 1 }
    ensures arms { result.arms ≡ so_far.arms }
    ensures same { (ms : List Mark) →
        so_far.values + one_more so_far.arms (values_from so_far.arms within ms)
        ≡ result.values + values_from result.arms result.within ms }
{
    if so_far.arms == 0 {
        return Counted {
            values: so_far.values + 1,
            arms: so_far.arms,
            within,
        };
    }
    Counted {
        values: so_far.values,
        arms: so_far.arms,
        within,
    }
}

/// An arm ends.
fn without_arm(so_far: Counted) -> Counted
    requires { so_far.values < 2 ^ 63 }
    ensures values { result.values ≤ so_far.values + 1 }
    ensures arms { result.arms ≤ so_far.arms }
    ensures same { (k : ℕ) (ms : List Mark) →
        so_far.values + values_from so_far.arms 0 (arm_end_mark k ∷ ms)
        ≡ result.values + values_from result.arms result.within ms }
{
    if so_far.arms == 0 {
        return Counted {
            values: so_far.values,
            arms: so_far.arms,
            within: 0,
        };
    }
    let outer = Counted {
        values: so_far.values,
        arms: so_far.arms - 1,
        within: 0,
    };
    with_value(outer, 0)
}

/// One item more.
fn with_item(so_far: Counted, item: &Item<'_>) -> Counted
    requires values { so_far.values < 2 ^ 63 }
    requires arms { so_far.arms < 2 ^ 63 }
    ensures values { result.values ≤ so_far.values + 1 }
    ensures arms { result.arms ≤ so_far.arms + 1 }
    ensures same { (ms : List Mark) →
        so_far.values + values_from so_far.arms so_far.within (mark item.now ∷ ms)
        ≡ result.values + values_from result.arms result.within ms }
{
    if so_far.within != 0 {
        return Counted {
            values: so_far.values,
            arms: so_far.arms,
            within: so_far.within - 1,
        };
    }
    match item {
        Item::Begin(n) => with_value(so_far, *n as u128 + 1),
        Item::Pieces(n) => with_value(so_far, *n as u128 + 1),
        Item::Arm(_) => Counted {
            values: so_far.values,
            arms: so_far.arms + 1,
            within: 0,
        },
        Item::ArmEnd(_) => without_arm(so_far),
        Item::End(_) => so_far,
        Item::PiecesEnd(_) => so_far,
        Item::Absent => so_far,
        _ => with_value(so_far, 0),
    }
}

/// How many values stand in a row of items. A field that is left out is none.
pub(crate) fn count_values(items: &[Item<'_>]) -> usize
    ensures { result ≡ values_from 0 0 (marks items.now) }
{
    let mut counted = Counted {
        values: 0,
        arms: 0,
        within: 0,
    };
    for item in items {
        counted = with_item(counted, item);
    }
    counted.values
}

/// The items between the one at a place and the last one.
pub(crate) fn inner_items<'t, 'a>(tape: &'t [Item<'a>], place: usize) -> &'t [Item<'a>]
    requires { place < length tape.now }
    ensures { (front inner : List Mark) (first last : Mark) →
        marks tape.now ≡ front ++ first ∷ (inner ++ last ∷ []) → place ≡ length front →
        marks result.now ≡ inner }
{
    let last = tape.len() - 1;
    let first = last.min(place + 1);
    &tape[first..last]
}
