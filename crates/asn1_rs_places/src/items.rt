//! Items of lists: in which of them the refusal came.
ghost use Rattle.std.specs.Prelude.{◌≡◌, MatchOption, None};
ghost use Rattle.asn1_rs_places.specs.Places.{AreTaken, IsInContents, IsInItems, TakesAll};

use crate::contents::look_opened;
use crate::looks::{LooksInto, LooksWithin, ReadsValue, told};
use crate::refused::{Refused, Step};
use asn1_rs::{Any, SequenceOf, SetOf};
use std::alloc::Global;
use std::marker::PhantomData;

/// Where one of the items is refused that the octets are, one after another.
fn look_in_items<'a, P, T, L>(alloc: Global, octets: &'a [u8], end: usize) -> Option<Refused>
where
    T: ReadsValue<'a, P> + Drop,
    L: LooksInto<'a, P, T>,
    ensures { MatchOption result (TakesAll T.value_gives octets.now)
        (IsInItems T.value_gives L.silent L.tells end octets.now) }
{
    let mut left = octets;
    for place in 0..octets.len() {
        if left.is_empty() {
            return None;
        }
        match T::read_value(alloc, left) {
            Ok((rest, _)) => left = rest,
            Err(refusal) => {
                let refused = told::<P, T, L>(alloc, left, end, refusal);
                return Some(refused.under(Step::Item(place)));
            }
        }
    }
    None
}

/// Looks into the items of a list by `L`.
#[derive_where(Debug)]
pub struct Items<L>(PhantomData<L>);

impl<'a, P, T, L> LooksWithin<'a, P, Vec<T>> for Items<L>
where
    T: ReadsValue<'a, P> + Drop,
    L: LooksInto<'a, P, T>,
{
    ghost takes = { TakesAll T.value_gives };

    ghost tells_within = { IsInItems T.value_gives L.silent L.tells };

    fn look_within(alloc: Global, octets: &'a [u8], end: usize) -> Option<Refused> {
        look_in_items::<P, T, L>(alloc, octets, end)
    }
}

impl<'a, P, T, L> LooksInto<'a, P, Vec<T>> for Items<L>
where
    T: ReadsValue<'a, P> + Drop,
    Any<'a>: ReadsValue<'a, P>,
    L: LooksInto<'a, P, T>,
{
    ghost silent = { AreTaken ⟦<Any<'a> as ReadsValue<'a, P>>⟧.value_gives 16 None
        (TakesAll T.value_gives) };

    ghost tells = { IsInContents ⟦<Any<'a> as ReadsValue<'a, P>>⟧.value_gives 16 None
        (IsInItems T.value_gives L.silent L.tells) };

    fn look(alloc: Global, octets: &'a [u8], end: usize) -> Option<Refused> {
        look_opened::<P, P, Vec<T>, Items<L>>(alloc, octets, end, 16, None)
    }
}

impl<'a, P, T, L> LooksWithin<'a, P, SequenceOf<T>> for Items<L>
where
    T: ReadsValue<'a, P> + Drop,
    L: LooksInto<'a, P, T>,
{
    ghost takes = { TakesAll T.value_gives };

    ghost tells_within = { IsInItems T.value_gives L.silent L.tells };

    fn look_within(alloc: Global, octets: &'a [u8], end: usize) -> Option<Refused> {
        look_in_items::<P, T, L>(alloc, octets, end)
    }
}

impl<'a, P, T, L> LooksInto<'a, P, SequenceOf<T>> for Items<L>
where
    T: ReadsValue<'a, P> + Drop,
    Any<'a>: ReadsValue<'a, P>,
    L: LooksInto<'a, P, T>,
{
    ghost silent = { AreTaken ⟦<Any<'a> as ReadsValue<'a, P>>⟧.value_gives 16 None
        (TakesAll T.value_gives) };

    ghost tells = { IsInContents ⟦<Any<'a> as ReadsValue<'a, P>>⟧.value_gives 16 None
        (IsInItems T.value_gives L.silent L.tells) };

    fn look(alloc: Global, octets: &'a [u8], end: usize) -> Option<Refused> {
        look_opened::<P, P, SequenceOf<T>, Items<L>>(alloc, octets, end, 16, None)
    }
}

impl<'a, P, T, L> LooksWithin<'a, P, SetOf<T>> for Items<L>
where
    T: ReadsValue<'a, P> + Drop,
    L: LooksInto<'a, P, T>,
{
    ghost takes = { TakesAll T.value_gives };

    ghost tells_within = { IsInItems T.value_gives L.silent L.tells };

    fn look_within(alloc: Global, octets: &'a [u8], end: usize) -> Option<Refused> {
        look_in_items::<P, T, L>(alloc, octets, end)
    }
}

impl<'a, P, T, L> LooksInto<'a, P, SetOf<T>> for Items<L>
where
    T: ReadsValue<'a, P> + Drop,
    Any<'a>: ReadsValue<'a, P>,
    L: LooksInto<'a, P, T>,
{
    ghost silent = { AreTaken ⟦<Any<'a> as ReadsValue<'a, P>>⟧.value_gives 17 None
        (TakesAll T.value_gives) };

    ghost tells = { IsInContents ⟦<Any<'a> as ReadsValue<'a, P>>⟧.value_gives 17 None
        (IsInItems T.value_gives L.silent L.tells) };

    fn look(alloc: Global, octets: &'a [u8], end: usize) -> Option<Refused> {
        look_opened::<P, P, SetOf<T>, Items<L>>(alloc, octets, end, 17, None)
    }
}
