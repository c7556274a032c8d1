//! Structs: in which of their fields the refusal came.
ghost use Rattle.std.specs.Prelude.{None};
ghost use Rattle.asn1_rs_places.specs.Places.{AreTaken, IsInContents, TakesRow};

use crate::contents::look_opened;
use crate::looks::{LooksInto, LooksWithin, ReadsValue};
use crate::refused::Refused;
use crate::rows::LooksIntoRow;
use asn1_rs::Any;
use asn1_rs::author::{ReadsBy, ReadsRow};
use std::alloc::Global;
use std::marker::PhantomData;

/// Looks by `L` into the fields of a struct whose row is `R`, as `InStruct<ReminderRow, ReminderLook>`.
// The mark names the row. So a caller looks into a struct of another crate too, without a line for it.
#[derive_where(Debug)]
pub struct InStruct<R, L> {
    row: PhantomData<R>,
    look: PhantomData<L>,
}

impl<'a, P, T, R, L> LooksWithin<'a, P, T> for InStruct<R, L>
where
    P: ReadsBy,
    R: ReadsRow<'a, P>,
    L: LooksIntoRow<'a, P, R>,
{
    ghost takes = { TakesRow R.row_gives };

    ghost tells_within = { L.tells_in_row 0 };

    fn look_within(alloc: Global, octets: &'a [u8], end: usize) -> Option<Refused> {
        L::look_in_row(alloc, octets, end, 0)
    }
}

impl<'a, P, T, R, L> LooksInto<'a, P, T> for InStruct<R, L>
where
    P: ReadsBy,
    Any<'a>: ReadsValue<'a, P>,
    R: ReadsRow<'a, P>,
    L: LooksIntoRow<'a, P, R>,
{
    ghost silent = { AreTaken ⟦<Any<'a> as ReadsValue<'a, P>>⟧.value_gives 16 None
        (TakesRow R.row_gives) };

    ghost tells = { IsInContents ⟦<Any<'a> as ReadsValue<'a, P>>⟧.value_gives 16 None
        (L.tells_in_row 0) };

    fn look(alloc: Global, octets: &'a [u8], end: usize) -> Option<Refused> {
        look_opened::<P, P, T, InStruct<R, L>>(alloc, octets, end, 16, None)
    }
}
