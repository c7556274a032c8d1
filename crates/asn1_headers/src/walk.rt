//! Walking over items that stand one after the other, as those in the contents octets of a sequence (X.690 8.9.2).
ghost use Rattle.std.specs.Prelude.{◌≡◌, ◌<◌, ℕ, List, Result, Ok, IfOk, IfErr, length};
ghost use Rattle.asn1_headers.specs.Answers.{seen};
ghost use Rattle.asn1_headers.specs.Walk.{EndsItem, TakesItem};
ghost use Rattle.asn1_headers.specs.declared.error.Err.{Err as Refusal};

use crate::error::{Err, Error, ParseResult};
use std::alloc::Global;

/// A reader of the items of a walk, as a type.
// The step of a walk stands in this crate, so that the edit of it that the gate tries proves few functions again.
// `ReadsItems` can't, since its impls name readers of `asn1_rs`. A closure can't take its place. Of `next_item(left,
// |octets| F::read_item(alloc, octets))` the borrow checker says that a bound that names a lifetime is needed for a
// shorter one. The closure may not name the lifetime.
pub trait ReadsNext<'a, T, E> {
    /// What the reader may answer to these octets.
    ghost next_reads: { List ℕ → Result (List ℕ × T) (Refusal E) → Type 0 };

    /// Reads an item at the front of the octets, and answers what follows it.
    fn read_next(alloc: Global, octets: &'a [u8]) -> ParseResult<'a, T, E>
        ensures { next_reads octets.now (seen result) };
}

/// The item and what is left behind it, or the refusal that ends the walk.
#[inline(always)]
fn item_or_end<'a, T: Drop, E: From<Error>>(
    octets: &'a [u8],
    answer: ParseResult<'a, T, E>,
) -> Result<(&'a [u8], T), E>
    ensures item { IfOk result (λ x. (seen answer.entry ≡ Ok (x.0.now, x.1))
        × (length x.0.now < length octets.now)) }
    ensures end { IfErr result (EndsItem E.from_gives octets.now (seen answer.entry)) }
{
    match answer {
        Ok((rest, item)) if rest.len() < octets.len() => Ok((rest, item)),
        Ok(_) => Err(E::from(Error::InvalidLength)),
        Err(Err::Incomplete(needed)) => Err(E::from(Error::Incomplete(needed))),
        Err(Err::Error(e)) => Err(e),
        Err(Err::Failure(e)) => Err(e),
    }
}

/// Takes the next item of a walk off the front of the octets that are left, and answers it.
///
/// `None` where no octets are left, and there alone. A refusal ends the walk, so nothing is left behind it. It is
/// that of the reader, `Error::Incomplete` where the item lacks octets, or `InvalidLength` where the reader takes none.
#[inline(always)]
pub fn next_item<'a, T, E, R>(alloc: Global, left: &mut &'a [u8]) -> Option<Result<T, E>>
where
    T: Drop,
    E: From<Error>,
    R: ReadsNext<'a, T, E>,
    ensures { TakesItem R.next_reads E.from_gives left.old.now result left.new.now }
{
    let octets = *left;
    if octets.is_empty() {
        return None;
    }
    match item_or_end(octets, R::read_next(alloc, octets)) {
        Ok((rest, item)) => {
            *left = rest;
            Some(Ok(item))
        }
        Err(e) => {
            *left = &[];
            Some(Err(e))
        }
    }
}
