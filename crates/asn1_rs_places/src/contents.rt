//! Contents octets of constructed elements, and values under tags.
ghost use Rattle.std.specs.Prelude.{◌≡◌, ◌↔◌, [], ℕ, List, IsTrue, None, Some, MatchOption};
ghost use Rattle.asn1_rs_places.specs.Places.{closing, AreTaken, IsClosed, EndsContentAt, IsInContents, IsOfClass};
ghost use Rattle.asn1_rs_places.specs.Places.{BeginsOpened};
ghost use Rattle.asn1_rs_places.specs.Places.{IsInTag, HoldsParts, Accepts};

use crate::looks::{LooksInto, LooksWithin, ReadsValue, place_of_one};
use crate::refused::{Refused, Step};
use asn1_rs::{Any, BerParser, Error, Explicit, Header, Implicit, Length, TaggedValue};
use std::alloc::Global;
use std::marker::PhantomData;

/// Whether a header is of this class, where one is given.
fn is_of_class(header: &Header<'_>, class: Option<u8>) -> bool
    ensures { IsTrue result ↔ IsOfClass class header.now }
{
    match class {
        None => true,
        Some(class) => header.class().number() == class,
    }
}

/// Whether the contents octets of an element with this header hold the parts of a value.
fn opens(header: &Header<'_>, number: u32, class: Option<u8>) -> bool
    ensures { IsTrue result ↔ HoldsParts number class header.now }
{
    header.tag().0 == number && header.constructed() && is_of_class(header, class)
}

/// How many octets close an element of this length.
fn closing_octets(length: Length) -> usize
    ensures { result ≡ closing length }
{
    match length {
        Length::Definite(_) => 0,
        Length::Indefinite => 2,
    }
}

/// The element at the front of the octets, where it opens. With it comes how many octets of the input stand before the
/// end of its contents octets.
pub(crate) fn opened<'a, P>(
    alloc: Global,
    octets: &'a [u8],
    end: usize,
    number: u32,
    class: Option<u8>,
) -> Option<(Any<'a>, usize)>
where
    Any<'a>: ReadsValue<'a, P>,
    ensures { MatchOption result
        (IsClosed ⟦<Any<'a> as ReadsValue<'a, P>>⟧.value_gives number class octets.now)
        (λ x. (rest : List ℕ)
        × BeginsOpened ⟦<Any<'a> as ReadsValue<'a, P>>⟧.value_gives number class octets.now x.0 rest
        × EndsContentAt end rest x.0 x.1) }
{
    match <Any<'a> as ReadsValue<'a, P>>::read_value(alloc, octets) {
        Ok((rest, any)) => {
            if !opens(&any.header, number, class) {
                return None;
            }
            let closed = closing_octets(any.header.length());
            let its_end = end.saturating_sub(rest.len()).saturating_sub(closed);
            Some((any, its_end))
        }
        Err(_) => None,
    }
}

/// Where a part of the contents octets is refused of the element that begins the octets, where that opens. The element
/// is read by `P`, its parts by `Q`.
pub(crate) fn look_opened<'a, P, Q, T, L>(
    alloc: Global,
    octets: &'a [u8],
    end: usize,
    number: u32,
    class: Option<u8>,
) -> Option<Refused>
where
    Any<'a>: ReadsValue<'a, P>,
    L: LooksWithin<'a, Q, T>,
    ensures { MatchOption result
        (AreTaken ⟦<Any<'a> as ReadsValue<'a, P>>⟧.value_gives number class L.takes octets.now)
        (IsInContents ⟦<Any<'a> as ReadsValue<'a, P>>⟧.value_gives number class L.tells_within end
        octets.now) }
{
    match opened::<P>(alloc, octets, end, number, class) {
        Some((any, its_end)) => match L::look_within(alloc, any.content, its_end) {
            Some(refused) => Some(refused),
            None => None,
        },
        None => None,
    }
}

/// Where the value under a tag is refused, which is to be all of these contents octets.
fn look_under_tag<'a, P, T, L>(alloc: Global, octets: &'a [u8], end: usize) -> Option<Refused>
where
    T: ReadsValue<'a, P> + Drop,
    L: LooksInto<'a, P, T>,
    ensures { MatchOption result (Accepts T.value_gives octets.now [])
        (IsInTag T.value_gives L.silent L.tells end octets.now) }
{
    match place_of_one::<P, T, L>(alloc, octets, end) {
        Some(refused) => Some(refused.under(Step::Tagged)),
        None => None,
    }
}

/// Looks into the value under an explicit tag by `L`.
#[derive_where(Debug)]
pub struct UnderTag<L>(PhantomData<L>);

impl<'a, P, T, L, const CLASS: u8, const TAG: u32> LooksWithin<
    'a,
    P,
    TaggedValue<T, Error, Explicit, CLASS, TAG>,
> for UnderTag<L>
where
    T: ReadsValue<'a, P> + Drop,
    L: LooksInto<'a, P, T>,
{
    ghost takes = { λ octets. Accepts T.value_gives octets [] };

    ghost tells_within = { IsInTag T.value_gives L.silent L.tells };

    fn look_within(alloc: Global, octets: &'a [u8], end: usize) -> Option<Refused> {
        look_under_tag::<P, T, L>(alloc, octets, end)
    }
}

impl<'a, P, T, L, const CLASS: u8, const TAG: u32> LooksInto<
    'a,
    P,
    TaggedValue<T, Error, Explicit, CLASS, TAG>,
> for UnderTag<L>
where
    T: ReadsValue<'a, P> + Drop,
    Any<'a>: ReadsValue<'a, P>,
    L: LooksInto<'a, P, T>,
{
    ghost silent = { AreTaken ⟦<Any<'a> as ReadsValue<'a, P>>⟧.value_gives TAG (Some CLASS)
        (λ octets. Accepts T.value_gives octets []) };

    ghost tells = { IsInContents ⟦<Any<'a> as ReadsValue<'a, P>>⟧.value_gives TAG (Some CLASS)
        (IsInTag T.value_gives L.silent L.tells) };

    fn look(alloc: Global, octets: &'a [u8], end: usize) -> Option<Refused> {
        match opened::<P>(alloc, octets, end, TAG, Some(CLASS)) {
            Some((any, its_end)) => match look_under_tag::<P, T, L>(alloc, any.content, its_end) {
                Some(refused) => Some(refused),
                None => None,
            },
            None => None,
        }
    }
}

/// Looks by `L` into the contents octets of a value under an implicit tag. By both rules their parts are read by BER.
#[derive_where(Debug)]
pub struct InImplicit<L>(PhantomData<L>);

impl<'a, P, T, L, const CLASS: u8, const TAG: u32> LooksInto<
    'a,
    P,
    TaggedValue<T, Error, Implicit, CLASS, TAG>,
> for InImplicit<L>
where
    Any<'a>: ReadsValue<'a, P>,
    L: LooksWithin<'a, BerParser, T>,
{
    ghost silent = { AreTaken ⟦<Any<'a> as ReadsValue<'a, P>>⟧.value_gives TAG (Some CLASS)
        L.takes };

    ghost tells = { IsInContents ⟦<Any<'a> as ReadsValue<'a, P>>⟧.value_gives TAG (Some CLASS)
        L.tells_within };

    fn look(alloc: Global, octets: &'a [u8], end: usize) -> Option<Refused> {
        look_opened::<P, BerParser, T, L>(alloc, octets, end, TAG, Some(CLASS))
    }
}
