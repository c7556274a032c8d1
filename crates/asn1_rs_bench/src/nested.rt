//! Lists nested deep in one another, as static types.

use crate::sums::Summed;
use asn1_rs::{
    DerBuffer, DerWrite, Error, FromDer, ParseResult, SerializeResult, Tag, Tagged, ToDer,
};
use std::alloc::Global;

/// Four lists in one another, of such items.
///
/// Of lists alone the toolchain resolves six in one another for a reader. A type of a caller's own has impls of its
/// own, so behind it the count begins anew. What is made for a call then names the item alone, not the lists between.
#[derive(Debug, Drop)]
pub(crate) struct FourLists<T>(Vec<Vec<Vec<Vec<T>>>>);

/// Sixteen lists in one another, of such items.
///
/// Eight times four lists are too many again, so these are a type of their own.
#[derive(Debug, Drop)]
pub(crate) struct SixteenLists<T>(FourLists<FourLists<FourLists<FourLists<T>>>>);

/// Lists of eight levels.
pub(crate) type EightDeep = FourLists<FourLists<u8>>;

/// Lists of 32 levels.
pub(crate) type ThirtyTwoDeep = SixteenLists<SixteenLists<u8>>;

/// Lists of 64 levels.
pub(crate) type SixtyFourDeep = SixteenLists<SixteenLists<SixteenLists<SixteenLists<u8>>>>;

impl<'a, T: FromDer<'a, E> + Drop, E: From<Error>> FromDer<'a, E> for FourLists<T> {
    fn from_der(alloc: Global, bytes: &'a [u8]) -> ParseResult<'a, FourLists<T>, E> {
        let (rest, lists) = Vec::from_der(alloc, bytes)?;
        Ok((rest, FourLists(lists)))
    }
}

impl<T> Tagged for FourLists<T> {
    const TAG: Tag = Tag::Sequence;

    ghost TAG = { record { 0 = 16 } };
}

impl<T: ToDer> ToDer for FourLists<T> {
    fn to_der_len(&self) -> Result<usize, Error> {
        self.0.to_der_len()
    }

    fn der_content_len(&self) -> Result<usize, Error> {
        self.0.der_content_len()
    }

    fn der_constructed(&self) -> bool {
        true
    }

    fn write_der_header<W: DerWrite>(&self, alloc: Global, w: &mut W) -> SerializeResult<usize> {
        self.0.write_der_header(alloc, w)
    }

    fn write_der_content<W: DerWrite>(&self, alloc: Global, w: &mut W) -> SerializeResult<usize> {
        self.0.write_der_content(alloc, w)
    }

    fn write_der<W: DerWrite>(&self, alloc: Global, w: &mut W) -> SerializeResult<usize> {
        self.0.write_der(alloc, w)
    }

    fn prepend_der_content(&self, alloc: Global, buf: &mut DerBuffer) -> SerializeResult<usize> {
        self.0.prepend_der_content(alloc, buf)
    }

    fn prepend_der(&self, alloc: Global, buf: &mut DerBuffer) -> SerializeResult<usize> {
        self.0.prepend_der(alloc, buf)
    }
}

impl<T: Summed> Summed for FourLists<T> {
    fn sum(&self) -> u64 {
        self.0.sum()
    }
}

impl<'a, T: FromDer<'a, E> + Drop, E: From<Error>> FromDer<'a, E> for SixteenLists<T> {
    fn from_der(alloc: Global, bytes: &'a [u8]) -> ParseResult<'a, SixteenLists<T>, E> {
        let (rest, lists) = FourLists::from_der(alloc, bytes)?;
        Ok((rest, SixteenLists(lists)))
    }
}

impl<T> Tagged for SixteenLists<T> {
    const TAG: Tag = Tag::Sequence;

    ghost TAG = { record { 0 = 16 } };
}

impl<T: ToDer> ToDer for SixteenLists<T> {
    fn to_der_len(&self) -> Result<usize, Error> {
        self.0.to_der_len()
    }

    fn der_content_len(&self) -> Result<usize, Error> {
        self.0.der_content_len()
    }

    fn der_constructed(&self) -> bool {
        true
    }

    fn write_der_header<W: DerWrite>(&self, alloc: Global, w: &mut W) -> SerializeResult<usize> {
        self.0.write_der_header(alloc, w)
    }

    fn write_der_content<W: DerWrite>(&self, alloc: Global, w: &mut W) -> SerializeResult<usize> {
        self.0.write_der_content(alloc, w)
    }

    fn write_der<W: DerWrite>(&self, alloc: Global, w: &mut W) -> SerializeResult<usize> {
        self.0.write_der(alloc, w)
    }

    fn prepend_der_content(&self, alloc: Global, buf: &mut DerBuffer) -> SerializeResult<usize> {
        self.0.prepend_der_content(alloc, buf)
    }

    fn prepend_der(&self, alloc: Global, buf: &mut DerBuffer) -> SerializeResult<usize> {
        self.0.prepend_der(alloc, buf)
    }
}

impl<T: Summed> Summed for SixteenLists<T> {
    fn sum(&self) -> u64 {
        self.0.sum()
    }
}
