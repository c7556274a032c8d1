//! Items of one type in the contents octets of sequences and sets that are kept so.
ghost use Rattle.asn1_headers.specs.declared.error.Error.TheVariants as errors;
ghost use Rattle.asn1_rs.specs.Kept.{kept_octets, OnLent, IsErrorOf, CopiesGive};
ghost use Rattle.asn1_rs.specs.Lists.{ItemsGive, listed};

use crate::asn1_types::kept::kinds::{Sequence, Set};
use crate::asn1_types::lists::items_by;
use crate::asn1_types::sequence::iterator::{ReadsItems, SequenceIterator};
use crate::to_static::ToStatic;
use crate::traits::{FromBer, FromDer};
use asn1_headers::content::{BerParser, DerParser};
use asn1_headers::error::Error;
use std::alloc::Global;
use std::borrow::CowSlice;

/// The items in borrowed octets, by the reader `F`. Owned octets are refused with `LifetimeError`.
fn items_lent<'a, T, F, E>(content: CowSlice<'a, u8, Global>, alloc: Global) -> Result<Vec<T>, E>
where
    T: Drop,
    F: ReadsItems<'a, T, E>,
    E: From<Error>,
    ensures { OnLent (λ octets answer. ItemsGive F.item_gives E.from_gives octets (listed answer))
        (IsErrorOf E.from_gives errors.LifetimeError) content.entry result }
{
    match content {
        CowSlice::Borrowed(octets) => items_by::<T, F, E>(alloc, octets),
        CowSlice::Owned(_) => Err(E::from(Error::LifetimeError)),
    }
}

/// Copies of the items in contents octets, by the reader `F`.
fn copies_by<'a, T, F, E>(alloc: Global, content: &'a [u8]) -> Result<Vec<T::Owned>, E>
where
    T: ToStatic + Drop,
    T::Owned: Drop,
    F: ReadsItems<'a, T, E>,
    E: From<Error>,
    ensures { CopiesGive T.copies F.item_gives E.from_gives content.now (listed result) }
{
    let mut copies = Vec::new(alloc);
    for item in SequenceIterator::<T, F, E>::new(alloc, content) {
        match item {
            Ok(item) => match item.to_static(alloc) {
                Ok(copy) => match copies.push(copy) {
                    Ok(()) => {}
                    Err(_) => return Err(E::from(Error::OutOfMemory)),
                },
                Err(e) => return Err(E::from(e)),
            },
            Err(e) => return Err(e),
        }
    }
    Ok(copies)
}

impl<'a> Sequence<'a> {
    /// All items in the contents octets by BER, in their order. Refused as the first item is that is refused; an item
    /// that lacks octets with `Error::Incomplete`; or when out of memory.
    pub fn ber_sequence_of<T, E>(&'a self, alloc: Global) -> Result<Vec<T>, E>
    where
        T: FromBer<'a, E> + Drop,
        E: From<Error>,
        ensures { ItemsGive T.ber_gives E.from_gives (kept_octets self.now) (listed result) }
    {
        items_by::<T, BerParser, E>(alloc, self.as_bytes())
    }

    /// All items in the contents octets by DER, in their order, with the refusals of [`Sequence::ber_sequence_of`].
    pub fn der_sequence_of<T, E>(&'a self, alloc: Global) -> Result<Vec<T>, E>
    where
        T: FromDer<'a, E> + Drop,
        E: From<Error>,
        ensures { ItemsGive T.der_gives E.from_gives (kept_octets self.now) (listed result) }
    {
        items_by::<T, DerParser, E>(alloc, self.as_bytes())
    }

    /// Copies of all items in the contents octets by BER, in their order, which outlive the sequence. Refused as
    /// [`Sequence::ber_sequence_of`] is.
    pub fn into_ber_sequence_of<'s, T, E>(&'s self, alloc: Global) -> Result<Vec<T::Owned>, E>
    where
        T: FromBer<'s, E> + ToStatic + Drop,
        T::Owned: Drop,
        E: From<Error>,
        ensures { CopiesGive T.copies T.ber_gives E.from_gives (kept_octets self.now)
            (listed result) }
    {
        copies_by::<T, BerParser, E>(alloc, self.as_bytes())
    }

    /// Copies of all items in the contents octets by DER, in their order, which outlive the sequence. Refused as
    /// [`Sequence::ber_sequence_of`] is.
    pub fn into_der_sequence_of<'s, T, E>(&'s self, alloc: Global) -> Result<Vec<T::Owned>, E>
    where
        T: FromDer<'s, E> + ToStatic + Drop,
        T::Owned: Drop,
        E: From<Error>,
        ensures { CopiesGive T.copies T.der_gives E.from_gives (kept_octets self.now)
            (listed result) }
    {
        copies_by::<T, DerParser, E>(alloc, self.as_bytes())
    }

    /// All items in borrowed contents octets by DER, in their order, which may outlive the sequence. Owned contents
    /// octets are refused with `LifetimeError` before anything is read; else refused as
    /// [`Sequence::ber_sequence_of`] is.
    pub fn into_der_sequence_of_ref<T, E>(self, alloc: Global) -> Result<Vec<T>, E>
    where
        T: FromDer<'a, E> + Drop,
        E: From<Error>,
        ensures { OnLent
            (λ octets answer. ItemsGive T.der_gives E.from_gives octets (listed answer))
            (IsErrorOf E.from_gives errors.LifetimeError) self.entry.content result }
    {
        items_lent::<T, DerParser, E>(self.content, alloc)
    }
}

impl<'a> Set<'a> {
    /// All items in the contents octets by BER, in their order. Refused as the first item is that is refused; an item
    /// that lacks octets with `Error::Incomplete`; or when out of memory.
    pub fn ber_set_of<T, E>(&'a self, alloc: Global) -> Result<Vec<T>, E>
    where
        T: FromBer<'a, E> + Drop,
        E: From<Error>,
        ensures { ItemsGive T.ber_gives E.from_gives (kept_octets self.now) (listed result) }
    {
        items_by::<T, BerParser, E>(alloc, self.as_bytes())
    }

    /// All items in the contents octets by DER, in their order, with the refusals of [`Set::ber_set_of`].
    pub fn der_set_of<T, E>(&'a self, alloc: Global) -> Result<Vec<T>, E>
    where
        T: FromDer<'a, E> + Drop,
        E: From<Error>,
        ensures { ItemsGive T.der_gives E.from_gives (kept_octets self.now) (listed result) }
    {
        items_by::<T, DerParser, E>(alloc, self.as_bytes())
    }

    /// Copies of all items in the contents octets by BER, in their order, which outlive the set. Refused as
    /// [`Set::ber_set_of`] is.
    pub fn into_ber_set_of<'s, T, E>(&'s self, alloc: Global) -> Result<Vec<T::Owned>, E>
    where
        T: FromBer<'s, E> + ToStatic + Drop,
        T::Owned: Drop,
        E: From<Error>,
        ensures { CopiesGive T.copies T.ber_gives E.from_gives (kept_octets self.now)
            (listed result) }
    {
        copies_by::<T, BerParser, E>(alloc, self.as_bytes())
    }

    /// Copies of all items in the contents octets by DER, in their order, which outlive the set. Refused as
    /// [`Set::ber_set_of`] is.
    pub fn into_der_set_of<'s, T, E>(&'s self, alloc: Global) -> Result<Vec<T::Owned>, E>
    where
        T: FromDer<'s, E> + ToStatic + Drop,
        T::Owned: Drop,
        E: From<Error>,
        ensures { CopiesGive T.copies T.der_gives E.from_gives (kept_octets self.now)
            (listed result) }
    {
        copies_by::<T, DerParser, E>(alloc, self.as_bytes())
    }

    /// All items in borrowed contents octets by DER, in their order, which may outlive the set. Owned contents
    /// octets are refused with `LifetimeError` before anything is read; else refused as
    /// [`Set::ber_set_of`] is.
    pub fn into_der_set_of_ref<T, E>(self, alloc: Global) -> Result<Vec<T>, E>
    where
        T: FromDer<'a, E> + Drop,
        E: From<Error>,
        ensures { OnLent
            (λ octets answer. ItemsGive T.der_gives E.from_gives octets (listed answer))
            (IsErrorOf E.from_gives errors.LifetimeError) self.entry.content result }
    {
        items_lent::<T, DerParser, E>(self.content, alloc)
    }
}
