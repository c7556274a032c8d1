//! Sequences and sets that are kept as their contents octets (X.690 8.9 to 8.12).

pub mod conversions;
pub mod items;
pub mod joined;
pub mod kinds;

ghost use Rattle.std.specs.Prelude.{◌≡◌};
ghost use Rattle.std.specs.Fn.{FnOnceReturnsAt, FnOnceTakesAt};
ghost use Rattle.asn1_headers.specs.declared.error.Error.TheVariants as errors;
ghost use Rattle.asn1_rs.specs.Any.{parts_of};
ghost use Rattle.asn1_rs.specs.Checks.{nothing};
ghost use Rattle.asn1_rs.specs.Kept.{kept_leaf, kept_octets, TakesLent, OnLent, IsRefused};
ghost use Rattle.asn1_rs.specs.Laws.Kept.{kept_lawful, kept_equal};
ghost use Rattle.asn1_rs.specs.Laws.Leaf.{lent_exact, leaf_written};
ghost use Rattle.asn1_rs.specs.LeafReading.{lent_reading};
ghost use Rattle.asn1_rs.specs.Sequence.Iterator.{octets_left};

use crate::asn1_types::any::Any;
use crate::asn1_types::sequence::iterator::SequenceIterator;
use crate::kinds::assert_valid::DerElement;
use crate::kinds::leaf::{ConvertsLeaf, LeafType};
use crate::kinds::writing::WritesOctets;
use crate::kinds::{ElementKind, HasKind};
use crate::laws::LawfulMember;
use crate::laws::assert_valid::assert_octets_valid;
use asn1_headers::content::{BerParser, DerParser};
use asn1_headers::error::{Err, Error, ParseResult};
use kinds::{KeptKind, Sequence};
use std::alloc::Global;
use std::borrow::CowSlice;
use std::fmt;
use std::marker::PhantomData;

/// A sequence or a set that is kept as its contents octets, borrowed or owned (X.690 8.9 to 8.12).
///
/// What the contents octets are is not looked at: they are written as they stand, and each value is in DER form. They
/// are read in turn by [`Kept::parse`], or as items of one type by [`Kept::ber_iter`] and its like. Two are equal where
/// their contents octets are, if the mark has an equality.
#[derive(Drop)]
#[derive_where(Clone)]
#[derive_where(PartialEq, Eq; K)]
pub struct Kept<'a, K> {
    /// The contents octets (8.1.4), without the 00 00 that ends an indefinite length (8.1.5).
    pub content: CowSlice<'a, u8, Global>,
    #[derive_where(skip)]
    kind: PhantomData<K>,
}

impl<'a, K> Kept<'a, K> {
    /// The list of these contents octets, as they are held.
    pub const fn new(content: CowSlice<'a, u8, Global>) -> Self
        ensures { result.content ≡ content.entry }
    {
        Kept {
            content,
            kind: PhantomData,
        }
    }

    /// The contents octets, as they are held.
    pub fn into_content(self) -> CowSlice<'a, u8, Global>
        ensures { result ≡ self.entry.content }
    {
        self.content
    }

    /// The contents octets.
    pub fn as_bytes(&self) -> &[u8]
        ensures { result.now ≡ kept_octets self.now }
    {
        self.content.as_slice()
    }

    /// Hands the contents octets, as they are held, to the closure, and passes its answer on.
    pub fn and_then<U, F, E>(self, op: F) -> ParseResult<'a, U, E>
    where
        F: FnOnce(CowSlice<'a, u8, Global>) -> ParseResult<'a, U, E> + Drop,
        requires { F.pre op self.content }
        ensures { F.post op self.entry.content result }
    {
        op(self.content)
    }

    /// Hands the contents octets to the closure, and passes its answer on: what it read, and what it left over of them.
    pub fn parse<F, T, E>(&'a self, f: F) -> ParseResult<'a, T, E>
    where
        F: FnOnce(&'a [u8]) -> ParseResult<'a, T, E> + Drop,
        requires { FnOnceTakesAt F.FnOnce f (kept_octets self.now) }
        ensures { FnOnceReturnsAt F.FnOnce f (kept_octets self.now) result }
    {
        f(self.as_bytes())
    }

    /// Hands borrowed contents octets to the closure, so that what it reads may outlive the list, and passes its
    /// answer on.
    ///
    /// Owned ones are refused with `LifetimeError` before anything is read.
    pub fn parse_into<F, T, E>(self, f: F) -> ParseResult<'a, T, E>
    where
        F: FnOnce(&'a [u8]) -> ParseResult<'a, T, E> + Drop,
        E: From<Error>,
        requires { TakesLent F.FnOnce f self.content }
        ensures { OnLent (FnOnceReturnsAt F.FnOnce f) (IsRefused E.from_gives errors.LifetimeError)
            self.entry.content result }
    {
        match self.content {
            CowSlice::Borrowed(octets) => f(octets),
            CowSlice::Owned(_) => Err(Err::Error(E::from(Error::LifetimeError))),
        }
    }

    /// A walk by BER over items in the contents octets.
    pub fn ber_iter<T, E>(&'a self, alloc: Global) -> SequenceIterator<'a, T, BerParser, E>
        ensures { octets_left result ≡ kept_octets self.now }
    {
        SequenceIterator::new(alloc, self.as_bytes())
    }

    /// A walk by DER over items in the contents octets.
    pub fn der_iter<T, E>(&'a self, alloc: Global) -> SequenceIterator<'a, T, DerParser, E>
        ensures { octets_left result ≡ kept_octets self.now }
    {
        SequenceIterator::new(alloc, self.as_bytes())
    }
}

/// The contents octets, under the name of the type.
impl<K: KeptKind> fmt::Debug for Kept<'_, K> {
    fn fmt<W: fmt::Write>(&self, f: &mut fmt::Formatter<W>) -> fmt::Result {
        f.debug_struct(K::NAME)
            .field("content", &self.content)
            .finish()
    }
}

impl<K: KeptKind> HasKind for Kept<'_, K> {
    type Kind = ElementKind;
}

impl<K: KeptKind> LeafType for Kept<'_, K> {
    type Number = K::Number;

    // So `parse_into` and its like, at what was read, can't answer `LifetimeError`.
    ghost reading = { lent_reading (kept_leaf (K.Number.TAG).0) (λ x. x.content) };

    ghost exact = { lent_exact (kept_leaf (K.Number.TAG).0)
        (kept_lawful (K.Number.TAG).0 K.small K.constructed) (λ x. x.content) };

    fn assert_leaf_valid(&self) {
        assert_octets_valid(self.as_bytes());
    }

    /// Refuses nothing.
    fn check_leaf(any: &Any<'_>) -> Result<(), Error>
        ensures { nothing (parts_of any.now) result }
    {
        Ok(())
    }
}

impl<'a, K: KeptKind> ConvertsLeaf<'a> for Kept<'a, K> {
    #[inline(always)]
    fn convert_leaf(_alloc: Global, any: Any<'a>) -> Result<Kept<'a, K>, Error> {
        any.as_kept()
    }
}

impl<K: KeptKind> DerElement for Kept<'_, K> {
    ghost each_der = { λ v d. d };
}

impl<K: KeptKind> WritesOctets for Kept<'_, K> {
    ghost held = { kept_octets };

    fn contents_octets(&self) -> &[u8] {
        self.as_bytes()
    }

    ghost held_are = { leaf_written (kept_leaf (K.Number.TAG).0)
        (kept_lawful (K.Number.TAG).0 K.small K.constructed) };
}

impl LawfulMember for Sequence<'_> {
    ghost same = { kept_equal };
}
