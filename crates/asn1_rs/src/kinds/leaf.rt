//! How leaf types come by the traits of readers and laws: from what they say once.
ghost use Rattle.std.specs.Prelude.{◌≡◌, Result};
ghost use Rattle.asn1_headers.specs.declared.error.Error.{Error};
ghost use Rattle.asn1_rs.specs.declared.asn1_types.any.Any.{Any};
ghost use Rattle.asn1_rs.specs.Any.{parts_of};
ghost use Rattle.asn1_rs.specs.LeafReading.{LeafReading, IsExactReading};

use crate::asn1_types::any::Any;
use crate::kinds::reading::{CheckBy, FromAnyBy, LawfulCheckBy};
use crate::kinds::{ElementKind, HasKind, LawfulConversion, LawfulElement, TaggedAs};
use crate::traits::{CheckDerConstraints, DerAutoDerive, FromAny, Tagged};
use asn1_headers::error::Error;
use std::alloc::Global;

/// A type that is read as one element, checked and converted, and says once what it is.
///
/// So it has [`Tagged`], [`CheckDerConstraints`], [`DerAutoDerive`], [`LawfulElement`] and the law of the check.
pub trait LeafType: HasKind<Kind = ElementKind> + Sized {
    /// A type that has its tag number.
    type Number: Tagged;

    /// Its elements, and what the conversion and the check may answer.
    ghost reading: { LeafReading Self };

    /// States of an item in hand that its value is one of the type's.
    fn assert_leaf_valid(&self)
        ensures { reading.element.IsValue (reading.element.value self.now) };

    /// `check_constraints`.
    fn check_leaf(any: &Any<'_>) -> Result<(), Error>
        ensures { reading.check (parts_of any.now) result };

    /// The elements are lawful, and conversion and check exact by them.
    ghost exact: { IsExactReading Self.reading };
}

/// The conversion of an element.
///
/// So it has [`FromAny`] and [`LawfulConversion`].
pub trait ConvertsLeaf<'a>: LeafType {
    /// `try_from_any`.
    fn convert_leaf(alloc: Global, any: Any<'a>) -> Result<Self, Error>
        ensures { Self.reading.gives any.entry result };
}

impl<'a, T: ConvertsLeaf<'a>> FromAnyBy<'a, ElementKind> for T {
    type Refusal = Error;

    ghost gives_by_kind = { T.reading.gives };

    #[inline(always)]
    fn convert_by_kind(alloc: Global, any: Any<'a>) -> Result<T, Error> {
        T::convert_leaf(alloc, any)
    }
}

impl<T: LeafType> CheckBy<ElementKind> for T {
    ghost check_by_kind = { T.reading.check };

    #[inline(always)]
    fn check_this_kind(any: &Any<'_>) -> Result<(), Error> {
        T::check_leaf(any)
    }
}

impl<T: LeafType> DerAutoDerive for T {}

impl<T: LeafType> TaggedAs for T {
    type Number = T::Number;
}

impl<T: LeafType> LawfulElement for T {
    ghost element = { T.reading.element };

    ghost lawful = { T.exact.lawful };

    fn assert_value_valid(&self) {
        self.assert_leaf_valid();
    }
}

impl<'a, T: ConvertsLeaf<'a>> LawfulConversion<'a> for T {
    ghost converts = { T.exact.converts };
}

impl<T: LeafType> LawfulCheckBy<ElementKind> for T {
    ghost checks_by_kind = { T.exact.checked };
}
