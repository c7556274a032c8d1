//! How subtypes are read: as their type, and then the property is tested.
ghost use Rattle.asn1_rs_profiles.specs.Refined.{IsOutside, RefinedReads, RefinedConverts};

use crate::refined::{Property, Refined, RefinedKind};
use asn1_rs::author::{CheckBy, FromAnyBy, FromDerBy, HasKind, HasReader};
use asn1_rs::{Any, CheckDerConstraints, Err, Error, FromAny, FromDer, ParseResult, Tagged};
use std::alloc::Global;

/// The reader by DER of subtypes.
#[derive(Debug)]
pub struct RefinedReader;

impl<T, P: Property<T>> HasKind for Refined<T, P> {
    type Kind = RefinedKind;
}

impl<T, P: Property<T>> HasReader for Refined<T, P> {
    type Reader = RefinedReader;
}

/// The element is converted to the type, and its value tested.
impl<'a, T, P, E> FromAnyBy<'a, RefinedKind> for Refined<T, P>
where
    T: FromAny<'a, Error = E> + Tagged + Drop,
    P: Property<T>,
    E: From<Error>,
{
    type Refusal = E;

    ghost gives_by_kind = { RefinedConverts (λ x. x.value) P.keeps (IsOutside T.TAG) E.from_gives
        T.any_gives };

    fn convert_by_kind(alloc: Global, any: Any<'a>) -> Result<Refined<T, P>, E> {
        match T::try_from_any(alloc, any) {
            Ok(value) => match Refined::new(value) {
                Ok(refined) => Ok(refined),
                Err(e) => Err(E::from(e)),
            },
            Err(e) => Err(e),
        }
    }
}

/// The constraints are those of the type. The property is no constraint of DER, and is tested by both rules.
impl<T: CheckDerConstraints, P: Property<T>> CheckBy<RefinedKind> for Refined<T, P> {
    ghost check_by_kind = { T.check_gives };

    fn check_this_kind(any: &Any<'_>) -> Result<(), Error> {
        T::check_constraints(any)
    }
}

/// The type is read at the front of the octets, and its value tested.
impl<'a, T, P, E> FromDerBy<'a, RefinedReader, E> for Refined<T, P>
where
    T: FromDer<'a, E> + Tagged + Drop,
    P: Property<T>,
    E: From<Error>,
{
    ghost gives_by_reader = { RefinedReads (λ x. x.value) P.keeps (IsOutside T.TAG) E.from_gives
        T.der_gives };

    fn read_by_der(alloc: Global, bytes: &'a [u8]) -> ParseResult<'a, Refined<T, P>, E> {
        match T::from_der(alloc, bytes) {
            Ok((rest, value)) => match Refined::new(value) {
                Ok(refined) => Ok((rest, refined)),
                Err(e) => Err(Err::Error(E::from(e))),
            },
            Err(e) => Err(e),
        }
    }
}
