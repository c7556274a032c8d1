//! A lawful type of a caller's that holds a lawful value, tag and all, and hands every call on to it.
ghost use Rattle.std.specs.Prelude.{◌≡◌, pos};
ghost use Rattle.asn1_rs.specs.Prelude.{Exactly, IsTruncatedIdentifier, seen};
ghost use Rattle.asn1_rs.specs.Kinds.{InnerGives, InnerReads};
ghost use Rattle.asn1_rs.specs.Laws.Kinds.{inner_takes, held_reads, held_no_memory};
ghost use Rattle.asn1_rs_uses.specs.Numbers.{NoMemory};
ghost use Rattle.asn1_rs_uses.specs.Version.{VersionByDer};

use asn1_rs::author::{HasKind, HolderKind, Holds, LawfulBodyBy};
use asn1_rs::laws::{LawfulBody, LawfulCheck, LawfulDer, LawfulMember};
use asn1_rs::{
    Any, CheckDerConstraints, Error, FromAny, FromDer, ParseResult, Tagged, TaggedExplicit,
    read_der,
};
use std::alloc::Global;

/// A field of a certificate, which holds its value.
#[derive(Debug, PartialEq, Eq, Drop)]
pub struct Field<T>(pub T);

/// The version of a certificate, a number under an explicit tag.
pub type Version = Field<TaggedExplicit<u8, Error, 0>>;

impl<T> HasKind for Field<T> {
    type Kind = HolderKind;
}

impl<T> Holds for Field<T> {
    type Held = T;

    ghost held = { λ x. x.0 };

    fn held(&self) -> &T {
        &self.0
    }
}

impl<'a, T: FromAny<'a>> FromAny<'a> for Field<T> {
    type Error = T::Error;

    ghost any_gives = { InnerGives (λ x. x.0) T.any_gives };

    fn try_from_any(alloc: Global, any: Any<'a>) -> Result<Field<T>, T::Error> {
        match T::try_from_any(alloc, any) {
            Ok(value) => Ok(Field(value)),
            Err(e) => Err(e),
        }
    }
}

impl<'a, T: FromDer<'a, E>, E> FromDer<'a, E> for Field<T> {
    ghost der_gives = { InnerReads (λ x. x.0) T.der_gives };

    fn from_der(alloc: Global, bytes: &'a [u8]) -> ParseResult<'a, Field<T>, E> {
        match T::from_der(alloc, bytes) {
            Ok((rest, value)) => Ok((rest, Field(value))),
            Err(refusal) => Err(refusal),
        }
    }
}

impl<T: CheckDerConstraints> CheckDerConstraints for Field<T> {
    ghost check_gives = { T.check_gives };

    fn check_constraints(any: &Any<'_>) -> Result<(), Error> {
        T::check_constraints(any)
    }
}

impl<'a, T: LawfulBody<'a, E>, E: From<Error>> LawfulBodyBy<'a, HolderKind, E> for Field<T> {
    ghost exact_by_kind = { inner_takes (λ x. x.0) T.grammar T.any_gives E.from_gives T.body_exact };

    ghost no_memory_by_kind = { T.body_no_memory };
}

impl<'a, T: LawfulDer<'a, E>, E: From<Error>> LawfulDer<'a, E> for Field<T> {
    ghost der_exact = { held_reads (λ x. x.0) T.der_gives _ _ _ _ T.der_exact };

    ghost der_no_memory = { λ none. held_no_memory (λ x. x.0) T.der_gives _
        (T.der_no_memory none) };
}

impl<T: LawfulCheck> LawfulCheck for Field<T> {
    ghost checks = { T.checks };
}

impl<T: LawfulMember> LawfulMember for Field<T> {
    ghost same = { λ x y. T.same x.0 y.0 };
}

/// The version at the front of the octets, by DER, and what follows it.
pub fn read_version(alloc: Global, octets: &[u8]) -> ParseResult<'_, Version, Error>
    ensures { Exactly IsTruncatedIdentifier VersionByDer (λ version. pos version.0.inner) NoMemory
        octets.now (seen result) }
{
    read_der::<Version, Error>(alloc, octets)
}

/// The tag numbers of a version and of a reference to one. Each is that of what the version holds.
pub fn numbers_of_versions() -> (u32, u32)
    ensures { result ≡ (0, 0) }
{
    (Version::TAG.0, <&Version as Tagged>::TAG.0)
}
