//! A lawful type of a caller's under an implicit tag over an explicit one, which claims its laws itself.
ghost use Rattle.std.specs.Prelude.{pos};
ghost use Rattle.asn1_rs.specs.Prelude.{Exactly, IsTruncatedIdentifier, seen};
ghost use Rattle.asn1_rs_uses.specs.Handles.{HandleByDer, HandleConverts, HandleCheckGives, handle_element};
ghost use Rattle.asn1_rs_uses.specs.Handles.{handle_lawful};
ghost use Rattle.asn1_rs_uses.specs.Handles.{handle_checked, handle_converts};
ghost use Rattle.asn1_rs_uses.specs.Numbers.{NoMemory};

use asn1_rs::author::{ElementKind, HasKind, LawfulCheckBy, LawfulConversion, LawfulElement};
use asn1_rs::{
    Any, CheckDerConstraints, DerAutoDerive, Error, FromAny, ParseResult, TaggedExplicit,
    TaggedImplicit, read_der,
};
use std::alloc::Global;

/// Where a handle stands: a number under the explicit tag 1.
pub type Place = TaggedExplicit<u8, Error, 1>;

/// A handle: its place, under the implicit tag 0, which is of the same class.
///
/// By DER the constraints of the number are looked at. Under an implicit tag alone they are not.
#[derive(Debug, PartialEq, Eq, Drop)]
pub struct Handle(pub TaggedImplicit<Place, Error, 0>);

impl<'a> FromAny<'a> for Handle {
    type Error = Error;

    ghost any_gives = { HandleConverts (λ x. x.0) (λ w. w.inner) (λ p. p.inner) };

    fn try_from_any(alloc: Global, any: Any<'a>) -> Result<Handle, Error> {
        match TaggedImplicit::try_from_any(alloc, any) {
            Ok(place) => Ok(Handle(place)),
            Err(e) => Err(e),
        }
    }
}

impl CheckDerConstraints for Handle {
    ghost check_gives = { HandleCheckGives };

    fn check_constraints(any: &Any<'_>) -> Result<(), Error> {
        TaggedImplicit::<Place, Error, 0>::check_constraints(any)
    }
}

impl DerAutoDerive for Handle {}

impl HasKind for Handle {
    type Kind = ElementKind;
}

impl LawfulElement for Handle {
    ghost element = { handle_element (λ x. x.0.inner.inner) };

    ghost lawful = { handle_lawful (λ x. x.0.inner.inner) };

    fn assert_value_valid(&self) {
        self.0.as_inner().as_inner().assert_value_valid();
    }
}

impl LawfulCheckBy<ElementKind> for Handle {
    ghost checks_by_kind = { handle_checked };
}

impl<'a> LawfulConversion<'a> for Handle {
    ghost converts = { handle_converts (λ x. x.0) (λ w. w.inner) (λ p. p.inner) };
}

/// The handle at the front of the octets, by DER, and what follows it.
pub fn read_handle(alloc: Global, octets: &[u8]) -> ParseResult<'_, Handle, Error>
    ensures { Exactly IsTruncatedIdentifier HandleByDer (λ handle. pos handle.0.inner.inner) NoMemory
        octets.now (seen result) }
{
    read_der::<Handle, Error>(alloc, octets)
}
