//! Relative object identifiers, as they are read (X.690 8.20).
ghost use Rattle.std.specs.Prelude.{◌≡◌, true};
ghost use Rattle.asn1_headers.specs.Answers.{seen};
ghost use Rattle.asn1_rs.specs.Any.{parts_of};
ghost use Rattle.asn1_rs.specs.Checks.{has_number};
ghost use Rattle.asn1_headers.specs.declared.error.Error.{Error};
ghost use Rattle.asn1_rs.specs.Leaf.{HasOneRefusalUpTo};
ghost use Rattle.asn1_rs.specs.Oid.{LendsOid, ber_relative_check, der_relative_check, oid_constraints, relative_number};
ghost use Rattle.asn1_rs.specs.Traits.{BerGives, DerGives, OfParts, PassesAll};
ghost use Rattle.asn1_rs.specs.Sequence.Iterator.{IsSame};

use crate::asn1_types::any::Any;
use crate::asn1_types::oid::{Oid, check_primitive_and_counted};
use crate::ber::element_by_ber;
use crate::der::element_by_der;
use asn1_headers::error::{Err, Error, ParseResult};
use asn1_headers::tag::Tag;
use std::borrow::CowSlice;

impl<'a> Oid<'a> {
    /// Reads a relative object identifier by BER.
    ///
    /// Refused as an element is; where it is constructed, with `ConstructUnexpected`; then at another tag number than
    /// 13 with `UnexpectedTag`.
    pub fn from_ber_relative(bytes: &'a [u8]) -> ParseResult<'a, Oid<'a>, Error>
        ensures { BerGives (OfParts (LendsOid true ber_relative_check)) IsSame bytes.now
            (seen result) }
    {
        let (rest, any) = element_by_ber(bytes)?;
        match relative_by_ber(&any) {
            Ok(oid) => Ok((rest, oid)),
            Err(e) => Err(Err::Error(e)),
        }
    }

    /// Reads a relative object identifier by DER.
    ///
    /// Refused as an element is; at another tag number than 13 with `UnexpectedTag`; then where it is constructed, with
    /// `ConstructUnexpected`.
    pub fn from_der_relative(bytes: &'a [u8]) -> ParseResult<'a, Oid<'a>, Error>
        ensures { DerGives PassesAll (OfParts (LendsOid true der_relative_check)) IsSame bytes.now
            (seen result) }
    {
        let (rest, any) = element_by_der(bytes)?;
        match relative_by_der(&any) {
            Ok(oid) => Ok((rest, oid)),
            Err(e) => Err(Err::Error(e)),
        }
    }
}

/// The relative identifier of an element that is primitive, and then of tag number 13.
fn relative_by_ber<'a>(any: &Any<'a>) -> Result<Oid<'a>, Error>
    ensures { LendsOid true ber_relative_check (parts_of any.now) result }
{
    any.header.assert_primitive()?;
    any.as_relative_oid()
}

/// The relative identifier of an element of tag number 13 that meets the constraints.
fn relative_by_der<'a>(any: &Any<'a>) -> Result<Oid<'a>, Error>
    ensures { LendsOid true der_relative_check (parts_of any.now) result }
{
    let oid = any.as_relative_oid()?;
    check_primitive_and_counted(any)?;
    Ok(oid)
}

impl<'a> Any<'a> {
    /// The relative object identifier of the contents octets, which are borrowed, whether the element is primitive or
    /// constructed. Refused at another tag number than 13 with `UnexpectedTag`.
    pub fn relative_oid(self) -> Result<Oid<'a>, Error>
        ensures { LendsOid true (has_number relative_number) (parts_of self.entry) result }
    {
        self.as_relative_oid()
    }

    /// The relative object identifier, of an element that stays.
    #[inline(always)]
    pub fn as_relative_oid(&self) -> Result<Oid<'a>, Error>
        ensures { LendsOid true (has_number relative_number) (parts_of self.now) result }
    {
        self.assert_number(Tag::RelativeOid)?;
        Ok(Oid::new_relative(CowSlice::Borrowed(self.content)))
    }
}

/// An element has one refusal by the check of an object identifier, and by each way to take it as a relative one. It
/// has none where it meets the check, or is taken. The conversion to an object identifier refuses none.
pub fn identifiers_have_one_refusal()
    ensures constraints { HasOneRefusalUpTo (λ (e : Error). e) oid_constraints }
    ensures relative { HasOneRefusalUpTo (λ (e : Error). e)
        (LendsOid true (has_number relative_number)) }
    ensures by_ber { HasOneRefusalUpTo (λ (e : Error). e) (LendsOid true ber_relative_check) }
    ensures by_der { HasOneRefusalUpTo (λ (e : Error). e) (LendsOid true der_relative_check) }
{}
