//! The fields of a sequence, which are read one after another, by either rule (X.690 8.9).
ghost use Rattle.std.specs.Prelude.{◌≡◌, ◌≢◌, [], MatchResult};
ghost use Rattle.x690.specs.Elements.{IsDerElement};
ghost use Rattle.x690.specs.Faults.{DerElementFault};
ghost use Rattle.x690.specs.Nested.{IsElement, ElementFault};
ghost use Rattle.asn1_headers.specs.Answers.{seen};
ghost use Rattle.asn1_headers.specs.Ber.{max_depth};
ghost use Rattle.asn1_headers.specs.Header.Reading.{ber_refusal, der_refusal};
ghost use Rattle.asn1_headers.specs.declared.error.DerConstraint.TheVariants as constraints;
ghost use Rattle.asn1_headers.specs.declared.error.Err.TheVariants.{Error as refused};
ghost use Rattle.asn1_headers.specs.declared.error.Error.TheVariants as errors;
ghost use Rattle.asn1_headers.specs.declared.error.Error.{Error};
ghost use Rattle.asn1_rs.specs.Any.{parts_of};
ghost use Rattle.asn1_rs.specs.FieldReader.{FieldsGive, IsSequence, IsNoSequence};
ghost use Rattle.asn1_rs.specs.FieldReader.{TakesField, TakesFields, HandsOut, fields_left};

use crate::asn1_types::any::Any;
use crate::ber::element_by_ber;
use crate::der::element_by_der;
use crate::traits::{FromBer, FromDer};
use asn1_headers::class::Class;
use asn1_headers::error::{DerConstraint, Err, Error, ParseResult};
use asn1_headers::tag::Tag;
use std::alloc::Global;

/// The fields of a sequence that are still to be read. Each call names the rule by which it reads.
#[derive(Debug, Drop)]
pub struct FieldReader<'a> {
    alloc: Global,
    left: &'a [u8],
}

/// Refuses an element that is no sequence.
fn assert_sequence(element: &Any<'_>) -> Result<(), Error>
    ensures { MatchResult result (λ _. IsSequence (parts_of element.now))
        (IsNoSequence (parts_of element.now)) }
{
    element.header.assert_class(Class::Universal)?;
    element.header.assert_constructed()?;
    element.header.assert_tag(Tag::Sequence)
}

/// The fields of an element that is a sequence, and what follows it; else the refusal.
fn fields_of<'a>(
    alloc: Global,
    element: Any<'a>,
    rest: &'a [u8],
) -> ParseResult<'a, FieldReader<'a>, Error>
    ensures { MatchResult (seen result)
        (λ x. IsSequence (parts_of element.entry) × (x.0 ≡ rest.now)
        × (fields_left x.1 ≡ (parts_of element.entry).content))
        (λ r. (e : Error) × IsNoSequence (parts_of element.entry) e × (r ≡ refused e)) }
{
    match assert_sequence(&element) {
        Ok(()) => Ok((rest, FieldReader::of_contents(alloc, element.content))),
        Err(e) => Err(Err::Error(e)),
    }
}

impl<'a> FieldReader<'a> {
    /// Those of these contents octets: what stands below an implicit tag (X.690 8.14.3), or in an `Any`.
    pub fn of_contents(alloc: Global, octets: &'a [u8]) -> FieldReader<'a>
        ensures { fields_left result ≡ octets.now }
    {
        FieldReader {
            alloc,
            left: octets,
        }
    }

    /// Those of the sequence at the front of the octets, by DER, and what follows it.
    ///
    /// Refused as the element is, as `Incomplete` only where that is cut; then with `UnexpectedClass`,
    /// `ConstructExpected`, `UnexpectedTag`.
    pub fn of_sequence(alloc: Global, octets: &'a [u8]) -> ParseResult<'a, FieldReader<'a>, Error>
        ensures { FieldsGive IsDerElement DerElementFault der_refusal octets.now (seen result) }
    {
        let (rest, element) = element_by_der(octets)?;
        fields_of(alloc, element, rest)
    }

    /// The same by BER, so its length may be indefinite (X.690 8.1.3.6).
    pub fn of_sequence_by_ber(
        alloc: Global,
        octets: &'a [u8],
    ) -> ParseResult<'a, FieldReader<'a>, Error>
        ensures { FieldsGive (IsElement max_depth) (ElementFault max_depth) ber_refusal octets.now
            (seen result) }
    {
        let (rest, element) = element_by_ber(octets)?;
        fields_of(alloc, element, rest)
    }

    /// What is answered, with the fields behind it left. After a refusal nothing is taken.
    fn take<T>(&mut self, answer: ParseResult<'a, T, Error>) -> Result<T, Error>
        ensures { HandsOut (seen answer.entry) (fields_left self.old) (fields_left self.new)
            result }
    {
        let (left, field) = answer?;
        self.left = left;
        Ok(field)
    }

    /// The next field, by DER. One that is cut is refused as error `Incomplete`, since no octets follow it.
    ///
    /// After a refusal it is still the next one, and may be read as another type.
    pub fn next<T: FromDer<'a, Error>>(&mut self) -> Result<T, Error>
        ensures { TakesField T.der_gives (fields_left self.old) (fields_left self.new) result }
    {
        let answer = T::from_der(self.alloc, self.left);
        self.take(answer)
    }

    /// The next field, by BER; refused as `next` is, and then still the next one.
    pub fn next_by_ber<T: FromBer<'a, Error>>(&mut self) -> Result<T, Error>
        ensures { TakesField T.ber_gives (fields_left self.old) (fields_left self.new) result }
    {
        let answer = T::from_ber(self.alloc, self.left);
        self.take(answer)
    }

    /// The fields of the next one, a sequence, by DER; refused as `next` is.
    pub fn next_sequence(&mut self) -> Result<FieldReader<'a>, Error>
        ensures { TakesFields IsDerElement DerElementFault der_refusal (fields_left self.old)
            (fields_left self.new) result }
    {
        let answer = FieldReader::of_sequence(self.alloc, self.left);
        self.take(answer)
    }

    /// The fields of the next one, a sequence, by BER; refused as `next` is.
    pub fn next_sequence_by_ber(&mut self) -> Result<FieldReader<'a>, Error>
        ensures { TakesFields (IsElement max_depth) (ElementFault max_depth) ber_refusal
            (fields_left self.old) (fields_left self.new) result }
    {
        let answer = FieldReader::of_sequence_by_ber(self.alloc, self.left);
        self.take(answer)
    }

    /// Refuses a field that is left over, with `DerConstraintFailed(TrailingOctets)`.
    pub fn end(self) -> Result<(), Error>
        ensures { MatchResult result (λ _. fields_left self.entry ≡ [])
            (λ e. (fields_left self.entry ≢ [])
            × (e ≡ errors.DerConstraintFailed constraints.TrailingOctets)) }
    {
        match self.left {
            [] => Ok(()),
            _ => Err(Error::DerConstraintFailed(DerConstraint::TrailingOctets)),
        }
    }
}
