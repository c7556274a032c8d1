//! Attributes of names.
ghost use Rattle.std.specs.Prelude.{◌≡◌};
ghost use Rattle.std.proofs.Common.{lit<};
ghost use Rattle.asn1_rs.specs.Any.{parts_of as element_parts};
ghost use Rattle.asn1_rs.specs.Lists.{IsListOr};
ghost use Rattle.x509_name.specs.Attribute.{AttributeGives, PartsGive, attribute_element, attribute_writing};
ghost use Rattle.x509_name.specs.Laws.Attribute.{attribute_lawful};
ghost use Rattle.x509_name.specs.Laws.Reading.{attribute_exact, attribute_no_memory};
ghost use Rattle.x509_name.specs.Laws.Writing.{attribute_lawful_writing, attribute_number};

use crate::header::{add_counts, element_len, prepend_header, put_header, sum_of_written};
use asn1_rs::author::{ElementKind, HasKind, LawfulElement, TagNumber, TaggedAs, refusal_of_count};
use asn1_rs::laws::{LawfulDer, LawfulItem, LawfulTagged, LawfulWrite};
use asn1_rs::{
    Any, DerBuffer, DerConstraint, DerWrite, Err, Error, FromDer, Oid, ParseResult,
    SerializeResult, Tag, ToDer,
};
use std::alloc::Global;

/// An attribute: an identifier, and a value of any type.
#[derive(Debug, Drop)]
pub struct AttributeTypeAndValue<'a> {
    /// What the attribute is.
    pub oid: Oid<'a>,
    /// Its value, an element.
    pub value: Any<'a>,
}

impl HasKind for AttributeTypeAndValue<'_> {
    type Kind = ElementKind;
}

impl TaggedAs for AttributeTypeAndValue<'_> {
    type Number = TagNumber<16>;
}

impl LawfulElement for AttributeTypeAndValue<'_> {
    ghost element = { attribute_element };

    ghost lawful = { attribute_lawful };

    fn assert_value_valid(&self) {
        self.oid.has_value();
        self.value.has_value();
    }
}

/// The attribute that the contents octets of a sequence are.
fn parts_of<'a>(alloc: Global, content: &'a [u8]) -> Result<AttributeTypeAndValue<'a>, Err<Error>>
    ensures { PartsGive content.now result }
{
    let (content, oid) = Oid::from_der(alloc, content)?;
    let (content, value) = Any::from_der(alloc, content)?;
    if !content.is_empty() {
        return Err(Err::Error(Error::DerConstraintFailed(DerConstraint::TrailingOctets)));
    }
    Ok(AttributeTypeAndValue { oid, value })
}

impl<'a> FromDer<'a, Error> for AttributeTypeAndValue<'a> {
    ghost der_gives = { AttributeGives };

    /// Reads an attribute at the front, by DER.
    ///
    /// The first of these refusals is answered. The element is refused. The element has another tag number than that of
    /// sequences. The element is primitive. The identifier at the front of the contents octets is refused, also with
    /// `Incomplete`. The value behind the identifier is refused, also with `Incomplete`. Octets stand behind both, with
    /// `DerConstraintFailed(TrailingOctets)`. No tag number of the identifier is looked at.
    fn from_der(
        alloc: Global,
        bytes: &'a [u8],
    ) -> ParseResult<'a, AttributeTypeAndValue<'a>, Error> {
        let (rest, any) = Any::from_der(alloc, bytes)?;
        if let Err(e) = assert_sequence(&any) {
            return Err(Err::Error(e));
        }
        match parts_of(alloc, any.content) {
            Ok(attribute) => Ok((rest, attribute)),
            Err(refusal) => Err(refusal),
        }
    }
}

/// Refuses an element with another tag number than that of sequences, and then a primitive one.
fn assert_sequence(any: &Any<'_>) -> Result<(), Error>
    ensures { IsListOr 16 (element_parts any.now) result }
{
    any.header.assert_tag(Tag::Sequence)?;
    any.header.assert_constructed()
}

impl<'a> LawfulDer<'a, Error> for AttributeTypeAndValue<'a> {
    ghost der_exact = { λ input answer octets. attribute_exact input answer };

    ghost der_no_memory = { λ none input answer. attribute_no_memory input answer };
}

/// Its identifier and its value are written, behind the header of a sequence. An identifier is written as it stands.
impl ToDer for AttributeTypeAndValue<'_> {
    ghost writing = { attribute_writing };

    fn to_der_len(&self) -> Result<usize, Error> {
        element_len(Tag::Sequence, self.der_content_len()?)
    }

    fn der_content_len(&self) -> Result<usize, Error> {
        let oid = self.oid.to_der_len()?;
        let value = self.value.to_der_len()?;
        add_counts(oid, value)
    }

    fn der_constructed(&self) -> bool {
        true
    }

    fn write_der_header<W: DerWrite>(&self, alloc: Global, w: &mut W) -> SerializeResult<usize> {
        match self.der_content_len() {
            Ok(count) => put_header(Tag::Sequence, count, alloc, w),
            Err(e) => Err(refusal_of_count(e)),
        }
    }

    fn write_der_content<W: DerWrite>(&self, alloc: Global, w: &mut W) -> SerializeResult<usize> {
        let oid = self.oid.write_der(alloc, w)?;
        let value = self.value.write_der(alloc, w)?;
        sum_of_written(oid, value)
    }

    fn prepend_der_content(&self, alloc: Global, buf: &mut DerBuffer) -> SerializeResult<usize> {
        let value = self.value.prepend_der(alloc, buf)?;
        let oid = self.oid.prepend_der(alloc, buf)?;
        sum_of_written(oid, value)
    }

    fn prepend_der(&self, alloc: Global, buf: &mut DerBuffer) -> SerializeResult<usize> {
        let after = self.prepend_der_content(alloc, buf)?;
        prepend_header(Tag::Sequence, after, alloc, buf)
    }
}

impl LawfulWrite for AttributeTypeAndValue<'_> {
    ghost lawful_writing = { attribute_lawful_writing };
}

impl LawfulTagged for AttributeTypeAndValue<'_> {
    ghost tag_number = { attribute_number };

    ghost number_fits = { lit< tt };
}
