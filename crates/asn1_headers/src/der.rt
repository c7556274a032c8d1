//! Reading elements and their contents octets by DER (X.690 8.1, 10.1).
ghost use Rattle.x690.specs.Elements.{IsDerElement};
ghost use Rattle.x690.specs.Faults.{DerElementFault};
ghost use Rattle.asn1_headers.specs.Answers.{seen};
ghost use Rattle.asn1_headers.specs.Header.{length_of};
ghost use Rattle.asn1_headers.specs.Header.Reading.{der_refusal};
ghost use Rattle.asn1_headers.specs.Length.{form_of};
ghost use Rattle.asn1_headers.specs.Elements.{HeaderAndContentsGive};
ghost use Rattle.asn1_headers.specs.Der.{DerContentGives};

use crate::content::{DerParser, GetObjectContent, split_content};
use crate::error::{Error, ParseResult};
use crate::header::Header;
use crate::header::reading::{header_by_der, indefinite_length};
use crate::length::Length;

/// The contents octets at the front, of a length of this form, by DER.
#[inline(always)]
fn content_by_der(bytes: &[u8], form: Length) -> ParseResult<'_, &[u8], Error>
    ensures { DerContentGives (form_of form) bytes.now result }
{
    match form {
        Length::Definite(len) => split_content(bytes, len),
        Length::Indefinite => Err(indefinite_length()),
    }
}

/// The header of the element at the front, its contents octets, and the rest, by DER. Out of memory is never answered.
#[inline(always)]
pub fn element_by_der(bytes: &[u8]) -> ParseResult<'_, (Header<'_>, &[u8]), Error>
    ensures { HeaderAndContentsGive IsDerElement DerElementFault der_refusal bytes.now (seen result) }
{
    let (rest, header) = header_by_der(bytes)?;
    let (rest, content) = content_by_der(rest, header.length())?;
    Ok((rest, (header, content)))
}

impl GetObjectContent for DerParser {
    ghost content_gives = { λ _ form _ input answer. DerContentGives form input answer };

    fn get_object_content<'a>(
        i: &'a [u8],
        hdr: &Header<'_>,
        _max_depth: usize,
    ) -> ParseResult<'a, &'a [u8], Error> {
        content_by_der(i, hdr.length())
    }
}

impl Header<'_> {
    /// The contents octets at the front of the octets that follow this header, by DER, and the rest.
    ///
    /// Refused with `DerConstraintFailed(IndefiniteLength)` at an indefinite length, else with `Incomplete(n)` where n
    /// octets are missing.
    pub fn parse_der_content<'i>(&self, i: &'i [u8]) -> ParseResult<'i, &'i [u8], Error>
        ensures { DerContentGives (form_of (length_of self.now)) i.now result }
    {
        DerParser::get_object_content(i, self, 0)
    }
}
