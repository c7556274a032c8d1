//! Reading elements by DER (X.690 8.1, 10.1).
ghost use Rattle.x690.specs.Elements.{IsDerElement};
ghost use Rattle.x690.specs.Faults.{DerElementFault};
ghost use Rattle.asn1_headers.specs.Answers.{seen};
ghost use Rattle.asn1_headers.specs.Header.Reading.{der_refusal};
ghost use Rattle.asn1_rs.specs.Any.{AnyGives};

use crate::asn1_types::any::Any;
use asn1_headers::der;
use asn1_headers::error::{Error, ParseResult};

/// The element at the front, by DER. Out of memory is never answered.
#[inline(always)]
pub(crate) fn element_by_der(bytes: &[u8]) -> ParseResult<'_, Any<'_>, Error>
    ensures { AnyGives IsDerElement DerElementFault der_refusal bytes.now (seen result) }
{
    match der::element_by_der(bytes) {
        Ok((rest, (header, content))) => Ok((rest, Any::new(header, content))),
        Err(refusal) => Err(refusal),
    }
}
