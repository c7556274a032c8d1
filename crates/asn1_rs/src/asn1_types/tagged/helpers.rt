//! Elements of a tag number that is given, whose contents octets are handed to a closure.
ghost use Rattle.x690.specs.Elements.{IsDerElement};
ghost use Rattle.asn1_headers.specs.Answers.{seen};
ghost use Rattle.asn1_rs.specs.Tagged.{ThenByDer, HoldsOfNumber};
ghost use Rattle.asn1_rs.specs.Tagged.Helpers.{TakesNumber, TakesOfContent, ReturnsOfContent, TakesUnder, ReturnsUnder};
ghost use Rattle.asn1_headers.specs.declared.tag.Tag.{Tag};

use crate::der::element_by_der;
use crate::traits::Tagged;
use asn1_headers::error::{Err, Error, ParseResult};
use asn1_headers::header::Header;
use asn1_headers::tag::Tag;

/// Reads an element by DER, looks at its tag number, and hands its contents octets and its header to the closure. The
/// rest is the element's; what the closure leaves over is dropped. The class is not looked at.
///
/// Refused as an element is; with `UnexpectedTag`; as the closure refuses.
pub fn parse_der_tagged_explicit_g<'a, IntoTag, T, F, E>(
    tag: IntoTag,
    bytes: &'a [u8],
    f: F,
) -> ParseResult<'a, T, E>
where
    IntoTag: Into<Tag>,
    F: FnOnce(&'a [u8], Header<'a>) -> ParseResult<'a, T, E> + Drop,
    E: From<Error>,
    requires { (number : Tag) → IntoTag.converts tag number →
        HoldsOfNumber IsDerElement number (TakesOfContent F.FnOnce f) bytes.now }
    ensures { (number : Tag) × IntoTag.converts tag number
        × ThenByDer E.from_gives
        (TakesNumber number E.from_gives (ReturnsOfContent F.FnOnce f)) bytes.now (seen result) }
{
    let tag = tag.into();
    let (rest, any) = match element_by_der(bytes) {
        Ok(read) => read,
        Err(e) => return Err(Err::convert(e)),
    };
    if let Err(e) = any.header.assert_tag(tag) {
        return Err(Err::Error(E::from(e)));
    }
    match f(any.content, any.header) {
        Ok((_, value)) => Ok((rest, value)),
        Err(e) => Err(e),
    }
}

/// Reads an element by DER and looks at its tag number, as [`parse_der_tagged_explicit_g`] does. The closure gets the
/// contents octets, the number that was given, and the header under the tag number of the result's type.
pub fn parse_der_tagged_implicit_g<'a, IntoTag, T, F, E>(
    tag: IntoTag,
    bytes: &'a [u8],
    f: F,
) -> ParseResult<'a, T, E>
where
    IntoTag: Into<Tag>,
    T: Tagged,
    F: FnOnce(&'a [u8], Tag, Header<'a>) -> ParseResult<'a, T, E> + Drop,
    E: From<Error>,
    requires { (number : Tag) → IntoTag.converts tag number →
        HoldsOfNumber IsDerElement number (TakesUnder F.FnOnce f number T.TAG) bytes.now }
    ensures { (number : Tag) × IntoTag.converts tag number
        × ThenByDer E.from_gives
        (TakesNumber number E.from_gives (ReturnsUnder F.FnOnce f number T.TAG)) bytes.now
        (seen result) }
{
    let tag = tag.into();
    let (rest, any) = match element_by_der(bytes) {
        Ok(read) => read,
        Err(e) => return Err(Err::convert(e)),
    };
    if let Err(e) = any.header.assert_tag(tag) {
        return Err(Err::Error(E::from(e)));
    }
    match f(any.content, tag, any.header.with_tag(T::TAG)) {
        Ok((_, value)) => Ok((rest, value)),
        Err(e) => Err(e),
    }
}
