//! Elements that may be there or not, by their tag number.
ghost use Rattle.std.specs.Prelude.{◌≡◌};
ghost use Rattle.x690.specs.Elements.{IsDerElement};
ghost use Rattle.x690.specs.Faults.{DerElementFault};
ghost use Rattle.x690.specs.Nested.{IsElement, ElementFault};
ghost use Rattle.asn1_headers.specs.Answers.{seen};
ghost use Rattle.asn1_headers.specs.Ber.{max_depth};
ghost use Rattle.asn1_headers.specs.Header.{class_of, tag_of};
ghost use Rattle.asn1_headers.specs.Header.Reading.{der_refusal, ber_refusal};
ghost use Rattle.asn1_rs.specs.Tagged.{TakesOfHeader, ReturnsOfHeader};
ghost use Rattle.asn1_rs.specs.Tagged.Optional.{TakesFound, TakesOption, OptTaggedGives};
ghost use Rattle.asn1_headers.specs.declared.class.Class.TheVariants as classes;

use crate::asn1_types::any::Any;
use crate::ber::element_by_ber;
use crate::der::element_by_der;
use asn1_headers::class::Class;
use asn1_headers::error::{Err, Error, ParseResult};
use asn1_headers::header::Header;
use asn1_headers::tag::Tag;

/// A parser of an element that may be there or not: it is there where the tag number is this one.
///
/// The element must then have the class too. The class does not tell whether it is there.
#[derive(Debug, Clone, Copy)]
pub struct OptTaggedParser {
    /// The class that the element must have.
    pub class: Class,
    /// The tag number that is looked for.
    pub tag: Tag,
}

impl OptTaggedParser {
    /// A parser of this class and tag number.
    pub const fn new(class: Class, tag: Tag) -> Self
        ensures class { result.class ≡ class }
        ensures tag { result.tag ≡ tag }
    {
        OptTaggedParser { class, tag }
    }

    /// A parser of the universal class.
    pub const fn universal(tag: u32) -> Self
        ensures class { result.class ≡ classes.Universal }
        ensures tag { result.tag.0 ≡ tag }
    {
        Self::new(Class::Universal, Tag(tag))
    }

    /// A parser of the context-specific class.
    pub const fn tagged(tag: u32) -> Self
        ensures class { result.class ≡ classes.ContextSpecific }
        ensures tag { result.tag.0 ≡ tag }
    {
        Self::new(Class::ContextSpecific, Tag(tag))
    }

    /// A parser of the application class.
    pub const fn application(tag: u32) -> Self
        ensures class { result.class ≡ classes.Application }
        ensures tag { result.tag.0 ≡ tag }
    {
        Self::new(Class::Application, Tag(tag))
    }

    /// A parser of the private class.
    pub const fn private(tag: u32) -> Self
        ensures class { result.class ≡ classes.Private }
        ensures tag { result.tag.0 ≡ tag }
    {
        Self::new(Class::Private, Tag(tag))
    }

    /// Looks for the element at the front of the octets by BER, and hands its header and its contents octets to the
    /// closure. The rest is the element's; what the closure leaves over is dropped.
    ///
    /// `None`, and nothing is read, where no octets are left, and where the element has another tag number. Refused as
    /// an element is, whatever its tag number; with `UnexpectedClass`; as the closure refuses.
    pub fn parse_ber<'a, T, E, F>(&self, bytes: &'a [u8], f: F) -> ParseResult<'a, Option<T>, E>
    where
        F: FnOnce(Header<'_>, &'a [u8]) -> ParseResult<'a, T, E> + Drop,
        E: From<Error>,
        requires { TakesFound (IsElement max_depth) self.now.class self.now.tag F.FnOnce f
            bytes.now }
        ensures { OptTaggedGives (IsElement max_depth) (ElementFault max_depth) ber_refusal
            self.now.class self.now.tag E.from_gives (ReturnsOfHeader F.FnOnce f) bytes.now
            (seen result) }
    {
        if bytes.is_empty() {
            return Ok((bytes, None));
        }
        match element_by_ber(bytes) {
            Ok((rest, any)) => self.take(bytes, any, rest, f),
            Err(e) => Err(Err::convert(e)),
        }
    }

    /// Looks for the element by DER, and goes on as [`OptTaggedParser::parse_ber`] does.
    pub fn parse_der<'a, T, E, F>(&self, bytes: &'a [u8], f: F) -> ParseResult<'a, Option<T>, E>
    where
        F: FnOnce(Header<'_>, &'a [u8]) -> ParseResult<'a, T, E> + Drop,
        E: From<Error>,
        requires { TakesFound IsDerElement self.now.class self.now.tag F.FnOnce f bytes.now }
        ensures { OptTaggedGives IsDerElement DerElementFault der_refusal self.now.class
            self.now.tag E.from_gives (ReturnsOfHeader F.FnOnce f) bytes.now (seen result) }
    {
        if bytes.is_empty() {
            return Ok((bytes, None));
        }
        match element_by_der(bytes) {
            Ok((rest, any)) => self.take(bytes, any, rest, f),
            Err(e) => Err(Err::convert(e)),
        }
    }

    /// Looks at the tag number of the element that the octets begin with and then at its class, and hands it to the
    /// closure.
    fn take<'a, T, E, F>(
        &self,
        bytes: &'a [u8],
        any: Any<'a>,
        rest: &'a [u8],
        f: F,
    ) -> ParseResult<'a, Option<T>, E>
    where
        F: FnOnce(Header<'_>, &'a [u8]) -> ParseResult<'a, T, E> + Drop,
        E: From<Error>,
        requires { tag_of any.header ≡ self.now.tag → class_of any.header ≡ self.now.class →
            TakesOfHeader F.FnOnce f any.header any.content.now }
        ensures { TakesOption self.now.class self.now.tag E.from_gives
            (ReturnsOfHeader F.FnOnce f) bytes.now any.entry rest.now (seen result) }
    {
        if any.tag() != self.tag {
            return Ok((bytes, None));
        }
        if let Err(e) = any.class().assert_eq(self.class) {
            return Err(Err::Error(E::from(e)));
        }
        match f(any.header, any.content) {
            Ok((_, value)) => Ok((rest, Some(value))),
            Err(e) => Err(e),
        }
    }
}

/// A parser of the context-specific class.
impl From<Tag> for OptTaggedParser {
    ghost from_gives = { λ tag parser.
        parser ≡ record { class = classes.ContextSpecific; tag = tag } };

    fn from(tag: Tag) -> Self {
        OptTaggedParser::new(Class::ContextSpecific, tag)
    }
}

/// A parser of the context-specific class.
impl From<u32> for OptTaggedParser {
    ghost from_gives = { λ number parser.
        parser ≡ record { class = classes.ContextSpecific; tag = record { 0 = number } } };

    fn from(tag: u32) -> Self {
        OptTaggedParser::tagged(tag)
    }
}
