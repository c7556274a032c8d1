//! Values with the header that they were read under: any tag, which the reader answers (X.690 8.14).

ghost use Rattle.std.specs.Prelude.{◌≡◌, ◌≢◌, true, Some, None, MatchResult};
ghost use Rattle.std.specs.Fn.{FnOnceReturnsAt};
ghost use Rattle.x690.specs.Elements.{IsDerElement};
ghost use Rattle.x690.specs.Faults.{DerElementFault};
ghost use Rattle.x690.specs.Nested.{IsElement, ElementFault};
ghost use Rattle.asn1_headers.specs.Answers.{seen};
ghost use Rattle.asn1_rs.specs.Any.{TakesTagged, AndThenGives};
ghost use Rattle.asn1_headers.specs.Ber.{max_depth};
ghost use Rattle.asn1_headers.specs.Header.{class_of, is_constructed_of, tag_of, length_of, raw_tag_of, HasParts};
ghost use Rattle.asn1_headers.specs.Header.Reading.{der_refusal, ber_refusal, KeepsIdentifier};
ghost use Rattle.asn1_rs.specs.Tagged.{ThenByDer, ThenByBer};
ghost use Rattle.asn1_rs.specs.Tagged.Parser.{IsUnder, TakesExplicit, TakesWholeContent, TakesImplicit};
ghost use Rattle.asn1_rs.specs.Tagged.Parser.{ChecksAndConverts};
ghost use Rattle.asn1_rs.specs.Tagged.Parser.{HasTag, Asks, Expects};
ghost use Rattle.asn1_headers.specs.declared.error.Error.TheVariants as errors;
ghost use Rattle.asn1_headers.specs.declared.length.Length.TheVariants as forms;

use crate::asn1_types::any::Any;
use crate::asn1_types::tagged::whole_contents::whole;
use crate::asn1_types::tagged::{Explicit, Implicit};
use crate::ber::element_by_ber;
use crate::der::element_by_der;
use crate::traits::{CheckDerConstraints, DynTagged, FromAny, FromBer, FromDer, Tagged, converted};
use asn1_headers::class::Class;
use asn1_headers::error::{Err, Error, ParseResult};
use asn1_headers::header::Header;
use asn1_headers::length::Length;
use asn1_headers::tag::Tag;
use std::alloc::Global;
use std::borrow::CowSlice;
use std::marker::PhantomData;

/// A value, and the header of the element that it was read from.
///
/// The kind is [`Explicit`], where the element holds that of the value, or [`Implicit`], where its tag stands in place
/// of the value's. Two are equal where their headers are, and the values.
#[derive(Drop)]
#[derive_where(Debug, PartialEq, Eq; T)]
pub struct TaggedParser<'a, Kind, T, E> {
    /// The header.
    pub header: Header<'a>,
    /// The value.
    pub inner: T,
    of_types: PhantomData<(Kind, E)>,
}

impl<'a, Kind, T, E> TaggedParser<'a, Kind, T, E> {
    /// The value with this header, as it is.
    pub const fn new(header: Header<'a>, inner: T) -> Self
        ensures header { result.header ≡ header.entry }
        ensures inner { result.inner ≡ inner }
    {
        TaggedParser {
            header,
            inner,
            of_types: PhantomData,
        }
    }

    /// Refuses another class with `UnexpectedClass`.
    pub fn assert_class(&self, class: Class) -> Result<(), Error>
        ensures { MatchResult result (λ _. class_of self.now.header ≡ class)
            (λ e. (class_of self.now.header ≢ class)
            × (e ≡ errors.UnexpectedClass (Some class) (class_of self.now.header))) }
    {
        self.header.assert_class(class)
    }

    /// Refuses another tag number with `UnexpectedTag`.
    pub fn assert_tag(&self, tag: Tag) -> Result<(), Error>
        ensures { MatchResult result (λ _. tag_of self.now.header ≡ tag)
            (λ e. (tag_of self.now.header ≢ tag)
            × (e ≡ errors.UnexpectedTag (Some tag) (tag_of self.now.header))) }
    {
        self.header.assert_tag(tag)
    }

    /// Refuses another class with `UnexpectedClass`, and then another tag number with `UnexpectedTag`.
    fn assert_class_and_tag(&self, class: Class, tag: Tag) -> Result<(), Error>
        ensures { HasTag class tag self.now.header result }
    {
        self.assert_class(class)?;
        self.assert_tag(tag)
    }

    /// The class.
    pub fn class(&self) -> Class
        ensures { result ≡ class_of self.now.header }
    {
        self.header.class()
    }

    /// The tag number.
    pub fn tag(&self) -> Tag
        ensures { result ≡ tag_of self.now.header }
    {
        self.header.tag()
    }

    /// The value.
    pub fn as_inner(&self) -> &T
        ensures { result.now ≡ self.now.inner }
    {
        &self.inner
    }
}

impl<'a, T, E> TaggedParser<'a, Explicit, T, E> {
    /// The value under an explicit tag: a constructed header of length 0, without identifier octets.
    pub fn new_explicit(class: Class, tag: u32, inner: T) -> Self
        ensures header { HasParts result.header class true (record { 0 = tag })
            (forms.Definite 0) None }
        ensures inner { result.inner ≡ inner }
    {
        let header = Header::new(class, true, Tag(tag), Length::Definite(0));
        TaggedParser::new(header, inner)
    }
}

impl<'a, T, E> TaggedParser<'a, Implicit, T, E> {
    /// The value under an implicit tag: a header of length 0 with this constructed bit, without identifier octets.
    pub fn new_implicit(class: Class, constructed: bool, tag: u32, inner: T) -> Self
        ensures header { HasParts result.header class constructed (record { 0 = tag })
            (forms.Definite 0) None }
        ensures inner { result.inner ≡ inner }
    {
        let header = Header::new(class, constructed, Tag(tag), Length::Definite(0));
        TaggedParser::new(header, inner)
    }
}

/// Every value can be put under an explicit tag.
pub trait AsTaggedExplicit<'a, E>: Sized {
    /// The value under an explicit tag: as [`TaggedParser::new_explicit`].
    fn explicit(self, class: Class, tag: u32) -> TaggedParser<'a, Explicit, Self, E>
        ensures header { HasParts result.header class true (record { 0 = tag })
            (forms.Definite 0) None }
        ensures inner { result.inner ≡ self };
}

impl<'a, T: 'a, E> AsTaggedExplicit<'a, E> for T {
    fn explicit(self, class: Class, tag: u32) -> TaggedParser<'a, Explicit, T, E> {
        TaggedParser::new_explicit(class, tag, self)
    }
}

/// Every value can be put under an implicit tag.
pub trait AsTaggedImplicit<'a, E>: Sized {
    /// The value under an implicit tag: as [`TaggedParser::new_implicit`].
    fn implicit(
        self,
        class: Class,
        constructed: bool,
        tag: u32,
    ) -> TaggedParser<'a, Implicit, Self, E>
        ensures header { HasParts result.header class constructed (record { 0 = tag })
            (forms.Definite 0) None }
        ensures inner { result.inner ≡ self };
}

impl<'a, T: 'a, E> AsTaggedImplicit<'a, E> for T {
    fn implicit(
        self,
        class: Class,
        constructed: bool,
        tag: u32,
    ) -> TaggedParser<'a, Implicit, T, E> {
        TaggedParser::new_implicit(class, constructed, tag, self)
    }
}

/// The tag number is that of the header.
impl<Kind, T, E> DynTagged for TaggedParser<'_, Kind, T, E> {
    ghost dyn_tag = { λ t. tag_of t.header };

    fn tag(&self) -> Tag {
        self.header.tag()
    }
}

/// Reads an element by BER, and the value at the front of its contents octets, whatever the element's tag, class and
/// constructed bit. What follows the value there is dropped.
impl<'a, T, E> FromBer<'a, E> for TaggedParser<'a, Explicit, T, E>
where
    T: FromBer<'a, E>,
    E: From<Error>,
{
    ghost ber_gives = { ThenByBer E.from_gives (TakesExplicit T.ber_gives) };

    fn from_ber(alloc: Global, bytes: &'a [u8]) -> ParseResult<'a, Self, E> {
        let (rest, any) = converted(element_by_ber(bytes))?;
        match T::from_ber(alloc, any.content) {
            Ok((_, inner)) => Ok((rest, TaggedParser::new(any.header, inner))),
            Err(e) => Err(e),
        }
    }
}

/// Reads an element by DER, and the value that its contents octets are by DER, whatever the element's tag, class and
/// constructed bit. What is left behind the value there is refused with `TrailingOctets`.
impl<'a, T, E> FromDer<'a, E> for TaggedParser<'a, Explicit, T, E>
where
    T: FromDer<'a, E> + Drop,
    E: From<Error>,
{
    ghost der_gives = { ThenByDer E.from_gives
        (TakesWholeContent T.der_gives E.from_gives) };

    fn from_der(alloc: Global, bytes: &'a [u8]) -> ParseResult<'a, Self, E> {
        let (rest, any) = converted(element_by_der(bytes))?;
        match whole(T::from_der(alloc, any.content)) {
            Ok(inner) => Ok((rest, TaggedParser::new(any.header, inner))),
            Err(e) => Err(e),
        }
    }
}

/// The same header, whose identifier octets are borrowed from these octets: those that it was read from.
fn header_again<'a>(bytes: &'a [u8], header: &Header<'_>) -> Header<'a>
    requires { KeepsIdentifier bytes.now header.now }
    ensures { HasParts result (class_of header.now) (is_constructed_of header.now)
        (tag_of header.now) (length_of header.now) (raw_tag_of header.now) }
{
    let again = Header::new(
        header.class(),
        header.constructed(),
        header.tag(),
        header.length(),
    );
    match header.raw_tag() {
        Some(octets) => again.with_raw_tag(Some(CowSlice::Borrowed(&bytes[..octets.len()]))),
        None => again,
    }
}

/// The same element under another tag number.
fn under<'a>(bytes: &'a [u8], any: &Any<'a>, tag: Tag) -> Any<'a>
    requires { KeepsIdentifier bytes.now any.now.header }
    ensures { IsUnder tag any.now result }
{
    Any::new(header_again(bytes, &any.header), any.content).with_tag(tag)
}

/// Checks the constraints of an element, and converts it.
fn check_and_convert<'a, T, E>(alloc: Global, any: Any<'a>) -> Result<T, E>
where
    T: FromAny<'a, Error = E> + CheckDerConstraints,
    E: From<Error>,
    ensures { ChecksAndConverts T.check_gives T.any_gives E.from_gives any.entry result }
{
    if let Err(e) = T::check_constraints(&any) {
        return Err(E::from(e));
    }
    T::try_from_any(alloc, any)
}

/// Reads an element by BER, and converts it under the tag number of the value's type, whatever its own. The header that
/// is kept is the element's own.
///
/// The class is left as it is. A conversion that asks for a constructed bit asks for it in the element that is read.
impl<'a, T, E> FromBer<'a, E> for TaggedParser<'a, Implicit, T, E>
where
    T: FromAny<'a, Error = E> + Tagged,
    E: From<Error>,
{
    ghost ber_gives = { ThenByBer E.from_gives (TakesImplicit T.TAG T.any_gives) };

    fn from_ber(alloc: Global, bytes: &'a [u8]) -> ParseResult<'a, Self, E> {
        let (rest, any) = converted(element_by_ber(bytes))?;
        let other = under(bytes, &any, T::TAG);
        match T::try_from_any(alloc, other) {
            Ok(inner) => Ok((rest, TaggedParser::new(any.header, inner))),
            Err(e) => Err(Err::Error(e)),
        }
    }
}

/// Reads an element by DER; checks the constraints of the value's type under its tag number, and then converts it so.
impl<'a, T, E> FromDer<'a, E> for TaggedParser<'a, Implicit, T, E>
where
    T: FromAny<'a, Error = E> + CheckDerConstraints + Tagged,
    E: From<Error>,
{
    ghost der_gives = { ThenByDer E.from_gives
        (TakesImplicit T.TAG (ChecksAndConverts T.check_gives T.any_gives E.from_gives)) };

    fn from_der(alloc: Global, bytes: &'a [u8]) -> ParseResult<'a, Self, E> {
        let (rest, any) = converted(element_by_der(bytes))?;
        let other = under(bytes, &any, T::TAG);
        match check_and_convert(alloc, other) {
            Ok(inner) => Ok((rest, TaggedParser::new(any.header, inner))),
            Err(e) => Err(Err::Error(e)),
        }
    }
}

/// What was read, where it has this class and this tag number.
fn with_tag<'a, Kind, T: Drop, E: From<Error>>(
    rest: &'a [u8],
    parser: TaggedParser<'a, Kind, T, E>,
    class: Class,
    tag: Tag,
) -> ParseResult<'a, TaggedParser<'a, Kind, T, E>, E>
    ensures { Asks (HasTag class tag) E.from_gives rest.now parser.entry (seen result) }
{
    match parser.assert_class_and_tag(class, tag) {
        Ok(()) => Ok((rest, parser)),
        Err(e) => Err(Err::Error(E::from(e))),
    }
}

impl<'a, T: Drop, E: From<Error>> TaggedParser<'a, Explicit, T, E> {
    /// Reads a value by BER, and then looks at its class and at its tag number.
    ///
    /// Refused as the reading is; with `UnexpectedClass`; with `UnexpectedTag`.
    pub fn parse_ber(
        alloc: Global,
        class: Class,
        tag: Tag,
        bytes: &'a [u8],
    ) -> ParseResult<'a, Self, E>
    where
        T: FromBer<'a, E>,
        ensures { Expects (ThenByBer E.from_gives
            (TakesExplicit T.ber_gives)) (HasTag class tag) E.from_gives bytes.now (seen result) }
    {
        match Self::from_ber(alloc, bytes) {
            Ok((rest, parser)) => with_tag(rest, parser, class, tag),
            Err(e) => Err(e),
        }
    }

    /// Reads a value by DER, and goes on as `parse_ber` does.
    pub fn parse_der(
        alloc: Global,
        class: Class,
        tag: Tag,
        bytes: &'a [u8],
    ) -> ParseResult<'a, Self, E>
    where
        T: FromDer<'a, E>,
        ensures { Expects (ThenByDer E.from_gives
            (TakesWholeContent T.der_gives E.from_gives))
            (HasTag class tag) E.from_gives bytes.now (seen result) }
    {
        match Self::from_der(alloc, bytes) {
            Ok((rest, parser)) => with_tag(rest, parser, class, tag),
            Err(e) => Err(e),
        }
    }
}

impl<'a, T: Drop, E: From<Error>> TaggedParser<'a, Implicit, T, E> {
    /// Reads a value by BER, and then looks at its class and at its tag number.
    ///
    /// Refused as the reading is; with `UnexpectedClass`; with `UnexpectedTag`.
    pub fn parse_ber(
        alloc: Global,
        class: Class,
        tag: Tag,
        bytes: &'a [u8],
    ) -> ParseResult<'a, Self, E>
    where
        T: FromAny<'a, Error = E> + Tagged,
        ensures { Expects (ThenByBer E.from_gives
            (TakesImplicit T.TAG T.any_gives)) (HasTag class tag) E.from_gives bytes.now
            (seen result) }
    {
        match Self::from_ber(alloc, bytes) {
            Ok((rest, parser)) => with_tag(rest, parser, class, tag),
            Err(e) => Err(e),
        }
    }

    /// Reads a value by DER, and goes on as `parse_ber` does.
    pub fn parse_der(
        alloc: Global,
        class: Class,
        tag: Tag,
        bytes: &'a [u8],
    ) -> ParseResult<'a, Self, E>
    where
        T: FromAny<'a, Error = E> + CheckDerConstraints + Tagged,
        ensures { Expects (ThenByDer E.from_gives
            (TakesImplicit T.TAG (ChecksAndConverts T.check_gives T.any_gives E.from_gives)))
            (HasTag class tag) E.from_gives bytes.now (seen result) }
    {
        match Self::from_der(alloc, bytes) {
            Ok((rest, parser)) => with_tag(rest, parser, class, tag),
            Err(e) => Err(e),
        }
    }
}

impl<'a, T, E: From<Error>> TaggedParser<'a, Explicit, T, E> {
    /// Reads an element by BER, and goes on as [`Any::from_ber_and_then`] does: the tag number is looked at before the
    /// class.
    pub fn from_ber_and_then<F>(
        class: Class,
        tag: u32,
        bytes: &'a [u8],
        op: F,
    ) -> ParseResult<'a, T, E>
    where
        F: FnOnce(&'a [u8]) -> ParseResult<'a, T, E> + Drop,
        requires { TakesTagged (IsElement max_depth) class (record { 0 = tag }) F.FnOnce op
            bytes.now }
        ensures { AndThenGives (IsElement max_depth) (ElementFault max_depth) ber_refusal class
            (record { 0 = tag }) E.from_gives (FnOnceReturnsAt F.FnOnce op) bytes.now
            (seen result) }
    {
        Any::from_ber_and_then(class, tag, bytes, op)
    }

    /// Reads an element by DER, and goes on as [`TaggedParser::from_ber_and_then`] does.
    pub fn from_der_and_then<F>(
        class: Class,
        tag: u32,
        bytes: &'a [u8],
        op: F,
    ) -> ParseResult<'a, T, E>
    where
        F: FnOnce(&'a [u8]) -> ParseResult<'a, T, E> + Drop,
        requires { TakesTagged IsDerElement class (record { 0 = tag }) F.FnOnce op bytes.now }
        ensures { AndThenGives IsDerElement DerElementFault der_refusal class
            (record { 0 = tag }) E.from_gives (FnOnceReturnsAt F.FnOnce op) bytes.now
            (seen result) }
    {
        Any::from_der_and_then(class, tag, bytes, op)
    }
}
