//! Elements of any type (X.690 8.1.1).

mod checks;
mod integers;
pub(crate) mod kept;
pub(crate) mod texts;
mod writing;

ghost use Rattle.std.specs.Prelude.{◌≡◌, ℕ, false, length, None, Ok};
ghost use Rattle.std.specs.Fn.{FnOnceReturnsAt, FnOnceTakesAt};
ghost use Rattle.x690.specs.Elements.{IsDerElement};
ghost use Rattle.x690.specs.Faults.{DerElementFault};
ghost use Rattle.x690.specs.Nested.{IsElement, ElementFault};
ghost use Rattle.asn1_headers.specs.Answers.{seen};
ghost use Rattle.asn1_headers.specs.Header.{class_of, is_constructed_of, tag_of, length_of, raw_tag_of, HasParts};
ghost use Rattle.asn1_headers.specs.Header.Reading.{der_refusal, ber_refusal};
ghost use Rattle.asn1_headers.specs.Length.{form_of};
ghost use Rattle.asn1_headers.specs.Tag.{is_container};
ghost use Rattle.asn1_rs.specs.Any.{parts_of, IsTheElement, IsDefiniteOr, HasClassAndTag, TakesTagged, AndThenGives};
ghost use Rattle.asn1_rs.specs.Any.{HandsOn};
ghost use Rattle.asn1_headers.specs.Der.{DerContentGives};
ghost use Rattle.asn1_headers.specs.Ber.{BerContentGives, max_depth};
ghost use Rattle.asn1_rs.specs.Any.Decoded.{IsReadAgain, IsWordInHand};
ghost use Rattle.asn1_rs.specs.Any.Value.{any_element};
ghost use Rattle.asn1_rs.specs.Grammar.Item.{ber_words};
ghost use Rattle.asn1_rs.specs.Traits.{BerGives};
ghost use Rattle.asn1_rs.specs.Laws.AssertValid.{element_each_der};
ghost use Rattle.asn1_rs.specs.Laws.Any.Value.{element_lawful, element_converts, element_checks};
ghost use Rattle.asn1_headers.specs.declared.class.Class.TheVariants as classes;
ghost use Rattle.asn1_headers.specs.declared.length.Length.TheVariants as forms;
ghost use Rattle.asn1_headers.specs.declared.tag.Tag.{Tag};

use crate::ber::element_by_ber;
use crate::der::element_by_der;
use crate::kinds::assert_valid::DerElement;
use crate::kinds::decoding::DecodesBy;
use crate::kinds::reading::{HasReader, LawfulCheckBy};
use crate::kinds::{ElementKind, HasKind, LawfulConversion, LawfulElement};
use crate::laws::assert_valid::assert_octets_valid;
use crate::laws::{LawfulBody, LawfulDer};
use crate::traits::{CheckDerConstraints, DerAutoDerive, DynTagged, FromAny, FromBer, FromDer};
use asn1_headers::class::Class;
use asn1_headers::error::{Err, Error, ParseResult};
use asn1_headers::header::Header;
use asn1_headers::length::Length;
use asn1_headers::tag::Tag;
use std::alloc::Global;

/// An element: its header, and its contents octets, which are borrowed from the input (X.690 8.1.1).
///
/// An element that is made by hand may have a header that does not fit its contents octets.
#[derive(Debug, Clone, Drop, PartialEq, Eq)]
pub struct Any<'a> {
    /// What its identifier octets and its length octets say (8.1.2, 8.1.3).
    pub header: Header<'a>,
    /// Its contents octets (8.1.4), without the 00 00 that ends an indefinite length (8.1.5).
    pub content: &'a [u8],
}

impl<'a> Any<'a> {
    /// An element of this header and these contents octets, as they are.
    pub fn new(header: Header<'a>, content: &'a [u8]) -> Self
        ensures header { result.header ≡ header.entry }
        ensures content { result.content.now ≡ content.now }
    {
        Any { header, content }
    }

    /// A universal element with these contents octets, whose length the header counts; constructed exactly for the
    /// tags of sequence and set.
    pub fn from_tag_and_data(tag: Tag, content: &'a [u8]) -> Self
        ensures header { HasParts result.header classes.Universal (is_container tag) tag
            (forms.Definite (length content.now)) None }
        ensures content { result.content.now ≡ content.now }
    {
        let header = Header::new_simple(tag).with_length(Length::Definite(content.len()));
        Any { header, content }
    }

    /// The class.
    pub fn class(&self) -> Class
        ensures { result ≡ class_of self.now.header }
    {
        self.header.class()
    }

    /// The tag number.
    pub fn tag(&self) -> Tag
        ensures { result ≡ tag_of self.now.header }
    {
        self.header.tag()
    }

    /// The same element under another class. The identifier octets that were read stay.
    pub fn with_class(self, class: Class) -> Self
        ensures header { HasParts result.header class (is_constructed_of self.entry.header)
            (tag_of self.entry.header) (length_of self.entry.header)
            (raw_tag_of self.entry.header) }
        ensures content { result.content.now ≡ self.entry.content.now }
    {
        Any {
            header: self.header.with_class(class),
            content: self.content,
        }
    }

    /// The same element under another tag number. The identifier octets that were read stay.
    pub fn with_tag(self, tag: Tag) -> Self
        ensures header { HasParts result.header (class_of self.entry.header)
            (is_constructed_of self.entry.header) tag (length_of self.entry.header)
            (raw_tag_of self.entry.header) }
        ensures content { result.content.now ≡ self.entry.content.now }
    {
        Any {
            header: self.header.with_tag(tag),
            content: self.content,
        }
    }

    /// The contents octets, as they are borrowed from the input.
    pub fn as_bytes(&self) -> &'a [u8]
        ensures { result.now ≡ self.now.content.now }
    {
        self.content
    }

    /// Reads a value by DER at the front of the contents octets, and answers what follows it there.
    // It reads, and so does `parse_ber`, at each error type that the reader has, a caller's too.
    pub fn parse_der<T: FromDer<'a, E>, E>(&self, alloc: Global) -> ParseResult<'a, T, E>
        ensures { T.der_gives self.now.content.now (seen result) }
    {
        T::from_der(alloc, self.content)
    }

    /// The contents octets of a header at the front of the octets that follow it, by DER, and the rest.
    pub fn parse_der_content<'i>(
        i: &'i [u8],
        header: &Header<'_>,
    ) -> ParseResult<'i, &'i [u8], Error>
        ensures { DerContentGives (form_of (length_of header.now)) i.now result }
    {
        header.parse_der_content(i)
    }

    /// Reads a value by BER at the front of the contents octets, and answers what follows it there.
    pub fn parse_ber<T: FromBer<'a, E>, E>(&self, alloc: Global) -> ParseResult<'a, T, E>
        ensures { T.ber_gives self.now.content.now (seen result) }
    {
        T::from_ber(alloc, self.content)
    }

    /// The contents octets of a header at the front of the octets that follow it, by BER, and the rest, as
    /// [`Header::parse_ber_content`] gives them.
    pub fn parse_ber_content<'i>(
        i: &'i [u8],
        header: &Header<'_>,
    ) -> ParseResult<'i, &'i [u8], Error>
        ensures { BerContentGives (is_constructed_of header.now)
            (form_of (length_of header.now)) 8 i.now result }
    {
        header.parse_ber_content(i)
    }

    /// The value that the element is by DER, its header and its contents octets: as [`FromDer::from_der`] reads the
    /// octets that the element was read from, with its refusals.
    ///
    /// Of an element that was made by hand no more is said than what the type says of reading one.
    pub fn decode_der<T>(self, alloc: Global) -> Result<T, Error>
    where
        T: LawfulDer<'a, Error> + HasReader + DecodesBy<'a, T::Reader>,
        ensures exact { IsWordInHand IsDerElement T.grammar.Der T.grammar.value T.grammar.allocates
            self.entry result }
        ensures gives { IsReadAgain IsDerElement T.der_gives self.entry result }
        ensures by_hand { T.decode_gives self.entry result }
    {
        T::decode_element(alloc, self)
    }

    /// The value that the element is by BER: as [`FromBer::from_ber`] reads the octets that the element was read from,
    /// with its refusals. It is the conversion of the element.
    pub fn decode_ber<T: LawfulBody<'a, Error>>(self, alloc: Global) -> Result<T, Error>
        ensures exact { IsWordInHand (IsElement max_depth) (ber_words T.grammar) T.grammar.value
            T.grammar.allocates self.entry result }
        ensures gives { IsReadAgain (IsElement max_depth) (BerGives T.any_gives (λ e f. f ≡ e))
            self.entry result }
        ensures by_hand { T.any_gives self.entry result }
    {
        T::try_from_any(alloc, self)
    }

    /// Reads an element by DER, looks at its tag number and then at its class, and hands its contents octets to the
    /// closure. The rest is the element's; what the closure leaves over is dropped.
    ///
    /// Refused as an element is; with `UnexpectedTag`; with `UnexpectedClass`; as the closure refuses.
    pub fn from_der_and_then<F, T, E>(
        class: Class,
        tag: u32,
        bytes: &'a [u8],
        op: F,
    ) -> ParseResult<'a, T, E>
    where
        F: FnOnce(&'a [u8]) -> ParseResult<'a, T, E> + Drop,
        E: From<Error>,
        requires { TakesTagged IsDerElement class (record { 0 = tag }) F.FnOnce op bytes.now }
        ensures { AndThenGives IsDerElement DerElementFault der_refusal class
            (record { 0 = tag }) E.from_gives (FnOnceReturnsAt F.FnOnce op) bytes.now
            (seen result) }
    {
        match element_by_der(bytes) {
            Ok((rest, any)) => hand_on(any, rest, class, tag, op),
            Err(e) => Err(Err::convert(e)),
        }
    }

    /// Reads an element by BER, and goes on as [`Any::from_der_and_then`] does.
    pub fn from_ber_and_then<F, T, E>(
        class: Class,
        tag: u32,
        bytes: &'a [u8],
        op: F,
    ) -> ParseResult<'a, T, E>
    where
        F: FnOnce(&'a [u8]) -> ParseResult<'a, T, E> + Drop,
        E: From<Error>,
        requires { TakesTagged (IsElement max_depth) class (record { 0 = tag }) F.FnOnce op
            bytes.now }
        ensures { AndThenGives (IsElement max_depth) (ElementFault max_depth) ber_refusal class
            (record { 0 = tag }) E.from_gives (FnOnceReturnsAt F.FnOnce op) bytes.now
            (seen result) }
    {
        match element_by_ber(bytes) {
            Ok((rest, any)) => hand_on(any, rest, class, tag, op),
            Err(e) => Err(Err::convert(e)),
        }
    }
}

/// Looks at the tag number of an element and then at its class, and hands its contents octets to the closure.
fn hand_on<'a, F, T, E>(
    any: Any<'a>,
    rest: &'a [u8],
    class: Class,
    tag: u32,
    op: F,
) -> ParseResult<'a, T, E>
where
    F: FnOnce(&'a [u8]) -> ParseResult<'a, T, E> + Drop,
    E: From<Error>,
    requires { HasClassAndTag class (record { 0 = tag }) (parts_of any) →
        FnOnceTakesAt F.FnOnce op any.content.now }
    ensures { HandsOn class (record { 0 = tag }) E.from_gives (FnOnceReturnsAt F.FnOnce op)
        (parts_of any.entry) rest.now (seen result) }
{
    if let Err(e) = any.tag().assert_eq(Tag(tag)) {
        return Err(Err::Error(E::from(e)));
    }
    if let Err(e) = any.class().assert_eq(class) {
        return Err(Err::Error(E::from(e)));
    }
    match op(any.content) {
        Ok((_, value)) => Ok((rest, value)),
        Err(e) => Err(e),
    }
}

impl DynTagged for Any<'_> {
    ghost dyn_tag = { λ any. tag_of any.header };

    fn tag(&self) -> Tag {
        self.header.tag()
    }
}

// By this conversion `Any` has both readers by the blanket impls, and the laws of every type that is read as one
// element. A reader of its own would conflict with these impls. A blanket reader can't call itself, so both stand on
// `element_by_der` and `element_by_ber`.
impl<'a> FromAny<'a> for Any<'a> {
    type Error = Error;

    ghost any_gives = { IsTheElement };

    /// The element itself, with the identifier octets that it keeps.
    #[inline(always)]
    fn try_from_any(_alloc: Global, any: Any<'a>) -> Result<Any<'a>, Error>
        ensures gives { IsTheElement any.entry result }
        ensures same { result ≡ Ok any.entry }
    {
        Ok(any)
    }
}

impl CheckDerConstraints for Any<'_> {
    ghost check_gives = { IsDefiniteOr };

    /// Refuses an indefinite length with `IndefiniteLengthUnexpected`.
    // It can't fail on what was read by DER.
    fn check_constraints(any: &Any<'_>) -> Result<(), Error>
        ensures { IsDefiniteOr (parts_of any.now) result }
    {
        any.header.length().assert_definite()
    }
}

impl DerAutoDerive for Any<'_> {}

impl HasKind for Any<'_> {
    type Kind = ElementKind;
}

impl LawfulElement for Any<'_> {
    ghost element = { any_element };

    ghost lawful = { element_lawful };

    fn assert_value_valid(&self) {
        let _number = self.header.tag().0;
        assert_octets_valid(self.content);
    }
}

impl LawfulCheckBy<ElementKind> for Any<'_> {
    ghost checks_by_kind = { element_checks };
}

impl<'a> LawfulConversion<'a> for Any<'a> {
    ghost converts = { element_converts };
}

/// Each element is in DER form: its contents octets stand as they are.
impl DerElement for Any<'_> {
    ghost each_der = { element_each_der };
}
