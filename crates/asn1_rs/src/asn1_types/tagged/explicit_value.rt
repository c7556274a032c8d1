//! Values under an explicit tag: an element of its own, constructed, around that of the value (X.690 8.14.2).
ghost use Rattle.std.specs.Prelude.{true};
ghost use Rattle.asn1_headers.specs.declared.error.SerializeError.TheVariants.{InvalidClass};
ghost use Rattle.asn1_headers.specs.Answers.{seen};
ghost use Rattle.asn1_rs.specs.Any.{parts_of, BerElementGives};
ghost use Rattle.asn1_rs.specs.Any.Decoded.{DecodesExplicit};
ghost use Rattle.asn1_rs.specs.Laws.Any.Decoded.{explicit_reads};
ghost use Rattle.asn1_rs.specs.Tagged.Explicit.{ExplicitConverts, ExplicitReads, ExplicitGives, ExplicitCheckGives};
ghost use Rattle.asn1_rs.specs.Tagged.Explicit.{InnerTakes, tag_checks, explicit_grammar};
ghost use Rattle.asn1_rs.specs.Laws.Tagged.{number_fits, same_beside_nothing};
ghost use Rattle.asn1_rs.specs.Laws.Tagged.Explicit.{explicit_lawful, explicit_number, explicit_takes_class};
ghost use Rattle.asn1_rs.specs.Laws.Tagged.Explicit.{explicit_takes, explicit_takes_no_memory, explicit_der_exact};
ghost use Rattle.asn1_rs.specs.Laws.Tagged.Explicit.{explicit_der_no_memory, explicit_checks};
ghost use Rattle.asn1_headers.specs.Ber.{max_depth, EndsWithin};
ghost use Rattle.asn1_headers.specs.Header.Reading.{ber_violation};
ghost use Rattle.asn1_rs.specs.Laws.Readers.{ber_elements, ber_violation_no_memory};
ghost use Rattle.x690.specs.Nested.{IsElement, ElementFault};
ghost use Rattle.x690.specs.Identifiers.{IsTruncatedIdentifier};
ghost use Rattle.asn1_rs.specs.Traits.{OfParts};
ghost use Rattle.asn1_rs.specs.Laws.Writing.{explicit_lawful_writing};
ghost use Rattle.asn1_rs.specs.Tagged.Writing.{explicit_under, tag_writing};
ghost use Rattle.asn1_rs.specs.Grammar.Item.{ber_words};
ghost use Rattle.asn1_rs.specs.Laws.Words.{strict_ber};

use crate::asn1_types::any::Any;
use crate::asn1_types::option::without_raw_tag;
use crate::asn1_types::tagged::whole_contents::{check_whole, whole};
use crate::asn1_types::tagged::{Explicit, HasClass, TagMark, TaggedValue};
use crate::ber::element_by_ber;
use crate::der::element_by_der;
use crate::header::{element_len, put_counted_header};
use crate::kinds::decoding::DecodesBy;
use crate::kinds::reading::{
    CheckBy, FromAnyBy, FromDerBy, LawfulBodyBy, LawfulCheckBy, LawfulDerBy,
};
use crate::laws::assert_valid::AlwaysDer;
use crate::laws::der_form::TellsDer;
use crate::laws::{
    Grammar, LawfulBer, LawfulBody, LawfulCheck, LawfulDer, LawfulItem, LawfulMember, LawfulTagged,
    LawfulWrite, TakesClass,
};
use crate::to_der::ToDer;
use crate::traits::{CheckDerConstraints, FromAny, FromBer, FromDer, converted};
use asn1_headers::buffer::{DerBuffer, prepend_element};
use asn1_headers::error::{Err, Error, ParseResult, SerializeError, SerializeResult};
use asn1_headers::tag::Tag;
use asn1_headers::writer::DerWrite;
use std::alloc::Global;

/// The header is that of the tag, the contents octets are the encoding of the value. A class above 3 is refused with
/// `InvalidClass` before anything is counted or appended; counts look at no class.
impl<T: ToDer, E, const CLASS: u8, const TAG: u32> ToDer
    for TaggedValue<T, E, Explicit, CLASS, TAG> {
    ghost writing = { tag_writing CLASS TAG (λ t. t.inner) (explicit_under T.writing) T.writing };

    fn to_der_len(&self) -> Result<usize, Error> {
        element_len(TAG, self.inner.to_der_len())
    }

    fn der_content_len(&self) -> Result<usize, Error> {
        self.inner.to_der_len()
    }

    fn der_constructed(&self) -> bool {
        true
    }

    fn write_der_header<W: DerWrite>(&self, _alloc: Global, w: &mut W) -> SerializeResult<usize> {
        if CLASS > 3 {
            return Err(SerializeError::InvalidClass { class: CLASS });
        }
        put_counted_header(CLASS, true, TAG, self.inner.to_der_len(), w)
    }

    fn write_der_content<W: DerWrite>(&self, alloc: Global, w: &mut W) -> SerializeResult<usize> {
        if CLASS > 3 {
            return Err(SerializeError::InvalidClass { class: CLASS });
        }
        self.inner.write_der(alloc, w)
    }

    fn prepend_der_content(&self, alloc: Global, buf: &mut DerBuffer) -> SerializeResult<usize> {
        if CLASS > 3 {
            return Err(SerializeError::InvalidClass { class: CLASS });
        }
        self.inner.prepend_der(alloc, buf)
    }

    #[inline(always)]
    fn prepend_der(&self, alloc: Global, buf: &mut DerBuffer) -> SerializeResult<usize> {
        if CLASS > 3 {
            return Err(SerializeError::InvalidClass { class: CLASS });
        }
        let content = self.inner.prepend_der(alloc, buf);
        prepend_element(CLASS, true, TAG, content, buf)
    }
}

/// Refuses an element that has another tag number, is primitive, or has another class, in this order.
fn assert_tagged(class: u8, number: u32, any: &Any<'_>) -> Result<(), Error>
    ensures { tag_checks class number (parts_of any.now) result }
{
    any.assert_number(Tag(number))?;
    any.header.assert_constructed()?;
    any.assert_class_number(class)
}

/// The value that a reader's answer tells, without what follows it.
fn inner_value<'a, T: Drop, E: From<Error>>(answer: ParseResult<'a, T, E>) -> Result<T, E>
    ensures { InnerTakes E.from_gives (seen answer.entry) result }
{
    match answer {
        Ok((_, value)) => Ok(value),
        Err(Err::Incomplete(needed)) => Err(E::from(Error::Incomplete(needed))),
        Err(Err::Error(e)) => Err(e),
        Err(Err::Failure(e)) => Err(e),
    }
}

/// The tag number is looked at, then the constructed bit, then the class. Then the value is read by BER at the front of
/// the contents octets. What follows it there is not looked at.
///
/// Missing octets of the value are told as `Error::Incomplete`, since no octets can follow the contents octets.
impl<'a, T, E, const CLASS: u8, const TAG: u32> FromAnyBy<'a, TagMark<Explicit>>
    for TaggedValue<T, E, Explicit, CLASS, TAG>
where
    T: FromBer<'a, E> + Drop,
    E: From<Error>,
{
    type Refusal = E;

    ghost gives_by_kind = { OfParts
        (ExplicitConverts CLASS TAG (λ t. t.inner) T.ber_gives E.from_gives) };

    fn convert_by_kind(alloc: Global, any: Any<'a>) -> Result<Self, E> {
        if let Err(e) = assert_tagged(CLASS, TAG, &any) {
            return Err(E::from(e));
        }
        match inner_value(T::from_ber(alloc, any.content)) {
            Ok(inner) => Ok(TaggedValue::explicit(inner)),
            Err(e) => Err(e),
        }
    }
}

impl<'a> Any<'a> {
    /// The value under an explicit tag of an element that stays: the tag number is looked at, then the constructed bit,
    /// then the class. Then the value is read by BER.
    pub fn as_tagged_explicit<T, E, const CLASS: u8, const TAG: u32>(
        &self,
        alloc: Global,
    ) -> Result<TaggedValue<T, E, Explicit, CLASS, TAG>, E>
    where
        T: FromBer<'a, E> + Drop,
        E: From<Error>,
        ensures { ExplicitConverts CLASS TAG (λ t. t.inner) T.ber_gives E.from_gives
            (parts_of self.now) result }
    {
        TaggedValue::try_from_any(alloc, without_raw_tag(self))
    }
}

/// The value that the contents octets of an element under the tag are, by DER.
fn inner_by_der<'a, T, E>(alloc: Global, class: u8, number: u32, any: &Any<'a>) -> Result<T, Err<E>>
where
    T: FromDer<'a, E> + Drop,
    E: From<Error>,
    ensures { ExplicitReads class number T.der_gives E.from_gives (parts_of any.now) result }
{
    match assert_tagged(class, number, any) {
        Ok(()) => whole(T::from_der(alloc, any.content)),
        Err(e) => Err(Err::Error(E::from(e))),
    }
}

/// An element by DER; its tag number, its constructed bit, its class; then the value by DER, whose refusal is passed on
/// as it is. The contents octets are the value and nothing else: what is left there is refused with `TrailingOctets`.
impl<'a, T, E, const CLASS: u8, const TAG: u32> FromDerBy<'a, TagMark<Explicit>, E>
    for TaggedValue<T, E, Explicit, CLASS, TAG>
where
    T: FromDer<'a, E> + Drop,
    E: From<Error>,
{
    ghost gives_by_reader = { ExplicitGives CLASS TAG (λ t. t.inner) T.der_gives
        E.from_gives };

    #[inline(always)]
    fn read_by_der(alloc: Global, bytes: &'a [u8]) -> ParseResult<'a, Self, E> {
        let (rest, any) = converted(element_by_der(bytes))?;
        match inner_by_der::<T, E>(alloc, CLASS, TAG, &any) {
            Ok(inner) => Ok((rest, TaggedValue::explicit(inner))),
            Err(e) => Err(e),
        }
    }
}

/// So is an element in hand read, where missing octets of the value are told as `Error::Incomplete`.
impl<'a, T, const CLASS: u8, const TAG: u32> DecodesBy<'a, TagMark<Explicit>>
    for TaggedValue<T, Error, Explicit, CLASS, TAG>
where
    T: FromDer<'a, Error> + Drop,
{
    ghost decode_gives = { DecodesExplicit CLASS TAG (λ t. t.inner) T.der_gives };

    fn decode_element(alloc: Global, any: Any<'a>) -> Result<Self, Error> {
        match inner_by_der::<T, Error>(alloc, CLASS, TAG, &any) {
            Ok(inner) => Ok(TaggedValue::explicit(inner)),
            Err(e) => Err(Error::from(e)),
        }
    }

    ghost decodes = { explicit_reads CLASS TAG (λ t. t.inner) T.der_gives };
}

impl<T: CheckDerConstraints, E, const CLASS: u8, const TAG: u32> CheckBy<TagMark<Explicit>>
    for TaggedValue<T, E, Explicit, CLASS, TAG> {
    ghost check_by_kind = { ExplicitCheckGives BerElementGives T.check_gives };

    /// Refuses an indefinite length with `IndefiniteLengthUnexpected`. Then it refuses contents octets that begin with
    /// no element by BER that keeps the constraints of the value. Then it refuses what is left behind that element,
    /// with `TrailingOctets`.
    fn check_this_kind(any: &Any<'_>) -> Result<(), Error> {
        any.header.length().assert_definite()?;
        check_whole::<T>(element_by_ber(any.content))
    }
}

impl<T: Grammar, E, const CLASS: u8, const TAG: u32> Grammar
    for TaggedValue<T, E, Explicit, CLASS, TAG> {
    ghost grammar = { explicit_grammar CLASS TAG (λ t. t.inner) T.grammar };
}

impl<T: LawfulItem, E, const CLASS: u8, const TAG: u32> LawfulItem
    for TaggedValue<T, E, Explicit, CLASS, TAG> {
    ghost lawful_item = { explicit_lawful CLASS TAG (λ t. t.inner) T.grammar T.lawful_item };

    fn has_value(&self) {
        self.inner.has_value();
    }
}

/// A value under a tag of one of the four classes.
impl<T: AlwaysDer, E, const CLASS: u8, const TAG: u32> AlwaysDer
    for TaggedValue<T, E, Explicit, CLASS, TAG>
where
    Explicit: HasClass<CLASS>,
{
    fn is_der(&self) {
        let _number = self.tag().0;
        self.inner.is_der();
    }
}

/// Where the class is one of the four, and the value is in DER form.
impl<T: TellsDer, E, const CLASS: u8, const TAG: u32> TellsDer
    for TaggedValue<T, E, Explicit, CLASS, TAG> {
    fn is_der_form(&self) -> bool {
        let _number = self.tag().0;
        CLASS <= 3 && self.inner.is_der_form()
    }
}

impl<T: LawfulWrite, E, const CLASS: u8, const TAG: u32> LawfulWrite
    for TaggedValue<T, E, Explicit, CLASS, TAG> {
    ghost lawful_writing = { explicit_lawful_writing CLASS TAG (λ t. t.inner) T.grammar T.writing
        T.lawful_item T.lawful_writing };
}

impl<T: Grammar, E, const CLASS: u8, const TAG: u32> LawfulTagged
    for TaggedValue<T, E, Explicit, CLASS, TAG> {
    ghost tag_number = { explicit_number CLASS TAG T.grammar.Form };

    ghost number_fits = { number_fits TAG };
}

/// It takes its own class alone.
impl<T: LawfulItem, E, const CLASS: u8, const TAG: u32> TakesClass<CLASS>
    for TaggedValue<T, E, Explicit, CLASS, TAG> {
    ghost takes_class = { explicit_takes_class CLASS TAG T.grammar.Form (ber_words T.grammar)
        T.grammar.Check (strict_ber T.grammar T.lawful_item) T.lawful_item.form_check };
}

impl<'a, T: LawfulBer<'a, E> + Drop, E: From<Error>, const CLASS: u8, const TAG: u32> LawfulBodyBy<
    'a,
    TagMark<Explicit>,
    E,
> for TaggedValue<T, E, Explicit, CLASS, TAG> {
    ghost exact_by_kind = { λ any. explicit_takes CLASS TAG (λ t. t.inner) T.ber_gives E.from_gives
        (ber_words T.grammar) T.grammar.value T.grammar.allocates EndsWithin T.ber_exact
        (parts_of any) };

    ghost no_memory_by_kind = { λ none any. explicit_takes_no_memory {W = Self} CLASS TAG
        (λ t. t.inner) T.ber_gives
        E.from_gives (T.ber_no_memory none) (parts_of any) };
}

impl<'a, T: LawfulDer<'a, E> + Drop, E: From<Error>, const CLASS: u8, const TAG: u32> LawfulDerBy<
    'a,
    TagMark<Explicit>,
    E,
> for TaggedValue<T, E, Explicit, CLASS, TAG> {
    ghost exact_by_reader = { λ input answer octets. explicit_der_exact CLASS TAG (λ t. t.inner)
        T.der_gives E.from_gives T.grammar.Der T.grammar.value T.grammar.allocates IsTruncatedIdentifier
        T.der_exact T.lawful_item.der_one input answer };

    ghost no_memory_by_reader = { λ none. explicit_der_no_memory CLASS TAG (λ t. t.inner) T.der_gives
        E.from_gives (T.der_no_memory none) };
}

impl<T: LawfulCheck, E, const CLASS: u8, const TAG: u32> LawfulCheckBy<TagMark<Explicit>>
    for TaggedValue<T, E, Explicit, CLASS, TAG> {
    ghost checks_by_kind = { explicit_checks (IsElement max_depth) (ElementFault max_depth) EndsWithin
        ber_elements ber_violation ber_violation_no_memory T.check_gives T.grammar.Check T.checks };
}

impl<T: LawfulMember, E, const CLASS: u8, const TAG: u32> LawfulMember
    for TaggedValue<T, E, Explicit, CLASS, TAG> {
    ghost same = { λ x y. same_beside_nothing (T.eq x.inner y.inner) (T.same x.inner y.inner) };
}
