//! Values under an implicit tag: the value's element, with this class and tag number in place of its
//! own (X.690 8.14.3).
ghost use Rattle.std.specs.Prelude.{◌≡◌};
ghost use Rattle.x690.specs.Elements.{IsDerElement};
ghost use Rattle.x690.specs.Faults.{DerElementFault};
ghost use Rattle.asn1_headers.specs.declared.error.SerializeError.TheVariants.{InvalidClass};
ghost use Rattle.asn1_rs.specs.declared.asn1_types.any.Any.{Any};
ghost use Rattle.asn1_rs.specs.Any.{parts_of};
ghost use Rattle.asn1_headers.specs.Header.Reading.{der_refusal, der_violation};
ghost use Rattle.asn1_rs.specs.Laws.Any.Decoded.{converted_reads};
ghost use Rattle.asn1_rs.specs.Laws.Readers.{unchecked_exact, element_no_memory, der_violation_no_memory, all_pass};
ghost use Rattle.asn1_rs.specs.Laws.Tagged.{number_fits, same_beside_nothing};
ghost use Rattle.asn1_rs.specs.Laws.Tagged.Implicit.{implicit_lawful, implicit_number, implicit_takes_class};
ghost use Rattle.asn1_rs.specs.Laws.Tagged.Implicit.{implicit_takes, implicit_takes_no_memory, implicit_checked};
ghost use Rattle.asn1_rs.specs.Optional.{IsWithoutRawTag};
ghost use Rattle.asn1_rs.specs.Tagged.Implicit.{ImplicitBody, ImplicitConverts, ImplicitCheckGives, ChecksUnder};
ghost use Rattle.asn1_rs.specs.Tagged.Implicit.{implicit_checks, implicit_grammar};
ghost use Rattle.asn1_rs.specs.Traits.{DerGives, PassesAll};
ghost use Rattle.asn1_rs.specs.Laws.Writing.{implicit_lawful_writing};
ghost use Rattle.asn1_rs.specs.Tagged.Writing.{implicit_under, tag_writing};

use crate::asn1_types::any::Any;
use crate::asn1_types::option::without_raw_tag;
use crate::asn1_types::tagged::{HasClass, Implicit, TagMark, TaggedValue};
use crate::der::element_by_der;
use crate::header::{element_len, put_counted_header};
use crate::kinds::decoding::DecodesBy;
use crate::kinds::reading::{
    CheckBy, FromAnyBy, FromDerBy, LawfulBodyBy, LawfulCheckBy, LawfulDerBy,
};
use crate::laws::assert_valid::AlwaysDer;
use crate::laws::der_form::TellsDer;
use crate::laws::{
    Grammar, LawfulBody, LawfulCheck, LawfulDer, LawfulItem, LawfulMember, LawfulTagged,
    LawfulWrite, TakesClass,
};
use crate::to_der::ToDer;
use crate::traits::{CheckDerConstraints, FromAny, FromDer, Tagged, converted};
use asn1_headers::buffer::{DerBuffer, prepend_element};
use asn1_headers::error::{Err, Error, ParseResult, SerializeError, SerializeResult};
use asn1_headers::header::Header;
use asn1_headers::tag::Tag;
use asn1_headers::writer::DerWrite;
use std::alloc::Global;

/// The header is that of the tag, with the constructed bit of the value; the contents octets are the value's. A class
/// above 3 is refused with `InvalidClass` before anything is counted or appended; counts look at no class.
impl<T: ToDer, E, const CLASS: u8, const TAG: u32> ToDer
    for TaggedValue<T, E, Implicit, CLASS, TAG> {
    ghost writing = { tag_writing CLASS TAG (λ t. t.inner) (implicit_under T.writing) T.writing };

    fn to_der_len(&self) -> Result<usize, Error> {
        element_len(TAG, self.inner.der_content_len())
    }

    fn der_content_len(&self) -> Result<usize, Error> {
        self.inner.der_content_len()
    }

    fn der_constructed(&self) -> bool {
        self.inner.der_constructed()
    }

    fn write_der_header<W: DerWrite>(&self, _alloc: Global, w: &mut W) -> SerializeResult<usize> {
        if CLASS > 3 {
            return Err(SerializeError::InvalidClass { class: CLASS });
        }
        let constructed = self.inner.der_constructed();
        put_counted_header(CLASS, constructed, TAG, self.inner.der_content_len(), w)
    }

    fn write_der_content<W: DerWrite>(&self, alloc: Global, w: &mut W) -> SerializeResult<usize> {
        if CLASS > 3 {
            return Err(SerializeError::InvalidClass { class: CLASS });
        }
        self.inner.write_der_content(alloc, w)
    }

    fn prepend_der_content(&self, alloc: Global, buf: &mut DerBuffer) -> SerializeResult<usize> {
        if CLASS > 3 {
            return Err(SerializeError::InvalidClass { class: CLASS });
        }
        self.inner.prepend_der_content(alloc, buf)
    }

    #[inline(always)]
    fn prepend_der(&self, alloc: Global, buf: &mut DerBuffer) -> SerializeResult<usize> {
        if CLASS > 3 {
            return Err(SerializeError::InvalidClass { class: CLASS });
        }
        let constructed = self.inner.der_constructed();
        let content = self.inner.prepend_der_content(alloc, buf);
        prepend_element(CLASS, constructed, TAG, content, buf)
    }
}

/// Refuses an element that has another tag number, or another class, in this order.
fn assert_in_place(class: u8, number: u32, any: &Any<'_>) -> Result<(), Error>
    ensures { implicit_checks class number (parts_of any.now) result }
{
    any.assert_number(Tag(number))?;
    any.assert_class_number(class)
}

/// The tag number is looked at, then the class. Then the element is converted under the tag number of the value's type,
/// and under the class that it has. So a value that is under a tag of another class is refused.
impl<'a, T, E, const CLASS: u8, const TAG: u32> FromAnyBy<'a, TagMark<Implicit>>
    for TaggedValue<T, E, Implicit, CLASS, TAG>
where
    T: FromAny<'a, Error = E> + Tagged,
    E: From<Error>,
{
    type Refusal = E;

    ghost gives_by_kind = { ImplicitConverts CLASS TAG (λ t. t.inner) T.TAG T.any_gives
        E.from_gives };

    fn convert_by_kind(alloc: Global, any: Any<'a>) -> Result<Self, E> {
        if let Err(e) = assert_in_place(CLASS, TAG, &any) {
            return Err(E::from(e));
        }
        match T::try_from_any(alloc, any.with_tag(T::TAG)) {
            Ok(inner) => Ok(TaggedValue::implicit(inner)),
            Err(e) => Err(e),
        }
    }
}

impl<'a> Any<'a> {
    /// The value under an implicit tag of an element that stays: the tag number is looked at, then the class. Then the
    /// element is converted under the tag number of the value's type.
    ///
    /// What is converted has the parts of the element and its contents octets, without the identifier octets that its
    /// header keeps.
    pub fn as_tagged_implicit<T, E, const CLASS: u8, const TAG: u32>(
        &self,
        alloc: Global,
    ) -> Result<TaggedValue<T, E, Implicit, CLASS, TAG>, E>
    where
        T: FromAny<'a, Error = E> + Tagged,
        E: From<Error>,
        ensures { (bare : Any) × IsWithoutRawTag self.now bare ×
            ImplicitConverts CLASS TAG (λ t. t.inner) T.TAG T.any_gives E.from_gives bare result }
    {
        TaggedValue::try_from_any(alloc, without_raw_tag(self))
    }
}

/// An element by DER, and then its conversion: no constraints of the value are checked, and items are read by BER.
impl<'a, T, E, const CLASS: u8, const TAG: u32> FromDerBy<'a, TagMark<Implicit>, E>
    for TaggedValue<T, E, Implicit, CLASS, TAG>
where
    T: FromAny<'a, Error = E> + Tagged,
    E: From<Error>,
{
    ghost gives_by_reader = { DerGives PassesAll (ImplicitConverts CLASS TAG (λ t. t.inner) T.TAG
        T.any_gives E.from_gives) E.from_gives };

    #[inline(always)]
    fn read_by_der(alloc: Global, bytes: &'a [u8]) -> ParseResult<'a, Self, E> {
        let (rest, any) = converted(element_by_der(bytes))?;
        match Self::try_from_any(alloc, any) {
            Ok(value) => Ok((rest, value)),
            Err(e) => Err(Err::Error(e)),
        }
    }
}

/// So is an element in hand read.
impl<'a, T, const CLASS: u8, const TAG: u32> DecodesBy<'a, TagMark<Implicit>>
    for TaggedValue<T, Error, Implicit, CLASS, TAG>
where
    T: FromAny<'a, Error = Error> + Tagged,
{
    ghost decode_gives = { ImplicitConverts CLASS TAG (λ t. t.inner) T.TAG T.any_gives
        (λ e f. f ≡ e) };

    fn decode_element(alloc: Global, any: Any<'a>) -> Result<Self, Error> {
        Self::try_from_any(alloc, any)
    }

    ghost decodes = { converted_reads IsDerElement DerElementFault der_refusal
        (ImplicitConverts CLASS TAG (λ t. t.inner) T.TAG T.any_gives (λ e f. f ≡ e)) };
}

/// Checks an element under the tag number of the value's type.
pub(crate) fn check_under<T: CheckDerConstraints + Tagged>(any: &Any<'_>) -> Result<(), Error>
    ensures { ChecksUnder (T.TAG).0 T.check_gives (parts_of any.now) result }
{
    let constructed = any.header.constructed();
    let header = Header::new(any.class(), constructed, T::TAG, any.header.length());
    T::check_constraints(&Any::new(header, any.content))
}

impl<T, E, const CLASS: u8, const TAG: u32> CheckBy<TagMark<Implicit>>
    for TaggedValue<T, E, Implicit, CLASS, TAG>
where
    T: CheckDerConstraints + Tagged,
{
    ghost check_by_kind = { ImplicitCheckGives (T.TAG).0 T.check_gives };

    /// Refuses an indefinite length with `IndefiniteLengthUnexpected`, and an element that does not
    /// keep the constraints of the value under the tag number of its type.
    fn check_this_kind(any: &Any<'_>) -> Result<(), Error> {
        any.header.length().assert_definite()?;
        check_under::<T>(any)
    }
}

impl<T: Grammar + Tagged, E, const CLASS: u8, const TAG: u32> Grammar
    for TaggedValue<T, E, Implicit, CLASS, TAG> {
    ghost grammar = { implicit_grammar CLASS TAG (T.TAG).0 (λ t. t.inner) T.grammar };
}

/// Lawful where the strict parts of the value are taken under the class of the tag.
impl<T, E, const CLASS: u8, const TAG: u32> LawfulItem for TaggedValue<T, E, Implicit, CLASS, TAG>
where
    T: LawfulItem + TakesClass<CLASS>,
{
    ghost lawful_item = { implicit_lawful CLASS TAG (T.TAG).0 (λ t. t.inner) T.grammar
        T.lawful_item T.number_fits T.tag_number T.takes_class };

    fn has_value(&self) {
        self.inner.has_value();
    }
}

/// A value under a tag of one of the four classes.
impl<T: AlwaysDer + TakesClass<CLASS>, E, const CLASS: u8, const TAG: u32> AlwaysDer
    for TaggedValue<T, E, Implicit, CLASS, TAG>
where
    Implicit: HasClass<CLASS>,
{
    fn is_der(&self) {
        let _number = self.tag().0;
        self.inner.is_der();
    }
}

/// Where the class is one of the four, and the value is in DER form.
impl<T: TellsDer + TakesClass<CLASS>, E, const CLASS: u8, const TAG: u32> TellsDer
    for TaggedValue<T, E, Implicit, CLASS, TAG> {
    fn is_der_form(&self) -> bool {
        let _number = self.tag().0;
        CLASS <= 3 && self.inner.is_der_form()
    }
}

impl<T, E, const CLASS: u8, const TAG: u32> LawfulWrite for TaggedValue<T, E, Implicit, CLASS, TAG>
where
    T: LawfulWrite + TakesClass<CLASS>,
{
    ghost lawful_writing = { implicit_lawful_writing CLASS TAG (λ t. t.inner) T.grammar T.writing
        T.lawful_item T.lawful_writing (T.TAG).0 };
}

impl<T: Grammar + Tagged, E, const CLASS: u8, const TAG: u32> LawfulTagged
    for TaggedValue<T, E, Implicit, CLASS, TAG> {
    ghost tag_number = { implicit_number CLASS TAG T.grammar.Form };

    ghost number_fits = { number_fits TAG };
}

/// It takes its own class alone.
impl<T: TakesClass<CLASS>, E, const CLASS: u8, const TAG: u32> TakesClass<CLASS>
    for TaggedValue<T, E, Implicit, CLASS, TAG> {
    ghost takes_class = { implicit_takes_class CLASS TAG T.grammar.Form (T.TAG).0 T.grammar.Check
        T.grammar.Body T.tag_number T.takes_class };
}

impl<'a, T, E, const CLASS: u8, const TAG: u32> LawfulBodyBy<'a, TagMark<Implicit>, E>
    for TaggedValue<T, E, Implicit, CLASS, TAG>
where
    T: LawfulBody<'a, E> + Tagged,
    E: From<Error>,
{
    ghost exact_by_kind = { implicit_takes CLASS TAG (λ t. t.inner) T.TAG T.any_gives E.from_gives
        T.grammar.Body T.grammar.value T.grammar.allocates T.body_exact };

    ghost no_memory_by_kind = { λ none. implicit_takes_no_memory {W = Self} CLASS TAG (λ t. t.inner)
        T.TAG T.any_gives E.from_gives (T.body_no_memory none) };
}

impl<'a, T, E, const CLASS: u8, const TAG: u32> LawfulDerBy<'a, TagMark<Implicit>, E>
    for TaggedValue<T, E, Implicit, CLASS, TAG>
where
    T: LawfulBody<'a, E> + LawfulItem + TakesClass<CLASS>,
    E: From<Error>,
{
    ghost exact_by_reader = { λ input answer octets. unchecked_exact
        (ImplicitConverts CLASS TAG (λ t. t.inner) T.TAG T.any_gives E.from_gives) E.from_gives
        (ImplicitBody CLASS TAG (T.TAG).0 T.grammar.Body) (λ t. T.grammar.value t.inner)
        T.grammar.allocates (implicit_takes CLASS TAG (λ t. t.inner) T.TAG T.any_gives
        E.from_gives T.grammar.Body T.grammar.value T.grammar.allocates T.body_exact) input
        answer };

    ghost no_memory_by_reader = { λ none. element_no_memory IsDerElement DerElementFault der_violation
        der_violation_no_memory PassesAll
        (ImplicitConverts CLASS TAG (λ t. t.inner) T.TAG T.any_gives E.from_gives) E.from_gives
        all_pass (implicit_takes_no_memory {W = Self} CLASS TAG (λ t. t.inner) T.TAG T.any_gives
        E.from_gives (T.body_no_memory none)) };
}

impl<T, E, const CLASS: u8, const TAG: u32> LawfulCheckBy<TagMark<Implicit>>
    for TaggedValue<T, E, Implicit, CLASS, TAG>
where
    T: LawfulCheck + TakesClass<CLASS>,
{
    ghost checks_by_kind = { implicit_checked (T.TAG).0 T.check_gives T.grammar.Check T.checks };
}

impl<T, E, const CLASS: u8, const TAG: u32> LawfulMember for TaggedValue<T, E, Implicit, CLASS, TAG>
where
    T: LawfulMember + TakesClass<CLASS>,
{
    ghost same = { λ x y. same_beside_nothing (T.eq x.inner y.inner) (T.same x.inner y.inner) };
}
