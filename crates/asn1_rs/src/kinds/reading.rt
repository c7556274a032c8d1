//! How types come by the traits of readers, and by the laws of these. The kind of the type has the conversion and the
//! check of an element. The reader that the type names reads by DER.
//!
//! Each trait has one impl for all types with a kind, and beside it impls for types without one. So at a list or at a
//! value under a tag one impl alone can be meant. Types nest deeper so; that the checker looks into each impl that can
//! be meant, to a bounded depth, is inferred from tries (docs/DECISIONS.md).
ghost use Rattle.std.specs.Prelude.{◌≡◌, ℕ, List, Result, Err, IfErr, false};
ghost use Rattle.x690.specs.Octets.{IsOctets};
ghost use Rattle.x690.specs.Identifiers.{IsTruncatedIdentifier};
ghost use Rattle.x690.specs.Elements.{Parts, IsDerElement};
ghost use Rattle.x690.specs.Faults.{DerElementFault};
ghost use Rattle.asn1_headers.specs.declared.error.Err.{Err as Refusal};
ghost use Rattle.asn1_headers.specs.declared.error.Error.{Error};
ghost use Rattle.asn1_headers.specs.Answers.{seen, Exactly, TellsMemory, IsOther};
ghost use Rattle.asn1_headers.specs.Error.{ErrorIs};
ghost use Rattle.asn1_headers.specs.Header.Reading.{der_violation};
ghost use Rattle.asn1_rs.specs.declared.asn1_types.any.Any.{Any};
ghost use Rattle.asn1_rs.specs.Any.{parts_of};
ghost use Rattle.asn1_rs.specs.Checks.{CheckGives, has_number};
ghost use Rattle.asn1_rs.specs.Grammar.{TakesBody};
ghost use Rattle.asn1_rs.specs.Kinds.{IsExactCheck};
ghost use Rattle.asn1_rs.specs.Lists.{IsListOr};
ghost use Rattle.asn1_rs.specs.Traits.{DerGives};
ghost use Rattle.asn1_rs.specs.Laws.Kinds.{other_error};
ghost use Rattle.asn1_rs.specs.Laws.Readers.{element_exact, element_no_memory, der_violation_no_memory, der_elements};

use crate::asn1_types::any::Any;
use crate::der::element_by_der;
use crate::kinds::{ElementKind, HasKind, LawfulConversion, LawfulElement};
use crate::laws::{Grammar, LawfulAuto, LawfulBody, LawfulCheck, LawfulDer, LawfulItem};
use crate::traits::{CheckDerConstraints, DerAutoDerive, FromAny, FromDer, converted};
use asn1_headers::error::{Err, Error, ParseResult};
use asn1_headers::tag::Tag;
use std::alloc::Global;
use std::marker::PhantomData;

/// The conversion of an element to a type of this kind.
pub trait FromAnyBy<'a, K>: Sized {
    /// Why an element is refused.
    type Refusal;

    /// What the conversion may answer to this element.
    ghost gives_by_kind: { Any → Result Self Self.Refusal → Type 0 };

    /// `try_from_any`.
    fn convert_by_kind(alloc: Global, any: Any<'a>) -> Result<Self, Self::Refusal>
        ensures { gives_by_kind any.entry result };
}

impl<'a, T: HasKind + FromAnyBy<'a, T::Kind>> FromAny<'a> for T {
    type Error = <T as FromAnyBy<'a, T::Kind>>::Refusal;

    ghost any_gives = { T.gives_by_kind };

    #[inline(always)]
    fn try_from_any(alloc: Global, any: Any<'a>) -> Result<T, Self::Error> {
        T::convert_by_kind(alloc, any)
    }
}

/// The check of an element for a type of this kind.
pub trait CheckBy<K> {
    /// What the check may answer at an element of these parts.
    ghost check_by_kind: { Parts → Result (Unit {0}) Error → Type 0 };

    /// `check_constraints`.
    fn check_this_kind(any: &Any<'_>) -> Result<(), Error>
        ensures { check_by_kind (parts_of any.now) result };
}

impl<T: HasKind + CheckBy<T::Kind>> CheckDerConstraints for T {
    ghost check_gives = { T.check_by_kind };

    #[inline(always)]
    fn check_constraints(any: &Any<'_>) -> Result<(), Error> {
        T::check_this_kind(any)
    }
}

/// A type that is read by DER by a reader that others have too.
///
/// A type with [`DerAutoDerive`] has it. A list names [`ListReader`].
pub trait HasReader {
    /// The reader: [`ElementReader`], [`ListReader`], or of values under a tag
    /// [`TagMark`](crate::asn1_types::tagged::TagMark).
    type Reader;
}

/// The reader of types that are read as one element, checked and converted.
#[derive(Debug)]
pub struct ElementReader;

impl<T: DerAutoDerive> HasReader for T {
    type Reader = ElementReader;
}

/// The reader of lists. `F` is [`AnyForm`] or [`ConstructedForm`].
#[derive_where(Debug)]
pub struct ListReader<F>(PhantomData<F>);

/// The form that an element has to have: primitive or constructed (X.690 8.1.2.5).
pub trait EncodingForm {
    /// What the check for a tag number and this form may answer at an element of these parts.
    ghost form_gives: { ℕ → CheckGives };

    /// Refuses an element that has another tag number or another form, in this order.
    fn assert_form(number: u32, any: &Any<'_>) -> Result<(), Error>
        ensures { form_gives number (parts_of any.now) result };
}

/// Of lists whose constructed bit is not looked at.
#[derive(Debug)]
pub struct AnyForm;

impl EncodingForm for AnyForm {
    ghost form_gives = { has_number };

    fn assert_form(number: u32, any: &Any<'_>) -> Result<(), Error> {
        any.header.assert_tag(Tag(number))
    }
}

/// Of lists that are refused where the element is primitive.
#[derive(Debug)]
pub struct ConstructedForm;

impl EncodingForm for ConstructedForm {
    ghost form_gives = { IsListOr };

    fn assert_form(number: u32, any: &Any<'_>) -> Result<(), Error> {
        AnyForm::assert_form(number, any)?;
        any.header.assert_constructed()
    }
}

/// A type that is read by DER by this reader.
pub trait FromDerBy<'a, R, E>: Sized {
    /// What the reader may answer to these octets.
    ghost gives_by_reader: { List ℕ → Result (List ℕ × Self) (Refusal E) → Type 0 };

    /// `from_der`.
    fn read_by_der(alloc: Global, bytes: &'a [u8]) -> ParseResult<'a, Self, E>
        ensures { gives_by_reader bytes.now (seen result) };
}

impl<'a, T: HasReader + FromDerBy<'a, T::Reader, E>, E> FromDer<'a, E> for T {
    ghost der_gives = { T.gives_by_reader };

    #[inline(always)]
    fn from_der(alloc: Global, bytes: &'a [u8]) -> ParseResult<'a, T, E> {
        T::read_by_der(alloc, bytes)
    }
}

/// Reads an element by DER, checks its constraints, and converts it, in this order; what refuses first names the
/// refusal.
impl<'a, T, E> FromDerBy<'a, ElementReader, E> for T
where
    T: FromAny<'a, Error = E> + CheckDerConstraints,
    E: From<Error>,
{
    ghost gives_by_reader = { DerGives T.check_gives T.any_gives E.from_gives };

    #[inline(always)]
    fn read_by_der(alloc: Global, bytes: &'a [u8]) -> ParseResult<'a, T, E> {
        let (rest, any) = converted(element_by_der(bytes))?;
        if let Err(e) = T::check_constraints(&any) {
            return Err(Err::Error(E::from(e)));
        }
        match T::try_from_any(alloc, any) {
            Ok(value) => Ok((rest, value)),
            Err(e) => Err(Err::Error(e)),
        }
    }
}

/// The law of the conversion to a type of this kind.
pub trait LawfulBodyBy<'a, K, E: From<Error>>: FromAny<'a, Error = E> + Grammar {
    /// `body_exact`.
    ghost exact_by_kind: { (any : Any) (answer : Result Self E) → IsOctets any.content.now →
        Self.any_gives any answer →
        TakesBody Self.grammar.Body Self.grammar.value Self.grammar.allocates E.from_gives
        (parts_of any) answer };

    /// `body_no_memory`.
    ghost no_memory_by_kind: { Self.grammar.allocates ≡ false → (any : Any) (e : E) →
        Self.any_gives any (Err e) → IsOther E.from_gives e };
}

impl<'a, T: HasKind + LawfulBodyBy<'a, T::Kind, E>, E: From<Error>> LawfulBody<'a, E> for T {
    ghost body_exact = { T.exact_by_kind };

    ghost body_no_memory = { T.no_memory_by_kind };
}

impl<'a, T: LawfulConversion<'a>> LawfulBodyBy<'a, ElementKind, Error> for T {
    ghost exact_by_kind = { T.converts.exact };

    ghost no_memory_by_kind = { λ none.
        other_error T.any_gives (T.converts.asks_no_memory none) };
}

/// The law of the check for a type of this kind.
pub trait LawfulCheckBy<K>: CheckDerConstraints + LawfulItem {
    /// `checks`.
    ghost checks_by_kind: { IsExactCheck Self.check_gives Self.grammar.Check };
}

impl<T: HasKind + LawfulCheckBy<T::Kind>> LawfulCheck for T {
    ghost checks = { T.checks_by_kind };
}

/// The law of reading by DER by this reader.
pub trait LawfulDerBy<'a, R, E: From<Error>>: FromDer<'a, E> + LawfulItem {
    /// `der_exact`.
    ghost exact_by_reader: { (input : List ℕ) (answer : Result (List ℕ × Self) (Refusal E)) →
        IsOctets input → Self.der_gives input answer →
        Exactly IsTruncatedIdentifier Self.grammar.Der Self.grammar.value
        (TellsMemory Self.grammar.allocates E.from_gives) input answer };

    /// `der_no_memory`.
    ghost no_memory_by_reader: { Self.grammar.allocates ≡ false →
        (input : List ℕ) (answer : Result (List ℕ × Self) (Refusal E)) →
        Self.der_gives input answer → IfErr answer (ErrorIs (IsOther E.from_gives)) };
}

impl<'a, T: HasReader + LawfulDerBy<'a, T::Reader, E>, E: From<Error>> LawfulDer<'a, E> for T {
    ghost der_exact = { T.exact_by_reader };

    ghost der_no_memory = { T.no_memory_by_reader };
}

impl<'a, T, E: From<Error>> LawfulDerBy<'a, ElementReader, E> for T
where
    T: LawfulBodyBy<'a, ElementKind, E> + LawfulCheckBy<ElementKind> + LawfulAuto,
{
    ghost exact_by_reader = { λ input answer octets.
        element_exact IsDerElement DerElementFault IsTruncatedIdentifier der_elements
        der_violation
        T.check_gives T.any_gives E.from_gives T.grammar.Check T.grammar.Body T.grammar.value
        T.grammar.allocates T.grammar.Der T.checks_by_kind.exact T.exact_by_kind T.der_split
        T.der_join
        input answer };

    ghost no_memory_by_reader = { λ none.
        element_no_memory IsDerElement DerElementFault
        der_violation der_violation_no_memory
        T.check_gives T.any_gives E.from_gives T.checks_by_kind.asks_no_memory
        (T.no_memory_by_kind none) };
}
