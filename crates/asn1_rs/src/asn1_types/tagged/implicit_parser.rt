//! Values with the header of their implicit tag: their constraints, and their laws (X.690 8.14.3).
ghost use Rattle.std.specs.Prelude.{ℕ, ◌<◌};
ghost use Rattle.x690.specs.Elements.{IsDerElement};
ghost use Rattle.x690.specs.Faults.{DerElementFault};
ghost use Rattle.x690.specs.Identifiers.{IsTruncatedIdentifier};
ghost use Rattle.x690.specs.Nested.{IsElement, ElementFault};
ghost use Rattle.asn1_rs.specs.Any.{parts_of};
ghost use Rattle.asn1_headers.specs.Ber.{max_depth, EndsWithin};
ghost use Rattle.asn1_rs.specs.Grammar.{FormTakes};
ghost use Rattle.asn1_headers.specs.Header.{identifier_of};
ghost use Rattle.asn1_headers.specs.Header.Reading.{der_violation, ber_violation};
ghost use Rattle.asn1_rs.specs.Laws.Readers.{der_elements, ber_elements, der_violation_no_memory, ber_violation_no_memory};
ghost use Rattle.asn1_rs.specs.Laws.Tagged.Headed.{each_class, implicit_headed_lawful, headed_same};
ghost use Rattle.asn1_rs.specs.Laws.Tagged.Implicit.{implicit_checked};
ghost use Rattle.asn1_rs.specs.Laws.Tagged.Parser.{checked_exact, checked_no_memory, implicit_parser_exact};
ghost use Rattle.asn1_rs.specs.Laws.Tagged.Parser.{implicit_parser_no_memory};
ghost use Rattle.asn1_rs.specs.Tagged.Headed.{CheckedBody, implicit_headed};
ghost use Rattle.asn1_rs.specs.Tagged.Implicit.{ImplicitCheckGives};
ghost use Rattle.asn1_rs.specs.Tagged.Parser.{ChecksAndConverts};
ghost use Rattle.asn1_rs.specs.Laws.Writing.{implicit_headed_lawful_writing};

use crate::asn1_types::any::Any;
use crate::asn1_types::tagged::Implicit;
use crate::asn1_types::tagged::implicit_value::check_under;
use crate::asn1_types::tagged::parser::TaggedParser;
use crate::laws::{
    Grammar, LawfulBer, LawfulBody, LawfulCheck, LawfulDer, LawfulItem, LawfulMember, LawfulTagged,
    LawfulWrite, TakesClass,
};
use crate::traits::{CheckDerConstraints, Tagged};
use asn1_headers::error::Error;

/// A type whose values keep constraints and conversion under an implicit tag of each of the four classes. Types that
/// bear no tag of their own do.
// The class is known at run time alone, so all four are asked for, by one bound. So is the number: a `TaggedParser` has
// no law of it and takes no class, and an implicit tag over one has no laws.
pub trait TakesEachClass: LawfulTagged {
    /// The strict parts of a value meet both under each class.
    ghost takes_each: { (class : ℕ) → class < 4 →
        FormTakes Self.grammar.Form Self.grammar.Check Self.grammar.Body class };
}

impl<T> TakesEachClass for T
where
    T: TakesClass<0> + TakesClass<1> + TakesClass<2> + TakesClass<3>,
{
    ghost takes_each = { each_class
        (FormTakes T.grammar.Form T.grammar.Check T.grammar.Body) T.TakesClass-1.takes_class
        T.TakesClass-2.takes_class T.TakesClass-3.takes_class T.TakesClass-4.takes_class };
}

impl<T> CheckDerConstraints for TaggedParser<'_, Implicit, T, Error>
where
    T: CheckDerConstraints + Tagged,
{
    ghost check_gives = { ImplicitCheckGives (T.TAG).0 T.check_gives };

    /// Refuses an indefinite length with `IndefiniteLengthUnexpected`, and an element that does not
    /// keep the constraints of the value under the tag number of its type.
    fn check_constraints(any: &Any<'_>) -> Result<(), Error>
        ensures { ImplicitCheckGives (T.TAG).0 T.check_gives (parts_of any.now) result }
    {
        any.header.length().assert_definite()?;
        check_under::<T>(any)
    }
}

/// Its value is that under the tag, with the identifier of the header.
impl<T: Grammar + Tagged, E> Grammar for TaggedParser<'_, Implicit, T, E> {
    ghost grammar = { implicit_headed (λ t. identifier_of t.header) (T.TAG).0 (λ t. t.inner)
        T.grammar };
}

impl<T: LawfulItem + TakesEachClass, E> LawfulItem for TaggedParser<'_, Implicit, T, E> {
    ghost lawful_item = { implicit_headed_lawful (λ t. identifier_of t.header) (T.TAG).0
        (λ t. t.inner) T.grammar T.lawful_item T.number_fits T.tag_number T.takes_each };

    fn has_value(&self) {
        let _class = self.header.class();
        let _number = self.header.tag().0;
        self.inner.has_value();
    }
}

impl<T: LawfulWrite + TakesEachClass> LawfulWrite for TaggedParser<'_, Implicit, T, Error> {
    ghost lawful_writing = { implicit_headed_lawful_writing (λ t. identifier_of t.header)
        (λ t. t.inner)
        T.grammar T.writing T.lawful_item T.lawful_writing (T.TAG).0 };
}

impl<T: LawfulCheck + TakesEachClass> LawfulCheck for TaggedParser<'_, Implicit, T, Error> {
    ghost checks = { implicit_checked (T.TAG).0 T.check_gives T.grammar.Check T.checks };
}

impl<T: LawfulMember + TakesEachClass, E> LawfulMember for TaggedParser<'_, Implicit, T, E> {
    ghost same = { λ x y. headed_same x.header y.header (T.eq x.inner y.inner)
        (T.grammar.value x.inner) (T.grammar.value y.inner) (T.same x.inner y.inner) };
}

impl<'a, T, E> LawfulBer<'a, E> for TaggedParser<'a, Implicit, T, E>
where
    T: LawfulBody<'a, E> + LawfulItem + TakesEachClass,
    E: From<Error>,
{
    ghost ber_exact = { λ input answer octets. implicit_parser_exact (IsElement max_depth)
        (ElementFault max_depth) ber_violation T.TAG T.any_gives E.from_gives EndsWithin
        ber_elements T.grammar.Body T.grammar.value T.grammar.allocates T.body_exact input
        answer };

    ghost ber_no_memory = { λ none. implicit_parser_no_memory (IsElement max_depth)
        (ElementFault max_depth) ber_violation T.TAG T.any_gives E.from_gives ber_violation_no_memory
        (T.body_no_memory none) };
}

impl<'a, T, E> LawfulDer<'a, E> for TaggedParser<'a, Implicit, T, E>
where
    T: LawfulBody<'a, E> + LawfulCheck + TakesEachClass,
    E: From<Error>,
{
    ghost der_exact = { λ input answer octets. implicit_parser_exact IsDerElement DerElementFault
        der_violation T.TAG (ChecksAndConverts T.check_gives T.any_gives E.from_gives)
        E.from_gives IsTruncatedIdentifier der_elements (CheckedBody T.grammar.Check T.grammar.Body)
        T.grammar.value T.grammar.allocates
        (checked_exact T.check_gives T.grammar.Check T.checks T.any_gives E.from_gives
        T.grammar.Body T.grammar.value T.grammar.allocates T.body_exact) input answer };

    ghost der_no_memory = { λ none. implicit_parser_no_memory IsDerElement DerElementFault
        der_violation T.TAG (ChecksAndConverts T.check_gives T.any_gives E.from_gives) E.from_gives
        der_violation_no_memory
        (checked_no_memory T.check_gives T.checks.asks_no_memory T.any_gives E.from_gives
        (T.body_no_memory none)) };
}
