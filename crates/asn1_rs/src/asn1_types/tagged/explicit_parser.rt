//! Values with the header of their explicit tag: their constraints, and their laws (X.690 8.14.2).
ghost use Rattle.x690.specs.Elements.{IsDerElement};
ghost use Rattle.x690.specs.Faults.{DerElementFault};
ghost use Rattle.x690.specs.Identifiers.{IsTruncatedIdentifier};
ghost use Rattle.x690.specs.Nested.{IsElement, ElementFault};
ghost use Rattle.asn1_rs.specs.Any.{parts_of, DerElementGives};
ghost use Rattle.asn1_headers.specs.Ber.{max_depth, EndsWithin};
ghost use Rattle.asn1_headers.specs.Header.{identifier_of};
ghost use Rattle.asn1_headers.specs.Header.Reading.{der_violation, ber_violation};
ghost use Rattle.asn1_rs.specs.Laws.Readers.{der_elements, ber_elements, der_violation_no_memory, ber_violation_no_memory};
ghost use Rattle.asn1_rs.specs.Laws.Tagged.Explicit.{explicit_checks};
ghost use Rattle.asn1_rs.specs.Laws.Tagged.Headed.{explicit_headed_lawful, headed_same};
ghost use Rattle.asn1_rs.specs.Laws.Tagged.Parser.{explicit_parser_exact, explicit_parser_no_memory};
ghost use Rattle.asn1_rs.specs.Laws.Tagged.Parser.{whole_parser_exact, whole_parser_no_memory};
ghost use Rattle.asn1_rs.specs.Tagged.Explicit.{ExplicitCheckGives};
ghost use Rattle.asn1_rs.specs.Tagged.Headed.{explicit_headed};
ghost use Rattle.asn1_rs.specs.Laws.Writing.{explicit_headed_lawful_writing};
ghost use Rattle.asn1_rs.specs.Grammar.Item.{ber_words};

use crate::asn1_types::any::Any;
use crate::asn1_types::tagged::Explicit;
use crate::asn1_types::tagged::parser::TaggedParser;
use crate::asn1_types::tagged::whole_contents::check_whole;
use crate::der::element_by_der;
use crate::laws::der_form::TellsDer;
use crate::laws::{
    Grammar, LawfulBer, LawfulCheck, LawfulDer, LawfulItem, LawfulMember, LawfulWrite,
};
use crate::traits::CheckDerConstraints;
use asn1_headers::error::Error;

impl<T: CheckDerConstraints> CheckDerConstraints for TaggedParser<'_, Explicit, T, Error> {
    ghost check_gives = { ExplicitCheckGives DerElementGives T.check_gives };

    /// Refuses an indefinite length with `IndefiniteLengthUnexpected`. Then it refuses contents octets that begin with
    /// no element by DER that keeps the constraints of the value. Then it refuses what is left behind that element,
    /// with `TrailingOctets`.
    fn check_constraints(any: &Any<'_>) -> Result<(), Error>
        ensures { ExplicitCheckGives DerElementGives T.check_gives (parts_of any.now) result }
    {
        any.header.length().assert_definite()?;
        check_whole::<T>(element_by_der(any.content))
    }
}

/// Its value is that under the tag, with the identifier of the header.
impl<T: Grammar, E> Grammar for TaggedParser<'_, Explicit, T, E> {
    ghost grammar = { explicit_headed (λ t. identifier_of t.header) (λ t. t.inner) T.grammar };
}

impl<T: LawfulItem, E> LawfulItem for TaggedParser<'_, Explicit, T, E> {
    ghost lawful_item = { explicit_headed_lawful (λ t. identifier_of t.header) (λ t. t.inner)
        T.grammar T.lawful_item };

    fn has_value(&self) {
        let _class = self.header.class();
        let _number = self.header.tag().0;
        self.inner.has_value();
    }
}

/// Where its header is constructed, and the value is in DER form.
impl<T: TellsDer, E> TellsDer for TaggedParser<'_, Explicit, T, E> {
    fn is_der_form(&self) -> bool {
        let _class = self.header.class();
        let _number = self.header.tag().0;
        self.header.is_constructed() && self.inner.is_der_form()
    }
}

impl<T: LawfulWrite> LawfulWrite for TaggedParser<'_, Explicit, T, Error> {
    ghost lawful_writing = { explicit_headed_lawful_writing (λ t. identifier_of t.header)
        (λ t. t.inner)
        T.grammar T.writing T.lawful_item T.lawful_writing };
}

impl<T: LawfulCheck> LawfulCheck for TaggedParser<'_, Explicit, T, Error> {
    ghost checks = { explicit_checks IsDerElement DerElementFault IsTruncatedIdentifier der_elements
        der_violation der_violation_no_memory T.check_gives T.grammar.Check T.checks };
}

impl<T: LawfulMember, E> LawfulMember for TaggedParser<'_, Explicit, T, E> {
    ghost same = { λ x y. headed_same x.header y.header (T.eq x.inner y.inner)
        (T.grammar.value x.inner) (T.grammar.value y.inner) (T.same x.inner y.inner) };
}

impl<'a, T, E> LawfulBer<'a, E> for TaggedParser<'a, Explicit, T, E>
where
    T: LawfulBer<'a, E>,
    E: From<Error>,
{
    ghost ber_exact = { λ input answer octets. explicit_parser_exact (IsElement max_depth)
        (ElementFault max_depth) EndsWithin ber_elements ber_violation T.ber_gives E.from_gives
        (ber_words T.grammar) T.grammar.value T.grammar.allocates T.ber_exact input answer };

    ghost ber_no_memory = { λ none. explicit_parser_no_memory (IsElement max_depth)
        (ElementFault max_depth) ber_violation ber_violation_no_memory T.ber_gives E.from_gives
        (T.ber_no_memory none) };
}

impl<'a, T, E> LawfulDer<'a, E> for TaggedParser<'a, Explicit, T, E>
where
    T: LawfulDer<'a, E> + Drop,
    E: From<Error>,
{
    ghost der_exact = { λ input answer octets. whole_parser_exact IsDerElement DerElementFault
        IsTruncatedIdentifier der_elements der_violation T.der_gives E.from_gives T.grammar.Der
        T.grammar.value T.grammar.allocates T.der_exact T.lawful_item.der_one input answer };

    ghost der_no_memory = { λ none. whole_parser_no_memory IsDerElement DerElementFault
        der_violation der_violation_no_memory T.der_gives E.from_gives (T.der_no_memory none) };
}
