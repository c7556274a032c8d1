//! The traits of readers, and of types with a tag.
ghost use Rattle.std.specs.Prelude.{◌≡◌, ◌↔◌, ℕ, List, Result, true};
ghost use Rattle.x690.specs.Elements.{Parts};
ghost use Rattle.asn1_rs.specs.declared.asn1_types.any.Any.{Any};
ghost use Rattle.asn1_headers.specs.declared.tag.Tag.{Tag};
ghost use Rattle.asn1_headers.specs.declared.error.Err.{Err as Refusal};
ghost use Rattle.asn1_headers.specs.declared.error.Error.{Error};
ghost use Rattle.asn1_headers.specs.Answers.{seen};
ghost use Rattle.asn1_rs.specs.Any.{parts_of};
ghost use Rattle.asn1_rs.specs.Traits.{BerGives, HasConverted};

use crate::asn1_types::any::Any;
use crate::ber::element_by_ber;
use asn1_headers::content::{BerParser, DerParser};
use asn1_headers::error::{Err, Error, ParseResult};
use asn1_headers::tag::Tag;
use std::alloc::Global;

/// A reader, as a type.
pub trait ASN1Parser {}

impl ASN1Parser for BerParser {}

impl ASN1Parser for DerParser {}

/// A type whose elements have one tag number.
pub trait Tagged {
    /// The tag number.
    const TAG: Tag;

    /// The constant, as contracts name it.
    // Each impl gives both, and the check proves them equal. Of
    // `impl Tagged for A<'_> { const TAG: u32 = 4; ghost TAG = { 4 }; }` the checker says "cannot give this method the
    // clauses of its trait yet", and a constant has no clauses to write. So a type with a lifetime names another type
    // that has the number (`LeafType`, `TaggedAs`).
    ghost TAG: { Tag };
}

/// A value that has a tag number, which its type need not know.
pub trait DynTagged {
    /// The tag number of the value.
    ghost dyn_tag: { Self → Tag };

    /// The tag number.
    fn tag(&self) -> Tag
        ensures { result ≡ dyn_tag self.now };
}

impl<T: Tagged> DynTagged for T {
    ghost dyn_tag = { λ _. T.TAG };

    fn tag(&self) -> Tag {
        T::TAG
    }
}

/// A type that is told by tag numbers: a type with one, or a choice of several (X.690 8.13).
///
/// A caller's choice has an impl of its own, which names its tag numbers.
pub trait Choice {
    /// Its values have this tag number.
    // A relation and no function: an impl says which numbers, and the contract that they alone are.
    ghost HasTag: { Tag → Type 0 };

    /// Whether it has values of this tag number. The class is not looked at.
    fn can_decode(tag: Tag) -> bool
        ensures { result ≡ true ↔ HasTag tag };
}

impl<T: Tagged> Choice for T {
    ghost HasTag = { λ tag. tag ≡ T.TAG };

    fn can_decode(tag: Tag) -> bool {
        tag.0 == T::TAG.0
    }
}

/// A choice that is read by BER.
pub trait BerChoice<'a>: Choice + FromBer<'a, Error> {}

/// A choice that is read by DER.
pub trait DerChoice<'a>: Choice + FromDer<'a, Error> {}

/// A type that an element converts to.
///
/// A type with this conversion is read by BER; one that checks its constraints too and has [`DerAutoDerive`] is read by
/// DER.
pub trait FromAny<'a>: Sized {
    /// Why an element is refused.
    type Error;

    /// What the conversion may answer to this element. Left out, nothing is claimed of it.
    ///
    /// A type that looks at the parts of the element alone says `OfParts` of a relation of these.
    // It is told the element, since an answer may hang on the identifier octets that this keeps. These follow from the
    // parts and the input. So a relation of parts and octets would say no more, and each type would name an argument
    // that it does not look at.
    ghost any_gives: { Any → Result Self Self.Error → Type 0 } = { λ _ _. Unit {0} };

    /// The value of the element.
    fn try_from_any(alloc: Global, any: Any<'a>) -> Result<Self, Self::Error>
        ensures { any_gives any.entry result };
}

/// A type that is read by BER.
pub trait FromBer<'a, E>: Sized {
    /// What the reader may answer to these octets. Left out, nothing is claimed of it.
    ghost ber_gives: { List ℕ → Result (List ℕ × Self) (Refusal E) → Type 0 } = { λ _ _. Unit {0} };

    /// Reads a value at the front of the octets, by BER, and answers what follows it.
    fn from_ber(alloc: Global, bytes: &'a [u8]) -> ParseResult<'a, Self, E>
        ensures { ber_gives bytes.now (seen result) };
}

/// A type that is read by DER.
pub trait FromDer<'a, E>: Sized {
    /// What the reader may answer to these octets. Left out, nothing is claimed of it.
    ghost der_gives: { List ℕ → Result (List ℕ × Self) (Refusal E) → Type 0 } = { λ _ _. Unit {0} };

    /// Reads a value at the front of the octets, by DER, and answers what follows it.
    fn from_der(alloc: Global, bytes: &'a [u8]) -> ParseResult<'a, Self, E>
        ensures { der_gives bytes.now (seen result) };
}

/// A type whose elements keep constraints by DER (X.690, sections 10 and 11).
pub trait CheckDerConstraints {
    /// What the check may answer at an element of these parts. Left out, nothing is claimed of it.
    ghost check_gives: { Parts → Result (Unit {0}) Error → Type 0 } = { λ _ _. Unit {0} };

    /// Refuses an element that breaks a constraint. Where the type has laws, out of memory is never answered.
    // The impl of a type with a lifetime writes this clause again. The checker hands a trait's clause on to a function
    // of such an impl only where it takes `self`, and else says "write its clauses". The smallest input is `trait
    // Checked { ghost gives: { ℕ }; fn check() -> u32 ensures { result ≡ gives }; }` with an impl for an `A<'_>`.
    fn check_constraints(any: &Any<'_>) -> Result<(), Error>
        ensures { check_gives (parts_of any.now) result };
}

/// Marks a type that is read by DER as an element that is checked and then converted.
pub trait DerAutoDerive {}

/// The answer, with a refusal made into one of another error type.
// `answer.map_err(Err::convert)` is refused in its place. The checker's words are "passes a function whose result names
// a lifetime or a type parameter that neither what it captures nor its arguments name". The smallest input is
// `fn f<T, E: From<Error>>(a: Result<T, Err<Error>>) -> Result<T, Err<E>> { a.map_err(Err::convert) }`. Where a closure
// is called behind the match, the match stays: with this function it is not proved that the closure may be called.
#[inline(always)]
pub(crate) fn converted<'a, T, E: From<Error>>(
    answer: ParseResult<'a, T, Error>,
) -> ParseResult<'a, T, E>
    ensures { HasConverted E.from_gives answer.entry result }
{
    match answer {
        Ok(read) => Ok(read),
        Err(e) => Err(Err::convert(e)),
    }
}

/// Reads an element by BER and converts it, in this order; what refuses first names the refusal. No constraint is
/// checked.
impl<'a, T, E> FromBer<'a, E> for T
where
    T: FromAny<'a, Error = E>,
    E: From<Error>,
{
    ghost ber_gives = { BerGives T.any_gives E.from_gives };

    #[inline(always)]
    fn from_ber(alloc: Global, bytes: &'a [u8]) -> ParseResult<'a, T, E> {
        let (rest, any) = converted(element_by_ber(bytes))?;
        match T::try_from_any(alloc, any) {
            Ok(item) => Ok((rest, item)),
            Err(refusal) => Err(Err::Error(refusal)),
        }
    }
}
