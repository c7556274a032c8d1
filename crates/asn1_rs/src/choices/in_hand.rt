//! Choices that an element in hand is read as by DER: an arm reads it, and not the octets again.
ghost use Rattle.std.specs.Prelude.{Result};
ghost use Rattle.x690.specs.Elements.{IsDerElement};
ghost use Rattle.asn1_headers.specs.declared.error.Error.{Error};
ghost use Rattle.asn1_rs.specs.declared.asn1_types.any.Any.{Any};
ghost use Rattle.asn1_rs.specs.Any.{parts_of};
ghost use Rattle.asn1_rs.specs.Any.Decoded.{IsReadAgain};
ghost use Rattle.asn1_rs.specs.Choices.{ChoiceGives, ChoiceReads, IsNoArm, OrGives, choice_grammar, has_a_tag};
ghost use Rattle.asn1_rs.specs.Choices.{is_of_tag};
ghost use Rattle.asn1_rs.specs.Choices.Data.{AnswersByDer, ReadsChoiceAlso};
ghost use Rattle.asn1_rs.specs.Choices.InHand.{IsReadByArms};
ghost use Rattle.asn1_rs.specs.Choices.Nested.{OrChoiceGives};
ghost use Rattle.asn1_rs.specs.Laws.Choices.InHand.{none_in_hand, or_choice_in_hand, or_in_hand};

use crate::asn1_types::any::Any;
use crate::choices::arms::{Never, Or, ReadsArms, no_arm};
use crate::choices::nested::OrChoice;
use crate::choices::told::{ToldChoice, is_of_arm};
use crate::choices::{ChoiceReader, OfArms, ReadsChoice};
use crate::kinds::decoding::DecodesBy;
use crate::kinds::reading::HasReader;
use crate::laws::LawfulDer;
use crate::traits::Tagged;
use asn1_headers::error::Error;
use std::alloc::Global;

/// Arms that an element in hand is read as by DER.
pub trait DecodesArms<'a>: ReadsArms<'a> {
    /// What reading the element may answer.
    ghost arms_decode: { Any → Result Self Error → Type 0 };

    /// The value of the arm whose class and tag number the element has.
    fn decode_arm(alloc: Global, any: Any<'a>) -> Result<Self, Error>
        ensures { arms_decode any.entry result };

    /// It is what `read_arm` may answer to the octets that the element was read from.
    ghost decodes_arms: { (any : Any) (answer : Result Self Error) → Self.arms_decode any answer →
        IsReadByArms Self.arms_give any answer };
}

impl<'a> DecodesArms<'a> for Never {
    ghost arms_decode = { λ any. IsNoArm (λ (e : Error). e) (parts_of any).id.number };

    fn decode_arm(_alloc: Global, any: Any<'a>) -> Result<Never, Error> {
        Err(no_arm(&any))
    }

    ghost decodes_arms = { none_in_hand };
}

impl<'a, T, R, const CLASS: u8> DecodesArms<'a> for Or<T, R, CLASS>
where
    T: LawfulDer<'a, Error> + Tagged + HasReader + DecodesBy<'a, T::Reader>,
    R: DecodesArms<'a>,
{
    ghost arms_decode = { λ any. OrGives (is_of_tag CLASS (T.TAG).0 (parts_of any).id)
        (T.decode_gives any) (R.arms_decode any) };

    fn decode_arm(alloc: Global, any: Any<'a>) -> Result<Self, Error> {
        if is_of_arm(CLASS, T::TAG, &any) {
            return match T::decode_element(alloc, any) {
                Ok(value) => Ok(Or::This(value)),
                Err(e) => Err(e),
            };
        }
        match R::decode_arm(alloc, any) {
            Ok(others) => Ok(Or::Other(others)),
            Err(e) => Err(e),
        }
    }

    ghost decodes_arms = { λ any. or_in_hand (is_of_tag CLASS (T.TAG).0 (parts_of any).id) any
        T.der_gives (R.arms_give (parts_of any).id) (T.decode_gives any) (R.arms_decode any)
        (T.decodes any) (R.decodes_arms any) };
}

impl<'a, C, R> DecodesArms<'a> for OrChoice<C, R>
where
    C: DecodesChoice<'a> + ToldChoice,
    R: DecodesArms<'a>,
{
    ghost arms_decode = { λ any. OrChoiceGives
        (has_a_tag C.laws.arms.grammar.tags (parts_of any).id)
        (IsReadAgain IsDerElement (ReadsChoiceAlso C.laws C.choice_gives) any)
        (R.arms_decode any) };

    fn decode_arm(alloc: Global, any: Any<'a>) -> Result<Self, Error> {
        if C::has_element(&any) {
            return match C::decode_choice(alloc, any) {
                Ok(value) => Ok(OrChoice::This(value)),
                Err(e) => Err(e),
            };
        }
        match R::decode_arm(alloc, any) {
            Ok(others) => Ok(OrChoice::Other(others)),
            Err(e) => Err(e),
        }
    }

    ghost decodes_arms = { λ any. or_choice_in_hand
        (has_a_tag C.laws.arms.grammar.tags (parts_of any).id) any
        (ReadsChoiceAlso C.laws C.choice_gives) (R.arms_give (parts_of any).id)
        (IsReadAgain IsDerElement (ReadsChoiceAlso C.laws C.choice_gives) any)
        (R.arms_decode any) (λ answer g. g) (R.decodes_arms any) };
}

/// A choice that an element in hand is read as by DER.
///
///     impl<'a> DecodesChoice<'a> for Time {
///         fn decode_choice(alloc: Global, any: Any<'a>) -> Result<Time, Error> {
///             choice_in_hand(alloc, any)
///         }
///     }
pub trait DecodesChoice<'a>: ReadsChoice<'a> {
    /// The value of the arm whose class and tag number the element has. Refused as by `read_choice`.
    fn decode_choice(alloc: Global, any: Any<'a>) -> Result<Self, Error>
        ensures { IsReadAgain IsDerElement (ReadsChoiceAlso Self.laws Self.choice_gives) any.entry
            result };
}

/// The choice that an element in hand is by its arms.
fn arms_in_hand<'a, T, A>(alloc: Global, any: Any<'a>) -> Result<T, Error>
where
    T: OfArms<Arms = A>,
    A: DecodesArms<'a>,
    ensures { ChoiceGives A.read_arms.tags T.as_arms A.arms_decode any.entry result }
{
    let class = any.header.class();
    if !A::knows_class(class) {
        return Err(Error::unexpected_class(None, class));
    }
    match A::decode_arm(alloc, any) {
        Ok(arms) => Ok(T::of_arms(arms)),
        Err(e) => Err(e),
    }
}

/// The choice that an element in hand is by DER.
pub fn choice_in_hand<'a, T, A>(alloc: Global, any: Any<'a>) -> Result<T, Error>
where
    T: OfArms<Arms = A>,
    A: DecodesArms<'a>,
    ensures { IsReadAgain IsDerElement
        (λ octets given. AnswersByDer (choice_grammar T.as_arms A.read_arms) A.read_arms.tags
        octets given × ChoiceReads A.read_arms.tags T.as_arms A.arms_give octets given)
        any.entry result }
{
    arms_in_hand(alloc, any)
}

/// Its arms read the element.
impl<'a, T> DecodesBy<'a, ChoiceReader> for T
where
    T: DecodesChoice<'a> + HasReader<Reader = ChoiceReader>,
{
    ghost decode_gives = { IsReadAgain IsDerElement (ReadsChoiceAlso T.laws T.choice_gives) };

    fn decode_element(alloc: Global, any: Any<'a>) -> Result<T, Error> {
        T::decode_choice(alloc, any)
    }

    ghost decodes = { λ any answer g. g };
}
