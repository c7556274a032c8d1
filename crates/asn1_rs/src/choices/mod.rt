//! Choices: types whose values are of one of several types, which differ in the class and the tag number of their
//! elements (X.680 29). From what its author says once a choice has readers by both rules, writers, and the laws of
//! items. So it may be an item of lists, or stand under an explicit tag. With [`LawfulType`] and [`ToldByNumber`] it is
//! a field of structs. Under an implicit tag it has no laws: X.680 31.2.7 has such a tag explicit.
//!
//! [`LawfulType`]: crate::LawfulType
//! [`ToldByNumber`]: crate::ToldByNumber
//!
//! The types of a choice are its **arms** ([`arms`]): a type, or the others behind it, with `Never` at the end.
//!
//!     pub type TimeArms = OrUniversal<UtcTime, OrUniversal<GeneralizedTime, Never>>;
//!
//! The check of a choice takes longer with each arm, and most with those that have a lifetime. So a choice of many arms
//! is divided in parts, each an enum that is a choice of a few arms ([`nested`]). [`taken_arm`] has an arm whose type
//! is too large for those of [`arms`], and [`boxed`] a choice on the heap, which may hold itself.
//!
//! The laws of the arms stand in the choice's own record ([`LawfulChoice`]), and what holds a choice asks nothing of
//! them.

pub(crate) mod arms;
pub(crate) mod boxed;
pub(crate) mod checks;
pub(crate) mod in_hand;
pub(crate) mod nested;
pub(crate) mod taken;
pub(crate) mod taken_arm;
pub(crate) mod told;
pub(crate) mod writing;

ghost use Rattle.std.specs.Prelude.{◌≡◌, ◌≢◌, ℕ, List, Result, Err, false, IfErr};
ghost use Rattle.asn1_headers.specs.Answers.{seen};
ghost use Rattle.asn1_headers.specs.declared.error.Err.{Err as Refusal};
ghost use Rattle.asn1_headers.specs.declared.error.Error.{Error};
ghost use Rattle.asn1_headers.specs.declared.error.Error.TheVariants.{OutOfMemory};
ghost use Rattle.asn1_rs.specs.declared.asn1_types.any.Any.{Any};
ghost use Rattle.asn1_rs.specs.Any.{parts_of};
ghost use Rattle.asn1_rs.specs.Choices.{ChoiceReads, ChoiceGives, KnowsClass, choice_grammar};
ghost use Rattle.asn1_rs.specs.Choices.Data.{LawfulChoiceOf, AnswersByDer, AnswersOf, ChecksOf, grammar_of_choice};
ghost use Rattle.asn1_rs.specs.Choices.Data.{ReadsChoiceAlso, TakesChoiceAlso};
ghost use Rattle.asn1_rs.specs.Structs.{Unspecified};
ghost use Rattle.asn1_rs.specs.Laws.Choices.{choice_lawful};
ghost use Rattle.asn1_rs.specs.Laws.Choices.Readers.{choice_reads, choice_gives, choice_checks, of_another};

use crate::asn1_types::any::Any;
use crate::choices::arms::{ReadsArms, TakesArms};
use crate::choices::writing::{AssertValid, UsesArm};
use crate::der::element_by_der;
use crate::kinds::reading::{
    CheckBy, FromAnyBy, FromDerBy, HasReader, LawfulBodyBy, LawfulCheckBy, LawfulDerBy,
};
use crate::kinds::{GrammarBy, HasKind, LawfulItemBy};
use crate::traits::DynTagged;
use asn1_headers::error::{Err, Error, ParseResult};
use std::alloc::Global;

/// The kind of choices.
#[derive(Debug)]
pub struct ChoiceKind;

/// The reader by DER of choices.
#[derive(Debug)]
pub struct ChoiceReader;

/// A type whose values are of one of several types.
///
///     impl LawfulChoice for Time {
///         ghost laws = { choice_of time_arms ⟦<TimeArms as Arms>⟧.arm_laws refl };
///
///         fn with_arm<U: UsesArm>(&self, using: U) -> U::Answer {
///             match self {
///                 Time::Utc(time) => using.use_arm(time),
///                 Time::General(time) => using.use_arm(time),
///             }
///         }
///     }
///
/// The last word of `laws` says that no two arms have the same class and the same tag number. It says too that each arm
/// has the class that its row says. It is refused there where one is not so.
pub trait LawfulChoice: HasKind<Kind = ChoiceKind> + DynTagged + Sized {
    /// How a value is one of an arm, and the arms, with the laws of these.
    ghost laws: { LawfulChoiceOf Self };

    /// Uses the value of the arm that it is.
    fn with_arm<U: UsesArm>(&self, using: U) -> U::Answer
        ensures { U.answers (laws.arms.arm_of (laws.as_arms self.now)) result };
}

/// A choice that is made of its arms.
///
///     impl OfArms for Time {
///         type Arms = TimeArms;
///
///         ghost as_arms = { time_arms };
///
///         fn of_arms(arms: TimeArms) -> Time {
///             match arms {
///                 Or::This(time) => Time::Utc(time),
///                 Or::Other(Or::This(time)) => Time::General(time),
///                 Or::Other(Or::Other(none)) => match none {},
///             }
///         }
///     }
// The arms are no type of `LawfulChoice`. Where they were, `<Source as Grammar>` could not be quoted with values under
// tags among the arms. The checker said "cannot state an item with such a type in a bound".
pub trait OfArms: LawfulChoice {
    /// Its arms.
    type Arms;

    /// How a value is one of an arm, as its laws say it.
    ghost as_arms: { Self → Self.Arms };

    /// The value of this arm.
    fn of_arms(arms: Self::Arms) -> Self
        ensures { as_arms result ≡ arms };
}

/// A choice that is read by DER, its arms by DER.
///
///     impl<'a> ReadsChoice<'a> for Time {
///         ghost choice_gives = { ChoiceReads time_tags time_arms ⟦<TimeArms as ReadsArms<'a>>⟧.arms_give };
///
///         fn read_choice(alloc: Global, octets: &'a [u8]) -> ParseResult<'a, Time, Error> {
///             choice_by_der(alloc, octets)
///         }
///     }
pub trait ReadsChoice<'a>: LawfulChoice {
    /// What reading may answer, with the refusal of the arm. Of a choice that leaves it out clauses say of the refusal
    /// of an arm only that it is final. It is that of its arms: `ChoiceReads` with their classes and tag numbers, how a
    /// value is one of an arm, and `arms_give` of [`ReadsArms`].
    ghost choice_gives: { List ℕ → Result (List ℕ × Self) (Refusal Error) → Type 0 } = { Unspecified };

    /// Reads a value of the arm whose class and tag number the element has that begins the octets. Where no arm has its
    /// class it is refused with `UnexpectedClass`, and with `UnexpectedTag` where none of its class has its tag number.
    /// Neither names what was expected.
    fn read_choice(alloc: Global, octets: &'a [u8]) -> ParseResult<'a, Self, Error>
        ensures answers { AnswersByDer (grammar_of_choice Self.laws) Self.laws.arms.grammar.tags
            octets.now (seen result) }
        ensures gives { Self.choice_gives octets.now (seen result) };
}

/// A choice that an element converts to, and so is read by BER.
///
///     impl<'a> ReadsChoiceByBer<'a> for Time {
///         fn choice_of_any(alloc: Global, any: Any<'a>) -> Result<Time, Error> {
///             choice_of_element(alloc, any)
///         }
///     }
pub trait ReadsChoiceByBer<'a>: LawfulChoice {
    /// What the conversion may answer, with the refusal of the arm, as `choice_gives`: `ChoiceGives` and `arms_take` of
    /// [`TakesArms`].
    ghost choice_takes: { Any → Result Self Error → Type 0 } = { Unspecified };

    /// The value of the arm whose class and tag number the element has. Refused as by DER where it is of no arm.
    fn choice_of_any(alloc: Global, any: Any<'a>) -> Result<Self, Error>
        ensures answers { AnswersOf (grammar_of_choice Self.laws) Self.laws.arms.grammar.tags any.entry
            result }
        ensures takes { Self.choice_takes any.entry result };
}

/// A choice whose constraints are checked.
///
///     impl ChecksChoice for Time {
///         fn check_choice(any: &Any<'_>) -> Result<(), Error> {
///             check_element::<TimeArms>(any)
///         }
///     }
pub trait ChecksChoice: LawfulChoice {
    /// Refuses an element that is of no arm, or breaks a constraint of its own.
    fn check_choice(any: &Any<'_>) -> Result<(), Error>
        ensures { ChecksOf Self.laws.arms.grammar.Check (parts_of any.now) result };
}

/// The choice at the front of the octets, by DER: what the reader of its arms reads.
fn read_arms<'a, T, A>(alloc: Global, octets: &'a [u8]) -> ParseResult<'a, T, Error>
where
    T: OfArms<Arms = A>,
    A: ReadsArms<'a>,
    ensures { ChoiceReads A.read_arms.tags T.as_arms A.arms_give octets.now (seen result) }
{
    let any = match element_by_der(octets) {
        Ok((_, any)) => any,
        Err(e) => return Err(e),
    };
    let class = any.header.class();
    if !A::knows_class(class) {
        return Err(Err::Error(Error::unexpected_class(None, class)));
    }
    match A::read_arm(alloc, &any, octets) {
        Ok((rest, arms)) => Ok((rest, T::of_arms(arms))),
        Err(e) => Err(e),
    }
}

/// The choice at the front of the octets, by DER.
pub fn choice_by_der<'a, T, A>(alloc: Global, octets: &'a [u8]) -> ParseResult<'a, T, Error>
where
    T: OfArms<Arms = A>,
    A: ReadsArms<'a>,
    ensures answers { AnswersByDer (choice_grammar T.as_arms A.read_arms) A.read_arms.tags octets.now
        (seen result) }
    ensures gives { ChoiceReads A.read_arms.tags T.as_arms A.arms_give octets.now (seen result) }
{
    read_arms(alloc, octets)
}

/// What the conversion to its arms makes of an element.
fn take_arms<'a, T, A>(alloc: Global, any: Any<'a>) -> Result<T, Error>
where
    T: OfArms<Arms = A>,
    A: TakesArms<'a>,
    ensures { ChoiceGives A.take_arms.tags T.as_arms A.arms_take any.entry result }
{
    let class = any.header.class();
    if !A::takes_class(class) {
        return Err(Error::unexpected_class(None, class));
    }
    match A::take_arm(alloc, any) {
        Ok(arms) => Ok(T::of_arms(arms)),
        Err(e) => Err(e),
    }
}

/// The choice that an element is.
pub fn choice_of_element<'a, T, A>(alloc: Global, any: Any<'a>) -> Result<T, Error>
where
    T: OfArms<Arms = A>,
    A: TakesArms<'a>,
    ensures answers { AnswersOf (choice_grammar T.as_arms A.take_arms) A.take_arms.tags any.entry result }
    ensures takes { ChoiceGives A.take_arms.tags T.as_arms A.arms_take any.entry result }
{
    take_arms(alloc, any)
}

/// Refuses an element that is of no arm, or breaks a constraint of its own.
pub fn check_element<'a, A: TakesArms<'a>>(any: &Any<'_>) -> Result<(), Error>
    ensures { ChecksOf A.take_arms.Check (parts_of any.now) result }
{
    A::check_arm(any)
}

impl<T: LawfulChoice> GrammarBy<ChoiceKind> for T {
    ghost grammar_by_kind = { grammar_of_choice T.laws };
}

impl<T: LawfulChoice> LawfulItemBy<ChoiceKind> for T {
    ghost lawful_by_kind = { choice_lawful T.laws.as_arms T.laws.arms.grammar T.laws.lawful };

    fn value_by_kind(&self) {
        self.with_arm(AssertValid);
    }
}

impl<'a, T: ReadsChoice<'a>> FromDerBy<'a, ChoiceReader, Error> for T {
    ghost gives_by_reader = { ReadsChoiceAlso T.laws T.choice_gives };

    fn read_by_der(alloc: Global, bytes: &'a [u8]) -> ParseResult<'a, T, Error> {
        T::read_choice(alloc, bytes)
    }
}

impl<'a, T: ReadsChoiceByBer<'a>> FromAnyBy<'a, ChoiceKind> for T {
    type Refusal = Error;

    ghost gives_by_kind = { TakesChoiceAlso T.laws T.choice_takes };

    fn convert_by_kind(alloc: Global, any: Any<'a>) -> Result<T, Error> {
        T::choice_of_any(alloc, any)
    }
}

impl<T: ChecksChoice> CheckBy<ChoiceKind> for T {
    ghost check_by_kind = { ChecksOf T.laws.arms.grammar.Check };

    fn check_this_kind(any: &Any<'_>) -> Result<(), Error> {
        T::check_choice(any)
    }
}

impl<'a, T> LawfulDerBy<'a, ChoiceReader, Error> for T
where
    T: ReadsChoice<'a> + HasReader<Reader = ChoiceReader>,
{
    ghost exact_by_reader = { λ input answer octets g. g.0.exact octets };

    ghost no_memory_by_reader = { λ none input answer g. g.0.no_memory none };
}

impl<'a, T: ReadsChoiceByBer<'a>> LawfulBodyBy<'a, ChoiceKind, Error> for T {
    ghost exact_by_kind = { λ any answer octets g. g.0.exact octets };

    ghost no_memory_by_kind = { λ none any e g. of_another e (g.0.no_memory none) };
}

impl<T: ChecksChoice> LawfulCheckBy<ChoiceKind> for T {
    ghost checks_by_kind = { choice_checks T.laws.arms.grammar.Check };
}
