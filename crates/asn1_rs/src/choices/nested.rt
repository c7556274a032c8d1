//! A choice, or the other arms behind it.
ghost use Rattle.std.specs.Prelude.{◌≡◌, ◌≢◌, ◌++◌, ℕ, List, Err};
ghost use Rattle.asn1_headers.specs.Answers.{IsOther};
ghost use Rattle.asn1_rs.specs.Prelude.{ChecksOf, Error, has_a_tag, ErrorIs, OutOfMemory, parts_of};
ghost use Rattle.asn1_rs.specs.Choices.Data.{ReadsChoiceAlso, TakesChoiceAlso, grammar_of_choice};
ghost use Rattle.asn1_rs.specs.Laws.Choices.Readers.{choice_checks};
ghost use Rattle.asn1_rs.specs.Laws.Structs.Rows.{or_neither};
ghost use Rattle.asn1_rs.specs.Choices.Nested.{or_choice, OrChoiceReads, OrChoiceGives, OrChoiceChecks};
ghost use Rattle.asn1_rs.specs.Choices.Nested.Data.{choice_before};
ghost use Rattle.asn1_rs.specs.Laws.Choices.Nested.Readers.{or_choice_tagged, reads_exact, reads_never_oom, reads_other};
ghost use Rattle.asn1_rs.specs.Laws.Choices.Nested.Readers.{takes_exact, takes_never_oom, takes_other, checks_exact};

use crate::asn1_types::any::Any;
use crate::choices::arms::{ArmNumbers, Arms, ReadsArms, TakesArms};
use crate::choices::told::ToldChoice;
use crate::choices::{ChecksChoice, LawfulChoice, ReadsChoice, ReadsChoiceByBer};
use crate::structs::numbers::ToldByNumber;
use asn1_headers::class::Class;
use asn1_headers::error::{Error, ParseResult};
use asn1_headers::tag::Tag;
use std::alloc::Global;

/// A value of a choice, or one of the others.
#[derive(Debug, Drop)]
pub enum OrChoice<C, R> {
    /// A value of the choice.
    This(C),
    /// A value of one of the others.
    Other(R),
}

impl<C: LawfulChoice, R: Arms> Arms for OrChoice<C, R> {
    ghost arm_laws = { choice_before C.laws R.arm_laws };
}

impl<C: ToldByNumber, R: ArmNumbers> ArmNumbers for OrChoice<C, R> {
    ghost arm_numbers = { C.numbers ++ R.arm_numbers };

    #[tactic(auto, using(crate::specs::Laws::Choices::Nested::either_number))]
    fn is_of_an_arm(tag: Tag) -> bool {
        C::has_number(tag) || R::is_of_an_arm(tag)
    }
}

impl<'a, C, R> ReadsArms<'a> for OrChoice<C, R>
where
    C: ReadsChoice<'a> + ToldChoice,
    R: ReadsArms<'a>,
{
    ghost read_arms = { or_choice C.laws.arms.grammar.tags (grammar_of_choice C.laws) R.read_arms };

    ghost arms_give = { λ i. OrChoiceReads (has_a_tag C.laws.arms.grammar.tags i)
        (ReadsChoiceAlso C.laws C.choice_gives) (R.arms_give i) };

    #[tactic(auto, using(crate::specs::Laws::Choices::Nested::either_class))]
    fn knows_class(class: Class) -> bool {
        C::has_class(class) || R::knows_class(class)
    }

    fn read_arm(alloc: Global, any: &Any<'_>, octets: &'a [u8]) -> ParseResult<'a, Self, Error> {
        if C::has_element(any) {
            return match C::read_choice(alloc, octets) {
                Ok((rest, value)) => Ok((rest, OrChoice::This(value))),
                Err(e) => Err(e),
            };
        }
        match R::read_arm(alloc, any, octets) {
            Ok((rest, others)) => Ok((rest, OrChoice::Other(others))),
            Err(e) => Err(e),
        }
    }

    ghost arms_tagged = { or_choice_tagged C.laws.arms.grammar.tags (grammar_of_choice C.laws) R.read_arms
        (λ o v w. (w.0, w.1)) R.arms_tagged };

    ghost exact_arms = { reads_exact C.laws.arms.grammar.tags (grammar_of_choice C.laws) R.read_arms
        (ReadsChoiceAlso C.laws C.choice_gives) R.arms_give
        (λ input answer octets g. g.0.exact octets) R.exact_arms };

    ghost never_oom_arms = { λ none. reads_never_oom C.laws.arms.grammar.tags (grammar_of_choice C.laws) R.read_arms
        (ReadsChoiceAlso C.laws C.choice_gives) R.arms_give
        (ErrorIs (IsOther (λ (e f : Error). f ≡ e)))
        (λ input answer g. g.0.no_memory (or_neither C.laws.arms.grammar.allocates R.read_arms.allocates none).0)
        (R.never_oom_arms (or_neither C.laws.arms.grammar.allocates R.read_arms.allocates none).1) };

    ghost other_arms = { reads_other C.laws.arms.grammar.tags (grammar_of_choice C.laws) R.read_arms
        (ReadsChoiceAlso C.laws C.choice_gives) R.arms_give R.other_arms };
}

impl<'a, C, R> TakesArms<'a> for OrChoice<C, R>
where
    C: ReadsChoiceByBer<'a> + ChecksChoice + ToldChoice,
    R: TakesArms<'a>,
{
    ghost take_arms = { or_choice C.laws.arms.grammar.tags (grammar_of_choice C.laws) R.take_arms };

    ghost arms_take = { λ any. OrChoiceGives (has_a_tag C.laws.arms.grammar.tags (parts_of any).id)
        (TakesChoiceAlso C.laws C.choice_takes any) (R.arms_take any) };

    ghost arms_check = { OrChoiceChecks C.laws.arms.grammar.tags (ChecksOf C.laws.arms.grammar.Check)
        R.arms_check };

    #[tactic(auto, using(crate::specs::Laws::Choices::Nested::either_class))]
    fn takes_class(class: Class) -> bool {
        C::has_class(class) || R::takes_class(class)
    }

    fn take_arm(alloc: Global, any: Any<'a>) -> Result<Self, Error> {
        if C::has_element(&any) {
            return match C::choice_of_any(alloc, any) {
                Ok(value) => Ok(OrChoice::This(value)),
                Err(e) => Err(e),
            };
        }
        match R::take_arm(alloc, any) {
            Ok(others) => Ok(OrChoice::Other(others)),
            Err(e) => Err(e),
        }
    }

    fn check_arm(any: &Any<'_>) -> Result<(), Error> {
        if C::has_element(any) {
            return C::check_choice(any);
        }
        R::check_arm(any)
    }

    ghost tagged_arms = { or_choice_tagged C.laws.arms.grammar.tags (grammar_of_choice C.laws) R.take_arms
        (λ o v w. (w.0, w.1)) R.tagged_arms };

    ghost exact_take = { takes_exact C.laws.arms.grammar.tags (grammar_of_choice C.laws) R.take_arms
        (TakesChoiceAlso C.laws C.choice_takes) R.arms_take
        (λ any answer octets g. g.0.exact octets) R.exact_take };

    ghost never_oom_take = { λ none. takes_never_oom C.laws.arms.grammar.tags (grammar_of_choice C.laws) R.take_arms
        (TakesChoiceAlso C.laws C.choice_takes) R.arms_take (λ e. e ≢ OutOfMemory)
        (λ any e g. g.0.no_memory (or_neither C.laws.arms.grammar.allocates R.take_arms.allocates none).0)
        (R.never_oom_take (or_neither C.laws.arms.grammar.allocates R.take_arms.allocates none).1) };

    ghost other_take = { takes_other C.laws.arms.grammar.tags (grammar_of_choice C.laws) R.take_arms
        (TakesChoiceAlso C.laws C.choice_takes) R.arms_take R.other_take };

    ghost exact_check = { checks_exact C.laws.arms.grammar.tags (grammar_of_choice C.laws) R.take_arms
        (ChecksOf C.laws.arms.grammar.Check) R.arms_check (choice_checks C.laws.arms.grammar.Check)
        R.exact_check };
}
