//! Arms whose constraints are checked, without the readers of these. So a choice that holds values of any type of
//! choices is checked without a lifetime.
ghost use Rattle.std.specs.Prelude.{◌≡◌, None, Result};
ghost use Rattle.x690.specs.Elements.{Parts};
ghost use Rattle.asn1_rs.specs.Prelude.{ChecksOf, Error, parts_of};
ghost use Rattle.asn1_headers.specs.declared.error.Error.TheVariants as errors;
ghost use Rattle.asn1_rs.specs.Choices.{ArmsGrammar, OrChecks, no_arms, or_arms};
ghost use Rattle.asn1_rs.specs.Choices.Data.{grammar_of_choice};
ghost use Rattle.asn1_rs.specs.Kinds.{IsExactCheck};
ghost use Rattle.asn1_rs.specs.Laws.Choices.Readers.{NoArmChecks, choice_checks, none_checks, or_checks};
ghost use Rattle.asn1_rs.specs.Laws.Choices.Nested.Readers.{checks_exact};
ghost use Rattle.asn1_rs.specs.Choices.Nested.{OrChoiceChecks, or_choice};

use crate::asn1_types::any::Any;
use crate::choices::ChecksChoice;
use crate::choices::arms::{Never, Or};
use crate::choices::nested::OrChoice;
use crate::choices::told::{ToldChoice, is_of_arm};
use crate::laws::LawfulCheck;
use crate::traits::Tagged;
use asn1_headers::error::Error;

/// Arms whose constraints are checked.
pub trait ChecksArms: Sized {
    /// What they are read from.
    ghost checked_arms: { ArmsGrammar Self };

    /// What the check of an element of these parts may answer.
    ghost arms_check: { Parts → Result (Unit {0}) Error → Type 0 };

    /// Refuses an element that breaks a constraint of the arm whose class and tag number it has.
    fn check_its_arm(any: &Any<'_>) -> Result<(), Error>
        ensures { arms_check (parts_of any.now) result };

    /// The check is exact.
    ghost exact_check: { IsExactCheck Self.arms_check Self.checked_arms.Check };
}

/// The refusal of an element that is of no arm.
fn no_arm(any: &Any<'_>) -> Error
    ensures { result ≡ errors.UnexpectedTag None (record { 0 = (parts_of any.now).id.number }) }
{
    Error::unexpected_tag(None, any.header.tag())
}

impl ChecksArms for Never {
    ghost checked_arms = { no_arms };

    ghost arms_check = { NoArmChecks };

    fn check_its_arm(any: &Any<'_>) -> Result<(), Error> {
        Err(no_arm(any))
    }

    ghost exact_check = { none_checks };
}

impl<T, R, const CLASS: u8> ChecksArms for Or<T, R, CLASS>
where
    T: LawfulCheck + Tagged,
    R: ChecksArms,
{
    ghost checked_arms = { or_arms CLASS (T.TAG).0 T.grammar R.checked_arms };

    ghost arms_check = { OrChecks CLASS (T.TAG).0 T.check_gives R.arms_check };

    fn check_its_arm(any: &Any<'_>) -> Result<(), Error> {
        if is_of_arm(CLASS, T::TAG, any) {
            return T::check_constraints(any);
        }
        R::check_its_arm(any)
    }

    ghost exact_check = { or_checks CLASS (T.TAG).0 T.grammar R.checked_arms T.check_gives R.arms_check T.checks
        R.exact_check };
}

impl<C: ChecksChoice + ToldChoice, R: ChecksArms> ChecksArms for OrChoice<C, R> {
    ghost checked_arms = { or_choice C.laws.arms.grammar.tags (grammar_of_choice C.laws) R.checked_arms };

    ghost arms_check = { OrChoiceChecks C.laws.arms.grammar.tags (ChecksOf C.laws.arms.grammar.Check)
        R.arms_check };

    fn check_its_arm(any: &Any<'_>) -> Result<(), Error> {
        if C::has_element(any) {
            return C::check_choice(any);
        }
        R::check_its_arm(any)
    }

    ghost exact_check = { checks_exact C.laws.arms.grammar.tags (grammar_of_choice C.laws) R.checked_arms
        (ChecksOf C.laws.arms.grammar.Check) R.arms_check (choice_checks C.laws.arms.grammar.Check)
        R.exact_check };
}

/// Refuses an element that is of no arm, or breaks a constraint of its own.
pub fn check_arms<A: ChecksArms>(any: &Any<'_>) -> Result<(), Error>
    ensures { ChecksOf A.checked_arms.Check (parts_of any.now) result }
{
    A::check_its_arm(any)
}
