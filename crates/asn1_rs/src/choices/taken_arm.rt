//! An arm that is told to the checker by what its reader by BER answers, and by nothing else.
ghost use Rattle.std.specs.Prelude.{◌≡◌, ◌≢◌, ◌∷◌, ℕ, List, Result, Err, false};
ghost use Rattle.asn1_rs.specs.Prelude.{class_number, Error, has_a_class, is_one_of, IsOctets, OutOfMemory, parts_of};
ghost use Rattle.x690.specs.Elements.{Parts};
ghost use Rattle.asn1_headers.specs.Answers.{IsOther};
ghost use Rattle.asn1_rs.specs.declared.asn1_types.any.Any.{Any};
ghost use Rattle.asn1_rs.specs.Choices.{is_of_tag, or_arms, OrChecks, OrGives};
ghost use Rattle.asn1_rs.specs.Grammar.{TakesBody};
ghost use Rattle.asn1_rs.specs.Grammar.Item.{ItemGrammar, IsLawfulItem};
ghost use Rattle.asn1_rs.specs.Kinds.{IsExactCheck};
ghost use Rattle.asn1_rs.specs.Laws.Choices.Readers.{not_memory, or_checks, or_tagged, or_takes, or_takes_other, or_takes_never_oom};
ghost use Rattle.asn1_rs.specs.Laws.Structs.Rows.{or_neither};
ghost use Rattle.asn1_rs.specs.Choices.Within.{GivesWithin, other_within, tagged_within, takes_within, within};

use crate::asn1_types::any::Any;
use crate::choices::arms::{ArmNumbers, Or, TakesArms};
use crate::choices::told::is_of_arm;
use asn1_headers::class::Class;
use asn1_headers::error::Error;
use asn1_headers::tag::Tag;
use std::alloc::Global;
use std::marker::PhantomData;

/// A type that an element converts to by BER, with the laws that an arm has.
///
/// Both functions are calls of the library. Of a struct under an implicit tag the laws are those of
/// `specs/TaggedStructs.antt`. `crates/asn1_rs_ldap` has one, a search under its tag. `M` is a type of the
/// author's crate, and says whose arm it is. An impl of another crate's trait must name such a type.
pub trait TakenArm<'a, M>: Sized {
    /// What it is read from.
    ghost item: { ItemGrammar Self };

    /// What its conversion may answer.
    ghost takes: { Any → Result Self Error → Type 0 };

    /// What its check may answer.
    ghost check_may: { Parts → Result (Unit {0}) Error → Type 0 };

    /// The value that an element is.
    fn take(alloc: Global, any: Any<'a>) -> Result<Self, Error>
        ensures { takes any.entry result };

    /// Refuses an element that breaks a constraint.
    fn check(any: &Any<'_>) -> Result<(), Error>
        ensures { check_may (parts_of any.now) result };

    /// It is a lawful item.
    ghost lawful: { IsLawfulItem Self.item };

    /// The conversion is exact.
    ghost exact: { (any : Any) (answer : Result Self Error) → IsOctets any.content.now → Self.takes any answer →
        TakesBody Self.item.Body Self.item.value Self.item.allocates (λ (e f : Error). f ≡ e)
        (parts_of any) answer };

    /// It is not out of memory where nothing allocates.
    ghost never_oom: { Self.item.allocates ≡ false → (any : Any) (e : Error) → Self.takes any (Err e) →
        IsOther (λ (x y : Error). y ≡ x) e };

    /// The check is exact.
    ghost checks: { IsExactCheck Self.check_may Self.item.Check };
}

/// An arm with this class and this tag number, or one of the others.
///
/// The library's arm `Or` asks for all that a type of the library is asked for. This is more than the checker writes
/// out of a value under an implicit tag whose type has a large field. The arm here asks for the reader of the value
/// alone.
#[derive(Drop)]
pub struct OrTaken<T, R, M, const CLASS: u8, const TAG: u32> {
    /// The value, or one of the others.
    pub arms: Or<T, R, CLASS>,
    /// Whose arm it is.
    pub of: PhantomData<M>,
}

impl<'a, T, R, M, const CLASS: u8, const TAG: u32> TakesArms<'a> for OrTaken<T, R, M, CLASS, TAG>
where
    T: TakenArm<'a, M>,
    R: TakesArms<'a>,
{
    ghost take_arms = { within (λ x. x.arms) (or_arms CLASS TAG T.item R.take_arms) };

    ghost arms_take = { λ any. GivesWithin (λ x. x.arms)
        (OrGives (is_of_tag CLASS TAG (parts_of any).id) (T.takes any) (R.arms_take any)) };

    ghost arms_check = { OrChecks CLASS TAG T.check_may R.arms_check };

    fn takes_class(class: Class) -> bool {
        class.number() == CLASS || R::takes_class(class)
    }

    fn take_arm(alloc: Global, any: Any<'a>) -> Result<Self, Error> {
        if is_of_arm(CLASS, Tag(TAG), &any) {
            return match T::take(alloc, any) {
                Ok(value) => Ok(OrTaken {
                    arms: Or::This(value),
                    of: PhantomData,
                }),
                Err(e) => Err(e),
            };
        }
        match R::take_arm(alloc, any) {
            Ok(others) => Ok(OrTaken {
                arms: Or::Other(others),
                of: PhantomData,
            }),
            Err(e) => Err(e),
        }
    }

    fn check_arm(any: &Any<'_>) -> Result<(), Error> {
        if is_of_arm(CLASS, Tag(TAG), any) {
            return T::check(any);
        }
        R::check_arm(any)
    }

    ghost tagged_arms = { tagged_within (λ x. x.arms) (or_arms CLASS TAG T.item R.take_arms)
        (or_tagged CLASS TAG T.item R.take_arms T.lawful R.tagged_arms) };

    ghost exact_take = { takes_within (λ x. x.arms) (or_arms CLASS TAG T.item R.take_arms)
        (λ any. OrGives (is_of_tag CLASS TAG (parts_of any).id) (T.takes any) (R.arms_take any))
        (or_takes CLASS TAG T.item R.take_arms T.takes R.arms_take T.exact R.exact_take) };

    ghost never_oom_take = { λ none. or_takes_never_oom CLASS TAG T.item R.take_arms T.takes R.arms_take
        (λ e. e ≢ OutOfMemory)
        (λ any e g. not_memory e
        (T.never_oom (or_neither T.item.allocates R.take_arms.allocates none).0 any e g))
        (R.never_oom_take (or_neither T.item.allocates R.take_arms.allocates none).1) };

    ghost other_take = { other_within (λ x. x.arms) (or_arms CLASS TAG T.item R.take_arms)
        (λ any. OrGives (is_of_tag CLASS TAG (parts_of any).id) (T.takes any) (R.arms_take any))
        (or_takes_other CLASS TAG T.item R.take_arms T.takes R.arms_take R.other_take) };

    ghost exact_check = { or_checks CLASS TAG T.item R.take_arms T.check_may R.arms_check T.checks
        R.exact_check };
}

impl<T, R: ArmNumbers, M, const CLASS: u8, const TAG: u32> ArmNumbers
    for OrTaken<T, R, M, CLASS, TAG> {
    ghost arm_numbers = { TAG ∷ R.arm_numbers };

    fn is_of_an_arm(tag: Tag) -> bool {
        tag.0 == TAG || R::is_of_an_arm(tag)
    }
}
