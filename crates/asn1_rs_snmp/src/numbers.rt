//! Numbers under tags of the application class (RFC 3416, 3).
ghost use Rattle.asn1_rs.specs.Prelude.{choice_numbers, choice_of, choice_type, numbers_of_choice, refl};
ghost use Rattle.asn1_rs.specs.declared.choices.arms.Or.TheVariants as arm;
ghost use Rattle.asn1_rs_snmp.specs.declared.numbers.ApplicationNumber.TheVariants as numbers;

use asn1_rs::author::{
    ArmNumbers, Arms, ChecksChoice, ChoiceKind, ChoiceReader, HasKind, HasReader, LawfulChoice,
    LawfulType, Never, OfArms, Or, ReadsChoiceByBer, TellsArms, ToldByNumber, ToldChoice, UsesArm,
    check_arms, choice_of_element,
};
use asn1_rs::{Any, ApplicationImplicit, Class, DynTagged, Error, Tag};
use std::alloc::Global;

/// A number under a tag of the application class (RFC 2578, 7.1).
///
///     counter-value           [APPLICATION 1] IMPLICIT INTEGER
///     unsigned-integer-value  [APPLICATION 2] IMPLICIT INTEGER
///     timeticks-value         [APPLICATION 3] IMPLICIT INTEGER
///     big-counter-value       [APPLICATION 6] IMPLICIT INTEGER
#[derive(Debug, PartialEq, Eq, Drop)]
pub enum ApplicationNumber {
    Counter(Counter32),
    Unsigned(Unsigned32),
    TimeTicks(TimeTicks),
    BigCounter(Counter64),
}

/// A count that wraps.
pub type Counter32 = ApplicationImplicit<u32, Error, 1>;

/// A number, or a gauge.
pub type Unsigned32 = ApplicationImplicit<u32, Error, 2>;

/// Hundredths of a second.
pub type TimeTicks = ApplicationImplicit<u32, Error, 3>;

/// A large count that wraps.
pub type Counter64 = ApplicationImplicit<u64, Error, 6>;

/// Its arms.
pub type ApplicationNumberArms = Or<
    Counter32,
    Or<Unsigned32, Or<TimeTicks, Or<Counter64, Never, 1>, 1>, 1>,
    1,
>;

impl HasKind for ApplicationNumber {
    type Kind = ChoiceKind;
}

impl HasReader for ApplicationNumber {
    type Reader = ChoiceReader;
}

impl DynTagged for ApplicationNumber {
    ghost dyn_tag = { λ x. elim x [
      | numbers.Counter x ↦ record { 0 = 1 }
      | numbers.Unsigned x ↦ record { 0 = 2 }
      | numbers.TimeTicks x ↦ record { 0 = 3 }
      | numbers.BigCounter x ↦ record { 0 = 6 }
    ] };

    fn tag(&self) -> Tag {
        match self {
            ApplicationNumber::Counter(counter) => counter.tag(),
            ApplicationNumber::Unsigned(unsigned) => unsigned.tag(),
            ApplicationNumber::TimeTicks(ticks) => ticks.tag(),
            ApplicationNumber::BigCounter(counter) => counter.tag(),
        }
    }
}

impl LawfulChoice for ApplicationNumber {
    ghost laws = { choice_of (λ x. elim x [
      | numbers.Counter x ↦ arm.This x
      | numbers.Unsigned x ↦ arm.Other (arm.This x)
      | numbers.TimeTicks x ↦ arm.Other (arm.Other (arm.This x))
      | numbers.BigCounter x ↦ arm.Other (arm.Other (arm.Other (arm.This x)))
    ])
        ⟦<ApplicationNumberArms as Arms>⟧.arm_laws refl };

    fn with_arm<U: UsesArm>(&self, using: U) -> U::Answer {
        match self {
            ApplicationNumber::Counter(counter) => using.use_arm(counter),
            ApplicationNumber::Unsigned(unsigned) => using.use_arm(unsigned),
            ApplicationNumber::TimeTicks(ticks) => using.use_arm(ticks),
            ApplicationNumber::BigCounter(counter) => using.use_arm(counter),
        }
    }
}

impl OfArms for ApplicationNumber {
    type Arms = ApplicationNumberArms;

    ghost as_arms = { λ x. elim x [
      | numbers.Counter x ↦ arm.This x
      | numbers.Unsigned x ↦ arm.Other (arm.This x)
      | numbers.TimeTicks x ↦ arm.Other (arm.Other (arm.This x))
      | numbers.BigCounter x ↦ arm.Other (arm.Other (arm.Other (arm.This x)))
    ] };

    fn of_arms(arms: ApplicationNumberArms) -> ApplicationNumber {
        match arms {
            Or::This(counter) => ApplicationNumber::Counter(counter),
            Or::Other(Or::This(unsigned)) => ApplicationNumber::Unsigned(unsigned),
            Or::Other(Or::Other(Or::This(ticks))) => ApplicationNumber::TimeTicks(ticks),
            Or::Other(Or::Other(Or::Other(Or::This(counter)))) => ApplicationNumber::BigCounter(
                counter,
            ),
            Or::Other(Or::Other(Or::Other(Or::Other(none)))) => match none {},
        }
    }
}

impl<'a> ReadsChoiceByBer<'a> for ApplicationNumber {
    fn choice_of_any(alloc: Global, any: Any<'a>) -> Result<ApplicationNumber, Error> {
        choice_of_element(alloc, any)
    }
}

impl ChecksChoice for ApplicationNumber {
    fn check_choice(any: &Any<'_>) -> Result<(), Error> {
        check_arms::<ApplicationNumberArms>(any)
    }
}

/// It may be an arm of another choice.
impl ToldChoice for ApplicationNumber {
    fn has_element(any: &Any<'_>) -> bool {
        <ApplicationNumberArms as TellsArms>::is_element_of_an_arm(any)
    }

    fn has_class(class: Class) -> bool {
        <ApplicationNumberArms as TellsArms>::is_class_of_an_arm(class)
    }
}

impl ToldByNumber for ApplicationNumber {
    ghost numbers = { numbers_of_choice ⟦<ApplicationNumber as LawfulChoice>⟧.laws };

    fn has_number(tag: Tag) -> bool {
        <ApplicationNumberArms as ArmNumbers>::is_of_an_arm(tag)
    }

    ghost told_by_number = { choice_numbers ⟦<ApplicationNumber as LawfulChoice>⟧.laws };
}

/// It may be a field.
impl LawfulType for ApplicationNumber {
    ghost type_laws = { choice_type ⟦<ApplicationNumber as LawfulChoice>⟧.laws };
}
