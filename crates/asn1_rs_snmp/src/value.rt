//! Values of variables (RFC 3416, 3).
ghost use Rattle.asn1_rs.specs.Prelude.{ChecksOf, choice_numbers, choice_of, choice_type, class_number, has_a_class};
ghost use Rattle.asn1_rs.specs.Prelude.{has_a_tag, is_one_of, numbers_of_choice, parts_of, refl};
ghost use Rattle.std.specs.Prelude.{◌≡◌};
ghost use Rattle.asn1_rs.specs.declared.choices.arms.Or.TheVariants as arm;
ghost use Rattle.asn1_rs.specs.declared.choices.nested.OrChoice.TheVariants as part;
ghost use Rattle.asn1_rs_snmp.specs.declared.value.BindingValue.TheVariants as values;

use crate::object::ObjectSyntax;
use asn1_rs::author::{
    ArmNumbers, Arms, ChecksChoice, ChoiceKind, ChoiceReader, HasKind, HasReader, LawfulChoice,
    LawfulType, Never, OfArms, Or, OrChoice, OrTagged, OrUniversal, ReadsChoiceByBer, TellsArms,
    ToldByNumber, ToldChoice, UsesArm, check_arms, choice_of_element,
};
use asn1_rs::{Any, Class, DynTagged, Error, Null, Tag, TaggedImplicit};
use std::alloc::Global;

/// The value of a variable, or why there is none.
///
///     CHOICE {
///         value           ObjectSyntax,
///         unSpecified     NULL,
///         noSuchObject    [0] IMPLICIT NULL,
///         noSuchInstance  [1] IMPLICIT NULL,
///         endOfMibView    [2] IMPLICIT NULL }
#[derive(Debug, PartialEq, Eq, Drop)]
pub enum BindingValue<'a> {
    Value(ObjectSyntax<'a>),
    Unspecified(Null),
    NoSuchObject(NoSuchObject),
    NoSuchInstance(NoSuchInstance),
    EndOfView(EndOfView),
}

/// That there is no such object.
pub type NoSuchObject = TaggedImplicit<Null, Error, 0>;

/// That there is no such instance.
pub type NoSuchInstance = TaggedImplicit<Null, Error, 1>;

/// That no variable follows.
pub type EndOfView = TaggedImplicit<Null, Error, 2>;

/// Its arms.
pub type BindingValueArms<'a> = OrChoice<
    ObjectSyntax<'a>,
    OrUniversal<Null, OrTagged<NoSuchObject, OrTagged<NoSuchInstance, OrTagged<EndOfView, Never>>>>,
>;

impl HasKind for BindingValue<'_> {
    type Kind = ChoiceKind;
}

impl HasReader for BindingValue<'_> {
    type Reader = ChoiceReader;
}

impl<'a> DynTagged for BindingValue<'a> {
    ghost dyn_tag = { λ x. elim x [
      | values.Value x ↦ ⟦<ObjectSyntax<'a> as DynTagged>⟧.dyn_tag x
      | values.Unspecified x ↦ record { 0 = 5 }
      | values.NoSuchObject x ↦ record { 0 = 0 }
      | values.NoSuchInstance x ↦ record { 0 = 1 }
      | values.EndOfView x ↦ record { 0 = 2 }
    ] };

    fn tag(&self) -> Tag {
        match self {
            BindingValue::Value(value) => value.tag(),
            BindingValue::Unspecified(null) => null.tag(),
            BindingValue::NoSuchObject(none) => none.tag(),
            BindingValue::NoSuchInstance(none) => none.tag(),
            BindingValue::EndOfView(end) => end.tag(),
        }
    }
}

impl<'a> LawfulChoice for BindingValue<'a> {
    ghost laws = { choice_of (λ x. elim x [
      | values.Value x ↦ part.This x
      | values.Unspecified x ↦ part.Other (arm.This x)
      | values.NoSuchObject x ↦ part.Other (arm.Other (arm.This x))
      | values.NoSuchInstance x ↦ part.Other (arm.Other (arm.Other (arm.This x)))
      | values.EndOfView x ↦ part.Other (arm.Other (arm.Other (arm.Other (arm.This x))))
    ])
        ⟦<BindingValueArms<'a> as Arms>⟧.arm_laws refl };

    fn with_arm<U: UsesArm>(&self, using: U) -> U::Answer {
        match self {
            BindingValue::Value(value) => value.with_arm(using),
            BindingValue::Unspecified(null) => using.use_arm(null),
            BindingValue::NoSuchObject(none) => using.use_arm(none),
            BindingValue::NoSuchInstance(none) => using.use_arm(none),
            BindingValue::EndOfView(end) => using.use_arm(end),
        }
    }
}

impl<'a> OfArms for BindingValue<'a> {
    type Arms = BindingValueArms<'a>;

    ghost as_arms = { λ x. elim x [
      | values.Value x ↦ part.This x
      | values.Unspecified x ↦ part.Other (arm.This x)
      | values.NoSuchObject x ↦ part.Other (arm.Other (arm.This x))
      | values.NoSuchInstance x ↦ part.Other (arm.Other (arm.Other (arm.This x)))
      | values.EndOfView x ↦ part.Other (arm.Other (arm.Other (arm.Other (arm.This x))))
    ] };

    fn of_arms(arms: BindingValueArms<'a>) -> BindingValue<'a> {
        match arms {
            OrChoice::This(value) => BindingValue::Value(value),
            OrChoice::Other(Or::This(null)) => BindingValue::Unspecified(null),
            OrChoice::Other(Or::Other(Or::This(none))) => BindingValue::NoSuchObject(none),
            OrChoice::Other(Or::Other(Or::Other(Or::This(none)))) => BindingValue::NoSuchInstance(
                none,
            ),
            OrChoice::Other(Or::Other(Or::Other(Or::Other(Or::This(end))))) =>
                BindingValue::EndOfView(end),
            OrChoice::Other(Or::Other(Or::Other(Or::Other(Or::Other(none))))) => match none {},
        }
    }
}

impl<'a> ReadsChoiceByBer<'a> for BindingValue<'a> {
    fn choice_of_any(alloc: Global, any: Any<'a>) -> Result<BindingValue<'a>, Error> {
        choice_of_element(alloc, any)
    }
}

impl<'a> ChecksChoice for BindingValue<'a> {
    fn check_choice(any: &Any<'_>) -> Result<(), Error>
        ensures { ChecksOf ⟦<BindingValue<'a> as LawfulChoice>⟧.laws.arms.grammar.Check
            (parts_of any.now) result }
    {
        check_arms::<BindingValueArms<'a>>(any)
    }
}

/// It may be an arm of another choice.
impl<'a> ToldChoice for BindingValue<'a> {
    fn has_element(any: &Any<'_>) -> bool
        ensures { result ≡ has_a_tag ⟦<BindingValue<'a> as LawfulChoice>⟧.laws.arms.grammar.tags
            (parts_of any.now).id }
    {
        <BindingValueArms<'a> as TellsArms>::is_element_of_an_arm(any)
    }

    fn has_class(class: Class) -> bool
        ensures { result ≡ has_a_class ⟦<BindingValue<'a> as LawfulChoice>⟧.laws.arms.grammar.tags
            (class_number class) }
    {
        <BindingValueArms<'a> as TellsArms>::is_class_of_an_arm(class)
    }
}

impl<'a> ToldByNumber for BindingValue<'a> {
    ghost numbers = { numbers_of_choice ⟦<BindingValue<'a> as LawfulChoice>⟧.laws };

    fn has_number(tag: Tag) -> bool
        ensures { result ≡ is_one_of tag.0
            (numbers_of_choice ⟦<BindingValue<'a> as LawfulChoice>⟧.laws) }
    {
        <BindingValueArms<'a> as ArmNumbers>::is_of_an_arm(tag)
    }

    ghost told_by_number = { choice_numbers ⟦<BindingValue<'a> as LawfulChoice>⟧.laws };
}

/// It may be a field.
impl<'a> LawfulType for BindingValue<'a> {
    ghost type_laws = { choice_type ⟦<BindingValue<'a> as LawfulChoice>⟧.laws };
}
