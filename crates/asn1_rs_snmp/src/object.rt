//! Values of objects (RFC 3416, 3).
ghost use Rattle.asn1_rs.specs.Prelude.{ChecksOf, choice_numbers, choice_of, choice_type, class_number, has_a_class};
ghost use Rattle.asn1_rs.specs.Prelude.{has_a_tag, is_one_of, numbers_of_choice, parts_of, refl};
ghost use Rattle.std.specs.Prelude.{◌≡◌};
ghost use Rattle.asn1_rs.specs.declared.choices.nested.OrChoice.TheVariants as part;
ghost use Rattle.asn1_rs_snmp.specs.declared.object.ObjectSyntax.TheVariants as objects;

use crate::application::ApplicationSyntax;
use crate::simple::SimpleSyntax;
use asn1_rs::author::{
    ArmNumbers, Arms, ChecksChoice, ChoiceKind, ChoiceReader, HasKind, HasReader, LawfulChoice,
    LawfulType, Never, OfArms, OrChoice, ReadsChoiceByBer, TellsArms, ToldByNumber, ToldChoice,
    UsesArm, check_arms, choice_of_element,
};
use asn1_rs::{Any, Class, DynTagged, Error, Tag};
use std::alloc::Global;

/// A value of an object.
///
///     ObjectSyntax ::= CHOICE {
///         simple            SimpleSyntax,
///         application-wide  ApplicationSyntax }
#[derive(Debug, PartialEq, Eq, Drop)]
pub enum ObjectSyntax<'a> {
    Simple(SimpleSyntax<'a>),
    ApplicationWide(ApplicationSyntax<'a>),
}

/// Its arms.
pub type ObjectSyntaxArms<'a> = OrChoice<SimpleSyntax<'a>, OrChoice<ApplicationSyntax<'a>, Never>>;

impl HasKind for ObjectSyntax<'_> {
    type Kind = ChoiceKind;
}

impl HasReader for ObjectSyntax<'_> {
    type Reader = ChoiceReader;
}

impl<'a> DynTagged for ObjectSyntax<'a> {
    ghost dyn_tag = { λ x. elim x [
      | objects.Simple x ↦ ⟦<SimpleSyntax<'a> as DynTagged>⟧.dyn_tag x
      | objects.ApplicationWide x ↦ ⟦<ApplicationSyntax<'a> as DynTagged>⟧.dyn_tag x
    ] };

    fn tag(&self) -> Tag {
        match self {
            ObjectSyntax::Simple(simple) => simple.tag(),
            ObjectSyntax::ApplicationWide(wide) => wide.tag(),
        }
    }
}

impl<'a> LawfulChoice for ObjectSyntax<'a> {
    ghost laws = { choice_of (λ x. elim x [
      | objects.Simple x ↦ part.This x
      | objects.ApplicationWide x ↦ part.Other (part.This x)
    ])
        ⟦<ObjectSyntaxArms<'a> as Arms>⟧.arm_laws refl };

    fn with_arm<U: UsesArm>(&self, using: U) -> U::Answer {
        match self {
            ObjectSyntax::Simple(simple) => simple.with_arm(using),
            ObjectSyntax::ApplicationWide(wide) => wide.with_arm(using),
        }
    }
}

impl<'a> OfArms for ObjectSyntax<'a> {
    type Arms = ObjectSyntaxArms<'a>;

    ghost as_arms = { λ x. elim x [
      | objects.Simple x ↦ part.This x
      | objects.ApplicationWide x ↦ part.Other (part.This x)
    ] };

    fn of_arms(arms: ObjectSyntaxArms<'a>) -> ObjectSyntax<'a> {
        match arms {
            OrChoice::This(simple) => ObjectSyntax::Simple(simple),
            OrChoice::Other(OrChoice::This(wide)) => ObjectSyntax::ApplicationWide(wide),
            OrChoice::Other(OrChoice::Other(none)) => match none {},
        }
    }
}

impl<'a> ReadsChoiceByBer<'a> for ObjectSyntax<'a> {
    fn choice_of_any(alloc: Global, any: Any<'a>) -> Result<ObjectSyntax<'a>, Error> {
        choice_of_element(alloc, any)
    }
}

impl<'a> ChecksChoice for ObjectSyntax<'a> {
    fn check_choice(any: &Any<'_>) -> Result<(), Error>
        ensures { ChecksOf ⟦<ObjectSyntax<'a> as LawfulChoice>⟧.laws.arms.grammar.Check
            (parts_of any.now) result }
    {
        check_arms::<ObjectSyntaxArms<'a>>(any)
    }
}

/// It may be an arm of another choice.
impl<'a> ToldChoice for ObjectSyntax<'a> {
    fn has_element(any: &Any<'_>) -> bool
        ensures { result ≡ has_a_tag ⟦<ObjectSyntax<'a> as LawfulChoice>⟧.laws.arms.grammar.tags
            (parts_of any.now).id }
    {
        <ObjectSyntaxArms<'a> as TellsArms>::is_element_of_an_arm(any)
    }

    fn has_class(class: Class) -> bool
        ensures { result ≡ has_a_class ⟦<ObjectSyntax<'a> as LawfulChoice>⟧.laws.arms.grammar.tags
            (class_number class) }
    {
        <ObjectSyntaxArms<'a> as TellsArms>::is_class_of_an_arm(class)
    }
}

impl<'a> ToldByNumber for ObjectSyntax<'a> {
    ghost numbers = { numbers_of_choice ⟦<ObjectSyntax<'a> as LawfulChoice>⟧.laws };

    fn has_number(tag: Tag) -> bool
        ensures { result ≡ is_one_of tag.0
            (numbers_of_choice ⟦<ObjectSyntax<'a> as LawfulChoice>⟧.laws) }
    {
        <ObjectSyntaxArms<'a> as ArmNumbers>::is_of_an_arm(tag)
    }

    ghost told_by_number = { choice_numbers ⟦<ObjectSyntax<'a> as LawfulChoice>⟧.laws };
}

/// It may be a field.
impl<'a> LawfulType for ObjectSyntax<'a> {
    ghost type_laws = { choice_type ⟦<ObjectSyntax<'a> as LawfulChoice>⟧.laws };
}
