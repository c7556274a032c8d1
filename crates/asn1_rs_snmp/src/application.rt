//! Values under tags of the application class (RFC 3416, 3).
ghost use Rattle.asn1_rs.specs.Prelude.{ChecksOf, choice_numbers, choice_of, choice_type, class_number, has_a_class};
ghost use Rattle.asn1_rs.specs.Prelude.{has_a_tag, is_one_of, numbers_of_choice, parts_of, refl};
ghost use Rattle.std.specs.Prelude.{◌≡◌, length};
ghost use Rattle.asn1_rs.specs.OctetString.{string_octets};
ghost use Rattle.asn1_rs.specs.declared.choices.arms.Or.TheVariants as arm;
ghost use Rattle.asn1_rs.specs.declared.choices.nested.OrChoice.TheVariants as part;
ghost use Rattle.asn1_rs_snmp.specs.declared.application.ApplicationSyntax.TheVariants as wides;

use crate::numbers::ApplicationNumber;
use asn1_rs::author::{
    ArmNumbers, Arms, ChecksChoice, ChoiceKind, ChoiceReader, HasKind, HasReader, LawfulChoice,
    LawfulType, Never, OfArms, Or, OrChoice, ReadsChoiceByBer, TellsArms, ToldByNumber, ToldChoice,
    UsesArm, check_arms, choice_of_element,
};
use asn1_rs::{Any, ApplicationImplicit, Class, DynTagged, Error, OctetString, Tag};
use asn1_rs_profiles::{Refined, Size};
use std::alloc::Global;

/// A value under a tag of the application class.
///
///     ApplicationSyntax ::= CHOICE {
///         ipAddress-value   [APPLICATION 0] IMPLICIT OCTET STRING,
///         arbitrary-value   [APPLICATION 4] IMPLICIT OCTET STRING,
///         and the numbers   }
#[derive(Debug, PartialEq, Eq, Drop)]
pub enum ApplicationSyntax<'a> {
    Number(ApplicationNumber),
    Address(IpAddress<'a>),
    Arbitrary(Opaque<'a>),
}

/// An address of the internet protocol, version 4 (RFC 2578, 7.1.5).
pub type IpAddress<'a> = ApplicationImplicit<Refined<OctetString<'a>, Size<4, 4>>, Error, 0>;

/// Octets of another encoding.
pub type Opaque<'a> = ApplicationImplicit<OctetString<'a>, Error, 4>;

/// Its arms.
pub type ApplicationSyntaxArms<'a> = OrChoice<
    ApplicationNumber,
    Or<IpAddress<'a>, Or<Opaque<'a>, Never, 1>, 1>,
>;

impl HasKind for ApplicationSyntax<'_> {
    type Kind = ChoiceKind;
}

impl HasReader for ApplicationSyntax<'_> {
    type Reader = ChoiceReader;
}

impl<'a> DynTagged for ApplicationSyntax<'a> {
    ghost dyn_tag = { λ x. elim x [
      | wides.Number x ↦ ⟦<ApplicationNumber as DynTagged>⟧.dyn_tag x
      | wides.Address x ↦ record { 0 = 0 }
      | wides.Arbitrary x ↦ record { 0 = 4 }
    ] };

    fn tag(&self) -> Tag {
        match self {
            ApplicationSyntax::Number(number) => number.tag(),
            ApplicationSyntax::Address(address) => address.tag(),
            ApplicationSyntax::Arbitrary(octets) => octets.tag(),
        }
    }
}

impl<'a> LawfulChoice for ApplicationSyntax<'a> {
    ghost laws = { choice_of (λ x. elim x [
      | wides.Number x ↦ part.This x
      | wides.Address x ↦ part.Other (arm.This x)
      | wides.Arbitrary x ↦ part.Other (arm.Other (arm.This x))
    ])
        ⟦<ApplicationSyntaxArms<'a> as Arms>⟧.arm_laws refl };

    fn with_arm<U: UsesArm>(&self, using: U) -> U::Answer {
        match self {
            ApplicationSyntax::Number(number) => number.with_arm(using),
            ApplicationSyntax::Address(address) => using.use_arm(address),
            ApplicationSyntax::Arbitrary(octets) => using.use_arm(octets),
        }
    }
}

impl<'a> OfArms for ApplicationSyntax<'a> {
    type Arms = ApplicationSyntaxArms<'a>;

    ghost as_arms = { λ x. elim x [
      | wides.Number x ↦ part.This x
      | wides.Address x ↦ part.Other (arm.This x)
      | wides.Arbitrary x ↦ part.Other (arm.Other (arm.This x))
    ] };

    fn of_arms(arms: ApplicationSyntaxArms<'a>) -> ApplicationSyntax<'a> {
        match arms {
            OrChoice::This(number) => ApplicationSyntax::Number(number),
            OrChoice::Other(Or::This(address)) => ApplicationSyntax::Address(address),
            OrChoice::Other(Or::Other(Or::This(octets))) => ApplicationSyntax::Arbitrary(octets),
            OrChoice::Other(Or::Other(Or::Other(none))) => match none {},
        }
    }
}

impl<'a> ReadsChoiceByBer<'a> for ApplicationSyntax<'a> {
    fn choice_of_any(alloc: Global, any: Any<'a>) -> Result<ApplicationSyntax<'a>, Error> {
        choice_of_element(alloc, any)
    }
}

impl<'a> ChecksChoice for ApplicationSyntax<'a> {
    fn check_choice(any: &Any<'_>) -> Result<(), Error>
        ensures { ChecksOf ⟦<ApplicationSyntax<'a> as LawfulChoice>⟧.laws.arms.grammar.Check
            (parts_of any.now) result }
    {
        check_arms::<ApplicationSyntaxArms<'a>>(any)
    }
}

/// It may be an arm of another choice.
impl<'a> ToldChoice for ApplicationSyntax<'a> {
    fn has_element(any: &Any<'_>) -> bool
        ensures { result ≡ has_a_tag ⟦<ApplicationSyntax<'a> as LawfulChoice>⟧.laws.arms.grammar.tags
            (parts_of any.now).id }
    {
        <ApplicationSyntaxArms<'a> as TellsArms>::is_element_of_an_arm(any)
    }

    fn has_class(class: Class) -> bool
        ensures { result ≡ has_a_class ⟦<ApplicationSyntax<'a> as LawfulChoice>⟧.laws.arms.grammar.tags
            (class_number class) }
    {
        <ApplicationSyntaxArms<'a> as TellsArms>::is_class_of_an_arm(class)
    }
}

impl<'a> ToldByNumber for ApplicationSyntax<'a> {
    ghost numbers = { numbers_of_choice ⟦<ApplicationSyntax<'a> as LawfulChoice>⟧.laws };

    fn has_number(tag: Tag) -> bool
        ensures { result ≡ is_one_of tag.0
            (numbers_of_choice ⟦<ApplicationSyntax<'a> as LawfulChoice>⟧.laws) }
    {
        <ApplicationSyntaxArms<'a> as ArmNumbers>::is_of_an_arm(tag)
    }

    ghost told_by_number = { choice_numbers ⟦<ApplicationSyntax<'a> as LawfulChoice>⟧.laws };
}

/// It may be a field.
impl<'a> LawfulType for ApplicationSyntax<'a> {
    ghost type_laws = { choice_type ⟦<ApplicationSyntax<'a> as LawfulChoice>⟧.laws };
}

/// An address in hand is an address of version 4.
pub fn has_four_octets(address: &IpAddress<'_>)
    ensures { length (string_octets address.now.inner.value) ≡ 4 }
{}
