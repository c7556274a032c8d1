//! Values of universal types (RFC 3416, 3).
ghost use Rattle.asn1_rs.specs.Prelude.{ChecksOf, choice_numbers, choice_of, choice_type, class_number, has_a_class};
ghost use Rattle.asn1_rs.specs.Prelude.{has_a_tag, is_one_of, numbers_of_choice, parts_of, refl};
ghost use Rattle.std.specs.Prelude.{◌≡◌, ◌≤◌, length};
ghost use Rattle.asn1_rs.specs.OctetString.{string_octets};
ghost use Rattle.asn1_rs.specs.declared.choices.arms.Or.TheVariants as arm;
ghost use Rattle.asn1_rs_snmp.specs.declared.simple.SimpleSyntax.TheVariants as simples;

use asn1_rs::author::{
    ArmNumbers, Arms, ChecksChoice, ChoiceKind, ChoiceReader, HasKind, HasReader, LawfulChoice,
    LawfulType, Never, OfArms, Or, OrUniversal, ReadsChoiceByBer, TellsArms, ToldByNumber,
    ToldChoice, UsesArm, check_arms, choice_of_element,
};
use asn1_rs::{Any, Class, DynTagged, Error, OctetString, Oid, Tag};
use asn1_rs_profiles::{Refined, Size};
use std::alloc::Global;

/// A value of a type without a tag of its own.
///
///     SimpleSyntax ::= CHOICE {
///         integer-value   INTEGER,
///         string-value    OCTET STRING,
///         objectID-value  OBJECT IDENTIFIER }
#[derive(Debug, PartialEq, Eq, Drop)]
pub enum SimpleSyntax<'a> {
    Integer(i32),
    String(ShortString<'a>),
    ObjectId(Oid<'a>),
}

/// Octets, of a size that each agent takes (RFC 2578, 7.1.2).
pub type ShortString<'a> = Refined<OctetString<'a>, Size<0, 65535>>;

/// Its arms.
pub type SimpleSyntaxArms<'a> = OrUniversal<
    i32,
    OrUniversal<ShortString<'a>, OrUniversal<Oid<'a>, Never>>,
>;

impl HasKind for SimpleSyntax<'_> {
    type Kind = ChoiceKind;
}

impl HasReader for SimpleSyntax<'_> {
    type Reader = ChoiceReader;
}

impl<'a> DynTagged for SimpleSyntax<'a> {
    ghost dyn_tag = { λ x. elim x [
      | simples.Integer x ↦ record { 0 = 2 }
      | simples.String x ↦ record { 0 = 4 }
      | simples.ObjectId x ↦ record { 0 = 6 }
    ] };

    fn tag(&self) -> Tag {
        match self {
            SimpleSyntax::Integer(integer) => integer.tag(),
            SimpleSyntax::String(string) => string.tag(),
            SimpleSyntax::ObjectId(object_id) => object_id.tag(),
        }
    }
}

impl<'a> LawfulChoice for SimpleSyntax<'a> {
    ghost laws = { choice_of (λ x. elim x [
      | simples.Integer x ↦ arm.This x
      | simples.String x ↦ arm.Other (arm.This x)
      | simples.ObjectId x ↦ arm.Other (arm.Other (arm.This x))
    ])
        ⟦<SimpleSyntaxArms<'a> as Arms>⟧.arm_laws refl };

    fn with_arm<U: UsesArm>(&self, using: U) -> U::Answer {
        match self {
            SimpleSyntax::Integer(integer) => using.use_arm(integer),
            SimpleSyntax::String(string) => using.use_arm(string),
            SimpleSyntax::ObjectId(object_id) => using.use_arm(object_id),
        }
    }
}

impl<'a> OfArms for SimpleSyntax<'a> {
    type Arms = SimpleSyntaxArms<'a>;

    ghost as_arms = { λ x. elim x [
      | simples.Integer x ↦ arm.This x
      | simples.String x ↦ arm.Other (arm.This x)
      | simples.ObjectId x ↦ arm.Other (arm.Other (arm.This x))
    ] };

    fn of_arms(arms: SimpleSyntaxArms<'a>) -> SimpleSyntax<'a> {
        match arms {
            Or::This(integer) => SimpleSyntax::Integer(integer),
            Or::Other(Or::This(string)) => SimpleSyntax::String(string),
            Or::Other(Or::Other(Or::This(object_id))) => SimpleSyntax::ObjectId(object_id),
            Or::Other(Or::Other(Or::Other(none))) => match none {},
        }
    }
}

impl<'a> ReadsChoiceByBer<'a> for SimpleSyntax<'a> {
    fn choice_of_any(alloc: Global, any: Any<'a>) -> Result<SimpleSyntax<'a>, Error> {
        choice_of_element(alloc, any)
    }
}

impl<'a> ChecksChoice for SimpleSyntax<'a> {
    fn check_choice(any: &Any<'_>) -> Result<(), Error>
        ensures { ChecksOf ⟦<SimpleSyntax<'a> as LawfulChoice>⟧.laws.arms.grammar.Check
            (parts_of any.now) result }
    {
        check_arms::<SimpleSyntaxArms<'a>>(any)
    }
}

/// It may be an arm of another choice.
impl<'a> ToldChoice for SimpleSyntax<'a> {
    fn has_element(any: &Any<'_>) -> bool
        ensures { result ≡ has_a_tag ⟦<SimpleSyntax<'a> as LawfulChoice>⟧.laws.arms.grammar.tags
            (parts_of any.now).id }
    {
        <SimpleSyntaxArms<'a> as TellsArms>::is_element_of_an_arm(any)
    }

    fn has_class(class: Class) -> bool
        ensures { result ≡ has_a_class ⟦<SimpleSyntax<'a> as LawfulChoice>⟧.laws.arms.grammar.tags
            (class_number class) }
    {
        <SimpleSyntaxArms<'a> as TellsArms>::is_class_of_an_arm(class)
    }
}

impl<'a> ToldByNumber for SimpleSyntax<'a> {
    ghost numbers = { numbers_of_choice ⟦<SimpleSyntax<'a> as LawfulChoice>⟧.laws };

    fn has_number(tag: Tag) -> bool
        ensures { result ≡ is_one_of tag.0
            (numbers_of_choice ⟦<SimpleSyntax<'a> as LawfulChoice>⟧.laws) }
    {
        <SimpleSyntaxArms<'a> as ArmNumbers>::is_of_an_arm(tag)
    }

    ghost told_by_number = { choice_numbers ⟦<SimpleSyntax<'a> as LawfulChoice>⟧.laws };
}

/// It may be a field.
impl<'a> LawfulType for SimpleSyntax<'a> {
    ghost type_laws = { choice_type ⟦<SimpleSyntax<'a> as LawfulChoice>⟧.laws };
}

/// A string in hand is no longer than each agent takes.
pub fn is_short(string: &ShortString<'_>)
    ensures { length (string_octets string.now.value) ≤ 65535 }
{}
