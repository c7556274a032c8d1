//! Filters that compare the value of an attribute, as a part of the choice of filters.
ghost use Rattle.asn1_rs.specs.Prelude.{ChecksOf, choice_numbers, class_number, has_a_class, has_a_tag, is_one_of};
ghost use Rattle.asn1_rs.specs.Prelude.{numbers_of_choice, parts_of};
ghost use Rattle.std.specs.Prelude.{◌≡◌};
ghost use Rattle.asn1_rs_ldap.specs.Filters.{compared_arms, compared_laws, in_compared_arms};
ghost use Rattle.asn1_rs_ldap.specs.declared.compared.Compared.TheVariants as compared;

use crate::AttributeValueAssertion;
use asn1_rs::author::{
    ArmNumbers, ChecksChoice, ChoiceKind, ChoiceReader, HasKind, HasReader, LawfulChoice, Never,
    OfArms, Or, OrTagged, ReadsChoiceByBer, TellsArms, ToldByNumber, ToldChoice, UsesArm,
    check_arms, choice_of_element,
};
use asn1_rs::{Any, Class, DynTagged, Error, Tag, TaggedImplicit};
use std::alloc::Global;

/// An assertion of a value, in place of whose tag a context-specific one stands.
pub type Asserted<'a, const TAG: u32> = TaggedImplicit<AttributeValueAssertion<'a>, Error, TAG>;

/// A filter that compares the value of an attribute.
///
///     equalityMatch   [3] AttributeValueAssertion,
///     greaterOrEqual  [5] AttributeValueAssertion,
///     lessOrEqual     [6] AttributeValueAssertion,
///     approxMatch     [8] AttributeValueAssertion
#[derive(Debug, PartialEq, Eq, Drop)]
pub enum Compared<'a> {
    Equal(Asserted<'a, 3>),
    AtLeast(Asserted<'a, 5>),
    AtMost(Asserted<'a, 6>),
    Approximate(Asserted<'a, 8>),
}

/// Its arms.
pub type ComparedArms<'a> = OrTagged<
    Asserted<'a, 3>,
    OrTagged<Asserted<'a, 5>, OrTagged<Asserted<'a, 6>, OrTagged<Asserted<'a, 8>, Never>>>,
>;

impl HasKind for Compared<'_> {
    type Kind = ChoiceKind;
}

impl HasReader for Compared<'_> {
    type Reader = ChoiceReader;
}

impl DynTagged for Compared<'_> {
    ghost dyn_tag = { λ c. elim c [
      | compared.Equal x ↦ record { 0 = 3 }
      | compared.AtLeast x ↦ record { 0 = 5 }
      | compared.AtMost x ↦ record { 0 = 6 }
      | compared.Approximate x ↦ record { 0 = 8 }
    ] };

    fn tag(&self) -> Tag {
        match self {
            Compared::Equal(asserted) => asserted.tag(),
            Compared::AtLeast(asserted) => asserted.tag(),
            Compared::AtMost(asserted) => asserted.tag(),
            Compared::Approximate(asserted) => asserted.tag(),
        }
    }
}

#[tactic(auto, unfolding(crate::specs::Filters::compared_laws))]
impl<'a> LawfulChoice for Compared<'a> {
    ghost laws = { compared_laws };

    fn with_arm<U: UsesArm>(&self, using: U) -> U::Answer {
        with_compared(self, using)
    }
}

/// Uses the value of the arm that a filter is.
fn with_compared<U: UsesArm>(filter: &Compared<'_>, using: U) -> U::Answer
    ensures { U.answers (compared_arms.arm_of (in_compared_arms filter.now)) result }
{
    match filter {
        Compared::Equal(asserted) => using.use_arm(asserted),
        Compared::AtLeast(asserted) => using.use_arm(asserted),
        Compared::AtMost(asserted) => using.use_arm(asserted),
        Compared::Approximate(asserted) => using.use_arm(asserted),
    }
}

impl<'a> OfArms for Compared<'a> {
    type Arms = ComparedArms<'a>;

    ghost as_arms = { in_compared_arms };

    fn of_arms(arms: ComparedArms<'a>) -> Compared<'a> {
        match arms {
            Or::This(asserted) => Compared::Equal(asserted),
            Or::Other(Or::This(asserted)) => Compared::AtLeast(asserted),
            Or::Other(Or::Other(Or::This(asserted))) => Compared::AtMost(asserted),
            Or::Other(Or::Other(Or::Other(Or::This(asserted)))) => Compared::Approximate(asserted),
            Or::Other(Or::Other(Or::Other(Or::Other(none)))) => match none {},
        }
    }
}

#[tactic(auto, unfolding(crate::specs::Filters::compared_laws))]
impl<'a> ReadsChoiceByBer<'a> for Compared<'a> {
    fn choice_of_any(alloc: Global, any: Any<'a>) -> Result<Compared<'a>, Error> {
        choice_of_element(alloc, any)
    }
}

#[tactic(auto, unfolding(crate::specs::Filters::compared_laws))]
impl<'a> ChecksChoice for Compared<'a> {
    fn check_choice(any: &Any<'_>) -> Result<(), Error>
        ensures { ChecksOf ⟦<Compared<'a> as LawfulChoice>⟧.laws.arms.grammar.Check
            (parts_of any.now) result }
    {
        check_arms::<ComparedArms<'a>>(any)
    }
}

#[tactic(auto, unfolding(crate::specs::Filters::compared_laws))]
impl<'a> ToldChoice for Compared<'a> {
    fn has_element(any: &Any<'_>) -> bool
        ensures { result ≡ has_a_tag ⟦<Compared<'a> as LawfulChoice>⟧.laws.arms.grammar.tags
            (parts_of any.now).id }
    {
        <ComparedArms<'a> as TellsArms>::is_element_of_an_arm(any)
    }

    fn has_class(class: Class) -> bool
        ensures { result ≡ has_a_class ⟦<Compared<'a> as LawfulChoice>⟧.laws.arms.grammar.tags
            (class_number class) }
    {
        <ComparedArms<'a> as TellsArms>::is_class_of_an_arm(class)
    }
}

/// It is told by the tag numbers of its arms.
#[tactic(auto, unfolding(crate::specs::Filters::compared_laws))]
impl<'a> ToldByNumber for Compared<'a> {
    ghost numbers = { numbers_of_choice ⟦<Compared<'a> as LawfulChoice>⟧.laws };

    fn has_number(tag: Tag) -> bool
        ensures { result ≡ is_one_of tag.0 (numbers_of_choice ⟦<Compared<'a> as LawfulChoice>⟧.laws) }
    {
        <ComparedArms<'a> as ArmNumbers>::is_of_an_arm(tag)
    }

    ghost told_by_number = { choice_numbers ⟦<Compared<'a> as LawfulChoice>⟧.laws };
}
