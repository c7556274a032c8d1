//! Filters of parts of values, of attributes that are there, and of rules. They are a part of the choice of filters.
ghost use Rattle.asn1_rs.specs.Prelude.{ChecksOf, choice_numbers, class_number, has_a_class, has_a_tag, is_one_of};
ghost use Rattle.asn1_rs.specs.Prelude.{numbers_of_choice, parts_of};
ghost use Rattle.std.specs.Prelude.{◌≡◌};
ghost use Rattle.asn1_rs_ldap.specs.Filters.{in_matched_arms, matched_arms, matched_laws};
ghost use Rattle.asn1_rs_ldap.specs.declared.matched.Matched.TheVariants as matched;

use crate::{MatchingRuleAssertion, Octets, SubstringFilter};
use asn1_rs::author::{
    ArmNumbers, ChecksChoice, ChoiceKind, ChoiceReader, HasKind, HasReader, LawfulChoice, Never,
    OfArms, Or, OrTagged, ReadsChoiceByBer, TellsArms, ToldByNumber, ToldChoice, UsesArm,
    check_arms, choice_of_element,
};
use asn1_rs::{Any, Class, DynTagged, Error, Tag, TaggedImplicit};
use std::alloc::Global;

/// A filter of parts of a value, in place of whose tag another stands.
pub type Substrings<'a> = TaggedImplicit<SubstringFilter<'a>, Error, 4>;

/// An assertion by a rule, in place of whose tag another stands.
pub type Extensible<'a> = TaggedImplicit<MatchingRuleAssertion<'a>, Error, 9>;

/// A filter that matches parts of a value, an attribute that is there, or by a rule.
///
///     substrings       [4] SubstringFilter,
///     present          [7] AttributeDescription,
///     extensibleMatch  [9] MatchingRuleAssertion
#[derive(Debug, PartialEq, Drop)]
pub enum Matched<'a> {
    Substrings(Substrings<'a>),
    Present(Octets<'a, 7>),
    Extensible(Extensible<'a>),
}

/// Its arms.
pub type MatchedArms<'a> = OrTagged<
    Substrings<'a>,
    OrTagged<Octets<'a, 7>, OrTagged<Extensible<'a>, Never>>,
>;

impl HasKind for Matched<'_> {
    type Kind = ChoiceKind;
}

impl HasReader for Matched<'_> {
    type Reader = ChoiceReader;
}

impl DynTagged for Matched<'_> {
    ghost dyn_tag = { λ m. elim m [
      | matched.Substrings x ↦ record { 0 = 4 }
      | matched.Present x ↦ record { 0 = 7 }
      | matched.Extensible x ↦ record { 0 = 9 }
    ] };

    fn tag(&self) -> Tag {
        match self {
            Matched::Substrings(filter) => filter.tag(),
            Matched::Present(attribute) => attribute.tag(),
            Matched::Extensible(assertion) => assertion.tag(),
        }
    }
}

#[tactic(auto, unfolding(crate::specs::Filters::matched_laws))]
impl<'a> LawfulChoice for Matched<'a> {
    ghost laws = { matched_laws };

    fn with_arm<U: UsesArm>(&self, using: U) -> U::Answer {
        with_matched(self, using)
    }
}

/// Uses the value of the arm that a filter is.
fn with_matched<U: UsesArm>(filter: &Matched<'_>, using: U) -> U::Answer
    ensures { U.answers (matched_arms.arm_of (in_matched_arms filter.now)) result }
{
    match filter {
        Matched::Substrings(filter) => using.use_arm(filter),
        Matched::Present(attribute) => using.use_arm(attribute),
        Matched::Extensible(assertion) => using.use_arm(assertion),
    }
}

impl<'a> OfArms for Matched<'a> {
    type Arms = MatchedArms<'a>;

    ghost as_arms = { in_matched_arms };

    fn of_arms(arms: MatchedArms<'a>) -> Matched<'a> {
        match arms {
            Or::This(filter) => Matched::Substrings(filter),
            Or::Other(Or::This(attribute)) => Matched::Present(attribute),
            Or::Other(Or::Other(Or::This(assertion))) => Matched::Extensible(assertion),
            Or::Other(Or::Other(Or::Other(none))) => match none {},
        }
    }
}

#[tactic(auto, unfolding(crate::specs::Filters::matched_laws))]
impl<'a> ReadsChoiceByBer<'a> for Matched<'a> {
    fn choice_of_any(alloc: Global, any: Any<'a>) -> Result<Matched<'a>, Error> {
        choice_of_element(alloc, any)
    }
}

#[tactic(auto, unfolding(crate::specs::Filters::matched_laws))]
impl<'a> ChecksChoice for Matched<'a> {
    fn check_choice(any: &Any<'_>) -> Result<(), Error>
        ensures { ChecksOf ⟦<Matched<'a> as LawfulChoice>⟧.laws.arms.grammar.Check
            (parts_of any.now) result }
    {
        check_arms::<MatchedArms<'a>>(any)
    }
}

#[tactic(auto, unfolding(crate::specs::Filters::matched_laws))]
impl<'a> ToldChoice for Matched<'a> {
    fn has_element(any: &Any<'_>) -> bool
        ensures { result ≡ has_a_tag ⟦<Matched<'a> as LawfulChoice>⟧.laws.arms.grammar.tags
            (parts_of any.now).id }
    {
        <MatchedArms<'a> as TellsArms>::is_element_of_an_arm(any)
    }

    fn has_class(class: Class) -> bool
        ensures { result ≡ has_a_class ⟦<Matched<'a> as LawfulChoice>⟧.laws.arms.grammar.tags
            (class_number class) }
    {
        <MatchedArms<'a> as TellsArms>::is_class_of_an_arm(class)
    }
}

/// It is told by the tag numbers of its arms.
#[tactic(auto, unfolding(crate::specs::Filters::matched_laws))]
impl<'a> ToldByNumber for Matched<'a> {
    ghost numbers = { numbers_of_choice ⟦<Matched<'a> as LawfulChoice>⟧.laws };

    fn has_number(tag: Tag) -> bool
        ensures { result ≡ is_one_of tag.0 (numbers_of_choice ⟦<Matched<'a> as LawfulChoice>⟧.laws) }
    {
        <MatchedArms<'a> as ArmNumbers>::is_of_an_arm(tag)
    }

    ghost told_by_number = { choice_numbers ⟦<Matched<'a> as LawfulChoice>⟧.laws };
}
