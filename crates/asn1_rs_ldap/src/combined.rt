//! Filters that hold others, as a part of the choice of filters.
ghost use Rattle.asn1_rs.specs.Prelude.{choice_numbers, numbers_of_choice};
ghost use Rattle.asn1_rs.specs.Choices.Nested.Data.{arm_of_choice};
ghost use Rattle.asn1_rs_ldap.specs.Filters.{combined_laws, in_combined_arms};
ghost use Rattle.asn1_rs_ldap.specs.declared.combined.Combined.TheVariants as combined;

use asn1_rs::author::{
    ArmNumbers, ChecksChoice, ChoiceKind, ChoiceReader, HasKind, HasReader, LawfulChoice, Never,
    OfArms, Or, OrTagged, ReadsChoiceByBer, TellsArms, ToldByNumber, ToldChoice, UsesArm,
    check_arms, choice_of_element,
};
use asn1_rs::{Any, Boxed, Class, DynTagged, Error, SetOf, Tag, TaggedExplicit, TaggedImplicit};
use std::alloc::Global;

/// Filters in a set, in place of whose tag a context-specific one stands.
pub type Filters<F, const TAG: u32> = TaggedImplicit<SetOf<F>, Error, TAG>;

/// A filter on the heap, under a tag.
pub type Negated<F> = TaggedExplicit<Boxed<F>, Error, 2>;

/// A filter that holds others.
///
///     and  [0] SET OF filter Filter,
///     or   [1] SET OF filter Filter,
///     not  [2] EXPLICIT Filter
#[derive(Debug, PartialEq, Drop)]
pub enum Combined<F> {
    And(Filters<F, 0>),
    Or(Filters<F, 1>),
    Not(Negated<F>),
}

/// Its arms.
pub type CombinedArms<F> = OrTagged<
    Filters<F, 0>,
    OrTagged<Filters<F, 1>, OrTagged<Negated<F>, Never>>,
>;

impl<F> HasKind for Combined<F> {
    type Kind = ChoiceKind;
}

impl<F> HasReader for Combined<F> {
    type Reader = ChoiceReader;
}

impl<F> DynTagged for Combined<F> {
    ghost dyn_tag = { λ c. elim c [
      | combined.And x ↦ record { 0 = 0 }
      | combined.Or x ↦ record { 0 = 1 }
      | combined.Not x ↦ record { 0 = 2 }
    ] };

    fn tag(&self) -> Tag {
        match self {
            Combined::And(filters) => filters.tag(),
            Combined::Or(filters) => filters.tag(),
            Combined::Not(filter) => filter.tag(),
        }
    }
}

impl<F: LawfulChoice> LawfulChoice for Combined<F> {
    ghost laws = { combined_laws F.laws };

    fn with_arm<U: UsesArm>(&self, using: U) -> U::Answer {
        match self {
            Combined::And(filters) => with_all(filters, using),
            Combined::Or(filters) => with_any(filters, using),
            Combined::Not(filter) => with_negated(filter, using),
        }
    }
}

/// Uses filters that all have to match.
#[tactic(auto, unfolding(crate::specs::Filters::combined_laws))]
fn with_all<F: LawfulChoice, U: UsesArm>(filters: &Filters<F, 0>, using: U) -> U::Answer
    ensures { U.answers (arm_of_choice (combined_laws F.laws) (combined.And filters.now)) result }
{
    using.use_arm(filters)
}

/// Uses filters of which one has to match.
#[tactic(auto, unfolding(crate::specs::Filters::combined_laws))]
fn with_any<F: LawfulChoice, U: UsesArm>(filters: &Filters<F, 1>, using: U) -> U::Answer
    ensures { U.answers (arm_of_choice (combined_laws F.laws) (combined.Or filters.now)) result }
{
    using.use_arm(filters)
}

/// Uses a filter that must not match.
#[tactic(auto, unfolding(crate::specs::Filters::combined_laws))]
fn with_negated<F: LawfulChoice, U: UsesArm>(filter: &Negated<F>, using: U) -> U::Answer
    ensures { U.answers (arm_of_choice (combined_laws F.laws) (combined.Not filter.now)) result }
{
    using.use_arm(filter)
}

impl<F: LawfulChoice> OfArms for Combined<F> {
    type Arms = CombinedArms<F>;

    ghost as_arms = { in_combined_arms };

    fn of_arms(arms: CombinedArms<F>) -> Combined<F> {
        match arms {
            Or::This(filters) => Combined::And(filters),
            Or::Other(Or::This(filters)) => Combined::Or(filters),
            Or::Other(Or::Other(Or::This(filter))) => Combined::Not(filter),
            Or::Other(Or::Other(Or::Other(none))) => match none {},
        }
    }
}

#[tactic(auto, unfolding(crate::specs::Filters::combined_laws))]
impl<'a, F: ReadsChoiceByBer<'a> + ChecksChoice + Drop> ReadsChoiceByBer<'a> for Combined<F> {
    fn choice_of_any(alloc: Global, any: Any<'a>) -> Result<Combined<F>, Error> {
        choice_of_element(alloc, any)
    }
}

#[tactic(auto, unfolding(crate::specs::Filters::combined_laws))]
impl<F: ChecksChoice> ChecksChoice for Combined<F> {
    fn check_choice(any: &Any<'_>) -> Result<(), Error> {
        check_arms::<CombinedArms<F>>(any)
    }
}

#[tactic(auto, unfolding(crate::specs::Filters::combined_laws))]
impl<F: LawfulChoice> ToldChoice for Combined<F> {
    fn has_element(any: &Any<'_>) -> bool {
        <CombinedArms<F> as TellsArms>::is_element_of_an_arm(any)
    }

    fn has_class(class: Class) -> bool {
        <CombinedArms<F> as TellsArms>::is_class_of_an_arm(class)
    }
}

/// It is told by the tag numbers of its arms.
#[tactic(auto, unfolding(crate::specs::Filters::combined_laws))]
impl<F: LawfulChoice> ToldByNumber for Combined<F> {
    ghost numbers = { numbers_of_choice ⟦<Combined<F> as LawfulChoice>⟧.laws };

    fn has_number(tag: Tag) -> bool {
        <CombinedArms<F> as ArmNumbers>::is_of_an_arm(tag)
    }

    ghost told_by_number = { choice_numbers ⟦<Combined<F> as LawfulChoice>⟧.laws };
}
