//! The filter of a search (RFC 4511, 4.5.1.7): ten arms, divided in three parts.
//!
//! A filter holds filters, as deep as they nest. Readers nest by the caller's types alone, so a type bounds the depth.
//! [`SimpleFilter`] holds no filter, and `FilterOf<'a, F>` holds filters of the type `F`. An inner filter that would be
//! deeper is refused as of no arm, with `UnexpectedTag`.
ghost use Rattle.asn1_rs.specs.Prelude.{ChecksOf, choice_numbers, choice_type, is_one_of, numbers_of_choice};
ghost use Rattle.asn1_rs.specs.Prelude.{parts_of, ReadsByBer, seen, WritesStrict};
ghost use Rattle.std.specs.Prelude.{◌≡◌};
ghost use Rattle.asn1_rs_ldap.specs.Filters.{filter_laws, in_filter_arms, in_simple_arms, simple_laws};
ghost use Rattle.asn1_rs_ldap.specs.declared.filter.FilterOf.TheVariants as filters;
ghost use Rattle.asn1_rs_ldap.specs.declared.filter.SimpleFilter.TheVariants as simple;

use crate::Filter;
use crate::combined::Combined;
use crate::compared::Compared;
use crate::matched::Matched;
use asn1_rs::author::{
    ArmNumbers, ChecksChoice, ChoiceKind, ChoiceReader, HasKind, HasReader, LawfulChoice,
    LawfulType, Never, OfArms, OrChoice, ReadsChoiceByBer, TakesWhole, ToldByNumber, UsesArm,
    check_arms, choice_of_element,
};
use asn1_rs::laws::Grammar;
use asn1_rs::{
    Any, DynTagged, Error, ParseResult, SerializeResult, Tag, ToDer, read_ber, strict_vec,
};
use std::alloc::Global;

/// A filter that holds filters of the type `F`.
///
///     Filter ::= CHOICE {
///         and              [0] SET OF filter Filter,
///         or               [1] SET OF filter Filter,
///         not              [2] Filter,
///         equalityMatch    [3] AttributeValueAssertion,
///         substrings       [4] SubstringFilter,
///         greaterOrEqual   [5] AttributeValueAssertion,
///         lessOrEqual      [6] AttributeValueAssertion,
///         present          [7] AttributeDescription,
///         approxMatch      [8] AttributeValueAssertion,
///         extensibleMatch  [9] MatchingRuleAssertion }
#[derive(Debug, PartialEq, Drop)]
pub enum FilterOf<'a, F> {
    Combined(Combined<F>),
    Compared(Compared<'a>),
    Matched(Matched<'a>),
}

/// Its arms.
pub type FilterArms<'a, F> = OrChoice<
    Combined<F>,
    OrChoice<Compared<'a>, OrChoice<Matched<'a>, Never>>,
>;

impl<F> HasKind for FilterOf<'_, F> {
    type Kind = ChoiceKind;
}

impl<F> HasReader for FilterOf<'_, F> {
    type Reader = ChoiceReader;
}

impl<F> DynTagged for FilterOf<'_, F> {
    ghost dyn_tag = { λ f. elim f [
      | filters.Combined x ↦ ⟦<Combined<F> as DynTagged>⟧.dyn_tag x
      | filters.Compared x ↦ ⟦<Compared<'static> as DynTagged>⟧.dyn_tag x
      | filters.Matched x ↦ ⟦<Matched<'static> as DynTagged>⟧.dyn_tag x
    ] };

    fn tag(&self) -> Tag {
        match self {
            FilterOf::Combined(filter) => filter.tag(),
            FilterOf::Compared(filter) => filter.tag(),
            FilterOf::Matched(filter) => filter.tag(),
        }
    }
}

#[tactic(auto, unfolding(crate::specs::Filters::filter_laws))]
impl<'a, F: LawfulChoice> LawfulChoice for FilterOf<'a, F> {
    ghost laws = { filter_laws F.laws };

    fn with_arm<U: UsesArm>(&self, using: U) -> U::Answer {
        match self {
            FilterOf::Combined(filter) => filter.with_arm(using),
            FilterOf::Compared(filter) => filter.with_arm(using),
            FilterOf::Matched(filter) => filter.with_arm(using),
        }
    }
}

impl<'a, F: LawfulChoice> OfArms for FilterOf<'a, F> {
    type Arms = FilterArms<'a, F>;

    ghost as_arms = { in_filter_arms };

    fn of_arms(arms: FilterArms<'a, F>) -> FilterOf<'a, F> {
        match arms {
            OrChoice::This(filter) => FilterOf::Combined(filter),
            OrChoice::Other(OrChoice::This(filter)) => FilterOf::Compared(filter),
            OrChoice::Other(OrChoice::Other(OrChoice::This(filter))) => FilterOf::Matched(filter),
            OrChoice::Other(OrChoice::Other(OrChoice::Other(none))) => match none {},
        }
    }
}

impl<'a, F> ReadsChoiceByBer<'a> for FilterOf<'a, F>
where
    F: ReadsChoiceByBer<'a> + ChecksChoice + Drop,
{
    #[tactic(auto, using(asn1_rs::specs::Choices::Taken::taken_as, asn1_rs::specs::Choices::Taken::refused_as), unfolding(crate::specs::Filters::filter_laws))]
    fn choice_of_any(alloc: Global, any: Any<'a>) -> Result<FilterOf<'a, F>, Error> {
        match <FilterArms<'a, F> as TakesWhole<'a>>::take_any(alloc, any) {
            Ok(arms) => Ok(<FilterOf<'a, F> as OfArms>::of_arms(arms)),
            Err(e) => Err(e),
        }
    }
}

#[tactic(auto, unfolding(crate::specs::Filters::filter_laws))]
impl<'a, F: ChecksChoice> ChecksChoice for FilterOf<'a, F> {
    fn check_choice(any: &Any<'_>) -> Result<(), Error>
        ensures { ChecksOf ⟦<FilterOf<'a, F> as LawfulChoice>⟧.laws.arms.grammar.Check
            (parts_of any.now) result }
    {
        check_arms::<FilterArms<'a, F>>(any)
    }
}

/// A filter is a field of messages.
impl<'a, F: LawfulChoice> LawfulType for FilterOf<'a, F> {
    ghost type_laws = { choice_type ⟦<FilterOf<'a, F> as LawfulChoice>⟧.laws };
}

/// It is told by the tag numbers of its arms.
#[tactic(auto, unfolding(crate::specs::Filters::filter_laws, crate::specs::Filters::combined_laws, crate::specs::Filters::compared_laws, crate::specs::Filters::matched_laws))]
impl<'a, F: LawfulChoice> ToldByNumber for FilterOf<'a, F> {
    ghost numbers = { numbers_of_choice ⟦<FilterOf<'a, F> as LawfulChoice>⟧.laws };

    fn has_number(tag: Tag) -> bool
        ensures { result ≡ is_one_of tag.0 (numbers_of_choice ⟦<FilterOf<'a, F> as LawfulChoice>⟧.laws) }
    {
        <FilterArms<'a, F> as ArmNumbers>::is_of_an_arm(tag)
    }

    ghost told_by_number = { choice_numbers ⟦<FilterOf<'a, F> as LawfulChoice>⟧.laws };
}

/// A filter that holds no filters.
#[derive(Debug, PartialEq, Drop)]
pub enum SimpleFilter<'a> {
    Compared(Compared<'a>),
    Matched(Matched<'a>),
}

/// Its arms.
pub type SimpleArms<'a> = OrChoice<Compared<'a>, OrChoice<Matched<'a>, Never>>;

impl HasKind for SimpleFilter<'_> {
    type Kind = ChoiceKind;
}

impl HasReader for SimpleFilter<'_> {
    type Reader = ChoiceReader;
}

impl DynTagged for SimpleFilter<'_> {
    ghost dyn_tag = { λ f. elim f [
      | simple.Compared x ↦ ⟦<Compared<'static> as DynTagged>⟧.dyn_tag x
      | simple.Matched x ↦ ⟦<Matched<'static> as DynTagged>⟧.dyn_tag x
    ] };

    fn tag(&self) -> Tag {
        match self {
            SimpleFilter::Compared(filter) => filter.tag(),
            SimpleFilter::Matched(filter) => filter.tag(),
        }
    }
}

#[tactic(auto, unfolding(crate::specs::Filters::simple_laws))]
impl<'a> LawfulChoice for SimpleFilter<'a> {
    ghost laws = { simple_laws };

    fn with_arm<U: UsesArm>(&self, using: U) -> U::Answer {
        match self {
            SimpleFilter::Compared(filter) => filter.with_arm(using),
            SimpleFilter::Matched(filter) => filter.with_arm(using),
        }
    }
}

impl<'a> OfArms for SimpleFilter<'a> {
    type Arms = SimpleArms<'a>;

    ghost as_arms = { in_simple_arms };

    fn of_arms(arms: SimpleArms<'a>) -> SimpleFilter<'a> {
        match arms {
            OrChoice::This(filter) => SimpleFilter::Compared(filter),
            OrChoice::Other(OrChoice::This(filter)) => SimpleFilter::Matched(filter),
            OrChoice::Other(OrChoice::Other(none)) => match none {},
        }
    }
}

#[tactic(auto, unfolding(crate::specs::Filters::simple_laws))]
impl<'a> ReadsChoiceByBer<'a> for SimpleFilter<'a> {
    fn choice_of_any(alloc: Global, any: Any<'a>) -> Result<SimpleFilter<'a>, Error> {
        choice_of_element(alloc, any)
    }
}

#[tactic(auto, unfolding(crate::specs::Filters::simple_laws))]
impl<'a> ChecksChoice for SimpleFilter<'a> {
    fn check_choice(any: &Any<'_>) -> Result<(), Error>
        ensures { ChecksOf ⟦<SimpleFilter<'a> as LawfulChoice>⟧.laws.arms.grammar.Check
            (parts_of any.now) result }
    {
        check_arms::<SimpleArms<'a>>(any)
    }
}

/// It is a field of messages.
impl<'a> LawfulType for SimpleFilter<'a> {
    ghost type_laws = { choice_type ⟦<SimpleFilter<'a> as LawfulChoice>⟧.laws };
}

/// It is told by the tag numbers of its arms.
#[tactic(auto, unfolding(crate::specs::Filters::simple_laws, crate::specs::Filters::compared_laws, crate::specs::Filters::matched_laws))]
impl<'a> ToldByNumber for SimpleFilter<'a> {
    ghost numbers = { numbers_of_choice ⟦<SimpleFilter<'a> as LawfulChoice>⟧.laws };

    fn has_number(tag: Tag) -> bool
        ensures { result ≡ is_one_of tag.0 (numbers_of_choice ⟦<SimpleFilter<'a> as LawfulChoice>⟧.laws) }
    {
        <SimpleArms<'a> as ArmNumbers>::is_of_an_arm(tag)
    }

    ghost told_by_number = { choice_numbers ⟦<SimpleFilter<'a> as LawfulChoice>⟧.laws };
}

/// The filter at the front of the octets, by BER, and what follows it.
pub fn read_filter<'a>(alloc: Global, octets: &'a [u8]) -> ParseResult<'a, Filter<'a>, Error>
    ensures { ReadsByBer ⟦<Filter<'a> as Grammar>⟧.grammar octets.now (seen result) }
{
    read_ber::<Filter<'a>, Error>(alloc, octets)
}

/// The one strict encoding of a filter in DER form. Where its length fits `usize`, it is refused only when out of
/// memory.
pub fn filter_vec(alloc: Global, filter: &Filter<'_>) -> SerializeResult<Vec<u8>>
    ensures { ⟦<Filter<'static> as Grammar>⟧.grammar.IsDer
        (⟦<Filter<'static> as Grammar>⟧.grammar.value filter.now) →
        WritesStrict ⟦<Filter<'static> as Grammar>⟧.grammar
        ⟦<Filter<'static> as ToDer>⟧.writing filter.now result }
{
    strict_vec(alloc, filter)
}
