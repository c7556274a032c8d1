//! What messages hold (RFC 3416, 3).
ghost use Rattle.std.specs.Prelude.{◌≡◌};
ghost use Rattle.asn1_rs.specs.Prelude.{ChecksOf, choice_numbers, choice_type, class_number, has_a_class, has_a_tag};
ghost use Rattle.asn1_rs.specs.Prelude.{is_one_of, numbers_of_choice, parts_of};
ghost use Rattle.asn1_rs_snmp.specs.Pdus.{in_pdus_arms, pdus_laws};
ghost use Rattle.asn1_rs_snmp.specs.declared.pdus.Pdus.TheVariants as pdus;

use crate::notices::NoticePdus;
use crate::requests::RequestPdus;
use asn1_rs::author::{
    ArmNumbers, ChecksChoice, ChoiceKind, ChoiceReader, HasKind, HasReader, LawfulChoice,
    LawfulType, Never, OfArms, OrChoice, ReadsChoiceByBer, TellsArms, ToldByNumber, ToldChoice,
    UsesArm, check_arms, choice_of_element,
};
use asn1_rs::{Any, Class, DynTagged, Error, Tag};
use std::alloc::Global;

/// What a message holds: what is asked, or what is told.
#[derive(Debug, PartialEq, Eq, Drop)]
pub enum Pdus<'a> {
    Request(RequestPdus<'a>),
    Notice(NoticePdus<'a>),
}

/// Its arms.
pub type PdusArms<'a> = OrChoice<RequestPdus<'a>, OrChoice<NoticePdus<'a>, Never>>;

impl HasKind for Pdus<'_> {
    type Kind = ChoiceKind;
}

impl HasReader for Pdus<'_> {
    type Reader = ChoiceReader;
}

impl<'a> DynTagged for Pdus<'a> {
    ghost dyn_tag = { λ x. elim x [
      | pdus.Request x ↦ ⟦<RequestPdus<'a> as DynTagged>⟧.dyn_tag x
      | pdus.Notice x ↦ ⟦<NoticePdus<'a> as DynTagged>⟧.dyn_tag x
    ] };

    fn tag(&self) -> Tag {
        match self {
            Pdus::Request(request) => request.tag(),
            Pdus::Notice(notice) => notice.tag(),
        }
    }
}

#[tactic(auto, unfolding(crate::specs::Pdus::pdus_laws))]
impl<'a> LawfulChoice for Pdus<'a> {
    ghost laws = { pdus_laws };

    fn with_arm<U: UsesArm>(&self, using: U) -> U::Answer {
        match self {
            Pdus::Request(request) => request.with_arm(using),
            Pdus::Notice(notice) => notice.with_arm(using),
        }
    }
}

impl<'a> OfArms for Pdus<'a> {
    type Arms = PdusArms<'a>;

    ghost as_arms = { in_pdus_arms };

    fn of_arms(arms: PdusArms<'a>) -> Pdus<'a> {
        match arms {
            OrChoice::This(request) => Pdus::Request(request),
            OrChoice::Other(OrChoice::This(notice)) => Pdus::Notice(notice),
            OrChoice::Other(OrChoice::Other(none)) => match none {},
        }
    }
}

#[tactic(auto, unfolding(crate::specs::Pdus::pdus_laws))]
impl<'a> ReadsChoiceByBer<'a> for Pdus<'a> {
    fn choice_of_any(alloc: Global, any: Any<'a>) -> Result<Pdus<'a>, Error> {
        choice_of_element(alloc, any)
    }
}

#[tactic(auto, unfolding(crate::specs::Pdus::pdus_laws))]
impl<'a> ChecksChoice for Pdus<'a> {
    fn check_choice(any: &Any<'_>) -> Result<(), Error>
        ensures { ChecksOf ⟦<Pdus<'a> as LawfulChoice>⟧.laws.arms.grammar.Check
            (parts_of any.now) result }
    {
        check_arms::<PdusArms<'a>>(any)
    }
}

/// It may be an arm of another choice.
#[tactic(auto, unfolding(crate::specs::Pdus::pdus_laws))]
impl<'a> ToldChoice for Pdus<'a> {
    fn has_element(any: &Any<'_>) -> bool
        ensures { result ≡ has_a_tag ⟦<Pdus<'a> as LawfulChoice>⟧.laws.arms.grammar.tags
            (parts_of any.now).id }
    {
        <PdusArms<'a> as TellsArms>::is_element_of_an_arm(any)
    }

    fn has_class(class: Class) -> bool
        ensures { result ≡ has_a_class ⟦<Pdus<'a> as LawfulChoice>⟧.laws.arms.grammar.tags
            (class_number class) }
    {
        <PdusArms<'a> as TellsArms>::is_class_of_an_arm(class)
    }
}

#[tactic(auto, unfolding(crate::specs::Pdus::pdus_laws, crate::specs::Pdus::request_laws, crate::specs::Pdus::notice_laws))]
impl<'a> ToldByNumber for Pdus<'a> {
    ghost numbers = { numbers_of_choice ⟦<Pdus<'a> as LawfulChoice>⟧.laws };

    fn has_number(tag: Tag) -> bool
        ensures { result ≡ is_one_of tag.0
            (numbers_of_choice ⟦<Pdus<'a> as LawfulChoice>⟧.laws) }
    {
        <PdusArms<'a> as ArmNumbers>::is_of_an_arm(tag)
    }

    ghost told_by_number = { choice_numbers ⟦<Pdus<'a> as LawfulChoice>⟧.laws };
}

/// It may be a field.
impl<'a> LawfulType for Pdus<'a> {
    ghost type_laws = { choice_type ⟦<Pdus<'a> as LawfulChoice>⟧.laws };
}
