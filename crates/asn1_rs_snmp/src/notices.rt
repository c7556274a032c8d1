//! What is answered or told (RFC 3416, 3).
ghost use Rattle.std.specs.Prelude.{◌≡◌};
ghost use Rattle.asn1_rs.specs.Prelude.{ChecksOf, choice_numbers, class_number, has_a_class, has_a_tag, is_one_of};
ghost use Rattle.asn1_rs.specs.Prelude.{numbers_of_choice, parts_of};
ghost use Rattle.asn1_rs.specs.Choices.Nested.Data.{arm_of_choice};
ghost use Rattle.asn1_rs_snmp.specs.Pdus.{in_notice_arms, notice_laws};
ghost use Rattle.asn1_rs_snmp.specs.declared.notices.NoticePdus.TheVariants as notices;

use crate::pdu::Pdu;
use asn1_rs::author::{
    ArmNumbers, ChecksChoice, ChoiceKind, ChoiceReader, HasKind, HasReader, LawfulChoice, Never,
    OfArms, Or, OrTagged, ReadsChoiceByBer, TellsArms, ToldByNumber, ToldChoice, UsesArm,
    check_arms, choice_of_element,
};
use asn1_rs::{Any, Class, DynTagged, Error, Tag, TaggedImplicit};
use std::alloc::Global;

/// What is told.
///
///     response        [2] IMPLICIT PDU,
///     inform-request  [6] IMPLICIT PDU,
///     snmpV2-trap     [7] IMPLICIT PDU,
///     report          [8] IMPLICIT PDU
#[derive(Debug, PartialEq, Eq, Drop)]
pub enum NoticePdus<'a> {
    Response(Response<'a>),
    Inform(InformRequest<'a>),
    Trap(Trap<'a>),
    Report(Report<'a>),
}

/// Answers a request.
pub type Response<'a> = TaggedImplicit<Pdu<'a>, Error, 2>;

/// Tells variables, and asks that this be confirmed.
pub type InformRequest<'a> = TaggedImplicit<Pdu<'a>, Error, 6>;

/// Tells variables.
pub type Trap<'a> = TaggedImplicit<Pdu<'a>, Error, 7>;

/// Reports of the protocol itself.
pub type Report<'a> = TaggedImplicit<Pdu<'a>, Error, 8>;

/// Its arms.
pub type NoticePdusArms<'a> = OrTagged<
    Response<'a>,
    OrTagged<InformRequest<'a>, OrTagged<Trap<'a>, OrTagged<Report<'a>, Never>>>,
>;

impl HasKind for NoticePdus<'_> {
    type Kind = ChoiceKind;
}

impl HasReader for NoticePdus<'_> {
    type Reader = ChoiceReader;
}

impl<'a> DynTagged for NoticePdus<'a> {
    ghost dyn_tag = { λ x. elim x [
      | notices.Response x ↦ record { 0 = 2 }
      | notices.Inform x ↦ record { 0 = 6 }
      | notices.Trap x ↦ record { 0 = 7 }
      | notices.Report x ↦ record { 0 = 8 }
    ] };

    fn tag(&self) -> Tag {
        match self {
            NoticePdus::Response(response) => response.tag(),
            NoticePdus::Inform(inform) => inform.tag(),
            NoticePdus::Trap(trap) => trap.tag(),
            NoticePdus::Report(report) => report.tag(),
        }
    }
}

impl<'a> LawfulChoice for NoticePdus<'a> {
    ghost laws = { notice_laws };

    fn with_arm<U: UsesArm>(&self, using: U) -> U::Answer {
        match self {
            NoticePdus::Response(response) => with_response(response, using),
            NoticePdus::Inform(inform) => with_inform(inform, using),
            NoticePdus::Trap(trap) => with_trap(trap, using),
            NoticePdus::Report(report) => with_report(report, using),
        }
    }
}

/// Uses an answer.
#[tactic(auto, unfolding(crate::specs::Pdus::notice_laws))]
fn with_response<U: UsesArm>(response: &Response<'_>, using: U) -> U::Answer
    ensures { U.answers (arm_of_choice notice_laws (notices.Response response.now)) result }
{
    using.use_arm(response)
}

/// Uses what is to be confirmed.
#[tactic(auto, unfolding(crate::specs::Pdus::notice_laws))]
fn with_inform<U: UsesArm>(inform: &InformRequest<'_>, using: U) -> U::Answer
    ensures { U.answers (arm_of_choice notice_laws (notices.Inform inform.now)) result }
{
    using.use_arm(inform)
}

/// Uses what is told.
#[tactic(auto, unfolding(crate::specs::Pdus::notice_laws))]
fn with_trap<U: UsesArm>(trap: &Trap<'_>, using: U) -> U::Answer
    ensures { U.answers (arm_of_choice notice_laws (notices.Trap trap.now)) result }
{
    using.use_arm(trap)
}

/// Uses a report.
#[tactic(auto, unfolding(crate::specs::Pdus::notice_laws))]
fn with_report<U: UsesArm>(report: &Report<'_>, using: U) -> U::Answer
    ensures { U.answers (arm_of_choice notice_laws (notices.Report report.now)) result }
{
    using.use_arm(report)
}

impl<'a> OfArms for NoticePdus<'a> {
    type Arms = NoticePdusArms<'a>;

    ghost as_arms = { in_notice_arms };

    fn of_arms(arms: NoticePdusArms<'a>) -> NoticePdus<'a> {
        match arms {
            Or::This(response) => NoticePdus::Response(response),
            Or::Other(Or::This(inform)) => NoticePdus::Inform(inform),
            Or::Other(Or::Other(Or::This(trap))) => NoticePdus::Trap(trap),
            Or::Other(Or::Other(Or::Other(Or::This(report)))) => NoticePdus::Report(report),
            Or::Other(Or::Other(Or::Other(Or::Other(none)))) => match none {},
        }
    }
}

#[tactic(auto, unfolding(crate::specs::Pdus::notice_laws))]
impl<'a> ReadsChoiceByBer<'a> for NoticePdus<'a> {
    fn choice_of_any(alloc: Global, any: Any<'a>) -> Result<NoticePdus<'a>, Error> {
        choice_of_element(alloc, any)
    }
}

#[tactic(auto, unfolding(crate::specs::Pdus::notice_laws))]
impl<'a> ChecksChoice for NoticePdus<'a> {
    fn check_choice(any: &Any<'_>) -> Result<(), Error>
        ensures { ChecksOf ⟦<NoticePdus<'a> as LawfulChoice>⟧.laws.arms.grammar.Check
            (parts_of any.now) result }
    {
        check_arms::<NoticePdusArms<'a>>(any)
    }
}

/// It may be an arm of another choice.
#[tactic(auto, unfolding(crate::specs::Pdus::notice_laws))]
impl<'a> ToldChoice for NoticePdus<'a> {
    fn has_element(any: &Any<'_>) -> bool
        ensures { result ≡ has_a_tag ⟦<NoticePdus<'a> as LawfulChoice>⟧.laws.arms.grammar.tags
            (parts_of any.now).id }
    {
        <NoticePdusArms<'a> as TellsArms>::is_element_of_an_arm(any)
    }

    fn has_class(class: Class) -> bool
        ensures { result ≡ has_a_class ⟦<NoticePdus<'a> as LawfulChoice>⟧.laws.arms.grammar.tags
            (class_number class) }
    {
        <NoticePdusArms<'a> as TellsArms>::is_class_of_an_arm(class)
    }
}

#[tactic(auto, unfolding(crate::specs::Pdus::notice_laws))]
impl<'a> ToldByNumber for NoticePdus<'a> {
    ghost numbers = { numbers_of_choice ⟦<NoticePdus<'a> as LawfulChoice>⟧.laws };

    fn has_number(tag: Tag) -> bool
        ensures { result ≡ is_one_of tag.0
            (numbers_of_choice ⟦<NoticePdus<'a> as LawfulChoice>⟧.laws) }
    {
        <NoticePdusArms<'a> as ArmNumbers>::is_of_an_arm(tag)
    }

    ghost told_by_number = { choice_numbers ⟦<NoticePdus<'a> as LawfulChoice>⟧.laws };
}
