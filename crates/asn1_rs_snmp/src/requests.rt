//! What is asked of an agent (RFC 3416, 3).
ghost use Rattle.std.specs.Prelude.{◌≡◌};
ghost use Rattle.asn1_rs.specs.Prelude.{ChecksOf, choice_numbers, class_number, has_a_class, has_a_tag, is_one_of};
ghost use Rattle.asn1_rs.specs.Prelude.{numbers_of_choice, parts_of};
ghost use Rattle.asn1_rs.specs.Choices.Nested.Data.{arm_of_choice};
ghost use Rattle.asn1_rs_snmp.specs.Pdus.{in_request_arms, request_laws};
ghost use Rattle.asn1_rs_snmp.specs.declared.requests.RequestPdus.TheVariants as requests;

use crate::pdu::{BulkPdu, Pdu};
use asn1_rs::author::{
    ArmNumbers, ChecksChoice, ChoiceKind, ChoiceReader, HasKind, HasReader, LawfulChoice, Never,
    OfArms, Or, OrTagged, ReadsChoiceByBer, TellsArms, ToldByNumber, ToldChoice, UsesArm,
    check_arms, choice_of_element,
};
use asn1_rs::{Any, Class, DynTagged, Error, Tag, TaggedImplicit};
use std::alloc::Global;

/// What is asked.
///
///     get-request       [0] IMPLICIT PDU,
///     get-next-request  [1] IMPLICIT PDU,
///     set-request       [3] IMPLICIT PDU,
///     get-bulk-request  [5] IMPLICIT BulkPDU
#[derive(Debug, PartialEq, Eq, Drop)]
pub enum RequestPdus<'a> {
    Get(GetRequest<'a>),
    GetNext(GetNextRequest<'a>),
    Set(SetRequest<'a>),
    GetBulk(GetBulkRequest<'a>),
}

/// Asks for the values of variables.
pub type GetRequest<'a> = TaggedImplicit<Pdu<'a>, Error, 0>;

/// Asks for the values of the variables behind these.
pub type GetNextRequest<'a> = TaggedImplicit<Pdu<'a>, Error, 1>;

/// Gives values to variables.
pub type SetRequest<'a> = TaggedImplicit<Pdu<'a>, Error, 3>;

/// Asks for the values of many variables behind these.
pub type GetBulkRequest<'a> = TaggedImplicit<BulkPdu<'a>, Error, 5>;

/// Its arms.
pub type RequestPdusArms<'a> = OrTagged<
    GetRequest<'a>,
    OrTagged<GetNextRequest<'a>, OrTagged<SetRequest<'a>, OrTagged<GetBulkRequest<'a>, Never>>>,
>;

impl HasKind for RequestPdus<'_> {
    type Kind = ChoiceKind;
}

impl HasReader for RequestPdus<'_> {
    type Reader = ChoiceReader;
}

impl<'a> DynTagged for RequestPdus<'a> {
    ghost dyn_tag = { λ x. elim x [
      | requests.Get x ↦ record { 0 = 0 }
      | requests.GetNext x ↦ record { 0 = 1 }
      | requests.Set x ↦ record { 0 = 3 }
      | requests.GetBulk x ↦ record { 0 = 5 }
    ] };

    fn tag(&self) -> Tag {
        match self {
            RequestPdus::Get(get) => get.tag(),
            RequestPdus::GetNext(next) => next.tag(),
            RequestPdus::Set(set) => set.tag(),
            RequestPdus::GetBulk(bulk) => bulk.tag(),
        }
    }
}

impl<'a> LawfulChoice for RequestPdus<'a> {
    ghost laws = { request_laws };

    fn with_arm<U: UsesArm>(&self, using: U) -> U::Answer {
        match self {
            RequestPdus::Get(get) => with_get(get, using),
            RequestPdus::GetNext(next) => with_next(next, using),
            RequestPdus::Set(set) => with_set(set, using),
            RequestPdus::GetBulk(bulk) => with_bulk(bulk, using),
        }
    }
}

/// Uses a request for values.
#[tactic(auto, unfolding(crate::specs::Pdus::request_laws))]
fn with_get<U: UsesArm>(get: &GetRequest<'_>, using: U) -> U::Answer
    ensures { U.answers (arm_of_choice request_laws (requests.Get get.now)) result }
{
    using.use_arm(get)
}

/// Uses a request for the values behind.
#[tactic(auto, unfolding(crate::specs::Pdus::request_laws))]
fn with_next<U: UsesArm>(next: &GetNextRequest<'_>, using: U) -> U::Answer
    ensures { U.answers (arm_of_choice request_laws (requests.GetNext next.now)) result }
{
    using.use_arm(next)
}

/// Uses a request that gives values.
#[tactic(auto, unfolding(crate::specs::Pdus::request_laws))]
fn with_set<U: UsesArm>(set: &SetRequest<'_>, using: U) -> U::Answer
    ensures { U.answers (arm_of_choice request_laws (requests.Set set.now)) result }
{
    using.use_arm(set)
}

/// Uses a request for many values.
#[tactic(auto, unfolding(crate::specs::Pdus::request_laws))]
fn with_bulk<U: UsesArm>(bulk: &GetBulkRequest<'_>, using: U) -> U::Answer
    ensures { U.answers (arm_of_choice request_laws (requests.GetBulk bulk.now)) result }
{
    using.use_arm(bulk)
}

impl<'a> OfArms for RequestPdus<'a> {
    type Arms = RequestPdusArms<'a>;

    ghost as_arms = { in_request_arms };

    fn of_arms(arms: RequestPdusArms<'a>) -> RequestPdus<'a> {
        match arms {
            Or::This(get) => RequestPdus::Get(get),
            Or::Other(Or::This(next)) => RequestPdus::GetNext(next),
            Or::Other(Or::Other(Or::This(set))) => RequestPdus::Set(set),
            Or::Other(Or::Other(Or::Other(Or::This(bulk)))) => RequestPdus::GetBulk(bulk),
            Or::Other(Or::Other(Or::Other(Or::Other(none)))) => match none {},
        }
    }
}

#[tactic(auto, unfolding(crate::specs::Pdus::request_laws))]
impl<'a> ReadsChoiceByBer<'a> for RequestPdus<'a> {
    fn choice_of_any(alloc: Global, any: Any<'a>) -> Result<RequestPdus<'a>, Error> {
        choice_of_element(alloc, any)
    }
}

#[tactic(auto, unfolding(crate::specs::Pdus::request_laws))]
impl<'a> ChecksChoice for RequestPdus<'a> {
    fn check_choice(any: &Any<'_>) -> Result<(), Error>
        ensures { ChecksOf ⟦<RequestPdus<'a> as LawfulChoice>⟧.laws.arms.grammar.Check
            (parts_of any.now) result }
    {
        check_arms::<RequestPdusArms<'a>>(any)
    }
}

/// It may be an arm of another choice.
#[tactic(auto, unfolding(crate::specs::Pdus::request_laws))]
impl<'a> ToldChoice for RequestPdus<'a> {
    fn has_element(any: &Any<'_>) -> bool
        ensures { result ≡ has_a_tag ⟦<RequestPdus<'a> as LawfulChoice>⟧.laws.arms.grammar.tags
            (parts_of any.now).id }
    {
        <RequestPdusArms<'a> as TellsArms>::is_element_of_an_arm(any)
    }

    fn has_class(class: Class) -> bool
        ensures { result ≡ has_a_class ⟦<RequestPdus<'a> as LawfulChoice>⟧.laws.arms.grammar.tags
            (class_number class) }
    {
        <RequestPdusArms<'a> as TellsArms>::is_class_of_an_arm(class)
    }
}

#[tactic(auto, unfolding(crate::specs::Pdus::request_laws))]
impl<'a> ToldByNumber for RequestPdus<'a> {
    ghost numbers = { numbers_of_choice ⟦<RequestPdus<'a> as LawfulChoice>⟧.laws };

    fn has_number(tag: Tag) -> bool
        ensures { result ≡ is_one_of tag.0
            (numbers_of_choice ⟦<RequestPdus<'a> as LawfulChoice>⟧.laws) }
    {
        <RequestPdusArms<'a> as ArmNumbers>::is_of_an_arm(tag)
    }

    ghost told_by_number = { choice_numbers ⟦<RequestPdus<'a> as LawfulChoice>⟧.laws };
}
