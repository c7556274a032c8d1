//! What a responder signs: the status of certificates (RFC 6960, 4.2.1). It is read by DER, and borrowed from the
//! octets.
ghost use Rattle.asn1_rs.specs.Prelude.{choice_numbers, choice_of, choice_type, ChoiceReads, is_one_of, its_own_type};
ghost use Rattle.asn1_rs.specs.Prelude.{MadeOf, numbers_of_choice, refl, struct_of};
ghost use Rattle.std.specs.Prelude.{◌≡◌};
ghost use Rattle.asn1_rs.specs.declared.choices.arms.Or.TheVariants as arm;
ghost use Rattle.asn1_rs_certificates.specs.declared.response_data.ResponderId.TheVariants as responders;

use crate::{FirstVersion, Name, SingleResponse, Version};
use asn1_rs::author::{
    ArmNumbers, Arms, ChoiceKind, ChoiceReader, Fields, FieldsKind, HasKind, HasReader,
    LawfulChoice, LawfulStruct, LawfulType, Never, OfArms, Or, OrTagged, ReadsArms, ReadsChoice,
    ReadsFields, ReadsRow, Row, Row5, StructReader, ToldByNumber, UsesArm, choice_by_der,
};
use asn1_rs::{
    Defaulted, DerParser, DynTagged, Error, GeneralizedTime, OctetString, ParseResult,
    SerializeResult, Tag, TaggedExplicit, assert_fields_valid, put_fields, read_fields,
};
use asn1_rs_messages::Extension;
use std::alloc::Global;

/// What is signed of an answer.
///
///     ResponseData ::= SEQUENCE {
///         version             [0] EXPLICIT INTEGER DEFAULT v1(0),
///         responderID         ResponderID,
///         producedAt          GeneralizedTime,
///         responses           SEQUENCE OF SingleResponse,
///         responseExtensions  [1] EXPLICIT SEQUENCE OF Extension OPTIONAL }
#[derive(Debug, PartialEq, Drop)]
pub struct ResponseData<'a> {
    pub version: Defaulted<Version, FirstVersion>,
    pub responder_id: ResponderId<'a>,
    /// When the answer was signed.
    pub produced_at: GeneralizedTime,
    pub responses: Vec<SingleResponse<'a>>,
    pub response_extensions: Option<ResponseExtensions<'a>>,
}

/// Its fields.
pub type ResponseDataRow<'a> = Row5<
    Defaulted<Version, FirstVersion>,
    ResponderId<'a>,
    GeneralizedTime,
    Vec<SingleResponse<'a>>,
    Option<ResponseExtensions<'a>>,
>;

impl HasKind for ResponseData<'_> {
    type Kind = FieldsKind;
}

impl HasReader for ResponseData<'_> {
    type Reader = StructReader;
}

impl<'a> LawfulStruct for ResponseData<'a> {
    ghost laws = { struct_of
        (λ x. (x.version, (x.responder_id, (x.produced_at, (x.responses, (x.response_extensions, tt))))))
        ⟦<ResponseDataRow<'a> as Row>⟧.row_laws refl };

    fn put_row(&self, fields: &mut Fields) -> SerializeResult<()> {
        put_fields!(self, fields =>
            version, responder_id, produced_at, responses, response_extensions)
    }

    fn assert_row_valid(&self) {
        assert_fields_valid!(self =>
            version, responder_id, produced_at, responses, response_extensions)
    }
}

impl<'a> ReadsFields<'a> for ResponseData<'a> {
    ghost fields_give = { MadeOf ⟦<ResponseData<'a> as LawfulStruct>⟧.laws.as_row
        ⟦<ResponseDataRow<'a> as ReadsRow<'a, DerParser>>⟧.row_gives };

    fn read_fields(alloc: Global, octets: &'a [u8]) -> Result<ResponseData<'a>, Error> {
        read_fields!(row_by_der, alloc, octets => ResponseData {
            version, responder_id, produced_at, responses, response_extensions
        })
    }
}

/// Extensions of an answer, under their tag.
pub type ResponseExtensions<'a> = TaggedExplicit<Vec<Extension<'a>>, Error, 1>;

/// Who answered.
///
///     ResponderID ::= CHOICE {
///         byName  [1] EXPLICIT Name,
///         byKey   [2] EXPLICIT OCTET STRING }
#[derive(Debug, PartialEq, Drop)]
pub enum ResponderId<'a> {
    ByName(ResponderName<'a>),
    ByKey(ResponderKey<'a>),
}

/// Its arms.
pub type ResponderIdArms<'a> = OrTagged<ResponderName<'a>, OrTagged<ResponderKey<'a>, Never>>;

impl HasKind for ResponderId<'_> {
    type Kind = ChoiceKind;
}

impl HasReader for ResponderId<'_> {
    type Reader = ChoiceReader;
}

impl<'a> DynTagged for ResponderId<'a> {
    ghost dyn_tag = { λ x. elim x [
      | responders.ByName x ↦ record { 0 = 1 }
      | responders.ByKey x ↦ record { 0 = 2 }
    ] };

    fn tag(&self) -> Tag {
        match self {
            ResponderId::ByName(name) => name.tag(),
            ResponderId::ByKey(key) => key.tag(),
        }
    }
}

impl<'a> LawfulChoice for ResponderId<'a> {
    ghost laws = { choice_of (λ x. elim x [
      | responders.ByName x ↦ arm.This x
      | responders.ByKey x ↦ arm.Other (arm.This x)
    ])
        ⟦<ResponderIdArms<'a> as Arms>⟧.arm_laws refl };

    fn with_arm<U: UsesArm>(&self, using: U) -> U::Answer {
        match self {
            ResponderId::ByName(name) => using.use_arm(name),
            ResponderId::ByKey(key) => using.use_arm(key),
        }
    }
}

impl<'a> OfArms for ResponderId<'a> {
    type Arms = ResponderIdArms<'a>;

    ghost as_arms = { λ x. elim x [
      | responders.ByName x ↦ arm.This x
      | responders.ByKey x ↦ arm.Other (arm.This x)
    ] };

    fn of_arms(arms: ResponderIdArms<'a>) -> ResponderId<'a> {
        match arms {
            Or::This(name) => ResponderId::ByName(name),
            Or::Other(Or::This(key)) => ResponderId::ByKey(key),
            Or::Other(Or::Other(none)) => match none {},
        }
    }
}

impl<'a> ReadsChoice<'a> for ResponderId<'a> {
    ghost choice_gives = { ChoiceReads ⟦<ResponderId<'a> as LawfulChoice>⟧.laws.arms.grammar.tags
        ⟦<ResponderId<'a> as LawfulChoice>⟧.laws.as_arms ⟦<ResponderIdArms<'a> as ReadsArms<'a>>⟧.arms_give };

    fn read_choice(alloc: Global, octets: &'a [u8]) -> ParseResult<'a, ResponderId<'a>, Error> {
        choice_by_der(alloc, octets)
    }
}

/// It is a field of messages.
impl<'a> LawfulType for ResponderId<'a> {
    ghost type_laws = { choice_type ⟦<ResponderId<'a> as LawfulChoice>⟧.laws };
}

/// It is told by the tag numbers of its arms.
impl<'a> ToldByNumber for ResponderId<'a> {
    ghost numbers = { numbers_of_choice ⟦<ResponderId<'a> as LawfulChoice>⟧.laws };

    fn has_number(tag: Tag) -> bool
        ensures { result ≡ is_one_of tag.0
            (numbers_of_choice ⟦<ResponderId<'a> as LawfulChoice>⟧.laws) }
    {
        <ResponderIdArms<'a> as ArmNumbers>::is_of_an_arm(tag)
    }

    ghost told_by_number = { choice_numbers ⟦<ResponderId<'a> as LawfulChoice>⟧.laws };
}

/// The name of the responder, under its tag.
pub type ResponderName<'a> = TaggedExplicit<Name<'a>, Error, 1>;

/// The SHA-1 hash of the responder's public key, under its tag.
pub type ResponderKey<'a> = TaggedExplicit<OctetString<'a>, Error, 2>;
