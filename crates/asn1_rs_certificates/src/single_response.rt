//! The status of one certificate (RFC 6960, 4.2.1). It is read by DER, and borrowed from the octets.
ghost use Rattle.asn1_rs.specs.Prelude.{choice_numbers, choice_of, choice_type, ChoiceReads, is_one_of, MadeOf};
ghost use Rattle.asn1_rs.specs.Prelude.{numbers_of_choice, refl, struct_of};
ghost use Rattle.std.specs.Prelude.{◌≡◌};
ghost use Rattle.asn1_rs.specs.declared.choices.arms.Or.TheVariants as arm;
ghost use Rattle.asn1_rs_certificates.specs.declared.single_response.CertStatus.TheVariants as statuses;

use crate::ResponseExtensions;
use asn1_rs::author::{
    ArmNumbers, Arms, ChoiceKind, ChoiceReader, Fields, FieldsKind, HasKind, HasReader,
    LawfulChoice, LawfulStruct, LawfulType, Never, OfArms, Or, OrTagged, ReadsArms, ReadsChoice,
    ReadsFields, ReadsFieldsByBer, ReadsRow, Row, Row2, Row4, Row5, StructReader, ToldByNumber,
    UsesArm, choice_by_der,
};
use asn1_rs::{
    BerParser, DerParser, DynTagged, Enumerated, Error, GeneralizedTime, Integer, Null,
    OctetString, ParseResult, SerializeResult, Tag, TaggedExplicit, TaggedImplicit,
    assert_fields_valid, put_fields, read_fields,
};
use asn1_rs_messages::AlgorithmIdentifier;
use std::alloc::Global;

/// The status of a certificate.
///
///     SingleResponse ::= SEQUENCE {
///         certID            CertID,
///         certStatus        CertStatus,
///         thisUpdate        GeneralizedTime,
///         nextUpdate        [0] EXPLICIT GeneralizedTime OPTIONAL,
///         singleExtensions  [1] EXPLICIT SEQUENCE OF Extension OPTIONAL }
#[derive(Debug, PartialEq, Drop)]
pub struct SingleResponse<'a> {
    pub cert_id: CertId<'a>,
    pub cert_status: CertStatus,
    /// When the status was known to be so.
    pub this_update: GeneralizedTime,
    pub next_update: Option<NextUpdate>,
    pub single_extensions: Option<ResponseExtensions<'a>>,
}

/// Its fields.
pub type SingleResponseRow<'a> = Row5<
    CertId<'a>,
    CertStatus,
    GeneralizedTime,
    Option<NextUpdate>,
    Option<ResponseExtensions<'a>>,
>;

impl HasKind for SingleResponse<'_> {
    type Kind = FieldsKind;
}

impl HasReader for SingleResponse<'_> {
    type Reader = StructReader;
}

impl<'a> LawfulStruct for SingleResponse<'a> {
    ghost laws = { struct_of
        (λ x. (x.cert_id, (x.cert_status, (x.this_update, (x.next_update, (x.single_extensions, tt))))))
        ⟦<SingleResponseRow<'a> as Row>⟧.row_laws refl };

    fn put_row(&self, fields: &mut Fields) -> SerializeResult<()> {
        put_fields!(self, fields =>
            cert_id, cert_status, this_update, next_update, single_extensions)
    }

    fn assert_row_valid(&self) {
        assert_fields_valid!(self =>
            cert_id, cert_status, this_update, next_update, single_extensions)
    }
}

impl<'a> ReadsFields<'a> for SingleResponse<'a> {
    ghost fields_give = { MadeOf ⟦<SingleResponse<'a> as LawfulStruct>⟧.laws.as_row
        ⟦<SingleResponseRow<'a> as ReadsRow<'a, DerParser>>⟧.row_gives };

    fn read_fields(alloc: Global, octets: &'a [u8]) -> Result<SingleResponse<'a>, Error> {
        read_fields!(row_by_der, alloc, octets => SingleResponse {
            cert_id, cert_status, this_update, next_update, single_extensions
        })
    }
}

/// When newer information is available at the latest, under its tag.
pub type NextUpdate = TaggedExplicit<GeneralizedTime, Error, 0>;

/// Which certificate it is (RFC 6960, 4.1.1).
///
///     CertID ::= SEQUENCE {
///         hashAlgorithm   AlgorithmIdentifier,
///         issuerNameHash  OCTET STRING,
///         issuerKeyHash   OCTET STRING,
///         serialNumber    INTEGER }
#[derive(Debug, PartialEq, Drop)]
pub struct CertId<'a> {
    pub hash_algorithm: AlgorithmIdentifier<'a>,
    /// Of the encoding of the issuer's name.
    pub issuer_name_hash: OctetString<'a>,
    /// Of the bits of the issuer's public key.
    pub issuer_key_hash: OctetString<'a>,
    pub serial_number: Integer<'a>,
}

/// Its fields.
pub type CertIdRow<'a> = Row4<
    AlgorithmIdentifier<'a>,
    OctetString<'a>,
    OctetString<'a>,
    Integer<'a>,
>;

impl HasKind for CertId<'_> {
    type Kind = FieldsKind;
}

impl HasReader for CertId<'_> {
    type Reader = StructReader;
}

impl<'a> LawfulStruct for CertId<'a> {
    ghost laws = { struct_of
        (λ x. (x.hash_algorithm, (x.issuer_name_hash, (x.issuer_key_hash, (x.serial_number, tt)))))
        ⟦<CertIdRow<'a> as Row>⟧.row_laws refl };

    fn put_row(&self, fields: &mut Fields) -> SerializeResult<()> {
        put_fields!(self, fields =>
            hash_algorithm, issuer_name_hash, issuer_key_hash, serial_number)
    }

    fn assert_row_valid(&self) {
        assert_fields_valid!(self =>
            hash_algorithm, issuer_name_hash, issuer_key_hash, serial_number)
    }
}

impl<'a> ReadsFields<'a> for CertId<'a> {
    ghost fields_give = { MadeOf ⟦<CertId<'a> as LawfulStruct>⟧.laws.as_row
        ⟦<CertIdRow<'a> as ReadsRow<'a, DerParser>>⟧.row_gives };

    fn read_fields(alloc: Global, octets: &'a [u8]) -> Result<CertId<'a>, Error> {
        read_fields!(row_by_der, alloc, octets => CertId {
            hash_algorithm, issuer_name_hash, issuer_key_hash, serial_number
        })
    }
}

/// What is known of a certificate.
///
///     CertStatus ::= CHOICE {
///         good     [0] IMPLICIT NULL,
///         revoked  [1] IMPLICIT RevokedInfo,
///         unknown  [2] IMPLICIT NULL }
#[derive(Debug, PartialEq, Drop)]
pub enum CertStatus {
    Good(Good),
    Revoked(Revoked),
    Unknown(Unknown),
}

/// Its arms.
pub type CertStatusArms = OrTagged<Good, OrTagged<Revoked, OrTagged<Unknown, Never>>>;

impl HasKind for CertStatus {
    type Kind = ChoiceKind;
}

impl HasReader for CertStatus {
    type Reader = ChoiceReader;
}

impl DynTagged for CertStatus {
    ghost dyn_tag = { λ x. elim x [
      | statuses.Good x ↦ record { 0 = 0 }
      | statuses.Revoked x ↦ record { 0 = 1 }
      | statuses.Unknown x ↦ record { 0 = 2 }
    ] };

    fn tag(&self) -> Tag {
        match self {
            CertStatus::Good(good) => good.tag(),
            CertStatus::Revoked(revoked) => revoked.tag(),
            CertStatus::Unknown(unknown) => unknown.tag(),
        }
    }
}

impl LawfulChoice for CertStatus {
    ghost laws = { choice_of (λ x. elim x [
      | statuses.Good x ↦ arm.This x
      | statuses.Revoked x ↦ arm.Other (arm.This x)
      | statuses.Unknown x ↦ arm.Other (arm.Other (arm.This x))
    ])
        ⟦<CertStatusArms as Arms>⟧.arm_laws refl };

    fn with_arm<U: UsesArm>(&self, using: U) -> U::Answer {
        match self {
            CertStatus::Good(good) => using.use_arm(good),
            CertStatus::Revoked(revoked) => using.use_arm(revoked),
            CertStatus::Unknown(unknown) => using.use_arm(unknown),
        }
    }
}

impl OfArms for CertStatus {
    type Arms = CertStatusArms;

    ghost as_arms = { λ x. elim x [
      | statuses.Good x ↦ arm.This x
      | statuses.Revoked x ↦ arm.Other (arm.This x)
      | statuses.Unknown x ↦ arm.Other (arm.Other (arm.This x))
    ] };

    fn of_arms(arms: CertStatusArms) -> CertStatus {
        match arms {
            Or::This(good) => CertStatus::Good(good),
            Or::Other(Or::This(revoked)) => CertStatus::Revoked(revoked),
            Or::Other(Or::Other(Or::This(unknown))) => CertStatus::Unknown(unknown),
            Or::Other(Or::Other(Or::Other(none))) => match none {},
        }
    }
}

impl<'a> ReadsChoice<'a> for CertStatus {
    ghost choice_gives = { ChoiceReads ⟦<CertStatus as LawfulChoice>⟧.laws.arms.grammar.tags
        ⟦<CertStatus as LawfulChoice>⟧.laws.as_arms ⟦<CertStatusArms as ReadsArms<'a>>⟧.arms_give };

    fn read_choice(alloc: Global, octets: &'a [u8]) -> ParseResult<'a, CertStatus, Error> {
        choice_by_der(alloc, octets)
    }
}

/// It is a field of messages.
impl LawfulType for CertStatus {
    ghost type_laws = { choice_type ⟦<CertStatus as LawfulChoice>⟧.laws };
}

/// It is told by the tag numbers of its arms.
impl ToldByNumber for CertStatus {
    ghost numbers = { numbers_of_choice ⟦<CertStatus as LawfulChoice>⟧.laws };

    fn has_number(tag: Tag) -> bool
        ensures { result ≡ is_one_of tag.0
            (numbers_of_choice ⟦<CertStatus as LawfulChoice>⟧.laws) }
    {
        <CertStatusArms as ArmNumbers>::is_of_an_arm(tag)
    }

    ghost told_by_number = { choice_numbers ⟦<CertStatus as LawfulChoice>⟧.laws };
}

/// It is not revoked, under its tag.
pub type Good = TaggedImplicit<Null, Error, 0>;

/// It is revoked, under its tag.
pub type Revoked = TaggedImplicit<RevokedInfo, Error, 1>;

/// The responder does not know it, under its tag.
pub type Unknown = TaggedImplicit<Null, Error, 2>;

/// When a certificate was revoked, and why.
///
///     RevokedInfo ::= SEQUENCE {
///         revocationTime    GeneralizedTime,
///         revocationReason  [0] EXPLICIT ENUMERATED OPTIONAL }
#[derive(Debug, PartialEq, Drop)]
pub struct RevokedInfo {
    pub revocation_time: GeneralizedTime,
    pub revocation_reason: Option<RevocationReason>,
}

/// Its fields.
pub type RevokedInfoRow = Row2<GeneralizedTime, Option<RevocationReason>>;

impl HasKind for RevokedInfo {
    type Kind = FieldsKind;
}

impl HasReader for RevokedInfo {
    type Reader = StructReader;
}

impl LawfulStruct for RevokedInfo {
    ghost laws = { struct_of (λ x. (x.revocation_time, (x.revocation_reason, tt)))
        ⟦<RevokedInfoRow as Row>⟧.row_laws refl };

    fn put_row(&self, fields: &mut Fields) -> SerializeResult<()> {
        put_fields!(self, fields => revocation_time, revocation_reason)
    }

    fn assert_row_valid(&self) {
        assert_fields_valid!(self => revocation_time, revocation_reason)
    }
}

impl<'a> ReadsFields<'a> for RevokedInfo {
    ghost fields_give = { MadeOf ⟦<RevokedInfo as LawfulStruct>⟧.laws.as_row
        ⟦<RevokedInfoRow as ReadsRow<'a, DerParser>>⟧.row_gives };

    fn read_fields(alloc: Global, octets: &'a [u8]) -> Result<RevokedInfo, Error> {
        read_fields!(row_by_der, alloc, octets => RevokedInfo {
            revocation_time, revocation_reason
        })
    }
}

impl<'a> ReadsFieldsByBer<'a> for RevokedInfo {
    ghost fields_give_by_ber = { MadeOf ⟦<RevokedInfo as LawfulStruct>⟧.laws.as_row
        ⟦<RevokedInfoRow as ReadsRow<'a, BerParser>>⟧.row_gives };

    fn read_fields_by_ber(alloc: Global, octets: &'a [u8]) -> Result<RevokedInfo, Error> {
        read_fields!(row_by_ber, alloc, octets => RevokedInfo {
            revocation_time, revocation_reason
        })
    }
}

/// Why a certificate was revoked (RFC 5280, 5.3.1), under its tag.
pub type RevocationReason = TaggedExplicit<Enumerated, Error, 0>;
