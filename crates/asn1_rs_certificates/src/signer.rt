//! Who signed content (RFC 5652, 5.3). It is read by DER, and borrowed from the octets.
ghost use Rattle.asn1_rs.specs.Prelude.{choice_numbers, choice_of, choice_type, ChoiceReads, is_one_of, MadeOf};
ghost use Rattle.asn1_rs.specs.Prelude.{numbers_of_choice, refl, struct_of};
ghost use Rattle.std.specs.Prelude.{◌≡◌};
ghost use Rattle.asn1_rs.specs.declared.choices.arms.Or.TheVariants as arm;
ghost use Rattle.asn1_rs_certificates.specs.declared.signer.SignerIdentifier.TheVariants as signers;

use crate::Name;
use asn1_rs::author::{
    ArmNumbers, Arms, ChoiceKind, ChoiceReader, Fields, FieldsKind, HasKind, HasReader,
    LawfulChoice, LawfulStruct, LawfulType, Never, OfArms, Or, OrTagged, OrUniversal, ReadsArms,
    ReadsChoice, ReadsFields, ReadsRow, Row, Row2, Row7, StructReader, ToldByNumber, UsesArm,
    choice_by_der,
};
use asn1_rs::{
    DerParser, DynTagged, Error, Integer, OctetString, ParseResult, SerializeResult, SetOf, Tag,
    TaggedImplicit, assert_fields_valid, put_fields, read_fields,
};
use asn1_rs_messages::{AlgorithmIdentifier, Attribute};
use std::alloc::Global;

/// One signature of content.
///
///     SignerInfo ::= SEQUENCE {
///         version             INTEGER,
///         sid                 SignerIdentifier,
///         digestAlgorithm     AlgorithmIdentifier,
///         signedAttrs         [0] IMPLICIT SET OF Attribute OPTIONAL,
///         signatureAlgorithm  AlgorithmIdentifier,
///         signature           OCTET STRING,
///         unsignedAttrs       [1] IMPLICIT SET OF Attribute OPTIONAL }
#[derive(Debug, PartialEq, Drop)]
pub struct SignerInfo<'a> {
    pub version: u8,
    pub sid: SignerIdentifier<'a>,
    pub digest_algorithm: AlgorithmIdentifier<'a>,
    pub signed_attrs: Option<SignedAttributes<'a>>,
    pub signature_algorithm: AlgorithmIdentifier<'a>,
    /// Over the attributes that are signed, as a SET OF; without these over the content.
    pub signature: OctetString<'a>,
    pub unsigned_attrs: Option<UnsignedAttributes<'a>>,
}

/// Its fields.
pub type SignerInfoRow<'a> = Row7<
    u8,
    SignerIdentifier<'a>,
    AlgorithmIdentifier<'a>,
    Option<SignedAttributes<'a>>,
    AlgorithmIdentifier<'a>,
    OctetString<'a>,
    Option<UnsignedAttributes<'a>>,
>;

impl HasKind for SignerInfo<'_> {
    type Kind = FieldsKind;
}

impl HasReader for SignerInfo<'_> {
    type Reader = StructReader;
}

impl<'a> LawfulStruct for SignerInfo<'a> {
    ghost laws = { struct_of
        (λ x. (x.version, (x.sid, (x.digest_algorithm, (x.signed_attrs, (x.signature_algorithm, (x.signature, (x.unsigned_attrs, tt))))))))
        ⟦<SignerInfoRow<'a> as Row>⟧.row_laws refl };

    fn put_row(&self, fields: &mut Fields) -> SerializeResult<()> {
        put_fields!(self, fields =>
            version, sid, digest_algorithm, signed_attrs, signature_algorithm, signature, unsigned_attrs)
    }

    fn assert_row_valid(&self) {
        assert_fields_valid!(self =>
            version, sid, digest_algorithm, signed_attrs, signature_algorithm, signature, unsigned_attrs)
    }
}

impl<'a> ReadsFields<'a> for SignerInfo<'a> {
    ghost fields_give = { MadeOf ⟦<SignerInfo<'a> as LawfulStruct>⟧.laws.as_row
        ⟦<SignerInfoRow<'a> as ReadsRow<'a, DerParser>>⟧.row_gives };

    fn read_fields(alloc: Global, octets: &'a [u8]) -> Result<SignerInfo<'a>, Error> {
        read_fields!(row_by_der, alloc, octets => SignerInfo {
            version, sid, digest_algorithm, signed_attrs, signature_algorithm, signature, unsigned_attrs
        })
    }
}

/// Attributes that are signed with the content, under their tag.
pub type SignedAttributes<'a> = TaggedImplicit<SetOf<Attribute<'a>>, Error, 0>;

/// Attributes beside the signature, under their tag.
pub type UnsignedAttributes<'a> = TaggedImplicit<SetOf<Attribute<'a>>, Error, 1>;

/// Whose certificate verifies the signature.
///
///     SignerIdentifier ::= CHOICE {
///         issuerAndSerialNumber  IssuerAndSerialNumber,
///         subjectKeyIdentifier   [0] IMPLICIT OCTET STRING }
#[derive(Debug, PartialEq, Drop)]
pub enum SignerIdentifier<'a> {
    Issuer(IssuerAndSerialNumber<'a>),
    Key(SubjectKeyIdentifier<'a>),
}

/// Its arms.
pub type SignerIdentifierArms<'a> = OrUniversal<
    IssuerAndSerialNumber<'a>,
    OrTagged<SubjectKeyIdentifier<'a>, Never>,
>;

impl HasKind for SignerIdentifier<'_> {
    type Kind = ChoiceKind;
}

impl HasReader for SignerIdentifier<'_> {
    type Reader = ChoiceReader;
}

impl<'a> DynTagged for SignerIdentifier<'a> {
    ghost dyn_tag = { λ x. elim x [
      | signers.Issuer x ↦ record { 0 = 16 }
      | signers.Key x ↦ record { 0 = 0 }
    ] };

    fn tag(&self) -> Tag {
        match self {
            SignerIdentifier::Issuer(_) => Tag::Sequence,
            SignerIdentifier::Key(key) => key.tag(),
        }
    }
}

impl<'a> LawfulChoice for SignerIdentifier<'a> {
    ghost laws = { choice_of (λ x. elim x [
      | signers.Issuer x ↦ arm.This x
      | signers.Key x ↦ arm.Other (arm.This x)
    ])
        ⟦<SignerIdentifierArms<'a> as Arms>⟧.arm_laws refl };

    fn with_arm<U: UsesArm>(&self, using: U) -> U::Answer {
        match self {
            SignerIdentifier::Issuer(issuer) => using.use_arm(issuer),
            SignerIdentifier::Key(key) => using.use_arm(key),
        }
    }
}

impl<'a> OfArms for SignerIdentifier<'a> {
    type Arms = SignerIdentifierArms<'a>;

    ghost as_arms = { λ x. elim x [
      | signers.Issuer x ↦ arm.This x
      | signers.Key x ↦ arm.Other (arm.This x)
    ] };

    fn of_arms(arms: SignerIdentifierArms<'a>) -> SignerIdentifier<'a> {
        match arms {
            Or::This(issuer) => SignerIdentifier::Issuer(issuer),
            Or::Other(Or::This(key)) => SignerIdentifier::Key(key),
            Or::Other(Or::Other(none)) => match none {},
        }
    }
}

impl<'a> ReadsChoice<'a> for SignerIdentifier<'a> {
    ghost choice_gives = { ChoiceReads ⟦<SignerIdentifier<'a> as LawfulChoice>⟧.laws.arms.grammar.tags
        ⟦<SignerIdentifier<'a> as LawfulChoice>⟧.laws.as_arms ⟦<SignerIdentifierArms<'a> as ReadsArms<'a>>⟧.arms_give };

    fn read_choice(
        alloc: Global,
        octets: &'a [u8],
    ) -> ParseResult<'a, SignerIdentifier<'a>, Error> {
        choice_by_der(alloc, octets)
    }
}

/// It is a field of messages.
impl<'a> LawfulType for SignerIdentifier<'a> {
    ghost type_laws = { choice_type ⟦<SignerIdentifier<'a> as LawfulChoice>⟧.laws };
}

/// It is told by the tag numbers of its arms.
impl<'a> ToldByNumber for SignerIdentifier<'a> {
    ghost numbers = { numbers_of_choice ⟦<SignerIdentifier<'a> as LawfulChoice>⟧.laws };

    fn has_number(tag: Tag) -> bool
        ensures { result ≡ is_one_of tag.0
            (numbers_of_choice ⟦<SignerIdentifier<'a> as LawfulChoice>⟧.laws) }
    {
        <SignerIdentifierArms<'a> as ArmNumbers>::is_of_an_arm(tag)
    }

    ghost told_by_number = { choice_numbers ⟦<SignerIdentifier<'a> as LawfulChoice>⟧.laws };
}

/// The identifier of a key (RFC 5280, 4.2.1.2), under its tag.
pub type SubjectKeyIdentifier<'a> = TaggedImplicit<OctetString<'a>, Error, 0>;

/// A certificate by its issuer and its number (RFC 5652, 10.2.4).
///
///     IssuerAndSerialNumber ::= SEQUENCE {
///         issuer        Name,
///         serialNumber  INTEGER }
#[derive(Debug, PartialEq, Drop)]
pub struct IssuerAndSerialNumber<'a> {
    pub issuer: Name<'a>,
    pub serial_number: Integer<'a>,
}

/// Its fields.
pub type IssuerAndSerialRow<'a> = Row2<Name<'a>, Integer<'a>>;

impl HasKind for IssuerAndSerialNumber<'_> {
    type Kind = FieldsKind;
}

impl HasReader for IssuerAndSerialNumber<'_> {
    type Reader = StructReader;
}

impl<'a> LawfulStruct for IssuerAndSerialNumber<'a> {
    ghost laws = { struct_of (λ x. (x.issuer, (x.serial_number, tt)))
        ⟦<IssuerAndSerialRow<'a> as Row>⟧.row_laws refl };

    fn put_row(&self, fields: &mut Fields) -> SerializeResult<()> {
        put_fields!(self, fields => issuer, serial_number)
    }

    fn assert_row_valid(&self) {
        assert_fields_valid!(self => issuer, serial_number)
    }
}

impl<'a> ReadsFields<'a> for IssuerAndSerialNumber<'a> {
    ghost fields_give = { MadeOf ⟦<IssuerAndSerialNumber<'a> as LawfulStruct>⟧.laws.as_row
        ⟦<IssuerAndSerialRow<'a> as ReadsRow<'a, DerParser>>⟧.row_gives };

    fn read_fields(alloc: Global, octets: &'a [u8]) -> Result<IssuerAndSerialNumber<'a>, Error> {
        read_fields!(row_by_der, alloc, octets => IssuerAndSerialNumber {
            issuer, serial_number
        })
    }
}
