//! Signed content (RFC 5652, 5). It is read by DER, and borrowed from the octets.
ghost use Rattle.asn1_rs.specs.Prelude.{MadeOf, ReadsByDer, refl, seen, struct_of, WritesStrict};

use crate::SignerInfo;
use asn1_rs::author::{
    Fields, FieldsKind, HasKind, HasReader, LawfulStruct, ReadsFields, ReadsRow, Row, Row2, Row6,
    StructReader,
};
use asn1_rs::laws::Grammar;
use asn1_rs::{
    Any, DerParser, Error, OctetString, Oid, ParseResult, SerializeResult, SetOf, TaggedExplicit,
    TaggedImplicit, ToDer, assert_fields_valid, put_fields, read_der, read_fields, strict_vec,
};
use asn1_rs_messages::AlgorithmIdentifier;
use std::alloc::Global;

/// Content, and who signed it. It is the content of a `ContentInfo` whose type is 1.2.840.113549.1.7.2.
///
///     SignedData ::= SEQUENCE {
///         version           INTEGER,
///         digestAlgorithms  SET OF AlgorithmIdentifier,
///         encapContentInfo  EncapsulatedContentInfo,
///         certificates      [0] IMPLICIT SET OF CertificateChoices OPTIONAL,
///         crls              [1] IMPLICIT SET OF RevocationInfoChoice OPTIONAL,
///         signerInfos       SET OF SignerInfo }
#[derive(Debug, PartialEq, Drop)]
pub struct SignedData<'a> {
    pub version: u8,
    pub digest_algorithms: SetOf<AlgorithmIdentifier<'a>>,
    pub encap_content_info: EncapsulatedContentInfo<'a>,
    pub certificates: Option<SignerCertificates<'a>>,
    pub crls: Option<RevocationLists<'a>>,
    pub signer_infos: SetOf<SignerInfo<'a>>,
}

/// Its fields.
pub type SignedDataRow<'a> = Row6<
    u8,
    SetOf<AlgorithmIdentifier<'a>>,
    EncapsulatedContentInfo<'a>,
    Option<SignerCertificates<'a>>,
    Option<RevocationLists<'a>>,
    SetOf<SignerInfo<'a>>,
>;

impl HasKind for SignedData<'_> {
    type Kind = FieldsKind;
}

impl HasReader for SignedData<'_> {
    type Reader = StructReader;
}

impl<'a> LawfulStruct for SignedData<'a> {
    ghost laws = { struct_of
        (λ x. (x.version, (x.digest_algorithms, (x.encap_content_info, (x.certificates, (x.crls, (x.signer_infos, tt)))))))
        ⟦<SignedDataRow<'a> as Row>⟧.row_laws refl };

    fn put_row(&self, fields: &mut Fields) -> SerializeResult<()> {
        put_fields!(self, fields =>
            version, digest_algorithms, encap_content_info, certificates, crls, signer_infos)
    }

    fn assert_row_valid(&self) {
        assert_fields_valid!(self =>
            version, digest_algorithms, encap_content_info, certificates, crls, signer_infos)
    }
}

impl<'a> ReadsFields<'a> for SignedData<'a> {
    ghost fields_give = { MadeOf ⟦<SignedData<'a> as LawfulStruct>⟧.laws.as_row
        ⟦<SignedDataRow<'a> as ReadsRow<'a, DerParser>>⟧.row_gives };

    fn read_fields(alloc: Global, octets: &'a [u8]) -> Result<SignedData<'a>, Error> {
        read_fields!(row_by_der, alloc, octets => SignedData {
            version, digest_algorithms, encap_content_info, certificates, crls, signer_infos
        })
    }
}

/// Certificates that help to verify signatures, under their tag. Each is kept as the element that it is, since other
/// kinds than those of X.509 may stand among them.
pub type SignerCertificates<'a> = TaggedImplicit<SetOf<Any<'a>>, Error, 0>;

/// Lists of revoked certificates, under their tag, as the elements that they are.
pub type RevocationLists<'a> = TaggedImplicit<SetOf<Any<'a>>, Error, 1>;

/// What is signed, and the identifier of its type.
///
///     EncapsulatedContentInfo ::= SEQUENCE {
///         eContentType  OBJECT IDENTIFIER,
///         eContent      [0] EXPLICIT OCTET STRING OPTIONAL }
#[derive(Debug, PartialEq, Drop)]
pub struct EncapsulatedContentInfo<'a> {
    pub content_type: Oid<'a>,
    /// None where the signature is apart from the content.
    pub content: Option<SignedContent<'a>>,
}

/// Its fields.
pub type EncapsulatedContentRow<'a> = Row2<Oid<'a>, Option<SignedContent<'a>>>;

impl HasKind for EncapsulatedContentInfo<'_> {
    type Kind = FieldsKind;
}

impl HasReader for EncapsulatedContentInfo<'_> {
    type Reader = StructReader;
}

impl<'a> LawfulStruct for EncapsulatedContentInfo<'a> {
    ghost laws = { struct_of (λ x. (x.content_type, (x.content, tt)))
        ⟦<EncapsulatedContentRow<'a> as Row>⟧.row_laws refl };

    fn put_row(&self, fields: &mut Fields) -> SerializeResult<()> {
        put_fields!(self, fields => content_type, content)
    }

    fn assert_row_valid(&self) {
        assert_fields_valid!(self => content_type, content)
    }
}

impl<'a> ReadsFields<'a> for EncapsulatedContentInfo<'a> {
    ghost fields_give = { MadeOf ⟦<EncapsulatedContentInfo<'a> as LawfulStruct>⟧.laws.as_row
        ⟦<EncapsulatedContentRow<'a> as ReadsRow<'a, DerParser>>⟧.row_gives };

    fn read_fields(alloc: Global, octets: &'a [u8]) -> Result<EncapsulatedContentInfo<'a>, Error> {
        read_fields!(row_by_der, alloc, octets => EncapsulatedContentInfo {
            content_type, content
        })
    }
}

/// The content, under its tag.
pub type SignedContent<'a> = TaggedExplicit<OctetString<'a>, Error, 0>;

/// The signed content at the front of the octets, by DER, and what follows it.
pub fn read_signed_data<'a>(
    alloc: Global,
    octets: &'a [u8],
) -> ParseResult<'a, SignedData<'a>, Error>
    ensures { ReadsByDer ⟦<SignedData<'a> as Grammar>⟧.grammar octets.now (seen result) }
{
    read_der::<SignedData<'a>, Error>(alloc, octets)
}

/// The one strict encoding of a signed content in DER form. Where its length fits `usize`, it is refused only when out
/// of memory.
pub fn signed_data_vec(alloc: Global, signed_data: &SignedData<'_>) -> SerializeResult<Vec<u8>>
    ensures { ⟦<SignedData<'static> as Grammar>⟧.grammar.IsDer
        (⟦<SignedData<'static> as Grammar>⟧.grammar.value signed_data.now) →
        WritesStrict ⟦<SignedData<'static> as Grammar>⟧.grammar
        ⟦<SignedData<'static> as ToDer>⟧.writing signed_data.now result }
{
    strict_vec(alloc, signed_data)
}
