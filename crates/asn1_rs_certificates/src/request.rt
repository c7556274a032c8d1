//! Requests for certificates (RFC 2986). They are read by DER, and borrowed from the octets.
ghost use Rattle.asn1_rs.specs.Prelude.{MadeOf, ReadsByDer, refl, seen, struct_of, WritesStrict};

use crate::Name;
use asn1_rs::author::{
    Fields, FieldsKind, HasKind, HasReader, LawfulStruct, ReadsFields, ReadsRow, Row, Row3, Row4,
    StructReader,
};
use asn1_rs::laws::Grammar;
use asn1_rs::{
    BitString, DerParser, Error, ParseResult, SerializeResult, SetOf, TaggedImplicit, ToDer,
    assert_fields_valid, put_fields, read_der, read_fields, strict_vec,
};
use asn1_rs_messages::{AlgorithmIdentifier, Attribute, SubjectPublicKeyInfo};
use std::alloc::Global;

/// A request for a certificate, signed by the key that it names (RFC 2986, 4.2).
///
///     CertificationRequest ::= SEQUENCE {
///         certificationRequestInfo  CertificationRequestInfo,
///         signatureAlgorithm        AlgorithmIdentifier,
///         signature                 BIT STRING }
#[derive(Debug, PartialEq, Drop)]
pub struct CertificationRequest<'a> {
    pub certification_request_info: CertificationRequestInfo<'a>,
    pub signature_algorithm: AlgorithmIdentifier<'a>,
    /// Over the encoding of what is asked.
    pub signature: BitString<'a>,
}

/// Its fields.
pub type CertificationRequestRow<'a> = Row3<
    CertificationRequestInfo<'a>,
    AlgorithmIdentifier<'a>,
    BitString<'a>,
>;

impl HasKind for CertificationRequest<'_> {
    type Kind = FieldsKind;
}

impl HasReader for CertificationRequest<'_> {
    type Reader = StructReader;
}

impl<'a> LawfulStruct for CertificationRequest<'a> {
    ghost laws = { struct_of (λ x. (x.certification_request_info, (x.signature_algorithm, (x.signature, tt))))
        ⟦<CertificationRequestRow<'a> as Row>⟧.row_laws refl };

    fn put_row(&self, fields: &mut Fields) -> SerializeResult<()> {
        put_fields!(self, fields => certification_request_info, signature_algorithm, signature)
    }

    fn assert_row_valid(&self) {
        assert_fields_valid!(self => certification_request_info, signature_algorithm, signature)
    }
}

impl<'a> ReadsFields<'a> for CertificationRequest<'a> {
    ghost fields_give = { MadeOf ⟦<CertificationRequest<'a> as LawfulStruct>⟧.laws.as_row
        ⟦<CertificationRequestRow<'a> as ReadsRow<'a, DerParser>>⟧.row_gives };

    fn read_fields(alloc: Global, octets: &'a [u8]) -> Result<CertificationRequest<'a>, Error> {
        read_fields!(row_by_der, alloc, octets => CertificationRequest {
            certification_request_info, signature_algorithm, signature
        })
    }
}

/// What is asked (RFC 2986, 4.1).
///
///     CertificationRequestInfo ::= SEQUENCE {
///         version        INTEGER { v1(0) },
///         subject        Name,
///         subjectPKInfo  SubjectPublicKeyInfo,
///         attributes     [0] IMPLICIT SET OF Attribute }
#[derive(Debug, PartialEq, Drop)]
pub struct CertificationRequestInfo<'a> {
    /// 0, for the one version.
    pub version: u8,
    pub subject: Name<'a>,
    pub subject_public_key_info: SubjectPublicKeyInfo<'a>,
    pub attributes: RequestAttributes<'a>,
}

/// Its fields.
pub type CertificationRequestInfoRow<'a> = Row4<
    u8,
    Name<'a>,
    SubjectPublicKeyInfo<'a>,
    RequestAttributes<'a>,
>;

impl HasKind for CertificationRequestInfo<'_> {
    type Kind = FieldsKind;
}

impl HasReader for CertificationRequestInfo<'_> {
    type Reader = StructReader;
}

impl<'a> LawfulStruct for CertificationRequestInfo<'a> {
    ghost laws = { struct_of (λ x. (x.version, (x.subject, (x.subject_public_key_info, (x.attributes, tt)))))
        ⟦<CertificationRequestInfoRow<'a> as Row>⟧.row_laws refl };

    fn put_row(&self, fields: &mut Fields) -> SerializeResult<()> {
        put_fields!(self, fields => version, subject, subject_public_key_info, attributes)
    }

    fn assert_row_valid(&self) {
        assert_fields_valid!(self => version, subject, subject_public_key_info, attributes)
    }
}

impl<'a> ReadsFields<'a> for CertificationRequestInfo<'a> {
    ghost fields_give = { MadeOf ⟦<CertificationRequestInfo<'a> as LawfulStruct>⟧.laws.as_row
        ⟦<CertificationRequestInfoRow<'a> as ReadsRow<'a, DerParser>>⟧.row_gives };

    fn read_fields(alloc: Global, octets: &'a [u8]) -> Result<CertificationRequestInfo<'a>, Error> {
        read_fields!(row_by_der, alloc, octets => CertificationRequestInfo {
            version, subject, subject_public_key_info, attributes
        })
    }
}

/// Attributes of what is asked, under their tag. Extensions for the certificate are one of them (RFC 2985, 5.4.2).
pub type RequestAttributes<'a> = TaggedImplicit<SetOf<Attribute<'a>>, Error, 0>;

/// The request at the front of the octets, by DER, and what follows it.
pub fn read_request<'a>(
    alloc: Global,
    octets: &'a [u8],
) -> ParseResult<'a, CertificationRequest<'a>, Error>
    ensures { ReadsByDer ⟦<CertificationRequest<'a> as Grammar>⟧.grammar octets.now (seen result) }
{
    read_der::<CertificationRequest<'a>, Error>(alloc, octets)
}

/// The one strict encoding of a request in DER form. Where its length fits `usize`, it is refused only when out of
/// memory.
pub fn request_vec(alloc: Global, request: &CertificationRequest<'_>) -> SerializeResult<Vec<u8>>
    ensures { ⟦<CertificationRequest<'static> as Grammar>⟧.grammar.IsDer
        (⟦<CertificationRequest<'static> as Grammar>⟧.grammar.value request.now) →
        WritesStrict ⟦<CertificationRequest<'static> as Grammar>⟧.grammar
        ⟦<CertificationRequest<'static> as ToDer>⟧.writing request.now result }
{
    strict_vec(alloc, request)
}
