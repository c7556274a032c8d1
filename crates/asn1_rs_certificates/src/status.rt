//! The answer of a responder on the status of certificates (RFC 6960, 4.2.1). It is read by DER, and borrowed from the
//! octets.
ghost use Rattle.asn1_rs.specs.Prelude.{MadeOf, ReadsByDer, refl, seen, struct_of, WritesStrict};

use crate::{Certificate, ResponseData};
use asn1_rs::author::{
    Fields, FieldsKind, HasKind, HasReader, LawfulStruct, ReadsFields, ReadsRow, Row, Row2, Row4,
    StructReader,
};
use asn1_rs::laws::Grammar;
use asn1_rs::{
    BitString, DerParser, Enumerated, Error, OctetString, Oid, ParseResult, SerializeResult,
    TaggedExplicit, ToDer, assert_fields_valid, put_fields, read_der, read_fields, strict_vec,
};
use asn1_rs_messages::AlgorithmIdentifier;
use std::alloc::Global;

/// What a responder answers.
///
///     OCSPResponse ::= SEQUENCE {
///         responseStatus  ENUMERATED,
///         responseBytes   [0] EXPLICIT ResponseBytes OPTIONAL }
#[derive(Debug, PartialEq, Drop)]
pub struct OcspResponse<'a> {
    /// 0 where the request was answered, and else why it was not.
    pub response_status: Enumerated,
    pub response_bytes: Option<TaggedResponseBytes<'a>>,
}

/// Its fields.
pub type OcspResponseRow<'a> = Row2<Enumerated, Option<TaggedResponseBytes<'a>>>;

impl HasKind for OcspResponse<'_> {
    type Kind = FieldsKind;
}

impl HasReader for OcspResponse<'_> {
    type Reader = StructReader;
}

impl<'a> LawfulStruct for OcspResponse<'a> {
    ghost laws = { struct_of (λ x. (x.response_status, (x.response_bytes, tt)))
        ⟦<OcspResponseRow<'a> as Row>⟧.row_laws refl };

    fn put_row(&self, fields: &mut Fields) -> SerializeResult<()> {
        put_fields!(self, fields => response_status, response_bytes)
    }

    fn assert_row_valid(&self) {
        assert_fields_valid!(self => response_status, response_bytes)
    }
}

impl<'a> ReadsFields<'a> for OcspResponse<'a> {
    ghost fields_give = { MadeOf ⟦<OcspResponse<'a> as LawfulStruct>⟧.laws.as_row
        ⟦<OcspResponseRow<'a> as ReadsRow<'a, DerParser>>⟧.row_gives };

    fn read_fields(alloc: Global, octets: &'a [u8]) -> Result<OcspResponse<'a>, Error> {
        read_fields!(row_by_der, alloc, octets => OcspResponse {
            response_status, response_bytes
        })
    }
}

/// The answer itself, under its tag.
pub type TaggedResponseBytes<'a> = TaggedExplicit<ResponseBytes<'a>, Error, 0>;

/// An answer of a type that an identifier says.
///
///     ResponseBytes ::= SEQUENCE {
///         responseType  OBJECT IDENTIFIER,
///         response      OCTET STRING }
#[derive(Debug, PartialEq, Drop)]
pub struct ResponseBytes<'a> {
    /// 1.3.6.1.5.5.7.48.1.1 for a [`BasicOcspResponse`].
    pub response_type: Oid<'a>,
    /// The encoding of a value of that type.
    pub response: OctetString<'a>,
}

/// Its fields.
pub type ResponseBytesRow<'a> = Row2<Oid<'a>, OctetString<'a>>;

impl HasKind for ResponseBytes<'_> {
    type Kind = FieldsKind;
}

impl HasReader for ResponseBytes<'_> {
    type Reader = StructReader;
}

impl<'a> LawfulStruct for ResponseBytes<'a> {
    ghost laws = { struct_of (λ x. (x.response_type, (x.response, tt)))
        ⟦<ResponseBytesRow<'a> as Row>⟧.row_laws refl };

    fn put_row(&self, fields: &mut Fields) -> SerializeResult<()> {
        put_fields!(self, fields => response_type, response)
    }

    fn assert_row_valid(&self) {
        assert_fields_valid!(self => response_type, response)
    }
}

impl<'a> ReadsFields<'a> for ResponseBytes<'a> {
    ghost fields_give = { MadeOf ⟦<ResponseBytes<'a> as LawfulStruct>⟧.laws.as_row
        ⟦<ResponseBytesRow<'a> as ReadsRow<'a, DerParser>>⟧.row_gives };

    fn read_fields(alloc: Global, octets: &'a [u8]) -> Result<ResponseBytes<'a>, Error> {
        read_fields!(row_by_der, alloc, octets => ResponseBytes {
            response_type, response
        })
    }
}

/// A signed answer.
///
///     BasicOCSPResponse ::= SEQUENCE {
///         tbsResponseData     ResponseData,
///         signatureAlgorithm  AlgorithmIdentifier,
///         signature           BIT STRING,
///         certs               [0] EXPLICIT SEQUENCE OF Certificate OPTIONAL }
#[derive(Debug, PartialEq, Drop)]
pub struct BasicOcspResponse<'a> {
    pub tbs_response_data: ResponseData<'a>,
    pub signature_algorithm: AlgorithmIdentifier<'a>,
    /// Over the encoding of the data.
    pub signature: BitString<'a>,
    pub certs: Option<ResponderCertificates<'a>>,
}

/// Its fields.
pub type BasicOcspResponseRow<'a> = Row4<
    ResponseData<'a>,
    AlgorithmIdentifier<'a>,
    BitString<'a>,
    Option<ResponderCertificates<'a>>,
>;

impl HasKind for BasicOcspResponse<'_> {
    type Kind = FieldsKind;
}

impl HasReader for BasicOcspResponse<'_> {
    type Reader = StructReader;
}

impl<'a> LawfulStruct for BasicOcspResponse<'a> {
    ghost laws = { struct_of (λ x. (x.tbs_response_data, (x.signature_algorithm, (x.signature, (x.certs, tt)))))
        ⟦<BasicOcspResponseRow<'a> as Row>⟧.row_laws refl };

    fn put_row(&self, fields: &mut Fields) -> SerializeResult<()> {
        put_fields!(self, fields => tbs_response_data, signature_algorithm, signature, certs)
    }

    fn assert_row_valid(&self) {
        assert_fields_valid!(self => tbs_response_data, signature_algorithm, signature, certs)
    }
}

impl<'a> ReadsFields<'a> for BasicOcspResponse<'a> {
    ghost fields_give = { MadeOf ⟦<BasicOcspResponse<'a> as LawfulStruct>⟧.laws.as_row
        ⟦<BasicOcspResponseRow<'a> as ReadsRow<'a, DerParser>>⟧.row_gives };

    fn read_fields(alloc: Global, octets: &'a [u8]) -> Result<BasicOcspResponse<'a>, Error> {
        read_fields!(row_by_der, alloc, octets => BasicOcspResponse {
            tbs_response_data, signature_algorithm, signature, certs
        })
    }
}

/// Certificates that help to verify the signature, under their tag.
pub type ResponderCertificates<'a> = TaggedExplicit<Vec<Certificate<'a>>, Error, 0>;

/// The answer at the front of the octets, by DER, and what follows it.
pub fn read_ocsp_response<'a>(
    alloc: Global,
    octets: &'a [u8],
) -> ParseResult<'a, OcspResponse<'a>, Error>
    ensures { ReadsByDer ⟦<OcspResponse<'a> as Grammar>⟧.grammar octets.now (seen result) }
{
    read_der::<OcspResponse<'a>, Error>(alloc, octets)
}

/// The one strict encoding of a answer in DER form. Where its length fits `usize`, it is refused only when out of
/// memory.
pub fn ocsp_response_vec(
    alloc: Global,
    ocsp_response: &OcspResponse<'_>,
) -> SerializeResult<Vec<u8>>
    ensures { ⟦<OcspResponse<'static> as Grammar>⟧.grammar.IsDer
        (⟦<OcspResponse<'static> as Grammar>⟧.grammar.value ocsp_response.now) →
        WritesStrict ⟦<OcspResponse<'static> as Grammar>⟧.grammar
        ⟦<OcspResponse<'static> as ToDer>⟧.writing ocsp_response.now result }
{
    strict_vec(alloc, ocsp_response)
}

/// The signed answer at the front of the octets, by DER, and what follows it.
pub fn read_basic_response<'a>(
    alloc: Global,
    octets: &'a [u8],
) -> ParseResult<'a, BasicOcspResponse<'a>, Error>
    ensures { ReadsByDer ⟦<BasicOcspResponse<'a> as Grammar>⟧.grammar octets.now (seen result) }
{
    read_der::<BasicOcspResponse<'a>, Error>(alloc, octets)
}

/// The one strict encoding of a signed answer in DER form. Where its length fits `usize`, it is refused only when out
/// of memory.
pub fn basic_response_vec(
    alloc: Global,
    basic_response: &BasicOcspResponse<'_>,
) -> SerializeResult<Vec<u8>>
    ensures { ⟦<BasicOcspResponse<'static> as Grammar>⟧.grammar.IsDer
        (⟦<BasicOcspResponse<'static> as Grammar>⟧.grammar.value basic_response.now) →
        WritesStrict ⟦<BasicOcspResponse<'static> as Grammar>⟧.grammar
        ⟦<BasicOcspResponse<'static> as ToDer>⟧.writing basic_response.now result }
{
    strict_vec(alloc, basic_response)
}
