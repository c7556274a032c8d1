//! A certificate whole (RFC 5280, 4.1).
ghost use Rattle.asn1_rs.specs.Prelude.{IsWhole, MadeOf, ReadsByDer, refl, seen, struct_of, TakesWhole, WritesStrict};

use crate::TbsCertificate;
use asn1_rs::author::{
    Fields, FieldsKind, HasKind, HasReader, LawfulStruct, ReadsFields, ReadsRow, Row, Row3,
    StructReader,
};
use asn1_rs::laws::Grammar;
use asn1_rs::{
    BitString, DerParser, Error, FromDer, ParseResult, SerializeResult, ToDer, assert_fields_valid,
    put_fields, read_der, read_der_whole, read_fields, strict_vec,
};
use asn1_rs_messages::AlgorithmIdentifier;
use std::alloc::Global;

/// A certificate.
///
///     Certificate ::= SEQUENCE {
///         tbsCertificate      TBSCertificate,
///         signatureAlgorithm  AlgorithmIdentifier,
///         signatureValue      BIT STRING }
#[derive(Debug, PartialEq, Drop)]
pub struct Certificate<'a> {
    pub tbs_certificate: TbsCertificate<'a>,
    pub signature_algorithm: AlgorithmIdentifier<'a>,
    pub signature_value: BitString<'a>,
}

/// Its fields.
pub type CertificateRow<'a> = Row3<TbsCertificate<'a>, AlgorithmIdentifier<'a>, BitString<'a>>;

impl HasKind for Certificate<'_> {
    type Kind = FieldsKind;
}

impl HasReader for Certificate<'_> {
    type Reader = StructReader;
}

impl<'a> LawfulStruct for Certificate<'a> {
    ghost laws = { struct_of (λ x. (x.tbs_certificate, (x.signature_algorithm, (x.signature_value, tt))))
        ⟦<CertificateRow<'a> as Row>⟧.row_laws refl };

    fn put_row(&self, fields: &mut Fields) -> SerializeResult<()> {
        put_fields!(self, fields => tbs_certificate, signature_algorithm, signature_value)
    }

    fn assert_row_valid(&self) {
        assert_fields_valid!(self => tbs_certificate, signature_algorithm, signature_value)
    }
}

impl<'a> ReadsFields<'a> for Certificate<'a> {
    ghost fields_give = { MadeOf ⟦<Certificate<'a> as LawfulStruct>⟧.laws.as_row
        ⟦<CertificateRow<'a> as ReadsRow<'a, DerParser>>⟧.row_gives };

    fn read_fields(alloc: Global, octets: &'a [u8]) -> Result<Certificate<'a>, Error> {
        read_fields!(row_by_der, alloc, octets => Certificate {
            tbs_certificate, signature_algorithm, signature_value
        })
    }
}

/// The certificate at the front of the octets, by DER, and what follows it.
pub fn read_certificate<'a>(
    alloc: Global,
    octets: &'a [u8],
) -> ParseResult<'a, Certificate<'a>, Error>
    ensures { ReadsByDer ⟦<Certificate<'a> as Grammar>⟧.grammar octets.now (seen result) }
{
    read_der::<Certificate<'a>, Error>(alloc, octets)
}

/// The certificate that all of the octets are, by DER. Refused with `TrailingOctets` where octets follow it.
pub fn read_certificate_whole<'a>(alloc: Global, octets: &'a [u8]) -> Result<Certificate<'a>, Error>
    ensures exact { IsWhole ⟦<Certificate<'a> as Grammar>⟧.grammar.Der
        ⟦<Certificate<'a> as Grammar>⟧.grammar.value
        ⟦<Certificate<'a> as Grammar>⟧.grammar.allocates octets.now result }
    ensures gives { TakesWhole ⟦<Certificate<'a> as FromDer<'a, Error>>⟧.der_gives octets.now result }
{
    read_der_whole::<Certificate<'a>>(alloc, octets)
}

/// The one strict encoding of a certificate in DER form. Where its length fits `usize`, it is refused only when out of
/// memory.
pub fn certificate_vec(alloc: Global, certificate: &Certificate<'_>) -> SerializeResult<Vec<u8>>
    ensures { ⟦<Certificate<'static> as Grammar>⟧.grammar.IsDer
        (⟦<Certificate<'static> as Grammar>⟧.grammar.value certificate.now) →
        WritesStrict ⟦<Certificate<'static> as Grammar>⟧.grammar
        ⟦<Certificate<'static> as ToDer>⟧.writing certificate.now result }
{
    strict_vec(alloc, certificate)
}
