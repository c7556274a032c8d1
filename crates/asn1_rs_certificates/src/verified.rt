//! A certificate with the octets that were signed (RFC 5280, 4.1.1.3).
ghost use Rattle.asn1_rs.specs.Prelude.{IsWhole, MadeOf, refl, struct_of};

use crate::TbsCertificate;
use asn1_rs::author::{
    Fields, FieldsKind, HasKind, HasReader, LawfulStruct, ReadsFields, ReadsRow, Row, Row3,
    StructReader,
};
use asn1_rs::laws::Grammar;
use asn1_rs::{
    BitString, DerParser, Error, SerializeResult, assert_fields_valid, put_fields, read_der_whole,
    read_fields,
};
use asn1_rs_messages::AlgorithmIdentifier;
use asn1_rs_profiles::Signed;
use std::alloc::Global;

/// A certificate whose signature is to be verified: the signature is of `tbs_certificate.octets()`.
///
/// It is written as it was read, also where a certificate has a default or a set that DER has otherwise.
#[derive(Debug, Drop)]
pub struct SignedCertificate<'a> {
    pub tbs_certificate: Signed<'a, TbsCertificate<'a>>,
    pub signature_algorithm: AlgorithmIdentifier<'a>,
    pub signature_value: BitString<'a>,
}

/// Its fields.
pub type SignedCertificateRow<'a> = Row3<
    Signed<'a, TbsCertificate<'a>>,
    AlgorithmIdentifier<'a>,
    BitString<'a>,
>;

impl HasKind for SignedCertificate<'_> {
    type Kind = FieldsKind;
}

impl HasReader for SignedCertificate<'_> {
    type Reader = StructReader;
}

impl<'a> LawfulStruct for SignedCertificate<'a> {
    ghost laws = { struct_of (λ x. (x.tbs_certificate, (x.signature_algorithm, (x.signature_value, tt))))
        ⟦<SignedCertificateRow<'a> as Row>⟧.row_laws refl };

    fn put_row(&self, fields: &mut Fields) -> SerializeResult<()> {
        put_fields!(self, fields => tbs_certificate, signature_algorithm, signature_value)
    }

    fn assert_row_valid(&self) {
        assert_fields_valid!(self => tbs_certificate, signature_algorithm, signature_value)
    }
}

impl<'a> ReadsFields<'a> for SignedCertificate<'a> {
    ghost fields_give = { MadeOf ⟦<SignedCertificate<'a> as LawfulStruct>⟧.laws.as_row
        ⟦<SignedCertificateRow<'a> as ReadsRow<'a, DerParser>>⟧.row_gives };

    fn read_fields(alloc: Global, octets: &'a [u8]) -> Result<SignedCertificate<'a>, Error> {
        read_fields!(row_by_der, alloc, octets => SignedCertificate {
            tbs_certificate, signature_algorithm, signature_value
        })
    }
}

/// The certificate that all of the octets are, by DER, with the octets that were signed. Refused with `TrailingOctets`
/// where octets follow it.
pub fn read_signed_certificate<'a>(
    alloc: Global,
    octets: &'a [u8],
) -> Result<SignedCertificate<'a>, Error>
    ensures { IsWhole ⟦<SignedCertificate<'a> as Grammar>⟧.grammar.Der
        ⟦<SignedCertificate<'a> as Grammar>⟧.grammar.value
        ⟦<SignedCertificate<'a> as Grammar>⟧.grammar.allocates octets.now result }
{
    read_der_whole::<SignedCertificate<'a>>(alloc, octets)
}
