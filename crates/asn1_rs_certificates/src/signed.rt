//! What is signed (RFC 5280, 4.1.2). A row of ten fields is more than the checker takes at once. So the fields from the
//! validity on stand in `holder`, and the last three in `added`.
ghost use Rattle.asn1_rs.specs.Prelude.{its_own_type, MadeOf, refl, struct_of};
ghost use Rattle.std.proofs.Common.{lit<};
ghost use Rattle.asn1_rs.specs.Structs.DefaultTypes.{default_explicit, default_unsigned};
ghost use Rattle.asn1_rs_certificates.specs.Certificates.{holder_of};

use crate::Name;
use crate::holder::{Holder, HolderOf};
use asn1_rs::author::{
    BorrowedRow, DefaultOf, Fields, FieldsKind, HasKind, HasReader, LawfulStruct, ReadsFields,
    ReadsRow, Row, StructReader, row_by_der,
};
use asn1_rs::{
    BitString, Defaulted, DerParser, Error, Integer, SerializeResult, TaggedExplicit,
    TaggedImplicit,
};
use asn1_rs_messages::{AlgorithmIdentifier, Extension, SubjectPublicKeyInfo, Validity};
use std::alloc::Global;

/// What is signed of a certificate.
///
///     TBSCertificate ::= SEQUENCE {
///         version               [0] EXPLICIT INTEGER DEFAULT v1(0),
///         serialNumber          INTEGER,
///         signature             AlgorithmIdentifier,
///         issuer                Name,
///         validity              Validity,
///         subject               Name,
///         subjectPublicKeyInfo  SubjectPublicKeyInfo,
///         issuerUniqueID        [1] IMPLICIT BIT STRING OPTIONAL,
///         subjectUniqueID       [2] IMPLICIT BIT STRING OPTIONAL,
///         extensions            [3] EXPLICIT SEQUENCE OF Extension OPTIONAL }
#[derive(Debug, PartialEq, Drop)]
pub struct TbsCertificate<'a> {
    pub version: Defaulted<Version, FirstVersion>,
    pub serial_number: Integer<'a>,
    pub signature: AlgorithmIdentifier<'a>,
    pub issuer: Name<'a>,
    pub validity: Validity,
    pub subject: Name<'a>,
    pub subject_public_key_info: SubjectPublicKeyInfo<'a>,
    pub issuer_unique_id: Option<IssuerUniqueId<'a>>,
    pub subject_unique_id: Option<SubjectUniqueId<'a>>,
    pub extensions: Option<Extensions<'a>>,
}

/// The version under its tag: 0 for the first one, v1, 1 for v2 and 2 for v3.
pub type Version = TaggedExplicit<u8, Error, 0>;

/// Bits that tell an issuer from others of its name, under their tag (4.1.2.8).
pub type IssuerUniqueId<'a> = TaggedImplicit<BitString<'a>, Error, 1>;

/// Bits that tell a subject from others of its name, under their tag (4.1.2.8).
pub type SubjectUniqueId<'a> = TaggedImplicit<BitString<'a>, Error, 2>;

/// Extensions, under their tag (4.1.2.9).
pub type Extensions<'a> = TaggedExplicit<Vec<Extension<'a>>, Error, 3>;

/// That a certificate is of the first version, where it does not say its version.
#[derive(Debug, PartialEq, Eq, Drop)]
pub struct FirstVersion;

impl DefaultOf<Version> for FirstVersion {
    ghost default_laws = { default_explicit 2 0 (λ x. x.inner) (default_unsigned 1 0 (lit< tt)) };

    fn default_value(_alloc: Global) -> Version {
        Version::explicit(0)
    }

    fn is_default(value: &Version) -> bool {
        *value.as_inner() == 0
    }

    ghost of_type = { its_own_type refl };
}

/// Its fields: who signed it, and the others.
pub type TbsCertificateRow<'a> = (
    Defaulted<Version, FirstVersion>,
    (
        Integer<'a>,
        (AlgorithmIdentifier<'a>, (Name<'a>, Holder<'a>)),
    ),
);

impl HasKind for TbsCertificate<'_> {
    type Kind = FieldsKind;
}

impl HasReader for TbsCertificate<'_> {
    type Reader = StructReader;
}

impl<'a> LawfulStruct for TbsCertificate<'a> {
    ghost laws = { struct_of (λ x. (x.version, (x.serial_number, (x.signature, (x.issuer, holder_of x)))))
        ⟦<TbsCertificateRow<'a> as Row>⟧.row_laws refl };

    fn put_row(&self, fields: &mut Fields) -> SerializeResult<()> {
        let signer = (&self.signature, (&self.issuer, HolderOf(self)));
        (&self.version, (&self.serial_number, signer)).put_each(fields)
    }

    fn assert_row_valid(&self) {
        let signer = (&self.signature, (&self.issuer, HolderOf(self)));
        (&self.version, (&self.serial_number, signer)).assert_each_valid()
    }
}

impl<'a> ReadsFields<'a> for TbsCertificate<'a> {
    ghost fields_give = { MadeOf ⟦<TbsCertificate<'a> as LawfulStruct>⟧.laws.as_row
        ⟦<TbsCertificateRow<'a> as ReadsRow<'a, DerParser>>⟧.row_gives };

    fn read_fields(alloc: Global, octets: &'a [u8]) -> Result<TbsCertificate<'a>, Error> {
        match row_by_der::<TbsCertificateRow<'a>>(alloc, octets) {
            Ok(row) => {
                let (version, (serial_number, (signature, (issuer, holder)))) = row;
                Ok(TbsCertificate {
                    version,
                    serial_number,
                    signature,
                    issuer,
                    validity: holder.validity,
                    subject: holder.subject,
                    subject_public_key_info: holder.subject_public_key_info,
                    issuer_unique_id: holder.added.issuer_unique_id,
                    subject_unique_id: holder.added.subject_unique_id,
                    extensions: holder.added.extensions,
                })
            }
            Err(e) => Err(e),
        }
    }
}
