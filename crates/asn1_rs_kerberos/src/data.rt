//! What a request carries beside names: data for the authentication, addresses and what is encrypted (RFC 4120, 5.2).
ghost use Rattle.asn1_rs.specs.Prelude.{MadeOf, refl, struct_of};

use crate::Under;
use asn1_rs::author::{
    Fields, FieldsKind, HasKind, HasReader, LawfulStruct, ReadsFields, ReadsRow, Row, Row2, Row3,
    StructReader,
};
use asn1_rs::{
    DerParser, Error, OctetString, SerializeResult, assert_fields_valid, put_fields, read_fields,
};
use std::alloc::Global;

/// Data for the authentication, of a type that says what its octets are (5.2.7).
///
///     PA-DATA ::= SEQUENCE {
///         padata-type   [1] Int32,
///         padata-value  [2] OCTET STRING }
#[derive(Debug, PartialEq, Eq, Drop)]
pub struct PaData<'a> {
    pub padata_type: Under<i32, 1>,
    pub padata_value: Under<OctetString<'a>, 2>,
}

/// Its fields.
pub type PaDataRow<'a> = Row2<Under<i32, 1>, Under<OctetString<'a>, 2>>;

impl HasKind for PaData<'_> {
    type Kind = FieldsKind;
}

impl HasReader for PaData<'_> {
    type Reader = StructReader;
}

impl<'a> LawfulStruct for PaData<'a> {
    ghost laws = { struct_of (λ x. (x.padata_type, (x.padata_value, tt)))
        ⟦<PaDataRow<'a> as Row>⟧.row_laws refl };

    fn put_row(&self, fields: &mut Fields) -> SerializeResult<()> {
        put_fields!(self, fields => padata_type, padata_value)
    }

    fn assert_row_valid(&self) {
        assert_fields_valid!(self => padata_type, padata_value)
    }
}

impl<'a> ReadsFields<'a> for PaData<'a> {
    ghost fields_give = { MadeOf ⟦<PaData<'a> as LawfulStruct>⟧.laws.as_row
        ⟦<PaDataRow<'a> as ReadsRow<'a, DerParser>>⟧.row_gives };

    fn read_fields(alloc: Global, octets: &'a [u8]) -> Result<PaData<'a>, Error> {
        read_fields!(row_by_der, alloc, octets => PaData { padata_type, padata_value })
    }
}

/// An address of a host (5.2.5).
///
///     HostAddress ::= SEQUENCE {
///         addr-type  [0] Int32,
///         address    [1] OCTET STRING }
#[derive(Debug, PartialEq, Eq, Drop)]
pub struct HostAddress<'a> {
    pub addr_type: Under<i32, 0>,
    pub address: Under<OctetString<'a>, 1>,
}

/// Its fields.
pub type HostAddressRow<'a> = Row2<Under<i32, 0>, Under<OctetString<'a>, 1>>;

impl HasKind for HostAddress<'_> {
    type Kind = FieldsKind;
}

impl HasReader for HostAddress<'_> {
    type Reader = StructReader;
}

impl<'a> LawfulStruct for HostAddress<'a> {
    ghost laws = { struct_of (λ x. (x.addr_type, (x.address, tt)))
        ⟦<HostAddressRow<'a> as Row>⟧.row_laws refl };

    fn put_row(&self, fields: &mut Fields) -> SerializeResult<()> {
        put_fields!(self, fields => addr_type, address)
    }

    fn assert_row_valid(&self) {
        assert_fields_valid!(self => addr_type, address)
    }
}

impl<'a> ReadsFields<'a> for HostAddress<'a> {
    ghost fields_give = { MadeOf ⟦<HostAddress<'a> as LawfulStruct>⟧.laws.as_row
        ⟦<HostAddressRow<'a> as ReadsRow<'a, DerParser>>⟧.row_gives };

    fn read_fields(alloc: Global, octets: &'a [u8]) -> Result<HostAddress<'a>, Error> {
        read_fields!(row_by_der, alloc, octets => HostAddress { addr_type, address })
    }
}

/// What is encrypted, by which type of encryption, and by which version of a key (5.2.9).
///
///     EncryptedData ::= SEQUENCE {
///         etype   [0] Int32,
///         kvno    [1] UInt32 OPTIONAL,
///         cipher  [2] OCTET STRING }
#[derive(Debug, PartialEq, Eq, Drop)]
pub struct EncryptedData<'a> {
    pub etype: Under<i32, 0>,
    pub kvno: Option<Under<u32, 1>>,
    pub cipher: Under<OctetString<'a>, 2>,
}

/// Its fields.
pub type EncryptedDataRow<'a> = Row3<
    Under<i32, 0>,
    Option<Under<u32, 1>>,
    Under<OctetString<'a>, 2>,
>;

impl HasKind for EncryptedData<'_> {
    type Kind = FieldsKind;
}

impl HasReader for EncryptedData<'_> {
    type Reader = StructReader;
}

impl<'a> LawfulStruct for EncryptedData<'a> {
    ghost laws = { struct_of (λ x. (x.etype, (x.kvno, (x.cipher, tt))))
        ⟦<EncryptedDataRow<'a> as Row>⟧.row_laws refl };

    fn put_row(&self, fields: &mut Fields) -> SerializeResult<()> {
        put_fields!(self, fields => etype, kvno, cipher)
    }

    fn assert_row_valid(&self) {
        assert_fields_valid!(self => etype, kvno, cipher)
    }
}

impl<'a> ReadsFields<'a> for EncryptedData<'a> {
    ghost fields_give = { MadeOf ⟦<EncryptedData<'a> as LawfulStruct>⟧.laws.as_row
        ⟦<EncryptedDataRow<'a> as ReadsRow<'a, DerParser>>⟧.row_gives };

    fn read_fields(alloc: Global, octets: &'a [u8]) -> Result<EncryptedData<'a>, Error> {
        read_fields!(row_by_der, alloc, octets => EncryptedData { etype, kvno, cipher })
    }
}
