//! Names (RFC 4120, 5.2.2).
ghost use Rattle.asn1_rs.specs.Prelude.{MadeOf, refl, struct_of};

use crate::Under;
use asn1_rs::author::{
    Fields, FieldsKind, HasKind, HasReader, LawfulStruct, ReadsFields, ReadsRow, Row, Row2,
    StructReader,
};
use asn1_rs::{
    DerParser, Error, GeneralString, SerializeResult, assert_fields_valid, put_fields, read_fields,
};
use std::alloc::Global;

/// The name of a client or of a service.
///
///     PrincipalName ::= SEQUENCE {
///         name-type    [0] Int32,
///         name-string  [1] SEQUENCE OF KerberosString }
#[derive(Debug, PartialEq, Eq, Drop)]
pub struct PrincipalName<'a> {
    pub name_type: Under<i32, 0>,
    pub name_string: Under<Vec<GeneralString<'a>>, 1>,
}

/// Its fields.
pub type PrincipalNameRow<'a> = Row2<Under<i32, 0>, Under<Vec<GeneralString<'a>>, 1>>;

impl HasKind for PrincipalName<'_> {
    type Kind = FieldsKind;
}

impl HasReader for PrincipalName<'_> {
    type Reader = StructReader;
}

impl<'a> LawfulStruct for PrincipalName<'a> {
    ghost laws = { struct_of (λ x. (x.name_type, (x.name_string, tt)))
        ⟦<PrincipalNameRow<'a> as Row>⟧.row_laws refl };

    fn put_row(&self, fields: &mut Fields) -> SerializeResult<()> {
        put_fields!(self, fields => name_type, name_string)
    }

    fn assert_row_valid(&self) {
        assert_fields_valid!(self => name_type, name_string)
    }
}

impl<'a> ReadsFields<'a> for PrincipalName<'a> {
    ghost fields_give = { MadeOf ⟦<PrincipalName<'a> as LawfulStruct>⟧.laws.as_row
        ⟦<PrincipalNameRow<'a> as ReadsRow<'a, DerParser>>⟧.row_gives };

    fn read_fields(alloc: Global, octets: &'a [u8]) -> Result<PrincipalName<'a>, Error> {
        read_fields!(row_by_der, alloc, octets => PrincipalName { name_type, name_string })
    }
}
