//! Controls, which extend an operation (RFC 4511, 4.1.11).
ghost use Rattle.asn1_rs.specs.Prelude.{MadeOf};
ghost use Rattle.asn1_rs_ldap.specs.Controls.{control_laws};

use asn1_rs::author::{
    Fields, FieldsKind, HasKind, HasReader, LawfulStruct, ReadsFieldsByBer, ReadsRow, Row3,
    StructReader,
};
use asn1_rs::{
    BerParser, DefaultFalse, Defaulted, Error, OctetString, SerializeResult, assert_fields_valid,
    put_fields, read_fields,
};
use std::alloc::Global;

/// An extension of an operation, whose type is an identifier in dotted form.
///
///     Control ::= SEQUENCE {
///         controlType   LDAPOID,
///         criticality   BOOLEAN DEFAULT FALSE,
///         controlValue  OCTET STRING OPTIONAL }
#[derive(Debug, PartialEq, Eq, Drop)]
pub struct Control<'a> {
    pub control_type: OctetString<'a>,
    pub criticality: Defaulted<bool, DefaultFalse>,
    pub value: Option<OctetString<'a>>,
}

/// Its fields.
pub type ControlRow<'a> = Row3<
    OctetString<'a>,
    Defaulted<bool, DefaultFalse>,
    Option<OctetString<'a>>,
>;

impl HasKind for Control<'_> {
    type Kind = FieldsKind;
}

impl HasReader for Control<'_> {
    type Reader = StructReader;
}

#[tactic(auto, unfolding(crate::specs::Controls::control_laws))]
impl<'a> LawfulStruct for Control<'a> {
    ghost laws = { control_laws };

    fn put_row(&self, fields: &mut Fields) -> SerializeResult<()> {
        put_fields!(self, fields => control_type, criticality, value)
    }

    fn assert_row_valid(&self) {
        assert_fields_valid!(self => control_type, criticality, value)
    }
}

#[tactic(auto, unfolding(crate::specs::Controls::control_laws))]
impl<'a> ReadsFieldsByBer<'a> for Control<'a> {
    ghost fields_give_by_ber = { MadeOf (λ x. (x.control_type, (x.criticality, (x.value, tt))))
        ⟦<ControlRow<'a> as ReadsRow<'a, BerParser>>⟧.row_gives };

    fn read_fields_by_ber(alloc: Global, octets: &'a [u8]) -> Result<Control<'a>, Error> {
        read_fields!(row_by_ber, alloc, octets => Control { control_type, criticality, value })
    }
}
