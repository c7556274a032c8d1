//! Tickets (RFC 4120, 5.3).
ghost use Rattle.std.specs.Prelude.{◌≡◌};
ghost use Rattle.asn1_rs.specs.Prelude.{MadeOf, refl, struct_of};

use crate::{EncryptedData, PrincipalName, Under};
use asn1_rs::author::{
    Fields, FieldsKind, HasKind, HasReader, LawfulStruct, ReadsFields, ReadsRow, Row, Row4,
    StructReader,
};
use asn1_rs::{
    ApplicationExplicit, DerParser, Error, GeneralString, SerializeResult, assert_fields_valid,
    put_fields, read_fields,
};
use asn1_rs_profiles::{Range, Refined};
use std::alloc::Global;

/// The version of tickets, and of requests (RFC 4120, 5.3 and 5.4.1).
pub type Version5 = Refined<u8, Range<5, 5>>;

/// A ticket: `Ticket ::= [APPLICATION 1] SEQUENCE { .. }`.
pub type Ticket<'a> = ApplicationExplicit<TicketFields<'a>, Error, 1>;

/// The fields of a ticket: for whom it is, and what only that one can read.
///
///     SEQUENCE {
///         tkt-vno   [0] INTEGER,
///         realm     [1] Realm,
///         sname     [2] PrincipalName,
///         enc-part  [3] EncryptedData }
#[derive(Debug, PartialEq, Eq, Drop)]
pub struct TicketFields<'a> {
    pub tkt_vno: Under<Version5, 0>,
    pub realm: Under<GeneralString<'a>, 1>,
    pub sname: Under<PrincipalName<'a>, 2>,
    pub enc_part: Under<EncryptedData<'a>, 3>,
}

/// Its fields.
pub type TicketRow<'a> = Row4<
    Under<Version5, 0>,
    Under<GeneralString<'a>, 1>,
    Under<PrincipalName<'a>, 2>,
    Under<EncryptedData<'a>, 3>,
>;

impl HasKind for TicketFields<'_> {
    type Kind = FieldsKind;
}

impl HasReader for TicketFields<'_> {
    type Reader = StructReader;
}

impl<'a> LawfulStruct for TicketFields<'a> {
    ghost laws = { struct_of (λ x. (x.tkt_vno, (x.realm, (x.sname, (x.enc_part, tt)))))
        ⟦<TicketRow<'a> as Row>⟧.row_laws refl };

    fn put_row(&self, fields: &mut Fields) -> SerializeResult<()> {
        put_fields!(self, fields => tkt_vno, realm, sname, enc_part)
    }

    fn assert_row_valid(&self) {
        assert_fields_valid!(self => tkt_vno, realm, sname, enc_part)
    }
}

impl<'a> ReadsFields<'a> for TicketFields<'a> {
    ghost fields_give = { MadeOf ⟦<TicketFields<'a> as LawfulStruct>⟧.laws.as_row
        ⟦<TicketRow<'a> as ReadsRow<'a, DerParser>>⟧.row_gives };

    fn read_fields(alloc: Global, octets: &'a [u8]) -> Result<TicketFields<'a>, Error> {
        read_fields!(row_by_der, alloc, octets => TicketFields { tkt_vno, realm, sname, enc_part })
    }
}

impl TicketFields<'_> {
    /// Each ticket in hand has the version of RFC 4120.
    pub fn has_version(&self)
        ensures { self.now.tkt_vno.inner.value ≡ 5 }
    {}
}
