//! What requests and answers hold (RFC 3416, 3).
ghost use Rattle.std.specs.Prelude.{◌≤◌};
ghost use Rattle.asn1_rs.specs.Prelude.{MadeOf};
ghost use Rattle.asn1_rs_snmp.specs.Pdus.{bulk_pdu_laws, pdu_laws};

use crate::binding::VarBind;
use asn1_rs::author::{
    Fields, FieldsKind, HasKind, HasReader, LawfulStruct, OfRow, ReadsFieldsByBer, ReadsRow, Row4,
    StructReader, struct_by_ber,
};
use asn1_rs::{BerParser, Error, SerializeResult, assert_fields_valid, put_fields};
use asn1_rs_profiles::{Range, Refined};
use std::alloc::Global;

/// Whether a request failed, and how: the names of these numbers stand in RFC 3416.
pub type ErrorStatus = Refined<u8, Range<0, 18>>;

/// A number of bindings, up to `max-bindings`.
pub type BindingNumber = Refined<u32, Range<0, 0x7fff_ffff>>;

/// A request or an answer.
///
///     PDU ::= SEQUENCE {
///         request-id         INTEGER,
///         error-status       INTEGER,
///         error-index        INTEGER,
///         variable-bindings  SEQUENCE OF VarBind }
#[derive(Debug, PartialEq, Eq, Drop)]
pub struct Pdu<'a> {
    pub request_id: i32,
    pub error_status: ErrorStatus,
    pub error_index: BindingNumber,
    pub variable_bindings: Vec<VarBind<'a>>,
}

/// Its fields.
pub type PduRow<'a> = Row4<i32, ErrorStatus, BindingNumber, Vec<VarBind<'a>>>;

impl HasKind for Pdu<'_> {
    type Kind = FieldsKind;
}

impl HasReader for Pdu<'_> {
    type Reader = StructReader;
}

#[tactic(auto, unfolding(crate::specs::Pdus::pdu_laws))]
impl<'a> LawfulStruct for Pdu<'a> {
    ghost laws = { pdu_laws };

    fn put_row(&self, fields: &mut Fields) -> SerializeResult<()> {
        put_fields!(self, fields => request_id, error_status, error_index, variable_bindings)
    }

    fn assert_row_valid(&self) {
        assert_fields_valid!(self => request_id, error_status, error_index, variable_bindings)
    }
}

impl<'a> OfRow for Pdu<'a> {
    type Row = PduRow<'a>;

    ghost as_row = { λ x. (x.request_id, (x.error_status, (x.error_index, (x.variable_bindings, tt)))) };

    fn of_row(row: PduRow<'a>) -> Pdu<'a> {
        let (request_id, (error_status, (error_index, (variable_bindings, ())))) = row;
        Pdu {
            request_id,
            error_status,
            error_index,
            variable_bindings,
        }
    }
}

#[tactic(auto, unfolding(crate::specs::Pdus::pdu_laws))]
impl<'a> ReadsFieldsByBer<'a> for Pdu<'a> {
    ghost fields_give_by_ber = { MadeOf
        (λ x. (x.request_id, (x.error_status, (x.error_index, (x.variable_bindings, tt)))))
        ⟦<PduRow<'a> as ReadsRow<'a, BerParser>>⟧.row_gives };

    fn read_fields_by_ber(alloc: Global, octets: &'a [u8]) -> Result<Pdu<'a>, Error> {
        struct_by_ber(alloc, octets)
    }
}
/// A request for many variables.
///
///     BulkPDU ::= SEQUENCE {
///         request-id         INTEGER,
///         non-repeaters      INTEGER,
///         max-repetitions    INTEGER,
///         variable-bindings  SEQUENCE OF VarBind }
#[derive(Debug, PartialEq, Eq, Drop)]
pub struct BulkPdu<'a> {
    pub request_id: i32,
    pub non_repeaters: BindingNumber,
    pub max_repetitions: BindingNumber,
    pub variable_bindings: Vec<VarBind<'a>>,
}

/// Its fields.
pub type BulkPduRow<'a> = Row4<i32, BindingNumber, BindingNumber, Vec<VarBind<'a>>>;

impl HasKind for BulkPdu<'_> {
    type Kind = FieldsKind;
}

impl HasReader for BulkPdu<'_> {
    type Reader = StructReader;
}

#[tactic(auto, unfolding(crate::specs::Pdus::bulk_pdu_laws))]
impl<'a> LawfulStruct for BulkPdu<'a> {
    ghost laws = { bulk_pdu_laws };

    fn put_row(&self, fields: &mut Fields) -> SerializeResult<()> {
        put_fields!(self, fields => request_id, non_repeaters, max_repetitions, variable_bindings)
    }

    fn assert_row_valid(&self) {
        assert_fields_valid!(self => request_id, non_repeaters, max_repetitions, variable_bindings)
    }
}

impl<'a> OfRow for BulkPdu<'a> {
    type Row = BulkPduRow<'a>;

    ghost as_row = { λ x. (x.request_id, (x.non_repeaters, (x.max_repetitions, (x.variable_bindings, tt)))) };

    fn of_row(row: BulkPduRow<'a>) -> BulkPdu<'a> {
        let (request_id, (non_repeaters, (max_repetitions, (variable_bindings, ())))) = row;
        BulkPdu {
            request_id,
            non_repeaters,
            max_repetitions,
            variable_bindings,
        }
    }
}

#[tactic(auto, unfolding(crate::specs::Pdus::bulk_pdu_laws))]
impl<'a> ReadsFieldsByBer<'a> for BulkPdu<'a> {
    ghost fields_give_by_ber = { MadeOf
        (λ x. (x.request_id, (x.non_repeaters, (x.max_repetitions, (x.variable_bindings, tt)))))
        ⟦<BulkPduRow<'a> as ReadsRow<'a, BerParser>>⟧.row_gives };

    fn read_fields_by_ber(alloc: Global, octets: &'a [u8]) -> Result<BulkPdu<'a>, Error> {
        struct_by_ber(alloc, octets)
    }
}

impl Pdu<'_> {
    /// Each request or answer in hand has numbers within the bounds of RFC 3416.
    pub fn has_numbers(&self)
        ensures status { self.now.error_status.value ≤ 18 }
        ensures index { self.now.error_index.value ≤ 2147483647 }
    {}
}

impl BulkPdu<'_> {
    /// Each request for many variables in hand has numbers within the bounds of RFC 3416.
    pub fn has_numbers(&self)
        ensures repeaters { self.now.non_repeaters.value ≤ 2147483647 }
        ensures repetitions { self.now.max_repetitions.value ≤ 2147483647 }
    {}
}
