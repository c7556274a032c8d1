//! Variable bindings (RFC 3416, 3).
ghost use Rattle.asn1_rs.specs.Prelude.{ber_words, IsWhole, MadeOf, ReadsByBer, seen, WritesStrict};
ghost use Rattle.asn1_rs_snmp.specs.Messages.{var_bind_laws};

use crate::value::BindingValue;
use asn1_rs::author::{
    Fields, FieldsKind, HasKind, HasReader, LawfulStruct, ReadsFieldsByBer, ReadsRow, Row, Row2,
    StructReader,
};
use asn1_rs::laws::Grammar;
use asn1_rs::{
    BerParser, Error, Oid, ParseResult, SerializeResult, ToDer, assert_fields_valid, put_fields,
    read_ber, read_ber_whole, read_fields, strict_vec,
};
use std::alloc::Global;

/// A variable and its value.
///
///     VarBind ::= SEQUENCE {
///         name   ObjectName,
///         value  CHOICE { .. } }
#[derive(Debug, PartialEq, Eq, Drop)]
pub struct VarBind<'a> {
    pub name: Oid<'a>,
    pub value: BindingValue<'a>,
}

/// Its fields.
pub type VarBindRow<'a> = Row2<Oid<'a>, BindingValue<'a>>;

impl HasKind for VarBind<'_> {
    type Kind = FieldsKind;
}

impl HasReader for VarBind<'_> {
    type Reader = StructReader;
}

impl<'a> LawfulStruct for VarBind<'a> {
    ghost laws = { var_bind_laws };

    #[tactic(auto, unfolding(crate::specs::Messages::var_bind_laws))]
    fn put_row(&self, fields: &mut Fields) -> SerializeResult<()> {
        put_fields!(self, fields => name, value)
    }

    #[tactic(auto, unfolding(crate::specs::Messages::var_bind_laws))]
    fn assert_row_valid(&self) {
        assert_fields_valid!(self => name, value)
    }
}

impl<'a> ReadsFieldsByBer<'a> for VarBind<'a> {
    ghost fields_give_by_ber = { MadeOf (λ x. (x.name, (x.value, tt)))
        ⟦<VarBindRow<'a> as ReadsRow<'a, BerParser>>⟧.row_gives };

    #[tactic(auto, unfolding(crate::specs::Messages::var_bind_laws))]
    fn read_fields_by_ber(alloc: Global, octets: &'a [u8]) -> Result<VarBind<'a>, Error> {
        read_fields!(row_by_ber, alloc, octets => VarBind { name, value })
    }
}

/// The bindings of a list at the front of the octets, by BER, and what follows it.
pub fn read_bindings<'a>(
    alloc: Global,
    octets: &'a [u8],
) -> ParseResult<'a, Vec<VarBind<'a>>, Error>
    ensures { ReadsByBer ⟦<Vec<VarBind<'a>> as Grammar>⟧.grammar octets.now (seen result) }
{
    read_ber::<Vec<VarBind<'a>>, Error>(alloc, octets)
}

/// The bindings of the list that all of the octets are, by BER. Refused with `TrailingOctets` where octets follow it.
pub fn read_bindings_whole<'a>(alloc: Global, octets: &'a [u8]) -> Result<Vec<VarBind<'a>>, Error>
    ensures exact { IsWhole (ber_words ⟦<Vec<VarBind<'a>> as Grammar>⟧.grammar)
        ⟦<Vec<VarBind<'a>> as Grammar>⟧.grammar.value
        ⟦<Vec<VarBind<'a>> as Grammar>⟧.grammar.allocates octets.now result }
{
    read_ber_whole::<Vec<VarBind<'a>>>(alloc, octets)
}

/// The one strict encoding of a list of bindings in DER form. Where its length fits `usize`, it is refused only when
/// out of memory.
pub fn bindings_vec(alloc: Global, bindings: &Vec<VarBind<'_>>) -> SerializeResult<Vec<u8>>
    ensures { ⟦<Vec<VarBind<'static>> as Grammar>⟧.grammar.IsDer
        (⟦<Vec<VarBind<'static>> as Grammar>⟧.grammar.value bindings.now) →
        WritesStrict ⟦<Vec<VarBind<'static>> as Grammar>⟧.grammar
        ⟦<Vec<VarBind<'static>> as ToDer>⟧.writing bindings.now result }
{
    strict_vec(alloc, bindings)
}
