//! Messages of a community (RFC 1901, 3).
ghost use Rattle.asn1_rs.specs.Prelude.{ber_words, IsWhole, MadeOf, ReadsByBer, refl, seen, struct_of, TakesWhole};
ghost use Rattle.asn1_rs.specs.Prelude.{WritesStrict};

use crate::pdus::Pdus;
use asn1_rs::author::{
    Fields, FieldsKind, HasKind, HasReader, LawfulStruct, ReadsFieldsByBer, ReadsRow, Row, Row3,
    StructReader,
};
use asn1_rs::laws::Grammar;
use asn1_rs::{
    BerParser, Error, FromBer, OctetString, ParseResult, SerializeResult, ToDer,
    assert_fields_valid, put_fields, read_ber, read_ber_whole, read_fields, strict_vec,
};
use std::alloc::Global;

/// A message of a community.
///
///     Message ::= SEQUENCE {
///         version    INTEGER,
///         community  OCTET STRING,
///         data       PDUs }
#[derive(Debug, PartialEq, Eq, Drop)]
pub struct Message<'a> {
    pub version: u32,
    pub community: OctetString<'a>,
    pub data: Pdus<'a>,
}

/// Its fields.
pub type MessageRow<'a> = Row3<u32, OctetString<'a>, Pdus<'a>>;

impl HasKind for Message<'_> {
    type Kind = FieldsKind;
}

impl HasReader for Message<'_> {
    type Reader = StructReader;
}

impl<'a> LawfulStruct for Message<'a> {
    ghost laws = { struct_of (λ x. (x.version, (x.community, (x.data, tt))))
        ⟦<MessageRow<'a> as Row>⟧.row_laws refl };

    fn put_row(&self, fields: &mut Fields) -> SerializeResult<()> {
        put_fields!(self, fields => version, community, data)
    }

    fn assert_row_valid(&self) {
        assert_fields_valid!(self => version, community, data)
    }
}

impl<'a> ReadsFieldsByBer<'a> for Message<'a> {
    ghost fields_give_by_ber = { MadeOf ⟦<Message<'a> as LawfulStruct>⟧.laws.as_row
        ⟦<MessageRow<'a> as ReadsRow<'a, BerParser>>⟧.row_gives };

    fn read_fields_by_ber(alloc: Global, octets: &'a [u8]) -> Result<Message<'a>, Error> {
        read_fields!(row_by_ber, alloc, octets => Message { version, community, data })
    }
}

/// The message at the front of the octets, by BER, and what follows it.
pub fn read_message<'a>(alloc: Global, octets: &'a [u8]) -> ParseResult<'a, Message<'a>, Error>
    ensures { ReadsByBer ⟦<Message<'a> as Grammar>⟧.grammar octets.now (seen result) }
{
    read_ber::<Message<'a>, Error>(alloc, octets)
}

/// The message that all of the octets are, by BER, as a packet has it. Refused with `TrailingOctets` where octets
/// follow it.
pub fn read_message_whole<'a>(alloc: Global, octets: &'a [u8]) -> Result<Message<'a>, Error>
    ensures exact { IsWhole (ber_words ⟦<Message<'a> as Grammar>⟧.grammar)
        ⟦<Message<'a> as Grammar>⟧.grammar.value
        ⟦<Message<'a> as Grammar>⟧.grammar.allocates octets.now result }
    ensures gives { TakesWhole ⟦<Message<'a> as FromBer<'a, Error>>⟧.ber_gives octets.now result }
{
    read_ber_whole::<Message<'a>>(alloc, octets)
}

/// The one strict encoding of a message in DER form. Where its length fits `usize`, it is refused only when out of
/// memory.
pub fn message_vec(alloc: Global, message: &Message<'_>) -> SerializeResult<Vec<u8>>
    ensures { ⟦<Message<'static> as Grammar>⟧.grammar.IsDer
        (⟦<Message<'static> as Grammar>⟧.grammar.value message.now) →
        WritesStrict ⟦<Message<'static> as Grammar>⟧.grammar
        ⟦<Message<'static> as ToDer>⟧.writing message.now result }
{
    strict_vec(alloc, message)
}
