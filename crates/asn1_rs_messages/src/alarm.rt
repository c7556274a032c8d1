//! A message with two optional fields and a list, by both rules.
ghost use Rattle.asn1_rs.specs.Prelude.{MadeOf, ReadsByBer, ReadsByDer, refl, seen, struct_of, WritesStrict};

use asn1_rs::author::{
    AlwaysDerBy, Fields, FieldsKind, HasKind, HasReader, LawfulStruct, ReadsFields,
    ReadsFieldsByBer, ReadsRow, Row, Row4, StructReader,
};
use asn1_rs::laws::{AlwaysDer, Grammar};
use asn1_rs::{
    BerParser, DerParser, Error, ParseResult, SerializeResult, TaggedExplicit, ToDer,
    assert_fields_valid, fields_in_der, put_fields, read_ber, read_der, read_fields, strict_vec,
};
use std::alloc::Global;

/// An alarm of a level in some rooms.
///
///     SEQUENCE {
///         level   INTEGER,
///         muted   [0] EXPLICIT BOOLEAN OPTIONAL,
///         urgent  BOOLEAN OPTIONAL,
///         rooms   SEQUENCE OF INTEGER }
#[derive(Debug, PartialEq, Eq, Drop)]
pub struct Alarm {
    pub level: u8,
    pub muted: Option<Muted>,
    pub urgent: Option<bool>,
    pub rooms: Vec<u16>,
}

/// Whether an alarm is muted, under its tag.
pub type Muted = TaggedExplicit<bool, Error, 0>;

/// Its fields.
pub type AlarmRow = Row4<u8, Option<Muted>, Option<bool>, Vec<u16>>;

impl HasKind for Alarm {
    type Kind = FieldsKind;
}

impl HasReader for Alarm {
    type Reader = StructReader;
}

impl LawfulStruct for Alarm {
    ghost laws = { struct_of (λ x. (x.level, (x.muted, (x.urgent, (x.rooms, tt)))))
        ⟦<AlarmRow as Row>⟧.row_laws refl };

    fn put_row(&self, fields: &mut Fields) -> SerializeResult<()> {
        put_fields!(self, fields => level, muted, urgent, rooms)
    }

    fn assert_row_valid(&self) {
        assert_fields_valid!(self => level, muted, urgent, rooms)
    }
}

impl<'a> ReadsFields<'a> for Alarm {
    ghost fields_give = { MadeOf ⟦<Alarm as LawfulStruct>⟧.laws.as_row
        ⟦<AlarmRow as ReadsRow<'a, DerParser>>⟧.row_gives };

    fn read_fields(alloc: Global, octets: &'a [u8]) -> Result<Alarm, Error> {
        read_fields!(row_by_der, alloc, octets => Alarm { level, muted, urgent, rooms })
    }
}

impl<'a> ReadsFieldsByBer<'a> for Alarm {
    ghost fields_give_by_ber = { MadeOf ⟦<Alarm as LawfulStruct>⟧.laws.as_row
        ⟦<AlarmRow as ReadsRow<'a, BerParser>>⟧.row_gives };

    fn read_fields_by_ber(alloc: Global, octets: &'a [u8]) -> Result<Alarm, Error> {
        read_fields!(row_by_ber, alloc, octets => Alarm { level, muted, urgent, rooms })
    }
}

/// Each alarm in hand is in DER form, since its fields are.
impl AlwaysDerBy<FieldsKind> for Alarm {
    fn der_by_kind(&self) {
        fields_in_der!(self => level, muted, urgent, rooms)
    }
}

/// The alarm at the front of the octets, by DER, and what follows it.
pub fn read_alarm(alloc: Global, octets: &[u8]) -> ParseResult<'_, Alarm, Error>
    ensures { ReadsByDer ⟦<Alarm as Grammar>⟧.grammar octets.now (seen result) }
{
    read_der::<Alarm, Error>(alloc, octets)
}

/// The alarm at the front of the octets, by BER, and what follows it.
pub fn read_alarm_by_ber(alloc: Global, octets: &[u8]) -> ParseResult<'_, Alarm, Error>
    ensures { ReadsByBer ⟦<Alarm as Grammar>⟧.grammar octets.now (seen result) }
{
    read_ber::<Alarm, Error>(alloc, octets)
}

/// The one strict encoding of an alarm. Where its length fits `usize`, it is refused only when out of memory.
pub fn alarm_vec(alloc: Global, alarm: &Alarm) -> SerializeResult<Vec<u8>>
    ensures { WritesStrict ⟦<Alarm as Grammar>⟧.grammar ⟦<Alarm as ToDer>⟧.writing alarm.now
        result }
{
    alarm.is_der();
    strict_vec(alloc, alarm)
}
