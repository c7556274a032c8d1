//! A message with an optional field, one that has a default, and a list, by both rules.
ghost use Rattle.asn1_rs.specs.Prelude.{MadeOf, ReadsByBer, ReadsByDer, refl, seen, struct_of, WritesStrict};

use crate::alarm::Muted;
use asn1_rs::author::{
    AlwaysDerBy, Fields, FieldsKind, HasKind, HasReader, LawfulStruct, ReadsFields,
    ReadsFieldsByBer, ReadsRow, Row, Row4, StructReader,
};
use asn1_rs::laws::{AlwaysDer, Grammar};
use asn1_rs::{
    BerParser, DefaultFalse, Defaulted, DerParser, Error, ParseResult, SerializeResult, SetOf,
    TaggedImplicit, ToDer, assert_fields_valid, fields_in_der, put_fields, read_ber, read_der,
    read_fields, strict_vec,
};
use std::alloc::Global;

/// A reminder of a level in some rooms, which is urgent only where it says so.
///
///     SEQUENCE {
///         level   INTEGER,
///         muted   [0] EXPLICIT BOOLEAN OPTIONAL,
///         urgent  BOOLEAN DEFAULT FALSE,
///         rooms   SEQUENCE OF INTEGER }
#[derive(Debug, PartialEq, Eq, Drop)]
pub struct Reminder {
    pub level: u8,
    pub muted: Option<Muted>,
    pub urgent: Defaulted<bool, DefaultFalse>,
    pub rooms: Vec<u16>,
}

/// Its fields.
pub type ReminderRow = Row4<u8, Option<Muted>, Defaulted<bool, DefaultFalse>, Vec<u16>>;

impl HasKind for Reminder {
    type Kind = FieldsKind;
}

impl HasReader for Reminder {
    type Reader = StructReader;
}

impl LawfulStruct for Reminder {
    ghost laws = { struct_of (λ x. (x.level, (x.muted, (x.urgent, (x.rooms, tt)))))
        ⟦<ReminderRow as Row>⟧.row_laws refl };

    fn put_row(&self, fields: &mut Fields) -> SerializeResult<()> {
        put_fields!(self, fields => level, muted, urgent, rooms)
    }

    fn assert_row_valid(&self) {
        assert_fields_valid!(self => level, muted, urgent, rooms)
    }
}

impl<'a> ReadsFields<'a> for Reminder {
    ghost fields_give = { MadeOf ⟦<Reminder as LawfulStruct>⟧.laws.as_row
        ⟦<ReminderRow as ReadsRow<'a, DerParser>>⟧.row_gives };

    fn read_fields(alloc: Global, octets: &'a [u8]) -> Result<Reminder, Error> {
        read_fields!(row_by_der, alloc, octets => Reminder { level, muted, urgent, rooms })
    }
}

impl<'a> ReadsFieldsByBer<'a> for Reminder {
    ghost fields_give_by_ber = { MadeOf ⟦<Reminder as LawfulStruct>⟧.laws.as_row
        ⟦<ReminderRow as ReadsRow<'a, BerParser>>⟧.row_gives };

    fn read_fields_by_ber(alloc: Global, octets: &'a [u8]) -> Result<Reminder, Error> {
        read_fields!(row_by_ber, alloc, octets => Reminder { level, muted, urgent, rooms })
    }
}

/// Each reminder in hand is in DER form, since its fields are.
impl AlwaysDerBy<FieldsKind> for Reminder {
    fn der_by_kind(&self) {
        fields_in_der!(self => level, muted, urgent, rooms)
    }
}

/// The reminder at the front of the octets, by DER, and what follows it.
pub fn read_reminder(alloc: Global, octets: &[u8]) -> ParseResult<'_, Reminder, Error>
    ensures { ReadsByDer ⟦<Reminder as Grammar>⟧.grammar octets.now (seen result) }
{
    read_der::<Reminder, Error>(alloc, octets)
}

/// The reminder at the front of the octets, by BER, and what follows it.
pub fn read_reminder_by_ber(alloc: Global, octets: &[u8]) -> ParseResult<'_, Reminder, Error>
    ensures { ReadsByBer ⟦<Reminder as Grammar>⟧.grammar octets.now (seen result) }
{
    read_ber::<Reminder, Error>(alloc, octets)
}

/// The one strict encoding of a reminder. Where its length fits `usize`, it is refused only when out of memory.
pub fn reminder_vec(alloc: Global, reminder: &Reminder) -> SerializeResult<Vec<u8>>
    ensures { WritesStrict ⟦<Reminder as Grammar>⟧.grammar ⟦<Reminder as ToDer>⟧.writing
        reminder.now result }
{
    reminder.is_der();
    strict_vec(alloc, reminder)
}

/// The reminders of a list at the front of the octets, by DER, and what follows it.
pub fn read_reminders(alloc: Global, octets: &[u8]) -> ParseResult<'_, Vec<Reminder>, Error>
    ensures { ReadsByDer ⟦<Vec<Reminder> as Grammar>⟧.grammar octets.now (seen result) }
{
    read_der::<Vec<Reminder>, Error>(alloc, octets)
}

/// The reminders of a set at the front of the octets, by DER, and what follows it.
pub fn read_reminder_set(alloc: Global, octets: &[u8]) -> ParseResult<'_, SetOf<Reminder>, Error>
    ensures { ReadsByDer ⟦<SetOf<Reminder> as Grammar>⟧.grammar octets.now (seen result) }
{
    read_der::<SetOf<Reminder>, Error>(alloc, octets)
}

/// A reminder in place of whose tag another stands (X.690 8.14.3).
pub type TaggedReminder = TaggedImplicit<Reminder, Error, 2>;

/// The reminder under its tag at the front of the octets, by DER, and what follows it. Its fields are read by BER.
pub fn read_tagged_reminder(alloc: Global, octets: &[u8]) -> ParseResult<'_, TaggedReminder, Error>
    ensures { ReadsByDer ⟦<TaggedReminder as Grammar>⟧.grammar octets.now (seen result) }
{
    read_der::<TaggedReminder, Error>(alloc, octets)
}
