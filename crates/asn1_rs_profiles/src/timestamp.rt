//! The time that a client encrypts (RFC 4120, 5.2.7.2): a number of a range under an explicit tag, which may be left
//! out.
ghost use Rattle.asn1_rs.specs.Prelude.{MadeOf, ReadsByDer, refl, seen, struct_of, WritesStrict};

use crate::refined::{Range, Refined};
use asn1_rs::author::{
    Fields, FieldsKind, HasKind, HasReader, LawfulStruct, ReadsFields, ReadsRow, Row, Row2,
    StructReader,
};
use asn1_rs::laws::Grammar;
use asn1_rs::{
    DerParser, Error, GeneralizedTime, ParseResult, SerializeResult, TaggedExplicit, ToDer,
    assert_fields_valid, put_fields, read_der, read_fields, strict_vec,
};
use std::alloc::Global;

/// A number of microseconds: `INTEGER (0..999999)`.
pub type Microseconds = Refined<u32, Range<0, 999_999>>;

/// When a client asked for a ticket.
///
///     PA-ENC-TS-ENC ::= SEQUENCE {
///         patimestamp  [0] KerberosTime,
///         pausec       [1] Microseconds OPTIONAL }
#[derive(Debug, PartialEq, Eq, Drop)]
pub struct Timestamp {
    pub patimestamp: TaggedExplicit<GeneralizedTime, Error, 0>,
    pub pausec: Option<TaggedExplicit<Microseconds, Error, 1>>,
}

/// Its fields.
pub type TimestampRow = Row2<
    TaggedExplicit<GeneralizedTime, Error, 0>,
    Option<TaggedExplicit<Microseconds, Error, 1>>,
>;

impl HasKind for Timestamp {
    type Kind = FieldsKind;
}

impl HasReader for Timestamp {
    type Reader = StructReader;
}

impl LawfulStruct for Timestamp {
    ghost laws = { struct_of (λ x. (x.patimestamp, (x.pausec, tt)))
        ⟦<TimestampRow as Row>⟧.row_laws refl };

    fn put_row(&self, fields: &mut Fields) -> SerializeResult<()> {
        put_fields!(self, fields => patimestamp, pausec)
    }

    fn assert_row_valid(&self) {
        assert_fields_valid!(self => patimestamp, pausec)
    }
}

impl<'a> ReadsFields<'a> for Timestamp {
    ghost fields_give = { MadeOf ⟦<Timestamp as LawfulStruct>⟧.laws.as_row
        ⟦<TimestampRow as ReadsRow<'a, DerParser>>⟧.row_gives };

    fn read_fields(alloc: Global, octets: &'a [u8]) -> Result<Timestamp, Error> {
        read_fields!(row_by_der, alloc, octets => Timestamp { patimestamp, pausec })
    }
}

/// The time at the front of the octets, by DER, and what follows it.
pub fn read_timestamp(alloc: Global, octets: &[u8]) -> ParseResult<'_, Timestamp, Error>
    ensures { ReadsByDer ⟦<Timestamp as Grammar>⟧.grammar octets.now (seen result) }
{
    read_der::<Timestamp, Error>(alloc, octets)
}

/// The one strict encoding of a time in DER form. Where its length fits `usize`, it is refused only when out of memory.
pub fn timestamp_vec(alloc: Global, timestamp: &Timestamp) -> SerializeResult<Vec<u8>>
    ensures { ⟦<Timestamp as Grammar>⟧.grammar.IsDer
        (⟦<Timestamp as Grammar>⟧.grammar.value timestamp.now) →
        WritesStrict ⟦<Timestamp as Grammar>⟧.grammar ⟦<Timestamp as ToDer>⟧.writing
        timestamp.now result }
{
    strict_vec(alloc, timestamp)
}
