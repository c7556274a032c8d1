//! A message with a choice that may be left out, a list of choices, and a choice under a tag. It is read by BER and by
//! DER.
ghost use Rattle.asn1_rs.specs.Prelude.{MadeOf, ReadsByBer, ReadsByDer, refl, seen, struct_of, WritesStrict};

use crate::time::{TaggedTime, Time};
use asn1_rs::author::{
    Fields, FieldsKind, HasKind, HasReader, LawfulStruct, ReadsFields, ReadsFieldsByBer, ReadsRow,
    Row, Row4, StructReader,
};
use asn1_rs::laws::Grammar;
use asn1_rs::{
    BerParser, DerParser, Error, ParseResult, SerializeResult, ToDer, assert_fields_valid,
    put_fields, read_ber, read_der, read_fields, strict_vec,
};
use std::alloc::Global;

/// When a list is updated. The first two fields are as those of a list of revoked certificates (RFC 5280, 5.1).
///
///     Updates ::= SEQUENCE {
///         thisUpdate  Time,
///         nextUpdate  Time OPTIONAL,
///         earlier     SEQUENCE OF Time,
///         last        [0] EXPLICIT Time OPTIONAL }
#[derive(Debug, PartialEq, Eq, Drop)]
pub struct Updates {
    pub this_update: Time,
    pub next_update: Option<Time>,
    pub earlier: Vec<Time>,
    pub last: Option<TaggedTime>,
}

/// Its fields.
pub type UpdatesRow = Row4<Time, Option<Time>, Vec<Time>, Option<TaggedTime>>;

impl HasKind for Updates {
    type Kind = FieldsKind;
}

impl HasReader for Updates {
    type Reader = StructReader;
}

impl LawfulStruct for Updates {
    ghost laws = { struct_of (λ x. (x.this_update, (x.next_update, (x.earlier, (x.last, tt)))))
        ⟦<UpdatesRow as Row>⟧.row_laws refl };

    fn put_row(&self, fields: &mut Fields) -> SerializeResult<()> {
        put_fields!(self, fields => this_update, next_update, earlier, last)
    }

    fn assert_row_valid(&self) {
        assert_fields_valid!(self => this_update, next_update, earlier, last)
    }
}

impl<'a> ReadsFields<'a> for Updates {
    ghost fields_give = { MadeOf ⟦<Updates as LawfulStruct>⟧.laws.as_row
        ⟦<UpdatesRow as ReadsRow<'a, DerParser>>⟧.row_gives };

    fn read_fields(alloc: Global, octets: &'a [u8]) -> Result<Updates, Error> {
        read_fields!(row_by_der, alloc, octets => Updates {
            this_update, next_update, earlier, last
        })
    }
}

impl<'a> ReadsFieldsByBer<'a> for Updates {
    ghost fields_give_by_ber = { MadeOf ⟦<Updates as LawfulStruct>⟧.laws.as_row
        ⟦<UpdatesRow as ReadsRow<'a, BerParser>>⟧.row_gives };

    fn read_fields_by_ber(alloc: Global, octets: &'a [u8]) -> Result<Updates, Error> {
        read_fields!(row_by_ber, alloc, octets => Updates {
            this_update, next_update, earlier, last
        })
    }
}

/// The updates at the front of the octets, by DER, and what follows them.
pub fn read_updates(alloc: Global, octets: &[u8]) -> ParseResult<'_, Updates, Error>
    ensures { ReadsByDer ⟦<Updates as Grammar>⟧.grammar octets.now (seen result) }
{
    read_der::<Updates, Error>(alloc, octets)
}

/// The updates at the front of the octets, by BER, and what follows them.
pub fn read_updates_by_ber(alloc: Global, octets: &[u8]) -> ParseResult<'_, Updates, Error>
    ensures { ReadsByBer ⟦<Updates as Grammar>⟧.grammar octets.now (seen result) }
{
    read_ber::<Updates, Error>(alloc, octets)
}

/// The one strict encoding of updates in DER form. Where its length fits `usize`, it is refused only when out of
/// memory.
pub fn updates_vec(alloc: Global, updates: &Updates) -> SerializeResult<Vec<u8>>
    ensures { ⟦<Updates as Grammar>⟧.grammar.IsDer (⟦<Updates as Grammar>⟧.grammar.value updates.now) →
        WritesStrict ⟦<Updates as Grammar>⟧.grammar ⟦<Updates as ToDer>⟧.writing updates.now
        result }
{
    strict_vec(alloc, updates)
}
