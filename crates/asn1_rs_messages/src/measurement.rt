//! A message of two numbers and one that may be left out, by both rules.
ghost use Rattle.asn1_rs.specs.Prelude.{key_of, MadeOf, ReadsByBer, ReadsByDer, refl, seen, struct_members};
ghost use Rattle.asn1_rs.specs.Prelude.{struct_of, struct_type, WritesStrict};

use asn1_rs::author::{
    AlwaysDerBy, Fields, FieldsKind, HasKind, HasReader, KeyType, LawfulStruct, MemberRow,
    ReadsFields, ReadsFieldsByBer, ReadsRow, Row, Row3, StructReader,
};
use asn1_rs::laws::{AlwaysDer, Grammar, LawfulMember};
use asn1_rs::{
    BerParser, DerParser, Error, ParseResult, SerializeResult, ToDer, assert_fields_valid,
    fields_in_der, put_fields, read_ber, read_der, read_fields, strict_vec,
};
use std::alloc::Global;
use std::collections::BTreeSet;

/// What was measured at a place, and how wrong it may be.
///
///     SEQUENCE {
///         place  INTEGER,
///         value  INTEGER,
///         error  INTEGER OPTIONAL }
#[derive(Debug, PartialEq, Eq, PartialOrd, Ord, Drop)]
pub struct Measurement {
    pub place: u32,
    pub value: u64,
    pub error: Option<u8>,
}

/// Its fields.
pub type MeasurementRow = Row3<u32, u64, Option<u8>>;

impl HasKind for Measurement {
    type Kind = FieldsKind;
}

impl HasReader for Measurement {
    type Reader = StructReader;
}

impl LawfulStruct for Measurement {
    ghost laws = { struct_of (λ m. (m.place, (m.value, (m.error, tt))))
        ⟦<MeasurementRow as Row>⟧.row_laws refl };

    fn put_row(&self, fields: &mut Fields) -> SerializeResult<()> {
        put_fields!(self, fields => place, value, error)
    }

    fn assert_row_valid(&self) {
        assert_fields_valid!(self => place, value, error)
    }
}

impl<'a> ReadsFields<'a> for Measurement {
    ghost fields_give = { MadeOf ⟦<Measurement as LawfulStruct>⟧.laws.as_row
        ⟦<MeasurementRow as ReadsRow<'a, DerParser>>⟧.row_gives };

    fn read_fields(alloc: Global, octets: &'a [u8]) -> Result<Measurement, Error> {
        read_fields!(row_by_der, alloc, octets => Measurement { place, value, error })
    }
}

impl<'a> ReadsFieldsByBer<'a> for Measurement {
    ghost fields_give_by_ber = { MadeOf ⟦<Measurement as LawfulStruct>⟧.laws.as_row
        ⟦<MeasurementRow as ReadsRow<'a, BerParser>>⟧.row_gives };

    fn read_fields_by_ber(alloc: Global, octets: &'a [u8]) -> Result<Measurement, Error> {
        read_fields!(row_by_ber, alloc, octets => Measurement { place, value, error })
    }
}

/// Each measurement in hand is in DER form, since its fields are.
impl AlwaysDerBy<FieldsKind> for Measurement {
    fn der_by_kind(&self) {
        fields_in_der!(self => place, value, error)
    }
}

/// Measurements are equal exactly where their values are, since their fields are.
impl KeyType for Measurement {
    ghost key_laws = { key_of (struct_type ⟦<Measurement as LawfulStruct>⟧.laws)
        (struct_members ⟦<Measurement as LawfulStruct>⟧.laws.as_row
        ⟦<MeasurementRow as MemberRow>⟧.row_members).same };
}

/// So they may be members of a set.
impl LawfulMember for Measurement {
    ghost same = { ⟦<Measurement as KeyType>⟧.key_laws.same };
}

/// The measurement at the front of the octets, by DER, and what follows it.
pub fn read_measurement(alloc: Global, octets: &[u8]) -> ParseResult<'_, Measurement, Error>
    ensures { ReadsByDer ⟦<Measurement as Grammar>⟧.grammar octets.now (seen result) }
{
    read_der::<Measurement, Error>(alloc, octets)
}

/// The measurement at the front of the octets, by BER, and what follows it.
pub fn read_measurement_by_ber(alloc: Global, octets: &[u8]) -> ParseResult<'_, Measurement, Error>
    ensures { ReadsByBer ⟦<Measurement as Grammar>⟧.grammar octets.now (seen result) }
{
    read_ber::<Measurement, Error>(alloc, octets)
}

/// The one strict encoding of a measurement. Where its length fits `usize`, it is refused only when out of memory.
pub fn measurement_vec(alloc: Global, measurement: &Measurement) -> SerializeResult<Vec<u8>>
    ensures { WritesStrict ⟦<Measurement as Grammar>⟧.grammar ⟦<Measurement as ToDer>⟧.writing
        measurement.now result }
{
    measurement.is_der();
    strict_vec(alloc, measurement)
}

/// The set of measurements at the front of the octets, by DER, and what follows it. Of equal ones it has one.
pub fn read_measurement_set(
    alloc: Global,
    octets: &[u8],
) -> ParseResult<'_, BTreeSet<Measurement>, Error>
    ensures { ReadsByDer ⟦<BTreeSet<Measurement> as Grammar>⟧.grammar octets.now (seen result) }
{
    read_der::<BTreeSet<Measurement>, Error>(alloc, octets)
}

/// The one strict encoding of a set of measurements. Where its length fits `usize`, it is refused only when out of
/// memory.
pub fn measurement_set_vec(
    alloc: Global,
    measurements: &BTreeSet<Measurement>,
) -> SerializeResult<Vec<u8>>
    ensures { WritesStrict ⟦<BTreeSet<Measurement> as Grammar>⟧.grammar
        ⟦<BTreeSet<Measurement> as ToDer>⟧.writing measurements.now result }
{
    measurements.is_der();
    strict_vec(alloc, measurements)
}
