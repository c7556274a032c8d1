//! A message with sets without repetitions as fields, by both rules.
ghost use Rattle.asn1_rs.specs.Prelude.{MadeOf, ReadsByBer, ReadsByDer, refl, seen, struct_of, WritesStrict};

use crate::Measurement;
use asn1_rs::author::{
    Fields, FieldsKind, HasKind, HasReader, LawfulStruct, ReadsFields, ReadsFieldsByBer, ReadsRow,
    Row, Row4, StructReader,
};
use asn1_rs::laws::Grammar;
use asn1_rs::{
    BerParser, BmpString, Boolean, DerParser, Error, ParseResult, SerializeResult, ToDer,
    assert_fields_valid, put_fields, read_ber, read_der, read_fields, strict_vec,
};
use std::alloc::Global;
use std::collections::{BTreeSet, HashSet};

/// What a station measured, and at which places it looked.
///
///     SEQUENCE {
///         station       BMPString,
///         finished      BOOLEAN,
///         places        SET OF INTEGER,
///         measurements  SET OF Measurement }
#[derive(Debug, Drop)]
pub struct Survey<'a> {
    pub station: BmpString<'a>,
    pub finished: Boolean,
    pub places: HashSet<u32>,
    pub measurements: BTreeSet<Measurement>,
}

/// Its fields.
pub type SurveyRow<'a> = Row4<BmpString<'a>, Boolean, HashSet<u32>, BTreeSet<Measurement>>;

impl HasKind for Survey<'_> {
    type Kind = FieldsKind;
}

impl HasReader for Survey<'_> {
    type Reader = StructReader;
}

impl<'a> LawfulStruct for Survey<'a> {
    ghost laws = { struct_of (λ s. (s.station, (s.finished, (s.places, (s.measurements, tt)))))
        ⟦<SurveyRow<'a> as Row>⟧.row_laws refl };

    fn put_row(&self, fields: &mut Fields) -> SerializeResult<()> {
        put_fields!(self, fields => station, finished, places, measurements)
    }

    fn assert_row_valid(&self) {
        assert_fields_valid!(self => station, finished, places, measurements)
    }
}

impl<'a> ReadsFields<'a> for Survey<'a> {
    ghost fields_give = { MadeOf ⟦<Survey<'a> as LawfulStruct>⟧.laws.as_row
        ⟦<SurveyRow<'a> as ReadsRow<'a, DerParser>>⟧.row_gives };

    fn read_fields(alloc: Global, octets: &'a [u8]) -> Result<Survey<'a>, Error> {
        read_fields!(row_by_der, alloc, octets => Survey {
            station, finished, places, measurements
        })
    }
}

impl<'a> ReadsFieldsByBer<'a> for Survey<'a> {
    ghost fields_give_by_ber = { MadeOf ⟦<Survey<'a> as LawfulStruct>⟧.laws.as_row
        ⟦<SurveyRow<'a> as ReadsRow<'a, BerParser>>⟧.row_gives };

    fn read_fields_by_ber(alloc: Global, octets: &'a [u8]) -> Result<Survey<'a>, Error> {
        read_fields!(row_by_ber, alloc, octets => Survey {
            station, finished, places, measurements
        })
    }
}

/// The survey at the front of the octets, by DER, and what follows it.
pub fn read_survey<'a>(alloc: Global, octets: &'a [u8]) -> ParseResult<'a, Survey<'a>, Error>
    ensures { ReadsByDer ⟦<Survey<'a> as Grammar>⟧.grammar octets.now (seen result) }
{
    read_der::<Survey<'a>, Error>(alloc, octets)
}

/// The survey at the front of the octets, by BER, and what follows it.
pub fn read_survey_by_ber<'a>(alloc: Global, octets: &'a [u8]) -> ParseResult<'a, Survey<'a>, Error>
    ensures { ReadsByBer ⟦<Survey<'a> as Grammar>⟧.grammar octets.now (seen result) }
{
    read_ber::<Survey<'a>, Error>(alloc, octets)
}

/// The one strict encoding of a survey in DER form. Where its length fits `usize`, it is refused only when out of
/// memory.
pub fn survey_vec(alloc: Global, survey: &Survey<'_>) -> SerializeResult<Vec<u8>>
    ensures { ⟦<Survey<'static> as Grammar>⟧.grammar.IsDer
        (⟦<Survey<'static> as Grammar>⟧.grammar.value survey.now) →
        WritesStrict ⟦<Survey<'static> as Grammar>⟧.grammar ⟦<Survey<'static> as ToDer>⟧.writing
        survey.now result }
{
    strict_vec(alloc, survey)
}
