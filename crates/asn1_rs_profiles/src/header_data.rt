//! What stands in front of a message of SNMP version 3 (RFC 3412, 6): numbers of a range, and octets of a size.
ghost use Rattle.asn1_rs.specs.Prelude.{MadeOf, ReadsByBer, refl, seen, struct_of, WritesStrict};

use crate::refined::{Range, Refined, Size};
use asn1_rs::author::{
    AlwaysDerBy, Fields, FieldsKind, HasKind, HasReader, LawfulStruct, ReadsFieldsByBer, ReadsRow,
    Row, Row4, StructReader,
};
use asn1_rs::laws::{AlwaysDer, Grammar};
use asn1_rs::{
    BerParser, Error, OctetString, ParseResult, SerializeResult, ToDer, assert_fields_valid,
    fields_in_der, put_fields, read_ber, read_fields, strict_vec,
};
use std::alloc::Global;

/// The header of a message of version 3.
///
///     HeaderData ::= SEQUENCE {
///         msgID             INTEGER (0..2147483647),
///         msgMaxSize        INTEGER (484..2147483647),
///         msgFlags          OCTET STRING (SIZE(1)),
///         msgSecurityModel  INTEGER (1..2147483647) }
#[derive(Debug, PartialEq, Eq, Drop)]
pub struct HeaderData<'a> {
    pub id: Refined<u32, Range<0, 0x7fff_ffff>>,
    pub max_size: Refined<u32, Range<484, 0x7fff_ffff>>,
    pub flags: Refined<OctetString<'a>, Size<1, 1>>,
    pub security_model: Refined<u32, Range<1, 0x7fff_ffff>>,
}

/// Its fields.
pub type HeaderDataRow<'a> = Row4<
    Refined<u32, Range<0, 0x7fff_ffff>>,
    Refined<u32, Range<484, 0x7fff_ffff>>,
    Refined<OctetString<'a>, Size<1, 1>>,
    Refined<u32, Range<1, 0x7fff_ffff>>,
>;

impl HasKind for HeaderData<'_> {
    type Kind = FieldsKind;
}

impl HasReader for HeaderData<'_> {
    type Reader = StructReader;
}

impl<'a> LawfulStruct for HeaderData<'a> {
    ghost laws = { struct_of (λ x. (x.id, (x.max_size, (x.flags, (x.security_model, tt)))))
        ⟦<HeaderDataRow<'a> as Row>⟧.row_laws refl };

    fn put_row(&self, fields: &mut Fields) -> SerializeResult<()> {
        put_fields!(self, fields => id, max_size, flags, security_model)
    }

    fn assert_row_valid(&self) {
        assert_fields_valid!(self => id, max_size, flags, security_model)
    }
}

impl<'a> ReadsFieldsByBer<'a> for HeaderData<'a> {
    ghost fields_give_by_ber = { MadeOf ⟦<HeaderData<'a> as LawfulStruct>⟧.laws.as_row
        ⟦<HeaderDataRow<'a> as ReadsRow<'a, BerParser>>⟧.row_gives };

    fn read_fields_by_ber(alloc: Global, octets: &'a [u8]) -> Result<HeaderData<'a>, Error> {
        read_fields!(row_by_ber, alloc, octets => HeaderData { id, max_size, flags, security_model })
    }
}

/// Each header in hand is in DER form, since its fields are.
impl AlwaysDerBy<FieldsKind> for HeaderData<'_> {
    fn der_by_kind(&self) {
        fields_in_der!(self => id, max_size, flags, security_model)
    }
}

/// The header at the front of the octets, by BER, and what follows it.
pub fn read_header_data<'a>(
    alloc: Global,
    octets: &'a [u8],
) -> ParseResult<'a, HeaderData<'a>, Error>
    ensures { ReadsByBer ⟦<HeaderData<'a> as Grammar>⟧.grammar octets.now (seen result) }
{
    read_ber::<HeaderData<'a>, Error>(alloc, octets)
}

/// The one strict encoding of a header. Where its length fits `usize`, it is refused only when out of memory.
pub fn header_data_vec(alloc: Global, header: &HeaderData<'_>) -> SerializeResult<Vec<u8>>
    ensures { WritesStrict ⟦<HeaderData<'static> as Grammar>⟧.grammar
        ⟦<HeaderData<'static> as ToDer>⟧.writing header.now result }
{
    header.is_der();
    strict_vec(alloc, header)
}
