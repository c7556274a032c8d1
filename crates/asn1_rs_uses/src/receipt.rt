//! A message whose fields keep the octets of their elements: a required one and an optional one.
ghost use Rattle.asn1_rs.specs.Prelude.{MadeOf, ReadsByDer, refl, seen, struct_of, WritesStrict};

use asn1_rs::author::{
    Fields, FieldsKind, HasKind, HasReader, LawfulStruct, ReadsFields, ReadsRow, Row, Row2,
    StructReader,
};
use asn1_rs::laws::Grammar;
use asn1_rs::{
    DerParser, Error, ParseResult, SerializeResult, SetOf, ToDer, assert_fields_valid, put_fields,
    read_der, read_fields, strict_vec,
};
use asn1_rs_profiles::Signed;
use std::alloc::Global;

/// What was ordered, and marks.
///
///     SEQUENCE {
///         order   SEQUENCE OF INTEGER,
///         marks   SET OF INTEGER OPTIONAL }
#[derive(Debug, Drop)]
pub struct Receipt<'a> {
    pub order: Order<'a>,
    pub marks: Option<Signed<'a, SetOf<u8>>>,
}

/// Numbers of goods, with their octets.
pub type Order<'a> = Signed<'a, Vec<u32>>;

/// Its fields.
pub type ReceiptRow<'a> = Row2<Order<'a>, Option<Signed<'a, SetOf<u8>>>>;

impl HasKind for Receipt<'_> {
    type Kind = FieldsKind;
}

impl HasReader for Receipt<'_> {
    type Reader = StructReader;
}

impl<'a> LawfulStruct for Receipt<'a> {
    ghost laws = { struct_of (λ x. (x.order, (x.marks, tt)))
        ⟦<ReceiptRow<'a> as Row>⟧.row_laws refl };

    fn put_row(&self, fields: &mut Fields) -> SerializeResult<()> {
        put_fields!(self, fields => order, marks)
    }

    fn assert_row_valid(&self) {
        assert_fields_valid!(self => order, marks)
    }
}

impl<'a> ReadsFields<'a> for Receipt<'a> {
    ghost fields_give = { MadeOf ⟦<Receipt<'a> as LawfulStruct>⟧.laws.as_row
        ⟦<ReceiptRow<'a> as ReadsRow<'a, DerParser>>⟧.row_gives };

    fn read_fields(alloc: Global, octets: &'a [u8]) -> Result<Receipt<'a>, Error> {
        read_fields!(row_by_der, alloc, octets => Receipt { order, marks })
    }
}

/// The receipt at the front of the octets, by DER, and what follows it.
pub fn read_receipt<'a>(alloc: Global, octets: &'a [u8]) -> ParseResult<'a, Receipt<'a>, Error>
    ensures { ReadsByDer ⟦<Receipt<'a> as Grammar>⟧.grammar octets.now (seen result) }
{
    read_der::<Receipt<'a>, Error>(alloc, octets)
}

/// The one strict encoding of a receipt in DER form: of one whose kept octets are strict. The octets that others keep
/// are written too. Where the length fits `usize`, writing is refused only when out of memory.
pub fn receipt_vec(alloc: Global, receipt: &Receipt<'_>) -> SerializeResult<Vec<u8>>
    ensures { ⟦<Receipt<'static> as Grammar>⟧.grammar.IsDer
        (⟦<Receipt<'static> as Grammar>⟧.grammar.value receipt.now) →
        WritesStrict ⟦<Receipt<'static> as Grammar>⟧.grammar
        ⟦<Receipt<'static> as ToDer>⟧.writing receipt.now result }
{
    strict_vec(alloc, receipt)
}
