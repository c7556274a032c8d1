//! Content that may be signed (RFC 5652, 5.2), whose octets may come in pieces.
ghost use Rattle.asn1_rs.specs.Prelude.{MadeOf, ReadsByBer, ReadsByDer, refl, seen, struct_of, WritesStrict};

use crate::joined::JoinedOctets;
use asn1_rs::author::{
    Fields, FieldsKind, HasKind, HasReader, LawfulStruct, ReadsFields, ReadsFieldsByBer, ReadsRow,
    Row, Row2, StructReader,
};
use asn1_rs::laws::Grammar;
use asn1_rs::{
    BerParser, DerParser, Error, Oid, ParseResult, SerializeResult, TaggedExplicit, ToDer,
    assert_fields_valid, put_fields, read_ber, read_der, read_fields, strict_vec,
};
use std::alloc::Global;

/// Content, under its tag.
pub type JoinedContent<'a> = TaggedExplicit<JoinedOctets<'a>, Error, 0>;

/// Content and the identifier of its type. A program that streams the content writes it in pieces.
///
///     EncapsulatedContentInfo ::= SEQUENCE {
///         eContentType  OBJECT IDENTIFIER,
///         eContent      [0] EXPLICIT OCTET STRING OPTIONAL }
#[derive(Debug, PartialEq, Drop)]
pub struct JoinedContentInfo<'a> {
    pub content_type: Oid<'a>,
    /// None where the signature is apart from the content.
    pub content: Option<JoinedContent<'a>>,
}

/// Its fields.
pub type JoinedContentRow<'a> = Row2<Oid<'a>, Option<JoinedContent<'a>>>;

impl HasKind for JoinedContentInfo<'_> {
    type Kind = FieldsKind;
}

impl HasReader for JoinedContentInfo<'_> {
    type Reader = StructReader;
}

impl<'a> LawfulStruct for JoinedContentInfo<'a> {
    ghost laws = { struct_of (λ x. (x.content_type, (x.content, tt)))
        ⟦<JoinedContentRow<'a> as Row>⟧.row_laws refl };

    fn put_row(&self, fields: &mut Fields) -> SerializeResult<()> {
        put_fields!(self, fields => content_type, content)
    }

    fn assert_row_valid(&self) {
        assert_fields_valid!(self => content_type, content)
    }
}

impl<'a> ReadsFields<'a> for JoinedContentInfo<'a> {
    ghost fields_give = { MadeOf ⟦<JoinedContentInfo<'a> as LawfulStruct>⟧.laws.as_row
        ⟦<JoinedContentRow<'a> as ReadsRow<'a, DerParser>>⟧.row_gives };

    fn read_fields(alloc: Global, octets: &'a [u8]) -> Result<JoinedContentInfo<'a>, Error> {
        read_fields!(row_by_der, alloc, octets => JoinedContentInfo { content_type, content })
    }
}

impl<'a> ReadsFieldsByBer<'a> for JoinedContentInfo<'a> {
    ghost fields_give_by_ber = { MadeOf ⟦<JoinedContentInfo<'a> as LawfulStruct>⟧.laws.as_row
        ⟦<JoinedContentRow<'a> as ReadsRow<'a, BerParser>>⟧.row_gives };

    fn read_fields_by_ber(alloc: Global, octets: &'a [u8]) -> Result<JoinedContentInfo<'a>, Error> {
        read_fields!(row_by_ber, alloc, octets => JoinedContentInfo { content_type, content })
    }
}

/// The content at the front of the octets, by DER, and what follows it.
pub fn read_content_info<'a>(
    alloc: Global,
    octets: &'a [u8],
) -> ParseResult<'a, JoinedContentInfo<'a>, Error>
    ensures { ReadsByDer ⟦<JoinedContentInfo<'a> as Grammar>⟧.grammar octets.now (seen result) }
{
    read_der::<JoinedContentInfo<'a>, Error>(alloc, octets)
}

/// The content at the front of the octets, by BER, and what follows it. Its pieces are joined.
pub fn read_content_info_by_ber<'a>(
    alloc: Global,
    octets: &'a [u8],
) -> ParseResult<'a, JoinedContentInfo<'a>, Error>
    ensures { ReadsByBer ⟦<JoinedContentInfo<'a> as Grammar>⟧.grammar octets.now (seen result) }
{
    read_ber::<JoinedContentInfo<'a>, Error>(alloc, octets)
}

/// The one strict encoding of a content in DER form. Where its length fits `usize`, it is refused only when out of
/// memory.
pub fn content_info_vec(alloc: Global, content: &JoinedContentInfo<'_>) -> SerializeResult<Vec<u8>>
    ensures { ⟦<JoinedContentInfo<'static> as Grammar>⟧.grammar.IsDer
        (⟦<JoinedContentInfo<'static> as Grammar>⟧.grammar.value content.now) →
        WritesStrict ⟦<JoinedContentInfo<'static> as Grammar>⟧.grammar
        ⟦<JoinedContentInfo<'static> as ToDer>⟧.writing content.now result }
{
    strict_vec(alloc, content)
}
