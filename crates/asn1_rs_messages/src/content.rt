//! Content of a type that an identifier says (RFC 2315, 7). Attributes have values of such a type (RFC 2986, 4.1). Both
//! are read by BER and by DER, and borrowed from the octets.
ghost use Rattle.asn1_rs.specs.Prelude.{MadeOf, ReadsByBer, ReadsByDer, refl, seen, struct_of, WritesStrict};

use asn1_rs::author::{
    Fields, FieldsKind, HasKind, HasReader, LawfulStruct, OfRow, ReadsFields, ReadsFieldsByBer,
    ReadsRow, Row, Row2, StructReader, struct_by_ber, struct_by_der,
};
use asn1_rs::laws::Grammar;
use asn1_rs::{
    Any, BerParser, DerParser, Error, Oid, ParseResult, SerializeResult, SetOf, TaggedExplicit,
    ToDer, assert_fields_valid, put_fields, read_ber, read_der, strict_vec,
};
use std::alloc::Global;

/// Content that may be elsewhere, and the identifier of its type.
///
///     ContentInfo ::= SEQUENCE {
///         contentType  OBJECT IDENTIFIER,
///         content      [0] EXPLICIT ANY DEFINED BY contentType OPTIONAL }
#[derive(Debug, PartialEq, Eq, Drop)]
pub struct ContentInfo<'a> {
    pub content_type: Oid<'a>,
    pub content: Option<Content<'a>>,
}

/// An element of any type under a tag.
pub type Content<'a> = TaggedExplicit<Any<'a>, Error, 0>;

/// Its fields.
pub type ContentRow<'a> = Row2<Oid<'a>, Option<Content<'a>>>;

impl HasKind for ContentInfo<'_> {
    type Kind = FieldsKind;
}

impl HasReader for ContentInfo<'_> {
    type Reader = StructReader;
}

impl<'a> LawfulStruct for ContentInfo<'a> {
    ghost laws = { struct_of (λ x. (x.content_type, (x.content, tt)))
        ⟦<ContentRow<'a> as Row>⟧.row_laws refl };

    fn put_row(&self, fields: &mut Fields) -> SerializeResult<()> {
        put_fields!(self, fields => content_type, content)
    }

    fn assert_row_valid(&self) {
        assert_fields_valid!(self => content_type, content)
    }
}

impl<'a> OfRow for ContentInfo<'a> {
    type Row = ContentRow<'a>;

    ghost as_row = { λ x. (x.content_type, (x.content, tt)) };

    fn of_row(row: ContentRow<'a>) -> ContentInfo<'a> {
        let (content_type, (content, ())) = row;
        ContentInfo {
            content_type,
            content,
        }
    }
}

impl<'a> ReadsFields<'a> for ContentInfo<'a> {
    ghost fields_give = { MadeOf ⟦<ContentInfo<'a> as LawfulStruct>⟧.laws.as_row
        ⟦<ContentRow<'a> as ReadsRow<'a, DerParser>>⟧.row_gives };

    fn read_fields(alloc: Global, octets: &'a [u8]) -> Result<ContentInfo<'a>, Error> {
        struct_by_der(alloc, octets)
    }
}

impl<'a> ReadsFieldsByBer<'a> for ContentInfo<'a> {
    ghost fields_give_by_ber = { MadeOf ⟦<ContentInfo<'a> as LawfulStruct>⟧.laws.as_row
        ⟦<ContentRow<'a> as ReadsRow<'a, BerParser>>⟧.row_gives };

    fn read_fields_by_ber(alloc: Global, octets: &'a [u8]) -> Result<ContentInfo<'a>, Error> {
        struct_by_ber(alloc, octets)
    }
}

/// An attribute, with values of the type that its identifier says.
///
///     Attribute ::= SEQUENCE {
///         type    OBJECT IDENTIFIER,
///         values  SET OF ANY DEFINED BY type }
#[derive(Debug, PartialEq, Drop)]
pub struct Attribute<'a> {
    pub attribute_type: Oid<'a>,
    pub values: SetOf<Any<'a>>,
}

/// Its fields.
pub type AttributeRow<'a> = Row2<Oid<'a>, SetOf<Any<'a>>>;

impl HasKind for Attribute<'_> {
    type Kind = FieldsKind;
}

impl HasReader for Attribute<'_> {
    type Reader = StructReader;
}

impl<'a> LawfulStruct for Attribute<'a> {
    ghost laws = { struct_of (λ x. (x.attribute_type, (x.values, tt)))
        ⟦<AttributeRow<'a> as Row>⟧.row_laws refl };

    fn put_row(&self, fields: &mut Fields) -> SerializeResult<()> {
        put_fields!(self, fields => attribute_type, values)
    }

    fn assert_row_valid(&self) {
        assert_fields_valid!(self => attribute_type, values)
    }
}

impl<'a> OfRow for Attribute<'a> {
    type Row = AttributeRow<'a>;

    ghost as_row = { λ x. (x.attribute_type, (x.values, tt)) };

    fn of_row(row: AttributeRow<'a>) -> Attribute<'a> {
        let (attribute_type, (values, ())) = row;
        Attribute {
            attribute_type,
            values,
        }
    }
}

impl<'a> ReadsFields<'a> for Attribute<'a> {
    ghost fields_give = { MadeOf ⟦<Attribute<'a> as LawfulStruct>⟧.laws.as_row
        ⟦<AttributeRow<'a> as ReadsRow<'a, DerParser>>⟧.row_gives };

    fn read_fields(alloc: Global, octets: &'a [u8]) -> Result<Attribute<'a>, Error> {
        struct_by_der(alloc, octets)
    }
}

impl<'a> ReadsFieldsByBer<'a> for Attribute<'a> {
    ghost fields_give_by_ber = { MadeOf ⟦<Attribute<'a> as LawfulStruct>⟧.laws.as_row
        ⟦<AttributeRow<'a> as ReadsRow<'a, BerParser>>⟧.row_gives };

    fn read_fields_by_ber(alloc: Global, octets: &'a [u8]) -> Result<Attribute<'a>, Error> {
        struct_by_ber(alloc, octets)
    }
}

/// The content at the front of the octets, by DER, and what follows it.
pub fn read_content<'a>(alloc: Global, octets: &'a [u8]) -> ParseResult<'a, ContentInfo<'a>, Error>
    ensures { ReadsByDer ⟦<ContentInfo<'a> as Grammar>⟧.grammar octets.now (seen result) }
{
    read_der::<ContentInfo<'a>, Error>(alloc, octets)
}

/// The content at the front of the octets, by BER, and what follows it.
pub fn read_content_by_ber<'a>(
    alloc: Global,
    octets: &'a [u8],
) -> ParseResult<'a, ContentInfo<'a>, Error>
    ensures { ReadsByBer ⟦<ContentInfo<'a> as Grammar>⟧.grammar octets.now (seen result) }
{
    read_ber::<ContentInfo<'a>, Error>(alloc, octets)
}

/// The one strict encoding of content in DER form. Where its length fits `usize`, it is refused only when out of
/// memory.
pub fn content_vec(alloc: Global, content: &ContentInfo<'_>) -> SerializeResult<Vec<u8>>
    ensures { ⟦<ContentInfo<'static> as Grammar>⟧.grammar.IsDer
        (⟦<ContentInfo<'static> as Grammar>⟧.grammar.value content.now) →
        WritesStrict ⟦<ContentInfo<'static> as Grammar>⟧.grammar
        ⟦<ContentInfo<'static> as ToDer>⟧.writing content.now result }
{
    strict_vec(alloc, content)
}

/// The attribute at the front of the octets, by DER, and what follows it.
pub fn read_attribute<'a>(alloc: Global, octets: &'a [u8]) -> ParseResult<'a, Attribute<'a>, Error>
    ensures { ReadsByDer ⟦<Attribute<'a> as Grammar>⟧.grammar octets.now (seen result) }
{
    read_der::<Attribute<'a>, Error>(alloc, octets)
}

/// The attribute at the front of the octets, by BER, and what follows it.
pub fn read_attribute_by_ber<'a>(
    alloc: Global,
    octets: &'a [u8],
) -> ParseResult<'a, Attribute<'a>, Error>
    ensures { ReadsByBer ⟦<Attribute<'a> as Grammar>⟧.grammar octets.now (seen result) }
{
    read_ber::<Attribute<'a>, Error>(alloc, octets)
}

/// The one strict encoding of an attribute in DER form. Where its length fits `usize`, it is refused only when out of
/// memory.
pub fn attribute_vec(alloc: Global, attribute: &Attribute<'_>) -> SerializeResult<Vec<u8>>
    ensures { ⟦<Attribute<'static> as Grammar>⟧.grammar.IsDer
        (⟦<Attribute<'static> as Grammar>⟧.grammar.value attribute.now) →
        WritesStrict ⟦<Attribute<'static> as Grammar>⟧.grammar
        ⟦<Attribute<'static> as ToDer>⟧.writing attribute.now result }
{
    strict_vec(alloc, attribute)
}
