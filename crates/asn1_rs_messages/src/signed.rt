//! A message in which values stand under tags that the sender picks, by both rules, borrowed from the octets.
ghost use Rattle.asn1_rs.specs.Prelude.{key_of, MadeOf, ReadsByBer, ReadsByDer, refl, seen, struct_members};
ghost use Rattle.asn1_rs.specs.Prelude.{struct_of, struct_type, WritesStrict};

use asn1_rs::author::{
    Fields, FieldsKind, HasKind, HasReader, KeyType, LawfulStruct, MemberRow, ReadsFields,
    ReadsFieldsByBer, ReadsRow, Row, Row3, StructReader,
};
use asn1_rs::laws::{Grammar, LawfulMember};
use asn1_rs::{
    BerParser, DerParser, Error, Explicit, Implicit, OctetString, ParseResult, SerializeResult,
    TaggedParser, ToDer, assert_fields_valid, put_fields, read_ber, read_der, read_fields,
    strict_vec,
};
use std::alloc::Global;

/// A number, its signature and a note. The tag of the signature says how the signature was made. The tag of the note
/// says what the note is about.
///
///     SEQUENCE {
///         number     INTEGER,
///         signature  [how] EXPLICIT OCTET STRING,
///         note       [what] IMPLICIT OCTET STRING OPTIONAL }
#[derive(Debug, PartialEq, Eq, Drop)]
pub struct Signed<'a> {
    pub number: u32,
    pub signature: Signature<'a>,
    pub note: Option<Note<'a>>,
}

/// Octets under any explicit tag.
pub type Signature<'a> = TaggedParser<'a, Explicit, OctetString<'a>, Error>;

/// Octets under any implicit tag.
pub type Note<'a> = TaggedParser<'a, Implicit, OctetString<'a>, Error>;

/// Its fields.
pub type SignedRow<'a> = Row3<u32, Signature<'a>, Option<Note<'a>>>;

impl HasKind for Signed<'_> {
    type Kind = FieldsKind;
}

impl HasReader for Signed<'_> {
    type Reader = StructReader;
}

impl<'a> LawfulStruct for Signed<'a> {
    ghost laws = { struct_of (λ x. (x.number, (x.signature, (x.note, tt))))
        ⟦<SignedRow<'a> as Row>⟧.row_laws refl };

    fn put_row(&self, fields: &mut Fields) -> SerializeResult<()> {
        put_fields!(self, fields => number, signature, note)
    }

    fn assert_row_valid(&self) {
        assert_fields_valid!(self => number, signature, note)
    }
}

impl<'a> ReadsFields<'a> for Signed<'a> {
    ghost fields_give = { MadeOf ⟦<Signed<'a> as LawfulStruct>⟧.laws.as_row
        ⟦<SignedRow<'a> as ReadsRow<'a, DerParser>>⟧.row_gives };

    fn read_fields(alloc: Global, octets: &'a [u8]) -> Result<Signed<'a>, Error> {
        read_fields!(row_by_der, alloc, octets => Signed { number, signature, note })
    }
}

impl<'a> ReadsFieldsByBer<'a> for Signed<'a> {
    ghost fields_give_by_ber = { MadeOf ⟦<Signed<'a> as LawfulStruct>⟧.laws.as_row
        ⟦<SignedRow<'a> as ReadsRow<'a, BerParser>>⟧.row_gives };

    fn read_fields_by_ber(alloc: Global, octets: &'a [u8]) -> Result<Signed<'a>, Error> {
        read_fields!(row_by_ber, alloc, octets => Signed { number, signature, note })
    }
}

/// Messages are equal exactly where their values are. The tags that their headers have are a part of the values.
impl<'a> KeyType for Signed<'a> {
    ghost key_laws = { key_of (struct_type ⟦<Signed<'a> as LawfulStruct>⟧.laws)
        (struct_members ⟦<Signed<'a> as LawfulStruct>⟧.laws.as_row
        ⟦<SignedRow<'a> as MemberRow>⟧.row_members).same };
}

/// So they may be members of a set.
impl<'a> LawfulMember for Signed<'a> {
    ghost same = { ⟦<Signed<'a> as KeyType>⟧.key_laws.same };
}

/// The message at the front of the octets, by DER, and what follows it.
pub fn read_signed<'a>(alloc: Global, octets: &'a [u8]) -> ParseResult<'a, Signed<'a>, Error>
    ensures { ReadsByDer ⟦<Signed<'a> as Grammar>⟧.grammar octets.now (seen result) }
{
    read_der::<Signed<'a>, Error>(alloc, octets)
}

/// The message at the front of the octets, by BER, and what follows it.
pub fn read_signed_by_ber<'a>(alloc: Global, octets: &'a [u8]) -> ParseResult<'a, Signed<'a>, Error>
    ensures { ReadsByBer ⟦<Signed<'a> as Grammar>⟧.grammar octets.now (seen result) }
{
    read_ber::<Signed<'a>, Error>(alloc, octets)
}

/// The one strict encoding of a message in DER form. The header of its signature is constructed, and the header of its
/// note is primitive. Where its length fits `usize`, it is refused only when out of memory.
pub fn signed_vec(alloc: Global, message: &Signed<'_>) -> SerializeResult<Vec<u8>>
    ensures { ⟦<Signed<'static> as Grammar>⟧.grammar.IsDer
        (⟦<Signed<'static> as Grammar>⟧.grammar.value message.now) →
        WritesStrict ⟦<Signed<'static> as Grammar>⟧.grammar
        ⟦<Signed<'static> as ToDer>⟧.writing message.now result }
{
    strict_vec(alloc, message)
}
