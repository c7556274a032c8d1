//! The public key of a certificate and the algorithm that the key is for (RFC 5280, 4.1). Both are read by both rules,
//! and borrowed from the octets.
ghost use Rattle.std.specs.Prelude.{◌≡◌, IfOk, IfErr};
ghost use Rattle.asn1_rs.specs.Prelude.{copied_by, key_of, MadeOf, OutOfMemory, ReadsByBer, ReadsByDer, refl, seen};
ghost use Rattle.asn1_rs.specs.Prelude.{struct_members, struct_of, struct_type, WritesStrict};

use asn1_rs::author::{
    Fields, FieldsKind, HasKind, HasReader, KeyType, LawfulStruct, MemberRow, ReadsFields,
    ReadsFieldsByBer, ReadsRow, Row, Row2, StructReader,
};
use asn1_rs::laws::{Grammar, LawfulMember};
use asn1_rs::{
    BerParser, BitString, DerParser, Error, KeptAny, Oid, ParseResult, SerializeResult, ToDer,
    ToStatic, assert_fields_valid, copy_fields, put_fields, read_ber, read_der, read_fields,
    strict_vec,
};
use std::alloc::Global;

/// An algorithm, with parameters of a type that it says.
///
///     AlgorithmIdentifier ::= SEQUENCE {
///         algorithm   OBJECT IDENTIFIER,
///         parameters  ANY DEFINED BY algorithm OPTIONAL }
#[derive(Debug, PartialEq, Eq, Drop)]
pub struct AlgorithmIdentifier<'a> {
    pub algorithm: Oid<'a>,
    pub parameters: Option<KeptAny<'a>>,
}

/// Its fields.
pub type AlgorithmRow<'a> = Row2<Oid<'a>, Option<KeptAny<'a>>>;

impl HasKind for AlgorithmIdentifier<'_> {
    type Kind = FieldsKind;
}

impl HasReader for AlgorithmIdentifier<'_> {
    type Reader = StructReader;
}

impl<'a> LawfulStruct for AlgorithmIdentifier<'a> {
    ghost laws = { struct_of (λ x. (x.algorithm, (x.parameters, tt)))
        ⟦<AlgorithmRow<'a> as Row>⟧.row_laws refl };

    fn put_row(&self, fields: &mut Fields) -> SerializeResult<()> {
        put_fields!(self, fields => algorithm, parameters)
    }

    fn assert_row_valid(&self) {
        assert_fields_valid!(self => algorithm, parameters)
    }
}

impl<'a> ReadsFields<'a> for AlgorithmIdentifier<'a> {
    ghost fields_give = { MadeOf ⟦<AlgorithmIdentifier<'a> as LawfulStruct>⟧.laws.as_row
        ⟦<AlgorithmRow<'a> as ReadsRow<'a, DerParser>>⟧.row_gives };

    fn read_fields(alloc: Global, octets: &'a [u8]) -> Result<AlgorithmIdentifier<'a>, Error> {
        read_fields!(row_by_der, alloc, octets => AlgorithmIdentifier { algorithm, parameters })
    }
}

impl<'a> ReadsFieldsByBer<'a> for AlgorithmIdentifier<'a> {
    ghost fields_give_by_ber = { MadeOf ⟦<AlgorithmIdentifier<'a> as LawfulStruct>⟧.laws.as_row
        ⟦<AlgorithmRow<'a> as ReadsRow<'a, BerParser>>⟧.row_gives };

    fn read_fields_by_ber(
        alloc: Global,
        octets: &'a [u8],
    ) -> Result<AlgorithmIdentifier<'a>, Error> {
        read_fields!(row_by_ber, alloc, octets => AlgorithmIdentifier { algorithm, parameters })
    }
}

/// The copy owns its octets, and has the fields of its source.
impl<'a> ToStatic for AlgorithmIdentifier<'a> {
    type Owned = AlgorithmIdentifier<'static>;

    ghost copies = { copied_by ⟦<AlgorithmIdentifier<'a> as LawfulStruct>⟧.laws.as_row
        ⟦<AlgorithmRow<'static> as ToStatic>⟧.copies };

    fn to_static(&self, alloc: Global) -> Result<AlgorithmIdentifier<'static>, Error> {
        copy_fields!(self, alloc => AlgorithmIdentifier { algorithm, parameters })
    }
}

/// Algorithms are equal exactly where their values are.
impl<'a> KeyType for AlgorithmIdentifier<'a> {
    ghost key_laws = { key_of (struct_type ⟦<AlgorithmIdentifier<'a> as LawfulStruct>⟧.laws)
        (struct_members ⟦<AlgorithmIdentifier<'a> as LawfulStruct>⟧.laws.as_row
        ⟦<AlgorithmRow<'a> as MemberRow>⟧.row_members).same };
}

/// So they may be members of a set.
impl<'a> LawfulMember for AlgorithmIdentifier<'a> {
    ghost same = { ⟦<AlgorithmIdentifier<'a> as KeyType>⟧.key_laws.same };
}

/// A public key, as the bits that its algorithm reads.
///
///     SubjectPublicKeyInfo ::= SEQUENCE {
///         algorithm         AlgorithmIdentifier,
///         subjectPublicKey  BIT STRING }
#[derive(Debug, PartialEq, Eq, Drop)]
pub struct SubjectPublicKeyInfo<'a> {
    pub algorithm: AlgorithmIdentifier<'a>,
    pub subject_public_key: BitString<'a>,
}

/// Its fields.
pub type PublicKeyRow<'a> = Row2<AlgorithmIdentifier<'a>, BitString<'a>>;

impl HasKind for SubjectPublicKeyInfo<'_> {
    type Kind = FieldsKind;
}

impl HasReader for SubjectPublicKeyInfo<'_> {
    type Reader = StructReader;
}

impl<'a> LawfulStruct for SubjectPublicKeyInfo<'a> {
    ghost laws = { struct_of (λ x. (x.algorithm, (x.subject_public_key, tt)))
        ⟦<PublicKeyRow<'a> as Row>⟧.row_laws refl };

    fn put_row(&self, fields: &mut Fields) -> SerializeResult<()> {
        put_fields!(self, fields => algorithm, subject_public_key)
    }

    fn assert_row_valid(&self) {
        assert_fields_valid!(self => algorithm, subject_public_key)
    }
}

impl<'a> ReadsFields<'a> for SubjectPublicKeyInfo<'a> {
    ghost fields_give = { MadeOf ⟦<SubjectPublicKeyInfo<'a> as LawfulStruct>⟧.laws.as_row
        ⟦<PublicKeyRow<'a> as ReadsRow<'a, DerParser>>⟧.row_gives };

    fn read_fields(alloc: Global, octets: &'a [u8]) -> Result<SubjectPublicKeyInfo<'a>, Error> {
        read_fields!(row_by_der, alloc, octets => SubjectPublicKeyInfo {
            algorithm, subject_public_key
        })
    }
}

impl<'a> ReadsFieldsByBer<'a> for SubjectPublicKeyInfo<'a> {
    ghost fields_give_by_ber = { MadeOf ⟦<SubjectPublicKeyInfo<'a> as LawfulStruct>⟧.laws.as_row
        ⟦<PublicKeyRow<'a> as ReadsRow<'a, BerParser>>⟧.row_gives };

    fn read_fields_by_ber(
        alloc: Global,
        octets: &'a [u8],
    ) -> Result<SubjectPublicKeyInfo<'a>, Error> {
        read_fields!(row_by_ber, alloc, octets => SubjectPublicKeyInfo { algorithm, subject_public_key })
    }
}

/// The copy owns its octets, and has the fields of its source.
impl<'a> ToStatic for SubjectPublicKeyInfo<'a> {
    type Owned = SubjectPublicKeyInfo<'static>;

    ghost copies = { copied_by ⟦<SubjectPublicKeyInfo<'a> as LawfulStruct>⟧.laws.as_row
        ⟦<PublicKeyRow<'static> as ToStatic>⟧.copies };

    fn to_static(&self, alloc: Global) -> Result<SubjectPublicKeyInfo<'static>, Error> {
        copy_fields!(self, alloc => SubjectPublicKeyInfo { algorithm, subject_public_key })
    }
}

/// The algorithm at the front of the octets, by DER, and what follows it.
pub fn read_algorithm<'a>(
    alloc: Global,
    octets: &'a [u8],
) -> ParseResult<'a, AlgorithmIdentifier<'a>, Error>
    ensures { ReadsByDer ⟦<AlgorithmIdentifier<'a> as Grammar>⟧.grammar octets.now (seen result) }
{
    read_der::<AlgorithmIdentifier<'a>, Error>(alloc, octets)
}

/// The algorithm at the front of the octets, by BER, and what follows it.
pub fn read_algorithm_by_ber<'a>(
    alloc: Global,
    octets: &'a [u8],
) -> ParseResult<'a, AlgorithmIdentifier<'a>, Error>
    ensures { ReadsByBer ⟦<AlgorithmIdentifier<'a> as Grammar>⟧.grammar octets.now (seen result) }
{
    read_ber::<AlgorithmIdentifier<'a>, Error>(alloc, octets)
}

/// The public key at the front of the octets, by DER, and what follows it.
pub fn read_public_key<'a>(
    alloc: Global,
    octets: &'a [u8],
) -> ParseResult<'a, SubjectPublicKeyInfo<'a>, Error>
    ensures { ReadsByDer ⟦<SubjectPublicKeyInfo<'a> as Grammar>⟧.grammar octets.now (seen result) }
{
    read_der::<SubjectPublicKeyInfo<'a>, Error>(alloc, octets)
}

/// The public key at the front of the octets, by BER, and what follows it.
pub fn read_public_key_by_ber<'a>(
    alloc: Global,
    octets: &'a [u8],
) -> ParseResult<'a, SubjectPublicKeyInfo<'a>, Error>
    ensures { ReadsByBer ⟦<SubjectPublicKeyInfo<'a> as Grammar>⟧.grammar octets.now (seen result) }
{
    read_ber::<SubjectPublicKeyInfo<'a>, Error>(alloc, octets)
}

/// The one strict encoding of a public key in DER form. Where its length fits `usize`, it is refused only when out of
/// memory.
pub fn public_key_vec(alloc: Global, key: &SubjectPublicKeyInfo<'_>) -> SerializeResult<Vec<u8>>
    ensures { ⟦<SubjectPublicKeyInfo<'static> as Grammar>⟧.grammar.IsDer
        (⟦<SubjectPublicKeyInfo<'static> as Grammar>⟧.grammar.value key.now) →
        WritesStrict ⟦<SubjectPublicKeyInfo<'static> as Grammar>⟧.grammar
        ⟦<SubjectPublicKeyInfo<'static> as ToDer>⟧.writing key.now result }
{
    strict_vec(alloc, key)
}

/// A copy of a public key, with the same value. It outlives the octets that the key was read from. Refused only when
/// out of memory.
pub fn kept_public_key(
    alloc: Global,
    key: &SubjectPublicKeyInfo<'_>,
) -> Result<SubjectPublicKeyInfo<'static>, Error>
    ensures copied { IfOk result
        (λ copy. ⟦<SubjectPublicKeyInfo<'static> as Grammar>⟧.grammar.value copy ≡
        ⟦<SubjectPublicKeyInfo<'static> as Grammar>⟧.grammar.value key.now) }
    ensures refused { IfErr result (λ e. e ≡ OutOfMemory) }
{
    key.to_static(alloc)
}
