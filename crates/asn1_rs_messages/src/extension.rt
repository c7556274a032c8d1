//! An extension of a certificate (RFC 5280, 4.1), with a field that has a default. It is read by BER and by DER, and
//! borrowed from the octets.
ghost use Rattle.std.specs.Prelude.{◌≡◌, IfOk, IfErr, IfSome, IfNone};
ghost use Rattle.asn1_rs.specs.Prelude.{copied_by, MadeOf, OutOfMemory, ReadsByBer, ReadsByDer, refl, seen};
ghost use Rattle.asn1_rs.specs.Prelude.{struct_of, WritesStrict};

use asn1_rs::author::{
    Fields, FieldsKind, HasKind, HasReader, LawfulStruct, ReadsFields, ReadsFieldsByBer, ReadsRow,
    Row, Row3, StructReader, TellsDerBy,
};
use asn1_rs::laws::{Grammar, TellsDer};
use asn1_rs::{
    BerParser, DefaultFalse, Defaulted, DerParser, Error, OctetString, Oid, ParseResult,
    SerializeResult, ToDer, ToStatic, are_der_fields, assert_fields_valid, copy_fields, put_fields,
    read_ber, read_der, read_fields, strict_vec,
};
use std::alloc::Global;

/// An extension of a certificate.
///
///     Extension ::= SEQUENCE {
///         extnID     OBJECT IDENTIFIER,
///         critical   BOOLEAN DEFAULT FALSE,
///         extnValue  OCTET STRING }
#[derive(Debug, PartialEq, Eq, Drop)]
pub struct Extension<'a> {
    pub id: Oid<'a>,
    pub critical: Defaulted<bool, DefaultFalse>,
    pub value: OctetString<'a>,
}

/// Its fields.
pub type ExtensionRow<'a> = Row3<Oid<'a>, Defaulted<bool, DefaultFalse>, OctetString<'a>>;

impl HasKind for Extension<'_> {
    type Kind = FieldsKind;
}

impl HasReader for Extension<'_> {
    type Reader = StructReader;
}

impl<'a> LawfulStruct for Extension<'a> {
    ghost laws = { struct_of (λ x. (x.id, (x.critical, (x.value, tt))))
        ⟦<ExtensionRow<'a> as Row>⟧.row_laws refl };

    fn put_row(&self, fields: &mut Fields) -> SerializeResult<()> {
        put_fields!(self, fields => id, critical, value)
    }

    fn assert_row_valid(&self) {
        assert_fields_valid!(self => id, critical, value)
    }
}

impl<'a> ReadsFields<'a> for Extension<'a> {
    ghost fields_give = { MadeOf ⟦<Extension<'a> as LawfulStruct>⟧.laws.as_row
        ⟦<ExtensionRow<'a> as ReadsRow<'a, DerParser>>⟧.row_gives };

    fn read_fields(alloc: Global, octets: &'a [u8]) -> Result<Extension<'a>, Error> {
        read_fields!(row_by_der, alloc, octets => Extension { id, critical, value })
    }
}

impl<'a> ReadsFieldsByBer<'a> for Extension<'a> {
    ghost fields_give_by_ber = { MadeOf ⟦<Extension<'a> as LawfulStruct>⟧.laws.as_row
        ⟦<ExtensionRow<'a> as ReadsRow<'a, BerParser>>⟧.row_gives };

    fn read_fields_by_ber(alloc: Global, octets: &'a [u8]) -> Result<Extension<'a>, Error> {
        read_fields!(row_by_ber, alloc, octets => Extension { id, critical, value })
    }
}

/// The copy owns its octets, and has the fields of its source.
impl<'a> ToStatic for Extension<'a> {
    type Owned = Extension<'static>;

    ghost copies = { copied_by ⟦<Extension<'a> as LawfulStruct>⟧.laws.as_row
        ⟦<ExtensionRow<'static> as ToStatic>⟧.copies };

    fn to_static(&self, alloc: Global) -> Result<Extension<'static>, Error> {
        copy_fields!(self, alloc => Extension { id, critical, value })
    }
}

/// It tells whether it is in DER form, as its fields do.
impl TellsDerBy<FieldsKind> for Extension<'_> {
    fn der_form_by_kind(&self) -> bool {
        are_der_fields!(self => id, critical, value)
    }
}

/// The extension at the front of the octets, by DER, and what follows it.
pub fn read_extension<'a>(alloc: Global, octets: &'a [u8]) -> ParseResult<'a, Extension<'a>, Error>
    ensures { ReadsByDer ⟦<Extension<'a> as Grammar>⟧.grammar octets.now (seen result) }
{
    read_der::<Extension<'a>, Error>(alloc, octets)
}

/// The extension at the front of the octets, by BER, and what follows it.
pub fn read_extension_by_ber<'a>(
    alloc: Global,
    octets: &'a [u8],
) -> ParseResult<'a, Extension<'a>, Error>
    ensures { ReadsByBer ⟦<Extension<'a> as Grammar>⟧.grammar octets.now (seen result) }
{
    read_ber::<Extension<'a>, Error>(alloc, octets)
}

/// The one strict encoding of an extension in DER form. That an extension is not critical is left out. Where the length
/// of the encoding fits `usize`, writing is refused only when out of memory.
pub fn extension_vec(alloc: Global, extension: &Extension<'_>) -> SerializeResult<Vec<u8>>
    ensures { ⟦<Extension<'static> as Grammar>⟧.grammar.IsDer
        (⟦<Extension<'static> as Grammar>⟧.grammar.value extension.now) →
        WritesStrict ⟦<Extension<'static> as Grammar>⟧.grammar
        ⟦<Extension<'static> as ToDer>⟧.writing extension.now result }
{
    strict_vec(alloc, extension)
}

/// The one strict encoding of an extension, or nothing where the extension is not in DER form.
pub fn strict_extension(
    alloc: Global,
    extension: &Extension<'_>,
) -> Option<SerializeResult<Vec<u8>>>
    ensures strict { IfSome result (WritesStrict ⟦<Extension<'static> as Grammar>⟧.grammar
        ⟦<Extension<'static> as ToDer>⟧.writing extension.now) }
    ensures other { IfNone result (⟦<Extension<'static> as Grammar>⟧.grammar.IsDer
        (⟦<Extension<'static> as Grammar>⟧.grammar.value extension.now) → ⊥) }
{
    if extension.is_der_form() {
        Some(strict_vec(alloc, extension))
    } else {
        None
    }
}

/// A copy of an extension, with the same value. It outlives the octets that the extension was read from. Refused only
/// when out of memory.
pub fn kept_extension(alloc: Global, extension: &Extension<'_>) -> Result<Extension<'static>, Error>
    ensures copied { IfOk result (λ copy. ⟦<Extension<'static> as Grammar>⟧.grammar.value copy ≡
        ⟦<Extension<'static> as Grammar>⟧.grammar.value extension.now) }
    ensures refused { IfErr result (λ e. e ≡ OutOfMemory) }
{
    extension.to_static(alloc)
}
