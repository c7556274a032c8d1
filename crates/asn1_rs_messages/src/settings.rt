//! A message all of whose fields have a default, by both rules.
ghost use Rattle.asn1_rs.specs.Prelude.{its_own_type, MadeOf, ReadsByBer, ReadsByDer, refl, seen, struct_of};
ghost use Rattle.std.proofs.Common.{negsuc, lit<};
ghost use Rattle.asn1_rs.specs.Structs.DefaultTypes.{default_unsigned, default_signed, default_enumerated, default_empty};
ghost use Rattle.asn1_rs.specs.Structs.DefaultTypes.{default_explicit, default_implicit, negative_fits};

use asn1_rs::author::{
    AlwaysDerBy, DefaultOf, Fields, FieldsKind, HasKind, HasReader, LawfulStruct, LawfulType,
    ReadsFields, ReadsFieldsByBer, ReadsRow, Row, Row5, StructReader,
};
use asn1_rs::laws::Grammar;
use asn1_rs::{
    BerParser, Defaulted, DerParser, Enumerated, Error, ParseResult, SerializeResult,
    TaggedExplicit, TaggedImplicit, assert_fields_valid, fields_in_der, put_fields, read_ber,
    read_der, read_fields,
};
use std::alloc::Global;

/// Settings, which are left out where nobody changed them.
///
///     SEQUENCE {
///         version  [0] EXPLICIT INTEGER DEFAULT 1,
///         offset   INTEGER DEFAULT -1,
///         mode     ENUMERATED DEFAULT 2,
///         rooms    SEQUENCE OF INTEGER DEFAULT {},
///         limit    [1] IMPLICIT INTEGER DEFAULT 100 }
#[derive(Debug, PartialEq, Eq, Drop)]
pub struct Settings {
    pub version: Defaulted<Version, FirstVersion>,
    pub offset: Defaulted<i32, MinusOne>,
    pub mode: Defaulted<Enumerated, Plain>,
    pub rooms: Defaulted<Vec<u16>, NoRooms>,
    pub limit: Defaulted<Limit, Hundred>,
}

/// The version, under its tag.
pub type Version = TaggedExplicit<u8, Error, 0>;

/// The limit, in place of whose tag its own stands.
pub type Limit = TaggedImplicit<u64, Error, 1>;

/// Of settings of the first version.
#[derive(Debug, PartialEq, Eq, Drop)]
pub struct FirstVersion;

impl DefaultOf<Version> for FirstVersion {
    ghost default_laws = { default_explicit 2 0 (λ x. x.inner) (default_unsigned 1 1 (lit< tt)) };

    fn default_value(_alloc: Global) -> Version {
        Version::explicit(1)
    }

    fn is_default(value: &Version) -> bool {
        *value.as_inner() == 1
    }

    ghost of_type = { its_own_type refl };
}

/// Of settings with an offset of -1.
#[derive(Debug, PartialEq, Eq, Drop)]
pub struct MinusOne;

impl DefaultOf<i32> for MinusOne {
    ghost default_laws = { default_signed 4 (negsuc 0) (negative_fits 4 0 (lit< tt)) };

    fn default_value(_alloc: Global) -> i32 {
        -1
    }

    fn is_default(value: &i32) -> bool {
        *value == -1
    }

    ghost of_type = { its_own_type refl };
}

/// Of settings of the plain mode.
#[derive(Debug, PartialEq, Eq, Drop)]
pub struct Plain;

impl DefaultOf<Enumerated> for Plain {
    ghost default_laws = { default_enumerated (record { 0 = 2 }) (lit< tt) };

    fn default_value(_alloc: Global) -> Enumerated {
        Enumerated(2)
    }

    fn is_default(value: &Enumerated) -> bool {
        value.0 == 2
    }

    ghost of_type = { its_own_type refl };
}

/// Of settings for no rooms.
#[derive(Debug, PartialEq, Eq, Drop)]
pub struct NoRooms;

impl DefaultOf<Vec<u16>> for NoRooms {
    ghost default_laws = { default_empty (λ v. v.items) ⟦<u16 as LawfulType>⟧.type_laws };

    fn default_value(alloc: Global) -> Vec<u16> {
        Vec::new(alloc)
    }

    fn is_default(value: &Vec<u16>) -> bool {
        value.is_empty()
    }

    ghost of_type = { its_own_type refl };
}

/// Of settings with a limit of a hundred.
#[derive(Debug, PartialEq, Eq, Drop)]
pub struct Hundred;

impl DefaultOf<Limit> for Hundred {
    ghost default_laws = { default_implicit 2 1 (λ x. x.inner) (default_unsigned 8 100 (lit< tt)) };

    fn default_value(_alloc: Global) -> Limit {
        Limit::implicit(100)
    }

    fn is_default(value: &Limit) -> bool {
        *value.as_inner() == 100
    }

    ghost of_type = { its_own_type refl };
}

/// Its fields.
pub type SettingsRow = Row5<
    Defaulted<Version, FirstVersion>,
    Defaulted<i32, MinusOne>,
    Defaulted<Enumerated, Plain>,
    Defaulted<Vec<u16>, NoRooms>,
    Defaulted<Limit, Hundred>,
>;

impl HasKind for Settings {
    type Kind = FieldsKind;
}

impl HasReader for Settings {
    type Reader = StructReader;
}

impl LawfulStruct for Settings {
    ghost laws = { struct_of (λ x. (x.version, (x.offset, (x.mode, (x.rooms, (x.limit, tt))))))
        ⟦<SettingsRow as Row>⟧.row_laws refl };

    fn put_row(&self, fields: &mut Fields) -> SerializeResult<()> {
        put_fields!(self, fields => version, offset, mode, rooms, limit)
    }

    fn assert_row_valid(&self) {
        assert_fields_valid!(self => version, offset, mode, rooms, limit)
    }
}

impl<'a> ReadsFields<'a> for Settings {
    ghost fields_give = { MadeOf ⟦<Settings as LawfulStruct>⟧.laws.as_row
        ⟦<SettingsRow as ReadsRow<'a, DerParser>>⟧.row_gives };

    fn read_fields(alloc: Global, octets: &'a [u8]) -> Result<Settings, Error> {
        read_fields!(row_by_der, alloc, octets => Settings { version, offset, mode, rooms, limit })
    }
}

impl<'a> ReadsFieldsByBer<'a> for Settings {
    ghost fields_give_by_ber = { MadeOf ⟦<Settings as LawfulStruct>⟧.laws.as_row
        ⟦<SettingsRow as ReadsRow<'a, BerParser>>⟧.row_gives };

    fn read_fields_by_ber(alloc: Global, octets: &'a [u8]) -> Result<Settings, Error> {
        read_fields!(row_by_ber, alloc, octets => Settings { version, offset, mode, rooms, limit })
    }
}

/// Settings in hand are in DER form, since their fields are.
impl AlwaysDerBy<FieldsKind> for Settings {
    fn der_by_kind(&self) {
        fields_in_der!(self => version, offset, mode, rooms, limit)
    }
}

/// The settings at the front of the octets, by DER, and what follows them.
pub fn read_settings(alloc: Global, octets: &[u8]) -> ParseResult<'_, Settings, Error>
    ensures { ReadsByDer ⟦<Settings as Grammar>⟧.grammar octets.now (seen result) }
{
    read_der::<Settings, Error>(alloc, octets)
}

/// The settings at the front of the octets, by BER, and what follows them.
pub fn read_settings_by_ber(alloc: Global, octets: &[u8]) -> ParseResult<'_, Settings, Error>
    ensures { ReadsByBer ⟦<Settings as Grammar>⟧.grammar octets.now (seen result) }
{
    read_ber::<Settings, Error>(alloc, octets)
}
