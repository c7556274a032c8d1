//! A struct whose optional field has another tag number than the field behind it. The laws of the struct ask for that.
ghost use Rattle.asn1_rs.specs.Prelude.{refl, struct_of};

use asn1_rs::author::{Fields, FieldsKind, HasKind, LawfulStruct, Row, Row2};
use asn1_rs::{SerializeResult, assert_fields_valid, put_fields};

/// A level, before which a flag may stand.
///
///     SEQUENCE { flag BOOLEAN OPTIONAL, level INTEGER }
#[derive(Debug, PartialEq, Eq, Drop)]
pub struct Flagged {
    pub flag: Option<bool>,
    pub level: u8,
}

/// Its fields.
pub type FlaggedRow = Row2<Option<bool>, u8>;

impl HasKind for Flagged {
    type Kind = FieldsKind;
}

/// `refl` would be refused if both fields had one tag number. So it would be if a field behind an optional one had any
/// tag number.
impl LawfulStruct for Flagged {
    ghost laws = { struct_of (λ x. (x.flag, (x.level, tt))) ⟦<FlaggedRow as Row>⟧.row_laws refl };

    fn put_row(&self, fields: &mut Fields) -> SerializeResult<()> {
        put_fields!(self, fields => flag, level)
    }

    fn assert_row_valid(&self) {
        assert_fields_valid!(self => flag, level)
    }
}
