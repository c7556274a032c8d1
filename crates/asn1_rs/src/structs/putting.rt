//! Types that are written as fields of structs, by one trait ([`WritesType`]).
//!
//! As for reading ([`reading`](crate::structs::reading)) it is a field's only bound, without supertraits. A leaf type
//! of the library has an impl without bounds, in `leaves_put`. What has a kind has it by that ([`WritesTypeBy`]).
ghost use Rattle.asn1_rs.specs.Fields.{taken_in, PutsField};
ghost use Rattle.asn1_rs.specs.Structs.Data.{grammar_of_struct, writing_of_struct};
ghost use Rattle.asn1_rs.specs.Structs.Reading.{HasItsValue};
ghost use Rattle.asn1_rs.specs.ToDer.{Writing};

use crate::kinds::fields::{Fields, FieldsKind};
use crate::kinds::{ElementKind, HasKind};
use crate::laws::LawfulItem;
use crate::structs::LawfulStruct;
use crate::structs::reading::{FieldsByLaws, LeafField};
use crate::to_der::ToDer;
use asn1_headers::error::SerializeResult;

/// A type that is written as a field of a struct, or as an `Option` that is one.
///
/// The leaf types of the library have it. So have types with a kind: structs by [`LawfulStruct`], and lists, sets,
/// values under tags, choices and holders that have [`LawfulItem`] and [`ToDer`]. A leaf type of an author has it by
/// [`LeafField`].
pub trait WritesType {
    /// How it is written.
    ghost type_writing: { Writing Self };

    /// That a value is one of the type's.
    ghost has_its_value: { Self → Type 0 };

    /// Puts the value, as [`Fields::put`] does.
    fn put_type(&self, fields: &mut Fields) -> SerializeResult<()>
        ensures { PutsField type_writing self.now (taken_in fields.old) (taken_in fields.new) result };

    /// States of the item in hand that its value is one of the type's.
    fn assert_type_valid(&self)
        ensures { has_its_value self.now };
}

/// A type of this kind that is written so.
pub trait WritesTypeBy<K> {
    /// `type_writing`.
    ghost writing_as_field: { Writing Self };

    /// `has_its_value`.
    ghost value_as_field: { Self → Type 0 };

    /// `put_type`.
    fn put_by_kind(&self, fields: &mut Fields) -> SerializeResult<()>
        ensures { PutsField writing_as_field self.now (taken_in fields.old) (taken_in fields.new)
            result };

    /// `assert_type_valid`.
    fn assert_valid_by_kind(&self)
        ensures { value_as_field self.now };
}

impl<T: HasKind + WritesTypeBy<T::Kind>> WritesType for T {
    ghost type_writing = { T.writing_as_field };

    ghost has_its_value = { T.value_as_field };

    #[inline(always)]
    fn put_type(&self, fields: &mut Fields) -> SerializeResult<()> {
        self.put_by_kind(fields)
    }

    fn assert_type_valid(&self) {
        self.assert_valid_by_kind();
    }
}

impl<K: FieldsByLaws, T: LawfulItem + ToDer> WritesTypeBy<K> for T {
    ghost writing_as_field = { T.writing };

    ghost value_as_field = { HasItsValue T.grammar };

    #[inline(always)]
    fn put_by_kind(&self, fields: &mut Fields) -> SerializeResult<()> {
        fields.put(self)
    }

    fn assert_valid_by_kind(&self) {
        self.has_value();
    }
}

impl<T: LeafField + LawfulItem + ToDer> WritesTypeBy<ElementKind> for T {
    ghost writing_as_field = { T.writing };

    ghost value_as_field = { HasItsValue T.grammar };

    #[inline(always)]
    fn put_by_kind(&self, fields: &mut Fields) -> SerializeResult<()> {
        fields.put(self)
    }

    fn assert_valid_by_kind(&self) {
        self.has_value();
    }
}

impl<T: LawfulStruct> WritesTypeBy<FieldsKind> for T {
    ghost writing_as_field = { writing_of_struct T.laws };

    ghost value_as_field = { HasItsValue (grammar_of_struct T.laws) };

    #[inline(always)]
    fn put_by_kind(&self, fields: &mut Fields) -> SerializeResult<()> {
        fields.put(self)
    }

    fn assert_valid_by_kind(&self) {
        self.assert_row_valid();
    }
}
