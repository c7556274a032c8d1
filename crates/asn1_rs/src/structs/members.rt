//! Structs as members of sets: where equality of each field is that of its values, equality of the struct is.
//!
//! The law stands in a record of each type, so that a row of fields can name it.
ghost use Rattle.asn1_rs.specs.Laws.Any.Kept.{kept_elements_same};
ghost use Rattle.asn1_rs.specs.Laws.Any.Writing.{element_same};
ghost use Rattle.asn1_rs.specs.Structs.Members.{MembersOf, RowOfMembers, members_of, marked_members, optional_members};
ghost use Rattle.asn1_rs.specs.Structs.Members.{headed_members, no_members, then_members};

use crate::asn1_types::any::Any;
use crate::asn1_types::any::kept::KeptAny;
use crate::asn1_types::tagged::parser::TaggedParser;
use crate::structs::defaulted::Defaulted;
use crate::structs::keys::KeyType;

/// A type of fields that are equal exactly where their values are. A [`KeyType`] has it. So have an `Option` of one,
/// and a field with a default. So have an element of any tag number, and a value with the header of its tag.
pub trait MemberType {
    /// Its values, and its equality with the law of it.
    ghost member_laws: { MembersOf Self };
}

/// A row of such fields.
pub trait MemberRow: Sized {
    /// The values of its fields, and the equality of each with the law of all.
    ghost row_members: { RowOfMembers Self };
}

impl MemberRow for () {
    ghost row_members = { no_members };
}

impl<F: MemberType, R: MemberRow> MemberRow for (F, R) {
    ghost row_members = { then_members F.member_laws R.row_members };
}

impl<T: KeyType> MemberType for T {
    ghost member_laws = { members_of T.key_laws.same };
}

impl<T: MemberType> MemberType for Option<T> {
    ghost member_laws = { optional_members T.member_laws };
}

impl<T: MemberType, D> MemberType for Defaulted<T, D> {
    ghost member_laws = { marked_members (λ x. x.value) T.member_laws };
}

impl MemberType for Any<'_> {
    ghost member_laws = { members_of element_same };
}

impl MemberType for KeptAny<'_> {
    ghost member_laws = { members_of kept_elements_same };
}

impl<Kind, T: MemberType, E> MemberType for TaggedParser<'_, Kind, T, E> {
    ghost member_laws = { headed_members (λ x. x.header) (λ x. x.inner) T.member_laws };
}
