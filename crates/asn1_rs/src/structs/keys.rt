//! Types that may be the members of sets without repetitions which are fields of structs, and these sets as fields. A
//! record states of each that its items are equal exactly where their values are.
ghost use Rattle.std.specs.Prelude.{true};
ghost use Rattle.asn1_rs.specs.Laws.BitString.{bit_string_equal};
ghost use Rattle.asn1_rs.specs.Laws.Boolean.{bool_equal, boolean_equal};
ghost use Rattle.asn1_rs.specs.Laws.Enumerated.{enumerated_equal};
ghost use Rattle.asn1_rs.specs.Laws.Integer.Octets.{octets_equal};
ghost use Rattle.asn1_rs.specs.Laws.Integer.Signed.{signed_equal};
ghost use Rattle.asn1_rs.specs.Laws.Integer.Unsigned.{unsigned_equal};
ghost use Rattle.asn1_rs.specs.Laws.Kept.{kept_equal};
ghost use Rattle.asn1_rs.specs.Laws.OctetString.{octet_string_equal, slice_equal};
ghost use Rattle.asn1_rs.specs.Laws.Oid.{oid_equal};
ghost use Rattle.asn1_rs.specs.Laws.Strings.{string_equal};
ghost use Rattle.asn1_rs.specs.Laws.Texts.{lent_text_equal, owned_text_equal};
ghost use Rattle.asn1_rs.specs.Laws.Times.{times_equal};
ghost use Rattle.asn1_rs.specs.Structs.Keys.{LawfulKeyOf, key_of, list_key, explicit_key, implicit_key, one_value_same};
ghost use Rattle.asn1_rs.specs.Structs.Keys.{ordered_type, unordered_type};

use crate::asn1_types::bit_string::BitString;
use crate::asn1_types::boolean::Boolean;
use crate::asn1_types::enumerated::Enumerated;
use crate::asn1_types::integer::octets::Integer;
use crate::asn1_types::kept::kinds::Sequence;
use crate::asn1_types::null::Null;
use crate::asn1_types::octet_string::OctetString;
use crate::asn1_types::oid::Oid;
use crate::asn1_types::strings::kinds::{
    BmpString, GeneralString, GraphicString, Ia5String, NumericString, ObjectDescriptor,
    PrintableString, TeletexString, UniversalString, Utf8String, VideotexString, VisibleString,
};
use crate::asn1_types::tagged::{Explicit, Implicit, TaggedValue};
use crate::asn1_types::times::generalized_time::GeneralizedTime;
use crate::asn1_types::times::utc_time::UtcTime;
use crate::structs::field::LawfulType;
use std::collections::{BTreeSet, HashSet};
use std::hash::Hash;

/// A lawful type whose items are equal exactly where their values are.
///
/// A set without repetitions of it is a field of structs. The author of a struct whose fields are such types writes it:
///
///     impl KeyType for Measurement {
///         ghost key_laws = { key_of (struct_type ⟦<Measurement as LawfulStruct>⟧.laws)
///             (struct_members ⟦<Measurement as LawfulStruct>⟧.laws.as_row
///             ⟦<MeasurementRow as MemberRow>⟧.row_members).same };
///     }
///
/// By it the struct is a [`LawfulMember`](crate::laws::LawfulMember), where its `==` is what a derive writes:
///
///     impl LawfulMember for Measurement {
///         ghost same = { ⟦<Measurement as KeyType>⟧.key_laws.same };
///     }
pub trait KeyType {
    /// The type, and its equality with the law of it.
    ghost key_laws: { LawfulKeyOf Self };
}

/// A set whose members ascend.
impl<T: KeyType + Ord> LawfulType for BTreeSet<T> {
    ghost type_laws = { ordered_type (λ s. s.keys) T.cmp T.key_laws };
}

/// A set whose members stand in no order.
impl<T: KeyType + Eq + Hash> LawfulType for HashSet<T> {
    ghost type_laws = { unordered_type (λ s. s.keys) T.key_laws };
}

impl<T: KeyType, E, const CLASS: u8, const TAG: u32> KeyType
    for TaggedValue<T, E, Explicit, CLASS, TAG> {
    ghost key_laws = { explicit_key CLASS TAG (λ x. x.inner) T.key_laws };
}

impl<T: KeyType, E, const CLASS: u8, const TAG: u32> KeyType
    for TaggedValue<T, E, Implicit, CLASS, TAG> {
    ghost key_laws = { implicit_key CLASS TAG (λ x. x.inner) T.key_laws };
}

impl<T: KeyType> KeyType for Vec<T> {
    ghost key_laws = { list_key (λ v. v.items) T.key_laws };
}

impl KeyType for bool {
    ghost key_laws = { key_of ⟦<bool as LawfulType>⟧.type_laws bool_equal };
}

impl KeyType for Boolean {
    ghost key_laws = { key_of ⟦<Boolean as LawfulType>⟧.type_laws boolean_equal };
}

impl KeyType for () {
    ghost key_laws = { key_of ⟦<() as LawfulType>⟧.type_laws {eq = λ x y. true}
        (λ x y. one_value_same tt) };
}

impl KeyType for Null {
    ghost key_laws = { key_of ⟦<Null as LawfulType>⟧.type_laws {eq = λ x y. true}
        (λ x y. one_value_same tt) };
}

impl KeyType for Enumerated {
    ghost key_laws = { key_of ⟦<Enumerated as LawfulType>⟧.type_laws enumerated_equal };
}

impl KeyType for Integer<'_> {
    ghost key_laws = { key_of ⟦<Integer<'static> as LawfulType>⟧.type_laws octets_equal };
}

impl KeyType for BitString<'_> {
    ghost key_laws = { key_of ⟦<BitString<'static> as LawfulType>⟧.type_laws bit_string_equal };
}

impl KeyType for OctetString<'_> {
    ghost key_laws = { key_of ⟦<OctetString<'static> as LawfulType>⟧.type_laws octet_string_equal };
}

impl KeyType for &[u8] {
    ghost key_laws = { key_of ⟦<&'static [u8] as LawfulType>⟧.type_laws slice_equal };
}

impl KeyType for &str {
    ghost key_laws = { key_of ⟦<&'static str as LawfulType>⟧.type_laws lent_text_equal };
}

impl KeyType for String {
    ghost key_laws = { key_of ⟦<String as LawfulType>⟧.type_laws owned_text_equal };
}

impl KeyType for Sequence<'_> {
    ghost key_laws = { key_of ⟦<Sequence<'static> as LawfulType>⟧.type_laws kept_equal };
}

impl KeyType for Oid<'_> {
    ghost key_laws = { key_of ⟦<Oid<'static> as LawfulType>⟧.type_laws oid_equal };
}

impl KeyType for UtcTime {
    ghost key_laws = { key_of ⟦<UtcTime as LawfulType>⟧.type_laws (λ x y. times_equal x.0 y.0) };
}

impl KeyType for GeneralizedTime {
    ghost key_laws = { key_of ⟦<GeneralizedTime as LawfulType>⟧.type_laws (λ x y. times_equal x.0 y.0) };
}

impl KeyType for u8 {
    ghost key_laws = { key_of ⟦<u8 as LawfulType>⟧.type_laws unsigned_equal };
}

impl KeyType for u16 {
    ghost key_laws = { key_of ⟦<u16 as LawfulType>⟧.type_laws unsigned_equal };
}

impl KeyType for u32 {
    ghost key_laws = { key_of ⟦<u32 as LawfulType>⟧.type_laws unsigned_equal };
}

impl KeyType for u64 {
    ghost key_laws = { key_of ⟦<u64 as LawfulType>⟧.type_laws unsigned_equal };
}

impl KeyType for u128 {
    ghost key_laws = { key_of ⟦<u128 as LawfulType>⟧.type_laws unsigned_equal };
}

impl KeyType for i8 {
    ghost key_laws = { key_of ⟦<i8 as LawfulType>⟧.type_laws signed_equal };
}

impl KeyType for i16 {
    ghost key_laws = { key_of ⟦<i16 as LawfulType>⟧.type_laws signed_equal };
}

impl KeyType for i32 {
    ghost key_laws = { key_of ⟦<i32 as LawfulType>⟧.type_laws signed_equal };
}

impl KeyType for i64 {
    ghost key_laws = { key_of ⟦<i64 as LawfulType>⟧.type_laws signed_equal };
}

impl KeyType for i128 {
    ghost key_laws = { key_of ⟦<i128 as LawfulType>⟧.type_laws signed_equal };
}

impl KeyType for NumericString<'_> {
    ghost key_laws = { key_of ⟦<NumericString<'static> as LawfulType>⟧.type_laws string_equal };
}

impl KeyType for PrintableString<'_> {
    ghost key_laws = { key_of ⟦<PrintableString<'static> as LawfulType>⟧.type_laws string_equal };
}

impl KeyType for Utf8String<'_> {
    ghost key_laws = { key_of ⟦<Utf8String<'static> as LawfulType>⟧.type_laws string_equal };
}

impl KeyType for Ia5String<'_> {
    ghost key_laws = { key_of ⟦<Ia5String<'static> as LawfulType>⟧.type_laws string_equal };
}

impl KeyType for GraphicString<'_> {
    ghost key_laws = { key_of ⟦<GraphicString<'static> as LawfulType>⟧.type_laws string_equal };
}

impl KeyType for GeneralString<'_> {
    ghost key_laws = { key_of ⟦<GeneralString<'static> as LawfulType>⟧.type_laws string_equal };
}

impl KeyType for ObjectDescriptor<'_> {
    ghost key_laws = { key_of ⟦<ObjectDescriptor<'static> as LawfulType>⟧.type_laws string_equal };
}

impl KeyType for TeletexString<'_> {
    ghost key_laws = { key_of ⟦<TeletexString<'static> as LawfulType>⟧.type_laws string_equal };
}

impl KeyType for VideotexString<'_> {
    ghost key_laws = { key_of ⟦<VideotexString<'static> as LawfulType>⟧.type_laws string_equal };
}

impl KeyType for VisibleString<'_> {
    ghost key_laws = { key_of ⟦<VisibleString<'static> as LawfulType>⟧.type_laws string_equal };
}

impl KeyType for UniversalString<'_> {
    ghost key_laws = { key_of ⟦<UniversalString<'static> as LawfulType>⟧.type_laws string_equal };
}

impl KeyType for BmpString<'_> {
    ghost key_laws = { key_of ⟦<BmpString<'static> as LawfulType>⟧.type_laws string_equal };
}
