//! The texts of answers.
ghost use Rattle.std.specs.Prelude.{◌≡◌, ℕ, ℤ, List, Ok, OnOk, decimal};
ghost use Rattle.std.specs.Fmt.{signed_decimal};
ghost use Rattle.std.specs.Set.{is_member};
ghost use Rattle.std.specs.BTreeSet.{BTreeSet as SetOfMembers};
ghost use Rattle.std.specs.List.Sorted.{IsStrictlyIncreasing, IsStrictlySortedBy};
ghost use Rattle.std.specs.Ordering.{eq_by_cmp, int_cmp};
ghost use Rattle.asn1vec_answers.specs.declared.types.TypeName.TheVariants.{BTreeSetU8, HashSetI8};
ghost use Rattle.asn1vec_answers.specs.Answer.{IsAnswer, IsAnswerLine, IsRequestAnswer};
ghost use Rattle.asn1vec_answers.specs.Memory.{AreAlike, AsksForNoneThatAllocates, TakesNoMemory};
ghost use Rattle.asn1vec_answers.specs.Shown.{Gains, EncodingOfSome, IsReadAnswer, sorted_keys, list_text, option_text};
ghost use Rattle.asn1vec_answers.specs.Meaning.{ReadsByEither, ReadsOptional};
ghost use Rattle.asn1vec_answers.specs.Types.{IsTypeAnswer, meaning_of};
ghost use Rattle.asn1_rs.specs.Prelude.{ber_words, whole_allocates};

use crate::holders::{
    push_btree_set_u8, push_explicit_0_u32, push_explicit_31_u8, push_hash_set_i8,
    push_implicit_1_vec_u16, push_sequence_of_u32, push_set_of_u8, push_vec_bool,
    push_vec_explicit_31_u8, push_vec_u8, push_vec_u32, push_vec_vec_u8, push_x509_name,
};
use crate::options::{optional_by_ber, optional_by_der};
use crate::request::{Request, Rule, read_request};
use crate::shown::{Encoded, push_by_ber, push_by_either, push_leaf, push_reading};
use crate::text::push_str;
use crate::types::{TypeName, type_named};
use asn1_rs::laws::{LawfulBer, LawfulDer};
use asn1_rs::{
    Any, BitString, BmpString, EmbeddedPdv, EndOfContent, Enumerated, Error, GeneralString,
    GeneralizedTime, GraphicString, Ia5String, Integer, Null, NumericString, ObjectDescriptor,
    OctetString, Oid, PrintableString, Sequence, Set, Tagged, TeletexString, UniversalString,
    UtcTime, Utf8String, VideotexString, VisibleString,
};
use std::alloc::{AllocError, Global};

/// The most octets of a line, without its end.
pub const LONGEST_LINE: usize = 65_536;

/// Appends the answer to octets that are read by either rule as an optional value.
fn push_optional<'a, T>(
    alloc: Global,
    rule: Rule,
    octets: &'a [u8],
    buffer: &mut Vec<u8>,
    text: &mut Vec<u8>,
) -> Result<(), AllocError>
where
    T: LawfulBer<'a, Error> + LawfulDer<'a, Error> + Tagged + Encoded + Drop,
    ensures { OnOk result
        (Gains text.old.items text.new.items
        (IsReadAnswer
        (ReadsOptional (T.TAG).0
        (ReadsByEither (ber_words T.grammar) T.grammar.Der T.grammar.value T.grammar.allocates
        T.ber_gives
        T.der_gives) rule) (option_text T.text_of)
        (EncodingOfSome (whole_allocates T.writing)
        T.Encodes) octets.now)) }
{
    match rule {
        Rule::Ber => push_reading(
            alloc,
            optional_by_ber::<T, Error>(alloc, octets),
            buffer,
            text,
        ),
        Rule::Der => push_reading(
            alloc,
            optional_by_der::<T, Error>(alloc, octets),
            buffer,
            text,
        ),
    }
}

/// Appends the answer to octets that are read as a value of the type.
fn push_by_type(
    alloc: Global,
    rule: Rule,
    t: TypeName,
    octets: &[u8],
    buffer: &mut Vec<u8>,
    text: &mut Vec<u8>,
) -> Result<(), AllocError>
    ensures { OnOk result
        (Gains text.old.items text.new.items (IsTypeAnswer rule t octets.now)) }
{
    match t {
        TypeName::U8 => push_leaf::<u8>(alloc, rule, octets, buffer, text),
        TypeName::U16 => push_leaf::<u16>(alloc, rule, octets, buffer, text),
        TypeName::U32 => push_leaf::<u32>(alloc, rule, octets, buffer, text),
        TypeName::U64 => push_leaf::<u64>(alloc, rule, octets, buffer, text),
        TypeName::U128 => push_leaf::<u128>(alloc, rule, octets, buffer, text),
        TypeName::I8 => push_leaf::<i8>(alloc, rule, octets, buffer, text),
        TypeName::I16 => push_leaf::<i16>(alloc, rule, octets, buffer, text),
        TypeName::I32 => push_leaf::<i32>(alloc, rule, octets, buffer, text),
        TypeName::I64 => push_leaf::<i64>(alloc, rule, octets, buffer, text),
        TypeName::I128 => push_leaf::<i128>(alloc, rule, octets, buffer, text),
        TypeName::Any => push_by_either::<Any<'_>>(alloc, rule, octets, buffer, text),
        TypeName::Bool => push_leaf::<bool>(alloc, rule, octets, buffer, text),
        TypeName::Null => push_leaf::<Null>(alloc, rule, octets, buffer, text),
        TypeName::Enumerated => push_leaf::<Enumerated>(alloc, rule, octets, buffer, text),
        TypeName::Integer => push_leaf::<Integer<'_>>(alloc, rule, octets, buffer, text),
        TypeName::Octets => push_leaf::<OctetString<'_>>(alloc, rule, octets, buffer, text),
        TypeName::Bits => push_leaf::<BitString<'_>>(alloc, rule, octets, buffer, text),
        TypeName::Eoc => push_by_ber::<EndOfContent>(alloc, octets, buffer, text),
        TypeName::VecU8 => push_vec_u8(alloc, rule, octets, buffer, text),
        TypeName::VecU32 => push_vec_u32(alloc, rule, octets, buffer, text),
        TypeName::VecBool => push_vec_bool(alloc, rule, octets, buffer, text),
        TypeName::VecVecU8 => push_vec_vec_u8(alloc, rule, octets, buffer, text),
        TypeName::SetOfU8 => push_set_of_u8(alloc, rule, octets, buffer, text),
        TypeName::BTreeSetU8 => push_btree_set_u8(alloc, rule, octets, buffer, text),
        TypeName::Sequence => push_leaf::<Sequence<'_>>(alloc, rule, octets, buffer, text),
        TypeName::Set => push_leaf::<Set<'_>>(alloc, rule, octets, buffer, text),
        TypeName::SeqOfU32 => push_sequence_of_u32(alloc, rule, octets, buffer, text),
        TypeName::Explicit0U32 => push_explicit_0_u32(alloc, rule, octets, buffer, text),
        TypeName::Explicit31U8 => push_explicit_31_u8(alloc, rule, octets, buffer, text),
        TypeName::VecExplicit31U8 => push_vec_explicit_31_u8(alloc, rule, octets, buffer, text),
        TypeName::OptU8 => push_optional::<u8>(alloc, rule, octets, buffer, text),
        TypeName::Implicit1VecU16 => push_implicit_1_vec_u16(alloc, rule, octets, buffer, text),
        TypeName::HashSetI8 => push_hash_set_i8(alloc, rule, octets, buffer, text),
        TypeName::Oid => push_leaf::<Oid<'_>>(alloc, rule, octets, buffer, text),
        TypeName::Utf8 => push_leaf::<Utf8String<'_>>(alloc, rule, octets, buffer, text),
        TypeName::Numeric => push_leaf::<NumericString<'_>>(alloc, rule, octets, buffer, text),
        TypeName::Printable => push_leaf::<PrintableString<'_>>(alloc, rule, octets, buffer, text),
        TypeName::Teletex => push_leaf::<TeletexString<'_>>(alloc, rule, octets, buffer, text),
        TypeName::Videotex => push_leaf::<VideotexString<'_>>(alloc, rule, octets, buffer, text),
        TypeName::Ia5 => push_leaf::<Ia5String<'_>>(alloc, rule, octets, buffer, text),
        TypeName::Graphic => push_leaf::<GraphicString<'_>>(alloc, rule, octets, buffer, text),
        TypeName::Visible => push_leaf::<VisibleString<'_>>(alloc, rule, octets, buffer, text),
        TypeName::General => push_leaf::<GeneralString<'_>>(alloc, rule, octets, buffer, text),
        TypeName::Descriptor => push_leaf::<ObjectDescriptor<'_>>(
            alloc, rule, octets, buffer, text,
        ),
        TypeName::Universal => push_leaf::<UniversalString<'_>>(alloc, rule, octets, buffer, text),
        TypeName::Bmp => push_leaf::<BmpString<'_>>(alloc, rule, octets, buffer, text),
        TypeName::UtcTime => push_leaf::<UtcTime>(alloc, rule, octets, buffer, text),
        TypeName::GenTime => push_leaf::<GeneralizedTime>(alloc, rule, octets, buffer, text),
        TypeName::Pdv => push_by_either::<EmbeddedPdv<'_>>(alloc, rule, octets, buffer, text),
        TypeName::X509Name => push_x509_name(alloc, octets, buffer, text),
    }
}

/// Appends the answer to a request to read octets.
fn push_requested(
    alloc: Global,
    request: &Request,
    octets: &[u8],
    buffer: &mut Vec<u8>,
    text: &mut Vec<u8>,
) -> Result<(), AllocError>
    ensures { OnOk result (Gains text.old.items text.new.items
        (IsRequestAnswer request.now.rule request.now.name.now octets.now)) }
{
    match type_named(request.rule, request.name) {
        Some(t) => push_by_type(alloc, request.rule, t, octets, buffer, text),
        None => push_str(text, "err Type"),
    }
}

/// Appends the answer to a line.
fn push_answer(
    alloc: Global,
    line: &[u8],
    octets: &mut Vec<u8>,
    buffer: &mut Vec<u8>,
    text: &mut Vec<u8>,
) -> Result<(), AllocError>
    ensures { OnOk result (Gains text.old.items text.new.items (IsAnswer line.now)) }
{
    if line.len() > LONGEST_LINE {
        return push_str(text, "err Line");
    }
    match read_request(line, octets)? {
        Some(request) => push_requested(alloc, &request, octets.as_slice(), buffer, text),
        None => push_str(text, "err Line"),
    }
}

/// A line has one answer, except when out of memory where reading or writing what it names allocates.
pub fn one_answer()
    ensures alike { (line text other : List ℕ)
        → IsAnswer line text → IsAnswer line other → AreAlike line text other }
    ensures one { (line text other : List ℕ)
        → TakesNoMemory line → IsAnswer line text → IsAnswer line other → text ≡ other }
    ensures none { (line : List ℕ) → AsksForNoneThatAllocates line → TakesNoMemory line }
{}

/// The items of a set that was read as `btreeset.u8` are shown in ascending order. So are the members of a set that was
/// read as `hashset.i8`.
pub fn members_ascend()
    ensures ordered { (rule : Rule) (octets rest : List ℕ) (members : SetOfMembers ℕ)
        → (meaning_of BTreeSetU8).Reads rule octets (Ok (rest, members))
        → (meaning_of BTreeSetU8).text_of members ≡ list_text decimal members.keys
        × IsStrictlyIncreasing members.keys }
    ensures hashed { (members : (meaning_of HashSetI8).T)
        → (meaning_of HashSetI8).text_of members ≡
        list_text signed_decimal (sorted_keys int_cmp members.keys) }
    ensures in_order { (keys : List ℤ) → IsStrictlySortedBy int_cmp (sorted_keys int_cmp keys)
        × ((key : ℤ) → is_member (eq_by_cmp int_cmp) (sorted_keys int_cmp keys) key ≡
        is_member (eq_by_cmp int_cmp) keys key) }
{}

/// Makes the text the answer to a line, with its end. The octets that it asks for and the encoding that
/// is told are written into buffers first.
pub fn answer_line(
    alloc: Global,
    line: &[u8],
    octets: &mut Vec<u8>,
    encoding: &mut Vec<u8>,
    text: &mut Vec<u8>,
) -> Result<(), AllocError>
    ensures { OnOk result (IsAnswerLine line.now text.new.items) }
{
    text.clear();
    push_answer(alloc, line, octets, encoding, text)?;
    push_str(text, "\n")?;
    Ok(())
}
