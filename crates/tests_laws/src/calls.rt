//! Each law is called, at a type where it has one. Which types take no memory is told too. What a call asks is proved
//! at each of these.
ghost use Rattle.std.specs.Prelude.{◌≡◌, false};
ghost use Rattle.asn1_rs.specs.Prelude.{whole_allocates};

use asn1_rs::author::{AnyForm, BmpKind, Ia5Kind};
use asn1_rs::laws::{
    Grammar, answers_last, any_is_the_element, beginnings_are_incomplete, beginnings_are_refused,
    check_is_exact, classes_are_numbered, coded_strings_have_one_refusal, conversion_is_exact,
    counts_are_of_the_strict_encoding, elements_by_der_are_written_again, faults_come_first_by_ber,
    faults_come_first_by_der, faults_of_lists_come_first, faults_of_tags_come_first,
    indefinite_contents_are_walked, integers_have_one_refusal, items_are_joined_words,
    lists_are_joined_words, one_refusal, optional_elements_are_refused,
    options_are_left_out_by_ber, options_are_left_out_by_der, options_are_read_back_by_ber,
    options_are_read_back_by_der, options_are_refused_by_ber, options_are_refused_by_der,
    reader_is_exact_by_ber, reader_is_exact_by_der, strict_fronts_are_written_again,
    strict_parts_are_read, strict_parts_have_the_number, strict_parts_take_the_class,
    strings_have_one_refusal, texts_have_one_refusal, times_have_one_refusal,
    truncations_of_explicit_parsers_are_counted, truncations_of_implicit_parsers_are_counted,
    universal_types_are_numbered, walks_end, walks_take_words, words_and_values_are_unique,
};
use asn1_rs::{
    Any, BerParser, BitString, BmpString, Boolean, DerParser, EmbeddedPdv, EndOfContent,
    Enumerated, Error, Explicit, GeneralString, GeneralizedTime, GraphicString, Header, Ia5String,
    Implicit, Integer, Length, Null, NumericString, ObjectDescriptor, OctetString, Oid,
    PrintableString, Sequence, SequenceOf, Set, SetOf, TaggedExplicit, TaggedImplicit,
    TaggedParser, TeletexString, ToDer, UniversalString, UtcTime, Utf8String, VideotexString,
    VisibleString,
};
use std::collections::{BTreeSet, HashSet};

/// The laws of a type.
pub fn laws_of_each_type_are_called() {
    reader_is_exact_by_ber::<i16, Error>();
    reader_is_exact_by_der::<i16, Error>();
    words_and_values_are_unique::<i16>();
    options_are_read_back_by_ber::<i16, Error>();
    options_are_read_back_by_der::<i16, Error>();
    options_are_left_out_by_ber::<i16, bool, Error>();
    options_are_left_out_by_der::<i16, bool, Error>();
    options_are_refused_by_ber::<i16, Error>();
    options_are_refused_by_der::<i16, Error>();
    faults_come_first_by_ber::<EndOfContent, Error>();
    faults_come_first_by_der::<i16, Error>();
    faults_of_lists_come_first::<Vec<i16>, i16, AnyForm, Error>();
    faults_of_tags_come_first::<i16, Explicit, Error, 2, 0>();
    truncations_of_explicit_parsers_are_counted::<i16, Explicit, Error>();
    truncations_of_implicit_parsers_are_counted::<i16, Implicit, Error>();
    conversion_is_exact::<i16, Error>();
    check_is_exact::<i16>();
    counts_are_of_the_strict_encoding::<i16>();
    strict_parts_are_read::<i16>();
    strict_parts_have_the_number::<i16>();
    strict_parts_take_the_class::<i16, 2>();
    strings_have_one_refusal::<Ia5Kind>();
    coded_strings_have_one_refusal::<BmpKind>();
    strict_fronts_are_written_again::<i16>();
    walks_end::<Any<'_>, BerParser, Error>();
    walks_take_words::<Any<'_>, DerParser, Error>();
    items_are_joined_words::<i16, BerParser, Error>();
    lists_are_joined_words::<SetOf<i16>, i16, DerParser, Error>();
}

/// The other laws.
pub fn laws_are_called() {
    answers_last();
    any_is_the_element();
    beginnings_are_incomplete();
    beginnings_are_refused();
    classes_are_numbered();
    elements_by_der_are_written_again();
    indefinite_contents_are_walked();
    integers_have_one_refusal();
    one_refusal();
    optional_elements_are_refused();
    texts_have_one_refusal();
    times_have_one_refusal();
    universal_types_are_numbered();
}

/// A type whose readers, conversion and check are never refused memory.
fn is_read_without_memory<T: Grammar>()
    requires { T.grammar.allocates ≡ false }
{}

/// A type whose counts and writing are never refused memory.
fn is_written_without_memory<T: ToDer>()
    requires { whole_allocates T.writing ≡ false }
{}

/// A type whose counts are never refused memory.
fn is_counted_without_memory<T: ToDer>()
    requires { T.writing.count_allocates ≡ false }
{}

/// Numbers and truth values are read without memory.
pub fn numbers_are_read_without_memory() {
    is_read_without_memory::<bool>();
    is_read_without_memory::<Boolean>();
    is_read_without_memory::<Null>();
    is_read_without_memory::<()>();
    is_read_without_memory::<u8>();
    is_read_without_memory::<u16>();
    is_read_without_memory::<u32>();
    is_read_without_memory::<u64>();
    is_read_without_memory::<u128>();
    is_read_without_memory::<i8>();
    is_read_without_memory::<i16>();
    is_read_without_memory::<i32>();
    is_read_without_memory::<i64>();
    is_read_without_memory::<i128>();
    is_read_without_memory::<Enumerated>();
}

/// Octets and strings are read without memory.
pub fn octets_and_strings_are_read_without_memory() {
    is_read_without_memory::<Integer<'_>>();
    is_read_without_memory::<BitString<'_>>();
    is_read_without_memory::<OctetString<'_>>();
    is_read_without_memory::<&[u8]>();
    is_read_without_memory::<Oid<'_>>();
    is_read_without_memory::<Utf8String<'_>>();
    is_read_without_memory::<NumericString<'_>>();
    is_read_without_memory::<PrintableString<'_>>();
    is_read_without_memory::<TeletexString<'_>>();
    is_read_without_memory::<VideotexString<'_>>();
    is_read_without_memory::<Ia5String<'_>>();
    is_read_without_memory::<GraphicString<'_>>();
    is_read_without_memory::<VisibleString<'_>>();
    is_read_without_memory::<GeneralString<'_>>();
    is_read_without_memory::<ObjectDescriptor<'_>>();
    is_read_without_memory::<&str>();
}

/// Times, elements and tags are read without memory.
pub fn times_elements_and_tags_are_read_without_memory() {
    is_read_without_memory::<UtcTime>();
    is_read_without_memory::<GeneralizedTime>();
    is_read_without_memory::<Sequence<'_>>();
    is_read_without_memory::<Set<'_>>();
    is_read_without_memory::<Any<'_>>();
    is_read_without_memory::<EmbeddedPdv<'_>>();
    is_read_without_memory::<EndOfContent>();
    is_read_without_memory::<TaggedExplicit<u8, Error, 0>>();
    is_read_without_memory::<TaggedImplicit<u8, Error, 0>>();
    is_read_without_memory::<TaggedParser<'_, Explicit, u8, Error>>();
    is_read_without_memory::<TaggedParser<'_, Implicit, u8, Error>>();
}

/// Numbers and truth values are written without memory.
pub fn numbers_are_written_without_memory() {
    is_written_without_memory::<Header<'_>>();
    is_written_without_memory::<Length>();
    is_written_without_memory::<bool>();
    is_written_without_memory::<Boolean>();
    is_written_without_memory::<Null>();
    is_written_without_memory::<()>();
    is_written_without_memory::<u8>();
    is_written_without_memory::<u16>();
    is_written_without_memory::<u32>();
    is_written_without_memory::<u64>();
    is_written_without_memory::<u128>();
    is_written_without_memory::<i8>();
    is_written_without_memory::<i16>();
    is_written_without_memory::<i32>();
    is_written_without_memory::<i64>();
    is_written_without_memory::<i128>();
    is_written_without_memory::<Enumerated>();
}

/// Octets and strings are written without memory.
pub fn octets_and_strings_are_written_without_memory() {
    is_written_without_memory::<Integer<'_>>();
    is_written_without_memory::<BitString<'_>>();
    is_written_without_memory::<OctetString<'_>>();
    is_written_without_memory::<&[u8]>();
    is_written_without_memory::<Oid<'_>>();
    is_written_without_memory::<Utf8String<'_>>();
    is_written_without_memory::<NumericString<'_>>();
    is_written_without_memory::<PrintableString<'_>>();
    is_written_without_memory::<TeletexString<'_>>();
    is_written_without_memory::<VideotexString<'_>>();
    is_written_without_memory::<Ia5String<'_>>();
    is_written_without_memory::<GraphicString<'_>>();
    is_written_without_memory::<VisibleString<'_>>();
    is_written_without_memory::<GeneralString<'_>>();
    is_written_without_memory::<ObjectDescriptor<'_>>();
    is_written_without_memory::<&str>();
    is_written_without_memory::<String>();
    is_written_without_memory::<BmpString<'_>>();
    is_written_without_memory::<UniversalString<'_>>();
}

/// Times, elements, tags and lists are written without memory.
pub fn times_elements_tags_and_lists_are_written_without_memory() {
    is_written_without_memory::<UtcTime>();
    is_written_without_memory::<GeneralizedTime>();
    is_written_without_memory::<Sequence<'_>>();
    is_written_without_memory::<Set<'_>>();
    is_written_without_memory::<Any<'_>>();
    is_written_without_memory::<Vec<u8>>();
    is_written_without_memory::<SequenceOf<u8>>();
    is_written_without_memory::<Vec<Vec<u8>>>();
    is_written_without_memory::<Option<u8>>();
    is_written_without_memory::<&u8>();
    is_written_without_memory::<TaggedExplicit<u8, Error, 0>>();
    is_written_without_memory::<TaggedImplicit<u8, Error, 0>>();
    is_written_without_memory::<TaggedParser<'_, Explicit, u8, Error>>();
    is_written_without_memory::<TaggedParser<'_, Implicit, u8, Error>>();
}

/// Sets are counted without memory.
pub fn sets_are_counted_without_memory() {
    is_counted_without_memory::<SetOf<u8>>();
    is_counted_without_memory::<BTreeSet<u8>>();
    is_counted_without_memory::<HashSet<u8>>();
    is_counted_without_memory::<SetOf<Vec<u8>>>();
}
