//! The calls whose contracts rest on the laws of a type, at types that hold others: their bounds are met.

use asn1_rs::{Error, ParseResult, SetOf, TaggedExplicit, TaggedImplicit, read_ber, read_der};
use std::alloc::Global;

/// A list under an explicit tag.
pub type Tagged<T> = TaggedExplicit<Vec<T>, Error, 1>;

/// Lists, a set and two tags around a number.
pub type Mixed = Vec<Vec<SetOf<TaggedExplicit<TaggedImplicit<u32, Error, 2>, Error, 1>>>>;

/// A number under an implicit tag over another one.
pub type Implicit = TaggedImplicit<TaggedImplicit<u32, Error, 2>, Error, 1>;

/// Lists under explicit tags by turns, by BER.
pub fn tags_and_lists_by_ber(
    alloc: Global,
    octets: &[u8],
) -> ParseResult<'_, Tagged<Tagged<u32>>, Error> {
    read_ber(alloc, octets)
}

/// Lists, a set and tags, by DER.
pub fn lists_sets_and_tags_by_der(alloc: Global, octets: &[u8]) -> ParseResult<'_, Mixed, Error> {
    read_der(alloc, octets)
}

/// Two implicit tags, by DER.
pub fn implicit_tags_by_der(alloc: Global, octets: &[u8]) -> ParseResult<'_, Implicit, Error> {
    read_der(alloc, octets)
}

/// Two implicit tags, by BER.
pub fn implicit_tags_by_ber(alloc: Global, octets: &[u8]) -> ParseResult<'_, Implicit, Error> {
    read_ber(alloc, octets)
}
