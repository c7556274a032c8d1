//! Sets of small numbers, with the theorems in words of sets.
ghost use Rattle.std.specs.Prelude.{◌≡◌, ◌↔◌, ◌⊎◌, List, map, pos, IfOk, IfErr, IsTrue, MatchResult};
ghost use Rattle.x690.specs.Collections.{multiset, value_set};
ghost use Rattle.asn1_rs.specs.Prelude.{Exactly, IsTruncatedIdentifier, IsMemoryOrLength, items_of, seen};
ghost use Rattle.asn1_rs.specs.Set.{set_of};
ghost use Rattle.asn1_rs_uses.specs.Sequences.{WantsMemory};
ghost use Rattle.asn1_rs_uses.specs.Sets.{CountedNumbers, DistinctNumbers, DistinctSigned, set_octets};
ghost use Rattle.asn1_rs_uses.specs.Sets.{signed_set_octets};

use asn1_rs::laws::{AlwaysDer, assert_members_valid, words_and_values_are_unique};
use asn1_rs::{Error, ParseResult, SerializeResult, SetOf, read_der, strict_vec};
use std::alloc::Global;
use std::collections::{BTreeSet, HashSet};

/// The numbers of the set at the front of the octets, by DER, and what follows the set. Each number comes as often as
/// it stands there.
pub fn read_counted(alloc: Global, octets: &[u8]) -> ParseResult<'_, SetOf<u8>, Error>
    ensures { Exactly IsTruncatedIdentifier CountedNumbers (λ set. multiset (map pos (items_of set)))
        WantsMemory octets.now (seen result) }
{
    read_der::<SetOf<u8>, Error>(alloc, octets)
}

/// The set of the numbers, by DER: in ascending order of their encodings, whatever order they stand in.
pub fn write_counted(alloc: Global, numbers: &SetOf<u8>) -> SerializeResult<Vec<u8>>
    ensures { MatchResult result (λ octets. octets.items ≡ set_octets (items_of numbers.now))
        (IsMemoryOrLength (set_octets (items_of numbers.now))) }
{
    numbers.is_der();
    strict_vec(alloc, numbers)
}

/// Whether two sets have the same numbers, each as often, told by their encodings.
/// Refused as the writing of one of them.
pub fn are_same_counted(alloc: Global, one: &SetOf<u8>, other: &SetOf<u8>) -> SerializeResult<bool>
    ensures same { IfOk result (λ same. IsTrue same ↔
        (multiset (map pos (items_of one.now)) ≡ multiset (map pos (items_of other.now)))) }
    ensures refused { IfErr result (λ e. IsMemoryOrLength (set_octets (items_of one.now)) e
        ⊎ IsMemoryOrLength (set_octets (items_of other.now)) e) }
{
    one.is_der();
    other.is_der();
    words_and_values_are_unique::<SetOf<u8>>();
    let first = strict_vec(alloc, one)?;
    let second = strict_vec(alloc, other)?;
    Ok(first.as_slice() == second.as_slice())
}

/// The set of distinct numbers at the front of the octets, by DER, and what follows it.
pub fn read_distinct(alloc: Global, octets: &[u8]) -> ParseResult<'_, BTreeSet<u8>, Error>
    ensures { Exactly IsTruncatedIdentifier DistinctNumbers (λ set. set_of (map pos set.keys))
        WantsMemory octets.now (seen result) }
{
    let answer = read_der::<BTreeSet<u8>, Error>(alloc, octets);
    if let Ok((_, set)) = &answer {
        assert_members_valid(set);
    }
    answer
}

/// The set of distinct numbers, by DER.
pub fn write_distinct(alloc: Global, members: &BTreeSet<u8>) -> SerializeResult<Vec<u8>>
    ensures { MatchResult result (λ octets. octets.items ≡ set_octets members.now.keys)
        (IsMemoryOrLength (set_octets members.now.keys)) }
{
    members.is_der();
    strict_vec(alloc, members)
}

/// The set of distinct signed numbers at the front of the octets, by DER, and what follows it.
pub fn read_signed(alloc: Global, octets: &[u8]) -> ParseResult<'_, HashSet<i8>, Error>
    ensures { Exactly IsTruncatedIdentifier DistinctSigned (λ set. set_of set.keys)
        WantsMemory octets.now (seen result) }
{
    let answer = read_der::<HashSet<i8>, Error>(alloc, octets);
    if let Ok((_, set)) = &answer {
        assert_members_valid(set);
    }
    answer
}

/// The set of distinct signed numbers, by DER. The octets follow from the members alone, whatever order these are kept
/// in.
pub fn write_signed(alloc: Global, signed: &HashSet<i8>) -> SerializeResult<Vec<u8>>
    ensures { MatchResult result (λ octets. octets.items ≡ signed_set_octets signed.now.keys)
        (IsMemoryOrLength (signed_set_octets signed.now.keys)) }
{
    signed.is_der();
    strict_vec(alloc, signed)
}
