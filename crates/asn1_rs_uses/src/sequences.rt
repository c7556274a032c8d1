//! Sequences of integers.
ghost use Rattle.std.specs.Prelude.{◌≡◌, ℤ, List, map, pos, MatchResult};
ghost use Rattle.asn1_rs.specs.Prelude.{Exactly, IsTruncatedIdentifier, IsMemoryOrLength, seen};
ghost use Rattle.asn1_rs_uses.specs.Sequences.{ShortNumbers, WantsMemory, numbers_octets};

use asn1_rs::laws::AlwaysDer;
use asn1_rs::{Error, ParseResult, SerializeResult, read_der, strict_vec};
use std::alloc::Global;

/// The numbers of the sequence at the front of the octets, by DER, and what follows it.
pub fn read_numbers(alloc: Global, octets: &[u8]) -> ParseResult<'_, Vec<u32>, Error>
    ensures { Exactly IsTruncatedIdentifier ShortNumbers (λ numbers. map pos numbers.items)
        WantsMemory octets.now (seen result) }
{
    read_der::<Vec<u32>, Error>(alloc, octets)
}

/// The sequence of the numbers, by DER. Refused only when out of memory, or where the length passes `usize`.
pub fn write_numbers(alloc: Global, numbers: &Vec<u32>) -> SerializeResult<Vec<u8>>
    ensures { MatchResult result (λ octets. octets.items ≡ numbers_octets numbers.now.items)
        (IsMemoryOrLength (numbers_octets numbers.now.items)) }
{
    numbers.is_der();
    strict_vec(alloc, numbers)
}
