//! Numbers by BER and by DER, with the theorems in words of numbers.
ghost use Rattle.std.specs.Prelude.{◌≡◌, ◌≢◌, ◌<◌, ◌≤◌, ◌^◌, ◌++◌, ◌↔◌, ◌⊎◌, ℕ, ℤ, List, length, pos, IfOk, IfErr};
ghost use Rattle.std.specs.Prelude.{IsTrue, MatchResult};
ghost use Rattle.asn1_rs.specs.Prelude.{EndsWithin, Exactly, ErrorIs, IsTruncatedIdentifier, IsMemoryOrLength, seen};
ghost use Rattle.x690.specs.Identifiers.{Identifier};
ghost use Rattle.asn1_headers.specs.Answers.{RefusedBeforeEnd};
ghost use Rattle.asn1_headers.specs.declared.error.Error.TheVariants as errors;
ghost use Rattle.asn1_rs.specs.Integer.{IntegerForm, IsUnsigned};
ghost use Rattle.asn1_rs_uses.specs.Numbers.{IsStrictNumber, NoMemory, NumberByBer, NumberByDer};

use asn1_rs::laws::{
    counts_are_of_the_strict_encoding, reader_is_exact_by_ber, reader_is_exact_by_der,
    strict_fronts_are_written_again, words_and_values_are_unique,
};
use asn1_rs::{Error, FromBer, FromDer, ParseResult, SerializeResult, ToDer, strict_vec};
use std::alloc::Global;

/// The number at the front of the octets, by DER, and what follows it.
pub fn read_number(alloc: Global, octets: &[u8]) -> ParseResult<'_, u64, Error>
    ensures exact { Exactly IsTruncatedIdentifier NumberByDer pos NoMemory octets.now (seen result) }
    ensures truncated { (more word rest : List ℕ) (n : ℤ) → NumberByDer word n
        → octets.now ++ more ≡ word ++ rest → length octets.now < length word
        → RefusedBeforeEnd NoMemory (IsTruncatedIdentifier octets.now) more (seen result) }
    ensures asks_no_memory { IfErr (seen result) (ErrorIs (λ e. e ≢ errors.OutOfMemory)) }
{
    reader_is_exact_by_der::<u64, Error>();
    u64::from_der(alloc, octets)
}

/// The number at the front of the octets, by BER, and what follows it.
pub fn read_number_by_ber(alloc: Global, octets: &[u8]) -> ParseResult<'_, u64, Error>
    ensures exact { Exactly EndsWithin NumberByBer pos NoMemory octets.now (seen result) }
    ensures asks_no_memory { IfErr (seen result) (ErrorIs (λ e. e ≢ errors.OutOfMemory)) }
{
    reader_is_exact_by_ber::<u64, Error>();
    u64::from_ber(alloc, octets)
}

/// How many octets the strict encoding of a number has.
pub fn count_number(x: u64) -> Result<usize, Error>
    ensures count { (o : List ℕ) → IsStrictNumber x o → IfOk result (λ n. n ≡ length o) }
    ensures refused { (o : List ℕ) → IsStrictNumber x o → IfErr result (λ e. 2 ^ 64 ≤ length o) }
{
    counts_are_of_the_strict_encoding::<u64>();
    x.to_der_len()
}

/// The strict encoding of a number.
pub fn write_number(alloc: Global, x: u64) -> SerializeResult<Vec<u8>>
    ensures { (o : List ℕ) → IsStrictNumber x o → MatchResult result (λ octets. octets.items ≡ o)
        (IsMemoryOrLength o) }
{
    strict_vec::<u64>(alloc, &x)
}

/// Whether the octets that a number was read from are its strict encoding.
pub fn is_strict_front(alloc: Global, x: u64, front: &[u8]) -> SerializeResult<bool>
    ensures strict { IfOk result (λ strict. IsTrue strict ↔ ∥ IsStrictNumber x front.now ∥₁) }
    ensures of_parts { (id : Identifier) (content : List ℕ)
        → IntegerForm (IsUnsigned 8) (pos x) id content
        → IfOk result (λ strict. IsTrue strict ↔ IsStrictNumber x front.now) }
    ensures refused { (o : List ℕ) → IsStrictNumber x o → IfErr result (IsMemoryOrLength o) }
{
    strict_fronts_are_written_again::<u64>();
    let written = strict_vec::<u64>(alloc, &x)?;
    Ok(written.as_slice() == front)
}

/// Whether two numbers have one strict encoding, and so are the same.
pub fn is_same_number(alloc: Global, x: u64, y: u64) -> SerializeResult<bool>
    ensures same { (o p : List ℕ) → IsStrictNumber x o → IsStrictNumber y p
        → IfOk result (λ same. IsTrue same ↔ (x ≡ y)) }
    ensures refused { (o p : List ℕ) → IsStrictNumber x o → IsStrictNumber y p
        → IfErr result (λ e. IsMemoryOrLength o e ⊎ IsMemoryOrLength p e) }
{
    words_and_values_are_unique::<u64>();
    let first = strict_vec::<u64>(alloc, &x)?;
    let second = strict_vec::<u64>(alloc, &y)?;
    Ok(first.as_slice() == second.as_slice())
}
