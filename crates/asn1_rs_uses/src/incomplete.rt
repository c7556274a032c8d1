//! Headers and elements that may be cut.
ghost use Rattle.std.specs.Prelude.{◌≡◌, ◌<◌, ◌++◌, ℕ, List, length, IfOk};
ghost use Rattle.asn1_rs.specs.Prelude.{IsTruncatedIdentifier, seen};
ghost use Rattle.x690.specs.Identifiers.{Identifier, IsIdentifier};
ghost use Rattle.x690.specs.Lengths.{LengthForm};
ghost use Rattle.x690.specs.Rules.{ber_rule};
ghost use Rattle.x690.specs.Elements.{Parts, IsHeader, IsDerElement};
ghost use Rattle.asn1_headers.specs.Answers.{RefusedAsBeginning};
ghost use Rattle.asn1_headers.specs.Header.{KeepsLent};

use asn1_rs::laws::{any_is_the_element, beginnings_are_refused};
use asn1_rs::{Any, Error, FromBer, FromDer, Header, ParseResult};
use std::alloc::Global;

/// The element at the front of the octets, by DER, and what follows it.
///
/// It keeps its identifier octets, which the input lends. Octets that end within such an element are refused. The
/// refusal is `Incomplete` of as many as are missing or fewer, or `InvalidTag`.
pub fn read_element<'a>(alloc: Global, octets: &'a [u8]) -> ParseResult<'a, Any<'a>, Error>
    ensures truncated { (more word rest : List ℕ) (p : Parts) → IsDerElement word p
        → octets.now ++ more ≡ word ++ rest → length octets.now < length word
        → RefusedAsBeginning (IsTruncatedIdentifier octets.now) more (seen result) }
    ensures raw_tag { (identifier more : List ℕ) (id : Identifier) → IsIdentifier identifier id
        → octets.now ≡ identifier ++ more
        → IfOk (seen result) (λ x. KeepsLent identifier x.1.header) }
{
    any_is_the_element();
    beginnings_are_refused();
    Any::from_der(alloc, octets)
}

/// The header at the front of the octets, by BER, and what follows it. Octets that end within a header are refused.
pub fn read_header<'a>(alloc: Global, octets: &'a [u8]) -> ParseResult<'a, Header<'a>, Error>
    ensures truncated { (more front rest : List ℕ) (id : Identifier) (form : LengthForm)
        → IsHeader ber_rule front id form → octets.now ++ more ≡ front ++ rest
        → length octets.now < length front
        → RefusedAsBeginning (IsTruncatedIdentifier octets.now) more (seen result) }
{
    beginnings_are_refused();
    Header::from_ber(alloc, octets)
}
