//! How many octets are missing of the element at the front.
ghost use Rattle.std.specs.Prelude.{ℕ, ◌≡◌, IfSome, IfNone};
ghost use Rattle.x690.specs.Elements.{IsDerElement};
ghost use Rattle.x690.specs.Nested.{IsElement, EndsInIdentifier};
ghost use Rattle.x690.specs.Identifiers.{IsTruncatedIdentifier};
ghost use Rattle.asn1_headers.specs.declared.error.Err.TheVariants.{Incomplete as truncated};
ghost use Rattle.asn1_headers.specs.declared.error.Needed.TheVariants.{Size};
ghost use Rattle.asn1_schema.specs.Reading.{rules_of};
ghost use Rattle.asn1_schema.specs.Decoding.{TellsMissing, IsTruncatedByCoding};

use crate::coding::Coding;
use asn1_headers::ber::{Steps, element_to_depth};
use asn1_headers::der::element_by_der;
use asn1_headers::error::{Err as Refusal, Error, Needed};

/// So many octets, if the refusal tells.
fn missing_of(refusal: Refusal<Error>) -> Option<usize>
    ensures some { IfSome result (λ n. refusal ≡ truncated (Size n)) }
    ensures none { IfNone result ((n : ℕ) → refusal ≡ truncated (Size n) → ⊥) }
{
    match refusal {
        Refusal::Incomplete(Needed::Size(n)) => Some(n),
        _ => None,
    }
}

/// How many octets are missing at least of the element at the front, by DER.
fn der_missing(octets: &[u8]) -> Option<usize>
    ensures { TellsMissing IsDerElement (IsTruncatedIdentifier octets.now) octets.now result }
{
    match element_by_der(octets) {
        Ok(_) => None,
        Err(refusal) => missing_of(refusal),
    }
}

/// How many octets are missing at least of the element at the front, by BER.
fn ber_missing(octets: &[u8], max: usize) -> Option<usize>
    ensures { TellsMissing (IsElement max) (EndsInIdentifier max octets.now) octets.now result }
{
    if max == 0 {
        return None;
    }
    match element_to_depth(octets, max, &mut Steps::new()) {
        Ok(_) => None,
        Err(refusal) => missing_of(refusal),
    }
}

/// How many octets are missing at least of the element at the front, by these rules.
pub(crate) fn missing_octets(coding: Coding, octets: &[u8]) -> Option<usize>
    ensures { TellsMissing (rules_of coding).ElementOf (IsTruncatedByCoding coding octets.now)
        octets.now
        result }
{
    match coding {
        Coding::Der => der_missing(octets),
        Coding::Ber(max) => ber_missing(octets, max),
    }
}
