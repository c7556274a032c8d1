//! Object identifiers: read, made of arcs, compared.
ghost use Rattle.std.specs.Prelude.{◌≡◌, ◌↔◌, ℕ, List, true, false, Err, MatchResult};
ghost use Rattle.x690.specs.Arcs.{AreAbsoluteArcs};
ghost use Rattle.asn1_rs.specs.Prelude.{Exactly, IsTruncatedIdentifier, seen};
ghost use Rattle.x690.specs.Octets.{BeginsWith};
ghost use Rattle.asn1_rs.specs.declared.asn1_types.oid.Oid.{Oid};
ghost use Rattle.asn1_rs.specs.Oid.{oid_octets, oid_value};
ghost use Rattle.asn1_rs.specs.Oid.Making.{OidMade, arcs_back};
ghost use Rattle.asn1_rs_uses.specs.Identifiers.{OidByDer, rsa_octets};
ghost use Rattle.asn1_rs_uses.specs.Numbers.{NoMemory};

use asn1_rs::laws::equal_items_are_hashed_alike;
use asn1_rs::{Error, Oid, OidParseError, ParseResult, read_der};
use std::alloc::Global;
use std::borrow::CowSlice;
use std::hash::Hash;

/// The object identifier at the front, by DER, and what follows it.
pub fn read_oid<'a>(alloc: Global, octets: &'a [u8]) -> ParseResult<'a, Oid<'a>, Error>
    ensures { Exactly IsTruncatedIdentifier OidByDer oid_value NoMemory octets.now (seen result) }
{
    read_der::<Oid<'a>, Error>(alloc, octets)
}

/// The arcs that an identifier gives again that is made of these. They are the same, but for 0, 0 the one arc 0 (X.690
/// 8.19).
///
/// Refused as `Oid::from` refuses. Arcs of an identifier are also refused when out of memory.
pub fn arcs_found_again(alloc: Global, arcs: &[u64]) -> Result<Vec<u64>, OidParseError>
    ensures { MatchResult result
        (λ found. AreAbsoluteArcs arcs.now × (found.items ≡ arcs_back false arcs.now))
        (λ e. OidMade false arcs.now (Err e)) }
{
    let oid = Oid::from(alloc, arcs)?;
    // Each arc that is given is below 2^64, so there is an iterator, and the other branch is never taken.
    let Some(found) = oid.iter() else {
        return Err(OidParseError::ParseIntError);
    };
    Ok(found.collect(alloc)?)
}

/// Whether an object identifier is 1.2.840.113549.1.1 or one under it: of RSA keys and signatures.
pub fn is_of_rsa(oid: &Oid<'_>) -> bool
    ensures { result ≡ true ↔ (rest : List ℕ) ×
        BeginsWith (oid_octets oid.now) rsa_octets rest }
{
    let octets = [0x2a, 0x86, 0x48, 0x86, 0xf7, 0x0d, 0x01, 0x01];
    let rsa = Oid::new(CowSlice::Borrowed(&octets));
    oid.starts_with(&rsa)
}

/// Object identifiers with one value are hashed alike, so that one finds the other in a map.
pub fn identifiers_are_hashed_alike()
    ensures { (x y : Oid) → oid_value x ≡ oid_value y →
        ⟦<Oid<'static> as Hash>⟧.hash_input x ≡ ⟦<Oid<'static> as Hash>⟧.hash_input y }
{
    equal_items_are_hashed_alike::<Oid<'static>>();
}
