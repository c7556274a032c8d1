//! Parts of certificates: a serial number that is positive (RFC 5280, 4.1.2.2), a list that is not empty (RFC 5280,
//! 4.2.1.12), and a list of numbers of a range (RFC 7633, 4).
ghost use Rattle.asn1_rs.specs.Prelude.{ReadsByBer, ReadsByDer, seen, WritesStrict};

use crate::refined::{AtLeast, Both, Octets, Positive, Range, Refined};
use asn1_rs::laws::{AlwaysDer, Grammar};
use asn1_rs::{
    Error, Integer, Oid, ParseResult, SerializeResult, ToDer, read_ber, read_der, strict_vec,
};
use std::alloc::Global;

/// The number of a certificate: positive, and of twenty octets at most.
pub type Serial<'a> = Refined<Integer<'a>, Both<Positive, Octets<1, 20>>>;

/// What a key may be used for: `ExtKeyUsageSyntax ::= SEQUENCE SIZE (1..MAX) OF KeyPurposeId`.
pub type KeyPurposes<'a> = Refined<Vec<Oid<'a>>, AtLeast<1>>;

/// What a server has to offer: `Features ::= SEQUENCE OF INTEGER`, each the number of an extension of TLS.
pub type Features = Vec<Refined<u32, Range<0, 0xffff>>>;

/// The serial number at the front of the octets, by DER, and what follows it.
pub fn read_serial<'a>(alloc: Global, octets: &'a [u8]) -> ParseResult<'a, Serial<'a>, Error>
    ensures { ReadsByDer ⟦<Serial<'a> as Grammar>⟧.grammar octets.now (seen result) }
{
    read_der::<Serial<'a>, Error>(alloc, octets)
}

/// The one strict encoding of a serial number in DER form. Where its length fits `usize`, it is refused only when out
/// of memory.
pub fn serial_vec(alloc: Global, serial: &Serial<'_>) -> SerializeResult<Vec<u8>>
    ensures { ⟦<Serial<'static> as Grammar>⟧.grammar.IsDer
        (⟦<Serial<'static> as Grammar>⟧.grammar.value serial.now) →
        WritesStrict ⟦<Serial<'static> as Grammar>⟧.grammar ⟦<Serial<'static> as ToDer>⟧.writing
        serial.now result }
{
    strict_vec(alloc, serial)
}

/// The purposes at the front of the octets, by DER, and what follows them.
pub fn read_key_purposes<'a>(
    alloc: Global,
    octets: &'a [u8],
) -> ParseResult<'a, KeyPurposes<'a>, Error>
    ensures { ReadsByDer ⟦<KeyPurposes<'a> as Grammar>⟧.grammar octets.now (seen result) }
{
    read_der::<KeyPurposes<'a>, Error>(alloc, octets)
}

/// The one strict encoding of purposes in DER form. Where its length fits `usize`, it is refused only when out of
/// memory.
pub fn key_purposes_vec(alloc: Global, purposes: &KeyPurposes<'_>) -> SerializeResult<Vec<u8>>
    ensures { ⟦<KeyPurposes<'static> as Grammar>⟧.grammar.IsDer
        (⟦<KeyPurposes<'static> as Grammar>⟧.grammar.value purposes.now) →
        WritesStrict ⟦<KeyPurposes<'static> as Grammar>⟧.grammar
        ⟦<KeyPurposes<'static> as ToDer>⟧.writing purposes.now result }
{
    strict_vec(alloc, purposes)
}

/// The features at the front of the octets, by DER, and what follows them.
pub fn read_features(alloc: Global, octets: &[u8]) -> ParseResult<'_, Features, Error>
    ensures { ReadsByDer ⟦<Features as Grammar>⟧.grammar octets.now (seen result) }
{
    read_der::<Features, Error>(alloc, octets)
}

/// The features at the front of the octets, by BER, and what follows them.
pub fn read_features_by_ber(alloc: Global, octets: &[u8]) -> ParseResult<'_, Features, Error>
    ensures { ReadsByBer ⟦<Features as Grammar>⟧.grammar octets.now (seen result) }
{
    read_ber::<Features, Error>(alloc, octets)
}

/// The one strict encoding of features. Where its length fits `usize`, it is refused only when out of memory.
pub fn features_vec(alloc: Global, features: &Features) -> SerializeResult<Vec<u8>>
    ensures { WritesStrict ⟦<Features as Grammar>⟧.grammar ⟦<Features as ToDer>⟧.writing
        features.now result }
{
    features.is_der();
    strict_vec(alloc, features)
}
