//! Bit strings: their bits one by one, and in octets.
ghost use Rattle.std.specs.Prelude.{◌≡◌, ◌-◌, ◌*◌, ◌%◌, ◌++◌, length, take, nat_eq, slice_index_or, false, IfOk, OnOk};
ghost use Rattle.x690.specs.Identifiers.{bit};
ghost use Rattle.asn1_schema.specs.Grammar.{bits_in, digits_2};
ghost use Rattle.asn1_schema.specs.Same.{all_bits_of, bits_of};
ghost use Rattle.asn1_schema.specs.Tape.{mark, marks};
ghost use Rattle.asn1_json.specs.Leaves.{number_of_bits, octets_of_bits};

use asn1_schema::tape::Item;
use std::alloc::{AllocError, Global};

/// Whether a number is odd.
fn is_odd(number: u8) -> bool
    ensures { result ≡ nat_eq (number % 2) 1 }
{
    number % 2 == 1
}

/// Appends the bits of an octet, bit 8 first (X.690 8.6.2.1).
fn push_octet(bits: &mut Vec<bool>, octet: u8) -> Result<(), AllocError>
    ensures { OnOk result (bits.new.items ≡ bits.old.items ++ digits_2 8 octet) }
{
    let bit_2 = octet / 2;
    let bit_3 = bit_2 / 2;
    let bit_4 = bit_3 / 2;
    let bit_5 = bit_4 / 2;
    let bit_6 = bit_5 / 2;
    let bit_7 = bit_6 / 2;
    let bit_8 = bit_7 / 2;
    bits.extend_from_slice(&[
        is_odd(bit_8),
        is_odd(bit_7),
        is_odd(bit_6),
        is_odd(bit_5),
        is_odd(bit_4),
        is_odd(bit_3),
        is_odd(bit_2),
        is_odd(octet),
    ])
}

/// Appends the bits of octets.
fn push_octets(bits: &mut Vec<bool>, octets: &[u8]) -> Result<(), AllocError>
    ensures { OnOk result (bits.new.items ≡ bits.old.items ++ bits_in octets.now) }
{
    for octet in octets {
        push_octet(bits, *octet)?;
    }
    Ok(())
}

/// Appends the bits of octets, but for so many unused ones at their end.
fn push_used(bits: &mut Vec<bool>, unused: u8, octets: &[u8]) -> Result<(), AllocError>
    ensures { OnOk result (bits.new.items ≡
        bits.old.items ++ take (8 * length octets.now - unused) (bits_in octets.now)) }
{
    let start = bits.len();
    push_octets(bits, octets)?;
    let added = bits.len() - start;
    bits.truncate(start + added.saturating_sub(usize::from(unused)));
    Ok(())
}

/// Appends the bits of a piece.
fn push_piece(bits: &mut Vec<bool>, piece: &Item<'_>) -> Result<(), AllocError>
    ensures { OnOk result (bits.new.items ≡ bits.old.items ++ bits_of (mark piece.now)) }
{
    match piece {
        Item::Bits(unused, octets) => push_used(bits, *unused, octets),
        _ => Ok(()),
    }
}

/// The bits of pieces.
pub fn joined_bits(alloc: Global, pieces: &[Item<'_>]) -> Result<Vec<bool>, AllocError>
    ensures { IfOk result (λ bits. bits.items ≡ all_bits_of (marks pieces.now)) }
{
    let mut bits = Vec::new(alloc);
    for piece in pieces {
        push_piece(&mut bits, piece)?;
    }
    Ok(bits)
}

/// A bit as a number. A bit that is missing is 0.
fn bit_at(bits: &[bool], place: usize) -> u8
    ensures { result ≡ bit (slice_index_or bits.now place false) }
{
    match bits.get(place) {
        Some(bit) => u8::from(*bit),
        None => 0,
    }
}

/// The number that the first eight bits say, the first one highest.
fn first_octet(bits: &[bool]) -> u8
    ensures { result ≡ number_of_bits 8 bits.now }
{
    let mut octet = 0;
    for place in 0..8 {
        octet = octet * 2 + bit_at(bits, place);
    }
    octet
}

/// The octets of bits. Zeros fill the last one.
pub fn octets_of_bits(alloc: Global, bits: &[bool]) -> Result<Vec<u8>, AllocError>
    ensures { IfOk result (λ octets. octets.items ≡ octets_of_bits bits.now) }
{
    let mut octets = Vec::new(alloc);
    let mut rest = bits;
    while !rest.is_empty() {
        octets.push(first_octet(rest))?;
        let (_first, others) = rest.split_at(rest.len().min(8));
        rest = others;
    }
    Ok(octets)
}
