//! Sizes of strings, also of those in pieces.
ghost use Rattle.std.specs.Prelude.{◌*◌, ◌-◌, ◌/◌, ◌≡◌, ◌≤◌, ◌^◌, length, min};
ghost use Rattle.asn1_schema.specs.Tape.{mark, marks};
ghost use Rattle.asn1_schema.specs.Values.{leads};
ghost use Rattle.asn1_schema.specs.Sizes.{text_units, size_of_text, units, all_units, bit_count, all_bits};

use crate::schema::TextKind;
use crate::tape::Item;

/// How many of the octets begin a character in UTF-8: all but those from 80 to bf.
fn leading_octets(octets: &[u8]) -> usize
    ensures count { result ≡ leads octets.now }
    ensures within { result ≤ length octets.now }
{
    let mut count = 0;
    for octet in octets {
        if *octet < 128 || *octet >= 192 {
            count += 1;
        }
    }
    count
}

/// What is counted of characters: in UTF-8 the octets that begin one, and else all octets.
pub(crate) fn units_of_text(kind: TextKind, octets: &[u8]) -> usize
    ensures { result ≡ text_units kind octets.now }
{
    match kind {
        TextKind::Utf8 => leading_octets(octets),
        _ => octets.len(),
    }
}

/// How many characters so many are.
pub(crate) fn text_size(kind: TextKind, count: u128) -> u128
    ensures { result ≡ size_of_text kind count }
{
    match kind {
        TextKind::Bmp => count / 2,
        TextKind::Universal => count / 4,
        _ => count,
    }
}

/// How many octets there are.
pub(crate) fn octet_len(octets: &[u8]) -> u128
    ensures { result ≡ length octets.now }
{
    octets.len() as u128
}

/// How many bits octets have, but for the unused ones.
pub(crate) fn bit_len(unused: u8, octets: &[u8]) -> u128
    ensures { result ≡ 8 * length octets.now - unused }
{
    (octets.len() as u128 * 8).saturating_sub(u128::from(unused))
}

/// What is counted of a piece of octets or of characters.
fn units_of(piece: &Item<'_>) -> usize
    ensures { result ≡ units (mark piece.now) }
{
    match piece {
        Item::Octets(octets) => octets.len(),
        Item::Text(kind, octets) => units_of_text(*kind, octets),
        _ => 0,
    }
}

/// What is counted of pieces of octets or of characters.
pub(crate) fn count_units(pieces: &[Item<'_>]) -> u128
    ensures { result ≡ all_units (marks pieces.now) }
{
    let mut count: u128 = 0;
    for piece in pieces {
        count += units_of(piece) as u128;
    }
    count
}

/// How many bits a piece has.
fn bits_of(piece: &Item<'_>) -> u128
    ensures { result ≡ bit_count (mark piece.now) }
{
    match piece {
        Item::Bits(unused, octets) => bit_len(*unused, octets),
        _ => 0,
    }
}

/// How many bits pieces have, where a number of 16 octets holds that, and else the greatest number.
pub(crate) fn count_bits(pieces: &[Item<'_>]) -> u128
    ensures { result ≡ min (all_bits (marks pieces.now)) (2 ^ 128 - 1) }
{
    let mut count: u128 = 0;
    for piece in pieces {
        count = count.saturating_add(bits_of(piece));
    }
    count
}
