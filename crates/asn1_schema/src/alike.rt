//! Whether contents say the same: numbers, octets in pieces, and bits in pieces.
ghost use Rattle.std.specs.Prelude.{◌≡◌, ◌≢◌, ◌≤◌, ◌↔◌, ◌⊎◌, [], IsTrue};
ghost use Rattle.x690.specs.Digits.{twos_complement_value};
ghost use Rattle.x690.specs.Integers.{HasRedundantZeros, HasRedundantOnes, IsShortestInteger, IsIntegerContent};
ghost use Rattle.asn1_schema.specs.Joined.{said};
ghost use Rattle.asn1_schema.specs.Same.{bits_left};

use crate::bitwise::{Bitwise, next_bit};
use crate::joined::{Joined, next};
use x690::integers::{has_redundant_ones, has_redundant_zeros};

/// Whether the first octet says nothing that the others do not say.
fn has_redundant(octets: &[u8]) -> bool
    ensures { IsTrue result ↔ (HasRedundantZeros octets.now ⊎ HasRedundantOnes octets.now) }
{
    has_redundant_zeros(octets) || has_redundant_ones(octets)
}

/// The octets without first ones that say nothing.
fn without_redundant(octets: &[u8]) -> &[u8]
    ensures value { twos_complement_value result.now ≡ twos_complement_value octets.now }
    ensures shortest { result.now ≢ [] → IsShortestInteger result.now }
{
    let mut rest = octets;
    while has_redundant(rest) {
        match rest.split_first() {
            Some((_, others)) => rest = others,
            None => return rest,
        }
    }
    rest
}

/// The strict contents octets of the number that octets are.
fn shortest(octets: &[u8]) -> &[u8]
    ensures { IsIntegerContent (twos_complement_value octets.now) result.now }
{
    let rest = without_redundant(octets);
    if rest.is_empty() {
        return &[0];
    }
    rest
}

/// Whether octets are one number.
pub(crate) fn same_number(left: &[u8], right: &[u8]) -> bool
    ensures { IsTrue result ↔ (twos_complement_value left.now ≡ twos_complement_value right.now) }
{
    shortest(left) == shortest(right)
}

/// Whether pieces join to the same octets.
pub(crate) fn same_octets(left: Joined<'_, '_>, right: Joined<'_, '_>) -> bool
    ensures { IsTrue result ↔ (said left.entry ≡ said right.entry) }
{
    let mut left = left;
    let mut right = right;
    while let Some((octet, others)) = next(left) {
        match next(right) {
            Some((other, behind)) => {
                if octet != other {
                    return false;
                }
                left = others;
                right = behind;
            }
            None => return false,
        }
    }
    next(right).is_none()
}

/// Whether pieces join to the same bits.
pub(crate) fn same_bits(left: Bitwise<'_, '_>, right: Bitwise<'_, '_>) -> bool
    requires left { left.skip ≤ 7 }
    requires right { right.skip ≤ 7 }
    ensures { IsTrue result ↔ (bits_left left.entry ≡ bits_left right.entry) }
{
    let mut left = left;
    let mut right = right;
    while let Some((bit, others)) = next_bit(left) {
        match next_bit(right) {
            Some((other, behind)) => {
                if bit != other {
                    return false;
                }
                left = others;
                right = behind;
            }
            None => return false,
        }
    }
    next_bit(right).is_none()
}
