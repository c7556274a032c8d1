//! Contents octets of bit strings.
ghost use Rattle.std.specs.Prelude.{ℕ, ◌≤◌, ◌≡◌, ◌↔◌, ◌*◌, ◌++◌, List, length, Bool, IsTrue, IfSome, IfNone};
ghost use Rattle.x690.specs.Octets.{IsOctets};
ghost use Rattle.asn1_schema.specs.Reading.{rules_of, Judges};
ghost use Rattle.asn1_schema.specs.Grammar.{IsBitContent, trimmed};
ghost use Rattle.asn1_schema.specs.Bits.{LowZero, MayBeUnused, bit_at, used_bits, first_bits, IsNamed};

use crate::coding::Coding;
use crate::fault::Fault;
use crate::tape::Item;

/// Whether the last bits of an octet are zeros.
#[cycle(low)]
fn ends_in_zeros(octet: u8, count: u8) -> bool
    ensures yes { IsTrue result → LowZero count octet }
    ensures no { LowZero count octet → IsTrue result }
{
    if count == 0 {
        return true;
    }
    if octet % 2 != 0 {
        return false;
    }
    ends_in_zeros(octet / 2, count - 1)
}

/// Whether so many bits of the octets may be unused (X.690 8.6.2, 11.2.1).
fn may_be_unused(coding: Coding, unused: u8, octets: &[u8]) -> bool
    ensures yes { IsTrue result → MayBeUnused coding unused octets.now }
    ensures no { MayBeUnused coding unused octets.now → IsTrue result }
    ensures octets { IsOctets octets.now }
{
    if unused == 0 {
        return true;
    }
    if unused > 7 {
        return false;
    }
    match octets.split_last() {
        None => false,
        Some((last, _)) => match coding {
            Coding::Der => ends_in_zeros(*last, unused),
            Coding::Ber(_) => true,
        },
    }
}

/// Whether the bit of an octet is set behind which so many others stand.
#[cycle(bit)]
pub(crate) fn is_bit_set(octet: u8, place: u8) -> bool
    ensures { result ≡ bit_at place octet }
{
    if place == 0 {
        return octet % 2 == 1;
    }
    is_bit_set(octet / 2, place - 1)
}

/// Whether the last bit is set, or there is none (X.690 11.2.2).
pub(crate) fn ends_in_one(unused: u8, octets: &[u8]) -> bool
    requires few { unused ≤ 7 }
    ensures { IsTrue result ↔
        (trimmed (used_bits unused octets.now) ≡ used_bits unused octets.now) }
{
    match octets.split_last() {
        None => true,
        Some((last, _)) => is_bit_set(*last, unused),
    }
}

/// The place of the lowest bit of an octet that is set from a place on.
#[cycle(lowest)]
fn lowest_bit(octet: u8, place: u8) -> Option<u8>
    ensures some { (before : List Bool) → IfSome result (λ p. trimmed (before ++ first_bits place octet)
        ≡ before ++ first_bits p octet) }
    ensures few { IfSome result (λ p. (place ≤ p) × (p ≤ 7)) }
    ensures none { (before : List Bool) → IfNone result
        (trimmed (before ++ first_bits place octet) ≡ trimmed before) }
{
    if place >= 8 {
        return None;
    }
    if is_bit_set(octet, place) {
        return Some(place);
    }
    lowest_bit(octet, place + 1)
}

/// Bits without the zeros at their end: so many are unused, of these octets (X.680 22.7).
pub(crate) fn without_zeros(unused: u8, octets: &[u8]) -> (u8, &[u8])
    ensures few { result.0 ≤ 7 }
    ensures same { used_bits result.0 result.1.now ≡ trimmed (used_bits unused octets.now) }
{
    let mut len = octets.len();
    let mut zeros = unused;
    while len > 0 {
        match lowest_bit(octets[len - 1], zeros) {
            Some(place) => return (place, &octets[..len]),
            None => {
                zeros = zeros.saturating_sub(8);
                len -= 1;
            }
        }
    }
    (0, &[])
}

/// Bits with names: by DER none end in zeros (X.690 11.2.2), and by BER these are no part of the value.
pub(crate) fn named_item<'a>(
    coding: Coding,
    unused: u8,
    octets: &'a [u8],
) -> Result<Item<'a>, Fault>
    requires { unused ≤ 7 }
    ensures { Judges (IsNamed coding (used_bits unused octets.now)) result }
{
    match coding {
        Coding::Der => {
            if !ends_in_one(unused, octets) {
                return Err(Fault::Refused);
            }
            Ok(Item::Bits(unused, octets))
        }
        Coding::Ber(_) => {
            let (zeros, front) = without_zeros(unused, octets);
            Ok(Item::Bits(zeros, front))
        }
    }
}

/// How many bits are unused, and the octets of all, where contents octets say bits.
pub(crate) fn bit_content(coding: Coding, content: &[u8]) -> Option<(u8, &[u8])>
    ensures some { IfSome result (λ x.
        IsBitContent (rules_of coding) content.now (used_bits x.0 x.1.now)) }
    ensures few { IfSome result (λ x. (x.0 ≤ 7) × (x.0 ≤ 8 * length x.1.now)) }
    ensures none { IfNone result
        ((bs : List Bool) → IsBitContent (rules_of coding) content.now bs → ⊥) }
{
    let Some((unused, octets)) = content.split_first() else {
        return None;
    };
    if !may_be_unused(coding, *unused, octets) {
        return None;
    }
    Some((*unused, octets))
}
