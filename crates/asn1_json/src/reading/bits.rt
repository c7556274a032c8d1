//! Bit strings, from objects of JSON.
ghost use Rattle.std.specs.Prelude.{ℕ, ◌≡◌, ◌≢◌, ◌-◌, ◌*◌, ◌<◌, Bool, List, IfNone};
ghost use Rattle.std.specs.Prelude.{IfOk, IfSome, MatchOption, Some, false, length, take, true};
ghost use Rattle.json.specs.Find.{get_member};
ghost use Rattle.json.specs.Json.{number, string};
ghost use Rattle.json.specs.Value.{members_view};
ghost use Rattle.asn1_words.specs.Words.{number_text};
ghost use Rattle.asn1_schema.specs.Grammar.{bits_in};
ghost use Rattle.asn1_json.specs.DenotedLeaves.{DenotesBits, IsHexadecimal};
ghost use Rattle.asn1_json.specs.Found.{FindsOnly};
ghost use Rattle.asn1_json.specs.Leaves.{octets_of_bits as spec_octets};

use crate::bits::{joined_bits, octets_of_bits};
use crate::leaves::count_text;
use crate::reading::names::member_named;
use asn1_schema::tape::Item;
use hex::FromHexError;
use json::Value;
use std::alloc::{AllocError, Global};

/// The octets that a text of hexadecimal digits says, two for each, in either case. None are answered where it is none.
pub(super) fn hexadecimal(alloc: Global, text: &str) -> Result<Option<Vec<u8>>, AllocError>
    ensures { IfOk result (FindsOnly (λ octets. octets.items) (IsHexadecimal text.now)) }
{
    match hex::decode(alloc, text.as_bytes()) {
        Ok(octets) => Ok(Some(octets)),
        Err(FromHexError::OutOfMemory) => Err(AllocError),
        Err(_) => Ok(None),
    }
}

/// Whether a text is that of a number in decimals.
fn is_count(alloc: Global, text: &str, count: usize) -> Result<bool, AllocError>
    ensures count { IfOk result (λ is. is ≡ true → text.now ≡ number_text count) }
    ensures other { IfOk result (λ is. is ≡ false → text.now ≢ number_text count) }
{
    let own = count_text(alloc, count)?;
    Ok(own.as_str() == text)
}

/// How many of so many bits are unused, where the number of the others is given in decimals: 7 at most. Of no bits none
/// are.
fn unused_bits(alloc: Global, text: &str, bits: usize) -> Result<Option<u8>, AllocError>
    ensures some { IfOk result (λ found. IfSome found
        (λ unused. text.now ≡ number_text (bits - unused))) }
    ensures none { IfOk result (λ found. IfNone found
        ((unused : ℕ) → unused < 8 → text.now ≢ number_text (bits - unused))) }
{
    for unused in 0..8 {
        if is_count(alloc, text, bits.saturating_sub(usize::from(unused)))? {
            return Ok(Some(unused));
        }
    }
    Ok(None)
}

/// The bits of octets, but for so many unused ones at their end.
fn used_bits(alloc: Global, unused: u8, octets: &[u8]) -> Result<Vec<bool>, AllocError>
    ensures { IfOk result (λ bits.
        bits.items ≡ take (8 * length octets.now - unused) (bits_in octets.now)) }
{
    joined_bits(alloc, &[Item::Bits(unused, octets)])
}

/// Whether zeros fill the last octet of bits, of which so many are unused.
fn are_filled(alloc: Global, unused: u8, octets: &[u8]) -> Result<bool, AllocError>
    ensures filled { IfOk result (λ are. are ≡ true →
        octets.now ≡ spec_octets (take (8 * length octets.now - unused) (bits_in octets.now))) }
    ensures other { IfOk result (λ are. are ≡ false →
        octets.now ≢ spec_octets (take (8 * length octets.now - unused) (bits_in octets.now))) }
{
    let bits = used_bits(alloc, unused, octets)?;
    let filled = octets_of_bits(alloc, &bits)?;
    Ok(filled.as_slice() == octets)
}

/// How many bits at the end of octets are unused, where the number of the others is given in decimals, and zeros fill
/// the last octet.
fn unused_in(alloc: Global, text: &str, octets: &[u8]) -> Result<Option<u8>, AllocError>
    ensures number { IfOk result (λ found. MatchOption found (Unit {0})
        (λ unused. text.now ≡ number_text (8 * length octets.now - unused))) }
    ensures filled { IfOk result (λ found. MatchOption found (Unit {0})
        (λ unused. octets.now ≡
        spec_octets (take (8 * length octets.now - unused) (bits_in octets.now)))) }
    ensures none { IfOk result (λ found. IfNone found ((bs : List Bool) →
        octets.now ≡ spec_octets bs → text.now ≢ number_text (length bs))) }
{
    let all = used_bits(alloc, 0, octets)?;
    let Some(unused) = unused_bits(alloc, text, all.len())? else {
        return Ok(None);
    };
    if are_filled(alloc, unused, octets)? {
        Ok(Some(unused))
    } else {
        Ok(None)
    }
}

/// The string that the member with a name is.
fn string_member<'a>(members: &[(&'a str, Value<'a>)], name: &str) -> Option<&'a str>
    ensures { MatchOption result
        ((text : List ℕ) → get_member name.now (members_view members.now) ≢ Some (string text))
        (λ text. get_member name.now (members_view members.now) ≡ Some (string text.now)) }
{
    let Some((_, value)) = member_named(members, name) else {
        return None;
    };
    match value {
        Value::String(text) => Some(*text),
        _ => None,
    }
}

/// The text of the number that the member with a name is.
fn number_member<'a>(members: &[(&'a str, Value<'a>)], name: &str) -> Option<&'a str>
    ensures { MatchOption result
        ((text : List ℕ) → get_member name.now (members_view members.now) ≢ Some (number text))
        (λ text. get_member name.now (members_view members.now) ≡ Some (number text.now)) }
{
    let Some((_, value)) = member_named(members, name) else {
        return None;
    };
    match value {
        Value::Number(text) => Some(*text),
        _ => None,
    }
}

/// The octets of a bit string, and how many bits at their end are unused, from the members `value` and `length` of an
/// object. None are answered where there are others, or where no zeros fill the last octet.
pub(super) fn bits_of<'a>(
    alloc: Global,
    members: &[(&'a str, Value<'a>)],
) -> Result<Option<(u8, Vec<u8>)>, AllocError>
    ensures { IfOk result (FindsOnly
        (λ bits. take (8 * length bits.1.items - bits.0) (bits_in bits.1.items))
        (DenotesBits (members_view members.now))) }
{
    if members.len() != 2 {
        return Ok(None);
    }
    let Some(text) = string_member(members, "value") else {
        return Ok(None);
    };
    let Some(count) = number_member(members, "length") else {
        return Ok(None);
    };
    let Some(octets) = hexadecimal(alloc, text)? else {
        return Ok(None);
    };
    match unused_in(alloc, count, &octets)? {
        Some(unused) => Ok(Some((unused, octets))),
        None => Ok(None),
    }
}
