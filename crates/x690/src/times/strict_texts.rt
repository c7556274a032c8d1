//! Whether contents octets are the strict text of a time (X.690 11.7, 11.8), with a fraction of any length.
ghost use Rattle.std.specs.Prelude.{◌≡◌, ◌≤◌, ◌<◌, ◌∷◌, ◌^◌, ◌++◌, ◌↔◌, List, ℕ, IsTrue, IfSome, IsSomeAnd};
ghost use Rattle.std.specs.Char.{is_ascii_digit};
ghost use Rattle.x690.specs.Sets.{AllIn};
ghost use Rattle.x690.specs.Laws.Sets.{digits_ascii};
ghost use Rattle.x690.specs.Times.{digits, z_text, to_minute, IsStrictMoment, IsStrictFraction};
ghost use Rattle.x690.specs.Times.{IsStrictUtcText, IsStrictGeneralizedText};
ghost use Rattle.x690.specs.declared.times.Moment.{Moment};

use super::reading::{four_digits, is_z, start, two_digits};
use crate::sets::{CharacterSet, all_in};

/// The ten digits.
struct Digits;

impl CharacterSet for Digits {
    ghost in_set = { is_ascii_digit };

    ghost ascii = { digits_ascii };

    #[inline(always)]
    fn has(octet: u8) -> bool {
        octet.is_ascii_digit()
    }
}

/// What follows the month, day, hour, minute and second in front, where these are of a time that can be.
fn behind_second(text: &[u8]) -> Option<&[u8]>
    ensures some { IfSome result (λ rest. (m : Moment) × IsStrictMoment m ×
        (text.now ≡ to_minute m ++ digits 2 m.second ++ rest.now)) }
    ensures only { (m : Moment) (rest : List ℕ) → IsStrictMoment m
        → text.now ≡ to_minute m ++ digits 2 m.second ++ rest
        → IsSomeAnd result (λ found. found.now ≡ rest) }
{
    let (start, rest) = start(0, text)?;
    let (_, rest) = two_digits(rest, 59)?;
    if start.month == 0 || start.day == 0 {
        return None;
    }
    Some(rest)
}

/// Whether the text is digits, the last of which is not 0, and then the letter Z.
fn are_strict_digits(text: &[u8]) -> bool
    ensures { IsTrue result ↔ ((digits : List ℕ) × (last : ℕ) × AllIn is_ascii_digit digits ×
        (49 ≤ last) × (last ≤ 57) × (text.now ≡ digits ++ last ∷ z_text)) }
{
    let Some((zone, before)) = text.split_last() else {
        return false;
    };
    let Some((last, digits)) = before.split_last() else {
        return false;
    };
    if *zone != b'Z' || *last < b'1' || *last > b'9' {
        return false;
    }
    all_in::<Digits>(digits)
}

/// Whether the text is a strict fraction and the letter Z.
fn is_strict_end(text: &[u8]) -> bool
    ensures { IsTrue result ↔
        ((fraction : List ℕ) × IsStrictFraction fraction × (text.now ≡ fraction ++ z_text)) }
{
    match text.split_first() {
        Some((b'.', digits)) => are_strict_digits(digits),
        _ => is_z(text),
    }
}

/// Whether the octets are the strict text of a UTCTime (X.690 11.8).
pub fn is_strict_utc_text(text: &[u8]) -> bool
    ensures { IsTrue result ↔ IsStrictUtcText text.now }
{
    let Some((_, rest)) = two_digits(text, 99) else {
        return false;
    };
    match behind_second(rest) {
        Some(end) => is_z(end),
        None => false,
    }
}

/// Whether the octets are the strict text of a GeneralizedTime, whose fraction has any number of digits (X.690 11.7).
pub fn is_strict_generalized_text(text: &[u8]) -> bool
    ensures { IsTrue result ↔ IsStrictGeneralizedText text.now }
{
    let Some((_, rest)) = four_digits(text) else {
        return false;
    };
    match behind_second(rest) {
        Some(end) => is_strict_end(end),
        None => false,
    }
}
