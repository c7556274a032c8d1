//! The strict texts of times (X.690 11.7, 11.8).
ghost use Rattle.std.specs.Prelude.{ℕ, ◌≡◌, ◌+◌, ◌/◌, ◌%◌, ◌<◌, ◌≤◌, ◌↔◌, ◌++◌, List, [], length, take, IsTrue};
ghost use Rattle.std.specs.Prelude.{IsSome, IfSome, Some};
ghost use Rattle.std.specs.List.{list_all};
ghost use Rattle.std.specs.Int.{is_in_range};
ghost use Rattle.x690.specs.Octets.{IsOctets};
ghost use Rattle.x690.specs.Times.{SaysUtcTime, SaysGeneralizedTime, z_text, fraction_text, utc_time_text};
ghost use Rattle.x690.specs.Times.{generalized_time_text, EndsInZ, HasComma, HasDigitBefore, HasPoint, FitsText};
ghost use Rattle.x690.specs.Times.{FitsUtcTime, MostMilliseconds};
ghost use Rattle.x690.specs.Times.{FitsGeneralizedTime, IsStrictUtcTime, IsStrictGeneralizedTime};
ghost use Rattle.x690.specs.declared.times.Moment.{Moment};

use super::{Moment, TimeZone};
use std::marker::Model;

/// A strict text says the time of which it is the text, and no other strict time has it (X.690 11.7, 11.8).
pub fn strict_texts_read_back()
    ensures utc { (m : Moment) → IsStrictUtcTime m → SaysUtcTime (utc_time_text m) m }
    ensures generalized { (m : Moment) → IsStrictGeneralizedTime m →
        SaysGeneralizedTime (generalized_time_text m) m }
    ensures utc_alone { (m n : Moment)
        → IsStrictUtcTime m
        → IsStrictUtcTime n
        → utc_time_text m ≡ utc_time_text n
        → m ≡ n }
    ensures generalized_alone { (m n : Moment)
        → IsStrictGeneralizedTime m
        → IsStrictGeneralizedTime n
        → generalized_time_text m ≡ generalized_time_text n
        → m ≡ n }
    ensures fits { (m : Moment) → IsStrictUtcTime m → FitsUtcTime m }
    ensures fits_generalized { (m : Moment) → IsStrictGeneralizedTime m → FitsGeneralizedTime m }
{}

/// Strict texts have octets from the space to 7f alone: 13 of a UTCTime, and 15 to 19 of a GeneralizedTime
/// (X.690 11.7, 11.8).
pub fn strict_texts_are_short()
    ensures utc { (m : Moment) → IsTrue (list_all (is_in_range 0x20 0x7f) (utc_time_text m)) }
    ensures generalized { (m : Moment) →
        IsTrue (list_all (is_in_range 0x20 0x7f) (generalized_time_text m)) }
    ensures utc_octets { (m : Moment) → IsOctets (utc_time_text m) }
    ensures generalized_octets { (m : Moment) → IsOctets (generalized_time_text m) }
    ensures utc_length { (m : Moment) → length (utc_time_text m) ≡ 13 }
    ensures generalized_length { (m : Moment) → MostMilliseconds 999 m.millisecond →
        (15 ≤ length (generalized_time_text m)) × (length (generalized_time_text m) ≤ 19) }
{}

/// The strict text of a GeneralizedTime ends in Z, and has no comma (X.690 11.7.1, 11.7.4).
pub fn generalized_texts_end_in_z()
    ensures zone { (m : Moment) → EndsInZ (generalized_time_text m) }
    ensures point { (m : Moment) → ¬ HasComma (generalized_time_text m) }
{}

/// A fraction of 1 to 999 milliseconds ends in a digit from 1 to 9, and 0 milliseconds have none (X.690 11.7.3). So
/// `.300` is the fraction of no time, since its last octet is 30.
pub fn fractions_omit_zeros()
    ensures fraction { (n : ℕ) → 0 < n → n ≤ 999 → HasDigitBefore 0 (fraction_text (Some n)) }
    ensures none { fraction_text (Some 0) ≡ [] }
    ensures text { (m : Moment) → MostMilliseconds 999 m.millisecond
        → HasPoint (generalized_time_text m)
        → HasDigitBefore 1 (generalized_time_text m) }
{}

/// The strict text of a GeneralizedTime.
#[derive(Debug, Drop)]
pub struct TimeText {
    octets: [u8; 19],
    len: usize,
}

impl Model for TimeText {
    ghost Value = { List ℕ };

    ghost view = { λ t. take t.len t.octets };

    ghost invariant = { λ t. t.len ≤ 19 };
}

impl TimeText {
    /// The octets of the text.
    pub fn as_bytes(&self) -> &[u8]
        ensures { result.now ≡ self.now }
    {
        &self.octets[..self.len]
    }
}

/// The first of two digits.
#[inline(always)]
fn tens(n: u8) -> u8
    requires { n ≤ 99 }
    ensures { result ≡ 48 + n / 10 % 10 }
{
    b'0' + n / 10
}

/// The last digit.
#[inline(always)]
fn ones(n: u8) -> u8
    ensures { result ≡ 48 + n % 10 }
{
    b'0' + n % 10
}

/// Whether the fields fit their places in the text.
#[inline(always)]
fn fits(m: &Moment, greatest_year: u32) -> bool
    ensures { IsTrue result ↔ FitsText greatest_year m.now }
{
    let milliseconds = match m.millisecond {
        Some(n) => n <= 999,
        None => true,
    };
    let zone = match m.zone {
        TimeZone::Z | TimeZone::Undefined => true,
        TimeZone::Offset(_, _) => false,
    };
    m.year <= greatest_year
        && m.month <= 99
        && m.day <= 99
        && m.hour <= 99
        && m.minute <= 99
        && m.second <= 99
        && milliseconds
        && zone
}

/// The strict text of a UTCTime, where the fields fit it (X.690 11.8).
pub fn write_utc_time(m: &Moment) -> Option<[u8; 13]>
    ensures text { IfSome result (λ octets. octets ≡ utc_time_text m.now) }
    ensures exact { IsSome result ↔ FitsUtcTime m.now }
{
    if !fits(m, 99) {
        return None;
    }
    let year = m.year as u8;
    Some([
        tens(year),
        ones(year),
        tens(m.month),
        ones(m.month),
        tens(m.day),
        ones(m.day),
        tens(m.hour),
        ones(m.hour),
        tens(m.minute),
        ones(m.minute),
        tens(m.second),
        ones(m.second),
        b'Z',
    ])
}

/// What stands behind the seconds, and how many octets it has; more of them fill the array.
#[inline(always)]
fn fraction_and_zone(millisecond: Option<u16>) -> ([u8; 5], usize)
    requires { MostMilliseconds 999 millisecond }
    ensures text { take result.1 result.0 ≡ fraction_text millisecond ++ z_text }
    ensures few { result.1 ≤ 5 }
{
    let n = millisecond.unwrap_or(0);
    if n == 0 {
        return ([b'Z'; 5], 1);
    }
    let (first, last) = ((n / 100) as u8, (n % 100) as u8);
    if last == 0 {
        return ([b'.', ones(first), b'Z', b'Z', b'Z'], 3);
    }
    if last % 10 == 0 {
        return ([b'.', ones(first), tens(last), b'Z', b'Z'], 4);
    }
    ([b'.', ones(first), tens(last), ones(last), b'Z'], 5)
}

/// The strict text of a GeneralizedTime, where the fields fit it (X.690 11.7).
pub fn write_generalized_time(m: &Moment) -> Option<TimeText>
    ensures text { IfSome result (λ text. text ≡ generalized_time_text m.now) }
    ensures exact { IsSome result ↔ FitsGeneralizedTime m.now }
{
    if !fits(m, 9999) {
        return None;
    }
    let (century, year) = ((m.year / 100) as u8, (m.year % 100) as u8);
    let ([a, b, c, d, e], count) = fraction_and_zone(m.millisecond);
    let octets = [
        tens(century),
        ones(century),
        tens(year),
        ones(year),
        tens(m.month),
        ones(m.month),
        tens(m.day),
        ones(m.day),
        tens(m.hour),
        ones(m.hour),
        tens(m.minute),
        ones(m.minute),
        tens(m.second),
        ones(m.second),
        a,
        b,
        c,
        d,
        e,
    ];
    Some(TimeText {
        octets,
        len: 14 + count,
    })
}
