//! Times (X.690 8.25, 8.26, 11.7, 11.8; X.680 46, 47).
ghost use Rattle.std.specs.Prelude.{ℕ, List, ◌≡◌, ◌≤◌, ◌<◌, ◌+◌, ◌/◌, ◌%◌, ◌∷◌, ◌++◌, ◌⊎◌, IfSome, IfNone};
ghost use Rattle.std.specs.Prelude.{IsSomeAnd, IsTrue, ◌↔◌};
ghost use Rattle.std.specs.Char.{is_ascii_digit};
ghost use Rattle.x690.specs.Sets.{AllIn};
ghost use Rattle.x690.specs.Laws.Times.Digits.{HasNoDigit};
ghost use Rattle.asn1_schema.specs.declared.schema.TimeKind.TheVariants as times;
ghost use Rattle.asn1_schema.specs.Reading.{rules_of};
ghost use Rattle.asn1_schema.specs.Rules.{IsStrictTime, IsTime};
ghost use Rattle.asn1_schema.specs.Joined.{said};
ghost use Rattle.asn1_schema.specs.Moments.{Then, ThenHour, IsEnd, IsRest, IsMinutes, IsZoneText, IsLocal};
ghost use Rattle.asn1_schema.specs.Moments.{IsDigitsBefore, IsFractionBefore};
ghost use Rattle.asn1_schema.specs.Moments.{IsFractionEnd, IsSecondEnd, IsMinuteEnd, IsUtcEnd, IsMomentText};

use crate::coding::Coding;
use crate::joined::{Joined, next};
use crate::schema::TimeKind;
use x690::times::strict_texts::{is_strict_generalized_text, is_strict_utc_text};

/// The number that an octet is as a digit.
fn digit_of(octet: u8) -> Option<u8>
    ensures some { IfSome result (λ d. (d < 10) × (octet ≡ 48 + d)) }
    ensures none { IfNone result ((d : ℕ) → d < 10 → octet ≡ 48 + d → ⊥) }
{
    if octet < 48 || octet > 57 {
        return None;
    }
    Some(octet - 48)
}

/// The number that two octets are as digits.
fn number_of(tens: u8, units: u8) -> Option<u8>
    ensures some { IfSome result (λ n. (n ≤ 99) × (tens ≡ 48 + n / 10 % 10) × (units ≡ 48 + n % 10)) }
    ensures none { IfNone result ((n : ℕ) → tens ≡ 48 + n / 10 % 10 → units ≡ 48 + n % 10 → ⊥) }
{
    let Some(high) = digit_of(tens) else {
        return None;
    };
    match digit_of(units) {
        Some(low) => Some(10 * high + low),
        None => None,
    }
}

/// The first two octets, and those behind them.
fn first_two<'t, 'a>(text: Joined<'t, 'a>) -> Option<(u8, u8, Joined<'t, 'a>)>
    ensures some { IfSome result (λ x. said text.entry ≡ x.0 ∷ x.1 ∷ said x.2) }
    ensures none { IfNone result
        ((a b : ℕ) (rest : List ℕ) → said text.entry ≡ a ∷ b ∷ rest → ⊥) }
{
    let Some((first, behind)) = next(text) else {
        return None;
    };
    match next(behind) {
        Some((second, rest)) => Some((first, second, rest)),
        None => None,
    }
}

/// What follows two digits in front, where their number is at most so much.
fn two_digits<'t, 'a>(text: Joined<'t, 'a>, most: u8) -> Option<Joined<'t, 'a>>
    requires { most ≤ 99 }
    ensures some { IfSome result (λ rest. Then most (IsRest (said rest)) (said text.entry)) }
    ensures only { (rest : List ℕ) → Then most (IsRest rest) (said text.entry) →
        IsSomeAnd result (λ found. said found ≡ rest) }
{
    let Some((tens, units, rest)) = first_two(text) else {
        return None;
    };
    match number_of(tens, units) {
        Some(n) => {
            if n > most {
                return None;
            }
            Some(rest)
        }
        None => None,
    }
}

/// What follows month and day in front.
fn behind_day<'t, 'a>(text: Joined<'t, 'a>) -> Option<Joined<'t, 'a>>
    ensures some { IfSome result (λ rest. Then 12 (Then 31 (IsRest (said rest))) (said text.entry)) }
    ensures only { (rest : List ℕ) → Then 12 (Then 31 (IsRest rest)) (said text.entry) →
        IsSomeAnd result (λ found. said found ≡ rest) }
{
    match two_digits(text, 12) {
        Some(day) => two_digits(day, 31),
        None => None,
    }
}

/// What follows month, day and hour in front.
fn behind_hour<'t, 'a>(text: Joined<'t, 'a>) -> Option<Joined<'t, 'a>>
    ensures some { IfSome result (λ rest. ThenHour (IsRest (said rest)) (said text.entry)) }
    ensures only { (rest : List ℕ) → ThenHour (IsRest rest) (said text.entry) →
        IsSomeAnd result (λ found. said found ≡ rest) }
{
    match behind_day(text) {
        Some(hour) => two_digits(hour, 23),
        None => None,
    }
}

/// Whether nothing is left.
fn is_end(text: Joined<'_, '_>) -> bool
    ensures { IsTrue result ↔ IsEnd (said text.entry) }
{
    next(text).is_none()
}

/// Whether two digits are left; or nothing, where that is allowed.
fn is_minutes(text: Joined<'_, '_>, short: bool) -> bool
    ensures { IsTrue result ↔ IsMinutes short (said text.entry) }
{
    if short && is_end(text) {
        return true;
    }
    match two_digits(text, 99) {
        Some(rest) => is_end(rest),
        None => false,
    }
}

/// Whether hours of a zone are left, and its minutes.
fn is_offset(text: Joined<'_, '_>, short: bool) -> bool
    ensures { IsTrue result ↔ Then 99 (IsMinutes short) (said text.entry) }
{
    match two_digits(text, 99) {
        Some(rest) => is_minutes(rest, short),
        None => false,
    }
}

/// Whether a zone is left, whose minutes may be left out where that is allowed.
fn is_zone(text: Joined<'_, '_>, short: bool) -> bool
    ensures { IsTrue result ↔ IsZoneText short (said text.entry) }
{
    match next(text) {
        Some((b'Z', rest)) => is_end(rest),
        Some((b'+', rest)) => is_offset(rest, short),
        Some((b'-', rest)) => is_offset(rest, short),
        _ => false,
    }
}

/// Whether nothing or a zone is left.
fn is_local(text: Joined<'_, '_>) -> bool
    ensures { IsTrue result ↔ IsLocal (said text.entry) }
{
    is_end(text) || is_zone(text, true)
}

/// What follows the digits in front.
fn behind_digits<'t, 'a>(text: Joined<'t, 'a>) -> Joined<'t, 'a>
    ensures digits { (digits : List ℕ) × AllIn is_ascii_digit digits × (said text.entry ≡ digits ++ said result) }
    ensures all { HasNoDigit (said result) }
{
    let mut rest = text;
    loop {
        let Some((octet, others)) = next(rest) else {
            return rest;
        };
        if !octet.is_ascii_digit() {
            return rest;
        }
        rest = others;
    }
}

/// What follows the digits in front, of which there is one at least.
fn behind_some_digits<'t, 'a>(text: Joined<'t, 'a>) -> Option<Joined<'t, 'a>>
    ensures some { IfSome result (λ rest. IsDigitsBefore (said text.entry) (said rest)) }
    ensures only { (rest : List ℕ) → HasNoDigit rest → IsDigitsBefore (said text.entry) rest →
        IsSomeAnd result (λ found. said found ≡ rest) }
{
    match next(text) {
        Some((octet, others)) => {
            if !octet.is_ascii_digit() {
                return None;
            }
            Some(behind_digits(others))
        }
        None => None,
    }
}

/// Whether the octet is a point or a comma.
fn is_point(octet: u8) -> bool
    ensures { IsTrue result ↔ ((octet ≡ 46) ⊎ (octet ≡ 44)) }
{
    octet == b'.' || octet == b','
}

/// What follows the fraction in front, which may be none. There is a digit behind a point or a comma.
fn behind_fraction<'t, 'a>(text: Joined<'t, 'a>) -> Option<Joined<'t, 'a>>
    ensures some { IfSome result (λ rest. IsFractionBefore (said text.entry) (said rest)) }
    ensures only { (zone : List ℕ) → IsLocal zone → IsFractionBefore (said text.entry) zone →
        IsSomeAnd result (λ found. said found ≡ zone) }
{
    match next(text) {
        Some((point, digits)) => {
            if !is_point(point) {
                return Some(text);
            }
            behind_some_digits(digits)
        }
        None => Some(text),
    }
}

/// Whether a fraction and a zone are left, each of which may be none.
fn is_fraction_end(text: Joined<'_, '_>) -> bool
    ensures { IsTrue result ↔ IsFractionEnd (said text.entry) }
{
    match behind_fraction(text) {
        Some(zone) => is_local(zone),
        None => false,
    }
}

/// Whether that is left behind seconds, which may be left out.
fn is_second_end(text: Joined<'_, '_>) -> bool
    ensures { IsTrue result ↔ IsSecondEnd (said text.entry) }
{
    if is_fraction_end(text) {
        return true;
    }
    match two_digits(text, 59) {
        Some(rest) => is_fraction_end(rest),
        None => false,
    }
}

/// Whether that is left behind minutes, which may be left out.
fn is_minute_end(text: Joined<'_, '_>) -> bool
    ensures { IsTrue result ↔ IsMinuteEnd (said text.entry) }
{
    if is_fraction_end(text) {
        return true;
    }
    match two_digits(text, 59) {
        Some(rest) => is_second_end(rest),
        None => false,
    }
}

/// Whether a zone is left behind seconds, which may be left out.
fn is_utc_end(text: Joined<'_, '_>) -> bool
    ensures { IsTrue result ↔ IsUtcEnd (said text.entry) }
{
    if is_zone(text, false) {
        return true;
    }
    match two_digits(text, 59) {
        Some(rest) => is_zone(rest, false),
        None => false,
    }
}

/// Whether the minutes of a UTCTime are left, and what stands behind them.
fn is_utc_minute(text: Joined<'_, '_>) -> bool
    ensures { IsTrue result ↔ Then 59 IsUtcEnd (said text.entry) }
{
    match two_digits(text, 59) {
        Some(rest) => is_utc_end(rest),
        None => false,
    }
}

/// Whether a UTCTime is left behind its year.
fn is_utc_day(text: Joined<'_, '_>) -> bool
    ensures { IsTrue result ↔ ThenHour (Then 59 IsUtcEnd) (said text.entry) }
{
    match behind_hour(text) {
        Some(rest) => is_utc_minute(rest),
        None => false,
    }
}

/// Whether a GeneralizedTime is left behind its year.
fn is_generalized_day(text: Joined<'_, '_>) -> bool
    ensures { IsTrue result ↔ ThenHour IsMinuteEnd (said text.entry) }
{
    match behind_hour(text) {
        Some(rest) => is_minute_end(rest),
        None => false,
    }
}

/// Whether a GeneralizedTime is left behind the first two digits of its year.
fn is_generalized_year(text: Joined<'_, '_>) -> bool
    ensures { IsTrue result ↔ Then 99 (ThenHour IsMinuteEnd) (said text.entry) }
{
    match two_digits(text, 99) {
        Some(rest) => is_generalized_day(rest),
        None => false,
    }
}

/// Whether the text is that of a GeneralizedTime.
fn is_generalized(text: Joined<'_, '_>) -> bool
    ensures { IsTrue result ↔ IsMomentText times.Generalized (said text.entry) }
{
    match two_digits(text, 99) {
        Some(rest) => is_generalized_year(rest),
        None => false,
    }
}

/// Whether the text is that of a UTCTime.
fn is_utc(text: Joined<'_, '_>) -> bool
    ensures { IsTrue result ↔ IsMomentText times.Utc (said text.entry) }
{
    match two_digits(text, 99) {
        Some(rest) => is_utc_day(rest),
        None => false,
    }
}

/// Whether the text is that of a time by BER (X.680 46, 47).
pub(crate) fn is_time_text(kind: TimeKind, text: Joined<'_, '_>) -> bool
    ensures { IsTrue result ↔ IsTime kind (said text.entry) }
{
    match kind {
        TimeKind::Utc => is_utc(text),
        TimeKind::Generalized => is_generalized(text),
    }
}

/// Whether the text is that of a strict time.
fn is_strict_time(kind: TimeKind, content: &[u8]) -> bool
    ensures { IsTrue result ↔ IsStrictTime kind content.now }
{
    match kind {
        TimeKind::Utc => is_strict_utc_text(content),
        TimeKind::Generalized => is_strict_generalized_text(content),
    }
}

/// Whether the text is that of a time by these rules.
pub(crate) fn is_time(coding: Coding, kind: TimeKind, content: &[u8]) -> bool
    ensures { IsTrue result ↔ (rules_of coding).Time kind content.now }
{
    match coding {
        Coding::Der => is_strict_time(kind, content),
        Coding::Ber(_) => is_time_text(kind, Joined::of_octets(content)),
    }
}
