//! The reading of the texts of times (X.690 8.25).
ghost use Rattle.std.specs.Prelude.{◌≡◌, ◌≢◌, ◌<◌, ◌≤◌, ◌∷◌, ◌++◌, ◌⊎◌, ◌^◌, ℕ, List, ◌+◌, ◌-◌, ◌*◌, IsTrue, ◌↔◌};
ghost use Rattle.std.specs.Prelude.{IsNone, IsSomeAnd, IfSome, Option, None};
ghost use Rattle.x690.specs.Sets.{AllIn, is_visible};
ghost use Rattle.x690.specs.Times.{digits, z_text, to_minute, InRange, east, west, SaysZone, SaysZoneOrNone};
ghost use Rattle.x690.specs.Times.{SaysFraction, SaysUtcEnd, SaysGeneralizedEnd, SaysUtcTime, SaysGeneralizedTime};
ghost use Rattle.x690.specs.Times.{MostMilliseconds, MostOffset};
ghost use Rattle.x690.specs.declared.times.Moment.{Moment};
ghost use Rattle.x690.specs.declared.times.TimeZone.{TimeZone};

use super::{Moment, TimeZone};

/// A text says one time (X.690 8.25).
pub fn texts_say_one_time()
    ensures utc { (text : List ℕ) (m n : Moment) →
        SaysUtcTime text m → SaysUtcTime text n → m ≡ n }
    ensures generalized { (text : List ℕ) (m n : Moment) →
        SaysGeneralizedTime text m → SaysGeneralizedTime text n → m ≡ n }
{}

/// The fields that a text says are in range (X.690 8.25). The year is as its digits, milliseconds are at most 999, and
/// an offset is at most 99 hours and 99 minutes.
pub fn said_times_are_in_range()
    ensures utc { (text : List ℕ) (m : Moment) → SaysUtcTime text m →
        InRange m × (m.year ≤ 99) × (m.millisecond ≡ None) × MostOffset 99 m.zone }
    ensures generalized { (text : List ℕ) (m : Moment) → SaysGeneralizedTime text m →
        InRange m × (m.year ≤ 9999) × MostMilliseconds 999 m.millisecond × MostOffset 99 m.zone }
{}

/// A text that says a time has octets from 20 to 7f alone.
pub fn said_times_are_visible()
    ensures utc { (text : List ℕ) (m : Moment) → SaysUtcTime text m → AllIn is_visible text }
    ensures generalized { (text : List ℕ) (m : Moment) →
        SaysGeneralizedTime text m → AllIn is_visible text }
{}

/// The digit in front, and what follows it.
#[inline(always)]
fn digit(text: &[u8]) -> Option<(u8, &[u8])>
    ensures some { IfSome result
        (λ found. (found.0 < 10) × (text.now ≡ digits 1 found.0 ++ found.1.now)) }
    ensures none { IsNone result →
        (n : ℕ) (rest : List ℕ) → n < 10 → text.now ≢ digits 1 n ++ rest }
{
    let [first, rest @ ..] = text else {
        return None;
    };
    let digit = first.wrapping_sub(b'0');
    if digit < 10 {
        Some((digit, rest))
    } else {
        None
    }
}

/// The number of the two digits in front, where it is at most so much, and what follows them.
#[inline(always)]
pub(super) fn two_digits(text: &[u8], most: u8) -> Option<(u8, &[u8])>
    requires { most ≤ 99 }
    ensures some { IfSome result
        (λ found. (found.0 ≤ most) × (text.now ≡ digits 2 found.0 ++ found.1.now)) }
    ensures none { IsNone result →
        (n : ℕ) (rest : List ℕ) → n ≤ most → text.now ≢ digits 2 n ++ rest }
{
    let [tens, units, rest @ ..] = text else {
        return None;
    };
    let (tens, units) = (tens.wrapping_sub(b'0'), units.wrapping_sub(b'0'));
    if tens.max(units) >= 10 {
        return None;
    }
    let number = 10 * tens + units;
    if number <= most {
        Some((number, rest))
    } else {
        None
    }
}

/// The number of the four digits in front, and what follows them.
#[inline(always)]
pub(super) fn four_digits(text: &[u8]) -> Option<(u32, &[u8])>
    ensures some { IfSome result
        (λ found. (found.0 < 10 ^ 4) × (text.now ≡ digits 4 found.0 ++ found.1.now)) }
    ensures none { IsNone result →
        (n : ℕ) (rest : List ℕ) → n < 10 ^ 4 → text.now ≢ digits 4 n ++ rest }
{
    let (first_two, rest) = two_digits(text, 99)?;
    let (last_two, rest) = two_digits(rest, 99)?;
    Some((100 * u32::from(first_two) + u32::from(last_two), rest))
}

/// A time of this year to its minute, whose text is in front, and what follows it.
#[inline(always)]
pub(super) fn start(year: u32, text: &[u8]) -> Option<(Moment, &[u8])>
    ensures year { IfSome result (λ found. found.0.year ≡ year) }
    ensures range { IfSome result (λ found. InRange found.0) }
    ensures some { IfSome result (λ found. text.now ≡ to_minute found.0 ++ found.1.now) }
    ensures none { IsNone result →
        (m : Moment) (rest : List ℕ) → InRange m → text.now ≢ to_minute m ++ rest }
{
    let (month, rest) = two_digits(text, 12)?;
    let (day, rest) = two_digits(rest, 31)?;
    let (hour, rest) = two_digits(rest, 23)?;
    let (minute, rest) = two_digits(rest, 59)?;
    let m = Moment {
        year,
        month,
        day,
        hour,
        minute,
        second: 0,
        millisecond: None,
        zone: TimeZone::Z,
    };
    Some((m, rest))
}

/// Whether the text is the letter Z alone.
#[inline(always)]
pub(super) fn is_z(text: &[u8]) -> bool
    ensures { IsTrue result ↔ (text.now ≡ z_text) }
{
    matches!(text, [b'Z'])
}

/// The zone so many hours and minutes to the east.
#[inline(always)]
fn east_zone(hours: u8, minutes: u8) -> TimeZone
    requires hours { hours < 100 }
    requires minutes { minutes < 100 }
    ensures { result ≡ east hours minutes }
{
    TimeZone::Offset(hours as i8, minutes as i8)
}

/// The zone so many hours and minutes to the west.
#[inline(always)]
fn west_zone(hours: u8, minutes: u8) -> TimeZone
    requires hours { hours < 100 }
    requires minutes { minutes < 100 }
    ensures { result ≡ west hours minutes }
{
    if hours > 0 {
        TimeZone::Offset(-(hours as i8), minutes as i8)
    } else {
        TimeZone::Offset(0, -(minutes as i8))
    }
}

/// The hours and minutes whose four digits the text is.
#[inline(always)]
fn hours_and_minutes(text: &[u8]) -> Option<(u8, u8)>
    ensures hours { IfSome result (λ found. found.0 < 100) }
    ensures minutes { IfSome result (λ found. found.1 < 100) }
    ensures some { IfSome result (λ found. text.now ≡ digits 2 found.0 ++ digits 2 found.1) }
    ensures none { IsNone result → (hours minutes : ℕ) → hours < 100 → minutes < 100
        → text.now ≢ digits 2 hours ++ digits 2 minutes }
{
    let (hours, rest) = two_digits(text, 99)?;
    let (minutes, rest) = two_digits(rest, 99)?;
    if rest.is_empty() {
        Some((hours, minutes))
    } else {
        None
    }
}

/// The zone that the text says.
#[inline(always)]
fn zone(text: &[u8]) -> Option<TimeZone>
    ensures says { IfSome result (λ found. SaysZone text.now found) }
    ensures none { IsNone result → (zone : TimeZone) → ¬ SaysZone text.now zone }
{
    if is_z(text) {
        return Some(TimeZone::Z);
    }
    let [sign, rest @ ..] = text else {
        return None;
    };
    let (hours, minutes) = hours_and_minutes(rest)?;
    match sign {
        b'+' => Some(east_zone(hours, minutes)),
        b'-' => Some(west_zone(hours, minutes)),
        _ => None,
    }
}

/// The zone that the text says, which may be none that is defined.
#[inline(always)]
fn zone_or_none(text: &[u8]) -> Option<TimeZone>
    ensures says { IfSome result (λ found. SaysZoneOrNone text.now found) }
    ensures none { IsNone result → (zone : TimeZone) → ¬ SaysZoneOrNone text.now zone }
{
    if text.is_empty() {
        return Some(TimeZone::Undefined);
    }
    zone(text)
}

/// The milliseconds that one to three digits in front say behind a point, and what follows them. Before a zone no other
/// digits do.
#[inline(always)]
fn milliseconds(text: &[u8]) -> Option<(u16, &[u8])>
    ensures some { IfSome result (λ found. (count n : ℕ) × (count < 3) × (n < 10 ^ (1 + count))
        × (text.now ≡ digits (1 + count) n ++ found.1.now)
        × (found.0 ≡ n * 10 ^ (2 - count))) }
    ensures only { (count n : ℕ) (zone : List ℕ) (said : TimeZone)
        → count < 3 → n < 10 ^ (1 + count) → SaysZoneOrNone zone said
        → text.now ≡ digits (1 + count) n ++ zone
        → IsSomeAnd result (λ found. (found.0 ≡ n * 10 ^ (2 - count)) × (found.1.now ≡ zone)) }
{
    let (hundreds, rest) = digit(text)?;
    let hundreds = 100 * u16::from(hundreds);
    let Some((tens, after_tens)) = digit(rest) else {
        return Some((hundreds, rest));
    };
    let tens = hundreds + 10 * u16::from(tens);
    let Some((units, after_units)) = digit(after_tens) else {
        return Some((tens, after_tens));
    };
    Some((tens + u16::from(units), after_units))
}

/// What follows the point or the comma in front.
#[inline(always)]
fn after_point(text: &[u8]) -> Option<&[u8]>
    ensures some { IfSome result
        (λ rest. (point : ℕ) × ((point ≡ 46) ⊎ (point ≡ 44)) × (text.now ≡ point ∷ rest.now)) }
    ensures none { IsNone result → (point : ℕ) (rest : List ℕ) → (point ≡ 46) ⊎ (point ≡ 44)
        → text.now ≢ point ∷ rest }
{
    match text {
        [b'.' | b',', rest @ ..] => Some(rest),
        _ => None,
    }
}

/// The milliseconds of the fraction in front, which may be none, and what follows it. Before a zone stands no other
/// fraction.
#[inline(always)]
fn fraction(text: &[u8]) -> Option<(Option<u16>, &[u8])>
    ensures some { IfSome result (λ found. (fraction : List ℕ) × SaysFraction fraction found.0
        × (text.now ≡ fraction ++ found.1.now)) }
    ensures only { (fraction zone : List ℕ) (milliseconds : Option ℕ) (said : TimeZone)
        → SaysFraction fraction milliseconds → SaysZoneOrNone zone said
        → text.now ≡ fraction ++ zone
        → IsSomeAnd result (λ found. (found.0 ≡ milliseconds) × (found.1.now ≡ zone)) }
{
    let Some(digits) = after_point(text) else {
        return Some((None, text));
    };
    let (milliseconds, rest) = milliseconds(digits)?;
    Some((Some(milliseconds), rest))
}

/// The time that begins so and whose text ends so, if it is the end of a UTCTime.
#[inline(always)]
fn utc_end(start: Moment, text: &[u8]) -> Option<Moment>
    ensures kept { IfSome result (λ m. m ≡
        record start { second = m.second; millisecond = m.millisecond; zone = m.zone }) }
    ensures range { IfSome result (λ m. m.second ≤ 59) }
    ensures says { IfSome result (λ m. SaysUtcEnd text.now m) }
    ensures none { IsNone result → (m : Moment) → m.second ≤ 59 → ¬ SaysUtcEnd text.now m }
{
    let millisecond = None;
    if is_z(text) {
        let (second, zone) = (0, TimeZone::Z);
        return Some(Moment {
            second,
            millisecond,
            zone,
            ..start
        });
    }
    let (second, rest) = two_digits(text, 59)?;
    let zone = zone(rest)?;
    Some(Moment {
        second,
        millisecond,
        zone,
        ..start
    })
}

/// The time that begins so and whose text ends so, if it is the end of a GeneralizedTime.
#[inline(always)]
fn generalized_end(start: Moment, text: &[u8]) -> Option<Moment>
    ensures kept { IfSome result (λ m. m ≡
        record start { second = m.second; millisecond = m.millisecond; zone = m.zone }) }
    ensures range { IfSome result (λ m. m.second ≤ 59) }
    ensures says { IfSome result (λ m. SaysGeneralizedEnd text.now m) }
    ensures none { IsNone result →
        (m : Moment) → m.second ≤ 59 → ¬ SaysGeneralizedEnd text.now m }
{
    if is_z(text) {
        let (second, millisecond, zone) = (0, None, TimeZone::Z);
        return Some(Moment {
            second,
            millisecond,
            zone,
            ..start
        });
    }
    let (second, rest) = two_digits(text, 59)?;
    let (millisecond, rest) = fraction(rest)?;
    let zone = zone_or_none(rest)?;
    Some(Moment {
        second,
        millisecond,
        zone,
        ..start
    })
}

/// The fields that the text of a UTCTime says (X.690 8.25). It takes no text that says none.
#[inline(always)]
pub fn read_utc_time(text: &[u8]) -> Option<Moment>
    ensures says { IfSome result (λ m. SaysUtcTime text.now m) }
    ensures none { IsNone result → (m : Moment) → ¬ SaysUtcTime text.now m }
{
    let (year, rest) = two_digits(text, 99)?;
    let (start, rest) = start(u32::from(year), rest)?;
    utc_end(start, rest)
}

/// The fields that the text of a GeneralizedTime says (X.690 8.25). It takes no text that says none.
#[inline(always)]
pub fn read_generalized_time(text: &[u8]) -> Option<Moment>
    ensures says { IfSome result (λ m. SaysGeneralizedTime text.now m) }
    ensures none { IsNone result → (m : Moment) → ¬ SaysGeneralizedTime text.now m }
{
    let (year, rest) = four_digits(text)?;
    let (start, rest) = start(year, rest)?;
    generalized_end(start, rest)
}
