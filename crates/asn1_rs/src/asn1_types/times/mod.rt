//! Times (X.690 8.25, 11.7, 11.8).
ghost use Rattle.std.specs.Prelude.{◌≡◌, ◌<◌, ◌≤◌, ◌^◌, ◌↔◌, length, IsTrue, Some};
ghost use Rattle.x690.specs.Times.{IsStrictMoment, MostMilliseconds, moment_text};
ghost use Rattle.asn1_rs.specs.Checks.{but_text};
ghost use Rattle.asn1_rs.specs.Leaf.{HaveOneRefusalUpTo};
ghost use Rattle.asn1_rs.specs.Times.{moment_cmp, moment_of, IsMoment, IsZone, RefusesText, utc_time_leaf};
ghost use Rattle.asn1_rs.specs.Times.{generalized_time_leaf};
ghost use Rattle.asn1_rs.specs.Laws.TimeOrder.{times_agree, times_tie, times_total};

pub mod civil;
pub mod generalized_time;
pub mod utc_time;

use self::generalized_time::GeneralizedTime;
use self::utc_time::UtcTime;
use asn1_headers::error::Error;
use asn1_headers::tag::Tag;
use std::cmp::Ordering;
use std::fmt;
use x690::sets::{Visible, all_in};
use x690::times::text::ShownText;
use x690::times::{Moment, TimeZone};

/// The fields of a time. A caller may make any; which of them are read and written, the types of times say.
/// The year of a UTCTime is that in its century.
#[derive(Clone, Debug, Drop, PartialEq, Eq, PartialOrd)]
pub struct ASN1DateTime {
    /// The year.
    pub year: u32,
    /// The month, from 1 on.
    pub month: u8,
    /// The day of the month, from 1 on.
    pub day: u8,
    /// The hour.
    pub hour: u8,
    /// The minute.
    pub minute: u8,
    /// The second.
    pub second: u8,
    /// The milliseconds, where there are some.
    pub millisecond: Option<u16>,
    /// The zone.
    pub tz: ASN1TimeZone,
}

/// Times are in the order of their fields, from the year to the zone. A zone is the last field, so this is not the
/// order on a clock.
impl Ord for ASN1DateTime {
    ghost cmp = { λ a b. moment_cmp (moment_of a) (moment_of b) };

    ghost total = { times_total (λ t. t) };

    ghost matches_partial_cmp = { times_agree };

    ghost matches_eq = { times_tie };

    fn cmp(&self, other: &ASN1DateTime) -> Ordering {
        self.moment().cmp(&other.moment())
    }
}

/// The zone of a time.
pub type ASN1TimeZone = TimeZone;

impl ASN1DateTime {
    /// The time of these fields. None of them is judged.
    #[inline(always)]
    pub const fn new(
        year: u32,
        month: u8,
        day: u8,
        hour: u8,
        minute: u8,
        second: u8,
        millisecond: Option<u16>,
        tz: ASN1TimeZone,
    ) -> Self
        ensures year { result.year ≡ year }
        ensures month { result.month ≡ month }
        ensures day { result.day ≡ day }
        ensures hour { result.hour ≡ hour }
        ensures minute { result.minute ≡ minute }
        ensures second { result.second ≡ second }
        ensures millisecond { result.millisecond ≡ millisecond }
        ensures zone { result.tz ≡ tz }
    {
        ASN1DateTime {
            year,
            month,
            day,
            hour,
            minute,
            second,
            millisecond,
            tz,
        }
    }

    /// Whether there are such a day and such a time of day, in the zone `Z`.
    pub(crate) fn is_strict_moment(&self) -> bool
        ensures { IsTrue result ↔ IsStrictMoment (moment_of self.now) }
    {
        1 <= self.month
            && self.month <= 12
            && 1 <= self.day
            && self.day <= 31
            && self.hour <= 23
            && self.minute <= 59
            && self.second <= 59
            && matches!(self.tz, TimeZone::Z)
    }

    /// The fields, as texts of times are told of.
    #[inline(always)]
    pub(crate) const fn moment(&self) -> Moment
        ensures { result ≡ moment_of self.now }
    {
        Moment {
            year: self.year,
            month: self.month,
            day: self.day,
            hour: self.hour,
            minute: self.minute,
            second: self.second,
            millisecond: self.millisecond,
            zone: self.tz,
        }
    }
}

impl ASN1DateTime {
    /// The text that `Display` prints, whatever the fields are. It takes no memory.
    pub fn text(&self) -> ShownText
        ensures text { result ≡ moment_text (moment_of self.now) }
        ensures short { length result ≤ 43 }
    {
        self.moment().text()
    }
}

/// The fields alone: `YYYYMMDDhhmmss`, the milliseconds as a fraction without zeros at its end, and `Z`, whatever the
/// zone is.
impl fmt::Display for ASN1DateTime {
    ghost output = { λ d. Some (moment_text (moment_of d)) };

    fn fmt<W: fmt::Write>(&self, f: &mut fmt::Formatter<W>) -> fmt::Result {
        f.write_str(self.text().as_str())
    }
}

/// States of milliseconds in hand that a `u16` holds them.
fn assert_milliseconds_valid(millisecond: Option<u16>)
    ensures { MostMilliseconds 65535 millisecond }
{
    if let Some(number) = millisecond {
        let _number = number;
    }
}

/// States of a zone in hand that an `i8` holds its hours, and one its minutes.
fn assert_zone_valid(zone: ASN1TimeZone)
    ensures { IsZone zone }
{
    if let TimeZone::Offset(hours, minutes) = zone {
        let _hours = hours;
        let _minutes = minutes;
    }
}

impl ASN1DateTime {
    /// States of fields in hand that they are such as an item may hold.
    pub(crate) fn assert_fields_valid(&self)
        ensures { IsMoment (moment_of self.now) }
    {
        self.assert_numbers_valid();
        assert_milliseconds_valid(self.millisecond);
        assert_zone_valid(self.tz);
    }

    /// States of the numbers that their types hold them.
    fn assert_numbers_valid(&self)
        ensures year { self.now.year < 2 ^ 32 }
        ensures month { self.now.month < 256 }
        ensures day { self.now.day < 256 }
        ensures hour { self.now.hour < 256 }
        ensures minute { self.now.minute < 256 }
        ensures second { self.now.second < 256 }
    {
        let _year = self.year;
        let _month = self.month;
        let _day = self.day;
        let _hour = self.hour;
        let _minute = self.minute;
        let _second = self.second;
    }
}

impl From<Moment> for ASN1DateTime {
    ghost from_gives = { λ m d. moment_of d ≡ m };

    #[inline(always)]
    fn from(m: Moment) -> ASN1DateTime {
        ASN1DateTime {
            year: m.year,
            month: m.month,
            day: m.day,
            hour: m.hour,
            minute: m.minute,
            second: m.second,
            millisecond: m.millisecond,
            tz: m.zone,
        }
    }
}

/// Why contents octets say no time: an octet outside 20 to 7f, or else the text. A text that says a time has no such
/// octet, so they are looked at here alone.
fn no_time(octets: &[u8], tag: Tag) -> Error
    ensures { RefusesText tag.0 octets.now result }
{
    if all_in::<Visible>(octets) {
        tag.invalid_value("not a time")
    } else {
        Error::StringInvalidCharset
    }
}

/// Which of two times comes first by their fields: the order that `cmp` answers. Where they are equal so, `==` tells so
/// too.
pub fn order_of_times(a: &ASN1DateTime, b: &ASN1DateTime) -> Ordering
    ensures order { result ≡ moment_cmp (moment_of a.now) (moment_of b.now) }
{
    a.cmp(b)
}

/// Which of two UTCTimes comes first: the order of their fields.
pub fn order_of_utc_times(a: &UtcTime, b: &UtcTime) -> Ordering
    ensures order { result ≡ moment_cmp (moment_of a.now.0) (moment_of b.now.0) }
{
    UtcTime::cmp(a, b)
}

/// Which of two GeneralizedTimes comes first: the order of their fields.
pub fn order_of_generalized_times(a: &GeneralizedTime, b: &GeneralizedTime) -> Ordering
    ensures order { result ≡ moment_cmp (moment_of a.now.0) (moment_of b.now.0) }
{
    GeneralizedTime::cmp(a, b)
}

/// An element has one refusal by the conversion to a type of times and one by its check. It has none where it has a
/// value, or meets the constraints. Texts of refusals are told apart by their octets.
pub fn times_have_one_refusal()
    ensures utc_time { HaveOneRefusalUpTo but_text utc_time_leaf }
    ensures generalized_time { HaveOneRefusalUpTo but_text generalized_time_leaf }
{}
