//! Times on the calendar: as a civil date-time and an offset of `jiff`, and as seconds since 1970.
//!
//! A date-time is a date and a time of day, each made behind its bounds and then joined. `civil::DateTime::new`, of
//! seven fields at once, was not proved to be exact. The seconds come by the day number of the date, as
//! `jiff::Timestamp` ends before 9999-12-31.
ghost use Rattle.std.specs.Prelude.{◌≡◌, ◌↔◌, ◌+◌, ◌*◌, ◌≤◌, pos, ◌+ℤ◌, ◌-ℤ◌, ◌*ℤ◌, IsSome, IfSome, IsOk, IfOk, IfErr};
ghost use Rattle.jiff.specs.Words.{epoch_day, IsBetween};
ghost use Rattle.asn1_rs.specs.Times.{moment_of, IsInvalidDateTime};
ghost use Rattle.asn1_rs.specs.CivilTimes.{IsDay, IsTimeOfDay, IsWithinDay, IsCivil, IsCivilOf, offset_length};
ghost use Rattle.asn1_rs.specs.CivilTimes.{zone_seconds, adjusted_year, adjusted, IsNoAdjustedDate, seconds_since_1970};

use super::ASN1DateTime;
use super::generalized_time::GeneralizedTime;
use super::utc_time::UtcTime;
use asn1_headers::error::Error;
use asn1_headers::tag::Tag;
use jiff::civil::{Date, DateTime, Time};
use jiff::tz::Offset;
use x690::times::shown::is_west;
use x690::times::{Moment, TimeZone};

/// The date of these fields, where the calendar has it and its year is at most 9999.
fn date_of(year: u32, month: u8, day: u8) -> Option<Date>
    ensures exact { IsSome result ↔ IsDay year month day }
    ensures value { IfSome result
        (λ d. (d.year ≡ pos year) × (d.month ≡ month) × (d.day ≡ day)) }
{
    if year > 9999 || month > 12 || day > 31 {
        return None;
    }
    match Date::new(year as i16, month as i8, day as i8) {
        Ok(date) => Some(date),
        Err(_) => None,
    }
}

/// The time of day of these fields, where a clock shows it.
fn time_of(hour: u8, minute: u8, second: u8, millisecond: u16) -> Option<Time>
    ensures exact { IsSome result ↔ (IsTimeOfDay hour minute second × (millisecond ≤ 999)) }
    ensures value { IfSome result (λ t. (t.hour ≡ hour) × (t.minute ≡ minute)
        × (t.second ≡ second) × (t.subsec_nanosecond ≡ millisecond * 1000000)) }
{
    if hour > 23 || minute > 59 || second > 59 || millisecond > 999 {
        return None;
    }
    let nanosecond = i32::from(millisecond) * 1_000_000;
    match Time::new(hour as i8, minute as i8, second as i8, nanosecond) {
        Ok(time) => Some(time),
        Err(_) => None,
    }
}

/// The seconds of so many hours and minutes of either sign, where they are less than a day.
fn length_of(hours: i8, minutes: i8) -> Option<i32>
    ensures exact { IsSome result ↔ IsWithinDay (TimeZone.Offset hours minutes) }
    ensures value { IfSome result (λ s. s ≡ pos (offset_length hours minutes)) }
    ensures bound { IfSome result (IsBetween (pos 0) (pos 86399)) }
{
    let (hours, minutes) = (hours.unsigned_abs(), minutes.unsigned_abs());
    if hours > 23 || minutes > 59 {
        return None;
    }
    Some(i32::from(hours) * 3600 + i32::from(minutes) * 60)
}

/// The seconds that an offset is ahead of UTC, where they are less than a day.
fn seconds_of(hours: i8, minutes: i8) -> Option<i32>
    ensures exact { IsSome result ↔ IsWithinDay (TimeZone.Offset hours minutes) }
    ensures value { IfSome result (λ s. s ≡ zone_seconds (TimeZone.Offset hours minutes)) }
{
    let length = length_of(hours, minutes)?;
    if is_west(hours, minutes) {
        Some(-length)
    } else {
        Some(length)
    }
}

/// The offset of a zone, where it is less than a day.
fn offset_of(zone: TimeZone) -> Option<Offset>
    ensures exact { IsSome result ↔ IsWithinDay zone }
    ensures value { IfSome result (λ o. o.seconds ≡ zone_seconds zone) }
{
    let seconds = match zone {
        TimeZone::Undefined | TimeZone::Z => 0,
        TimeZone::Offset(hours, minutes) => seconds_of(hours, minutes)?,
    };
    match Offset::from_seconds(seconds) {
        Ok(offset) => Some(offset),
        Err(_) => None,
    }
}

/// The civil date-time and the offset of these fields, where they have a place on the calendar.
fn civil_of(m: &Moment) -> Option<(DateTime, Offset)>
    ensures exact { IsSome result ↔ IsCivil m.now }
    ensures value { IfSome result (λ found. IsCivilOf m.now found.0 found.1) }
{
    let date = date_of(m.year, m.month, m.day)?;
    let time = time_of(m.hour, m.minute, m.second, m.millisecond.unwrap_or(0))?;
    let offset = offset_of(m.zone)?;
    Some((DateTime::from_parts(date, time), offset))
}

/// The second of the day.
fn second_of_day(civil: DateTime) -> i64
    ensures value { result ≡
        pos (civil.time.hour * 3600 + civil.time.minute * 60 + civil.time.second) }
    ensures bound { IsBetween (pos 0) (pos 86399) result }
{
    let (hour, minute) = (i64::from(civil.hour()), i64::from(civil.minute()));
    hour * 3600 + minute * 60 + i64::from(civil.second())
}

/// Seconds since 1970, of a civil date-time at an offset.
fn seconds_since_1970(civil: DateTime, offset: Offset) -> i64
    ensures { result ≡ (epoch_day civil.date *ℤ pos 86400 +ℤ pos
        (civil.time.hour * 3600 + civil.time.minute * 60 + civil.time.second)) -ℤ offset.seconds }
{
    let day = i64::from(civil.date().to_plain().to_unix_epoch_day());
    day * 86400 + second_of_day(civil) - i64::from(offset.seconds())
}

/// The year that a year in its century stands for.
fn adjusted_year(year: u32) -> u32
    requires { year ≤ 9999 }
    ensures { result ≡ adjusted_year year }
{
    if year < 50 { 2000 + year } else { 1900 + year }
}

impl ASN1DateTime {
    /// The civil date-time, and the offset from UTC, which is 0 where no zone is defined. The sign of an offset is that
    /// of its hours, else of its minutes. Refused with `InvalidDateTime` where there is no such date of a year up to
    /// 9999, or where no clock shows the time of day. So it is at more than 999 milliseconds, and at an offset of more
    /// than 23 hours or 59 minutes.
    pub fn to_datetime(&self) -> Result<(DateTime, Offset), Error>
        ensures exact { IsOk result ↔ IsCivil (moment_of self.now) }
        ensures value { IfOk result (λ found. IsCivilOf (moment_of self.now) found.0 found.1) }
        ensures refusal { IfErr result IsInvalidDateTime }
    {
        match civil_of(&self.moment()) {
            Some(found) => Ok(found),
            None => Err(Error::InvalidDateTime),
        }
    }
}

impl GeneralizedTime {
    /// The civil date-time and the offset from UTC of its fields, as `ASN1DateTime::to_datetime` answers them.
    pub fn utc_datetime(&self) -> Result<(DateTime, Offset), Error>
        ensures exact { IsOk result ↔ IsCivil (moment_of self.now.0) }
        ensures value { IfOk result (λ found. IsCivilOf (moment_of self.now.0) found.0 found.1) }
        ensures refusal { IfErr result IsInvalidDateTime }
    {
        self.0.to_datetime()
    }
}

impl UtcTime {
    /// The civil date-time and the offset from UTC of its fields, whose year is that in its century, as
    /// `ASN1DateTime::to_datetime` answers them.
    pub fn utc_datetime(&self) -> Result<(DateTime, Offset), Error>
        ensures exact { IsOk result ↔ IsCivil (moment_of self.now.0) }
        ensures value { IfOk result (λ found. IsCivilOf (moment_of self.now.0) found.0 found.1) }
        ensures refusal { IfErr result IsInvalidDateTime }
    {
        self.0.to_datetime()
    }

    /// The same at the year that the two digits stand for: from 50 on 1900 more, else 2000 more (RFC 5280 4.1.2.5.1). A
    /// year of more digits is moved as far. First the fields are refused with `InvalidDateTime`, as `utc_datetime`
    /// refuses them; then with `InvalidValue` where that year has no such date, or is past 9999.
    pub fn utc_adjusted_datetime(&self) -> Result<(DateTime, Offset), Error>
        ensures exact { IsOk result
            ↔ (IsCivil (moment_of self.now.0) × IsCivil (adjusted (moment_of self.now.0))) }
        ensures value { IfOk result
            (λ found. IsCivilOf (adjusted (moment_of self.now.0)) found.0 found.1) }
        ensures invalid { ¬ IsCivil (moment_of self.now.0) → IfErr result IsInvalidDateTime }
        ensures no_date { IsCivil (moment_of self.now.0) → IfErr result IsNoAdjustedDate }
    {
        self.utc_datetime()?;
        let fields = self.0.moment();
        let adjusted = Moment {
            year: adjusted_year(fields.year),
            ..fields
        };
        match civil_of(&adjusted) {
            Some(found) => Ok(found),
            None => Err(Tag::UtcTime.invalid_value("Invalid adjusted date")),
        }
    }

    /// The seconds from the beginning of 1970 in UTC on, of the year as it stands. Milliseconds are dropped. Refused as
    /// `utc_datetime` refuses the fields.
    pub fn timestamp(&self) -> Result<i64, Error>
        ensures exact { IsOk result ↔ IsCivil (moment_of self.now.0) }
        ensures value { IfOk result (λ n. n ≡ seconds_since_1970 (moment_of self.now.0)) }
        ensures refusal { IfErr result IsInvalidDateTime }
    {
        let (civil, offset) = self.utc_datetime()?;
        Ok(seconds_since_1970(civil, offset))
    }
}
