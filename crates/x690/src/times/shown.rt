//! How times are shown.
ghost use Rattle.std.specs.Prelude.{◌≡◌, ◌≤◌, [], length, Some};
ghost use Rattle.x690.specs.Times.{is_west, zone_text, utc_time_shown, generalized_time_shown, moment_text};

use super::text::ShownText;
use super::{Moment, TimeZone};
use std::fmt;

/// A time as a UTCTime is shown: `YYYY-MM-DD hh:mm:ss` and its zone, or Z where none is defined.
#[derive(Clone, Copy, Debug)]
pub struct ShownUtcTime<'a>(pub &'a Moment);

/// A time as a GeneralizedTime is shown: `YYYY-MM-DD hh:mm:ss`, its milliseconds, and its zone where one is defined.
#[derive(Clone, Copy, Debug)]
pub struct ShownGeneralizedTime<'a>(pub &'a Moment);

/// Whether an offset is to the west, and so shown with the sign minus.
pub fn is_west(hours: i8, minutes: i8) -> bool
    ensures { result ≡ is_west hours minutes }
{
    hours < 0 || (hours == 0 && minutes < 0)
}

impl TimeZone {
    /// The text that `Display` prints: `+hhmm`, `-hhmm`, Z, or nothing where no zone is defined. It takes no memory.
    pub fn text(&self) -> ShownText
        ensures text { result ≡ zone_text [] self.now }
        ensures short { length result ≤ 43 }
    {
        let mut text = ShownText::new();
        text.push_zone(*self);
        text
    }
}

impl fmt::Display for TimeZone {
    ghost output = { λ zone. Some (zone_text [] zone) };

    fn fmt<W: fmt::Write>(&self, f: &mut fmt::Formatter<W>) -> fmt::Result {
        f.write_str(self.text().as_str())
    }
}

impl ShownUtcTime<'_> {
    /// The text that `Display` prints. It takes no memory.
    pub fn text(&self) -> ShownText
        ensures text { result ≡ utc_time_shown self.now.0.now }
        ensures short { length result ≤ 43 }
    {
        let mut text = ShownText::new();
        text.push_calendar(self.0);
        let zone = match self.0.zone {
            TimeZone::Undefined => TimeZone::Z,
            zone => zone,
        };
        text.push_zone(zone);
        text
    }
}

impl<'a> fmt::Display for ShownUtcTime<'a> {
    ghost output = { λ x. Some (utc_time_shown x.0.now) };

    fn fmt<W: fmt::Write>(&self, f: &mut fmt::Formatter<W>) -> fmt::Result {
        f.write_str(self.text().as_str())
    }
}

impl ShownGeneralizedTime<'_> {
    /// The text that `Display` prints. It takes no memory.
    pub fn text(&self) -> ShownText
        ensures text { result ≡ generalized_time_shown self.now.0.now }
        ensures short { length result ≤ 43 }
    {
        let mut text = ShownText::new();
        text.push_calendar(self.0);
        text.push_fraction(self.0.millisecond);
        text.push_zone(self.0.zone);
        text
    }
}

impl<'a> fmt::Display for ShownGeneralizedTime<'a> {
    ghost output = { λ x. Some (generalized_time_shown x.0.now) };

    fn fmt<W: fmt::Write>(&self, f: &mut fmt::Formatter<W>) -> fmt::Result {
        f.write_str(self.text().as_str())
    }
}

impl Moment {
    /// The text that `Display` prints. It takes no memory.
    pub fn text(&self) -> ShownText
        ensures text { result ≡ moment_text self.now }
        ensures short { length result ≤ 43 }
    {
        let mut text = ShownText::new();
        text.push_fields(self);
        text.push_fraction(self.millisecond);
        text.push(b'Z');
        text
    }
}

/// Fields alone: `YYYYMMDDhhmmss`, milliseconds and Z.
impl fmt::Display for Moment {
    ghost output = { λ m. Some (moment_text m) };

    fn fmt<W: fmt::Write>(&self, f: &mut fmt::Formatter<W>) -> fmt::Result {
        f.write_str(self.text().as_str())
    }
}
