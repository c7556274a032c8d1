//! Times as texts (X.690 8.25, 11.7, 11.8): their fields, which texts say them, and their strict texts.

pub mod reading;
pub mod shown;
pub mod strict_texts;
pub mod text;
pub mod writing;

ghost use Rattle.x690.specs.Times.{zone_cmp};
ghost use Rattle.x690.specs.Laws.TimeOrders.{zone_agrees, zone_ties, zone_total};

use std::cmp::Ordering;

/// The zone of a time: none that is defined, Z (that of UTC), or hours and minutes that it is ahead.
#[derive(Clone, Copy, Debug, PartialEq, Eq, PartialOrd)]
pub enum TimeZone {
    /// The zone is not said.
    Undefined,
    /// UTC.
    Z,
    /// Hours and minutes ahead of UTC. The sign is that of the hours, and the minutes have none;
    /// where the hours are 0, it is that of the minutes.
    Offset(i8, i8),
}

/// Zones are in the order of the variants, and offsets in that of their hours, and then of their minutes. It is not
/// that of the clocks.
impl Ord for TimeZone {
    ghost cmp = { zone_cmp };

    ghost total = { zone_total };

    ghost matches_partial_cmp = { zone_agrees };

    ghost matches_eq = { zone_ties };

    fn cmp(&self, other: &TimeZone) -> Ordering {
        match (*self, *other) {
            (TimeZone::Undefined, TimeZone::Undefined) | (TimeZone::Z, TimeZone::Z) => {
                Ordering::Equal
            }
            (TimeZone::Undefined, _) | (TimeZone::Z, TimeZone::Offset(_, _)) => Ordering::Less,
            (TimeZone::Offset(hours, minutes), TimeZone::Offset(others, rest)) => {
                hours.cmp(&others).then(minutes.cmp(&rest))
            }
            _ => Ordering::Greater,
        }
    }
}

/// The fields of a time. A caller may make any; the year of a UTCTime is that in its century.
#[derive(Clone, Copy, Debug, PartialEq, Eq, PartialOrd, Ord)]
pub struct Moment {
    /// The year.
    pub year: u32,
    /// The month, from 1 on.
    pub month: u8,
    /// The day of the month, from 1 on.
    pub day: u8,
    /// The hour.
    pub hour: u8,
    /// The minute.
    pub minute: u8,
    /// The second.
    pub second: u8,
    /// The milliseconds, where there are some.
    pub millisecond: Option<u16>,
    /// The zone.
    pub zone: TimeZone,
}
