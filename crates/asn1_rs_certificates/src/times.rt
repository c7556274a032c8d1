//! The years of times (RFC 5280, 4.1.2.5).
ghost use Rattle.asn1_rs_certificates.specs.Certificates.{IsYearOf};

use asn1_rs_messages::Time;

/// The year of a time of a certificate. A `UTCTime` has the last two digits, of a year from 1950 to 2049 (4.1.2.5.1).
/// One that was made by hand with a year past 99 has that year.
pub fn year_of(time: &Time) -> u32
    ensures { IsYearOf time.now result }
{
    match time {
        Time::General(time) => time.0.year,
        Time::Utc(time) => match time.0.year {
            digits @ 0..50 => 2000 + digits,
            digits @ 50..100 => 1900 + digits,
            year => year,
        },
    }
}
