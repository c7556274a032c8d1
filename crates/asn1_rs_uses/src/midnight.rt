//! A time that is made by hand: the first second of a day, counted and written.
ghost use Rattle.std.specs.Prelude.{◌≡◌, true, false, length, MatchResult, IsErrAnd};
ghost use Rattle.asn1_rs.specs.Prelude.{IsMemoryOrLength};
ghost use Rattle.asn1_rs.specs.ToDer.{MayRefuseCount};
ghost use Rattle.asn1_rs.specs.Times.{generalized_time_refused, moment_of};
ghost use Rattle.asn1_rs_uses.specs.Midnights.{TellsInvalidTime, midnight, midnight_octets};

use asn1_rs::{ASN1DateTime, ASN1TimeZone, Error, GeneralizedTime, SerializeResult, ToDer};
use std::alloc::Global;

/// The first second of a day, of UTC.
pub fn first_second(year: u32, month: u8, day: u8) -> GeneralizedTime
    ensures { moment_of result.0 ≡ midnight year month day }
{
    let time = ASN1DateTime::new(year, month, day, 0, 0, 0, None, ASN1TimeZone::Z);
    GeneralizedTime::new(time)
}

/// How many octets it has. Refused where a field is too long for its place in the text. Such are a year of five digits,
/// and a month or a day of three.
// Of a time that has no place in its text no clause is proved here: `write_midnight` tells its refusal.
pub fn count_midnight(year: u32, month: u8, day: u8) -> Result<usize, Error>
    ensures { generalized_time_refused (midnight year month day) ≡ false →
        MatchResult result (λ n. n ≡ length (midnight_octets year month day))
        (MayRefuseCount false (length (midnight_octets year month day))) }
{
    first_second(year, month, day).to_der_len()
}

/// Its octets. Refused as it is counted, and else when out of memory.
pub fn write_midnight(alloc: Global, year: u32, month: u8, day: u8) -> SerializeResult<Vec<u8>>
    ensures fits { generalized_time_refused (midnight year month day) ≡ false →
        MatchResult result (λ octets. octets.items ≡ midnight_octets year month day)
        (IsMemoryOrLength (midnight_octets year month day)) }
    ensures refused { generalized_time_refused (midnight year month day) ≡ true →
        IsErrAnd result TellsInvalidTime }
{
    first_second(year, month, day).to_der_vec(alloc)
}
