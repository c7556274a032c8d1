//! Copies of values that hold no octets, which allocate nothing.
ghost use Rattle.std.specs.Prelude.{◌≡◌, false};

use super::ToStatic;
use crate::asn1_types::boolean::Boolean;
use crate::asn1_types::enumerated::Enumerated;
use crate::asn1_types::null::Null;
use crate::asn1_types::times::ASN1DateTime;
use crate::asn1_types::times::generalized_time::GeneralizedTime;
use crate::asn1_types::times::utc_time::UtcTime;
use asn1_headers::error::Error;
use std::alloc::Global;

/// A truth value keeps its octet.
impl ToStatic for Boolean {
    type Owned = Boolean;

    ghost copies = { λ source copy. copy ≡ source };

    ghost copy_allocates = { false };

    fn to_static(&self, _alloc: Global) -> Result<Boolean, Error> {
        Ok(Boolean::new(self.value))
    }
}

impl ToStatic for Enumerated {
    type Owned = Enumerated;

    ghost copies = { λ source copy. copy ≡ source };

    ghost copy_allocates = { false };

    fn to_static(&self, _alloc: Global) -> Result<Enumerated, Error> {
        Ok(Enumerated::new(self.0))
    }
}

impl ToStatic for Null {
    type Owned = Null;

    ghost copies = { λ source copy. copy ≡ source };

    ghost copy_allocates = { false };

    fn to_static(&self, _alloc: Global) -> Result<Null, Error> {
        Ok(Null::new())
    }
}

/// The time of the same fields.
fn copied_time(time: &ASN1DateTime) -> ASN1DateTime
    ensures { result ≡ time.now }
{
    ASN1DateTime {
        year: time.year,
        month: time.month,
        day: time.day,
        hour: time.hour,
        minute: time.minute,
        second: time.second,
        millisecond: time.millisecond,
        tz: time.tz,
    }
}

impl ToStatic for ASN1DateTime {
    type Owned = ASN1DateTime;

    ghost copies = { λ source copy. copy ≡ source };

    ghost copy_allocates = { false };

    fn to_static(&self, _alloc: Global) -> Result<ASN1DateTime, Error> {
        Ok(copied_time(self))
    }
}

impl ToStatic for UtcTime {
    type Owned = UtcTime;

    ghost copies = { λ source copy. copy ≡ source };

    ghost copy_allocates = { false };

    fn to_static(&self, _alloc: Global) -> Result<UtcTime, Error> {
        Ok(UtcTime::new(copied_time(&self.0)))
    }
}

impl ToStatic for GeneralizedTime {
    type Owned = GeneralizedTime;

    ghost copies = { λ source copy. copy ≡ source };

    ghost copy_allocates = { false };

    fn to_static(&self, _alloc: Global) -> Result<GeneralizedTime, Error> {
        Ok(GeneralizedTime::new(copied_time(&self.0)))
    }
}
