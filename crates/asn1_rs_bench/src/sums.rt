//! What a value adds to the check of a workload.

use asn1_rs::author::RestrictedString;
use asn1_rs::{ASN1DateTime, Any, GeneralizedTime, OctetString, Oid, SetOf, UtcTime};
use asn1_rs_kerberos::AsReq;
use x509_name::{AttributeTypeAndValue, Name, RelativeDistinguishedName};

/// A value that adds to a check.
pub(crate) trait Summed {
    /// What it adds, modulo 2^64.
    fn sum(&self) -> u64;
}

impl Summed for u8 {
    fn sum(&self) -> u64 {
        u64::from(*self)
    }
}

impl Summed for u32 {
    fn sum(&self) -> u64 {
        u64::from(*self)
    }
}

impl Summed for i64 {
    fn sum(&self) -> u64 {
        self.cast_unsigned()
    }
}

/// An element of any type adds how many contents octets it has.
impl Summed for Any<'_> {
    fn sum(&self) -> u64 {
        self.content.len() as u64
    }
}

/// An octet string adds how many octets it has.
impl Summed for OctetString<'_> {
    fn sum(&self) -> u64 {
        self.as_bytes().len() as u64
    }
}

/// An identifier adds how many contents octets it has.
impl Summed for Oid<'_> {
    fn sum(&self) -> u64 {
        self.as_bytes().len() as u64
    }
}

/// A string adds how many octets its text has in UTF-8.
impl<K, F> Summed for RestrictedString<'_, K, F> {
    fn sum(&self) -> u64 {
        self.as_str().len() as u64
    }
}

/// A time adds its year, its day, its second and its milliseconds, none being 0.
impl Summed for ASN1DateTime {
    fn sum(&self) -> u64 {
        u64::from(self.year)
            .wrapping_add(u64::from(self.day))
            .wrapping_add(u64::from(self.second))
            .wrapping_add(u64::from(self.millisecond.unwrap_or(0)))
    }
}

impl Summed for UtcTime {
    fn sum(&self) -> u64 {
        self.0.sum()
    }
}

impl Summed for GeneralizedTime {
    fn sum(&self) -> u64 {
        self.0.sum()
    }
}

/// A list adds one, and what its items add.
fn sum_of_items<T: Summed>(items: &[T]) -> u64 {
    let mut total: u64 = 1;
    for item in items {
        total = total.wrapping_add(item.sum());
    }
    total
}

impl<T: Summed> Summed for Vec<T> {
    fn sum(&self) -> u64 {
        sum_of_items(self)
    }
}

impl<T: Summed> Summed for SetOf<T> {
    fn sum(&self) -> u64 {
        sum_of_items(self.as_slice())
    }
}

/// An attribute adds what its two parts add.
impl Summed for AttributeTypeAndValue<'_> {
    fn sum(&self) -> u64 {
        self.oid.sum().wrapping_add(self.value.sum())
    }
}

/// A relative name adds what a set of its attributes adds.
impl Summed for RelativeDistinguishedName<'_> {
    fn sum(&self) -> u64 {
        sum_of_items(&self.v)
    }
}

/// A name adds what a list of its relative names adds.
impl Summed for Name<'_> {
    fn sum(&self) -> u64 {
        sum_of_items(&self.rdn_sequence)
    }
}

/// A request adds its nonce, how many octets its realm has, and how many kinds of encryption it names.
impl Summed for AsReq<'_> {
    fn sum(&self) -> u64 {
        let body = self.as_inner().req_body.as_inner();
        u64::from(*body.nonce.as_inner())
            .wrapping_add(body.realm.as_inner().sum())
            .wrapping_add(body.etype.as_inner().len() as u64)
    }
}
