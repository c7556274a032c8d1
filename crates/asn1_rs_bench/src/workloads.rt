//! The workloads by their names.

use crate::failure::Failure;
use crate::nested::{EightDeep, SixtyFourDeep, ThirtyTwoDeep};
use crate::rounds::{Outcome, Rounds};
use crate::rows::{Kept, arcs_of_row, read_row, texts_of_row, values_of, walk, write_row};
use crate::sums::Summed;
use asn1_rs::author::ReadsItems;
use asn1_rs::{
    Any, BerParser, BitString, BmpString, DerParser, Error, GeneralizedTime, Ia5String,
    NumericString, OctetString, Oid, PrintableString, SetOf, ToDer, UniversalString, UtcTime,
    Utf8String,
};
use asn1_rs_kerberos::AsReq;
use std::alloc::Global;
use std::time::CpuClock;
use x509_name::Name;

/// So deep a walk goes.
const MAX_DEPTH: usize = 64;

/// The octets of a workload, and how it is run.
#[derive(Drop)]
struct Bench<'a, C> {
    alloc: Global,
    rounds: &'a Rounds<'a, C>,
    octets: &'a [u8],
}

impl<'a, C: CpuClock> Bench<'a, C> {
    /// Reads a row of values.
    fn read<T, P>(&self) -> Result<Outcome, Failure>
    where
        T: Summed + Drop,
        P: ReadsItems<'a, T, Error>,
    {
        let alloc = self.alloc;
        let octets = self.octets;
        self.rounds.time(|| read_row::<T, P>(alloc, octets))
    }

    /// Writes the values of a row, which are read beforehand and kept.
    fn write<T>(&self) -> Result<Outcome, Failure>
    where
        T: ToDer + Drop,
        DerParser: ReadsItems<'a, T, Error>,
    {
        let values = values_of::<T, DerParser>(self.alloc, self.octets)?;
        self.write_values(&values)
    }

    /// Writes the values, which are those of the octets.
    fn write_values<T: ToDer>(&self, values: &[T]) -> Result<Outcome, Failure> {
        let alloc = self.alloc;
        let mut output = Vec::with_capacity(alloc, self.octets.len())?;
        let outcome = self.rounds.time(|| write_row(alloc, values, &mut output))?;
        if output.as_slice() != self.octets {
            return Err(Failure::OtherOctets);
        }
        Ok(outcome)
    }

    /// Goes over the arcs of identifiers, which are read beforehand and kept.
    fn arcs(&self) -> Result<Outcome, Failure> {
        let values = values_of::<Oid<'_>, DerParser>(self.alloc, self.octets)?;
        self.rounds.time(|| arcs_of_row(&values))
    }

    /// Makes the texts of identifiers, which are read beforehand and kept.
    fn texts(&self) -> Result<Outcome, Failure> {
        let alloc = self.alloc;
        let values = values_of::<Oid<'_>, DerParser>(alloc, self.octets)?;
        self.rounds.time(|| texts_of_row(alloc, &values))
    }

    /// Walks through a row of elements by DER.
    fn walk_by_der(&self) -> Result<Outcome, Failure> {
        let alloc = self.alloc;
        let octets = self.octets;
        self.rounds.time(|| walk::<true>(alloc, octets, MAX_DEPTH))
    }

    /// Walks through a row of elements by BER.
    fn walk_by_ber(&self) -> Result<Outcome, Failure> {
        let alloc = self.alloc;
        let octets = self.octets;
        self.rounds.time(|| walk::<false>(alloc, octets, MAX_DEPTH))
    }

    /// Reads a row of values of the kind of this name.
    fn read_kind(&self, kind: &[u8]) -> Result<Outcome, Failure> {
        match kind {
            b"u32" => self.read::<u32, DerParser>(),
            b"i64" => self.read::<i64, DerParser>(),
            b"vec_u32" | b"vec_u32_short" => self.read::<Vec<u32>, DerParser>(),
            b"vec_vec_u8" | b"nested_02" => self.read::<Vec<Vec<u8>>, DerParser>(),
            b"setof_u32" => self.read::<SetOf<u32>, DerParser>(),
            b"octets" => self.read::<OctetString<'_>, DerParser>(),
            b"oid" => self.read::<Oid<'_>, DerParser>(),
            b"utctime" => self.read::<UtcTime, DerParser>(),
            b"gentime" => self.read::<GeneralizedTime, DerParser>(),
            b"names" => self.read::<Name<'_>, DerParser>(),
            b"request" => self.read::<AsReq<'_>, DerParser>(),
            b"nested_08" => self.read::<EightDeep, DerParser>(),
            b"nested_32" => self.read::<ThirtyTwoDeep, DerParser>(),
            b"nested_64" => self.read::<SixtyFourDeep, DerParser>(),
            _ => self.read_text(kind),
        }
    }

    /// Reads a row of strings of the kind of this name.
    fn read_text(&self, kind: &[u8]) -> Result<Outcome, Failure> {
        match kind {
            b"printable" => self.read::<PrintableString<'_>, DerParser>(),
            b"ia5" => self.read::<Ia5String<'_>, DerParser>(),
            b"numeric" => self.read::<NumericString<'_>, DerParser>(),
            b"utf8" => self.read::<Utf8String<'_>, DerParser>(),
            b"bmp" => self.read::<BmpString<'_>, DerParser>(),
            b"universal" => self.read::<UniversalString<'_>, DerParser>(),
            _ => Err(Failure::NoSuchWorkload),
        }
    }

    /// The same behind a call.
    fn read_kept(&self, kind: &[u8]) -> Result<Outcome, Failure> {
        match kind {
            b"u32" => self.read::<u32, Kept<DerParser>>(),
            b"i64" => self.read::<i64, Kept<DerParser>>(),
            b"octets" => self.read::<OctetString<'_>, Kept<DerParser>>(),
            _ => Err(Failure::NoSuchWorkload),
        }
    }

    /// Writes the values of a row of the kind of this name.
    fn write_kind(&self, kind: &[u8]) -> Result<Outcome, Failure> {
        match kind {
            b"u32" => self.write::<u32>(),
            b"i64" => self.write::<i64>(),
            b"vec_u32" | b"vec_u32_short" => self.write::<Vec<u32>>(),
            b"vec_vec_u8" | b"nested_02" => self.write::<Vec<Vec<u8>>>(),
            b"vec_bool" => self.write::<Vec<bool>>(),
            b"vec_u64" => self.write::<Vec<u64>>(),
            b"vec_bits" => self.write::<Vec<BitString<'_>>>(),
            b"setof_u32" => self.write::<SetOf<u32>>(),
            b"bits" => self.write::<BitString<'_>>(),
            b"octets" => self.write::<OctetString<'_>>(),
            b"oid" => self.write::<Oid<'_>>(),
            b"utctime" => self.write::<UtcTime>(),
            b"gentime" => self.write::<GeneralizedTime>(),
            b"names" => self.write::<Name<'_>>(),
            b"request" => self.write::<AsReq<'_>>(),
            b"nested_08" => self.write::<EightDeep>(),
            b"nested_32" => self.write::<ThirtyTwoDeep>(),
            b"nested_64" => self.write::<SixtyFourDeep>(),
            b"certs_any" => self.write::<Any<'_>>(),
            _ => self.write_text(kind),
        }
    }

    /// Writes the values of a row of strings of the kind of this name.
    fn write_text(&self, kind: &[u8]) -> Result<Outcome, Failure> {
        match kind {
            b"printable" => self.write::<PrintableString<'_>>(),
            b"ia5" => self.write::<Ia5String<'_>>(),
            b"numeric" => self.write::<NumericString<'_>>(),
            b"utf8" => self.write::<Utf8String<'_>>(),
            b"bmp" => self.write::<BmpString<'_>>(),
            b"universal" => self.write::<UniversalString<'_>>(),
            _ => Err(Failure::NoSuchWorkload),
        }
    }
}

/// Runs the workload of this name over the octets: what is done, a slash, and the kind of the octets.
pub(crate) fn run_workload<C: CpuClock>(
    alloc: Global,
    rounds: &Rounds<'_, C>,
    name: &str,
    octets: &[u8],
) -> Result<Outcome, Failure> {
    let Some((way, kind)) = name.split_once('/') else {
        return Err(Failure::NoSuchWorkload);
    };
    let bench = Bench {
        alloc,
        rounds,
        octets,
    };
    match way.as_bytes() {
        b"read" => bench.read_kind(kind.as_bytes()),
        b"kept" => bench.read_kept(kind.as_bytes()),
        b"any_der" => bench.read::<Any<'_>, DerParser>(),
        b"any_ber" => bench.read::<Any<'_>, BerParser>(),
        b"kept_any_der" => bench.read::<Any<'_>, Kept<DerParser>>(),
        b"kept_any_ber" => bench.read::<Any<'_>, Kept<BerParser>>(),
        b"walk_der" => bench.walk_by_der(),
        b"walk_ber" => bench.walk_by_ber(),
        b"write" => bench.write_kind(kind.as_bytes()),
        b"arcs" => bench.arcs(),
        b"text" => bench.texts(),
        _ => Err(Failure::NoSuchWorkload),
    }
}
