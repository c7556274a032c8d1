//! One message, strictly: octets that are the one strict encoding of a value (X.690 10 and 11).
//!
//! A reader by DER takes some octets that a writer would not write. Under implicit tags a value within is read by BER,
//! a set may stand in any order, and a default may be there. So the value is written anew here, and compared.
ghost use Rattle.std.specs.Prelude.{◌≡◌, ◌<◌, ◌^◌, length, IfOk, MatchOption};
ghost use Rattle.asn1_headers.specs.declared.error.Error.TheVariants as errors;
ghost use Rattle.asn1_headers.specs.declared.error.SerializeError.TheVariants as serialize_errors;
ghost use Rattle.asn1_rs.specs.Grammar.Form.{IsStrict};
ghost use Rattle.asn1_rs_profiles.specs.Strict.{Compares, DifferAt, ReadsAsWritten, ReadsStrict};

use asn1_rs::laws::{AlwaysDer, LawfulDer, LawfulWrite, strict_fronts_are_written_again};
use asn1_rs::{Error, SerializeError, read_der_whole, strict_vec};
use std::alloc::Global;
use std::fmt;

/// Why octets are not taken as the strict encoding of a value.
#[derive(Debug, PartialEq, Eq, Drop)]
pub enum NotStrict {
    /// The reader by DER refuses them, or octets follow the value, with this error. Or memory is out.
    Refused(Error),
    /// They are a value by DER, whose strict encoding first differs from them at this octet, counted from 0. At the
    /// number of the octets, or of those of the strict encoding, one of both ends.
    Differs(usize),
}

impl fmt::Display for NotStrict {
    fn fmt<W: fmt::Write>(&self, f: &mut fmt::Formatter<W>) -> fmt::Result {
        match self {
            NotStrict::Refused(e) => write!(f, "{e}"),
            NotStrict::Differs(at) => write!(f, "not the strict encoding, from octet {at} on"),
        }
    }
}

/// The first place at which both differ; `None` where they are the same.
fn first_difference(octets: &[u8], others: &[u8]) -> Option<usize>
    ensures { MatchOption result (octets.now ≡ others.now)
        (λ at. DifferAt at octets.now others.now) }
{
    for (at, octet) in octets.iter().enumerate() {
        match others.get(at) {
            Some(other) if other == octet => {}
            _ => return Some(at),
        }
    }
    if octets.len() < others.len() {
        return Some(octets.len());
    }
    None
}

/// The refusal of a writing as one of reading.
fn refusal_of_writing(e: SerializeError) -> Error
    ensures { e ≡ serialize_errors.OutOfMemory → result ≡ errors.OutOfMemory }
{
    match e {
        SerializeError::ASN1Error(e) => e,
        SerializeError::OutOfMemory => Error::OutOfMemory,
        _ => Error::InvalidLength,
    }
}

/// States that the length of octets fits.
fn length_fits(octets: &[u8])
    ensures { length octets.now < 2 ^ 64 }
{
    let _count = octets.len();
}

/// Compares the octets with what is written of a value.
fn compare<T: LawfulWrite>(alloc: Global, value: &T, octets: &[u8]) -> Result<(), NotStrict>
    ensures { Compares T.grammar T.writing value.now octets.now result }
{
    length_fits(octets);
    let written = match strict_vec(alloc, value) {
        Ok(written) => written,
        Err(e) => return Err(NotStrict::Refused(refusal_of_writing(e))),
    };
    let again = written.as_slice();
    length_fits(again);
    match first_difference(octets, again) {
        None => Ok(()),
        Some(at) => Err(NotStrict::Differs(at)),
    }
}

/// The value that all of the octets are by DER, where writing it gives these octets again.
///
/// The one strict encoding of a value is always taken. Of a type each of whose values is in DER form nothing else is,
/// as [`read_strict`] states. A value that is not in DER form, as an [`Oid`](asn1_rs::Oid) with a padded arc, may be
/// written as it was read, and then it is taken too.
pub fn read_as_written<'a, T>(alloc: Global, octets: &'a [u8]) -> Result<T, NotStrict>
where
    T: LawfulDer<'a, Error> + LawfulWrite + Drop,
    ensures exact { ReadsAsWritten T.grammar T.writing octets.now result }
    ensures strict { IfOk result (λ x. T.grammar.IsDer (T.grammar.value x) →
        ∥ IsStrict T.grammar.Form (T.grammar.value x) octets.now ∥₁) }
{
    let value = match read_der_whole::<T>(alloc, octets) {
        Ok(value) => value,
        Err(e) => return Err(NotStrict::Refused(e)),
    };
    strict_fronts_are_written_again::<T>();
    match compare(alloc, &value, octets) {
        Ok(()) => Ok(value),
        Err(e) => Err(e),
    }
}

/// The value whose one strict encoding all of the octets are.
///
/// Refused with `Refused` as [`read_der_whole`] refuses, and when out of memory. Else with `Differs` and the first
/// octet that differs from the strict encoding of the value that the octets are by DER.
pub fn read_strict<'a, T>(alloc: Global, octets: &'a [u8]) -> Result<T, NotStrict>
where
    T: LawfulDer<'a, Error> + LawfulWrite + AlwaysDer + Drop,
    ensures { ReadsStrict T.grammar octets.now result }
{
    let value = match read_der_whole::<T>(alloc, octets) {
        Ok(value) => value,
        Err(e) => return Err(NotStrict::Refused(e)),
    };
    value.is_der();
    length_fits(octets);
    match compare(alloc, &value, octets) {
        Ok(()) => Ok(value),
        Err(e) => Err(e),
    }
}
