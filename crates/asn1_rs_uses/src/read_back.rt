//! What was written is read back, said once of all lawful types.
ghost use Rattle.std.specs.Prelude.{◌≡◌, ◌⊎◌, ◌<◌, ◌^◌, length, MatchResult};
ghost use Rattle.asn1_headers.specs.declared.error.Error.TheVariants as errors;
ghost use Rattle.asn1_headers.specs.declared.error.SerializeError.TheVariants as serialize_errors;
ghost use Rattle.asn1_rs.specs.Prelude.{whole_octets};

use asn1_rs::laws::{LawfulDer, LawfulWrite};
use asn1_rs::{Error, SerializeResult, read_der, strict_vec};
use std::alloc::Global;

/// Writes a value, reads what was written by DER, and answers what was read.
///
/// The octets take the place of those of the vector, which what is answered may borrow.
pub fn written_and_read<'a, T: LawfulWrite + LawfulDer<'a, Error>>(
    alloc: Global,
    x: &T,
    octets: &'a mut Vec<u8>,
) -> SerializeResult<T>
    ensures { T.grammar.IsDer (T.grammar.value x.now) →
        length (whole_octets T.writing x.now) < 2 ^ 64 → MatchResult result
        (λ y. T.grammar.value x.now ≡ T.grammar.value y)
        (λ e. (e ≡ serialize_errors.OutOfMemory) ⊎
        (e ≡ serialize_errors.ASN1Error errors.OutOfMemory)) }
{
    *octets = strict_vec(alloc, x)?;
    match read_der::<T, Error>(alloc, octets.as_slice()) {
        Ok((_, y)) => Ok(y),
        Err(e) => Err(Error::from(e).into()),
    }
}
