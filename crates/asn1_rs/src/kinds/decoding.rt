//! How an element in hand is read by DER, header and contents octets: by the reader that the type names.
ghost use Rattle.std.specs.Prelude.{Result};
ghost use Rattle.x690.specs.Elements.{IsDerElement};
ghost use Rattle.x690.specs.Faults.{DerElementFault};
ghost use Rattle.asn1_headers.specs.Header.Reading.{der_refusal};
ghost use Rattle.asn1_headers.specs.declared.error.Error.{Error};
ghost use Rattle.asn1_rs.specs.declared.asn1_types.any.Any.{Any};
ghost use Rattle.asn1_rs.specs.Any.Decoded.{CheckedThenConverted, IsReadAgain};
ghost use Rattle.asn1_rs.specs.Laws.Any.Decoded.{checked_reads};

use crate::asn1_types::any::Any;
use crate::kinds::reading::{ElementReader, HasReader};
use crate::traits::{CheckDerConstraints, FromAny, FromDer};
use asn1_headers::error::Error;
use std::alloc::Global;

/// A type that an element in hand is read as by DER, by this reader.
// A trait of its own, since an element in hand has no octets for `from_der`.
pub trait DecodesBy<'a, R>: FromDer<'a, Error> {
    /// What reading the element may answer.
    ghost decode_gives: { Any → Result Self Error → Type 0 };

    /// The value of the element.
    fn decode_element(alloc: Global, any: Any<'a>) -> Result<Self, Error>
        ensures { decode_gives any.entry result };

    /// It is what `from_der` may answer to the octets that the element was read from.
    ghost decodes: { (any : Any) (answer : Result Self Error) → Self.decode_gives any answer →
        IsReadAgain IsDerElement Self.der_gives any answer };
}

/// Its constraints are checked, and then it is converted.
impl<'a, T> DecodesBy<'a, ElementReader> for T
where
    T: FromAny<'a, Error = Error> + CheckDerConstraints + HasReader<Reader = ElementReader>,
{
    ghost decode_gives = { CheckedThenConverted T.check_gives T.any_gives };

    fn decode_element(alloc: Global, any: Any<'a>) -> Result<T, Error> {
        match T::check_constraints(&any) {
            Ok(()) => T::try_from_any(alloc, any),
            Err(e) => Err(e),
        }
    }

    ghost decodes = { checked_reads IsDerElement DerElementFault der_refusal T.check_gives
        T.any_gives };
}
