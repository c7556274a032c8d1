//! Octets that are one value whole: a reader that refuses what follows the value.
ghost use Rattle.asn1_rs.specs.Grammar.Item.{ber_words};
ghost use Rattle.asn1_rs.specs.Whole.{IsWhole, TakesWhole};

use crate::laws::{LawfulBer, LawfulDer};
use crate::traits::{FromBer, FromDer};
use asn1_headers::error::{DerConstraint, Error};
use std::alloc::Global;

/// The value that all of the octets are, by DER.
///
/// Refused as [`FromDer::from_der`] refuses, where the octets are cut as error `Incomplete`; and with
/// `DerConstraintFailed(TrailingOctets)` where octets follow the value.
pub fn from_der_whole<'a, T: FromDer<'a, Error> + Drop>(
    alloc: Global,
    bytes: &'a [u8],
) -> Result<T, Error>
    ensures { TakesWhole T.der_gives bytes.now result }
{
    let (rest, value) = T::from_der(alloc, bytes)?;
    match rest {
        [] => Ok(value),
        _ => Err(Error::DerConstraintFailed(DerConstraint::TrailingOctets)),
    }
}

/// The value that all of the octets are, by BER: as [`from_der_whole`].
pub fn from_ber_whole<'a, T: FromBer<'a, Error> + Drop>(
    alloc: Global,
    bytes: &'a [u8],
) -> Result<T, Error>
    ensures { TakesWhole T.ber_gives bytes.now result }
{
    let (rest, value) = T::from_ber(alloc, bytes)?;
    match rest {
        [] => Ok(value),
        _ => Err(Error::DerConstraintFailed(DerConstraint::TrailingOctets)),
    }
}

/// The value that all of the octets are, by DER, of a lawful type: Ok exactly where they are a word of its grammar.
///
/// Refused as [`from_der_whole`] refuses.
pub fn read_der_whole<'a, T: LawfulDer<'a, Error> + Drop>(
    alloc: Global,
    bytes: &'a [u8],
) -> Result<T, Error>
    ensures exact { IsWhole T.grammar.Der T.grammar.value T.grammar.allocates bytes.now result }
    ensures gives { TakesWhole T.der_gives bytes.now result }
{
    from_der_whole::<T>(alloc, bytes)
}

/// The value that all of the octets are, by BER, of a lawful type: Ok exactly where they are a word of its grammar.
///
/// Refused as [`from_ber_whole`] refuses.
pub fn read_ber_whole<'a, T: LawfulBer<'a, Error> + Drop>(
    alloc: Global,
    bytes: &'a [u8],
) -> Result<T, Error>
    ensures exact { IsWhole (ber_words T.grammar) T.grammar.value T.grammar.allocates
        bytes.now result }
    ensures gives { TakesWhole T.ber_gives bytes.now result }
{
    from_ber_whole::<T>(alloc, bytes)
}
