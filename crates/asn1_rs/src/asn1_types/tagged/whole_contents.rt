//! Contents octets that are one element and nothing else, as those of an explicit tag are by DER (X.690 8.14.2, 10.1).
ghost use Rattle.std.specs.Prelude.{[]};
ghost use Rattle.asn1_headers.specs.Answers.{seen};
ghost use Rattle.asn1_rs.specs.Tagged.{WholeGives};
ghost use Rattle.asn1_rs.specs.Tagged.Explicit.{ChecksWhole};

use crate::asn1_types::any::Any;
use crate::traits::CheckDerConstraints;
use asn1_headers::error::{DerConstraint, Err, Error, ParseResult};

/// The value that a reader's answer tells, which is to be all of the octets. What is left is refused with
/// `TrailingOctets`, after the reader's own refusals.
pub(crate) fn whole<'a, T: Drop, E: From<Error>>(answer: ParseResult<'a, T, E>) -> Result<T, Err<E>>
    ensures { WholeGives E.from_gives (seen answer.entry) result }
{
    match answer {
        Ok((left, value)) => {
            if left.is_empty() {
                return Ok(value);
            }
            let trailing = Error::DerConstraintFailed(DerConstraint::TrailingOctets);
            Err(Err::Error(E::from(trailing)))
        }
        Err(refusal) => Err(refusal),
    }
}

/// Checks the constraints of the element that a reader's answer tells, which is to be all of the octets. What is left
/// is refused with `TrailingOctets`, after the constraints.
pub(crate) fn check_whole<T: CheckDerConstraints>(
    answer: ParseResult<'_, Any<'_>, Error>,
) -> Result<(), Error>
    ensures { ChecksWhole T.check_gives (seen answer.entry) result }
{
    match answer {
        Ok((rest, element)) => {
            T::check_constraints(&element)?;
            if rest.is_empty() {
                return Ok(());
            }
            Err(Error::DerConstraintFailed(DerConstraint::TrailingOctets))
        }
        Err(refusal) => Err(Error::from(refusal)),
    }
}
