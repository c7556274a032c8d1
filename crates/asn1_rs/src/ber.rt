//! Reading elements by BER (X.690 8.1).
ghost use Rattle.std.specs.Prelude.{◌≡◌, ◌+◌, ◌*◌, ◌^◌, ◌<◌, ◌≤◌, length, IfOk, IfErr, OnErr};
ghost use Rattle.x690.specs.Nested.{IsElement, ElementFault};
ghost use Rattle.x690.specs.Nested.FaultHeaders.{FaultHeaders};
ghost use Rattle.asn1_headers.specs.Answers.{seen};
ghost use Rattle.asn1_headers.specs.Header.Reading.{ber_refusal};
ghost use Rattle.asn1_headers.specs.Ber.{count_of, CountedElement, Counted, max_depth, EndsWithin};
ghost use Rattle.asn1_rs.specs.Any.{RefusalLasts, ElementLasts, parts_of, AnyGives};

use crate::asn1_types::any::Any;
use asn1_headers::ber::{Steps, element_to_depth};
use asn1_headers::error::{Error, ParseResult};

/// How deep elements may nest by BER (X.690 8.1.3.6, 8.1.5): 49 of indefinite length at most, one in the other.
pub const MAX_RECURSION: usize = 50;

/// The element at the front, by BER. Out of memory is never answered.
#[inline(always)]
pub(crate) fn element_by_ber(bytes: &[u8]) -> ParseResult<'_, Any<'_>, Error>
    ensures { AnyGives (IsElement max_depth) (ElementFault max_depth) ber_refusal bytes.now
        (seen result) }
{
    any_from_ber_counted(bytes, &mut Steps::new())
}

/// Reads an element by BER, as `Any::from_ber` does, and counts the headers that are read.
///
/// Each header that does not stand in a definite content is read once, and that of each 00 00 too. So the count grows
/// by half the octets of the element at most. On a refusal it grows by one for each header that was read whole before
/// the first fault. An element, or a refusal, is that of the input whatever follows, as far as the refusal speaks.
/// Elements nest as deep as [`MAX_RECURSION`] says.
#[inline(always)]
pub fn any_from_ber_counted<'a>(
    bytes: &'a [u8],
    steps: &mut Steps,
) -> ParseResult<'a, Any<'a>, Error>
    requires { count_of steps.old + length bytes.now < 2 ^ 64 }
    ensures depth { MAX_RECURSION ≡ max_depth }
    ensures gives { AnyGives (IsElement max_depth) (ElementFault max_depth) ber_refusal bytes.now
        (seen result) }
    ensures last { IfErr result (RefusalLasts (IsElement max_depth) EndsWithin bytes.now) }
    ensures same { IfOk result (λ x. ElementLasts (IsElement max_depth) bytes.now x.0.now x.1) }
    ensures ticks { IfOk result
        (λ x. CountedElement max_depth bytes.now x.0.now (parts_of x.1) (count_of steps.old)
        (count_of steps.new)) }
    ensures stops { OnErr result
        (Counted (FaultHeaders max_depth) bytes.now (count_of steps.old) (count_of steps.new)) }
    ensures few { 2 * count_of steps.new ≤ 2 * count_of steps.old + length bytes.now }
    ensures grows { count_of steps.old ≤ count_of steps.new }
{
    match element_to_depth(bytes, MAX_RECURSION, steps) {
        Ok((rest, (header, contents))) => Ok((rest, Any::new(header, contents))),
        Err(refusal) => Err(refusal),
    }
}
