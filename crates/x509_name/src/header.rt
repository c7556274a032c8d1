//! The headers of sequences and sets whose contents octets are counted.
ghost use Rattle.std.specs.Prelude.{◌≡◌, ◌<◌, ◌++◌, ◌+◌, ℕ, List, true, false, length, IfOk, IfErr};
ghost use Rattle.x690.specs.Strict.{header_octets};
ghost use Rattle.asn1_headers.specs.Header.Writing.{strict_header};
ghost use Rattle.asn1_rs.specs.Prelude.{MayRefuse, Prepended, Wrote};
ghost use Rattle.asn1_headers.specs.Writer.{SumsWritten};
ghost use Rattle.asn1_rs.specs.ToDer.{MayRefuseCount, SumsCounts};

use asn1_rs::{
    Class, DerBuffer, DerWrite, Error, Header, Length, SerializeError, SerializeResult, Tag, ToDer,
};
use std::alloc::Global;

/// The header of a constructed element of the universal class with so many contents octets.
fn header(tag: Tag, count: usize) -> Header<'static>
    ensures { strict_header result ≡ header_octets 0 true tag.0 count }
{
    Header::new(Class::Universal, true, tag, Length::Definite(count))
}

/// How many octets such an element has.
pub(crate) fn element_len(tag: Tag, count: usize) -> Result<usize, Error>
    ensures count { (content : List ℕ) → count ≡ length content →
        IfOk result (λ n. n ≡ length (header_octets 0 true tag.0 (length content) ++ content)) }
    ensures refused { (content : List ℕ) → count ≡ length content →
        IfErr result (MayRefuseCount false
        (length (header_octets 0 true tag.0 (length content) ++ content))) }
{
    let before = header(tag, count).to_der_len()?;
    add_counts(before, count)
}

/// The sum of two counts.
pub(crate) fn add_counts(before: usize, after: usize) -> Result<usize, Error>
    ensures { SumsCounts before after result }
{
    before.checked_add(after).ok_or(Error::InvalidLength)
}

/// The sum of two numbers of octets that were written or put in front.
// This is a match. `ok_or` would make the refusal, of 96 octets, before the answer is known.
#[inline(always)]
pub(crate) fn sum_of_written(before: usize, after: usize) -> SerializeResult<usize>
    ensures { SumsWritten before after result }
{
    match before.checked_add(after) {
        Some(sum) => Ok(sum),
        None => Err(SerializeError::InvalidLength),
    }
}

/// Appends the header of such an element.
pub(crate) fn put_header<W: DerWrite>(
    tag: Tag,
    count: usize,
    alloc: Global,
    w: &mut W,
) -> SerializeResult<usize>
    ensures wrote { Wrote (header_octets 0 true tag.0 count) (W.state w.old) (W.state w.new) result }
    ensures refused { IfErr result (MayRefuse false (length (header_octets 0 true tag.0 count))) }
{
    header(tag, count).write_der_header(alloc, w)
}

/// Puts the header of such an element before so many contents octets that stand in front. Answers the number of both.
pub(crate) fn prepend_header(
    tag: Tag,
    count: usize,
    alloc: Global,
    buf: &mut DerBuffer,
) -> SerializeResult<usize>
    ensures prepended { (content old : List ℕ) → buf.old ≡ content ++ old →
        count ≡ length content →
        Prepended (header_octets 0 true tag.0 (length content) ++ content) old buf.new result }
    ensures refused { (content old : List ℕ) → buf.old ≡ content ++ old →
        count ≡ length content →
        IfErr result (MayRefuse true
        (length (header_octets 0 true tag.0 (length content) ++ content) + length old)) }
{
    let before = header(tag, count).prepend_der(alloc, buf)?;
    sum_of_written(before, count)
}
