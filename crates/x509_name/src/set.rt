//! Items that are written as a set of them.
ghost use Rattle.std.specs.Prelude.{◌≡◌, ◌+◌, length, map, true, IfOk, IfErr};
ghost use Rattle.std.specs.List.{All};
ghost use Rattle.asn1_rs.specs.Prelude.{items_of, MayRefuse, Prepended, whole_octets, whole_refuses, Wrote};
ghost use Rattle.asn1_headers.specs.declared.error.SerializeError.TheVariants as serialize_errors;
ghost use Rattle.asn1_rs.specs.Set.{set_content};
ghost use Rattle.asn1_rs.specs.ToDer.{HasNone};

use asn1_rs::{DerBuffer, DerWrite, SerializeResult, SetOf, Tagged, ToDer};
use std::alloc::Global;

/// The items in a set, which does not own them.
fn set_of<T>(alloc: Global, items: &[T]) -> SerializeResult<SetOf<&T>>
    ensures set { IfOk result (λ s. map (λ r. r.now) (items_of s) ≡ items.now) }
    ensures refused { IfErr result (λ e. e ≡ serialize_errors.OutOfMemory) }
{
    let mut members = Vec::new(alloc);
    for item in items {
        members.push(item)?;
    }
    Ok(SetOf::new(members))
}

/// Appends the items in ascending order of their encodings, and answers the number of octets.
pub(crate) fn write_set<T: Tagged + ToDer, W: DerWrite>(
    items: &[T],
    alloc: Global,
    w: &mut W,
) -> SerializeResult<usize>
    ensures wrote { All T.writing.tells items.now →
        Wrote (set_content (whole_octets T.writing) items.now) (W.state w.old) (W.state w.new)
        result }
    ensures refused { All T.writing.tells items.now →
        ((x : T) → HasNone (whole_refuses T.writing x)) →
        IfErr result (MayRefuse true (length (set_content (whole_octets T.writing) items.now))) }
{
    set_of(alloc, items)?.write_der_content(alloc, w)
}

/// Puts the items before the octets of the buffer, in ascending order of their encodings. Answers the number of their
/// octets.
pub(crate) fn prepend_set<T: Tagged + ToDer>(
    items: &[T],
    alloc: Global,
    buf: &mut DerBuffer,
) -> SerializeResult<usize>
    ensures prepended { All T.writing.tells items.now →
        Prepended (set_content (whole_octets T.writing) items.now) buf.old buf.new result }
    ensures refused { All T.writing.tells items.now →
        ((x : T) → HasNone (whole_refuses T.writing x)) → IfErr result
        (MayRefuse true
        (length (set_content (whole_octets T.writing) items.now) + length buf.old)) }
{
    set_of(alloc, items)?.prepend_der_content(alloc, buf)
}
