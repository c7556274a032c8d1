//! Items of sets: how they are written, in ascending order (X.690 11.6).

mod btree_set;
mod hash_set;
pub mod set_of;

ghost use Rattle.std.specs.Prelude.{◌<◌, ◌≡◌, ◌↔◌, ◌+◌, ◌++◌, ℕ, List, true, length, map, IfOk, IfErr, IsTrue, IsErr};
ghost use Rattle.std.specs.List.{All, concat};
ghost use Rattle.x690.specs.Ascending.{Ascending, arranged};
ghost use Rattle.asn1_headers.specs.Prepended.{Prepended};
ghost use Rattle.asn1_headers.specs.Writer.{Wrote, MayRefuse};
ghost use Rattle.asn1_headers.specs.declared.error.Error.{Error};
ghost use Rattle.asn1_headers.specs.declared.error.SerializeError.{SerializeError};
ghost use Rattle.asn1_rs.specs.Lists.{ArePacked, JoinedWithLengths, SomeRefuses};
ghost use Rattle.asn1_rs.specs.Set.{set_content};
ghost use Rattle.asn1_rs.specs.ToDer.{VectorRefuses, IntoVector, whole_octets, whole_refuses};

use crate::asn1_types::lists::{PackedEncodings, prepend_and_count};
use crate::to_der::ToDer;
use asn1_headers::buffer::{DerBuffer, keep_last, prepend_octets};
use asn1_headers::error::{Error, SerializeError, SerializeResult};
use asn1_headers::writer::{DerWrite, put_all};
use std::alloc::{AllocError, Global};
use x690::ascending::arrange;

/// Each of the encodings, where it stands.
fn pieces_of<'a>(
    octets: &'a [u8],
    lengths: &[usize],
    alloc: Global,
) -> Result<Vec<&'a [u8]>, AllocError>
    ensures { (strings : List (List ℕ)) → JoinedWithLengths strings octets.now lengths.now →
        IfOk result (λ v. map (λ s. s.now) v.items ≡ strings) }
{
    let mut pieces = Vec::with_capacity(alloc, lengths.len())?;
    let mut rest = octets;
    for length in lengths {
        let (piece, others) = rest.split_at((*length).min(rest.len()));
        pieces.push(piece)?;
        rest = others;
    }
    Ok(pieces)
}

/// The encodings joined in ascending order.
fn join_ascending(octets: &[u8], lengths: &[usize], alloc: Global) -> Result<Vec<u8>, AllocError>
    ensures { (strings : List (List ℕ)) → JoinedWithLengths strings octets.now lengths.now →
        IfOk result (λ v. v.items ≡ concat (arranged strings)) }
{
    let mut pieces = pieces_of(octets, lengths, alloc)?;
    arrange(&mut pieces);
    let mut content = Vec::with_capacity(alloc, octets.len())?;
    for piece in &pieces {
        content.extend_from_slice(piece)?;
    }
    Ok(content)
}

/// Whether no encoding is before the one in front of it, in dictionary order.
fn are_ascending(octets: &[u8], lengths: &[usize]) -> bool
    ensures { (strings : List (List ℕ)) → JoinedWithLengths strings octets.now lengths.now →
        IsTrue result ↔ Ascending strings }
{
    let mut last: &[u8] = &[];
    let mut rest = octets;
    for length in lengths {
        let (piece, behind) = rest.split_at((*length).min(rest.len()));
        if piece.cmp(last).is_lt() {
            return false;
        }
        last = piece;
        rest = behind;
    }
    true
}

/// Appends the encodings in ascending order, and answers the number of octets.
pub(crate) fn write_ascending<W: DerWrite>(
    encodings: &PackedEncodings,
    alloc: Global,
    w: &mut W,
) -> SerializeResult<usize>
    ensures wrote { (strings : List (List ℕ)) → ArePacked strings encodings.now →
        Wrote (concat (arranged strings)) (W.state w.old) (W.state w.new) result }
    ensures refused { (strings : List (List ℕ)) → ArePacked strings encodings.now →
        IfErr result (MayRefuse true (length (concat (arranged strings)))) }
{
    if are_ascending(&encodings.octets, &encodings.lengths) {
        return put_all(w, &encodings.octets);
    }
    match join_ascending(&encodings.octets, &encodings.lengths, alloc) {
        Ok(content) => put_all(w, &content),
        Err(_) => Err(SerializeError::OutOfMemory),
    }
}

/// Puts the encodings in ascending order before the octets of the buffer, and answers their number.
pub(crate) fn prepend_ascending(
    encodings: &PackedEncodings,
    alloc: Global,
    buf: &mut DerBuffer,
) -> SerializeResult<usize>
    ensures prepended { (strings : List (List ℕ)) → ArePacked strings encodings.now →
        Prepended (concat (arranged strings)) buf.old buf.new result }
    ensures refused { (strings : List (List ℕ)) → ArePacked strings encodings.now →
        IfErr result (MayRefuse true (length (concat (arranged strings)) + length buf.old)) }
{
    if are_ascending(&encodings.octets, &encodings.lengths) {
        return prepend_octets(&encodings.octets, buf);
    }
    match join_ascending(&encodings.octets, &encodings.lengths, alloc) {
        Ok(content) => prepend_octets(&content, buf),
        Err(_) => Err(SerializeError::OutOfMemory),
    }
}

/// Brings the encodings that stand before so many octets into ascending order, and answers the number of their octets.
/// Where that is refused, they are dropped.
fn arrange_front(
    lengths: &[usize],
    held: usize,
    alloc: Global,
    buf: &mut DerBuffer,
) -> SerializeResult<usize>
    ensures prepended { (strings : List (List ℕ)) (old : List ℕ) →
        buf.old ≡ concat strings ++ old → lengths.now ≡ map length strings →
        held ≡ length old → Prepended (concat (arranged strings)) old buf.new result }
    ensures refused { (strings : List (List ℕ)) (old : List ℕ) →
        buf.old ≡ concat strings ++ old → lengths.now ≡ map length strings →
        held ≡ length old →
        IfErr result (MayRefuse true (length (concat (arranged strings)) + length old)) }
{
    let count = buf.len().saturating_sub(held);
    let front = &buf.as_bytes()[..count];
    if are_ascending(front, lengths) {
        return Ok(count);
    }
    let joined = join_ascending(front, lengths, alloc);
    keep_last(buf, held);
    match joined {
        Ok(arranged) => prepend_octets(&arranged, buf),
        Err(_) => Err(SerializeError::OutOfMemory),
    }
}

/// The lengths of so many items of a set stand on the stack, those of more in a vector.
const FEW_ITEMS: usize = 16;

/// The places for so many lengths: those on the stack, where they are enough.
#[inline(always)]
fn enough_places<'x>(few: &'x mut [usize], many: &'x mut [usize], count: usize) -> &'x mut [usize]
    requires { length few.old < count → length many.old ≡ count }
    ensures { length result.now ≡ count }
{
    if count <= few.len() {
        &mut few[..count]
    } else {
        many
    }
}

/// Puts the items before the octets of the buffer in ascending order, and answers the number of their octets.
///
/// They are put there from the last to the first, and brought into order where they stand. A refusal leaves none.
pub(crate) fn prepend_set<T: ToDer>(
    items: &[T],
    alloc: Global,
    buf: &mut DerBuffer,
) -> SerializeResult<usize>
    ensures prepended { All T.writing.tells items.now →
        Prepended (set_content (whole_octets T.writing) items.now) buf.old buf.new result }
    ensures refused { All T.writing.tells items.now →
        IfErr result (VectorRefuses
        (length (set_content (whole_octets T.writing) items.now) + length buf.old)
        (SomeRefuses (λ x. IntoVector (whole_refuses T.writing x)) items.now)) }
    ensures accepted { (e : SerializeError) → All T.writing.tells items.now →
        SomeRefuses (λ x. IntoVector (whole_refuses T.writing x)) items.now e → IsErr result }
    ensures uncounted { (e : Error) → All T.writing.tells items.now →
        SomeRefuses T.writing.count_refuses items.now e → IsErr result }
{
    let held = buf.len();
    let count = items.len();
    let mut few = [0; FEW_ITEMS];
    let beyond = if count <= FEW_ITEMS { 0 } else { count };
    let Ok(mut many) = vec![in alloc; 0usize; beyond] else {
        return Err(SerializeError::OutOfMemory);
    };
    let lengths = enough_places(&mut few, &mut many, count);
    match prepend_and_count(items, lengths, alloc, buf) {
        Ok(_) => arrange_front(lengths, held, alloc, buf),
        Err(e) => {
            keep_last(buf, held);
            Err(e)
        }
    }
}
