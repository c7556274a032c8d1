//! Integers (X.690 8.3).

mod conversions;
pub(crate) mod machine;
pub(crate) mod octets;
mod signed;
mod unsigned;

ghost use Rattle.std.specs.Prelude.{ℕ, pos, ◌++◌, ◌+◌, ◌≡◌, ◌<◌, ◌≤◌, true, false, length, take, Err};
ghost use Rattle.std.specs.Prelude.{IfOk, IfErr, IfSome};
ghost use Rattle.x690.specs.Elements.{Parts};
ghost use Rattle.asn1_headers.specs.declared.error.Error.{Error};
ghost use Rattle.x690.specs.Digits.{twos_complement_value};
ghost use Rattle.x690.specs.Integers.{unsigned_octets};
ghost use Rattle.x690.specs.Signed.{IsSigned, signed_octets};
ghost use Rattle.x690.specs.Strict.{header_octets};
ghost use Rattle.asn1_rs.specs.Any.{parts_of};
ghost use Rattle.asn1_rs.specs.Integer.{integer_number, IntegerCheckGives, IsUnsigned, UnsignedRefuses, UnsignedGives};
ghost use Rattle.asn1_rs.specs.Integer.{SignedGives, SignedRefuses, IsIntegerOr};
ghost use Rattle.asn1_headers.specs.Prepended.{Prepended};
ghost use Rattle.asn1_headers.specs.Writer.{Wrote, MayRefuse};
ghost use Rattle.asn1_rs.specs.Kinds.Writing.{IsPieceOf};

use crate::asn1_types::any::Any;
use crate::kinds::writing::Piece;
use asn1_headers::buffer::{DerBuffer, prepend_octets};
use asn1_headers::error::{DerConstraint, Error, SerializeResult};
use asn1_headers::tag::Tag;
use asn1_headers::writer::{DerWrite, put_all};
use x690::integers::{has_redundant_ones, has_redundant_zeros, unsigned_into, unsigned_number};
use x690::signed::{integer_element, signed_into, signed_number};

/// Refuses an element that is constructed, has an indefinite length, or whose contents octets are not the fewest of
/// their number (X.690 8.3.1, 8.3.2). It is the check of all integers.
#[inline(always)]
pub(crate) fn check_integer(any: &Any<'_>) -> Result<(), Error>
    ensures { IntegerCheckGives (parts_of any.now) result }
{
    any.header.assert_primitive()?;
    any.header.length().assert_definite()?;
    if any.content.is_empty() {
        return Err(Error::DerConstraintFailed(DerConstraint::IntegerEmpty));
    }
    if has_redundant_zeros(any.content) {
        return Err(Error::DerConstraintFailed(DerConstraint::IntegerLeadingZeroes));
    }
    if has_redundant_ones(any.content) {
        return Err(Error::DerConstraintFailed(DerConstraint::IntegerLeadingFF));
    }
    Ok(())
}

/// Refuses an element that has another tag number than integers, or is constructed (X.690 8.3.1).
#[inline(always)]
fn assert_integer(any: &Any<'_>) -> Result<(), Error>
    ensures { IsIntegerOr (parts_of any.now) result }
{
    any.header.assert_tag(Tag::Integer)?;
    any.header.assert_primitive()
}

/// The natural number of contents octets, which fits in so many octets.
#[inline(always)]
fn unsigned_from_content(content: &[u8], size: usize) -> Result<u128, Error>
    requires { size ≤ 16 }
    ensures number { IfOk result (λ n. pos n ≡ twos_complement_value content.now) }
    ensures held { IfOk result (λ n. IsUnsigned size (pos n)) }
    ensures refused { IfErr result (UnsignedRefuses size content.now) }
{
    if content.first().is_some_and(|first| *first >= 0x80) {
        return Err(Error::IntegerNegative);
    }
    unsigned_number(content, size).ok_or(Error::IntegerTooLarge)
}

/// The natural number of an element, which fits in so many octets.
#[inline(always)]
pub(crate) fn unsigned_from_any(any: &Any<'_>, size: usize) -> Result<u128, Error>
    requires { size ≤ 16 }
    ensures { UnsignedGives size (parts_of any.now) result }
{
    assert_integer(any)?;
    unsigned_from_content(any.content, size)
}

/// Appends the strict contents octets of a natural number, and answers their number.
#[inline(always)]
pub(crate) fn put_unsigned_content<W: DerWrite>(n: u128, w: &mut W) -> SerializeResult<usize>
    ensures wrote { Wrote (unsigned_octets n) (W.state w.old) (W.state w.new) result }
    ensures refused { IfErr result (MayRefuse false (length (unsigned_octets n))) }
{
    let mut octets = [0; 17];
    let first = unsigned_into(n, &mut octets);
    put_all(w, &octets[first..])
}

/// Puts the strict contents octets of a natural number before those of the buffer, and answers their number.
pub(crate) fn prepend_unsigned_content(n: u128, buf: &mut DerBuffer) -> SerializeResult<usize>
    ensures prepended { Prepended (unsigned_octets n) buf.old buf.new result }
    ensures refused { IfErr result (MayRefuse true (length (unsigned_octets n) + length buf.old)) }
{
    let mut octets = [0; 17];
    let start = unsigned_into(n, &mut octets);
    prepend_octets(&octets[start..], buf)
}

/// The integer of contents octets, which fits in so many octets.
#[inline(always)]
fn signed_from_content(content: &[u8], size: usize) -> Result<i128, Error>
    requires some { 1 ≤ size }
    requires few { size ≤ 16 }
    ensures number { IfOk result (λ n. n ≡ twos_complement_value content.now) }
    ensures held { IfOk result (λ n. IsSigned size n) }
    ensures refused { IfErr result (SignedRefuses size content.now) }
{
    signed_number(content, size).ok_or(Error::IntegerTooLarge)
}

/// The integer of an element, which fits in so many octets.
#[inline(always)]
pub(crate) fn signed_from_any(any: &Any<'_>, size: usize) -> Result<i128, Error>
    requires some { 1 ≤ size }
    requires few { size ≤ 16 }
    ensures { SignedGives size (parts_of any.now) result }
{
    assert_integer(any)?;
    signed_from_content(any.content, size)
}

/// Appends the strict contents octets of an integer, and answers their number.
#[inline(always)]
pub(crate) fn put_signed_content<W: DerWrite>(n: i128, w: &mut W) -> SerializeResult<usize>
    ensures wrote { Wrote (signed_octets n) (W.state w.old) (W.state w.new) result }
    ensures refused { IfErr result (MayRefuse false (length (signed_octets n))) }
{
    let mut octets = [0; 17];
    let first = signed_into(n, &mut octets);
    put_all(w, &octets[first..])
}

/// Puts the strict contents octets of an integer before those of the buffer, and answers their number.
pub(crate) fn prepend_signed_content(n: i128, buf: &mut DerBuffer) -> SerializeResult<usize>
    ensures prepended { Prepended (signed_octets n) buf.old buf.new result }
    ensures refused { IfErr result (MayRefuse true (length (signed_octets n) + length buf.old)) }
{
    let mut octets = [0; 17];
    let start = signed_into(n, &mut octets);
    prepend_octets(&octets[start..], buf)
}

/// The strict element of a natural number at the front of the array, and how many octets it has. It is of the universal
/// class with this tag number.
#[inline(always)]
pub(crate) fn unsigned_element(number: u32, n: u32) -> ([u8; 16], usize)
    requires { number < 31 }
    ensures element { take result.1 result.0 ≡
        header_octets 0 false number (length (unsigned_octets n)) ++ unsigned_octets n }
    ensures few { result.1 ≤ 10 }
{
    integer_element(number, i64::from(n))
}

/// The strict element of a natural number in one piece, where an `i64` holds it.
#[inline(always)]
fn unsigned_piece(n: u64) -> Option<Piece>
    ensures { IfSome result (IsPieceOf false
        (header_octets 0 false integer_number (length (unsigned_octets n)) ++ unsigned_octets n)) }
{
    let Ok(n) = i64::try_from(n) else {
        return None;
    };
    let (octets, count) = integer_element(Tag::Integer.0, n);
    Some(Piece::new(octets, count))
}

/// The check of an integer allows one refusal for one element, and so does the conversion to a natural number,
/// and to an integer.
pub fn integers_have_one_refusal()
    ensures check { (p : Parts) (e f : Error) → IntegerCheckGives p (Err e) →
        IntegerCheckGives p (Err f) → e ≡ f }
    ensures unsigned { (size : ℕ) (p : Parts) (e f : Error) → UnsignedGives size p (Err e) →
        UnsignedGives size p (Err f) → e ≡ f }
    ensures signed { (size : ℕ) (p : Parts) (e f : Error) → SignedGives size p (Err e) →
        SignedGives size p (Err f) → e ≡ f }
{}
