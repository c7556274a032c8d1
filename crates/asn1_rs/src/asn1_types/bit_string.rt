//! Bit strings (X.690 8.6, 11.2).
ghost use Rattle.std.specs.Prelude.{◌≡◌, ◌∷◌, ◌++◌, ◌+◌, ◌<◌, ◌↔◌, true, false, length, IsTrue, IfOk, IfErr};
ghost use Rattle.std.specs.Cow.{IsBorrowedSlice};
ghost use Rattle.asn1_rs.specs.Any.{parts_of};
ghost use Rattle.asn1_rs.specs.BitString.{bit_string_leaf, bit_string_constraints, bit_string_octets, data_of, bit_of};
ghost use Rattle.asn1_rs.specs.BitString.{bit_string_number, AreStrictBits, IsZeroPadded};
ghost use Rattle.asn1_rs.specs.Kinds.Writing.{universal_header};
ghost use Rattle.asn1_rs.specs.Leaf.{LeafGives};
ghost use Rattle.asn1_rs.specs.Laws.BitString.{bit_string_lawful, bit_string_equal};
ghost use Rattle.asn1_rs.specs.LeafReading.{lent_reading};
ghost use Rattle.asn1_rs.specs.Laws.Leaf.{lent_exact, leaf_written};
ghost use Rattle.asn1_headers.specs.Prepended.{Prepended};
ghost use Rattle.asn1_headers.specs.Writer.{Wrote, MayRefuse};

use crate::asn1_types::any::Any;
use crate::header::put_behind;
use crate::kinds::der_form::TellsDerElement;
use crate::kinds::leaf::{ConvertsLeaf, LeafType};
use crate::kinds::writing::WritesElement;
use crate::kinds::{ElementKind, HasKind, TagNumber};
use crate::laws::LawfulMember;
use crate::laws::assert_valid::assert_octets_valid;
use asn1_headers::buffer::{DerBuffer, prepend_behind, prepend_octets};
use asn1_headers::error::{DerConstraint, Error, SerializeResult};
use asn1_headers::header::writing::put_header;
use asn1_headers::tag::Tag;
use asn1_headers::writer::{DerWrite, add_written, put_all};
use std::alloc::Global;
use std::borrow::CowSlice;

/// A bit string: octets that have its bits, and how many bits at the end of the last octet are unused (X.690 8.6).
///
/// Two are equal where their counts and their octets are, with the unused bits of these.
#[derive(Debug, Clone, Drop, PartialEq, Eq)]
pub struct BitString<'a> {
    /// How many bits of the last octet are unused, at most 7 of a strict one (8.6.2.2).
    pub unused_bits: u8,
    /// The octets that have the bits, the first bit the highest of the first octet (8.6.2.1).
    pub content: CowSlice<'a, u8, Global>,
}

impl<'a> BitString<'a> {
    /// The bits of these octets, which it borrows, but for so many unused ones.
    pub const fn new(unused_bits: u8, s: &'a [u8]) -> Self
        ensures unused { result.unused_bits ≡ unused_bits }
        ensures octets { data_of result ≡ s.now }
        ensures borrowed { IsBorrowedSlice result.content }
    {
        BitString {
            unused_bits,
            content: CowSlice::Borrowed(s),
        }
    }

    /// The octets that have the bits.
    pub fn as_bytes(&self) -> &[u8]
        ensures { result.now ≡ data_of self.now }
    {
        self.content.as_slice()
    }

    /// Whether this bit is set; bit 0 is the highest of the first octet (8.6.2.1). An unused bit is looked at as any
    /// other, and past the octets no bit is set.
    pub fn is_set(&self, bitnum: usize) -> bool
        ensures { IsTrue result ↔ (bit_of (data_of self.now) bitnum ≡ 1) }
    {
        match self.as_bytes().get(bitnum / 8) {
            Some(octet) => *octet >> (7 - bitnum % 8) & 1 == 1,
            None => false,
        }
    }
}

impl<'a> Any<'a> {
    /// The bit string of the contents octets, whether the element is primitive or constructed. The first octet is the
    /// count of unused bits, whatever it is, and the others are borrowed. Refused at another tag number with
    /// `UnexpectedTag`, and where there are no contents octets with `InvalidLength`.
    pub fn bitstring(self) -> Result<BitString<'a>, Error>
        ensures gives { LeafGives bit_string_leaf (parts_of self.entry) result }
        ensures borrowed { IfOk result (λ s. IsBorrowedSlice s.content) }
    {
        self.as_bitstring()
    }

    /// The bit string, of an element that stays.
    #[inline(always)]
    pub fn as_bitstring(&self) -> Result<BitString<'a>, Error>
        ensures gives { LeafGives bit_string_leaf (parts_of self.now) result }
        ensures borrowed { IfOk result (λ s. IsBorrowedSlice s.content) }
    {
        self.assert_number(Tag::BitString)?;
        match self.content.split_first() {
            Some((unused_bits, octets)) => Ok(BitString::new(*unused_bits, octets)),
            None => Err(Error::InvalidLength),
        }
    }
}

/// Whether at most seven bits are unused, and these are zero.
#[inline(always)]
fn is_zero_padded(unused_bits: u8, octets: &[u8]) -> bool
    ensures { IsTrue result ↔ IsZeroPadded (record { unused = unused_bits; octets = octets.now }) }
{
    match octets.last() {
        Some(octet) => unused_bits <= 7 && u32::from(unused_bits) <= octet.trailing_zeros(),
        None => unused_bits <= 7,
    }
}

/// Whether at most seven bits are unused, and these are zero, and none is unused where there is no octet.
fn are_strict_bits(unused_bits: u8, octets: &[u8]) -> bool
    ensures { IsTrue result ↔ AreStrictBits (record { unused = unused_bits; octets = octets.now }) }
{
    assert_octets_valid(octets);
    if octets.is_empty() {
        return unused_bits == 0;
    }
    is_zero_padded(unused_bits, octets)
}

/// Appends the count of unused bits, and then the octets.
#[inline(always)]
fn put_bits<W: DerWrite>(unused_bits: u8, octets: &[u8], w: &mut W) -> SerializeResult<usize>
    ensures wrote { Wrote (unused_bits ∷ octets.now) (W.state w.old) (W.state w.new) result }
    ensures refused { IfErr result (MayRefuse false (length (unused_bits ∷ octets.now))) }
{
    let before = put_all(w, &[unused_bits])?;
    let after = put_all(w, octets)?;
    add_written(before, after)
}

/// Puts the octets before those of the buffer, and the count of unused bits before them. Where the count finds no room,
/// the octets stay.
fn prepend_bits(unused_bits: u8, octets: &[u8], buf: &mut DerBuffer) -> SerializeResult<usize>
    ensures prepended { Prepended (unused_bits ∷ octets.now) buf.old buf.new result }
    ensures refused { IfErr result
        (MayRefuse true (length (unused_bits ∷ octets.now) + length buf.old)) }
{
    match prepend_octets(octets, buf) {
        Ok(after) => prepend_behind(&[unused_bits], after, buf),
        Err(e) => Err(e),
    }
}

/// Appends the whole element, of few octets: the header and the count of unused bits in one piece, then the octets.
// (a `match` hands the large answers on faster than `?`)
#[inline(always)]
fn put_short_bits<W: DerWrite>(unused_bits: u8, octets: &[u8], w: &mut W) -> SerializeResult<usize>
    requires { length octets.now < 127 }
    ensures wrote { Wrote
        (universal_header bit_string_number (unused_bits ∷ octets.now)
        ++ unused_bits ∷ octets.now)
        (W.state w.old) (W.state w.new) result }
    ensures refused { IfErr result (MayRefuse false
        (length (universal_header bit_string_number (unused_bits ∷ octets.now)
        ++ unused_bits ∷ octets.now))) }
    ensures fits { IfErr result (MayRefuse false 0) }
{
    match put_all(w, &[3, 1 + octets.len() as u8, unused_bits]) {
        Ok(before) => match put_all(w, octets) {
            Ok(after) => add_written(before, after),
            Err(e) => Err(e),
        },
        Err(e) => Err(e),
    }
}

/// Appends the whole element (X.690 8.1.2, 8.1.3, 8.6.2).
#[inline(always)]
fn put_bits_element<W: DerWrite>(
    unused_bits: u8,
    octets: &[u8],
    w: &mut W,
) -> SerializeResult<usize>
    ensures wrote { Wrote
        (universal_header bit_string_number (unused_bits ∷ octets.now)
        ++ unused_bits ∷ octets.now)
        (W.state w.old) (W.state w.new) result }
    ensures refused { IfErr result (MayRefuse false
        (length (universal_header bit_string_number (unused_bits ∷ octets.now)
        ++ unused_bits ∷ octets.now))) }
    ensures fits { IfErr result (MayRefuse false 0) }
{
    let count = octets.len();
    if count < 127 {
        return put_short_bits(unused_bits, octets, w);
    }
    let header = put_header(0, false, 3, 1 + count, w);
    let front = put_behind(header, &[unused_bits], w);
    put_behind(front, octets, w)
}

impl HasKind for BitString<'_> {
    type Kind = ElementKind;
}

impl LeafType for BitString<'_> {
    type Number = TagNumber<3>;

    ghost reading = { lent_reading bit_string_leaf (λ s. s.content) };

    ghost exact = { lent_exact bit_string_leaf bit_string_lawful (λ s. s.content) };

    fn assert_leaf_valid(&self) {
        let _count = self.unused_bits;
        assert_octets_valid(self.as_bytes());
    }

    /// Refuses a constructed element with `ConstructUnexpected` (X.690 10.2). It refuses no contents octets, or one
    /// alone that is not 0, with `InvalidLength` (8.6.2.3). It refuses more than seven unused bits, or one that is not
    /// zero, with `DerConstraintFailed(UnusedBitsNotZero)` (8.6.2.2, 11.2.1).
    fn check_leaf(any: &Any<'_>) -> Result<(), Error>
        ensures { bit_string_constraints (parts_of any.now) result }
    {
        any.header.assert_primitive()?;
        match any.content.split_first() {
            None | Some((1.., [])) => Err(Error::InvalidLength),
            Some((unused_bits, octets)) if is_zero_padded(*unused_bits, octets) => Ok(()),
            Some(_) => Err(Error::DerConstraintFailed(DerConstraint::UnusedBitsNotZero)),
        }
    }
}

impl<'a> ConvertsLeaf<'a> for BitString<'a> {
    #[inline(always)]
    fn convert_leaf(_alloc: Global, any: Any<'a>) -> Result<BitString<'a>, Error> {
        any.as_bitstring()
    }
}

impl WritesElement for BitString<'_> {
    ghost octets = { bit_string_octets };

    fn count_octets(&self) -> Result<usize, Error> {
        Ok(1 + self.as_bytes().len())
    }

    fn put_octets<W: DerWrite>(&self, w: &mut W) -> SerializeResult<usize> {
        put_bits(self.unused_bits, self.as_bytes(), w)
    }

    #[inline(always)]
    fn put_element<W: DerWrite>(&self, w: &mut W) -> SerializeResult<usize> {
        put_bits_element(self.unused_bits, self.as_bytes(), w)
    }

    fn prepend_contents(&self, _alloc: Global, buf: &mut DerBuffer) -> SerializeResult<usize> {
        prepend_bits(self.unused_bits, self.as_bytes(), buf)
    }

    ghost written = { leaf_written bit_string_leaf bit_string_lawful };
}

/// Where at most seven bits are unused, and these are zero, and none is unused where there is no octet (X.690 8.6.2,
/// 11.2.1).
impl TellsDerElement for BitString<'_> {
    fn is_der_element(&self) -> bool {
        are_strict_bits(self.unused_bits, self.as_bytes())
    }
}

impl LawfulMember for BitString<'_> {
    ghost same = { bit_string_equal };
}
