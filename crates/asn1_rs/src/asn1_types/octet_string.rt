//! Octet strings (X.690 8.7).
ghost use Rattle.std.specs.Prelude.{◌≡◌, IfOk};
ghost use Rattle.std.specs.Cow.{IsBorrowedSlice};
ghost use Rattle.asn1_rs.specs.Any.{parts_of};
ghost use Rattle.asn1_rs.specs.Checks.{is_primitive};
ghost use Rattle.asn1_rs.specs.Leaf.{LeafGives};
ghost use Rattle.asn1_rs.specs.LeafReading.{leaf_reading, lent_reading};
ghost use Rattle.asn1_rs.specs.Laws.Leaf.{leaf_exact, lent_exact, leaf_written};
ghost use Rattle.asn1_rs.specs.Laws.OctetString.{octet_string_lawful, octet_string_equal, slice_lawful, slice_equal};
ghost use Rattle.asn1_rs.specs.OctetString.{octet_string_leaf, slice_leaf, string_octets, cow_of};

use crate::asn1_types::any::Any;
use crate::kinds::assert_valid::DerElement;
use crate::kinds::leaf::{ConvertsLeaf, LeafType};
use crate::kinds::writing::WritesOctets;
use crate::kinds::{ElementKind, HasKind, TagNumber};
use crate::laws::LawfulMember;
use crate::laws::assert_valid::assert_octets_valid;
use asn1_headers::error::Error;
use asn1_headers::tag::Tag;
use std::alloc::Global;
use std::borrow::CowSlice;

/// An octet string, whose octets are borrowed or owned (X.690 8.7).
///
/// Two are equal where their octets are.
#[derive(Debug, Drop, PartialEq, Eq)]
pub struct OctetString<'a> {
    octets: CowSlice<'a, u8, Global>,
}

impl<'a> OctetString<'a> {
    /// The octet string of these octets, which it borrows.
    pub const fn new(s: &'a [u8]) -> Self
        ensures octets { string_octets result ≡ s.now }
        ensures borrowed { IsBorrowedSlice (cow_of result) }
    {
        OctetString {
            octets: CowSlice::Borrowed(s),
        }
    }

    /// The octet string of these octets, as they are held.
    pub(crate) const fn of_cow(octets: CowSlice<'a, u8, Global>) -> Self
        ensures { cow_of result ≡ octets.entry }
    {
        OctetString { octets }
    }

    /// The octets, as they are held.
    pub const fn as_cow(&self) -> &CowSlice<'a, u8, Global>
        ensures { result.now ≡ cow_of self.now }
    {
        &self.octets
    }

    /// The octets, as they are held.
    pub fn into_cow(self) -> CowSlice<'a, u8, Global>
        ensures { result ≡ cow_of self.entry }
    {
        self.octets
    }

    /// The octets.
    pub fn as_bytes(&self) -> &[u8]
        ensures { result.now ≡ string_octets self.now }
    {
        self.as_cow().as_slice()
    }
}

impl<'a> From<&'a [u8]> for OctetString<'a> {
    ghost from_gives = { λ s x. string_octets x ≡ s.now };

    /// The octet string of these octets, which it borrows.
    fn from(s: &'a [u8]) -> Self
        ensures octets { string_octets result ≡ s.now }
        ensures borrowed { IsBorrowedSlice (cow_of result) }
    {
        OctetString::new(s)
    }
}

impl<'a> Any<'a> {
    /// The octet string of the contents octets, which are borrowed, whether the element is primitive or constructed.
    /// Refused at another tag number with `UnexpectedTag`.
    pub fn octetstring(self) -> Result<OctetString<'a>, Error>
        ensures gives { LeafGives octet_string_leaf (parts_of self.entry) result }
        ensures borrowed { IfOk result (λ s. IsBorrowedSlice (cow_of s)) }
    {
        self.as_octetstring()
    }

    /// The octet string, of an element that stays.
    #[inline(always)]
    pub fn as_octetstring(&self) -> Result<OctetString<'a>, Error>
        ensures gives { LeafGives octet_string_leaf (parts_of self.now) result }
        ensures borrowed { IfOk result (λ s. IsBorrowedSlice (cow_of s)) }
    {
        self.assert_number(Tag::OctetString)?;
        Ok(OctetString::new(self.content))
    }
}

impl HasKind for OctetString<'_> {
    type Kind = ElementKind;
}

impl LeafType for OctetString<'_> {
    type Number = TagNumber<4>;

    ghost reading = { lent_reading octet_string_leaf cow_of };

    ghost exact = { lent_exact octet_string_leaf octet_string_lawful cow_of };

    fn assert_leaf_valid(&self) {
        assert_octets_valid(self.as_bytes());
    }

    /// Refuses a constructed element with `ConstructUnexpected` (X.690 10.2).
    fn check_leaf(any: &Any<'_>) -> Result<(), Error>
        ensures { is_primitive (parts_of any.now) result }
    {
        any.header.assert_primitive()
    }
}

impl<'a> ConvertsLeaf<'a> for OctetString<'a> {
    #[inline(always)]
    fn convert_leaf(_alloc: Global, any: Any<'a>) -> Result<OctetString<'a>, Error> {
        any.as_octetstring()
    }
}

impl DerElement for OctetString<'_> {
    ghost each_der = { λ v d. d };
}

impl WritesOctets for OctetString<'_> {
    ghost held = { string_octets };

    fn contents_octets(&self) -> &[u8] {
        self.as_bytes()
    }

    ghost held_are = { leaf_written octet_string_leaf octet_string_lawful };
}

impl LawfulMember for OctetString<'_> {
    ghost same = { octet_string_equal };
}

/// Octets are an element of their own, and no reference to one.
impl HasKind for &[u8] {
    type Kind = ElementKind;
}

impl LeafType for &[u8] {
    type Number = TagNumber<4>;

    ghost reading = { leaf_reading slice_leaf };

    ghost exact = { leaf_exact slice_leaf slice_lawful };

    fn assert_leaf_valid(&self) {
        assert_octets_valid(*self);
    }

    /// Refuses a constructed element with `ConstructUnexpected` (X.690 10.2).
    fn check_leaf(any: &Any<'_>) -> Result<(), Error>
        ensures { is_primitive (parts_of any.now) result }
    {
        any.header.assert_primitive()
    }
}

impl<'a> ConvertsLeaf<'a> for &'a [u8] {
    /// The contents octets, whether the element is primitive or constructed. Refused at another tag number with
    /// `UnexpectedTag`.
    #[inline(always)]
    fn convert_leaf(_alloc: Global, any: Any<'a>) -> Result<&'a [u8], Error> {
        any.assert_number(Tag::OctetString)?;
        Ok(any.content)
    }
}

impl DerElement for &[u8] {
    ghost each_der = { λ v d. d };
}

impl WritesOctets for &[u8] {
    ghost held = { λ x. x.now };

    fn contents_octets(&self) -> &[u8] {
        *self
    }

    ghost held_are = { leaf_written slice_leaf slice_lawful };
}

impl LawfulMember for &[u8] {
    ghost same = { slice_equal };
}
