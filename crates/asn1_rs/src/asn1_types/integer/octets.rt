//! Integers of any size, by their contents octets (X.690 8.3).
ghost use Rattle.std.specs.Prelude.{◌≡◌, ◌≤◌, ◌↔◌, false, length, None, pos, IfOk, IsTrue};
ghost use Rattle.x690.specs.Digits.{base_256_value};
ghost use Rattle.x690.specs.Integers.{IsShortestInteger};
ghost use Rattle.asn1_rs.specs.Any.{parts_of};
ghost use Rattle.asn1_headers.specs.Header.{HasParts};
ghost use Rattle.asn1_rs.specs.Integer.{integer_number, IntegerCheckGives};
ghost use Rattle.asn1_rs.specs.Integer.Machine.{GivesBack};
ghost use Rattle.asn1_rs.specs.Integer.Octets.{content_slice, integer_octets, any_integer_leaf, BorrowsOctets};
ghost use Rattle.asn1_rs.specs.Integer.Octets.{HasContentOr};
ghost use Rattle.asn1_rs.specs.Leaf.{LeafGives};
ghost use Rattle.asn1_rs.specs.Laws.Integer.Octets.{any_integer_lawful, octets_equal};
ghost use Rattle.asn1_rs.specs.LeafReading.{lent_reading};
ghost use Rattle.asn1_rs.specs.Laws.Leaf.{lent_exact, leaf_written};
ghost use Rattle.asn1_headers.specs.declared.class.Class.TheVariants as classes;
ghost use Rattle.asn1_headers.specs.declared.length.Length.TheVariants as forms;

use crate::asn1_types::any::Any;
use crate::asn1_types::integer::check_integer;
use crate::asn1_types::integer::machine::MachineInt;
use crate::kinds::der_form::TellsDerElement;
use crate::kinds::leaf::{ConvertsLeaf, LeafType};
use crate::kinds::writing::WritesOctets;
use crate::kinds::{ElementKind, HasKind, TagNumber};
use crate::laws::LawfulMember;
use crate::laws::assert_valid::assert_octets_valid;
use asn1_headers::error::Error;
use asn1_headers::tag::Tag;
use std::alloc::Global;
use std::borrow::CowSlice;
use x690::integers::{has_redundant_ones, has_redundant_zeros, natural_parts};

/// An integer of any size, as the contents octets that say it in two's complement (X.690 8.3).
///
/// It holds octets as they stand, also where there are none or some could be left out, and is written so. It is in DER
/// form where there is one, and none that could be left out (8.3.1, 8.3.2). Two are equal where their octets are.
#[derive(Debug, Drop, PartialEq, Eq)]
pub struct Integer<'a> {
    octets: CowSlice<'a, u8, Global>,
}

impl<'a> Integer<'a> {
    /// The integer of these contents octets, which it borrows.
    pub fn new(s: &'a [u8]) -> Self
        ensures octets { integer_octets result ≡ s.now }
        ensures borrowed { BorrowsOctets result }
    {
        Integer {
            octets: CowSlice::Borrowed(s),
        }
    }

    /// The integer of these contents octets, as they are held.
    pub(crate) const fn of_cow(octets: CowSlice<'a, u8, Global>) -> Self
        ensures { content_slice result ≡ octets.entry }
    {
        Integer { octets }
    }

    /// A universal, primitive element of its contents octets, which the header counts.
    pub fn any(&'a self) -> Any<'a>
        ensures header { HasParts result.header classes.Universal false
            (record { 0 = integer_number }) (forms.Definite (length (integer_octets self.now)))
            None }
        ensures content { result.content.now ≡ integer_octets self.now }
    {
        Any::from_tag_and_data(Tag::Integer, self.as_bytes())
    }

    /// The contents octets.
    pub fn as_bytes(&self) -> &[u8]
        ensures { result.now ≡ integer_octets self.now }
    {
        self.octets.as_slice()
    }
}

impl Integer<'static> {
    /// The strict contents octets of a machine integer, in memory of its own: the fewest that say it in two's
    /// complement (X.690 8.3.2, 8.3.3). Converted to that type, they give the machine integer again.
    ///
    /// Refused where memory is, with `OutOfMemory`.
    pub fn from<M: MachineInt>(alloc: Global, x: M) -> Result<Integer<'static>, Error>
        ensures strict { HasContentOr (M.machine.number x) result }
        ensures back { IfOk result (λ i. GivesBack M.machine x (integer_octets i)) }
    {
        let mut octets = [0; 17];
        let first = x.octets_into(&mut octets);
        Ok(Integer {
            octets: CowSlice::Owned(Vec::from_slice(alloc, &octets[first..])?),
        })
    }

    /// The strict contents octets of the natural number whose digits in base 256 the array has, in memory of its own
    /// (X.690 8.3.2, 8.3.3). Leading zeros say nothing, and 00 stands in front of a first octet of 80 or more.
    ///
    /// Refused where memory is, with `OutOfMemory`.
    pub fn from_const_array<const N: usize>(
        alloc: Global,
        b: [u8; N],
    ) -> Result<Integer<'static>, Error>
        requires { 1 ≤ N }
        ensures { HasContentOr (pos (base_256_value b.entry)) result }
    {
        let (sign, digits) = natural_parts(&b);
        let mut octets = Vec::from_slice(alloc, sign)?;
        octets.extend_from_slice(digits)?;
        Ok(Integer {
            octets: CowSlice::Owned(octets),
        })
    }
}

impl<'a> Any<'a> {
    /// The integer by its contents octets, which are borrowed (X.690 8.3). Refused at another tag number with
    /// `UnexpectedTag`, and nowhere else.
    pub fn integer(self) -> Result<Integer<'a>, Error>
        ensures gives { LeafGives any_integer_leaf (parts_of self.entry) result }
        ensures borrowed { IfOk result BorrowsOctets }
    {
        self.as_integer()
    }

    /// The integer by its contents octets, of an element that stays.
    #[inline(always)]
    pub fn as_integer(&self) -> Result<Integer<'a>, Error>
        ensures gives { LeafGives any_integer_leaf (parts_of self.now) result }
        ensures borrowed { IfOk result BorrowsOctets }
    {
        self.assert_number(Tag::Integer)?;
        Ok(Integer::new(self.content))
    }
}

/// Whether there is an octet, and none that could be left out.
fn is_shortest_integer(octets: &[u8]) -> bool
    ensures { IsTrue result ↔ IsShortestInteger octets.now }
{
    !octets.is_empty() && !has_redundant_zeros(octets) && !has_redundant_ones(octets)
}

impl HasKind for Integer<'_> {
    type Kind = ElementKind;
}

impl LeafType for Integer<'_> {
    type Number = TagNumber<2>;

    ghost reading = { lent_reading any_integer_leaf content_slice };

    ghost exact = { lent_exact any_integer_leaf any_integer_lawful content_slice };

    fn assert_leaf_valid(&self) {
        assert_octets_valid(self.as_bytes());
    }

    fn check_leaf(any: &Any<'_>) -> Result<(), Error>
        ensures { IntegerCheckGives (parts_of any.now) result }
    {
        check_integer(any)
    }
}

impl<'a> ConvertsLeaf<'a> for Integer<'a> {
    #[inline(always)]
    fn convert_leaf(_alloc: Global, any: Any<'a>) -> Result<Integer<'a>, Error> {
        any.as_integer()
    }
}

impl WritesOctets for Integer<'_> {
    ghost held = { integer_octets };

    fn contents_octets(&self) -> &[u8] {
        self.as_bytes()
    }

    ghost held_are = { leaf_written any_integer_leaf any_integer_lawful };
}

/// Where there is an octet, and none that could be left out (X.690 8.3.1, 8.3.2).
impl TellsDerElement for Integer<'_> {
    fn is_der_element(&self) -> bool {
        let octets = self.as_bytes();
        assert_octets_valid(octets);
        is_shortest_integer(octets)
    }
}

impl LawfulMember for Integer<'_> {
    ghost same = { octets_equal };
}
