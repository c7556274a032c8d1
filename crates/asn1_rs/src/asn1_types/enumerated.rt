//! One of the numbers that a type names (X.690 8.4).
ghost use Rattle.std.specs.Prelude.{◌≡◌};
ghost use Rattle.x690.specs.Integers.{unsigned_octets};
ghost use Rattle.asn1_rs.specs.Any.{parts_of};
ghost use Rattle.asn1_rs.specs.Enumerated.{enumerated_leaf};
ghost use Rattle.asn1_rs.specs.Leaf.{LeafGives};
ghost use Rattle.asn1_rs.specs.Laws.Enumerated.{enumerated_lawful, enumerated_equal};
ghost use Rattle.asn1_rs.specs.LeafReading.{leaf_reading};
ghost use Rattle.asn1_rs.specs.Laws.Leaf.{leaf_exact, leaf_written};

use crate::asn1_types::any::Any;
use crate::asn1_types::integer::{
    prepend_unsigned_content, put_unsigned_content, unsigned_element,
};
use crate::kinds::assert_valid::DerElement;
use crate::kinds::leaf::{ConvertsLeaf, LeafType};
use crate::kinds::writing::{Piece, WritesElement};
use crate::kinds::{ElementKind, HasKind, TagNumber};
use crate::laws::LawfulMember;
use asn1_headers::buffer::DerBuffer;
use asn1_headers::error::{Error, SerializeResult};
use asn1_headers::tag::Tag;
use asn1_headers::writer::DerWrite;
use std::alloc::Global;
use x690::integers::{unsigned_number, unsigned_octets_count};

/// One of the numbers that a type names (X.690 8.4).
///
/// Its contents octets are read as digits in base 256, without a sign, and any zeros in front of them say nothing. It
/// is written as an integer, so with 00 in front of a first octet of 80 or more (8.3).
#[derive(Debug, Drop, PartialEq, Eq)]
pub struct Enumerated(pub u32);

impl Enumerated {
    /// The value of this number.
    pub const fn new(value: u32) -> Self
        ensures { result.0 ≡ value }
    {
        Enumerated(value)
    }
}

impl Any<'_> {
    /// The enumerated value (X.690 8.4). Refused at another tag number with `UnexpectedTag`, at a constructed element
    /// with `ConstructUnexpected`, and where a `u32` does not hold the number with `IntegerTooLarge`.
    pub fn enumerated(self) -> Result<Enumerated, Error>
        ensures { LeafGives enumerated_leaf (parts_of self.entry) result }
    {
        self.as_enumerated()
    }

    /// The enumerated value, of an element that stays.
    #[inline(always)]
    pub fn as_enumerated(&self) -> Result<Enumerated, Error>
        ensures { LeafGives enumerated_leaf (parts_of self.now) result }
    {
        self.assert_number(Tag::Enumerated)?;
        self.header.assert_primitive()?;
        let number = unsigned_number(self.content, 4).ok_or(Error::IntegerTooLarge)?;
        Ok(Enumerated::new(number as u32))
    }
}

impl HasKind for Enumerated {
    type Kind = ElementKind;
}

impl LeafType for Enumerated {
    type Number = TagNumber<10>;

    ghost reading = { leaf_reading enumerated_leaf };

    ghost exact = { leaf_exact enumerated_leaf enumerated_lawful };

    fn assert_leaf_valid(&self) {
        let _number = self.0;
    }

    /// Refuses an indefinite length with `IndefiniteLengthUnexpected`, and nothing else.
    fn check_leaf(any: &Any<'_>) -> Result<(), Error> {
        any.header.length().assert_definite()
    }
}

impl<'a> ConvertsLeaf<'a> for Enumerated {
    #[inline(always)]
    fn convert_leaf(_alloc: Global, any: Any<'a>) -> Result<Enumerated, Error> {
        any.as_enumerated()
    }
}

impl DerElement for Enumerated {
    ghost each_der = { λ v d. d };
}

impl WritesElement for Enumerated {
    ghost octets = { λ x. unsigned_octets x.0 };

    fn count_octets(&self) -> Result<usize, Error> {
        Ok(unsigned_octets_count(u128::from(self.0)))
    }

    fn put_octets<W: DerWrite>(&self, w: &mut W) -> SerializeResult<usize> {
        put_unsigned_content(u128::from(self.0), w)
    }

    fn prepend_contents(&self, _alloc: Global, buf: &mut DerBuffer) -> SerializeResult<usize> {
        prepend_unsigned_content(u128::from(self.0), buf)
    }

    #[inline(always)]
    fn piece(&self) -> Option<Piece> {
        let (octets, count) = unsigned_element(Tag::Enumerated.0, self.0);
        Some(Piece::new(octets, count))
    }

    ghost written = { leaf_written enumerated_leaf enumerated_lawful };
}

impl LawfulMember for Enumerated {
    ghost same = { enumerated_equal };
}
