//! The null value (X.690 8.8).
ghost use Rattle.std.specs.Prelude.{◌≡◌, []};
ghost use Rattle.std.proofs.Common.{refl};
ghost use Rattle.asn1_rs.specs.Any.{parts_of};
ghost use Rattle.asn1_rs.specs.Checks.{nothing};
ghost use Rattle.asn1_rs.specs.Leaf.{LeafGives};
ghost use Rattle.asn1_rs.specs.Null.{null_leaf, unit_leaf};
ghost use Rattle.asn1_rs.specs.LeafReading.{leaf_reading};
ghost use Rattle.asn1_rs.specs.Laws.Leaf.{leaf_exact, leaf_written};
ghost use Rattle.asn1_rs.specs.Laws.Null.{null_lawful, unit_lawful};

use crate::asn1_types::any::Any;
use crate::kinds::assert_valid::DerElement;
use crate::kinds::leaf::{ConvertsLeaf, LeafType};
use crate::kinds::writing::WritesOctets;
use crate::kinds::{ElementKind, HasKind, TagNumber};
use crate::laws::LawfulMember;
use asn1_headers::error::Error;
use asn1_headers::tag::Tag;
use std::alloc::Global;

/// The null value, which has no contents octets (X.690 8.8).
#[derive(Debug, Drop, PartialEq, Eq)]
pub struct Null {}

impl Null {
    /// The one value.
    pub const fn new() -> Self {
        Null {}
    }
}

impl Default for Null {
    fn default() -> Self {
        Null::new()
    }
}

impl Any<'_> {
    /// The null value. Refused at another tag number with `UnexpectedTag`, and where there are contents octets, or the
    /// header does not count none, with `InvalidLength`.
    pub fn null(self) -> Result<Null, Error>
        ensures { LeafGives null_leaf (parts_of self.entry) result }
    {
        self.as_null()
    }

    /// The null value, of an element that stays.
    #[inline(always)]
    pub fn as_null(&self) -> Result<Null, Error>
        ensures { LeafGives null_leaf (parts_of self.now) result }
    {
        self.assert_number(Tag::Null)?;
        self.assert_length(0)?;
        Ok(Null::new())
    }
}

impl HasKind for Null {
    type Kind = ElementKind;
}

impl LeafType for Null {
    type Number = TagNumber<5>;

    ghost reading = { leaf_reading null_leaf };

    ghost exact = { leaf_exact null_leaf null_lawful };

    fn assert_leaf_valid(&self) {}

    /// Refuses nothing.
    fn check_leaf(_any: &Any<'_>) -> Result<(), Error> {
        Ok(())
    }
}

impl<'a> ConvertsLeaf<'a> for Null {
    #[inline(always)]
    fn convert_leaf(_alloc: Global, any: Any<'a>) -> Result<Null, Error> {
        any.null()
    }
}

impl DerElement for Null {
    ghost each_der = { λ v d. d };
}

impl WritesOctets for Null {
    ghost held = { λ _. [] };

    fn contents_octets(&self) -> &[u8] {
        &[]
    }

    ghost held_are = { leaf_written null_leaf null_lawful };
}

impl LawfulMember for Null {
    ghost same = { λ x y. (λ h. refl, λ e. refl) };
}

impl HasKind for () {
    type Kind = ElementKind;
}

impl LeafType for () {
    type Number = TagNumber<5>;

    ghost reading = { leaf_reading unit_leaf };

    ghost exact = { leaf_exact unit_leaf unit_lawful };

    fn assert_leaf_valid(&self) {}

    /// Refuses nothing.
    fn check_leaf(_any: &Any<'_>) -> Result<(), Error> {
        Ok(())
    }
}

impl<'a> ConvertsLeaf<'a> for () {
    #[inline(always)]
    fn convert_leaf(_alloc: Global, any: Any<'a>) -> Result<(), Error> {
        any.assert_number(Tag::Null)?;
        any.header.assert_primitive()?;
        any.assert_length(0)
    }
}

impl DerElement for () {
    ghost each_der = { λ v d. d };
}

impl WritesOctets for () {
    ghost held = { λ _. [] };

    fn contents_octets(&self) -> &[u8] {
        &[]
    }

    ghost held_are = { leaf_written unit_leaf unit_lawful };
}

impl LawfulMember for () {
    ghost same = { λ x y. (λ h. refl, λ e. refl) };
}
