//! Object identifiers, absolute and relative (X.690 8.19, 8.20).
//!
//! The value of an identifier is its contents octets and its kind, not its arcs. Padded, cut and empty octets are
//! values too, and are written as they were read. So the laws of reading need no word of arcs. It is no leaf, whose
//! first check is its tag number: an identifier looks at none.

mod arcs;
mod buffer;
pub mod iterator;
pub(crate) mod making;
pub(crate) mod relative;
mod text;
mod writing;

ghost use Rattle.std.specs.Prelude.{◌≡◌, ◌++◌, ◌↔◌, ℕ, List, true, false, IfOk, IfErr};
ghost use Rattle.x690.specs.Arcs.{arcs_of, AreComplete};
ghost use Rattle.x690.specs.Octets.{BeginsWith};
ghost use Rattle.asn1_headers.specs.declared.error.Error.TheVariants as errors;
ghost use Rattle.asn1_rs.specs.Any.{parts_of};
ghost use Rattle.asn1_rs.specs.Oid.{OidGives, absolute, is_relative, oid_constraints, oid_cow, oid_element, oid_octets};
ghost use Rattle.asn1_rs.specs.Oid.{oid_value};
ghost use Rattle.asn1_rs.specs.Laws.Oid.{oid_checked, oid_converts, oid_equal};
ghost use Rattle.asn1_rs.specs.Laws.Oid.{oid_lawful};

use crate::asn1_types::any::Any;
use crate::kinds::der_form::TellsDerElement;
use crate::kinds::leaf::{ConvertsLeaf, LeafType};
use crate::kinds::{ElementKind, HasKind, TagNumber};
use crate::laws::LawfulMember;
use crate::laws::assert_valid::assert_octets_valid;
use asn1_headers::error::Error;
use std::alloc::Global;
use std::borrow::CowSlice;
use x690::shortest::are_shortest_arcs;

/// An object identifier, or a relative one, by its contents octets, which are borrowed or owned (X.690 8.19, 8.20).
///
/// The contents octets are kept as they are given, padded, cut or empty. Two are equal where their octets are, and both
/// or neither is relative.
#[derive(Clone, Drop, PartialEq, Eq, Hash)]
pub struct Oid<'a> {
    octets: CowSlice<'a, u8, Global>,
    relative: bool,
}

impl<'a> Oid<'a> {
    /// The object identifier of these contents octets, as they are held.
    pub const fn new(octets: CowSlice<'a, u8, Global>) -> Self
        ensures octets { oid_cow result ≡ octets.entry }
        ensures kind { is_relative result ≡ false }
    {
        Oid {
            octets,
            relative: false,
        }
    }

    /// The relative object identifier of these contents octets, as they are held.
    pub const fn new_relative(octets: CowSlice<'a, u8, Global>) -> Self
        ensures octets { oid_cow result ≡ octets.entry }
        ensures kind { is_relative result ≡ true }
    {
        Oid {
            octets,
            relative: true,
        }
    }

    /// The contents octets, as they are held.
    pub fn into_cow(self) -> CowSlice<'a, u8, Global>
        ensures { result ≡ oid_cow self.entry }
    {
        self.octets
    }

    /// The contents octets.
    #[inline(always)]
    pub fn as_bytes(&self) -> &[u8]
        ensures { result.now ≡ oid_octets self.now }
    {
        self.octets.as_slice()
    }

    /// The contents octets, as [`Oid::as_bytes`] gives them, which is the name to use.
    pub fn bytes(&self) -> &[u8]
        ensures { result.now ≡ oid_octets self.now }
    {
        self.as_bytes()
    }

    /// Whether the contents octets of the needle begin these, whatever the kinds of the two.
    ///
    /// Where the two are of one kind and each subidentifier of the needle has its last octet, its arcs begin the arcs.
    pub fn starts_with(&self, needle: &Oid<'_>) -> bool
        ensures octets { result ≡ true ↔ (rest : List ℕ) ×
            BeginsWith (oid_octets self.now) (oid_octets needle.now) rest }
        ensures arcs { result ≡ true → is_relative self.now ≡ is_relative needle.now →
            AreComplete (oid_octets needle.now) → (more : List ℕ) ×
            BeginsWith (arcs_of (is_relative self.now) (oid_octets self.now))
            (arcs_of (is_relative needle.now) (oid_octets needle.now)) more }
    {
        self.as_bytes().starts_with(needle.as_bytes())
    }

    /// A copy that owns its octets, of the same kind. Refused only when out of memory, with `OutOfMemory`.
    pub fn to_owned(&self, alloc: Global) -> Result<Oid<'static>, Error>
        ensures copied { IfOk result (λ copy. oid_value copy ≡ oid_value self.now) }
        ensures refused { IfErr result (λ e. e ≡ errors.OutOfMemory) }
    {
        let octets = self.as_bytes().to_vec(alloc)?;
        Ok(Oid {
            octets: CowSlice::Owned(octets),
            relative: self.relative,
        })
    }
}

impl<'a> Any<'a> {
    /// The object identifier of the contents octets, which are borrowed. Nothing is refused: neither class nor tag
    /// number, nor the constructed bit is looked at.
    pub fn oid(self) -> Result<Oid<'a>, Error>
        ensures { OidGives self.entry result }
    {
        self.as_oid()
    }

    /// The object identifier, of an element that stays.
    #[inline(always)]
    pub fn as_oid(&self) -> Result<Oid<'a>, Error>
        ensures { OidGives self.now result }
    {
        Ok(Oid::new(CowSlice::Borrowed(self.content)))
    }
}

/// Refuses a constructed element with `ConstructUnexpected`, then one of indefinite length with
/// `IndefiniteLengthUnexpected` (X.690 8.19.1, 10.1).
#[inline(always)]
fn check_primitive_and_counted(any: &Any<'_>) -> Result<(), Error>
    ensures { oid_constraints (parts_of any.now) result }
{
    any.header.assert_primitive()?;
    any.header.length().assert_definite()
}

impl HasKind for Oid<'_> {
    type Kind = ElementKind;
}

impl LeafType for Oid<'_> {
    type Number = TagNumber<6>;

    ghost reading = { record {
      element = oid_element;
      gives = OidGives;
      check = oid_constraints;
    } };

    ghost exact = { record {
      lawful = oid_lawful;
      checked = oid_checked;
      converts = oid_converts;
    } };

    fn assert_leaf_valid(&self) {
        assert_octets_valid(self.as_bytes());
    }

    /// Refuses a constructed element with `ConstructUnexpected`, then one of indefinite length with
    /// `IndefiniteLengthUnexpected` (X.690 8.19.1, 10.1).
    fn check_leaf(any: &Any<'_>) -> Result<(), Error>
        ensures { oid_constraints (parts_of any.now) result }
    {
        check_primitive_and_counted(any)
    }
}

impl<'a> ConvertsLeaf<'a> for Oid<'a> {
    #[inline(always)]
    fn convert_leaf(_alloc: Global, any: Any<'a>) -> Result<Oid<'a>, Error> {
        any.as_oid()
    }
}

/// Where it is absolute, and its contents octets are subidentifiers, each in the fewest octets (X.690 8.19.2).
impl TellsDerElement for Oid<'_> {
    fn is_der_element(&self) -> bool {
        let octets = self.as_bytes();
        assert_octets_valid(octets);
        !self.relative && are_shortest_arcs(octets)
    }
}

impl LawfulMember for Oid<'_> {
    ghost same = { oid_equal };
}
