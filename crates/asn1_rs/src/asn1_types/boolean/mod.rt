//! Truth values (X.690 8.2, 11.1).

mod writing;

ghost use Rattle.std.specs.Prelude.{◌≡◌, ◌∷◌, ◌++◌, [], false, IfErr};
ghost use Rattle.asn1_rs.specs.Any.{parts_of};
ghost use Rattle.asn1_rs.specs.Boolean.{boolean_leaf, bool_leaf, says_true, truth_octet};
ghost use Rattle.asn1_rs.specs.Boolean.{boolean_number, truth_constraints};
ghost use Rattle.asn1_rs.specs.Leaf.{LeafGives};
ghost use Rattle.asn1_rs.specs.Laws.Boolean.{boolean_lawful, bool_lawful, boolean_equal, bool_equal};
ghost use Rattle.asn1_rs.specs.LeafReading.{leaf_reading};
ghost use Rattle.asn1_rs.specs.Laws.Leaf.{leaf_exact, leaf_written};
ghost use Rattle.asn1_rs.specs.Kinds.Writing.{IsPieceOf, universal_header};
ghost use Rattle.asn1_headers.specs.Writer.{Wrote, MayRefuse};

use crate::asn1_types::any::Any;
use crate::kinds::assert_valid::DerElement;
use crate::kinds::der_form::TellsDerElement;
use crate::kinds::leaf::{ConvertsLeaf, LeafType};
use crate::kinds::writing::{Piece, WritesElement};
use crate::kinds::{ElementKind, HasKind, TagNumber};
use crate::laws::LawfulMember;
use asn1_headers::buffer::{DerBuffer, prepend_octets};
use asn1_headers::error::{DerConstraint, Error, SerializeResult};
use asn1_headers::tag::Tag;
use asn1_headers::writer::{DerWrite, put_all};
use std::alloc::Global;

/// A truth value with the octet that says it (X.690 8.2.2): 00 is false, every other octet true.
///
/// It is written as 00 or ff; its raw form writes the octet that it holds.
#[derive(Debug, Drop, PartialEq, Eq)]
pub struct Boolean {
    /// The contents octet.
    pub value: u8,
}

impl Boolean {
    /// The octet 00.
    pub const FALSE: Boolean = Boolean { value: 0 };

    /// The octet ff.
    pub const TRUE: Boolean = Boolean { value: 0xff };

    /// The truth value of this octet.
    pub const fn new(value: u8) -> Self
        ensures { result.value ≡ value }
    {
        Boolean { value }
    }

    /// Whether the octet is not 00.
    pub const fn bool(&self) -> bool
        ensures { result ≡ says_true self.now.value }
    {
        self.value != 0
    }
}

/// The constants hold 00 and ff.
///
/// A law: nothing runs.
pub fn truth_constants_are_octets()
    ensures no { (Boolean.FALSE).value ≡ 0 }
    ensures yes { (Boolean.TRUE).value ≡ 255 }
{}

impl Any<'_> {
    /// The truth value with its octet. Refused at another tag number with `UnexpectedTag`, and where there is not
    /// exactly one contents octet with `InvalidLength`.
    pub fn boolean(self) -> Result<Boolean, Error>
        ensures { LeafGives boolean_leaf (parts_of self.entry) result }
    {
        self.as_boolean()
    }

    /// The truth value with its octet, of an element that stays.
    #[inline(always)]
    pub fn as_boolean(&self) -> Result<Boolean, Error>
        ensures { LeafGives boolean_leaf (parts_of self.now) result }
    {
        self.assert_number(Tag::Boolean)?;
        self.assert_length(1)?;
        Ok(Boolean::new(self.content[0]))
    }

    /// The truth value, refused as `boolean` is.
    pub fn bool(self) -> Result<bool, Error>
        ensures { LeafGives bool_leaf (parts_of self.entry) result }
    {
        self.as_bool()
    }

    /// The truth value, of an element that stays.
    #[inline(always)]
    pub fn as_bool(&self) -> Result<bool, Error>
        ensures { LeafGives bool_leaf (parts_of self.now) result }
    {
        Ok(self.as_boolean()?.bool())
    }
}

/// Refuses an element without contents octets with `InvalidLength`, and one whose first is neither 00 nor ff with
/// `InvalidBoolean` (X.690 11.1).
#[inline(always)]
fn check_truth(any: &Any<'_>) -> Result<(), Error>
    ensures { truth_constraints (parts_of any.now) result }
{
    match any.content.first() {
        None => Err(Error::InvalidLength),
        Some(0 | 0xff) => Ok(()),
        Some(_) => Err(Error::DerConstraintFailed(DerConstraint::InvalidBoolean)),
    }
}

/// The octet of a truth value, by DER: ff or 00 (X.690 11.1).
#[inline(always)]
fn octet_of(truth: bool) -> u8
    ensures { result ≡ truth_octet truth }
{
    if truth { 0xff } else { 0 }
}

/// Appends 00 or ff.
#[inline(always)]
fn put_truth<W: DerWrite>(truth: bool, w: &mut W) -> SerializeResult<usize>
    ensures wrote { Wrote (truth_octet truth ∷ []) (W.state w.old) (W.state w.new) result }
    ensures refused { IfErr result (MayRefuse false 1) }
{
    put_all(w, &[octet_of(truth)])
}

/// The strict element of a truth value in one piece (X.690 8.1.2, 8.1.3, 11.1).
#[inline(always)]
fn truth_piece(truth: bool) -> Piece
    ensures { IsPieceOf false (universal_header boolean_number (truth_octet truth ∷ [])
        ++ truth_octet truth ∷ []) result }
{
    let octet = octet_of(truth);
    Piece::new([1, 1, octet, 0, 0, 0, 0, 0, 0, 0, 0, 0, 0, 0, 0, 0], 3)
}

impl HasKind for bool {
    type Kind = ElementKind;
}

impl LeafType for bool {
    type Number = TagNumber<1>;

    ghost reading = { leaf_reading bool_leaf };

    ghost exact = { leaf_exact bool_leaf bool_lawful };

    fn assert_leaf_valid(&self) {}

    fn check_leaf(any: &Any<'_>) -> Result<(), Error> {
        check_truth(any)
    }
}

impl<'a> ConvertsLeaf<'a> for bool {
    #[inline(always)]
    fn convert_leaf(_alloc: Global, any: Any<'a>) -> Result<bool, Error> {
        any.as_bool()
    }
}

impl DerElement for bool {
    ghost each_der = { λ v d. d };
}

impl WritesElement for bool {
    ghost octets = { λ b. truth_octet b ∷ [] };

    fn count_octets(&self) -> Result<usize, Error> {
        Ok(1)
    }

    fn put_octets<W: DerWrite>(&self, w: &mut W) -> SerializeResult<usize> {
        put_truth(*self, w)
    }

    fn prepend_contents(&self, _alloc: Global, buf: &mut DerBuffer) -> SerializeResult<usize> {
        prepend_octets(&[octet_of(*self)], buf)
    }

    #[inline(always)]
    fn piece(&self) -> Option<Piece> {
        Some(truth_piece(*self))
    }

    ghost written = { leaf_written bool_leaf bool_lawful };
}

impl LawfulMember for bool {
    ghost same = { bool_equal };
}

impl HasKind for Boolean {
    type Kind = ElementKind;
}

impl LeafType for Boolean {
    type Number = TagNumber<1>;

    ghost reading = { leaf_reading boolean_leaf };

    ghost exact = { leaf_exact boolean_leaf boolean_lawful };

    fn assert_leaf_valid(&self) {
        let _octet = self.value;
    }

    fn check_leaf(any: &Any<'_>) -> Result<(), Error> {
        check_truth(any)
    }
}

impl<'a> ConvertsLeaf<'a> for Boolean {
    #[inline(always)]
    fn convert_leaf(_alloc: Global, any: Any<'a>) -> Result<Boolean, Error> {
        any.as_boolean()
    }
}

/// Where its octet is 00 or ff (X.690 11.1).
impl TellsDerElement for Boolean {
    fn is_der_element(&self) -> bool {
        self.value == 0 || self.value == 0xff
    }
}

impl LawfulMember for Boolean {
    ghost same = { boolean_equal };
}
