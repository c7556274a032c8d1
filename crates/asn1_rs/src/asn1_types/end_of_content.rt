//! The octets that end indefinite contents (X.690 8.1.5), as an element of their own.
ghost use Rattle.std.proofs.Common.{lit<};
ghost use Rattle.asn1_rs.specs.Any.{parts_of};
ghost use Rattle.asn1_rs.specs.EndOfContent.{end_number, end_leaf, by_ber_alone};
ghost use Rattle.asn1_rs.specs.Leaf.{LeafGives};
ghost use Rattle.asn1_rs.specs.Laws.EndOfContent.{end_lawful, lawful_by_ber_alone};
ghost use Rattle.asn1_rs.specs.Laws.Kinds.{other_error};
ghost use Rattle.asn1_rs.specs.Laws.Leaf.{leaf_converts};
ghost use Rattle.asn1_rs.specs.Traits.{OfParts};

use crate::asn1_types::any::Any;
use crate::laws::{Grammar, LawfulBody, LawfulItem, LawfulTagged, TakesClass};
use crate::traits::{FromAny, Tagged};
use asn1_headers::error::Error;
use asn1_headers::tag::Tag;
use std::alloc::Global;

/// The end of indefinite contents, an element of tag number 0 without contents octets (X.690 8.1.5).
///
/// It is read by BER alone, and not written.
#[derive(Debug, Drop)]
pub struct EndOfContent {}

impl EndOfContent {
    /// The one value.
    pub const fn new() -> Self {
        EndOfContent {}
    }
}

impl Default for EndOfContent {
    fn default() -> Self {
        EndOfContent::new()
    }
}

impl Any<'_> {
    /// The end of contents, of an element that stays. Refused at another tag number with `UnexpectedTag`, and where
    /// there are contents octets, or the header does not count none, with `InvalidLength`.
    #[inline(always)]
    pub fn as_endofcontent(&self) -> Result<EndOfContent, Error>
        ensures { LeafGives end_leaf (parts_of self.now) result }
    {
        self.assert_number(Tag::EndOfContent)?;
        self.assert_length(0)?;
        Ok(EndOfContent::new())
    }
}

impl Tagged for EndOfContent {
    const TAG: Tag = Tag::EndOfContent;

    ghost TAG = { record { 0 = end_number } };
}

impl<'a> FromAny<'a> for EndOfContent {
    type Error = Error;

    ghost any_gives = { OfParts (LeafGives end_leaf) };

    #[inline(always)]
    fn try_from_any(_alloc: Global, any: Any<'a>) -> Result<EndOfContent, Error> {
        any.as_endofcontent()
    }
}

// It has no kind: a type with one is read by DER.
impl Grammar for EndOfContent {
    ghost grammar = { by_ber_alone end_leaf };
}

impl LawfulItem for EndOfContent {
    ghost lawful_item = { lawful_by_ber_alone end_leaf end_lawful };

    fn has_value(&self) {}
}

impl<'a> LawfulBody<'a, Error> for EndOfContent {
    ghost body_exact = { (leaf_converts end_leaf end_lawful).exact };

    ghost body_no_memory = { λ none.
        other_error (OfParts (LeafGives end_leaf))
        ((leaf_converts end_leaf end_lawful).asks_no_memory none) };
}

impl LawfulTagged for EndOfContent {
    ghost tag_number = { λ v i c f. absurd f };

    ghost number_fits = { lit< tt };
}

impl<const C: u8> TakesClass<C> for EndOfContent {
    ghost takes_class = { λ v i c f. absurd f };
}
