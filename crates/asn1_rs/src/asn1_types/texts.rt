//! Texts in UTF-8 as elements: `&str` and `String` (X.690 8.23, X.680 41).
ghost use Rattle.std.specs.Prelude.{◌≡◌, ◌∷◌, [], string_bytes};
ghost use Rattle.asn1_rs.specs.Any.{parts_of};
ghost use Rattle.asn1_rs.specs.Checks.{is_primitive};
ghost use Rattle.asn1_rs.specs.Leaf.{HaveOneRefusal, LeafGives, LeafConverts};
ghost use Rattle.asn1_rs.specs.LeafReading.{leaf_reading, copying_reading};
ghost use Rattle.asn1_rs.specs.Laws.Leaf.{copying_exact, leaf_exact, copying_written};
ghost use Rattle.asn1_rs.specs.Laws.Leaf.{leaf_written};
ghost use Rattle.asn1_rs.specs.Laws.Texts.{lent_text_lawful, lent_text_equal, owned_text_lawful, owned_text_equal};
ghost use Rattle.asn1_rs.specs.Texts.{lent_text_leaf, owned_text_leaf};

use crate::asn1_types::any::Any;
use crate::kinds::assert_valid::DerElement;
use crate::kinds::leaf::{ConvertsLeaf, LeafType};
use crate::kinds::writing::WritesOctets;
use crate::kinds::{ElementKind, HasKind, TagNumber};
use crate::laws::LawfulMember;
use crate::laws::assert_valid::assert_text_valid;
use crate::traits::Tagged;
use asn1_headers::error::Error;
use asn1_headers::tag::Tag;
use std::alloc::Global;

impl<'a> Any<'a> {
    /// The text of a `UTF8String`: the contents octets, which are borrowed, whether the element is primitive or
    /// constructed.
    ///
    /// Refused at another tag number with `UnexpectedTag`, then with `StringInvalidCharset` where the octets are not
    /// UTF-8.
    pub fn str(self) -> Result<&'a str, Error>
        ensures { LeafGives lent_text_leaf (parts_of self.entry) result }
    {
        self.as_str()
    }

    /// The text of a `UTF8String`, of an element that stays.
    #[inline(always)]
    pub fn as_str(&self) -> Result<&'a str, Error>
        ensures { LeafGives lent_text_leaf (parts_of self.now) result }
    {
        self.assert_number(Tag::Utf8String)?;
        match str::from_utf8(self.content) {
            Ok(text) => Ok(text),
            Err(_) => Err(Error::StringInvalidCharset),
        }
    }

    /// A copy of the text of a `UTF8String`. Refused as [`Any::str`], then where memory is, with `OutOfMemory`.
    pub fn string(self, alloc: Global) -> Result<String, Error>
        ensures { LeafConverts owned_text_leaf (parts_of self.entry) result }
    {
        self.as_string(alloc)
    }

    /// A copy of the text of a `UTF8String`, of an element that stays.
    pub fn as_string(&self, alloc: Global) -> Result<String, Error>
        ensures { LeafConverts owned_text_leaf (parts_of self.now) result }
    {
        let text = self.as_str()?;
        match String::from_str(alloc, text) {
            Ok(copy) => Ok(copy),
            Err(_) => Err(Error::OutOfMemory),
        }
    }
}

/// A text is an element of its own, and no reference to one.
impl HasKind for &str {
    type Kind = ElementKind;
}

impl LeafType for &str {
    type Number = TagNumber<12>;

    ghost reading = { leaf_reading lent_text_leaf };

    ghost exact = { leaf_exact lent_text_leaf lent_text_lawful };

    fn assert_leaf_valid(&self) {
        assert_text_valid(*self);
    }

    /// Refuses a constructed element with `ConstructUnexpected` (X.690 10.2).
    fn check_leaf(any: &Any<'_>) -> Result<(), Error>
        ensures { is_primitive (parts_of any.now) result }
    {
        any.header.assert_primitive()
    }
}

impl<'a> ConvertsLeaf<'a> for &'a str {
    #[inline(always)]
    fn convert_leaf(_alloc: Global, any: Any<'a>) -> Result<&'a str, Error> {
        any.as_str()
    }
}

impl DerElement for &str {
    ghost each_der = { λ v d. d };
}

impl WritesOctets for &str {
    ghost held = { λ x. x.now };

    fn contents_octets(&self) -> &[u8] {
        self.as_bytes()
    }

    ghost held_are = { leaf_written lent_text_leaf lent_text_lawful };
}

impl LawfulMember for &str {
    ghost same = { lent_text_equal };
}

impl HasKind for String {
    type Kind = ElementKind;
}

impl LeafType for String {
    type Number = TagNumber<12>;

    ghost reading = { copying_reading owned_text_leaf };

    ghost exact = { copying_exact owned_text_leaf owned_text_lawful };

    fn assert_leaf_valid(&self) {
        assert_text_valid(self.as_str());
    }

    /// Refuses a constructed element with `ConstructUnexpected` (X.690 10.2).
    fn check_leaf(any: &Any<'_>) -> Result<(), Error>
        ensures { is_primitive (parts_of any.now) result }
    {
        any.header.assert_primitive()
    }
}

impl<'a> ConvertsLeaf<'a> for String {
    fn convert_leaf(alloc: Global, any: Any<'a>) -> Result<String, Error> {
        any.as_string(alloc)
    }
}

impl DerElement for String {
    ghost each_der = { λ v d. d };
}

impl WritesOctets for String {
    ghost held = { string_bytes };

    fn contents_octets(&self) -> &[u8] {
        String::as_str(self).as_bytes()
    }

    ghost held_are = { copying_written owned_text_leaf owned_text_lawful };
}

impl LawfulMember for String {
    ghost same = { owned_text_equal };
}

/// The tag numbers of both types.
pub fn numbers_of_texts() -> [u32; 2]
    ensures { result ≡ 12 ∷ 12 ∷ [] }
{
    [<&str as Tagged>::TAG.0, String::TAG.0]
}

/// An element has one refusal by the conversion to `&str` and one by its check. So it has by that to `String`, but for
/// out of memory. It has none where it has a value, or meets the constraints.
pub fn texts_have_one_refusal()
    ensures lent { HaveOneRefusal lent_text_leaf }
    ensures owned { HaveOneRefusal owned_text_leaf }
{}
