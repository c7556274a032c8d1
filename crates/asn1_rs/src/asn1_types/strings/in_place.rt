//! Strings whose contents octets are their text in UTF-8 (X.690 8.23, X.680 41).
ghost use Rattle.std.specs.Prelude.{◌≡◌, ◌↔◌, false, IsOk, IsTrue, IfErr};
ghost use Rattle.asn1_headers.specs.declared.error.Error.TheVariants as errors;
ghost use Rattle.asn1_rs.specs.Any.{parts_of};
ghost use Rattle.asn1_rs.specs.Checks.{is_primitive};
ghost use Rattle.asn1_rs.specs.Leaf.{HaveOneRefusal};
ghost use Rattle.asn1_rs.specs.Laws.Leaf.{leaf_written};
ghost use Rattle.asn1_rs.specs.Laws.Strings.{string_equal, string_exact, string_lawful};
ghost use Rattle.asn1_rs.specs.Strings.{StringGives, string_leaf, string_reading, string_text};

use crate::asn1_types::any::Any;
use crate::asn1_types::strings::kinds::{
    DescriptorKind, GeneralKind, GraphicKind, Ia5Kind, NumericKind, PrintableKind, Repertoire,
    StringKind, TeletexKind, Utf8Kind, VideotexKind, VisibleKind,
};
use crate::asn1_types::strings::{RestrictedString, TestValidCharset};
use crate::kinds::assert_valid::DerElement;
use crate::kinds::der_form::TellsDerElement;
use crate::kinds::leaf::{ConvertsLeaf, LeafType};
use crate::kinds::writing::WritesOctets;
use crate::laws::LawfulMember;
use crate::laws::assert_valid::assert_text_valid;
use crate::traits::Tagged;
use asn1_headers::error::Error;
use std::alloc::Global;

impl<'a> Any<'a> {
    /// The string of a type, of an element that stays.
    #[inline(always)]
    pub(crate) fn as_string_of<K: StringKind<Characters: Repertoire>>(
        &self,
    ) -> Result<RestrictedString<'a, K>, Error>
        ensures { StringGives (K.Number.TAG).0 K.Characters.IsText self.now result }
    {
        self.assert_number(K::Number::TAG)?;
        if !K::Characters::is_text(self.content) {
            return Err(Error::StringInvalidCharset);
        }
        let text = unsafe { str::from_utf8_unchecked(self.content) };
        Ok(RestrictedString::new(text))
    }
}

impl<K: StringKind<Characters: Repertoire>> TestValidCharset for RestrictedString<'_, K> {
    ghost IsText = { K.Characters.IsText };

    fn test_valid_charset(i: &[u8]) -> Result<(), Error>
        ensures valid { IsOk result ↔ K.Characters.IsText i.now }
        ensures refused { IfErr result (λ e. e ≡ errors.StringInvalidCharset) }
    {
        if K::Characters::is_text(i) {
            Ok(())
        } else {
            Err(Error::StringInvalidCharset)
        }
    }
}

impl<K: StringKind<Characters: Repertoire>> LeafType for RestrictedString<'_, K> {
    type Number = K::Number;

    ghost reading = { string_reading (K.Number.TAG).0 K.Characters.IsText };

    ghost exact = { string_exact (K.Number.TAG).0 K.Characters.IsText K.small K.primitive
        K.Characters.utf8 };

    fn assert_leaf_valid(&self) {
        assert_text_valid(self.as_str());
    }

    /// Refuses a constructed element with `ConstructUnexpected` (X.690 10.2).
    fn check_leaf(any: &Any<'_>) -> Result<(), Error>
        ensures { is_primitive (parts_of any.now) result }
    {
        any.header.assert_primitive()
    }
}

impl<'a, K: StringKind<Characters: Repertoire>> ConvertsLeaf<'a> for RestrictedString<'a, K> {
    #[inline(always)]
    fn convert_leaf(_alloc: Global, any: Any<'a>) -> Result<RestrictedString<'a, K>, Error> {
        any.as_string_of::<K>()
    }
}

impl<K: StringKind<Characters: Repertoire>> WritesOctets for RestrictedString<'_, K> {
    ghost held = { string_text };

    fn contents_octets(&self) -> &[u8] {
        self.as_str().as_bytes()
    }

    ghost held_are = { leaf_written _
        (string_lawful (K.Number.TAG).0 K.Characters.IsText K.small K.primitive
        K.Characters.utf8) };
}

/// Each text is in DER form.
impl DerElement for RestrictedString<'_, Utf8Kind> {
    ghost each_der = { λ v d. d };
}

impl<K: StringKind<Characters: Repertoire>> RestrictedString<'_, K> {
    /// Whether the type has the text.
    pub(crate) fn has_its_characters(&self) -> bool
        ensures { IsTrue result ↔ K.Characters.IsText (string_text self.now) }
    {
        K::Characters::is_text(self.as_str().as_bytes())
    }
}

// One impl over all kinds would overlap with that of `DerElement`, which those of UTF-8 have.

impl TellsDerElement for RestrictedString<'_, DescriptorKind> {
    fn is_der_element(&self) -> bool {
        self.has_its_characters()
    }
}

impl TellsDerElement for RestrictedString<'_, NumericKind> {
    fn is_der_element(&self) -> bool {
        self.has_its_characters()
    }
}

impl TellsDerElement for RestrictedString<'_, PrintableKind> {
    fn is_der_element(&self) -> bool {
        self.has_its_characters()
    }
}

impl TellsDerElement for RestrictedString<'_, TeletexKind> {
    fn is_der_element(&self) -> bool {
        self.has_its_characters()
    }
}

impl TellsDerElement for RestrictedString<'_, VideotexKind> {
    fn is_der_element(&self) -> bool {
        self.has_its_characters()
    }
}

impl TellsDerElement for RestrictedString<'_, Ia5Kind> {
    fn is_der_element(&self) -> bool {
        self.has_its_characters()
    }
}

impl TellsDerElement for RestrictedString<'_, GraphicKind> {
    fn is_der_element(&self) -> bool {
        self.has_its_characters()
    }
}

impl TellsDerElement for RestrictedString<'_, VisibleKind> {
    fn is_der_element(&self) -> bool {
        self.has_its_characters()
    }
}

impl TellsDerElement for RestrictedString<'_, GeneralKind> {
    fn is_der_element(&self) -> bool {
        self.has_its_characters()
    }
}

impl<K: StringKind<Characters: Repertoire>> LawfulMember for RestrictedString<'_, K> {
    ghost same = { string_equal };
}

/// An element has one refusal by the conversion to a type of strings and one by its check. It has none where it has a
/// value, or meets the constraints.
pub fn strings_have_one_refusal<K: StringKind<Characters: Repertoire>>()
    ensures { HaveOneRefusal (string_leaf {K = K} (K.Number.TAG).0 K.Characters.IsText) }
{}
