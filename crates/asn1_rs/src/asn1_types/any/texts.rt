//! The texts of elements of several types of strings (X.690 8.23, X.680 41).
//!
//! The tag number says how the contents octets are read, and is all that is looked at beside them.
ghost use Rattle.std.specs.Prelude.{◌≡◌, Ok, Err};
ghost use Rattle.std.specs.declared.alloc.Global.{Global};
ghost use Rattle.std.specs.declared.borrow.CowStr.{CowStr};
ghost use Rattle.x690.specs.Elements.{Parts};
ghost use Rattle.asn1_headers.specs.declared.error.Error.{Error};
ghost use Rattle.asn1_headers.specs.declared.error.Error.TheVariants as errors;
ghost use Rattle.asn1_rs.specs.Any.{parts_of};
ghost use Rattle.asn1_rs.specs.Any.Text.{GivesAnyText, LendsAnyText, is_utf8_number};
ghost use Rattle.asn1_rs.specs.Leaf.{HasOneRefusalUpTo};

use crate::asn1_types::any::Any;
use crate::asn1_types::strings::kinds::UniversalKind;
use asn1_headers::error::Error;
use asn1_headers::tag::Tag;
use std::alloc::Global;
use std::borrow::CowStr;

/// Whether the contents octets of a type with this tag number are taken as UTF-8.
fn is_read_as_utf8(tag: Tag) -> bool
    ensures { result ≡ is_utf8_number tag.0 }
{
    matches!(
        tag,
        Tag::Utf8String
            | Tag::NumericString
            | Tag::PrintableString
            | Tag::TeletexString
            | Tag::VideotexString
            | Tag::Ia5String
            | Tag::GraphicString
            | Tag::VisibleString
            | Tag::GeneralString
    )
}

impl<'a> Any<'a> {
    /// The contents octets as UTF-8, of a `Utf8String`, `NumericString`, `PrintableString`, `TeletexString`,
    /// `VideotexString`, `Ia5String`, `GraphicString`, `VisibleString` or `GeneralString`. Whether the type has the
    /// text is not looked at.
    ///
    /// Refused at another tag number with `UnexpectedTag`, which expects none, then with `StringInvalidCharset` where
    /// the octets are not UTF-8.
    pub fn as_any_string(&self) -> Result<&'a str, Error>
        ensures { LendsAnyText (parts_of self.now) result }
    {
        let tag = self.header.tag();
        if !is_read_as_utf8(tag) {
            return Err(Error::unexpected_tag(None, tag));
        }
        Ok(str::from_utf8(self.content)?)
    }

    /// The text as by [`Any::as_any_string`], which is borrowed; or that of a `UniversalString`, which is decoded and
    /// owned.
    ///
    /// Refused as by `as_any_string`. A `UniversalString` is refused with `StringInvalidCharset` where the octets are
    /// no text in four octets a character, then with `OutOfMemory`.
    pub fn as_any_str(&self, alloc: Global) -> Result<CowStr<'a, Global>, Error>
        ensures { GivesAnyText (parts_of self.now) result }
    {
        if self.header.tag() == Tag::UniversalString {
            Ok(CowStr::Owned(self.coded_text::<UniversalKind>(alloc)?))
        } else {
            Ok(CowStr::Borrowed(self.as_any_string()?))
        }
    }
}

/// An element has one refusal by [`Any::as_any_string`], and none where it has a text. By [`Any::as_any_str`] it has
/// one too, and beside a text none but `OutOfMemory`.
pub fn any_texts_have_one_refusal()
    ensures lent { HasOneRefusalUpTo (λ (e : Error). e) LendsAnyText }
    ensures one { (p : Parts) (e f : Error) → GivesAnyText p (Err e) → GivesAnyText p (Err f) →
        e ≡ f }
    ensures none { (p : Parts) (text : CowStr Global) (e : Error) → GivesAnyText p (Ok text) →
        GivesAnyText p (Err e) → e ≡ errors.OutOfMemory }
{}
