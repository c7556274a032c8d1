//! Strings of characters (X.690 8.23, X.680 41).

pub mod conversions;
pub mod decoded;
pub mod in_place;
pub mod kinds;
mod writing;

ghost use Rattle.std.specs.Prelude.{◌≡◌, ◌↔◌, ℕ, List, IsOk, IfOk, IfErr, string_bytes};
ghost use Rattle.std.specs.Cow.{IsBorrowedStr, IsOwnedStr};
ghost use Rattle.asn1_headers.specs.declared.error.Error.TheVariants as errors;
ghost use Rattle.asn1_rs.specs.Strings.{string_text, content_text};

use crate::kinds::{ElementKind, HasKind};
use asn1_headers::error::Error;
use kinds::StringKind;
use std::alloc::Global;
use std::borrow::CowStr;
use std::fmt;
use std::marker::PhantomData;

/// Marks strings whose contents octets are their text in UTF-8.
#[derive(Debug)]
pub struct InPlace;

/// Marks strings whose text is decoded from their contents octets, in which its characters stand in a code.
#[derive(Debug)]
pub struct Coded;

/// A string of one of the restricted character string types: a text, which is borrowed or owned (X.690 8.23,
/// X.680 41).
///
/// `K` marks the type, and `F` how its contents octets say the text, as [`InPlace`] or as [`Coded`].
///
/// Constructors do not check characters; `test_valid_charset` does. A text that the type does not have is written as it
/// stands, and not read back. Two strings are equal where their texts are.
#[derive(Drop)]
#[derive_where(PartialEq, Eq)]
pub struct RestrictedString<'a, K, F = InPlace> {
    text: CowStr<'a, Global>,
    #[derive_where(skip)]
    marks: PhantomData<(K, F)>,
}

/// A string of one of the two types in which a character is not written in UTF-8 (X.690 8.23.7, 8.23.8; X.680 41).
///
/// Its type has each text. One that is read owns its text.
pub type CodedString<'a, K> = RestrictedString<'a, K, Coded>;

impl<'a, K, F> RestrictedString<'a, K, F> {
    /// The string of this text, which it borrows. Whether its type has the text is not looked at.
    pub const fn new(s: &'a str) -> Self
        ensures text { string_text result ≡ s.now }
        ensures borrowed { IsBorrowedStr (content_text result) }
    {
        RestrictedString {
            text: CowStr::Borrowed(s),
            marks: PhantomData,
        }
    }

    /// The text.
    pub fn as_str(&self) -> &str
        ensures { result.now ≡ string_text self.now }
    {
        self.text.as_str()
    }

    /// A copy of the text. Refused only when out of memory, with `OutOfMemory`.
    pub fn string(&self, alloc: Global) -> Result<String, Error>
        ensures text { IfOk result (λ s. string_bytes s ≡ string_text self.now) }
        ensures refused { IfErr result (λ e. e ≡ errors.OutOfMemory) }
    {
        Ok(String::from_str(alloc, self.as_str())?)
    }
}

impl<'a, K, F> From<&'a str> for RestrictedString<'a, K, F> {
    ghost from_gives = { λ s x. string_text x ≡ s.now };

    /// The string of this text, which it borrows.
    fn from(s: &'a str) -> Self
        ensures text { string_text result ≡ s.now }
        ensures borrowed { IsBorrowedStr (content_text result) }
    {
        RestrictedString::new(s)
    }
}

impl<K, F> From<String> for RestrictedString<'_, K, F> {
    ghost from_gives = { λ s x. string_text x ≡ string_bytes s };

    /// The string of this text, which it owns.
    fn from(s: String) -> Self
        ensures text { string_text result ≡ string_bytes s }
        ensures owned { IsOwnedStr (content_text result) }
    {
        RestrictedString {
            text: CowStr::Owned(s),
            marks: PhantomData,
        }
    }
}

/// The text, under the name of the type.
impl<K: StringKind, F> fmt::Debug for RestrictedString<'_, K, F> {
    fn fmt<W: fmt::Write>(&self, f: &mut fmt::Formatter<W>) -> fmt::Result {
        f.debug_struct(K::NAME).field("text", &self.text).finish()
    }
}

/// A type of strings, which has some texts and not others.
pub trait TestValidCharset {
    /// Contents octets of a text that the type has.
    ghost IsText: { List ℕ → Type 0 };

    /// Refuses contents octets of no text that the type has, with `StringInvalidCharset`.
    fn test_valid_charset(i: &[u8]) -> Result<(), Error>
        ensures valid { IsOk result ↔ IsText i.now }
        ensures refused { IfErr result (λ e. e ≡ errors.StringInvalidCharset) };
}

impl<K, F> HasKind for RestrictedString<'_, K, F> {
    type Kind = ElementKind;
}
