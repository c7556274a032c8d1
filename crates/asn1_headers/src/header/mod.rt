//! Headers of elements: identifier octets and length octets (X.690 8.1.2, 8.1.3).

pub mod reading;
pub mod writing;

ghost use Rattle.std.specs.Prelude.{◌≡◌, ◌≢◌, ◌↔◌, ℕ, Some, None, true, false, IsTrue, IfSome, MatchResult};
ghost use Rattle.std.specs.Option.{option_copied, option_map};
ghost use Rattle.std.specs.Cow.{cow_slice_items, IsBorrowedSlice};
ghost use Rattle.std.proofs.Common.{rules};
ghost use Rattle.std.specs.Cmp.Rules.{comparing};
ghost use Rattle.asn1_headers.specs.Header.{class_of, is_constructed_of, tag_of, length_of, raw_tag_of, identifier_of};
ghost use Rattle.asn1_headers.specs.Header.{is_same_identifier, HasParts, LendsRawTag};
ghost use Rattle.asn1_headers.specs.Tag.{is_container};
ghost use Rattle.asn1_headers.specs.declared.class.Class.TheVariants as classes;
ghost use Rattle.asn1_headers.specs.declared.length.Length.TheVariants as forms;
ghost use Rattle.asn1_headers.specs.declared.error.Error.TheVariants as errors;
ghost use Rattle.asn1_headers.specs.declared.error.DerConstraint.TheVariants as constraints;

use crate::class::Class;
use crate::error::{DerConstraint, Error};
use crate::length::Length;
use crate::tag::Tag;
use std::alloc::Global;
use std::borrow::CowSlice;

/// A header: class, constructed bit, tag number and length, and the identifier octets that were read.
///
/// Two headers are equal where class, constructed bit and tag number are.
#[derive(Debug, Clone, Drop)]
pub struct Header<'a> {
    class: Class,
    constructed: bool,
    tag: Tag,
    length: Length,
    raw_tag: Option<CowSlice<'a, u8, Global>>,
}

impl<'a> Header<'a> {
    /// A header of these parts, without identifier octets.
    pub fn new(class: Class, constructed: bool, tag: Tag, length: Length) -> Self
        ensures { HasParts result class constructed tag length None }
    {
        Header {
            class,
            constructed,
            tag,
            length,
            raw_tag: None,
        }
    }

    /// A universal header of length 0, constructed exactly for the tags of sequence and set.
    pub fn new_simple(tag: Tag) -> Self
        ensures { HasParts result classes.Universal (is_container tag) tag (forms.Definite 0) None }
    {
        Header::new(
            Class::Universal,
            tag.is_container(),
            tag,
            Length::Definite(0),
        )
    }

    /// The same header with another class.
    pub fn with_class(self, class: Class) -> Self
        ensures { HasParts result class (is_constructed_of self.entry) (tag_of self.entry)
            (length_of self.entry) (raw_tag_of self.entry) }
    {
        Header { class, ..self }
    }

    /// The same header with another constructed bit.
    pub fn with_constructed(self, constructed: bool) -> Self
        ensures { HasParts result (class_of self.entry) constructed (tag_of self.entry)
            (length_of self.entry) (raw_tag_of self.entry) }
    {
        Header {
            constructed,
            ..self
        }
    }

    /// The same header with another tag number. The identifier octets that were read stay.
    pub fn with_tag(self, tag: Tag) -> Self
        ensures { HasParts result (class_of self.entry) (is_constructed_of self.entry) tag
            (length_of self.entry) (raw_tag_of self.entry) }
    {
        Header { tag, ..self }
    }

    /// The same header with another length.
    pub fn with_length(self, length: Length) -> Self
        ensures { HasParts result (class_of self.entry) (is_constructed_of self.entry)
            (tag_of self.entry) length (raw_tag_of self.entry) }
    {
        Header { length, ..self }
    }

    /// The same header with other identifier octets, or with none.
    pub fn with_raw_tag(self, raw_tag: Option<CowSlice<'a, u8, Global>>) -> Self
        ensures parts { HasParts result (class_of self.entry) (is_constructed_of self.entry)
            (tag_of self.entry) (length_of self.entry) (option_map cow_slice_items raw_tag.entry) }
        ensures lent { IfSome raw_tag.entry IsBorrowedSlice → LendsRawTag result }
    {
        Header {
            class: self.class,
            constructed: self.constructed,
            tag: self.tag,
            length: self.length,
            raw_tag,
        }
    }

    /// The class.
    pub fn class(&self) -> Class
        ensures { result ≡ class_of self.now }
    {
        self.class
    }

    /// The constructed bit.
    pub fn constructed(&self) -> bool
        ensures { result ≡ is_constructed_of self.now }
    {
        self.constructed
    }

    /// The tag number.
    pub fn tag(&self) -> Tag
        ensures { result ≡ tag_of self.now }
    {
        self.tag
    }

    /// The length.
    pub fn length(&self) -> Length
        ensures { result ≡ length_of self.now }
    {
        self.length
    }

    /// The identifier octets that were read, where the header keeps them.
    pub fn raw_tag(&self) -> Option<&[u8]>
        ensures { option_copied result ≡ raw_tag_of self.now }
    {
        match &self.raw_tag {
            Some(octets) => Some(octets.as_slice()),
            None => None,
        }
    }

    /// Whether the constructed bit is not set.
    pub fn is_primitive(&self) -> bool
        ensures { IsTrue result ↔ (is_constructed_of self.now ≡ false) }
    {
        !self.constructed
    }

    /// Whether the constructed bit is set.
    pub fn is_constructed(&self) -> bool
        ensures { IsTrue result ↔ (is_constructed_of self.now ≡ true) }
    {
        self.constructed
    }

    /// Whether the class is `Universal`.
    pub fn is_universal(&self) -> bool
        ensures { IsTrue result ↔ (class_of self.now ≡ classes.Universal) }
    {
        self.class == Class::Universal
    }

    /// Whether the class is `Application`.
    pub fn is_application(&self) -> bool
        ensures { IsTrue result ↔ (class_of self.now ≡ classes.Application) }
    {
        self.class == Class::Application
    }

    /// Whether the class is `ContextSpecific`.
    pub fn is_contextspecific(&self) -> bool
        ensures { IsTrue result ↔ (class_of self.now ≡ classes.ContextSpecific) }
    {
        self.class == Class::ContextSpecific
    }

    /// Whether the class is `Private`.
    pub fn is_private(&self) -> bool
        ensures { IsTrue result ↔ (class_of self.now ≡ classes.Private) }
    {
        self.class == Class::Private
    }

    /// Refuses another class with `UnexpectedClass`.
    pub fn assert_class(&self, class: Class) -> Result<(), Error>
        ensures { MatchResult result (λ _. class_of self.now ≡ class)
            (λ e. (class_of self.now ≢ class)
            × (e ≡ errors.UnexpectedClass (Some class) (class_of self.now))) }
    {
        self.class.assert_eq(class)
    }

    /// Refuses another tag number with `UnexpectedTag`.
    pub fn assert_tag(&self, tag: Tag) -> Result<(), Error>
        ensures { MatchResult result (λ _. tag_of self.now ≡ tag)
            (λ e. (tag_of self.now ≢ tag)
            × (e ≡ errors.UnexpectedTag (Some tag) (tag_of self.now))) }
    {
        self.tag.assert_eq(tag)
    }

    /// Refuses a constructed header with `ConstructUnexpected`.
    pub fn assert_primitive(&self) -> Result<(), Error>
        ensures { MatchResult result (λ _. is_constructed_of self.now ≡ false)
            (λ e. (is_constructed_of self.now ≡ true) × (e ≡ errors.ConstructUnexpected)) }
    {
        if self.constructed {
            Err(Error::ConstructUnexpected)
        } else {
            Ok(())
        }
    }

    /// Refuses a primitive header with `ConstructExpected`.
    pub fn assert_constructed(&self) -> Result<(), Error>
        ensures { MatchResult result (λ _. is_constructed_of self.now ≡ true)
            (λ e. (is_constructed_of self.now ≡ false) × (e ≡ errors.ConstructExpected)) }
    {
        if self.constructed {
            Ok(())
        } else {
            Err(Error::ConstructExpected)
        }
    }

    /// Refuses an indefinite length with `DerConstraintFailed(IndefiniteLength)`.
    pub fn assert_definite(&self) -> Result<(), Error>
        ensures { MatchResult result (λ _. (n : ℕ) × (length_of self.now ≡ forms.Definite n))
            (λ e. (length_of self.now ≡ forms.Indefinite)
            × (e ≡ errors.DerConstraintFailed constraints.IndefiniteLength)) }
    {
        match self.length {
            Length::Definite(_) => Ok(()),
            Length::Indefinite => Err(Error::DerConstraintFailed(DerConstraint::IndefiniteLength)),
        }
    }
}

impl PartialEq for Header<'_> {
    ghost eq = { is_same_identifier };

    ghost laws = { Prim.search (comparing, rules) };

    fn eq(&self, other: &Self) -> bool
        ensures same { result ≡ is_same_identifier self.now other.now }
        ensures three_parts { IsTrue result ↔ (identifier_of self.now ≡ identifier_of other.now) }
    {
        self.class.number() == other.class.number()
            && self.constructed == other.constructed
            && self.tag.0 == other.tag.0
    }
}

impl Eq for Header<'_> {
    ghost laws = { Prim.search (comparing, rules) };
}

impl From<Tag> for Header<'_> {
    ghost from_gives = { λ tag header. HasParts header classes.Universal (is_container tag) tag
        (forms.Definite 0) None };

    fn from(tag: Tag) -> Self {
        Header::new_simple(tag)
    }
}
