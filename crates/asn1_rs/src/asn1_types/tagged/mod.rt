//! Values under a tag of their own, and elements under tags whose number is known only at run time (X.690 8.14).

pub mod builder;
mod explicit_parser;
mod explicit_value;
pub mod helpers;
pub(crate) mod implicit_parser;
mod implicit_value;
pub mod optional;
pub mod parser;
mod parser_writing;
mod whole_contents;

ghost use Rattle.std.specs.Prelude.{◌≡◌, ◌<◌, ◌∷◌, []};
ghost use Rattle.std.proofs.Common.{lit<};
ghost use Rattle.asn1_rs.specs.Tagged.{has_class, as_u32};
ghost use Rattle.asn1_rs.specs.Any.{parts_of};

use crate::asn1_types::any::Any;
use crate::kinds::reading::HasReader;
use crate::kinds::{HasKind, TaggedBy};
use crate::traits::Tagged;
use asn1_headers::class::Class;
use asn1_headers::error::Error;
use asn1_headers::tag::Tag;
use std::marker::PhantomData;

/// Marks explicit tags: an element of their own around that of the value (X.690 8.14.2).
#[derive(Debug, PartialEq, Eq, Drop)]
pub struct Explicit;

/// Marks implicit tags, which stand in place of the tag of the value (X.690 8.14.3).
#[derive(Debug, PartialEq, Eq, Drop)]
pub struct Implicit;

/// How a tag stands to that of its value: [`Explicit`] or [`Implicit`].
pub trait TagKind {}

impl TagKind for Explicit {}

impl TagKind for Implicit {}

/// A kind of tags under class `K`, as [`Explicit`] and [`Implicit`] are under each of the four.
// A const parameter can be any number, so `AlwaysDer` of a value under a tag has this bound.
pub trait HasClass<const K: u8>: TagKind {
    /// It is one of the four.
    ghost is_class: { K < 4 };
}

impl<Kind: TagKind> HasClass<0> for Kind {
    ghost is_class = { lit< tt };
}

impl<Kind: TagKind> HasClass<1> for Kind {
    ghost is_class = { lit< tt };
}

impl<Kind: TagKind> HasClass<2> for Kind {
    ghost is_class = { lit< tt };
}

impl<Kind: TagKind> HasClass<3> for Kind {
    ghost is_class = { lit< tt };
}

/// A value under a tag of this class and number.
///
/// Class 0 is universal, 1 application, 2 context-specific, 3 private (X.690 8.1.2.2). A number above 3 is that of no
/// class: such a value is counted, and refused in writing and reading.
#[derive(Drop)]
#[derive_where(Debug, PartialEq, Eq; T)]
pub struct TaggedValue<T, E, Kind, const CLASS: u8, const TAG: u32> {
    inner: T,
    of_types: PhantomData<(E, Kind)>,
}

/// A value under an explicit, context-specific tag.
pub type TaggedExplicit<T, E, const TAG: u32> = TaggedValue<T, E, Explicit, 2, TAG>;

/// A value under an implicit, context-specific tag.
pub type TaggedImplicit<T, E, const TAG: u32> = TaggedValue<T, E, Implicit, 2, TAG>;

/// A value under an explicit tag of the application class.
pub type ApplicationExplicit<T, E, const TAG: u32> = TaggedValue<T, E, Explicit, 1, TAG>;

/// A value under an implicit tag of the application class.
pub type ApplicationImplicit<T, E, const TAG: u32> = TaggedValue<T, E, Implicit, 1, TAG>;

/// A value under an explicit tag of the private class.
pub type PrivateExplicit<T, E, const TAG: u32> = TaggedValue<T, E, Explicit, 3, TAG>;

/// A value under an implicit tag of the private class.
pub type PrivateImplicit<T, E, const TAG: u32> = TaggedValue<T, E, Implicit, 3, TAG>;

/// An optional value under an explicit, context-specific tag.
pub type OptTaggedExplicit<T, E, const TAG: u32> = Option<TaggedExplicit<T, E, TAG>>;

/// An optional value under an implicit, context-specific tag.
pub type OptTaggedImplicit<T, E, const TAG: u32> = Option<TaggedImplicit<T, E, TAG>>;

impl<T, E, const CLASS: u8, const TAG: u32> TaggedValue<T, E, Explicit, CLASS, TAG> {
    /// The value under an explicit tag.
    pub const fn explicit(inner: T) -> Self
        ensures { result.inner ≡ inner }
    {
        TaggedValue {
            inner,
            of_types: PhantomData,
        }
    }
}

impl<T, E, const CLASS: u8, const TAG: u32> TaggedValue<T, E, Implicit, CLASS, TAG> {
    /// The value under an implicit tag.
    pub const fn implicit(inner: T) -> Self
        ensures { result.inner ≡ inner }
    {
        TaggedValue {
            inner,
            of_types: PhantomData,
        }
    }
}

impl<T, E, Kind, const CLASS: u8, const TAG: u32> TaggedValue<T, E, Kind, CLASS, TAG> {
    /// The value under a tag of this kind.
    pub(crate) const fn of_kind(inner: T) -> Self
        ensures { result.inner ≡ inner }
    {
        TaggedValue {
            inner,
            of_types: PhantomData,
        }
    }

    /// The value, without its tag.
    pub fn into_inner(self) -> T
        ensures { result ≡ self.inner }
    {
        self.inner
    }

    /// The value, without its tag.
    pub const fn as_inner(&self) -> &T
        ensures { result.now ≡ self.now.inner }
    {
        &self.inner
    }

    /// The tag number.
    pub const fn tag(&self) -> Tag
        ensures { result.0 ≡ TAG }
    {
        Tag(TAG)
    }

    /// The number of the class.
    pub const fn class(&self) -> u8
        ensures { result ≡ CLASS }
    {
        CLASS
    }
}

// `number_fits` is asked of the ghost `TAG`, and a ghost member knows no bound of a parameter. So it is the number
// modulo 2^32, which the constant proves to be the number.

impl Any<'_> {
    /// Refuses another class than that of this number with `UnexpectedClass`, which expects no class where the number
    /// is above 3.
    pub(crate) fn assert_class_number(&self, class: u8) -> Result<(), Error>
        ensures { has_class class (parts_of self.now) result }
    {
        let actual = self.header.class();
        if actual.number() == class {
            return Ok(());
        }
        Err(Error::unexpected_class(Class::try_from(class).ok(), actual))
    }
}

/// The numbers of the classes of a tag of each name. They are explicit and implicit context-specific ones, those of the
/// application and the private class, and optional context-specific ones.
pub fn classes_of_tags() -> [u8; 8]
    ensures { result ≡ 2 ∷ 2 ∷ 1 ∷ 1 ∷ 3 ∷ 3 ∷ 2 ∷ 2 ∷ [] }
{
    let explicit: OptTaggedExplicit<(), (), 0> = None;
    let implicit: OptTaggedImplicit<(), (), 0> = None;
    [
        TaggedExplicit::<(), (), 0>::explicit(()).class(),
        TaggedImplicit::<(), (), 0>::implicit(()).class(),
        ApplicationExplicit::<(), (), 0>::explicit(()).class(),
        ApplicationImplicit::<(), (), 0>::implicit(()).class(),
        PrivateExplicit::<(), (), 0>::explicit(()).class(),
        PrivateImplicit::<(), (), 0>::implicit(()).class(),
        explicit.unwrap_or(TaggedValue::explicit(())).class(),
        implicit.unwrap_or(TaggedValue::implicit(())).class(),
    ]
}

/// The kind of values under a tag, and their reader. `K` is [`Explicit`] or [`Implicit`].
#[derive_where(Debug)]
pub struct TagMark<K>(PhantomData<K>);

impl<T, E, Kind, const CLASS: u8, const TAG: u32> HasKind for TaggedValue<T, E, Kind, CLASS, TAG> {
    type Kind = TagMark<Kind>;
}

impl<T, E, Kind, const CLASS: u8, const TAG: u32> HasReader
    for TaggedValue<T, E, Kind, CLASS, TAG> {
    type Reader = TagMark<Kind>;
}

impl<T, E, Kind, const CLASS: u8, const TAG: u32> TaggedBy<TagMark<Kind>>
    for TaggedValue<T, E, Kind, CLASS, TAG> {
    const NUMBER: Tag = Tag(TAG);

    ghost NUMBER = { record { 0 = as_u32 TAG } };
}
