//! How types come by their grammars and laws, and by writing. There are six kinds. Three are of types that are read as
//! one element, of holders of one item, and of lists and sets. Three are of sequences of fields, of choices, and of
//! values under a tag.
//!
//! A type that is read as one element, checked and converted, names its kind, [`ElementKind`]. It says once how it is
//! read and that this is exact ([`leaf`]). The traits of readers ([`reading`]), of writing ([`writing`]) and of
//! [`laws`](crate::laws) follow from these. Lists and sets name kinds of their own ([`collections`]), sequences of
//! fields too ([`fields`]), and values under a tag ([`TagMark`](crate::asn1_types::tagged::TagMark)). A type of another
//! make has those traits itself and no kind.

pub(crate) mod assert_valid;
pub(crate) mod collections;
pub(crate) mod decoding;
pub(crate) mod der_form;
pub(crate) mod fields;
pub(crate) mod leaf;
pub(crate) mod reading;
pub(crate) mod writing;

ghost use Rattle.std.specs.Prelude.{◌≡◌};
ghost use Rattle.asn1_headers.specs.declared.tag.Tag.{Tag};
ghost use Rattle.asn1_rs.specs.Grammar.Item.{ItemGrammar, IsLawfulItem, by_inner};
ghost use Rattle.asn1_rs.specs.Kinds.{ElementGrammar, IsLawfulElement, IsExactCheck, IsExactConversion, item_grammar};
ghost use Rattle.asn1_rs.specs.Laws.Kinds.{lawful_item, lawful_by_inner};

use crate::laws::{Grammar, LawfulAuto, LawfulItem, LawfulMember};
use crate::traits::{CheckDerConstraints, DerAutoDerive, FromAny, Tagged};
use asn1_headers::error::Error;
use asn1_headers::tag::Tag;

/// A type that has its grammars and laws by its kind.
// Two plain impls, over elements and over what holds one, conflict. A crate above could give a reference to its own
// type the trait of the first. The smallest pair is `impl<T: Leaf> Grammar for T` beside `impl<T: Grammar> Grammar for
// &T`.
pub trait HasKind {
    /// The kind: [`ElementKind`] or [`HolderKind`]. Lists and sets have one of [`collections`], sequences of fields
    /// that of [`fields`], choices [`ChoiceKind`](crate::author::ChoiceKind), values under a tag
    /// [`TagMark`](crate::asn1_types::tagged::TagMark).
    type Kind;
}

/// The kind of types that are read as one element, checked and converted.
#[derive(Debug)]
pub struct ElementKind;

/// The kind of references, and of other types that hold one item and nothing else.
#[derive(Debug)]
pub struct HolderKind;

impl<T> HasKind for &T {
    type Kind = HolderKind;
}

/// A type that holds one item and nothing else, and hands every call on to it.
///
/// So it has [`ToDer`](crate::ToDer), [`Grammar`], [`LawfulItem`], and the laws of writing and of tags, where the item
/// has them.
// It hands on its conversion, its own reader by DER and its check itself, with the item's laws under one lemma each.
// Only the type makes a value of an item.
pub trait Holds: HasKind<Kind = HolderKind> {
    /// The type of the item.
    type Held;

    /// The item.
    ghost held: { Self → Self.Held };

    /// The item.
    fn held(&self) -> &Self::Held
        ensures { result.now ≡ held self.now };
}

impl<T> Holds for &T {
    type Held = T;

    ghost held = { λ r. r.now };

    fn held(&self) -> &T {
        *self
    }
}

/// The tag number of a type of this kind.
pub trait TaggedBy<K> {
    /// `TAG`.
    const NUMBER: Tag;

    /// The constant, as contracts name it.
    ghost NUMBER: { Tag };
}

impl<H: Holds<Held = T>, T: Tagged> TaggedBy<HolderKind> for H {
    const NUMBER: Tag = T::TAG;

    ghost NUMBER = { T.TAG };
}

/// A type that has the tag number of another one, as each type with a lifetime.
///
/// So it has [`Tagged`].
pub trait TaggedAs {
    /// The other type: a [`TagNumber`], where none has the number.
    type Number: Tagged;
}

/// A tag number, as a type.
#[derive(Debug)]
pub struct TagNumber<const N: u32>;

impl<const N: u32> Tagged for TagNumber<N> {
    const TAG: Tag = Tag(N);

    ghost TAG = { record { 0 = N } };
}

// This impl names no lifetime, so it may have the constant.
impl<T: TaggedAs> TaggedBy<ElementKind> for T {
    const NUMBER: Tag = T::Number::TAG;

    ghost NUMBER = { T.Number.TAG };
}

impl<T: HasKind + TaggedBy<T::Kind>> Tagged for T {
    const TAG: Tag = T::NUMBER;

    ghost TAG = { T.NUMBER };
}

/// A type that is read as one element, checked and converted: its values, and that what it says of them is lawful.
///
/// So it has [`Grammar`] and [`LawfulItem`]. A type with a tag number has this by [`leaf`].
pub trait LawfulElement: HasKind<Kind = ElementKind> + Sized {
    /// Its values, and what the element of a value is.
    ghost element: { ElementGrammar Self };

    /// States of an item in hand that its value is one of the type's: the body reads what the item holds.
    fn assert_value_valid(&self)
        ensures { element.IsValue (element.value self.now) };

    /// An element has one value, a value one strict element, and this has the value and passes the check.
    ghost lawful: { IsLawfulElement Self.element };
}

/// The conversion of such an element is exact, so the type has [`LawfulBody`], and with it the laws of both readers.
pub trait LawfulConversion<'a>: FromAny<'a, Error = Error> + LawfulElement {
    /// An Ok is the value of the body; an Err comes only where there is none, or when out of memory.
    ghost converts: { IsExactConversion Self.any_gives Self.element };
}

/// The grammars of a type of this kind.
pub trait GrammarBy<K> {
    /// What [`Grammar`] tells.
    ghost grammar_by_kind: { ItemGrammar Self };
}

/// The laws of a type of this kind.
pub trait LawfulItemBy<K>: GrammarBy<K> {
    /// `has_value`.
    fn value_by_kind(&self)
        ensures { Self.grammar_by_kind.IsValue (Self.grammar_by_kind.value self.now) };

    /// What [`LawfulItem`] tells.
    ghost lawful_by_kind: { IsLawfulItem Self.grammar_by_kind };
}

/// The words are the elements that have a body; by DER those of definite length that pass the check.
impl<T: LawfulElement> GrammarBy<ElementKind> for T {
    ghost grammar_by_kind = { item_grammar T.element };
}

impl<T: LawfulElement> LawfulItemBy<ElementKind> for T {
    ghost lawful_by_kind = { lawful_item T.element T.lawful };

    fn value_by_kind(&self) {
        self.assert_value_valid();
    }
}

/// What holds an item has its values and grammars.
impl<H: Holds<Held = T>, T: Grammar> GrammarBy<HolderKind> for H {
    ghost grammar_by_kind = { by_inner H.held T.grammar };
}

impl<H: Holds<Held = T>, T: LawfulItem> LawfulItemBy<HolderKind> for H {
    ghost lawful_by_kind = { lawful_by_inner H.held T.grammar T.lawful_item };

    fn value_by_kind(&self) {
        self.held().has_value();
    }
}

impl<T: HasKind + GrammarBy<T::Kind>> Grammar for T {
    ghost grammar = { T.grammar_by_kind };
}

impl<T: HasKind + LawfulItemBy<T::Kind>> LawfulItem for T {
    ghost lawful_item = { T.lawful_by_kind };

    fn has_value(&self) {
        self.value_by_kind();
    }
}

impl<T: LawfulElement + DerAutoDerive> LawfulAuto for T {
    ghost der_split = { λ o v w. w };

    ghost der_join = { λ o v w. w };
}

/// References are equal where what they refer to is.
impl<T: LawfulMember> LawfulMember for &T {
    ghost same = { λ x y. T.same x.now y.now };
}
