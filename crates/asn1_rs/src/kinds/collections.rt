//! How lists in order and sets come by [`ToDer`](crate::to_der::ToDer) and the law traits: by their items.
//!
//! A list or a set says what its items are ([`Listed`]), and how it goes over them ([`WritesInOrder`],
//! [`WritesAscending`]). A set without repetitions says how it tells its members apart ([`HasMembers`],
//! [`LawfulMembers`]).
//!
//! How lists are read and checked stands in `asn1_types::lists`, the laws of that with each type.
ghost use Rattle.std.specs.Prelude.{◌≡◌, ◌≢◌, Bool, List, true, false, length, map, [], ◌∷◌, MatchOption, IfOk, IfErr};
ghost use Rattle.std.specs.Prelude.{◌+◌, IsErr};
ghost use Rattle.asn1_headers.specs.Prepended.{Prepended};
ghost use Rattle.std.specs.List.{All, flat_map};
ghost use Rattle.std.proofs.Common.{◌∙◌, sym};
ghost use Rattle.x690.specs.Collections.{AllDiffer};
ghost use Rattle.asn1_headers.specs.declared.error.SerializeError.{SerializeError};
ghost use Rattle.asn1_headers.specs.declared.error.Error.{Error};
ghost use Rattle.asn1_headers.specs.Error.{tells_of_io};
ghost use Rattle.asn1_rs.specs.Lists.{SomeRefuses, ArePacked, list_grammar};
ghost use Rattle.asn1_rs.specs.Set.{set_of, member_grammar, pairs_pass, set_content};
ghost use Rattle.asn1_rs.specs.ToDer.{Refuses, IntoVector, RefusesAtOnce, VectorRefuses, whole_allocates};
ghost use Rattle.asn1_rs.specs.ToDer.{whole_octets, whole_refuses};
ghost use Rattle.asn1_headers.specs.Writer.{Wrote};
ghost use Rattle.asn1_rs.specs.Kinds.Writing.{list_writing, set_writing};
ghost use Rattle.asn1_rs.specs.Laws.Lists.{list_lawful, list_takes_class, list_number, low_fits};
ghost use Rattle.asn1_rs.specs.Laws.Set.{member_lawful, set_takes_class, set_number};
ghost use Rattle.asn1_rs.specs.Laws.Writing.{list_lawful_writing, member_lawful_writing};
ghost use Rattle.asn1_rs.specs.Grammar.Item.{ber_words};
ghost use Rattle.asn1_rs.specs.Laws.Words.{strict_ber};

use crate::asn1_types::lists::{Listed, PackedEncodings};
use crate::asn1_types::set::{prepend_ascending, write_ascending};
use crate::header::{element_len, put_counted_header};
use crate::kinds::writing::{LawfulTaggedBy, LawfulWriteBy, TakesClassBy, ToDerBy};
use crate::kinds::{GrammarBy, HasKind, LawfulItemBy};
use crate::laws::assert_valid::OfValue;
use crate::laws::{Grammar, LawfulItem, LawfulWrite};
use crate::to_der::ToDer;
use crate::traits::Tagged;
use asn1_headers::buffer::{DerBuffer, prepend_element};
use asn1_headers::error::{Error, SerializeResult};
use asn1_headers::tag::Tag;
use asn1_headers::writer::DerWrite;
use std::alloc::Global;
use std::marker::PhantomData;

/// A kind of lists: [`SequenceKind`] or [`SetKind`].
pub trait CollectionKind {}

/// The kind of lists that are sequences of their items, in order (X.690 8.10).
#[derive(Debug)]
pub struct SequenceKind;

impl CollectionKind for SequenceKind {}

/// The kind of sets, in which the order of the items says nothing (X.690 8.12). `M` is [`Repeats`] or [`Once`].
#[derive_where(Debug)]
pub struct SetKind<M>(PhantomData<M>);

impl<M> CollectionKind for SetKind<M> {}

/// Of sets in which an item may stand more than once.
#[derive(Debug)]
pub struct Repeats;

/// Of sets in which each item stands once.
#[derive(Debug)]
pub struct Once;

/// A list that is written as its items, one after another.
///
/// So it has [`ToDer`], and [`LawfulWrite`] where the items have it.
pub trait WritesInOrder: Listed {
    /// Appends the items in their order, and answers the number of octets.
    // The method asks for the items' writer. Where the trait does, as `WritesInOrder<T: ToDer>`, an impl over a list
    // asks for it by four ways. Then the search grows fourfold with each list in a list.
    fn write_each<W: DerWrite>(&self, alloc: Global, w: &mut W) -> SerializeResult<usize>
    where
        Self::Item: ToDer,
        ensures wrote { All Self.Item.writing.tells (Self.items self.now) →
            Wrote
            (flat_map (whole_octets Self.Item.writing) (Self.items self.now))
            (W.state w.old) (W.state w.new) result }
        ensures refused { All Self.Item.writing.tells (Self.items self.now) →
            IfErr result
            (Refuses
            (whole_allocates Self.Item.writing)
            (length
            (flat_map (whole_octets Self.Item.writing)
            (Self.items self.now)))
            (SomeRefuses (whole_refuses Self.Item.writing)
            (Self.items self.now))) }
        ensures accepted { (e : SerializeError) →
            All Self.Item.writing.tells (Self.items self.now) →
            SomeRefuses (whole_refuses Self.Item.writing)
            (Self.items self.now) e → IsErr result }
        ensures uncounted { (e : Error) → All Self.Item.writing.tells (Self.items self.now) →
            SomeRefuses Self.Item.writing.count_refuses (Self.items self.now) e → IsErr result };

    /// Puts the items before the octets of the buffer, the last one first, and answers their number.
    fn prepend_each(&self, alloc: Global, buf: &mut DerBuffer) -> SerializeResult<usize>
    where
        Self::Item: ToDer,
        ensures prepended { All Self.Item.writing.tells (Self.items self.now) →
            Prepended (flat_map (whole_octets Self.Item.writing) (Self.items self.now))
            buf.old buf.new result }
        ensures refused { All Self.Item.writing.tells (Self.items self.now) →
            IfErr result (VectorRefuses
            (length (flat_map (whole_octets Self.Item.writing) (Self.items self.now))
            + length buf.old)
            (SomeRefuses (whole_refuses Self.Item.writing) (Self.items self.now))) }
        ensures accepted { (e : SerializeError) →
            All Self.Item.writing.tells (Self.items self.now) →
            SomeRefuses (whole_refuses Self.Item.writing) (Self.items self.now) e → IsErr result }
        ensures uncounted { (e : Error) → All Self.Item.writing.tells (Self.items self.now) →
            SomeRefuses Self.Item.writing.count_refuses (Self.items self.now) e → IsErr result };
}

/// A set that is written as the encodings of its items, in ascending order (X.690 11.6).
///
/// So it has [`ToDer`].
pub trait WritesAscending: Listed {
    /// The item of a set that has one alone: it is written where it is to stand, with no vector for its encoding.
    fn only_item(&self) -> Option<&Self::Item>
        ensures { MatchOption result ((x : Self.Item) → Self.items self.now ≢ x ∷ [])
            (λ item. Self.items self.now ≡ item.now ∷ []) };

    /// The encoding of each item.
    fn encode_each(&self, alloc: Global) -> SerializeResult<PackedEncodings>
    where
        Self::Item: ToDer,
        ensures each { All Self.Item.writing.tells (Self.items self.now) →
            IfOk result
            (ArePacked
            (map (whole_octets Self.Item.writing) (Self.items self.now))) }
        ensures refused { All Self.Item.writing.tells (Self.items self.now) →
            IfErr result (Refuses true
            (length
            (flat_map (whole_octets Self.Item.writing)
            (Self.items self.now)))
            (SomeRefuses
            (λ x. IntoVector (whole_refuses Self.Item.writing x))
            (Self.items self.now))) }
        ensures accepted { (e : SerializeError) →
            All Self.Item.writing.tells (Self.items self.now) →
            SomeRefuses
            (λ x. IntoVector (whole_refuses Self.Item.writing x))
            (Self.items self.now) e → IsErr result }
        ensures uncounted { (e : Error) → All Self.Item.writing.tells (Self.items self.now) →
            SomeRefuses Self.Item.writing.count_refuses (Self.items self.now) e → IsErr result }
        ensures at_once { (x : Self.Item) (xs : List Self.Item) (e : SerializeError) →
            Self.items self.now ≡ x ∷ xs → All Self.Item.writing.tells (x ∷ xs) →
            Self.Item.writing.header_refuses x e → IfErr result (IntoVector (RefusesAtOnce
            (whole_allocates Self.Item.writing)
            (length (whole_octets Self.Item.writing x))
            (whole_refuses Self.Item.writing x))) }
        ensures memory { IfErr result (λ e. tells_of_io e ≡ false) };

    /// Puts the items before the octets of the buffer in ascending order, and answers the number of their octets.
    ///
    /// This body joins their encodings first. A set whose items stand in a slice puts them there at once.
    fn prepend_each(&self, alloc: Global, buf: &mut DerBuffer) -> SerializeResult<usize>
    where
        Self::Item: ToDer,
        ensures prepended { All Self.Item.writing.tells (Self.items self.now) →
            Prepended (set_content (whole_octets Self.Item.writing) (Self.items self.now))
            buf.old buf.new result }
        ensures refused { All Self.Item.writing.tells (Self.items self.now) →
            IfErr result (VectorRefuses
            (length (set_content (whole_octets Self.Item.writing) (Self.items self.now))
            + length buf.old)
            (SomeRefuses (λ x. IntoVector (whole_refuses Self.Item.writing x))
            (Self.items self.now))) }
        ensures accepted { (e : SerializeError) →
            All Self.Item.writing.tells (Self.items self.now) →
            SomeRefuses (λ x. IntoVector (whole_refuses Self.Item.writing x))
            (Self.items self.now) e → IsErr result }
        ensures uncounted { (e : Error) → All Self.Item.writing.tells (Self.items self.now) →
            SomeRefuses Self.Item.writing.count_refuses (Self.items self.now) e → IsErr result }
    {
        let encodings = self.encode_each(alloc)?;
        prepend_ascending(&encodings, alloc, buf)
    }
}

impl<L, T> ToDerBy<SequenceKind> for L
where
    L: WritesInOrder + Listed<Item = T>,
    T: ToDer,
{
    ghost writing = { list_writing (L.TAG).0 L.items T.writing };

    fn element_count(&self) -> Result<usize, Error> {
        element_len(L::TAG.0, ToDerBy::<SequenceKind>::content_count(self))
    }

    fn content_count(&self) -> Result<usize, Error> {
        self.count_each()
    }

    fn is_constructed(&self) -> bool {
        true
    }

    fn put_header<W: DerWrite>(&self, _alloc: Global, w: &mut W) -> SerializeResult<usize> {
        put_counted_header(
            0,
            true,
            L::TAG.0,
            ToDerBy::<SequenceKind>::content_count(self),
            w,
        )
    }

    fn put_content<W: DerWrite>(&self, alloc: Global, w: &mut W) -> SerializeResult<usize> {
        self.write_each(alloc, w)
    }

    fn prepend_content(&self, alloc: Global, buf: &mut DerBuffer) -> SerializeResult<usize> {
        self.prepend_each(alloc, buf)
    }

    fn prepend_whole(&self, alloc: Global, buf: &mut DerBuffer) -> SerializeResult<usize> {
        let content = self.prepend_each(alloc, buf);
        prepend_element(0, true, L::TAG.0, content, buf)
    }
}

/// Collects the encodings of the items, appends them in ascending order, and answers the number of octets.
fn write_collected<L, T, W>(set: &L, alloc: Global, w: &mut W) -> SerializeResult<usize>
where
    L: WritesAscending + Listed<Item = T>,
    T: ToDer,
    W: DerWrite,
    ensures wrote { All T.writing.tells (L.items set.now) →
        Wrote (set_content (whole_octets T.writing) (L.items set.now)) (W.state w.old)
        (W.state w.new) result }
    ensures refused { All T.writing.tells (L.items set.now) →
        IfErr result
        (Refuses true (length (set_content (whole_octets T.writing) (L.items set.now)))
        (SomeRefuses (λ x. IntoVector (whole_refuses T.writing x))
        (L.items set.now))) }
    ensures accepted { (e : SerializeError) → All T.writing.tells (L.items set.now) →
        SomeRefuses (λ x. IntoVector (whole_refuses T.writing x))
        (L.items set.now) e → IsErr result }
    ensures uncounted { (e : Error) → All T.writing.tells (L.items set.now) →
        SomeRefuses T.writing.count_refuses (L.items set.now) e → IsErr result }
    ensures at_once { (x : T) (xs : List T) (e : SerializeError) → L.items set.now ≡ x ∷ xs →
        All T.writing.tells (x ∷ xs) → T.writing.header_refuses x e →
        IfErr result (IntoVector (RefusesAtOnce
        (whole_allocates T.writing)
        (length (whole_octets T.writing x))
        (whole_refuses T.writing x))) }
{
    let encodings = set.encode_each(alloc)?;
    write_ascending(&encodings, alloc, w)
}

impl<L, T, M> ToDerBy<SetKind<M>> for L
where
    L: WritesAscending + Listed<Item = T>,
    T: ToDer,
{
    ghost writing = { set_writing L.items T.writing };

    fn element_count(&self) -> Result<usize, Error> {
        element_len(Tag::Set.0, ToDerBy::<SetKind<M>>::content_count(self))
    }

    #[inline(always)]
    fn content_count(&self) -> Result<usize, Error> {
        self.count_each()
    }

    fn is_constructed(&self) -> bool {
        true
    }

    fn put_header<W: DerWrite>(&self, _alloc: Global, w: &mut W) -> SerializeResult<usize> {
        put_counted_header(
            0,
            true,
            Tag::Set.0,
            ToDerBy::<SetKind<M>>::content_count(self),
            w,
        )
    }

    fn put_content<W: DerWrite>(&self, alloc: Global, w: &mut W) -> SerializeResult<usize> {
        match self.only_item() {
            Some(item) => item.write_der(alloc, w),
            None => write_collected(self, alloc, w),
        }
    }

    fn prepend_content(&self, alloc: Global, buf: &mut DerBuffer) -> SerializeResult<usize> {
        match self.only_item() {
            Some(item) => item.prepend_der(alloc, buf),
            None => self.prepend_each(alloc, buf),
        }
    }

    fn prepend_whole(&self, alloc: Global, buf: &mut DerBuffer) -> SerializeResult<usize> {
        let content = ToDerBy::<SetKind<M>>::prepend_content(self, alloc, buf);
        prepend_element(0, true, Tag::Set.0, content, buf)
    }
}

/// A set without repetitions tells its members apart.
///
/// So it has [`Grammar`] and [`LawfulItem`] where its members have them.
pub trait HasMembers: Listed {
    /// The members stand in a way in which the set keeps them where each passes with each one behind it.
    ghost test: { Self.Item → Self.Item → Bool };

    /// States of a set in hand that its members pass the test. No member is looked at.
    fn members_pass(&self)
        ensures { pairs_pass test (Self.items self.now) ≡ true };

    /// It has the tag number of sets.
    ghost is_set: { (Self.TAG).0 ≡ 17 };
}

/// Members that the set tells apart have different values.
///
/// So it has [`LawfulWrite`] where its members have it.
pub trait LawfulMembers<T: LawfulItem>: HasMembers + Listed<Item = T> {
    /// Two members that pass the test differ in value.
    ghost apart: { (x y : T) → Self.test x y ≡ true → T.grammar.value x ≡ T.grammar.value y → ⊥ };
}

impl<L: Listed<Item = T>, T: Grammar> GrammarBy<SequenceKind> for L {
    ghost grammar_by_kind = { list_grammar (L.TAG).0 L.items T.grammar };
}

impl<L: Listed<Item = T>, T: LawfulItem> LawfulItemBy<SequenceKind> for L {
    ghost lawful_by_kind = { list_lawful (L.TAG).0 L.small L.items T.grammar T.lawful_item };

    fn value_by_kind(&self) {
        self.state_each::<OfValue>();
    }
}

impl<L: HasMembers + Listed<Item = T>, T: Grammar> GrammarBy<SetKind<Once>> for L {
    ghost grammar_by_kind = { member_grammar L.test L.items T.grammar };
}

impl<L: HasMembers + Listed<Item = T>, T: LawfulItem> LawfulItemBy<SetKind<Once>> for L {
    ghost lawful_by_kind = { member_lawful L.test L.items T.grammar T.lawful_item };

    fn value_by_kind(&self) {
        self.state_each::<OfValue>();
        self.members_pass();
    }
}

impl<L, T> LawfulWriteBy<SequenceKind> for L
where
    L: HasKind<Kind = SequenceKind> + WritesInOrder + Listed<Item = T>,
    T: LawfulWrite,
{
    ghost lawful_writing_by_kind = { list_lawful_writing (L.TAG).0 L.items T.grammar T.writing
        T.lawful_item T.lawful_writing };
}

impl<L, T> LawfulTaggedBy<SequenceKind> for L
where
    L: HasKind<Kind = SequenceKind> + Listed<Item = T>,
    T: Grammar,
{
    ghost number_by_kind = { list_number T.grammar.Form (L.TAG).0 };

    ghost number_is_small = { low_fits (L.TAG).0 L.small };
}

impl<L, T, const C: u8> TakesClassBy<SequenceKind, C> for L
where
    L: HasKind<Kind = SequenceKind> + Listed<Item = T>,
    T: LawfulItem,
{
    ghost takes_this_class = { list_takes_class T.grammar.Form (L.TAG).0 (ber_words T.grammar)
        T.grammar.Check (strict_ber T.grammar T.lawful_item) T.lawful_item.form_check C };
}

impl<L, T> LawfulWriteBy<SetKind<Once>> for L
where
    L: HasKind<Kind = SetKind<Once>> + WritesAscending + LawfulMembers<T> + Listed<Item = T>,
    T: LawfulWrite,
{
    ghost lawful_writing_by_kind = { member_lawful_writing L.test L.items T.grammar T.writing
        L.apart
        T.lawful_item T.lawful_writing };
}

impl<L, T> LawfulTaggedBy<SetKind<Once>> for L
where
    L: HasKind<Kind = SetKind<Once>> + HasMembers + Listed<Item = T>,
    T: Grammar,
{
    ghost number_by_kind = { λ v i c f. set_number set_of AllDiffer T.grammar.Form v i c f ∙ sym
        L.is_set };

    ghost number_is_small = { low_fits (L.TAG).0 L.small };
}

impl<L, T, const C: u8> TakesClassBy<SetKind<Once>, C> for L
where
    L: HasKind<Kind = SetKind<Once>> + HasMembers + Listed<Item = T>,
    T: LawfulItem,
{
    ghost takes_this_class = { set_takes_class set_of AllDiffer T.grammar.Form (ber_words T.grammar)
        T.grammar.Check (strict_ber T.grammar T.lawful_item) T.lawful_item.form_check C };
}
