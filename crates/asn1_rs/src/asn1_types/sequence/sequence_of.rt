//! Sequences of items (X.690 8.10).
ghost use Rattle.std.specs.Prelude.{◌≡◌, true, MatchResult, IfOk, IfErr};
ghost use Rattle.std.specs.Borrow.{sem};
ghost use Rattle.std.specs.Cmp.Lexicographic.{pointwise};
ghost use Rattle.std.specs.Iterator.{IsFiniteIterable, Drains};
ghost use Rattle.std.proofs.Common.{lit<};
ghost use Rattle.asn1_headers.specs.declared.error.Error.TheVariants as errors;
ghost use Rattle.asn1_headers.specs.Ber.{EndsWithin};
ghost use Rattle.x690.specs.Identifiers.{IsTruncatedIdentifier};
ghost use Rattle.asn1_rs.specs.Lists.{PushesItem};
ghost use Rattle.asn1_rs.specs.Sequence.SequenceOf.{sequence_items, IsSequenceOf, lends_sequence_items};
ghost use Rattle.asn1_rs.specs.Laws.Lists.{takes_some, number_checks, constructed_checks, list_takes, list_checks};
ghost use Rattle.asn1_rs.specs.Laws.Lists.{list_by_der_exact, sequence_values};
ghost use Rattle.asn1_rs.specs.Laws.Words.{ber_one};
ghost use Rattle.asn1_rs.specs.Grammar.Item.{ber_words};

use crate::asn1_types::lists::{DecidesEach, FromItems, Listed, items_from_iter, push_item};
use crate::kinds::HasKind;
use crate::kinds::collections::{SequenceKind, WritesInOrder};
use crate::kinds::reading::{
    AnyForm, HasReader, LawfulBodyBy, LawfulCheckBy, LawfulDerBy, ListReader,
};
use crate::laws::assert_valid::States;
use crate::laws::der_form::Decides;
use crate::laws::{LawfulBer, LawfulCheck, LawfulDer};
use crate::to_der::ToDer;
use crate::traits::Tagged;
use asn1_headers::buffer::DerBuffer;
use asn1_headers::error::{Error, SerializeResult};
use asn1_headers::tag::Tag;
use asn1_headers::writer::DerWrite;
use std::alloc::{AllocError, Global};

/// A sequence of items, which are written in their order (X.690 8.10).
///
/// Two are equal where their items are, one by one.
#[derive(Debug, Drop, PartialEq)]
pub struct SequenceOf<T> {
    items: Vec<T>,
}

impl<T> SequenceOf<T> {
    /// The sequence of the items, in their order.
    pub fn new(items: Vec<T>) -> SequenceOf<T>
        ensures { IsSequenceOf items.items result }
    {
        SequenceOf { items }
    }

    /// The items in their order.
    pub fn as_slice(&self) -> &[T]
        ensures { result.now ≡ sequence_items self.now }
    {
        &self.items
    }

    /// The items in their order, to be changed where they stand.
    pub fn as_mut_slice(&mut self) -> &mut [T]
        ensures* writes_back { sem 𝓛 (lends_sequence_items T.row self.entry result) }
        ensures value { result.now ≡ sequence_items self.old }
    {
        self.items.as_mut_slice()
    }

    /// The items in their order, by value.
    pub fn into_vec(self) -> Vec<T>
        ensures { result.items ≡ sequence_items self }
    {
        let SequenceOf { items } = self;
        items
    }
}

impl<T: Drop> SequenceOf<T> {
    /// Puts the item last. Refused only when out of memory; the item is then dropped.
    pub fn push(&mut self, item: T) -> Result<(), Error>
        ensures { PushesItem (sequence_items self.old) item (sequence_items self.new) result }
    {
        push_item(&mut self.items, item)
    }

    /// The sequence of all that the iterator gives, in order. Refused only when out of memory.
    pub fn from_iter<I: IntoIterator<Item = T>>(
        alloc: Global,
        items: I,
    ) -> Result<SequenceOf<T>, Error>
        requires { IsFiniteIterable I.into_iter_gives I.IntoIter.can_next I.IntoIter.remaining
            items }
        ensures all { IfOk result (λ s. (it : I.IntoIter) × I.into_iter_gives items it ×
            Drains I.IntoIter.next_gives it (sequence_items s)) }
        ensures refused { IfErr result (λ e. e ≡ errors.OutOfMemory) }
    {
        match items_from_iter(alloc, items) {
            Ok(items) => Ok(SequenceOf { items }),
            Err(e) => Err(e),
        }
    }
}

/// Whether two sequences are equal, as `==` has it: their items are, one by one.
pub fn sequences_are_equal_in_order<T: PartialEq>(a: &SequenceOf<T>, b: &SequenceOf<T>) -> bool
    ensures { result ≡ pointwise T.eq (sequence_items a.now) (sequence_items b.now) }
{
    a == b
}

impl<T> From<SequenceOf<T>> for Vec<T> {
    ghost from_gives = { λ s v. v.items ≡ sequence_items s };

    fn from(s: SequenceOf<T>) -> Vec<T> {
        s.into_vec()
    }
}

impl<T> Tagged for SequenceOf<T> {
    const TAG: Tag = Tag::Sequence;

    ghost TAG = { record { 0 = 16 } };
}

impl<T> FromItems for SequenceOf<T> {
    type Item = T;

    type Refusal = Error;

    ghost holds = { IsSequenceOf };

    fn from_items(_alloc: Global, items: Vec<T>) -> Result<SequenceOf<T>, AllocError>
        ensures { MatchResult result (IsSequenceOf items.items) (λ _. ⊥) }
    {
        Ok(SequenceOf { items })
    }
}

impl<T> HasReader for SequenceOf<T> {
    type Reader = ListReader<AnyForm>;
}

impl<T> HasKind for SequenceOf<T> {
    type Kind = SequenceKind;
}

impl<T> Listed for SequenceOf<T> {
    type Item = T;

    ghost items = { sequence_items };

    ghost small = { lit< tt };

    fn state_each<P: States<T>>(&self) {
        self.items.state_each::<P>();
    }

    fn count_each(&self) -> Result<usize, Error>
    where
        T: ToDer,
    {
        self.items.count_each()
    }
}

impl<T> DecidesEach for SequenceOf<T> {
    fn decide_each<P: Decides<T>>(&self) -> bool {
        self.items.decide_each::<P>()
    }
}

impl<T> WritesInOrder for SequenceOf<T> {
    fn write_each<W: DerWrite>(&self, alloc: Global, w: &mut W) -> SerializeResult<usize>
    where
        T: ToDer,
    {
        self.items.write_each(alloc, w)
    }

    fn prepend_each(&self, alloc: Global, buf: &mut DerBuffer) -> SerializeResult<usize>
    where
        T: ToDer,
    {
        self.items.prepend_each(alloc, buf)
    }
}

impl<'a, T: LawfulBer<'a, Error> + Drop> LawfulBodyBy<'a, SequenceKind, Error> for SequenceOf<T> {
    ghost exact_by_kind = { list_takes (constructed_checks 16) IsSequenceOf Self.grammar.value
        T.ber_gives (λ x y. y ≡ x) (ber_words T.grammar) T.grammar.value T.grammar.allocates
        EndsWithin
        (sequence_values T.grammar.value) (ber_one T.grammar T.lawful_item) T.ber_exact };

    ghost no_memory_by_kind = { λ none p e g. takes_some none };
}

impl<'a, T: LawfulDer<'a, E> + Drop, E: From<Error>> LawfulDerBy<'a, ListReader<AnyForm>, E>
    for SequenceOf<T> {
    ghost exact_by_reader = { λ input answer octets.
        list_by_der_exact (number_checks 16) IsSequenceOf Self.grammar.value T.der_gives E.from_gives
        T.grammar.Der T.grammar.value T.grammar.allocates IsTruncatedIdentifier
        (sequence_values T.grammar.value) T.lawful_item.der_one T.der_exact input answer };

    ghost no_memory_by_reader = { λ none input answer g. takes_some none };
}

impl<T: LawfulCheck> LawfulCheckBy<SequenceKind> for SequenceOf<T> {
    ghost checks_by_kind = { list_checks 16 T.check_gives T.grammar.Check T.checks };
}
