//! Sets in which an item may stand more than once (X.690 8.12).
ghost use Rattle.std.specs.Prelude.{◌≡◌, true, MatchResult, IfOk, IfErr};
ghost use Rattle.std.specs.Borrow.{sem};
ghost use Rattle.std.specs.Cmp.Lexicographic.{pointwise};
ghost use Rattle.std.specs.Iterator.{IsFiniteIterable, Drains};
ghost use Rattle.std.proofs.Common.{lit<};
ghost use Rattle.x690.specs.Identifiers.{IsTruncatedIdentifier};
ghost use Rattle.x690.specs.Collections.{multiset, AnyList};
ghost use Rattle.asn1_headers.specs.Ber.{EndsWithin};
ghost use Rattle.asn1_headers.specs.declared.error.Error.TheVariants as errors;
ghost use Rattle.asn1_rs.specs.Lists.{PushesItem};
ghost use Rattle.asn1_rs.specs.Set.{items_of, HasItems, lends_set_items, multiset_grammar};
ghost use Rattle.asn1_rs.specs.Laws.Lists.{takes_some, number_checks, constructed_checks, list_checks};
ghost use Rattle.asn1_rs.specs.Laws.Set.{multiset_told, multiset_lawful, set_takes, set_by_der_exact, set_takes_class};
ghost use Rattle.asn1_rs.specs.Laws.Set.{set_number};
ghost use Rattle.asn1_rs.specs.Laws.Writing.{multiset_lawful_writing};
ghost use Rattle.asn1_rs.specs.Laws.Words.{ber_one, strict_ber};
ghost use Rattle.asn1_rs.specs.Grammar.Item.{ber_words};

use crate::asn1_types::lists::{
    DecidesEach, FromItems, Listed, PackedEncodings, encode_items, items_from_iter, push_item,
};
use crate::asn1_types::set::prepend_set;
use crate::kinds::assert_valid::AlwaysDerBy;
use crate::kinds::collections::{Repeats, SetKind, WritesAscending};
use crate::kinds::der_form::TellsDerBy;
use crate::kinds::reading::{
    AnyForm, HasReader, LawfulBodyBy, LawfulCheckBy, LawfulDerBy, ListReader,
};
use crate::kinds::writing::{LawfulTaggedBy, LawfulWriteBy, TakesClassBy};
use crate::kinds::{GrammarBy, HasKind, LawfulItemBy};
use crate::laws::assert_valid::{AlwaysDer, OfDer, OfValue, States};
use crate::laws::der_form::{Decides, TellsDer, WhetherDer};
use crate::laws::{Grammar, LawfulBer, LawfulCheck, LawfulDer, LawfulItem, LawfulWrite};
use crate::to_der::ToDer;
use crate::traits::Tagged;
use asn1_headers::buffer::DerBuffer;
use asn1_headers::error::{Error, SerializeResult};
use asn1_headers::tag::Tag;
use std::alloc::{AllocError, Global};

/// A set of items, each as often as it stands in the list that it is made of.
///
/// It is written in ascending order of the items' encodings (X.690 11.6), in whatever order the items stand. Two are
/// equal where their items are, one by one, in the order in hand.
#[derive(Debug, Drop, PartialEq)]
pub struct SetOf<T> {
    items: Vec<T>,
}

impl<T> SetOf<T> {
    /// The set of the items, which it keeps in their order.
    pub fn new(items: Vec<T>) -> SetOf<T>
        ensures { HasItems items.items result }
    {
        SetOf { items }
    }

    /// The items in their order.
    pub fn as_slice(&self) -> &[T]
        ensures { result.now ≡ items_of self.now }
    {
        &self.items
    }

    /// The items in their order, to be changed where they stand.
    pub fn as_mut_slice(&mut self) -> &mut [T]
        ensures* writes_back { sem 𝓛 (lends_set_items T.row self.entry result) }
        ensures value { result.now ≡ items_of self.old }
    {
        self.items.as_mut_slice()
    }

    /// The items in their order, by value.
    pub fn into_vec(self) -> Vec<T>
        ensures { result.items ≡ items_of self }
    {
        let SetOf { items } = self;
        items
    }
}

impl<T: Drop> SetOf<T> {
    /// Puts the item last. Refused only when out of memory; the item is then dropped.
    pub fn push(&mut self, item: T) -> Result<(), Error>
        ensures { PushesItem (items_of self.old) item (items_of self.new) result }
    {
        push_item(&mut self.items, item)
    }

    /// The set of all that the iterator gives, in order. Refused only when out of memory.
    pub fn from_iter<I: IntoIterator<Item = T>>(alloc: Global, items: I) -> Result<SetOf<T>, Error>
        requires { IsFiniteIterable I.into_iter_gives I.IntoIter.can_next I.IntoIter.remaining
            items }
        ensures all { IfOk result (λ s. (it : I.IntoIter) × I.into_iter_gives items it ×
            Drains I.IntoIter.next_gives it (items_of s)) }
        ensures refused { IfErr result (λ e. e ≡ errors.OutOfMemory) }
    {
        match items_from_iter(alloc, items) {
            Ok(items) => Ok(SetOf { items }),
            Err(e) => Err(e),
        }
    }
}

/// Whether two sets are equal, as `==` has it: their items are, one by one, in the order in hand.
pub fn sets_are_equal_in_order<T: PartialEq>(a: &SetOf<T>, b: &SetOf<T>) -> bool
    ensures { result ≡ pointwise T.eq (items_of a.now) (items_of b.now) }
{
    a == b
}

impl<T> From<SetOf<T>> for Vec<T> {
    ghost from_gives = { λ s v. v.items ≡ items_of s };

    fn from(s: SetOf<T>) -> Vec<T> {
        s.into_vec()
    }
}

impl<T> Tagged for SetOf<T> {
    const TAG: Tag = Tag::Set;

    ghost TAG = { record { 0 = 17 } };
}

impl<T> FromItems for SetOf<T> {
    type Item = T;

    type Refusal = Error;

    ghost holds = { HasItems };

    fn from_items(_alloc: Global, items: Vec<T>) -> Result<SetOf<T>, AllocError>
        ensures { MatchResult result (HasItems items.items) (λ _. ⊥) }
    {
        Ok(SetOf { items })
    }
}

impl<T> HasReader for SetOf<T> {
    type Reader = ListReader<AnyForm>;
}

impl<T> HasKind for SetOf<T> {
    type Kind = SetKind<Repeats>;
}

impl<T> Listed for SetOf<T> {
    type Item = T;

    ghost items = { items_of };

    ghost small = { lit< tt };

    fn state_each<P: States<T>>(&self) {
        self.items.state_each::<P>();
    }

    #[inline(always)]
    fn count_each(&self) -> Result<usize, Error>
    where
        T: ToDer,
    {
        self.items.count_each()
    }
}

impl<T> DecidesEach for SetOf<T> {
    fn decide_each<P: Decides<T>>(&self) -> bool {
        self.items.decide_each::<P>()
    }
}

impl<T> WritesAscending for SetOf<T> {
    fn only_item(&self) -> Option<&T> {
        match self.as_slice() {
            [item] => Some(item),
            _ => None,
        }
    }

    fn encode_each(&self, alloc: Global) -> SerializeResult<PackedEncodings>
    where
        T: ToDer,
    {
        encode_items(self.items.iter(), alloc)
    }

    fn prepend_each(&self, alloc: Global, buf: &mut DerBuffer) -> SerializeResult<usize>
    where
        T: ToDer,
    {
        prepend_set(self.as_slice(), alloc, buf)
    }
}

impl<T: Grammar> GrammarBy<SetKind<Repeats>> for SetOf<T> {
    ghost grammar_by_kind = { multiset_grammar items_of T.grammar };
}

impl<T: LawfulItem> LawfulItemBy<SetKind<Repeats>> for SetOf<T> {
    ghost lawful_by_kind = { multiset_lawful items_of T.grammar T.lawful_item };

    fn value_by_kind(&self) {
        self.state_each::<OfValue>();
    }
}

impl<T: TellsDer> TellsDerBy<SetKind<Repeats>> for SetOf<T> {
    fn der_form_by_kind(&self) -> bool {
        self.decide_each::<WhetherDer>()
    }
}

impl<T: AlwaysDer> AlwaysDerBy<SetKind<Repeats>> for SetOf<T> {
    fn der_by_kind(&self) {
        self.state_each::<OfDer>();
    }
}

impl<'a, T: LawfulBer<'a, Error> + Drop> LawfulBodyBy<'a, SetKind<Repeats>, Error> for SetOf<T> {
    ghost exact_by_kind = { set_takes (constructed_checks 17) HasItems multiset Self.grammar.value
        T.ber_gives (λ x y. y ≡ x) (ber_words T.grammar) T.grammar.value T.grammar.allocates
        EndsWithin
        (multiset_told T.grammar.value) (ber_one T.grammar T.lawful_item) T.ber_exact };

    ghost no_memory_by_kind = { λ none p e g. takes_some none };
}

impl<'a, T: LawfulDer<'a, E> + Drop, E: From<Error>> LawfulDerBy<'a, ListReader<AnyForm>, E>
    for SetOf<T> {
    ghost exact_by_reader = { λ input answer octets.
        set_by_der_exact (number_checks 17) HasItems multiset Self.grammar.value T.der_gives
        E.from_gives T.grammar.Der T.grammar.value T.grammar.allocates IsTruncatedIdentifier
        (multiset_told T.grammar.value) T.lawful_item.der_one T.der_exact input answer };

    ghost no_memory_by_reader = { λ none input answer g. takes_some none };
}

impl<T: LawfulCheck> LawfulCheckBy<SetKind<Repeats>> for SetOf<T> {
    ghost checks_by_kind = { list_checks 17 T.check_gives T.grammar.Check T.checks };
}

impl<T: LawfulWrite> LawfulWriteBy<SetKind<Repeats>> for SetOf<T> {
    ghost lawful_writing_by_kind = { multiset_lawful_writing items_of T.grammar T.writing
        T.lawful_item T.lawful_writing };
}

impl<T: Grammar> LawfulTaggedBy<SetKind<Repeats>> for SetOf<T> {
    ghost number_by_kind = { set_number multiset AnyList T.grammar.Form };

    ghost number_is_small = { lit< tt };
}

impl<T: LawfulItem, const C: u8> TakesClassBy<SetKind<Repeats>, C> for SetOf<T> {
    ghost takes_this_class = { set_takes_class multiset AnyList T.grammar.Form (ber_words T.grammar)
        T.grammar.Check (strict_ber T.grammar T.lawful_item) T.lawful_item.form_check C };
}
