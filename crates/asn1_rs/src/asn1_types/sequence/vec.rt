//! Vectors as sequences of items (X.690 8.10).
ghost use Rattle.std.specs.Prelude.{◌≡◌, true, MatchResult};
ghost use Rattle.std.proofs.Common.{lit<};
ghost use Rattle.asn1_headers.specs.Ber.{EndsWithin};
ghost use Rattle.x690.specs.Identifiers.{IsTruncatedIdentifier};
ghost use Rattle.asn1_rs.specs.Lists.{has_items};
ghost use Rattle.asn1_rs.specs.Laws.Lists.{takes_some, number_checks, constructed_checks, list_takes, list_checks};
ghost use Rattle.asn1_rs.specs.Laws.Lists.{list_by_der_exact, same_lists, same_values};
ghost use Rattle.asn1_rs.specs.Laws.Words.{ber_one};
ghost use Rattle.asn1_rs.specs.Grammar.Item.{ber_words};

use crate::asn1_types::lists::{
    DecidesEach, FromItems, Listed, count_items, decide_items, prepend_items, state_items,
    write_items,
};
use crate::kinds::HasKind;
use crate::kinds::collections::{SequenceKind, WritesInOrder};
use crate::kinds::reading::{
    AnyForm, HasReader, LawfulBodyBy, LawfulCheckBy, LawfulDerBy, ListReader,
};
use crate::laws::assert_valid::States;
use crate::laws::der_form::Decides;
use crate::laws::{LawfulBer, LawfulCheck, LawfulDer, LawfulMember};
use crate::to_der::ToDer;
use crate::traits::Tagged;
use asn1_headers::buffer::DerBuffer;
use asn1_headers::error::{Error, SerializeResult};
use asn1_headers::tag::Tag;
use asn1_headers::writer::DerWrite;
use std::alloc::{AllocError, Global};

impl<T> Tagged for Vec<T> {
    const TAG: Tag = Tag::Sequence;

    ghost TAG = { record { 0 = 16 } };
}

impl<T> FromItems for Vec<T> {
    type Item = T;

    type Refusal = Error;

    ghost holds = { has_items };

    fn from_items(_alloc: Global, items: Vec<T>) -> Result<Vec<T>, AllocError>
        ensures { MatchResult result (λ v. v.items ≡ items.items) (λ _. ⊥) }
    {
        Ok(items)
    }
}

impl<T> HasReader for Vec<T> {
    type Reader = ListReader<AnyForm>;
}

impl<T> HasKind for Vec<T> {
    type Kind = SequenceKind;
}

impl<T> Listed for Vec<T> {
    type Item = T;

    ghost items = { λ v. v.items };

    ghost small = { lit< tt };

    fn state_each<P: States<T>>(&self) {
        state_items::<T, _, _, P>(self.iter());
    }

    fn count_each(&self) -> Result<usize, Error>
    where
        T: ToDer,
    {
        count_items(self.iter())
    }
}

impl<T> DecidesEach for Vec<T> {
    fn decide_each<P: Decides<T>>(&self) -> bool {
        decide_items::<T, _, _, P>(self.iter())
    }
}

impl<T> WritesInOrder for Vec<T> {
    fn write_each<W: DerWrite>(&self, alloc: Global, w: &mut W) -> SerializeResult<usize>
    where
        T: ToDer,
    {
        write_items(self.iter(), alloc, w)
    }

    fn prepend_each(&self, alloc: Global, buf: &mut DerBuffer) -> SerializeResult<usize>
    where
        T: ToDer,
    {
        prepend_items(self.as_slice(), alloc, buf)
    }
}

impl<'a, T: LawfulBer<'a, Error> + Drop> LawfulBodyBy<'a, SequenceKind, Error> for Vec<T> {
    ghost exact_by_kind = { list_takes (constructed_checks 16) has_items Self.grammar.value
        T.ber_gives (λ x y. y ≡ x) (ber_words T.grammar) T.grammar.value T.grammar.allocates
        EndsWithin
        (same_values T.grammar.value) (ber_one T.grammar T.lawful_item) T.ber_exact };

    ghost no_memory_by_kind = { λ none p e g. takes_some none };
}

impl<'a, T: LawfulDer<'a, E> + Drop, E: From<Error>> LawfulDerBy<'a, ListReader<AnyForm>, E>
    for Vec<T> {
    ghost exact_by_reader = { λ input answer octets.
        list_by_der_exact (number_checks 16) has_items Self.grammar.value T.der_gives E.from_gives
        T.grammar.Der T.grammar.value T.grammar.allocates IsTruncatedIdentifier
        (same_values T.grammar.value) T.lawful_item.der_one T.der_exact input answer };

    ghost no_memory_by_reader = { λ none input answer g. takes_some none };
}

impl<T: LawfulCheck> LawfulCheckBy<SequenceKind> for Vec<T> {
    ghost checks_by_kind = { list_checks 16 T.check_gives T.grammar.Check T.checks };
}

impl<T: LawfulMember> LawfulMember for Vec<T> {
    ghost same = { λ x y. same_lists T.eq T.grammar.value T.same x.items y.items };
}
