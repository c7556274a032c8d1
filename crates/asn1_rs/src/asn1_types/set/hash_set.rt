//! `HashSet` as a set of members (X.690 8.12).
//!
//! It is no member of a set itself: it has no order, and std no hash of it.
ghost use Rattle.std.specs.Prelude.{◌≡◌, true, IfOk};
ghost use Rattle.std.proofs.Common.{lit<, refl};
ghost use Rattle.std.specs.HashSet.{IsFromIterResult};
ghost use Rattle.x690.specs.Identifiers.{IsTruncatedIdentifier};
ghost use Rattle.asn1_headers.specs.Ber.{EndsWithin};
ghost use Rattle.asn1_rs.specs.Set.{set_of, is_other};
ghost use Rattle.asn1_rs.specs.Laws.Lists.{takes_some, constructed_checks, list_checks};
ghost use Rattle.asn1_rs.specs.Laws.Set.{set_takes, set_by_der_exact, table_told, other_apart};
ghost use Rattle.asn1_rs.specs.Laws.Words.{ber_one};
ghost use Rattle.asn1_rs.specs.Grammar.Item.{ber_words};

use crate::asn1_types::lists::{
    DecidesEach, FromItems, Listed, PackedEncodings, count_items, decide_items, encode_items,
    state_items,
};
use crate::kinds::HasKind;
use crate::kinds::collections::{HasMembers, LawfulMembers, Once, SetKind, WritesAscending};
use crate::kinds::reading::{
    ConstructedForm, HasReader, LawfulBodyBy, LawfulCheckBy, LawfulDerBy, ListReader,
};
use crate::laws::assert_valid::States;
use crate::laws::der_form::Decides;
use crate::laws::{LawfulBer, LawfulCheck, LawfulDer, LawfulMember};
use crate::to_der::ToDer;
use crate::traits::Tagged;
use asn1_headers::error::{Error, SerializeResult};
use asn1_headers::tag::Tag;
use std::alloc::{AllocError, Global};
use std::collections::HashSet;
use std::hash::Hash;

impl<T: Eq + Hash> Tagged for HashSet<T> {
    const TAG: Tag = Tag::Set;

    ghost TAG = { record { 0 = 17 } };
}

/// The set of the items, of which equal ones collapse.
fn hashed_set<T: Eq + Hash + Drop>(alloc: Global, items: Vec<T>) -> Result<HashSet<T>, AllocError>
    ensures { IfOk result (λ s. IsFromIterResult T.eq items.items s) }
{
    HashSet::from_iter(alloc, items)
}

impl<T: Eq + Hash> HasKind for HashSet<T> {
    type Kind = SetKind<Once>;
}

impl<T: Eq + Hash> Listed for HashSet<T> {
    type Item = T;

    ghost items = { λ s. s.keys };

    ghost small = { lit< tt };

    fn state_each<P: States<T>>(&self) {
        state_items::<T, _, _, P>(self.iter());
    }

    fn count_each(&self) -> Result<usize, Error>
    where
        T: ToDer,
    {
        count_items(self.iter())
    }
}

impl<T: Eq + Hash> DecidesEach for HashSet<T> {
    fn decide_each<P: Decides<T>>(&self) -> bool {
        decide_items::<T, _, _, P>(self.iter())
    }
}

impl<T: Eq + Hash> WritesAscending for HashSet<T> {
    fn only_item(&self) -> Option<&T> {
        if self.len() == 1 {
            self.iter().next()
        } else {
            None
        }
    }

    fn encode_each(&self, alloc: Global) -> SerializeResult<PackedEncodings>
    where
        T: ToDer,
    {
        encode_items(self.iter(), alloc)
    }
}

/// No two members are equal.
impl<T: Eq + Hash> HasMembers for HashSet<T> {
    ghost test = { is_other T.eq };

    ghost is_set = { refl };

    fn members_pass(&self) {
        let _count = self.len();
    }
}

impl<T: LawfulMember + Hash> LawfulMembers<T> for HashSet<T> {
    ghost apart = { other_apart T.eq T.grammar.value T.same };
}

impl<T: Eq + Hash + Drop> FromItems for HashSet<T> {
    type Item = T;

    type Refusal = Error;

    ghost holds = { λ items s. IsFromIterResult T.eq items s };

    fn from_items(alloc: Global, items: Vec<T>) -> Result<HashSet<T>, AllocError>
        ensures { IfOk result (λ s. IsFromIterResult T.eq items.items s) }
    {
        hashed_set(alloc, items)
    }
}

impl<T: Eq + Hash> HasReader for HashSet<T> {
    type Reader = ListReader<ConstructedForm>;
}

impl<'a, T: LawfulBer<'a, Error> + LawfulMember + Hash + Drop> LawfulBodyBy<
    'a,
    SetKind<Once>,
    Error,
> for HashSet<T> {
    ghost exact_by_kind = { set_takes (constructed_checks 17)
        (λ items s. IsFromIterResult T.eq items s) set_of
        Self.grammar.value T.ber_gives (λ x y. y ≡ x) (ber_words T.grammar) T.grammar.value
        T.grammar.allocates EndsWithin (table_told T.eq T.grammar.value T.same)
        (ber_one T.grammar T.lawful_item) T.ber_exact };

    ghost no_memory_by_kind = { λ none p e g. takes_some none };
}

impl<'a, T: LawfulDer<'a, E> + LawfulMember + Hash + Drop, E: From<Error>> LawfulDerBy<
    'a,
    ListReader<ConstructedForm>,
    E,
> for HashSet<T> {
    ghost exact_by_reader = { λ input answer octets.
        set_by_der_exact (constructed_checks 17) (λ items s. IsFromIterResult T.eq items s) set_of
        Self.grammar.value T.der_gives E.from_gives T.grammar.Der T.grammar.value
        T.grammar.allocates IsTruncatedIdentifier (table_told T.eq T.grammar.value T.same)
        T.lawful_item.der_one T.der_exact input answer };

    ghost no_memory_by_reader = { λ none input answer g. takes_some none };
}

impl<T: LawfulCheck + Eq + Hash> LawfulCheckBy<SetKind<Once>> for HashSet<T> {
    ghost checks_by_kind = { list_checks 17 T.check_gives T.grammar.Check T.checks };
}
