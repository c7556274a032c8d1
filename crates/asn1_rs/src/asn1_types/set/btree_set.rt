//! `BTreeSet` as a set of members (X.690 8.12).
ghost use Rattle.std.specs.Prelude.{◌≡◌, true, IfOk};
ghost use Rattle.std.proofs.Common.{lit<, refl};
ghost use Rattle.std.specs.BTreeSet.{IsFromIterResult};
ghost use Rattle.x690.specs.Identifiers.{IsTruncatedIdentifier};
ghost use Rattle.asn1_headers.specs.Ber.{EndsWithin};
ghost use Rattle.asn1_rs.specs.Lists.{IsListOr, ListConverts};
ghost use Rattle.asn1_rs.specs.Traits.{DerGives, OfParts, PassesAll};
ghost use Rattle.asn1_rs.specs.Set.{set_of, ascends};
ghost use Rattle.asn1_headers.specs.declared.error.Error.{Error};
ghost use Rattle.asn1_rs.specs.Laws.Lists.{takes_some, constructed_checks, list_checks};
ghost use Rattle.asn1_rs.specs.Laws.Set.{set_takes, set_by_der_exact, tree_told, ascending_apart, same_members};
ghost use Rattle.asn1_rs.specs.Laws.Words.{ber_one};
ghost use Rattle.asn1_rs.specs.Grammar.Item.{ber_words};

use crate::asn1_types::lists::{
    DecidesEach, FromItems, Listed, PackedEncodings, count_items, decide_items, encode_items,
    list_by_der, state_items,
};
use crate::kinds::HasKind;
use crate::kinds::collections::{HasMembers, LawfulMembers, Once, SetKind, WritesAscending};
use crate::kinds::reading::{ConstructedForm, LawfulBodyBy, LawfulCheckBy};
use crate::laws::assert_valid::States;
use crate::laws::der_form::Decides;
use crate::laws::{LawfulBer, LawfulCheck, LawfulDer, LawfulMember};
use crate::to_der::ToDer;
use crate::traits::{FromDer, Tagged};
use asn1_headers::error::{Error, ParseResult, SerializeResult};
use asn1_headers::tag::Tag;
use std::alloc::{AllocError, Global};
use std::collections::BTreeSet;

impl<T: Ord> Tagged for BTreeSet<T> {
    const TAG: Tag = Tag::Set;

    ghost TAG = { record { 0 = 17 } };
}

/// The set of the items.
fn ordered_set<T: Ord + Drop>(alloc: Global, items: Vec<T>) -> Result<BTreeSet<T>, AllocError>
    ensures { IfOk result (λ s. IsFromIterResult T.cmp items.items s) }
{
    BTreeSet::from_iter(alloc, items)
}

impl<T: Ord> HasKind for BTreeSet<T> {
    type Kind = SetKind<Once>;
}

impl<T: Ord> Listed for BTreeSet<T> {
    type Item = T;

    ghost items = { λ s. s.keys };

    ghost small = { lit< tt };

    fn state_each<P: States<T>>(&self) {
        state_items::<T, _, _, P>(self.iter());
    }

    fn count_each(&self) -> Result<usize, Error>
    where
        T: ToDer,
    {
        count_items(self.iter())
    }
}

impl<T: Ord> DecidesEach for BTreeSet<T> {
    fn decide_each<P: Decides<T>>(&self) -> bool {
        decide_items::<T, _, _, P>(self.iter())
    }
}

impl<T: Ord> WritesAscending for BTreeSet<T> {
    fn only_item(&self) -> Option<&T> {
        if self.len() == 1 { self.first() } else { None }
    }

    fn encode_each(&self, alloc: Global) -> SerializeResult<PackedEncodings>
    where
        T: ToDer,
    {
        encode_items(self.iter(), alloc)
    }
}

/// The members ascend.
impl<T: Ord> HasMembers for BTreeSet<T> {
    ghost test = { ascends T.cmp T.eq };

    ghost is_set = { refl };

    fn members_pass(&self) {
        let _count = self.len();
    }
}

impl<T: LawfulMember + Ord> LawfulMembers<T> for BTreeSet<T> {
    ghost apart = { ascending_apart T.eq T.grammar.value T.same T.cmp };
}

impl<T: Ord + Drop> FromItems for BTreeSet<T> {
    type Item = T;

    type Refusal = Error;

    ghost holds = { λ items s. IsFromIterResult T.cmp items s };

    fn from_items(alloc: Global, items: Vec<T>) -> Result<BTreeSet<T>, AllocError>
        ensures { IfOk result (λ s. IsFromIterResult T.cmp items.items s) }
    {
        ordered_set(alloc, items)
    }
}

// The type itself passes `Ord` of its members, with all that this stands on. So it has the reader by DER and its law
// itself. By a reader that it names it passes these several times more, and nests less deep.
impl<'a, T: FromDer<'a, E> + Ord + Drop, E: From<Error>> FromDer<'a, E> for BTreeSet<T> {
    ghost der_gives = { DerGives PassesAll
        (OfParts (ListConverts (IsListOr 17) (λ items s. IsFromIterResult T.cmp items s) T.der_gives
        E.from_gives))
        E.from_gives };

    fn from_der(alloc: Global, bytes: &'a [u8]) -> ParseResult<'a, BTreeSet<T>, E> {
        list_by_der::<ConstructedForm, BTreeSet<T>, T, E>(alloc, bytes)
    }
}

impl<'a, T: LawfulBer<'a, Error> + LawfulMember + Ord + Drop> LawfulBodyBy<'a, SetKind<Once>, Error>
    for BTreeSet<T> {
    ghost exact_by_kind = { set_takes (constructed_checks 17)
        (λ items s. IsFromIterResult T.cmp items s) set_of
        Self.grammar.value T.ber_gives (λ x y. y ≡ x) (ber_words T.grammar) T.grammar.value
        T.grammar.allocates EndsWithin (tree_told T.eq T.grammar.value T.same T.cmp T.matches_eq)
        (ber_one T.grammar T.lawful_item) T.ber_exact };

    ghost no_memory_by_kind = { λ none p e g. takes_some none };
}

impl<'a, T: LawfulDer<'a, E> + LawfulMember + Ord + Drop, E: From<Error>> LawfulDer<'a, E>
    for BTreeSet<T> {
    ghost der_exact = { λ input answer octets.
        set_by_der_exact (constructed_checks 17) (λ items s. IsFromIterResult T.cmp items s) set_of
        Self.grammar.value T.der_gives E.from_gives T.grammar.Der T.grammar.value
        T.grammar.allocates IsTruncatedIdentifier (tree_told T.eq T.grammar.value T.same T.cmp T.matches_eq)
        T.lawful_item.der_one T.der_exact input answer };

    ghost der_no_memory = { λ none input answer g. takes_some none };
}

impl<T: LawfulCheck + Ord> LawfulCheckBy<SetKind<Once>> for BTreeSet<T> {
    ghost checks_by_kind = { list_checks 17 T.check_gives T.grammar.Check T.checks };
}

impl<T: LawfulMember + Ord> LawfulMember for BTreeSet<T> {
    ghost same = { λ x y. same_members T.eq T.grammar.value T.same T.cmp T.total T.matches_eq x.keys
        y.keys };
}
