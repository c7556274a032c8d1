//! Items of lists: how they are read, checked, counted and written.
ghost use Rattle.std.specs.Prelude.{◌≡◌, ◌⊎◌, ◌∷◌, Some, ◌≤◌, ◌<◌, ℕ, List, true, false, length, map, IfOk, IfErr};
ghost use Rattle.std.specs.Prelude.{◌+◌, ◌↔◌, IsErr, IsTrue};
ghost use Rattle.std.specs.declared.result.Result.TheVariants as results;
ghost use Rattle.std.specs.List.{All, flat_map};
ghost use Rattle.std.specs.Iterator.{IsFinite, IsFiniteIterable, Drains};
ghost use Rattle.x690.specs.Octets.{IsOctets};
ghost use Rattle.x690.specs.Elements.{IsDerElement, Parts};
ghost use Rattle.x690.specs.Faults.{DerElementFault};
ghost use Rattle.asn1_headers.specs.Header.Reading.{der_refusal};
ghost use Rattle.asn1_rs.specs.Any.{parts_of};
ghost use Rattle.asn1_rs.specs.Laws.Any.Decoded.{converted_reads};
ghost use Rattle.asn1_rs.specs.Checks.{has_number};
ghost use Rattle.asn1_rs.specs.Traits.{OfParts, DerGives, PassesAll};
ghost use Rattle.asn1_headers.specs.Answers.{seen};
ghost use Rattle.asn1_rs.specs.Lists.{IsListOr, ItemsGive, ListGives, ListConverts, ItemsCheckGives};
ghost use Rattle.asn1_rs.specs.Lists.{ListCheckGives, FirstChecked, GivesItems, PushesItem, ArePacked, SomeRefuses};
ghost use Rattle.asn1_rs.specs.Lists.{ListBody, ListOf, IsListMadeOf, listed};
ghost use Rattle.asn1_headers.specs.declared.error.SerializeError.{SerializeError};
ghost use Rattle.asn1_headers.specs.declared.error.Error.{Error};
ghost use Rattle.asn1_headers.specs.declared.error.Error.TheVariants as errors;
ghost use Rattle.asn1_headers.specs.Prepended.{Prepended};
ghost use Rattle.asn1_headers.specs.Writer.{Wrote};
ghost use Rattle.asn1_rs.specs.ToDer.{Refuses, RefusesCount, IntoVector, HasNone, RefusesAtOnce, whole_allocates};
ghost use Rattle.asn1_rs.specs.ToDer.{VectorRefuses, whole_octets, whole_refuses};
ghost use Rattle.asn1_headers.specs.Error.{tells_of_io};

use crate::asn1_types::any::Any;
use crate::asn1_types::sequence::iterator::{ReadsItems, ReadsWords, SequenceIterator};
use crate::der::element_by_der;
use crate::header::add_counts;
use crate::kinds::collections::CollectionKind;
use crate::kinds::decoding::DecodesBy;
use crate::kinds::reading::{
    CheckBy, ConstructedForm, EncodingForm, FromAnyBy, FromDerBy, HasReader, ListReader,
};
use crate::laws::assert_valid::States;
use crate::laws::der_form::Decides;
use crate::to_der::ToDer;
use crate::traits::{CheckDerConstraints, FromBer, FromDer, Tagged, converted};
use asn1_headers::buffer::DerBuffer;
use asn1_headers::content::{BerParser, DerParser};
use asn1_headers::error::{Err, Error, ParseResult, SerializeError, SerializeResult, without_io};
use asn1_headers::writer::{DerWrite, Told};
use std::alloc::{AllocError, Global};
use std::io;
use std::io::Write;
use std::ops::Deref;

/// How many items a list has room for before it grows. They are few, and no more than there would be if each other item
/// were half as long as the first one. The length octet of that one stands behind its identifier octet in most lists.
fn first_room(content: &[u8]) -> usize
    ensures { result ≤ 8 }
{
    let Some(length) = content.get(1) else {
        return 0;
    };
    let first = usize::from(*length & 0x7f) + 2;
    let others = content.len().saturating_sub(first);
    1 + others.div_ceil(first.div_ceil(2)).min(7)
}

/// Collects the items in contents octets, by the reader `F`.
pub(crate) fn items_by<'a, T, F, E>(alloc: Global, content: &'a [u8]) -> Result<Vec<T>, E>
where
    T: Drop,
    F: ReadsItems<'a, T, E>,
    E: From<Error>,
    ensures { ItemsGive F.item_gives E.from_gives content.now (listed result) }
{
    let mut items = match Vec::with_capacity(alloc, first_room(content)) {
        Ok(items) => items,
        Err(_) => return Err(E::from(Error::OutOfMemory)),
    };
    for item in SequenceIterator::<T, F, E>::new(alloc, content) {
        match item {
            Ok(item) => match items.push(item) {
                Ok(()) => {}
                Err(_) => return Err(E::from(Error::OutOfMemory)),
            },
            Err(e) => return Err(e),
        }
    }
    Ok(items)
}

/// A list or a set, by its items.
// Each collection gives its own iterator to the walks below. An impl can't ask that one is given at every lifetime, as
// `for<'s> &'s L: IntoIterator` does in Rust. Items are seen through `Deref`, so that a walk takes an iterator of any
// holders of items. Where it gives references, one over `Iterator<Item = &'s T>` is proved too (`count_all` of
// `asn1_rs_uses`).
pub trait Listed: Tagged {
    /// The items.
    type Item;

    /// The items in their order; of a set in the order in which it keeps them.
    ghost items: { Self → List Self.Item };

    /// States of each item what `P` states.
    fn state_each<P: States<Self::Item>>(&self)
        ensures { All P.says (items self.now) };

    /// How many octets the items are written in.
    fn count_each(&self) -> Result<usize, Error>
    where
        Self::Item: ToDer,
        ensures count { All Self.Item.writing.tells (items self.now) →
            IfOk result (λ n. n ≡
            length
            (flat_map (whole_octets Self.Item.writing)
            (items self.now))) }
        ensures refused { All Self.Item.writing.tells (items self.now) →
            IfErr result (RefusesCount Self.Item.writing.count_allocates
            (length
            (flat_map (whole_octets Self.Item.writing)
            (items self.now)))
            (SomeRefuses Self.Item.writing.count_refuses (items self.now))) }
        ensures accepted { (e : Error) → All Self.Item.writing.tells (items self.now) →
            SomeRefuses Self.Item.writing.count_refuses (items self.now) e → IsErr result };

    /// Its tag number is one of the low form.
    ghost small: { (Self.TAG).0 < 31 };
}

/// A list or a set that asks of its items whether something holds of each.
pub trait DecidesEach: Listed {
    /// Whether what `P` asks holds of each item. The items are asked in their order, up to the first one of which it
    /// does not.
    fn decide_each<P: Decides<Self::Item>>(&self) -> bool
        ensures { IsTrue result ↔ All P.says (Self.items self.now) };
}

/// A list: a type that is made of items, which stand in the contents octets of one element.
// So one conversion serves all lists, a caller's too, at each error type that the items' reader has.
pub trait FromItems: Tagged + Sized {
    /// The items.
    type Item;

    /// Why an element is refused.
    type Refusal;

    /// The value is made of these items, in this order.
    ghost holds: { List Self.Item → Self → Type 0 };

    /// The list of the items. Refused only when out of memory.
    fn from_items(alloc: Global, items: Vec<Self::Item>) -> Result<Self, AllocError>
        ensures { IfOk result (holds items.items) };
}

/// The tag number is looked at, then the constructed bit; then the items are read by BER, to the end of the contents
/// octets.
impl<'a, K, L, T, E> FromAnyBy<'a, K> for L
where
    K: CollectionKind,
    L: FromItems<Item = T, Refusal = E>,
    T: FromBer<'a, E> + Drop,
    E: From<Error>,
{
    type Refusal = E;

    ghost gives_by_kind = { OfParts
        (ListConverts (IsListOr (L.TAG).0) L.holds T.ber_gives E.from_gives) };

    fn convert_by_kind(alloc: Global, any: Any<'a>) -> Result<L, E> {
        list_of_element::<ConstructedForm, BerParser, L, T, E>(alloc, &any)
    }
}

/// The list of the items in contents octets, by the reader `F`.
fn list_of_content<'a, L, T, F, E>(alloc: Global, content: &'a [u8]) -> Result<L, E>
where
    L: FromItems<Item = T>,
    T: Drop,
    F: ReadsItems<'a, T, E>,
    E: From<Error>,
    ensures { ListGives L.holds F.item_gives E.from_gives content.now result }
{
    let items = match items_by::<T, F, E>(alloc, content) {
        Ok(items) => items,
        Err(e) => return Err(e),
    };
    match L::from_items(alloc, items) {
        Ok(list) => Ok(list),
        Err(_) => Err(E::from(Error::OutOfMemory)),
    }
}

/// The list that an element of the form `F` is, by the reader `R`. The form is looked at, then the items.
fn list_of_element<'a, F, R, L, T, E>(alloc: Global, any: &Any<'a>) -> Result<L, E>
where
    F: EncodingForm,
    R: ReadsItems<'a, T, E>,
    L: FromItems<Item = T>,
    T: Drop,
    E: From<Error>,
    ensures { ListConverts (F.form_gives (L.TAG).0) L.holds R.item_gives E.from_gives
        (parts_of any.now) result }
{
    if let Err(e) = F::assert_form(L::TAG.0, any) {
        return Err(E::from(e));
    }
    list_of_content::<L, T, R, E>(alloc, any.content)
}

/// The element of the form `F` at the front by DER as a list, and what follows it.
pub(crate) fn list_by_der<'a, F, L, T, E>(alloc: Global, bytes: &'a [u8]) -> ParseResult<'a, L, E>
where
    F: EncodingForm,
    L: FromItems<Item = T>,
    T: FromDer<'a, E> + Drop,
    E: From<Error>,
    ensures { DerGives PassesAll
        (OfParts (ListConverts (F.form_gives (L.TAG).0) L.holds T.der_gives E.from_gives))
        E.from_gives bytes.now (seen result) }
{
    let (rest, any) = converted(element_by_der(bytes))?;
    match list_of_element::<F, DerParser, L, T, E>(alloc, &any) {
        Ok(list) => Ok((rest, list)),
        Err(e) => Err(Err::Error(e)),
    }
}

impl<'a, F, L, T, E> FromDerBy<'a, ListReader<F>, E> for L
where
    F: EncodingForm,
    L: FromItems<Item = T>,
    T: FromDer<'a, E> + Drop,
    E: From<Error>,
{
    ghost gives_by_reader = { DerGives PassesAll
        (OfParts (ListConverts (F.form_gives (L.TAG).0) L.holds T.der_gives E.from_gives))
        E.from_gives };

    fn read_by_der(alloc: Global, bytes: &'a [u8]) -> ParseResult<'a, L, E> {
        list_by_der::<F, L, T, E>(alloc, bytes)
    }
}

/// The form of an element in hand is looked at, and then its items.
impl<'a, F, L, T> DecodesBy<'a, ListReader<F>> for L
where
    F: EncodingForm,
    L: FromItems<Item = T> + HasReader<Reader = ListReader<F>>,
    T: FromDer<'a, Error> + Drop,
{
    ghost decode_gives = { OfParts
        (ListConverts (F.form_gives (L.TAG).0) L.holds T.der_gives (λ e f. f ≡ e)) };

    fn decode_element(alloc: Global, any: Any<'a>) -> Result<L, Error> {
        list_of_element::<F, DerParser, L, T, Error>(alloc, &any)
    }

    ghost decodes = { converted_reads IsDerElement DerElementFault der_refusal (OfParts
        (ListConverts (F.form_gives (L.TAG).0) L.holds T.der_gives (λ e f. f ≡ e))) };
}

/// What follows the first element by DER, if that keeps the constraints of an item.
fn after_checked<T: CheckDerConstraints>(octets: &[u8]) -> Result<&[u8], Error>
    ensures { FirstChecked T.check_gives octets.now result }
{
    match element_by_der(octets) {
        Ok((rest, item)) => match T::check_constraints(&item) {
            Ok(()) => Ok(rest),
            Err(e) => Err(e),
        },
        Err(refusal) => Err(Error::from(refusal)),
    }
}

/// Refuses contents octets that are not elements by DER, joined, each of which keeps the constraints of an item.
fn check_items<T: CheckDerConstraints>(content: &[u8]) -> Result<(), Error>
    ensures { ItemsCheckGives T.check_gives content.now result }
{
    let mut left = content;
    while !left.is_empty() {
        match after_checked::<T>(left) {
            Ok(rest) => left = rest,
            Err(e) => return Err(e),
        }
    }
    Ok(())
}

/// Refuses an element that is no list with the tag number, or breaks a constraint of its items.
impl<K: CollectionKind, L: Listed<Item = T>, T: CheckDerConstraints> CheckBy<K> for L {
    ghost check_by_kind = { ListCheckGives (L.TAG).0 T.check_gives };

    fn check_this_kind(any: &Any<'_>) -> Result<(), Error> {
        ConstructedForm::assert_form(L::TAG.0, any)?;
        check_items::<T>(any.content)
    }
}

/// Puts the item last. Refused only when out of memory; the item is then dropped.
pub(crate) fn push_item<T: Drop>(items: &mut Vec<T>, item: T) -> Result<(), Error>
    ensures { PushesItem items.old.items item items.new.items result }
{
    match items.push(item) {
        Ok(()) => Ok(()),
        Err(_) => Err(Error::OutOfMemory),
    }
}

/// All that an iterator gives, in order. Refused only when out of memory.
pub(crate) fn items_from_iter<T: Drop, I: IntoIterator<Item = T>>(
    alloc: Global,
    items: I,
) -> Result<Vec<T>, Error>
    requires { IsFiniteIterable I.into_iter_gives I.IntoIter.can_next I.IntoIter.remaining items }
    ensures all { IfOk result (λ v. (it : I.IntoIter) × I.into_iter_gives items it ×
        Drains I.IntoIter.next_gives it v.items) }
    ensures refused { IfErr result (λ e. e ≡ errors.OutOfMemory) }
{
    match Vec::from_iter(alloc, items) {
        Ok(items) => Ok(items),
        Err(_) => Err(Error::OutOfMemory),
    }
}

/// States of each item what `P` states.
pub(crate) fn state_items<T, R, I, P>(items: I)
where
    P: States<T>,
    R: Deref<Target = T> + Drop,
    I: Iterator<Item = R> + Drop,
    requires can { I.can_next items }
    requires ends { IsFinite (I.remaining items) }
    ensures { (xs : List T) → GivesItems I.next_gives R.deref_gives items xs → All P.says xs }
{
    for item in items {
        P::state(item.deref());
    }
}

/// Whether what `P` asks holds of each item.
pub(crate) fn decide_items<T, R, I, P>(items: I) -> bool
where
    P: Decides<T>,
    R: Deref<Target = T> + Drop,
    I: Iterator<Item = R> + Drop,
    requires can { I.can_next items }
    requires ends { IsFinite (I.remaining items) }
    ensures { (xs : List T) → GivesItems I.next_gives R.deref_gives items xs →
        (IsTrue result ↔ All P.says xs) }
{
    for item in items {
        if !P::decide(item.deref()) {
            return false;
        }
    }
    true
}

/// How many octets the items are written in.
pub(crate) fn count_items<T, R, I>(items: I) -> Result<usize, Error>
where
    T: ToDer,
    R: Deref<Target = T> + Drop,
    I: Iterator<Item = R> + Drop,
    requires can { I.can_next items }
    requires ends { IsFinite (I.remaining items) }
    ensures count { (xs : List T) → GivesItems I.next_gives R.deref_gives items xs →
        All T.writing.tells xs →
        IfOk result (λ n. n ≡ length (flat_map (whole_octets T.writing) xs)) }
    ensures refused { (xs : List T) → GivesItems I.next_gives R.deref_gives items xs →
        All T.writing.tells xs →
        IfErr result (RefusesCount T.writing.count_allocates
        (length (flat_map (whole_octets T.writing) xs)) (SomeRefuses T.writing.count_refuses xs)) }
    ensures accepted { (xs : List T) (e : Error) →
        GivesItems I.next_gives R.deref_gives items xs → All T.writing.tells xs →
        SomeRefuses T.writing.count_refuses xs e → IsErr result }
{
    let mut total = 0;
    for item in items {
        let count = item.to_der_len()?;
        total = add_counts(total, count)?;
    }
    Ok(total)
}

/// Appends the items in their order, and answers the number of octets.
pub(crate) fn write_items<T, R, I, W>(items: I, alloc: Global, w: &mut W) -> SerializeResult<usize>
where
    T: ToDer,
    R: Deref<Target = T> + Drop,
    I: Iterator<Item = R> + Drop,
    W: DerWrite,
    requires can { I.can_next items }
    requires ends { IsFinite (I.remaining items) }
    ensures wrote { (xs : List T) → GivesItems I.next_gives R.deref_gives items xs →
        All T.writing.tells xs →
        Wrote (flat_map (whole_octets T.writing) xs) (W.state w.old) (W.state w.new) result }
    ensures refused { (xs : List T) → GivesItems I.next_gives R.deref_gives items xs →
        All T.writing.tells xs →
        IfErr result
        (Refuses (whole_allocates T.writing)
        (length (flat_map (whole_octets T.writing) xs))
        (SomeRefuses (whole_refuses T.writing) xs)) }
    ensures accepted { (xs : List T) (e : SerializeError) →
        GivesItems I.next_gives R.deref_gives items xs → All T.writing.tells xs →
        SomeRefuses (whole_refuses T.writing) xs e →
        IsErr result }
    ensures uncounted { (xs : List T) (e : Error) →
        GivesItems I.next_gives R.deref_gives items xs → All T.writing.tells xs →
        SomeRefuses T.writing.count_refuses xs e → IsErr result }
{
    let mut total: usize = 0;
    // Matches, and no `?`: each copy of an answer copies its refusal, which has 96 octets.
    for item in items {
        match item.write_der(alloc, w) {
            Ok(count) => match total.checked_add(count) {
                Some(sum) => total = sum,
                None => return Err(SerializeError::InvalidLength),
            },
            Err(e) => return Err(e),
        }
    }
    Ok(total)
}

/// Puts the items before the octets of the buffer, the last one first, and answers their number.
pub(crate) fn prepend_items<T: ToDer>(
    items: &[T],
    alloc: Global,
    buf: &mut DerBuffer,
) -> SerializeResult<usize>
    ensures prepended { All T.writing.tells items.now →
        Prepended (flat_map (whole_octets T.writing) items.now) buf.old buf.new result }
    ensures refused { All T.writing.tells items.now →
        IfErr result (VectorRefuses
        (length (flat_map (whole_octets T.writing) items.now) + length buf.old)
        (SomeRefuses (whole_refuses T.writing) items.now)) }
    ensures accepted { (e : SerializeError) → All T.writing.tells items.now →
        SomeRefuses (whole_refuses T.writing) items.now e → IsErr result }
    ensures uncounted { (e : Error) → All T.writing.tells items.now →
        SomeRefuses T.writing.count_refuses items.now e → IsErr result }
{
    let mut total: usize = 0;
    let mut at = items.len();
    // Matches, and no `?`, as above.
    while at > 0 {
        at -= 1;
        match items[at].prepend_der(alloc, buf) {
            Ok(count) => match count.checked_add(total) {
                Some(sum) => total = sum,
                None => return Err(SerializeError::InvalidLength),
            },
            Err(e) => return Err(e),
        }
    }
    Ok(total)
}

/// Puts the items before the octets of the buffer, the last one first, and the number of octets of each in its place.
/// It answers their number.
pub(crate) fn prepend_and_count<T: ToDer>(
    items: &[T],
    lengths: &mut [usize],
    alloc: Global,
    buf: &mut DerBuffer,
) -> SerializeResult<usize>
    requires { length lengths.old ≡ length items.now }
    ensures prepended { All T.writing.tells items.now →
        Prepended (flat_map (whole_octets T.writing) items.now) buf.old buf.new result }
    ensures counted { All T.writing.tells items.now → IfOk result
        (λ _. lengths.new ≡ map length (map (whole_octets T.writing) items.now)) }
    ensures refused { All T.writing.tells items.now →
        IfErr result (VectorRefuses
        (length (flat_map (whole_octets T.writing) items.now) + length buf.old)
        (SomeRefuses (whole_refuses T.writing) items.now)) }
    ensures accepted { (e : SerializeError) → All T.writing.tells items.now →
        SomeRefuses (whole_refuses T.writing) items.now e → IsErr result }
    ensures uncounted { (e : Error) → All T.writing.tells items.now →
        SomeRefuses T.writing.count_refuses items.now e → IsErr result }
{
    let held = buf.len();
    let mut left = items.len();
    while left > 0 {
        left -= 1;
        match items[left].prepend_der(alloc, buf) {
            Ok(count) => lengths[left] = count,
            Err(e) => return Err(e),
        }
    }
    Ok(buf.len().saturating_sub(held))
}

/// Encodings, one after another, with the number of octets of each.
#[derive(Debug, Drop)]
pub struct PackedEncodings {
    pub(crate) octets: Vec<u8>,
    pub(crate) lengths: Vec<usize>,
}

/// How many octets the encodings of a set have room for at first, so that a small set asks for that once.
const FIRST_ROOM_OF_ENCODINGS: usize = 128;

/// Octets that ask for their first room once the first of them come: an item that is refused before that asks for none.
#[derive(Drop)]
struct WithFirstRoom {
    octets: Vec<u8>,
}

impl Write for WithFirstRoom {
    ghost contents = { λ w. Some w.octets.items };

    #[inline(always)]
    fn write(&mut self, octets: &[u8]) -> io::Result<usize> {
        if self.octets.capacity() == 0 {
            self.octets.reserve(FIRST_ROOM_OF_ENCODINGS)?;
        }
        self.octets.write(octets)
    }

    fn flush(&mut self) -> io::Result<()> {
        Ok(())
    }
}

/// The encoding of each item. Nothing asks for memory before the first item does.
pub(crate) fn encode_items<T, R, I>(items: I, alloc: Global) -> SerializeResult<PackedEncodings>
where
    T: ToDer,
    R: Deref<Target = T> + Drop,
    I: Iterator<Item = R> + Drop,
    requires can { I.can_next items }
    requires ends { IsFinite (I.remaining items) }
    ensures each { (xs : List T) → GivesItems I.next_gives R.deref_gives items xs →
        All T.writing.tells xs →
        IfOk result (ArePacked (map (whole_octets T.writing) xs)) }
    ensures refused { (xs : List T) → GivesItems I.next_gives R.deref_gives items xs →
        All T.writing.tells xs →
        IfErr result (Refuses true (length (flat_map (whole_octets T.writing) xs))
        (SomeRefuses (λ x. IntoVector (whole_refuses T.writing x)) xs)) }
    ensures accepted { (xs : List T) (e : SerializeError) →
        GivesItems I.next_gives R.deref_gives items xs → All T.writing.tells xs →
        SomeRefuses (λ x. IntoVector (whole_refuses T.writing x)) xs e →
        IsErr result }
    ensures uncounted { (xs : List T) (e : Error) →
        GivesItems I.next_gives R.deref_gives items xs → All T.writing.tells xs →
        SomeRefuses T.writing.count_refuses xs e → IsErr result }
    ensures at_once { (x : T) (xs : List T) (e : SerializeError) →
        GivesItems I.next_gives R.deref_gives items (x ∷ xs) → All T.writing.tells (x ∷ xs) →
        T.writing.header_refuses x e → IfErr result (IntoVector (RefusesAtOnce
        (whole_allocates T.writing)
        (length (whole_octets T.writing x))
        (whole_refuses T.writing x))) }
    ensures memory { IfErr result (λ e. tells_of_io e ≡ false) }
{
    let mut w = Told::new(WithFirstRoom {
        octets: Vec::new(alloc),
    });
    let mut lengths = Vec::new(alloc);
    for item in items {
        match item.write_der(alloc, &mut w) {
            Ok(length) => match lengths.push(length) {
                Ok(()) => {}
                Err(_) => return Err(SerializeError::OutOfMemory),
            },
            Err(e) => return Err(without_io(e)),
        }
    }
    let WithFirstRoom { octets } = w.into_inner();
    Ok(PackedEncodings { octets, lengths })
}

/// A list or a set is made of the values of words of the reader's grammar, whose joining its contents octets are, in
/// their order. A refusal comes only where the element is none of these, or when out of memory.
///
/// `taken` speaks of the conversion of an element, which looks at its constructed bit, and `read` of a reader by DER
/// that does not. What the list holds, `L.holds` says: a vector and a `SetOf` the items in the order of the words.
pub fn lists_are_joined_words<'a, L, T, F, E>()
where
    L: FromItems<Item = T>,
    F: ReadsWords<'a, T, E>,
    E: From<Error>,
    ensures taken { (number : ℕ) (p : Parts) (list : L) → IsOctets p.content →
        ListConverts (IsListOr number) L.holds F.item_gives E.from_gives p (results.Ok list) →
        IsListMadeOf (ListBody number F.Words) F.value L.holds p list }
    ensures not_taken { (number : ℕ) (p : Parts) (e : E) → IsOctets p.content →
        ListConverts (IsListOr number) L.holds F.item_gives E.from_gives p (results.Err e) →
        E.from_gives errors.OutOfMemory e ⊎ HasNone (ListBody number F.Words p) }
    ensures read { (number : ℕ) (p : Parts) (list : L) → IsOctets p.content →
        ListConverts (has_number number) L.holds F.item_gives E.from_gives p (results.Ok list) →
        IsListMadeOf (ListOf number F.Words) F.value L.holds p list }
    ensures not_read { (number : ℕ) (p : Parts) (e : E) → IsOctets p.content →
        ListConverts (has_number number) L.holds F.item_gives E.from_gives p (results.Err e) →
        E.from_gives errors.OutOfMemory e ⊎ HasNone (ListOf number F.Words p) }
{}
