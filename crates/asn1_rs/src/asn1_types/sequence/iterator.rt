//! Walking over the items in contents octets, as those of a sequence or a set.
ghost use Rattle.std.specs.Prelude.{◌≡◌, ◌⊎◌, ◌+◌, ◌≤◌, ℕ, Bool, false, List, [], ◌∷◌, ◌++◌, Result, Ok, IfErr, length};
ghost use Rattle.std.specs.Prelude.{map};
ghost use Rattle.std.specs.List.{All};
ghost use Rattle.std.specs.declared.result.Result.TheVariants as results;
ghost use Rattle.std.specs.Iterator.{at_most, Yields};
ghost use Rattle.std.specs.Iterator.Runs.{Run};
ghost use Rattle.x690.specs.Octets.{IsOctets};
ghost use Rattle.x690.specs.Identifiers.{IsTruncatedIdentifier};
ghost use Rattle.x690.specs.Lengths.{indefinite};
ghost use Rattle.x690.specs.Nested.{IsElement};
ghost use Rattle.x690.specs.Joined.{AreConcatenatedWords, IsConcatenation};
ghost use Rattle.asn1_headers.specs.declared.error.Err.{Err as Refusal};
ghost use Rattle.asn1_headers.specs.declared.content.BerParser.{BerParser};
ghost use Rattle.asn1_headers.specs.Answers.{seen, TellsMemory, IsOther};
ghost use Rattle.asn1_headers.specs.Error.{ErrorIs};
ghost use Rattle.asn1_headers.specs.declared.error.Error.{Error};
ghost use Rattle.asn1_headers.specs.declared.error.Error.TheVariants as errors;
ghost use Rattle.asn1_rs.specs.Lists.{ItemsGive, HasNoConcatenation};
ghost use Rattle.asn1_rs.specs.declared.asn1_types.any.Any.{Any};
ghost use Rattle.asn1_rs.specs.Any.{parts_of, BerElementGives};
ghost use Rattle.asn1_headers.specs.Ber.{max_depth, EndsWithin};
ghost use Rattle.asn1_rs.specs.Sequence.Iterator.{octets_left, ReadsExactly, WalkSteps, IsWalk, IsWalkOf, TellsNoWord};
ghost use Rattle.asn1_rs.specs.Sequence.Iterator.{TellsMemoryAlone, ReportsNothing, IsMemory, ElementsGive};
ghost use Rattle.asn1_rs.specs.Laws.Words.{ber_one};
ghost use Rattle.asn1_rs.specs.Grammar.Item.{ber_words};

use crate::laws::{LawfulBer, LawfulDer};
use crate::traits::{ASN1Parser, FromBer, FromDer};
use asn1_headers::content::{BerParser, DerParser};
use asn1_headers::error::{Error, ParseResult};
use asn1_headers::walk::{ReadsNext, next_item};
use std::alloc::Global;
use std::marker::PhantomData;

/// A reader that reads items of a type.
///
/// [`BerParser`] reads items of each type that is read by BER, [`DerParser`] those of each type that is read by DER.
// By this trait one `next` and one set of laws serve both readers.
pub trait ReadsItems<'a, T, E>: ASN1Parser {
    /// What the reader may answer to these octets.
    ghost item_gives: { List ℕ → Result (List ℕ × T) (Refusal E) → Type 0 };

    /// Reads an item at the front of the octets, and answers what follows it.
    fn read_item(alloc: Global, octets: &'a [u8]) -> ParseResult<'a, T, E>
        ensures { item_gives octets.now (seen result) };
}

impl<'a, T: FromBer<'a, E>, E> ReadsItems<'a, T, E> for BerParser {
    ghost item_gives = { T.ber_gives };

    #[inline(always)]
    fn read_item(alloc: Global, octets: &'a [u8]) -> ParseResult<'a, T, E> {
        T::from_ber(alloc, octets)
    }
}

impl<'a, T: FromDer<'a, E>, E> ReadsItems<'a, T, E> for DerParser {
    ghost item_gives = { T.der_gives };

    #[inline(always)]
    fn read_item(alloc: Global, octets: &'a [u8]) -> ParseResult<'a, T, E> {
        T::from_der(alloc, octets)
    }
}

/// Walks over the items in the contents octets of a sequence, by the reader `F`.
///
/// An item is read where it stands, so each octet is read once and nothing is kept. The first item that is refused ends
/// the walk: its refusal is told once, and `None` from then on. An item that lacks octets is told as
/// `Error::Incomplete`, since no octets can follow its contents octets. An item of no octets is told as
/// `InvalidLength`, so that each walk ends.
// After a refusal no octets are left, so that "at the end" and "after a refusal" are one state.
#[derive(Drop)]
#[derive_where(Debug)]
pub struct SequenceIterator<'a, T, F, E> {
    left: &'a [u8],
    alloc: Global,
    reads: PhantomData<(T, F, E)>,
}

/// Walks over the items in the contents octets of a set.
pub type SetIterator<'a, T, F, E> = SequenceIterator<'a, T, F, E>;

impl<'a, T, F: ASN1Parser, E> SequenceIterator<'a, T, F, E> {
    /// A walk from the front of the contents octets.
    pub fn new(alloc: Global, content: &'a [u8]) -> Self
        ensures { octets_left result ≡ content.now }
    {
        SequenceIterator {
            left: content,
            alloc,
            reads: PhantomData,
        }
    }
}

/// The items that the reader `F` reads, as the items of a walk.
// From `next` to the reader lead two traits, `ReadsNext` and `ReadsItems`. Each step is one line, and is inlined.
struct ItemsBy<F> {
    reads: PhantomData<F>,
}

impl<'a, T, F: ReadsItems<'a, T, E>, E> ReadsNext<'a, T, E> for ItemsBy<F> {
    ghost next_reads = { F.item_gives };

    #[inline(always)]
    fn read_next(alloc: Global, octets: &'a [u8]) -> ParseResult<'a, T, E> {
        F::read_item(alloc, octets)
    }
}

impl<'a, T, F, E> Iterator for SequenceIterator<'a, T, F, E>
where
    T: Drop,
    F: ReadsItems<'a, T, E>,
    E: From<Error>,
{
    type Item = Result<T, E>;

    ghost next_gives = { WalkSteps F.item_gives E.from_gives };

    ghost remaining = { λ s. at_most (length (octets_left s)) };

    /// The next item, or the refusal that ends the walk; `None` where nothing is left.
    #[inline(always)]
    fn next(&mut self) -> Option<Result<T, E>> {
        next_item::<T, E, ItemsBy<F>>(self.alloc, &mut self.left)
    }
}

/// A reader that is exact by a grammar: it takes an item exactly where a word of the grammar begins the octets.
///
/// For a lawful type [`BerParser`] is one by the type's grammar by BER, [`DerParser`] by that by DER.
// It has its own values and words, so one law of walks serves both readers, and a reader of a caller's own. The laws
// lead from one iterator to another, since a `for` and std's consumers say so what they did.
pub trait ReadsWords<'a, T, E: From<Error>>: ReadsItems<'a, T, E> {
    /// The values of the items.
    ghost Value: { Type 0 };

    /// The value of an item in hand.
    ghost value: { T → Value };

    /// The words that it takes, with their values.
    ghost Words: { List ℕ → Value → Type 0 };

    /// Where the octets end within an identifier, so that a refusal says nothing of more of them.
    ghost IsTruncated: { List ℕ → Type 0 };

    /// Whether reading may allocate.
    ghost allocates: { Bool };

    /// It takes exactly the words, and one word alone begins an input.
    ghost exact: { ReadsExactly Self.IsTruncated Self.Words Self.value
        (TellsMemory Self.allocates E.from_gives) Self.item_gives };

    /// Where reading does not allocate, no refusal reports out of memory.
    ghost asks_no_memory: { Self.allocates ≡ false → (octets : List ℕ)
        (answer : Result (List ℕ × T) (Refusal E)) → Self.item_gives octets answer →
        IfErr answer (ErrorIs (IsOther E.from_gives)) };
}

impl<'a, T: LawfulBer<'a, E>, E: From<Error>> ReadsWords<'a, T, E> for BerParser {
    ghost Value = { T.grammar.Value };

    ghost value = { T.grammar.value };

    ghost Words = { ber_words T.grammar };

    ghost IsTruncated = { EndsWithin };

    ghost allocates = { T.grammar.allocates };

    ghost exact = { record { one_word = ber_one T.grammar T.lawful_item; takes = T.ber_exact } };

    ghost asks_no_memory = { T.ber_no_memory };
}

impl<'a, T: LawfulDer<'a, E>, E: From<Error>> ReadsWords<'a, T, E> for DerParser {
    ghost Value = { T.grammar.Value };

    ghost value = { T.grammar.value };

    ghost Words = { T.grammar.Der };

    ghost IsTruncated = { IsTruncatedIdentifier };

    ghost allocates = { T.grammar.allocates };

    ghost exact = { record { one_word = T.lawful_item.der_one; takes = T.der_exact } };

    ghost asks_no_memory = { T.der_no_memory };
}

/// A walk ends, whatever the items are. Each answer takes an octet at least, so there are no more answers than octets.
/// A refusal is the last answer. Where nothing is left, nothing more is answered.
///
/// The calls are those of `next`, of a `for`, or of std's consumers, from an iterator `s` to an iterator `t`.
pub fn walks_end<'a, T, F: ReadsItems<'a, T, E>, E: From<Error>>()
    ensures short { (s t : SequenceIterator T F E) (answers : List (Result T E))
        → Yields (WalkSteps F.item_gives E.from_gives) s answers t
        → length answers + length (octets_left t) ≤ length (octets_left s) }
    ensures last { (s t : SequenceIterator T F E) (before after : List (Result T E)) (e : E)
        → Yields (WalkSteps F.item_gives E.from_gives) s (before ++ results.Err e ∷ after) t
        → (after ≡ []) × (octets_left t ≡ []) }
    ensures done { (s t : SequenceIterator T F E) (answers : List (Result T E)) → octets_left s ≡ []
        → Yields (WalkSteps F.item_gives E.from_gives) s answers t → (answers ≡ [])
        × (octets_left t ≡ []) }
{}

/// A walk over contents octets gives the values of words of the reader's grammar, whose joining begins the contents
/// octets. Then it gives perhaps one refusal, where no word begins what is left. Over a joining of words nothing is
/// refused. Where reading allocates, a refusal may report out of memory; else none does.
///
/// The calls are those of `next` or of a `for`, from an iterator `s` to an iterator `t`. `run`, `whole_run` and
/// `no_memory_run` say the same of the calls that std's consumers make.
pub fn walks_take_words<'a, T, F: ReadsWords<'a, T, E>, E: From<Error>>()
    ensures calls { (s t : SequenceIterator T F E) (answers : List (Result T E))
        → IsOctets (octets_left s) → Yields (WalkSteps F.item_gives E.from_gives) s answers t
        → IsWalk F.Words F.value (TellsNoWord F.Words (IsMemory F.allocates E.from_gives))
        (octets_left s) answers (octets_left t) }
    ensures whole { (s t : SequenceIterator T F E) (answers : List (Result T E))
        → IsOctets (octets_left s) → AreConcatenatedWords F.Words (octets_left s)
        → Yields (WalkSteps F.item_gives E.from_gives) s answers t
        → IsWalk F.Words F.value (TellsMemoryAlone (IsMemory F.allocates E.from_gives))
        (octets_left s) answers (octets_left t) }
    ensures run { (p : Run {S = SequenceIterator T F E} {A = Result T E}
        (WalkSteps F.item_gives E.from_gives))
        → IsOctets (octets_left p.from)
        → IsWalkOf F.Words F.value (TellsNoWord F.Words (IsMemory F.allocates E.from_gives)) p }
    ensures whole_run { (p : Run {S = SequenceIterator T F E} {A = Result T E}
        (WalkSteps F.item_gives E.from_gives))
        → IsOctets (octets_left p.from) → AreConcatenatedWords F.Words (octets_left p.from)
        → IsWalkOf F.Words F.value (TellsMemoryAlone (IsMemory F.allocates E.from_gives)) p }
    ensures asks_no_memory { (s t : SequenceIterator T F E) (answers : List (Result T E))
        → F.allocates ≡ false → Yields (WalkSteps F.item_gives E.from_gives) s answers t
        → All (λ answer. IfErr answer (IsOther E.from_gives)) answers }
    ensures no_memory_run { (p : Run {S = SequenceIterator T F E} {A = Result T E}
        (WalkSteps F.item_gives E.from_gives))
        → F.allocates ≡ false → All (λ answer. IfErr answer (IsOther E.from_gives)) p.items }
{}

/// Collecting the items in contents octets answers the values of words of the reader's grammar, whose joining the
/// contents octets are, in their order. It answers no others. A refusal comes only where they are no joining of words,
/// or when out of memory.
///
/// It speaks of the items that `der_sequence_of` of a [`Sequence`](crate::Sequence) and its like answer, by `F` over
/// the parser that they read by.
pub fn items_are_joined_words<'a, T, F: ReadsWords<'a, T, E>, E: From<Error>>()
    ensures joined { (content : List ℕ) (items : List T) → IsOctets content →
        ItemsGive F.item_gives E.from_gives content (results.Ok items) →
        IsConcatenation F.Words content (map F.value items) }
    ensures alone { (content : List ℕ) (items : List T) (values : List F.Value) →
        IsOctets content → ItemsGive F.item_gives E.from_gives content (results.Ok items) →
        IsConcatenation F.Words content values → values ≡ map F.value items }
    ensures refused { (content : List ℕ) (e : E) → IsOctets content →
        ItemsGive {T = T} F.item_gives E.from_gives content (results.Err e) →
        E.from_gives errors.OutOfMemory e ⊎ HasNoConcatenation F.Words content }
{}

/// A walk by BER over the contents octets of an element of indefinite length that [`Any`](crate::Any) was read from
/// (X.690 8.1.3.6). It gives elements alone, whose joining begins the contents octets, and nothing is refused.
pub fn indefinite_contents_are_walked()
    ensures calls { (input : List ℕ) (x : List ℕ × Any) (s t : SequenceIterator Any BerParser Error)
        (answers : List (Result Any Error)) → BerElementGives input (Ok x) →
        (parts_of x.1).form ≡ indefinite → octets_left s ≡ (parts_of x.1).content →
        Yields (WalkSteps ElementsGive (λ e f. f ≡ e)) s answers t →
        IsWalk (IsElement max_depth) parts_of ReportsNothing (octets_left s) answers
        (octets_left t) }
    ensures run { (input : List ℕ) (x : List ℕ × Any)
        (p : Run {S = SequenceIterator Any BerParser Error} {A = Result Any Error}
        (WalkSteps ElementsGive (λ e f. f ≡ e)))
        → BerElementGives input (Ok x) → (parts_of x.1).form ≡ indefinite
        → octets_left p.from ≡ (parts_of x.1).content
        → IsWalkOf (IsElement max_depth) parts_of ReportsNothing p }
{}
