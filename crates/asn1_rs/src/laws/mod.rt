//! What a type's values and grammars are, the laws of them, and the calls whose contracts rest on these laws.
//!
//! No reader and no writer calls the law traits: what functions they have state something of an item in hand, to those
//! who prove. A type whose laws are proved can be read by [`read_ber`] and [`read_der`] and written by
//! [`write_strict`], alone or nested in lists, sets and tags.

pub(crate) mod assert_valid;
pub(crate) mod der_form;
pub(crate) mod faults;
pub(crate) mod functions;

ghost use Rattle.std.specs.Prelude.{ℕ, Bool, List, ◌≡◌, ◌++◌, ◌<◌, ◌^◌, ◌↔◌, false, length, Result, Ok, Err};
ghost use Rattle.std.specs.Prelude.{IsTrue, IfOk, IfErr, MatchResult};
ghost use Rattle.std.specs.Borrow.{Bor};
ghost use Rattle.std.specs.Io.KnownBytes.{Appends};
ghost use Rattle.x690.specs.Octets.{IsOctets};
ghost use Rattle.x690.specs.Identifiers.{Identifier, IsIdentifier, IsTruncatedIdentifier};
ghost use Rattle.x690.specs.Lengths.{LengthForm};
ghost use Rattle.x690.specs.Rules.{Rule};
ghost use Rattle.x690.specs.Elements.{Parts, IsHeader, IsDerElement};
ghost use Rattle.x690.specs.Faults.{Violation};
ghost use Rattle.x690.specs.Nested.{IsElement, ElementFault};
ghost use Rattle.asn1_headers.specs.declared.error.Err.{Err as Refusal};
ghost use Rattle.asn1_headers.specs.declared.error.Err.TheVariants.{Error as refused};
ghost use Rattle.asn1_headers.specs.declared.error.Error.{Error};
ghost use Rattle.asn1_headers.specs.declared.error.Error.TheVariants as errors;
ghost use Rattle.asn1_headers.specs.declared.error.SerializeError.TheVariants as serialize_errors;
ghost use Rattle.asn1_headers.specs.Answers.{seen, Exactly, TellsMemory, IsOther, ReadsBack, TellsBeginning};
ghost use Rattle.asn1_rs.specs.Grammar.Form.{IsStrict};
ghost use Rattle.asn1_headers.specs.Ber.{max_depth, EndsWithin, BerContentGives};
ghost use Rattle.asn1_rs.specs.Grammar.{NoCheck, DerWord, TakesBody, FormTakes, FormNumber};
ghost use Rattle.asn1_rs.specs.Traits.{PassesAll, BerGives, DerGives};
ghost use Rattle.asn1_rs.specs.Grammar.Item.{ItemGrammar, IsLawfulItem, IsLawfulWriting, ber_words};
ghost use Rattle.asn1_rs.specs.Kinds.{IsExactCheck};
ghost use Rattle.asn1_headers.specs.Error.{ErrorIs};
ghost use Rattle.asn1_headers.specs.Writer.{Wrote, MayRefuse, IsMemoryOrLength};
ghost use Rattle.asn1_headers.specs.declared.header.Header.{Header};
ghost use Rattle.asn1_rs.specs.declared.asn1_types.any.Any.{Any};
ghost use Rattle.asn1_headers.specs.Header.Reading.{refusal_of, ber_violation, HeaderGives, HeaderLasts};
ghost use Rattle.asn1_headers.specs.Header.{KeepsLent};
ghost use Rattle.asn1_rs.specs.Any.{parts_of, IsTheElement, IsDefiniteOr, DerElementGives, BerElementGives};
ghost use Rattle.asn1_rs.specs.Any.{RefusalLasts, ElementLasts};
ghost use Rattle.asn1_headers.specs.Content.{ContentStays};
ghost use Rattle.asn1_rs.specs.Laws.Readers.{element_exact, element_no_memory};
ghost use Rattle.asn1_rs.specs.Laws.Readers.{ber_violation_no_memory};
ghost use Rattle.asn1_rs.specs.Laws.Readers.{ber_elements, passes_all, all_pass};
ghost use Rattle.asn1_rs.specs.Any.Writing.{element_writing};
ghost use Rattle.asn1_rs.specs.ToDer.{whole_allocates, whole_octets};

pub use crate::asn1_types::any::texts::any_texts_have_one_refusal;
pub use crate::asn1_types::boolean::truth_constants_are_octets;
pub use crate::asn1_types::embedded_pdv::pdvs_have_one_refusal;
pub use crate::asn1_types::integer::integers_have_one_refusal;
pub use crate::asn1_types::lists::lists_are_joined_words;
pub use crate::asn1_types::numbers_of_borrowed_types;
pub use crate::asn1_types::oid::relative::identifiers_have_one_refusal;
pub use crate::asn1_types::option::{
    optional_elements_are_refused, options_are_left_out_by_ber, options_are_left_out_by_der,
    options_are_read_back_by_ber, options_are_read_back_by_der, options_are_refused_by_ber,
    options_are_refused_by_der,
};
pub use crate::asn1_types::sequence::iterator::{
    indefinite_contents_are_walked, items_are_joined_words, walks_end, walks_take_words,
};
pub use crate::asn1_types::sequence::sequence_of::sequences_are_equal_in_order;
pub use crate::asn1_types::set::set_of::sets_are_equal_in_order;
pub use crate::asn1_types::strings::decoded::coded_strings_have_one_refusal;
pub use crate::asn1_types::strings::in_place::strings_have_one_refusal;
pub use crate::asn1_types::strings::kinds::{numbers_of_coded_strings, numbers_of_strings};
pub use crate::asn1_types::tagged::classes_of_tags;
pub use crate::asn1_types::texts::{numbers_of_texts, texts_have_one_refusal};
pub use crate::asn1_types::times::{
    order_of_generalized_times, order_of_times, order_of_utc_times, times_have_one_refusal,
};
pub use crate::laws::assert_valid::{
    AlwaysDer, assert_members_valid, assert_octets_valid, assert_text_valid,
};
pub use crate::laws::der_form::TellsDer;
pub use crate::laws::faults::{
    faults_come_first_by_ber, faults_come_first_by_der, faults_of_lists_come_first,
    faults_of_tags_come_first, truncations_of_explicit_parsers_are_counted,
    truncations_of_implicit_parsers_are_counted,
};
pub use crate::laws::functions::{
    beginnings_are_refused, check_is_exact, conversion_is_exact, counts_are_of_the_strict_encoding,
    equal_items_are_hashed_alike, leaves_have_one_refusal, reader_is_exact_by_ber,
    reader_is_exact_by_der, strict_fronts_are_written_again, strict_parts_are_read,
    strict_parts_have_the_number, strict_parts_take_the_class, words_and_values_are_unique,
    written_values_are_read_back_by_ber, written_values_are_read_back_by_der,
};
use crate::to_der::ToDer;
use crate::traits::{CheckDerConstraints, DerAutoDerive, FromAny, FromBer, FromDer, Tagged};
pub use asn1_headers::class::classes_are_numbered;
use asn1_headers::error::{Error, ParseResult, SerializeResult};
pub use asn1_headers::tag::universal_types_are_numbered;
use asn1_headers::writer::DerWrite;
use std::alloc::Global;

/// The values of a type, its grammars and its strict parts: what the laws speak of.
pub trait Grammar {
    /// The values, the words by BER and by DER, and the parts of the one strict element of a value.
    ghost grammar: { ItemGrammar Self };
}

/// A type whose grammars and strict parts are lawful.
pub trait LawfulItem: Grammar {
    /// States of an item in hand that its value is one of the type's. Each item of a list is asked in turn.
    // No law can say it. There a number ranges over all numbers, and only code that reads an item learns that it is in
    // the range of its type. So the call of a list goes through its items, and does nothing else.
    fn has_value(&self)
        ensures { Self.grammar.IsValue (Self.grammar.value self.now) };

    /// Each part of [`Grammar`] has values of the type. One word alone begins an input. A value has one strict
    /// encoding, which no other value has, and which is a word.
    ghost lawful_item: { IsLawfulItem Self.grammar };
}

/// The conversion of an element is exact: it finds the value of the body, and refuses only where there is none.
pub trait LawfulBody<'a, E: From<Error>>: FromAny<'a, Error = E> + Grammar {
    /// An Ok is the value of the body; an Err comes only where there is none, or when out of memory.
    ghost body_exact: { (any : Any) (answer : Result Self E) → IsOctets any.content.now →
        Self.any_gives any answer →
        TakesBody Self.grammar.Body Self.grammar.value Self.grammar.allocates E.from_gives
        (parts_of any) answer };

    /// Where the type does not allocate, no refusal of the conversion reports out of memory.
    ghost body_no_memory: { Self.grammar.allocates ≡ false → (any : Any) (e : E) →
        Self.any_gives any (Err e) → IsOther E.from_gives e };
}

/// The check of an element is exact.
pub trait LawfulCheck: CheckDerConstraints + LawfulItem {
    /// The check passes exactly the parts that meet the constraints, and never reports out of memory.
    ghost checks: { IsExactCheck Self.check_gives Self.grammar.Check };
}

/// The words by DER are the elements of definite length that pass the check and have a body.
// Its one impl is the identity. In a generic function the grammar of a bound is any grammar, so it can't be told there
// that its words are these. By BER no type has other words.
pub trait LawfulAuto: LawfulItem + DerAutoDerive {
    /// Each word by DER is such an element, with this value.
    ghost der_split: { (o : List ℕ) (v : Self.grammar.Value) →
        Self.grammar.Der o v → DerWord Self.grammar.Check Self.grammar.Body o v };

    /// And each such element is a word by DER.
    ghost der_join: { (o : List ℕ) (v : Self.grammar.Value) →
        DerWord Self.grammar.Check Self.grammar.Body o v → Self.grammar.Der o v };
}

/// The reader by BER is exact: Ok where a word by BER begins the input, and a final refusal else.
pub trait LawfulBer<'a, E: From<Error>>: FromBer<'a, E> + LawfulItem {
    /// What the reader may answer is exact by the grammar by BER.
    ghost ber_exact: { (input : List ℕ) (answer : Result (List ℕ × Self) (Refusal E)) →
        IsOctets input → Self.ber_gives input answer →
        Exactly EndsWithin (ber_words Self.grammar) Self.grammar.value
        (TellsMemory Self.grammar.allocates E.from_gives) input answer };

    /// Where the type does not allocate, no refusal reports out of memory.
    ghost ber_no_memory: { Self.grammar.allocates ≡ false →
        (input : List ℕ) (answer : Result (List ℕ × Self) (Refusal E)) →
        Self.ber_gives input answer → IfErr answer (ErrorIs (IsOther E.from_gives)) };
}

/// The reader by DER is exact: Ok where a word by DER begins the input, and a final refusal else.
pub trait LawfulDer<'a, E: From<Error>>: FromDer<'a, E> + LawfulItem {
    /// What the reader may answer is exact by the grammar by DER.
    ghost der_exact: { (input : List ℕ) (answer : Result (List ℕ × Self) (Refusal E)) →
        IsOctets input → Self.der_gives input answer →
        Exactly IsTruncatedIdentifier Self.grammar.Der Self.grammar.value
        (TellsMemory Self.grammar.allocates E.from_gives) input answer };

    /// Where the type does not allocate, no refusal reports out of memory.
    ghost der_no_memory: { Self.grammar.allocates ≡ false →
        (input : List ℕ) (answer : Result (List ℕ × Self) (Refusal E)) →
        Self.der_gives input answer → IfErr answer (ErrorIs (IsOther E.from_gives)) };
}

/// What is written follows from the value, and is its strict encoding where it has one.
pub trait LawfulWrite: ToDer + LawfulItem {
    /// What is written is told of each item, and follows from its value. A value that has strict parts is written as
    /// its strict encoding. One in DER form whose contents octets fit in memory has such parts, and no refusal of its
    /// own. Only its length, its writer, or want of memory refuses it.
    ghost lawful_writing: { IsLawfulWriting Self.grammar Self.writing };
}

/// The strict parts have the type's tag number.
///
/// So an optional value of the type is told by its tag number.
pub trait LawfulTagged: Grammar + Tagged {
    /// Strict parts have the tag number of the type.
    ghost tag_number: { FormNumber Self.grammar.Form (Self.TAG).0 };

    /// And an element can have it.
    // A value under a tag asks for it.
    ghost number_fits: { (Self.TAG).0 < 2 ^ 32 };
}

/// The strict parts pass check and body with class `K` in place of their own.
///
/// So an implicit tag of class `K` over the type is lawful.
pub trait TakesClass<const K: u8>: LawfulTagged {
    /// Under class `K` strict parts meet check and body all the same.
    ghost takes_class: { FormTakes Self.grammar.Form Self.grammar.Check Self.grammar.Body K };
}

/// Two items are equal exactly where their values are, so they can be members of a set.
pub trait LawfulMember: LawfulItem + Eq {
    /// Equality of items is that of their values.
    ghost same: { (x y : Self) →
        IsTrue (Self.eq x y) ↔ (Self.grammar.value x ≡ Self.grammar.value y) };
}

impl<'a, T, E: From<Error>> LawfulBer<'a, E> for T
where
    T: FromAny<'a, Error = E> + LawfulBody<'a, E> + LawfulItem,
{
    ghost ber_exact = { λ input answer octets.
        element_exact (IsElement max_depth) (ElementFault max_depth) EndsWithin ber_elements
        ber_violation PassesAll T.any_gives E.from_gives NoCheck T.grammar.Body
        T.grammar.value T.grammar.allocates (ber_words T.grammar) passes_all T.body_exact
        (λ o v w. w)
        (λ o v w. w) input answer };

    ghost ber_no_memory = { λ none.
        element_no_memory (IsElement max_depth) (ElementFault max_depth) ber_violation
        ber_violation_no_memory PassesAll T.any_gives E.from_gives all_pass (T.body_no_memory none) };
}

/// Reads a value of a lawful type by BER.
///
/// Ok exactly where a word of the type's grammar begins the octets. A refusal is final: no word begins them, whatever
/// follows of which the refusal speaks. The strict encoding of a value is read back before any rest.
/// So is what [`write_strict`] appends of an item whose value is in DER form: its `headline` has the proof that
/// `back` asks for.
pub fn read_ber<'a, T: LawfulBer<'a, E>, E: From<Error>>(
    alloc: Global,
    input: &'a [u8],
) -> ParseResult<'a, T, E>
    ensures exact { Exactly EndsWithin (ber_words T.grammar) T.grammar.value
        (TellsMemory T.grammar.allocates E.from_gives) input.now (seen result) }
    ensures back { (v : T.grammar.Value) (w rest : List ℕ) → ∥ IsStrict T.grammar.Form v w ∥₁ →
        input.now ≡ w ++ rest → ReadsBack T.grammar.value
        (TellsMemory T.grammar.allocates E.from_gives) v rest (seen result) }
    ensures asks_no_memory { T.grammar.allocates ≡ false →
        IfErr (seen result) (ErrorIs (IsOther E.from_gives)) }
    ensures gives { T.ber_gives input.now (seen result) }
{
    T::from_ber(alloc, input)
}

/// Reads a value of a lawful type by DER.
///
/// Ok exactly where a word of the type's grammar begins the octets. A refusal is final: no word begins them, whatever
/// follows of which the refusal speaks. The strict encoding of a value is read back before any rest.
/// So is what [`write_strict`] appends of an item whose value is in DER form: its `headline` has the proof that
/// `back` asks for.
pub fn read_der<'a, T: LawfulDer<'a, E>, E: From<Error>>(
    alloc: Global,
    bytes: &'a [u8],
) -> ParseResult<'a, T, E>
    ensures exact { Exactly IsTruncatedIdentifier T.grammar.Der T.grammar.value
        (TellsMemory T.grammar.allocates E.from_gives) bytes.now (seen result) }
    ensures back { (v : T.grammar.Value) (w rest : List ℕ) → ∥ IsStrict T.grammar.Form v w ∥₁ →
        bytes.now ≡ w ++ rest → ReadsBack T.grammar.value
        (TellsMemory T.grammar.allocates E.from_gives) v rest (seen result) }
    ensures asks_no_memory { T.grammar.allocates ≡ false →
        IfErr (seen result) (ErrorIs (IsOther E.from_gives)) }
    ensures gives { T.der_gives bytes.now (seen result) }
{
    T::from_der(alloc, bytes)
}

/// Appends the one strict encoding of a value in DER form.
///
/// No other value has it, and it begins no other one. For other values too the octets of header and contents are
/// appended, as `write_der` does.
pub fn write_strict<T: LawfulWrite, W: DerWrite>(
    x: &T,
    alloc: Global,
    w: &mut W,
) -> SerializeResult<usize>
    ensures headline { T.grammar.IsDer (T.grammar.value x.now) →
        length (whole_octets T.writing x.now) < 2 ^ 64 → (W.state w.new).failed ≡ false →
        ∥ IsStrict T.grammar.Form (T.grammar.value x.now) (whole_octets T.writing x.now) ∥₁ ×
        MatchResult result
        (λ n. Appends (W.state w.old).told (W.state w.new).told (whole_octets T.writing x.now) ×
        (n ≡ length (whole_octets T.writing x.now)))
        (λ e. (e ≡ serialize_errors.OutOfMemory) ×
        IsTrue (whole_allocates T.writing)) }
    ensures wrote { (o : List ℕ) → IsStrict T.grammar.Form (T.grammar.value x.now) o →
        Wrote o (W.state w.old) (W.state w.new) result }
    ensures plain { Wrote (whole_octets T.writing x.now)
        (W.state w.old) (W.state w.new) result }
    ensures refused { (o : List ℕ) → IsStrict T.grammar.Form (T.grammar.value x.now) o →
        IfErr result (MayRefuse
        (whole_allocates T.writing) (length o)) }
    ensures der { T.grammar.IsDer (T.grammar.value x.now) → IfErr result (MayRefuse
        (whole_allocates T.writing)
        (length (whole_octets T.writing x.now))) }
    ensures one { (o p : List ℕ) → IsStrict T.grammar.Form (T.grammar.value x.now) o →
        IsStrict T.grammar.Form (T.grammar.value x.now) p → o ≡ p }
    ensures apart { (o p r s : List ℕ) (v w : T.grammar.Value) →
        IsStrict T.grammar.Form v o → IsStrict T.grammar.Form w p → o ++ r ≡ p ++ s →
        (o ≡ p) × (v ≡ w) × (r ≡ s) }
{
    x.write_der(alloc, w)
}

/// The one strict encoding of a value in DER form, in a vector.
///
/// No other value has it, and it begins no other one. Refused only when out of memory, or where the length passes
/// `usize`. For other values too the vector has the octets of header and contents, as [`ToDer::to_der_vec`] gives them.
pub fn strict_vec<T: LawfulWrite>(alloc: Global, x: &T) -> SerializeResult<Vec<u8>>
    ensures headline { T.grammar.IsDer (T.grammar.value x.now) →
        length (whole_octets T.writing x.now) < 2 ^ 64 →
        ∥ IsStrict T.grammar.Form (T.grammar.value x.now) (whole_octets T.writing x.now) ∥₁ ×
        MatchResult result
        (λ octets. octets.items ≡ whole_octets T.writing x.now)
        (λ e. e ≡ serialize_errors.OutOfMemory) }
    ensures strict { (o : List ℕ) → IsStrict T.grammar.Form (T.grammar.value x.now) o →
        MatchResult result (λ octets. octets.items ≡ o) (IsMemoryOrLength o) }
    ensures der { T.grammar.IsDer (T.grammar.value x.now) → MatchResult result
        (λ octets. octets.items ≡ whole_octets T.writing x.now)
        (IsMemoryOrLength (whole_octets T.writing x.now)) }
    ensures plain { IfOk result (λ octets. octets.items ≡ whole_octets T.writing x.now) }
    ensures one { (o p : List ℕ) → IsStrict T.grammar.Form (T.grammar.value x.now) o →
        IsStrict T.grammar.Form (T.grammar.value x.now) p → o ≡ p }
    ensures apart { (o p r s : List ℕ) (v w : T.grammar.Value) →
        IsStrict T.grammar.Form v o → IsStrict T.grammar.Form w p → o ++ r ≡ p ++ s →
        (o ≡ p) × (v ≡ w) × (r ≡ s) }
{
    x.to_der_vec(alloc)
}

/// The answers of readers are what the input makes them. The readers are those of headers and of elements, by DER and
/// by BER, and of contents octets by BER. The input has one refusal, that of its first fault from the left. It has none
/// where a header, an element, or contents octets begin it.
pub fn one_refusal()
    ensures header { (rule : Rule) (refuses : Violation → Error) (input : List ℕ) (q r : Refusal Error)
        → HeaderGives rule (refusal_of refuses) input (Err q)
        → HeaderGives rule (refusal_of refuses) input (Err r)
        → q ≡ r }
    ensures no_header { (rule : Rule) (refuses : Violation → Error) (input : List ℕ)
        (x : List ℕ × Header) (r : Refusal Error)
        → HeaderGives rule (refusal_of refuses) input (Ok x)
        → HeaderGives rule (refusal_of refuses) input (Err r)
        → ⊥ }
    ensures element { (input : List ℕ) (q r : Refusal Error)
        → DerElementGives input (Err q)
        → DerElementGives input (Err r)
        → q ≡ r }
    ensures no_element { (input : List ℕ) (x : List ℕ × Any) (r : Refusal Error)
        → DerElementGives input (Ok x)
        → DerElementGives input (Err r)
        → ⊥ }
    ensures ber_element { (input : List ℕ) (q r : Refusal Error)
        → BerElementGives input (Err q)
        → BerElementGives input (Err r)
        → q ≡ r }
    ensures no_ber_element { (input : List ℕ) (x : List ℕ × Any) (r : Refusal Error)
        → BerElementGives input (Ok x)
        → BerElementGives input (Err r)
        → ⊥ }
    ensures ber_content { (constructed : Bool) (form : LengthForm) (depth : ℕ) (input : List ℕ)
        (q r : Refusal Error)
        → BerContentGives constructed form depth input (Err q)
        → BerContentGives constructed form depth input (Err r)
        → q ≡ r }
    ensures no_ber_content { (constructed : Bool) (form : LengthForm) (depth : ℕ) (input : List ℕ)
        (x : Bor (List ℕ) × Bor (List ℕ)) (r : Refusal Error)
        → BerContentGives constructed form depth input (Ok x)
        → BerContentGives constructed form depth input (Err r)
        → ⊥ }
{}

/// What the readers of [`Any`](crate::Any) answer is the element at the front of the octets, or the refusal of its
/// first fault. The raw tag of its header is the identifier octets at the front, lent by the input.
pub fn any_is_the_element()
    ensures der { (input : List ℕ) (answer : Result (List ℕ × Any) (Refusal Error))
        → DerGives IsDefiniteOr IsTheElement (λ e f. f ≡ e) input answer
        → DerElementGives input answer }
    ensures ber { (input : List ℕ) (answer : Result (List ℕ × Any) (Refusal Error))
        → BerGives IsTheElement (λ e f. f ≡ e) input answer
        → BerElementGives input answer }
    ensures der_raw_tag { (input identifier more : List ℕ) (id : Identifier)
        (answer : Result (List ℕ × Any) (Refusal Error))
        → IsIdentifier identifier id
        → input ≡ identifier ++ more
        → DerElementGives input answer
        → IfOk answer (λ x. KeepsLent identifier x.1.header) }
    ensures ber_raw_tag { (input identifier more : List ℕ) (id : Identifier)
        (answer : Result (List ℕ × Any) (Refusal Error))
        → IsIdentifier identifier id
        → input ≡ identifier ++ more
        → BerElementGives input answer
        → IfOk answer (λ x. KeepsLent identifier x.1.header) }
{}

/// By DER an element has one encoding (X.690 8.1.2, 10.1): what `Any::from_der` answers is written, by `write_der`, as
/// the octets that it was read from.
pub fn elements_by_der_are_written_again()
    ensures { (input : List ℕ) (x : List ℕ × Any) → DerElementGives input (Ok x)
        → input ≡ whole_octets element_writing x.1 ++ x.0 }
{}

/// If appending n octets would make the input begin with a header or an element, the answer is `Incomplete(m)` with m
/// at most n. An input that ends within an identifier in high form is `InvalidTag`.
pub fn beginnings_are_incomplete()
    ensures header { (rule : Rule) (refuses : Violation → Error) (input more front rest : List ℕ)
        (id : Identifier) (form : LengthForm) (r : Refusal Error)
        → HeaderGives rule (refusal_of refuses) input (Err r)
        → IsHeader rule front id form
        → input ++ more ≡ front ++ rest
        → TellsBeginning (IsTruncatedIdentifier input) r more }
    ensures header_within { (rule : Rule) (refuses : Violation → Error) (input : List ℕ)
        (answer : Result (List ℕ × Header) (Refusal Error))
        → IsTruncatedIdentifier input
        → HeaderGives rule (refusal_of refuses) input answer
        → answer ≡ Err (refused errors.InvalidTag) }
    ensures element { (input more word rest : List ℕ) (p : Parts) (r : Refusal Error)
        → DerElementGives input (Err r)
        → IsDerElement word p
        → input ++ more ≡ word ++ rest
        → TellsBeginning (IsTruncatedIdentifier input) r more }
    ensures element_within { (input : List ℕ) (answer : Result (List ℕ × Any) (Refusal Error))
        → IsTruncatedIdentifier input
        → DerElementGives input answer
        → answer ≡ Err (refused errors.InvalidTag) }
    ensures ber_element { (input more word rest : List ℕ) (p : Parts) (r : Refusal Error)
        → BerElementGives input (Err r)
        → IsElement max_depth word p
        → input ++ more ≡ word ++ rest
        → TellsBeginning (EndsWithin input) r more }
    ensures ber_element_within { (input : List ℕ)
        (answer : Result (List ℕ × Any) (Refusal Error))
        → EndsWithin input
        → BerElementGives input answer
        → answer ≡ Err (refused errors.InvalidTag) }
{}

/// What the readers of headers and of elements answer lasts. After a refusal no element begins the input, nor more
/// octets of which the refusal speaks. A header or an element that is read is the one that begins the input, whatever
/// follows, and so are contents octets.
pub fn answers_last()
    ensures header { (rule : Rule) (refuses : Violation → Error) (input : List ℕ) (x : List ℕ × Header)
        → HeaderGives rule (refusal_of refuses) input (Ok x)
        → HeaderLasts input x.0 x.1 }
    ensures refusal { (input : List ℕ) (r : Refusal Error)
        → DerElementGives input (Err r)
        → RefusalLasts IsDerElement IsTruncatedIdentifier input r }
    ensures element { (input : List ℕ) (x : List ℕ × Any)
        → DerElementGives input (Ok x)
        → ElementLasts IsDerElement input x.0 x.1 }
    ensures ber_refusal { (input : List ℕ) (r : Refusal Error)
        → BerElementGives input (Err r)
        → RefusalLasts (IsElement max_depth) EndsWithin input r }
    ensures ber_element { (input : List ℕ) (x : List ℕ × Any)
        → BerElementGives input (Ok x)
        → ElementLasts (IsElement max_depth) input x.0 x.1 }
    ensures ber_content { (constructed : Bool) (form : LengthForm) (depth : ℕ)
        (input more : List ℕ) (x : Bor (List ℕ) × Bor (List ℕ))
        (answer : Result (Bor (List ℕ) × Bor (List ℕ)) (Refusal Error))
        → BerContentGives constructed form depth input (Ok x)
        → BerContentGives constructed form depth (input ++ more) answer
        → ContentStays x more answer }
{}
