//! Laws that a caller names at a concrete type, as `reader_is_exact_by_der::<u64, Error>()`.
//!
//! Their contracts are the statements, and nothing runs in them: a caller calls one where it needs the law.
//!
//! A law of a trait reaches a caller only through a bound.
ghost use Rattle.std.specs.Prelude.{◌≡◌, [], ◌++◌, ◌<◌, ◌^◌, ◌↔◌, ℕ, false, List, length, Result, Err, IfErr};
ghost use Rattle.x690.specs.Octets.{IsOctets};
ghost use Rattle.x690.specs.Identifiers.{Identifier, IsTruncatedIdentifier};
ghost use Rattle.x690.specs.Lengths.{LengthForm};
ghost use Rattle.x690.specs.Rules.{Rule};
ghost use Rattle.x690.specs.Elements.{Parts, IsHeader, IsDerElement};
ghost use Rattle.x690.specs.Faults.{Violation};
ghost use Rattle.x690.specs.Nested.{IsElement};
ghost use Rattle.asn1_headers.specs.declared.error.Err.{Err as Refusal};
ghost use Rattle.asn1_headers.specs.declared.error.Error.{Error};
ghost use Rattle.asn1_headers.specs.declared.error.Error.TheVariants.{OutOfMemory};
ghost use Rattle.asn1_headers.specs.declared.header.Header.{Header};
ghost use Rattle.asn1_rs.specs.declared.asn1_types.any.Any.{Any};
ghost use Rattle.asn1_headers.specs.Error.{ErrorIs};
ghost use Rattle.asn1_headers.specs.Answers.{Exactly, TellsMemory, IsOther, ReadsBack, RefusedAsBeginning};
ghost use Rattle.asn1_headers.specs.Answers.{RefusedBeforeEnd};
ghost use Rattle.asn1_rs.specs.Grammar.{Checks, FormBodies, FormChecks, FormNumber, FormTakes, TakesBody};
ghost use Rattle.asn1_rs.specs.Grammar.Form.{IsStrict, WritesByValue};
ghost use Rattle.asn1_headers.specs.Ber.{max_depth, EndsWithin};
ghost use Rattle.asn1_headers.specs.Header.Reading.{refusal_of, HeaderGives};
ghost use Rattle.asn1_rs.specs.Any.{DerElementGives, BerElementGives, parts_of};
ghost use Rattle.asn1_rs.specs.Leaf.{HaveOneRefusal};
ghost use Rattle.asn1_rs.specs.Boolean.{boolean_leaf, bool_leaf};
ghost use Rattle.asn1_rs.specs.Null.{null_leaf, unit_leaf};
ghost use Rattle.asn1_rs.specs.Enumerated.{enumerated_leaf};
ghost use Rattle.asn1_rs.specs.Integer.Octets.{any_integer_leaf};
ghost use Rattle.asn1_rs.specs.Kept.{sequence_leaf, set_leaf};
ghost use Rattle.asn1_rs.specs.EndOfContent.{end_leaf};
ghost use Rattle.asn1_rs.specs.OctetString.{octet_string_leaf, slice_leaf};
ghost use Rattle.asn1_rs.specs.BitString.{bit_string_leaf};
ghost use Rattle.asn1_rs.specs.ToDer.{IsWritable, whole_octets};
ghost use Rattle.asn1_rs.specs.Grammar.Item.{ber_words};

use crate::laws::{
    LawfulBer, LawfulBody, LawfulCheck, LawfulDer, LawfulItem, LawfulMember, LawfulTagged,
    LawfulWrite, TakesClass,
};
use asn1_headers::error::Error;
use std::hash::Hash;

/// The reader by BER of a lawful type is exact.
///
/// What `T::from_ber` may answer, `T.ber_gives`, is an Ok exactly where a word by BER begins the octets, with its value
/// and the rest. Else it is a final refusal. The strict encoding of a value is read back before any rest. Octets that
/// are shorter than a word that more of them make them begin with are refused. Of a type that does not allocate no
/// refusal reports out of memory.
pub fn reader_is_exact_by_ber<'a, T: LawfulBer<'a, E>, E: From<Error>>()
    ensures exact { (input : List ℕ) (answer : Result (List ℕ × T) (Refusal E)) → IsOctets input →
        T.ber_gives input answer →
        Exactly EndsWithin (ber_words T.grammar) T.grammar.value
        (TellsMemory T.grammar.allocates E.from_gives) input answer }
    ensures back { (input : List ℕ) (answer : Result (List ℕ × T) (Refusal E)) (v : T.grammar.Value)
        (w rest : List ℕ) → IsOctets input → T.ber_gives input answer →
        ∥ IsStrict T.grammar.Form v w ∥₁ → input ≡ w ++ rest
        → ReadsBack T.grammar.value (TellsMemory T.grammar.allocates E.from_gives) v rest answer }
    ensures beginning { (input : List ℕ) (answer : Result (List ℕ × T) (Refusal E))
        (more word rest : List ℕ) (v : T.grammar.Value) → IsOctets input → T.ber_gives input answer
        → (ber_words T.grammar) word v → input ++ more ≡ word ++ rest → length input < length word
        → RefusedBeforeEnd (TellsMemory T.grammar.allocates E.from_gives)
        (EndsWithin input) more answer }
    ensures asks_no_memory { (input : List ℕ) (answer : Result (List ℕ × T) (Refusal E)) →
        T.grammar.allocates ≡ false → T.ber_gives input answer →
        IfErr answer (ErrorIs (IsOther E.from_gives)) }
{}

/// The reader by DER of a lawful type is exact: what `T::from_der` may answer, `T.der_gives`, is what
/// [`reader_is_exact_by_ber`] says, by the type's grammar by DER.
pub fn reader_is_exact_by_der<'a, T: LawfulDer<'a, E>, E: From<Error>>()
    ensures exact { (input : List ℕ) (answer : Result (List ℕ × T) (Refusal E)) → IsOctets input →
        T.der_gives input answer →
        Exactly IsTruncatedIdentifier T.grammar.Der T.grammar.value
        (TellsMemory T.grammar.allocates E.from_gives) input answer }
    ensures back { (input : List ℕ) (answer : Result (List ℕ × T) (Refusal E)) (v : T.grammar.Value)
        (w rest : List ℕ) → IsOctets input → T.der_gives input answer →
        ∥ IsStrict T.grammar.Form v w ∥₁ → input ≡ w ++ rest
        → ReadsBack T.grammar.value (TellsMemory T.grammar.allocates E.from_gives) v rest answer }
    ensures beginning { (input : List ℕ) (answer : Result (List ℕ × T) (Refusal E))
        (more word rest : List ℕ) (v : T.grammar.Value) → IsOctets input → T.der_gives input answer
        → T.grammar.Der word v → input ++ more ≡ word ++ rest → length input < length word
        → RefusedBeforeEnd (TellsMemory T.grammar.allocates E.from_gives)
        (IsTruncatedIdentifier input) more answer }
    ensures asks_no_memory { (input : List ℕ) (answer : Result (List ℕ × T) (Refusal E)) →
        T.grammar.allocates ≡ false → T.der_gives input answer →
        IfErr answer (ErrorIs (IsOther E.from_gives)) }
{}

/// The conversion of a lawful type is exact. What `T::try_from_any` may answer to an element is its value, where the
/// parts of the element have one, and else a refusal. Of a type that does not allocate no refusal reports out of
/// memory. The element may be made by hand.
pub fn conversion_is_exact<'a, T: LawfulBody<'a, E>, E: From<Error>>()
    ensures exact { (any : Any) (answer : Result T E) → IsOctets any.content.now →
        T.any_gives any answer →
        TakesBody T.grammar.Body T.grammar.value T.grammar.allocates E.from_gives (parts_of any)
        answer }
    ensures asks_no_memory { (any : Any) (e : E) → T.grammar.allocates ≡ false →
        T.any_gives any (Err e) → IsOther E.from_gives e }
{}

/// The check of a lawful type is exact: `T::check_constraints` passes the elements whose parts meet the constraints,
/// and no others. It never reports out of memory. The element may be made by hand.
pub fn check_is_exact<T: LawfulCheck>()
    ensures exact { (p : Parts) (answer : Result (Unit {0}) Error) → T.check_gives p answer →
        Checks T.grammar.Check p answer }
    ensures asks_no_memory { (p : Parts) → T.check_gives p (Err OutOfMemory) → ⊥ }
{}

/// What is written of an item whose value is in DER form is read back as this value by BER, before any rest. What
/// `T::from_ber` may answer is an Ok of the two, or that memory is out, where the type allocates.
pub fn written_values_are_read_back_by_ber<'a, T, E>()
where
    T: LawfulBer<'a, E> + LawfulWrite,
    E: From<Error>,
    ensures { (x : T) (input rest : List ℕ) (answer : Result (List ℕ × T) (Refusal E)) →
        IsOctets input → T.grammar.IsDer (T.grammar.value x) →
        length (whole_octets T.writing x) < 2 ^ 64 → input ≡ whole_octets T.writing x ++ rest →
        T.ber_gives input answer → ReadsBack T.grammar.value
        (TellsMemory T.grammar.allocates E.from_gives) (T.grammar.value x) rest answer }
{}

/// What is written of an item whose value is in DER form is read back as this value by DER, before any rest. What
/// `T::from_der` may answer is an Ok of the two, or that memory is out, where the type allocates.
pub fn written_values_are_read_back_by_der<'a, T, E>()
where
    T: LawfulDer<'a, E> + LawfulWrite,
    E: From<Error>,
    ensures { (x : T) (input rest : List ℕ) (answer : Result (List ℕ × T) (Refusal E)) →
        IsOctets input → T.grammar.IsDer (T.grammar.value x) →
        length (whole_octets T.writing x) < 2 ^ 64 → input ≡ whole_octets T.writing x ++ rest →
        T.der_gives input answer → ReadsBack T.grammar.value
        (TellsMemory T.grammar.allocates E.from_gives) (T.grammar.value x) rest answer }
{}

/// An octet string has at most one value, and a value at most one strict encoding.
///
/// One word begins an input, by BER and by DER, with one value and one rest; and no word is empty. The strict encoding
/// of a value is a word by BER and by DER with this value. No other value has it, and it begins no other strict
/// encoding.
pub fn words_and_values_are_unique<T: LawfulItem>()
    ensures ber_value { (o : List ℕ) (v w : T.grammar.Value) → (ber_words T.grammar) o v →
        (ber_words T.grammar) o w → v ≡ w }
    ensures der_value { (o : List ℕ) (v w : T.grammar.Value) → T.grammar.Der o v →
        T.grammar.Der o w → v ≡ w }
    ensures ber_front { (x y r s : List ℕ) (v w : T.grammar.Value) → (ber_words T.grammar) x v →
        (ber_words T.grammar) y w → x ++ r ≡ y ++ s → (x ≡ y) × (v ≡ w) × (r ≡ s) }
    ensures der_front { (x y r s : List ℕ) (v w : T.grammar.Value) → T.grammar.Der x v →
        T.grammar.Der y w → x ++ r ≡ y ++ s → (x ≡ y) × (v ≡ w) × (r ≡ s) }
    ensures ber_some { (v : T.grammar.Value) → (ber_words T.grammar) [] v → ⊥ }
    ensures der_some { (v : T.grammar.Value) → T.grammar.Der [] v → ⊥ }
    ensures strict_word { (v : T.grammar.Value) (o : List ℕ) → IsStrict T.grammar.Form v o →
        (ber_words T.grammar) o v × T.grammar.Der o v }
    ensures strict { (v : T.grammar.Value) (o p : List ℕ) → IsStrict T.grammar.Form v o →
        IsStrict T.grammar.Form v p → o ≡ p }
    ensures apart { (o p r s : List ℕ) (v w : T.grammar.Value) → IsStrict T.grammar.Form v o →
        IsStrict T.grammar.Form w p → o ++ r ≡ p ++ s → (o ≡ p) × (v ≡ w) × (r ≡ s) }
{}

/// What a lawful type writes and counts of a value in DER form is its strict encoding. What it writes of any value
/// follows from the value.
///
/// `T.writing.header` and `T.writing.content` are what the contracts of [`ToDer`](crate::ToDer) say that `write_der`,
/// `to_der_len` and `der_content_len` append and count, and `T.writing.constructed` what `der_constructed` answers.
pub fn counts_are_of_the_strict_encoding<T: LawfulWrite>()
    ensures tells { (x : T) → T.writing.tells x }
    ensures by_value { WritesByValue T.grammar.value T.writing }
    ensures strict { (x : T) → T.grammar.IsDer (T.grammar.value x)
        → length (whole_octets T.writing x) < 2 ^ 64
        → ∥ IsStrict T.grammar.Form (T.grammar.value x) (whole_octets T.writing x) ∥₁ }
    ensures writable { (x : T) → T.grammar.IsDer (T.grammar.value x)
        → IsWritable T.writing x }
    ensures written { (x : T) (o : List ℕ) → IsStrict T.grammar.Form (T.grammar.value x) o
        → IsWritable T.writing x
        × (whole_octets T.writing x ≡ o) }
    ensures counted { (x : T) (o : List ℕ) (s : IsStrict T.grammar.Form (T.grammar.value x) o)
        → (length (whole_octets T.writing x) ≡ length o)
        × (length (T.writing.content x) ≡ length s.content) ×
        (T.writing.constructed x ≡ s.id.constructed) }
{}

/// The strict parts of a value meet the constraints of the type, and its conversion finds this value in them.
pub fn strict_parts_are_read<T: LawfulItem>()
    ensures check { FormChecks T.grammar.Form T.grammar.Check }
    ensures body { FormBodies T.grammar.Form T.grammar.Body }
{}

/// The strict parts of a value have the tag number of the type, so that an optional value is told by it.
pub fn strict_parts_have_the_number<T: LawfulTagged>()
    ensures number { FormNumber T.grammar.Form (T.TAG).0 }
    ensures fits { (T.TAG).0 < 2 ^ 32 }
{}

/// The strict parts of a value with class `K` in place of their own meet the constraints, and the conversion finds the
/// value in them. So an implicit tag of this class stands over the type.
pub fn strict_parts_take_the_class<T: TakesClass<K>, const K: u8>()
    ensures { FormTakes T.grammar.Form T.grammar.Check T.grammar.Body K }
{}

/// A front that a value was read from was its strict encoding exactly where writing the value gives the same octets.
///
/// It speaks of values in DER form. No octets are strict for another value, and yet it may be written as it was read.
/// Of a set that there is a strict encoding is all that is known. Where the strict parts of a value are in hand, so is
/// its strict encoding.
pub fn strict_fronts_are_written_again<T: LawfulWrite>()
    ensures again { (x : T) (front : List ℕ) → T.grammar.IsDer (T.grammar.value x) →
        length front < 2 ^ 64 → ∥ IsStrict T.grammar.Form (T.grammar.value x) front ∥₁
        ↔ (front ≡ whole_octets T.writing x) }
    ensures of_parts { (x : T) (id : Identifier) (content front : List ℕ) →
        T.grammar.Form (T.grammar.value x) id content → length front < 2 ^ 64 →
        IsStrict T.grammar.Form (T.grammar.value x) front ↔ (front ≡ whole_octets T.writing x) }
{}

/// Octets that are shorter than a header or an element, and that more of them make begin with it, are refused. They are
/// refused with `Incomplete` of these or fewer, or with `InvalidTag` where they end within an identifier in high form.
pub fn beginnings_are_refused()
    ensures header { (rule : Rule) (refuses : Violation → Error)
        (input more front rest : List ℕ) (id : Identifier) (form : LengthForm)
        (answer : Result (List ℕ × Header) (Refusal Error))
        → HeaderGives rule (refusal_of refuses) input answer → IsHeader rule front id form
        → input ++ more ≡ front ++ rest → length input < length front
        → RefusedAsBeginning (IsTruncatedIdentifier input) more answer }
    ensures element { (input more word rest : List ℕ) (p : Parts)
        (answer : Result (List ℕ × Any) (Refusal Error)) → DerElementGives input answer →
        IsDerElement word p → input ++ more ≡ word ++ rest → length input < length word →
        RefusedAsBeginning (IsTruncatedIdentifier input) more answer }
    ensures ber_element { (input more word rest : List ℕ) (p : Parts)
        (answer : Result (List ℕ × Any) (Refusal Error)) → BerElementGives input answer →
        IsElement max_depth word p → input ++ more ≡ word ++ rest → length input < length word →
        RefusedAsBeginning (EndsWithin input) more answer }
{}

/// An element has one refusal by the conversion of a leaf type and one by its check. It has none where it has a value,
/// or meets the constraints.
///
/// A clause for each type, with its conversion and its check.
// A law over all leaf types would range over records of types, which a clause can't.
pub fn leaves_have_one_refusal()
    ensures boolean { HaveOneRefusal boolean_leaf }
    ensures bool { HaveOneRefusal bool_leaf }
    ensures null { HaveOneRefusal null_leaf }
    ensures unit { HaveOneRefusal unit_leaf }
    ensures end_of_content { HaveOneRefusal end_leaf }
    ensures octet_string { HaveOneRefusal octet_string_leaf }
    ensures octets { HaveOneRefusal slice_leaf }
    ensures bit_string { HaveOneRefusal bit_string_leaf }
    ensures enumerated { HaveOneRefusal enumerated_leaf }
    ensures integer { HaveOneRefusal any_integer_leaf }
    ensures sequence { HaveOneRefusal sequence_leaf }
    ensures set { HaveOneRefusal set_leaf }
{}

/// Items with one value are hashed alike: what `Hash` writes of them is the same. So they are one member of a set that
/// goes by hashes, and one key of a map.
pub fn equal_items_are_hashed_alike<T: LawfulMember + Hash>()
    ensures { (x y : T) → T.grammar.value x ≡ T.grammar.value y → T.hash_input x ≡ T.hash_input y }
{}
