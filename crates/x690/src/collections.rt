//! The laws of lists, multisets and sets of values, and of their contents octets.

ghost use Rattle.std.specs.Prelude.{ℕ, List, ◌≡◌, ◌↔◌};
ghost use Rattle.std.specs.List.{AllZip, concat};
ghost use Rattle.std.specs.List.Sorted.{IsPermutation};
ghost use Rattle.x690.specs.Octets.{IsBeforeOrSame, IsBeforeOrSamePadded};
ghost use Rattle.x690.specs.Identifiers.{Identifier};
ghost use Rattle.x690.specs.Ascending.{arranged};
ghost use Rattle.x690.specs.Collections.{Multiset, multiset, HaveSame, ValueSet, value_set, AllDiffer, AreEncodings};
ghost use Rattle.x690.specs.Collections.{IsStrictOf, IsStrictWith, IsListContent, IsMultisetContent, IsSetContent};
ghost use Rattle.x690.specs.Laws.Words.{strict_encodings};

/// Strict encodings of values: a relation between values and octets.
///
/// No code calls it: it is what the laws of contents octets speak of.
pub trait Encodings {
    /// The values.
    ghost Value: { Type 0 };

    /// Their strict encodings.
    ghost Strict: { Value → List ℕ → Type 0 };

    /// A value has one encoding at most, and an encoding one value; no encoding begins another one, and none is empty.
    ghost are: { AreEncodings Self.Strict };
}

/// The strict elements, as encodings of an identifier and contents octets (X.690 10.1).
#[derive(Debug)]
pub struct StrictElements;

impl Encodings for StrictElements {
    ghost Value = { Identifier × List ℕ };

    ghost Strict = { IsStrictOf };

    ghost are = { strict_encodings };
}

/// Two lists are one multiset exactly where they have the same items in some order. They are one set exactly where the
/// same values stand in both. Lists of one set in which no value stands twice have the same items in some order.
pub fn collections_are_lists_up_to_order<V>()
    ensures multisets { (one other : List V)
        → (multiset one ≡ multiset other) ↔ ∥ IsPermutation one other ∥₁ }
    ensures sets { (one other : List V)
        → (value_set one ≡ value_set other) ↔ ∥ HaveSame one other ∥₁ }
    ensures once { (one other : List V) → AllDiffer one → AllDiffer other
        → value_set one ≡ value_set other → ∥ IsPermutation one other ∥₁ }
{}

/// Encodings are compared as X.690 11.6 says, the shorter one padded with zeros, exactly as in the dictionary.
pub fn encodings_have_one_order<E: Encodings>()
    ensures { (value another : E.Value) (one other : List ℕ)
        → E.Strict value one → E.Strict another other
        → IsBeforeOrSame one other ↔ IsBeforeOrSamePadded one other }
{}

/// A list, a multiset and a set have one content at most that is made of strict encodings (X.690 10.1, 11.6).
pub fn collections_have_one_content<E: Encodings>()
    ensures lists { (values : List E.Value) (content other : List ℕ)
        → IsListContent E.Strict values content → IsListContent E.Strict values other
        → content ≡ other }
    ensures multisets { (values : Multiset E.Value) (content other : List ℕ)
        → IsMultisetContent E.Strict values content → IsMultisetContent E.Strict values other
        → content ≡ other }
    ensures sets { (values : ValueSet E.Value) (content other : List ℕ)
        → IsSetContent E.Strict values content → IsSetContent E.Strict values other
        → content ≡ other }
{}

/// And that content is of no other list, multiset or set.
pub fn contents_have_one_collection<E: Encodings>()
    ensures lists { (values others : List E.Value) (content : List ℕ)
        → IsListContent E.Strict values content → IsListContent E.Strict others content
        → values ≡ others }
    ensures multisets { (values others : Multiset E.Value) (content : List ℕ)
        → IsMultisetContent E.Strict values content → IsMultisetContent E.Strict others content
        → values ≡ others }
    ensures sets { (values others : ValueSet E.Value) (content : List ℕ)
        → IsSetContent E.Strict values content → IsSetContent E.Strict others content
        → values ≡ others }
{}

/// Values that each have a strict encoding have contents octets. They are the encodings joined, those of a multiset and
/// of a set in ascending order (X.690 11.6).
pub fn contents_of_encodings<E: Encodings>()
    ensures lists { (values : List E.Value) (strings : List (List ℕ))
        → AllZip E.Strict values strings → IsListContent E.Strict values (concat strings) }
    ensures multisets { (values : List E.Value) (strings : List (List ℕ))
        → AllZip E.Strict values strings
        → IsMultisetContent E.Strict (multiset values) (concat (arranged strings)) }
    ensures sets { (values : List E.Value) (strings : List (List ℕ))
        → AllDiffer values → AllZip E.Strict values strings
        → IsSetContent E.Strict (value_set values) (concat (arranged strings)) }
{}

/// The strict element of these contents octets, under any identifier, is a strict encoding again. So the laws hold of
/// lists of lists, of sets of lists, and of all that is nested so.
pub fn collections_are_encoded<E: Encodings>()
    ensures lists { (id : Identifier) → AreEncodings (IsStrictWith id (IsListContent E.Strict)) }
    ensures multisets { (id : Identifier)
        → AreEncodings (IsStrictWith id (IsMultisetContent E.Strict)) }
    ensures sets { (id : Identifier) → AreEncodings (IsStrictWith id (IsSetContent E.Strict)) }
{}

/// So a set of strict elements has one string of contents octets at most, and no other set has it. These are the laws
/// of all encodings, at strict elements.
pub fn sets_of_strict_elements_have_one_content()
    ensures content { (values : ValueSet (Identifier × List ℕ)) (content other : List ℕ)
        → IsSetContent IsStrictOf values content → IsSetContent IsStrictOf values other
        → content ≡ other }
    ensures set { (values others : ValueSet (Identifier × List ℕ)) (content : List ℕ)
        → IsSetContent IsStrictOf values content → IsSetContent IsStrictOf others content
        → values ≡ others }
{
    collections_have_one_content::<StrictElements>();
    contents_have_one_collection::<StrictElements>();
}
