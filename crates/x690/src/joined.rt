//! The laws of words that are joined, of any grammar whose words show their own end.

ghost use Rattle.std.specs.Prelude.{ℕ, List, [], ◌++◌, ◌≡◌, ◌≢◌, ◌≤◌, length};
ghost use Rattle.x690.specs.Rules.{Rule, der_rule};
ghost use Rattle.x690.specs.Elements.{Parts, IsDefiniteElement, IsDerElement};
ghost use Rattle.x690.specs.Nested.{IsElement};
ghost use Rattle.x690.specs.Joined.{IsPrefixFree, NoPrefix, IsConcatenation, BeginsWithWords};
ghost use Rattle.x690.specs.Laws.Words.{definite_words};

/// A grammar whose words show their own end: a relation between words, which are octets, and their values.
///
/// No code calls it: it is what the laws of joined words speak of.
pub trait Words {
    /// The values.
    ghost Value: { Type 0 };

    /// The words, with their values.
    ghost Word: { List ℕ → Value → Type 0 };

    /// No word is empty, and two words that begin one input are the same and have one value.
    ghost one: { IsPrefixFree Self.Word };
}

/// The elements by DER, as words whose values are their parts.
#[derive(Debug)]
pub struct DerElements;

impl Words for DerElements {
    ghost Value = { Parts };

    ghost Word = { IsDerElement };

    ghost one = { definite_words der_rule };
}

/// Elements are such words, by each rule and of each depth, with their parts as values (X.690 8.1.1).
pub fn elements_are_words()
    ensures definite { (rule : Rule) → IsPrefixFree (IsDefiniteElement rule) }
    ensures nested { (depth : ℕ) → IsPrefixFree (IsElement depth) }
{}

/// Octets split in one way into words, with their values. So do octets behind which others follow, where there are as
/// many words or where no word begins what follows. Else what one splitting has more is joined behind the other one.
pub fn joinings_split_in_one_way<G: Words>()
    ensures whole { (input : List ℕ) (words others : List (List ℕ))
        (values other_values : List G.Value)
        → BeginsWithWords G.Word input words values []
        → BeginsWithWords G.Word input others other_values []
        → (words ≡ others) × (values ≡ other_values) }
    ensures as_many { (input rest tail : List ℕ) (words others : List (List ℕ))
        (values other_values : List G.Value)
        → BeginsWithWords G.Word input words values rest
        → BeginsWithWords G.Word input others other_values tail
        → length words ≡ length others
        → (words ≡ others) × (values ≡ other_values) × (rest ≡ tail) }
    ensures all { (input rest tail : List ℕ) (words others : List (List ℕ))
        (values other_values : List G.Value)
        → BeginsWithWords G.Word input words values rest → NoPrefix G.Word rest
        → BeginsWithWords G.Word input others other_values tail → NoPrefix G.Word tail
        → (words ≡ others) × (values ≡ other_values) × (rest ≡ tail) }
    ensures more { (input rest tail : List ℕ) (words others : List (List ℕ))
        (values other_values : List G.Value)
        → BeginsWithWords G.Word input words values rest
        → BeginsWithWords G.Word input others other_values tail
        → length words ≤ length others
        → (more : List (List ℕ)) × (more_values : List G.Value)
        × (others ≡ words ++ more) × (other_values ≡ values ++ more_values)
        × BeginsWithWords G.Word rest more more_values tail }
{}

/// Joined octets are words one after the other, and nothing behind them. They have one row of values. Where octets are
/// left behind words, and no word begins these, the whole is no joining.
pub fn joined_octets_are_words<G: Words>()
    ensures words { (octets : List ℕ) (values : List G.Value) → IsConcatenation G.Word octets values
        → (words : List (List ℕ)) × BeginsWithWords G.Word octets words values [] }
    ensures joined { (octets : List ℕ) (words : List (List ℕ)) (values : List G.Value)
        → BeginsWithWords G.Word octets words values [] → IsConcatenation G.Word octets values }
    ensures values { (octets : List ℕ) (values other_values : List G.Value)
        → IsConcatenation G.Word octets values → IsConcatenation G.Word octets other_values
        → values ≡ other_values }
    ensures left { (input rest : List ℕ) (words : List (List ℕ)) (values others : List G.Value)
        → BeginsWithWords G.Word input words values rest → rest ≢ [] → NoPrefix G.Word rest
        → IsConcatenation G.Word input others → ⊥ }
{}

/// So octets split in one way into elements by DER, with their parts: the law of all words, called at these.
pub fn der_elements_split_in_one_way()
    ensures { (input : List ℕ) (words others : List (List ℕ)) (parts other_parts : List Parts)
        → BeginsWithWords IsDerElement input words parts []
        → BeginsWithWords IsDerElement input others other_parts []
        → (words ≡ others) × (parts ≡ other_parts) }
{
    joinings_split_in_one_way::<DerElements>();
}
