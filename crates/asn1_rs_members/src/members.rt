//! A generic caller of lawful members of sets.
ghost use Rattle.std.specs.Prelude.{◌≡◌, ◌↔◌, IsTrue};

use asn1_rs::laws::{Grammar, LawfulMember};

/// Lists of numbers, which may be members of a set.
pub type Numbers = Vec<u8>;

/// Whether two items have one value, and so one strict encoding.
pub fn are_same<T: LawfulMember>(one: &T, other: &T) -> bool
    ensures { IsTrue result ↔ (T.grammar.value one.now ≡ T.grammar.value other.now) }
{
    one == other
}

/// Whether two lists of numbers are the same.
pub fn are_same_numbers(one: &Numbers, other: &Numbers) -> bool
    ensures { IsTrue result ↔ (⟦<Numbers as Grammar>⟧.grammar.value one.now
        ≡ ⟦<Numbers as Grammar>⟧.grammar.value other.now) }
{
    are_same(one, other)
}
