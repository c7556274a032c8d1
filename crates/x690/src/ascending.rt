//! Strings in ascending order, and its laws (X.690 11.6).

ghost use Rattle.std.specs.Prelude.{ℕ, List, [], ◌∷◌, ◌++◌, ◌≡◌, ◌↔◌, map};
ghost use Rattle.std.specs.List.Sorted.{IsPermutation};
ghost use Rattle.x690.specs.Octets.{IsBeforeOrSame};
ghost use Rattle.x690.specs.Ascending.{Ascending, arranged};

/// Puts the strings into ascending order (X.690 11.6): dictionary order, each string as often as it was there.
pub fn arrange(strings: &mut [&[u8]])
    ensures { map (λ s. s.now) strings.new ≡ arranged (map (λ s. s.now) strings.old) }
{
    strings.sort_unstable();
}

/// Strings ascend where each one comes before the next in dictionary order or is the same (X.690 11.6). Then it comes
/// before each later one or is the same.
pub fn ascending_strings_are_in_order()
    ensures none { Ascending [] }
    ensures one { (string : List ℕ) → Ascending (string ∷ []) }
    ensures next { (string next : List ℕ) (rest : List (List ℕ))
        → Ascending (string ∷ next ∷ rest) ↔ (IsBeforeOrSame string next × Ascending (next ∷ rest)) }
    ensures later { (front between rest : List (List ℕ)) (string later : List ℕ)
        → Ascending (front ++ string ∷ between ++ later ∷ rest) → IsBeforeOrSame string later }
{}

/// Strings have exactly one ascending arrangement (X.690 11.6), whatever their order was before.
pub fn strings_have_one_ascending_arrangement()
    ensures exists { (strings : List (List ℕ))
        → IsPermutation strings (arranged strings) × Ascending (arranged strings) }
    ensures no_other { (strings other : List (List ℕ)) → IsPermutation strings other
        → Ascending other → other ≡ arranged strings }
    ensures same { (strings other : List (List ℕ)) → IsPermutation strings other
        → Ascending strings → Ascending other → strings ≡ other }
{}
