//! The laws of octet strings in dictionary order.

ghost use Rattle.std.specs.Prelude.{ℕ, List, [], ◌∷◌, ◌++◌, ◌≡◌, ◌<◌, ◌⊎◌, ◌↔◌};
ghost use Rattle.x690.specs.Octets.{BeginsWith, IsBeforeOrSame, IsBeforeOrSamePadded};

/// Any two octet strings have one order in the dictionary (X.690 11.6). One of them comes before the other, or they are
/// the same. Both hold only where they are the same.
pub fn dictionary_order_is_total()
    ensures total { (one other : List ℕ) → IsBeforeOrSame one other ⊎ IsBeforeOrSame other one }
    ensures antisymmetric { (one other : List ℕ) → IsBeforeOrSame one other →
        IsBeforeOrSame other one → one ≡ other }
    ensures transitive { (one other third : List ℕ) → IsBeforeOrSame one other →
        IsBeforeOrSame other third → IsBeforeOrSame one third }
{}

/// At the first difference of two octet strings the lesser octet decides which one comes before the other. A beginning
/// comes before the whole or is the same (X.690 11.6).
pub fn first_difference_decides()
    ensures before { (front one other : List ℕ) (lesser greater : ℕ) → lesser < greater
        → IsBeforeOrSame (front ++ lesser ∷ one) (front ++ greater ∷ other) }
    ensures not_after { (front one other : List ℕ) (lesser greater : ℕ) → lesser < greater
        → IsBeforeOrSame (front ++ greater ∷ other) (front ++ lesser ∷ one) → ⊥ }
    ensures beginning { (front rest : List ℕ) → IsBeforeOrSame front (front ++ rest) }
{}

/// X.690 11.6 compares strings of which the shorter one is padded with zeros behind it. Where neither string begins the
/// other one, or they are the same, that is the order of the dictionary.
///
/// Strings that begin others are another matter: padded, 01 and 01 00 are the same,
/// and in the dictionary 01 comes first.
pub fn padding_changes_no_order()
    ensures { (one other : List ℕ)
        → ((rest : List ℕ) → BeginsWith one other rest → one ≡ other)
        → ((rest : List ℕ) → BeginsWith other one rest → one ≡ other)
        → IsBeforeOrSame one other ↔ IsBeforeOrSamePadded one other }
{}
