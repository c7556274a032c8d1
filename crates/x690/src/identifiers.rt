//! The laws of identifier octets.

ghost use Rattle.std.specs.Prelude.{ℕ, List, ◌≡◌, ◌≤◌, length};
ghost use Rattle.x690.specs.Octets.{IsOctets, BeginsWith};
ghost use Rattle.x690.specs.Identifiers.{Identifier, IsIdentifier};

/// Identifier octets show their own end (X.690 8.1.2). Two of them that begin one input are the same, with the same
/// class, constructed bit and tag number. The same octets follow.
pub fn identifiers_unique()
    ensures unique { (input front other rest tail : List ℕ) (front_id other_id : Identifier)
        → IsIdentifier front front_id → BeginsWith input front rest
        → IsIdentifier other other_id → BeginsWith input other tail
        → (front ≡ other) × (front_id ≡ other_id) × (rest ≡ tail) }
    ensures some { (octets : List ℕ) (id : Identifier)
        → IsIdentifier octets id
        → 1 ≤ length octets }
    ensures octets { (octets : List ℕ) (id : Identifier)
        → IsIdentifier octets id
        → IsOctets octets }
{}
