//! The laws of length octets.

ghost use Rattle.std.specs.Prelude.{ℕ, List, ◌≡◌, ◌≤◌, length};
ghost use Rattle.x690.specs.Octets.{IsOctets, BeginsWith};
ghost use Rattle.x690.specs.Lengths.{LengthForm, IsLengthForm};

/// Length octets show their own end (X.690 8.1.3). Two of them that begin one input are the same. They say the same
/// length or are both of the indefinite form, and the same octets follow.
pub fn lengths_unique()
    ensures unique { (input front other rest tail : List ℕ) (front_form other_form : LengthForm)
        → IsLengthForm front front_form → BeginsWith input front rest
        → IsLengthForm other other_form → BeginsWith input other tail
        → (front ≡ other) × (front_form ≡ other_form) × (rest ≡ tail) }
    ensures some { (octets : List ℕ) (form : LengthForm)
        → IsLengthForm octets form
        → 1 ≤ length octets }
    ensures octets { (octets : List ℕ) (form : LengthForm)
        → IsLengthForm octets form
        → IsOctets octets }
{}
