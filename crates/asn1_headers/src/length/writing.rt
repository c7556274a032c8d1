//! Length octets, as they are written (X.690 8.1.3, 10.1).
ghost use Rattle.std.specs.Prelude.{◌≡◌, ◌≤◌, ℕ, Bool, length, IfOk, IfErr};
ghost use Rattle.x690.specs.Strict.{length_form_octets};
ghost use Rattle.asn1_headers.specs.Length.{form_of};
ghost use Rattle.asn1_headers.specs.Writer.{Wrote, MayRefuse};

use crate::error::SerializeResult;
use crate::length::Length;
use crate::writer::{DerWrite, put_all};
use x690::digits::{length_into, length_octets_count};

/// How many octets say this length.
pub fn length_len(form: Length) -> usize
    ensures count { result ≡ length (length_form_octets (form_of form)) }
    ensures few { result ≤ 9 }
{
    match form {
        Length::Definite(n) => length_octets_count(n),
        Length::Indefinite => 1,
    }
}

/// Appends the octets that say this length, in one piece, and answers their number.
pub fn put_length<W: DerWrite>(form: Length, w: &mut W) -> SerializeResult<usize>
    ensures wrote { Wrote (length_form_octets (form_of form)) (W.state w.old)
        (W.state w.new) result }
    ensures few { IfOk result (λ n. n ≤ 9) }
    ensures failed { (allocates : Bool) (most : ℕ) → IfErr result (MayRefuse allocates most) }
{
    match form {
        Length::Definite(n) => {
            let mut octets = [0; 9];
            let count = length_into(n, &mut octets);
            put_all(w, &octets[..count])
        }
        Length::Indefinite => put_all(w, &[128]),
    }
}
