//! Whether octets are the one strict encoding (X.690 10, 11) of a value of a type of a table.
ghost use Rattle.std.specs.Prelude.{ℕ, ◌≡◌, ◌≢◌, true, OnOk, OnErr, IsErrOf, IfErr};
ghost use Rattle.asn1_schema.specs.declared.decode.DecodeError.TheVariants as decode_errors;
ghost use Rattle.asn1_schema.specs.declared.strictness.NotStrict.TheVariants as errors;
ghost use Rattle.asn1_schema.specs.Decoding.{DecodesWhole};
ghost use Rattle.asn1_schema.specs.Differing.{FirstDiffer, IsNotStrict, IsDerOf, HasOther, HasNoEncoding};
ghost use Rattle.asn1_schema.specs.Grammar.{Word};
ghost use Rattle.asn1_schema.specs.Rules.{der, strict};
ghost use Rattle.asn1_schema.specs.Sound.{is_sound};
ghost use Rattle.asn1_schema.specs.Values.{Value};

use crate::decode::{DecodeError, decode_der_whole};
use crate::encode::{EncodeError, encode_der_vec};
use crate::refusal::Refusal;
use crate::schema::Node;
use crate::tape::Item;
use std::alloc::Global;

/// Why octets are not told to be a strict encoding.
#[derive(Debug, Clone, Copy, PartialEq, Eq, thiserror::Error)]
pub enum NotStrict {
    /// Memory ran out.
    #[error("out of memory")]
    OutOfMemory,
    /// They are no value of the type by DER: this is what `decode_der_whole` answers.
    #[error("not DER: {0}")]
    NotDer(DecodeError),
    /// They are one by DER, whose strict encoding first differs from them at this octet.
    #[error("the strict encoding differs at octet {0}")]
    Differs(usize),
    /// They are one by DER that has no strict encoding: a set-of does not ascend, or bits with names end in zeros.
    #[error("the value has no strict encoding")]
    NoEncoding,
}

/// The answer where octets are no value by DER.
fn not_der(error: DecodeError) -> NotStrict
    ensures memory { error ≡ decode_errors.OutOfMemory → result ≡ errors.OutOfMemory }
    ensures other { error ≢ decode_errors.OutOfMemory → result ≡ errors.NotDer error }
{
    match error {
        DecodeError::OutOfMemory => NotStrict::OutOfMemory,
        _ => NotStrict::NotDer(error),
    }
}

/// The first place where octets differ.
fn first_difference(left: &[u8], right: &[u8]) -> Option<usize>
    ensures { FirstDiffer left.now right.now result }
{
    let common = left.len().min(right.len());
    for place in 0..common {
        if left[place] != right[place] {
            return Some(place);
        }
    }
    if left.len() == right.len() {
        None
    } else {
        Some(common)
    }
}

/// Compares octets with the strict encoding of the value on a tape.
fn compare(
    alloc: Global,
    table: &[Node],
    of: usize,
    depth: usize,
    octets: &[u8],
    tape: &[Item<'_>],
) -> Result<(), NotStrict>
    requires sound { is_sound table.now ≡ true }
    requires read { DecodesWhole (Word der table.now depth of) octets.now tape.now }
    ensures strict { OnOk result (DecodesWhole (Word strict table.now depth of) octets.now tape.now) }
    ensures not_strict { IfErr result (λ e. e ≢ errors.OutOfMemory →
        IsNotStrict table.now depth of octets.now) }
    ensures differs { (n : ℕ) → IsErrOf result (errors.Differs n) →
        IsDerOf table.now depth of octets.now tape.now (HasOther table.now depth of octets.now n) }
    ensures none { IsErrOf result errors.NoEncoding →
        IsDerOf table.now depth of octets.now tape.now (HasNoEncoding table.now depth of) }
    ensures is_der { (e : DecodeError) → IsErrOf result (errors.NotDer e) → ⊥ }
{
    match encode_der_vec(alloc, table, of, depth, tape) {
        Ok(encoding) => match first_difference(octets, &encoding) {
            None => Ok(()),
            Some(place) => Err(NotStrict::Differs(place)),
        },
        Err(EncodeError::OutOfMemory) => Err(NotStrict::OutOfMemory),
        Err(EncodeError::Refused) => Err(NotStrict::NoEncoding),
    }
}

/// Reads octets that are the one strict encoding of a value of a type of a sound table, and nothing more.
///
/// It reads as `decode_der_whole` does, writes the value as `encode_der_vec` does, and compares. After `Differs` and
/// `NoEncoding` the tape holds the value by DER, and after each other `Err` it is empty.
pub fn decode_strict<'a>(
    alloc: Global,
    table: &'a [Node],
    of: usize,
    depth: usize,
    octets: &'a [u8],
    tape: &mut Vec<Item<'a>>,
    refusal: &mut Refusal,
) -> Result<(), NotStrict>
    requires { is_sound table.now ≡ true }
    ensures strict { OnOk result (DecodesWhole (Word strict table.now depth of) octets.now tape.new.items) }
    ensures not_strict { IfErr result (λ e. e ≢ errors.OutOfMemory →
        IsNotStrict table.now depth of octets.now) }
    ensures differs { (n : ℕ) → IsErrOf result (errors.Differs n) →
        IsDerOf table.now depth of octets.now tape.new.items (HasOther table.now depth of octets.now n) }
    ensures none { IsErrOf result errors.NoEncoding →
        IsDerOf table.now depth of octets.now tape.new.items (HasNoEncoding table.now depth of) }
    ensures not_der { (e : DecodeError) → IsErrOf result (errors.NotDer e) →
        (v : Value) → Word der table.now depth of octets.now v → ⊥ }
{
    match decode_der_whole(table, of, depth, octets, tape, refusal) {
        Ok(()) => compare(alloc, table, of, depth, octets, tape),
        Err(error) => Err(not_der(error)),
    }
}
