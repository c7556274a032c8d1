//! Values of the types of a table, read by DER and by BER.
ghost use Rattle.std.specs.Prelude.{ℕ, ◌≡◌, ◌≢◌, Some, None, true, IfOk, OnOk, IsErrOf};
ghost use Rattle.asn1_schema.specs.declared.decode.DecodeError.TheVariants as errors;
ghost use Rattle.asn1_schema.specs.Grammar.{Word};
ghost use Rattle.asn1_schema.specs.Rules.{der, ber};
ghost use Rattle.asn1_schema.specs.Sound.{is_sound};
ghost use Rattle.asn1_schema.specs.Reading.{rules_of, IsWordOf};
ghost use Rattle.asn1_schema.specs.Decoding.{Decodes, DecodesWhole, Fails, IsFollowed};
ghost use Rattle.asn1_schema.specs.Decoding.{IsTruncatedByCoding, TellsMissing};
ghost use Rattle.asn1_schema.specs.declared.fault.Fault.TheVariants as faults;
ghost use Rattle.x690.specs.Identifiers.{IsTruncatedIdentifier};
ghost use Rattle.x690.specs.Nested.{EndsInIdentifier};

use crate::coding::Coding;
use crate::elements::is_at_end;
use crate::fault::Fault;
use crate::missing::missing_octets;
use crate::reading::read_front;
use crate::refusal::{Reason, Refusal};
use crate::schema::Node;
use crate::tape::Item;

/// Why octets are not decoded. Where and why they are refused stands in the [`Refusal`] beside it.
#[derive(Debug, Clone, Copy, PartialEq, Eq, thiserror::Error)]
pub enum DecodeError {
    /// Memory ran out: no other items were put on the tape.
    #[error("out of memory")]
    OutOfMemory,
    /// No word of the type begins the octets.
    #[error("no value of the type begins the octets")]
    Refused,
    /// No word of the type begins the octets whose elements nest to the depth: they nest deeper.
    #[error("elements nest too deep")]
    TooDeep,
    /// The element at the front is cut: so many octets are missing at least.
    #[error("{0} octets are missing")]
    Incomplete(usize),
    /// A word of the type begins the octets, and others follow.
    #[error("octets follow the value")]
    TrailingOctets,
}

/// The answer where reading stopped: a refusal is final, or the element at the front is cut.
fn error_of(coding: Coding, octets: &[u8], fault: Fault) -> DecodeError
    ensures refused { result ≡ errors.Refused → (fault ≡ faults.Refused)
        × TellsMissing (rules_of coding).ElementOf (IsTruncatedByCoding coding octets.now)
        octets.now None }
    ensures too_deep { result ≡ errors.TooDeep → (fault ≡ faults.TooDeep)
        × TellsMissing (rules_of coding).ElementOf (IsTruncatedByCoding coding octets.now)
        octets.now None }
    ensures truncated { (n : ℕ) → result ≡ errors.Incomplete n → (fault ≢ faults.Memory)
        × TellsMissing (rules_of coding).ElementOf (IsTruncatedByCoding coding octets.now)
        octets.now (Some n) }
    ensures no_other { result ≡ errors.TrailingOctets → ⊥ }
{
    match fault {
        Fault::Memory => DecodeError::OutOfMemory,
        Fault::Refused => match missing_octets(coding, octets) {
            Some(n) => DecodeError::Incomplete(n),
            None => DecodeError::Refused,
        },
        Fault::TooDeep => match missing_octets(coding, octets) {
            Some(n) => DecodeError::Incomplete(n),
            None => DecodeError::TooDeep,
        },
    }
}

/// Reads a value of a type at the front of the octets by these rules, as [`decode_der`] and [`decode_ber`] do.
pub fn decode<'a>(
    coding: Coding,
    table: &'a [Node],
    of: usize,
    depth: usize,
    octets: &'a [u8],
    tape: &mut Vec<Item<'a>>,
    refusal: &mut Refusal,
) -> Result<&'a [u8], DecodeError>
    requires { is_sound table.now ≡ true }
    ensures ok { IfOk result (λ rest.
        Decodes (IsWordOf coding table.now depth of) octets.now rest.now tape.new.items) }
    ensures fails { Fails table.now (λ d. IsWordOf coding table.now d of) depth
        (IsTruncatedByCoding coding octets.now)
        octets.now tape.new.items refusal.new result }
    ensures never_trailing { IsErrOf result errors.TrailingOctets → ⊥ }
{
    tape.clear();
    match read_front(coding, table, depth, of, octets, 0, tape, refusal) {
        Ok(rest) => {
            *refusal = Refusal::none();
            Ok(rest)
        }
        Err(fault) => {
            tape.clear();
            refusal.settle(fault, table.len(), octets.len());
            Err(error_of(coding, octets, fault))
        }
    }
}

/// Reads octets that are one value whole by these rules, as [`decode_der_whole`] and [`decode_ber_whole`] do.
pub fn decode_whole<'a>(
    coding: Coding,
    table: &'a [Node],
    of: usize,
    depth: usize,
    octets: &'a [u8],
    tape: &mut Vec<Item<'a>>,
    refusal: &mut Refusal,
) -> Result<(), DecodeError>
    requires { is_sound table.now ≡ true }
    ensures ok { OnOk result (DecodesWhole (IsWordOf coding table.now depth of) octets.now
        tape.new.items) }
    ensures fails { Fails table.now (λ d. IsWordOf coding table.now d of) depth
        (IsTruncatedByCoding coding octets.now)
        octets.now tape.new.items refusal.new result }
    ensures trailing { IsErrOf result errors.TrailingOctets →
        IsFollowed (IsWordOf coding table.now depth of) octets.now }
{
    match decode(coding, table, of, depth, octets, tape, refusal) {
        Ok(rest) => {
            if is_at_end(rest) {
                return Ok(());
            }
            tape.clear();
            refusal.tell(octets.len() - rest.len(), of, Reason::TrailingOctets);
            refusal.keep_within(octets.len());
            Err(DecodeError::TrailingOctets)
        }
        Err(error) => Err(error),
    }
}

/// Reads a value of a type of a sound table at the front of the octets by DER, and gives back the octets that follow.
///
/// `of` is the place of the type in the table. Elements may nest `depth` deep, and one that has no others within
/// has depth 1. The tape is emptied first, and holds the value of the one word that begins the octets.
///
/// `Refused` says that no word begins the octets to any depth, whatever follows, but where they end within identifier
/// octets. `TooDeep` says so of this depth alone. `Incomplete(n)` says that none does with fewer than `n` octets more.
/// So a word that begins the octets is answered with `Ok`, `TooDeep` or `OutOfMemory`. After `Refused` the refusal has a
/// reason that its type and its field may have. A set-of may be in any order, and a default may be written: the strict
/// encodings (X.690 11.5, 11.6) are asked for apart.
pub fn decode_der<'a>(
    table: &'a [Node],
    of: usize,
    depth: usize,
    octets: &'a [u8],
    tape: &mut Vec<Item<'a>>,
    refusal: &mut Refusal,
) -> Result<&'a [u8], DecodeError>
    requires { is_sound table.now ≡ true }
    ensures ok { IfOk result (λ rest. Decodes (Word der table.now depth of) octets.now rest.now
        tape.new.items) }
    ensures fails { Fails table.now (λ d. Word der table.now d of) depth (IsTruncatedIdentifier octets.now)
        octets.now tape.new.items refusal.new result }
    ensures never_trailing { IsErrOf result errors.TrailingOctets → ⊥ }
{
    decode(Coding::Der, table, of, depth, octets, tape, refusal)
}

/// Reads a value of a type of a sound table at the front of the octets by BER, as [`decode_der`] does by DER.
///
/// Elements of indefinite length may nest `max` deep.
pub fn decode_ber<'a>(
    max: usize,
    table: &'a [Node],
    of: usize,
    depth: usize,
    octets: &'a [u8],
    tape: &mut Vec<Item<'a>>,
    refusal: &mut Refusal,
) -> Result<&'a [u8], DecodeError>
    requires { is_sound table.now ≡ true }
    ensures ok { IfOk result (λ rest.
        Decodes (Word (ber max) table.now depth of) octets.now rest.now tape.new.items) }
    ensures fails { Fails table.now (λ d. Word (ber max) table.now d of) depth
        (EndsInIdentifier max octets.now) octets.now tape.new.items refusal.new result }
    ensures never_trailing { IsErrOf result errors.TrailingOctets → ⊥ }
{
    decode(Coding::Ber(max), table, of, depth, octets, tape, refusal)
}

/// Reads octets that are one value whole by DER. `TrailingOctets` says that a word begins them and others follow.
///
/// The other refusals are those of [`decode_der`].
pub fn decode_der_whole<'a>(
    table: &'a [Node],
    of: usize,
    depth: usize,
    octets: &'a [u8],
    tape: &mut Vec<Item<'a>>,
    refusal: &mut Refusal,
) -> Result<(), DecodeError>
    requires { is_sound table.now ≡ true }
    ensures ok { OnOk result (DecodesWhole (Word der table.now depth of) octets.now tape.new.items) }
    ensures fails { Fails table.now (λ d. Word der table.now d of) depth (IsTruncatedIdentifier octets.now)
        octets.now tape.new.items refusal.new result }
    ensures trailing { IsErrOf result errors.TrailingOctets →
        IsFollowed (Word der table.now depth of) octets.now }
{
    decode_whole(Coding::Der, table, of, depth, octets, tape, refusal)
}

/// Reads octets that are one value whole by BER, as [`decode_der_whole`] does by DER.
pub fn decode_ber_whole<'a>(
    max: usize,
    table: &'a [Node],
    of: usize,
    depth: usize,
    octets: &'a [u8],
    tape: &mut Vec<Item<'a>>,
    refusal: &mut Refusal,
) -> Result<(), DecodeError>
    requires { is_sound table.now ≡ true }
    ensures ok { OnOk result (DecodesWhole (Word (ber max) table.now depth of) octets.now
        tape.new.items) }
    ensures fails { Fails table.now (λ d. Word (ber max) table.now d of) depth
        (EndsInIdentifier max octets.now) octets.now tape.new.items refusal.new result }
    ensures trailing { IsErrOf result errors.TrailingOctets →
        IsFollowed (Word (ber max) table.now depth of) octets.now }
{
    decode_whole(Coding::Ber(max), table, of, depth, octets, tape, refusal)
}
