//! The contents octets of values with no parts are put in front: truth values, no value, numbers and identifiers.
ghost use Rattle.std.specs.Prelude.{ℕ, List, [], ◌∷◌, ◌≡◌, ◌≢◌, false, ◌≤◌, ◌<◌, length, IfSome, IfNone};
ghost use Rattle.x690.specs.Digits.{twos_complement_value};
ghost use Rattle.x690.specs.Octets.{IsOctets};
ghost use Rattle.x690.specs.Integers.{IsIntegerContent, IsShortestInteger};
ghost use Rattle.asn1_schema.specs.declared.schema.Node.{Node};
ghost use Rattle.asn1_schema.specs.declared.schema.Kind.TheVariants as kinds;
ghost use Rattle.asn1_schema.specs.Reading.{IsListed};
ghost use Rattle.asn1_schema.specs.Rules.{IsStrictTruth};
ghost use Rattle.asn1_schema.specs.Writing.{Writes, IsContentOfKind, primitive};

use crate::elements::Head;
use crate::endings::{last_boolean, last_enumerated, last_identifier, last_integer, last_null};
use crate::fault::Fault;
use crate::fronts::put_at;
use crate::numbers::enumerated_item;
use crate::tape::Item;
use asn1_headers::buffer::DerBuffer;
use x690::integers::{has_redundant_ones, has_redundant_zeros};
use x690::shortest::are_shortest_arcs;

/// The octet of a truth value (X.690 11.1).
fn truth_octet(value: bool) -> u8
    ensures { IsStrictTruth (result ∷ []) value }
{
    if value { 255 } else { 0 }
}

/// Puts the contents octets of a truth value in front.
pub(crate) fn put_boolean(tape: &[Item<'_>], at: usize, buf: &mut DerBuffer) -> Result<usize, Fault>
    requires { at ≤ length tape.now }
    ensures { (nodes : List Node) (depth : ℕ) →
        Writes (IsContentOfKind nodes depth kinds.Boolean) tape.now at buf.old buf.new result }
{
    match last_boolean(tape, at) {
        Some(value) => put_at(&[truth_octet(value)], at - 1, buf),
        None => Err(Fault::Refused),
    }
}

/// Puts no octets in front: NULL has none.
pub(crate) fn put_null(tape: &[Item<'_>], at: usize, buf: &mut DerBuffer) -> Result<usize, Fault>
    requires { at ≤ length tape.now }
    ensures { (nodes : List Node) (depth : ℕ) →
        Writes (IsContentOfKind nodes depth kinds.Null) tape.now at buf.old buf.new result }
{
    match last_null(tape, at) {
        Some(()) => put_at(&[], at - 1, buf),
        None => Err(Fault::Refused),
    }
}

/// The octets behind a first one that says nothing of the integer (X.690 8.3.2).
fn behind_redundant(octets: &[u8]) -> Option<&[u8]>
    ensures some { IfSome result (λ others. (others.now ≢ []) ×
        (twos_complement_value others.now ≡ twos_complement_value octets.now) ×
        (length others.now < length octets.now)) }
    ensures none { octets.now ≢ [] → IfNone result (IsShortestInteger octets.now) }
    ensures octets { IsOctets octets.now }
{
    if !has_redundant_zeros(octets) && !has_redundant_ones(octets) {
        return None;
    }
    match octets.split_first() {
        Some((_, others)) => Some(others),
        None => None,
    }
}

/// The shortest contents octets of the integer that octets say. No octets say 0.
fn shortest_integer(octets: &[u8]) -> &[u8]
    ensures { IsIntegerContent (twos_complement_value octets.now) result.now }
{
    if octets.is_empty() {
        return &[0];
    }
    let mut rest = octets;
    while let Some(others) = behind_redundant(rest) {
        rest = others;
    }
    rest
}

/// Puts the contents octets of an integer in front.
pub(crate) fn put_integer(tape: &[Item<'_>], at: usize, buf: &mut DerBuffer) -> Result<usize, Fault>
    requires { at ≤ length tape.now }
    ensures { (nodes : List Node) (depth : ℕ) →
        Writes (IsContentOfKind nodes depth kinds.Integer) tape.now at buf.old buf.new result }
{
    match last_integer(tape, at) {
        Some(octets) => put_at(shortest_integer(octets), at - 1, buf),
        None => Err(Fault::Refused),
    }
}

/// The head of a primitive element.
fn primitive_head() -> Head
    ensures { result.constructed ≡ false }
{
    Head {
        class: 0,
        constructed: false,
        indefinite: false,
        number: 0,
        start: 0,
        inner: 0,
    }
}

/// Puts the contents octets of a number in front that is listed.
pub(crate) fn put_enumerated(
    numbers: &[i128],
    extensible: bool,
    tape: &[Item<'_>],
    at: usize,
    buf: &mut DerBuffer,
) -> Result<usize, Fault>
    requires { at ≤ length tape.now }
    ensures { Writes (λ content. IsListed numbers.now extensible (primitive content)) tape.now at
        buf.old buf.new result }
{
    match last_enumerated(tape, at) {
        Some(octets) => {
            let content = shortest_integer(octets);
            match enumerated_item(numbers, extensible, primitive_head(), content) {
                Ok(_) => put_at(content, at - 1, buf),
                Err(e) => Err(e),
            }
        }
        None => Err(Fault::Refused),
    }
}

/// Puts the contents octets of an identifier in front, which is relative or is not.
pub(crate) fn put_identifier(
    relative: bool,
    tape: &[Item<'_>],
    at: usize,
    buf: &mut DerBuffer,
) -> Result<usize, Fault>
    requires { at ≤ length tape.now }
    ensures { (nodes : List Node) (depth : ℕ) →
        Writes (IsContentOfKind nodes depth (kinds.Identifier relative)) tape.now at buf.old buf.new
        result }
{
    match last_identifier(relative, tape, at) {
        Some(content) => {
            if !are_shortest_arcs(content) {
                return Err(Fault::Refused);
            }
            put_at(content, at - 1, buf)
        }
        None => Err(Fault::Refused),
    }
}
