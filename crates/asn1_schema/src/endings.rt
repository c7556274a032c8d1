//! The items that stand before a place of a tape.
ghost use Rattle.std.specs.Prelude.{ℕ, Bool, List, [], ◌∷◌, ◌++◌, ◌≡◌, ◌≤◌, ◌<◌, ◌-◌, ◌*◌, length, take, IfSome, IfNone};
ghost use Rattle.std.specs.Borrow.{Bor};
ghost use Rattle.x690.specs.Digits.{twos_complement_value};
ghost use Rattle.x690.specs.Identifiers.{Identifier};
ghost use Rattle.asn1_schema.specs.Grammar.{bits_in};
ghost use Rattle.asn1_schema.specs.Values.{boolean, null, integer, enumerated, bits, identifier, any, octets, text, time};
ghost use Rattle.asn1_schema.specs.Tape.{mark, leaf_mark, begin_mark, end_mark, pieces_mark};
ghost use Rattle.asn1_schema.specs.Tape.{pieces_end_mark, absent_mark, arm_mark, arm_end_mark, string};
ghost use Rattle.asn1_schema.specs.Writing.{before, EndsBy, sort_of, id_with};

use crate::schema::{TextKind, TimeKind};
use crate::tape::Item;

/// What a string of octets is of.
#[derive(Debug, Clone, Copy, PartialEq, Eq)]
pub enum StringSort {
    /// Octets.
    Octets,
    /// Characters.
    Text(TextKind),
    /// A time.
    Time(TimeKind),
}

/// The item before a place.
fn last_item<'t>(tape: &[Item<'t>], at: usize) -> Option<Item<'t>>
    requires { at ≤ length tape.now }
    ensures none { IfNone result (at ≡ 0) }
    ensures some { IfSome result (λ item. 0 < at) }
    ensures item { IfSome result
        (λ item. before tape.now at ≡ before tape.now (at - 1) ++ mark item ∷ []) }
{
    if at == 0 {
        return None;
    }
    Some(tape[at - 1])
}

/// The truth value before a place.
pub(crate) fn last_boolean(tape: &[Item<'_>], at: usize) -> Option<bool>
    requires { at ≤ length tape.now }
    ensures { EndsBy (λ b. b) (λ b. leaf_mark (boolean b)) tape.now at result }
{
    match last_item(tape, at) {
        None => None,
        Some(item) => match item {
            Item::Boolean(value) => Some(value),
            _ => None,
        },
    }
}

/// No value before a place.
pub(crate) fn last_null(tape: &[Item<'_>], at: usize) -> Option<()>
    requires { at ≤ length tape.now }
    ensures { EndsBy (λ u. u) (λ u. leaf_mark null) tape.now at result }
{
    match last_item(tape, at) {
        None => None,
        Some(item) => match item {
            Item::Null => Some(()),
            _ => None,
        },
    }
}

/// The end of a row before a place, and how many items it holds.
pub(crate) fn last_end(tape: &[Item<'_>], at: usize) -> Option<usize>
    requires { at ≤ length tape.now }
    ensures { EndsBy (λ n. n) (λ n. end_mark n) tape.now at result }
{
    match last_item(tape, at) {
        None => None,
        Some(item) => match item {
            Item::End(n) => Some(n),
            _ => None,
        },
    }
}

/// The beginning of a row before a place.
pub(crate) fn last_begin(tape: &[Item<'_>], at: usize) -> Option<usize>
    requires { at ≤ length tape.now }
    ensures { EndsBy (λ n. n) (λ n. begin_mark n) tape.now at result }
{
    match last_item(tape, at) {
        None => None,
        Some(item) => match item {
            Item::Begin(n) => Some(n),
            _ => None,
        },
    }
}

/// The end of the pieces of a string before a place.
pub(crate) fn last_pieces(tape: &[Item<'_>], at: usize) -> Option<usize>
    requires { at ≤ length tape.now }
    ensures { EndsBy (λ n. n) (λ n. pieces_end_mark n) tape.now at result }
{
    match last_item(tape, at) {
        None => None,
        Some(item) => match item {
            Item::PiecesEnd(n) => Some(n),
            _ => None,
        },
    }
}

/// The beginning of the pieces of a string before a place.
pub(crate) fn last_pieces_begin(tape: &[Item<'_>], at: usize) -> Option<usize>
    requires { at ≤ length tape.now }
    ensures { EndsBy (λ n. n) (λ n. pieces_mark n) tape.now at result }
{
    match last_item(tape, at) {
        None => None,
        Some(item) => match item {
            Item::Pieces(n) => Some(n),
            _ => None,
        },
    }
}

/// What is left out before a place.
pub(crate) fn last_absent(tape: &[Item<'_>], at: usize) -> Option<()>
    requires { at ≤ length tape.now }
    ensures { EndsBy (λ u. u) (λ u. absent_mark) tape.now at result }
{
    match last_item(tape, at) {
        None => None,
        Some(item) => match item {
            Item::Absent => Some(()),
            _ => None,
        },
    }
}

/// The end of a value of an arm before a place.
pub(crate) fn last_arm(tape: &[Item<'_>], at: usize) -> Option<usize>
    requires { at ≤ length tape.now }
    ensures { EndsBy (λ n. n) (λ n. arm_end_mark n) tape.now at result }
{
    match last_item(tape, at) {
        None => None,
        Some(item) => match item {
            Item::ArmEnd(k) => Some(k),
            _ => None,
        },
    }
}

/// The beginning of a value of an arm before a place.
pub(crate) fn last_arm_begin(tape: &[Item<'_>], at: usize) -> Option<usize>
    requires { at ≤ length tape.now }
    ensures { EndsBy (λ n. n) (λ n. arm_mark n) tape.now at result }
{
    match last_item(tape, at) {
        None => None,
        Some(item) => match item {
            Item::Arm(k) => Some(k),
            _ => None,
        },
    }
}

/// The contents octets of an integer before a place.
pub(crate) fn last_integer<'t>(tape: &[Item<'t>], at: usize) -> Option<&'t [u8]>
    requires { at ≤ length tape.now }
    ensures { EndsBy (λ (r : Bor (List ℕ)). twos_complement_value r.now)
        (λ n. leaf_mark (integer n)) tape.now at result }
{
    match last_item(tape, at) {
        None => None,
        Some(item) => match item {
            Item::Integer(octets) => Some(octets),
            _ => None,
        },
    }
}

/// The contents octets of a number that is listed before a place.
pub(crate) fn last_enumerated<'t>(tape: &[Item<'t>], at: usize) -> Option<&'t [u8]>
    requires { at ≤ length tape.now }
    ensures { EndsBy (λ (r : Bor (List ℕ)). twos_complement_value r.now)
        (λ n. leaf_mark (enumerated n)) tape.now at result }
{
    match last_item(tape, at) {
        None => None,
        Some(item) => match item {
            Item::Enumerated(octets) => Some(octets),
            _ => None,
        },
    }
}

/// Bits before a place: so many are unused, of these octets.
pub(crate) fn last_bits<'t>(tape: &[Item<'t>], at: usize) -> Option<(u8, &'t [u8])>
    requires { at ≤ length tape.now }
    ensures { EndsBy (λ x. take (8 * length x.1.now - x.0) (bits_in x.1.now))
        (λ bs. leaf_mark (bits bs)) tape.now at result }
{
    match last_item(tape, at) {
        None => None,
        Some(item) => match item {
            Item::Bits(unused, octets) => Some((unused, octets)),
            _ => None,
        },
    }
}

/// The contents octets of an identifier before a place, which is relative or is not.
pub(crate) fn last_identifier<'t>(relative: bool, tape: &[Item<'t>], at: usize) -> Option<&'t [u8]>
    requires { at ≤ length tape.now }
    ensures { EndsBy (λ (r : Bor (List ℕ)). r.now) (λ o. leaf_mark (identifier relative o))
        tape.now at result }
{
    match last_item(tape, at) {
        None => None,
        Some(item) => match item {
            Item::Identifier(other, octets) => {
                if other == relative {
                    return Some(octets);
                }
                None
            }
            _ => None,
        },
    }
}

/// An element of any type before a place: the class, whether it is constructed, the number, and its contents octets.
pub(crate) fn last_any<'t>(tape: &[Item<'t>], at: usize) -> Option<(u8, bool, u32, &'t [u8])>
    requires { at ≤ length tape.now }
    ensures { EndsBy
        (λ x. (id_with x.0 x.1 x.2, x.3.now))
        (λ (y : Identifier × List ℕ). leaf_mark (any y.0 y.1)) tape.now at result }
{
    match last_item(tape, at) {
        None => None,
        Some(item) => match item {
            Item::Any(class, constructed, number, octets) => {
                Some((class, constructed, number, octets))
            }
            _ => None,
        },
    }
}

/// The octets before a place of a string, or a piece of one, of a sort.
pub(crate) fn last_string<'t>(sort: StringSort, tape: &[Item<'t>], at: usize) -> Option<&'t [u8]>
    requires { at ≤ length tape.now }
    ensures { EndsBy (λ (r : Bor (List ℕ)). r.now) (λ o. leaf_mark (string (sort_of sort) o))
        tape.now at result }
{
    match sort {
        StringSort::Octets => last_octets(tape, at),
        StringSort::Text(kind) => last_text(kind, tape, at),
        StringSort::Time(kind) => last_time(kind, tape, at),
    }
}

/// The octets before a place.
fn last_octets<'t>(tape: &[Item<'t>], at: usize) -> Option<&'t [u8]>
    requires { at ≤ length tape.now }
    ensures { EndsBy (λ (r : Bor (List ℕ)). r.now) (λ o. leaf_mark (octets o)) tape.now at
        result }
{
    match last_item(tape, at) {
        None => None,
        Some(item) => match item {
            Item::Octets(octets) => Some(octets),
            _ => None,
        },
    }
}

/// The characters of a type before a place.
fn last_text<'t>(kind: TextKind, tape: &[Item<'t>], at: usize) -> Option<&'t [u8]>
    requires { at ≤ length tape.now }
    ensures { EndsBy (λ (r : Bor (List ℕ)). r.now) (λ o. leaf_mark (text kind o)) tape.now at
        result }
{
    match last_item(tape, at) {
        None => None,
        Some(item) => match item {
            Item::Text(other, octets) => {
                if other == kind {
                    return Some(octets);
                }
                None
            }
            _ => None,
        },
    }
}

/// The text of a time of a type before a place.
fn last_time<'t>(kind: TimeKind, tape: &[Item<'t>], at: usize) -> Option<&'t [u8]>
    requires { at ≤ length tape.now }
    ensures { EndsBy (λ (r : Bor (List ℕ)). r.now) (λ o. leaf_mark (time kind o)) tape.now at
        result }
{
    match last_item(tape, at) {
        None => None,
        Some(item) => match item {
            Item::Time(other, octets) => {
                if other == kind {
                    return Some(octets);
                }
                None
            }
            _ => None,
        },
    }
}
