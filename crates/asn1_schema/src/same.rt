//! Whether two tapes are of one value. How strings by BER are cut does not count.
ghost use Rattle.std.specs.Prelude.{ℕ, ℤ, Bool, List, [], ◌∷◌, ◌≡◌, ◌<◌, ◌↔◌, ◌++◌, ◌+◌, IfSome, IfNone, IsTrue, length, drop, take};
ghost use Rattle.x690.specs.Digits.{twos_complement_value};
ghost use Rattle.x690.specs.Identifiers.{Identifier};
ghost use Rattle.asn1_schema.specs.Values.{integer, enumerated, identifier, any};
ghost use Rattle.asn1_schema.specs.Tape.{Kept, mark, marks, tape_of, value_of};
ghost use Rattle.asn1_schema.specs.Same.{joined_leaf, kind_of, sign_of, signs_from};

use crate::alike::{same_bits, same_number, same_octets};
use crate::bitwise::Bitwise;
use crate::joined::Joined;
use crate::schema::{TextKind, TimeKind};
use crate::tape::Item;

/// A leaf, a bracket, or a field that is left out.
#[derive(Debug, Clone, Copy, PartialEq, Eq)]
enum SignKind {
    /// A leaf.
    Said,
    /// A row begins.
    Open,
    /// It ends.
    Close,
    /// A field is left out.
    Gone,
    /// A value of this arm begins.
    Arm(usize),
    /// It ends.
    ArmEnd(usize),
}

/// The kind of a leaf.
#[derive(Debug, Clone, Copy, PartialEq, Eq)]
enum LeafKind {
    /// This truth value.
    Boolean(bool),
    /// No value.
    Null,
    /// An integer.
    Integer,
    /// A number that is listed.
    Enumerated,
    /// Bits.
    Bits,
    /// Octets.
    Octets,
    /// An identifier, relative or not.
    Identifier(bool),
    /// Characters.
    Text(TextKind),
    /// A time.
    Time(TimeKind),
    /// An element with this identifier.
    Any(u8, bool, u32),
}

/// What stands at the front of a tape: of a leaf its one item, or its pieces.
#[derive(Debug, Clone, Copy)]
struct Sign<'t, 'a> {
    /// What it is.
    kind: SignKind,
    /// The items of a leaf.
    pieces: &'t [Item<'a>],
}

/// What is no leaf.
fn bracket<'t, 'a>(kind: SignKind) -> Sign<'t, 'a>
    ensures kind { result.kind ≡ kind }
    ensures pieces { result.pieces.now ≡ [] }
{
    Sign { kind, pieces: &[] }
}

/// The items behind so many, or none where there are no more.
fn behind<'t, 'a>(items: &'t [Item<'a>], count: usize) -> &'t [Item<'a>]
    ensures { result.now ≡ drop count items.now }
{
    items.split_at(count.min(items.len())).1
}

/// So many items, or fewer where there are no more.
fn first_items<'t, 'a>(items: &'t [Item<'a>], count: usize) -> &'t [Item<'a>]
    ensures { result.now ≡ take count items.now }
{
    items.split_at(count.min(items.len())).0
}

/// The sign at the front that begins with an item before others, and the items behind it.
fn sign_at<'t, 'a>(
    items: &'t [Item<'a>],
    item: &Item<'a>,
    others: &'t [Item<'a>],
) -> (Sign<'t, 'a>, &'t [Item<'a>])
    requires { items.now ≡ item.now ∷ others.now }
    ensures sign { signs_from 0 (marks items.now) ≡
        sign_of result.0 ∷ signs_from 0 (marks result.1.now) }
    ensures shorter { length result.1.now < length items.now }
{
    match item {
        Item::Begin(_) => (bracket(SignKind::Open), others),
        Item::End(_) => (bracket(SignKind::Close), others),
        Item::PiecesEnd(_) => (bracket(SignKind::Close), others),
        Item::Absent => (bracket(SignKind::Gone), others),
        Item::Arm(k) => (bracket(SignKind::Arm(*k)), others),
        Item::ArmEnd(k) => (bracket(SignKind::ArmEnd(*k)), others),
        Item::Pieces(n) => {
            let kind = SignKind::Said;
            let pieces = first_items(others, *n);
            (Sign { kind, pieces }, behind(behind(others, *n), 1))
        }
        _ => {
            let kind = SignKind::Said;
            let pieces = first_items(items, 1);
            (Sign { kind, pieces }, others)
        }
    }
}

/// The kind of the leaf that items are, by the first one.
fn leaf_kind(pieces: &[Item<'_>]) -> LeafKind
    ensures { result ≡ kind_of (joined_leaf (marks pieces.now)) }
{
    match pieces.first() {
        Some(Item::Boolean(truth)) => LeafKind::Boolean(*truth),
        Some(Item::Integer(_)) => LeafKind::Integer,
        Some(Item::Enumerated(_)) => LeafKind::Enumerated,
        Some(Item::Bits(_, _)) => LeafKind::Bits,
        Some(Item::Octets(_)) => LeafKind::Octets,
        Some(Item::Identifier(relative, _)) => LeafKind::Identifier(*relative),
        Some(Item::Text(kind, _)) => LeafKind::Text(*kind),
        Some(Item::Time(kind, _)) => LeafKind::Time(*kind),
        Some(Item::Any(class, constructed, number, _)) => {
            LeafKind::Any(*class, *constructed, *number)
        }
        _ => LeafKind::Null,
    }
}

/// The contents octets of the first of the items.
fn first_octets<'a>(pieces: &[Item<'a>]) -> &'a [u8]
    ensures integer { (n : ℤ) → joined_leaf (marks pieces.now) ≡ integer n →
        twos_complement_value result.now ≡ n }
    ensures enumerated { (n : ℤ) → joined_leaf (marks pieces.now) ≡ enumerated n →
        twos_complement_value result.now ≡ n }
    ensures identifier { (relative : Bool) (o : List ℕ) →
        joined_leaf (marks pieces.now) ≡ identifier relative o → result.now ≡ o }
    ensures any { (id : Identifier) (o : List ℕ) → joined_leaf (marks pieces.now) ≡ any id o →
        result.now ≡ o }
{
    match pieces.first() {
        Some(Item::Integer(octets)) => octets,
        Some(Item::Enumerated(octets)) => octets,
        Some(Item::Identifier(_, octets)) => octets,
        Some(Item::Any(_, _, _, octets)) => octets,
        _ => &[],
    }
}

/// Whether items are the same leaf.
fn same_leaf(left: &[Item<'_>], right: &[Item<'_>]) -> bool
    ensures { IsTrue result ↔ (joined_leaf (marks left.now) ≡ joined_leaf (marks right.now)) }
{
    let kind = leaf_kind(left);
    if kind != leaf_kind(right) {
        return false;
    }
    match kind {
        LeafKind::Boolean(_) => true,
        LeafKind::Null => true,
        LeafKind::Integer => same_number(first_octets(left), first_octets(right)),
        LeafKind::Enumerated => same_number(first_octets(left), first_octets(right)),
        LeafKind::Bits => same_bits(Bitwise::of_pieces(left), Bitwise::of_pieces(right)),
        LeafKind::Octets => same_octets(Joined::of_pieces(left), Joined::of_pieces(right)),
        LeafKind::Identifier(_) => first_octets(left) == first_octets(right),
        LeafKind::Text(_) => same_octets(Joined::of_pieces(left), Joined::of_pieces(right)),
        LeafKind::Time(_) => same_octets(Joined::of_pieces(left), Joined::of_pieces(right)),
        LeafKind::Any(_, _, _) => first_octets(left) == first_octets(right),
    }
}

/// Whether two signs are the same.
fn same_sign(left: Sign<'_, '_>, right: Sign<'_, '_>) -> bool
    ensures { IsTrue result ↔ (sign_of left.entry ≡ sign_of right.entry) }
{
    if left.kind != right.kind {
        return false;
    }
    same_leaf(left.pieces, right.pieces)
}

/// What is left of a tape.
#[derive(Debug, Clone, Copy)]
struct Left<'t, 'a> {
    items: &'t [Item<'a>],
}

/// The sign at the front, and what is behind it.
fn next_sign<'t, 'a>(left: Left<'t, 'a>) -> Option<(Sign<'t, 'a>, Left<'t, 'a>)>
    ensures some { IfSome result (λ x. signs_from 0 (marks left.entry.items.now) ≡
        sign_of x.0 ∷ signs_from 0 (marks x.1.items.now)) }
    ensures shorter { IfSome result (λ x. length x.1.items.now < length left.entry.items.now) }
    ensures none { IfNone result (left.entry.items.now ≡ []) }
{
    match left.items.split_first() {
        Some((item, others)) => {
            let (sign, items) = sign_at(left.items, item, others);
            Some((sign, Left { items }))
        }
        None => None,
    }
}

/// Whether the signs of two tapes are the same.
fn same_signs<'t, 'a>(left: &'t [Item<'a>], right: &'t [Item<'a>]) -> bool
    ensures { IsTrue result ↔
        (signs_from 0 (marks left.now) ≡ signs_from 0 (marks right.now)) }
{
    let mut one = Left { items: left };
    let mut other = Left { items: right };
    while let Some((sign, others)) = next_sign(one) {
        match next_sign(other) {
            Some((second, behind)) => {
                if !same_sign(sign, second) {
                    return false;
                }
                one = others;
                other = behind;
            }
            None => return false,
        }
    }
    next_sign(other).is_none()
}

/// Whether two tapes are of one value. How strings by BER are cut does not count.
pub fn same_value(left: &[Item<'_>], right: &[Item<'_>]) -> bool
    ensures { (k l : Kept) → marks left.now ≡ tape_of k → marks right.now ≡ tape_of l →
        IsTrue result ↔ (value_of k ≡ value_of l) }
{
    same_signs(left, right)
}
