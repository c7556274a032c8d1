//! The bits that a bit string in pieces joins to, one by one.
ghost use Rattle.std.specs.Prelude.{◌≡◌, ◌≢◌, ◌≤◌, ◌∷◌, ◌-◌, [], IfSome, IfNone, IsTrue, ◌↔◌};
ghost use Rattle.asn1_schema.specs.Tape.{mark, marks};
ghost use Rattle.asn1_schema.specs.Same.{bits_of, all_bits_of, bits_left};

use crate::bits::is_bit_set;
use crate::sizes::bit_len;
use crate::tape::Item;

/// What is left of a piece of bits, and the pieces behind it.
#[derive(Debug, Clone, Copy)]
pub struct Bitwise<'t, 'a> {
    /// The octets with what is left of a piece.
    pub(crate) octets: &'a [u8],
    /// How many bits of the first octet are done.
    pub(crate) skip: u8,
    /// How many bits are left.
    pub(crate) count: u128,
    /// The pieces behind it.
    pub(crate) others: &'t [Item<'a>],
}

/// The bits of a piece, before others.
fn bits_before<'t, 'a>(piece: &Item<'a>, others: &'t [Item<'a>]) -> Bitwise<'t, 'a>
    ensures bits { bits_left result ≡ all_bits_of (mark piece.now ∷ marks others.now) }
    ensures skip { result.skip ≤ 7 }
    ensures others { result.others.now ≡ others.now }
{
    match piece {
        Item::Bits(unused, octets) => Bitwise {
            octets,
            skip: 0,
            count: bit_len(*unused, octets),
            others,
        },
        _ => Bitwise {
            octets: &[],
            skip: 0,
            count: 0,
            others,
        },
    }
}

impl<'t, 'a> Bitwise<'t, 'a> {
    /// The bits of pieces.
    pub(crate) fn of_pieces(pieces: &'t [Item<'a>]) -> Bitwise<'t, 'a>
        ensures bits { bits_left result ≡ all_bits_of (marks pieces.now) }
        ensures skip { result.skip ≤ 7 }
    {
        Bitwise {
            octets: &[],
            skip: 0,
            count: 0,
            others: pieces,
        }
    }
}

/// The first bit, where some are left of a piece whose first octet this is.
fn first_bit<'t, 'a>(
    source: Bitwise<'t, 'a>,
    octet: u8,
    behind: &'a [u8],
) -> (bool, Bitwise<'t, 'a>)
    requires skip { source.skip ≤ 7 }
    requires some { source.count ≢ 0 }
    requires first { source.octets.now ≡ octet ∷ behind.now }
    ensures bits { bits_left source.entry ≡ result.0 ∷ bits_left result.1 }
    ensures skip { result.1.skip ≤ 7 }
{
    let bit = is_bit_set(octet, 7 - source.skip);
    let count = source.count - 1;
    let others = source.others;
    if source.skip == 7 {
        let skip = 0;
        let octets = behind;
        return (
            bit,
            Bitwise {
                octets,
                skip,
                count,
                others,
            },
        );
    }
    let skip = source.skip + 1;
    let octets = source.octets;
    (
        bit,
        Bitwise {
            octets,
            skip,
            count,
            others,
        },
    )
}

/// The first bit that is left of a piece, and those behind it; none where the piece is over.
fn bit_of_piece<'t, 'a>(source: Bitwise<'t, 'a>) -> Option<(bool, Bitwise<'t, 'a>)>
    requires { source.skip ≤ 7 }
    ensures some { IfSome result (λ x. bits_left source.entry ≡ x.0 ∷ bits_left x.1) }
    ensures skip { IfSome result (λ x. x.1.skip ≤ 7) }
    ensures none { IfNone result
        (bits_left source.entry ≡ all_bits_of (marks source.entry.others.now)) }
{
    if source.count == 0 {
        return None;
    }
    match source.octets.split_first() {
        Some((octet, behind)) => Some(first_bit(source, *octet, behind)),
        None => None,
    }
}

/// The first bit, and those behind it.
pub(crate) fn next_bit<'t, 'a>(source: Bitwise<'t, 'a>) -> Option<(bool, Bitwise<'t, 'a>)>
    requires { source.skip ≤ 7 }
    ensures some { IfSome result (λ x. bits_left source.entry ≡ x.0 ∷ bits_left x.1) }
    ensures skip { IfSome result (λ x. x.1.skip ≤ 7) }
    ensures none { IfNone result (bits_left source.entry ≡ []) }
{
    let mut left = source;
    loop {
        if let Some(found) = bit_of_piece(left) {
            return Some(found);
        }
        match left.others.split_first() {
            Some((piece, others)) => left = bits_before(piece, others),
            None => return None,
        }
    }
}
