//! The octets that a string in pieces joins to, one by one.
ghost use Rattle.std.specs.Prelude.{◌≡◌, ◌≤◌, ◌∷◌, [], IfSome, IfNone, take, drop, length};
ghost use Rattle.asn1_schema.specs.Tape.{mark, marks};
ghost use Rattle.asn1_schema.specs.Joined.{octets_of, all_octets, said};

use crate::tape::Item;

/// Octets in pieces: what is left of one, and the pieces behind it.
#[derive(Debug, Clone, Copy)]
pub struct Joined<'t, 'a> {
    /// What is left of a piece.
    pub(crate) front: &'a [u8],
    /// The pieces behind it.
    pub(crate) others: &'t [Item<'a>],
}

impl<'t, 'a> Joined<'t, 'a> {
    /// Octets in one piece.
    pub(crate) fn of_octets(front: &'a [u8]) -> Joined<'t, 'a>
        ensures { said result ≡ front.now }
    {
        Joined { front, others: &[] }
    }

    /// The octets of pieces.
    pub(crate) fn of_pieces(pieces: &'t [Item<'a>]) -> Joined<'t, 'a>
        ensures { said result ≡ all_octets (marks pieces.now) }
    {
        Joined {
            front: &[],
            others: pieces,
        }
    }
}

/// The octets of a piece.
pub(crate) fn octets_in<'a>(piece: &Item<'a>) -> &'a [u8]
    ensures { result.now ≡ octets_of (mark piece.now) }
{
    match piece {
        Item::Octets(octets) => octets,
        Item::Text(_, octets) => octets,
        Item::Time(_, octets) => octets,
        _ => &[],
    }
}

/// The first octet, and those behind it.
pub(crate) fn next<'t, 'a>(source: Joined<'t, 'a>) -> Option<(u8, Joined<'t, 'a>)>
    ensures some { IfSome result (λ x. said source.entry ≡ x.0 ∷ said x.1) }
    ensures none { IfNone result (said source.entry ≡ []) }
{
    if let Some((octet, front)) = source.front.split_first() {
        let others = source.others;
        return Some((*octet, Joined { front, others }));
    }
    let pieces = source.others;
    let mut place = 0;
    while place < pieces.len() {
        let piece = octets_in(&pieces[place]);
        place += 1;
        if let Some((octet, front)) = piece.split_first() {
            let others = &pieces[place..];
            return Some((*octet, Joined { front, others }));
        }
    }
    None
}

/// The octets behind so many.
pub(crate) fn behind<'t, 'a>(source: Joined<'t, 'a>, count: usize) -> Joined<'t, 'a>
    requires { count ≤ length (said source) }
    ensures { said result ≡ drop count (said source.entry) }
{
    let mut source = source;
    for _ in 0..count {
        match next(source) {
            Some((_, others)) => source = others,
            None => return source,
        }
    }
    source
}

/// The first four octets, or fewer where there are no more, and how many they are.
pub(crate) fn first_four(source: Joined<'_, '_>) -> ([u8; 4], usize)
    ensures few { result.1 ≤ 4 }
    ensures first { take result.1 result.0 ≡ take 4 (said source.entry) }
{
    let mut four = [0; 4];
    let mut count = 0;
    let mut source = source;
    while count < 4 {
        match next(source) {
            Some((octet, others)) => {
                four[count] = octet;
                source = others;
                count += 1;
            }
            None => return (four, count),
        }
    }
    (four, count)
}
