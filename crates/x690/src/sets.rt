//! The sets of octets that nine string types take their characters from (X.680 41), with one proof for all of them.

ghost use Rattle.std.specs.Prelude.{◌≡◌, ◌↔◌, ◌<◌, ℕ, List, Bool, IsTrue};
ghost use Rattle.std.specs.Char.{is_ascii};
ghost use Rattle.std.specs.Str.{IsUtf8};
ghost use Rattle.x690.specs.Octets.{IsOctets};
ghost use Rattle.x690.specs.Sets.{AllIn, is_numeric, is_printable, is_visible, is_graphic};
ghost use Rattle.x690.specs.Laws.Sets.{numeric_ascii, printable_ascii, ascii_ascii, visible_ascii, graphic_ascii};

/// A set of characters that are one octet each, below 80, so that octets of the set are UTF-8.
pub trait CharacterSet {
    /// The octets of the set.
    ghost in_set: { ℕ → Bool };

    /// Whether the octet is one of the set.
    fn has(octet: u8) -> bool
        ensures { result ≡ in_set octet };

    /// The octets of the set are below 80.
    ghost ascii: { (octet : ℕ) → IsTrue (in_set octet) → octet < 128 };
}

/// Digits and the space: the set of `NumericString` (X.680 41.2).
#[derive(Debug)]
pub struct Numeric;

/// Letters, digits, the space and `'()+,-./:=?`: the set of `PrintableString` (X.680 41.4).
#[derive(Debug)]
pub struct Printable;

/// The octets below 80: the set of `IA5String`, and here also of `GeneralString`, `GraphicString` and
/// `ObjectDescriptor` (X.680 41.1).
#[derive(Debug)]
pub struct Ascii;

/// The octets from 20 to 7f: the set of `VisibleString` with 7f beside it, and here also of `TeletexString` and
/// `VideotexString` (X.680 41.1).
// X.680 leaves 7f out; it is there as in asn1-rs.
#[derive(Debug)]
pub struct Visible;

/// The octets from 20 to 7e: the set of `VisibleString` as X.680 41.1 has it.
#[derive(Debug)]
pub struct Graphic;

impl CharacterSet for Numeric {
    ghost in_set = { is_numeric };

    ghost ascii = { numeric_ascii };

    #[inline(always)]
    fn has(octet: u8) -> bool {
        ((b'0' <= octet) & (octet <= b'9')) | (octet == b' ')
    }
}

/// In the set, in a row of `PRINTABLE`.
const I: bool = true;

/// Outside of it.
const O: bool = false;

/// Which octets are in `Printable`, 32 in a row. One look answers, where a chain of tests has branches.
const PRINTABLE: [bool; 256] = [
    O, O, O, O, O, O, O, O, O, O, O, O, O, O, O, O, O, O, O, O, O, O, O, O, O, O, O, O, O, O, O, O,
    I, O, O, O, O, O, O, I, I, I, O, I, I, I, I, I, I, I, I, I, I, I, I, I, I, I, I, O, O, I, O, I,
    O, I, I, I, I, I, I, I, I, I, I, I, I, I, I, I, I, I, I, I, I, I, I, I, I, I, I, O, O, O, O, O,
    O, I, I, I, I, I, I, I, I, I, I, I, I, I, I, I, I, I, I, I, I, I, I, I, I, I, I, O, O, O, O, O,
    O, O, O, O, O, O, O, O, O, O, O, O, O, O, O, O, O, O, O, O, O, O, O, O, O, O, O, O, O, O, O, O,
    O, O, O, O, O, O, O, O, O, O, O, O, O, O, O, O, O, O, O, O, O, O, O, O, O, O, O, O, O, O, O, O,
    O, O, O, O, O, O, O, O, O, O, O, O, O, O, O, O, O, O, O, O, O, O, O, O, O, O, O, O, O, O, O, O,
    O, O, O, O, O, O, O, O, O, O, O, O, O, O, O, O, O, O, O, O, O, O, O, O, O, O, O, O, O, O, O, O,
];

impl CharacterSet for Printable {
    ghost in_set = { is_printable };

    ghost ascii = { printable_ascii };

    #[inline(always)]
    fn has(octet: u8) -> bool {
        PRINTABLE[octet as usize]
    }
}

impl CharacterSet for Ascii {
    ghost in_set = { is_ascii };

    ghost ascii = { ascii_ascii };

    #[inline(always)]
    fn has(octet: u8) -> bool {
        octet < 0x80
    }
}

impl CharacterSet for Visible {
    ghost in_set = { is_visible };

    ghost ascii = { visible_ascii };

    #[inline(always)]
    fn has(octet: u8) -> bool {
        (0x20 <= octet) & (octet < 0x80)
    }
}

impl CharacterSet for Graphic {
    ghost in_set = { is_graphic };

    ghost ascii = { graphic_ascii };

    #[inline(always)]
    fn has(octet: u8) -> bool {
        (0x20 <= octet) & (octet < 0x7f)
    }
}

/// Whether all octets are of the set. Each is looked at, so that the loop has no branch.
pub fn all_in<S: CharacterSet>(octets: &[u8]) -> bool
    ensures { IsTrue result ↔ AllIn S.in_set octets.now }
{
    let mut all = true;
    for octet in octets {
        all &= S::has(*octet);
    }
    all
}

/// Characters of such a set are octets, and UTF-8 as they stand.
pub fn characters_are_octets<S: CharacterSet>()
    ensures utf8 { (octets : List ℕ) → AllIn S.in_set octets → IsUtf8 octets }
    ensures octets { (octets : List ℕ) → AllIn S.in_set octets → IsOctets octets }
{}
