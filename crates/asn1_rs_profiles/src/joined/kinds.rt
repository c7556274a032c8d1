//! The types of strings whose pieces are octet strings: octet strings, and strings of characters (X.690 8.7.3, 8.23.3).
ghost use Rattle.std.specs.Prelude.{◌≡◌, ◌↔◌, ◌<◌, ℕ, List, IsTrue, false, refl};
ghost use Rattle.std.proofs.Common.{lit<};
ghost use Rattle.asn1_headers.specs.Tag.{is_container_number};

use asn1_rs::Tagged;
use asn1_rs::author::{Repertoire, StringKind, TagNumber};

/// A type of strings whose pieces are octet strings: its tag number, and which octets it has.
///
/// The kinds of strings of characters have it whose octets are their text in UTF-8, as
/// [`Utf8Kind`](asn1_rs::author::Utf8Kind).
pub trait JoinedKind {
    /// A type with its tag number.
    type Number: Tagged;

    /// The type has these octets, joined.
    ghost IsText: { List ℕ → Type 0 };

    /// Whether it has them.
    fn is_text(octets: &[u8]) -> bool
        ensures { IsTrue result ↔ IsText octets.now };

    /// The number is one of the low form.
    ghost small: { (Self.Number.TAG).0 < 31 };

    /// It is not that of sequences or sets.
    ghost primitive: { is_container_number (Self.Number.TAG).0 ≡ false };
}

/// Marks octet strings, whatever their octets.
#[derive(Debug)]
pub struct OctetKind;

impl JoinedKind for OctetKind {
    type Number = TagNumber<4>;

    ghost IsText = { λ octets. Unit {0} };

    fn is_text(_octets: &[u8]) -> bool {
        true
    }

    ghost small = { lit< tt };

    ghost primitive = { refl };
}

/// A text may be parted anywhere, also within a character. So it is judged once it is joined.
impl<K: StringKind<Characters: Repertoire>> JoinedKind for K {
    type Number = K::Number;

    ghost IsText = { K.Characters.IsText };

    fn is_text(octets: &[u8]) -> bool {
        K::Characters::is_text(octets)
    }

    ghost small = { K.small };

    ghost primitive = { K.primitive };
}
