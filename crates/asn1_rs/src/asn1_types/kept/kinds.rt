//! The two types that are kept as their contents octets, by their tag numbers.
ghost use Rattle.std.specs.Prelude.{◌≡◌, ◌<◌, true, refl};
ghost use Rattle.std.proofs.Common.{lit<};
ghost use Rattle.asn1_headers.specs.Tag.{is_container_number};

use crate::asn1_types::kept::Kept;
use crate::kinds::TagNumber;
use crate::traits::Tagged;

/// A type that is kept as its contents octets: its tag number.
pub trait KeptKind {
    /// A type with its tag number.
    type Number: Tagged;

    /// The number is one of the low form.
    ghost small: { (Self.Number.TAG).0 < 31 };

    /// It is that of sequences or sets.
    ghost constructed: { is_container_number (Self.Number.TAG).0 ≡ true };

    /// Its name in debug texts.
    const NAME: &'static str;
}

/// Marks [`Sequence`]. It has an equality, so sequences have one.
#[derive(Debug, PartialEq, Eq)]
pub struct SequenceMark;

impl KeptKind for SequenceMark {
    type Number = TagNumber<16>;

    ghost small = { lit< tt };

    ghost constructed = { refl };

    const NAME: &'static str = "Sequence";
}

/// Marks [`Set`]. It has no equality, so sets have none.
#[derive(Debug)]
pub struct SetMark;

impl KeptKind for SetMark {
    type Number = TagNumber<17>;

    ghost small = { lit< tt };

    ghost constructed = { refl };

    const NAME: &'static str = "Set";
}

/// A sequence that is kept as its contents octets, borrowed or owned (X.690 8.9, 8.10). Two are equal where their
/// contents octets are.
pub type Sequence<'a> = Kept<'a, SequenceMark>;

/// A set that is kept as its contents octets, borrowed or owned (X.690 8.11, 8.12). Sets that are kept so have no
/// equality, since the order of their items says nothing.
pub type Set<'a> = Kept<'a, SetMark>;
