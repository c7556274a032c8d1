//! Contents octets (X.690 8.1.4): so many octets of the input, and the trait of their readers.
ghost use Rattle.std.specs.Prelude.{ℕ, Bool, List, Result};
ghost use Rattle.std.specs.Borrow.{Bor};
ghost use Rattle.x690.specs.Lengths.{LengthForm};
ghost use Rattle.asn1_headers.specs.declared.error.Err.{Err as Refusal};
ghost use Rattle.asn1_headers.specs.declared.error.Error.{Error};
ghost use Rattle.asn1_headers.specs.Header.{is_constructed_of, length_of};
ghost use Rattle.asn1_headers.specs.Length.{form_of};
ghost use Rattle.asn1_headers.specs.Content.{Splits};

use crate::error::{Err, Error, Needed, ParseResult};
use crate::header::Header;

/// So many octets of the input, or `Incomplete` with the number that is missing.
#[inline(always)]
pub(crate) fn split_content(bytes: &[u8], len: usize) -> ParseResult<'_, &[u8], Error>
    ensures { Splits len bytes.now result }
{
    if bytes.len() < len {
        return Err(Err::Incomplete(Needed::Size(len - bytes.len())));
    }
    let (content, rest) = bytes.split_at(len);
    Ok((rest, content))
}

/// The reader by BER, as a type.
#[derive(Debug, Clone, Copy)]
pub struct BerParser;

/// The reader by DER, as a type.
#[derive(Debug, Clone, Copy)]
pub struct DerParser;

/// A reader of contents octets, whose header was read before them.
pub trait GetObjectContent {
    /// What the reader may answer at a header with this constructed bit and this form of length, at a depth.
    ghost content_gives: { Bool → LengthForm → ℕ → List ℕ →
        Result (Bor (List ℕ) × Bor (List ℕ)) (Refusal Error) → Type 0 };

    /// The contents octets of the header at the front, and what follows them. The depth bounds how deep indefinite
    /// lengths may nest.
    fn get_object_content<'a>(
        i: &'a [u8],
        hdr: &Header<'_>,
        max_depth: usize,
    ) -> ParseResult<'a, &'a [u8], Error>
        ensures { content_gives (is_constructed_of hdr.now)
            (form_of (length_of hdr.now)) max_depth i.now result };
}
