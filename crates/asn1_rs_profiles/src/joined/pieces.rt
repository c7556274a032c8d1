//! The octets that an octet string says, which by BER may come in pieces (X.690 8.7.3).
ghost use Rattle.std.specs.Prelude.{◌≡◌, ◌↔◌, ◌++◌, [], IsTrue, IfSome, IfNone, MatchResult};
ghost use Rattle.x690.specs.Elements.{Parts};
ghost use Rattle.asn1_headers.specs.declared.error.Error.TheVariants as errors;
ghost use Rattle.asn1_headers.specs.Elements.{element_parts};
ghost use Rattle.asn1_headers.specs.Header.{identifier_of};
ghost use Rattle.asn1_rs_profiles.specs.Joined.Pieces.{AreStringPieces, BeginsWithPiece, HasNoPiece, IsPieceTag};
ghost use Rattle.asn1_rs_profiles.specs.Joined.Pieces.{AppendsSuch};
ghost use Rattle.asn1_rs_profiles.specs.Joined.Pieces.{SaysOctets, TakesOctets};

use asn1_headers::ber::{Steps, element_to_depth};
use asn1_headers::error::Error;
use asn1_headers::header::Header;
use std::alloc::Global;
use std::borrow::CowSlice;

/// How deep strings nest, the whole one and its pieces.
// Calls nest as deep as the pieces do, so that octets can't exhaust the stack.
const DEPTH: usize = 50;

/// Whether no octets are left.
fn is_at_end(octets: &[u8]) -> bool
    ensures yes { IsTrue result → octets.now ≡ [] }
    ensures no { octets.now ≡ [] → IsTrue result }
{
    octets.is_empty()
}

/// Whether an element has the tag of pieces.
fn has_piece_tag(header: &Header<'_>) -> bool
    ensures { IsTrue result ↔ IsPieceTag (identifier_of header.now) }
{
    header.class().number() == 0 && header.tag().0 == 4
}

/// The piece at the front: what follows it, whether it is constructed, and its contents octets.
fn front_piece(octets: &[u8]) -> Option<(&[u8], bool, &[u8])>
    ensures some { IfSome result (λ x. BeginsWithPiece octets.now x.1 x.2.now x.0.now) }
    ensures none { IfNone result (HasNoPiece octets.now) }
{
    match element_to_depth(octets, DEPTH, &mut Steps::new()) {
        Ok((rest, (header, content))) => {
            let is_piece = has_piece_tag(&header);
            if !is_piece {
                return None;
            }
            Some((rest, header.constructed(), content))
        }
        Err(_) => None,
    }
}

/// Appends octets. Refused only when out of memory.
fn push_octets(octets: &[u8], joined: &mut Vec<u8>) -> Result<(), Error>
    ensures { MatchResult result (λ _. joined.new.items ≡ joined.old.items ++ octets.now)
        (λ e. e ≡ errors.OutOfMemory) }
{
    match joined.extend_from_slice(octets) {
        Ok(()) => Ok(()),
        Err(_) => Err(Error::OutOfMemory),
    }
}

/// Appends what one piece says.
#[cycle(pieces)]
fn push_piece(
    depth: usize,
    constructed: bool,
    content: &[u8],
    joined: &mut Vec<u8>,
) -> Result<(), Error>
    ensures { (p : Parts) → p.id.constructed ≡ constructed → p.content ≡ content.now →
        AppendsSuch (SaysOctets depth p) joined.old.items joined.new.items result }
{
    if depth == 0 {
        return Err(Error::BerValueError);
    }
    if constructed {
        return push_pieces(depth - 1, content, joined);
    }
    push_octets(content, joined)
}

/// Appends what the pieces say that contents octets are.
#[cycle(pieces)]
fn push_pieces(depth: usize, content: &[u8], joined: &mut Vec<u8>) -> Result<(), Error>
    ensures { AppendsSuch (AreStringPieces depth content.now) joined.old.items joined.new.items
        result }
{
    let mut rest = content;
    while !is_at_end(rest) {
        let Some((tail, constructed, inner)) = front_piece(rest) else {
            return Err(Error::BerValueError);
        };
        match push_piece(depth, constructed, inner, joined) {
            Ok(()) => rest = tail,
            Err(e) => return Err(e),
        }
    }
    Ok(())
}

/// The octets of a string: those of a primitive one are lent, those of pieces are joined.
pub(crate) fn joined_octets<'a>(
    alloc: Global,
    header: &Header<'_>,
    content: &'a [u8],
) -> Result<CowSlice<'a, u8, Global>, Error>
    ensures { TakesOctets (element_parts header.now content.now) result }
{
    if !header.constructed() {
        return Ok(CowSlice::Borrowed(content));
    }
    let mut joined = Vec::new(alloc);
    match push_pieces(DEPTH - 1, content, &mut joined) {
        Ok(()) => Ok(CowSlice::Owned(joined)),
        Err(e) => Err(e),
    }
}
