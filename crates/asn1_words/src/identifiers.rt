//! Object identifiers with points between their arcs.
ghost use Rattle.std.specs.Prelude.{◌≡◌, ◌≢◌, ◌≤◌, ◌<◌, ◌++◌, ◌&&◌, [], length, map, drop, true, false, OnOk};
ghost use Rattle.x690.specs.Digits.{base_128_value};
ghost use Rattle.x690.specs.Arcs.{pieces_of, subidentifiers, first_subidentifier, first_arc, second_arc};
ghost use Rattle.asn1_words.specs.Words.{number_text};
ghost use Rattle.asn1_words.specs.Numbers.{are_few, are_shown, arcs, dotted_arcs, is_whole, more_arcs_text};

use crate::decimals::push_subidentifier;
use crate::octets::behind;
use crate::words::{push_number, push_str};
use std::alloc::AllocError;
use x690::arcs::{first_piece_len, split_subidentifier};

/// The octets of a first subidentifier whose number fits 63 bits.
const MOST_FIRST: usize = 9;

/// The octets of a subidentifier that is shown in decimals.
const MOST_PIECE: usize = 40;

/// Whether the octets of a subidentifier end with one below 80.
fn ends(piece: &[u8]) -> bool
    ensures { result ≡ is_whole piece.now }
{
    match piece.split_last() {
        Some((last, _front)) => *last < 0x80,
        None => false,
    }
}

/// Whether subidentifiers are whole, and have few octets each: the first one as many at most as is told.
fn are_few_each(content: &[u8], most: usize) -> bool
    ensures { result ≡ are_few most (pieces_of content.now) }
{
    let mut most = most;
    let mut at = 0;
    while at < content.len() {
        let rest = behind(content, at);
        let len = first_piece_len(rest);
        let (piece, _others) = rest.split_at(len);
        if len > most || !ends(piece) {
            return false;
        }
        most = MOST_PIECE;
        at += len;
    }
    true
}

/// Whether contents octets are shown by their arcs: there are some, all are whole, and none has too many octets.
pub fn have_arcs(relative: bool, content: &[u8]) -> bool
    ensures { result ≡ are_shown relative content.now }
{
    if content.is_empty() {
        return false;
    }
    are_few_each(content, if relative { MOST_PIECE } else { MOST_FIRST })
}

/// Appends the number of a subidentifier.
fn push_piece(text: &mut Vec<u8>, piece: &[u8]) -> Result<(), AllocError>
    requires { length piece.now ≤ 40 }
    ensures { OnOk result (text.new.items ≡ text.old.items ++ number_text (base_128_value piece.now)) }
{
    match piece {
        [octet] => push_number(text, u64::from(*octet % 128)),
        _ => push_subidentifier(text, piece),
    }
}

/// Appends arcs behind other ones.
fn push_more(text: &mut Vec<u8>, content: &[u8]) -> Result<(), AllocError>
    requires { are_few 40 (pieces_of content.now) ≡ true }
    ensures { OnOk result (text.new.items ≡
        text.old.items ++ more_arcs_text (subidentifiers content.now)) }
{
    let mut at = 0;
    while at < content.len() {
        let rest = behind(content, at);
        let len = first_piece_len(rest);
        let (piece, _others) = rest.split_at(len);
        push_str(text, ".")?;
        push_piece(text, piece)?;
        at += len;
    }
    Ok(())
}

/// Appends the arcs of a relative identifier (X.690 8.20.2).
fn push_relative(text: &mut Vec<u8>, content: &[u8]) -> Result<(), AllocError>
    requires some { 0 < length content.now }
    requires few { are_few 40 (pieces_of content.now) ≡ true }
    ensures { OnOk result (text.new.items ≡ text.old.items ++ dotted_arcs (arcs true content.now)) }
{
    let len = first_piece_len(content);
    let (piece, others) = content.split_at(len);
    push_piece(text, piece)?;
    push_more(text, others)?;
    Ok(())
}

/// Appends the arcs of an absolute identifier, of which the first subidentifier says two (X.690 8.19.4).
fn push_absolute(text: &mut Vec<u8>, content: &[u8]) -> Result<(), AllocError>
    requires some { 0 < length content.now }
    requires few { are_few 9 (pieces_of content.now) ≡ true }
    ensures { OnOk result (text.new.items ≡ text.old.items ++
        dotted_arcs (arcs false content.now)) }
{
    let (first, second, len) = split_subidentifier(content);
    push_number(text, first)?;
    push_str(text, ".")?;
    push_number(text, second)?;
    push_more(text, behind(content, len))?;
    Ok(())
}

/// Appends the arcs of contents octets, with points between them.
pub fn push_arcs(text: &mut Vec<u8>, relative: bool, content: &[u8]) -> Result<(), AllocError>
    requires { are_shown relative content.now ≡ true }
    ensures { OnOk result (text.new.items ≡
        text.old.items ++ dotted_arcs (arcs relative content.now)) }
{
    if relative {
        push_relative(text, content)
    } else {
        push_absolute(text, content)
    }
}
