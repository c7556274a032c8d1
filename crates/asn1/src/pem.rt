//! Octets as a block of PEM (RFC 7468).

use asn1_words::words::push_str;
use base64::engine::general_purpose::STANDARD;
use std::alloc::{AllocError, Global};

/// So many characters stand in a line.
const LINE: usize = 64;

/// Whether a character may stand in a label beside any others.
fn is_of_label(octet: u8) -> bool {
    octet > b' ' && octet <= b'~' && octet != b'-'
}

/// Whether a text is a label: characters of ASCII, with single spaces and hyphens between them.
pub fn is_label(text: &str) -> bool {
    let mut was_letter = false;
    for octet in text.as_bytes() {
        let is_letter = is_of_label(*octet);
        if !is_letter && (!was_letter || (*octet != b' ' && *octet != b'-')) {
            return false;
        }
        was_letter = is_letter;
    }
    was_letter || text.is_empty()
}

/// Appends the line that begins a block, or ends it.
fn push_border(text: &mut Vec<u8>, word: &str, label: &str) -> Result<(), AllocError> {
    push_str(text, "-----")?;
    push_str(text, word)?;
    push_str(text, " ")?;
    push_str(text, label)?;
    push_str(text, "-----\n")
}

/// Appends a text in lines.
fn push_lines(text: &mut Vec<u8>, characters: &[u8]) -> Result<(), AllocError> {
    let mut rest = characters;
    while !rest.is_empty() {
        let (line, others) = rest.split_at(rest.len().min(LINE));
        text.extend_from_slice(line)?;
        push_str(text, "\n")?;
        rest = others;
    }
    Ok(())
}

/// Octets as a block with a label.
pub fn block(alloc: Global, label: &str, octets: &[u8]) -> Result<Vec<u8>, AllocError> {
    let characters = STANDARD.encode(alloc, octets)?;
    let mut text = Vec::new(alloc);
    push_border(&mut text, "BEGIN", label)?;
    push_lines(&mut text, characters.as_bytes())?;
    push_border(&mut text, "END", label)?;
    Ok(text)
}
