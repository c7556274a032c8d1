//! The tokens of a text (X.680 12), lent from it.
ghost use Rattle.std.specs.Prelude.{ℕ, List, ◌≡◌, ◌<◌, ◌≤◌, ◌-◌, ◌++◌, [], length, All, IfSome, IfOk, OnOk};
ghost use Rattle.std.specs.Prelude.{Some, slice_get};
ghost use Rattle.std.specs.Borrow.{Bor};
ghost use Rattle.asn1_module.specs.Tokens.{EndsIn, StandsAmong};

use crate::mistake::{ModuleError, Place, Wrong};
use std::alloc::Global;

/// What a token is.
#[derive(Debug, Clone, Copy, PartialEq, Eq)]
pub enum TokenKind {
    /// A word that begins with a capital letter: a reference or a word of the notation (12.2, 12.38).
    Reference,
    /// A word that begins with a small letter (12.3).
    Identifier,
    /// `&` and a word: a field of a class (X.681 7).
    ClassField,
    /// Digits (12.8).
    Number,
    /// Characters in quotation marks (12.14).
    Text,
    /// `'01'B` (12.10).
    Bits,
    /// `'0F'H` (12.12).
    Hexadecimal,
    /// Any other token.
    Mark,
    /// The end of a text, which has no octets.
    End,
}

/// A token.
#[derive(Debug, Clone, Copy)]
pub struct Token<'t> {
    /// What it is.
    pub kind: TokenKind,
    /// Its octets.
    pub octets: &'t [u8],
    /// Where it stands.
    pub place: Place,
}

impl<'t> Token<'t> {
    /// Whether the token is this word or mark.
    pub fn is(&self, word: &str) -> bool {
        self.octets == word.as_bytes()
    }

    /// The token in characters. One that is no UTF-8 has none.
    pub fn word(&self) -> &'t str {
        match str::from_utf8(self.octets) {
            Ok(word) => word,
            Err(_) => "",
        }
    }
}

/// What stands behind a comment that ends with the line or with two hyphens (12.6.3).
fn behind_line(octets: &[u8]) -> &[u8]
    ensures { length result.now ≤ length octets.now }
{
    let mut rest = octets;
    while let Some((first, tail)) = rest.split_first() {
        if let [b'-', b'-', others @ ..] = rest {
            return others;
        }
        if matches!(*first, b'\n' | b'\r' | 0x0b | 0x0c) {
            return rest;
        }
        rest = tail;
    }
    rest
}

/// What stands behind a comment that ends with `*/`, in which others may nest (12.6.4).
fn behind_block(octets: &[u8]) -> &[u8]
    ensures { length result.now ≤ length octets.now }
{
    let mut rest = octets;
    let mut inner = 0u64;
    while let Some((_, tail)) = rest.split_first() {
        match rest {
            [b'*', b'/', others @ ..] => {
                if inner == 0 {
                    return others;
                }
                inner -= 1;
                rest = others;
            }
            [b'/', b'*', others @ ..] => {
                inner = inner.saturating_add(1);
                rest = others;
            }
            _ => rest = tail,
        }
    }
    rest
}

/// What stands behind one blank or one comment.
fn behind_blank(octets: &[u8]) -> Option<&[u8]>
    ensures { IfSome result (λ rest. length rest.now < length octets.now) }
{
    match octets {
        [b'-', b'-', others @ ..] => Some(behind_line(others)),
        [b'/', b'*', others @ ..] => Some(behind_block(others)),
        [b' ' | b'\t' | b'\n' | b'\r' | 0x0b | 0x0c, others @ ..] => Some(others),
        _ => None,
    }
}

/// What stands behind all blanks and comments.
fn behind_blanks(octets: &[u8]) -> &[u8]
    ensures { length result.now ≤ length octets.now }
{
    let mut rest = octets;
    while let Some(tail) = behind_blank(rest) {
        rest = tail;
    }
    rest
}

/// How many octets of blanks and comments stand at the front.
fn blanks_len(octets: &[u8]) -> usize
    ensures { result ≤ length octets.now }
{
    octets.len().saturating_sub(behind_blanks(octets).len())
}

/// How many octets the word at the front has. A hyphen stands between two others.
fn word_len(octets: &[u8]) -> usize {
    let mut len = 0;
    for (place, octet) in octets.iter().enumerate() {
        if octet.is_ascii_alphanumeric() {
            len = place.saturating_add(1);
        } else if *octet != b'-' || len < place {
            return len;
        }
    }
    len
}

/// How many digits stand at the front.
fn digits_len(octets: &[u8]) -> usize {
    octets
        .iter()
        .position(|octet| !octet.is_ascii_digit())
        .unwrap_or(octets.len())
}

/// How many octets stand before the end of a text in quotation marks, of which two stand for one.
fn text_len(octets: &[u8]) -> Option<usize> {
    let mut is_odd = false;
    for (place, octet) in octets.iter().enumerate() {
        if *octet == b'"' {
            is_odd = !is_odd;
        } else if is_odd {
            return Some(place);
        }
    }
    if is_odd { Some(octets.len()) } else { None }
}

/// How many octets `'..'B` or `'..'H` has behind its first one, and which it is.
fn string_len(octets: &[u8]) -> Option<(TokenKind, usize)> {
    let end = octets.iter().position(|octet| *octet == b'\'')?;
    let kind = match octets.get(end.saturating_add(1)) {
        Some(b'B') => TokenKind::Bits,
        Some(b'H') => TokenKind::Hexadecimal,
        _ => return None,
    };
    Some((kind, end.saturating_add(2)))
}

/// How many octets the mark at the front has.
fn mark_len(octets: &[u8]) -> Option<usize> {
    match octets {
        [b':', b':', b'=', ..] => Some(3),
        [b'.', b'.', b'.', ..] => Some(3),
        [b'.', b'.', ..] => Some(2),
        [b'[', b'[', ..] => Some(2),
        [b']', b']', ..] => Some(2),
        [first, ..] => {
            if b"{}()[],;:|.@<>^!*-=/".contains(first) {
                Some(1)
            } else {
                None
            }
        }
        [] => None,
    }
}

/// What the token at the front is, and how many octets it has.
fn front(octets: &[u8]) -> Option<(TokenKind, usize)> {
    let (first, others) = octets.split_first()?;
    match *first {
        b'A'..=b'Z' => Some((TokenKind::Reference, word_len(octets))),
        b'a'..=b'z' => Some((TokenKind::Identifier, word_len(octets))),
        b'0'..=b'9' => Some((TokenKind::Number, digits_len(octets))),
        b'&' => Some((TokenKind::ClassField, word_len(others).saturating_add(1))),
        b'"' => {
            let len = text_len(others)?;
            Some((TokenKind::Text, len.saturating_add(1)))
        }
        b'\'' => {
            let (kind, len) = string_len(others)?;
            Some((kind, len.saturating_add(1)))
        }
        _ => Some((TokenKind::Mark, mark_len(octets)?)),
    }
}

/// The token at the front of what is left of a text of so many octets, and what is left behind it. At the end of the
/// text it has no octets.
pub fn next_token<'t>(
    number: usize,
    end: usize,
    octets: &'t [u8],
) -> Result<(Token<'t>, &'t [u8]), ModuleError>
    ensures parts { IfOk result (λ x. EndsIn octets.now (x.0.octets.now ++ x.1.now)) }
    ensures place { IfOk result (λ x.
        x.0.place.octet ≡ end - length (x.0.octets.now ++ x.1.now)) }
    ensures text { IfOk result (λ x. x.0.place.text ≡ number) }
    ensures goes_on { IfOk result (λ x. x.0.octets.now ≡ [] → x.1.now ≡ []) }
{
    let (_, word) = octets.split_at(blanks_len(octets));
    let place = Place {
        text: number,
        octet: end.saturating_sub(word.len()),
    };
    if word.is_empty() {
        let kind = TokenKind::End;
        let octets = word;
        return Ok((
            Token {
                kind,
                octets,
                place,
            },
            word,
        ));
    }
    let Some((kind, len)) = front(word) else {
        return Err(place.error(Wrong::NoToken));
    };
    match word.split_at_checked(len) {
        None => Err(place.error(Wrong::NoToken)),
        Some((octets, rest)) => {
            if octets.is_empty() {
                return Err(place.error(Wrong::NoToken));
            }
            Ok((
                Token {
                    kind,
                    octets,
                    place,
                },
                rest,
            ))
        }
    }
}

/// Puts the tokens of a text behind others. The last one is the end of the text.
fn push_tokens<'t>(
    tokens: &mut Vec<Token<'t>>,
    number: usize,
    text: &'t [u8],
) -> Result<(), ModuleError>
    ensures { (texts : List (Bor (List ℕ))) (own : Bor (List ℕ)) →
        slice_get texts number ≡ Some own → own.now ≡ text.now →
        All (StandsAmong texts) tokens.old.items →
        OnOk result (All (StandsAmong texts) tokens.new.items) }
{
    let mut rest = text;
    for _ in 0..text.len() {
        let (token, tail) = next_token(number, text.len(), rest)?;
        tokens.push(token)?;
        rest = tail;
        if matches!(token.kind, TokenKind::End) {
            return Ok(());
        }
    }
    let (token, _) = next_token(number, text.len(), &[])?;
    tokens.push(token)?;
    Ok(())
}

/// The tokens of all texts, in order. Behind those of each text stands its end.
pub fn tokens_of<'t>(alloc: Global, texts: &[&'t [u8]]) -> Result<Vec<Token<'t>>, ModuleError>
    ensures { IfOk result (λ tokens. All (StandsAmong texts.now) tokens.items) }
{
    let mut tokens = Vec::new(alloc);
    for (number, text) in texts.iter().enumerate() {
        push_tokens(&mut tokens, number, text)?;
    }
    Ok(tokens)
}
