//! Texts of a file as they may reach a terminal: what is no visible character is escaped.
ghost use Rattle.std.specs.Prelude.{◌≡◌, ◌<◌, ◌++◌, ℕ, List, [], ◌∷◌, length, get_or, drop, true, encode_utf8};
ghost use Rattle.std.specs.Prelude.{IfSome, IfNone, IfOk, OnOk, ◌≤◌};
ghost use Rattle.std.specs.Char.{IsScalar};
ghost use Rattle.x690.specs.Characters.{BeginsWithCharacter};
ghost use Rattle.asn1_engine.specs.Visible.{MayBeShown, is_shown_as_it_is};
ghost use Rattle.asn1_engine.specs.Texts.{BeginsByCoding, IsQuoted, Shows, ShowsFirst, character_text, end_text};
ghost use Rattle.asn1_engine.specs.Texts.{escape_text};
ghost use Rattle.asn1_engine.specs.Texts.{is_marked_character};

use asn1_words::octets::behind;
use asn1_words::words::{push_hexadecimal, push_left_out, push_str};
use std::alloc::{AllocError, Global};
use x690::characters::{CharacterCode, Ucs4, Utf16};

/// How the octets of a string stand for characters.
#[derive(Debug, Clone, Copy, PartialEq, Eq)]
pub enum Coding {
    /// UTF-8.
    Utf8,
    /// An octet a character. Octets from 80 on are escaped, since their characters are not settled.
    Ascii,
    /// UTF-16, the highest octet first.
    Utf16,
    /// Four octets a character, the highest first.
    Ucs4,
}

/// Whether a character may reach a terminal: no control character, none that turns the direction of writing, none that
/// is not seen.
fn is_visible(character: char) -> bool
    ensures may { result ≡ true → MayBeShown character }
    ensures is { result ≡ is_shown_as_it_is character }
{
    let code = character as u32;
    !matches!(
        code,
        0..=0x1f
            | 0x7f..=0xa0
            | 0xad
            | 0x61c
            | 0x180e
            | 0x200b..=0x200f
            | 0x2028..=0x202f
            | 0x205f..=0x206f
            | 0xfeff
            | 0xfff0..=0xffff
            | 0xe0000..=0x10ffff
    )
}

/// How many octets a character has in UTF-8 of which this is the first one.
fn len_of_utf8(first: u8) -> usize
    ensures some { 1 ≤ result }
    ensures len { (c : ℕ) → IsScalar c → get_or (encode_utf8 c) 0 0 ≡ first →
        length (encode_utf8 c) ≡ result }
{
    if first < 0x80 {
        1
    } else if first < 0xe0 {
        2
    } else if first < 0xf0 {
        3
    } else {
        4
    }
}

/// The first character of a text.
fn first_of_text(text: &str) -> Option<char>
    ensures some { IfSome result (λ c. IsScalar c × ((more : List ℕ) × (text.now ≡ encode_utf8 c ++ more))) }
    ensures none { IfNone result (text.now ≡ []) }
{
    text.chars().next()
}

/// The character that octets begin with, where they are UTF-8.
fn character_of(octets: &[u8]) -> Option<char>
    requires { 0 < length octets.now }
    ensures some { IfSome result (λ c. IsScalar c × ((more : List ℕ) × (octets.now ≡ encode_utf8 c ++ more))) }
    ensures none { IfNone result ((c : ℕ) → IsScalar c → octets.now ≡ encode_utf8 c → ⊥) }
{
    match str::from_utf8(octets) {
        Ok(text) => first_of_text(text),
        Err(_) => None,
    }
}

/// The first character of UTF-8, and the octets behind it.
fn first_of_utf8(octets: &[u8]) -> Option<(char, &[u8])>
    ensures some { IfSome result (λ found.
        BeginsWithCharacter encode_utf8 octets.now found.0 found.1.now) }
    ensures none { IfNone result ((c : ℕ) (rest : List ℕ) →
        BeginsWithCharacter encode_utf8 octets.now c rest → ⊥) }
{
    if octets.is_empty() {
        return None;
    }
    let len = len_of_utf8(octets[0]);
    if octets.len() < len {
        return None;
    }
    let (front, rest) = octets.split_at(len);
    match character_of(front) {
        Some(character) => Some((character, rest)),
        None => None,
    }
}

/// The first character, and the octets behind it.
fn first_of(coding: Coding, octets: &[u8]) -> Option<(char, &[u8])>
    ensures some { IfSome result (λ found. BeginsByCoding coding octets.now found.0 found.1.now) }
    ensures none { IfNone result ((c : ℕ) (rest : List ℕ) →
        BeginsByCoding coding octets.now c rest → ⊥) }
{
    match coding {
        Coding::Utf8 => first_of_utf8(octets),
        Coding::Ascii => match octets {
            [first, rest @ ..] if *first < 0x80 => Some((char::from(*first), rest)),
            _ => None,
        },
        Coding::Utf16 => Utf16::first(octets),
        Coding::Ucs4 => Ucs4::first(octets),
    }
}

/// Appends a character as it is.
fn push_as_it_is(text: &mut Vec<u8>, character: char) -> Result<(), AllocError>
    ensures { OnOk result (text.new.items ≡ text.old.items ++ encode_utf8 character) }
{
    let mut buffer = [0; 4];
    push_str(text, character.encode_utf8(&mut buffer))
}

/// Appends the number of a character as an escape.
fn push_escape(alloc: Global, text: &mut Vec<u8>, character: char) -> Result<(), AllocError>
    ensures { OnOk result (text.new.items ≡ text.old.items ++ escape_text character) }
{
    let code = character as u32;
    let digits = format!(in alloc; "{code:x}")?;
    push_str(text, "\\u{")?;
    push_str(text, digits.as_str())?;
    push_str(text, "}")
}

/// Whether a backslash stands before the character.
fn is_marked(character: char) -> bool
    ensures { result ≡ is_marked_character character }
{
    matches!(character, '"' | '\\')
}

/// Appends a character as it may reach a terminal.
fn push_character(alloc: Global, text: &mut Vec<u8>, character: char) -> Result<(), AllocError>
    ensures { OnOk result (text.new.items ≡ text.old.items ++ character_text character) }
{
    if is_marked(character) {
        push_str(text, "\\")?;
        return push_as_it_is(text, character);
    }
    if is_visible(character) {
        return push_as_it_is(text, character);
    }
    push_escape(alloc, text, character)
}

/// Appends the first character, or the first octet where no character begins, and says how many octets it has.
fn push_first(
    alloc: Global,
    text: &mut Vec<u8>,
    coding: Coding,
    octets: &[u8],
) -> Result<usize, AllocError>
    requires { 0 < length octets.now }
    ensures within { IfOk result (λ count. count ≤ length octets.now) }
    ensures shows { OnOk result ((inner : List ℕ) × IfOk result (λ count.
        ShowsFirst coding octets.now inner (drop count octets.now)) ×
        (text.new.items ≡ text.old.items ++ inner)) }
{
    match first_of(coding, octets) {
        Some((character, rest)) => {
            push_character(alloc, text, character)?;
            Ok(octets.len() - rest.len())
        }
        None => {
            push_str(text, "\\x")?;
            push_hexadecimal(text, &octets[..1])?;
            Ok(1)
        }
    }
}

/// Appends as many characters at most, and says how many octets they are.
fn push_characters(
    alloc: Global,
    text: &mut Vec<u8>,
    coding: Coding,
    width: usize,
    octets: &[u8],
) -> Result<usize, AllocError>
    ensures within { IfOk result (λ count. count ≤ length octets.now) }
    ensures shows { IfOk result (λ count. (inner : List ℕ) ×
        Shows coding width octets.now inner (drop count octets.now) ×
        (text.new.items ≡ text.old.items ++ inner)) }
{
    let mut at = 0;
    let mut left = width;
    while left > 0 && at < octets.len() {
        at += push_first(alloc, text, coding, behind(octets, at))?;
        left -= 1;
    }
    Ok(at)
}

/// Appends the mark at the end, and how many octets the string has where some are left.
fn push_end(text: &mut Vec<u8>, len: usize, left: &[u8]) -> Result<(), AllocError>
    ensures { OnOk result (text.new.items ≡ text.old.items ++ end_text len left.now) }
{
    match left {
        [] => push_str(text, "\""),
        [_, ..] => {
            push_str(text, "\"")?;
            push_left_out(text, len)
        }
    }
}

/// Appends a string between quotation marks, within a width in characters.
pub fn push_quoted(
    alloc: Global,
    text: &mut Vec<u8>,
    coding: Coding,
    width: usize,
    octets: &[u8],
) -> Result<(), AllocError>
    ensures { OnOk result ((shown : List ℕ) × IsQuoted coding width octets.now shown ×
        (text.new.items ≡ text.old.items ++ shown)) }
{
    push_str(text, "\"")?;
    let count = push_characters(alloc, text, coding, width, octets)?;
    push_end(text, octets.len(), behind(octets, count))?;
    Ok(())
}
