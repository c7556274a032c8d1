//! Codes of characters in octets: UTF-16 and UCS-4, and what is said once of both (X.690 8.23.7, 8.23.8; X.680 41).
//! Pairs of units are those of UTF-16 (ISO/IEC 10646); X.690 has none.

ghost use Rattle.std.specs.Prelude.{ℕ, ◌≡◌, ◌+◌, ◌-◌, ◌*◌, ◌<◌, ◌≤◌, ◌^◌, List, [], ◌∷◌, ◌++◌, length};
ghost use Rattle.std.specs.Prelude.{get_or, take, drop, IfSome, IfNone, IfOk, IsUtf8};
ghost use Rattle.std.specs.Prelude.{encode_utf8_all, string_bytes, string_capacity};
ghost use Rattle.std.specs.Str.{chars};
ghost use Rattle.x690.specs.Octets.{IsOctets};
ghost use Rattle.x690.specs.Digits.{base_256_value};
ghost use Rattle.x690.specs.Characters.{utf16_octets_of, ucs4_octets_of, unit_octets, code_of, utf16_octets};
ghost use Rattle.x690.specs.Characters.{ucs4_octets, Codes, IsCode, BeginsWithCharacter, IsCharacterCode};
ghost use Rattle.x690.specs.Laws.Characters.{utf16_code, ucs4_code};

use std::alloc::{AllocError, Global};

/// A code of characters in octets.
pub trait CharacterCode {
    /// The octets of a character.
    ghost octets_of: { ℕ → List ℕ };

    /// They are four at most, and no character's octets begin another's.
    ghost is: { IsCharacterCode octets_of };

    /// The character that begins the octets, and the octets behind it. There is none exactly where no character's
    /// octets begin them.
    fn first(octets: &[u8]) -> Option<(char, &[u8])>
        ensures some { IfSome result (λ found.
            BeginsWithCharacter octets_of octets.now found.0 found.1.now) }
        ensures none { IfNone result ((c : ℕ) (rest : List ℕ) →
            BeginsWithCharacter octets_of octets.now c rest → ⊥) };

    /// How many octets a character has.
    fn count(character: char) -> usize
        ensures { result ≡ length (octets_of character) };

    /// Writes the octets of a character into the buffer at a place, and says which place is behind them. The octets
    /// before that place stay, and so do those behind what is written.
    fn put(character: char, buffer: &mut [u8], at: usize) -> usize
        requires { at + 4 ≤ length buffer.old }
        ensures octets { take result buffer.new ≡ take at buffer.old ++ octets_of character }
        ensures kept { drop result buffer.new ≡ drop result buffer.old }
        ensures place { result ≡ at + length (octets_of character) };
}

/// The code UTF-16, the highest octet of a unit first (X.690 8.23.8).
#[derive(Debug)]
pub struct Utf16;

/// The code in four octets, the highest first (X.690 8.23.7).
#[derive(Debug)]
pub struct Ucs4;

/// Writes a unit of UTF-16 at a place, the highest octet first.
#[inline(always)]
fn put_unit(unit: u32, buffer: &mut [u8], at: usize)
    requires unit { unit < 65536 }
    requires room { at + 2 ≤ length buffer.old }
    ensures octets { take (at + 2) buffer.new ≡ take at buffer.old ++ unit_octets unit }
    ensures kept { drop (at + 2) buffer.new ≡ drop (at + 2) buffer.old }
{
    buffer[at] = (unit / 256) as u8;
    buffer[at + 1] = (unit % 256) as u8;
}

/// The character of the pair that begins the octets, where the first unit is a surrogate, and the octets behind it.
#[inline(never)]
fn first_pair(high: u32, octets: &[u8]) -> Option<(char, &[u8])>
    requires some { 2 ≤ length octets.now }
    requires high { high ≡ 256 * get_or octets.now 0 0 + get_or octets.now 1 0 }
    requires surrogate { (55296 ≤ high) × (high < 57344) }
    ensures some { IfSome result (λ found.
        BeginsWithCharacter utf16_octets_of octets.now found.0 found.1.now) }
    ensures none { IfNone result ((c : ℕ) (rest : List ℕ) →
        BeginsWithCharacter utf16_octets_of octets.now c rest → ⊥) }
{
    if high >= 0xDC00 || octets.len() < 4 {
        return None;
    }
    let low = u32::from(octets[2]) * 256 + u32::from(octets[3]);
    if low < 0xDC00 || low >= 0xE000 {
        return None;
    }
    let code = 0x1_0000 + (high - 0xD800) * 0x400 + (low - 0xDC00);
    let character = char::from_u32(code)?;
    Some((character, &octets[4..]))
}

impl CharacterCode for Utf16 {
    ghost octets_of = { utf16_octets_of };

    ghost is = { utf16_code };

    #[inline(always)]
    fn first(octets: &[u8]) -> Option<(char, &[u8])> {
        if octets.len() < 2 {
            return None;
        }
        let unit = u32::from(octets[0]) * 256 + u32::from(octets[1]);
        match char::from_u32(unit) {
            Some(character) => Some((character, &octets[2..])),
            None => first_pair(unit, octets),
        }
    }

    #[inline(always)]
    fn count(character: char) -> usize {
        if (character as u32) < 0x1_0000 { 2 } else { 4 }
    }

    #[inline(always)]
    fn put(character: char, buffer: &mut [u8], at: usize) -> usize {
        let code = character as u32;
        if code < 0x1_0000 {
            put_unit(code, buffer, at);
            return at + 2;
        }
        put_unit(0xD800 + (code - 0x1_0000) / 0x400, buffer, at);
        put_unit(0xDC00 + (code - 0x1_0000) % 0x400, buffer, at + 2);
        at + 4
    }
}

impl CharacterCode for Ucs4 {
    ghost octets_of = { ucs4_octets_of };

    ghost is = { ucs4_code };

    #[inline(always)]
    fn first(octets: &[u8]) -> Option<(char, &[u8])> {
        if octets.len() < 4 {
            return None;
        }
        let code = u32::from(octets[0]) * 0x100_0000
            + u32::from(octets[1]) * 0x1_0000
            + u32::from(octets[2]) * 0x100
            + u32::from(octets[3]);
        let character = char::from_u32(code)?;
        Some((character, &octets[4..]))
    }

    #[inline(always)]
    fn count(_character: char) -> usize {
        4
    }

    #[inline(always)]
    fn put(character: char, buffer: &mut [u8], at: usize) -> usize {
        let code = character as u32;
        buffer[at] = (code / 0x100_0000) as u8;
        buffer[at + 1] = (code / 0x1_0000 % 256) as u8;
        buffer[at + 2] = (code / 256 % 256) as u8;
        buffer[at + 3] = (code % 256) as u8;
        at + 4
    }
}

/// Judges the octets in one pass and with no memory: how long their text is in UTF-8. There is none exactly where they
/// are no text's in the code.
pub fn text_len<C: CharacterCode>(octets: &[u8]) -> Option<usize>
    ensures some { IfSome result (λ len. (cs : List ℕ)
        × Codes (code_of C.octets_of) octets.now cs × (len ≡ length (encode_utf8_all cs))) }
    ensures none { IfNone result ((cs : List ℕ) →
        Codes (code_of C.octets_of) octets.now cs → ⊥) }
{
    let mut rest = octets;
    let mut len = 0;
    while !rest.is_empty() {
        let (character, others) = C::first(rest)?;
        len += character.len_utf8();
        rest = others;
    }
    Some(len)
}

/// The text of octets that are one in the code, with room for so many octets of UTF-8. Where that is what `text_len`
/// says, memory is asked for once.
pub fn decoded<C: CharacterCode>(
    alloc: Global,
    octets: &[u8],
    capacity: usize,
) -> Result<String, AllocError>
    ensures text { IfOk result (λ text. (cs : List ℕ) →
        Codes (code_of C.octets_of) octets.now cs → string_bytes text ≡ encode_utf8_all cs) }
    ensures room { IfOk result (λ text. capacity ≤ string_capacity text) }
{
    let mut text = String::with_capacity(alloc, capacity)?;
    let mut rest = octets;
    while let Some((character, others)) = C::first(rest) {
        text.push(character)?;
        rest = others;
    }
    Ok(text)
}

/// How many octets the text has in the code. There is none exactly where they are 2^64 or more.
pub fn coded_len<C: CharacterCode>(text: &str) -> Option<usize>
    ensures some { IfSome result (λ len. len ≡ length (code_of C.octets_of (chars text.now))) }
    ensures none { IfNone result (2 ^ 64 ≤ length (code_of C.octets_of (chars text.now))) }
{
    let mut len: usize = 0;
    for character in text.chars() {
        len = len.checked_add(C::count(character))?;
    }
    Some(len)
}

/// Writes characters from the front of the text into the buffer while any character fits. It answers how many octets
/// they are, and the text that is left. A text that is not empty becomes shorter. Where a text is left, the buffer has
/// no room for four octets more.
pub fn fill<'a, C: CharacterCode>(text: &'a str, buffer: &mut [u8; 256]) -> (usize, &'a str)
    ensures octets { code_of C.octets_of (chars text.now) ≡
        take result.0 buffer.new ++ code_of C.octets_of (chars result.1.now) }
    ensures within { result.0 ≤ 256 }
    ensures full { result.0 ≤ 252 → length result.1.now ≡ 0 }
    ensures less { 0 < length text.now → length result.1.now < length text.now }
{
    let mut rest = text.chars();
    let mut at = 0;
    while at <= 252 {
        let Some(character) = rest.next() else {
            break;
        };
        at = C::put(character, buffer, at);
    }
    (at, rest.as_str())
}

/// The last character of the text, and the text before it.
#[inline(always)]
fn last_character(text: &str) -> Option<(char, &str)>
    ensures none { IfNone result (length text.now ≡ 0) }
    ensures characters { IfSome result (λ last.
        chars text.now ≡ chars last.1.now ++ last.0 ∷ []) }
    ensures text { IfSome result (λ last. IsUtf8 last.1.now) }
    ensures shorter { IfSome result (λ last. length last.1.now < length text.now) }
{
    let mut characters = text.chars();
    match characters.next_back() {
        Some(character) => Some((character, characters.as_str())),
        None => None,
    }
}

/// Writes characters from the back of the text before place 256 of the buffer while any character fits. It answers
/// where they begin, and the text that is left before them. A text that is not empty becomes shorter. Where a text is
/// left, the buffer has no room for four octets more.
pub fn fill_back<'a, C: CharacterCode>(text: &'a str, buffer: &mut [u8; 260]) -> (usize, &'a str)
    ensures octets { code_of C.octets_of (chars text.now) ≡
        code_of C.octets_of (chars result.1.now) ++ take (256 - result.0) (drop result.0 buffer.new) }
    ensures within { result.0 ≤ 256 }
    ensures full { 4 ≤ result.0 → length result.1.now ≡ 0 }
    ensures less { 0 < length text.now → length result.1.now < length text.now }
{
    let mut rest = text;
    let mut at = 256;
    while at >= 4 {
        let Some((character, others)) = last_character(rest) else {
            break;
        };
        at -= C::count(character);
        C::put(character, buffer, at);
        rest = others;
    }
    (at, rest)
}

/// A character below 10000 is the two octets of its number in UTF-16, and any character the four of it in UCS-4
/// (X.690 8.23.7, 8.23.8).
pub fn octets_are_numbers_of_characters()
    ensures utf16 { (c : ℕ) → c < 65536 →
        (length (utf16_octets_of c) ≡ 2) × (base_256_value (utf16_octets_of c) ≡ c) }
    ensures ucs4 { (c : ℕ) →
        (length (ucs4_octets_of c) ≡ 4) × (base_256_value (ucs4_octets_of c) ≡ c) }
{}

/// A text is told apart from any other by its octets in a code of characters, and these are octets.
pub fn texts_are_told_apart<C: CharacterCode>()
    ensures { IsCode (code_of C.octets_of) }
{}

/// So it is in UTF-16 and in UCS-4 (X.690 8.23.7, 8.23.8).
pub fn utf16_and_ucs4_are_codes()
    ensures utf16 { IsCode utf16_octets }
    ensures ucs4 { IsCode ucs4_octets }
{
    texts_are_told_apart::<Utf16>();
    texts_are_told_apart::<Ucs4>();
}

/// A text in UTF-8 is octets, and told apart from any other by them.
pub fn utf8_texts_are_octets()
    ensures octets { (octets : List ℕ) → IsUtf8 octets → IsOctets octets }
    ensures code { IsCode encode_utf8_all }
{}
