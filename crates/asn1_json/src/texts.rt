//! The characters of strings, in UTF-8.
ghost use Rattle.std.specs.Prelude.{◌≡◌, IfOk, encode_utf8_all, string_bytes, map};
ghost use Rattle.asn1_schema.specs.declared.schema.TextKind.TheVariants as kinds;
ghost use Rattle.asn1_json.specs.Texts.{text_of, units_in, codes_in, character_of};

use asn1_schema::schema::TextKind;
use std::alloc::{AllocError, Global};

/// The text whose characters have the numbers that octets are.
pub fn octet_text(alloc: Global, octets: &[u8]) -> Result<String, AllocError>
    ensures { IfOk result (λ text. string_bytes text ≡ encode_utf8_all octets.now) }
{
    let mut text = String::with_capacity(alloc, octets.len())?;
    for octet in octets {
        text.push(char::from(*octet))?;
    }
    Ok(text)
}

/// The units of UTF-16 that octets say.
fn units_in(alloc: Global, octets: &[u8]) -> Result<Vec<u16>, AllocError>
    ensures { IfOk result (λ units. units.items ≡ units_in octets.now) }
{
    let mut units = Vec::new(alloc);
    let mut rest = octets;
    while let [high, low, others @ ..] = rest {
        units.push(u16::from(*high) * 256 + u16::from(*low))?;
        rest = others;
    }
    Ok(units)
}

/// The text of a BMPString.
fn bmp_text(alloc: Global, octets: &[u8]) -> Result<String, AllocError>
    ensures { IfOk result (λ text. string_bytes text ≡ text_of kinds.Bmp octets.now) }
{
    let units = units_in(alloc, octets)?;
    String::from_utf16_lossy(alloc, units.as_slice())
}

/// The character with a number, or U+FFFD.
fn character_of(code: u32) -> char
    ensures { result ≡ character_of code }
{
    match char::from_u32(code) {
        Some(character) => character,
        None => '\u{FFFD}',
    }
}

/// The text of a UniversalString.
fn universal_text(alloc: Global, octets: &[u8]) -> Result<String, AllocError>
    ensures { IfOk result (λ text. string_bytes text ≡ text_of kinds.Universal octets.now) }
{
    let mut text = String::with_capacity(alloc, octets.len() / 4)?;
    let mut rest = octets;
    while let [first, second, third, fourth, others @ ..] = rest {
        let code = u32::from_be_bytes([*first, *second, *third, *fourth]);
        text.push(character_of(code))?;
        rest = others;
    }
    Ok(text)
}

/// The text of a character string.
pub fn text_of(alloc: Global, kind: TextKind, octets: &[u8]) -> Result<String, AllocError>
    ensures { IfOk result (λ text. string_bytes text ≡ text_of kind octets.now) }
{
    match kind {
        TextKind::Utf8 => String::from_utf8_lossy(alloc, octets),
        TextKind::Bmp => bmp_text(alloc, octets),
        TextKind::Universal => universal_text(alloc, octets),
        _ => octet_text(alloc, octets),
    }
}
