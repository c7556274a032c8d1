//! The octets of character strings, from texts.
ghost use Rattle.std.specs.Prelude.{◌≡◌, IfOk, IfSome, MatchOption, encode_utf8_all};
ghost use Rattle.std.specs.Str.{chars};
ghost use Rattle.x690.specs.Characters.{code_of};
ghost use Rattle.x690.specs.Octets.{IsOctets};
ghost use Rattle.asn1_schema.specs.declared.schema.TextKind.TheVariants as texts;
ghost use Rattle.asn1_json.specs.DenotedLeaves.{DenotesText};
ghost use Rattle.asn1_json.specs.Found.{FindsOnly};

use asn1_schema::schema::TextKind;
use std::alloc::{AllocError, Global};
use x690::characters::{CharacterCode, Ucs4, Utf16, fill};

/// The octets of a text in a code.
fn coded<C: CharacterCode>(alloc: Global, text: &str) -> Result<Vec<u8>, AllocError>
    ensures { IfOk result (λ octets. octets.items ≡ code_of C.octets_of (chars text.now)) }
{
    let mut octets = Vec::new(alloc);
    let mut rest = text;
    while !rest.is_empty() {
        let mut buffer = [0; 256];
        let (len, others) = fill::<C>(rest, &mut buffer);
        octets.extend_from_slice(buffer.as_slice().split_at(len.min(256)).0)?;
        rest = others;
    }
    Ok(octets)
}

/// The numbers of the characters of a text. None are answered where one is above 255.
fn numbers_of(alloc: Global, text: &str) -> Result<Option<Vec<u8>>, AllocError>
    ensures octets { IfOk result (λ found. IfSome found (λ octets. IsOctets octets.items)) }
    ensures numbers { IfOk result (λ found. MatchOption found (¬ IsOctets (chars text.now))
        (λ octets. octets.items ≡ chars text.now)) }
{
    let mut octets = Vec::with_capacity(alloc, text.len())?;
    for character in text.chars() {
        let code = character as u32;
        if code > 255 {
            return Ok(None);
        }
        octets.push(code as u8)?;
    }
    Ok(Some(octets))
}

/// The octets that are the numbers of the characters of a text. None are answered where a number is above 255.
pub(super) fn character_octets(alloc: Global, text: &str) -> Result<Option<Vec<u8>>, AllocError>
    ensures { IfOk result (FindsOnly (λ octets. octets.items)
        (λ octets. IsOctets octets × (text.now ≡ encode_utf8_all octets))) }
{
    numbers_of(alloc, text)
}

/// The octets of a text in UTF-16.
fn bmp_octets(alloc: Global, text: &str) -> Result<Option<Vec<u8>>, AllocError>
    ensures { IfOk result (FindsOnly (λ octets. octets.items) (DenotesText texts.Bmp text.now)) }
{
    let octets = coded::<Utf16>(alloc, text)?;
    Ok(Some(octets))
}

/// The octets of a text in UCS-4.
fn universal_octets(alloc: Global, text: &str) -> Result<Option<Vec<u8>>, AllocError>
    ensures { IfOk result (FindsOnly (λ octets. octets.items)
        (DenotesText texts.Universal text.now)) }
{
    let octets = coded::<Ucs4>(alloc, text)?;
    Ok(Some(octets))
}

/// The octets of a text in the code of a type of character strings. None are answered where a character has none.
pub(super) fn text_octets(
    alloc: Global,
    kind: TextKind,
    text: &str,
) -> Result<Option<Vec<u8>>, AllocError>
    ensures { IfOk result (FindsOnly (λ octets. octets.items) (DenotesText kind text.now)) }
{
    match kind {
        TextKind::Utf8 => {
            let octets = Vec::from_slice(alloc, text.as_bytes())?;
            Ok(Some(octets))
        }
        TextKind::Bmp => bmp_octets(alloc, text),
        TextKind::Universal => universal_octets(alloc, text),
        _ => character_octets(alloc, text),
    }
}
