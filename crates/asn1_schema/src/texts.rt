//! Character strings (X.690 8.23; X.680 41).
ghost use Rattle.std.specs.Prelude.{ℕ, List, ◌≡◌, ◌<◌, length, map, IsTrue, ◌↔◌, IsUtf8};
ghost use Rattle.x690.specs.Sets.{AllIn};
ghost use Rattle.x690.specs.Characters.{code_of, Codes};
ghost use Rattle.asn1_schema.specs.declared.schema.TextKind.TheVariants as texts;
ghost use Rattle.asn1_schema.specs.Grammar.{IsText};
ghost use Rattle.asn1_schema.specs.Joined.{AreWholeCharacters, said};

use crate::joined::{Joined, behind, first_four};
use crate::schema::TextKind;
use x690::characters::{CharacterCode, Ucs4, Utf16, text_len};
use x690::sets::{Ascii, CharacterSet, Graphic, Numeric, Printable, all_in};

/// UTF8String.
fn are_utf8(content: &[u8]) -> bool
    ensures { IsTrue result ↔ IsUtf8 content.now }
{
    str::from_utf8(content).is_ok()
}

/// BMPString (X.690 8.23.8).
fn are_bmp(content: &[u8]) -> bool
    ensures { IsTrue result ↔ IsText texts.Bmp content.now }
{
    text_len::<Utf16>(content).is_some()
}

/// UniversalString (X.690 8.23.7).
fn are_universal(content: &[u8]) -> bool
    ensures { IsTrue result ↔ IsText texts.Universal content.now }
{
    text_len::<Ucs4>(content).is_some()
}

/// Whether the octets are characters of the type. The sets that are registers are not judged.
pub(crate) fn is_text(kind: TextKind, content: &[u8]) -> bool
    ensures { IsTrue result ↔ IsText kind content.now }
{
    match kind {
        TextKind::Utf8 => are_utf8(content),
        TextKind::Numeric => all_in::<Numeric>(content),
        TextKind::Printable => all_in::<Printable>(content),
        TextKind::Ia5 => all_in::<Ascii>(content),
        TextKind::Visible => all_in::<Graphic>(content),
        TextKind::Universal => are_universal(content),
        TextKind::Bmp => are_bmp(content),
        TextKind::Teletex => true,
        TextKind::Videotex => true,
        TextKind::Graphic => true,
        TextKind::General => true,
        TextKind::Descriptor => true,
    }
}

/// How many octets at the front are characters in UTF-8, of these that are four or all.
fn utf8_front(octets: &[u8]) -> usize
    requires { 0 < length octets.now }
    ensures { AreWholeCharacters IsUtf8 octets.now result }
{
    match str::from_utf8(octets) {
        Ok(_) => octets.len(),
        Err(error) => error.valid_up_to(),
    }
}

/// How many octets at the front are of a set: all of these, or else none.
fn set_front<S: CharacterSet>(octets: &[u8]) -> usize
    requires { 0 < length octets.now }
    ensures { AreWholeCharacters (AllIn S.in_set) octets.now result }
{
    if all_in::<S>(octets) {
        return octets.len();
    }
    0
}

/// How many octets at the front are a character in a code, of these that are four or all.
fn code_front<C: CharacterCode>(octets: &[u8]) -> usize
    requires { 0 < length octets.now }
    ensures { AreWholeCharacters (λ o. (cs : List ℕ) × Codes (code_of C.octets_of) o cs) octets.now
        result }
{
    match C::first(octets) {
        Some((_, others)) => octets.len() - others.len(),
        None => 0,
    }
}

/// How many octets at the front are characters of the type, of these that are four or all.
fn text_front(kind: TextKind, octets: &[u8]) -> usize
    requires { 0 < length octets.now }
    ensures { AreWholeCharacters (IsText kind) octets.now result }
{
    match kind {
        TextKind::Utf8 => utf8_front(octets),
        TextKind::Numeric => set_front::<Numeric>(octets),
        TextKind::Printable => set_front::<Printable>(octets),
        TextKind::Ia5 => set_front::<Ascii>(octets),
        TextKind::Visible => set_front::<Graphic>(octets),
        TextKind::Universal => code_front::<Ucs4>(octets),
        TextKind::Bmp => code_front::<Utf16>(octets),
        TextKind::Teletex => octets.len(),
        TextKind::Videotex => octets.len(),
        TextKind::Graphic => octets.len(),
        TextKind::General => octets.len(),
        TextKind::Descriptor => octets.len(),
    }
}

/// Whether pieces join to characters of the type. A character may stand in several.
pub(crate) fn are_text(kind: TextKind, source: Joined<'_, '_>) -> bool
    ensures { IsTrue result ↔ IsText kind (said source.entry) }
{
    let mut source = source;
    loop {
        let (four, count) = first_four(source);
        if count == 0 {
            return true;
        }
        let characters = text_front(kind, &four[..count]);
        if characters == 0 {
            return false;
        }
        source = behind(source, characters);
    }
}
