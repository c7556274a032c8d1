//! The rules for universal types.
ghost use Rattle.std.specs.Prelude.{◌≡◌, ◌↔◌, ◌<◌, ◌%◌, ◌^◌, IsTrue, MatchOption};
ghost use Rattle.x690.specs.Integers.{IsShortestInteger};
ghost use Rattle.asn1_strict.specs.Universal.{IsStrictBoolean, IsStrictBits};
ghost use Rattle.asn1_strict.specs.Universal.{HasFormOf, HasCharactersOf, HasContentOf, IsProperOf};
ghost use Rattle.asn1_strict.specs.Requirements.{Meets, Misses};

use crate::requirement::Requirement;
use crate::sets::is_ordered_set;
use x690::integers::{has_redundant_ones, has_redundant_zeros};
use x690::sets::{Ascii, Graphic, Numeric, Printable, all_in};
use x690::shortest::are_shortest_arcs;
use x690::times::strict_texts::{is_strict_generalized_text, is_strict_utc_text};

/// BOOLEAN (11.1).
fn is_strict_boolean(content: &[u8]) -> bool
    ensures { IsTrue result ↔ IsStrictBoolean content.now }
{
    matches!(content, [0] | [255])
}

/// INTEGER and ENUMERATED (8.3.2).
fn is_shortest_integer(content: &[u8]) -> bool
    ensures { IsTrue result ↔ IsShortestInteger content.now }
{
    !content.is_empty() && !has_redundant_zeros(content) && !has_redundant_ones(content)
}

/// Whether so many bits at the end of an octet are zero.
fn ends_in_zeros(octet: u8, count: u8) -> bool
    requires { count < 8 }
    ensures { IsTrue result ↔ (octet % 2 ^ count ≡ 0) }
{
    octet % (1 << count) == 0
}

/// BIT STRING (8.6.2, 11.2).
fn is_strict_bits(content: &[u8]) -> bool
    ensures { IsTrue result ↔ IsStrictBits content.now }
{
    if content.len() < 2 {
        return content.len() == 1 && content[0] == 0;
    }
    content[0] < 8 && ends_in_zeros(content[content.len() - 1], content[0])
}

/// Whether a type's elements are constructed (10.2).
fn has_form(number: u32, constructed: bool) -> bool
    ensures { IsTrue result ↔ HasFormOf number constructed }
{
    matches!(number, 8 | 11 | 16 | 17 | 29) == constructed
}

/// Whether a string has characters of its type alone. Any other type has none, and passes.
fn has_characters_of(number: u32, content: &[u8]) -> bool
    ensures { IsTrue result ↔ HasCharactersOf number content.now }
{
    match number {
        12 => str::from_utf8(content).is_ok(),
        18 => all_in::<Numeric>(content),
        19 => all_in::<Printable>(content),
        22 => all_in::<Ascii>(content),
        26 => all_in::<Graphic>(content),
        28 => content.len() % 4 == 0,
        30 => content.len() % 2 == 0,
        _ => true,
    }
}

/// The requirement that the type with the number has of contents, and whether these meet it.
fn judged_content(number: u32, content: &[u8]) -> (Requirement, bool)
    ensures holds { IsTrue result.1 ↔ HasContentOf number content.now }
    ensures is { IsTrue result.1 ↔ Meets result.0 number content.now }
{
    match number {
        0 => (Requirement::TypedTag, false),
        1 => (Requirement::Boolean, is_strict_boolean(content)),
        2 | 10 => (Requirement::ShortestInteger, is_shortest_integer(content)),
        3 => (Requirement::UnusedBits, is_strict_bits(content)),
        5 => (Requirement::Null, content.is_empty()),
        6 | 13 => (Requirement::ShortestArcs, are_shortest_arcs(content)),
        17 => (Requirement::SetOrder, is_ordered_set(content)),
        23 => (Requirement::UtcTime, is_strict_utc_text(content)),
        24 => (
            Requirement::GeneralizedTime,
            is_strict_generalized_text(content),
        ),
        _ => (Requirement::Characters, has_characters_of(number, content)),
    }
}

/// What DER asks of an element's tag and is not met: of its form, or else of its contents. Tags of other classes than
/// the universal one have their types' rules alone, which nobody knows here.
pub fn departure_of(
    class: u8,
    number: u32,
    constructed: bool,
    content: &[u8],
) -> Option<Requirement>
    ensures { MatchOption result (IsProperOf class number constructed content.now)
        (λ requirement. Misses requirement class number constructed content.now) }
{
    if class != 0 {
        return None;
    }
    if !has_form(number, constructed) {
        return Some(Requirement::Form);
    }
    let (requirement, met) = judged_content(number, content);
    if met { None } else { Some(requirement) }
}
