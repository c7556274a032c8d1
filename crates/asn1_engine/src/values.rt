//! The value of a primitive element, in a line.
ghost use Rattle.std.specs.Prelude.{◌≡◌, ◌++◌, List, ℕ, Option, option_map, false, true, OnOk};
ghost use Rattle.asn1_engine.specs.Values.{bits_text, identifier_text, name_text, octets_text, truth_text};
ghost use Rattle.asn1_engine.specs.Values.{shown_arcs_text, whole_number_text};
ghost use Rattle.asn1_words.specs.Numbers.{are_shown};
ghost use Rattle.asn1_engine.specs.Lines.{IsContentText, IsShownName, IsValueText, number_shown_as};

use crate::texts::{Coding, push_quoted};
use asn1_headers::class::Class;
use asn1_names::name_of;
use asn1_walk::Line;
use asn1_words::decimals::push_integer;
use asn1_words::identifiers::{have_arcs, push_arcs};
use asn1_words::words::{push_hexadecimal, push_left_out, push_long, push_str, truncated_behind};
use std::alloc::{AllocError, Global};

/// As many octets of an integer are shown in decimals; more are shown in hexadecimal.
const MOST_DECIMAL: usize = 40;

/// The arcs of as many octets are shown whatever the width is.
const MOST_WHOLE: usize = 40;

/// Appends octets in hexadecimal, within a width of two columns each.
fn push_octets(text: &mut Vec<u8>, width: usize, octets: &[u8]) -> Result<(), AllocError>
    ensures { OnOk result (text.new.items ≡ text.old.items ++ octets_text width octets.now) }
{
    if octets.is_empty() {
        return push_str(text, "(empty)");
    }
    let most = width / 2;
    if octets.len() <= most {
        return push_hexadecimal(text, octets);
    }
    push_hexadecimal(text, &octets[..most])?;
    push_left_out(text, octets.len())
}

/// BOOLEAN: a word. Octets that are none by DER stand behind it.
fn push_truth(text: &mut Vec<u8>, width: usize, content: &[u8]) -> Result<(), AllocError>
    ensures { OnOk result (text.new.items ≡ text.old.items ++ truth_text width content.now) }
{
    match content {
        [0] => push_str(text, "FALSE"),
        [0xff] => push_str(text, "TRUE"),
        [_octet] => {
            push_str(text, "TRUE (")?;
            push_hexadecimal(text, content)?;
            push_str(text, ")")
        }
        _ => push_octets(text, width, content),
    }
}

/// INTEGER and ENUMERATED: decimals, or octets where they are many.
fn push_whole_number(text: &mut Vec<u8>, width: usize, content: &[u8]) -> Result<(), AllocError>
    ensures { OnOk result (text.new.items ≡ text.old.items ++ whole_number_text width content.now) }
{
    if content.is_empty() || content.len() > MOST_DECIMAL {
        return push_octets(text, width, content);
    }
    push_integer(text, content)
}

/// BIT STRING: the number of bits, and the octets behind the count of unused ones.
fn push_bits(text: &mut Vec<u8>, width: usize, content: &[u8]) -> Result<(), AllocError>
    ensures { OnOk result (text.new.items ≡ text.old.items ++ bits_text width content.now) }
{
    match content {
        [unused, octets @ ..] if *unused < 8 && (!octets.is_empty() || *unused == 0) => {
            push_long(text, 8 * octets.len() as u128 - u128::from(*unused))?;
            push_str(text, " bits ")?;
            push_octets(text, width, octets)
        }
        _ => push_octets(text, width, content),
    }
}

/// A name in parentheses, where there is one.
fn push_name(text: &mut Vec<u8>, name: Option<&str>) -> Result<(), AllocError>
    ensures { OnOk result (text.new.items ≡ text.old.items ++ name_text (option_map (λ n. n.now) name.entry)) }
{
    if let Some(name) = name {
        push_str(text, " (")?;
        push_str(text, name)?;
        push_str(text, ")")?;
    }
    Ok(())
}

/// The name of an identifier that is not relative, where it is a common one.
fn shown_name(relative: bool, content: &[u8]) -> Option<&'static str>
    ensures { IsShownName relative content.now (option_map (λ n. n.now) result) }
{
    if relative {
        return None;
    }
    name_of(content)
}

/// The arcs, within the width where the contents octets are many.
fn push_shown_arcs(
    text: &mut Vec<u8>,
    width: usize,
    relative: bool,
    content: &[u8],
) -> Result<(), AllocError>
    requires { are_shown relative content.now ≡ true }
    ensures { OnOk result (text.new.items ≡ text.old.items ++ shown_arcs_text width relative content.now) }
{
    let start = text.len();
    push_arcs(text, relative, content)?;
    if content.len() <= MOST_WHOLE {
        return Ok(());
    }
    truncated_behind(text, start, width, content.len())
}

/// OBJECT IDENTIFIER and RELATIVE-OID: the arcs, and the name of a common identifier.
fn push_identifier(
    text: &mut Vec<u8>,
    width: usize,
    relative: bool,
    content: &[u8],
) -> Result<(), AllocError>
    ensures { OnOk result ((name : Option (List ℕ)) ×
        (are_shown relative content.now ≡ true → IsShownName relative content.now name) ×
        (text.new.items ≡ text.old.items ++ identifier_text width relative name content.now)) }
{
    if !have_arcs(relative, content) {
        return push_octets(text, width, content);
    }
    push_shown_arcs(text, width, relative, content)?;
    let name = shown_name(relative, content);
    push_name(text, name)?;
    Ok(())
}

/// The value of a universal type, behind a space.
fn push_universal(
    alloc: Global,
    text: &mut Vec<u8>,
    width: usize,
    number: u32,
    content: &[u8],
) -> Result<(), AllocError>
    ensures { OnOk result ((shown : List ℕ) ×
        IsContentText (number_shown_as number) width content.now shown ×
        (text.new.items ≡ text.old.items ++ shown)) }
{
    if number == 5 && content.is_empty() {
        return Ok(());
    }
    push_str(text, " ")?;
    match number {
        1 => push_truth(text, width, content),
        2 | 10 => push_whole_number(text, width, content),
        3 => push_bits(text, width, content),
        6 => push_identifier(text, width, false, content),
        13 => push_identifier(text, width, true, content),
        12 | 35 | 36 => push_quoted(alloc, text, Coding::Utf8, width, content),
        28 => push_quoted(alloc, text, Coding::Ucs4, width, content),
        30 => push_quoted(alloc, text, Coding::Utf16, width, content),
        7 | 14 | 18..=27 | 31..=34 => push_quoted(alloc, text, Coding::Ascii, width, content),
        _ => push_octets(text, width, content),
    }
}

/// Appends the value of an element, behind a space; nothing where it is constructed, or has no value. The width is in
/// columns, and bounds all but numbers and identifiers of 40 octets at most.
pub fn push_value(
    alloc: Global,
    text: &mut Vec<u8>,
    width: usize,
    line: &Line<'_>,
    is_entered: bool,
) -> Result<(), AllocError>
    ensures { OnOk result ((shown : List ℕ) ×
        IsValueText width line.now line.now.constructed is_entered shown ×
        (text.new.items ≡ text.old.items ++ shown)) }
{
    if line.constructed {
        return Ok(());
    }
    if is_entered {
        return push_str(text, " holds");
    }
    if line.class == Class::Universal {
        return push_universal(alloc, text, width, line.number, line.content);
    }
    push_str(text, " ")?;
    push_octets(text, width, line.content)
}
