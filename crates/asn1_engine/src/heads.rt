//! The front of an element's line: all but its value.
ghost use Rattle.std.specs.Prelude.{◌≡◌, ◌++◌, OnOk};
ghost use Rattle.asn1_engine.specs.Heads.{depth_text, form_text, head_text, is_mostly_constructed, length_text};

use crate::tags::push_tag;
use asn1_headers::class::Class;
use asn1_headers::length::Length;
use asn1_walk::Line;
use asn1_words::words::{push_left, push_number, push_right, push_spaces, push_str};
use std::alloc::AllocError;

/// Elements in more elements than these are not set further in, and tell their depth.
const DEEPEST_INDENT: usize = 40;

/// Whether elements of a universal type are constructed in DER.
pub fn is_mostly_constructed(number: u32) -> bool
    ensures { result ≡ is_mostly_constructed number }
{
    matches!(number, 8 | 11 | 16 | 17 | 29)
}

/// A word for the form, where the tag does not tell it.
fn form_word(class: Class, number: u32, constructed: bool) -> &'static str
    ensures { result.now ≡ form_text class number constructed }
{
    if class != Class::Universal {
        return "";
    }
    match (is_mostly_constructed(number), constructed) {
        (false, true) => " (constructed)",
        (true, false) => " (primitive)",
        _ => "",
    }
}

/// Appends how many contents octets there are.
fn push_length(text: &mut Vec<u8>, length: Length) -> Result<(), AllocError>
    ensures { OnOk result (text.new.items ≡ text.old.items ++ length_text length) }
{
    match length {
        Length::Definite(count) => push_left(text, 10, count as u64),
        Length::Indefinite => push_str(text, "indefinite"),
    }
}

/// Appends as many columns as tell the depth.
fn push_depth(text: &mut Vec<u8>, depth: usize) -> Result<(), AllocError>
    ensures { OnOk result (text.new.items ≡ text.old.items ++ depth_text depth) }
{
    push_spaces(text, 2 * depth.min(DEEPEST_INDENT))?;
    if depth > DEEPEST_INDENT {
        push_str(text, "(in ")?;
        push_number(text, depth as u64)?;
        push_str(text, ") ")?;
    }
    Ok(())
}

/// Appends the front of a line. It has the offset and the counts of header and contents octets. The depth is told by
/// how far the tag is set in. The form follows where it is not the one that the type mostly has.
pub fn push_head(text: &mut Vec<u8>, line: &Line<'_>) -> Result<(), AllocError>
    ensures { OnOk result (text.new.items ≡ text.old.items ++ head_text line.now) }
{
    push_right(text, 7, line.offset as u64)?;
    push_str(text, " ")?;
    push_right(text, 2, line.header_len as u64)?;
    push_str(text, "+")?;
    push_length(text, line.length)?;
    push_str(text, " ")?;
    push_depth(text, line.depth)?;
    push_tag(text, line.class, line.number)?;
    push_str(text, form_word(line.class, line.number, line.constructed))
}
