//! Why octets are no value of a type, in a line.
ghost use Rattle.std.specs.Prelude.{◌≡◌, ◌++◌, List, ℕ, OnOk};
ghost use Rattle.asn1_engine.specs.Trees.{sum_within};
ghost use Rattle.asn1_words.specs.Words.{number_text};
ghost use Rattle.asn1_typed.specs.Refusals.{IsNamedRefusalLine, IsToldRefusal, octet_text, reason_text};

use crate::input::Input;
use crate::kinds::{MOST_DEPTH, push_named};
use crate::path::push_path;
use asn1_engine::push_first_line;
use asn1_schema::build::Schema;
use asn1_schema::refusal::{Reason, Refusal};
use asn1_words::octets::behind;
use asn1_words::words::{push_number, push_str};
use std::alloc::{AllocError, Global};

/// The value of an element has as many columns at most.
const LINE_WIDTH: usize = 64;

/// A reason in words.
fn reason_words(reason: Reason) -> &'static str
    ensures { result.now ≡ reason_text reason }
{
    match reason {
        Reason::Nothing => "nothing is refused",
        Reason::Depth => "elements nest deeper than 64",
        Reason::MissingType => "the table has no such type",
        Reason::Element => "no element begins here, or it is truncated",
        Reason::Tag => "the tag is not one of the type",
        Reason::Form => "the element is primitive, and the type is constructed",
        Reason::Contents => "the contents octets have no value of the type",
        Reason::Bounds => "the number or the size is out of bounds",
        Reason::MissingField => "a component is missing",
        Reason::Order => "the elements of a set do not ascend by their tags",
        Reason::Repeated => "a component stands there more than once",
        Reason::Default => "the default is no value of its type",
        Reason::TrailingOctets => "octets follow where none may",
    }
}

/// Appends the number of the octet of a refusal in its file, and the names of the parts that lead to it as far as they
/// are known.
pub fn push_number_and_names(
    alloc: Global,
    text: &mut Vec<u8>,
    input: Input<'_>,
    schema: &Schema<'_>,
    of: usize,
    refusal: &Refusal,
) -> Result<(), AllocError>
    ensures { OnOk result ((path : List ℕ) × (text.new.items ≡
        text.old.items ++ (number_text (sum_within input.entry.offset refusal.now.octet) ++ path))) }
{
    let mut path = Vec::new(alloc);
    push_path(&mut path, schema, of, input.octets, refusal)?;
    push_number(text, input.offset.saturating_add(refusal.octet) as u64)?;
    text.extend_from_slice(path.as_slice())?;
    Ok(())
}

/// Appends the name of a file, the octet of a refusal in it, and the names of the parts that lead to it.
pub fn push_octet(
    alloc: Global,
    text: &mut Vec<u8>,
    input: Input<'_>,
    schema: &Schema<'_>,
    of: usize,
    refusal: &Refusal,
) -> Result<(), AllocError>
    ensures { OnOk result ((path : List ℕ) ×
        (text.new.items ≡ text.old.items ++ (octet_text input.entry refusal.now.octet ++ path))) }
{
    push_str(text, input.name)?;
    push_str(text, ": octet ")?;
    push_number_and_names(alloc, text, input, schema, of, refusal)?;
    Ok(())
}

/// Appends the line of a refusal: its octet, and why.
pub fn push_refusal(
    alloc: Global,
    text: &mut Vec<u8>,
    input: Input<'_>,
    schema: &Schema<'_>,
    of: usize,
    refusal: &Refusal,
) -> Result<(), AllocError>
    ensures { OnOk result ((line : List ℕ) ×
        IsNamedRefusalLine schema.now.nodes.items schema.now.names.items input.entry refusal.now
        line ×
        (text.new.items ≡ text.old.items ++ line)) }
{
    push_octet(alloc, text, input, schema, of, refusal)?;
    push_str(text, " (")?;
    push_named(text, schema, refusal.of, MOST_DEPTH)?;
    push_str(text, "): ")?;
    push_str(text, reason_words(refusal.reason))?;
    push_str(text, "\n")?;
    Ok(())
}

/// Appends the line of a refusal, and the line of the tree for the element that begins at its octet, if one does.
pub fn push_refusal_and_element(
    alloc: Global,
    text: &mut Vec<u8>,
    input: Input<'_>,
    schema: &Schema<'_>,
    of: usize,
    refusal: &Refusal,
) -> Result<(), AllocError>
    ensures { OnOk result ((told : List ℕ) ×
        IsToldRefusal schema.now.nodes.items schema.now.names.items input.entry refusal.now told ×
        (text.new.items ≡ text.old.items ++ told)) }
{
    push_refusal(alloc, text, input, schema, of, refusal)?;
    let rest = behind(input.octets, refusal.octet);
    let offset = input.offset.saturating_add(refusal.octet);
    push_first_line(alloc, text, rest, offset, LINE_WIDTH)?;
    Ok(())
}
