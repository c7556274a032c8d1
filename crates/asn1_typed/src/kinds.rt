//! Kinds of types in the words of X.680.
ghost use Rattle.std.specs.Prelude.{◌≡◌, ◌++◌, slice_get, OnOk};
ghost use Rattle.asn1_words.specs.Words.{integer_text};
ghost use Rattle.asn1_typed.specs.Kinds.{bound_text, bounds_text, bounds_and_parts_text, has_parts, inner_text};
ghost use Rattle.asn1_typed.specs.Kinds.{kind_word};
ghost use Rattle.asn1_typed.specs.Kinds.{labels_in, own_type_name, named_text, part_names_text, text_word, time_word};
ghost use Rattle.asn1_typed.specs.Kinds.{type_text};

use asn1_schema::build::Schema;
use asn1_schema::names::{PartName, TypeNames};
use asn1_schema::schema::{Kind, TextKind, TimeKind};
use asn1_words::words::{push_long, push_str};
use std::alloc::AllocError;

/// The kind of a type is told by so many types that it leads to.
pub const MOST_DEPTH: u8 = 16;

/// The name of a type of character strings.
fn text_word(kind: TextKind) -> &'static str
    ensures { result.now ≡ text_word kind }
{
    match kind {
        TextKind::Utf8 => "UTF8String",
        TextKind::Numeric => "NumericString",
        TextKind::Printable => "PrintableString",
        TextKind::Teletex => "TeletexString",
        TextKind::Videotex => "VideotexString",
        TextKind::Ia5 => "IA5String",
        TextKind::Graphic => "GraphicString",
        TextKind::Visible => "VisibleString",
        TextKind::General => "GeneralString",
        TextKind::Universal => "UniversalString",
        TextKind::Bmp => "BMPString",
        TextKind::Descriptor => "ObjectDescriptor",
    }
}

/// The name of a type of times.
fn time_word(kind: TimeKind) -> &'static str
    ensures { result.now ≡ time_word kind }
{
    match kind {
        TimeKind::Utc => "UTCTime",
        TimeKind::Generalized => "GeneralizedTime",
    }
}

/// The word of a kind, or what stands before the type that it leads to.
pub(crate) fn kind_word(kind: &Kind) -> &'static str
    ensures { result.now ≡ kind_word kind.now }
{
    match kind {
        Kind::Boolean => "BOOLEAN",
        Kind::Null => "NULL",
        Kind::Integer => "INTEGER",
        Kind::Enumerated(_, _) => "ENUMERATED",
        Kind::Bits(_) => "BIT STRING",
        Kind::Octets => "OCTET STRING",
        Kind::Identifier(true) => "RELATIVE-OID",
        Kind::Identifier(false) => "OBJECT IDENTIFIER",
        Kind::Text(kind) => text_word(*kind),
        Kind::Time(kind) => time_word(*kind),
        Kind::Any => "ANY",
        Kind::Sequence(_, _) => "SEQUENCE",
        Kind::Set(_, _) => "SET",
        Kind::SequenceOf(_) => "SEQUENCE OF ",
        Kind::SetOf(_) => "SET OF ",
        Kind::Choice(_) => "CHOICE",
        Kind::Explicit(_) => "EXPLICIT ",
        Kind::Within(_, _, _) => "",
    }
}

/// Whether the parts of a kind have names that are shown.
fn has_parts(kind: &Kind) -> bool
    ensures { result ≡ has_parts kind.now }
{
    matches!(
        kind,
        Kind::Enumerated(_, _) | Kind::Sequence(_, _) | Kind::Set(_, _) | Kind::Choice(_)
    )
}

/// Appends a number in decimals.
pub(crate) fn push_integer(text: &mut Vec<u8>, number: i128) -> Result<(), AllocError>
    ensures { OnOk result (text.new.items ≡ text.old.items ++ integer_text number) }
{
    if number < 0 {
        push_str(text, "-")?;
    }
    push_long(text, number.unsigned_abs())
}

/// Appends a bound, or a word where there is none.
pub(crate) fn push_bound(
    text: &mut Vec<u8>,
    word: &str,
    bound: Option<i128>,
) -> Result<(), AllocError>
    ensures { OnOk result (text.new.items ≡ text.old.items ++ bound_text word.now bound) }
{
    match bound {
        None => push_str(text, word),
        Some(number) => push_integer(text, number),
    }
}

/// Appends the bounds of a kind, where it has some.
fn push_bounds(text: &mut Vec<u8>, kind: &Kind) -> Result<(), AllocError>
    ensures { OnOk result (text.new.items ≡ text.old.items ++ bounds_text kind.now) }
{
    let Kind::Within(_, lower, upper) = kind else {
        return Ok(());
    };
    push_str(text, " within ")?;
    push_bound(text, "MIN", *lower)?;
    push_str(text, "..")?;
    push_bound(text, "MAX", *upper)
}

/// Appends the names of parts between braces.
fn push_parts(text: &mut Vec<u8>, parts: &[PartName<'_>]) -> Result<(), AllocError>
    ensures { OnOk result (text.new.items ≡ text.old.items ++ part_names_text parts.now) }
{
    let Some((first, others)) = parts.split_first() else {
        return push_str(text, " { }");
    };
    push_str(text, " { ")?;
    push_str(text, first.name)?;
    for other in others {
        push_str(text, ", ")?;
        push_str(text, other.name)?;
    }
    push_str(text, " }")
}

/// The name of the type at a place, empty where it has none.
fn name_at<'n>(names: &[TypeNames<'n>], of: usize) -> &'n str
    ensures { result.now ≡ own_type_name (slice_get names.now of) }
{
    match names.get(of) {
        None => "",
        Some(own) => own.name,
    }
}

/// Appends the names of the parts of the type at a place.
fn push_parts_at(text: &mut Vec<u8>, names: &[TypeNames<'_>], of: usize) -> Result<(), AllocError>
    ensures { OnOk result (text.new.items ≡
        text.old.items ++ part_names_text (labels_in (slice_get names.now of))) }
{
    match names.get(of) {
        None => push_parts(text, &[]),
        Some(own) => push_parts(text, &own.labels),
    }
}

/// Appends the bounds of a kind, and the names of its parts, where it has some.
fn push_end(
    text: &mut Vec<u8>,
    schema: &Schema<'_>,
    of: usize,
    kind: &Kind,
) -> Result<(), AllocError>
    ensures { OnOk result (text.new.items ≡
        text.old.items ++ bounds_and_parts_text (labels_in (slice_get schema.now.names.items of))
        kind.now) }
{
    push_bounds(text, kind)?;
    if has_parts(kind) {
        push_parts_at(text, &schema.names, of)?;
    }
    Ok(())
}

#[cycle(kinds)]
/// Appends the name of the type at a place, or else its kind by so many types that it leads to.
pub fn push_named(
    text: &mut Vec<u8>,
    schema: &Schema<'_>,
    of: usize,
    depth: u8,
) -> Result<(), AllocError>
    ensures { OnOk result (text.new.items ≡ text.old.items ++
        named_text depth schema.now.nodes.items schema.now.names.items of) }
{
    let name = name_at(&schema.names, of);
    if name.is_empty() {
        return push_type(text, schema, of, depth);
    }
    push_str(text, name)
}

#[cycle(kinds)]
/// Appends the type that a kind leads to, where it is one: a member by its name, and others by their kinds.
fn push_inner(
    text: &mut Vec<u8>,
    schema: &Schema<'_>,
    kind: &Kind,
    depth: u8,
) -> Result<(), AllocError>
    ensures { OnOk result (text.new.items ≡ text.old.items ++
        inner_text (named_text depth schema.now.nodes.items schema.now.names.items)
        (type_text depth schema.now.nodes.items schema.now.names.items) kind.now) }
{
    match kind {
        Kind::SequenceOf(of) => push_named(text, schema, *of, depth),
        Kind::SetOf(of) => push_named(text, schema, *of, depth),
        Kind::Explicit(of) => push_type(text, schema, *of, depth),
        Kind::Within(of, _, _) => push_type(text, schema, *of, depth),
        _ => Ok(()),
    }
}

#[tactic(auto, unfolding(crate::specs::Kinds::type_text))]
#[cycle(kinds)]
/// Appends the kind of the type at a place, by so many types that it leads to. A member has its name, or else its kind.
pub fn push_type(
    text: &mut Vec<u8>,
    schema: &Schema<'_>,
    of: usize,
    depth: u8,
) -> Result<(), AllocError>
    ensures { OnOk result (text.new.items ≡ text.old.items ++
        type_text depth schema.now.nodes.items schema.now.names.items of) }
{
    if depth == 0 {
        return push_str(text, "..");
    }
    let Some(node) = schema.nodes.get(of) else {
        return push_str(text, "no type");
    };
    push_str(text, kind_word(&node.kind))?;
    push_inner(text, schema, &node.kind, depth - 1)?;
    push_end(text, schema, of, &node.kind)?;
    Ok(())
}
