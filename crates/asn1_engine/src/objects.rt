//! An element as an object of JSON.
ghost use Rattle.std.specs.Prelude.{◌≡◌, ◌++◌, [], ◌∷◌, ℕ, List, codes, decimal, drop, string_bytes, IfOk, OnOk};
ghost use Rattle.json.specs.Token.{begin_object, end_object, key, number, string};
ghost use Rattle.json.specs.Print.{print};
ghost use Rattle.asn1_engine.specs.Heads.{tag_text};
ghost use Rattle.asn1_engine.specs.Lines.{IsValueText};
ghost use Rattle.asn1_engine.specs.Objects.{GainsTokens, IsObjectText, class_word, length_token, member_tokens};
ghost use Rattle.asn1_engine.specs.Objects.{object_text};
ghost use Rattle.asn1_engine.specs.Objects.{place_tokens, refusal_object_text, refusal_tokens, tag_tokens, value_tokens};

use crate::tags::push_tag;
use crate::values::push_value;
use asn1_headers::class::Class;
use asn1_headers::length::Length;
use asn1_walk::Line;
use asn1_words::octets::behind;
use asn1_words::words::push_str;
use json::Writer;
use std::alloc::{AllocError, Global};

/// A word for a class.
fn class_word(class: Class) -> &'static str
    ensures { result.now ≡ class_word class }
{
    match class {
        Class::Universal => "universal",
        Class::Application => "application",
        Class::ContextSpecific => "context",
        Class::Private => "private",
    }
}

/// Writes a member that is a number.
fn put_number(out: &mut Writer, name: &str, value: u64) -> Result<(), AllocError>
    ensures { OnOk result (GainsTokens out.old out.new
        (key name.now ∷ number (decimal value) ∷ [])) }
{
    out.key(name)?;
    out.u64(value)?;
    Ok(())
}

/// Writes a member that is a text.
fn put_text(out: &mut Writer, name: &str, value: &str) -> Result<(), AllocError>
    ensures { OnOk result (GainsTokens out.old out.new (key name.now ∷ string value.now ∷ [])) }
{
    out.key(name)?;
    out.string(value)?;
    Ok(())
}

/// Writes the length, or null for the indefinite form.
fn put_length(out: &mut Writer, length: Length) -> Result<(), AllocError>
    ensures { OnOk result (GainsTokens out.old out.new (length_token length ∷ [])) }
{
    match length {
        Length::Definite(count) => out.u64(count as u64)?,
        Length::Indefinite => out.null()?,
    }
    Ok(())
}

/// Writes where the element stands, and how long it is.
fn put_place(out: &mut Writer, line: &Line<'_>) -> Result<(), AllocError>
    ensures { OnOk result (GainsTokens out.old out.new (place_tokens line.now)) }
{
    put_number(out, "offset", line.offset as u64)?;
    put_number(out, "depth", line.depth as u64)?;
    put_number(out, "header", line.header_len as u64)?;
    out.key("length")?;
    put_length(out, line.length)?;
    Ok(())
}

/// The tag in the standard's words.
fn shown_tag(alloc: Global, class: Class, number: u32) -> Result<String, AllocError>
    ensures { IfOk result (λ name. string_bytes name ≡ tag_text class number) }
{
    let mut text = Vec::new(alloc);
    push_tag(&mut text, class, number)?;
    let name = String::from_utf8_lossy(alloc, text.as_slice())?;
    Ok(name)
}

/// Writes what the identifier octets say.
fn put_tag(alloc: Global, out: &mut Writer, line: &Line<'_>) -> Result<(), AllocError>
    ensures { OnOk result (GainsTokens out.old out.new (tag_tokens line.now)) }
{
    let name = shown_tag(alloc, line.class, line.number)?;
    put_text(out, "class", class_word(line.class))?;
    put_number(out, "tag", u64::from(line.number))?;
    put_text(out, "name", name.as_str())?;
    out.key("constructed")?;
    out.boolean(line.constructed)?;
    Ok(())
}

/// The value as it stands in a line, without the space before it.
fn shown_value(
    alloc: Global,
    line: &Line<'_>,
    is_entered: bool,
    width: usize,
) -> Result<String, AllocError>
    ensures { IfOk result (λ value. (text : List ℕ) ×
        IsValueText width line.now line.now.constructed is_entered text ×
        (string_bytes value ≡ drop 1 text)) }
{
    let mut text = Vec::new(alloc);
    push_value(alloc, &mut text, width, line, is_entered)?;
    let value = String::from_utf8_lossy(alloc, behind(text.as_slice(), 1))?;
    Ok(value)
}

/// Writes the value and the contents octets of a primitive element.
fn put_value(
    alloc: Global,
    out: &mut Writer,
    line: &Line<'_>,
    value: &str,
) -> Result<(), AllocError>
    ensures { OnOk result (GainsTokens out.old out.new
        (value_tokens line.now.constructed line.now value.now)) }
{
    if line.constructed {
        return Ok(());
    }
    let octets = hex::encode(alloc, line.content)?;
    put_text(out, "value", value)?;
    put_text(out, "octets", octets.as_str())?;
    Ok(())
}

/// The object of an element: what its header says, its type's name, and of a primitive element its value and its
/// contents octets in hexadecimal.
fn object(alloc: Global, line: &Line<'_>, value: &str) -> Result<Vec<u8>, AllocError>
    ensures { IfOk result (λ text.
        text.items ≡ print (begin_object ∷ member_tokens line.now value.now ++ end_object ∷ [])) }
{
    let mut out = Writer::new(Vec::new(alloc));
    out.begin_object()?;
    put_place(&mut out, line)?;
    put_tag(alloc, &mut out, line)?;
    put_value(alloc, &mut out, line, value)?;
    out.end_object()?;
    Ok(out.into_inner())
}

/// Appends the object of an element, with the end of the line.
pub fn push_object(
    alloc: Global,
    line: &Line<'_>,
    is_entered: bool,
    width: usize,
    text: &mut Vec<u8>,
) -> Result<(), AllocError>
    requires { text.old.items ≡ [] }
    ensures { OnOk result (IsObjectText width line.now is_entered text.new.items) }
{
    let value = shown_value(alloc, line, is_entered, width)?;
    let object = object(alloc, line, value.as_str())?;
    text.extend_from_slice(object.as_slice())?;
    push_str(text, "\n")?;
    Ok(())
}

/// The object that tells at which offset no element begins, and why.
fn refusal_object(alloc: Global, offset: usize, why: &str) -> Result<Vec<u8>, AllocError>
    ensures { IfOk result (λ text.
        text.items ≡ print (begin_object ∷ refusal_tokens offset why.now ++ end_object ∷ [])) }
{
    let mut out = Writer::new(Vec::new(alloc));
    out.begin_object()?;
    put_number(&mut out, "offset", offset as u64)?;
    put_text(&mut out, "refused", why)?;
    out.end_object()?;
    Ok(out.into_inner())
}

/// Appends that object, with the end of the line.
pub fn push_refusal_object(
    alloc: Global,
    text: &mut Vec<u8>,
    offset: usize,
    why: &str,
) -> Result<(), AllocError>
    requires { text.old.items ≡ [] }
    ensures { OnOk result (text.new.items ≡ refusal_object_text offset why.now) }
{
    let object = refusal_object(alloc, offset, why)?;
    text.extend_from_slice(object.as_slice())?;
    push_str(text, "\n")?;
    Ok(())
}
