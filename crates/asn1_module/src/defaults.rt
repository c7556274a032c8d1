//! The strict encodings of default values (X.690 10, 11).

use crate::identifiers::{bits_of_names, identifier_contents};
use crate::mistake::ModuleError;
use crate::places::behind_bounds;
use crate::reader::MOST_DEPTH;
use crate::syntax::ValueSyntax;
use crate::values::Texts;
use asn1_headers::buffer::{DerBuffer, prepend_element};
use asn1_schema::build::Schema;
use asn1_schema::names::PartName;
use asn1_schema::schema::{Field, Kind, Presence, Tags, TextKind, TypeTag};
use std::alloc::Global;

/// The one tag of the type at a place, if its class is one of X.690.
fn tag_of(schema: &Schema<'_>, of: usize) -> Option<TypeTag> {
    match schema.nodes.get(of).map(|node| &node.tags) {
        Some(Tags::Among(tags)) => tags.first().copied(),
        _ => None,
    }
}

/// The octets of a number: the fewest that have it in two's complement (X.690 8.3).
fn number_octets(number: i128) -> ([u8; 16], usize) {
    let octets = number.to_be_bytes();
    let mut redundant = 0usize;
    for pair in octets.windows(2) {
        match pair {
            [0x00, second] if *second < 0x80 => redundant = redundant.saturating_add(1),
            [0xff, second] if *second >= 0x80 => redundant = redundant.saturating_add(1),
            _ => break,
        }
    }
    (octets, redundant)
}

/// The value of a hexadecimal digit, or none.
fn digit_of(octet: u8) -> Option<u8> {
    match octet {
        b'0'..=b'9' => Some(octet - b'0'),
        b'A'..=b'F' => Some(octet - b'A' + 10),
        b'a'..=b'f' => Some(octet - b'a' + 10),
        _ => None,
    }
}

/// Puts the octets of `'0F'H` behind others. An odd digit at the end has four zeros behind it.
fn push_hexadecimal(octets: &mut Vec<u8>, text: &[u8]) -> Result<(), ModuleError> {
    let mut half: Option<u8> = None;
    for digit in text.iter().filter_map(|octet| digit_of(*octet)) {
        match half {
            None => half = Some(digit),
            Some(first) => {
                octets.push(first % 16 * 16 + digit % 16)?;
                half = None;
            }
        }
    }
    if let Some(first) = half {
        octets.push(first % 16 * 16)?;
    }
    Ok(())
}

/// Puts the octets of `'01'B` behind others, and answers how many bits of the last one are not used.
fn push_bits(octets: &mut Vec<u8>, text: &[u8]) -> Result<u8, ModuleError> {
    let mut octet = 0u8;
    let mut unused = 8u8;
    for digit in text {
        if !matches!(*digit, b'0' | b'1') {
            continue;
        }
        unused = unused.saturating_sub(1);
        if *digit == b'1' {
            octet |= 1 << (unused % 8);
        }
        if unused == 0 {
            octets.push(octet)?;
            octet = 0;
            unused = 8;
        }
    }
    if unused == 8 {
        return Ok(0);
    }
    octets.push(octet)?;
    Ok(unused)
}

/// Puts the characters of a text in quotation marks behind others.
fn push_characters(octets: &mut Vec<u8>, text: &[u8]) -> Result<(), ModuleError> {
    let mut is_second = false;
    let inner = text.split_last().map(|(_, inner)| inner).unwrap_or(text);
    for octet in inner {
        is_second = *octet == b'"' && !is_second;
        if !is_second {
            octets.push(*octet)?;
        }
    }
    Ok(())
}

/// The bits of a value as contents octets. Of named bits the last one has to be set (X.690 11.2.2).
fn bit_contents(
    alloc: Global,
    is_named: bool,
    value: ValueSyntax<'_>,
) -> Result<Option<Vec<u8>>, ModuleError> {
    let mut octets = Vec::new(alloc);
    octets.push(0)?;
    let unused = match value {
        ValueSyntax::Empty => return Ok(Some(octets)),
        ValueSyntax::Bits(text) => push_bits(&mut octets, text)?,
        ValueSyntax::Hexadecimal(text) => {
            push_hexadecimal(&mut octets, text)?;
            0
        }
        _ => return Ok(None),
    };
    let last = octets.last().copied().unwrap_or(0);
    if is_named && octets.len() > 1 && (last >> (unused % 8)) % 2 == 0 {
        return Ok(None);
    }
    if let Some(first) = octets.first_mut() {
        *first = unused;
    }
    Ok(Some(octets))
}

/// The octets of an octet string as contents octets.
fn octet_contents(alloc: Global, value: ValueSyntax<'_>) -> Result<Option<Vec<u8>>, ModuleError> {
    let mut octets = Vec::new(alloc);
    match value {
        ValueSyntax::Hexadecimal(text) => push_hexadecimal(&mut octets, text)?,
        ValueSyntax::Bits(text) => {
            if push_bits(&mut octets, text)? != 0 {
                return Ok(None);
            }
        }
        _ => return Ok(None),
    }
    Ok(Some(octets))
}

/// The characters of a string as contents octets. Those of two octets and more are not written.
fn text_contents(
    alloc: Global,
    kind: TextKind,
    value: ValueSyntax<'_>,
) -> Result<Option<Vec<u8>>, ModuleError> {
    let ValueSyntax::Text(text) = value else {
        return Ok(None);
    };
    if matches!(kind, TextKind::Bmp | TextKind::Universal) {
        return Ok(None);
    }
    if kind != TextKind::Utf8 && !text.is_ascii() {
        return Ok(None);
    }
    let mut octets = Vec::new(alloc);
    push_characters(&mut octets, text)?;
    Ok(Some(octets))
}

/// The octets of a number as contents octets.
fn number_contents(alloc: Global, number: Option<i128>) -> Result<Option<Vec<u8>>, ModuleError> {
    let Some(number) = number else {
        return Ok(None);
    };
    let (octets, redundant) = number_octets(number);
    let mut contents = Vec::new(alloc);
    for octet in octets.iter().skip(redundant) {
        contents.push(*octet)?;
    }
    Ok(Some(contents))
}

/// The contents octets of a value of a kind that has no parts, or of an empty list.
fn contents(
    alloc: Global,
    texts: Texts<'_, '_>,
    kind: &Kind,
    labels: &[PartName<'_>],
    at: usize,
) -> Result<Option<Vec<u8>>, ModuleError> {
    let value = texts.value(at);
    match kind {
        Kind::Integer => number_contents(alloc, texts.number(at, labels)),
        Kind::Enumerated(_, _) => number_contents(alloc, texts.listed(at, labels)),
        Kind::Bits(is_named) => match texts.names(value) {
            Some(names) => bits_of_names(alloc, texts, names, labels),
            None => bit_contents(alloc, *is_named, value),
        },
        Kind::Identifier(is_relative) => { identifier_contents(alloc, texts, at, *is_relative) }
        Kind::Octets => octet_contents(alloc, value),
        Kind::Text(text) => text_contents(alloc, *text, value),
        Kind::Boolean => match value {
            ValueSyntax::Boolean(true) => Ok(Some(Vec::from_array(alloc, [0xff])?)),
            ValueSyntax::Boolean(false) => Ok(Some(Vec::from_array(alloc, [0])?)),
            _ => Ok(None),
        },
        Kind::Null => match value {
            ValueSyntax::Null => Ok(Some(Vec::new(alloc))),
            _ => Ok(None),
        },
        Kind::SequenceOf(_) => empty_contents(alloc, value),
        Kind::SetOf(_) => empty_contents(alloc, value),
        Kind::Sequence(fields, _) if may_be_empty(fields) => empty_contents(alloc, value),
        Kind::Set(fields, _) if may_be_empty(fields) => empty_contents(alloc, value),
        _ => Ok(None),
    }
}

/// Whether each field may be left out.
fn may_be_empty(fields: &[Field]) -> bool {
    for field in fields {
        if matches!(&field.presence, Presence::Required) {
            return false;
        }
    }
    true
}

/// The contents octets of a list without members, or of a sequence or a set without fields.
fn empty_contents(alloc: Global, value: ValueSyntax<'_>) -> Result<Option<Vec<u8>>, ModuleError> {
    match value {
        ValueSyntax::Empty => Ok(Some(Vec::new(alloc))),
        _ => Ok(None),
    }
}

/// The elements round a type, from outside, and the place of what stands in them.
fn elements_round(
    alloc: Global,
    schema: &Schema<'_>,
    of: usize,
) -> Result<(Vec<TypeTag>, usize), ModuleError> {
    let mut tags = Vec::new(alloc);
    let mut inner = behind_bounds(schema, of);
    for _ in 0..MOST_DEPTH {
        match schema.nodes.get(inner).map(|node| &node.kind) {
            Some(Kind::Explicit(next)) => {
                let next = *next;
                if let Some(tag) = tag_of(schema, inner) {
                    tags.push(tag)?;
                }
                inner = behind_bounds(schema, next);
            }
            _ => break,
        }
    }
    Ok((tags, inner))
}

/// Puts a header before the octets of a buffer. `None` where memory ran out.
fn put_header(buffer: &mut DerBuffer, tag: TypeTag, constructed: bool) -> Option<()> {
    if tag.class > 3 {
        return None;
    }
    let len = buffer.len();
    match prepend_element(tag.class, constructed, tag.number, Ok(len), buffer) {
        Ok(_) => Some(()),
        Err(_) => None,
    }
}

/// The element with these contents octets, in the elements that stand round it.
fn element(
    alloc: Global,
    contents: &[u8],
    own: (TypeTag, bool),
    round: &[TypeTag],
) -> Result<Vec<u8>, ModuleError> {
    let mut buffer = DerBuffer::new(alloc);
    if buffer.prepend(contents).is_err() || put_header(&mut buffer, own.0, own.1).is_none() {
        return Err(ModuleError::OutOfMemory);
    }
    for tag in round.iter().rev() {
        if put_header(&mut buffer, *tag, true).is_none() {
            return Err(ModuleError::OutOfMemory);
        }
    }
    Ok(Vec::from_slice(alloc, buffer.as_bytes())?)
}

/// Whether elements stand in the contents octets of a type (X.690 8.9.1, 8.10.1, 8.11.1, 8.12.1).
fn is_constructed(kind: &Kind) -> bool {
    match kind {
        Kind::SequenceOf(_) => true,
        Kind::SetOf(_) => true,
        Kind::Sequence(_, _) => true,
        Kind::Set(_, _) => true,
        _ => false,
    }
}

/// The strict encoding of a default value of the type at a place, or none where it is not read.
pub(crate) fn default_octets<'t>(
    alloc: Global,
    texts: Texts<'_, 't>,
    schema: &Schema<'t>,
    of: usize,
    at: usize,
) -> Result<Option<Vec<u8>>, ModuleError> {
    let (round, inner) = elements_round(alloc, schema, of)?;
    let (Some(node), Some(names)) = (schema.nodes.get(inner), schema.names.get(inner)) else {
        return Ok(None);
    };
    let Some(octets) = contents(alloc, texts, &node.kind, &names.labels, at)? else {
        return Ok(None);
    };
    let Some(tag) = tag_of(schema, inner) else {
        return Ok(None);
    };
    Ok(Some(element(alloc, &octets, (tag, is_constructed(&node.kind)), &round)?))
}
