//! Default values in the notation of X.680.

use crate::normal::named::RowNames;
use asn1_headers::der::element_by_der;
use asn1_schema::names::PartName;
use asn1_schema::schema::Kind;
use asn1_words::decimals::push_integer;
use asn1_words::identifiers::{have_arcs, push_arcs};
use asn1_words::words::push_str;
use std::alloc::AllocError;
use x690::signed::signed_number;

/// So many tags and bounds stand round a type at most.
const MOST_ROUND: usize = 8192;

/// How many elements stand round the value of a row, and the row of what stands in them.
fn behind_elements(rows: &RowNames<'_, '_>, of: usize) -> (usize, usize) {
    let (mut inner, mut count) = (of, 0usize);
    for _ in 0..MOST_ROUND {
        match rows.nodes.get(inner).map(|node| &node.kind) {
            Some(Kind::Within(next, _, _)) => inner = *next,
            Some(Kind::Explicit(next)) => {
                inner = *next;
                count = count.saturating_add(1);
            }
            _ => break,
        }
    }
    (inner, count)
}

/// The contents octets of an element in so many other ones.
fn contents_in(octets: &[u8], count: usize) -> Option<&[u8]> {
    let mut contents = octets;
    for _ in 0..count.saturating_add(1) {
        match element_by_der(contents) {
            Ok((_, (_, inner))) => contents = inner,
            Err(_) => return None,
        }
    }
    Some(contents)
}

/// Appends the name of a number, or the number where it has none.
fn push_number_of(
    text: &mut Vec<u8>,
    labels: &[PartName<'_>],
    contents: &[u8],
) -> Result<(), AllocError> {
    let number = signed_number(contents, 16);
    for label in labels {
        if Some(label.number) == number {
            return push_str(text, label.name);
        }
    }
    push_integer(text, contents)
}

/// Whether the bit at a place is set.
fn is_set(octets: &[u8], place: i128) -> bool {
    let Ok(place) = usize::try_from(place) else {
        return false;
    };
    match octets.get(place / 8) {
        None => false,
        Some(octet) => (*octet >> (7 - place % 8)) % 2 == 1,
    }
}

/// How many bits are set.
fn count_set(octets: &[u8]) -> usize {
    let mut count = 0usize;
    for octet in octets {
        count = count.saturating_add(octet.count_ones() as usize);
    }
    count
}

/// How many of named bits are set.
fn count_named(labels: &[PartName<'_>], octets: &[u8]) -> usize {
    let mut count = 0usize;
    for label in labels {
        if is_set(octets, label.number) {
            count = count.saturating_add(1);
        }
    }
    count
}

/// Appends the names of the bits that are set.
fn push_bit_names(
    text: &mut Vec<u8>,
    labels: &[PartName<'_>],
    octets: &[u8],
) -> Result<(), AllocError> {
    let mut mark = "{ ";
    for label in labels {
        if is_set(octets, label.number) {
            push_str(text, mark)?;
            push_str(text, label.name)?;
            mark = ", ";
        }
    }
    push_str(text, if mark == "{ " { "{ }" } else { " }" })
}

/// Appends bits as `'01'B`.
fn push_bits(text: &mut Vec<u8>, octets: &[u8], count: usize) -> Result<(), AllocError> {
    push_str(text, "'")?;
    for place in 0..count {
        let is_one = is_set(octets, place as i128);
        push_str(text, if is_one { "1" } else { "0" })?;
    }
    push_str(text, "'B")
}

/// Appends the bits of contents octets: by their names where all that are set have some.
fn push_bit_string(
    text: &mut Vec<u8>,
    labels: &[PartName<'_>],
    is_named: bool,
    contents: &[u8],
) -> Result<(), AllocError> {
    let (unused, octets) = match contents.split_first() {
        None => (0, contents),
        Some((unused, octets)) => (usize::from(*unused), octets),
    };
    if is_named && count_named(labels, octets) == count_set(octets) {
        return push_bit_names(text, labels, octets);
    }
    let count = octets.len().saturating_mul(8).saturating_sub(unused);
    push_bits(text, octets, count)
}

/// The hexadecimal digit of the last four bits of an octet.
fn digit_of(octet: u8) -> u8 {
    match octet % 16 {
        digit @ 0..=9 => b'0' + digit,
        digit => b'A' + (digit - 10),
    }
}

/// Appends octets as `'0F'H`.
fn push_octets(text: &mut Vec<u8>, octets: &[u8]) -> Result<(), AllocError> {
    push_str(text, "'")?;
    for octet in octets {
        text.push(digit_of(*octet / 16))?;
        text.push(digit_of(*octet))?;
    }
    push_str(text, "'H")
}

/// Appends characters in quotation marks, of which two stand for one.
fn push_characters(text: &mut Vec<u8>, octets: &[u8]) -> Result<(), AllocError> {
    push_str(text, "\"")?;
    for octet in octets {
        text.push(*octet)?;
        if *octet == b'"' {
            text.push(b'"')?;
        }
    }
    push_str(text, "\"")
}

/// Appends the arcs of an identifier, and tells whether it has some.
fn push_identifier(
    text: &mut Vec<u8>,
    is_relative: bool,
    contents: &[u8],
) -> Result<bool, AllocError> {
    if !have_arcs(is_relative, contents) {
        return Ok(false);
    }
    push_str(text, "{ ")?;
    let start = text.len();
    push_arcs(text, is_relative, contents)?;
    for octet in text.iter_mut().skip(start) {
        if *octet == b'.' {
            *octet = b' ';
        }
    }
    push_str(text, " }")?;
    Ok(true)
}

/// Appends the value that octets are by the type at a row, and tells whether it has a notation.
pub(crate) fn push_value(
    text: &mut Vec<u8>,
    rows: &RowNames<'_, '_>,
    of: usize,
    octets: &[u8],
) -> Result<bool, AllocError> {
    let (inner, count) = behind_elements(rows, of);
    let (Some(node), Some(contents)) = (rows.nodes.get(inner), contents_in(octets, count)) else {
        return Ok(false);
    };
    let labels = rows.labels(inner);
    match &node.kind {
        Kind::Boolean => {
            let is_true = contents.first().copied() != Some(0);
            push_str(text, if is_true { "TRUE" } else { "FALSE" })?;
        }
        Kind::Null => push_str(text, "NULL")?,
        Kind::Integer => push_number_of(text, labels, contents)?,
        Kind::Enumerated(_, _) => push_number_of(text, labels, contents)?,
        Kind::Bits(is_named) => push_bit_string(text, labels, *is_named, contents)?,
        Kind::Octets => push_octets(text, contents)?,
        Kind::Text(_) => push_characters(text, contents)?,
        Kind::Identifier(is_relative) => return push_identifier(text, *is_relative, contents),
        _ if contents.is_empty() => push_str(text, "{ }")?,
        _ => return Ok(false),
    }
    Ok(true)
}
