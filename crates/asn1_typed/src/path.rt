//! The names of the parts that lead to an octet.

use asn1_headers::header::reading::header_by_ber;
use asn1_headers::length::Length;
use asn1_schema::build::Schema;
use asn1_schema::refusal::{Reason, Refusal};
use asn1_schema::schema::{Field, Kind, Node, Tags};
use asn1_words::octets::behind;
use asn1_words::words::{push_number, push_str};
use std::alloc::AllocError;

/// So many parts lead to an octet at most.
pub(crate) const MOST_PARTS: usize = 256;

/// An element at the front of octets, of which the end may be missing.
#[derive(Debug, Clone, Copy)]
pub(crate) struct Element<'a> {
    /// The number of its class.
    pub class: u8,
    /// The number of its tag.
    pub number: u32,
    /// How many identifier and length octets it has.
    pub header: usize,
    /// Its contents octets.
    pub content: &'a [u8],
}

/// The element at the front, where its length is definite.
pub(crate) fn front(octets: &[u8]) -> Option<Element<'_>> {
    let Ok((rest, header)) = header_by_ber(octets) else {
        return None;
    };
    let Length::Definite(len) = header.length() else {
        return None;
    };
    let content = match rest.split_at_checked(len) {
        None => rest,
        Some((content, _)) => content,
    };
    Some(Element {
        class: header.class().number(),
        number: header.tag().0,
        header: octets.len().saturating_sub(rest.len()),
        content,
    })
}

/// Whether the elements of a type may have the tag of this one.
fn may_be(node: &Node, element: &Element<'_>) -> bool {
    let (listed, among) = match &node.tags {
        Tags::Among(listed) => (listed, true),
        Tags::AllBut(listed) => (listed, false),
    };
    let is_listed = listed.iter().any(|tag| tag.class == element.class
        && tag.number == element.number);
    is_listed == among
}

/// Whether the type at a place may have the tag of this element.
fn may_be_at(nodes: &[Node], of: usize, element: &Element<'_>) -> bool {
    match nodes.get(of) {
        None => false,
        Some(node) => may_be(node, element),
    }
}

/// The first field from a place on that an element may be.
pub(crate) fn field_from(
    nodes: &[Node],
    fields: &[Field],
    from: usize,
    element: &Element<'_>,
) -> Option<usize> {
    for (place, field) in fields.iter().enumerate() {
        if place >= from && may_be_at(nodes, field.of, element) {
            return Some(place);
        }
    }
    None
}

/// The first arm that an element may be.
pub(crate) fn arm_of(nodes: &[Node], arms: &[usize], element: &Element<'_>) -> Option<usize> {
    arms.iter().position(|of| may_be_at(nodes, *of, element))
}

/// An element that may hold an octet.
#[derive(Debug, Clone, Copy)]
pub(crate) struct Step<'a> {
    /// The place of its type.
    pub of: usize,
    /// The octets that it begins.
    pub octets: &'a [u8],
    /// Where they stand.
    pub at: usize,
}

/// Appends a name behind others.
fn push_name(text: &mut Vec<u8>, name: &str) -> Result<(), AllocError> {
    push_str(text, if text.is_empty() { ", " } else { "." })?;
    push_str(text, name)
}

/// Appends the name of a part of the type at a place, or its number where it has none.
fn push_part(
    text: &mut Vec<u8>,
    schema: &Schema<'_>,
    of: usize,
    part: usize,
) -> Result<(), AllocError> {
    if let Some(own) = schema.names.get(of) {
        for label in &own.labels {
            if label.number == part as i128 {
                return push_name(text, label.name);
            }
        }
    }
    push_name(text, "")?;
    push_number(text, part as u64)
}

/// Whether an octet stands in an element that ends there. Contents octets that are refused, and a component that is not
/// there, may stand at its end.
fn stands_before(refusal: &Refusal, end: usize) -> bool {
    match refusal.reason {
        Reason::Contents | Reason::MissingField | Reason::Default => refusal.octet <= end,
        _ => refusal.octet < end,
    }
}

/// Whether a field is the one that is missing, and may come from a place on.
fn is_missing(fields: &[Field], from: usize, refusal: &Refusal) -> bool {
    if !matches!(refusal.reason, Reason::MissingField) {
        return false;
    }
    match refusal.field {
        None => false,
        Some(place) => match fields.get(place) {
            None => false,
            Some(field) => place >= from && field.of == refusal.of,
        },
    }
}

/// The component of contents octets that holds the octet of a refusal, or is missing there. Its name is appended. Those
/// of a sequence stand in their order.
fn component<'a>(
    text: &mut Vec<u8>,
    schema: &Schema<'_>,
    fields: &[Field],
    is_ordered: bool,
    within: Step<'a>,
    refusal: &Refusal,
) -> Result<Option<Step<'a>>, AllocError> {
    let mut rest = within.octets;
    let mut at = within.at;
    let mut from = 0;
    for _ in 0..within.octets.len() {
        let Some(element) = front(rest) else {
            break;
        };
        if at >= refusal.octet && is_missing(fields, from, refusal) {
            break;
        }
        let Some(place) = field_from(&schema.nodes, fields, from, &element) else {
            break;
        };
        let len = element.header.saturating_add(element.content.len());
        let end = at.saturating_add(len);
        from = if is_ordered {
            place.saturating_add(1)
        } else {
            0
        };
        let goes_on = end <= refusal.octet && is_missing(fields, from, refusal);
        if stands_before(refusal, end) && !goes_on {
            push_part(text, schema, within.of, place)?;
            let of = match fields.get(place) {
                None => return Ok(None),
                Some(field) => field.of,
            };
            return Ok(Some(Step {
                of,
                octets: rest,
                at,
            }));
        }
        rest = behind(rest, len);
        at = end;
    }
    if is_missing(fields, from, refusal) {
        if let Some(place) = refusal.field {
            push_part(text, schema, within.of, place)?;
        }
    }
    Ok(None)
}

/// The member of contents octets that holds the octet of a refusal. Its number is appended, from 0.
fn member<'a>(
    text: &mut Vec<u8>,
    of: usize,
    within: Step<'a>,
    refusal: &Refusal,
) -> Result<Option<Step<'a>>, AllocError> {
    let mut rest = within.octets;
    let mut at = within.at;
    for place in 0..within.octets.len() {
        let Some(element) = front(rest) else {
            return Ok(None);
        };
        let len = element.header.saturating_add(element.content.len());
        let end = at.saturating_add(len);
        if stands_before(refusal, end) {
            push_str(text, if text.is_empty() { ", [" } else { "[" })?;
            push_number(text, place as u64)?;
            push_str(text, "]")?;
            return Ok(Some(Step {
                of,
                octets: rest,
                at,
            }));
        }
        rest = behind(rest, len);
        at = end;
    }
    Ok(None)
}

/// What leads on from an element to the octet of a refusal. Its name is appended.
fn next<'a>(
    text: &mut Vec<u8>,
    schema: &Schema<'_>,
    step: Step<'a>,
    refusal: &Refusal,
) -> Result<Option<Step<'a>>, AllocError> {
    let (Some(node), Some(element)) = (schema.nodes.get(step.of), front(step.octets)) else {
        return Ok(None);
    };
    let within = Step {
        of: step.of,
        octets: element.content,
        at: step.at.saturating_add(element.header),
    };
    match &node.kind {
        Kind::Within(of, _, _) => Ok(Some(Step { of: *of, ..step })),
        Kind::Choice(arms) => {
            let Some(arm) = arm_of(&schema.nodes, arms, &element) else {
                return Ok(None);
            };
            push_part(text, schema, step.of, arm)?;
            match arms.get(arm) {
                None => Ok(None),
                Some(of) => Ok(Some(Step { of: *of, ..step })),
            }
        }
        _ if refusal.octet < within.at => Ok(None),
        Kind::Explicit(of) => Ok(Some(Step { of: *of, ..within })),
        Kind::SequenceOf(of) | Kind::SetOf(of) => member(text, *of, within, refusal),
        Kind::Sequence(fields, _) => component(text, schema, fields, true, within, refusal),
        Kind::Set(fields, _) => component(text, schema, fields, false, within, refusal),
        _ => Ok(None),
    }
}

/// Appends the names of the parts that lead to the octet of a refusal, with `, ` before them and points between, as far
/// as they are known.
pub fn push_path(
    text: &mut Vec<u8>,
    schema: &Schema<'_>,
    of: usize,
    octets: &[u8],
    refusal: &Refusal,
) -> Result<(), AllocError> {
    let mut step = Step { of, octets, at: 0 };
    for _ in 0..MOST_PARTS {
        match next(text, schema, step, refusal)? {
            None => return Ok(()),
            Some(inner) => step = inner,
        }
    }
    Ok(())
}
