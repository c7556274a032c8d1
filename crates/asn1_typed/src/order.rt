//! Where the members of a set-of do not ascend, so that a value has no strict encoding (X.690 11.6).
ghost use Rattle.std.specs.Prelude.{◌≤◌, length, IfOk};

use crate::path::{MOST_PARTS, Step, arm_of, field_from, front};
use asn1_schema::schema::{Field, Kind, Node};
use asn1_words::octets::behind;
use std::alloc::{AllocError, Global};

/// Where contents octets first have a member that comes before the one in front of it.
fn descends_at(within: Step<'_>) -> Option<usize> {
    let mut last: &[u8] = &[];
    let mut rest = within.octets;
    let mut at = within.at;
    for _ in 0..within.octets.len() {
        let element = front(rest)?;
        let len = element.header.saturating_add(element.content.len());
        let (member, others) = rest.split_at_checked(len)?;
        if member.cmp(last).is_lt() {
            return Some(at);
        }
        last = member;
        rest = others;
        at = at.saturating_add(len);
    }
    None
}

/// Adds the members of contents octets, whose type is at a place.
fn push_members<'a>(
    steps: &mut Vec<Step<'a>>,
    of: usize,
    within: Step<'a>,
) -> Result<(), AllocError> {
    let mut octets = within.octets;
    let mut at = within.at;
    for _ in 0..within.octets.len() {
        let Some(element) = front(octets) else {
            break;
        };
        steps.push(Step { of, octets, at })?;
        let len = element.header.saturating_add(element.content.len());
        octets = behind(octets, len);
        at = at.saturating_add(len);
    }
    Ok(())
}

/// Adds the components of contents octets. Those of a sequence stand in their order.
fn push_components<'a>(
    steps: &mut Vec<Step<'a>>,
    nodes: &[Node],
    fields: &[Field],
    is_ordered: bool,
    within: Step<'a>,
) -> Result<(), AllocError> {
    let mut octets = within.octets;
    let mut at = within.at;
    let mut from = 0;
    for _ in 0..within.octets.len() {
        let Some(element) = front(octets) else {
            break;
        };
        let Some(place) = field_from(nodes, fields, from, &element) else {
            break;
        };
        if let Some(field) = fields.get(place) {
            let of = field.of;
            steps.push(Step { of, octets, at })?;
        }
        if is_ordered {
            from = place.saturating_add(1);
        }
        let len = element.header.saturating_add(element.content.len());
        octets = behind(octets, len);
        at = at.saturating_add(len);
    }
    Ok(())
}

/// Adds what an element leads to. Tells where its members do not ascend, if it is of a set-of.
fn enter<'a>(
    steps: &mut Vec<Step<'a>>,
    nodes: &[Node],
    step: Step<'a>,
) -> Result<Option<usize>, AllocError> {
    let (Some(node), Some(element)) = (nodes.get(step.of), front(step.octets)) else {
        return Ok(None);
    };
    let within = Step {
        of: step.of,
        octets: element.content,
        at: step.at.saturating_add(element.header),
    };
    match &node.kind {
        Kind::Within(of, _, _) => steps.push(Step { of: *of, ..step })?,
        Kind::Explicit(of) => steps.push(Step { of: *of, ..within })?,
        Kind::Choice(arms) => {
            let arm = arm_of(nodes, arms, &element).unwrap_or(arms.len());
            if let Some(of) = arms.get(arm) {
                steps.push(Step { of: *of, ..step })?;
            }
        }
        Kind::SequenceOf(of) => push_members(steps, *of, within)?,
        Kind::SetOf(of) => {
            push_members(steps, *of, within)?;
            return Ok(descends_at(within));
        }
        Kind::Sequence(fields, _) => push_components(steps, nodes, fields, true, within)?,
        Kind::Set(fields, _) => push_components(steps, nodes, fields, false, within)?,
        _ => (),
    }
    Ok(None)
}

/// Where octets of a type first have a member of a set-of that comes before the one in front of it. It is 0 where they
/// have none.
pub(crate) fn descent(
    alloc: Global,
    nodes: &[Node],
    of: usize,
    octets: &[u8],
) -> Result<usize, AllocError>
    ensures { IfOk result (λ at. at ≤ length octets.now) }
{
    let mut steps = Vec::new(alloc);
    let mut first = usize::MAX;
    steps.push(Step { of, octets, at: 0 })?;
    for _ in 0..octets.len().saturating_mul(MOST_PARTS) {
        let Some(step) = steps.pop() else {
            break;
        };
        if let Some(at) = enter(&mut steps, nodes, step)? {
            first = first.min(at);
        }
    }
    if first > octets.len() {
        return Ok(0);
    }
    Ok(first)
}
