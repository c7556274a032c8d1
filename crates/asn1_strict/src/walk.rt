//! The check of all elements.
ghost use Rattle.std.specs.Prelude.{◌≡◌, ◌↔◌, ◌+◌, ◌≤◌, List, ℕ, IsTrue, IfOk, MatchOption, length};
ghost use Rattle.asn1_headers.specs.Elements.{element_parts};
ghost use Rattle.asn1_strict.specs.Universal.{IsProper};
ghost use Rattle.asn1_strict.specs.Requirements.{MissesOf};
ghost use Rattle.asn1_strict.specs.Strict.{StrictRow, IsStrictDer};
ghost use Rattle.asn1_strict.specs.Departures.{Departs, DepartsFromDer};

use crate::requirement::{Departure, Requirement, requirement_of};
use crate::rules::departure_of;
use asn1_headers::der::element_by_der;
use asn1_headers::header::Header;
use std::alloc::{AllocError, Global};

/// What DER asks of the element's tag and is not met.
fn departure_of_element(header: &Header<'_>, content: &[u8]) -> Option<Requirement>
    ensures { MatchOption result (IsProper (element_parts header.now content.now))
        (λ requirement. MissesOf requirement (element_parts header.now content.now)) }
{
    departure_of(
        header.class().number(),
        header.tag().0,
        header.constructed(),
        content,
    )
}

/// The first departure of a row of elements from strict DER; `None` where the octets are strict elements, one after the
/// other. No octets are a row of none.
pub fn departure_of_row(alloc: Global, octets: &[u8]) -> Result<Option<Departure>, AllocError>
    ensures { IfOk result (λ found. MatchOption found (StrictRow octets.now)
        (λ departure. (StrictRow octets.now → ⊥) × Departs 0 octets.now departure)) }
{
    let mut tails: Vec<&[u8]> = Vec::new(alloc);
    let mut view = octets;
    let mut offset = 0usize;
    loop {
        if view.is_empty() {
            match tails.pop() {
                None => return Ok(None),
                Some(tail) => {
                    view = tail;
                    continue;
                }
            }
        }
        let (rest, (header, content)) = match element_by_der(view) {
            Ok(element) => element,
            Err(refusal) => {
                let requirement = requirement_of(&refusal);
                return Ok(Some(Departure {
                    offset,
                    requirement,
                }));
            }
        };
        if let Some(requirement) = departure_of_element(&header, content) {
            return Ok(Some(Departure {
                offset,
                requirement,
            }));
        }
        if header.constructed() {
            tails.push(rest)?;
            offset += view.len() - rest.len() - content.len();
            view = content;
            continue;
        }
        offset += view.len() - rest.len();
        view = rest;
    }
}

/// The first departure of the octets from strict DER; `None` where they are one element, strict DER, and no more. No
/// octets are no element.
pub fn departure_of_der(alloc: Global, octets: &[u8]) -> Result<Option<Departure>, AllocError>
    ensures { IfOk result (λ found. MatchOption found (IsStrictDer octets.now)
        (λ departure. (IsStrictDer octets.now → ⊥) × DepartsFromDer octets.now departure)) }
{
    let rest = match element_by_der(octets) {
        Ok((rest, _element)) => rest,
        Err(refusal) => {
            let requirement = requirement_of(&refusal);
            return Ok(Some(Departure {
                offset: 0,
                requirement,
            }));
        }
    };
    let (word, _rest) = octets.split_at(octets.len() - rest.len());
    if let Some(departure) = departure_of_row(alloc, word)? {
        return Ok(Some(departure));
    }
    if rest.is_empty() {
        return Ok(None);
    }
    Ok(Some(Departure {
        offset: word.len(),
        requirement: Requirement::NothingBehind,
    }))
}
