//! Strings that are shown by the elements that they hold.
ghost use Rattle.std.specs.Prelude.{◌≡◌, ℕ, List, IfOk, IfSome, IfNone};
ghost use Rattle.asn1_headers.specs.Header.{identifier_of};
ghost use Rattle.asn1_engine.specs.Inner.{HoldsElements, HoldsNoElements, AreStringOctets, TellsInner, TellsUsual};
ghost use Rattle.asn1_engine.specs.Inner.{is_usual};

use crate::elements::are_elements;
use crate::heads::is_mostly_constructed;
use asn1_headers::class::Class;
use asn1_headers::header::Header;
use asn1_headers::header::reading::header_by_ber;
use asn1_walk::Line;
use std::alloc::{AllocError, Global};

/// The octets that a string holds.
#[derive(Debug, Clone, Copy)]
pub struct Held<'a> {
    /// The octets.
    pub octets: &'a [u8],
    /// How many contents octets stand before them.
    pub count: usize,
}

/// Whether a header has a universal tag of a type, in the form that this has in DER.
fn is_usual(header: &Header<'_>) -> bool
    ensures { result ≡ is_usual (identifier_of header.now) }
{
    let number = header.tag().0;
    header.class() == Class::Universal
        && number != 0
        && header.constructed() == is_mostly_constructed(number)
}

/// Whether the octets begin with such a header.
fn begin_as_usual(octets: &[u8]) -> bool
    ensures { TellsUsual octets.now result }
{
    match header_by_ber(octets) {
        Ok((_rest, header)) => is_usual(&header),
        Err(_) => false,
    }
}

/// Whether octets are elements by BER and no more, an element at least, the first of which is as usual.
fn hold_elements(alloc: Global, octets: &[u8]) -> Result<bool, AllocError>
    ensures { IfOk result (TellsInner octets.now) }
{
    if !begin_as_usual(octets) {
        return Ok(false);
    }
    are_elements(alloc, octets)
}

/// What a string holds: nothing where the element is no string, or a BIT STRING with unused bits.
fn held_by<'a>(line: &Line<'a>) -> Option<Held<'a>>
    ensures some { IfSome result (λ held. AreStringOctets line.now held.count held.octets.now) }
    ensures none { IfNone result ((count : ℕ) (octets : List ℕ) →
        AreStringOctets line.now count octets → ⊥) }
{
    if line.constructed || line.class != Class::Universal {
        return None;
    }
    match (line.number, line.content) {
        (4, octets) => Some(Held { octets, count: 0 }),
        (3, [0, octets @ ..]) => Some(Held { octets, count: 1 }),
        _ => None,
    }
}

/// What a string holds, where that are elements.
pub fn elements_held<'a>(alloc: Global, line: &Line<'a>) -> Result<Option<Held<'a>>, AllocError>
    ensures some { IfOk result (λ found. IfSome found (λ held.
        AreStringOctets line.now held.count held.octets.now × HoldsElements held.octets.now)) }
    ensures none { IfOk result (λ found. IfNone found (HoldsNoElements line.now)) }
{
    let Some(held) = held_by(line) else {
        return Ok(None);
    };
    if !hold_elements(alloc, held.octets)? {
        return Ok(None);
    }
    Ok(Some(held))
}
