//! Values in braces: the arcs of object identifiers (X.680 32, 33) and the names of bits (22).

use crate::mistake::ModuleError;
use crate::syntax::{ValueSyntax, part};
use crate::values::{MOST_NAMES, Texts, labelled};
use asn1_schema::names::PartName;
use std::alloc::Global;
use x690::digits::subidentifier_into;

/// No bit from this place on is put into a default value.
const MOST_BITS: u16 = 4096;

/// The number of a first arc that has a name (X.660 annex A).
fn first_arc(name: &str) -> Option<i128> {
    Some(match name {
        "itu-t" => 0,
        "ccitt" => 0,
        "iso" => 1,
        "joint-iso-itu-t" => 2,
        "joint-iso-ccitt" => 2,
        _ => return None,
    })
}

/// The number of an arc that has a name below a first one (X.660 annex A).
fn second_arc(first: i128, name: &str) -> Option<i128> {
    Some(match (first, name) {
        (0, "recommendation") => 0,
        (0, "question") => 1,
        (0, "administration") => 2,
        (0, "network-operator") => 3,
        (0, "identified-organization") => 4,
        (1, "standard") => 0,
        (1, "registration-authority") => 1,
        (1, "member-body") => 2,
        (1, "identified-organization") => 3,
        _ => return None,
    })
}

impl<'s, 't> Texts<'s, 't> {
    /// The name that the value at a place is, in the module where it stands.
    fn name_at(self, at: usize) -> Option<&'t str> {
        match self.syntax.values.get(at)?.syntax {
            ValueSyntax::Reference(None, name) => Some(name),
            _ => None,
        }
    }

    /// The places of the values in the braces of names, or of one name.
    pub(crate) fn names(self, value: ValueSyntax<'t>) -> Option<&'s [usize]> {
        let span = match value {
            ValueSyntax::Names(span) => span,
            ValueSyntax::Arcs(span) => span,
            _ => return None,
        };
        Some(part(&self.syntax.arcs, span))
    }

    /// The number of an arc, which may have a name at the first two places.
    fn arc(self, numbers: &[i128], at: usize, is_relative: bool) -> Option<i128> {
        if let (Some(name), false) = (self.name_at(at), is_relative) {
            let known = match numbers {
                [] => first_arc(name),
                [first] => second_arc(*first, name),
                _ => None,
            };
            if known.is_some() {
                return known;
            }
        }
        self.number(at, &[])
    }

    /// The arcs from the first one that is a number, and those behind the names of other values, of which the last
    /// ones come first.
    fn arcs_behind(
        self,
        alloc: Global,
        at: usize,
        is_relative: bool,
    ) -> Result<Option<(i128, Vec<&'s [usize]>)>, ModuleError> {
        let mut behind = Vec::new(alloc);
        let mut next = at;
        for _ in 0..MOST_NAMES {
            let ValueSyntax::Arcs(span) = self.value(next) else {
                return Ok(None);
            };
            let Some((first, others)) = part(&self.syntax.arcs, span).split_first() else {
                return Ok(None);
            };
            behind.push(others)?;
            if let Some(number) = self.arc(&[], *first, is_relative) {
                return Ok(Some((number, behind)));
            }
            next = *first;
        }
        Ok(None)
    }

    /// Puts the numbers of arcs behind others, and tells whether all are known.
    fn push_arcs(
        self,
        numbers: &mut Vec<i128>,
        arcs: &[usize],
        is_relative: bool,
    ) -> Result<bool, ModuleError> {
        for at in arcs {
            match self.arc(numbers, *at, is_relative) {
                Some(number) => numbers.push(number)?,
                None => return Ok(false),
            }
        }
        Ok(true)
    }

    /// The numbers of all arcs of the value at a place, if it has arcs and they are known.
    fn arcs(
        self,
        alloc: Global,
        at: usize,
        is_relative: bool,
    ) -> Result<Option<Vec<i128>>, ModuleError> {
        let Some((first, behind)) = self.arcs_behind(alloc, at, is_relative)? else {
            return Ok(None);
        };
        let mut numbers = Vec::new(alloc);
        numbers.push(first)?;
        for arcs in behind.iter().rev() {
            if !self.push_arcs(&mut numbers, arcs, is_relative)? {
                return Ok(None);
            }
        }
        Ok(Some(numbers))
    }
}

/// Puts the octets of a subidentifier behind others (X.690 8.19.2), and tells whether it is within 64 bits.
fn push_subidentifier(octets: &mut Vec<u8>, number: i128, least: u8) -> Result<bool, ModuleError> {
    let Ok(number) = u64::try_from(number) else {
        return Ok(false);
    };
    let mut digits = [0u8; 10];
    let len = subidentifier_into(u128::from(number) + u128::from(least), &mut digits);
    for digit in digits.iter().take(len) {
        octets.push(*digit)?;
    }
    Ok(true)
}

/// What the first two arcs of an object identifier add to the second one: 40 times the first one, if they may be so
/// (X.690 8.19.4).
fn least_of(first: i128, second: i128) -> Option<u8> {
    match first {
        0 if second < 40 => Some(0),
        1 if second < 40 => Some(40),
        2 => Some(80),
        _ => None,
    }
}

/// The contents octets of an object identifier, or of a relative one (X.690 8.19, 8.20).
pub(crate) fn identifier_contents(
    alloc: Global,
    texts: Texts<'_, '_>,
    at: usize,
    is_relative: bool,
) -> Result<Option<Vec<u8>>, ModuleError> {
    let Some(numbers) = texts.arcs(alloc, at, is_relative)? else {
        return Ok(None);
    };
    let mut octets = Vec::new(alloc);
    let mut left = numbers.as_slice();
    if !is_relative {
        let [first, second, others @ ..] = left else {
            return Ok(None);
        };
        let Some(least) = least_of(*first, *second) else {
            return Ok(None);
        };
        if !push_subidentifier(&mut octets, *second, least)? {
            return Ok(None);
        }
        left = others;
    }
    for number in left {
        if !push_subidentifier(&mut octets, *number, 0)? {
            return Ok(None);
        }
    }
    Ok(Some(octets))
}

/// The place of the bit of this name, if it is known.
fn bit_place(labels: &[PartName<'_>], name: &str) -> Option<u16> {
    match u16::try_from(labelled(labels, name)?) {
        Ok(place) if place < MOST_BITS => Some(place),
        _ => None,
    }
}

/// The places of named bits, sorted, if all are known.
fn bit_places(
    alloc: Global,
    texts: Texts<'_, '_>,
    names: &[usize],
    labels: &[PartName<'_>],
) -> Result<Option<Vec<u16>>, ModuleError> {
    let mut places = Vec::new(alloc);
    for at in names {
        let Some(name) = texts.name_at(*at) else {
            return Ok(None);
        };
        match bit_place(labels, name) {
            Some(place) => places.push(place)?,
            None => return Ok(None),
        }
    }
    places.sort_unstable();
    Ok(Some(places))
}

/// Sets the bits at these places in contents octets.
fn set_bits(octets: &mut [u8], places: &[u16]) {
    for place in places {
        if let Some(octet) = octets.get_mut(usize::from(*place / 8) + 1) {
            *octet |= 0x80 >> (*place % 8);
        }
    }
}

/// The contents octets of the bits of these names (X.690 8.6, 11.2).
pub(crate) fn bits_of_names(
    alloc: Global,
    texts: Texts<'_, '_>,
    names: &[usize],
    labels: &[PartName<'_>],
) -> Result<Option<Vec<u8>>, ModuleError> {
    let Some(places) = bit_places(alloc, texts, names, labels)? else {
        return Ok(None);
    };
    let Some(last) = places.last() else {
        return Ok(None);
    };
    let mut octets = Vec::new(alloc);
    octets.push((7 - *last % 8) as u8)?;
    for _ in 0..*last / 8 + 1 {
        octets.push(0)?;
    }
    set_bits(&mut octets, &places);
    Ok(Some(octets))
}
