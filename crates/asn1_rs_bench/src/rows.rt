//! Rows of elements: they are read, written and walked through.
ghost use Rattle.std.specs.Prelude.{◌<◌, length, IfOk};

use crate::failure::Failure;
use crate::sums::Summed;
use asn1_rs::author::ReadsItems;
use asn1_rs::{ASN1Parser, Any, BerParser, DerParser, Error, Oid, ParseResult, ToDer, Told};
use std::alloc::Global;
use std::marker::PhantomData;
use std::mem;

/// The reader `P` behind a call, so that its whole answer goes through memory.
#[derive(Debug, Drop)]
pub(crate) struct Kept<P>(PhantomData<P>);

impl<P> ASN1Parser for Kept<P> {}

impl<'a, T, E, P: ReadsItems<'a, T, E>> ReadsItems<'a, T, E> for Kept<P> {
    ghost item_gives = { P.item_gives };

    #[inline(never)]
    fn read_item(alloc: Global, octets: &'a [u8]) -> ParseResult<'a, T, E> {
        P::read_item(alloc, octets)
    }
}

/// Reads a value and answers it with what follows it, which is to be less than the octets.
#[inline(always)]
fn read_some<'a, T, P>(alloc: Global, octets: &'a [u8]) -> Result<(&'a [u8], T), Failure>
where
    T: Drop,
    P: ReadsItems<'a, T, Error>,
    ensures { IfOk result (λ x. length x.0.now < length octets.now) }
{
    let (rest, value) = P::read_item(alloc, octets)?;
    if rest.len() < octets.len() {
        Ok((rest, value))
    } else {
        Err(Failure::Refused)
    }
}

/// Reads values until no octets are left, each dropped before the next is read, and sums them.
#[inline(never)]
pub(crate) fn read_row<'a, T, P>(alloc: Global, octets: &'a [u8]) -> Result<u64, Failure>
where
    T: Summed + Drop,
    P: ReadsItems<'a, T, Error>,
{
    let mut rest = octets;
    let mut total: u64 = 0;
    while !rest.is_empty() {
        let (next, value) = read_some::<T, P>(alloc, rest)?;
        total = total.wrapping_add(value.sum());
        rest = next;
    }
    Ok(total)
}

/// The values of a row.
pub(crate) fn values_of<'a, T, P>(alloc: Global, octets: &'a [u8]) -> Result<Vec<T>, Failure>
where
    T: Drop,
    P: ReadsItems<'a, T, Error>,
{
    let mut values = Vec::new(alloc);
    let mut rest = octets;
    while !rest.is_empty() {
        let (next, value) = read_some::<T, P>(alloc, rest)?;
        values.push(value)?;
        rest = next;
    }
    Ok(values)
}

/// Writes the values in place of what the vector holds, and sums the numbers of octets.
#[inline(never)]
pub(crate) fn write_row<T: ToDer>(
    alloc: Global,
    values: &[T],
    output: &mut Vec<u8>,
) -> Result<u64, Failure> {
    output.clear();
    let mut writer = Told::new(mem::replace(output, Vec::new(alloc)));
    let mut total: u64 = 0;
    for value in values {
        let count = value.write_der(alloc, &mut writer)?;
        total = total.wrapping_add(count as u64);
    }
    *output = writer.into_inner();
    Ok(total)
}

/// The check with each arc of the identifier.
#[inline(always)]
fn with_arcs(oid: &Oid<'_>, check: u64) -> Result<u64, Failure> {
    let Some(arcs) = oid.iter() else {
        return Err(Failure::Refused);
    };
    let mut total = check;
    for arc in arcs {
        total = total.wrapping_mul(31).wrapping_add(arc);
    }
    Ok(total)
}

/// Goes over the arcs of all identifiers: 31 times what was so far, and each arc.
#[inline(never)]
pub(crate) fn arcs_of_row(oids: &[Oid<'_>]) -> Result<u64, Failure> {
    let mut total: u64 = 0;
    for oid in oids {
        total = with_arcs(oid, total)?;
    }
    Ok(total)
}

/// Makes the text of each identifier, and sums their octets.
#[inline(never)]
pub(crate) fn texts_of_row(alloc: Global, oids: &[Oid<'_>]) -> Result<u64, Failure> {
    let mut total: u64 = 0;
    for oid in oids {
        let Ok(text) = oid.to_id_string(alloc) else {
            return Err(Failure::OutOfMemory);
        };
        total = total.wrapping_add(text.len() as u64);
    }
    Ok(total)
}

/// Reads the elements of a row, and those in the contents octets of each constructed one, and counts them.
///
/// They may nest so deep.
#[inline(never)]
pub(crate) fn walk<const BY_DER: bool>(
    alloc: Global,
    octets: &[u8],
    depth: usize,
) -> Result<u64, Failure> {
    if depth == 0 {
        return Err(Failure::TooDeep);
    }
    let mut rest = octets;
    let mut count: u64 = 0;
    while !rest.is_empty() {
        let (next, element) = if BY_DER {
            read_some::<Any<'_>, DerParser>(alloc, rest)?
        } else {
            read_some::<Any<'_>, BerParser>(alloc, rest)?
        };
        count = count.wrapping_add(1);
        if element.header.is_constructed() {
            count = count.wrapping_add(walk::<BY_DER>(alloc, element.content, depth - 1)?);
        }
        rest = next;
    }
    Ok(count)
}
