//! The text of an object identifier, put into a buffer of the caller.
ghost use Rattle.std.specs.Prelude.{◌≡◌, ◌<◌, ◌≤◌, ◌∷◌, false, length, decimal};
ghost use Rattle.std.specs.Fmt.{digit_glyph};
ghost use Rattle.x690.specs.Arcs.{arcs_text};
ghost use Rattle.asn1_rs.specs.Oid.{is_relative, oid_octets};
ghost use Rattle.asn1_rs.specs.Oid.Arcs.{arcs_left};
ghost use Rattle.asn1_rs.specs.Oid.Text.{PutsBehind, hex_octet, hex_text, id_text};

use crate::asn1_types::oid::Oid;
use crate::asn1_types::oid::iterator::SubIdentifierIterator;
use itoa::Buffer;

/// Puts octets behind the first `at` of a buffer, and answers where they end: `None` where they have no room.
#[inline(always)]
fn put(octets: &[u8], at: usize, out: &mut [u8]) -> Option<usize>
    requires { at ≤ length out.old }
    ensures { PutsBehind at out.old octets.now result out.new }
{
    if octets.len() > out.len() - at {
        return None;
    }
    let end = at + octets.len();
    out[at..end].copy_from_slice(octets);
    Some(end)
}

/// Puts an arc in decimal.
fn put_arc(arc: u64, at: usize, out: &mut [u8]) -> Option<usize>
    requires { at ≤ length out.old }
    ensures { PutsBehind at out.old (decimal arc) result out.new }
{
    let mut buffer = Buffer::new();
    put(buffer.format(arc).as_bytes(), at, out)
}

/// Puts a point and an arc.
fn put_pointed(arc: u64, at: usize, out: &mut [u8]) -> Option<usize>
    requires { at ≤ length out.old }
    ensures { PutsBehind at out.old (46 ∷ decimal arc) result out.new }
{
    let end = put(b".", at, out)?;
    put_arc(arc, end, out)
}

/// Puts arcs in decimal at the front, with points between them.
fn put_arcs(arcs: SubIdentifierIterator<'_>, out: &mut [u8]) -> Option<usize>
    ensures { PutsBehind 0 out.old (arcs_text (arcs_left arcs.entry)) result out.new }
{
    let mut others = arcs;
    let Some(first) = others.next() else {
        return Some(0);
    };
    let mut end = put_arc(first, 0, out)?;
    while let Some(arc) = others.next() {
        end = put_pointed(arc, end, out)?;
    }
    Some(end)
}

/// A hexadecimal digit.
fn hex_digit(number: u8) -> u8
    requires { number < 16 }
    ensures { result ≡ digit_glyph false number }
{
    if number < 10 {
        b'0' + number
    } else {
        b'a' + (number - 10)
    }
}

/// A space, and an octet in two hexadecimal digits.
fn spaced_octet(octet: u8) -> [u8; 3]
    ensures { result ≡ 32 ∷ hex_octet octet }
{
    [b' ', hex_digit(octet / 16), hex_digit(octet % 16)]
}

/// Puts octets in hexadecimal at the front, with spaces between them.
fn put_octets(octets: &[u8], out: &mut [u8]) -> Option<usize>
    ensures { PutsBehind 0 out.old (hex_text octets.now) result out.new }
{
    let Some((first, others)) = octets.split_first() else {
        return Some(0);
    };
    let mut end = put(&spaced_octet(*first)[1..], 0, out)?;
    for octet in others {
        end = put(&spaced_octet(*octet), end, out)?;
    }
    Some(end)
}

/// Puts the text of an identifier at the front of a buffer, and answers how many octets it has: `None` where the
/// buffer is shorter.
pub(super) fn put_text(oid: &Oid<'_>, out: &mut [u8]) -> Option<usize>
    ensures { PutsBehind 0 out.old
        (id_text (is_relative oid.now) (oid_octets oid.now)) result out.new }
{
    match oid.iter() {
        Some(arcs) => put_arcs(arcs, out),
        None => put_octets(oid.as_bytes(), out),
    }
}
