//! The texts of object identifiers.
ghost use Rattle.std.specs.Prelude.{◌≡◌, ◌↔◌, ◌+◌, ◌*◌, ◌≤◌, ◌∷◌, length, Some, IfSome, IsSome, IfOk, IfErr, decimal};
ghost use Rattle.std.specs.Prelude.{string_bytes};
ghost use Rattle.std.specs.Fmt.{WritesOnOk};
ghost use Rattle.x690.specs.Arcs.{arcs_text};
ghost use Rattle.asn1_headers.specs.declared.error.Error.TheVariants as errors;
ghost use Rattle.asn1_rs.specs.Oid.{is_relative, oid_octets};
ghost use Rattle.asn1_rs.specs.Oid.Arcs.{arcs_left};
ghost use Rattle.asn1_rs.specs.Oid.Text.{debug_text, hex_octet, hex_text, id_text, shown_text};

use crate::asn1_types::oid::Oid;
use crate::asn1_types::oid::buffer::put_text;
use crate::asn1_types::oid::iterator::SubIdentifierIterator;
use crate::laws::assert_valid::assert_octets_valid;
use asn1_headers::error::Error;
use itoa::Buffer;
use std::alloc::Global;
use std::fmt;

impl Oid<'_> {
    /// The text of the identifier in a buffer: the arcs in decimal, with points between them. Where an arc is 2^64 or
    /// more, it is the contents octets in hexadecimal, with spaces between them.
    ///
    /// `None` exactly where the buffer is shorter than the text. It takes no memory: four octets for each contents
    /// octet, and two more, are room enough.
    pub fn id_text<'b>(&self, buffer: &'b mut [u8]) -> Option<&'b str>
        ensures text { IfSome result (λ text.
            text.now ≡ id_text (is_relative self.now) (oid_octets self.now)) }
        ensures exact { IsSome result ↔
            (length (id_text (is_relative self.now) (oid_octets self.now)) ≤ length buffer.old) }
        ensures room { length (id_text (is_relative self.now) (oid_octets self.now)) ≤
            4 * length (oid_octets self.now) + 2 }
    {
        assert_octets_valid(self.as_bytes());
        let end = put_text(self, buffer)?;
        Some(str::from_utf8(&buffer[..end]).unwrap())
    }

    /// The text of [`Oid::id_text`], in memory of its own.
    ///
    /// Refused only when out of memory, with `OutOfMemory`.
    pub fn to_id_string(&self, alloc: Global) -> Result<String, Error>
        ensures text { IfOk result (λ text.
            string_bytes text ≡ id_text (is_relative self.now) (oid_octets self.now)) }
        ensures refused { IfErr result (λ e. e ≡ errors.OutOfMemory) }
    {
        let mut buffer = [0; 128];
        match self.id_text(&mut buffer) {
            Some(text) => Ok(String::from_str(alloc, text)?),
            None => long_text(self, alloc),
        }
    }
}

/// The text, put into memory that has room for it.
fn long_text(oid: &Oid<'_>, alloc: Global) -> Result<String, Error>
    ensures text { IfOk result (λ text.
        string_bytes text ≡ id_text (is_relative oid.now) (oid_octets oid.now)) }
    ensures refused { IfErr result (λ e. e ≡ errors.OutOfMemory) }
{
    let octets = oid.as_bytes();
    assert_octets_valid(octets);
    if octets.len() >= usize::MAX / 4 {
        return Err(Error::OutOfMemory);
    }
    let mut buffer = vec![in alloc; 0u8; 4 * octets.len() + 2]?;
    let Some(end) = put_text(oid, &mut buffer) else {
        unreachable!()
    };
    buffer.truncate(end);
    Ok(String::from_utf8(buffer).unwrap())
}

/// Writes an arc in decimal.
#[inline(always)]
fn write_arc<W: fmt::Write>(arc: u64, f: &mut fmt::Formatter<W>) -> fmt::Result
    ensures { WritesOnOk W.write_str_gives f.old result (decimal arc) f.new }
{
    let mut buffer = Buffer::new();
    f.write_str(buffer.format(arc))
}

/// Writes a point and an arc.
#[inline(always)]
fn write_pointed<W: fmt::Write>(arc: u64, f: &mut fmt::Formatter<W>) -> fmt::Result
    ensures { WritesOnOk W.write_str_gives f.old result (46 ∷ decimal arc) f.new }
{
    f.write_str(".")?;
    write_arc(arc, f)
}

/// Writes arcs in decimal, with points between them.
fn write_arcs<W: fmt::Write>(
    arcs: SubIdentifierIterator<'_>,
    f: &mut fmt::Formatter<W>,
) -> fmt::Result
    ensures { WritesOnOk W.write_str_gives f.old result (arcs_text (arcs_left arcs.entry)) f.new }
{
    let mut others = arcs;
    let Some(first) = others.next() else {
        return Ok(());
    };
    write_arc(first, f)?;
    while let Some(arc) = others.next() {
        write_pointed(arc, f)?;
    }
    Ok(())
}

/// Writes an octet in two hexadecimal digits.
fn write_octet<W: fmt::Write>(octet: u8, f: &mut fmt::Formatter<W>) -> fmt::Result
    ensures { WritesOnOk W.write_str_gives f.old result (hex_octet octet) f.new }
{
    write!(f, "{octet:02x}")
}

/// Writes a space and an octet.
fn write_spaced<W: fmt::Write>(octet: u8, f: &mut fmt::Formatter<W>) -> fmt::Result
    ensures { WritesOnOk W.write_str_gives f.old result (32 ∷ hex_octet octet) f.new }
{
    f.write_str(" ")?;
    write_octet(octet, f)
}

/// Writes octets in hexadecimal, with spaces between them.
fn write_octets<W: fmt::Write>(octets: &[u8], f: &mut fmt::Formatter<W>) -> fmt::Result
    ensures { WritesOnOk W.write_str_gives f.old result (hex_text octets.now) f.new }
{
    let Some((first, others)) = octets.split_first() else {
        return Ok(());
    };
    write_octet(*first, f)?;
    for octet in others {
        write_spaced(*octet, f)?;
    }
    Ok(())
}

/// Writes the text piece by piece.
fn write_pieces<W: fmt::Write>(oid: &Oid<'_>, f: &mut fmt::Formatter<W>) -> fmt::Result
    ensures { WritesOnOk W.write_str_gives f.old result
        (id_text (is_relative oid.now) (oid_octets oid.now)) f.new }
{
    match oid.iter() {
        Some(arcs) => write_arcs(arcs, f),
        None => write_octets(oid.as_bytes(), f),
    }
}

/// Writes the text that [`Oid::id_text`] answers: at once where the buffer has room for it.
fn write_text<W: fmt::Write>(oid: &Oid<'_>, f: &mut fmt::Formatter<W>) -> fmt::Result
    ensures { WritesOnOk W.write_str_gives f.old result
        (id_text (is_relative oid.now) (oid_octets oid.now)) f.new }
{
    let mut buffer = [0; 128];
    match oid.id_text(&mut buffer) {
        Some(text) => f.write_str(text),
        None => write_pieces(oid, f),
    }
}

/// Writes the text, behind `rel. ` where it is of a relative identifier.
fn write_shown<W: fmt::Write>(oid: &Oid<'_>, f: &mut fmt::Formatter<W>) -> fmt::Result
    ensures { WritesOnOk W.write_str_gives f.old result
        (shown_text (is_relative oid.now) (oid_octets oid.now)) f.new }
{
    if oid.relative {
        f.write_str("rel. ")?;
    }
    write_text(oid, f)
}

/// The text that [`Oid::id_text`] answers, behind `rel. ` where it is of a relative identifier.
impl fmt::Display for Oid<'_> {
    ghost output = { λ x. Some (shown_text (is_relative x) (oid_octets x)) };

    fn fmt<W: fmt::Write>(&self, f: &mut fmt::Formatter<W>) -> fmt::Result {
        write_shown(self, f)
    }
}

/// What `Display` prints, within `OID(` and `)`.
impl fmt::Debug for Oid<'_> {
    ghost debug_output = { λ x. Some (debug_text (is_relative x) (oid_octets x)) };

    fn fmt<W: fmt::Write>(&self, f: &mut fmt::Formatter<W>) -> fmt::Result {
        f.write_str("OID(")?;
        write_shown(self, f)?;
        f.write_str(")")
    }
}
