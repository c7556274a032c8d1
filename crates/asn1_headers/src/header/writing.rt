//! Strict headers, as they are written (X.690 8.1.2, 8.1.3, 10.1).
ghost use Rattle.std.specs.Prelude.{◌≡◌, ◌<◌, ◌≤◌, ◌++◌, ℕ, Bool, [], ◌∷◌, length, IfErr, IfOk};
ghost use Rattle.x690.specs.Strict.{identifier_octets, length_form_octets, header_octets};
ghost use Rattle.asn1_headers.specs.Length.{form_of};
ghost use Rattle.asn1_headers.specs.Header.Writing.{parts_identifier, strict_header};
ghost use Rattle.asn1_headers.specs.Writer.{Wrote, MayRefuse};

use crate::class::Class;
use crate::error::SerializeResult;
use crate::header::Header;
use crate::length::Length;
use crate::length::writing::put_length;
use crate::tag::Tag;
use crate::writer::{DerWrite, put_all};
use x690::digits::{
    header_into, identifier_into, identifier_octets_count, length_octets_count, short_header,
};

/// How many octets the strict header of an element has whose contents are so many octets.
pub fn header_len(number: u32, len: usize) -> usize
    ensures { (class : ℕ) (constructed : Bool) →
        result ≡ length (header_octets class constructed number len) }
{
    identifier_octets_count(number) + length_octets_count(len)
}

/// Appends the strict header of an element whose contents are so many octets, in one piece, and answers its length.
///
/// Most headers have two octets: those are made apart, so that their number is known and a store copies them.
#[inline(always)]
pub fn put_header<W: DerWrite>(
    class: u8,
    constructed: bool,
    number: u32,
    len: usize,
    w: &mut W,
) -> SerializeResult<usize>
    requires { class < 4 }
    ensures wrote { Wrote (header_octets class constructed number len) (W.state w.old)
        (W.state w.new) result }
    ensures failed { (allocates : Bool) (most : ℕ) → IfErr result (MayRefuse allocates most) }
    ensures few { IfOk result (λ n. n ≤ 15) }
{
    if let Some(octets) = short_header(class, constructed, number, len) {
        return put_all(w, &octets);
    }
    let mut octets = [0; 15];
    let count = header_into(class, constructed, number, len, &mut octets);
    put_all(w, &octets[..count])
}

/// Appends the strict identifier octets, in one piece, and answers their number.
pub fn put_identifier<W: DerWrite>(parts: (Class, bool, Tag), w: &mut W) -> SerializeResult<usize>
    ensures wrote { Wrote (identifier_octets (parts_identifier parts)) (W.state w.old)
        (W.state w.new) result }
    ensures failed { (allocates : Bool) (most : ℕ) → IfErr result (MayRefuse allocates most) }
{
    let (class, constructed, tag) = parts;
    let mut octets = [0; 6];
    let count = identifier_into(class.number(), constructed, tag.0, &mut octets);
    put_all(w, &octets[..count])
}

/// Appends identifier octets and then length octets, and answers their number.
pub fn put_parts<W: DerWrite>(identifier: &[u8], form: Length, w: &mut W) -> SerializeResult<usize>
    ensures wrote { Wrote (identifier.now ++ length_form_octets (form_of form)) (W.state w.old)
        (W.state w.new) result }
    ensures failed { (allocates : Bool) (most : ℕ) → IfErr result (MayRefuse allocates most) }
{
    let before = put_all(w, identifier)?;
    let after = put_length(form, w)?;
    Ok(before + after)
}

/// Appends the strict identifier octets, and 80 behind them, and answers their number.
fn put_indefinite<W: DerWrite>(parts: (Class, bool, Tag), w: &mut W) -> SerializeResult<usize>
    ensures wrote { Wrote (identifier_octets (parts_identifier parts) ++ 128 ∷ []) (W.state w.old)
        (W.state w.new) result }
    ensures failed { (allocates : Bool) (most : ℕ) → IfErr result (MayRefuse allocates most) }
    ensures few { IfOk result (λ n. n ≤ 15) }
{
    let (class, constructed, tag) = parts;
    let mut octets = [0; 6];
    let front = identifier_into(class.number(), constructed, tag.0, &mut octets);
    put_parts(&octets[..front], Length::Indefinite, w)
}

/// Appends the strict identifier octets of the header and its length octets, and answers their number.
/// Those of a definite length are one piece.
#[inline(always)]
pub fn put_strict_header<W: DerWrite>(header: &Header<'_>, w: &mut W) -> SerializeResult<usize>
    ensures wrote { Wrote (strict_header header.now) (W.state w.old) (W.state w.new) result }
    ensures failed { (allocates : Bool) (most : ℕ) → IfErr result (MayRefuse allocates most) }
    ensures few { IfOk result (λ n. n ≤ 15) }
{
    let (class, constructed, tag) = (header.class(), header.constructed(), header.tag());
    match header.length() {
        Length::Definite(len) => put_header(class.number(), constructed, tag.0, len, w),
        Length::Indefinite => put_indefinite((class, constructed, tag), w),
    }
}
