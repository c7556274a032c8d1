//! Headers as values: how they are read, and how they and parts of them are written (X.690 8.1.2, 8.1.3, 10.1).
ghost use Rattle.std.specs.Prelude.{◌≡◌, ◌<◌, ◌≤◌, ◌+◌, ◌^◌, ◌++◌, [], ℕ, Bool, true, false, List, length};
ghost use Rattle.std.specs.Prelude.{None, IfOk, IfErr, IsOkAnd, Ok, Err};
ghost use Rattle.std.specs.Io.KnownBytes.{Appends};
ghost use Rattle.x690.specs.Rules.{der_rule, ber_rule};
ghost use Rattle.x690.specs.Strict.{identifier_octets, header_octets};
ghost use Rattle.asn1_headers.specs.Answers.{seen};
ghost use Rattle.asn1_headers.specs.Tag.{is_container};
ghost use Rattle.asn1_headers.specs.Header.{tag_of, raw_tag_of};
ghost use Rattle.asn1_headers.specs.Header.Reading.{HeaderGives, HeaderRefusalLasts, der_refusal, ber_refusal};
ghost use Rattle.asn1_headers.specs.Header.Writing.{parts_identifier, strict_header, kept_header};
ghost use Rattle.asn1_headers.specs.Writer.{Wrote, MayRefuse, WriterState};
ghost use Rattle.asn1_headers.specs.Error.{written_refusal, tells_of_io};
ghost use Rattle.asn1_rs.specs.ToDer.{MayRefuseCount, Refuses, RefusesCount, VectorRefuses, Either, RefusedAtOnce};
ghost use Rattle.asn1_rs.specs.ToDer.{KeepsOrMayRefuse, SumsCounts, plain_writing};

use crate::to_der::ToDer;
use crate::traits::{DynTagged, FromBer, FromDer};
use asn1_headers::buffer::{DerBuffer, prepend_strict_header};
use asn1_headers::class::Class;
use asn1_headers::error::{Error, ParseResult, SerializeResult, refusal_of_count, without_io};
use asn1_headers::header::Header;
use asn1_headers::header::reading::{header_by_ber, header_by_der};
use asn1_headers::header::writing::{
    header_len, put_header, put_identifier, put_parts, put_strict_header,
};
use asn1_headers::length::writing::length_len;
use asn1_headers::tag::Tag;
use asn1_headers::writer::{DerWrite, Told, add_written, put_all};
use std::alloc::Global;
use x690::digits::identifier_octets_count;

impl<'a> FromDer<'a, Error> for Header<'a> {
    ghost der_gives = { HeaderGives der_rule der_refusal };

    /// Reads a header at the front, by DER, with its identifier octets as its raw tag (X.690 10.1).
    ///
    /// Refused, in this order, with `Incomplete(1)` where nothing is there. Identifier octets in high form that are
    /// cut, have a sixth digit or a number past `u32` are `InvalidTag`. Those that are not the shortest are
    /// `DerConstraintFailed(TagNotShortest)`. No length octet is `Incomplete(1)`, ff is `InvalidLength`, 80 is
    /// `DerConstraintFailed(IndefiniteLength)`. Missing length octets are `Incomplete(n)`, and a length past `usize` is
    /// `InvalidLength`. Length octets that are not the shortest are `DerConstraintFailed(LengthNotShortest)`.
    fn from_der(_alloc: Global, bytes: &'a [u8]) -> ParseResult<'a, Header<'a>, Error>
        ensures gives { HeaderGives der_rule der_refusal bytes.now (seen result) }
        ensures last { IfErr result (HeaderRefusalLasts der_rule bytes.now) }
    {
        header_by_der(bytes)
    }
}

impl<'a> FromBer<'a, Error> for Header<'a> {
    ghost ber_gives = { HeaderGives ber_rule ber_refusal };

    /// Reads a header at the front, by BER, with its identifier octets as its raw tag (X.690 8.1.2, 8.1.3).
    ///
    /// Refused as by DER, but identifier octets and length octets that are not the shortest are read. The octet 80 is
    /// an indefinite length at a constructed element, and `ConstructExpected` at a primitive one.
    fn from_ber(_alloc: Global, bytes: &'a [u8]) -> ParseResult<'a, Header<'a>, Error>
        ensures gives { HeaderGives ber_rule ber_refusal bytes.now (seen result) }
        ensures last { IfErr result (HeaderRefusalLasts ber_rule bytes.now) }
    {
        header_by_ber(bytes)
    }
}

/// The sum of two counts.
#[inline(always)]
pub fn add_counts(before: usize, after: usize) -> Result<usize, Error>
    ensures { SumsCounts before after result }
{
    before.checked_add(after).ok_or(Error::InvalidLength)
}

/// How many octets an element has whose contents were counted.
pub fn element_len(number: u32, counted: Result<usize, Error>) -> Result<usize, Error>
    ensures count { (class : ℕ) (constructed : Bool) (content : List ℕ) →
        IfOk counted (λ n. n ≡ length content) →
        IfOk result
        (λ n. n ≡ length (header_octets class constructed number (length content) ++ content)) }
    ensures why { (allocates : Bool) (class : ℕ) (constructed : Bool) (content : List ℕ) →
        IfOk counted (λ n. n ≡ length content) →
        IfErr counted (MayRefuseCount allocates (length content)) →
        IfErr result
        (MayRefuseCount allocates
        (length (header_octets class constructed number (length content) ++ content))) }
    ensures refused { IfErr counted (λ e. result ≡ Err e) }
{
    match counted {
        Ok(len) => add_counts(header_len(number, len), len),
        Err(e) => Err(e),
    }
}

/// The same count of contents octets, refused where the element has more octets than `usize` counts.
#[inline(always)]
pub(crate) fn count_that_fits(number: u32, counted: Result<usize, Error>) -> Result<usize, Error>
    ensures same { IfOk result (λ n. counted ≡ Ok n) }
    ensures fits { (class : ℕ) (constructed : Bool) →
        IfOk result (λ n. length (header_octets class constructed number n) + n < 2 ^ 64) }
    ensures why { (class : ℕ) (constructed : Bool) (content : List ℕ) →
        IfOk counted (λ n. n ≡ length content) →
        IfErr counted (MayRefuseCount false (length content)) →
        IfErr result (MayRefuseCount false
        (length (header_octets class constructed number (length content) ++ content))) }
    ensures refused { IfErr counted (λ e. result ≡ Err e) }
{
    let len = counted?;
    add_counts(header_len(number, len), len)?;
    Ok(len)
}

/// Appends the strict header of an element whose contents were counted.
///
/// A refused count is the refusal, before anything is appended.
#[inline(always)]
pub fn put_counted_header<W: DerWrite>(
    class: u8,
    constructed: bool,
    number: u32,
    counted: Result<usize, Error>,
    w: &mut W,
) -> SerializeResult<usize>
    requires { class < 4 }
    ensures wrote { (len : ℕ) → IfOk counted (λ n. n ≡ len) →
        Wrote (header_octets class constructed number len) (W.state w.old) (W.state w.new) result }
    ensures why { (allocates : Bool) (front content : List ℕ) →
        IfErr counted (MayRefuseCount allocates (length content)) →
        IfErr result (MayRefuse allocates (length (front ++ content))) }
    ensures refused { IfErr counted
        (λ e. RefusedAtOnce (written_refusal e) (W.state w.old) (W.state w.new) result) }
    ensures kept { KeepsOrMayRefuse false (W.state w.old) (W.state w.new) result }
{
    match counted {
        Ok(len) => put_header(class, constructed, number, len, w),
        Err(e) => Err(refusal_of_count(e)),
    }
}

/// Appends contents octets behind a header, whose writing was answered so, and answers the number of both.
#[inline(always)]
pub(crate) fn put_behind<W: DerWrite>(
    header: SerializeResult<usize>,
    content: &[u8],
    w: &mut W,
) -> SerializeResult<usize>
    ensures wrote { (octets : List ℕ) (before : WriterState) →
        Wrote octets before (W.state w.old) header →
        Wrote (octets ++ content.now) before (W.state w.new) result }
    ensures failed { (octets : List ℕ) (before : WriterState) →
        Wrote octets before (W.state w.old) header →
        IfErr header (MayRefuse false (length (octets ++ content.now))) →
        IfErr result (MayRefuse false (length (octets ++ content.now))) }
    ensures fits { IfOk header (λ n. n ≤ 16) → IfErr header (MayRefuse false 0) →
        IfErr result (MayRefuse false 0) }
    ensures sum { IfOk result (λ n. IsOkAnd header (λ k. n ≡ k + length content.now)) }
{
    let before = header?;
    let after = put_all(w, content)?;
    add_written(before, after)
}

impl DynTagged for (Class, bool, Tag) {
    ghost dyn_tag = { λ parts. parts.2 };

    fn tag(&self) -> Tag {
        self.2
    }
}

// `der_constructed` goes by the tag, as that of a type does, here and of a `Header`. The bit that is written is their
// own.
impl ToDer for (Class, bool, Tag) {
    ghost writing = { plain_writing (λ parts. identifier_octets (parts_identifier parts)) (λ _. [])
        (λ parts. is_container parts.2) };

    fn to_der_len(&self) -> Result<usize, Error>
        ensures { result ≡ Ok (length (identifier_octets (parts_identifier self.now))) }
    {
        Ok(identifier_octets_count(self.2.0))
    }

    fn der_content_len(&self) -> Result<usize, Error>
        ensures { result ≡ Ok 0 }
    {
        Ok(0)
    }

    fn der_constructed(&self) -> bool {
        self.2.is_container()
    }

    fn write_der_header<W: DerWrite>(&self, _alloc: Global, w: &mut W) -> SerializeResult<usize> {
        put_identifier(*self, w)
    }

    fn write_der_content<W: DerWrite>(&self, _alloc: Global, _w: &mut W) -> SerializeResult<usize> {
        Ok(0)
    }
}

impl DynTagged for Header<'_> {
    ghost dyn_tag = { tag_of };

    fn tag(&self) -> Tag {
        self.tag()
    }
}

impl ToDer for Header<'_> {
    ghost writing = { plain_writing strict_header (λ _. []) (λ h. is_container (tag_of h)) };

    ghost raw_is_der = { λ h. raw_tag_of h ≡ None };

    fn to_der_len(&self) -> Result<usize, Error>
        ensures count { IfOk result (λ n. n ≡ length (strict_header self.now ++ [])) }
        ensures refused { IfErr result
            (RefusesCount false (length (strict_header self.now ++ [])) (λ _. ⊥)) }
        ensures exact { result ≡ Ok (length (strict_header self.now)) }
    {
        Ok(identifier_octets_count(self.tag().0) + length_len(self.length()))
    }

    fn der_content_len(&self) -> Result<usize, Error>
        ensures count { IfOk result (λ n. n ≡ 0) }
        ensures refused { IfErr result (RefusesCount false 0 (λ _. ⊥)) }
        ensures none { result ≡ Ok 0 }
    {
        Ok(0)
    }

    fn der_constructed(&self) -> bool {
        self.tag().is_container()
    }

    #[inline(always)]
    fn write_der_header<W: DerWrite>(&self, _alloc: Global, w: &mut W) -> SerializeResult<usize> {
        put_strict_header(self, w)
    }

    fn write_der_content<W: DerWrite>(&self, _alloc: Global, _w: &mut W) -> SerializeResult<usize> {
        Ok(0)
    }

    fn prepend_der_content(&self, _alloc: Global, _buf: &mut DerBuffer) -> SerializeResult<usize> {
        Ok(0)
    }

    fn prepend_der(&self, _alloc: Global, buf: &mut DerBuffer) -> SerializeResult<usize> {
        prepend_strict_header(self, buf)
    }

    /// Appends the identifier octets that were read, where the header keeps them, and then the length octets.
    fn write_der_raw<W: DerWrite>(&self, _alloc: Global, w: &mut W) -> SerializeResult<usize>
        ensures raw { Wrote (kept_header self.now) (W.state w.old) (W.state w.new) result }
        ensures failed { (allocates : Bool) (most : ℕ) → IfErr result (MayRefuse allocates most) }
        ensures der { raw_tag_of self.now ≡ None →
            Wrote (strict_header self.now ++ []) (W.state w.old) (W.state w.new) result }
        ensures refused { raw_tag_of self.now ≡ None →
            IfErr result
            (Refuses false (length (strict_header self.now ++ [])) (Either (λ _. ⊥) (λ _. ⊥))) }
        ensures counted { IfOk result
            (λ n. (raw : List ℕ) × Appends (W.state w.old).told (W.state w.new).told raw ×
            (n ≡ length raw)) }
    {
        match self.raw_tag() {
            Some(octets) => put_parts(octets, self.length(), w),
            None => put_strict_header(self, w),
        }
    }

    /// The raw form in a vector. It is refused only when out of memory.
    fn to_der_vec_raw(&self, alloc: Global) -> SerializeResult<Vec<u8>>
        ensures raw { IfOk result (λ octets. octets.items ≡ kept_header self.now) }
        ensures failed { (most : ℕ) → IfErr result (MayRefuse true most) }
        ensures der { raw_tag_of self.now ≡ None →
            IfOk result (λ octets. octets.items ≡ strict_header self.now ++ []) }
        ensures refused { raw_tag_of self.now ≡ None →
            IfErr result
            (VectorRefuses (length (strict_header self.now ++ [])) (Either (λ _. ⊥) (λ _. ⊥))) }
        ensures memory { IfErr result (λ e. tells_of_io e ≡ false) }
    {
        let mut w = Told::new(Vec::new(alloc));
        match self.write_der_raw(alloc, &mut w) {
            Ok(_) => Ok(w.into_inner()),
            Err(e) => Err(without_io(e)),
        }
    }
}
