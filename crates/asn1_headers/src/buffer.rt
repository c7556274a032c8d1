//! Octets that grow at the front: what is written from the back stands in one buffer. So a header is put before
//! contents octets whose number is known.
ghost use Rattle.std.specs.Prelude.{◌≡◌, ◌↔◌, ◌≤◌, ◌<◌, ◌+◌, ◌-◌, ◌++◌, ◌∷◌, ℕ, List, [], length, drop};
ghost use Rattle.std.specs.Prelude.{vec_len, IsTrue, true, false, IfOk, IfErr, Err, MatchResult};
ghost use Rattle.x690.specs.Strict.{header_octets, identifier_octets};
ghost use Rattle.asn1_headers.specs.Error.{tells_of_io};
ghost use Rattle.asn1_headers.specs.Header.Writing.{parts_identifier, strict_header};
ghost use Rattle.asn1_headers.specs.Prepended.{IsLengthOrMemory, Prepended, IsPut, no_room_refusal, answer_of};
ghost use Rattle.asn1_headers.specs.Writer.{MayRefuse};

use crate::class::Class;
use crate::error::{SerializeError, SerializeResult};
use crate::header::Header;
use crate::length::Length;
use crate::tag::Tag;
use std::alloc::{AllocError, Global};
use std::marker::Model;
use x690::digits::{header_into, identifier_into, short_header};

/// Octets that grow at the front. Contracts see them as a list.
///
/// Its room doubles, so that many pieces are put in front by as many copies of octets, and not by their square. It
/// keeps the allocator that it was made with.
#[derive(Debug, Drop)]
pub struct DerBuffer {
    alloc: Global,
    octets: Vec<u8>,
    start: usize,
}

impl Model for DerBuffer {
    ghost Value = { List ℕ };

    ghost view = { λ b. drop b.start b.octets.items };

    ghost invariant = { λ b. b.start ≤ vec_len b.octets };
}

/// How many octets a buffer has room for when it first grows.
const FIRST_ROOM: usize = 256;

impl DerBuffer {
    /// A buffer of no octets, which asks for no memory yet.
    pub fn new(alloc: Global) -> Self
        ensures { result ≡ [] }
    {
        DerBuffer {
            alloc,
            octets: Vec::new(alloc),
            start: 0,
        }
    }

    /// How many octets it holds.
    pub fn len(&self) -> usize
        ensures { result ≡ length self.now }
    {
        self.octets.len() - self.start
    }

    /// Whether it holds none.
    pub fn is_empty(&self) -> bool
        ensures { IsTrue result ↔ self.now ≡ [] }
    {
        self.as_bytes().is_empty()
    }

    /// The octets that it holds.
    pub fn as_bytes(&self) -> &[u8]
        ensures { result.now ≡ self.now }
    {
        &self.octets[self.start..]
    }

    /// Puts the octets before those that it holds.
    ///
    /// Refused with `InvalidLength` where their number would pass `usize`, else with `OutOfMemory`; then it is as
    /// before.
    #[inline(always)]
    pub fn prepend(&mut self, octets: &[u8]) -> SerializeResult<()>
        ensures put { MatchResult result (λ _. self.new ≡ octets.now ++ self.old)
            (λ e. (self.new ≡ self.old) × (tells_of_io e ≡ false)
            × MayRefuse true (length octets.now + length self.old) e) }
        ensures refused { IfErr result
            (IsLengthOrMemory (length octets.now + length self.old)) }
    {
        match self.put(octets) {
            Ok(_) => Ok(()),
            Err(e) => Err(e.refusal()),
        }
    }

    /// As `prepend`, with an error of one octet, so that callers copy less. It answers the number of the octets.
    #[inline(always)]
    fn put(&mut self, octets: &[u8]) -> Result<usize, NoRoom>
        ensures { IsPut octets.now self.old self.new result }
    {
        if octets.len() > self.start {
            return self.grow_and_put(octets);
        }
        put_before(&mut self.octets, self.start, octets);
        self.start -= octets.len();
        Ok(octets.len())
    }

    /// The same where there is no room for them.
    fn grow_and_put(&mut self, octets: &[u8]) -> Result<usize, NoRoom>
        ensures { IsPut octets.now self.old self.new result }
    {
        let count = octets.len();
        let held = self.octets.len() - self.start;
        let Some(total) = held.checked_add(count) else {
            return Err(NoRoom::PastUsize);
        };
        let capacity = total.saturating_mul(2).max(FIRST_ROOM);
        let grown = match moved_back(self.alloc, &self.octets[self.start..], capacity) {
            Ok(grown) => grown,
            Err(_) => return Err(NoRoom::OutOfMemory),
        };
        self.octets = grown;
        self.start = capacity - held;
        put_before(&mut self.octets, self.start, octets);
        self.start -= count;
        Ok(count)
    }
}

/// Why octets are not put in front. It is one octet, and a `SerializeError` 96, which each function that hands one on
/// copies. So the functions below answer it to one another, and the outermost makes the error.
#[derive(Clone, Copy, Drop)]
enum NoRoom {
    /// Their number, or that of an element, passes `usize`.
    PastUsize,
    OutOfMemory,
}

impl NoRoom {
    /// What a caller is told of it.
    fn refusal(self) -> SerializeError
        ensures { result ≡ no_room_refusal self }
    {
        match self {
            NoRoom::PastUsize => SerializeError::InvalidLength,
            NoRoom::OutOfMemory => SerializeError::OutOfMemory,
        }
    }
}

/// What a caller is answered.
#[inline(always)]
fn answered(answer: Result<usize, NoRoom>) -> SerializeResult<usize>
    ensures { result ≡ answer_of answer }
{
    match answer {
        Ok(count) => Ok(count),
        Err(e) => Err(e.refusal()),
    }
}

/// The octets at the end of a larger vector.
fn moved_back(alloc: Global, octets: &[u8], capacity: usize) -> Result<Vec<u8>, AllocError>
    requires { length octets.now ≤ capacity }
    ensures len { IfOk result (λ v. vec_len v ≡ capacity) }
    ensures end { IfOk result (λ v. drop (capacity - length octets.now) v.items ≡ octets.now) }
{
    let mut grown = vec![in alloc; 0u8; capacity]?;
    put_before(&mut grown, capacity, octets);
    Ok(grown)
}

/// Writes the octets before a place.
#[inline(always)]
fn put_before(buffer: &mut [u8], end: usize, octets: &[u8])
    requires room { length octets.now ≤ end }
    requires within { end ≤ length buffer.old }
    ensures { drop (end - length octets.now) buffer.new ≡ octets.now ++ drop end buffer.old }
{
    let start = end - octets.len();
    buffer[start..end].copy_from_slice(octets);
}

/// Drops the octets in front of the last ones, so many as are told.
pub fn keep_last(buf: &mut DerBuffer, count: usize)
    ensures { buf.new ≡ drop (length buf.old - count) buf.old }
{
    buf.start = buf.start.max(buf.octets.len().saturating_sub(count));
}

/// Moves the first `count` octets behind the `by` octets that follow them. No octet beyond these moves.
pub fn move_behind(buf: &mut DerBuffer, count: usize, by: usize)
    requires { count + by ≤ length buf.old }
    ensures { (one other rest : List ℕ) → buf.old ≡ one ++ (other ++ rest) →
        count ≡ length one → by ≡ length other → buf.new ≡ other ++ (one ++ rest) }
{
    swap_parts(&mut buf.octets, buf.start, count, by);
}

/// Swaps two parts that stand at a place: the first has `count` octets, and the second `by`.
fn swap_parts(octets: &mut [u8], start: usize, count: usize, by: usize)
    requires { start + (count + by) ≤ length octets.old }
    ensures kept { length octets.new ≡ length octets.old }
    ensures swapped { (one other rest : List ℕ) → drop start octets.old ≡ one ++ (other ++ rest) →
        count ≡ length one → by ≡ length other → drop start octets.new ≡ other ++ (one ++ rest) }
{
    octets[start..start + (count + by)].rotate_left(count);
}

/// Puts octets in front, and answers their number.
#[inline(always)]
pub fn prepend_octets(octets: &[u8], buf: &mut DerBuffer) -> SerializeResult<usize>
    ensures prepended { Prepended octets.now buf.old buf.new result }
    ensures refused { IfErr result (MayRefuse true (length octets.now + length buf.old)) }
{
    answered(buf.put(octets))
}

/// Puts octets before so many that were put there, and answers the number of both.
pub fn prepend_behind(octets: &[u8], after: usize, buf: &mut DerBuffer) -> SerializeResult<usize>
    ensures prepended { (content old : List ℕ) → buf.old ≡ content ++ old →
        after ≡ length content → Prepended (octets.now ++ content) old buf.new result }
    ensures refused { (content old : List ℕ) → buf.old ≡ content ++ old →
        after ≡ length content →
        IfErr result (MayRefuse true (length (octets.now ++ content) + length old)) }
{
    answered(put_behind(octets, after, buf))
}

/// As `prepend_behind`, with an error of one octet.
#[inline(always)]
fn put_behind(octets: &[u8], after: usize, buf: &mut DerBuffer) -> Result<usize, NoRoom>
    ensures prepended { (content old : List ℕ) → buf.old ≡ content ++ old →
        after ≡ length content →
        Prepended (octets.now ++ content) old buf.new (answer_of result) }
    ensures refused { (content old : List ℕ) → buf.old ≡ content ++ old →
        after ≡ length content → IfErr (answer_of result)
        (MayRefuse true (length (octets.now ++ content) + length old)) }
{
    match buf.put(octets) {
        Ok(before) => match before.checked_add(after) {
            Some(count) => Ok(count),
            None => Err(NoRoom::PastUsize),
        },
        Err(e) => Err(e),
    }
}

/// Puts the strict header of an element before the contents octets that were put there, and answers the number of both.
/// A refusal of these is handed on.
#[inline(always)]
pub fn prepend_element(
    class: u8,
    constructed: bool,
    number: u32,
    content: SerializeResult<usize>,
    buf: &mut DerBuffer,
) -> SerializeResult<usize>
    requires { class < 4 }
    ensures prepended { (octets old : List ℕ) → Prepended octets old buf.old content →
        Prepended (header_octets class constructed number (length octets) ++ octets) old buf.new
        result }
    ensures refused { (octets old : List ℕ) → Prepended octets old buf.old content → IfOk content
        (λ _. IfErr result (MayRefuse true
        (length (header_octets class constructed number (length octets) ++ octets)
        + length old))) }
    ensures handed { IfErr content (λ e. (result ≡ Err e) × (buf.new ≡ buf.old)) }
{
    match content {
        Ok(after) => answered(put_header(class, constructed, number, after, after, buf)),
        Err(e) => Err(e),
    }
}

/// Puts the strict header of an element before so many contents octets that were put there, and answers the number of
/// both. It has a short answer.
///
/// Most headers have two octets: those are made apart, as in writing.
#[inline(always)]
fn put_header(
    class: u8,
    constructed: bool,
    number: u32,
    len: usize,
    after: usize,
    buf: &mut DerBuffer,
) -> Result<usize, NoRoom>
    requires { class < 4 }
    ensures prepended { (content old : List ℕ) → buf.old ≡ content ++ old →
        after ≡ length content → Prepended (header_octets class constructed number len ++ content)
        old buf.new (answer_of result) }
    ensures refused { (content old : List ℕ) → buf.old ≡ content ++ old →
        after ≡ length content → IfErr (answer_of result) (MayRefuse true
        (length (header_octets class constructed number len ++ content) + length old)) }
{
    if let Some(octets) = short_header(class, constructed, number, len) {
        return put_behind(&octets, after, buf);
    }
    let mut octets = [0; 15];
    let count = header_into(class, constructed, number, len, &mut octets);
    put_behind(&octets[..count], after, buf)
}

/// Puts the strict identifier octets of the header and its length octets in front, and answers their number.
pub fn prepend_strict_header(header: &Header<'_>, buf: &mut DerBuffer) -> SerializeResult<usize>
    ensures prepended { Prepended (strict_header header.now) buf.old buf.new result }
    ensures refused { IfErr result
        (MayRefuse true (length (strict_header header.now) + length buf.old)) }
{
    let (class, constructed, tag) = (header.class(), header.constructed(), header.tag());
    match header.length() {
        Length::Definite(len) => {
            answered(put_header(class.number(), constructed, tag.0, len, 0, buf))
        }
        Length::Indefinite => prepend_indefinite((class, constructed, tag), buf),
    }
}

/// Puts 80 and before it the strict identifier octets in front, and answers their number.
fn prepend_indefinite(parts: (Class, bool, Tag), buf: &mut DerBuffer) -> SerializeResult<usize>
    ensures prepended { Prepended (identifier_octets (parts_identifier parts) ++ 128 ∷ []) buf.old
        buf.new result }
    ensures refused { IfErr result (MayRefuse true
        (length (identifier_octets (parts_identifier parts) ++ 128 ∷ []) + length buf.old)) }
{
    let (class, constructed, tag) = parts;
    let mut octets = [0; 6];
    let front = identifier_into(class.number(), constructed, tag.0, &mut octets);
    match buf.put(&[0x80]) {
        Ok(after) => answered(put_behind(&octets[..front], after, buf)),
        Err(e) => Err(e.refusal()),
    }
}
