//! Reading elements and their contents octets by BER (X.690 8.1).
ghost use Rattle.std.specs.Prelude.{◌≡◌, ℕ, ◌+◌, ◌-◌, ◌*◌, ◌^◌, ◌<◌, ◌≤◌, List, ◌++◌, length, Result, IfOk, IfErr};
ghost use Rattle.std.specs.Prelude.{IfSome, IfNone, OnErr};
ghost use Rattle.x690.specs.Nested.{IsElement, ElementFault, end_of_contents};
ghost use Rattle.x690.specs.Nested.Contents.{IsEndedContent, EndFault, IsContent, ContentFault};
ghost use Rattle.x690.specs.Nested.FaultHeaders.{FaultHeaders, EndFaultHeaders, ContentFaultHeaders};
ghost use Rattle.asn1_headers.specs.Answers.{seen};
ghost use Rattle.asn1_headers.specs.Header.Reading.{Refused, ber_refusal};
ghost use Rattle.asn1_headers.specs.Header.{is_constructed_of, length_of};
ghost use Rattle.asn1_headers.specs.Length.{form_of};
ghost use Rattle.asn1_headers.specs.Ber.{count_of, BerContentGives, CountedElement, Counted};
ghost use Rattle.asn1_headers.specs.Elements.{element_parts, HeaderAndContentsGive};

use crate::content::{BerParser, GetObjectContent, split_content};
use crate::error::{Err, Error, ParseResult};
use crate::header::Header;
use crate::header::reading::{header_by_ber, length_by_ber};
use crate::length::Length;

/// Counts the headers that are read.
#[derive(Debug, Drop)]
pub struct Steps {
    count: u64,
}

impl Steps {
    /// A count that starts at 0.
    pub fn new() -> Steps
        ensures { count_of result ≡ 0 }
    {
        Steps { count: 0 }
    }

    /// How many headers were read so far.
    pub fn count(&self) -> u64
        ensures { result ≡ count_of self.now }
    {
        self.count
    }
}

/// What follows 00 00, if the octets begin with it.
// They end an indefinite content alone: at the start of an input they are an element, also by BER.
fn after_end(bytes: &[u8]) -> Option<&[u8]>
    ensures some { IfSome result (λ rest. bytes.now ≡ end_of_contents ++ rest.now) }
    ensures none { IfNone result ((rest : List ℕ) → bytes.now ≡ end_of_contents ++ rest → ⊥) }
{
    match bytes {
        [0, 0, rest @ ..] => Some(rest),
        _ => None,
    }
}

/// What follows the 00 00 that ends an indefinite content (X.690 8.1.5).
///
/// The depth is that of the element whose content it is. One counter of the contents that are open stands in place of
/// calls within calls.
fn skip_content<'a>(
    bytes: &'a [u8],
    max_depth: usize,
    steps: &mut Steps,
) -> Result<&'a [u8], Err<Error>>
    requires deep { 1 ≤ max_depth }
    requires room { count_of steps.old + length bytes.now < 2 ^ 64 }
    ensures ok { IfOk result (λ rest. (content : List ℕ) × (inner : ℕ)
        × IsEndedContent (max_depth - 1) bytes.now content rest.now inner
        × (count_of steps.new ≡ count_of steps.old + (inner + 1))) }
    ensures err { IfErr result (Refused (EndFault (max_depth - 1)) ber_refusal bytes.now) }
    ensures stops { OnErr result
        (Counted (EndFaultHeaders (max_depth - 1)) bytes.now (count_of steps.old)
        (count_of steps.new)) }
    ensures few { 2 * count_of steps.new ≤ 2 * count_of steps.old + length bytes.now }
    ensures grows { count_of steps.old ≤ count_of steps.new }
{
    let mut rest = bytes;
    let mut depth = max_depth - 1;
    let mut opened: usize = 1;
    while opened > 0 {
        let (after, length) = length_by_ber(rest)?;
        steps.count += 1;
        if depth == 0 {
            return Err(Err::Error(Error::BerMaxDepth));
        }
        if let Some(tail) = after_end(rest) {
            rest = tail;
            depth += 1;
            opened -= 1;
            continue;
        }
        match length {
            Length::Definite(len) => {
                let (tail, _content) = split_content(after, len)?;
                rest = tail;
            }
            Length::Indefinite => {
                rest = after;
                depth -= 1;
                opened += 1;
            }
        }
    }
    Ok(rest)
}

/// The contents octets at the front, of a length of this form, by BER. The depth is that of their element.
#[inline(always)]
fn content_by_ber<'a>(
    bytes: &'a [u8],
    form: Length,
    max_depth: usize,
    steps: &mut Steps,
) -> ParseResult<'a, &'a [u8], Error>
    requires deep { 1 ≤ max_depth }
    requires room { count_of steps.old + length bytes.now < 2 ^ 64 }
    ensures ok { IfOk result (λ x. (headers : ℕ)
        × IsContent (form_of form) (max_depth - 1) bytes.now x.1.now x.0.now headers
        × (count_of steps.new ≡ count_of steps.old + headers)) }
    ensures err { IfErr result
        (Refused (ContentFault (form_of form) (max_depth - 1)) ber_refusal bytes.now) }
    ensures stops { OnErr result
        (Counted (ContentFaultHeaders (form_of form) (max_depth - 1)) bytes.now (count_of steps.old)
        (count_of steps.new)) }
    ensures few { 2 * count_of steps.new ≤ 2 * count_of steps.old + length bytes.now }
    ensures grows { count_of steps.old ≤ count_of steps.new }
{
    match form {
        Length::Definite(len) => split_content(bytes, len),
        Length::Indefinite => {
            let rest = skip_content(bytes, max_depth, steps)?;
            let (contents, _end) = bytes.split_at(bytes.len() - rest.len() - 2);
            Ok((rest, contents))
        }
    }
}

/// The header of the element at the front, its contents octets, and the rest, by BER, nested to a depth. The headers
/// that are read are counted.
#[inline(always)]
pub fn element_to_depth<'a>(
    bytes: &'a [u8],
    max_depth: usize,
    steps: &mut Steps,
) -> ParseResult<'a, (Header<'a>, &'a [u8]), Error>
    requires deep { 1 ≤ max_depth }
    requires room { count_of steps.old + length bytes.now < 2 ^ 64 }
    ensures gives { HeaderAndContentsGive (IsElement max_depth) (ElementFault max_depth) ber_refusal
        bytes.now (seen result) }
    ensures ticks { IfOk result
        (λ x. CountedElement max_depth bytes.now x.0.now (element_parts x.1.0 x.1.1.now) (count_of steps.old)
        (count_of steps.new)) }
    ensures stops { OnErr result
        (Counted (FaultHeaders max_depth) bytes.now (count_of steps.old) (count_of steps.new)) }
    ensures few { 2 * count_of steps.new ≤ 2 * count_of steps.old + length bytes.now }
    ensures grows { count_of steps.old ≤ count_of steps.new }
{
    let (after, header) = header_by_ber(bytes)?;
    steps.count += 1;
    let (rest, contents) = content_by_ber(after, header.length(), max_depth, steps)?;
    Ok((rest, (header, contents)))
}

impl GetObjectContent for BerParser {
    ghost content_gives = { BerContentGives };

    fn get_object_content<'a>(
        i: &'a [u8],
        hdr: &Header<'_>,
        max_depth: usize,
    ) -> ParseResult<'a, &'a [u8], Error> {
        if max_depth == 0 {
            return Err(Err::Error(Error::BerMaxDepth));
        }
        let form = hdr.length();
        match form {
            Length::Indefinite if hdr.is_primitive() => Err(Err::Error(Error::ConstructExpected)),
            _ => content_by_ber(i, form, max_depth, &mut Steps::new()),
        }
    }
}

impl Header<'_> {
    /// The contents octets at the front of the octets that follow this header, by BER, and the rest. Elements of
    /// indefinite length nest seven deep at most, with that of this header.
    ///
    /// Where the length is indefinite these are the elements up to the 00 00 that ends them. Refused with
    /// `Incomplete(n)` where n octets are missing of a definite length; else as `get_object_content` of [`BerParser`].
    pub fn parse_ber_content<'i>(&self, i: &'i [u8]) -> ParseResult<'i, &'i [u8], Error>
        ensures { BerContentGives (is_constructed_of self.now)
            (form_of (length_of self.now)) 8 i.now result }
    {
        BerParser::get_object_content(i, self, 8)
    }
}
