//! The tree of the elements of octets, a line an element.
ghost use Rattle.std.specs.Prelude.{◌≡◌, ◌≤◌, ◌++◌, ◌∷◌, [], ℕ, List, codes, true, IfOk, IfSome, IfNone, OnOk};
ghost use Rattle.std.specs.Prelude.{MatchOption};
ghost use Rattle.std.specs.Io.KnownBytes.{Appends};
ghost use Rattle.asn1_engine.specs.Findings.{FindsElements, FindsAt, HasNoFirst, IsFirst};
ghost use Rattle.asn1_words.specs.Words.{right, number_text};
ghost use Rattle.asn1_engine.specs.Lines.{IsLineText};
ghost use Rattle.asn1_engine.specs.Trees.{IsRefusalLine, IsShown, IsTree, IsTreeAt, IsShownToDepth, inner_depth};
ghost use Rattle.asn1_engine.specs.Inner.{AreStringOctets, HoldsElements, IsNotEntered};
ghost use Rattle.asn1_engine.specs.Trees.{inner_offset};
ghost use Rattle.asn1_engine.specs.Trees.{IsFirstLine, IsFoundText, placed, refusal_text};

use crate::departures::Refusal;
use crate::error::{Finding, RunError};
use crate::heads::push_head;
use crate::inner::elements_held;
use crate::objects::{push_object, push_refusal_object};
use crate::values::push_value;
use asn1_headers::ber::{Steps, element_to_depth};
use asn1_headers::error::{Err, Error};
use asn1_walk::{Line, Step, Walk};
use asn1_words::octets::behind;
use asn1_words::words::{push_right, push_str};
use std::alloc::{AllocError, Global};
use std::io::Write;

/// Strings that stand in so many strings are not entered.
const MOST_STRINGS: u8 = 16;

/// What is shown, and how.
#[derive(Debug, Clone, Copy)]
pub struct Options {
    /// Whether a string that holds elements is shown by these.
    pub inner: bool,
    /// Elements in as many elements or more are not shown.
    pub depth: usize,
    /// As many columns a value has at most.
    pub width: usize,
    /// Each element is an object of JSON in a line.
    pub json: bool,
}

/// Octets that stand in a file.
#[derive(Debug, Clone, Copy)]
struct Part<'a> {
    octets: &'a [u8],
    /// Where they stand.
    offset: usize,
    /// How many elements they stand in.
    depth: usize,
}

impl Part<'_> {
    /// The line of an element that a walk over the octets finds, with its place in the file.
    fn placed<'b>(&self, line: Line<'b>) -> Line<'b>
        ensures { result ≡ placed self.now.offset self.now.depth line.entry }
    {
        Line {
            offset: line.offset.saturating_add(self.offset),
            depth: line.depth.saturating_add(self.depth),
            ..line
        }
    }
}

/// The contents of a string that is shown by its elements: where so many strings may be entered, and strings are.
fn entered_part<'a>(
    alloc: Global,
    line: &Line<'a>,
    strings: u8,
    options: &Options,
) -> Result<Option<Part<'a>>, AllocError>
    ensures some { IfOk result (λ found. IfSome found (λ part. 1 ≤ strings)) }
    ensures inner { IfOk result (λ found. IfSome found (λ part. options.now.inner ≡ true)) }
    ensures held { IfOk result (λ found. IfSome found (λ part. (count : ℕ) ×
        AreStringOctets line.now count part.octets.now × HoldsElements part.octets.now ×
        (part.offset ≡ inner_offset line.now count) × (part.depth ≡ inner_depth line.now))) }
    ensures none { IfOk result (λ found. IfNone found (IsNotEntered options.now strings line.now)) }
{
    if strings == 0 || !options.inner {
        return Ok(None);
    }
    let Some(held) = elements_held(alloc, line)? else {
        return Ok(None);
    };
    Ok(Some(Part {
        octets: held.octets,
        offset: line
            .offset
            .saturating_add(line.header_len)
            .saturating_add(held.count),
        depth: line.depth.saturating_add(1),
    }))
}

/// Appends the line of an element. Of a string that is entered the line has no value.
fn push_line(
    alloc: Global,
    line: &Line<'_>,
    is_entered: bool,
    width: usize,
    text: &mut Vec<u8>,
) -> Result<(), AllocError>
    requires { text.old.items ≡ [] }
    ensures { OnOk result (IsLineText width line.now is_entered text.new.items) }
{
    push_head(text, line)?;
    push_value(alloc, text, width, line, is_entered)?;
    push_str(text, "\n")
}

/// Writes what is shown of an element.
fn write_line<W: Write>(
    alloc: Global,
    line: &Line<'_>,
    is_entered: bool,
    options: &Options,
    text: &mut Vec<u8>,
    out: &mut W,
) -> Result<(), RunError>
    ensures { OnOk result ((shown : List ℕ) × IsShownToDepth options.now line.now is_entered shown ×
        Appends (W.contents out.old) (W.contents out.new) shown) }
{
    if line.depth >= options.depth {
        return Ok(());
    }
    text.clear();
    if options.json {
        push_object(alloc, line, is_entered, options.width, text)?;
    } else {
        push_line(alloc, line, is_entered, options.width, text)?;
    }
    out.write_all(text.as_slice())?;
    Ok(())
}

/// Appends that no element begins at an offset, and why.
fn push_refusal(text: &mut Vec<u8>, offset: usize, why: &str) -> Result<(), AllocError>
    ensures { OnOk result (text.new.items ≡ text.old.items ++ right 7 (number_text offset) ++
        codes " no element: " ++ why.now ++ 10 ∷ []) }
{
    push_right(text, 7, offset as u64)?;
    push_str(text, " no element: ")?;
    push_str(text, why)?;
    push_str(text, "\n")
}

/// Writes that no element begins at an offset, and why.
fn write_refusal<W: Write>(
    alloc: Global,
    offset: usize,
    why: &str,
    options: &Options,
    out: &mut W,
) -> Result<(), RunError>
    ensures { OnOk result ((shown : List ℕ) × IsRefusalLine options.now.json offset why.now shown ×
        Appends (W.contents out.old) (W.contents out.new) shown) }
{
    let mut text = Vec::new(alloc);
    if options.json {
        push_refusal_object(alloc, &mut text, offset, why)?;
    } else {
        push_refusal(&mut text, offset, why)?;
    }
    out.write_all(text.as_slice())?;
    Ok(())
}

/// Writes that no element begins at an offset, by what the reader of elements answered.
fn write_fault<W: Write>(
    alloc: Global,
    offset: usize,
    refusal: Err<Error>,
    options: &Options,
    out: &mut W,
) -> Result<(), RunError>
    ensures { OnOk result ((shown : List ℕ) ×
        IsRefusalLine options.now.json offset (refusal_text refusal) shown ×
        Appends (W.contents out.old) (W.contents out.new) shown) }
{
    let why = format!(in alloc; "{}", Refusal { refusal })?;
    write_refusal(alloc, offset, why.as_str(), options, out)
}

#[cycle(parts)]
/// Writes the lines of the elements of a part, and of the elements in so many strings within strings. The text has room
/// for a line.
fn dump_part<W: Write>(
    alloc: Global,
    part: Part<'_>,
    strings: u8,
    options: &Options,
    text: &mut Vec<u8>,
    out: &mut W,
) -> Result<Finding, RunError>
    ensures finds { IfOk result (FindsElements part.entry.octets.now) }
    ensures prints { OnOk result ((shown : List ℕ) ×
        IsTree options.now strings part.entry.offset part.entry.depth part.entry.octets.now shown ×
        Appends (W.contents out.old) (W.contents out.new) shown) }
{
    let mut walk = Walk::new(alloc, part.octets);
    loop {
        match walk.step()? {
            Step::Line(found) => {
                write_element(alloc, part, found, strings, options, text, out)?;
            }
            Step::Closed => {}
            Step::End => return Ok(Finding::Holds),
            Step::Refused(refusal) => {
                let offset = walk.offset().saturating_add(part.offset);
                write_fault(alloc, offset, refusal, options, out)?;
                return Ok(Finding::Refused);
            }
        }
    }
}

#[cycle(parts)]
/// Writes the line of an element, and those of the elements that it holds as a string.
fn write_element<W: Write>(
    alloc: Global,
    part: Part<'_>,
    found: Line<'_>,
    strings: u8,
    options: &Options,
    text: &mut Vec<u8>,
    out: &mut W,
) -> Result<(), RunError>
    ensures { OnOk result ((shown : List ℕ) ×
        IsShown options.now strings (placed part.entry.offset part.entry.depth found.entry) shown ×
        Appends (W.contents out.old) (W.contents out.new) shown) }
{
    let line = part.placed(found);
    match entered_part(alloc, &line, strings, options)? {
        Some(within) => {
            write_line(alloc, &line, true, options, text, out)?;
            dump_part(alloc, within, strings - 1, options, text, out)?;
        }
        None => write_line(alloc, &line, false, options, text, out)?,
    }
    Ok(())
}

/// Appends the line of what a walk over octets found first, if it is an element.
fn push_found(
    alloc: Global,
    text: &mut Vec<u8>,
    part: Part<'_>,
    found: &Step<'_>,
    width: usize,
) -> Result<(), AllocError>
    ensures { OnOk result ((shown : List ℕ) × IsFoundText width part.entry.offset part.entry.depth found.now shown ×
        (text.new.items ≡ text.old.items ++ shown)) }
{
    match found {
        Step::Line(line) => {
            let mut shown = Vec::new(alloc);
            push_line(alloc, &part.placed(*line), false, width, &mut shown)?;
            text.extend_from_slice(shown.as_slice())?;
            Ok(())
        }
        Step::Closed => Ok(()),
        Step::End => Ok(()),
        Step::Refused(_) => Ok(()),
    }
}

/// Appends the line of the element that begins octets, which stand at an offset; nothing where none begins them.
pub fn push_first_line(
    alloc: Global,
    text: &mut Vec<u8>,
    octets: &[u8],
    offset: usize,
    width: usize,
) -> Result<(), AllocError>
    ensures { OnOk result ((shown : List ℕ) × IsFirstLine width offset octets.now shown ×
        (text.new.items ≡ text.old.items ++ shown)) }
{
    let part = Part {
        octets,
        offset,
        depth: 0,
    };
    let mut walk = Walk::new(alloc, octets);
    let found = walk.step()?;
    push_found(alloc, text, part, &found, width)?;
    Ok(())
}

/// The octets of the element at the front; `None` where no element begins the octets.
fn first(octets: &[u8]) -> Option<&[u8]>
    ensures { MatchOption result (HasNoFirst octets.now) (λ word. IsFirst octets.now word.now) }
{
    match element_to_depth(octets, usize::MAX, &mut Steps::new()) {
        Ok((rest, _element)) => {
            let (word, _rest) = octets.split_at(octets.len() - rest.len());
            Some(word)
        }
        Err(_) => None,
    }
}

/// Writes the lines of octets that stand at an offset, as `dump` does.
fn dump_from<W: Write>(
    alloc: Global,
    octets: &[u8],
    offset: usize,
    options: &Options,
    out: &mut W,
) -> Result<Finding, RunError>
    ensures finds { IfOk result (FindsElements octets.now) }
    ensures prints { OnOk result ((shown : List ℕ) × IsTree options.now 16 offset 0 octets.now shown ×
        Appends (W.contents out.old) (W.contents out.new) shown) }
{
    let part = Part {
        octets,
        offset,
        depth: 0,
    };
    let mut text = Vec::new(alloc);
    dump_part(alloc, part, MOST_STRINGS, options, &mut text, out)
}

/// Writes a line for each element, by BER, and for the elements in strings. Where no element begins, the last line
/// tells the offset and why.
pub fn dump<W: Write>(
    alloc: Global,
    octets: &[u8],
    options: &Options,
    out: &mut W,
) -> Result<Finding, RunError>
    ensures finds { IfOk result (FindsElements octets.now) }
    ensures prints { OnOk result ((shown : List ℕ) × IsTree options.now 16 0 0 octets.now shown ×
        Appends (W.contents out.old) (W.contents out.new) shown) }
{
    dump_from(alloc, octets, 0, options, out)
}

/// Writes the lines of the one element that begins at an offset, as `dump` does. Where no element begins there, they
/// go on up to the octet that says why.
pub fn dump_at<W: Write>(
    alloc: Global,
    octets: &[u8],
    offset: usize,
    options: &Options,
    out: &mut W,
) -> Result<Finding, RunError>
    ensures finds { IfOk result (FindsAt octets.now offset) }
    ensures prints { OnOk result ((shown : List ℕ) × IsTreeAt options.now offset octets.now shown ×
        Appends (W.contents out.old) (W.contents out.new) shown) }
{
    let rest = behind(octets, offset);
    match first(rest) {
        Some(word) => dump_from(alloc, word, offset, options, out),
        None if rest.is_empty() => {
            write_refusal(alloc, offset, "the octets end before", options, out)?;
            Ok(Finding::Refused)
        }
        None => {
            dump_from(alloc, rest, offset, options, out)?;
            Ok(Finding::Refused)
        }
    }
}
