//! The walk.
ghost use Rattle.std.specs.Prelude.{◌≡◌, ℕ, List, [], reverse, IfOk, IfErr, OnErr, MatchOption};
ghost use Rattle.x690.specs.Rules.{ber_rule};
ghost use Rattle.x690.specs.Faults.{HeaderFault};
ghost use Rattle.asn1_headers.specs.Header.Reading.{Refused, ber_refusal};
ghost use Rattle.asn1_walk.specs.Rows.{AtEnd};
ghost use Rattle.asn1_walk.specs.Walks.{Moves, Stays, Finds, Comes, CanOpen, CanPass, SplitsAt, ComesOut, marked_of};

use crate::line::Line;
use crate::state::{Frame, Walk};
use asn1_headers::error::{Err, Error, Needed};
use asn1_headers::header::reading::header_by_ber;
use asn1_headers::length::Length;
use std::alloc::{AllocError, Global};

/// What a step of a walk finds.
#[derive(Debug, Drop)]
pub enum Step<'a> {
    /// An element.
    Line(Line<'a>),
    /// The end of the contents of the innermost element that is open.
    Closed,
    /// The end of the octets.
    End,
    /// No element begins here.
    Refused(Err<Error>),
}

/// How a walk ends.
#[derive(Debug, Drop)]
pub enum Ending {
    /// At the end of the octets.
    Whole,
    /// No element begins at this offset.
    Refused(usize, Err<Error>),
}

/// So many octets at the front and the rest, or how many are missing.
fn split(octets: &[u8], count: usize) -> Result<(&[u8], &[u8]), Err<Error>>
    ensures { SplitsAt count octets.now result }
{
    if octets.len() < count {
        return Err(Err::Incomplete(Needed::Size(count - octets.len())));
    }
    Ok(octets.split_at(count))
}

/// What follows the end of a row, if the octets begin with it.
fn after_end(marked: bool, octets: &[u8]) -> Option<&[u8]>
    ensures { MatchOption result ((rest : List ℕ) → AtEnd marked octets.now rest → ⊥)
        (λ rest. AtEnd marked octets.now rest.now) }
{
    match octets {
        [] if !marked => Some(octets),
        [0, 0, rest @ ..] if marked => Some(rest),
        _ => None,
    }
}

impl<'a> Walk<'a> {
    /// A walk that begins at the front.
    pub fn new(alloc: Global, octets: &'a [u8]) -> Walk<'a>
        ensures view { result.view.now ≡ octets.entry.now }
        ensures offset { result.offset ≡ 0 }
        ensures frames { result.frames.items ≡ [] }
    {
        Walk {
            view: octets,
            offset: 0,
            frames: Vec::new(alloc),
        }
    }

    /// The offset of what is looked at next.
    pub fn offset(&self) -> usize
        ensures { result ≡ self.now.offset }
    {
        self.offset
    }

    /// Whether the innermost contents that are open end at 00 00.
    fn is_marked(&self) -> bool
        ensures { result ≡ marked_of (reverse self.now.frames.items) }
    {
        matches!(self.frames.last(), Some(Frame::Marked))
    }

    /// Closes the innermost contents that are open, or ends the walk.
    fn close(&mut self, left: &'a [u8]) -> Step<'a>
        requires { AtEnd (marked_of (reverse self.old.frames.items)) self.old.view.now left.now }
        ensures { Finds result self.old self.new }
    {
        match self.frames.pop() {
            Some(frame) => {
                self.offset += self.view.len() - left.len();
                self.view = match frame {
                    Frame::Counted(tail) => tail,
                    Frame::Marked => left,
                };
                Step::Closed
            }
            None => Step::End,
        }
    }

    /// The line of the element that comes next, and what follows its header.
    fn next_line(&self) -> Result<(Line<'a>, &'a [u8]), Err<Error>>
        requires { (rest : List ℕ) → AtEnd (marked_of (reverse self.now.frames.items)) self.now.view.now rest → ⊥ }
        ensures ok { IfOk result (λ x. Comes self.now x.0 x.1.now) }
        ensures content { IfOk result (λ x. x.0.content.now ≡ x.1.now) }
        ensures err { IfErr result (Refused (HeaderFault ber_rule) ber_refusal self.now.view.now) }
    {
        let (after, header) = header_by_ber(self.view)?;
        let line = Line {
            offset: self.offset,
            depth: self.frames.len(),
            header_len: self.view.len() - after.len(),
            class: header.class(),
            constructed: header.constructed(),
            number: header.tag().0,
            length: header.length(),
            content: after,
        };
        Ok((line, after))
    }

    /// Goes into the contents of the element that comes next.
    fn open(&mut self, line: Line<'a>, frame: Frame<'a>) -> Result<Step<'a>, AllocError>
        requires { CanOpen self.old line frame }
        ensures finds { IfOk result (λ s. Finds s self.old self.new) }
        ensures err { OnErr result (Stays self.old self.new) }
    {
        self.frames.push(frame)?;
        self.view = line.content;
        self.offset += line.header_len;
        Ok(Step::Line(line))
    }

    /// Goes past the element that comes next.
    fn pass(&mut self, line: Line<'a>, rest: &'a [u8]) -> Step<'a>
        requires { CanPass self.old line rest.now }
        ensures { Finds result self.old self.new }
    {
        self.view = rest;
        self.offset += line.header_len + line.content.len();
        Step::Line(line)
    }

    /// Goes into the element that comes next, or past it.
    fn enter(&mut self, line: Line<'a>, after: &'a [u8]) -> Result<Step<'a>, AllocError>
        requires comes { Comes self.old line after.now }
        requires content { line.content.now ≡ after.now }
        ensures finds { IfOk result (λ s. Finds s self.old self.new) }
        ensures err { OnErr result (Stays self.old self.new) }
    {
        match line.length {
            Length::Indefinite => self.open(line, Frame::Marked),
            Length::Definite(count) => match split(after, count) {
                Ok((content, tail)) => {
                    let counted = Line { content, ..line };
                    if counted.constructed {
                        self.open(counted, Frame::Counted(tail))
                    } else {
                        Ok(self.pass(counted, tail))
                    }
                }
                Err(refusal) => Ok(Step::Refused(refusal)),
            },
        }
    }

    /// Goes on to the next element, or to the next end.
    pub fn step(&mut self) -> Result<Step<'a>, AllocError>
        ensures finds { IfOk result (λ s. Finds s self.old self.new) }
        ensures moves { IfOk result (λ s. Moves s self.old self.new) }
        ensures err { OnErr result (Stays self.old self.new) }
    {
        if let Some(left) = after_end(self.is_marked(), self.view) {
            return Ok(self.close(left));
        }
        match self.next_line() {
            Ok((line, after)) => self.enter(line, after),
            Err(refusal) => Ok(Step::Refused(refusal)),
        }
    }
}

/// The lines of all elements of the octets, in their order, up to the end or to the first octet that begins none.
pub fn lines_of<'a>(alloc: Global, octets: &'a [u8]) -> Result<(Vec<Line<'a>>, Ending), AllocError>
    ensures { IfOk result (λ x. ComesOut octets.entry.now x.0.items x.1) }
{
    let mut lines = Vec::new(alloc);
    let mut walk = Walk::new(alloc, octets);
    loop {
        match walk.step()? {
            Step::Line(line) => lines.push(line)?,
            Step::Closed => {}
            Step::End => return Ok((lines, Ending::Whole)),
            Step::Refused(refusal) => return Ok((lines, Ending::Refused(walk.offset, refusal))),
        }
    }
}
