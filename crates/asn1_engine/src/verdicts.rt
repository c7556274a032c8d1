//! Whether octets are strict DER, in a line.
ghost use Rattle.std.specs.Prelude.{◌≡◌, ◌++◌, ℕ, List, IfOk, OnOk, MatchOption};
ghost use Rattle.std.specs.Io.KnownBytes.{Appends};
ghost use Rattle.x690.specs.Rules.{der_rule};
ghost use Rattle.x690.specs.Elements.{BeginsWithHeader};
ghost use Rattle.asn1_engine.specs.Findings.{TellsStrict};
ghost use Rattle.asn1_engine.specs.Verdicts.{AreOtherDepartures, AreVerdicts, ElementHolds, ElementLacks, HeaderLacks};
ghost use Rattle.asn1_engine.specs.Verdicts.{IsDepartureLine, IsElementVerdict, IsFurther, IsLineOf, IsVerdict};
ghost use Rattle.asn1_engine.specs.Verdicts.{NothingHolds, departure_text, finding_of, rule_text, strict_text};
ghost use Rattle.asn1_engine.specs.Verdicts.{wrong_text};

use crate::error::{Finding, RunError};
use crate::shortfalls::{Shortfall, push_shortfall, shortfall_of};
use crate::standing::{push_standing, word_at};
use crate::wording::{Words, words_of};
use asn1_headers::header::reading::header_by_der;
use asn1_strict::requirement::requirement_of;
use asn1_strict::rules::departure_of;
use asn1_strict::{Departure, Requirement, departure_of_der};
use asn1_walk::{Line, Step, Walk};
use asn1_words::octets::behind;
use asn1_words::words::{push_number, push_str};
use std::alloc::{AllocError, Global};
use std::io::Write;

/// Appends what is wrong, and what is missing.
fn push_wrong(
    text: &mut Vec<u8>,
    wrong: &str,
    shortfall: Option<Shortfall>,
) -> Result<(), AllocError>
    ensures { OnOk result (text.new.items ≡ text.old.items ++ wrong_text wrong.now shortfall) }
{
    push_str(text, wrong)?;
    push_shortfall(text, shortfall)
}

/// Appends a requirement in words, and what is missing and stands where it is not met.
fn push_rule(
    text: &mut Vec<u8>,
    words: Words,
    shortfall: Option<Shortfall>,
    word: &[u8],
) -> Result<(), AllocError>
    ensures { OnOk result (text.new.items ≡ text.old.items ++
        rule_text (words.entry.0.now, words.entry.1.now, words.entry.2.now) shortfall word.now) }
{
    let (section, wrong, right) = words;
    push_wrong(text, wrong, shortfall)?;
    push_str(text, " (X.690 ")?;
    push_str(text, section)?;
    push_str(text, "); there stands: ")?;
    push_standing(text, word)?;
    push_str(text, "; right is: ")?;
    push_str(text, right)
}

/// Appends the line of a departure.
fn push_departure(
    text: &mut Vec<u8>,
    name: &str,
    departure: Departure,
    shortfall: Option<Shortfall>,
    word: &[u8],
) -> Result<(), AllocError>
    ensures { OnOk result (text.new.items ≡ text.old.items ++
        departure_text name.now departure shortfall word.now) }
{
    push_str(text, name)?;
    push_str(text, ": octet ")?;
    push_number(text, departure.offset as u64)?;
    push_str(text, ": ")?;
    push_rule(text, words_of(departure.requirement), shortfall, word)?;
    push_str(text, "\n")
}

/// Appends that octets are strict DER.
fn push_strict(text: &mut Vec<u8>, name: &str) -> Result<(), AllocError>
    ensures { OnOk result (text.new.items ≡ text.old.items ++ strict_text name.now) }
{
    push_str(text, name)?;
    push_str(text, ": strict DER")?;
    push_str(text, "\n")
}

/// Writes the line of a departure of these octets.
fn write_departure<W: Write>(
    alloc: Global,
    name: &str,
    octets: &[u8],
    departure: Departure,
    out: &mut W,
) -> Result<(), RunError>
    ensures { OnOk result ((shown : List ℕ) × IsDepartureLine name.now octets.now departure shown ×
        Appends (W.contents out.old) (W.contents out.new) shown) }
{
    let mut text = Vec::new(alloc);
    let word = word_at(octets, departure.offset);
    let shortfall = shortfall_of(departure.requirement, behind(octets, departure.offset));
    push_departure(&mut text, name, departure, shortfall, word)?;
    out.write_all(text.as_slice())?;
    Ok(())
}

/// Writes that the octets are strict DER, or the line of the first departure, which is answered.
fn write_first<W: Write>(
    alloc: Global,
    name: &str,
    octets: &[u8],
    out: &mut W,
) -> Result<Option<Departure>, RunError>
    ensures finds { IfOk result (λ found. TellsStrict octets.now (finding_of found)) }
    ensures prints { IfOk result (λ found. (shown : List ℕ) × IsLineOf name.now octets.now found shown ×
        Appends (W.contents out.old) (W.contents out.new) shown) }
{
    let found = departure_of_der(alloc, octets)?;
    match found {
        Some(departure) => write_departure(alloc, name, octets, departure, out)?,
        None => {
            let mut text = Vec::new(alloc);
            push_strict(&mut text, name)?;
            out.write_all(text.as_slice())?;
        }
    }
    Ok(found)
}

/// Whether no departure was found.
fn finding_of(found: Option<Departure>) -> Finding
    ensures { result ≡ finding_of found }
{
    match found {
        None => Finding::Holds,
        Some(_) => Finding::Refused,
    }
}

/// Writes that the octets of this name are strict DER, or the offset of the first element that is not, and why.
pub fn check<W: Write>(
    alloc: Global,
    name: &str,
    octets: &[u8],
    out: &mut W,
) -> Result<Finding, RunError>
    ensures finds { IfOk result (TellsStrict octets.now) }
    ensures prints { OnOk result ((shown : List ℕ) × IsVerdict name.now octets.now shown ×
        Appends (W.contents out.old) (W.contents out.new) shown) }
{
    let found = write_first(alloc, name, octets, out)?;
    Ok(finding_of(found))
}

/// What DER asks of the header at the front of these octets and is not met.
fn departure_of_header(octets: &[u8]) -> Option<Requirement>
    ensures { MatchOption result (BeginsWithHeader der_rule octets.now) (HeaderLacks octets.now) }
{
    match header_by_der(octets) {
        Ok(_) => None,
        Err(refusal) => Some(requirement_of(&refusal)),
    }
}

/// What DER asks of the element of a line at the front of these octets and is not met: of its header, or else of its
/// tag.
fn departure_of_element(octets: &[u8], line: &Line<'_>) -> Option<Requirement>
    ensures { MatchOption result (ElementHolds octets.now line.now) (ElementLacks octets.now line.now) }
{
    if let Some(requirement) = departure_of_header(octets) {
        return Some(requirement);
    }
    departure_of(
        line.class.number(),
        line.number,
        line.constructed,
        line.content,
    )
}

/// What is not met where no element begins the octets.
fn departure_of_none(octets: &[u8]) -> Requirement
    ensures { NothingHolds octets.now result }
{
    match departure_of_header(octets) {
        Some(requirement) => requirement,
        None => Requirement::Whole,
    }
}

/// Writes the line of a departure, where it is behind an offset.
fn write_further<W: Write>(
    alloc: Global,
    name: &str,
    octets: &[u8],
    first: usize,
    departure: Departure,
    out: &mut W,
) -> Result<(), RunError>
    ensures { OnOk result ((shown : List ℕ) × IsFurther name.now octets.now first departure shown ×
        Appends (W.contents out.old) (W.contents out.new) shown) }
{
    if departure.offset <= first {
        return Ok(());
    }
    write_departure(alloc, name, octets, departure, out)
}

/// Writes the line of an element that has not what DER asks of it alone, where it is behind an offset.
fn write_element<W: Write>(
    alloc: Global,
    name: &str,
    octets: &[u8],
    first: usize,
    line: &Line<'_>,
    out: &mut W,
) -> Result<(), RunError>
    ensures { OnOk result ((shown : List ℕ) × IsElementVerdict name.now octets.now first line.now shown ×
        Appends (W.contents out.old) (W.contents out.new) shown) }
{
    let offset = line.offset;
    let Some(requirement) = departure_of_element(behind(octets, offset), line) else {
        return Ok(());
    };
    let departure = Departure {
        offset,
        requirement,
    };
    write_further(alloc, name, octets, first, departure, out)?;
    Ok(())
}

/// Writes a line for each element, by BER, behind an offset that has not what DER asks of it alone. The first octet
/// that begins no element has a line too.
fn write_others<W: Write>(
    alloc: Global,
    name: &str,
    octets: &[u8],
    first: usize,
    out: &mut W,
) -> Result<(), RunError>
    ensures { OnOk result ((shown : List ℕ) × AreOtherDepartures name.now octets.now first shown ×
        Appends (W.contents out.old) (W.contents out.new) shown) }
{
    let mut walk = Walk::new(alloc, octets);
    loop {
        match walk.step()? {
            Step::Line(line) => write_element(alloc, name, octets, first, &line, out)?,
            Step::Closed => {}
            Step::End => return Ok(()),
            Step::Refused(_) => {
                let offset = walk.offset();
                let departure = Departure {
                    offset,
                    requirement: departure_of_none(behind(octets, offset)),
                };
                write_further(alloc, name, octets, first, departure, out)?;
                return Ok(());
            }
        }
    }
}

/// Writes the line of the first departure, as `check` does. Then each element, by BER, behind it has a line that has
/// not what DER asks of it alone: of its header, or of its tag. The first octet that begins no element has one too.
pub fn check_all<W: Write>(
    alloc: Global,
    name: &str,
    octets: &[u8],
    out: &mut W,
) -> Result<Finding, RunError>
    ensures finds { IfOk result (TellsStrict octets.now) }
    ensures prints { OnOk result ((shown : List ℕ) × AreVerdicts name.now octets.now shown ×
        Appends (W.contents out.old) (W.contents out.new) shown) }
{
    match write_first(alloc, name, octets, out)? {
        None => Ok(Finding::Holds),
        Some(first) => {
            write_others(alloc, name, octets, first.offset, out)?;
            Ok(Finding::Refused)
        }
    }
}
