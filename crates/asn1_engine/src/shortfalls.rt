//! How many octets are missing of an element.
ghost use Rattle.std.specs.Prelude.{◌≡◌, ◌++◌, MatchOption, OnOk};
ghost use Rattle.asn1_engine.specs.Shortfalls.{CountsMore, CountsNoMore, IsShort, IsShortOf, TellsShortfall};
ghost use Rattle.asn1_engine.specs.Shortfalls.{counts_text, shortfall_text};

use asn1_headers::header::reading::header_by_der;
use asn1_headers::length::Length;
use asn1_strict::Requirement;
use asn1_words::words::{push_number, push_str};
use std::alloc::AllocError;

/// So many contents octets does a length count, and fewer are there.
#[derive(Debug, Clone, Copy, PartialEq, Eq)]
pub struct Shortfall {
    /// As many does the length count.
    pub counted: usize,
    /// As many are there.
    pub there: usize,
}

/// What is missing of contents of this length.
fn length_shortfall(form: Length, there: &[u8]) -> Option<Shortfall>
    ensures { MatchOption result (CountsNoMore form there.now) (CountsMore form there.now) }
{
    match form {
        Length::Definite(counted) if there.len() < counted => Some(Shortfall {
            counted,
            there: there.len(),
        }),
        _ => None,
    }
}

/// What is missing of the element whose header begins the octets.
fn front_shortfall(octets: &[u8]) -> Option<Shortfall>
    ensures { MatchOption result (IsShort octets.now → ⊥) (IsShortOf octets.now) }
{
    match header_by_der(octets) {
        Ok((rest, header)) => length_shortfall(header.length(), rest),
        Err(_) => None,
    }
}

/// What is missing at the front of the octets, where that is why a requirement is not met.
pub fn shortfall_of(requirement: Requirement, octets: &[u8]) -> Option<Shortfall>
    ensures { TellsShortfall requirement octets.now result }
{
    match requirement {
        Requirement::Whole => front_shortfall(octets),
        _ => None,
    }
}

/// Appends how many octets a length counts, and how many are there.
fn push_counts(text: &mut Vec<u8>, shortfall: Shortfall) -> Result<(), AllocError>
    ensures { OnOk result (text.new.items ≡ text.old.items ++ counts_text shortfall) }
{
    push_number(text, shortfall.counted as u64)?;
    push_str(text, " octets, ")?;
    push_number(text, shortfall.there as u64)?;
    push_str(text, " are there")
}

/// Appends the same where octets are missing.
pub fn push_shortfall(text: &mut Vec<u8>, shortfall: Option<Shortfall>) -> Result<(), AllocError>
    ensures { OnOk result (text.new.items ≡ text.old.items ++ shortfall_text shortfall) }
{
    match shortfall {
        Some(shortfall) => {
            push_str(text, ": of ")?;
            push_counts(text, shortfall)
        }
        None => Ok(()),
    }
}
