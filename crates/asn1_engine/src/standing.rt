//! What stands where an element departs.
ghost use Rattle.std.specs.Prelude.{◌≡◌, ◌++◌, take, drop, OnOk};
ghost use Rattle.asn1_engine.specs.Standing.{IsFirstElement, mark_text, more_octets_text, spaced_text, standing_text};

use asn1_headers::der::element_by_der;
use asn1_words::octets::behind;
use asn1_words::words::{push_hexadecimal, push_str};
use std::alloc::AllocError;

/// As many octets are shown.
const MOST_SHOWN: usize = 24;

/// The octets of the element by DER that begins these, or all where none does.
fn front(octets: &[u8]) -> &[u8]
    ensures { IsFirstElement octets.now result.now }
{
    match element_by_der(octets) {
        Ok((rest, _element)) => {
            let (word, _rest) = octets.split_at(octets.len() - rest.len());
            word
        }
        Err(_) => octets,
    }
}

/// What stands at the offset: an element, or all octets behind where none is whole.
pub fn word_at(octets: &[u8], offset: usize) -> &[u8]
    ensures { IsFirstElement (drop offset octets.now) result.now }
{
    front(behind(octets, offset))
}

/// Appends octets in hexadecimal, each behind a space.
fn push_more(text: &mut Vec<u8>, octets: &[u8]) -> Result<(), AllocError>
    ensures { OnOk result (text.new.items ≡ text.old.items ++ more_octets_text octets.now) }
{
    for octet in octets {
        push_str(text, " ")?;
        push_hexadecimal(text, &[*octet])?;
    }
    Ok(())
}

/// Appends octets in hexadecimal, with a space between.
fn push_spaced(text: &mut Vec<u8>, octets: &[u8]) -> Result<(), AllocError>
    ensures { OnOk result (text.new.items ≡ text.old.items ++ spaced_text octets.now) }
{
    match octets {
        [] => Ok(()),
        [first, others @ ..] => {
            push_hexadecimal(text, &[*first])?;
            push_more(text, others)
        }
    }
}

/// The first octets of these.
#[tactic(auto, using(std::proofs::lemmas::List::take_all))]
fn shown_front(word: &[u8]) -> &[u8]
    ensures { result.now ≡ take 24 word.now }
{
    if word.len() <= MOST_SHOWN {
        return word;
    }
    let (shown, _rest) = word.split_at(MOST_SHOWN);
    shown
}

/// Appends that there are more octets.
fn push_mark(text: &mut Vec<u8>, is_truncated: bool) -> Result<(), AllocError>
    ensures { OnOk result (text.new.items ≡ text.old.items ++ mark_text is_truncated) }
{
    if is_truncated {
        return push_str(text, " ..");
    }
    Ok(())
}

/// Appends the first octets of these, and a mark where there are more.
pub fn push_standing(text: &mut Vec<u8>, word: &[u8]) -> Result<(), AllocError>
    ensures { OnOk result (text.new.items ≡ text.old.items ++ standing_text word.now) }
{
    if word.is_empty() {
        return push_str(text, "nothing");
    }
    push_spaced(text, shown_front(word))?;
    push_mark(text, word.len() > MOST_SHOWN)?;
    Ok(())
}
