//! Elements at the front of octets (X.690 8.1).
ghost use Rattle.asn1_headers.specs.declared.length.Length.TheVariants as lengths;
ghost use Rattle.std.specs.Prelude.{[], ℕ, ◌≡◌, ◌+◌, ◌<◌, ◌^◌, true, false, IfSome, IfNone, IsTrue};
ghost use Rattle.x690.specs.Elements.{IsDerElement};
ghost use Rattle.x690.specs.Nested.{IsElement};
ghost use Rattle.x690.specs.Joined.{NoPrefix};
ghost use Rattle.asn1_headers.specs.Answers.{HasPrefix};
ghost use Rattle.asn1_schema.specs.Reading.{rules_of, head_parts};
ghost use Rattle.asn1_schema.specs.Refusals.{ending_of};

use crate::coding::Coding;
use crate::refusal::further;
use asn1_headers::ber::{Steps, element_to_depth};
use asn1_headers::der::element_by_der;
use asn1_headers::length::Length;

/// What the octets of a header say.
#[derive(Debug, Clone, Copy)]
pub struct Head {
    /// The class.
    pub class: u8,
    /// Whether the element is constructed.
    pub constructed: bool,
    /// Whether the length is indefinite.
    pub indefinite: bool,
    /// The number.
    pub number: u32,
    /// Where the element begins.
    pub start: usize,
    /// Where its contents octets begin.
    pub inner: usize,
}

/// Where the contents octets of an element begin that begins at a place. It and what follows have so many octets, and
/// behind contents octets of indefinite length stand two that end them (X.690 8.1.5).
fn contents_at(at: usize, all: usize, content: usize, rest: usize, indefinite: bool) -> usize
    ensures { (header : ℕ) → all ≡ header + (content + (ending_of indefinite + rest)) →
        at + all < 2 ^ 64 → result ≡ at + header }
{
    let ending = if indefinite { 2 } else { 0 };
    let behind = content.saturating_add(rest).saturating_add(ending);
    further(at, all, behind)
}

/// The rest, what the header says, and the contents octets of the element at the front, by DER.
pub(crate) fn der_element(octets: &[u8], at: usize) -> Option<(&[u8], Head, &[u8])>
    ensures some { IfSome result (λ x. HasPrefix IsDerElement octets.now (head_parts x.1 x.2.now)
        x.0.now) }
    ensures none { IfNone result (NoPrefix IsDerElement octets.now) }
{
    match element_by_der(octets) {
        Ok((rest, (header, content))) => {
            let class = header.class().number();
            let constructed = header.constructed();
            let number = header.tag().0;
            let head = Head {
                class,
                constructed,
                indefinite: false,
                number,
                start: at,
                inner: contents_at(at, octets.len(), content.len(), rest.len(), false),
            };
            Some((rest, head, content))
        }
        Err(_) => None,
    }
}

/// Whether a length is indefinite.
fn is_indefinite(form: Length) -> bool
    ensures yes { result ≡ true → form ≡ lengths.Indefinite }
    ensures no { result ≡ false → (n : ℕ) × (form ≡ lengths.Definite n) }
{
    match form {
        Length::Definite(_) => false,
        Length::Indefinite => true,
    }
}

/// The same by BER, nested to a depth.
fn ber_element(octets: &[u8], max: usize, at: usize) -> Option<(&[u8], Head, &[u8])>
    ensures some { IfSome result (λ x. HasPrefix (IsElement max) octets.now (head_parts x.1 x.2.now)
        x.0.now) }
    ensures none { IfNone result (NoPrefix (IsElement max) octets.now) }
{
    if max == 0 {
        return None;
    }
    match element_to_depth(octets, max, &mut Steps::new()) {
        Ok((rest, (header, content))) => {
            let class = header.class().number();
            let constructed = header.constructed();
            let number = header.tag().0;
            let indefinite = is_indefinite(header.length());
            let head = Head {
                class,
                constructed,
                indefinite,
                number,
                start: at,
                inner: contents_at(at, octets.len(), content.len(), rest.len(), indefinite),
            };
            Some((rest, head, content))
        }
        Err(_) => None,
    }
}

/// The same by these rules.
pub(crate) fn element(coding: Coding, octets: &[u8], at: usize) -> Option<(&[u8], Head, &[u8])>
    ensures some { IfSome result (λ x. HasPrefix (rules_of coding).ElementOf octets.now
        (head_parts x.1
        x.2.now) x.0.now) }
    ensures none { IfNone result (NoPrefix (rules_of coding).ElementOf octets.now) }
{
    match coding {
        Coding::Der => der_element(octets, at),
        Coding::Ber(max) => ber_element(octets, max, at),
    }
}

/// Whether no octets are left.
pub(crate) fn is_at_end(octets: &[u8]) -> bool
    ensures yes { IsTrue result → octets.now ≡ [] }
    ensures no { octets.now ≡ [] → IsTrue result }
{
    octets.is_empty()
}
