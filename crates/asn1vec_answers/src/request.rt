//! The form of a line: a rule, the name of a type, and octets in hexadecimal.
ghost use Rattle.std.specs.Prelude.{◌≡◌, ◌≢◌, ◌++◌, ◌∷◌, ℕ, List, All, IfOk, MatchOption};
ghost use Rattle.std.specs.Prelude.{IsTrue, false};
ghost use Rattle.asn1vec_answers.specs.declared.request.Rule.{Rule};
ghost use Rattle.asn1vec_answers.specs.Request.{IsRequest, IsOtherForm, StandsFor};
ghost use Rattle.asn1vec_answers.specs.Request.{BeginsWithRule, IsOtherRule};

use crate::digits::fill;
use std::alloc::AllocError;

/// By which rules octets are read.
#[derive(Clone, Copy, Debug, PartialEq, Eq)]
pub enum Rule {
    /// The basic encoding rules.
    Ber,
    /// The distinguished encoding rules.
    Der,
}

/// What a line asks for, but for the octets that are read.
#[derive(Clone, Copy, Debug)]
pub(crate) struct Request<'a> {
    /// By which rules the octets are read.
    pub rule: Rule,
    /// The name of the type that is read.
    pub name: &'a [u8],
}

/// The rule that begins a line, and what follows its space.
fn rule_of(line: &[u8]) -> Option<(Rule, &[u8])>
    ensures { MatchOption result (IsOtherRule line.now)
        (λ parts. BeginsWithRule line.now parts.0 parts.1.now) }
{
    if let Some(rest) = line.strip_prefix(b"ber ") {
        return Some((Rule::Ber, rest));
    }
    let rest = line.strip_prefix(b"der ")?;
    Some((Rule::Der, rest))
}

/// What stands before the first separator, and what follows it.
pub fn split_once(octets: &[u8], separator: u8) -> Option<(&[u8], &[u8])>
    ensures { MatchOption result (All (λ x. x ≢ separator) octets.now) (λ parts.
        (octets.now ≡ parts.0.now ++ separator ∷ parts.1.now) ×
        All (λ x. x ≢ separator) parts.0.now) }
{
    let place = octets.iter().position(|octet| *octet == separator)?;
    Some((&octets[..place], &octets[place + 1..]))
}

/// Puts the octets for which the digits stand in place of those there, and answers whether there are
/// such octets.
fn read_digits(digits: &[u8], octets: &mut Vec<u8>) -> Result<bool, AllocError>
    ensures found { IfOk result (λ found.
        IsTrue found → StandsFor octets.new.items digits.now) }
    ensures none { IfOk result (λ found.
        found ≡ false → (octets : List ℕ) → ¬ StandsFor octets digits.now) }
{
    octets.clear();
    if digits == b"-".as_slice() {
        return Ok(true);
    }
    if digits.is_empty() {
        return Ok(false);
    }
    if digits.len() % 2 != 0 {
        return Ok(false);
    }
    octets.resize(digits.len() / 2, 0)?;
    let found = fill(digits, octets.as_mut_slice());
    Ok(found)
}

/// What the line asks for, with the octets in place of those there, or `None` where it has another
/// form.
pub(crate) fn read_request<'a>(
    line: &'a [u8],
    octets: &mut Vec<u8>,
) -> Result<Option<Request<'a>>, AllocError>
    ensures { IfOk result (λ found. MatchOption found (IsOtherForm line.now) (λ request.
        IsRequest line.now request.rule request.name.now octets.new.items)) }
{
    let Some((rule, rest)) = rule_of(line) else {
        return Ok(None);
    };
    let Some((name, digits)) = split_once(rest, b' ') else {
        return Ok(None);
    };
    if name.is_empty() {
        return Ok(None);
    }
    let found = read_digits(digits, octets)?;
    if !found {
        return Ok(None);
    }
    Ok(Some(Request { rule, name }))
}

/// A line asks for one thing.
pub fn one_request()
    ensures { (line name other octets others : List ℕ) (rule second : Rule)
        → IsRequest line rule name octets → IsRequest line second other others
        → (rule ≡ second) × (name ≡ other) × (octets ≡ others) }
{}
