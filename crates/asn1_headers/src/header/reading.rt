//! Reading identifier octets, length octets and headers (X.690 8.1.2, 8.1.3).
ghost use Rattle.std.specs.Prelude.{◌≡◌, ℕ, Bool, List, ◌+◌, ◌*◌, ◌<◌, ◌≤◌, ◌++◌, length, IfOk, IfErr, Some};
ghost use Rattle.x690.specs.Identifiers.{Identifier, IsIdentifier, bit};
ghost use Rattle.x690.specs.Lengths.{LengthForm, IsLength};
ghost use Rattle.x690.specs.Rules.{Rule, der_rule, ber_rule, are_shortest_identifier, are_shortest_length};
ghost use Rattle.x690.specs.Faults.{Violation, IdentifierFault, LengthFault, HeaderFault};
ghost use Rattle.asn1_headers.specs.Class.{class_number};
ghost use Rattle.asn1_headers.specs.Answers.{seen};
ghost use Rattle.asn1_headers.specs.Header.Reading.{Refused, refusal_of, der_refusal, ber_refusal, HeaderGives};
ghost use Rattle.asn1_headers.specs.Header.Reading.{BeginsWithIdentifier, BeginsWithJudgedLength};
ghost use Rattle.asn1_headers.specs.Header.Reading.{id_read, tag_read, BeginsWithForm};
ghost use Rattle.asn1_headers.specs.Header.{HasParts, LendsRawTag};
ghost use Rattle.asn1_headers.specs.declared.error.Error.{Error};
ghost use Rattle.asn1_headers.specs.declared.error.Err.TheVariants.{Error as refused};
ghost use Rattle.asn1_headers.specs.declared.error.Error.TheVariants as errors;
ghost use Rattle.asn1_headers.specs.declared.error.DerConstraint.TheVariants as constraints;

use crate::class::Class;
use crate::error::{DerConstraint, Err, Error, Needed, ParseResult};
use crate::header::Header;
use crate::length::Length;
use crate::tag::Tag;
use std::borrow::CowSlice;
use x690::digits::{base_256_number, tag_number};

/// Identifier octets that were read, with what they say.
#[derive(Debug, Clone, Copy)]
pub struct IdentifierOctets<'a> {
    class: Class,
    constructed: bool,
    number: u32,
    octets: &'a [u8],
}

/// The class, the constructed bit and the low five bits of the first identifier octet (8.1.2.2).
#[inline(always)]
fn first_octet(octet: u8) -> (Class, bool, u8)
    ensures sum { octet ≡ 64 * class_number result.0 + 32 * bit result.1 + result.2 }
    ensures low { result.2 < 32 }
{
    let class = match octet / 64 {
        0 => Class::Universal,
        1 => Class::Application,
        2 => Class::ContextSpecific,
        _ => Class::Private,
    };
    (class, octet / 32 % 2 == 1, octet % 32)
}

/// The identifier octets at the front.
#[inline(always)]
fn read_identifier(bytes: &[u8]) -> ParseResult<'_, IdentifierOctets<'_>, Error>
    ensures ok { IfOk result (λ x. BeginsWithIdentifier bytes.now x.0.now x.1) }
    ensures err { (refuses : Violation → Error)
        → IfErr result (Refused IdentifierFault (refusal_of refuses) bytes.now) }
{
    let [first, digits @ ..] = bytes else {
        return Err(Err::Incomplete(Needed::Size(1)));
    };
    let (class, constructed, low) = first_octet(*first);
    let (number, count) = if low < 31 {
        (u32::from(low), 1)
    } else {
        match tag_number(digits) {
            Some((number, count)) => (number, count + 1),
            None => return Err(Err::Error(Error::InvalidTag)),
        }
    };
    let (octets, rest) = bytes.split_at(count);
    Ok((
        rest,
        IdentifierOctets {
            class,
            constructed,
            number,
            octets,
        },
    ))
}

/// The length octets at the front, or 80, and whether they are the shortest (X.690 10.1).
#[inline(always)]
fn read_length(bytes: &[u8]) -> ParseResult<'_, (Length, bool), Error>
    ensures ok { IfOk result (λ x. BeginsWithJudgedLength bytes.now x.0.now x.1.0 x.1.1) }
    ensures err { (refuses : Violation → Error)
        → IfErr result (Refused LengthFault (refusal_of refuses) bytes.now) }
{
    let [first, rest @ ..] = bytes else {
        return Err(Err::Incomplete(Needed::Size(1)));
    };
    match *first {
        0..=127 => return Ok((rest, (Length::Definite(usize::from(*first)), true))),
        128 => return Ok((rest, (Length::Indefinite, true))),
        255 => return Err(Err::Error(Error::InvalidLength)),
        _ => {}
    }
    let count = usize::from(*first - 128);
    if rest.len() < count {
        return Err(Err::Incomplete(Needed::Size(count - rest.len())));
    }
    let (octets, rest) = rest.split_at(count);
    match base_256_number(octets) {
        Some(length) => Ok((
            rest,
            (Length::Definite(length), is_shortest_length(bytes, length)),
        )),
        None => Err(Err::Error(Error::InvalidLength)),
    }
}

/// Whether the length octets at the front, which say this length, are the shortest (X.690 10.1).
#[inline(always)]
fn is_shortest_length(bytes: &[u8], length: usize) -> bool
    ensures { (octets rest : List ℕ) → IsLength octets length → bytes.now ≡ octets ++ rest
        → result ≡ are_shortest_length octets }
{
    match bytes {
        [first, second, ..] if *first > 127 => length > 127 && *second != 0,
        _ => true,
    }
}

impl<'a> IdentifierOctets<'a> {
    /// Whether they are the shortest that say what they say (X.690 8.1.2.2, 8.1.2.4.2).
    #[inline(always)]
    fn are_shortest(&self) -> bool
        requires { IsIdentifier self.now.octets.now (id_read self.now) }
        ensures { result ≡ are_shortest_identifier self.now.octets.now }
    {
        match self.octets {
            [_, digit, ..] => self.number > 30 && *digit != 128,
            _ => true,
        }
    }

    /// The header with this identifier, and these octets as its raw tag.
    #[inline(always)]
    fn with_length(self, length: Length) -> Header<'a>
        ensures parts { HasParts result self.entry.class self.entry.constructed
            (tag_read self.entry) length (Some self.entry.octets.now) }
        ensures lent { LendsRawTag result }
    {
        Header::new(self.class, self.constructed, Tag(self.number), length).with_raw_tag(Some(
            CowSlice::Borrowed(self.octets),
        ))
    }
}

/// The refusal of a header that breaks a rule of DER (X.690 10.1).
fn broken(constraint: DerConstraint) -> Err<Error>
    ensures { result ≡ refused (errors.DerConstraintFailed constraint) }
{
    Err::Error(Error::DerConstraintFailed(constraint))
}

/// The refusal of an indefinite length by DER (X.690 10.1).
pub fn indefinite_length() -> Err<Error>
    ensures { result ≡ refused (errors.DerConstraintFailed constraints.IndefiniteLength) }
{
    broken(DerConstraint::IndefiniteLength)
}

/// The header at the front, by DER: identifier octets and length octets that are not the shortest are refused, and an
/// indefinite length.
#[inline(always)]
pub fn header_by_der(bytes: &[u8]) -> ParseResult<'_, Header<'_>, Error>
    ensures { HeaderGives der_rule der_refusal bytes.now (seen result) }
{
    let (after, identifier) = read_identifier(bytes)?;
    if !identifier.are_shortest() {
        return Err(broken(DerConstraint::TagNotShortest));
    }
    let (rest, (length, shortest)) = read_length(after)?;
    match length {
        Length::Definite(_) if shortest => Ok((rest, identifier.with_length(length))),
        Length::Definite(_) => Err(broken(DerConstraint::LengthNotShortest)),
        Length::Indefinite => Err(indefinite_length()),
    }
}

/// The header at the front, by BER: an indefinite length is refused at a primitive element.
#[inline(always)]
pub fn header_by_ber(bytes: &[u8]) -> ParseResult<'_, Header<'_>, Error>
    ensures { HeaderGives ber_rule ber_refusal bytes.now (seen result) }
{
    let (after, identifier) = read_identifier(bytes)?;
    let (rest, (form, _)) = read_length(after)?;
    match form {
        Length::Indefinite if !identifier.constructed => {
            Err(Err::Error(Error::ConstructExpected))
        }
        _ => Ok((rest, identifier.with_length(form))),
    }
}

/// The length of the header at the front, by BER, and what follows the header.
pub fn length_by_ber(bytes: &[u8]) -> ParseResult<'_, Length, Error>
    ensures ok { IfOk result (λ x. BeginsWithForm bytes.now x.0.now x.1) }
    ensures err { IfErr result (Refused (HeaderFault ber_rule) ber_refusal bytes.now) }
{
    let (rest, header) = header_by_ber(bytes)?;
    Ok((rest, header.length()))
}
