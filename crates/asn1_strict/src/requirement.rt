//! What DER asks of elements.
ghost use Rattle.std.specs.Prelude.{◌≡◌};
ghost use Rattle.asn1_strict.specs.Requirements.{requirement_of_refusal};

use asn1_headers::error::{DerConstraint, Err, Error};

/// A requirement of DER, or of what DER is made of, that an element does not meet.
#[derive(Debug, Clone, Copy, PartialEq, Eq)]
pub enum Requirement {
    /// The octets that an element has are there (X.690 8.1.1).
    Whole,
    /// Identifier octets end, and their tag number is below 2^32 (8.1.2).
    Identifier,
    /// A tag number below 31 stands in one octet, and one from 31 on in the fewest octets (8.1.2.2, 8.1.2.4).
    ShortestIdentifier,
    /// The first length octet is not ff, and the length is below 2^64 (8.1.3.5).
    Length,
    /// A length stands in the fewest octets (10.1).
    ShortestLength,
    /// The length octets count the contents octets (10.1).
    DefiniteLength,
    /// The universal tag number 0 is that of no type (8.1.5).
    TypedTag,
    /// Of the universal tags 8, 11, 16, 17 and 29 are constructed, and all others primitive (8.9.1, 8.11.1, 10.2).
    Form,
    /// A BOOLEAN is 00 or ff (11.1).
    Boolean,
    /// An INTEGER or an ENUMERATED has some octets, and the fewest (8.3.2).
    ShortestInteger,
    /// The count of unused bits of a BIT STRING is at most 7, and 0 where there are no bits (8.6.2). Unused bits are 0
    /// (11.2).
    UnusedBits,
    /// A NULL has no contents octets (8.8.2).
    Null,
    /// An OBJECT IDENTIFIER or a RELATIVE-OID has some subidentifiers, each whole and in the fewest octets (8.19.2).
    ShortestArcs,
    /// A string has characters of its type alone (8.23).
    Characters,
    /// The components of a SET ascend by tag, or those of a SET OF by their octets (10.3, 11.6).
    SetOrder,
    /// A UTCTime has seconds and ends in Z (11.8).
    UtcTime,
    /// A GeneralizedTime has seconds and ends in Z, and its fraction does not end in 0 (11.7).
    GeneralizedTime,
    /// Nothing stands behind the element.
    NothingBehind,
}

/// The first element that does not meet a requirement, and which one.
#[derive(Debug, Clone, Copy, PartialEq, Eq)]
pub struct Departure {
    /// The offset of its first octet.
    pub offset: usize,
    /// What it does not meet.
    pub requirement: Requirement,
}

/// The requirement of which the refusal of an element by DER tells.
pub fn requirement_of(refusal: &Err<Error>) -> Requirement
    ensures { result ≡ requirement_of_refusal refusal.now }
{
    match refusal {
        Err::Error(Error::InvalidTag) => Requirement::Identifier,
        Err::Error(Error::InvalidLength) => Requirement::Length,
        Err::Error(Error::DerConstraintFailed(DerConstraint::TagNotShortest)) => {
            Requirement::ShortestIdentifier
        }
        Err::Error(Error::DerConstraintFailed(DerConstraint::LengthNotShortest)) => {
            Requirement::ShortestLength
        }
        Err::Error(Error::DerConstraintFailed(DerConstraint::IndefiniteLength)) => {
            Requirement::DefiniteLength
        }
        _ => Requirement::Whole,
    }
}
