//! Refusals in words.
ghost use Rattle.std.specs.Prelude.{Some};
ghost use Rattle.asn1_engine.specs.Trees.{refusal_text};

use asn1_headers::error::{Err, Error};
use std::fmt;

/// Why no element begins octets.
#[derive(Debug, Drop)]
pub struct Refusal {
    /// What the reader of elements answered.
    pub refusal: Err<Error>,
}

impl fmt::Display for Refusal {
    ghost output = { λ shown. Some (refusal_text shown.refusal) };

    fn fmt<W: fmt::Write>(&self, f: &mut fmt::Formatter<W>) -> fmt::Result {
        match &self.refusal {
            Err::Incomplete(needed) => write!(f, "{needed}"),
            Err::Error(Error::InvalidTag) => write!(
                f,
                "the identifier octets do not end, or the tag number is 2^32 or more"
            ),
            Err::Error(Error::InvalidLength) => {
                write!(
                    f,
                    "the first length octet is ff, or the length is 2^64 or more"
                )
            }
            Err::Error(Error::ConstructExpected) => {
                write!(f, "a primitive element has the indefinite length")
            }
            _ => write!(f, "the header is refused"),
        }
    }
}
