//! How files come out, and the status that says so.
ghost use Rattle.std.specs.Prelude.{◌≡◌};
ghost use Rattle.asn1_engine.specs.Outcomes.{status_of, worse_of};

use crate::error::Finding;

/// The status of a wrong call, of a file that can't be read, and of an output that fails.
pub const FAILED: u8 = 2;

/// How a file came out.
#[derive(Debug, Clone, Copy, PartialEq, Eq)]
pub enum Outcome {
    /// It was read, and this was found.
    Found(Finding),
    /// It can't be read.
    Unreadable,
}

impl Outcome {
    /// The worse of both.
    pub fn and(self, other: Outcome) -> Outcome
        ensures { result ≡ worse_of self other }
    {
        match (self, other) {
            (Outcome::Found(one), Outcome::Found(another)) => Outcome::Found(one.and(another)),
            _ => Outcome::Unreadable,
        }
    }

    /// The exit status.
    pub fn status(self) -> u8
        ensures { result ≡ status_of self }
    {
        match self {
            Outcome::Found(Finding::Holds) => 0,
            Outcome::Found(Finding::Refused) => 1,
            Outcome::Unreadable => FAILED,
        }
    }
}
