//! How a command ends.
ghost use Rattle.std.specs.Prelude.{◌≡◌, Some};
ghost use Rattle.asn1_engine.specs.Findings.{both};
ghost use Rattle.asn1_engine.specs.Messages.{run_error_text};
ghost use Rattle.asn1_engine.specs.declared.error.RunError.TheVariants.{OutOfMemory};

use std::alloc::{AllocError, AllocFailed};
use std::{fmt, io};

/// What a command found.
#[derive(Debug, Clone, Copy, PartialEq, Eq)]
pub enum Finding {
    /// All that was asked holds.
    Holds,
    /// The octets are refused, and the output says where and why.
    Refused,
}

impl Finding {
    /// Refused where either is.
    pub fn and(self, other: Finding) -> Finding
        ensures { result ≡ both self other }
    {
        match self {
            Finding::Holds => other,
            Finding::Refused => Finding::Refused,
        }
    }
}

/// Why a command ended before its end.
#[derive(Debug, Clone, Copy, PartialEq, Eq)]
pub enum RunError {
    /// The output takes no more.
    Output,
    /// A buffer could not grow.
    OutOfMemory,
}

impl fmt::Display for RunError {
    ghost output = { λ error. Some (run_error_text error) };

    fn fmt<W: fmt::Write>(&self, f: &mut fmt::Formatter<W>) -> fmt::Result {
        match self {
            RunError::Output => write!(f, "output failed"),
            RunError::OutOfMemory => write!(f, "out of memory"),
        }
    }
}

impl std::error::Error for RunError {}

impl From<AllocError> for RunError {
    ghost from_gives = { λ _ e. e ≡ OutOfMemory };

    fn from(_e: AllocError) -> RunError {
        RunError::OutOfMemory
    }
}

impl<T: Drop> From<AllocFailed<T>> for RunError {
    ghost from_gives = { λ _ e. e ≡ OutOfMemory };

    fn from(_e: AllocFailed<T>) -> RunError {
        RunError::OutOfMemory
    }
}

impl From<io::Error> for RunError {
    fn from(_e: io::Error) -> RunError {
        RunError::Output
    }
}
