//! Why a workload has no time.

use asn1_rs::{Err, Error, SerializeError};
use std::alloc::{AllocError, AllocFailed};

/// Why a workload has no time.
#[derive(Debug, Clone, Copy, PartialEq, Eq, thiserror::Error)]
pub(crate) enum Failure {
    /// Standard input failed, or the arguments could not be read.
    #[error("input failed")]
    Input,
    /// Standard output failed.
    #[error("output failed")]
    Output,
    /// The clock failed.
    #[error("no clock")]
    Clock,
    /// There is no workload of this name.
    #[error("no such workload")]
    NoSuchWorkload,
    /// A line is no name with octets.
    #[error("a line of another form")]
    Line,
    /// The octets are not those of the workload: a reader refused them.
    #[error("refused in reading")]
    Refused,
    /// Elements nest deeper than a walk goes.
    #[error("nested too deep")]
    TooDeep,
    /// A writer refused a value.
    #[error("refused in writing")]
    Unwritten,
    /// What was written is not what was read.
    #[error("other octets were written")]
    OtherOctets,
    /// A run came to another check than the first.
    #[error("the check is not steady")]
    Unsteady,
    /// Memory is short.
    #[error("out of memory")]
    OutOfMemory,
}

impl From<AllocError> for Failure {
    fn from(_e: AllocError) -> Failure {
        Failure::OutOfMemory
    }
}

impl<T: Drop> From<AllocFailed<T>> for Failure {
    fn from(_e: AllocFailed<T>) -> Failure {
        Failure::OutOfMemory
    }
}

impl From<Err<Error>> for Failure {
    fn from(_e: Err<Error>) -> Failure {
        Failure::Refused
    }
}

impl From<SerializeError> for Failure {
    fn from(_e: SerializeError) -> Failure {
        Failure::Unwritten
    }
}
