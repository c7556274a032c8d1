//! Why a value is not shown.
ghost use Rattle.std.specs.Prelude.{◌≡◌};
ghost use Rattle.asn1_json.specs.declared.error.JsonError.TheVariants as errors;

use std::alloc::{AllocError, AllocFailed};

/// Why a value is not shown.
#[derive(Debug, Clone, Copy, PartialEq, Eq)]
pub enum JsonError {
    /// Memory ran out.
    OutOfMemory,
    /// The tape is not that of one value.
    NoValue,
}

impl<T: Drop> From<AllocFailed<T>> for JsonError {
    ghost from_gives = { λ _ e. e ≡ errors.OutOfMemory };

    fn from(_failed: AllocFailed<T>) -> JsonError {
        JsonError::OutOfMemory
    }
}

impl From<AllocError> for JsonError {
    ghost from_gives = { λ _ e. e ≡ errors.OutOfMemory };

    fn from(_error: AllocError) -> JsonError {
        JsonError::OutOfMemory
    }
}
