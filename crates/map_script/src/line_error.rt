//! What a reader of a line answers where it gives nothing.

ghost use Rattle.std.specs.Prelude.{◌≡◌};
ghost use Rattle.map_script.specs.declared.line_error.LineError.TheVariants as errors;

use crate::refusal::Cause;
use std::alloc::{AllocError, AllocFailed};

/// Why a line gives nothing.
#[derive(Clone, Copy)]
pub(crate) enum LineError {
    /// It is not in the grammar.
    Fault(Cause),
    /// Memory was not found.
    NoMemory,
}

impl From<Cause> for LineError {
    ghost from_gives = { λ cause error. error ≡ errors.Fault cause };

    fn from(cause: Cause) -> LineError {
        LineError::Fault(cause)
    }
}

impl From<AllocError> for LineError {
    ghost from_gives = { λ _ error. error ≡ errors.NoMemory };

    fn from(_error: AllocError) -> LineError {
        LineError::NoMemory
    }
}

impl<T: Drop> From<AllocFailed<T>> for LineError {
    ghost from_gives = { λ _ error. error ≡ errors.NoMemory };

    fn from(_error: AllocFailed<T>) -> LineError {
        LineError::NoMemory
    }
}
