//! The line of a fault.

ghost use Rattle.std.specs.Prelude.{◌≡◌};
ghost use Rattle.map_script.specs.declared.refusal.ScriptRefusal.TheVariants as refusals;
ghost use Rattle.map_script.specs.Parsed.{with_number};
ghost use Rattle.map_script.specs.Reading.{or_fault};

use crate::line_error::LineError;
use crate::refusal::{Cause, ScriptRefusal};
use map_types::{CreateRefusal, NoMemory};
use std::alloc::{AllocError, AllocFailed};

/// A cause, at the line with this number.
pub(crate) fn or_fault<T: Drop>(number: u32, read: Result<T, Cause>) -> Result<T, ScriptRefusal>
    ensures { result ≡ or_fault number read }
{
    match read {
        Ok(found) => Ok(found),
        Err(cause) => Err(ScriptRefusal::Fault {
            line: number,
            cause,
        }),
    }
}

/// The same, where memory may have run out.
pub(crate) fn with_number<T: Drop>(
    number: u32,
    read: Result<T, LineError>,
) -> Result<T, ScriptRefusal>
    ensures { result ≡ with_number number read }
{
    match read {
        Ok(found) => Ok(found),
        Err(LineError::Fault(cause)) => Err(ScriptRefusal::Fault {
            line: number,
            cause,
        }),
        Err(LineError::NoMemory) => Err(ScriptRefusal::NoMemory),
    }
}

impl From<CreateRefusal> for ScriptRefusal {
    ghost from_gives = { λ cause refusal. refusal ≡ refusals.Create cause };

    fn from(cause: CreateRefusal) -> ScriptRefusal {
        ScriptRefusal::Create(cause)
    }
}

impl From<AllocError> for ScriptRefusal {
    ghost from_gives = { λ _ refusal. refusal ≡ refusals.NoMemory };

    fn from(_error: AllocError) -> ScriptRefusal {
        ScriptRefusal::NoMemory
    }
}

impl<T: Drop> From<AllocFailed<T>> for ScriptRefusal {
    ghost from_gives = { λ _ refusal. refusal ≡ refusals.NoMemory };

    fn from(_error: AllocFailed<T>) -> ScriptRefusal {
        ScriptRefusal::NoMemory
    }
}

impl From<NoMemory> for ScriptRefusal {
    ghost from_gives = { λ _ refusal. refusal ≡ refusals.NoMemory };

    fn from(_error: NoMemory) -> ScriptRefusal {
        ScriptRefusal::NoMemory
    }
}
