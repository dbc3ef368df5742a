//! Why a text is not read as a record.

use map_types::NoMemory;
use thiserror::Error;

/// Why a text is not read as the record of a run.
#[derive(Clone, Copy, Debug, PartialEq, Eq, Error)]
pub enum RecordRefusal {
    /// The line at fault, counted from 1: the least number of lines that no well-shaped record's report begins with. Where
    /// there is none such, and the text is no such report, it is the number of line feeds plus 1.
    #[error("Fault")]
    Fault { line: u32 },
    /// Memory for the record was not found.
    #[error("NoMemory")]
    NoMemory,
}

impl From<NoMemory> for RecordRefusal {
    ghost use Rattle.std.specs.Prelude.{◌≡◌};
    ghost use Rattle.record_reading.specs.declared.refusal.RecordRefusal.TheVariants as refusals;

    ghost from_gives = { λ _ refusal. refusal ≡ refusals.NoMemory };

    fn from(_: NoMemory) -> RecordRefusal {
        RecordRefusal::NoMemory
    }
}
