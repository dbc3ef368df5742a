//! Why the histories of a record are not replayed to their ends.

use map_types::NoMemory;
use thiserror::Error;

/// Why the histories of a record are not replayed to their ends.
#[derive(Clone, Copy, Debug, PartialEq, Eq, Error)]
pub enum HistoryStop {
    /// The first turn in the order of the locks that isn't allowed: the number of its history, and its place there, each from 0.
    #[error("NotAllowed")]
    NotAllowed { history: usize, index: usize },
    /// Memory for what lies under a lock was not found.
    #[error("NoMemory")]
    NoMemory,
}

impl From<NoMemory> for HistoryStop {
    ghost use Rattle.std.specs.Prelude.{◌≡◌};
    ghost use Rattle.record_check.specs.declared.stop.HistoryStop.TheVariants as stops;

    ghost from_gives = { λ _ stop. stop ≡ stops.NoMemory };

    fn from(_: NoMemory) -> HistoryStop {
        HistoryStop::NoMemory
    }
}
