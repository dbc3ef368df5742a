//! Why a history is not replayed to its end.

use map_types::NoMemory;
use thiserror::Error;

/// Why a history is not replayed to its end.
#[derive(Clone, Copy, Debug, PartialEq, Eq, Error)]
pub enum ReplayStop {
    /// The first entry whose part isn't allowed on what the entries before it lead to, counted from 0.
    #[error("NotAllowed")]
    NotAllowed { index: usize },
    /// Memory for what lies there was not found.
    #[error("NoMemory")]
    NoMemory,
}

impl From<NoMemory> for ReplayStop {
    ghost use Rattle.std.specs.Prelude.{◌≡◌};
    ghost use Rattle.replay_words.specs.declared.stop.ReplayStop.TheVariants as stops;

    ghost from_gives = { λ _ stop. stop ≡ stops.NoMemory };

    fn from(_: NoMemory) -> ReplayStop {
        ReplayStop::NoMemory
    }
}
