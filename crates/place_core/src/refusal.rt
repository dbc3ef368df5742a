//! Why a step of the core is not done.

use map_types::NoMemory;

/// Why a step is not done.
#[derive(Clone, Copy, Debug, PartialEq, Eq)]
pub enum CoreRefusal {
    /// Its condition fails.
    NotEnabled,
    /// Memory for it was not found.
    NoMemory,
}

impl From<NoMemory> for CoreRefusal {
    ghost use Rattle.std.specs.Prelude.{◌≡◌};
    ghost use Rattle.place_core.specs.declared.refusal.CoreRefusal.TheVariants as refusals;

    ghost from_gives = { λ _ refusal. refusal ≡ refusals.NoMemory };

    fn from(_error: NoMemory) -> CoreRefusal {
        CoreRefusal::NoMemory
    }
}
