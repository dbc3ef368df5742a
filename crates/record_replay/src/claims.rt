//! The law of entries that fit, as a clause of a function that does nothing.

ghost use Rattle.record_replay.specs.ReplayLaws.{FittingAreSized};

/// The entries of a bucket of a well-shaped record can be replayed.
pub fn replay_laws()
    ensures { FittingAreSized }
{}
