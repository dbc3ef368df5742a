//! What the trace of a call asks of the moment at which a turn was made.

use map_types::{List, Numbers};

/// What the trace of a call asks of the moment at which a turn was made.
#[derive(Drop)]
pub enum Note {
    /// Nothing.
    Nothing,
    /// The hashes of the elements that the turn probed, as they were stored there, in the order of its probes. None stands for an
    /// element that was not listed.
    Probes(List<Option<u32>>),
    /// What was pending before a refill, from its tail on: the stored hashes. And the CPU at which a round of thefts began then.
    Refill { hashes: Numbers, steal: u32 },
}
