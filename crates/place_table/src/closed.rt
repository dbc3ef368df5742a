//! What a closed table leaves.

use map_types::List;
use place_words::{Finals, LockHistory, Strand};
use std::marker::Model;

/// What a closed table leaves. Only `PlaceTable::close` makes one.
#[derive(Drop)]
pub struct Closed {
    pub(crate) histories: List<LockHistory>,
    pub(crate) strands: List<Strand>,
    pub(crate) finals: Finals,
    pub(crate) lost: bool,
}

impl Model for Closed {
    ghost use Rattle.place_table.specs.Closing.{ClosedView};

    ghost Value = { ClosedView };

    ghost view = { λ c. record
        { histories = c.histories; strands = c.strands; finals = c.finals; lost = c.lost } };
}

impl Closed {
    ghost use Rattle.std.specs.Prelude.{◌≡◌};

    /// The histories of the locks whose record wasn't lost: local lists by CPU, the global lists, list sets by CPU, buckets
    /// by number, freelists by CPU.
    pub fn histories(&self) -> &List<LockHistory>
        ensures { result.now ≡ self.now.histories }
    {
        &self.histories
    }

    /// The strands that have a step.
    pub fn strands(&self) -> &List<Strand>
        ensures { result.now ≡ self.now.strands }
    {
        &self.strands
    }

    /// What lay under the locks, the spares, and the elements whose bit was set.
    pub fn finals(&self) -> &Finals
        ensures { result.now ≡ self.now.finals }
    {
        &self.finals
    }

    /// Whether the record of a lock was lost, as for want of memory.
    pub fn lost(&self) -> bool
        ensures { result ≡ self.now.lost }
    {
        self.lost
    }
}
