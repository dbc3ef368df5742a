//! What is recorded of a run: each turn of each lock, and the turns of each CPU in its order.

ghost use Rattle.std.specs.Prelude.{◌≡◌, IfOk};

use crate::copying::{EqualCopy, copy_list};
use crate::{Entries, FreePart, PackedBucket, PackedGlobal, PackedLocal, PackedOwn, StrandSteps};
use map_types::{DomainId, NoMemory, Numbers};
use std::alloc::Global;

/// What one turn of a lock did.
#[derive(Drop)]
pub enum Part {
    Bucket(PackedBucket),
    Free(FreePart),
    Local(PackedLocal),
    Global(PackedGlobal),
    Own(PackedOwn),
}

/// One turn of a lock: its ticket, by which all turns of a run stand in one order, the CPU that had it, the call in which it had
/// it, and what it did.
#[derive(Drop)]
pub struct Entry {
    pub ticket: u64,
    pub cpu: u32,
    pub call: u32,
    pub part: Part,
}

/// The turns of a lock, in their order.
#[derive(Drop)]
pub struct LockHistory {
    pub lock: DomainId,
    pub entries: Entries,
}

/// The turns of some CPUs in a phase of a run, in the order in which they gave the locks back.
#[derive(Drop)]
pub struct Strand {
    /// Phases are numbered from 0.
    pub phase: u32,
    /// Ascending.
    pub cpus: Numbers,
    pub steps: StrandSteps,
}

/// One turn: the lock, and the place of its entry in that lock's history, from 0.
#[derive(Clone, Copy, Debug, PartialEq, Eq)]
pub struct StrandStep {
    pub lock: DomainId,
    pub index: u64,
}

impl LockHistory {
    /// An equal one.
    pub fn copy(&self, alloc: Global) -> Result<LockHistory, NoMemory>
        ensures { IfOk result (λ copy. copy ≡ self.now) }
    {
        Ok(LockHistory {
            lock: self.lock,
            entries: self.entries.copy(alloc)?,
        })
    }
}

impl Strand {
    /// An equal one.
    pub fn copy(&self, alloc: Global) -> Result<Strand, NoMemory>
        ensures { IfOk result (λ copy. copy ≡ self.now) }
    {
        Ok(Strand {
            phase: self.phase,
            cpus: copy_list(&self.cpus, alloc)?,
            steps: self.steps.copy(alloc)?,
        })
    }
}
