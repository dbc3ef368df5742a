//! How a run of the program ended.

ghost use Rattle.std.specs.Prelude.{◌≡◌};

use map_report::RunRecord;
use map_types::{List, Reply};
use std::mem;

/// How a run of the program ended.
#[derive(Drop)]
pub struct Finish<C> {
    /// The status of the process, as `status_of` says (specs/Finish.antt), or 4 where a write failed.
    pub status: u8,
    /// The record of the run, exactly where its report was due: with status 0, and with 4 in the place of it. In the modes
    /// `compare` and `check` none is kept.
    pub kept: Option<RunRecord>,
    /// What the run's map left when it was closed, exactly where the record is there.
    pub closed: Option<C>,
    /// What is kept of a copy, exactly where the record is there in mode `copy`.
    pub copy: Option<CopyRecord<C>>,
}

/// What is kept of a copy beside the record of the run, which is that of the source.
#[derive(Drop)]
pub struct CopyRecord<C> {
    /// The replies to the reads of the source, in their order.
    pub reads: List<Reply>,
    /// The record of the run on the target, whose calls are the puts.
    pub target: RunRecord,
    /// What the target left when it was closed.
    pub closed: C,
}

impl<C: Drop> Finish<C> {
    /// The status alone; what is kept is given up.
    pub fn into_status(self) -> u8
        ensures { result ≡ self.status }
    {
        self.status
    }

    /// The status, for a process that ends with it: what is kept is left to the system, which takes all memory back at once.
    pub fn exit_status(self) -> u8
        ensures { result ≡ self.status }
    {
        let status = self.status;
        mem::forget(self);
        status
    }
}
