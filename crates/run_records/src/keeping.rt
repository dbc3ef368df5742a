//! What is kept of a run: what is told of it, and what its table left when it was closed.

ghost use Rattle.std.specs.Prelude.{◌≡◌, false, IfOk};
ghost use Rattle.run_records.specs.Copies.{record_left};

use crate::pieces::{Piece, record_of};
use map_report::{PhaseStart, RunRecord};
use map_types::{NoMemory, Reply};
use place_table::Closed;
use std::alloc::{AllocError, Global};

/// What is told of a run beside what its table leaves.
#[derive(Drop)]
pub struct Told {
    pub replies: Vec<Reply>,
    pub starts: Vec<PhaseStart>,
    pub pieces: Vec<Piece>,
}

/// The record of a run of which this is told, and what its table left. Where the record of a lock is lost there is none.
pub fn keep(
    alloc: Global,
    cpus: u32,
    told: Told,
    closed: Closed,
) -> Result<(RunRecord, Closed), NoMemory>
    ensures { IfOk result (λ kept. (kept.0 ≡ record_left cpus
        told.pieces.items told.replies.items told.starts.items closed)
        × (kept.1 ≡ closed) × (closed.lost ≡ false)) }
{
    if closed.lost() {
        return Err(AllocError.into());
    }
    let Told {
        replies,
        starts,
        pieces,
    } = told;
    let kept = record_of(alloc, cpus, pieces.as_slice(), replies, starts, &closed)?;
    Ok((kept, closed))
}
