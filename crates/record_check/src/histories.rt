//! All histories of a record, replayed.

ghost use Rattle.std.specs.Prelude.{◌≡◌, ℕ, IfOk, MatchResult};
ghost use Rattle.map_types.specs.Creation.{IsShape};
ghost use Rattle.place_words.specs.declared.history.LockHistory.{LockHistory};
ghost use Rattle.record_shape.specs.Fits.{AllFit};
ghost use Rattle.record_shape.specs.WellShaped.{HistoryFits};
ghost use Rattle.replay_words.specs.Replays.{IsFirstFlaw};
ghost use Rattle.record_check.specs.Replayed.{LockReplays, Replays, StopsIn, StopsAtLock};

use crate::lock::{ReplayedLock, replay_lock};
use crate::stop::HistoryStop;
use map_report::RunRecord;
use map_types::{List, Shape};
use place_words::{Finals, LockHistory};
use replay_words::{Note, ReplayStop};
use std::alloc::Global;

/// What the histories of a record lead to.
#[derive(Drop)]
pub struct Replayed {
    /// Whether the finals tell what they lead to.
    pub told: bool,
    /// What is noted of their turns, history by history.
    pub notes: List<List<Note>>,
}

/// Replays the histories of a record that is well shaped, in the order of the locks: whether its finals tell what they lead to, and
/// what is noted of their turns, or the first turn that isn't allowed. What lies under a lock is dropped before the next one is replayed.
pub fn replay_histories(
    alloc: Global,
    shape: &Shape,
    kept: &RunRecord,
) -> Result<Replayed, HistoryStop>
    requires shape { IsShape shape.now }
    requires shaped { (calls : ℕ) × AllFit (HistoryFits shape.now calls) kept.now.histories }
    ensures { MatchResult result (Replays shape.now kept.now) (StopsIn shape.now kept.now.histories) }
{
    let histories = kept.histories.as_slice();
    let mut told = true;
    let mut notes = List::of(Vec::new(alloc));
    for i in 0..histories.len() {
        let replayed = replay_at(alloc, shape, &kept.finals, i, &histories[i])?;
        told = told && replayed.told;
        notes.push(replayed.notes)?;
    }
    Ok(Replayed { told, notes })
}

/// Replays the history of a number.
fn replay_at(
    alloc: Global,
    shape: &Shape,
    finals: &Finals,
    number: usize,
    history: &LockHistory,
) -> Result<ReplayedLock, HistoryStop>
    requires shape { IsShape shape.now }
    requires fits { (calls : ℕ) × HistoryFits shape.now calls history.now }
    ensures { MatchResult result
        (LockReplays shape.now finals.now history.now.lock history.now.entries)
        (StopsAtLock shape.now history.now number) }
{
    match replay_lock(alloc, shape, finals, history) {
        Ok(replayed) => Ok(replayed),
        Err(ReplayStop::NotAllowed { index }) => Err(HistoryStop::NotAllowed {
            history: number,
            index,
        }),
        Err(ReplayStop::NoMemory) => Err(HistoryStop::NoMemory),
    }
}
