//! The history of one lock, replayed, and what the finals tell of it.

ghost use Rattle.std.specs.Prelude.{◌≡◌, ℕ, MatchResult};
ghost use Rattle.map_types.specs.Creation.{IsShape};
ghost use Rattle.map_types.specs.declared.kind.DomainId.TheVariants as locks;
ghost use Rattle.record_shape.specs.Fits.{AllFit};
ghost use Rattle.record_shape.specs.ShapedParts.{EntryFits};
ghost use Rattle.record_shape.specs.WellShaped.{HistoryFits};
ghost use Rattle.replay_words.specs.Replays.{StopsAt};
ghost use Rattle.record_check.specs.Replayed.{LockReplays};

use crate::chains::bucket_told;
use finals_check::{Lies, Lying, is_told};
use local_replay::replay_local;
use map_types::{DomainId, List, Shape};
use place_words::{Entries, Finals, LockHistory};
use record_replay::{replay_bucket, replay_freelist};
use replay_words::{Note, ReplayStop};
use set_replay::{replay_global, replay_own};
use std::alloc::Global;

/// What the history of a lock leads to.
#[derive(Drop)]
pub(crate) struct ReplayedLock {
    /// Whether the finals tell it.
    pub told: bool,
    /// What is noted of its turns.
    pub notes: List<Note>,
}

/// Replays the history of a lock.
pub(crate) fn replay_lock(
    alloc: Global,
    shape: &Shape,
    finals: &Finals,
    history: &LockHistory,
) -> Result<ReplayedLock, ReplayStop>
    requires shape { IsShape shape.now }
    requires fits { (calls : ℕ) × HistoryFits shape.now calls history.now }
    ensures { MatchResult result
        (LockReplays shape.now finals.now history.now.lock history.now.entries)
        (StopsAt shape.now history.now.lock history.now.entries) }
{
    let entries = &history.entries;
    match history.lock {
        DomainId::Local(cpu) => replay_locals(alloc, shape, finals, cpu, entries),
        DomainId::Global => replay_globals(alloc, shape, finals, entries),
        DomainId::CpuLru(cpu) => replay_owns(alloc, shape, finals, cpu, entries),
        DomainId::Bucket(number) => replay_bodies(alloc, shape, finals, number, entries),
        DomainId::Freelist(cpu) => replay_stack(alloc, shape, finals, cpu, entries),
    }
}

/// Replays the history of a CPU's local lists.
fn replay_locals(
    alloc: Global,
    shape: &Shape,
    finals: &Finals,
    cpu: u32,
    entries: &Entries,
) -> Result<ReplayedLock, ReplayStop>
    ensures { MatchResult result
        (LockReplays shape.now finals.now (locks.Local cpu) entries.now)
        (StopsAt shape.now (locks.Local cpu) entries.now) }
{
    let replayed = replay_local(alloc, shape, cpu, entries)?;
    let lies = Lies {
        lock: DomainId::Local(cpu),
        content: Lying::Local(replayed.last),
    };
    Ok(ReplayedLock {
        told: is_told(finals, &lies),
        notes: replayed.notes,
    })
}

/// Replays the history of the global lists.
fn replay_globals(
    alloc: Global,
    shape: &Shape,
    finals: &Finals,
    entries: &Entries,
) -> Result<ReplayedLock, ReplayStop>
    requires shape { IsShape shape.now }
    requires fits { (calls : ℕ) × AllFit (EntryFits shape.now calls locks.Global) entries.now }
    ensures { MatchResult result
        (LockReplays shape.now finals.now locks.Global entries.now)
        (StopsAt shape.now locks.Global entries.now) }
{
    let replayed = replay_global(alloc, shape, entries)?;
    let lies = Lies {
        lock: DomainId::Global,
        content: Lying::Global(replayed.last),
    };
    Ok(ReplayedLock {
        told: is_told(finals, &lies),
        notes: replayed.notes,
    })
}

/// Replays the history of a CPU's own lists.
fn replay_owns(
    alloc: Global,
    shape: &Shape,
    finals: &Finals,
    cpu: u32,
    entries: &Entries,
) -> Result<ReplayedLock, ReplayStop>
    requires { IsShape shape.now }
    ensures { MatchResult result
        (LockReplays shape.now finals.now (locks.CpuLru cpu) entries.now)
        (StopsAt shape.now (locks.CpuLru cpu) entries.now) }
{
    let replayed = replay_own(alloc, shape, cpu, entries)?;
    let lies = Lies {
        lock: DomainId::CpuLru(cpu),
        content: Lying::Own(replayed.last),
    };
    Ok(ReplayedLock {
        told: is_told(finals, &lies),
        notes: replayed.notes,
    })
}

/// Replays the history of a bucket.
fn replay_bodies(
    alloc: Global,
    shape: &Shape,
    finals: &Finals,
    number: u32,
    entries: &Entries,
) -> Result<ReplayedLock, ReplayStop>
    requires shape { IsShape shape.now }
    requires fits { (calls : ℕ) × AllFit (EntryFits shape.now calls (locks.Bucket number)) entries.now }
    ensures { MatchResult result
        (LockReplays shape.now finals.now (locks.Bucket number) entries.now)
        (StopsAt shape.now (locks.Bucket number) entries.now) }
{
    let chain = replay_bucket(alloc, shape, entries)?;
    Ok(ReplayedLock {
        told: bucket_told(alloc, shape, finals, number, chain)?,
        notes: List::of(Vec::new(alloc)),
    })
}

/// Replays the history of a CPU's freelist.
fn replay_stack(
    alloc: Global,
    shape: &Shape,
    finals: &Finals,
    cpu: u32,
    entries: &Entries,
) -> Result<ReplayedLock, ReplayStop>
    requires { IsShape shape.now }
    ensures { MatchResult result
        (LockReplays shape.now finals.now (locks.Freelist cpu) entries.now)
        (StopsAt shape.now (locks.Freelist cpu) entries.now) }
{
    let stack = replay_freelist(alloc, shape, cpu, entries)?;
    let lies = Lies {
        lock: DomainId::Freelist(cpu),
        content: Lying::Freelist(stack),
    };
    Ok(ReplayedLock {
        told: is_told(finals, &lies),
        notes: List::of(Vec::new(alloc)),
    })
}
