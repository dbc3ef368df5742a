//! One turn of a record.

ghost use Rattle.std.specs.Prelude.{ℕ, ◌≡◌, [], ◌∷◌, ◌++◌, map, IfOk};
ghost use Rattle.place_words.specs.declared.step.Lists as lists_of;
ghost use Rattle.place_words.specs.declared.step.Step.TheVariants as steps;
ghost use Rattle.place_words.specs.Entries.{part_read};
ghost use Rattle.place_words.specs.Interleaving.{bucket_of_lock, bucket_steps, does, global_steps, local_steps, own_steps, part_steps, seen_by, seen_in};
ghost use Rattle.step_check.specs.Answers.{view_of};
ghost use Rattle.step_check.specs.Ran.{Ran, seen_list, step_of};
ghost use Rattle.step_check.specs.WordsView.{AreWords};

use crate::change::{Change, run_changes};
use crate::list_parts::{global_changes, own_changes};
use crate::locks::give;
use crate::owners::sees;
use crate::parts::{bucket_changes, free_changes, local_changes};
use crate::words::Kept;
use map_types::{DomainId, NoMemory, Shape};
use place_words::{PackedBucket, PackedGlobal, PackedLocal, PackedOwn, PartAt, Seen};
use std::alloc::Global;

/// The bucket of a bucket's lock.
pub(crate) fn bucket_of(lock: DomainId) -> Option<u32>
    ensures { result ≡ bucket_of_lock lock }
{
    match lock {
        DomainId::Bucket(bucket) => Some(bucket),
        DomainId::Local(_) | DomainId::Global | DomainId::CpuLru(_) | DomainId::Freelist(_) => {
            None
        }
    }
}

/// What any part does, under its lock and inside the turn of this bucket, where it is inside one.
pub(crate) fn part_changes(
    alloc: Global,
    shape: &Shape,
    cpu: u32,
    lock: DomainId,
    around: Option<u32>,
    part: PartAt<'_>,
) -> Result<Vec<Change>, NoMemory>
    ensures { IfOk result (λ changes. map (step_of cpu) changes.items
        ≡ part_steps shape.now cpu lock around (part_read part.entry)) }
{
    match part {
        PartAt::Bucket(part) => {
            let changes = packed_bucket(alloc, shape, bucket_of(lock).unwrap_or(0), part)?;
            Ok(changes)
        }
        PartAt::Free(part) => {
            let changes = free_changes(alloc, around, lock, part)?;
            Ok(changes)
        }
        PartAt::Local(part) => packed_local(alloc, cpu, lock, part),
        PartAt::Global(part) => packed_global(alloc, cpu, part),
        PartAt::Own(part) => packed_own(alloc, cpu, lock, part),
    }
}

/// What a turn of a bucket does, as it is kept.
fn packed_bucket(
    alloc: Global,
    shape: &Shape,
    bucket: u32,
    part: &PackedBucket,
) -> Result<Vec<Change>, NoMemory>
    ensures { IfOk result (λ changes. (cpu : ℕ)
        → map (step_of cpu) changes.items ≡ bucket_steps shape.now cpu bucket part.now) }
{
    match part.part() {
        Ok(part) => {
            let changes = bucket_changes(alloc, shape, bucket, part)?;
            Ok(changes)
        }
        Err(part) => {
            let changes = bucket_changes(alloc, shape, bucket, &part)?;
            Ok(changes)
        }
    }
}

/// What a turn of local lists does, as it is kept.
fn packed_local(
    alloc: Global,
    cpu: u32,
    lock: DomainId,
    part: &PackedLocal,
) -> Result<Vec<Change>, NoMemory>
    ensures { IfOk result (λ changes. map (step_of cpu) changes.items
        ≡ local_steps cpu lock part.now) }
{
    match part.part() {
        Ok(part) => local_changes(alloc, cpu, lock, part),
        Err(part) => local_changes(alloc, cpu, lock, &part),
    }
}

/// What a turn of the global lists does, as it is kept.
fn packed_global(alloc: Global, cpu: u32, part: &PackedGlobal) -> Result<Vec<Change>, NoMemory>
    ensures { IfOk result (λ changes.
        map (step_of cpu) changes.items ≡ global_steps cpu part.now) }
{
    match part.part() {
        Ok(part) => global_changes(alloc, cpu, part),
        Err(part) => global_changes(alloc, cpu, &part),
    }
}

/// What a turn of a CPU's own lists does, as it is kept.
fn packed_own(
    alloc: Global,
    cpu: u32,
    lock: DomainId,
    part: &PackedOwn,
) -> Result<Vec<Change>, NoMemory>
    ensures { IfOk result (λ changes.
        map (step_of cpu) changes.items ≡ own_steps cpu lock part.now) }
{
    let changes = own_changes(alloc, lock, part.part())?;
    Ok(changes)
}

/// The element that a turn of a bucket sees in a hand, and whose hand it is.
fn seen_in_bucket(part: &PackedBucket) -> Option<(u32, u32)>
    ensures { seen_in part.now ≡ seen_list result }
{
    let (element, probed) = part.eviction()?;
    match probed {
        Seen::Held(hand) => Some((element, hand)),
        Seen::Removed => None,
    }
}

/// The element that a turn sees in a hand, and whose hand it is.
fn seen_of(part: PartAt<'_>) -> Option<(u32, u32)>
    ensures { seen_by (part_read part.entry) ≡ seen_list result }
{
    match part {
        PartAt::Bucket(part) => seen_in_bucket(part),
        PartAt::Free(_) | PartAt::Local(_) | PartAt::Global(_) | PartAt::Own(_) => None,
    }
}

/// Whether what a turn sees in a hand is there.
fn all_seen(kept: &Kept, part: PartAt<'_>) -> bool
    requires { AreWords (view_of kept.now) }
    ensures { Ran (view_of kept.now) (seen_by (part_read part.entry)) (view_of kept.now) result }
{
    match seen_of(part) {
        Some((element, hand)) => sees(kept, element, hand),
        None => true,
    }
}

/// What a turn does once its lock is taken: its steps, what it sees, and that it gives the lock back, as far as words allow.
pub(crate) fn run_part(
    kept: &mut Kept,
    alloc: Global,
    cpu: u32,
    lock: DomainId,
    around: Option<u32>,
    part: PartAt<'_>,
) -> Result<bool, NoMemory>
    requires { AreWords (view_of kept.old) }
    ensures { IfOk result (λ answer. (lists : lists_of.Lists) → Ran (view_of kept.old)
        (map does (part_steps kept.old.shape cpu lock around (part_read part.entry))
        ++ seen_by (part_read part.entry) ++ does (steps.Give cpu lock lists) ∷ []) (view_of kept.new) answer) }
{
    let changes = part_changes(alloc, &kept.shape, cpu, lock, around, part)?;
    if !run_changes(kept, cpu, changes.as_slice()) {
        return Ok(false);
    }
    if !all_seen(kept, part) {
        return Ok(false);
    }
    let given = give(kept, alloc, cpu, lock)?;
    Ok(given)
}
