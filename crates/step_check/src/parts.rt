//! What each part of a history does to the words of its elements.

ghost use Rattle.std.specs.Prelude.{◌≡◌, ℕ, map, IfOk};
ghost use Rattle.map_types.specs.Stored.{Stored};
ghost use Rattle.place_words.specs.Bodies.{numbers};
ghost use Rattle.place_words.specs.Interleaving.{bucket_steps, detaches, freelist_steps, local_steps};
ghost use Rattle.step_check.specs.Ran.{step_of};
ghost use Rattle.step_check.specs.declared.change.Change.TheVariants as variants;

use crate::change::Change;
use map_types::{DomainId, NoMemory, Shape};
use place_words::{BucketPart, FreePart, Home, Kept, LocalPart, Put, Seen, Stolen, Walked};
use std::alloc::Global;

/// What a turn of a freelist does. `around` is the bucket whose turn encloses it, where one does.
pub(crate) fn free_changes(
    alloc: Global,
    around: Option<u32>,
    lock: DomainId,
    part: FreePart,
) -> Result<Vec<Change>, NoMemory>
    ensures { IfOk result (λ changes. (cpu : ℕ)
        → map (step_of cpu) changes.items ≡ freelist_steps cpu around lock part) }
{
    let mut changes = Vec::new(alloc);
    match part {
        FreePart::Pushed(element) => {
            if let Some(bucket) = around {
                changes.push(Change::Detach { element, bucket })?;
            }
            changes.push(Change::Settle { element, lock })?;
        }
        FreePart::Popped(element) => changes.push(Change::Claim { element, lock })?,
        FreePart::FoundEmpty => {}
    }
    Ok(changes)
}

/// What a turn of a CPU's local lists does.
pub(crate) fn local_changes(
    alloc: Global,
    cpu: u32,
    lock: DomainId,
    part: &LocalPart,
) -> Result<Vec<Change>, NoMemory>
    ensures { IfOk result (λ changes.
        map (step_of cpu) changes.items ≡ local_steps cpu lock part.now) }
{
    let mut changes = Vec::new(alloc);
    let hand = Home::Hand(cpu);
    match part {
        LocalPart::Pop { element, .. } => changes.push(Change::Claim {
            element: *element,
            lock,
        })?,
        LocalPart::Refill { got, .. } => {
            if let Some(element) = *got {
                changes.push(Change::Claim { element, lock })?;
            }
        }
        LocalPart::Steal { got, .. } => match *got {
            Stolen::Free(element) => {
                changes.push(Change::Claim { element, lock })?;
                changes.push(Change::Rehome { element, to: hand })?;
            }
            Stolen::Pending(element) => changes.push(Change::Rehome { element, to: hand })?,
            Stolen::Nothing => {}
        },
        LocalPart::Add { element, .. } => changes.push(Change::Rehome {
            element: *element,
            to: Home::In(DomainId::Local(cpu)),
        })?,
        LocalPart::Push { element, done } => {
            if *done {
                changes.push(Change::Settle {
                    element: *element,
                    lock,
                })?;
            }
        }
    }
    Ok(changes)
}

/// The elements that a walk took, out of their bucket.
fn all_detached(alloc: Global, bucket: u32, all: &[Kept]) -> Result<Vec<Change>, NoMemory>
    ensures { IfOk result (λ changes. changes.items
        ≡ map (λ (body : Stored). variants.Detach body.element bucket) all.now) }
{
    Ok(
        all.iter()
            .map(|kept| Change::Detach {
                element: kept.element,
                bucket,
            })
            .collect(alloc)?,
    )
}

/// What a walk that removes does.
fn walk_changes(alloc: Global, bucket: u32, all: &[Kept]) -> Result<Vec<Change>, NoMemory>
    ensures { IfOk result (λ changes. (cpu : ℕ)
        → map (step_of cpu) changes.items ≡ detaches cpu bucket (numbers all.now)) }
{
    let changes = all_detached(alloc, bucket, all)?;
    Ok(changes)
}

/// What a turn of a bucket does.
pub(crate) fn bucket_changes(
    alloc: Global,
    shape: &Shape,
    bucket: u32,
    part: &BucketPart,
) -> Result<Vec<Change>, NoMemory>
    ensures { IfOk result (λ changes. (cpu : ℕ)
        → map (step_of cpu) changes.items ≡ bucket_steps shape.now cpu bucket part.now) }
{
    let mut changes = Vec::new(alloc);
    let lru = shape.kind.is_lru();
    match part {
        BucketPart::Update { put, .. } => match *put {
            Put::Added(element) => changes.push(Change::Attach { element, bucket })?,
            Put::Replaced { new, old } => {
                changes.push(Change::Attach {
                    element: new,
                    bucket,
                })?;
                changes.push(Change::Detach {
                    element: old,
                    bucket,
                })?;
            }
            Put::Written(_) | Put::Exists | Put::Absent | Put::Full => {}
        },
        BucketPart::Delete { gone, .. } => {
            if lru {
                if let Some(element) = *gone {
                    changes.push(Change::Detach { element, bucket })?;
                }
            }
        }
        BucketPart::Take { gone, .. } => {
            if lru {
                if let Some((element, _)) = gone {
                    changes.push(Change::Detach {
                        element: *element,
                        bucket,
                    })?;
                }
            }
        }
        BucketPart::Walk { remove, result, .. } => {
            if lru && *remove {
                if let Walked::Taken(all) = result {
                    changes = walk_changes(alloc, bucket, all.as_slice())?;
                }
            }
        }
        BucketPart::Evict { element, probed } => {
            if let Seen::Removed = *probed {
                changes.push(Change::Detach {
                    element: *element,
                    bucket,
                })?;
            }
        }
        BucketPart::Lookup { .. } | BucketPart::Next { .. } | BucketPart::First { .. } => {}
    }
    Ok(changes)
}
