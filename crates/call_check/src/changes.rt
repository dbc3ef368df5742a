//! The replacements of a record, by which CPUs get their spares.

ghost use Rattle.std.specs.Prelude.{◌≡◌, ◌+◌, ◌*◌, ◌++◌, ◌∷◌, [], ◌<◌, ◌==◌, ℕ, IfOk, filter, length, slice_index_or, if◌then◌else◌};
ghost use Rattle.std.specs.Bool.{OnFalse};
ghost use Rattle.std.specs.Prelude.{OnOk};
ghost use Rattle.std.specs.List.{filter_map};
ghost use Rattle.place_words.specs.Entries.{entry_read, part_read};
ghost use Rattle.call_check.specs.RightCalls.{moment_of, ticket_bound};
ghost use Rattle.call_check.specs.Spares.{AreLow, Rise, change_of, changes_of, left_by, left_by_bucket_part, left_by_put};

use crate::strand_of::phase_of;
use map_types::{List, NoMemory};
use place_words::{BucketPart, Entries, EntryAt, LockHistory, PartAt, Put};
use std::alloc::Global;

/// A replacement: its moment, the CPU that made it, and the old element, which became that CPU's spare.
#[derive(Clone, Copy)]
pub(crate) struct Change {
    pub(crate) moment: u128,
    pub(crate) cpu: u32,
    pub(crate) old: u32,
}

/// The element that an update left as the spare.
fn left_by_put(put: Put) -> Option<u32>
    ensures { result ≡ left_by_put put }
{
    match put {
        Put::Replaced { new: _, old } => Some(old),
        _ => None,
    }
}

/// The element that a turn of a bucket left as the spare.
fn left_by_bucket_part(part: &BucketPart) -> Option<u32>
    ensures { result ≡ left_by_bucket_part part.now }
{
    match part {
        BucketPart::Update { put, .. } => left_by_put(*put),
        _ => None,
    }
}

/// The element that a turn left as the spare.
fn left_by(part: PartAt<'_>) -> Option<u32>
    ensures { result ≡ left_by (part_read part.entry) }
{
    match part {
        PartAt::Bucket(packed) => match packed.part() {
            Ok(part) => left_by_bucket_part(part),
            Err(part) => left_by_bucket_part(&part),
        },
        _ => None,
    }
}

/// The moment of an entry: by the phase of its call, and in one phase by its ticket.
pub(crate) fn moment_of(cuts: &[u32], entry: EntryAt<'_>) -> u128
    ensures { result ≡ moment_of cuts.now (entry_read entry.entry) }
{
    moment(phase_of(cuts, entry.call), entry.ticket)
}

/// The moment of a ticket of a phase.
#[tactic(auto, unfolding(crate::specs::RightCalls::ticket_bound))]
fn moment(phase: usize, ticket: u64) -> u128
    ensures { result ≡ phase * ticket_bound + ticket }
{
    (phase as u128) * (1 << 64) + u128::from(ticket)
}

/// The replacement that an entry tells.
fn change_of(cuts: &[u32], entry: EntryAt<'_>) -> Option<Change>
    ensures { result ≡ change_of cuts.now (entry_read entry.entry) }
{
    let old = left_by(entry.part)?;
    Some(Change {
        moment: moment_of(cuts, entry),
        cpu: entry.cpu,
        old,
    })
}

/// Adds the replacements of some entries.
fn push_changes(changes: &mut Vec<Change>, cuts: &[u32], entries: &Entries) -> Result<(), NoMemory>
    ensures { OnOk result (changes.new.items ≡ changes.old.items ++ filter_map (change_of cuts.now) entries.now) }
{
    for index in 0..entries.len() {
        push_change(changes, cuts, entries.at(index))?;
    }
    Ok(())
}

/// Adds the replacement of an entry.
fn push_change(changes: &mut Vec<Change>, cuts: &[u32], entry: EntryAt<'_>) -> Result<(), NoMemory>
    ensures { OnOk result (changes.new.items ≡ changes.old.items ++ filter_map (change_of cuts.now) (entry_read entry.entry ∷ [])) }
{
    match change_of(cuts, entry) {
        Some(change) => Ok(changes.push(change)?),
        None => Ok(()),
    }
}

/// All replacements, in the order of the histories.
fn changes_of(
    alloc: Global,
    cuts: &[u32],
    histories: &[LockHistory],
) -> Result<Vec<Change>, NoMemory>
    ensures { IfOk result (λ changes. changes.items ≡ changes_of cuts.now histories.now) }
{
    let mut changes = Vec::new(alloc);
    for history in histories {
        push_changes(&mut changes, cuts, &history.entries)?;
    }
    Ok(changes)
}

/// All replacements by their moments; those of one moment stay in the order of the histories.
pub(crate) fn sorted_changes(
    alloc: Global,
    cuts: &[u32],
    histories: &[LockHistory],
) -> Result<Vec<Change>, NoMemory>
    ensures rise { IfOk result (λ changes. Rise changes.items) }
    ensures same { IfOk result (λ changes. (moment : ℕ) → filter (λ change. change.moment == moment) changes.items
        ≡ filter (λ change. change.moment == moment) (changes_of cuts.now histories.now)) }
    ensures low { IfOk result (λ changes. (bound : ℕ) → AreLow bound (changes_of cuts.now histories.now) → AreLow bound changes.items) }
{
    let mut changes = changes_of(alloc, cuts, histories)?;
    changes.sort_by_key(|change| change.moment)?;
    Ok(changes)
}

/// The replacements of each of so many CPUs.
pub(crate) fn by_cpu(
    alloc: Global,
    cpus: u32,
    changes: &[Change],
) -> Result<Vec<List<Change>>, NoMemory>
    ensures each { IfOk result (λ table. length table.items ≡ cpus) }
    ensures own { IfOk result (λ table. (cpu : ℕ) → cpu < cpus
        → slice_index_or table.items cpu [] ≡ filter (λ change. change.cpu == cpu) changes.now) }
{
    let mut table = empty_lists(alloc, cpus)?;
    for change in changes {
        deal(&mut table, *change)?;
    }
    Ok(table)
}

/// So many empty lists.
fn empty_lists(alloc: Global, count: u32) -> Result<Vec<List<Change>>, NoMemory>
    ensures each { IfOk result (λ table. length table.items ≡ count) }
    ensures empty { IfOk result (λ table. (cpu : ℕ) → slice_index_or table.items cpu [] ≡ []) }
{
    let mut table = Vec::new(alloc);
    for _ in 0..count {
        table.push(List::of(Vec::new(alloc)))?;
    }
    Ok(table)
}

/// Adds a replacement to those of its CPU, if that has a list.
fn deal(table: &mut Vec<List<Change>>, change: Change) -> Result<(), NoMemory>
    ensures each { length table.new.items ≡ length table.old.items }
    ensures own { OnOk result ((cpu : ℕ) → cpu < length table.old.items
        → slice_index_or table.new.items cpu [] ≡ slice_index_or table.old.items cpu [] ++ (if change.cpu == cpu then change ∷ [] else [])) }
{
    let cpu = change.cpu as usize;
    if cpu < table.len() {
        table[cpu].push(change)?;
    }
    Ok(())
}
