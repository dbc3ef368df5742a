//! What happened under each lock.

ghost use Rattle.std.specs.Prelude.{◌≡◌, ◌≤◌, IfOk, length};
ghost use Rattle.map_types.specs.Creation.{IsShape};
ghost use Rattle.place_words.specs.Locks.{lock_count};
ghost use Rattle.record_reading.specs.LineReaders.{entry};
ghost use Rattle.record_reading.specs.Outcomes.{Reads, entries_due, head_of};
ghost use Rattle.record_reading.specs.Readers.{whole};
ghost use Rattle.record_reading.specs.RecordReaders.{histories_section};
ghost use Rattle.record_reading.specs.Sections.{one_line, so_many};

use crate::history::{entry_line, is_same_lock, lock_head};
use crate::lines::Lines;
use map_script::Script;
use map_types::{DomainId, List, NoMemory, Shape};
use place_words::{Entries, Entry, LockHistory, is_lock, lock_named};
use std::alloc::{AllocError, Global};

/// An entry of a lock.
#[tactic(auto, using(crate::proofs::LineLemmas::line_found, crate::proofs::LineLemmas::line_other, crate::proofs::LineLemmas::line_missing))]
fn read_entry(
    alloc: Global,
    shape: &Shape,
    calls: u32,
    lock: DomainId,
    lines: &mut Lines,
) -> Result<Option<Entry>, NoMemory>
    requires shape { IsShape shape.now }
    requires calls { calls ≤ 200000 }
    ensures lines { IfOk result (Reads (one_line (whole (entry shape.now calls lock)))
        lines.old.0 lines.new.0) }
    ensures rest { lines.new.1 ≡ lines.old.1 }
{
    let Some(line) = lines.first() else {
        return Ok(None);
    };
    let Some(entry) = entry_line(alloc, shape, calls, lock, line)? else {
        return Ok(None);
    };
    lines.pass();
    Ok(Some(entry))
}

/// So many entries of a lock. The text says how many there are to be, so no room is made for them before they are read. Each
/// has a part of the lock's kind, so that memory is all that one may want for.
#[tactic(auto, using(crate::proofs::LoopLemmas::many_more, crate::proofs::LoopLemmas::many_none, crate::proofs::LoopLemmas::many_done))]
fn read_entries(
    alloc: Global,
    shape: &Shape,
    calls: u32,
    lock: DomainId,
    count: u64,
    lines: &mut Lines,
) -> Result<Option<Entries>, NoMemory>
    requires shape { IsShape shape.now }
    requires calls { calls ≤ 200000 }
    ensures lines { IfOk result (Reads (so_many count (one_line (whole (entry shape.now calls lock))))
        lines.old.0 lines.new.0) }
    ensures rest { lines.new.1 ≡ lines.old.1 }
{
    let mut entries = Entries::none_of(alloc, lock);
    for place in 0..count {
        let Some(entry) = read_entry(alloc, shape, calls, lock, lines)? else {
            return Ok(None);
        };
        if entries.push(entry).is_err() {
            return Err(AllocError.into());
        }
    }
    Ok(Some(entries))
}

/// The head of the next history, if the first line is one.
fn next_head(shape: &Shape, lines: &Lines) -> Option<(DomainId, u64)>
    ensures { result ≡ head_of shape.now lines.now.0 }
{
    match lines.first() {
        Some(line) => lock_head(shape, line),
        None => None,
    }
}

/// How many entries of a lock follow on a head.
fn entries_due(calls: u32, lock: DomainId, head: Option<(DomainId, u64)>) -> Option<u64>
    ensures { result ≡ entries_due calls lock head }
{
    let (found, count) = head?;
    if is_same_lock(found, lock) && count >= 1 && calls >= 1 {
        Some(count)
    } else {
        None
    }
}

/// How many locks are numbered.
fn count_locks(shape: &Shape) -> u32
    requires { IsShape shape.now }
    ensures { result ≡ lock_count shape.now }
{
    3 * shape.cpus + 1 + shape.buckets
}

/// The history of each lock of the map, in the order of the locks. One without an entry has no line.
pub(crate) fn read_histories(
    alloc: Global,
    script: &Script,
    lines: &mut Lines,
) -> Result<Option<List<LockHistory>>, NoMemory>
    requires shape { IsShape script.now.shape }
    requires few { length script.now.calls ≤ 200000 }
    ensures lines { IfOk result (Reads (histories_section script.now) lines.old.0 lines.new.0) }
    ensures rest { lines.new.1 ≡ lines.old.1 }
{
    let shape = &script.shape;
    let calls = script.calls.len() as u32;
    let mut histories = List::of(Vec::new(alloc));
    let mut head = next_head(shape, lines);
    for number in 0..count_locks(shape) {
        let lock = lock_named(shape, number);
        if !is_lock(shape, lock) {
            continue;
        }
        let Some(count) = entries_due(calls, lock, head) else {
            histories.push(LockHistory {
                lock,
                entries: Entries::none_of(alloc, lock),
            })?;
            continue;
        };
        lines.pass();
        let Some(entries) = read_entries(alloc, shape, calls, lock, count, lines)? else {
            return Ok(None);
        };
        histories.push(LockHistory { lock, entries })?;
        head = next_head(shape, lines);
    }
    Ok(Some(histories))
}
