//! The steps that take a lock and give it back.

ghost use Rattle.std.specs.Prelude.{◌≡◌, ◌==◌, not, filter, IfOk, None, Some};
ghost use Rattle.place_words.specs.Locks.{lock_number};
ghost use Rattle.core_runs.specs.Words.{HoldsWord, TakesWord, with_holder_word};
ghost use Rattle.step_check.specs.Answers.{view_of, Answers};
ghost use Rattle.step_check.specs.WordsView.{words_in, AreWords};

use crate::words::{Kept, holder_in, holds, holds_below};
use map_types::{DomainId, NoMemory};
use place_words::{is_lock, lock_number, rank};
use std::alloc::Global;

/// A CPU takes a lock.
pub(crate) fn take(kept: &mut Kept, cpu: u32, lock: DomainId) -> Result<bool, NoMemory>
    requires { AreWords (view_of kept.old) }
    ensures { Answers (view_of kept.old)
        (TakesWord kept.old.shape (words_in (view_of kept.old)) cpu lock)
        (with_holder_word (words_in (view_of kept.old)) (lock_number kept.old.shape lock)
        (Some cpu)) (view_of kept.new) result }
{
    if cpu >= kept.shape.cpus || !is_lock(&kept.shape, lock) {
        return Ok(false);
    }
    let number = lock_number(&kept.shape, lock);
    if holder_in(number, kept.held.as_slice()).is_some() {
        return Ok(false);
    }
    if !holds_below(&kept.shape, cpu, rank(lock), kept.held.as_slice()) {
        return Ok(false);
    }
    kept.held.push((number, cpu))?;
    Ok(true)
}

/// The holds without that of a lock.
fn without_hold(
    alloc: Global,
    number: u32,
    held: &[(u32, u32)],
) -> Result<Vec<(u32, u32)>, NoMemory>
    ensures { IfOk result (λ rest. rest.items ≡ filter (λ hold. not (hold.0 == number)) held.now) }
{
    Ok(
        held.iter()
            .copied()
            .filter(|hold| hold.0 != number)
            .collect(alloc)?,
    )
}

/// A CPU gives a lock back.
pub(crate) fn give(
    kept: &mut Kept,
    alloc: Global,
    cpu: u32,
    lock: DomainId,
) -> Result<bool, NoMemory>
    requires { AreWords (view_of kept.old) }
    ensures { Answers (view_of kept.old)
        (HoldsWord kept.old.shape (words_in (view_of kept.old)) cpu lock)
        (with_holder_word (words_in (view_of kept.old)) (lock_number kept.old.shape lock) None)
        (view_of kept.new) result }
{
    if !holds(kept, cpu, lock) {
        return Ok(false);
    }
    let number = lock_number(&kept.shape, lock);
    let held = without_hold(alloc, number, kept.held.as_slice())?;
    kept.held = held;
    Ok(true)
}
