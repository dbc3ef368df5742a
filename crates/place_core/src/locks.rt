//! The steps that take a lock and give it back.

ghost use Rattle.std.specs.Prelude.{◌≡◌, ◌==◌, not, filter, IfOk, MatchBool};
ghost use Rattle.place_words.specs.declared.step.Step.TheVariants as steps;
ghost use Rattle.place_core.specs.Answers.{view_of, Answers};
ghost use Rattle.place_core.specs.CoreView.{IsCore};
ghost use Rattle.place_words.specs.State.{HasOnlyItsLists, HasCursorInside};

use crate::cells::{Cells, holder_in, holds, holds_below};
use crate::lists::{copied_lists, have_same, have_same_rows, is_in};
use crate::{CoreRefusal, Lists};
use map_types::{DomainId, NoMemory};
use place_words::{is_lock, lock_number, rank};
use std::alloc::Global;

/// A CPU takes a lock.
pub(crate) fn take(cells: &mut Cells, cpu: u32, lock: DomainId) -> Result<(), CoreRefusal>
    requires { IsCore (view_of cells.old) }
    ensures { Answers (view_of cells.old) (steps.Take cpu lock) (view_of cells.new) result }
{
    if cpu >= cells.shape.cpus || !is_lock(&cells.shape, lock) {
        return Err(CoreRefusal::NotEnabled);
    }
    let number = lock_number(&cells.shape, lock);
    if holder_in(number, cells.held.as_slice()).is_some() {
        return Err(CoreRefusal::NotEnabled);
    }
    if !holds_below(&cells.shape, cpu, rank(lock), cells.held.as_slice()) {
        return Err(CoreRefusal::NotEnabled);
    }
    match cells.held.push((number, cpu)) {
        Ok(()) => Ok(()),
        Err(_) => Err(CoreRefusal::NoMemory),
    }
}

/// Whether a lock has lists only where it may, and a cursor only at an inactive element.
fn has_own(lock: DomainId, lists: &Lists) -> bool
    ensures { MatchBool result (HasOnlyItsLists lock lists.now × HasCursorInside lists.now)
        (HasOnlyItsLists lock lists.now → HasCursorInside lists.now → ⊥) }
{
    let own = match lock {
        DomainId::Local(_) => lists.second.is_empty(),
        DomainId::Global | DomainId::CpuLru(_) => true,
        DomainId::Bucket(_) => lists.free.is_empty() && lists.second.is_empty(),
        DomainId::Freelist(_) => lists.first.is_empty() && lists.second.is_empty(),
    };
    own && match lists.cursor {
        Some(at) => is_in(at, lists.second.as_slice()),
        None => true,
    }
}

/// The holds without that of a lock.
fn without_hold(
    alloc: Global,
    number: u32,
    held: &[(u32, u32)],
) -> Result<Vec<(u32, u32)>, NoMemory>
    ensures { IfOk result (λ rest. rest.items ≡ filter (λ hold. not (hold.0 == number)) held.now) }
{
    Ok(
        held.iter()
            .copied()
            .filter(|hold| hold.0 != number)
            .collect(alloc)?,
    )
}

/// A CPU gives a lock back.
pub(crate) fn give(
    cells: &mut Cells,
    alloc: Global,
    cpu: u32,
    lock: DomainId,
    lists: &Lists,
) -> Result<(), CoreRefusal>
    requires { IsCore (view_of cells.old) }
    ensures { Answers (view_of cells.old) (steps.Give cpu lock lists.now)
        (view_of cells.new) result }
{
    if !holds(cells, cpu, lock) || !has_own(lock, lists) {
        return Err(CoreRefusal::NotEnabled);
    }
    let number = lock_number(&cells.shape, lock);
    let under = &cells.lists[number as usize];
    if !have_same(alloc, lists.free.as_slice(), under.free.as_slice())? {
        return Err(CoreRefusal::NotEnabled);
    }
    if !have_same_rows(alloc, lists, under)? {
        return Err(CoreRefusal::NotEnabled);
    }
    let now = copied_lists(alloc, lists)?;
    let held = without_hold(alloc, number, cells.held.as_slice())?;
    cells.lists[number as usize] = now;
    cells.held = held;
    Ok(())
}
