//! The steps that move an element between the lists of locks, and that clear its bit.

ghost use Rattle.std.specs.Prelude.{◌≡◌, ◌<◌, ◌⊎◌, length, slice_index_or, IfOk, MatchBool};
ghost use Rattle.place_words.specs.declared.owner.Owner.TheVariants as owners;
ghost use Rattle.place_words.specs.declared.step.Step.TheVariants as steps;
ghost use Rattle.place_core.specs.Answers.{view_of, Answers};
ghost use Rattle.place_core.specs.CoreView.{state_of, IsCore};
ghost use Rattle.map_types.specs.ElementLists.{put};
ghost use Rattle.place_words.specs.State.{no_lists};
ghost use Rattle.place_words.specs.Steps.{IsHeldHome, MayLeave, MayEnter, left_by, joined_by};

use crate::cells::{Cells, holds, is_hand};
use crate::lists::{with_free, with_row, without_free, without_row};
use crate::{CoreRefusal, Lists};
use map_types::{DomainId, NoMemory};
use place_words::{Home, Owner, is_free, lock_number};
use std::alloc::Global;

/// Whether a home is a lock that a CPU holds.
fn is_held_home(cells: &Cells, cpu: u32, home: Home) -> bool
    requires { IsCore (view_of cells.now) }
    ensures { MatchBool result (IsHeldHome cells.now.shape (state_of (view_of cells.now)) cpu home)
        (¬ IsHeldHome cells.now.shape (state_of (view_of cells.now)) cpu home) }
{
    match home {
        Home::In(lock) => holds(cells, cpu, lock),
        Home::Unlisted | Home::Hand(_) => false,
    }
}

/// Whether an element may leave its home by a CPU's step.
fn may_leave(cells: &Cells, cpu: u32, home: Home) -> bool
    requires { IsCore (view_of cells.now) }
    ensures { MatchBool result (MayLeave cells.now.shape (state_of (view_of cells.now)) cpu home)
        (¬ MayLeave cells.now.shape (state_of (view_of cells.now)) cpu home) }
{
    match home {
        Home::In(lock) => holds(cells, cpu, lock),
        Home::Hand(hand) => hand == cpu,
        Home::Unlisted => false,
    }
}

/// Whether an element of this owner may come to a home by a CPU's step.
fn may_enter(cells: &Cells, cpu: u32, owner: Owner, to: Home) -> bool
    requires { IsCore (view_of cells.now) }
    ensures { MatchBool result (MayEnter cells.now.shape
        (state_of (view_of cells.now)) cpu owner to)
        (¬ MayEnter cells.now.shape (state_of (view_of cells.now)) cpu owner to) }
{
    match to {
        Home::In(DomainId::Local(at)) => {
            (is_free(owner) || is_hand(owner, cpu)) && holds(cells, cpu, DomainId::Local(at))
        }
        Home::In(DomainId::Global) => holds(cells, cpu, DomainId::Global),
        Home::Hand(hand) => hand == cpu && is_hand(owner, cpu),
        Home::In(DomainId::CpuLru(_) | DomainId::Bucket(_) | DomainId::Freelist(_))
        | Home::Unlisted => false,
    }
}

/// The lists that an element leaves.
fn left_by(alloc: Global, owner: Owner, element: u32, lists: &Lists) -> Result<Lists, NoMemory>
    ensures { IfOk result (λ now. now ≡ left_by owner element lists.now) }
{
    if is_free(owner) {
        without_free(alloc, element, lists)
    } else {
        without_row(alloc, element, lists)
    }
}

/// The lists to which an element comes.
fn joined_by(
    alloc: Global,
    lock: DomainId,
    owner: Owner,
    element: u32,
    lists: &Lists,
) -> Result<Lists, NoMemory>
    ensures { IfOk result (λ now. now ≡ joined_by lock owner element lists.now) }
{
    if is_free(owner) {
        with_free(alloc, element, lists)
    } else {
        with_row(alloc, lock, element, lists)
    }
}

/// Whether a CPU may clear the bit of an element with this owner and this home.
fn may_clear(cells: &Cells, cpu: u32, owner: Owner, home: Home) -> bool
    requires { IsCore (view_of cells.now) }
    ensures { MatchBool result
        (IsHeldHome cells.now.shape (state_of (view_of cells.now)) cpu home
        ⊎ (owner ≡ owners.Hand cpu))
        (¬ (IsHeldHome cells.now.shape (state_of (view_of cells.now)) cpu home
        ⊎ (owner ≡ owners.Hand cpu))) }
{
    if is_hand(owner, cpu) {
        return true;
    }
    is_held_home(cells, cpu, home)
}

/// A CPU clears an element's bit.
pub(crate) fn clear(cells: &mut Cells, cpu: u32, element: u32) -> Result<(), CoreRefusal>
    requires { IsCore (view_of cells.old) }
    ensures { Answers (view_of cells.old) (steps.Clear cpu element) (view_of cells.new) result }
{
    if cpu >= cells.shape.cpus || element >= cells.shape.elements {
        return Err(CoreRefusal::NotEnabled);
    }
    let owner = cells.owners[element as usize];
    let home = cells.homes[element as usize];
    if !may_clear(cells, cpu, owner, home) {
        return Err(CoreRefusal::NotEnabled);
    }
    cells.bits[element as usize] = false;
    Ok(())
}

/// What lies under a lock once other lists lie under another, or the same.
fn under_after<'a>(lists: &'a [Lists], other: usize, now: &'a Lists, number: usize) -> &'a Lists
    requires { number < length lists.now }
    ensures { result.now ≡ put (λ k. slice_index_or lists.now k no_lists) other now.now number }
{
    if number == other { now } else { &lists[number] }
}

/// A CPU moves an element to the lists under another lock, or into its hand.
pub(crate) fn rehome(
    cells: &mut Cells,
    alloc: Global,
    cpu: u32,
    element: u32,
    to: Home,
) -> Result<(), CoreRefusal>
    requires { IsCore (view_of cells.old) }
    ensures { Answers (view_of cells.old) (steps.Rehome cpu element to) (view_of cells.new) result }
{
    if !cells.shape.common || cpu >= cells.shape.cpus || element >= cells.shape.elements {
        return Err(CoreRefusal::NotEnabled);
    }
    let owner = cells.owners[element as usize];
    let home = cells.homes[element as usize];
    if !may_leave(cells, cpu, home) || !may_enter(cells, cpu, owner, to) {
        return Err(CoreRefusal::NotEnabled);
    }
    match (home, to) {
        (Home::Unlisted, _) => Err(CoreRefusal::NotEnabled),
        (_, Home::Unlisted) => Err(CoreRefusal::NotEnabled),
        (Home::In(from), Home::In(target)) => {
            let first = lock_number(&cells.shape, from) as usize;
            let second = lock_number(&cells.shape, target) as usize;
            let left = left_by(alloc, owner, element, &cells.lists[first])?;
            let under = under_after(cells.lists.as_slice(), first, &left, second);
            let joined = joined_by(alloc, target, owner, element, under)?;
            cells.lists[first] = left;
            cells.lists[second] = joined;
            cells.homes[element as usize] = to;
            Ok(())
        }
        (Home::In(from), Home::Hand(_)) => {
            let first = lock_number(&cells.shape, from) as usize;
            let left = left_by(alloc, owner, element, &cells.lists[first])?;
            cells.lists[first] = left;
            cells.homes[element as usize] = to;
            Ok(())
        }
        (Home::Hand(_), Home::In(target)) => {
            let second = lock_number(&cells.shape, target) as usize;
            let joined = joined_by(alloc, target, owner, element, &cells.lists[second])?;
            cells.lists[second] = joined;
            cells.homes[element as usize] = to;
            Ok(())
        }
        (Home::Hand(_), Home::Hand(_)) => {
            cells.homes[element as usize] = to;
            Ok(())
        }
    }
}

/// A CPU reads one of an element's words.
pub(crate) fn glance(cells: &Cells, cpu: u32, element: u32) -> Result<(), CoreRefusal>
    requires { IsCore (view_of cells.now) }
    ensures { Answers (view_of cells.now) (steps.Glance cpu element) (view_of cells.now) result }
{
    if cpu >= cells.shape.cpus || element >= cells.shape.elements {
        return Err(CoreRefusal::NotEnabled);
    }
    Ok(())
}
