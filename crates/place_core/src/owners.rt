//! The steps that change who has an element.

ghost use Rattle.place_words.specs.declared.step.Step.TheVariants as steps;
ghost use Rattle.place_core.specs.Answers.{view_of, Answers};
ghost use Rattle.place_core.specs.CoreView.{IsCore};

use crate::CoreRefusal;
use crate::cells::{Cells, holds, is_bucket, is_hand, is_head, is_lock_home_if};
use crate::lists::{is_in, is_listed_if, with_free, with_row, without_free, without_row};
use map_types::DomainId;
use place_words::{Owner, lock_number};
use std::alloc::Global;

/// A CPU takes the head of a free list into its hand.
pub(crate) fn claim(
    cells: &mut Cells,
    alloc: Global,
    cpu: u32,
    element: u32,
    lock: DomainId,
) -> Result<(), CoreRefusal>
    requires { IsCore (view_of cells.old) }
    ensures { Answers (view_of cells.old) (steps.Claim cpu element lock)
        (view_of cells.new) result }
{
    if !holds(cells, cpu, lock) {
        return Err(CoreRefusal::NotEnabled);
    }
    let number = lock_number(&cells.shape, lock) as usize;
    let under = &cells.lists[number];
    if !is_head(element, under.free.as_slice()) {
        return Err(CoreRefusal::NotEnabled);
    }
    let left = without_free(alloc, element, under)?;
    let now = with_row(alloc, lock, element, &left)?;
    cells.lists[number] = now;
    cells.owners[element as usize] = Owner::Hand(cpu);
    Ok(())
}

/// A CPU lays an element of its hand at the head of a free list.
pub(crate) fn settle(
    cells: &mut Cells,
    alloc: Global,
    cpu: u32,
    element: u32,
    lock: DomainId,
) -> Result<(), CoreRefusal>
    requires { IsCore (view_of cells.old) }
    ensures { Answers (view_of cells.old) (steps.Settle cpu element lock)
        (view_of cells.new) result }
{
    if !holds(cells, cpu, lock) || is_bucket(lock) || element >= cells.shape.elements {
        return Err(CoreRefusal::NotEnabled);
    }
    if !is_hand(cells.owners[element as usize], cpu) {
        return Err(CoreRefusal::NotEnabled);
    }
    let number = lock_number(&cells.shape, lock) as usize;
    let under = &cells.lists[number];
    if !is_listed_if(cells.shape.kind.is_lru(), element, under) {
        return Err(CoreRefusal::NotEnabled);
    }
    let left = without_row(alloc, element, under)?;
    let now = with_free(alloc, element, &left)?;
    cells.lists[number] = now;
    cells.owners[element as usize] = Owner::Free;
    Ok(())
}

/// A CPU puts an element of its hand at the head of a bucket.
pub(crate) fn attach(
    cells: &mut Cells,
    alloc: Global,
    cpu: u32,
    element: u32,
    bucket: u32,
) -> Result<(), CoreRefusal>
    requires { IsCore (view_of cells.old) }
    ensures { Answers (view_of cells.old) (steps.Attach cpu element bucket)
        (view_of cells.new) result }
{
    let lock = DomainId::Bucket(bucket);
    if !holds(cells, cpu, lock) || element >= cells.shape.elements {
        return Err(CoreRefusal::NotEnabled);
    }
    if !is_hand(cells.owners[element as usize], cpu) {
        return Err(CoreRefusal::NotEnabled);
    }
    if !is_lock_home_if(cells.shape.kind.is_lru(), cells.homes[element as usize]) {
        return Err(CoreRefusal::NotEnabled);
    }
    let number = lock_number(&cells.shape, lock) as usize;
    let now = with_row(alloc, lock, element, &cells.lists[number])?;
    cells.lists[number] = now;
    cells.owners[element as usize] = Owner::Bucket(bucket);
    Ok(())
}

/// A CPU takes an element out of a bucket into its hand.
pub(crate) fn detach(
    cells: &mut Cells,
    alloc: Global,
    cpu: u32,
    element: u32,
    bucket: u32,
) -> Result<(), CoreRefusal>
    requires { IsCore (view_of cells.old) }
    ensures { Answers (view_of cells.old) (steps.Detach cpu element bucket)
        (view_of cells.new) result }
{
    let lock = DomainId::Bucket(bucket);
    if !holds(cells, cpu, lock) {
        return Err(CoreRefusal::NotEnabled);
    }
    let number = lock_number(&cells.shape, lock) as usize;
    let under = &cells.lists[number];
    if !is_in(element, under.first.as_slice()) {
        return Err(CoreRefusal::NotEnabled);
    }
    let now = without_row(alloc, element, under)?;
    cells.lists[number] = now;
    cells.owners[element as usize] = Owner::Hand(cpu);
    Ok(())
}

/// A CPU sets the bit of an element of a bucket.
pub(crate) fn mark(
    cells: &mut Cells,
    cpu: u32,
    element: u32,
    bucket: u32,
) -> Result<(), CoreRefusal>
    requires { IsCore (view_of cells.old) }
    ensures { Answers (view_of cells.old) (steps.Mark cpu element bucket)
        (view_of cells.new) result }
{
    let lock = DomainId::Bucket(bucket);
    if !holds(cells, cpu, lock) {
        return Err(CoreRefusal::NotEnabled);
    }
    let number = lock_number(&cells.shape, lock) as usize;
    if !is_in(element, cells.lists[number].first.as_slice()) {
        return Err(CoreRefusal::NotEnabled);
    }
    cells.bits[element as usize] = true;
    Ok(())
}
