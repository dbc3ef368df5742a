//! What the turns of list sets do to the words of their elements.

ghost use Rattle.std.specs.Prelude.{◌≡◌, ℕ, ◌++◌, map, filter, option_map, IfOk};
ghost use Rattle.std.specs.List.{flat_map};
ghost use Rattle.place_words.specs.Interleaving.{claims, global_steps, own_steps, freed_steps};
ghost use Rattle.place_words.specs.Globals.{flushed_elements};
ghost use Rattle.place_words.specs.Packed.{own_read};
ghost use Rattle.place_words.specs.Shrinking.{look_removed, try_removed, freed};
ghost use Rattle.place_words.specs.Takings.{freed_by};
ghost use Rattle.place_words.specs.declared.home.Home.TheVariants as homes;
ghost use Rattle.place_words.specs.declared.visits.Flush.{Flush};
ghost use Rattle.map_types.specs.declared.kind.DomainId.TheVariants as ids;
ghost use Rattle.place_words.specs.declared.step.Step.TheVariants as steps;
ghost use Rattle.step_check.specs.Ran.{step_of};
ghost use Rattle.step_check.specs.declared.change.Change.TheVariants as variants;

use crate::change::Change;
use map_types::{DomainId, NoMemory};
use place_words::{Flush, GlobalPart, Home, Look, OwnAt, Seen, ShrinkNote, Try};
use std::alloc::Global;

/// Whether a walk that spares set bits removed an element.
fn look_removed(look: Look) -> bool
    ensures { result ≡ look_removed look }
{
    match look.probed {
        Some(Seen::Removed) => true,
        Some(Seen::Held(_)) | None => false,
    }
}

/// Whether a walk that spares none removed an element.
fn try_removed(tried: Try) -> bool
    ensures { result ≡ try_removed tried }
{
    match tried.probed {
        Seen::Removed => true,
        Seen::Held(_) => false,
    }
}

/// The elements that walks freed.
fn looked_off(alloc: Global, looks: &[Look]) -> Result<Vec<u32>, NoMemory>
    ensures { IfOk result (λ elements. elements.items
        ≡ map (λ look. look.element) (filter look_removed looks.now)) }
{
    Ok(
        looks
            .iter()
            .copied()
            .filter(|look| look_removed(*look))
            .map(|look| look.element)
            .collect(alloc)?,
    )
}

fn forced_off(alloc: Global, tries: &[Try]) -> Result<Vec<u32>, NoMemory>
    ensures { IfOk result (λ elements. elements.items
        ≡ map (λ try. try.element) (filter try_removed tries.now)) }
{
    Ok(
        tries
            .iter()
            .copied()
            .filter(|tried| try_removed(*tried))
            .map(|tried| tried.element)
            .collect(alloc)?,
    )
}

/// The elements that a shrink freed.
fn freed(alloc: Global, shrink: Option<&ShrinkNote>) -> Result<Vec<u32>, NoMemory>
    ensures { IfOk result (λ elements. elements.items
        ≡ freed_by (option_map (λ note. note.now) shrink.entry)) }
{
    match shrink {
        None => Ok(Vec::new(alloc)),
        Some(note) => {
            let mut elements = looked_off(alloc, note.looks.as_slice())?;
            let forced = forced_off(alloc, note.forced.as_slice())?;
            elements.extend_from_slice(forced.as_slice())?;
            Ok(elements)
        }
    }
}

/// What was taken for a key.
fn claimed(alloc: Global, lock: DomainId, got: Option<u32>) -> Result<Vec<Change>, NoMemory>
    ensures { IfOk result (λ changes. (cpu : ℕ)
        → map (step_of cpu) changes.items ≡ claims cpu lock got) }
{
    let mut changes = Vec::new(alloc);
    if let Some(element) = got {
        changes.push(Change::Claim { element, lock })?;
    }
    Ok(changes)
}

/// What a turn of a CPU's own lists does that frees these.
fn own_turn(
    alloc: Global,
    lock: DomainId,
    shrink: Option<&ShrinkNote>,
    got: Option<u32>,
) -> Result<Vec<Change>, NoMemory>
    ensures { IfOk result (λ changes. (cpu : ℕ) → map (step_of cpu) changes.items
        ≡ map (λ e. steps.Settle cpu e lock) (freed_by (option_map (λ note. note.now) shrink.entry))
        ++ claims cpu lock got) }
{
    let elements = freed(alloc, shrink)?;
    let mut changes = settled(alloc, lock, elements.as_slice())?;
    let claimed = claimed(alloc, lock, got)?;
    changes.extend_from_slice(claimed.as_slice())?;
    Ok(changes)
}

/// What a turn of a CPU's own lists does.
pub(crate) fn own_changes(
    alloc: Global,
    lock: DomainId,
    part: OwnAt<'_>,
) -> Result<Vec<Change>, NoMemory>
    ensures { IfOk result (λ changes. (cpu : ℕ)
        → map (step_of cpu) changes.items ≡ own_steps cpu lock (own_read part.entry)) }
{
    match part {
        OwnAt::Turn { shrink, got, .. } => own_turn(alloc, lock, shrink, got),
        OwnAt::Push { element } => {
            let mut changes = Vec::new(alloc);
            changes.push(Change::Settle { element, lock })?;
            Ok(changes)
        }
    }
}

/// Elements that a shrink of the global lists freed, for a CPU's local lists.
fn freed_home(alloc: Global, cpu: u32, elements: &[u32]) -> Result<Vec<Change>, NoMemory>
    ensures { IfOk result (λ changes. map (step_of cpu) changes.items
        ≡ flat_map (freed_steps cpu) elements.now) }
{
    let mut changes = Vec::new(alloc);
    let lock = DomainId::Local(cpu);
    for element in elements {
        changes.push(Change::Rehome {
            element: *element,
            to: Home::In(lock),
        })?;
        changes.push(Change::Settle {
            element: *element,
            lock,
        })?;
    }
    Ok(changes)
}

/// What a turn of the global lists inside a refill does.
fn global_turn(
    alloc: Global,
    cpu: u32,
    flushed: &[Flush],
    free: &[u32],
    shrink: Option<&ShrinkNote>,
) -> Result<Vec<Change>, NoMemory>
    ensures { IfOk result (λ changes. map (step_of cpu) changes.items
        ≡ map (λ e. steps.Rehome cpu e (homes.In ids.Global)) (flushed_elements flushed.now)
        ++ map (λ e. steps.Rehome cpu e (homes.In (ids.Local cpu))) free.now
        ++ flat_map (freed_steps cpu) (freed_by (option_map (λ note. note.now) shrink.entry))) }
{
    let mut changes = flushed_home(alloc, flushed)?;
    let moved = rehomed(alloc, Home::In(DomainId::Local(cpu)), free)?;
    let elements = freed(alloc, shrink)?;
    let freed = freed_home(alloc, cpu, elements.as_slice())?;
    changes.extend_from_slice(moved.as_slice())?;
    changes.extend_from_slice(freed.as_slice())?;
    Ok(changes)
}

/// What a turn of the global lists does.
pub(crate) fn global_changes(
    alloc: Global,
    cpu: u32,
    part: &GlobalPart,
) -> Result<Vec<Change>, NoMemory>
    ensures { IfOk result (λ changes.
        map (step_of cpu) changes.items ≡ global_steps cpu part.now) }
{
    match part {
        GlobalPart::Turn {
            flushed,
            free,
            shrink,
            ..
        } => global_turn(
            alloc,
            cpu,
            flushed.as_slice(),
            free.as_slice(),
            shrink.as_ref(),
        ),
        GlobalPart::Push { element } => {
            let mut changes = Vec::new(alloc);
            changes.push(Change::Settle {
                element: *element,
                lock: DomainId::Global,
            })?;
            Ok(changes)
        }
    }
}

/// Elements that are laid on a free list.
fn settled(alloc: Global, lock: DomainId, elements: &[u32]) -> Result<Vec<Change>, NoMemory>
    ensures { IfOk result (λ changes. changes.items
        ≡ map (λ e. variants.Settle e lock) elements.now) }
{
    Ok(
        elements
            .iter()
            .copied()
            .map(|element| Change::Settle { element, lock })
            .collect(alloc)?,
    )
}

/// Elements that come to a home.
fn rehomed(alloc: Global, to: Home, elements: &[u32]) -> Result<Vec<Change>, NoMemory>
    ensures { IfOk result (λ changes. changes.items
        ≡ map (λ e. variants.Rehome e to) elements.now) }
{
    Ok(
        elements
            .iter()
            .copied()
            .map(|element| Change::Rehome { element, to })
            .collect(alloc)?,
    )
}

/// Elements that were flushed.
fn flushed_home(alloc: Global, flushed: &[Flush]) -> Result<Vec<Change>, NoMemory>
    ensures { IfOk result (λ changes. changes.items
        ≡ map (λ (flush : Flush). variants.Rehome flush.element (homes.In ids.Global)) flushed.now) }
{
    Ok(
        flushed
            .iter()
            .copied()
            .map(|flush| Change::Rehome {
                element: flush.element,
                to: Home::In(DomainId::Global),
            })
            .collect(alloc)?,
    )
}
