//! The history of a freelist, replayed.

ghost use Rattle.std.specs.Prelude.{◌≡◌, ℕ, IfOk, MatchResult, reverse};
ghost use Rattle.map_types.specs.Creation.{IsShape};
ghost use Rattle.map_types.specs.declared.attr.Shape as shapes;
ghost use Rattle.map_types.specs.declared.kind.DomainId.TheVariants as locks;
ghost use Rattle.place_words.specs.Entries.{part_read};
ghost use Rattle.place_words.specs.Histories.{on_freelist};
ghost use Rattle.place_words.specs.Openings.{opening_free};
ghost use Rattle.record_replay.specs.Popping.{PopsTop};
ghost use Rattle.replay_words.specs.Replays.{IsStep, Leads, StopsAt};

use map_types::{DomainId, NoMemory, Numbers, Shape};
use place_words::{Entries, FreePart, PartAt, free_at_first, owners_at_first};
use replay_words::ReplayStop;
use std::alloc::Global;

/// Replays the turns of the freelist of a CPU from its opening: the free elements that lie there at the end, top first, or the
/// first turn that the rules don't allow. Each turn takes a few steps, and the opening takes time by the elements of the map. An
/// element may stand there twice, since nothing is asked of what is pushed.
pub fn replay_freelist(
    alloc: Global,
    shape: &Shape,
    cpu: u32,
    entries: &Entries,
) -> Result<Numbers, ReplayStop>
    requires { IsShape shape.now }
    ensures { MatchResult result
        (λ stack. Leads shape.now (locks.Freelist cpu) entries.now (on_freelist stack))
        (StopsAt shape.now (locks.Freelist cpu) entries.now) }
{
    let mut stack = opening_stack(alloc, shape, cpu)?;
    for i in 0..entries.len() {
        if !moves(&mut stack, entries.at(i).part)? {
            return Err(ReplayStop::NotAllowed { index: i });
        }
    }
    Ok(top_first(stack))
}

/// What lies on the freelist of a CPU at first, the top last.
fn opening_stack(alloc: Global, shape: &Shape, cpu: u32) -> Result<Vec<u32>, NoMemory>
    requires { IsShape shape.now }
    ensures { IfOk result (λ stack. reverse stack.items
        ≡ opening_free shape.now (locks.Freelist cpu)) }
{
    let owners = owners_at_first(alloc, shape)?;
    let free = free_at_first(alloc, shape, owners.as_slice(), DomainId::Freelist(cpu))?;
    let mut stack = Vec::from_slice(alloc, free.as_slice())?;
    stack.reverse();
    Ok(stack)
}

/// The list of a stack whose top is last.
fn top_first(stack: Vec<u32>) -> Numbers
    ensures { result ≡ reverse stack.items }
{
    let mut list = stack;
    list.reverse();
    Numbers::of(list)
}

/// Makes a turn on a stack whose top is last, and says whether it is allowed there.
fn moves(stack: &mut Vec<u32>, part: PartAt<'_>) -> Result<bool, NoMemory>
    ensures { IfOk result (λ allowed. (shape : shapes.Shape) (cpu : ℕ) → IsStep shape cpu (part_read part.entry)
        (on_freelist (reverse stack.old.items)) (on_freelist (reverse stack.new.items)) allowed) }
{
    match part {
        PartAt::Free(FreePart::Pushed(element)) => {
            stack.push(element)?;
            Ok(true)
        }
        PartAt::Free(FreePart::Popped(element)) => Ok(pops(stack, element)),
        PartAt::Free(FreePart::FoundEmpty) => Ok(stack.is_empty()),
        PartAt::Bucket(_) | PartAt::Local(_) | PartAt::Global(_) | PartAt::Own(_) => Ok(false),
    }
}

/// Takes the top of a stack, and says whether it is this element.
fn pops(stack: &mut Vec<u32>, element: u32) -> bool
    ensures { PopsTop element (reverse stack.old.items) (reverse stack.new.items) result }
{
    match stack.pop() {
        Some(top) => top == element,
        None => false,
    }
}
