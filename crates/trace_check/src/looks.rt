//! Whether the turns of freelists before a bucket's turn are those that go with it.

ghost use Rattle.std.specs.Prelude.{◌≡◌, [], ◌∷◌, ◌+◌, ◌<◌, drop};
ghost use Rattle.place_words.specs.PlainTraces.{found_empty, pushes};
ghost use Rattle.place_words.specs.Bodies.{numbers};
ghost use Rattle.place_words.specs.Turns.{on_freelist_of, ring};
ghost use Rattle.place_words.specs.Walks.{walked_out};
ghost use Rattle.trace_check.specs.Calls as told;
ghost use Rattle.trace_check.specs.Reading as reading;

use crate::parts::is_free_turn;
use crate::strand::{Turn, Turns};
use map_types::Shape;
use place_words::{FreePart, Kept, Put, Walked};

/// Whether they are the pushes of an element, if one is gone.
pub(crate) fn are_pushes(cpu: u32, gone: Option<u32>, before: &Turns<'_>) -> bool
    ensures { result ≡ reading.same_turns (pushes cpu gone) before.now }
{
    match gone {
        None => before.is_empty(),
        Some(element) => is_one(cpu, FreePart::Pushed(element), before),
    }
}

/// Whether they are one turn of a CPU's freelist that did this.
fn is_one(cpu: u32, wanted: FreePart, before: &Turns<'_>) -> bool
    ensures { result ≡ reading.same_turns (on_freelist_of cpu wanted ∷ []) before.now }
{
    match before.split_first() {
        Some((turn, rest)) => is_turn(cpu, wanted, &turn) && rest.is_empty(),
        None => false,
    }
}

/// Whether a turn is of a CPU's freelist and did this.
fn is_turn(cpu: u32, wanted: FreePart, turn: &Turn<'_>) -> bool
    ensures { result ≡ reading.same_turn (on_freelist_of cpu wanted) turn.now }
{
    is_free_turn(turn.lock, turn.part, cpu, wanted)
}

/// The CPU at a place of the ring in which a CPU looks at the freelists.
fn in_ring(cpu: u32, cpus: u32, place: u32) -> u32
    requires cpu { cpu < cpus }
    requires place { place < cpus }
    ensures { drop place (ring cpu cpus) ≡ result ∷ drop (place + 1) (ring cpu cpus) }
{
    let upwards = cpus - cpu;
    if place < upwards {
        cpu + place
    } else {
        place - upwards
    }
}

/// Whether they are a pop of the element by a CPU.
pub(crate) fn are_pops(cpu: u32, cpus: u32, element: u32, before: &Turns<'_>) -> bool
    requires { cpu < cpus }
    ensures { result ≡ reading.are_pops (ring cpu cpus) element before.now }
{
    let mut left = before.again();
    for place in 0..cpus {
        let looked_at = in_ring(cpu, cpus, place);
        if is_one(looked_at, FreePart::Popped(element), &left) {
            return true;
        }
        match left.split_first() {
            Some((turn, rest)) if is_turn(looked_at, FreePart::FoundEmpty, &turn) => left = rest,
            _ => return false,
        }
    }
    false
}

/// Whether a CPU found each freelist empty.
pub(crate) fn are_empty(cpu: u32, cpus: u32, before: &Turns<'_>) -> bool
    requires { cpu < cpus }
    ensures { result ≡ reading.same_turns (found_empty (ring cpu cpus)) before.now }
{
    let mut left = before.again();
    for place in 0..cpus {
        let looked_at = in_ring(cpu, cpus, place);
        match left.split_first() {
            Some((turn, rest)) if is_turn(looked_at, FreePart::FoundEmpty, &turn) => left = rest,
            _ => return false,
        }
    }
    left.is_empty()
}

/// Whether they are what an update does before it puts this.
pub(crate) fn looks_for(
    shape: &Shape,
    cpu: u32,
    spare: Option<u32>,
    put: Put,
    before: &Turns<'_>,
) -> bool
    requires { cpu < shape.now.cpus }
    ensures { result ≡ told.looks_for shape.now cpu spare put before.now }
{
    match put {
        Put::Added(element) => are_pops(cpu, shape.cpus, element, before),
        Put::Replaced { new, .. } => before.is_empty() && is_spare(spare, new),
        Put::Written(_) | Put::Exists | Put::Absent => before.is_empty(),
        Put::Full => are_empty(cpu, shape.cpus, before),
    }
}

/// Whether an element is the spare.
fn is_spare(spare: Option<u32>, new: u32) -> bool
    ensures { result ≡ told.is_spare spare new }
{
    match spare {
        None => false,
        Some(element) => element == new,
    }
}

/// Whether they are the pushes of all elements that a walk took out.
pub(crate) fn are_all_pushes(cpu: u32, taken: &[Kept], before: &Turns<'_>) -> bool
    ensures { result ≡ reading.same_turns (told.pushes_all cpu (numbers taken.now)) before.now }
{
    let mut left = before.again();
    for kept in taken {
        match left.split_first() {
            Some((turn, rest)) if is_turn(cpu, FreePart::Pushed(kept.element), &turn) => {
                left = rest;
            }
            _ => return false,
        }
    }
    left.is_empty()
}

/// Whether they are the pushes of what a walk took out of its bucket.
pub(crate) fn are_taken_out(cpu: u32, remove: bool, walked: &Walked, before: &Turns<'_>) -> bool
    ensures { result ≡ reading.same_turns (told.pushes_all cpu (walked_out remove walked.now)) before.now }
{
    match walked {
        Walked::Over(_) => before.is_empty(),
        Walked::Taken(taken) => {
            if remove {
                are_all_pushes(cpu, taken.as_slice(), before)
            } else {
                before.is_empty()
            }
        }
    }
}
