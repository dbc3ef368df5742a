//! The turns of a record one after another, and the first that can't be made.

ghost use Rattle.std.specs.Prelude.{◌≡◌, ◌<◌, ℕ, List, IfOk, IsPermutation, MatchBool, false, length, replicate};
ghost use Rattle.std.specs.List.{range_with_len};
ghost use Rattle.map_types.specs.Creation.{IsShape};
ghost use Rattle.place_words.specs.declared.step.Lists as lists_of;
ghost use Rattle.place_words.specs.Interleaving.{bucket_around};
ghost use Rattle.place_words.specs.OpeningState.{opening};
ghost use Rattle.place_words.specs.Tickets.{all_entries, tickets_of};
ghost use Rattle.core_runs.specs.Words.{words_of};
ghost use Rattle.turn_order.specs.Ordered.{ordered};
ghost use Rattle.step_check.specs.Answers.{view_of};
ghost use Rattle.step_check.specs.Begun.{AreBegun, AreTurns, HasRun, around_in, turn_in, turns_of};
ghost use Rattle.step_check.specs.Judged.{FlushesListed};
ghost use Rattle.step_check.specs.WordsView.{AreWords, words_in};
ghost use Rattle.step_check.specs.Refused.{AreOfCalls, CallsHaveOneCpu, FirstRefused, IsJudged};

use crate::first_words::words_at_first;
use crate::flushes::part_flushes_listed;
use crate::outer::outer_turns;
use crate::places::{entry_at, lock_at, places_by_ticket};
use crate::takes::{Turns, take_around, take_one};
use crate::turn::{bucket_of, run_part};
use crate::words::Kept;
use map_types::{NoMemory, Shape};
use place_words::LockHistory;
use std::alloc::Global;

/// The ticket of the first turn of a record that can't be made in its place, by who holds each lock and who owns each element: the
/// turns before it, in the order of their tickets, are a run of the core by these words and flush nothing that is free, and with it
/// they aren't such. There is none where
/// all are a run. Each ticket was drawn once, calls are numbered up to `calls`, and those of one call have one CPU.
pub fn step_flaw(
    alloc: Global,
    shape: &Shape,
    histories: &[LockHistory],
    calls: u32,
) -> Result<Option<u64>, NoMemory>
    requires shape { IsShape shape.now }
    requires once { IsPermutation (range_with_len 0 (length (all_entries histories.now)))
        (tickets_of (all_entries histories.now)) }
    requires calls { AreOfCalls calls (all_entries histories.now) }
    requires one_cpu { CallsHaveOneCpu (all_entries histories.now) }
    ensures first { IfOk result (FirstRefused shape.now (ordered histories.now)) }
    ensures judged { IfOk result (IsJudged shape.now (ordered histories.now)) }
{
    let mut kept = words_at_first(alloc, shape)?;
    let turns = turns_by_ticket(alloc, histories, calls)?;
    let mut begun = none_begun(alloc, turns.places.len())?;
    let refused = first_refused(&mut kept, alloc, histories, &turns, begun.as_mut_slice())?;
    Ok(refused)
}

/// The turns of a record in the order of their tickets.
fn turns_by_ticket(alloc: Global, histories: &[LockHistory], calls: u32) -> Result<Turns, NoMemory>
    requires once { IsPermutation (range_with_len 0 (length (all_entries histories.now)))
        (tickets_of (all_entries histories.now)) }
    requires calls { AreOfCalls calls (all_entries histories.now) }
    requires one_cpu { CallsHaveOneCpu (all_entries histories.now) }
    ensures are { IfOk result (λ turns. AreTurns histories.now turns) }
    ensures in_order { IfOk result (λ turns. turns_of histories.now turns ≡ ordered histories.now) }
{
    let places = places_by_ticket(alloc, histories)?;
    let outer = outer_turns(alloc, histories, places.as_slice(), calls)?;
    Ok(Turns { places, outer })
}

/// So many turns, of which none has begun.
fn none_begun(alloc: Global, count: usize) -> Result<Vec<bool>, NoMemory>
    ensures { IfOk result (λ begun. begun.items ≡ replicate count false) }
{
    Ok(vec![in alloc; false; count]?)
}

/// The first turn that can't be made, from the opening of a map on.
fn first_refused(
    kept: &mut Kept,
    alloc: Global,
    histories: &[LockHistory],
    turns: &Turns,
    begun: &mut [bool],
) -> Result<Option<u64>, NoMemory>
    requires words { AreWords (view_of kept.old) }
    requires first { words_in (view_of kept.old) ≡ words_of (opening kept.old.shape) }
    requires turns { AreTurns histories.now turns.now }
    requires bits { begun.old ≡ replicate (length turns.now.places.items) false }
    ensures { IfOk result (FirstRefused kept.old.shape (turns_of histories.now turns.now)) }
{
    for ticket in 0..turns.places.len() {
        if !flushes_listed(kept, histories, turns, ticket) {
            return Ok(Some(ticket as u64));
        }
        let ran = run_turn(kept, alloc, histories, turns, begun, ticket)?;
        if !ran {
            return Ok(Some(ticket as u64));
        }
    }
    Ok(None)
}

/// Whether what the turn of a ticket flushes isn't free.
fn flushes_listed(kept: &Kept, histories: &[LockHistory], turns: &Turns, ticket: usize) -> bool
    requires words { AreWords (view_of kept.now) }
    requires turns { AreTurns histories.now turns.now }
    requires within { ticket < length turns.now.places.items }
    ensures { MatchBool result (FlushesListed (words_in (view_of kept.now)) (turn_in (turns_of histories.now turns.now) ticket).entry.part)
        (¬ FlushesListed (words_in (view_of kept.now)) (turn_in (turns_of histories.now turns.now) ticket).entry.part) }
{
    part_flushes_listed(kept, entry_at(histories, turns.places[ticket]).part)
}

/// The bucket of the innermost turn that encloses the one of a ticket.
fn bucket_around(histories: &[LockHistory], turns: &Turns, ticket: usize) -> Option<u32>
    requires turns { AreTurns histories.now turns.now }
    requires within { ticket < length turns.now.places.items }
    ensures { result ≡ bucket_around (around_in (turns_of histories.now turns.now) ticket) }
{
    match turns.outer[ticket] {
        Some(outer) => bucket_of(lock_at(histories, turns.places[outer])),
        None => None,
    }
}

/// One turn, as far as words allow: the turns that enclose it begin and it does, then comes what it does and what it sees, and then it
/// gives its lock back.
fn run_turn(
    kept: &mut Kept,
    alloc: Global,
    histories: &[LockHistory],
    turns: &Turns,
    begun: &mut [bool],
    ticket: usize,
) -> Result<bool, NoMemory>
    requires words { AreWords (view_of kept.old) }
    requires turns { AreTurns histories.now turns.now }
    requires within { ticket < length turns.now.places.items }
    requires bits { length begun.old ≡ length turns.now.places.items }
    ensures words { IfOk result (λ answer. AreWords (view_of kept.new)) }
    ensures shape { IfOk result (λ answer. kept.new.shape ≡ kept.old.shape) }
    ensures ran { IfOk result (λ answer. (before : List ℕ) (lists : lists_of.Lists) → AreBegun before begun.old
        → HasRun (turns_of histories.now turns.now) ticket before lists (view_of kept.old) (view_of kept.new) begun.new answer) }
{
    let around = take_around(kept, histories, turns, begun, ticket)?;
    if !around {
        return Ok(false);
    }
    let taken = take_one(kept, histories, turns, begun, ticket)?;
    if !taken {
        return Ok(false);
    }
    let place = turns.places[ticket];
    let entry = entry_at(histories, place);
    let bucket = bucket_around(histories, turns, ticket);
    let given = run_part(
        kept,
        alloc,
        entry.cpu,
        lock_at(histories, place),
        bucket,
        entry.part,
    )?;
    Ok(given)
}
