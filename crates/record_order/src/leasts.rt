//! The least ticket that each entry may have by what stands before it in its history and its strand.

ghost use Rattle.std.specs.Prelude.{◌≡◌, ◌++◌, ◌+◌, ◌<◌, All, IfOk, OnOk, length, slice_index_or};
ghost use Rattle.map_types.specs.Creation.{IsShape};
ghost use Rattle.place_words.specs.Locks.{is_lock, lock_count, lock_number};
ghost use Rattle.place_words.specs.StrandSteps.{row_read};
ghost use Rattle.place_words.specs.Tickets.{tickets_of};
ghost use Rattle.record_order.specs.TicketTables.{HasNumber, least_after, leasts_on_locks, next_least, number_by, raised, raised_for_all};

use map_types::{NoMemory, Shape};
use place_words::{Entries, LockHistory, StepRow, Strand, StrandStep, lock_number};
use std::alloc::Global;

/// The least tickets by the histories, in the order of the locks.
pub(crate) fn least_on_locks(alloc: Global, histories: &[LockHistory]) -> Result<Vec<u64>, NoMemory>
    ensures { IfOk result (λ leasts. leasts.items ≡ leasts_on_locks histories.now) }
{
    let mut leasts = Vec::new(alloc);
    for history in histories {
        push_leasts(&mut leasts, &history.entries)?;
    }
    Ok(leasts)
}

/// Adds those of a history.
fn push_leasts(leasts: &mut Vec<u64>, entries: &Entries) -> Result<(), NoMemory>
    ensures { OnOk result (leasts.new.items ≡ leasts.old.items ++ least_after 0 (tickets_of entries.now)) }
{
    let mut least = 0u64;
    for index in 0..entries.len() {
        leasts.push(least)?;
        least = entries.at(index).ticket.saturating_add(1);
    }
    Ok(())
}

/// Raises them by all strands.
pub(crate) fn raise_for_all(
    leasts: &mut [u64],
    tickets: &[u64],
    shape: &Shape,
    firsts: &[u64],
    strands: &[Strand],
)
    requires shape { IsShape shape.now }
    requires firsts { length firsts.now ≡ lock_count shape.now }
    requires long { length leasts.old ≡ length tickets.now }
    requires numbered { All (λ (strand : Strand). All (HasNumber shape.now firsts.now (length tickets.now)) strand.steps) strands.now }
    ensures { leasts.new ≡ raised_for_all (number_by shape.now firsts.now) tickets.now strands.now leasts.old }
{
    for strand in strands {
        raise(leasts, tickets, shape, firsts, strand.steps.row());
    }
}

/// Raises them by a strand: what stands after an entry there has a greater ticket.
fn raise(leasts: &mut [u64], tickets: &[u64], shape: &Shape, firsts: &[u64], steps: StepRow<'_>)
    requires shape { IsShape shape.now }
    requires firsts { length firsts.now ≡ lock_count shape.now }
    requires long { length leasts.old ≡ length tickets.now }
    requires numbered { All (HasNumber shape.now firsts.now (length tickets.now)) (row_read steps) }
    ensures { leasts.new ≡ raised (number_by shape.now firsts.now) tickets.now 0 (row_read steps.entry) leasts.old }
{
    let mut least = 0u64;
    for index in 0..steps.len() {
        let number = number_by(shape, firsts, steps.at(index), tickets.len());
        leasts[number] = leasts[number].max(least);
        least = tickets[number].saturating_add(1);
    }
}

/// The number of the entry that a step names, in the order of the locks. There are so many entries.
fn number_by(shape: &Shape, firsts: &[u64], step: StrandStep, entries: usize) -> usize
    requires shape { IsShape shape.now }
    requires firsts { length firsts.now ≡ lock_count shape.now }
    requires numbered { HasNumber shape.now firsts.now entries step }
    ensures exact { result ≡ number_by shape.now firsts.now step }
    ensures within { result < entries }
{
    (firsts[lock_number(shape, step.lock) as usize] + step.index) as usize
}
