//! The first entry whose ticket is wrong.

ghost use Rattle.std.specs.Prelude.{◌≡◌, ◌≤◌, ◌++◌, length, IfOk, OnOk, MatchOption, replicate};
ghost use Rattle.map_types.specs.Creation.{IsShape};
ghost use Rattle.place_words.specs.Locks.{is_lock, lock_count, lock_number};
ghost use Rattle.place_words.specs.Tickets.{AreTicketed, all_entries, tickets_of};
ghost use Rattle.record_order.specs.Tickets.{IsFirstFlaw, NamesEntries};
ghost use Rattle.record_order.specs.TicketTables.{AreReal, firsts_from, place_of};

use crate::leasts::{least_on_locks, raise_for_all};
use crate::used::first_wrong;
use map_types::{NoMemory, Shape};
use place_words::{Entries, LockHistory, Strand, StrandStep, lock_number};
use std::alloc::Global;

/// Where the first entry stands whose ticket is wrong, in the order of the locks. There is none exactly where the tickets are as a
/// record has them.
pub fn ticket_flaw(
    alloc: Global,
    shape: &Shape,
    histories: &[LockHistory],
    strands: &[Strand],
) -> Result<Option<StrandStep>, NoMemory>
    requires shape { IsShape shape.now }
    requires named { NamesEntries shape.now histories.now strands.now }
    ensures { IfOk result (λ flaw. MatchOption flaw (AreTicketed histories.now strands.now)
        (λ place. IsFirstFlaw histories.now strands.now place × (AreTicketed histories.now strands.now → ⊥))) }
{
    let tickets = all_tickets(alloc, histories)?;
    let firsts = first_numbers(alloc, shape, histories, tickets.len() as u64)?;
    let mut leasts = least_on_locks(alloc, histories)?;
    raise_for_all(
        leasts.as_mut_slice(),
        tickets.as_slice(),
        shape,
        firsts.as_slice(),
        strands,
    );
    match first_wrong(alloc, tickets.as_slice(), leasts.as_slice())? {
        None => Ok(None),
        Some(number) => Ok(place_of(histories, number)),
    }
}

/// The tickets of all entries, in the order of the locks.
fn all_tickets(alloc: Global, histories: &[LockHistory]) -> Result<Vec<u64>, NoMemory>
    ensures { IfOk result (λ tickets. tickets.items ≡ tickets_of (all_entries histories.now)) }
{
    let mut tickets = Vec::new(alloc);
    for history in histories {
        push_tickets(&mut tickets, &history.entries)?;
    }
    Ok(tickets)
}

/// Adds the tickets of some entries.
fn push_tickets(tickets: &mut Vec<u64>, entries: &Entries) -> Result<(), NoMemory>
    ensures { OnOk result (tickets.new.items ≡ tickets.old.items ++ tickets_of entries.now) }
{
    for index in 0..entries.len() {
        tickets.push(entries.at(index).ticket)?;
    }
    Ok(())
}

/// Of each lock, by its number, how many entries the histories before its own have. All have so many.
fn first_numbers(
    alloc: Global,
    shape: &Shape,
    histories: &[LockHistory],
    all: u64,
) -> Result<Vec<u64>, NoMemory>
    requires shape { IsShape shape.now }
    requires locks { AreReal shape.now histories.now }
    requires counted { length (all_entries histories.now) ≤ all }
    ensures { IfOk result (λ firsts. firsts.items
        ≡ firsts_from shape.now 0 histories.now (replicate (lock_count shape.now) 0)) }
{
    let mut firsts = zeros(alloc, count_locks(shape) as usize)?;
    write_firsts(firsts.as_mut_slice(), shape, histories, all);
    Ok(firsts)
}

/// So many zeros.
fn zeros(alloc: Global, count: usize) -> Result<Vec<u64>, NoMemory>
    ensures { IfOk result (λ zeros. zeros.items ≡ replicate count 0) }
{
    Ok(vec![in alloc; 0; count]?)
}

/// How many locks are numbered.
fn count_locks(shape: &Shape) -> u32
    requires { IsShape shape.now }
    ensures { result ≡ lock_count shape.now }
{
    3 * shape.cpus + 1 + shape.buckets
}

/// Writes how many entries stand before each history's.
fn write_firsts(firsts: &mut [u64], shape: &Shape, histories: &[LockHistory], all: u64)
    requires shape { IsShape shape.now }
    requires locks { AreReal shape.now histories.now }
    requires counted { length (all_entries histories.now) ≤ all }
    requires room { length firsts.old ≡ lock_count shape.now }
    ensures { firsts.new ≡ firsts_from shape.now 0 histories.now firsts.old }
{
    let mut count = 0u64;
    for history in histories {
        firsts[lock_number(shape, history.lock) as usize] = count;
        count += history.entries.len() as u64;
    }
}

/// The place of the entry of a number.
fn place_of(histories: &[LockHistory], number: u64) -> Option<StrandStep>
    ensures { result ≡ place_of histories.now number }
{
    let mut left = number;
    for history in histories {
        let count = history.entries.len() as u64;
        if left < count {
            return Some(StrandStep {
                lock: history.lock,
                index: left,
            });
        }
        left -= count;
    }
    None
}
