//! Which turn encloses one, by their tickets.

ghost use Rattle.std.specs.Prelude.{◌≡◌, ◌<◌, ◌+◌, All, IfOk, None, length, replicate, if◌then◌else◌};
ghost use Rattle.place_words.specs.Entries.{part_read};
ghost use Rattle.place_words.specs.Interleaving.{Drawn, is_global_turn, is_inner};
ghost use Rattle.step_check.specs.Outer.{AreNumbered, AreOuter, HaveOneCpu, first_below, no_next, with_turn};
ghost use Rattle.step_check.specs.Places.{IsPlace, turns_at};

use crate::places::{TurnPlace, entry_at, lock_at};
use map_types::{DomainId, NoMemory};
use place_words::{GlobalPart, LockHistory, PartAt};
use std::alloc::Global;

/// Of one call, the next turns whose locks are taken before lists that all CPUs share or a list set, before a bucket, and before a
/// freelist, by their tickets.
#[derive(Clone, Copy)]
pub(crate) struct NextTurns {
    pub(crate) below_lists: Option<usize>,
    pub(crate) below_buckets: Option<usize>,
    pub(crate) below_freelists: Option<usize>,
}

/// By its ticket, the ticket of the innermost turn that encloses each turn: the first later one of its call whose lock has a lower
/// rank, where it is one that is made inside another. Calls are numbered up to `calls`.
pub(crate) fn outer_turns(
    alloc: Global,
    histories: &[LockHistory],
    places: &[TurnPlace],
    calls: u32,
) -> Result<Vec<Option<usize>>, NoMemory>
    requires real { All (IsPlace histories.now) places.now }
    requires calls { AreNumbered calls (turns_at histories.now places.now) }
    requires one_cpu { HaveOneCpu (turns_at histories.now places.now) }
    ensures { IfOk result (λ outer. AreOuter (turns_at histories.now places.now) outer.items) }
{
    let mut outer = no_outer(alloc, places.len())?;
    let mut next = no_next(alloc, calls)?;
    find_outer(outer.as_mut_slice(), next.as_mut_slice(), histories, places);
    Ok(outer)
}

/// So many turns, of which none is enclosed.
fn no_outer(alloc: Global, count: usize) -> Result<Vec<Option<usize>>, NoMemory>
    ensures { IfOk result (λ outer. length outer.items ≡ count) }
{
    Ok(vec![in alloc; None; count]?)
}

/// Of calls that are numbered up to this, that none has a turn.
fn no_next(alloc: Global, calls: u32) -> Result<Vec<NextTurns>, NoMemory>
    ensures { IfOk result (λ next. next.items ≡ replicate (calls + 1) no_next) }
{
    let none = NextTurns {
        below_lists: None,
        below_buckets: None,
        below_freelists: None,
    };
    Ok(vec![in alloc; none; calls as usize + 1]?)
}

/// Finds the outer turn of each, from the last ticket on. `next` has what comes later.
fn find_outer(
    outer: &mut [Option<usize>],
    next: &mut [NextTurns],
    histories: &[LockHistory],
    places: &[TurnPlace],
)
    requires real { All (IsPlace histories.now) places.now }
    requires calls { All (λ (drawn : Drawn). drawn.entry.call < length next.old) (turns_at histories.now places.now) }
    requires one_cpu { HaveOneCpu (turns_at histories.now places.now) }
    requires long { length outer.old ≡ length places.now }
    requires none { next.old ≡ replicate (length next.old) no_next }
    ensures { AreOuter (turns_at histories.now places.now) outer.new }
{
    for handled in 0..places.len() {
        let ticket = places.len() - 1 - handled;
        let lock = lock_at(histories, places[ticket]);
        let entry = entry_at(histories, places[ticket]);
        let later = next[entry.call as usize];
        outer[ticket] = outer_turn(later, lock, entry.part);
        next[entry.call as usize] = with_turn(later, lock, ticket);
    }
}

/// The innermost turn that encloses one with this part, under this lock.
fn outer_turn(next: NextTurns, lock: DomainId, part: PartAt<'_>) -> Option<usize>
    ensures { result ≡ (if is_inner (part_read part.entry) then first_below next lock else None) }
{
    if is_inner(part) {
        first_below(next, lock)
    } else {
        None
    }
}

/// The next turn whose lock is taken before another one.
fn first_below(next: NextTurns, lock: DomainId) -> Option<usize>
    ensures { result ≡ first_below next lock }
{
    match lock {
        DomainId::Local(_) => None,
        DomainId::Global | DomainId::CpuLru(_) => next.below_lists,
        DomainId::Bucket(_) => next.below_buckets,
        DomainId::Freelist(_) => next.below_freelists,
    }
}

/// The next turns with one of this lock before them.
fn with_turn(next: NextTurns, lock: DomainId, ticket: usize) -> NextTurns
    ensures { result ≡ with_turn next lock ticket }
{
    match lock {
        DomainId::Local(_) => NextTurns {
            below_lists: Some(ticket),
            below_buckets: Some(ticket),
            below_freelists: Some(ticket),
        },
        DomainId::Global | DomainId::CpuLru(_) => NextTurns {
            below_lists: next.below_lists,
            below_buckets: Some(ticket),
            below_freelists: Some(ticket),
        },
        DomainId::Bucket(_) => NextTurns {
            below_lists: next.below_lists,
            below_buckets: next.below_buckets,
            below_freelists: Some(ticket),
        },
        DomainId::Freelist(_) => next,
    }
}

/// Whether what a turn did is done inside another turn.
fn is_inner(part: PartAt<'_>) -> bool
    ensures { result ≡ is_inner (part_read part.entry) }
{
    match part {
        PartAt::Bucket(part) => part.eviction().is_some(),
        PartAt::Free(_) => true,
        PartAt::Global(part) => match part.part() {
            Ok(part) => is_global_turn(part),
            Err(part) => is_global_turn(&part),
        },
        PartAt::Local(_) | PartAt::Own(_) => false,
    }
}

/// Whether a part of the global lists is no push.
fn is_global_turn(part: &GlobalPart) -> bool
    ensures { result ≡ is_global_turn part.now }
{
    matches!(part, GlobalPart::Turn { .. })
}
