//! The entries that steps name.

ghost use Rattle.std.specs.Prelude.{◌≡◌, IfOk, IsTrue, MatchOption, None, Some, map, slice_get};
ghost use Rattle.map_types.specs.Creation.{IsShape};
ghost use Rattle.place_words.specs.Entries.{entry_read};
ghost use Rattle.place_words.specs.Locks.{is_lock};
ghost use Rattle.map_report.specs.Record.{entries_of, locks_of};
ghost use Rattle.record_shape.specs.WellShaped.{lock_of};
ghost use Rattle.call_check.specs.StrandPlaces.{places_of};
ghost use Rattle.call_check.specs.RightCalls.{call_named, is_of_cpu, named_by};
ghost use Rattle.call_check.specs.Steps.{HaveHistories};

use map_types::{DomainId, NoMemory, Shape};
use place_words::{Entries, EntryAt, LockHistory, StrandStep, is_lock, lock_named, lock_number};
use std::alloc::Global;
use std::marker::Model;

/// The histories of the locks of a map.
#[derive(Drop)]
pub(crate) struct Histories<'a> {
    shape: &'a Shape,
    all: &'a [LockHistory],
    /// Where that of each lock stands, by the numbers of the locks.
    places: Vec<usize>,
}

impl<'a> Model for Histories<'a> {
    ghost use Rattle.call_check.specs.Steps.{HaveHistories, Histories};

    ghost Value = { Histories };

    ghost view = { λ h. record { shape = h.shape.now; all = h.all.now } };

    ghost invariant = { λ h. HaveHistories h.shape.now h.all.now h.places.items };
}

impl<'a> Histories<'a> {
    /// Those of a record.
    pub(crate) fn of(
        alloc: Global,
        shape: &'a Shape,
        all: &'a [LockHistory],
    ) -> Result<Histories<'a>, NoMemory>
        requires shape { IsShape shape.now }
        requires locks { map lock_of all.now ≡ locks_of shape.now }
        ensures { IfOk result (λ histories. histories ≡ record { shape = shape.now; all = all.now }) }
    {
        let places = places_of(alloc, shape)?;
        Ok(Histories { shape, all, places })
    }

    /// The entry that a step names.
    pub(crate) fn named_by(&self, step: StrandStep) -> Option<EntryAt<'a>>
        requires { IsTrue (is_lock self.now.shape step.lock) }
        ensures { MatchOption result (named_by self.now.all step ≡ None) (λ entry. named_by self.now.all step ≡ Some (entry_read entry)) }
    {
        let entries: &'a Entries = entries_at(
            self.shape,
            self.all,
            self.places.as_slice(),
            step.lock,
        );
        entry_at(entries, step.index)
    }

    /// The number of the call of a step, 0 where it names no entry.
    pub(crate) fn call_of(&self, step: StrandStep) -> u32
        requires { IsTrue (is_lock self.now.shape step.lock) }
        ensures { result ≡ call_named self.now.all step }
    {
        match self.named_by(step) {
            Some(entry) => entry.call,
            None => 0,
        }
    }

    /// Whether the turn of a step is one of a CPU.
    pub(crate) fn is_of_cpu(&self, cpu: u32, step: StrandStep) -> bool
        requires { IsTrue (is_lock self.now.shape step.lock) }
        ensures { result ≡ is_of_cpu self.now.all cpu step }
    {
        match self.named_by(step) {
            Some(entry) => entry.cpu == cpu,
            None => false,
        }
    }
}

/// The entry at a place of a history.
fn entry_at(entries: &Entries, index: u64) -> Option<EntryAt<'_>>
    ensures { MatchOption result (slice_get entries.now index ≡ None) (λ entry. slice_get entries.now index ≡ Some (entry_read entry)) }
{
    if index >= entries.len() as u64 {
        return None;
    }
    Some(entries.at(index as usize))
}

/// The entries of a lock's history.
fn entries_at<'a>(
    shape: &Shape,
    histories: &'a [LockHistory],
    places: &[usize],
    lock: DomainId,
) -> &'a Entries
    requires shape { IsShape shape.now }
    requires locks { map lock_of histories.now ≡ locks_of shape.now }
    requires places { places.now ≡ places_of shape.now }
    requires lock { IsTrue (is_lock shape.now lock) }
    ensures { result.now ≡ entries_of histories.now lock }
{
    let number = lock_number(shape, lock) as usize;
    let place = places[number];
    &histories[place].entries
}

/// Where among the histories that of each lock stands, by the numbers of the locks.
fn places_of(alloc: Global, shape: &Shape) -> Result<Vec<usize>, NoMemory>
    requires { IsShape shape.now }
    ensures { IfOk result (λ places. places.items ≡ places_of shape.now) }
{
    let count = 3 * shape.cpus + 1 + shape.buckets;
    let mut places = Vec::new(alloc);
    let mut place: usize = 0;
    for number in 0..count {
        places.push(place)?;
        if is_lock(shape, lock_named(shape, number)) {
            place += 1;
        }
    }
    Ok(places)
}
