//! Tests of what is recorded of a run.

ghost use Rattle.std.specs.Prelude.{◌≡◌, ◌≢◌, MatchBool};
ghost use Rattle.place_words.specs.Entries.{entry_read};

use crate::{Same, same_part};
use place_words::{Entries, Entry, EntryAt, LockHistory, Part, Strand, StrandSteps};

impl Same for Part {
    fn same(&self, other: &Part) -> bool {
        same_part(self.in_place(), other.in_place())
    }
}

impl Same for Entry {
    fn same(&self, other: &Entry) -> bool {
        same_entry(self.in_place(), other.in_place())
    }
}

/// Whether two turns tell the same.
fn same_entry(one: EntryAt<'_>, another: EntryAt<'_>) -> bool
    ensures { MatchBool result (entry_read one.entry ≡ entry_read another.entry)
        (entry_read one.entry ≢ entry_read another.entry) }
{
    one.ticket == another.ticket
        && one.cpu == another.cpu
        && one.call == another.call
        && same_part(one.part, another.part)
}

impl Same for Entries {
    fn same(&self, other: &Entries) -> bool {
        if self.len() != other.len() {
            return false;
        }
        for index in 0..self.len() {
            if !same_entry(self.at(index), other.at(index)) {
                return false;
            }
        }
        true
    }
}

impl Same for LockHistory {
    fn same(&self, other: &LockHistory) -> bool {
        self.lock.same(&other.lock) && self.entries.same(&other.entries)
    }
}

impl Same for StrandSteps {
    fn same(&self, other: &StrandSteps) -> bool {
        if self.len() != other.len() {
            return false;
        }
        for place in 0..self.len() {
            if !self.at(place).same(&other.at(place)) {
                return false;
            }
        }
        true
    }
}

impl Same for Strand {
    fn same(&self, other: &Strand) -> bool {
        self.phase.same(&other.phase)
            && self.cpus.same(&other.cpus)
            && self.steps.same(&other.steps)
    }
}
