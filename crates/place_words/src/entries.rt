//! The turns of a lock, in their order. They lie by the kind of the lock, each with only as much room as a part of that kind wants;
//! those of a bucket, where a table was closed, in the logs of strands.

ghost use Rattle.std.specs.Prelude.{◌≡◌, ◌∷◌, ◌++◌, ◌<◌, ◌==◌, [], IfOk, MatchResult, Some, length, slice_get, slice_index_or};
ghost use Rattle.place_words.specs.declared.history.Entry.{Entry};
ghost use Rattle.place_words.specs.TurnLogs.{turns_at};
ghost use Rattle.place_words.specs.Entries.{bucket_turns, free_turns, local_turns, global_turns, own_turns, entry_read, part_read};

use crate::copying::{EqualCopy, copies_of};
use crate::{Entry, FreePart, PackedBucket, PackedGlobal, PackedLocal, PackedOwn, Part, TurnLogs};
use map_types::{DomainId, NoMemory};
use std::alloc::Global;
use std::marker::Model;
use std::sync::Arc;

/// The turns of a lock, in their order. Contracts see the list of its entries.
#[derive(Drop)]
pub struct Entries {
    data: EntryData,
}

/// The turns of a lock of one kind, in rows, or those of a bucket in logs.
#[derive(Drop)]
pub(crate) enum EntryData {
    Bucket(Vec<Row<PackedBucket>>),
    Free(Vec<Row<FreePart>>),
    Local(Vec<Row<PackedLocal>>),
    Global(Vec<Row<PackedGlobal>>),
    Own(Vec<Row<PackedOwn>>),
    /// Of a bucket, in the logs of strands: those at `count` places from `first` on, or at the fewer that are there.
    Logged {
        logs: Arc<TurnLogs>,
        first: usize,
        count: usize,
    },
}

/// One turn of a lock, with a part of its kind.
#[derive(Drop)]
pub(crate) struct Row<P> {
    ticket: u64,
    cpu: u32,
    call: u32,
    part: P,
}

/// One turn of a lock, read where it lies.
#[derive(Clone, Copy)]
pub struct EntryAt<'a> {
    pub ticket: u64,
    pub cpu: u32,
    pub call: u32,
    pub part: PartAt<'a>,
}

/// What one turn of a lock did, read where it lies.
#[derive(Clone, Copy)]
pub enum PartAt<'a> {
    Bucket(&'a PackedBucket),
    Free(FreePart),
    Local(&'a PackedLocal),
    Global(&'a PackedGlobal),
    Own(&'a PackedOwn),
}

impl Model for Entries {
    ghost use Rattle.std.specs.Prelude.{List};
    ghost use Rattle.place_words.specs.declared.history.Entry.{Entry};
    ghost use Rattle.place_words.specs.Entries.{entries_of};

    ghost Value = { List Entry };

    ghost view = { λ e. entries_of e.data };
}

impl Entries {
    /// No turns yet of a lock of this kind. It takes no memory.
    pub fn none_of(alloc: Global, lock: DomainId) -> Entries
        ensures { result ≡ [] }
    {
        let data = match lock {
            DomainId::Bucket(_) => EntryData::Bucket(Vec::new(alloc)),
            DomainId::Freelist(_) => EntryData::Free(Vec::new(alloc)),
            DomainId::Local(_) => EntryData::Local(Vec::new(alloc)),
            DomainId::Global => EntryData::Global(Vec::new(alloc)),
            DomainId::CpuLru(_) => EntryData::Own(Vec::new(alloc)),
        };
        Entries { data }
    }

    /// No turns yet of a lock of this kind, with room for so many.
    pub fn with_room(alloc: Global, lock: DomainId, turns: usize) -> Result<Entries, NoMemory>
        ensures { IfOk result (λ entries. entries ≡ []) }
    {
        let data = match lock {
            DomainId::Bucket(_) => EntryData::Bucket(Vec::with_capacity(alloc, turns)?),
            DomainId::Freelist(_) => EntryData::Free(Vec::with_capacity(alloc, turns)?),
            DomainId::Local(_) => EntryData::Local(Vec::with_capacity(alloc, turns)?),
            DomainId::Global => EntryData::Global(Vec::with_capacity(alloc, turns)?),
            DomainId::CpuLru(_) => EntryData::Own(Vec::with_capacity(alloc, turns)?),
        };
        Ok(Entries { data })
    }

    /// The turns of a bucket in these logs: those at `count` places from `first` on, or at the fewer that are there. It takes no
    /// memory.
    pub fn logged(logs: Arc<TurnLogs>, first: usize, count: usize) -> Entries
        ensures { result ≡ turns_at logs.value first count }
    {
        Entries {
            data: EntryData::Logged { logs, first, count },
        }
    }

    /// How many turns there are.
    #[inline(always)]
    pub fn len(&self) -> usize
        ensures { result ≡ length self.now }
    {
        match &self.data {
            EntryData::Bucket(rows) => rows.len(),
            EntryData::Free(rows) => rows.len(),
            EntryData::Local(rows) => rows.len(),
            EntryData::Global(rows) => rows.len(),
            EntryData::Own(rows) => rows.len(),
            EntryData::Logged { logs, first, count } => logs.places_from(*first).min(*count),
        }
    }

    /// Whether there is none.
    pub fn is_empty(&self) -> bool
        ensures { result ≡ (length self.now == 0) }
    {
        self.len() == 0
    }

    /// The turn at a place, from 0.
    pub fn at(&self, index: usize) -> EntryAt<'_>
        requires { index < length self.now }
        ensures found { slice_get self.now index ≡ Some (entry_read result) }
        ensures whatever { (other : Entry)
            → slice_index_or self.now index other ≡ entry_read result }
    {
        match &self.data {
            EntryData::Bucket(rows) => {
                let row = &rows[index];
                row_at(row, PartAt::Bucket(&row.part))
            }
            EntryData::Free(rows) => {
                let row = &rows[index];
                row_at(row, PartAt::Free(row.part))
            }
            EntryData::Local(rows) => {
                let row = &rows[index];
                row_at(row, PartAt::Local(&row.part))
            }
            EntryData::Global(rows) => {
                let row = &rows[index];
                row_at(row, PartAt::Global(&row.part))
            }
            EntryData::Own(rows) => {
                let row = &rows[index];
                row_at(row, PartAt::Own(&row.part))
            }
            EntryData::Logged { logs, first, .. } => logs.turn(logs.places[*first + index]),
        }
    }

    /// Adds a turn behind the others. Where there is no memory for it, its part is of another kind than the lock that these turns
    /// were begun for, or they stand in logs, nothing is changed, and the turn is given back.
    #[inline(always)]
    pub fn push(&mut self, entry: Entry) -> Result<(), Entry>
        ensures { MatchResult result (λ _. self.new ≡ self.old ++ entry ∷ [])
            (λ back. (back ≡ entry) × (self.new ≡ self.old)) }
    {
        match &mut self.data {
            EntryData::Bucket(rows) => push_bucket(rows, entry),
            EntryData::Free(rows) => push_free(rows, entry),
            EntryData::Local(rows) => push_local(rows, entry),
            EntryData::Global(rows) => push_global(rows, entry),
            EntryData::Own(rows) => push_own(rows, entry),
            EntryData::Logged { .. } => Err(entry),
        }
    }
}

impl Entry {
    /// The same turn, read in place.
    pub fn in_place(&self) -> EntryAt<'_>
        ensures { entry_read result ≡ self.now }
    {
        EntryAt {
            ticket: self.ticket,
            cpu: self.cpu,
            call: self.call,
            part: self.part.in_place(),
        }
    }
}

impl Part {
    /// The same part, read in place.
    pub fn in_place(&self) -> PartAt<'_>
        ensures { part_read result ≡ self.now }
    {
        match self {
            Part::Bucket(part) => PartAt::Bucket(part),
            Part::Free(part) => PartAt::Free(*part),
            Part::Local(part) => PartAt::Local(part),
            Part::Global(part) => PartAt::Global(part),
            Part::Own(part) => PartAt::Own(part),
        }
    }
}

/// The turn of a row, whose part is read so.
fn row_at<'a, P>(row: &Row<P>, part: PartAt<'a>) -> EntryAt<'a>
    ensures ticket { result.ticket ≡ row.now.ticket }
    ensures cpu { result.cpu ≡ row.now.cpu }
    ensures call { result.call ≡ row.now.call }
    ensures part { part_read result.part ≡ part_read part.entry }
{
    EntryAt {
        ticket: row.ticket,
        cpu: row.cpu,
        call: row.call,
        part,
    }
}

/// Adds a turn of a bucket's lock, or gives it back.
fn push_bucket(rows: &mut Vec<Row<PackedBucket>>, entry: Entry) -> Result<(), Entry>
    ensures { MatchResult result (λ _. bucket_turns rows.new.items ≡ bucket_turns rows.old.items ++ entry ∷ [])
        (λ back. (back ≡ entry) × (rows.new.items ≡ rows.old.items)) }
{
    if rows.reserve(1).is_err() {
        return Err(entry);
    }
    let Entry {
        ticket,
        cpu,
        call,
        part,
    } = entry;
    match part {
        Part::Bucket(part) => {
            rows.push_reserved(Row {
                ticket,
                cpu,
                call,
                part,
            });
            Ok(())
        }
        part => Err(Entry {
            ticket,
            cpu,
            call,
            part,
        }),
    }
}

/// Adds a turn of a freelist's lock, or gives it back.
fn push_free(rows: &mut Vec<Row<FreePart>>, entry: Entry) -> Result<(), Entry>
    ensures { MatchResult result (λ _. free_turns rows.new.items ≡ free_turns rows.old.items ++ entry ∷ [])
        (λ back. (back ≡ entry) × (rows.new.items ≡ rows.old.items)) }
{
    if rows.reserve(1).is_err() {
        return Err(entry);
    }
    let Entry {
        ticket,
        cpu,
        call,
        part,
    } = entry;
    match part {
        Part::Free(part) => {
            rows.push_reserved(Row {
                ticket,
                cpu,
                call,
                part,
            });
            Ok(())
        }
        part => Err(Entry {
            ticket,
            cpu,
            call,
            part,
        }),
    }
}

/// Adds a turn of the lock of a CPU's local lists, or gives it back.
#[inline(always)]
fn push_local(rows: &mut Vec<Row<PackedLocal>>, entry: Entry) -> Result<(), Entry>
    ensures { MatchResult result (λ _. local_turns rows.new.items ≡ local_turns rows.old.items ++ entry ∷ [])
        (λ back. (back ≡ entry) × (rows.new.items ≡ rows.old.items)) }
{
    if rows.reserve(1).is_err() {
        return Err(entry);
    }
    let Entry {
        ticket,
        cpu,
        call,
        part,
    } = entry;
    match part {
        Part::Local(part) => {
            rows.push_reserved(Row {
                ticket,
                cpu,
                call,
                part,
            });
            Ok(())
        }
        part => Err(Entry {
            ticket,
            cpu,
            call,
            part,
        }),
    }
}

/// Adds a turn of the global lists' lock, or gives it back.
fn push_global(rows: &mut Vec<Row<PackedGlobal>>, entry: Entry) -> Result<(), Entry>
    ensures { MatchResult result (λ _. global_turns rows.new.items ≡ global_turns rows.old.items ++ entry ∷ [])
        (λ back. (back ≡ entry) × (rows.new.items ≡ rows.old.items)) }
{
    if rows.reserve(1).is_err() {
        return Err(entry);
    }
    let Entry {
        ticket,
        cpu,
        call,
        part,
    } = entry;
    match part {
        Part::Global(part) => {
            rows.push_reserved(Row {
                ticket,
                cpu,
                call,
                part,
            });
            Ok(())
        }
        part => Err(Entry {
            ticket,
            cpu,
            call,
            part,
        }),
    }
}

/// Adds a turn of the lock of a CPU's own list set, or gives it back.
#[inline(always)]
fn push_own(rows: &mut Vec<Row<PackedOwn>>, entry: Entry) -> Result<(), Entry>
    ensures { MatchResult result (λ _. own_turns rows.new.items ≡ own_turns rows.old.items ++ entry ∷ [])
        (λ back. (back ≡ entry) × (rows.new.items ≡ rows.old.items)) }
{
    if rows.reserve(1).is_err() {
        return Err(entry);
    }
    let Entry {
        ticket,
        cpu,
        call,
        part,
    } = entry;
    match part {
        Part::Own(part) => {
            rows.push_reserved(Row {
                ticket,
                cpu,
                call,
                part,
            });
            Ok(())
        }
        part => Err(Entry {
            ticket,
            cpu,
            call,
            part,
        }),
    }
}

impl EqualCopy for FreePart {
    fn copy(&self, _alloc: Global) -> Result<FreePart, NoMemory> {
        Ok(*self)
    }
}

impl<P: EqualCopy> EqualCopy for Row<P> {
    fn copy(&self, alloc: Global) -> Result<Row<P>, NoMemory> {
        Ok(Row {
            ticket: self.ticket,
            cpu: self.cpu,
            call: self.call,
            part: self.part.copy(alloc)?,
        })
    }
}

impl EqualCopy for Entries {
    fn copy(&self, alloc: Global) -> Result<Entries, NoMemory> {
        let data = match &self.data {
            EntryData::Bucket(rows) => EntryData::Bucket(copies_of(alloc, rows.as_slice())?),
            EntryData::Free(rows) => EntryData::Free(copies_of(alloc, rows.as_slice())?),
            EntryData::Local(rows) => EntryData::Local(copies_of(alloc, rows.as_slice())?),
            EntryData::Global(rows) => EntryData::Global(copies_of(alloc, rows.as_slice())?),
            EntryData::Own(rows) => EntryData::Own(copies_of(alloc, rows.as_slice())?),
            EntryData::Logged { logs, first, count } => EntryData::Logged {
                logs: Arc::try_clone(logs)?,
                first: *first,
                count: *count,
            },
        };
        Ok(Entries { data })
    }
}
