//! The local lists of a CPU as a replay has them.

ghost use Rattle.std.specs.Prelude.{◌≡◌, ◌==◌, IfOk, OnOk, MatchBool, List, [], drop, reverse};
ghost use Rattle.map_types.specs.Listed.{elements_of, without_those};
ghost use Rattle.place_words.specs.Histories.{in_locals};
ghost use Rattle.place_words.specs.Logs.{final_local};
ghost use Rattle.place_words.specs.declared.list_part.Stolen.{Stolen};
ghost use Rattle.replay_words.specs.Notes.{local_note, refill_note};
ghost use Rattle.place_words.specs.Locals.{new_locals, AllowsPush, AllowsSteal, IsSearch, local_after};
ghost use Rattle.place_words.specs.Sets.{row_with as row_for};
ghost use Rattle.place_words.specs.declared.visits.Visit.{Visit};
ghost use Rattle.place_words.specs.declared.visits.Look.{Look};
ghost use Rattle.place_words.specs.declared.visits.Try.{Try};
ghost use Rattle.local_replay.specs.Replays.{CanAdd, CanRefill};
ghost use Rattle.map_types.specs.ElementLists.{IsHead};
ghost use Rattle.place_words.specs.declared.list_part.LocalPart.TheVariants as local;

use crate::allowed::{has_row, is_absent, is_head, is_last, visits_all};
use crate::notes::{hashes_of, probed_hashes};
use crate::walks::{freed_in, is_only, is_sparing, is_unsparing, removes_none};
use map_types::{NoMemory, Numbers, Row, Shape};
use place_words::{LocalFinal, Look, Stolen, Try, Visit};
use replay_words::Note;
use std::alloc::Global;
use std::marker::Model;

/// The local lists of a CPU. Contracts see them head first.
#[derive(Drop)]
pub struct ReplayedLists {
    /// The head is the last.
    free: Vec<u32>,
    /// The head is the last.
    pending: Vec<Row>,
    steal: u32,
}

impl Model for ReplayedLists {
    ghost use Rattle.std.specs.Prelude.{reverse};
    ghost use Rattle.place_words.specs.Locals.{LocalLists};

    ghost Value = { LocalLists };

    ghost view = { λ s. record { free = reverse s.free.items; pending = reverse s.pending.items; steal = s.steal } };
}

impl ReplayedLists {
    /// Empty lists, where the first theft starts at this CPU.
    pub(crate) fn new(alloc: Global, cpu: u32) -> ReplayedLists
        ensures { result ≡ new_locals cpu }
    {
        ReplayedLists {
            free: Vec::new(alloc),
            pending: Vec::new(alloc),
            steal: cpu,
        }
    }

    /// Whether the head of free may be this element.
    pub(crate) fn may_pop(&self, element: u32) -> bool
        ensures { MatchBool result (IsHead element self.now.free) (¬ IsHead element self.now.free) }
    {
        is_head(&self.free, element)
    }

    /// Whether an element that was stolen may come here with this cursor.
    pub(crate) fn may_add(&self, shape: &Shape, element: u32, cursor: u32) -> bool
        ensures { MatchBool result (CanAdd shape.now element cursor self.now) (¬ CanAdd shape.now element cursor self.now) }
    {
        if has_row(&self.pending, element) {
            return false;
        }
        if !is_absent(&self.free, element) {
            return false;
        }
        cursor < shape.cpus
    }

    /// Whether an element may be freed here, or found not to be pending here.
    pub(crate) fn may_push(&self, element: u32, done: bool) -> bool
        ensures { MatchBool result (AllowsPush element done self.now) (¬ AllowsPush element done self.now) }
    {
        if done {
            has_row(&self.pending, element)
        } else {
            !has_row(&self.pending, element)
        }
    }

    /// Whether the lists may be filled up so.
    pub(crate) fn may_refill(&self, flushed: &[Visit], gained: &[u32], got: Option<u32>) -> bool
        ensures { MatchBool result (CanRefill flushed.now gained.now got self.now)
            (¬ CanRefill flushed.now gained.now got self.now) }
    {
        if !self.free.is_empty() {
            return false;
        }
        if !visits_all(&self.pending, flushed) {
            return false;
        }
        is_last(gained, got)
    }

    /// All rows leave pending. What is gained is free but for the last, which comes to pending with this hash.
    pub(crate) fn refill(
        &mut self,
        alloc: Global,
        hash: u32,
        gained: &[u32],
        got: Option<u32>,
    ) -> Result<(), NoMemory>
        ensures { OnOk result ((flushed : List Visit) → self.new ≡ local_after (local.Refill hash flushed gained.now got) self.old) }
    {
        self.free = but_last(alloc, gained)?;
        self.pending = row_with(alloc, hash, got)?;
        Ok(())
    }

    /// The free element at the head comes to pending with this hash.
    pub(crate) fn pop(&mut self, hash: u32, element: u32) -> Result<(), NoMemory>
        ensures { OnOk result (self.new ≡ local_after (local.Pop hash element) self.old) }
    {
        let _head = self.free.pop();
        self.pending.push(Row { element, hash })?;
        Ok(())
    }

    /// A stolen element comes to pending with this hash.
    pub(crate) fn add(&mut self, hash: u32, element: u32, cursor: u32) -> Result<(), NoMemory>
        ensures { OnOk result (self.new ≡ local_after (local.Add hash element cursor) self.old) }
    {
        self.pending.push(Row { element, hash })?;
        self.steal = cursor;
        Ok(())
    }

    /// A pending element goes to the free list, where this is done.
    pub(crate) fn push(&mut self, alloc: Global, element: u32, done: bool) -> Result<(), NoMemory>
        ensures { OnOk result (self.new ≡ local_after (local.Push element done) self.old) }
    {
        if done {
            self.pending = rows_without(alloc, &self.pending, element)?;
            self.free.push(element)?;
            Ok(())
        } else {
            Ok(())
        }
    }

    /// Whether a theft may have taken this, after these walks.
    pub(crate) fn may_steal(
        &self,
        alloc: Global,
        got: Stolen,
        first: &[Look],
        second: &[Try],
    ) -> Result<bool, NoMemory>
        ensures { IfOk result (λ allowed. MatchBool allowed (AllowsSteal got first.now second.now self.now)
            (¬ AllowsSteal got first.now second.now self.now)) }
    {
        match got {
            Stolen::Free(element) => Ok(self.may_take(element, first, second)),
            Stolen::Pending(element) => Ok(
                self.is_search(first, second)
                    && is_only(freed_in(alloc, first, second)?.as_slice(), element),
            ),
            Stolen::Nothing => Ok(
                self.is_search(first, second) && freed_in(alloc, first, second)?.is_empty(),
            ),
        }
    }

    /// Whether a theft may have taken this element off free, with no walk.
    fn may_take(&self, element: u32, first: &[Look], second: &[Try]) -> bool
        ensures { MatchBool result (IsHead element self.now.free × (first.now ≡ []) × (second.now ≡ []))
            (¬ (IsHead element self.now.free × (first.now ≡ []) × (second.now ≡ []))) }
    {
        if !first.is_empty() {
            return false;
        }
        if !second.is_empty() {
            return false;
        }
        is_head(&self.free, element)
    }

    /// Whether these are the walks of a theft.
    fn is_search(&self, first: &[Look], second: &[Try]) -> bool
        ensures { MatchBool result (IsSearch self.now first.now second.now) (¬ IsSearch self.now first.now second.now) }
    {
        if !self.free.is_empty() {
            return false;
        }
        if !is_sparing(&self.pending, first) {
            return false;
        }
        if removes_none(first) {
            is_unsparing(&self.pending, second)
        } else {
            second.is_empty()
        }
    }

    /// What was stolen leaves its list.
    pub(crate) fn steal(&mut self, alloc: Global, got: Stolen) -> Result<(), NoMemory>
        ensures { OnOk result ((first : List Look) (second : List Try)
            → self.new ≡ local_after (local.Steal got first second) self.old) }
    {
        match got {
            Stolen::Free(_) => {
                let _head = self.free.pop();
                Ok(())
            }
            Stolen::Pending(element) => {
                self.pending = rows_without(alloc, &self.pending, element)?;
                Ok(())
            }
            Stolen::Nothing => Ok(()),
        }
    }
}

impl ReplayedLists {
    /// What is noted of a refill.
    pub(crate) fn before_refill(&self, alloc: Global) -> Result<Note, NoMemory>
        ensures { IfOk result (λ note. note ≡ refill_note (in_locals self.now)) }
    {
        Ok(Note::Refill {
            hashes: hashes_of(alloc, &self.pending)?,
            steal: self.steal,
        })
    }

    /// What is noted of a theft with these walks.
    pub(crate) fn probed(
        &self,
        alloc: Global,
        first: &[Look],
        second: &[Try],
    ) -> Result<Note, NoMemory>
        ensures { IfOk result (λ note. (got : Stolen) → note ≡ local_note (in_locals self.now) (local.Steal got first.now second.now)) }
    {
        Ok(Note::Probes(probed_hashes(alloc, &self.pending, first, second)?))
    }

    /// The lists as finals tell them.
    pub(crate) fn last(self, alloc: Global) -> Result<LocalFinal, NoMemory>
        ensures { IfOk result (λ last. last ≡ final_local self) }
    {
        let ReplayedLists {
            free,
            pending,
            steal,
        } = self;
        Ok(LocalFinal {
            free: head_first(free),
            pending: head_first(elements_in(alloc, pending.as_slice())?),
            steal,
        })
    }
}

/// The list whose head is last.
fn head_first(list: Vec<u32>) -> Numbers
    ensures { result ≡ reverse list.items }
{
    let mut turned = list;
    turned.reverse();
    Numbers::of(turned)
}

/// The elements of rows, in their order.
fn elements_in(alloc: Global, rows: &[Row]) -> Result<Vec<u32>, NoMemory>
    ensures { IfOk result (λ elements. elements.items ≡ elements_of rows.now) }
{
    Ok(rows.iter().map(|row| row.element).collect(alloc)?)
}

/// The rows without those of an element.
fn rows_without(alloc: Global, rows: &[Row], element: u32) -> Result<Vec<Row>, NoMemory>
    ensures { IfOk result (λ kept. kept.items ≡ without_those (λ x. x == element) rows.now) }
{
    Ok(
        rows.iter()
            .filter(|row| row.element != element)
            .copied()
            .collect(alloc)?,
    )
}

/// A list without its last.
fn but_last(alloc: Global, gained: &[u32]) -> Result<Vec<u32>, NoMemory>
    ensures { IfOk result (λ kept. reverse kept.items ≡ drop 1 (reverse gained.now)) }
{
    let mut kept = Vec::from_slice(alloc, gained)?;
    let _last = kept.pop();
    Ok(kept)
}

/// The row of what goes to the head of a list with a hash, where there is something.
fn row_with(alloc: Global, hash: u32, got: Option<u32>) -> Result<Vec<Row>, NoMemory>
    ensures { IfOk result (λ rows. rows.items ≡ row_for hash got) }
{
    let mut rows = Vec::new(alloc);
    match got {
        Some(element) => {
            rows.push(Row { element, hash })?;
            Ok(rows)
        }
        None => Ok(rows),
    }
}
