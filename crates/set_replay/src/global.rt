//! Turns of the global set that an entry tells.

ghost use Rattle.std.specs.Prelude.{◌≡◌, ◌<◌, All, IfOk, Some, true};
ghost use Rattle.place_words.specs.Entries.{part_read};
ghost use Rattle.place_words.specs.declared.history.Part.TheVariants as parts;
ghost use Rattle.place_words.specs.declared.visits.Flush as flushes_record;
ghost use Rattle.set_replay.specs.GlobalTurns.{AreMarked, FlushesBelow, list_of as list_named, ComingJudged, FlushJudged, PopJudged, MovingJudged, GlobalEntryJudged, GlobalShrinkJudged, GlobalTurnJudged};
ghost use Rattle.set_replay.specs.Pushing.{HasFreeRoom, PushJudged};

use crate::own::hashes_of;
use crate::pushing::pushes;
use crate::rotating::rotates;
use crate::shrinking::shrinks;
use crate::told::Calls;
use lru_lists::{ListName, ListSet};
use map_types::{List, NoMemory, Row};
use percpu_values::BodyStack;
use place_words::{Flush, GlobalPart, PackedGlobal, PartAt, ShrinkNote};
use replay_words::Note;
use row_list::Rows;
use std::alloc::Global;

/// How many rows a rotation and a shrink of the global set look at, and how many elements a turn is to give.
const SCANS: u32 = 128;

const TARGET: usize = 128;

/// Makes the turn of an entry on the global set, and answers what is noted of it: None where it isn't allowed there.
pub(crate) fn global_entry<S: Rows>(
    alloc: Global,
    calls: &mut Calls,
    set: &mut ListSet<S>,
    marks: &mut Vec<bool>,
    part: PartAt<'_>,
) -> Result<Option<Note>, NoMemory>
    requires room { HasFreeRoom set.old }
    requires marks { AreMarked marks.old.items set.old }
    requires below { FlushesBelow set.old.elements (part_read part) }
    ensures { IfOk result (GlobalEntryJudged (part_read part.entry) set.old set.new marks.new.items) }
{
    match part {
        PartAt::Global(part) => global_packed(alloc, calls, set, marks, part),
        PartAt::Bucket(_) | PartAt::Free(_) | PartAt::Local(_) | PartAt::Own(_) => Ok(None),
    }
}

/// The same of the part of the global set.
fn global_packed<S: Rows>(
    alloc: Global,
    calls: &mut Calls,
    set: &mut ListSet<S>,
    marks: &mut Vec<bool>,
    part: &PackedGlobal,
) -> Result<Option<Note>, NoMemory>
    requires room { HasFreeRoom set.old }
    requires marks { AreMarked marks.old.items set.old }
    requires below { FlushesBelow set.old.elements (parts.Global part.now) }
    ensures { IfOk result (GlobalEntryJudged (parts.Global part.now) set.old set.new marks.new.items) }
{
    match part.part() {
        Ok(part) => {
            let answer = global_turn(alloc, calls, set, marks, part)?;
            Ok(answer)
        }
        Err(part) => {
            let answer = global_turn(alloc, calls, set, marks, &part)?;
            Ok(answer)
        }
    }
}

/// Makes a turn of the global set, and answers what is noted of it: None where it isn't allowed there. The free elements are
/// marked, so that an element which is flushed is looked for in a few steps.
pub(crate) fn global_turn<S: Rows>(
    alloc: Global,
    calls: &mut Calls,
    set: &mut ListSet<S>,
    marks: &mut Vec<bool>,
    part: &GlobalPart,
) -> Result<Option<Note>, NoMemory>
    requires room { HasFreeRoom set.old }
    requires marks { AreMarked marks.old.items set.old }
    requires below { FlushesBelow set.old.elements (parts.Global part.now) }
    ensures { IfOk result (GlobalTurnJudged part.now set.old set.new marks.new.items) }
{
    match part {
        GlobalPart::Turn {
            flushed,
            active,
            inactive,
            free,
            shrink,
        } => {
            if !flushes(set, marks, flushed.as_slice()) {
                return Ok(None);
            }
            if !rotates(
                alloc,
                calls,
                set,
                SCANS,
                active.as_slice(),
                inactive.as_slice(),
            )? {
                return Ok(None);
            }
            if !moves_off(set, marks, free.as_slice()) {
                return Ok(None);
            }
            let Some(hashes) = global_shrinks(alloc, calls, set, free.len(), shrink)? else {
                return Ok(None);
            };
            Ok(Some(Note::Probes(hashes)))
        }
        GlobalPart::Push { element } => {
            if global_push(alloc, set, marks, *element)? {
                Ok(Some(Note::Nothing))
            } else {
                Ok(None)
            }
        }
    }
}

/// Frees an element where it is listed, and marks it. Whether it is.
fn global_push<S: Rows>(
    alloc: Global,
    set: &mut ListSet<S>,
    marks: &mut Vec<bool>,
    element: u32,
) -> Result<bool, NoMemory>
    requires room { HasFreeRoom set.old }
    requires marks { AreMarked marks.old.items set.old }
    ensures pushed { IfOk result (PushJudged element set.old set.new) }
    ensures marks { IfOk result (λ lawful. lawful ≡ true → AreMarked marks.new.items set.new) }
{
    if pushes(alloc, set, element)? {
        marks[element as usize] = true;
        Ok(true)
    } else {
        Ok(false)
    }
}

/// Brings flushed elements to the heads of active and inactive, one after another. Whether each comes from outside.
fn flushes<S: Rows>(set: &mut ListSet<S>, marks: &[bool], flushed: &[Flush]) -> bool
    requires marks { AreMarked marks.now set.old }
    requires below { All (λ (flush : flushes_record.Flush). flush.element < set.old.elements) flushed.now }
    ensures { FlushJudged flushed.now set.old set.new result }
{
    for i in 0..flushed.len() {
        if !comes(set, marks, flushed[i]) {
            return false;
        }
    }
    true
}

/// Brings a flushed element to the head of its list. Whether it comes from outside.
fn comes<S: Rows>(set: &mut ListSet<S>, marks: &[bool], flush: Flush) -> bool
    requires marks { AreMarked marks.now set.old }
    requires below { flush.element < set.old.elements }
    ensures { ComingJudged flush set.old set.new result }
{
    if marks[flush.element as usize] {
        return false;
    }
    if set.take_off(flush.element).is_some() {
        return false;
    }
    let row = Row {
        element: flush.element,
        hash: flush.hash,
    };
    set.move_in(row, list_of(flush.bit));
    true
}

/// The list that a flushed element comes to.
fn list_of(bit: bool) -> ListName
    ensures { result ≡ list_named bit }
{
    if bit {
        ListName::Active
    } else {
        ListName::Inactive
    }
}

/// Takes elements off the head of free. Whether they are these, and as many as a turn is to give.
fn moves_off<S: Rows>(set: &mut ListSet<S>, marks: &mut Vec<bool>, free: &[u32]) -> bool
    requires room { HasFreeRoom set.old }
    requires marks { AreMarked marks.old.items set.old }
    ensures { MovingJudged free.now set.old set.new marks.new.items result }
{
    if free.len() > TARGET {
        return false;
    }
    for i in 0..free.len() {
        if !pops(set, marks, free[i]) {
            return false;
        }
    }
    if free.len() == TARGET {
        return true;
    }
    set.free_len() == 0
}

/// Takes the head off free. Whether it is this element.
fn pops<S: Rows>(set: &mut ListSet<S>, marks: &mut Vec<bool>, element: u32) -> bool
    requires { AreMarked marks.old.items set.old }
    ensures { PopJudged element set.old set.new marks.new.items result }
{
    match set.free_pop() {
        None => false,
        Some(body) => {
            let top = body.body().element();
            marks[top as usize] = false;
            top == element
        }
    }
}

/// Shrinks the global set where that is told, and answers the hashes of what was probed: None where it isn't allowed, so many
/// elements having been moved.
fn global_shrinks<S: Rows>(
    alloc: Global,
    calls: &mut Calls,
    set: &mut ListSet<S>,
    moved: usize,
    shrink: &Option<ShrinkNote>,
) -> Result<Option<List<Option<u32>>>, NoMemory>
    ensures { IfOk result (GlobalShrinkJudged moved shrink.now set.old set.new) }
{
    match shrink {
        None => {
            if moved < TARGET {
                Ok(None)
            } else {
                Ok(Some(List::of(Vec::new(alloc))))
            }
        }
        Some(note) => global_shrink(alloc, calls, set, moved, note),
    }
}

/// Shrinks the global set. What it frees leaves.
fn global_shrink<S: Rows>(
    alloc: Global,
    calls: &mut Calls,
    set: &mut ListSet<S>,
    moved: usize,
    note: &ShrinkNote,
) -> Result<Option<List<Option<u32>>>, NoMemory>
    ensures { IfOk result (GlobalShrinkJudged moved (Some note.now) set.old set.new) }
{
    if moved >= TARGET || note.target as usize != TARGET - moved {
        return Ok(None);
    }
    let mut freed = BodyStack::with_room(alloc, note.target)?;
    if shrinks(alloc, calls, set, SCANS, note, &mut freed)? {
        Ok(Some(hashes_of(alloc, &calls.probes)?))
    } else {
        Ok(None)
    }
}
