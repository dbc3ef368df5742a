//! Turns of a CPU's own set that an entry tells.

ghost use Rattle.std.specs.Prelude.{◌≡◌, IfOk, map, option_map, Some};
ghost use Rattle.lru_lists.specs.declared.bits.ProbeCall as probe_calls;
ghost use Rattle.place_words.specs.Entries.{part_read};
ghost use Rattle.place_words.specs.Histories.{in_own};
ghost use Rattle.place_words.specs.Packed.{own_read};
ghost use Rattle.set_replay.specs.Pushing.{HasFreeRoom};
ghost use Rattle.set_replay.specs.Replayed.{EntryJudged};
ghost use Rattle.set_replay.specs.OwnTurns.{OwnShrinkJudged, GivingJudged, OwnTurnJudged};

use crate::pushing::pushes;
use crate::rotating::rotates;
use crate::shrinking::shrinks;
use crate::told::Calls;
use lru_lists::{ListName, ListSet, ProbeCall};
use map_types::{List, NoMemory, Row};
use percpu_values::BodyStack;
use place_words::{OwnAt, PartAt, ShrinkNote};
use replay_words::Note;
use row_list::Rows;
use std::alloc::Global;

/// How many rows a rotation and a shrink of an own set look at, and how many elements a shrink is to free.
const SCANS: u32 = 4;

const TARGET: u32 = 4;

/// Makes the turn of an entry on a CPU's own set, and answers what is noted of it: None where it isn't allowed there.
pub(crate) fn own_entry<S: Rows>(
    alloc: Global,
    calls: &mut Calls,
    set: &mut ListSet<S>,
    part: PartAt<'_>,
) -> Result<Option<Note>, NoMemory>
    requires { HasFreeRoom set.old }
    ensures { IfOk result (EntryJudged in_own (part_read part.entry) set.old set.new) }
{
    match part {
        PartAt::Own(part) => own_turn(alloc, calls, set, part.part()),
        PartAt::Bucket(_) | PartAt::Free(_) | PartAt::Local(_) | PartAt::Global(_) => Ok(None),
    }
}

/// Makes a turn of a CPU's own set, and answers what is noted of it: None where it isn't allowed there.
pub(crate) fn own_turn<S: Rows>(
    alloc: Global,
    calls: &mut Calls,
    set: &mut ListSet<S>,
    part: OwnAt<'_>,
) -> Result<Option<Note>, NoMemory>
    requires { HasFreeRoom set.old }
    ensures { IfOk result (OwnTurnJudged (own_read part.entry) set.old set.new) }
{
    match part {
        OwnAt::Turn {
            hash,
            active,
            inactive,
            shrink,
            got,
        } => {
            if !rotates(alloc, calls, set, SCANS, active, inactive)? {
                return Ok(None);
            }
            let Some(hashes) = own_shrinks(alloc, calls, set, shrink)? else {
                return Ok(None);
            };
            if gives_out(set, hash, got) {
                Ok(Some(Note::Probes(hashes)))
            } else {
                Ok(None)
            }
        }
        OwnAt::Push { element } => {
            if pushes(alloc, set, element)? {
                Ok(Some(Note::Nothing))
            } else {
                Ok(None)
            }
        }
    }
}

/// Shrinks an own set where that is told, and answers the hashes of what was probed: None where it isn't allowed.
fn own_shrinks<S: Rows>(
    alloc: Global,
    calls: &mut Calls,
    set: &mut ListSet<S>,
    shrink: Option<&ShrinkNote>,
) -> Result<Option<List<Option<u32>>>, NoMemory>
    requires { HasFreeRoom set.old }
    ensures { IfOk result (OwnShrinkJudged (option_map (λ note. note.now) shrink.entry) set.old set.new) }
{
    match shrink {
        None => {
            if set.free_len() == 0 {
                Ok(None)
            } else {
                Ok(Some(List::of(Vec::new(alloc))))
            }
        }
        Some(note) => own_shrink(alloc, calls, set, note),
    }
}

/// Shrinks an own set whose free list is empty into that list.
fn own_shrink<S: Rows>(
    alloc: Global,
    calls: &mut Calls,
    set: &mut ListSet<S>,
    note: &ShrinkNote,
) -> Result<Option<List<Option<u32>>>, NoMemory>
    requires { HasFreeRoom set.old }
    ensures { IfOk result (OwnShrinkJudged (Some note.now) set.old set.new) }
{
    if set.free_len() != 0 || note.target != TARGET {
        return Ok(None);
    }
    let mut freed = BodyStack::empty(alloc);
    set.swap_free(&mut freed);
    let lawful = shrinks(alloc, calls, set, SCANS, note, &mut freed)?;
    set.swap_free(&mut freed);
    if lawful {
        Ok(Some(hashes_of(alloc, &calls.probes)?))
    } else {
        Ok(None)
    }
}

/// The hashes of the rows that were probed.
pub(crate) fn hashes_of(alloc: Global, probes: &[ProbeCall]) -> Result<List<Option<u32>>, NoMemory>
    ensures { IfOk result (λ hashes. hashes ≡ map (λ (probe : probe_calls.ProbeCall). Some probe.hash) probes.now) }
{
    let mut hashes = Vec::new(alloc);
    for probe in probes {
        hashes.push(Some(probe.hash))?;
    }
    Ok(List::of(hashes))
}

/// The head of free goes to the head of inactive with a hash. Whether it is this.
fn gives_out<S: Rows>(set: &mut ListSet<S>, hash: u32, got: Option<u32>) -> bool
    requires { HasFreeRoom set.old }
    ensures { GivingJudged hash got set.old set.new result }
{
    match set.free_pop() {
        None => got.is_none(),
        Some(body) => {
            let element = body.body().element();
            set.move_in(Row { element, hash }, ListName::Inactive);
            got == Some(element)
        }
    }
}
