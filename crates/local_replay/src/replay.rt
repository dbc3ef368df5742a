//! The replay of a history of a CPU's local lists.

ghost use Rattle.std.specs.Prelude.{◌≡◌, IfOk, OnOk, MatchBool, MatchOption, MatchResult};
ghost use Rattle.map_types.specs.declared.kind.DomainId.TheVariants as locks;
ghost use Rattle.replay_words.specs.Notes.{local_note};
ghost use Rattle.replay_words.specs.Replays.{StopsAt};
ghost use Rattle.map_types.specs.declared.attr.Shape as shapes;
ghost use Rattle.place_words.specs.declared.history.Part.TheVariants as parts;
ghost use Rattle.place_words.specs.Entries.{part_read};
ghost use Rattle.place_words.specs.Histories.{Allows, in_locals};
ghost use Rattle.place_words.specs.Locals.{LocalLists, AllowsOnLocal, local_after};
ghost use Rattle.local_replay.specs.Replays.{IsTurn, LeadsToLocals};

use crate::lists::ReplayedLists;
use map_types::{List, NoMemory, Shape};
use place_words::{Entries, EntryAt, LocalFinal, LocalPart, PackedLocal, PartAt};
use replay_words::{Note, ReplayStop};
use std::alloc::Global;

/// What the history of a CPU's local lists leads to.
#[derive(Drop)]
pub struct ReplayedLocals {
    /// What lies there at the end.
    pub last: LocalFinal,
    /// What is noted of each turn.
    pub notes: List<Note>,
}

/// Replays a history of the local lists of a CPU: what lies there after it, with what is noted of its turns, or the first turn that
/// isn't allowed on what those before it lead to.
///
/// An entry takes the time of what it tells, and a Push, an Add, a refill and a theft from pending that of a walk over what is
/// pending, an Add over what is free too. A theft that probes puts what is pending in order by element, and so takes by the logarithm
/// more. A run leaves 128 or so elements on both lists at most, so its history takes linear time. A forged one may have as many there
/// as it tells, and then takes quadratic time.
pub fn replay_local(
    alloc: Global,
    shape: &Shape,
    cpu: u32,
    entries: &Entries,
) -> Result<ReplayedLocals, ReplayStop>
    ensures { MatchResult result
        (LeadsToLocals shape.now cpu entries.now)
        (StopsAt shape.now (locks.Local cpu) entries.now) }
{
    let mut lists = ReplayedLists::new(alloc, cpu);
    let mut notes = List::of(Vec::new(alloc));
    for i in 0..entries.len() {
        let entry = entries.at(i);
        let Some(packed) = local_part(entry) else {
            return Err(ReplayStop::NotAllowed { index: i });
        };
        let Some(note) = packed_turn(&mut lists, alloc, shape, packed)? else {
            return Err(ReplayStop::NotAllowed { index: i });
        };
        notes.push(note)?;
    }
    Ok(ReplayedLocals {
        last: lists.last(alloc)?,
        notes,
    })
}

/// What an entry did to local lists, none where it did something else.
fn local_part<'a>(entry: EntryAt<'a>) -> Option<&'a PackedLocal>
    ensures { MatchOption result
        ((shape : shapes.Shape) (lists : LocalLists) → ¬ Allows shape entry.entry.cpu (part_read entry.entry.part) (in_locals lists))
        (λ part. part_read entry.entry.part ≡ parts.Local part.now) }
{
    match entry.part {
        PartAt::Local(part) => Some(part),
        PartAt::Bucket(_) => None,
        PartAt::Free(_) => None,
        PartAt::Global(_) => None,
        PartAt::Own(_) => None,
    }
}

/// Makes a turn, however its part lies, as `turn` does.
fn packed_turn(
    lists: &mut ReplayedLists,
    alloc: Global,
    shape: &Shape,
    packed: &PackedLocal,
) -> Result<Option<Note>, NoMemory>
    ensures { IfOk result (λ found. MatchOption found
        (¬ AllowsOnLocal shape.now packed.now lists.old)
        (IsTurn shape.now packed.now lists.old lists.new)) }
{
    match packed.part() {
        Ok(part) => turn(lists, alloc, shape, part),
        Err(part) => turn(lists, alloc, shape, &part),
    }
}

/// Makes a turn, where it may be this part, and says what is noted of it.
fn turn(
    lists: &mut ReplayedLists,
    alloc: Global,
    shape: &Shape,
    part: &LocalPart,
) -> Result<Option<Note>, NoMemory>
    ensures { IfOk result (λ found. MatchOption found
        (¬ AllowsOnLocal shape.now part.now lists.old)
        (IsTurn shape.now part.now lists.old lists.new)) }
{
    if !allows(lists, alloc, shape, part)? {
        return Ok(None);
    }
    let noted = note(lists, alloc, part)?;
    apply(lists, alloc, part)?;
    Ok(Some(noted))
}

/// Whether a turn may be this part.
fn allows(
    lists: &ReplayedLists,
    alloc: Global,
    shape: &Shape,
    part: &LocalPart,
) -> Result<bool, NoMemory>
    ensures { IfOk result (λ allowed. MatchBool allowed (AllowsOnLocal shape.now part.now lists.now)
        (¬ AllowsOnLocal shape.now part.now lists.now)) }
{
    match part {
        LocalPart::Pop { element, .. } => Ok(lists.may_pop(*element)),
        LocalPart::Refill {
            flushed,
            gained,
            got,
            ..
        } => Ok(lists.may_refill(flushed.as_slice(), gained.as_slice(), *got)),
        LocalPart::Steal { got, first, second } => {
            lists.may_steal(alloc, *got, first.as_slice(), second.as_slice())
        }
        LocalPart::Add {
            element,
            cursor,
            ..
        } => Ok(lists.may_add(shape, *element, *cursor)),
        LocalPart::Push { element, done } => Ok(lists.may_push(*element, *done)),
    }
}

/// The lists after a part.
fn apply(lists: &mut ReplayedLists, alloc: Global, part: &LocalPart) -> Result<(), NoMemory>
    ensures { OnOk result (lists.new ≡ local_after part.now lists.old) }
{
    match part {
        LocalPart::Pop { hash, element } => lists.pop(*hash, *element),
        LocalPart::Refill {
            hash,
            gained,
            got,
            ..
        } => lists.refill(alloc, *hash, gained.as_slice(), *got),
        LocalPart::Steal { got, .. } => lists.steal(alloc, *got),
        LocalPart::Add {
            hash,
            element,
            cursor,
        } => lists.add(*hash, *element, *cursor),
        LocalPart::Push { element, done } => lists.push(alloc, *element, *done),
    }
}

/// What is noted of a part, by what lies there before it.
fn note(lists: &ReplayedLists, alloc: Global, part: &LocalPart) -> Result<Note, NoMemory>
    ensures { IfOk result (λ note. note ≡ local_note (in_locals lists.now) part.now) }
{
    match part {
        LocalPart::Refill { .. } => lists.before_refill(alloc),
        LocalPart::Steal { first, second, .. } => {
            lists.probed(alloc, first.as_slice(), second.as_slice())
        }
        LocalPart::Pop { .. } | LocalPart::Add { .. } | LocalPart::Push { .. } => Ok(Note::Nothing),
    }
}
