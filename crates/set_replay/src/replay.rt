//! The histories of list sets, replayed.

ghost use Rattle.std.specs.Prelude.{◌≡◌, ◌≤◌, ◌<◌, ℕ, All, IfOk, MatchResult, false, replicate};
ghost use Rattle.map_types.specs.Creation.{IsShape};
ghost use Rattle.map_types.specs.ElementLists.{times, IsIn};
ghost use Rattle.map_types.specs.declared.kind.DomainId.TheVariants as locks;
ghost use Rattle.place_words.specs.Bodies.{numbers};
ghost use Rattle.place_words.specs.Histories.{in_global, in_own};
ghost use Rattle.place_words.specs.declared.history.Entry as entry_record;
ghost use Rattle.place_words.specs.Logs.{final_set};
ghost use Rattle.place_words.specs.Openings.{opening_free};
ghost use Rattle.replay_words.specs.Replays.{StopsAt};
ghost use Rattle.set_replay.specs.GlobalTurns.{AreMarksOf, FlushesBelow};
ghost use Rattle.set_replay.specs.Pushing.{set_of};
ghost use Rattle.set_replay.specs.Replayed.{IsReplayedSet, Opens};

use crate::global::global_entry;
use crate::own::own_entry;
use crate::told::Calls;
use linked_rows::LinkedRows;
use lru_lists::{ListName, ListSet};
use map_types::{DomainId, List, NoMemory, Numbers, Shape};
use percpu_values::BoxedBody;
use place_words::{Entries, SetFinal, free_at_first, owners_at_first};
use replay_words::{Note, ReplayStop};
use row_list::Rows;
use std::alloc::Global;

/// What the history of a list set leads to.
#[derive(Drop)]
pub struct ReplayedSet {
    /// What lies there at the end.
    pub last: SetFinal,
    /// What is noted of its turns, in their order.
    pub notes: List<Note>,
}

/// Replays the turns of a CPU's own set from its opening: what lies there at the end with the notes of its turns, or the first turn
/// that the rules don't allow. A turn takes the time of what it tells, only the one that is refused may take that of the lists, and
/// the opening and the end take that of the elements of the map.
pub fn replay_own(
    alloc: Global,
    shape: &Shape,
    cpu: u32,
    entries: &Entries,
) -> Result<ReplayedSet, ReplayStop>
    requires { IsShape shape.now }
    ensures { MatchResult result
        (IsReplayedSet shape.now (locks.CpuLru cpu) in_own entries.now)
        (StopsAt shape.now (locks.CpuLru cpu) entries.now) }
{
    let mut set = opening_set(alloc, shape, DomainId::CpuLru(cpu))?;
    let mut calls = Calls::empty(alloc);
    let mut notes = List::of(Vec::new(alloc));
    for i in 0..entries.len() {
        let Some(note) = own_entry(alloc, &mut calls, &mut set, entries.at(i).part)? else {
            return Err(ReplayStop::NotAllowed { index: i });
        };
        notes.push(note)?;
    }
    Ok(ReplayedSet {
        last: final_of(alloc, set)?,
        notes,
    })
}

/// Replays the turns of the lock of the global set in the same way. A turn takes the time of what it tells.
pub fn replay_global(
    alloc: Global,
    shape: &Shape,
    entries: &Entries,
) -> Result<ReplayedSet, ReplayStop>
    requires shape { IsShape shape.now }
    // as it is in a well-shaped record
    requires below { All (λ (entry : entry_record.Entry). FlushesBelow shape.now.elements entry.part) entries.now }
    ensures { MatchResult result
        (IsReplayedSet shape.now locks.Global in_global entries.now)
        (StopsAt shape.now locks.Global entries.now) }
{
    let (mut set, mut marks) = opening_global(alloc, shape)?;
    let mut calls = Calls::empty(alloc);
    let mut notes = List::of(Vec::new(alloc));
    for i in 0..entries.len() {
        let part = entries.at(i).part;
        let Some(note) = global_entry(alloc, &mut calls, &mut set, &mut marks, part)? else {
            return Err(ReplayStop::NotAllowed { index: i });
        };
        notes.push(note)?;
    }
    Ok(ReplayedSet {
        last: final_of(alloc, set)?,
        notes,
    })
}

/// The list set that lies under a lock at first.
fn opening_set(
    alloc: Global,
    shape: &Shape,
    lock: DomainId,
) -> Result<ListSet<LinkedRows>, NoMemory>
    requires { IsShape shape.now }
    ensures { IfOk result (Opens shape.now.elements (opening_free shape.now lock)) }
{
    let free = first_free(alloc, shape, lock)?;
    set_with(alloc, shape.elements, free.as_slice())
}

/// The global set as it lies there at first, with marks of its free elements.
fn opening_global(
    alloc: Global,
    shape: &Shape,
) -> Result<(ListSet<LinkedRows>, Vec<bool>), NoMemory>
    requires { IsShape shape.now }
    ensures { IfOk result (λ opened. Opens shape.now.elements (opening_free shape.now locks.Global) opened.0
        × AreMarksOf (opening_free shape.now locks.Global) shape.now.elements opened.1.items) }
{
    let free = first_free(alloc, shape, DomainId::Global)?;
    let set = set_with(alloc, shape.elements, free.as_slice())?;
    let marks = marks_of(alloc, shape.elements, free.as_slice())?;
    Ok((set, marks))
}

/// What is free under a lock at first, the head first.
fn first_free(alloc: Global, shape: &Shape, lock: DomainId) -> Result<Numbers, NoMemory>
    requires { IsShape shape.now }
    ensures { IfOk result (λ free. free ≡ opening_free shape.now lock) }
{
    let owners = owners_at_first(alloc, shape)?;
    free_at_first(alloc, shape, owners.as_slice(), lock)
}

/// Marks of elements below a bound: of these.
fn marks_of(alloc: Global, elements: u32, free: &[u32]) -> Result<Vec<bool>, NoMemory>
    requires once { (e : ℕ) → times e free.now ≤ 1 }
    requires below { (e : ℕ) → IsIn e free.now → e < elements }
    ensures { IfOk result (λ marks. AreMarksOf free.now elements marks.items) }
{
    let mut marks = no_marks(alloc, elements)?;
    for i in 0..free.len() {
        marks[free[i] as usize] = true;
    }
    Ok(marks)
}

/// Marks of elements below a bound: of none.
fn no_marks(alloc: Global, elements: u32) -> Result<Vec<bool>, NoMemory>
    ensures { IfOk result (λ marks. marks.items ≡ replicate elements false) }
{
    Ok(vec![in alloc; false; elements as usize]?)
}

/// A set in which nothing is listed and these elements are free, the head first.
fn set_with<S: Rows>(alloc: Global, elements: u32, free: &[u32]) -> Result<ListSet<S>, NoMemory>
    requires once { (e : ℕ) → times e free.now ≤ 1 }
    requires below { (e : ℕ) → IsIn e free.now → e < elements }
    ensures { IfOk result (Opens elements free.now) }
{
    let mut set = ListSet::create(alloc, elements)?;
    let mut left = free.len();
    while left > 0 {
        left -= 1;
        let body = BoxedBody::create(alloc, free[left], 0, 0, 0)?;
        set.free_push(body);
    }
    Ok(set)
}

/// What lies in a set, as the end of a run tells it.
fn final_of<S: Rows>(alloc: Global, set: ListSet<S>) -> Result<SetFinal, NoMemory>
    ensures { IfOk result (λ last. last ≡ final_set (set_of set)) }
{
    let active = set.rows(ListName::Active).elements(alloc)?;
    let inactive = set.rows(ListName::Inactive).elements(alloc)?;
    let cursor = set.cursor();
    let free = free_of(alloc, set)?;
    Ok(SetFinal {
        active,
        inactive,
        free,
        cursor,
    })
}

/// The free elements of a set, the head first.
fn free_of<S: Rows>(alloc: Global, mut set: ListSet<S>) -> Result<Numbers, NoMemory>
    ensures { IfOk result (λ free. free ≡ numbers set.free.bodies) }
{
    let mut free = Vec::new(alloc);
    while let Some(body) = set.free_pop() {
        free.push(body.body().element())?;
    }
    Ok(Numbers::of(free))
}
