//! What is read and taken out of a table at its end.

ghost use Rattle.std.specs.Prelude.{◌≡◌, ◌⊎◌, ℕ, ◌+◌, ◌<◌, ◌≤◌, ◌++◌, ◌∷◌, Bool, true, false, List, Option, None, [], IfOk, OnOk, IsOk, filter, length, map, option_map, slice_index_or, take, vec_capacity};
ghost use Rattle.std.specs.List.{range_with_len};
ghost use Rattle.std.specs.Slots.{slots_items, slots_filled, slots_len, IsFull};
ghost use Rattle.map_types.specs.declared.attr.Shape.{Shape};
ghost use Rattle.map_types.specs.Creation.{IsShape};
ghost use Rattle.map_types.specs.ElementLists.{one};
ghost use Rattle.place_words.specs.Locks.{lock_count, lock_named, first_bucket, first_freelist};
ghost use Rattle.place_table.specs.Closing.{has_lock};
ghost use Rattle.map_types.specs.declared.kind.DomainId.{DomainId};
ghost use Rattle.place_words.specs.declared.history.Entry.{Entry};
ghost use Rattle.place_words.specs.State.{is_bucket};
ghost use Rattle.place_words.specs.TurnLogs.{turns_at};
ghost use Rattle.place_table.specs.Leaving.{Logs, bodies_in, HasRoom, HasSizedBodies, IsCount, IsHistory, IsSlotHistory, HaveHistories, AreApart, AreCounts, AreKept, AreTaken, HaveTurnsFrom, IsEmptied, TellTurns};

use crate::body_copies::bucket_copy;
use crate::content::{Behind, Content, SlotTurns};
use crate::lists_left::{ListsLeft, lists_left};
use crate::turn_places::{places_of, starts_of};
use map_types::{DomainId, List, NoMemory, Numbers, Shape};
use place_words::{Entries, Kept, LockHistory, LoggedTurn, TurnLogs, is_lock, lock_named};
use std::alloc::{AllocError, Global};
use std::mem;
use std::sync::Arc;

/// The elements whose bit is set, where their words begin here.
pub(crate) fn marked_in(
    alloc: Global,
    closed: &atomic_table::Closed<Behind, Global>,
    first: usize,
    elements: u32,
) -> Result<Numbers, NoMemory>
    requires full { IsFull closed.now.words }
    requires within { first + elements ≤ slots_len closed.now.words }
    ensures { (bit : ℕ → Bool)
        → ((e : ℕ) → e < elements
        → slice_index_or (slots_items closed.now.words) (first + e) 0 ≡ one (bit e))
        → IfOk result (λ marked. marked ≡ filter bit (range_with_len 0 elements)) }
{
    let mut marked = Vec::new(alloc);
    for element in 0..elements {
        if closed.word(first + element as usize) == 1 {
            marked.push(element)?;
        }
    }
    Ok(List::of(marked))
}

/// The histories whose record isn't lost, and whether one is.
#[derive(Drop)]
pub(crate) struct Histories {
    pub(crate) kept: Vec<LockHistory>,
    pub(crate) lost: bool,
}

impl Histories {
    /// Keeps the history of a lock, or that it is lost.
    fn keep(&mut self, lock: DomainId, history: Option<Entries>)
        requires room { length self.old.kept.items < vec_capacity self.old.kept }
        ensures kept { (shape : Shape) (log : Logs) (lost : ℕ → Bool) (n : ℕ)
            → lock ≡ lock_named shape n → has_lock shape n ≡ true
            → IsHistory (lost n) (log n) history
            → AreKept shape log lost n self.old.kept.items self.old.lost
            → AreKept shape log lost (n + 1) self.new.kept.items self.new.lost }
        ensures capacity { vec_capacity self.new.kept ≡ vec_capacity self.old.kept }
        ensures longer { length self.new.kept.items ≤ length self.old.kept.items + 1 }
    {
        let Some(entries) = history else {
            self.lost = true;
            return;
        };
        self.kept.push_reserved(LockHistory { lock, entries });
    }

    /// Keeps the history of a lock, if the map has the lock, or that it is lost.
    fn keep_numbered(&mut self, shape: &Shape, number: u32, history: Option<SlotTurns>)
        requires shape { IsShape shape.now }
        requires room { length self.old.kept.items < vec_capacity self.old.kept }
        ensures kept { (log : Logs) (lost : ℕ → Bool)
            → (has_lock shape.now number ≡ true → is_bucket (lock_named shape.now number) ≡ false
            × IsSlotHistory (lock_named shape.now number) (lost number) (log number) history)
            → AreKept shape.now log lost number self.old.kept.items self.old.lost
            → AreKept shape.now log lost (number + 1) self.new.kept.items self.new.lost }
        ensures capacity { vec_capacity self.new.kept ≡ vec_capacity self.old.kept }
        ensures longer { length self.new.kept.items ≤ length self.old.kept.items + 1 }
    {
        let lock = lock_named(shape, number);
        if !is_lock(shape, lock) {
            return;
        }
        self.keep(lock, entries_here(history));
    }
}

/// The turns that lie in a slot.
fn entries_here(history: Option<SlotTurns>) -> Option<Entries>
    ensures { (lock : DomainId) (lost : Bool) (log : List Entry) → is_bucket lock ≡ false
        → IsSlotHistory lock lost log history → IsHistory lost log result }
{
    match history {
        Some(SlotTurns::Here(entries)) => Some(Box::into_inner(entries)),
        _ => None,
    }
}

/// How many turns of a bucket are logged, none where its record is lost.
fn turns_counted(history: &Option<SlotTurns>) -> Option<u32>
    ensures { (lock : DomainId) (lost : Bool) (log : List Entry) → is_bucket lock ≡ true
        → IsSlotHistory lock lost log history.now → IsCount lost log result }
{
    match history {
        Some(SlotTurns::Logged(count)) => Some(*count),
        _ => None,
    }
}

/// What comes out of the slots: until the lists are told what lay under the locks before the buckets, copies of the buckets and how many
/// turns of each are logged, what lay under the locks behind them and, until histories are made of it, what was kept of their turns; and
/// the histories that are made so far, at first those of the locks before the buckets.
#[derive(Drop)]
pub(crate) struct Emptied {
    pub(crate) lists: Vec<Option<Content>>,
    pub(crate) buckets: Vec<List<Kept>>,
    pub(crate) counts: Vec<Option<u32>>,
    pub(crate) freelists: Vec<Option<Content>>,
    pub(crate) turns: Vec<Option<SlotTurns>>,
    pub(crate) histories: Histories,
}

/// Room for all that comes out of the slots of a map.
pub(crate) fn room_for(alloc: Global, shape: &Shape) -> Result<Emptied, NoMemory>
    requires shape { IsShape shape.now }
    ensures { IfOk result (λ emptied. HasRoom shape.now emptied) }
{
    let first_set = shape.cpus + 1;
    let first_bucket = first_set + shape.cpus;
    let count = first_bucket + shape.buckets + shape.cpus;
    Ok(Emptied {
        lists: Vec::with_capacity(alloc, first_bucket as usize)?,
        buckets: Vec::with_capacity(alloc, shape.buckets as usize)?,
        counts: Vec::with_capacity(alloc, shape.buckets as usize)?,
        freelists: Vec::with_capacity(alloc, shape.cpus as usize)?,
        turns: Vec::with_capacity(alloc, shape.cpus as usize)?,
        histories: Histories {
            kept: Vec::with_capacity(alloc, count as usize)?,
            lost: false,
        },
    })
}

/// Takes the slots whose numbers are from one up to another out, contents and histories apart. All slots before are empty. None
/// of them is a bucket's.
fn take_lists(
    shape: &Shape,
    closed: &mut atomic_table::Closed<Behind, Global>,
    contents: &mut Vec<Option<Content>>,
    histories: &mut Histories,
    first: u32,
    past: u32,
)
    requires shape { IsShape shape.now }
    requires within { (first ≤ past) × (past ≤ slots_len closed.old.slots)
        × (slots_len closed.old.slots ≡ lock_count shape.now) }
    requires no_buckets { (past ≤ first_bucket shape.now) ⊎ (first_freelist shape.now ≤ first) }
    requires before { AreTaken first (slots_filled closed.old.slots) }
    requires room { (contents.old.items ≡ []) × (past ≤ first + vec_capacity contents.old) }
    requires room_for_histories { (length histories.old.kept.items ≤ first)
        × (past ≤ vec_capacity histories.old.kept) }
    ensures contents { take past (map (λ behind. behind.content) (slots_items closed.old.slots))
        ≡ take first (map (λ behind. behind.content) (slots_items closed.old.slots))
        ++ contents.new.items }
    ensures histories { (log : Logs) (lost : ℕ → Bool)
        → HaveHistories shape.now log lost
        (map (λ behind. behind.history) (slots_items closed.old.slots))
        → AreKept shape.now log lost first histories.old.kept.items histories.old.lost
        → AreKept shape.now log lost past histories.new.kept.items histories.new.lost }
    ensures same { slots_items closed.new.slots ≡ slots_items closed.old.slots }
    ensures count { slots_len closed.new.slots ≡ slots_len closed.old.slots }
    ensures after { AreTaken past (slots_filled closed.new.slots) }
    ensures room { vec_capacity histories.new.kept ≡ vec_capacity histories.old.kept }
    ensures few { length histories.new.kept.items ≤ past }
{
    for slot in first..past {
        let Behind { content, history } = closed.take(slot as usize);
        contents.push_reserved(content);
        histories.keep_numbered(shape, slot, history);
    }
}

/// Takes the slots whose numbers are from one up to another out, contents and what is kept of their turns apart. All slots before are
/// empty.
fn take_behind(
    closed: &mut atomic_table::Closed<Behind, Global>,
    contents: &mut Vec<Option<Content>>,
    turns: &mut Vec<Option<SlotTurns>>,
    first: u32,
    past: u32,
)
    requires within { (first ≤ past) × (past ≤ slots_len closed.old.slots) }
    requires before { AreTaken first (slots_filled closed.old.slots) }
    requires room { (contents.old.items ≡ []) × (past ≤ first + vec_capacity contents.old) }
    requires room_for_turns { (turns.old.items ≡ []) × (past ≤ first + vec_capacity turns.old) }
    ensures contents { take past (map (λ behind. behind.content) (slots_items closed.old.slots))
        ≡ take first (map (λ behind. behind.content) (slots_items closed.old.slots))
        ++ contents.new.items }
    ensures turns { take past (map (λ behind. behind.history) (slots_items closed.old.slots))
        ≡ take first (map (λ behind. behind.history) (slots_items closed.old.slots))
        ++ turns.new.items }
    ensures many { first + length turns.new.items ≡ past }
    ensures count { slots_len closed.new.slots ≡ slots_len closed.old.slots }
    ensures after { AreTaken past (slots_filled closed.new.slots) }
{
    for slot in first..past {
        let Behind { content, history } = closed.take(slot as usize);
        contents.push_reserved(content);
        turns.push_reserved(history);
    }
}

/// Keeps the histories of locks from a number on, or that they are lost. None of them is a bucket's.
fn keep_turns(shape: &Shape, histories: &mut Histories, turns: Vec<Option<SlotTurns>>, first: u32)
    requires shape { IsShape shape.now }
    requires few { length histories.old.kept.items ≤ first }
    requires room { first + length turns.items ≤ vec_capacity histories.old.kept }
    requires within { first + length turns.items ≤ lock_count shape.now }
    ensures { (log : Logs) (lost : ℕ → Bool)
        → HaveTurnsFrom shape.now log lost first turns.items
        → AreKept shape.now log lost first histories.old.kept.items histories.old.lost
        → AreKept shape.now log lost
        (first + length turns.items) histories.new.kept.items histories.new.lost }
{
    let mut number = first;
    for history in turns {
        histories.keep_numbered(shape, number, history);
        number += 1;
    }
}

/// A copy of a bucket.
fn bucket_left(
    alloc: Global,
    shape: &Shape,
    content: &Option<Content>,
) -> Result<List<Kept>, NoMemory>
    requires sized { HasSizedBodies shape.now content.now }
    ensures { IfOk result (λ bucket. bucket ≡ bodies_in content.now) }
{
    match content {
        Some(Content::Bucket(chain)) => bucket_copy(alloc, shape, chain),
        _ => Ok(List::of(Vec::new(alloc))),
    }
}

/// Adds a copy of a bucket, unless memory wasn't found before.
fn add_bucket(
    copied: Result<(), NoMemory>,
    alloc: Global,
    shape: &Shape,
    content: &Option<Content>,
    buckets: &mut Vec<List<Kept>>,
) -> Result<(), NoMemory>
    requires sized { HasSizedBodies shape.now content.now }
    requires room { length buckets.old.items < vec_capacity buckets.old }
    ensures added { OnOk result (IsOk copied
        × (buckets.new.items ≡ buckets.old.items ++ bodies_in content.now ∷ [])) }
    ensures capacity { vec_capacity buckets.new ≡ vec_capacity buckets.old }
    ensures longer { length buckets.new.items ≤ length buckets.old.items + 1 }
{
    copied?;
    buckets.push_reserved(bucket_left(alloc, shape, content)?);
    Ok(())
}

/// Takes the slots of the buckets out, and copies the buckets while memory is found. All slots before are empty. The bodies of the
/// buckets stay where they are.
fn take_buckets(
    alloc: Global,
    shape: &Shape,
    closed: &mut atomic_table::Closed<Behind, Global>,
    buckets: &mut Vec<List<Kept>>,
    counts: &mut Vec<Option<u32>>,
) -> Result<(), NoMemory>
    requires shape { IsShape shape.now }
    requires counted { slots_len closed.old.slots ≡ lock_count shape.now }
    requires before { AreTaken (first_bucket shape.now) (slots_filled closed.old.slots) }
    requires sized { (bucket : ℕ) → bucket < shape.now.buckets
        → HasSizedBodies shape.now
        (slice_index_or (map (λ behind. behind.content) (slots_items closed.old.slots))
        (first_bucket shape.now + bucket) None) }
    requires room { (buckets.old.items ≡ []) × (shape.now.buckets ≤ vec_capacity buckets.old) }
    requires room_for_counts { (counts.old.items ≡ []) × (shape.now.buckets ≤ vec_capacity counts.old) }
    ensures buckets { OnOk result
        (take (first_freelist shape.now)
        (map (λ behind. bodies_in behind.content) (slots_items closed.old.slots))
        ≡ take (first_bucket shape.now)
        (map (λ behind. bodies_in behind.content) (slots_items closed.old.slots))
        ++ buckets.new.items) }
    ensures counts { (log : Logs) (lost : ℕ → Bool)
        → HaveHistories shape.now log lost
        (map (λ behind. behind.history) (slots_items closed.old.slots))
        → AreCounts shape.now log lost shape.now.buckets counts.new.items }
    ensures counted { length counts.new.items ≡ shape.now.buckets }
    ensures same { slots_items closed.new.slots ≡ slots_items closed.old.slots }
    ensures count { slots_len closed.new.slots ≡ slots_len closed.old.slots }
    ensures after { AreTaken (first_freelist shape.now) (slots_filled closed.new.slots) }
{
    let first = 2 * shape.cpus as usize + 1;
    let mut copied = Ok(());
    for bucket in 0..shape.buckets {
        let Behind { content, history } = closed.take(first + bucket as usize);
        counts.push_reserved(turns_counted(&history));
        copied = add_bucket(copied, alloc, shape, &content, buckets);
        // Its bodies stay where they are: a run ends soon, and the system takes back all memory at once.
        mem::forget(content);
    }
    copied
}

/// Keeps the histories of the buckets, whose turns stand in the logs of the strands, or that they are lost.
fn keep_logged(
    alloc: Global,
    counts: &[Option<u32>],
    logs: Vec<Vec<LoggedTurn>>,
    histories: &mut Histories,
) -> Result<(), NoMemory>
    requires room { length histories.old.kept.items + length counts.now ≤ vec_capacity histories.old.kept }
    ensures kept { (shape : Shape) (log : Logs) (lost : ℕ → Bool)
        → AreCounts shape log lost shape.buckets counts.now → TellTurns shape log lost logs.items
        → AreKept shape log lost (first_bucket shape) histories.old.kept.items histories.old.lost
        → OnOk result (AreKept shape log lost
        (first_freelist shape) histories.new.kept.items histories.new.lost) }
    ensures capacity { vec_capacity histories.new.kept ≡ vec_capacity histories.old.kept }
    ensures longer { length histories.new.kept.items ≤ length histories.old.kept.items + length counts.now }
{
    if counts.len() > u32::MAX as usize {
        return Err(AllocError.into());
    }
    let starts = starts_of(alloc, counts)?;
    let places = places_of(alloc, counts, starts.as_slice(), logs.as_slice())?;
    let logs = Arc::new(alloc, TurnLogs { logs, places })?;
    for bucket in 0..counts.len() {
        let history = logged_at(&logs, starts[bucket], counts[bucket])?;
        histories.keep(DomainId::Bucket(bucket as u32), history);
    }
    Ok(())
}

/// The turns of a bucket in the logs, so many from one place on, or none where their record is lost.
fn logged_at(
    logs: &Arc<TurnLogs>,
    first: usize,
    count: Option<u32>,
) -> Result<Option<Entries>, NoMemory>
    ensures { IfOk result (λ entries. entries
        ≡ option_map (turns_at logs.now.value first) count) }
{
    let Some(count) = count else {
        return Ok(None);
    };
    let logs = Arc::try_clone(logs)?;
    Ok(Some(Entries::logged(logs, first, count as usize)))
}

/// Takes all slots out, and copies the buckets while memory is found. The lists are told before buckets are copied, so that the memory
/// of their rows is given back before more is asked for.
pub(crate) fn empty_out(
    alloc: Global,
    shape: &Shape,
    closed: &mut atomic_table::Closed<Behind, Global>,
    emptied: &mut Emptied,
) -> Result<ListsLeft, NoMemory>
    requires shape { IsShape shape.now }
    requires full { IsFull closed.old.slots × (slots_len closed.old.slots ≡ lock_count shape.now) }
    requires sized { (bucket : ℕ) → bucket < shape.now.buckets
        → HasSizedBodies shape.now
        (slice_index_or (map (λ behind. behind.content) (slots_items closed.old.slots))
        (first_bucket shape.now + bucket) None) }
    requires room { HasRoom shape.now emptied.old }
    ensures apart { IfOk result (λ left. AreApart shape.now
        (map (λ behind. behind.content) (slots_items closed.old.slots))
        left emptied.new.freelists.items emptied.new.buckets.items) }
    ensures emptied { IsEmptied shape.now
        (map (λ behind. behind.history) (slots_items closed.old.slots)) emptied.new }
    ensures empty { (k : ℕ) → k < slots_len closed.new.slots
        → slice_index_or (slots_filled closed.new.slots) k false ≡ false }
{
    let first_set = shape.cpus + 1;
    let first_bucket = first_set + shape.cpus;
    let first_freelist = first_bucket + shape.buckets;
    let past = first_freelist + shape.cpus;
    let Emptied {
        lists,
        buckets,
        counts,
        freelists,
        turns,
        histories,
    } = emptied;
    take_lists(shape, closed, lists, histories, 0, first_bucket);
    let told = lists_left(alloc, shape, mem::replace(lists, Vec::new(alloc)));
    let copied = take_buckets(alloc, shape, closed, buckets, counts);
    take_behind(closed, freelists, turns, first_freelist, past);
    copied?;
    told
}

/// Keeps the histories of the buckets, whose turns stand in these logs, and of the locks behind them, or that they are lost.
pub(crate) fn keep_others(
    alloc: Global,
    shape: &Shape,
    emptied: &mut Emptied,
    logs: Vec<Vec<LoggedTurn>>,
) -> Result<(), NoMemory>
    requires shape { IsShape shape.now }
    requires emptied { (histories : List (Option SlotTurns)) × IsEmptied shape.now histories emptied.old }
    ensures kept { (histories : List (Option SlotTurns)) (log : Logs) (lost : ℕ → Bool)
        → IsEmptied shape.now histories emptied.old → HaveHistories shape.now log lost histories
        → TellTurns shape.now log lost logs.items
        → OnOk result (AreKept shape.now log lost
        (lock_count shape.now) emptied.new.histories.kept.items emptied.new.histories.lost) }
    ensures freelists { emptied.new.freelists.items ≡ emptied.old.freelists.items }
    ensures buckets { emptied.new.buckets.items ≡ emptied.old.buckets.items }
{
    let first_set = shape.cpus + 1;
    let first_bucket = first_set + shape.cpus;
    let first_freelist = first_bucket + shape.buckets;
    let Emptied {
        counts,
        turns,
        histories,
        ..
    } = emptied;
    keep_logged(alloc, counts.as_slice(), logs, histories)?;
    keep_turns(
        shape,
        histories,
        mem::replace(turns, Vec::new(alloc)),
        first_freelist,
    );
    Ok(())
}
