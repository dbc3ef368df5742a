//! Which pushes found their element gone from pending since a refill had flushed it.

ghost use Rattle.std.specs.Prelude.{◌≡◌, ◌+◌, ◌<◌, ◌≤◌, ◌==◌, ℕ, All, IfOk, false, filter, if◌then◌else◌, length, map, slice_index_or, true};
ghost use Rattle.std.specs.List.Sorted.{IsNonDecreasingBy, IsPermutation};
ghost use Rattle.place_words.specs.Entries.{part_read};
ghost use Rattle.place_words.specs.Takings.{ends_flushed, flushed_by, flushed_by_local, has_visit, is_one, stolen_pending};
ghost use Rattle.call_check.specs.Moved.{AreGoneBelow, IsPlaced, MovedTo, entry_of, gone_by, gone_by_local, placed, told_by, were_gone};

use map_types::NoMemory;
use place_words::{Entries, LocalPart, PartAt, Stolen, Visit};
use std::alloc::Global;

/// A turn of a lock: its ticket, and where its history has it.
#[derive(Clone, Copy)]
pub(crate) struct Ticketed {
    pub(crate) ticket: u64,
    pub(crate) place: usize,
}

/// Of each turn of a lock whether it is a push that found its element gone since a refill had flushed it.
pub(crate) fn were_gone(
    alloc: Global,
    elements: u32,
    entries: &Entries,
) -> Result<Vec<bool>, NoMemory>
    requires { AreGoneBelow elements entries.now }
    ensures { IfOk result (λ gone. gone.items ≡ were_gone entries.now) }
{
    let order = by_ticket(alloc, entries)?;
    let mut table = none_set(alloc, elements as usize)?;
    let mut gone = none_set(alloc, entries.len())?;
    let mut moved = 0;
    for at in 0..order.len() {
        moved = catch_up(&mut table, entries, order.as_slice(), moved, at);
        let place = order[at].place;
        gone[place] = told_by(table.as_slice(), gone_by(entries.at(place).part));
    }
    Ok(gone)
}

/// So many that are not set.
fn none_set(alloc: Global, count: usize) -> Result<Vec<bool>, NoMemory>
    ensures size { IfOk result (λ unset. length unset.items ≡ count) }
    ensures none { IfOk result (λ unset. (n : ℕ) → slice_index_or unset.items n false ≡ false) }
{
    Ok(vec![in alloc; false; count]?)
}

/// Notes what the turns moved that have a lesser ticket than the one at a place, and answers how many these are.
fn catch_up(
    table: &mut Vec<bool>,
    entries: &Entries,
    order: &[Ticketed],
    moved: usize,
    at: usize,
) -> usize
    requires rise { IsNonDecreasingBy (λ turn. turn.ticket) order.now }
    requires places { All (IsPlaced entries.now) order.now }
    requires at { at < length order.now }
    requires before { MovedTo (length table.old.items) entries.now order.now at moved table.old.items }
    ensures size { length table.new.items ≡ length table.old.items }
    ensures within { result ≤ at }
    ensures now { MovedTo (length table.old.items) entries.now order.now (at + 1) result table.new.items }
{
    if order[moved].ticket < order[at].ticket {
        move_all(table, entries, &order[moved..at]);
        at
    } else {
        moved
    }
}

/// The turns of a lock by their tickets; those of one ticket stay in the order of its history.
fn by_ticket(alloc: Global, entries: &Entries) -> Result<Vec<Ticketed>, NoMemory>
    ensures rise { IfOk result (λ order. IsNonDecreasingBy (λ turn. turn.ticket) order.items) }
    ensures same { IfOk result (λ order. (ticket : ℕ) → filter (λ turn. turn.ticket == ticket) order.items ≡ filter (λ turn. turn.ticket == ticket) (placed entries.now)) }
    ensures all { IfOk result (λ order. IsPermutation (placed entries.now) order.items) }
{
    let mut order = turns_placed(alloc, entries)?;
    order.sort_by_key(|turn| turn.ticket)?;
    Ok(order)
}

/// The turns of a lock in the order of its history.
fn turns_placed(alloc: Global, entries: &Entries) -> Result<Vec<Ticketed>, NoMemory>
    ensures { IfOk result (λ turns. turns.items ≡ placed entries.now) }
{
    let mut turns = Vec::new(alloc);
    for place in 0..entries.len() {
        turns.push(Ticketed {
            ticket: entries.at(place).ticket,
            place,
        })?;
    }
    Ok(turns)
}

/// The element that a push found gone.
fn gone_by(part: PartAt<'_>) -> Option<u32>
    ensures { result ≡ gone_by (part_read part.entry) }
{
    match part {
        PartAt::Local(packed) => match packed.part() {
            Ok(part) => gone_by_local(part),
            Err(part) => gone_by_local(&part),
        },
        _ => None,
    }
}

fn gone_by_local(part: &LocalPart) -> Option<u32>
    ensures { result ≡ gone_by_local part.now }
{
    match part {
        LocalPart::Push { element, done } => (!*done).then_some(*element),
        _ => None,
    }
}

/// What the table tells of an element.
fn told_by(table: &[bool], element: Option<u32>) -> bool
    ensures { result ≡ told_by table.now element }
{
    match element {
        Some(element) => is_set(table, element),
        None => false,
    }
}

fn is_set(table: &[bool], element: u32) -> bool
    ensures { result ≡ slice_index_or table.now element false }
{
    match table.get(element as usize) {
        Some(set) => *set,
        None => false,
    }
}

/// Notes who moved elements last, for these turns one after another.
fn move_all(table: &mut Vec<bool>, entries: &Entries, order: &[Ticketed])
    requires { All (IsPlaced entries.now) order.now }
    ensures size { length table.new.items ≡ length table.old.items }
    ensures moved { (e : ℕ) → e < length table.old.items → slice_index_or table.new.items e false
        ≡ ends_flushed e (slice_index_or table.old.items e false) (map (entry_of entries.now) order.now) }
{
    for at in order {
        move_by(table, entries.at(at.place).part);
    }
}

/// Notes which elements a turn moved.
fn move_by(table: &mut Vec<bool>, part: PartAt<'_>)
    ensures size { length table.new.items ≡ length table.old.items }
    ensures moved { (e : ℕ) → e < length table.old.items → slice_index_or table.new.items e false ≡ flushed_by e (part_read part.entry) (slice_index_or table.old.items e false) }
{
    match part {
        PartAt::Local(packed) => match packed.part() {
            Ok(part) => move_by_local(table, part),
            Err(part) => move_by_local(table, &part),
        },
        _ => {}
    }
}

fn move_by_local(table: &mut Vec<bool>, part: &LocalPart)
    ensures size { length table.new.items ≡ length table.old.items }
    ensures moved { (e : ℕ) → e < length table.old.items → slice_index_or table.new.items e false ≡ flushed_by_local e part.now (slice_index_or table.old.items e false) }
{
    match part {
        LocalPart::Pop { element, .. } => clear(table, Some(*element)),
        LocalPart::Refill { flushed, got, .. } => {
            clear(table, *got);
            mark_all(table, flushed.as_slice());
        }
        LocalPart::Steal { got, .. } => clear(table, stolen_pending(*got)),
        LocalPart::Add { element, .. } => clear(table, Some(*element)),
        LocalPart::Push { element, done } => clear(table, (*done).then_some(*element)),
    }
}

/// An element that was taken off pending.
fn stolen_pending(got: Stolen) -> Option<u32>
    ensures { result ≡ stolen_pending got }
{
    match got {
        Stolen::Pending(element) => Some(element),
        _ => None,
    }
}

/// This element was not flushed.
fn clear(table: &mut Vec<bool>, element: Option<u32>)
    ensures size { length table.new.items ≡ length table.old.items }
    ensures cleared { (e : ℕ) → e < length table.old.items → slice_index_or table.new.items e false ≡ (if is_one e element then false else slice_index_or table.old.items e false) }
{
    match element {
        Some(element) => write(table, element, false),
        None => {}
    }
}

/// These elements were flushed.
fn mark_all(table: &mut Vec<bool>, flushed: &[Visit])
    ensures size { length table.new.items ≡ length table.old.items }
    ensures marked { (e : ℕ) → e < length table.old.items → slice_index_or table.new.items e false ≡ (if has_visit e flushed.now then true else slice_index_or table.old.items e false) }
{
    for visit in flushed {
        write(table, visit.element, true);
    }
}

fn write(table: &mut Vec<bool>, element: u32, value: bool)
    ensures size { length table.new.items ≡ length table.old.items }
    ensures written { (e : ℕ) → e < length table.old.items → slice_index_or table.new.items e false ≡ (if element == e then value else slice_index_or table.old.items e false) }
{
    let place = element as usize;
    if place < table.len() {
        table[place] = value;
    }
}
