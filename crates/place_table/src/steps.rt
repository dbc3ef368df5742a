//! Single steps on the words of the table, by the seat of a pass.

ghost use Rattle.std.specs.Prelude.{◌≡◌, ℕ, List, [], ◌+◌, ◌*◌, ◌<◌, ◌^◌, ◌∷◌, ◌++◌, length, true, IsTrue, MatchBool, MatchOption, IfSome, IfNone, Option, Some, None};
ghost use Rattle.place_words.specs.declared.history.Entry.{Entry};
ghost use Rattle.atomic_table.specs.Table.{rest};
ghost use Rattle.map_types.specs.declared.kind.DomainId.TheVariants as locks;
ghost use Rattle.place_words.specs.Locks.{lock_count, lock_named, lock_number, is_lock};
ghost use Rattle.map_types.specs.ElementLists.{IsIn};
ghost use Rattle.place_words.specs.State.{rows};
ghost use Rattle.place_words.specs.StrandSteps.{steps_made};
ghost use Rattle.place_table.specs.declared.content.Behind.{Behind};
ghost use Rattle.place_table.specs.declared.content.Content.{Content};
ghost use Rattle.place_table.specs.declared.view.Hold.{Hold};
ghost use Rattle.place_words.specs.declared.history.Part as history;
ghost use Rattle.place_table.specs.declared.view.Notes.{Notes};
ghost use Rattle.place_table.specs.Views.{is_among, hold_at, is_in_hand_of, kept_step, split_from, split_off, joined, numbered_entry, ticket_of};
ghost use Rattle.place_table.specs.Nested.{MayTake};
ghost use Rattle.place_table.specs.Words.{word_count, owner_word, home_word, bit_word, ticket_word};
ghost use Rattle.place_table.specs.declared.view.Ticket.TheVariants.{Unread};
ghost use Rattle.place_table.specs.Plays.{MayClear, Took, MayGive, IsInnermost, GivesBack, GivesSome, entry_by, TakesTicket, SeesTicket, Marks, Clears, SeesBit, SeesOwner, SeesHome};
ghost use Rattle.place_table.specs.Recording.{IsLogged, Records, RecordsIn, entry_given, filled, history_with, recorded_step};
ghost use Rattle.place_table.specs.declared.content.SlotTurns.{SlotTurns};
ghost use Rattle.place_table.specs.Passes.{without_content};
ghost use Rattle.place_table.specs.TurnNotes.{NotesFit};

use crate::content::{Behind, Content, SlotTurns};
use crate::rule::{
    About, Caller, Clearing, Cut, Cutting, DrawingTicket, Giving, Losing, Marking, Merge, Merging,
    ReadingBit, ReadingHome, ReadingOwner, ReadingTicket, SeeingTicket, SharedTable, TableSeat,
    Trying, Turn,
};
use map_types::DomainId;
use place_words::{Entries, Entry, LoggedTurn, Part, StepBuffer, StrandStep};
use std::sync::Wait;
use std::{mem, thread};

/// Takes the lock of this number for a CPU, where nobody holds it.
pub(crate) fn try_lock(shared: &SharedTable, seat: &mut TableSeat, lock: u32, cpu: u32) -> bool
    requires table { seat.old.table_id ≡ shared.now.table_id }
    requires words { shared.now.table_id.words ≡ word_count shared.now.key }
    requires lock { (lock < lock_count shared.now.key)
        × IsTrue (is_lock shared.now.key (lock_named shared.now.key lock)) }
    requires cpu { is_among cpu seat.old.me.0.cpus ≡ true }
    requires unread { seat.old.me.0.ticket ≡ Unread }
    requires above { MayTake shared.now.key (lock_named shared.now.key lock) seat.old.me.0 }
    ensures seat { (seat.new.table_id ≡ seat.old.table_id) × (seat.new.id ≡ seat.old.id) }
    ensures took { MatchBool result (Took lock cpu seat.old.me seat.new.me)
        (seat.new.me ≡ seat.old.me) }
{
    shared.compare_exchange::<Trying>(seat, lock as usize, 0, cpu as u64 + 1) == 0
}

/// Waits for the lock of this number, and takes it for a CPU.
pub(crate) fn take_lock<R: Wait>(
    rt: &R,
    shared: &SharedTable,
    seat: &mut TableSeat,
    lock: u32,
    cpu: u32,
)
    requires table { seat.old.table_id ≡ shared.now.table_id }
    requires words { shared.now.table_id.words ≡ word_count shared.now.key }
    requires lock { (lock < lock_count shared.now.key)
        × IsTrue (is_lock shared.now.key (lock_named shared.now.key lock)) }
    requires cpu { is_among cpu seat.old.me.0.cpus ≡ true }
    requires unread { seat.old.me.0.ticket ≡ Unread }
    requires above { MayTake shared.now.key (lock_named shared.now.key lock) seat.old.me.0 }
    ensures seat { (seat.new.table_id ≡ seat.old.table_id) × (seat.new.id ≡ seat.old.id) }
    ensures took { Took lock cpu seat.old.me seat.new.me }
{
    for _ in rt.forever() {
        if try_lock(shared, seat, lock, cpu) {
            return;
        }
        thread::yield_now();
    }
    unreachable!()
}

/// Moves the content out of the slot that was taken last.
pub(crate) fn unload(shared: &SharedTable, seat: &mut TableSeat, lock: u32) -> Option<Content>
    requires table { seat.old.table_id ≡ shared.now.table_id }
    requires slot { (behind : Behind) × (seat.old.me.1 ≡ (lock, behind) ∷ rest seat.old.me.1) }
    ensures seat { (seat.new.table_id ≡ seat.old.table_id) × (seat.new.id ≡ seat.old.id) }
    ensures out { (behind : Behind) × (seat.old.me.1 ≡ (lock, behind) ∷ rest seat.old.me.1)
        × (result ≡ behind.content)
        × (seat.new.me ≡ (seat.old.me.0, (lock, without_content behind) ∷ rest seat.old.me.1)) }
{
    seat.slot_mut(shared, lock as usize).content.take()
}

/// Puts a content into the slot that was taken last, and records the turn there or in the log, and in the strand. Without a ticket the
/// turn has no entry, and the history is given up. The entry comes back where it isn't recorded.
#[inline(always)]
pub(crate) fn put_back(
    shared: &SharedTable,
    seat: &mut TableSeat,
    number: u32,
    content: Content,
    ticket: &Option<u64>,
    strand: &mut StepBuffer,
    log: &mut Vec<LoggedTurn>,
    lock: DomainId,
    entry: Entry,
) -> Option<Entry>
    requires table { seat.old.table_id ≡ shared.now.table_id }
    requires slot { (behind : Behind) × (seat.old.me.1 ≡ (number, behind) ∷ rest seat.old.me.1)
        × (behind.content ≡ None) }
    ensures seat { (seat.new.table_id ≡ seat.old.table_id) × (seat.new.id ≡ seat.old.id) }
    ensures put { (behind : Behind) × (history : Option SlotTurns)
        × (seat.old.me.1 ≡ (number, behind) ∷ rest seat.old.me.1)
        × Records (history_with ticket.now behind.history) log.old.items lock entry (steps_made strand.old)
        (steps_made strand.new) record { history = history; log = log.new.items; lost = result }
        × (seat.new.me
        ≡ (seat.old.me.0, (number, filled content history) ∷ rest seat.old.me.1)) }
{
    let behind = seat.slot_mut(shared, number as usize);
    fill(behind, content, ticket, strand, log, lock, entry)
}

/// Puts a content into the slot that was taken last, and gives up its history.
pub(crate) fn put_unrecorded(
    shared: &SharedTable,
    seat: &mut TableSeat,
    number: u32,
    content: Content,
)
    requires table { seat.old.table_id ≡ shared.now.table_id }
    requires slot { (behind : Behind) × (seat.old.me.1 ≡ (number, behind) ∷ rest seat.old.me.1) }
    ensures seat { (seat.new.table_id ≡ seat.old.table_id) × (seat.new.id ≡ seat.old.id) }
    ensures put { seat.new.me
        ≡ (seat.old.me.0, (number, filled content None) ∷ rest seat.old.me.1) }
{
    *seat.slot_mut(shared, number as usize) = Behind {
        content: Some(content),
        history: None,
    };
}

/// What stands in a slot, with the content that it lacked, and with the turn recorded.
#[inline(always)]
fn fill(
    behind: &mut Behind,
    content: Content,
    ticket: &Option<u64>,
    strand: &mut StepBuffer,
    log: &mut Vec<LoggedTurn>,
    lock: DomainId,
    entry: Entry,
) -> Option<Entry>
    requires { behind.old.content ≡ None }
    ensures content { behind.new.content ≡ Some content }
    ensures recorded { Records (history_with ticket.now behind.old.history) log.old.items lock entry (steps_made strand.old) (steps_made strand.new)
        record { history = behind.new.history; log = log.new.items; lost = result } }
{
    // Nothing lies there that would be dropped.
    mem::forget(mem::replace(&mut behind.content, Some(content)));
    if ticket.is_none() {
        behind.history = None;
        return Some(entry);
    }
    record_turn(strand, log, &mut behind.history, lock, entry)
}

/// The history with the entry, or the log with it, and the strand with its step. Where there was no history, or the turn can't be
/// recorded, there is none from then on, log and strand stay, and the entry comes back.
#[inline(always)]
fn record_turn(
    strand: &mut StepBuffer,
    log: &mut Vec<LoggedTurn>,
    history: &mut Option<SlotTurns>,
    lock: DomainId,
    entry: Entry,
) -> Option<Entry>
    ensures { Records history.old log.old.items lock entry (steps_made strand.old) (steps_made strand.new)
        record { history = history.new; log = log.new.items; lost = result } }
{
    let Some(turns) = history else {
        return Some(entry);
    };
    match record_in(strand, log, turns, lock, entry) {
        None => None,
        Some(entry) => {
            *history = None;
            Some(entry)
        }
    }
}

/// The turns with the entry behind them, or the log with it, and the strand with its step. Where it can't be recorded, log and strand
/// stay, and the entry comes back.
#[inline(always)]
fn record_in(
    strand: &mut StepBuffer,
    log: &mut Vec<LoggedTurn>,
    turns: &mut SlotTurns,
    lock: DomainId,
    entry: Entry,
) -> Option<Entry>
    ensures { MatchOption result (RecordsIn (Some turns.old) log.old.items (Some turns.new) lock entry (steps_made strand.old) (steps_made strand.new)
        record { history = Some turns.new; log = log.new.items; lost = None })
        (λ back. (back ≡ entry) × (log.new.items ≡ log.old.items)
        × (steps_made strand.new ≡ steps_made strand.old)) }
{
    match turns {
        SlotTurns::Here(entries) => record_here(strand, entries, lock, entry),
        SlotTurns::Logged(count) => record_logged(strand, log, count, lock, entry),
    }
}

/// The turns with the entry behind them, and the strand with its step. Where there is no memory for both, or the part is none of this
/// lock's, the strand stays, and the entry comes back.
#[inline(always)]
fn record_here(
    strand: &mut StepBuffer,
    entries: &mut Entries,
    lock: DomainId,
    entry: Entry,
) -> Option<Entry>
    ensures { MatchOption result ((entries.new ≡ entries.old ++ entry ∷ [])
        × (steps_made strand.new ≡ steps_made strand.old ++ recorded_step lock (length entries.old) ∷ []))
        (λ back. (back ≡ entry) × (steps_made strand.new ≡ steps_made strand.old)) }
{
    if strand.reserve_one().is_err() {
        return Some(entry);
    }
    let index = entries.len() as u64;
    match entries.push(entry) {
        Ok(()) => {
            strand.push_reserved(StrandStep { lock, index });
            None
        }
        Err(entry) => Some(entry),
    }
}

/// The log with the turn of a bucket, the strand with its step, and one turn more that is counted. Where there is no memory for
/// both, the turn is none of a bucket, or its bucket has had 2^32 - 1 turns, log and strand stay, and the entry comes back.
#[inline(always)]
fn record_logged(
    strand: &mut StepBuffer,
    log: &mut Vec<LoggedTurn>,
    count: &mut u32,
    lock: DomainId,
    entry: Entry,
) -> Option<Entry>
    ensures { MatchOption result
        (IsLogged log.old.items log.new.items count.old count.new lock entry (steps_made strand.old) (steps_made strand.new))
        (λ back. (back ≡ entry) × (log.new.items ≡ log.old.items)
        × (steps_made strand.new ≡ steps_made strand.old)) }
{
    let index = *count;
    if index == u32::MAX || strand.reserve_one().is_err() || log.reserve(1).is_err() {
        return Some(entry);
    }
    let Entry {
        ticket,
        cpu,
        call,
        part,
    } = entry;
    match (lock, part) {
        (DomainId::Bucket(bucket), Part::Bucket(part)) => {
            log.push_reserved(LoggedTurn {
                bucket,
                index,
                ticket,
                cpu,
                call,
                part,
            });
            // The lock is written out, so that its code is known to be a bucket's.
            strand.push_reserved(StrandStep {
                lock: DomainId::Bucket(bucket),
                index: index as u64,
            });
            *count = index + 1;
            None
        }
        (_, part) => Some(Entry {
            ticket,
            cpu,
            call,
            part,
        }),
    }
}

/// Draws the ticket of the turn of the lock that was taken last, which is still held. None where the ticket word has 2^63 or
/// more: at most one draw for each CPU follows a look, so the word never passes 2^63 + 15.
#[inline(always)]
pub(crate) fn take_ticket(shared: &SharedTable, seat: &mut TableSeat, word: usize) -> Option<u64>
    requires table { seat.old.table_id ≡ shared.now.table_id }
    requires words { (shared.now.table_id.words ≡ word_count shared.now.key)
        × (word ≡ ticket_word shared.now.key) }
    requires turn { (hold : Hold) × (below : List Hold) × IsInnermost seat.old.me.0 hold below }
    requires unread { seat.old.me.0.ticket ≡ Unread }
    ensures seat { (seat.new.table_id ≡ seat.old.table_id) × (seat.new.id ≡ seat.old.id) }
    ensures took { TakesTicket seat.old.me result seat.new.me }
{
    if shared.load::<ReadingTicket>(seat, word) < 1 << 63 {
        Some(shared.fetch_add::<DrawingTicket>(seat, word, 1))
    } else {
        None
    }
}

/// What the ticket word is.
pub(crate) fn read_ticket(shared: &SharedTable, seat: &mut TableSeat, word: usize) -> u64
    requires table { seat.old.table_id ≡ shared.now.table_id }
    requires words { (shared.now.table_id.words ≡ word_count shared.now.key)
        × (word ≡ ticket_word shared.now.key) }
    requires unread { seat.old.me.0.ticket ≡ Unread }
    ensures seat { (seat.new.table_id ≡ seat.old.table_id) × (seat.new.id ≡ seat.old.id) }
    ensures seen { SeesTicket seat.old.me result seat.new.me }
{
    shared.load::<SeeingTicket>(seat, word)
}

/// Gives back the lock that was taken last, with its slot.
#[inline(always)]
pub(crate) fn give_lock<N: Turn>(
    shared: &SharedTable,
    seat: &mut TableSeat,
    lock: u32,
    lost: &Option<Entry>,
    log: &Vec<LoggedTurn>,
    strand: &StepBuffer,
)
    requires table { seat.old.table_id ≡ shared.now.table_id }
    requires words { shared.now.table_id.words ≡ word_count shared.now.key }
    requires lock { (lock < lock_count shared.now.key)
        × IsTrue (is_lock shared.now.key (lock_named shared.now.key lock)) }
    requires turn { (N.entry
        ≡ numbered_entry seat.old.me.0 (entry_given lost.now log.now.items seat.old.me.1))
        × (N.kept ≡ steps_made strand.now) }
    requires may { (behind : Behind) × (slots : List (ℕ × Behind)) × (hold : Hold)
        × (below : List Hold) × (seat.old.me.1 ≡ (lock, behind) ∷ slots)
        × IsInnermost seat.old.me.0 hold below × (hold.lock ≡ lock)
        × MayGive shared.now.key seat.old.me.0 hold N.entry N.kept behind }
    ensures seat { (seat.new.table_id ≡ seat.old.table_id) × (seat.new.id ≡ seat.old.id) }
    ensures gave { GivesBack N.entry N.kept seat.old.me seat.new.me }
{
    // Only the clauses name these.
    let _ = lost;
    let _ = log;
    let _ = strand;
    shared.store::<Giving<N>>(seat, lock as usize, 0);
}

/// Gives back the lock that was taken last, with its slot, in which no history is left.
pub(crate) fn lose_lock<N: Caller>(
    shared: &SharedTable,
    seat: &mut TableSeat,
    lock: u32,
    cpu: u32,
    call: u32,
)
    requires table { seat.old.table_id ≡ shared.now.table_id }
    requires words { shared.now.table_id.words ≡ word_count shared.now.key }
    requires lock { (lock < lock_count shared.now.key)
        × IsTrue (is_lock shared.now.key (lock_named shared.now.key lock)) }
    requires caller { (N.cpu ≡ cpu) × (N.call ≡ call) }
    requires may { (behind : Behind) × (hold : Hold) × (below : List Hold) × (part : history.Part)
        × (notes : Notes) × (notes_below : List Notes)
        × (seat.old.me.1 ≡ (lock, behind) ∷ rest seat.old.me.1)
        × IsInnermost seat.old.me.0 hold below × (hold.lock ≡ lock)
        × MayGive shared.now.key seat.old.me.0 hold
        (entry_by (ticket_of seat.old.me.0) N.cpu N.call part) seat.old.me.0.kept behind
        × (seat.old.me.0.notes ≡ notes ∷ notes_below)
        × NotesFit shared.now.key seat.old.me.0 hold part notes }
    ensures seat { (seat.new.table_id ≡ seat.old.table_id) × (seat.new.id ≡ seat.old.id) }
    ensures gave { GivesSome N.cpu N.call seat.old.me seat.new.me }
{
    // Only the clauses name these.
    let _ = cpu;
    let _ = call;
    shared.store::<Losing<N>>(seat, lock as usize, 0);
}

/// Sets the bit of an element that lies in a bucket that is held.
pub(crate) fn set_bit<N: About>(
    shared: &SharedTable,
    seat: &mut TableSeat,
    element: u32,
    word: usize,
    bucket: u32,
)
    requires table { seat.old.table_id ≡ shared.now.table_id }
    requires words { (shared.now.table_id.words ≡ word_count shared.now.key)
        × (word ≡ bit_word shared.now.key element) }
    requires element { (element < shared.now.key.elements) × (N.element ≡ element) }
    requires bucket { (hold : Hold) × (bucket < shared.now.key.buckets)
        × (hold_at (lock_number shared.now.key (locks.Bucket bucket)) seat.old.me.0.held
        ≡ Some hold) × IsIn element hold.now.first }
    ensures seat { (seat.new.table_id ≡ seat.old.table_id) × (seat.new.id ≡ seat.old.id) }
    ensures marked { Marks element seat.old.me seat.new.me }
{
    // Only the clauses name these.
    let _ = bucket;
    let _ = element;
    shared.store::<Marking<N>>(seat, word, 1);
}

/// Clears the bit of an element in the hand of a CPU or on the lists of a lock that it holds, and answers what it was.
pub(crate) fn clear_bit<N: About>(
    shared: &SharedTable,
    seat: &mut TableSeat,
    element: u32,
    word: usize,
    cpu: u32,
) -> u64
    requires table { seat.old.table_id ≡ shared.now.table_id }
    requires words { (shared.now.table_id.words ≡ word_count shared.now.key)
        × (word ≡ bit_word shared.now.key element) }
    requires element { (element < shared.now.key.elements) × (N.element ≡ element) }
    requires hand { (is_among cpu seat.old.me.0.cpus ≡ true)
        × MayClear shared.now.key seat.old.me.0 cpu element }
    ensures seat { (seat.new.table_id ≡ seat.old.table_id) × (seat.new.id ≡ seat.old.id) }
    ensures cleared { Clears element seat.old.me result seat.new.me }
{
    // Only the clauses name these.
    let _ = cpu;
    let _ = element;
    shared.swap::<Clearing<N>>(seat, word, 0)
}

/// What the bit word of an element is.
pub(crate) fn read_bit<N: About>(
    shared: &SharedTable,
    seat: &mut TableSeat,
    element: u32,
    word: usize,
) -> u64
    requires table { seat.old.table_id ≡ shared.now.table_id }
    requires words { (shared.now.table_id.words ≡ word_count shared.now.key)
        × (word ≡ bit_word shared.now.key element) }
    requires element { (element < shared.now.key.elements) × (N.element ≡ element) }
    ensures seat { (seat.new.table_id ≡ seat.old.table_id) × (seat.new.id ≡ seat.old.id) }
    ensures seen { SeesBit element seat.old.me result seat.new.me }
{
    // Only the clauses name it.
    let _ = element;
    shared.load::<ReadingBit<N>>(seat, word)
}

/// What the owner word of an element is.
pub(crate) fn read_owner<N: About>(
    shared: &SharedTable,
    seat: &mut TableSeat,
    element: u32,
    word: usize,
) -> u64
    requires table { seat.old.table_id ≡ shared.now.table_id }
    requires words { (shared.now.table_id.words ≡ word_count shared.now.key)
        × (word ≡ owner_word shared.now.key element) }
    requires element { (element < shared.now.key.elements) × (N.element ≡ element) }
    requires unread { seat.old.me.0.ticket ≡ Unread }
    ensures seat { (seat.new.table_id ≡ seat.old.table_id) × (seat.new.id ≡ seat.old.id) }
    ensures seen { SeesOwner element seat.old.me result seat.new.me }
{
    // Only the clauses name it.
    let _ = element;
    shared.load::<ReadingOwner<N>>(seat, word)
}

/// What the home word of an element is.
pub(crate) fn read_home<N: About>(
    shared: &SharedTable,
    seat: &mut TableSeat,
    element: u32,
    word: usize,
) -> u64
    requires table { seat.old.table_id ≡ shared.now.table_id }
    requires words { (shared.now.table_id.words ≡ word_count shared.now.key)
        × (word ≡ home_word shared.now.key element) }
    requires element { (element < shared.now.key.elements) × (N.element ≡ element) }
    ensures seat { (seat.new.table_id ≡ seat.old.table_id) × (seat.new.id ≡ seat.old.id) }
    ensures seen { SeesHome element seat.old.me result seat.new.me }
{
    // Only the clauses name it.
    let _ = element;
    shared.load::<ReadingHome<N>>(seat, word)
}

/// Splits a CPU off to a new seat, at which all strands go on that end here.
pub(crate) fn cut_seat<N: Cut>(shared: &SharedTable, seat: &mut TableSeat, cpu: u32) -> TableSeat
    requires table { seat.old.table_id ≡ shared.now.table_id }
    requires words { 0 < shared.now.table_id.words }
    requires cpu { (is_among cpu seat.old.me.0.cpus ≡ true) × (N.cpu ≡ cpu) }
    requires idle { seat.old.me.0.held ≡ [] }
    ensures seat { (seat.new.table_id ≡ seat.old.table_id) × (seat.new.id ≡ seat.old.id)
        × (result.table_id ≡ seat.old.table_id) }
    ensures left { seat.new.me ≡ (split_from cpu seat.old.me.0, seat.old.me.1) }
    ensures right { result.me ≡ (split_off cpu seat.old.me.0, []) }
{
    // Only the clauses name it.
    let _ = cpu;
    shared.split_seat::<Cutting<N>>(seat)
}

/// Takes in another seat, which carries nothing.
pub(crate) fn merge_seat<N: Merge>(shared: &SharedTable, seat: &mut TableSeat, other: TableSeat)
    requires table { (seat.old.table_id ≡ shared.now.table_id)
        × (other.table_id ≡ shared.now.table_id) }
    requires words { 0 < shared.now.table_id.words }
    requires slots { other.me.1 ≡ [] }
    requires idle { (seat.old.me.0.held ≡ []) × (other.me.0.held ≡ []) }
    requires shape { N.shape ≡ other.me.0.shape }
    ensures seat { (seat.new.table_id ≡ seat.old.table_id) × (seat.new.id ≡ seat.old.id) }
    ensures joined { seat.new.me ≡ (joined seat.old.me.0 other.me.0, seat.old.me.1) }
{
    shared.join_seat::<Merging<N>>(seat, other);
}
