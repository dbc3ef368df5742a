//! Where the turns of a record stand, in the order of their tickets.

ghost use Rattle.std.specs.Prelude.{◌≡◌, ℕ, ◌++◌, ◌<◌, All, IfOk, IsPermutation, OnOk, filter, length, slice_index_or, replicate};
ghost use Rattle.std.specs.List.{range_with_len};
ghost use Rattle.place_words.specs.Entries.{entry_read};
ghost use Rattle.place_words.specs.Tickets.{all_entries, tickets_of};
ghost use Rattle.turn_order.specs.Ordered.{all_drawn};
ghost use Rattle.step_check.specs.Places.{AreInOrder, IsPlace, entry_at, has_ticket, history_at, last_of, places_in, turns_at};
ghost use Rattle.step_check.specs.declared.places.TurnPlace.{TurnPlace};

use map_types::{DomainId, NoMemory};
use place_words::{Entries, EntryAt, LockHistory};
use std::alloc::Global;

/// Where a turn stands: the number of its history, and its index there.
#[derive(Clone, Copy)]
pub(crate) struct TurnPlace {
    pub(crate) history: usize,
    pub(crate) index: usize,
}

/// The lock of a turn.
pub(crate) fn lock_at(histories: &[LockHistory], place: TurnPlace) -> DomainId
    requires { IsPlace histories.now place }
    ensures { result ≡ (history_at histories.now place).lock }
{
    histories[place.history].lock
}

/// The entry of a turn.
pub(crate) fn entry_at(histories: &[LockHistory], place: TurnPlace) -> EntryAt<'_>
    requires { IsPlace histories.now place }
    ensures { entry_read result ≡ entry_at histories.now place }
{
    histories[place.history].entries.at(place.index)
}

/// The places of all turns, in the order of their tickets, each of which was drawn once.
pub(crate) fn places_by_ticket(
    alloc: Global,
    histories: &[LockHistory],
) -> Result<Vec<TurnPlace>, NoMemory>
    requires { IsPermutation (range_with_len 0 (length (all_entries histories.now)))
        (tickets_of (all_entries histories.now)) }
    ensures { IfOk result (λ places. AreInOrder histories.now places.items) }
{
    let places = all_places(alloc, histories)?;
    let mut by_ticket = no_places(alloc, places.len())?;
    set_places(by_ticket.as_mut_slice(), histories, places.as_slice());
    Ok(by_ticket)
}

/// The places of all turns, history by history.
fn all_places(alloc: Global, histories: &[LockHistory]) -> Result<Vec<TurnPlace>, NoMemory>
    ensures named { IfOk result (λ places. turns_at histories.now places.items ≡ all_drawn histories.now) }
    ensures real { IfOk result (λ places. All (IsPlace histories.now) places.items) }
{
    let mut places = Vec::new(alloc);
    for number in 0..histories.len() {
        push_places(&mut places, number, &histories[number].entries)?;
    }
    Ok(places)
}

/// Adds those of the history of a number.
fn push_places(
    places: &mut Vec<TurnPlace>,
    history: usize,
    entries: &Entries,
) -> Result<(), NoMemory>
    ensures { OnOk result (places.new.items ≡ places.old.items ++ places_in history 0 entries.now) }
{
    for index in 0..entries.len() {
        places.push(TurnPlace { history, index })?;
    }
    Ok(())
}

/// So many places, of which none is set.
fn no_places(alloc: Global, count: usize) -> Result<Vec<TurnPlace>, NoMemory>
    ensures { IfOk result (λ places. length places.items ≡ count) }
{
    Ok(vec![in alloc; TurnPlace {
        history: 0,
        index: 0
    }; count]?)
}

/// Sets each of these places at the ticket of its turn.
fn set_places(by_ticket: &mut [TurnPlace], histories: &[LockHistory], places: &[TurnPlace])
    requires real { All (IsPlace histories.now) places.now }
    requires within { All (λ place. (entry_at histories.now place).ticket < length by_ticket.old) places.now }
    ensures { (ticket : ℕ) (none : TurnPlace) → slice_index_or by_ticket.new ticket none
        ≡ last_of (slice_index_or by_ticket.old ticket none) (filter (has_ticket histories.now ticket) places.now) }
{
    for place in places {
        let entry = entry_at(histories, *place);
        by_ticket[entry.ticket as usize] = *place;
    }
}
