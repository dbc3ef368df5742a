//! The locks that are taken for a turn.

ghost use Rattle.std.specs.Prelude.{◌≡◌, ◌<◌, ◌++◌, ℕ, List, [], ◌∷◌, IfOk, length};
ghost use Rattle.place_words.specs.Interleaving.{Drawn, tickets_of};
ghost use Rattle.step_check.specs.Answers.{view_of};
ghost use Rattle.step_check.specs.Begun.{AreBegun, AreTurns, HasTaken, around_in, turn_in, turns_of};
ghost use Rattle.step_check.specs.WordsView.{AreWords};

use crate::locks::take;
use crate::places::{TurnPlace, entry_at, lock_at};
use crate::words::Kept;
use map_types::NoMemory;
use place_words::LockHistory;

/// The turns of a record, in the order of their tickets.
#[derive(Drop)]
pub(crate) struct Turns {
    /// Where each stands.
    pub(crate) places: Vec<TurnPlace>,
    /// The ticket of the innermost turn that encloses it, where one does.
    pub(crate) outer: Vec<Option<usize>>,
}

/// Takes the locks of the turns that enclose the one of a ticket, outermost first, as far as these turns haven't begun. Locks are taken
/// in the order of their ranks, so no turn lies in more than three others.
pub(crate) fn take_around(
    kept: &mut Kept,
    histories: &[LockHistory],
    turns: &Turns,
    begun: &mut [bool],
    ticket: usize,
) -> Result<bool, NoMemory>
    requires words { AreWords (view_of kept.old) }
    requires turns { AreTurns histories.now turns.now }
    requires within { ticket < length turns.now.places.items }
    requires bits { length begun.old ≡ length turns.now.places.items }
    ensures words { IfOk result (λ answer. AreWords (view_of kept.new)) }
    ensures shape { IfOk result (λ answer. kept.new.shape ≡ kept.old.shape) }
    ensures taken { IfOk result (λ answer. (before : List ℕ) → AreBegun before begun.old
        → HasTaken before (tickets_of (around_in (turns_of histories.now turns.now) ticket) ++ before)
        (around_in (turns_of histories.now turns.now) ticket) (view_of kept.old) (view_of kept.new) begun.new answer) }
{
    let Some(outer) = turns.outer[ticket] else {
        return Ok(true);
    };
    let around = take_around(kept, histories, turns, begun, outer)?;
    if !around {
        return Ok(false);
    }
    let taken = take_one(kept, histories, turns, begun, outer)?;
    Ok(taken)
}

/// Takes the lock of a turn, where it hasn't begun.
pub(crate) fn take_one(
    kept: &mut Kept,
    histories: &[LockHistory],
    turns: &Turns,
    begun: &mut [bool],
    ticket: usize,
) -> Result<bool, NoMemory>
    requires words { AreWords (view_of kept.old) }
    requires turns { AreTurns histories.now turns.now }
    requires within { ticket < length turns.now.places.items }
    requires bits { length begun.old ≡ length turns.now.places.items }
    ensures words { IfOk result (λ answer. AreWords (view_of kept.new)) }
    ensures shape { IfOk result (λ answer. kept.new.shape ≡ kept.old.shape) }
    ensures taken { IfOk result (λ answer. (before : List ℕ) → AreBegun before begun.old
        → HasTaken before (ticket ∷ before) (turn_in (turns_of histories.now turns.now) ticket ∷ [])
        (view_of kept.old) (view_of kept.new) begun.new answer) }
{
    if begun[ticket] {
        return Ok(true);
    }
    begun[ticket] = true;
    let place = turns.places[ticket];
    let taken = take(
        kept,
        entry_at(histories, place).cpu,
        lock_at(histories, place),
    )?;
    Ok(taken)
}
