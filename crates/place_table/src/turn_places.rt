//! Where the turns of each bucket stand in the logs of the strands that have ended.

ghost use Rattle.std.specs.Prelude.{◌≡◌, ◌<◌, ◌^◌, List, Some, Vec, IfOk, length, slice_get};
ghost use Rattle.std.specs.Global.{Global};
ghost use Rattle.place_words.specs.declared.turn_logs.LoggedTurn.{LoggedTurn};
ghost use Rattle.place_table.specs.TurnPlaces.{AreStarts, ArePlaced, turns_before, turns_in, with_place};

use map_types::NoMemory;
use place_words::{LoggedTurn, TurnPlace};
use std::alloc::{AllocError, Global};

/// Where the places of each bucket begin, which stand one bucket behind the other, and last where they end.
pub(crate) fn starts_of(alloc: Global, counts: &[Option<u32>]) -> Result<Vec<usize>, NoMemory>
    ensures { IfOk result (λ starts. AreStarts counts.now starts.items) }
{
    let mut starts = Vec::with_capacity(alloc, counts.len() + 1)?;
    let mut next: usize = 0;
    for count in counts {
        starts.push(next)?;
        next = match next.checked_add(count.unwrap_or(0) as usize) {
            Some(next) => next,
            None => return Err(AllocError.into()),
        };
    }
    starts.push(next)?;
    Ok(starts)
}

/// The places of the turns of all buckets.
pub(crate) fn places_of(
    alloc: Global,
    counts: &[Option<u32>],
    starts: &[usize],
    logs: &[Vec<LoggedTurn>],
) -> Result<Vec<TurnPlace>, NoMemory>
    requires { AreStarts counts.now starts.now }
    ensures many { IfOk result (λ places. length places.items
        ≡ turns_before counts.now (length counts.now)) }
    ensures placed { IfOk result
        (λ places. ArePlaced counts.now logs.now (length logs.now) 0 places.items) }
{
    let mut places = Vec::new(alloc);
    places.resize(starts[counts.len()], TurnPlace { log: 0, turn: 0 })?;
    for log in 0..logs.len() {
        if log > u32::MAX as usize || logs[log].len() > u32::MAX as usize {
            return Err(AllocError.into());
        }
        place_turns(
            &mut places,
            counts,
            starts,
            log as u32,
            logs[log].as_slice(),
        );
    }
    Ok(places)
}

/// Puts the turns of a log in their places.
fn place_turns(
    places: &mut Vec<TurnPlace>,
    counts: &[Option<u32>],
    starts: &[usize],
    log: u32,
    turns: &[LoggedTurn],
)
    requires starts { AreStarts counts.now starts.now }
    requires many { length places.old.items ≡ turns_before counts.now (length counts.now) }
    requires few { length turns.now < 2 ^ 32 }
    ensures many { length places.new.items ≡ length places.old.items }
    ensures placed { (logs : List (Vec LoggedTurn Global)) (here : Vec LoggedTurn Global)
        → slice_get logs log ≡ Some here → here.items ≡ turns.now
        → ArePlaced counts.now logs log 0 places.old.items
        → ArePlaced counts.now logs log (length turns.now) places.new.items }
{
    for turn in 0..turns.len() {
        place_turn(
            places,
            counts,
            starts,
            &turns[turn],
            TurnPlace {
                log,
                turn: turn as u32,
            },
        );
    }
}

/// Writes the place of a turn, if the turn is counted: where its bucket's places begin and end tells how many are.
fn place_turn(
    places: &mut Vec<TurnPlace>,
    counts: &[Option<u32>],
    starts: &[usize],
    turn: &LoggedTurn,
    place: TurnPlace,
)
    requires starts { AreStarts counts.now starts.now }
    requires many { length places.old.items ≡ turns_before counts.now (length counts.now) }
    ensures { places.new.items ≡ with_place counts.now turn.now place places.old.items }
{
    if (turn.index as usize) < places_of_bucket(counts, starts, turn.bucket) {
        places[starts[turn.bucket as usize] + turn.index as usize] = place;
    }
}

/// How many places a bucket has, none where no bucket of this number is counted.
fn places_of_bucket(counts: &[Option<u32>], starts: &[usize], bucket: u32) -> usize
    requires { AreStarts counts.now starts.now }
    ensures { result ≡ turns_in counts.now bucket }
{
    // Only the clauses name them.
    let _ = counts;
    let bucket = bucket as usize;
    if bucket + 1 < starts.len() {
        starts[bucket + 1].saturating_sub(starts[bucket])
    } else {
        0
    }
}
