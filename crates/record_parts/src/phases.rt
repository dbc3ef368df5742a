//! The first phase of a record that isn't right.

ghost use Rattle.std.specs.Prelude.{◌≡◌, ◌≤◌, MatchBool, ◌∷◌, [], length};
ghost use Rattle.map_script.specs.WellFormed.{HasPhases};
ghost use Rattle.place_words.specs.Entries.{entry_read};
ghost use Rattle.place_words.specs.Phases.{phase_of};
ghost use Rattle.record_flaws.specs.First.{IsFirstWrong};
ghost use Rattle.record_parts.specs.PhaseTables.{IsLeastWrong};
ghost use Rattle.record_flaws.specs.PhaseFlaws.{IsRightEntry, IsRightHistory, IsRightPhase};
ghost use Rattle.record_parts.specs.PhaseTables.{IsOnTime, IsOpening};
ghost use Rattle.record_shape.specs.WellShaped.{StartsFit};

use map_report::{PhaseStart, RunRecord};
use map_script::Script;
use place_words::{Entries, EntryAt, LockHistory};

/// The first phase that isn't right: nothing was drawn and nothing marked at the start of the first one, and each entry of a call of
/// a phase has a ticket from that phase's start on, and before the start of the next one.
pub fn phase_flaw(script: &Script, kept: &RunRecord) -> Option<u32>
    requires script { HasPhases script.now.version (length script.now.calls) script.now.cuts }
    requires starts { StartsFit script.now kept.now.phases }
    ensures { IsFirstWrong (IsRightPhase script.now kept.now) (length kept.now.phases) result }
{
    let starts = kept.phases.as_slice();
    if !is_opening(&starts[0]) {
        return Some(0);
    }
    let histories = kept.histories.as_slice();
    let least = least_in_all(script.cuts.as_slice(), starts, histories, starts.len());
    if least < starts.len() {
        Some(least as u32)
    } else {
        None
    }
}

/// Whether nothing was drawn and nothing marked at the start of a phase.
fn is_opening(start: &PhaseStart) -> bool
    ensures { MatchBool result (IsOpening start.now) (IsOpening start.now → ⊥) }
{
    start.ticket == 0 && start.marked.is_empty()
}

/// The least of a number and the phases that aren't right by these histories.
fn least_in_all(
    cuts: &[u32],
    starts: &[PhaseStart],
    histories: &[LockHistory],
    first: usize,
) -> usize
    ensures { IsLeastWrong (IsRightHistory cuts.now starts.now) histories.now first result }
{
    let mut least = first;
    for history in histories {
        least = least_in(cuts, starts, &history.entries, least);
    }
    least
}

/// The least of a number and the phases that aren't right by these entries.
fn least_in(cuts: &[u32], starts: &[PhaseStart], entries: &Entries, first: usize) -> usize
    ensures { IsLeastWrong (IsRightEntry cuts.now starts.now) entries.now first result }
{
    let mut least = first;
    for index in 0..entries.len() {
        least = least_with(cuts, starts, entries.at(index), least);
    }
    least
}

/// The number, or the phase of the entry where that is less and the entry isn't in it.
fn least_with(cuts: &[u32], starts: &[PhaseStart], entry: EntryAt<'_>, first: usize) -> usize
    ensures { IsLeastWrong (IsRightEntry cuts.now starts.now) (entry_read entry.entry ∷ []) first result }
{
    let phase = phase_of(cuts, entry.call);
    if phase < first && !is_on_time(starts, phase, entry.ticket) {
        phase
    } else {
        first
    }
}

/// How many cuts are below the number of a call.
pub(crate) fn phase_of(cuts: &[u32], call: u32) -> usize
    ensures exact { result ≡ phase_of cuts.now call }
    ensures within { result ≤ length cuts.now }
{
    let mut phase = 0;
    for cut in cuts {
        if *cut < call {
            phase += 1;
        }
    }
    phase
}

/// Whether a ticket stands from the start of a phase on, and before the start of the next one.
fn is_on_time(starts: &[PhaseStart], phase: usize, ticket: u64) -> bool
    ensures { MatchBool result (IsOnTime starts.now phase ticket) (IsOnTime starts.now phase ticket → ⊥) }
{
    if phase >= starts.len() || ticket < starts[phase].ticket {
        return false;
    }
    let next = phase + 1;
    next >= starts.len() || ticket < starts[next].ticket
}
