//! The verdict on a record.

ghost use Rattle.std.specs.Prelude.{◌≡◌, IfOk, MatchBool};
ghost use Rattle.map_script.specs.WellFormed.{IsWellFormed};
ghost use Rattle.record_flaws.specs.PhaseFlaws.{ArePhasesRight};
ghost use Rattle.record_flaws.specs.StrandFlaws.{AreStrandsRight};
ghost use Rattle.record_shape.specs.WellShaped.{WellShaped};
ghost use Rattle.record_check.specs.Replayed.{Replays};
ghost use Rattle.map_report.specs.Record.{IsRecord};
ghost use Rattle.record_check.specs.Flaws.{AreCallsRight, AreContentsTold, AreFinalsRight, AreLegal, AreWhole};
ghost use Rattle.record_check.specs.Verdicts.{IsVerdict};

use crate::histories::{Replayed, replay_histories};
use crate::stop::HistoryStop;
use call_check::{call_flaw, last_spares};
use finals_check::{finals_whole, spares_told};
use map_report::RunRecord;
use map_script::Script;
use map_types::NoMemory;
use record_flaws::{Flaw, Verdict};
use record_order::ticket_flaw;
use record_parts::{phase_flaw, strand_flaw};
use std::alloc::{AllocError, Global};
use step_check::step_flaw;

/// Whether a well-shaped record is one of a run of the script, and its turns, in the order of their tickets, are a run of the core:
/// `Yes`, or `No` with the first flaw. What is wrong with it is asked in this order: a turn that isn't allowed in its lock's history,
/// a phase, a strand, a call's turns and reply, the finals, a ticket, a step of the core. Only want of memory is refused.
pub fn check_record(alloc: Global, script: &Script, kept: &RunRecord) -> Result<Verdict, NoMemory>
    requires script { IsWellFormed script.now }
    requires shaped { WellShaped script.now kept.now }
    ensures { IfOk result (IsVerdict script.now kept.now) }
{
    match replay_histories(alloc, &script.shape, kept) {
        Ok(replayed) => check_phases(alloc, script, kept, &replayed),
        Err(HistoryStop::NotAllowed { history, index }) => {
            let lock = kept.histories.as_slice()[history].lock;
            Ok(Verdict::No(Flaw::History {
                lock,
                index: index as u64,
            }))
        }
        Err(HistoryStop::NoMemory) => Err(AllocError.into()),
    }
}

/// The verdict on a record whose histories replay.
fn check_phases(
    alloc: Global,
    script: &Script,
    kept: &RunRecord,
    replayed: &Replayed,
) -> Result<Verdict, NoMemory>
    requires script { IsWellFormed script.now }
    requires shaped { WellShaped script.now kept.now }
    requires replayed { Replays script.now.shape kept.now replayed.now }
    ensures { IfOk result (IsVerdict script.now kept.now) }
{
    match phase_flaw(script, kept) {
        Some(phase) => Ok(Verdict::No(Flaw::Phase { phase })),
        None => check_strands(alloc, script, kept, replayed),
    }
}

/// The verdict on a record whose phases are right besides.
fn check_strands(
    alloc: Global,
    script: &Script,
    kept: &RunRecord,
    replayed: &Replayed,
) -> Result<Verdict, NoMemory>
    requires script { IsWellFormed script.now }
    requires shaped { WellShaped script.now kept.now }
    requires replayed { Replays script.now.shape kept.now replayed.now }
    requires phases { ArePhasesRight script.now kept.now }
    ensures { IfOk result (IsVerdict script.now kept.now) }
{
    match strand_flaw(alloc, script, kept)? {
        Some(index) => Ok(Verdict::No(Flaw::Strand {
            index: index as u64,
        })),
        None => check_calls(alloc, script, kept, replayed),
    }
}

/// The verdict on a record whose strands are right besides.
fn check_calls(
    alloc: Global,
    script: &Script,
    kept: &RunRecord,
    replayed: &Replayed,
) -> Result<Verdict, NoMemory>
    requires script { IsWellFormed script.now }
    requires shaped { WellShaped script.now kept.now }
    requires replayed { Replays script.now.shape kept.now replayed.now }
    requires phases { ArePhasesRight script.now kept.now }
    requires strands { AreStrandsRight script.now kept.now }
    ensures { IfOk result (IsVerdict script.now kept.now) }
{
    match call_flaw(alloc, script, kept, replayed.notes.as_slice())? {
        Some(place) => Ok(Verdict::No(Flaw::Call {
            call: place as u32 + 1,
        })),
        None => check_finals(alloc, script, kept, replayed.told),
    }
}

/// The verdict on a record whose calls are right besides.
fn check_finals(
    alloc: Global,
    script: &Script,
    kept: &RunRecord,
    told: bool,
) -> Result<Verdict, NoMemory>
    requires script { IsWellFormed script.now }
    requires shaped { WellShaped script.now kept.now }
    requires legal { AreLegal script.now kept.now.histories }
    requires phases { ArePhasesRight script.now kept.now }
    requires strands { AreStrandsRight script.now kept.now }
    requires calls { AreCallsRight script.now kept.now }
    requires told { AreContentsTold script.now kept.now told }
    ensures { IfOk result (IsVerdict script.now kept.now) }
{
    if !told {
        return Ok(Verdict::No(Flaw::Finals));
    }
    if are_finals_right(alloc, script, kept)? {
        check_tickets(alloc, script, kept)
    } else {
        Ok(Verdict::No(Flaw::Finals))
    }
}

/// Whether each element stands in one place at the end, and the spares are those that the calls left.
fn are_finals_right(alloc: Global, script: &Script, kept: &RunRecord) -> Result<bool, NoMemory>
    requires script { IsWellFormed script.now }
    requires shaped { WellShaped script.now kept.now }
    ensures { IfOk result (λ right. MatchBool right (AreWhole script.now kept.now) (AreWhole script.now kept.now → ⊥)) }
{
    let left = last_spares(alloc, script, kept.histories.as_slice())?;
    if !spares_told(&kept.finals, left.as_slice()) {
        return Ok(false);
    }
    finals_whole(alloc, &script.shape, &kept.finals)
}

/// The verdict on a record whose finals are right besides.
fn check_tickets(alloc: Global, script: &Script, kept: &RunRecord) -> Result<Verdict, NoMemory>
    requires script { IsWellFormed script.now }
    requires shaped { WellShaped script.now kept.now }
    requires legal { AreLegal script.now kept.now.histories }
    requires phases { ArePhasesRight script.now kept.now }
    requires strands { AreStrandsRight script.now kept.now }
    requires calls { AreCallsRight script.now kept.now }
    requires finals { AreFinalsRight script.now kept.now }
    ensures { IfOk result (IsVerdict script.now kept.now) }
{
    let flaw = ticket_flaw(
        alloc,
        &script.shape,
        kept.histories.as_slice(),
        kept.strands.as_slice(),
    )?;
    match flaw {
        Some(place) => Ok(Verdict::No(Flaw::Ticket {
            lock: place.lock,
            index: place.index,
        })),
        None => check_steps(alloc, script, kept),
    }
}

/// The verdict on a record of a run.
fn check_steps(alloc: Global, script: &Script, kept: &RunRecord) -> Result<Verdict, NoMemory>
    requires script { IsWellFormed script.now }
    requires shaped { WellShaped script.now kept.now }
    requires record { IsRecord script.now kept.now }
    ensures { IfOk result (IsVerdict script.now kept.now) }
{
    let histories = kept.histories.as_slice();
    match step_flaw(alloc, &script.shape, histories, script.calls.len() as u32)? {
        Some(ticket) => Ok(Verdict::No(Flaw::Step { ticket })),
        None => Ok(Verdict::Yes),
    }
}
