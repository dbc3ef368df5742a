//! Whether the steps of a call, with its reply, are its trace.

ghost use Rattle.std.specs.Prelude.{◌≡◌, ◌<◌, IfOk, MatchBool, false, true};
ghost use Rattle.std.specs.List.{list_all};
ghost use Rattle.map_types.specs.Kind.{is_lru};
ghost use Rattle.place_words.specs.Locks.{is_lock};
ghost use Rattle.place_words.specs.StrandSteps.{row_read};
ghost use Rattle.map_script.specs.WellFormed.{IsCallOn, IsWellFormed};
ghost use Rattle.record_shape.specs.WellShaped.{WellShaped};
ghost use Rattle.call_check.specs.Judged.{AreTables, IsTraceOf, MayBeJudged};
ghost use Rattle.call_check.specs.PlainRows.{AreNamed, spare_at_step, spares_at};
ghost use Rattle.call_check.specs.RightCalls.{is_of_cpu};

use crate::changes::moment_of;
use crate::evicting_trace::is_evicting_trace;
use crate::judge::Tables;
use crate::spares::spare_before;
use map_report::RunRecord;
use map_script::Script;
use map_types::{Call, List, NoMemory, Reply};
use place_words::{StepRow, StrandStep};
use replay_words::Note;
use std::alloc::Global;
use trace_check::{Turns, read_call};

/// Whether these steps, with this reply, are a call's trace.
pub(crate) fn is_trace(
    alloc: Global,
    script: &Script,
    kept: &RunRecord,
    notes: &[List<Note>],
    tables: &Tables<'_>,
    call: &Call,
    reply: &Reply,
    row: StepRow<'_>,
) -> Result<bool, NoMemory>
    requires record { MayBeJudged script.now kept.now notes.now }
    requires tables { AreTables script.now kept.now tables.now.histories tables.now.spares.first.items tables.now.spares.changes.items tables.now.strand_of.items tables.now.late.items tables.now.gone.items }
    requires call { IsCallOn script.now.shape call.now }
    requires named { AreNamed script.now.shape kept.now.histories (row_read row) }
    requires its_cpu { list_all (is_of_cpu kept.now.histories call.now.cpu) (row_read row) ≡ true }
    ensures { IfOk result (λ is. MatchBool is (IsTraceOf script.now kept.now call.now reply.now (row_read row.entry))
        (IsTraceOf script.now kept.now call.now reply.now (row_read row.entry) → ⊥)) }
{
    if !script.shape.kind.is_lru() {
        let is = is_plain_trace(alloc, script, kept, tables, call, reply, row)?;
        return Ok(is);
    }
    let gone = tables.gone.as_slice();
    let histories = &tables.histories;
    let is = is_evicting_trace(
        alloc, script, kept, notes, gone, histories, call, reply, row,
    )?;
    Ok(is)
}

/// The same on a map that doesn't evict.
fn is_plain_trace(
    alloc: Global,
    script: &Script,
    kept: &RunRecord,
    tables: &Tables<'_>,
    call: &Call,
    reply: &Reply,
    row: StepRow<'_>,
) -> Result<bool, NoMemory>
    requires plain { is_lru script.now.shape.kind ≡ false }
    requires script { IsWellFormed script.now }
    requires shaped { WellShaped script.now kept.now }
    requires tables { AreTables script.now kept.now tables.now.histories tables.now.spares.first.items tables.now.spares.changes.items tables.now.strand_of.items tables.now.late.items tables.now.gone.items }
    requires call { IsCallOn script.now.shape call.now }
    requires named { AreNamed script.now.shape kept.now.histories (row_read row) }
    ensures { IfOk result (λ is. MatchBool is (IsTraceOf script.now kept.now call.now reply.now (row_read row.entry))
        (IsTraceOf script.now kept.now call.now reply.now (row_read row.entry) → ⊥)) }
{
    let spares = spares_at(alloc, script, kept, tables, call.cpu, row)?;
    let turns = Turns::of(&script.shape, kept.histories.as_slice(), row);
    match read_call(
        &script.shape,
        call.cpu,
        spares.as_slice(),
        &call.verb,
        reply,
        &turns,
    ) {
        Some(count) => Ok(count == row.len()),
        None => Ok(false),
    }
}

/// The spare that a CPU has before each of these steps.
fn spares_at(
    alloc: Global,
    script: &Script,
    kept: &RunRecord,
    tables: &Tables<'_>,
    cpu: u32,
    row: StepRow<'_>,
) -> Result<Vec<Option<u32>>, NoMemory>
    requires tables { AreTables script.now kept.now tables.now.histories tables.now.spares.first.items tables.now.spares.changes.items tables.now.strand_of.items tables.now.late.items tables.now.gone.items }
    requires cpu { cpu < script.now.shape.cpus }
    requires named { AreNamed script.now.shape kept.now.histories (row_read row) }
    ensures { IfOk result (λ spares. spares.items ≡ spares_at script.now.cuts script.now.shape kept.now.histories cpu (row_read row.entry)) }
{
    let mut spares = Vec::new(alloc);
    for place in 0..row.len() {
        spares.push(spare_at(script, kept, tables, cpu, row.at(place)))?;
    }
    Ok(spares)
}

/// The spare that a CPU has before a step.
fn spare_at(
    script: &Script,
    kept: &RunRecord,
    tables: &Tables<'_>,
    cpu: u32,
    step: StrandStep,
) -> Option<u32>
    requires tables { AreTables script.now kept.now tables.now.histories tables.now.spares.first.items tables.now.spares.changes.items tables.now.strand_of.items tables.now.late.items tables.now.gone.items }
    requires cpu { cpu < script.now.shape.cpus }
    requires lock { is_lock script.now.shape step.lock ≡ true }
    ensures { result ≡ spare_at_step script.now.cuts script.now.shape kept.now.histories cpu step }
{
    match tables.histories.named_by(step) {
        Some(entry) => spare_before(
            &tables.spares,
            cpu,
            moment_of(script.cuts.as_slice(), entry),
        ),
        None => None,
    }
}
