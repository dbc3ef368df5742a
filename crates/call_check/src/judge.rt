//! Whether a call is right.

ghost use Rattle.std.specs.Prelude.{◌≡◌, ◌≤◌, ◌<◌, ◌+◌, ◌*◌, ℕ, suc, All, IfOk, MatchBool, Some, false, length, slice_get, slice_index_or, slice_set};
ghost use Rattle.std.specs.Bool.{OnTrue};
ghost use Rattle.std.specs.List.{list_any};
ghost use Rattle.place_words.specs.Phases.{phase_of};
ghost use Rattle.place_words.specs.StrandSteps.{row_read};
ghost use Rattle.map_script.specs.WellFormed.{IsCallOn, IsWellFormed};
ghost use Rattle.record_shape.specs.WellShaped.{WellShaped};
ghost use Rattle.record_flaws.specs.StrandFlaws.{AreStrandsRight};
ghost use Rattle.call_check.specs.StrandPlaces.{cell};
ghost use Rattle.call_check.specs.Judged.{AreTables, IsRightRow, IsTraceOf, MayBeJudged};
ghost use Rattle.call_check.specs.PlainRows.{AreNamed};
ghost use Rattle.call_check.specs.RightCalls.{IsRightAt, is_of_cpu};
ghost use Rattle.call_check.specs.Steps.{AreBehind, StepsFit, is_late};

use crate::gone::gone_by_cpu;
use crate::histories::Histories;
use crate::order::late_calls;
use crate::spares::{Spares, spares_of};
use crate::steps::{are_of_cpu, run_end};
use crate::strand_of::{cell, phase_of, strands_by_cpu};
use crate::trace::is_trace;
use map_report::RunRecord;
use map_script::Script;
use map_types::{Call, List, NoMemory, Reply};
use place_words::{StepRow, Strand};
use replay_words::Note;
use std::alloc::Global;

/// What the calls of a record are judged by.
#[derive(Drop)]
pub(crate) struct Tables<'a> {
    pub(crate) histories: Histories<'a>,
    pub(crate) spares: Spares,
    /// The place of the strand that each CPU is in, in each phase.
    pub(crate) strand_of: Vec<usize>,
    /// Of each call whether a step of it stands behind one of a later call.
    pub(crate) late: Vec<bool>,
    /// Of the local lists of each CPU, which turns are pushes that found their element gone since a refill had flushed it.
    pub(crate) gone: Vec<List<bool>>,
}

/// The tables of a record.
pub(crate) fn tables_of<'a>(
    alloc: Global,
    script: &'a Script,
    kept: &'a RunRecord,
) -> Result<Tables<'a>, NoMemory>
    requires script { IsWellFormed script.now }
    requires shaped { WellShaped script.now kept.now }
    requires strands { AreStrandsRight script.now kept.now }
    ensures { IfOk result (λ t. AreTables script.now kept.now t.histories t.spares.first.items t.spares.changes.items t.strand_of.items t.late.items t.gone.items) }
{
    let all = kept.histories.as_slice();
    let histories = Histories::of(alloc, &script.shape, all)?;
    let spares = spares_of(alloc, script, all)?;
    let strand_of = strands_by_cpu(alloc, script, kept)?;
    let late = late_calls(
        alloc,
        &histories,
        kept.strands.as_slice(),
        script.calls.len(),
    )?;
    let gone = gone_by_cpu(alloc, &script.shape, all)?;
    Ok(Tables {
        histories,
        spares,
        strand_of,
        late,
        gone,
    })
}

/// Whether a call is right, where those before it are. Then its steps are passed.
pub(crate) fn is_right_at(
    alloc: Global,
    script: &Script,
    kept: &RunRecord,
    notes: &[List<Note>],
    tables: &Tables<'_>,
    place: usize,
    cursors: &mut Vec<usize>,
) -> Result<bool, NoMemory>
    requires record { MayBeJudged script.now kept.now notes.now }
    requires tables { AreTables script.now kept.now tables.now.histories tables.now.spares.first.items tables.now.spares.changes.items tables.now.strand_of.items tables.now.late.items tables.now.gone.items }
    requires place { place < length script.now.calls }
    requires behind { AreBehind kept.now.histories (suc place) kept.now.strands cursors.old.items }
    ensures right { IfOk result (λ is. MatchBool is (IsRightAt script.now kept.now place) (IsRightAt script.now kept.now place → ⊥)) }
    ensures behind { IfOk result (λ is. OnTrue is (AreBehind kept.now.histories (suc (suc place)) kept.now.strands cursors.new.items)) }
{
    let call = &script.calls.as_slice()[place];
    let reply = &kept.replies.as_slice()[place];
    let number = (place + 1) as u32;
    let home = home_of(script, tables.strand_of.as_slice(), number, call.cpu);
    let steps = steps_at(kept.strands.as_slice(), home);
    let from = cursor_at(cursors.as_slice(), home);
    let to = run_end(&tables.histories, steps, from, number);
    set_cursor(cursors, home, to);
    let row = steps.behind(from).first(to - from);
    let right = is_right_row(alloc, script, kept, notes, tables, number, call, reply, row)?;
    Ok(right)
}

/// The steps of a strand.
fn steps_at(strands: &[Strand], place: usize) -> StepRow<'_>
    requires { place < length strands.now }
    ensures { (strand : _) → slice_get strands.now place ≡ Some strand → row_read result ≡ strand.steps }
{
    strands[place].steps.row()
}

/// The cursor of a strand.
fn cursor_at(cursors: &[usize], place: usize) -> usize
    requires { place < length cursors.now }
    ensures { result ≡ slice_index_or cursors.now place 0 }
{
    cursors[place]
}

/// Sets the cursor of a strand.
fn set_cursor(cursors: &mut Vec<usize>, place: usize, to: usize)
    requires { place < length cursors.old.items }
    ensures { cursors.new.items ≡ slice_set cursors.old.items place to }
{
    cursors[place] = to;
}

/// The place of the strand of a call, by its number and its CPU.
fn home_of(script: &Script, table: &[usize], number: u32, cpu: u32) -> usize
    requires few { length script.now.cuts ≤ 63 }
    requires sized { length table.now ≡ (length script.now.cuts + 1) * 16 }
    requires cpu { cpu < 16 }
    ensures { result ≡ slice_index_or table.now (cell (phase_of script.now.cuts number) cpu) 0 }
{
    let phase = phase_of(script.cuts.as_slice(), number);
    table[cell(phase, cpu)]
}

/// Whether these steps are right as those of a call.
fn is_right_row(
    alloc: Global,
    script: &Script,
    kept: &RunRecord,
    notes: &[List<Note>],
    tables: &Tables<'_>,
    number: u32,
    call: &Call,
    reply: &Reply,
    row: StepRow<'_>,
) -> Result<bool, NoMemory>
    requires record { MayBeJudged script.now kept.now notes.now }
    requires tables { AreTables script.now kept.now tables.now.histories tables.now.spares.first.items tables.now.spares.changes.items tables.now.strand_of.items tables.now.late.items tables.now.gone.items }
    requires number { number ≤ length script.now.calls }
    requires call { IsCallOn script.now.shape call.now }
    requires steps { StepsFit script.now.shape (row_read row) }
    requires named { AreNamed script.now.shape kept.now.histories (row_read row) }
    ensures { IfOk result (λ is. MatchBool is (IsRightRow script.now kept.now number call.now reply.now (row_read row.entry))
        (IsRightRow script.now kept.now number call.now reply.now (row_read row.entry) → ⊥)) }
{
    if tables.late[number as usize] {
        return Ok(false);
    }
    if !are_of_cpu(&tables.histories, call.cpu, row) {
        return Ok(false);
    }
    let is = is_trace(alloc, script, kept, notes, tables, call, reply, row)?;
    Ok(is)
}
