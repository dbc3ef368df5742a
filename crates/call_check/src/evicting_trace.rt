//! Whether steps are a call's trace, on a map that evicts.

ghost use Rattle.std.specs.Prelude.{◌≡◌, ◌<◌, IfOk, List, MatchBool, None, true};
ghost use Rattle.std.specs.List.{list_all};
ghost use Rattle.map_script.specs.WellFormed.{HasSizes, IsCallOn};
ghost use Rattle.map_types.specs.Creation.{IsShape};
ghost use Rattle.map_types.specs.Kind.{is_lru};
ghost use Rattle.place_words.specs.StrandSteps.{row_read};
ghost use Rattle.place_words.specs.Traces.{IsTrace};
ghost use Rattle.place_words.specs.Turns.{TurnAt};
ghost use Rattle.evicting_traces.specs.Reading as reading;
ghost use Rattle.call_check.specs.GoneTables.{gone_by_cpu};
ghost use Rattle.call_check.specs.Judged.{IsTraceOf, MayBeJudged};
ghost use Rattle.call_check.specs.PlainRows.{AreNamed};
ghost use Rattle.call_check.specs.RightCalls.{is_of_cpu};

use crate::histories::Histories;
use crate::seen_rows::{Notes, seen_row};
use evicting_traces::{Seens, read_call};
use map_report::RunRecord;
use map_script::Script;
use map_types::{Call, List, NoMemory, Reply, Shape, Verb};
use place_words::StepRow;
use replay_words::Note;
use std::alloc::Global;

/// Whether these steps, with this reply, are a call's trace. Of the local lists of each CPU `gone` tells which turns are pushes that
/// found their element gone since a refill had flushed it.
pub(crate) fn is_evicting_trace(
    alloc: Global,
    script: &Script,
    kept: &RunRecord,
    notes: &[List<Note>],
    gone: &[List<bool>],
    histories: &Histories<'_>,
    call: &Call,
    reply: &Reply,
    row: StepRow<'_>,
) -> Result<bool, NoMemory>
    requires evicts { is_lru script.now.shape.kind ≡ true }
    requires record { MayBeJudged script.now kept.now notes.now }
    requires histories { histories.now ≡ record { shape = script.now.shape; all = kept.now.histories } }
    requires gone { gone.now ≡ gone_by_cpu script.now.shape kept.now.histories }
    requires call { IsCallOn script.now.shape call.now }
    requires named { AreNamed script.now.shape kept.now.histories (row_read row) }
    requires its_cpu { list_all (is_of_cpu kept.now.histories call.now.cpu) (row_read row) ≡ true }
    ensures { IfOk result (λ is. MatchBool is (IsTraceOf script.now kept.now call.now reply.now (row_read row.entry))
        (IsTraceOf script.now kept.now call.now reply.now (row_read row.entry) → ⊥)) }
{
    let nothing = Note::Nothing;
    let known = Notes {
        of_locks: notes,
        gone,
        nothing: &nothing,
    };
    let seens = seen_row(alloc, &script.shape, histories, &known, row)?;
    let turns = Seens::of(seens.as_slice());
    Ok(are_call(&script.shape, call.cpu, &call.verb, reply, &turns))
}

/// Whether these turns, with this reply, are a call's.
fn are_call(shape: &Shape, cpu: u32, verb: &Verb, reply: &Reply, seens: &Seens<'_>) -> bool
    requires shape { IsShape shape.now }
    requires evicts { is_lru shape.now.kind ≡ true }
    requires cpu { cpu < shape.now.cpus }
    requires sizes { HasSizes shape.now verb.now }
    ensures { (turns : List TurnAt) → reading.AreRefillsLegal shape.now cpu turns → seens.now ≡ reading.all_seen shape.now turns
        → MatchBool result (IsTrace shape.now cpu None verb.now turns reply.now) (IsTrace shape.now cpu None verb.now turns reply.now → ⊥) }
{
    match read_call(shape, cpu, verb, reply, seens) {
        Some(count) => count == seens.len(),
        None => false,
    }
}
