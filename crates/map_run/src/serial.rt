//! A run in serial order.

ghost use Rattle.std.specs.Prelude.{◌≡◌, ◌≤◌, ◌+◌, ◌-◌, ℕ, suc, ◌++◌, All, List, IfOk, length, take, drop};
ghost use Rattle.map_types.specs.Creation.{IsShape};
ghost use Rattle.map_types.specs.declared.call.Call.{Call};
ghost use Rattle.map_types.specs.declared.reply.Reply.{Reply};
ghost use Rattle.map_batch.specs.Calls.{table_of};
ghost use Rattle.place_table.specs.Passes.{IsFirstPass};
ghost use Rattle.place_words.specs.AtRest.{IsStart};
ghost use Rattle.place_words.specs.Phases.{phase_count};
ghost use Rattle.map_report.specs.Runs.{serial};
ghost use Rattle.record_shape.specs.WellShaped.{WellShaped};
ghost use Rattle.run_records.specs.ByLogs.{HaveRunFrom, RunStart};
ghost use Rattle.run_records.specs.Copies.{IsCopyOf};
ghost use Rattle.serial_laws.specs.Laws.{SerialLaws};
ghost use Rattle.run_records.specs.Phased.{HasGone, IsWhole};
ghost use Rattle.serial_laws.specs.Served.{IsScript, IsServed, IsServedCall};
ghost use Rattle.run_records.specs.SerialPhases.{HaveRunPhases};
ghost use Rattle.run_records.specs.Work.{HasWorked};
ghost use Rattle.map_script.specs.WellFormed.{HasPhases};

use crate::RunRecord;
use crate::one_call::run_call;
use crate::phases::{phase_end, phase_start};
use map_batch::AnyMap;
use map_script::Script;
use map_types::{Call, Gate, NoMemory, Point, Reply};
use place_table::{Closed, Pass};
use run_records::{Piece, Told, keep};
use std::alloc::Global;
use std::sync::Wait;

/// Runs the calls of a script one after another, on a new map over the shared table, by one pass that has all CPUs. At the start
/// of each phase that pass reads the ticket word and every bit. What is kept are the replies, what happened under each lock, the
/// starts of the phases, and what the map holds at the end; beside it stands what the closed table left. It fails only where
/// memory does.
///
/// The script is one as `read_script` and `generate` give them, whose batch writes have fewer than 2^32 entries each. The record
/// is the one by the logs of the locks, which serves maps of any kind (`serial`, map_report/specs/Runs.antt). Of a map that
/// doesn't evict it is also the one on plain lists, by the rules of the kernel functions that map_report/specs/Serial.antt
/// names: the laws say so.
///
/// The record is well shaped. So `read_record` reads its report with `--history` and `--dump` back as the record, where that
/// has at most 2^32 - 3 line feeds and memory is found.
///
/// The gate is passed at each call's beginning and end, and wherever a lock is taken or given back, on the call's CPU.
pub fn run_serial<R: Wait, G: Gate>(
    rt: &R,
    alloc: Global,
    script: &Script,
    gate: &G,
) -> Result<(RunRecord, Closed), NoMemory>
    requires script { IsScript script.now }
    ensures record { IfOk result (λ kept. kept.0 ≡ serial script.now) }
    ensures laws { SerialLaws script.now }
    ensures shaped { IfOk result (λ kept. WellShaped script.now kept.0) }
    ensures closed { IfOk result (λ kept. IsCopyOf kept.0 kept.1) }
{
    run_script(rt, alloc, script, gate)
}

/// Runs the calls of a script, and closes the map.
fn run_script<R: Wait, G: Gate>(
    rt: &R,
    alloc: Global,
    script: &Script,
    gate: &G,
) -> Result<(RunRecord, Closed), NoMemory>
    requires shape { IsShape script.now.shape }
    requires served { IsServed script.now }
    requires few { length script.now.calls ≤ 200000 }
    requires phases { HasPhases script.now.version (length script.now.calls) script.now.cuts }
    requires script { IsScript script.now }
    ensures record { IfOk result (λ kept. kept.0 ≡ serial script.now) }
    ensures shaped { IfOk result (λ kept. WellShaped script.now kept.0) }
    ensures closed { IfOk result (λ kept. IsCopyOf kept.0 kept.1) }
{
    let (map, mut pass) = AnyMap::create(alloc, &script.shape)?;
    let told = run_phases(rt, alloc, &map, &mut pass, script, gate)?;
    let closed = map.close(pass)?;
    keep(alloc, script.shape.cpus, told, closed)
}

/// Runs the phases of a script one after another.
fn run_phases<R: Wait, G: Gate>(
    rt: &R,
    alloc: Global,
    map: &AnyMap,
    pass: &mut Pass,
    script: &Script,
    gate: &G,
) -> Result<Told, NoMemory>
    requires same { (table_of map.now).shape ≡ script.now.shape }
    requires shape { IsShape script.now.shape }
    requires served { IsServed script.now }
    requires few { length script.now.calls ≤ 200000 }
    requires phases { HasPhases script.now.version (length script.now.calls) script.now.cuts }
    requires first { IsFirstPass (table_of map.now) pass.old }
    ensures { IfOk result (λ told. HaveRunPhases (table_of map.now) script.now
        (phase_count script.now.cuts) pass.new told.replies.items told.starts.items
        told.pieces.items) }
{
    let mut replies = Vec::new(alloc);
    let mut starts = Vec::with_capacity(alloc, script.cuts.len() + 1)?;
    let mut pieces = Vec::with_capacity(alloc, script.cuts.len() + 1)?;
    let mut first = 0;
    for phase in 0..script.cuts.len() + 1 {
        let next = phase_end(script, phase);
        let start = phase_start(alloc, map, pass)?;
        let steps = pass.step_count();
        let calls = calls_between(script.calls.as_slice(), first, next);
        let more = run_calls(rt, alloc, map, pass, first as u32, calls, gate)?;
        add_replies(&mut replies, more)?;
        starts.push(start)?;
        pieces.push(Piece {
            phase: phase as u32,
            cpu: None,
            count: pass.step_count() - steps,
        })?;
        first = next;
    }
    Ok(Told {
        replies,
        starts,
        pieces,
    })
}

/// The calls between these places.
pub(crate) fn calls_between<'a>(calls: &'a [Call], first: usize, next: usize) -> &'a [Call]
    requires order { first ≤ next }
    requires within { next ≤ length calls.now }
    ensures { result.now ≡ take (next - first) (drop first calls.now) }
{
    &calls[first..next]
}

/// Puts the replies of a phase behind those of the phases before it. Those of the first phase are kept as they are.
fn add_replies(replies: &mut Vec<Reply>, mut more: Vec<Reply>) -> Result<(), NoMemory>
    ensures { IfOk result (λ _. replies.new.items ≡ replies.old.items ++ more.items) }
{
    if replies.is_empty() {
        *replies = more;
        return Ok(());
    }
    replies.append(&mut more)?;
    Ok(())
}

/// Runs calls one after another, each on its CPU, on a pass that has all CPUs. So many calls were made before the first of them.
pub(crate) fn run_calls<R: Wait, G: Gate>(
    rt: &R,
    alloc: Global,
    map: &AnyMap,
    pass: &mut Pass,
    before: u32,
    calls: &[Call],
    gate: &G,
) -> Result<Vec<Reply>, NoMemory>
    requires shape { IsShape (table_of map.now).shape }
    requires calls { All (IsServedCall (table_of map.now).shape) calls.now }
    requires few { before + length calls.now ≤ 200000 }
    requires whole { IsWhole (table_of map.now) pass.old }
    ensures whole { IfOk result (λ _. IsWhole (table_of map.now) pass.new) }
    ensures gone { IfOk result (λ _. HasGone (table_of map.now).shape pass.old pass.new) }
    // wherever a run had come to by then
    ensures from { IfOk result (λ replies. (from : RunStart) (done : List Call) (told : List Reply)
        → from.number + length done ≡ suc before
        → IsStart (table_of map.now).shape from.state
        → All (IsServedCall (table_of map.now).shape) done
        → HaveRunFrom (table_of map.now) from done pass.old told
        → HaveRunFrom (table_of map.now) from (done ++ calls.now) pass.new
        (told ++ replies.items)) }
    // and where they are all of one CPU
    ensures alone { IfOk result (λ replies. (cpu : ℕ)
        → All (λ (call : Call). call.cpu ≡ cpu) calls.now
        → HasWorked (table_of map.now) cpu (suc before) calls.now pass.old pass.new replies.items) }
{
    let mut replies = Vec::with_capacity(alloc, calls.len())?;
    let mut number = before;
    for call in calls {
        number += 1;
        gate.at(call.cpu, Point::Begin(number));
        let reply = run_call(rt, alloc, map, pass, number, call, gate)?;
        gate.at(call.cpu, Point::Done(number));
        replies.push(reply)?;
    }
    Ok(replies)
}
