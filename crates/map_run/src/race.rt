//! A race: a worker for each CPU, all at once.

ghost use Rattle.std.specs.Prelude.{◌≡◌, ◌≤◌, ◌<◌, ◌+◌, ◌++◌, ℕ, suc, false, Some, [], ◌∷◌, All, IfOk, List, OnOk, length, slice_index_or, vec_capacity};
ghost use Rattle.map_types.specs.Creation.{IsShape};
ghost use Rattle.map_types.specs.declared.call.Call.{Call};
ghost use Rattle.map_script.specs.WellFormed.{HasPhases};
ghost use Rattle.map_batch.specs.Calls.{table_of};
ghost use Rattle.place_table.specs.Passes.{IsFirstPass, PassView};
ghost use Rattle.place_words.specs.Interleaving.{CoreRun};
ghost use Rattle.place_words.specs.Phases.{phase_count};
ghost use Rattle.map_run.specs.declared.worker.Worker.{Worker};
ghost use Rattle.one_map.specs.Linear.{IsLinearizable};
ghost use Rattle.record_shape.specs.WellShaped.{WellShaped};
ghost use Rattle.run_records.specs.Copies.{IsCopyOf};
ghost use Rattle.run_records.specs.Parts.{lone_cpu, pieces_by};
ghost use Rattle.run_records.specs.Phased.{IsWhole};
ghost use Rattle.run_records.specs.Races.{HaveComeTo, IsRaceRecord, RanByMany, RanByOne, RanCalls};
ghost use Rattle.serial_laws.specs.Served.{IsScript, IsServed, IsServedCall};
ghost use Rattle.run_records.specs.Work.{HaveRaced};
ghost use Rattle.map_run.specs.Joined.{HaveJoined, told_by};
ghost use Rattle.map_run.specs.Workers.{AreSplitOff, HasDone, HasSplit, HaveDone, HaveEnded, IsReady};

use crate::RunRecord;
use crate::phases::{lone_cpu, phase_end, phase_first, phase_start};
use crate::serial::{calls_between, run_calls};
use crate::worker::{Worker, work};
use file_order::{ReplyQueue, in_file_order};
use map_batch::AnyMap;
use map_report::PhaseStart;
use map_script::Script;
use map_types::{Call, Gate, NoMemory, Reply};
use place_table::{Closed, Pass};
use run_records::{Piece, Told, keep};
use std::alloc::{AllocError, Global};
use std::sync::Wait;
use std::thread;
use std::thread::Threads;

/// Runs the calls of a script on a new map over the shared table, phase after phase: in each phase the calls of each CPU in a thread
/// of its own, in the order of the script. No call of a phase begins before each call of the phases before it has ended. A phase
/// whose calls are all of one CPU, or that has none, is run by this thread, on a pass that has all CPUs, and is exact: what happens
/// in it is determined by the state at its start, and none of its calls answers ENOMEM. What is kept are the replies, in the order
/// of the script, what happened under each lock, the starts of the phases, in each phase a strand for each CPU, or one of all, and
/// what the map holds at the end; beside it stands what the closed table left. It fails only where memory does.
///
/// The turns of the record, in the order of their tickets, are a run of the core. So whatever is said of its report with `--history`
/// and `--dump`, it is that it is right (`race_law`). And they are linearizable: the calls are answered as by one plain map, each at a
/// turn of its own.
///
/// The record is well shaped. So `read_record` reads its report with `--history` and `--dump` back as the record, where that
/// has at most 2^32 - 3 line feeds and memory is found.
///
/// The script is one as `read_script` and `generate` give them, whose batch writes have fewer than 2^32 entries each. A worker
/// passes the gate at each call's beginning and end, and wherever it takes a lock or gives one back.
pub fn run_race<R: Threads + Wait + Sync, G: Gate>(
    rt: &R,
    alloc: Global,
    script: &Script,
    gate: &G,
) -> Result<(RunRecord, Closed), NoMemory>
    requires script { IsScript script.now }
    ensures record { IfOk result (λ kept. IsRaceRecord script.now kept.0) }
    ensures order { IfOk result (λ kept. CoreRun script.now.shape kept.0.histories) }
    ensures linear { IfOk result (λ kept. IsLinearizable script.now kept.0) }
    ensures shaped { IfOk result (λ kept. WellShaped script.now kept.0) }
    ensures closed { IfOk result (λ kept. IsCopyOf kept.0 kept.1) }
{
    race_script(rt, alloc, script, gate)
}

/// Runs the calls of a script, and closes the map.
fn race_script<R: Threads + Wait + Sync, G: Gate>(
    rt: &R,
    alloc: Global,
    script: &Script,
    gate: &G,
) -> Result<(RunRecord, Closed), NoMemory>
    requires shape { IsShape script.now.shape }
    requires served { IsServed script.now }
    requires few { length script.now.calls ≤ 200000 }
    requires phases { HasPhases script.now.version (length script.now.calls) script.now.cuts }
    requires script { IsScript script.now }
    ensures record { IfOk result (λ kept. IsRaceRecord script.now kept.0) }
    ensures shaped { IfOk result (λ kept. WellShaped script.now kept.0) }
    ensures closed { IfOk result (λ kept. IsCopyOf kept.0 kept.1) }
{
    let (map, mut pass) = AnyMap::create(alloc, &script.shape)?;
    let phases = script.cuts.len() + 1;
    let told = race_phases(rt, alloc, &map, &mut pass, script, phases, gate)?;
    let closed = map.close(pass)?;
    keep(alloc, script.shape.cpus, told, closed)
}

/// Runs so many phases of a script, from the first on, one after another.
pub(crate) fn race_phases<R: Threads + Wait + Sync, G: Gate>(
    rt: &R,
    alloc: Global,
    map: &AnyMap,
    pass: &mut Pass,
    script: &Script,
    phases: usize,
    gate: &G,
) -> Result<Told, NoMemory>
    requires same { (table_of map.now).shape ≡ script.now.shape }
    requires shape { IsShape script.now.shape }
    requires served { IsServed script.now }
    requires few { length script.now.calls ≤ 200000 }
    requires phases { HasPhases script.now.version (length script.now.calls) script.now.cuts }
    requires within { phases ≤ phase_count script.now.cuts }
    requires first { IsFirstPass (table_of map.now) pass.old }
    ensures { IfOk result (λ told. HaveComeTo (table_of map.now) script.now phases pass.new
        told.replies.items told.starts.items told.pieces.items) }
{
    let mut told = Told {
        replies: Vec::with_capacity(alloc, script.calls.len())?,
        starts: Vec::with_capacity(alloc, script.cuts.len() + 1)?,
        pieces: Vec::new(alloc),
    };
    for phase in 0..phases {
        race_phase(rt, alloc, map, pass, script, phase, gate, &mut told)?;
    }
    Ok(told)
}

/// Runs a phase: by the pass, which has all CPUs, where one CPU makes all its calls or it has none, else by workers.
fn race_phase<R: Threads + Wait + Sync, G: Gate>(
    rt: &R,
    alloc: Global,
    map: &AnyMap,
    pass: &mut Pass,
    script: &Script,
    phase: usize,
    gate: &G,
    told: &mut Told,
) -> Result<(), NoMemory>
    requires same { (table_of map.now).shape ≡ script.now.shape }
    requires shape { IsShape script.now.shape }
    requires served { IsServed script.now }
    requires few { length script.now.calls ≤ 200000 }
    requires phases { HasPhases script.now.version (length script.now.calls) script.now.cuts }
    requires there { phase < phase_count script.now.cuts }
    requires before { HaveComeTo (table_of map.now) script.now phase pass.old told.old.replies.items
        told.old.starts.items told.old.pieces.items }
    ensures { OnOk result (HaveComeTo (table_of map.now) script.now (suc phase) pass.new
        told.new.replies.items told.new.starts.items told.new.pieces.items) }
{
    let start = phase_start(alloc, map, pass)?;
    let first = phase_first(script, phase);
    let calls = calls_between(script.calls.as_slice(), first, phase_end(script, phase));
    let more = run_phase(
        rt,
        alloc,
        map,
        pass,
        phase as u32,
        first as u32,
        calls,
        gate,
    )?;
    add_phase(told, start, more)
}

/// What is told of a phase.
#[derive(Drop)]
pub(crate) struct ToldPhase {
    pub(crate) replies: Vec<Reply>,
    pub(crate) pieces: Vec<Piece>,
}

/// Adds what is told of a phase to what is told of the phases before it.
pub(crate) fn add_phase(told: &mut Told, start: PhaseStart, more: ToldPhase) -> Result<(), NoMemory>
    ensures replies { OnOk result (told.new.replies.items
        ≡ told.old.replies.items ++ more.replies.items) }
    ensures starts { OnOk result (told.new.starts.items ≡ told.old.starts.items ++ start ∷ []) }
    ensures pieces { OnOk result (told.new.pieces.items
        ≡ told.old.pieces.items ++ more.pieces.items) }
{
    let ToldPhase {
        mut replies,
        mut pieces,
    } = more;
    told.replies.append(&mut replies)?;
    told.starts.push(start)?;
    told.pieces.append(&mut pieces)?;
    Ok(())
}

/// Runs the calls of a phase, of which so many stand before.
fn run_phase<R: Threads + Wait + Sync, G: Gate>(
    rt: &R,
    alloc: Global,
    map: &AnyMap,
    pass: &mut Pass,
    phase: u32,
    before: u32,
    calls: &[Call],
    gate: &G,
) -> Result<ToldPhase, NoMemory>
    requires shape { IsShape (table_of map.now).shape }
    requires calls { All (IsServedCall (table_of map.now).shape) calls.now }
    requires few { before + length calls.now ≤ 200000 }
    requires whole { IsWhole (table_of map.now) pass.old }
    ensures { IfOk result (λ told. RanCalls (table_of map.now) phase before calls.now pass.old
        pass.new told.replies.items told.pieces.items) }
{
    match lone_cpu(calls) {
        Some(_) => run_alone(rt, alloc, map, pass, phase, before, calls, gate),
        None => run_at_once(rt, alloc, map, pass, phase, before, calls, gate),
    }
}

/// Runs calls of one CPU by the pass.
fn run_alone<R: Wait, G: Gate>(
    rt: &R,
    alloc: Global,
    map: &AnyMap,
    pass: &mut Pass,
    phase: u32,
    before: u32,
    calls: &[Call],
    gate: &G,
) -> Result<ToldPhase, NoMemory>
    requires shape { IsShape (table_of map.now).shape }
    requires calls { All (IsServedCall (table_of map.now).shape) calls.now }
    requires few { before + length calls.now ≤ 200000 }
    requires whole { IsWhole (table_of map.now) pass.old }
    ensures { IfOk result (λ told. (cpu : ℕ) → lone_cpu calls.now ≡ Some cpu
        → RanByOne (table_of map.now) phase before calls.now cpu pass.old pass.new
        told.replies.items told.pieces.items) }
{
    let steps = pass.step_count();
    let replies = run_calls(rt, alloc, map, pass, before, calls, gate)?;
    let mut pieces = Vec::with_capacity(alloc, 1)?;
    pieces.push(Piece {
        phase,
        cpu: None,
        count: pass.step_count() - steps,
    })?;
    Ok(ToldPhase { replies, pieces })
}

/// Runs calls of several CPUs by workers.
fn run_at_once<R: Threads + Wait + Sync, G: Gate>(
    rt: &R,
    alloc: Global,
    map: &AnyMap,
    pass: &mut Pass,
    phase: u32,
    before: u32,
    calls: &[Call],
    gate: &G,
) -> Result<ToldPhase, NoMemory>
    requires shape { IsShape (table_of map.now).shape }
    requires calls { All (IsServedCall (table_of map.now).shape) calls.now }
    requires few { before + length calls.now ≤ 200000 }
    requires whole { IsWhole (table_of map.now) pass.old }
    ensures { IfOk result (λ told. RanByMany (table_of map.now) phase before calls.now pass.old
        pass.new told.replies.items told.pieces.items) }
{
    let Raced { replies, counts } = race_calls(rt, alloc, map, pass, before, calls, gate)?;
    let pieces = pieces_of(alloc, phase, counts.as_slice())?;
    Ok(ToldPhase { replies, pieces })
}

/// A piece of a phase for each CPU, of so many steps each.
pub(crate) fn pieces_of(alloc: Global, phase: u32, counts: &[usize]) -> Result<Vec<Piece>, NoMemory>
    requires few { length counts.now ≤ 16 }
    ensures { IfOk result (λ pieces. pieces.items ≡ pieces_by phase 0 counts.now) }
{
    let mut pieces = Vec::with_capacity(alloc, counts.len())?;
    let mut cpu = 0;
    for count in counts {
        pieces.push(Piece {
            phase,
            cpu: Some(cpu),
            count: *count,
        })?;
        cpu += 1;
    }
    Ok(pieces)
}

/// What the workers of a phase answered, in the order of the calls, and how many steps each CPU's strand has.
#[derive(Drop)]
pub(crate) struct Raced {
    pub(crate) replies: Vec<Reply>,
    pub(crate) counts: Vec<usize>,
}

/// Runs the calls of a phase, those of each CPU one after another, by as many workers as there are CPUs, which have their
/// passes from this one, and joins these again. So many calls came before the phase: its own are numbered from `before + 1` on.
fn race_calls<R: Threads + Wait + Sync, G: Gate>(
    rt: &R,
    alloc: Global,
    map: &AnyMap,
    pass: &mut Pass,
    before: u32,
    calls: &[Call],
    gate: &G,
) -> Result<Raced, NoMemory>
    requires shape { IsShape (table_of map.now).shape }
    requires calls { All (IsServedCall (table_of map.now).shape) calls.now }
    requires few { before + length calls.now ≤ 200000 }
    requires whole { IsWhole (table_of map.now) pass.old }
    ensures { IfOk result (λ raced. HaveRaced (table_of map.now) (suc before) calls.now pass.old
        pass.new raced.replies.items raced.counts.items) }
{
    let cpus = map.table().shape().cpus;
    let mut workers = Vec::with_capacity(alloc, cpus as usize)?;
    split_all(alloc, map, pass, cpus, &mut workers);
    work_all(rt, alloc, map, before, calls, gate, &mut workers)?;
    join_all(alloc, map, pass, calls, workers)
}

/// A worker for each CPU, in ascending order, with a pass split off this one.
pub(crate) fn split_all(
    alloc: Global,
    map: &AnyMap,
    pass: &mut Pass,
    cpus: u32,
    workers: &mut Vec<Worker>,
)
    requires cpus { cpus ≡ (table_of map.now).shape.cpus }
    requires whole { IsWhole (table_of map.now) pass.old }
    requires room { (workers.old.items ≡ []) × (cpus ≤ vec_capacity workers.old) }
    ensures split { HasSplit (table_of map.now) pass.old cpus pass.new }
    ensures workers { AreSplitOff (table_of map.now) pass.old 0 workers.new.items }
    ensures count { length workers.new.items ≡ cpus }
{
    for cpu in 0..cpus {
        let part = map.table().split(pass, cpu);
        workers.push_reserved(Worker {
            cpu,
            pass: part,
            replies: ReplyQueue::new(alloc),
            failed: false,
        });
    }
}

/// All workers make their calls. It fails where one of them found no memory.
fn work_all<R: Threads + Wait + Sync, G: Gate>(
    rt: &R,
    alloc: Global,
    map: &AnyMap,
    before: u32,
    calls: &[Call],
    gate: &G,
    workers: &mut Vec<Worker>,
) -> Result<(), NoMemory>
    requires shape { IsShape (table_of map.now).shape }
    requires calls { All (IsServedCall (table_of map.now).shape) calls.now }
    requires few { before + length calls.now ≤ 200000 }
    requires first { All (IsReady (table_of map.now)) workers.old.items }
    ensures worked { OnOk result (HaveDone (table_of map.now) (suc before) calls.now
        workers.old.items workers.new.items) }
    ensures count { length workers.new.items ≡ length workers.old.items }
{
    work_at_once(rt, alloc, map, before, calls, gate, workers.as_mut_slice());
    if has_failed(workers.as_slice()) {
        return Err(AllocError.into());
    }
    Ok(())
}

/// Each worker in a thread of its own, where there are as many.
pub(crate) fn work_at_once<R: Threads + Wait + Sync, G: Gate>(
    rt: &R,
    alloc: Global,
    map: &AnyMap,
    before: u32,
    calls: &[Call],
    gate: &G,
    workers: &mut [Worker],
)
    requires shape { IsShape (table_of map.now).shape }
    requires calls { All (IsServedCall (table_of map.now).shape) calls.now }
    requires few { before + length calls.now ≤ 200000 }
    requires first { All (IsReady (table_of map.now)) workers.old }
    ensures done { (k : ℕ) (d : Worker) → k < length workers.old
        → HasDone (table_of map.now) (suc before) calls.now (slice_index_or workers.old k d)
        (slice_index_or workers.new k d) }
{
    thread::for_each_mut(
        rt,
        workers,
        16,
        &|_, worker: &mut Worker|
            requires shape { IsShape (table_of map.now).shape }
            requires calls { All (IsServedCall (table_of map.now).shape) calls.now }
            requires few { before + length calls.now ≤ 200000 }
            requires first { IsReady (table_of map.now) worker.now }
        { work(rt, alloc, map, before, calls, gate, worker) },
    );
}

/// Whether a worker found no memory.
pub(crate) fn has_failed(workers: &[Worker]) -> bool
    ensures { result ≡ false → All (λ (worker : Worker). worker.failed ≡ false) workers.now }
{
    workers.iter().any(|worker| worker.failed)
}

/// Joins the workers' passes to the one that they were split off, in ascending order of their CPUs. It gives all replies in the
/// order of the calls, and how many steps each CPU's strand has.
fn join_all(
    alloc: Global,
    map: &AnyMap,
    pass: &mut Pass,
    calls: &[Call],
    workers: Vec<Worker>,
) -> Result<Raced, NoMemory>
    requires shape { IsShape (table_of map.now).shape }
    requires calls { All (IsServedCall (table_of map.now).shape) calls.now }
    requires ended { (number : ℕ) × (start : PassView)
        × HaveEnded (table_of map.now) number calls.now start pass.old workers.items }
    ensures { (number : ℕ) (start : PassView)
        → HaveEnded (table_of map.now) number calls.now start pass.old workers.items
        → IfOk result (λ raced. HaveRaced (table_of map.now) number calls.now start pass.new
        raced.replies.items raced.counts.items) }
{
    let Joined { replies, counts } = join_workers(alloc, map, pass, workers)?;
    let replies = in_file_order(alloc, calls, replies)?;
    Ok(Raced { replies, counts })
}

/// What workers answered, each its own calls, and how many steps each CPU's strand has.
#[derive(Drop)]
pub(crate) struct Joined {
    pub(crate) replies: Vec<ReplyQueue>,
    pub(crate) counts: Vec<usize>,
}

/// Joins the workers' passes to the one that they were split off, in ascending order of their CPUs. It gives the replies of each, and
/// how many steps its strand has.
pub(crate) fn join_workers(
    alloc: Global,
    map: &AnyMap,
    pass: &mut Pass,
    workers: Vec<Worker>,
) -> Result<Joined, NoMemory>
    requires shape { IsShape (table_of map.now).shape }
    requires ended { (number : ℕ) × (calls : List Call) × (start : PassView)
        × HaveEnded (table_of map.now) number calls start pass.old workers.items }
    // whichever calls they made
    ensures joined { (number : ℕ) (calls : List Call) (start : PassView)
        → HaveEnded (table_of map.now) number calls start pass.old workers.items
        → IfOk result (λ joined. HaveJoined (table_of map.now) number calls start
        (table_of map.now).shape.cpus pass.new joined.replies.items joined.counts.items) }
    ensures replies { IfOk result (λ joined. joined.replies.items ≡ told_by workers.items) }
{
    let mut replies = Vec::with_capacity(alloc, workers.len())?;
    let mut counts = Vec::with_capacity(alloc, workers.len())?;
    for worker in workers {
        counts.push(worker.pass.step_count())?;
        map.table().join(pass, worker.pass);
        replies.push(worker.replies)?;
    }
    Ok(Joined { replies, counts })
}
