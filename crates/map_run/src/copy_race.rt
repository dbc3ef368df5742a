//! A race beside whose last phase the map is copied into another one.

ghost use Rattle.std.specs.Prelude.{◌≡◌, ◌≢◌, ◌≤◌, ◌<◌, ◌+◌, ◌++◌, ◌∷◌, [], ℕ, suc, false, All, IfOk, IfSome, None, List, length, map, slice_index_or};
ghost use Rattle.map_types.specs.Creation.{IsShape};
ghost use Rattle.map_script.specs.WellFormed.{AreOfOthers, HasPhases};
ghost use Rattle.map_batch.specs.Calls.{table_of};
ghost use Rattle.map_copy.specs.Copied.{Step};
ghost use Rattle.map_copy.specs.CopyScripts.{read_call};
ghost use Rattle.place_table.specs.Passes.{IsFirstPass, PassView};
ghost use Rattle.run_records.specs.Copies.{IsCopyOf, record_left};
ghost use Rattle.run_records.specs.Phased.{IsWhole};
ghost use Rattle.run_records.specs.Races.{HaveComeTo};
ghost use Rattle.serial_laws.specs.Served.{IsScript, IsServed, IsServedCall};
ghost use Rattle.run_records.specs.Work.{HaveRaced};
ghost use Rattle.file_order.specs.Replies.{replies_by};
ghost use Rattle.map_run.specs.Copying.{CanCopy, FitsSource, HasCopiedAll, HasCopiedBeside, HasCopiedLast, HaveWorkedBeside, IsCopyRecord, LeavesOneFree};
ghost use Rattle.map_run.specs.Joined.{told_by};
ghost use Rattle.map_run.specs.Workers.{AreSplitOff, HaveEnded, HasDone, IsReady};
ghost use Rattle.map_run.specs.declared.worker.Worker.{Worker};

use crate::copy::{Copied, copy_map};
use crate::phases::{phase_end, phase_first, phase_start};
use crate::race::{
    Joined, Raced, ToldPhase, add_phase, has_failed, join_workers, pieces_of, race_phases,
    split_all, work_at_once,
};
use crate::serial::calls_between;
use crate::worker::Worker;
use crate::{CopyRecord, RunRecord};
use file_order::{ReplyQueue, in_file_order};
use map_batch::AnyMap;
use map_report::PhaseStart;
use map_script::{Script, Target};
use map_types::{Call, Gate, List, NoMemory, Reply};
use place_table::{Closed, Pass};
use run_records::{Piece, Told, keep};
use std::alloc::{AllocError, Global};
use std::mem;
use std::sync::Wait;
use std::thread::{Threads, join_mut};

/// Runs the calls of a script on a new map, the source, as `run_race` does, and copies it into another new map, the target, while the
/// calls of the last phase go on: CPU 0, which has none of them, reads page after page of the source, and puts the pairs of each into the
/// target before it reads the next one. The copy ends when all buckets were read, or where the target has no room for a pair. What is
/// kept is the record of the source, without what the reads answered, which stands beside it with the record of the target. It fails
/// only where memory does.
///
/// The turns of the source, in the order of their tickets, are a run of the core.
///
/// The script's target is the map into which it is copied, and says how many pairs the first read asks for. The reads are calls on the
/// source behind those of the script, and are numbered so; the puts are the calls on the target. The gate is passed on the source alone.
pub fn run_copy<R: Threads + Wait + Sync, G: Gate>(
    rt: &R,
    alloc: Global,
    script: &Script,
    gate: &G,
) -> Result<(RunRecord, Closed, CopyRecord), NoMemory>
    requires script { IsScript script.now }
    requires target { script.now.target ≢ None }
    ensures record { IfOk result (λ kept. IfSome script.now.target (λ target. IsCopyRecord
        script.now target kept.0 kept.2.reads kept.2.target)) }
    ensures closed { IfOk result (λ kept. IsCopyOf kept.0 kept.1
        × IsCopyOf kept.2.target kept.2.closed) }
{
    let Some(target) = &script.target else {
        unreachable!()
    };
    copy_script(rt, alloc, script, target, gate)
}

/// Runs the calls of a script beside a copy, and closes both maps.
fn copy_script<R: Threads + Wait + Sync, G: Gate>(
    rt: &R,
    alloc: Global,
    script: &Script,
    into: &Target,
    gate: &G,
) -> Result<(RunRecord, Closed, CopyRecord), NoMemory>
    requires shape { IsShape script.now.shape }
    requires served { IsServed script.now }
    requires few { length script.now.calls ≤ 200000 }
    requires phases { HasPhases script.now.version (length script.now.calls) script.now.cuts }
    requires script { IsScript script.now }
    requires free { LeavesOneFree script.now }
    requires target { IsShape into.now.shape }
    requires fits { FitsSource script.now.shape into.now.shape }
    requires some { 1 ≤ into.now.count }
    ensures record { IfOk result (λ kept. IsCopyRecord script.now into.now kept.0 kept.2.reads
        kept.2.target) }
    ensures closed { IfOk result (λ kept. IsCopyOf kept.0 kept.1
        × IsCopyOf kept.2.target kept.2.closed) }
{
    let (source, mut pass) = AnyMap::create(alloc, &script.shape)?;
    let (target, mut put_pass) = AnyMap::create(alloc, &into.shape)?;
    let phases = script.cuts.len();
    let mut told = race_phases(rt, alloc, &source, &mut pass, script, phases, gate)?;
    let copied = copy_last(
        rt,
        alloc,
        &source,
        &target,
        script,
        into.count,
        gate,
        &mut pass,
        &mut put_pass,
        &mut told,
    )?;
    let closed = source.close(pass)?;
    let put_closed = target.close(put_pass)?;
    keep_both(
        alloc,
        script.shape.cpus,
        into.shape.cpus,
        told,
        copied,
        closed,
        put_closed,
    )
}

/// What is kept of both maps, whose tables are closed.
fn keep_both(
    alloc: Global,
    cpus: u32,
    put_cpus: u32,
    told: Told,
    copied: ToldCopy,
    closed: Closed,
    put_closed: Closed,
) -> Result<(RunRecord, Closed, CopyRecord), NoMemory>
    ensures source { IfOk result (λ kept. (kept.0 ≡ record_left cpus told.pieces.items
        told.replies.items told.starts.items closed) × (kept.1 ≡ closed) × (closed.lost ≡ false)) }
    ensures reads { IfOk result (λ kept. kept.2.reads ≡ copied.reads.items) }
    ensures target { IfOk result (λ kept. (kept.2.target ≡ record_left put_cpus
        copied.put.pieces.items copied.put.replies.items copied.put.starts.items put_closed)
        × (kept.2.closed ≡ put_closed) × (put_closed.lost ≡ false)) }
{
    let ToldCopy { reads, put } = copied;
    let (kept, closed) = keep(alloc, cpus, told, closed)?;
    let (target, put_closed) = keep(alloc, put_cpus, put, put_closed)?;
    let copy = CopyRecord {
        reads: List::of(reads),
        target,
        closed: put_closed,
    };
    Ok((kept, closed, copy))
}

/// What the reads of a copy answered, and what is told of the target.
#[derive(Drop)]
struct ToldCopy {
    reads: Vec<Reply>,
    put: Told,
}

/// Runs the last phase of a script, and copies the map beside its calls. It adds what is told of the phase to what is told of the phases
/// before it, but for the replies to the reads.
fn copy_last<R: Threads + Wait + Sync, G: Gate>(
    rt: &R,
    alloc: Global,
    source: &AnyMap,
    target: &AnyMap,
    script: &Script,
    count: u32,
    gate: &G,
    pass: &mut Pass,
    put_pass: &mut Pass,
    told: &mut Told,
) -> Result<ToldCopy, NoMemory>
    requires same { (table_of source.now).shape ≡ script.now.shape }
    requires shape { IsShape script.now.shape }
    requires served { IsServed script.now }
    requires few { length script.now.calls ≤ 200000 }
    requires phases { HasPhases script.now.version (length script.now.calls) script.now.cuts }
    requires free { LeavesOneFree script.now }
    requires before { HaveComeTo (table_of source.now) script.now (length script.now.cuts) pass.old
        told.old.replies.items told.old.starts.items told.old.pieces.items }
    requires target { IsShape (table_of target.now).shape }
    requires fits { FitsSource script.now.shape (table_of target.now).shape }
    requires first { IsFirstPass (table_of target.now) put_pass.old }
    requires some { 1 ≤ count }
    ensures { IfOk result (λ copy. HasCopiedLast (table_of source.now) (table_of target.now)
        script.now count pass.new put_pass.new
        told.new.replies.items told.new.starts.items told.new.pieces.items
        copy.reads.items copy.put.replies.items copy.put.starts.items copy.put.pieces.items) }
{
    let put_start = phase_start(alloc, target, put_pass)?;
    let put_steps = put_pass.step_count();
    let start = phase_start(alloc, source, pass)?;
    let phase = script.cuts.len();
    let first = phase_first(script, phase);
    let calls = calls_between(script.calls.as_slice(), first, phase_end(script, phase));
    let ToldBeside { more, reads, puts } = copy_phase(
        rt,
        alloc,
        source,
        target,
        phase as u32,
        first as u32,
        calls,
        count,
        gate,
        pass,
        put_pass,
    )?;
    add_phase(told, start, more)?;
    let put_count = put_pass.step_count() - put_steps;
    let put = told_alone(alloc, puts, put_start, put_count)?;
    Ok(ToldCopy { reads, put })
}

/// What is told of a run of one phase by one pass, whose strand has so many steps.
fn told_alone(
    alloc: Global,
    replies: Vec<Reply>,
    start: PhaseStart,
    count: usize,
) -> Result<Told, NoMemory>
    ensures replies { IfOk result (λ told. told.replies.items ≡ replies.items) }
    ensures starts { IfOk result (λ told. told.starts.items ≡ start ∷ []) }
    ensures pieces { IfOk result (λ told. told.pieces.items
        ≡ (record { phase = 0; cpu = None; count = count }) ∷ []) }
{
    let mut starts = Vec::with_capacity(alloc, 1)?;
    starts.push(start)?;
    let pieces = whole_piece(alloc, 0, count)?;
    Ok(Told {
        replies,
        starts,
        pieces,
    })
}

/// The piece of a phase that is run by one pass.
fn whole_piece(alloc: Global, phase: u32, count: usize) -> Result<Vec<Piece>, NoMemory>
    ensures { IfOk result (λ pieces. pieces.items
        ≡ (record { phase = phase; cpu = None; count = count }) ∷ []) }
{
    let mut pieces = Vec::with_capacity(alloc, 1)?;
    pieces.push(Piece {
        phase,
        cpu: None,
        count,
    })?;
    Ok(pieces)
}

/// What is told of a phase beside which the map was copied, and what the reads and the puts answered.
#[derive(Drop)]
struct ToldBeside {
    more: ToldPhase,
    reads: Vec<Reply>,
    puts: Vec<Reply>,
}

/// Runs the calls of a phase, of which so many stand before and none is CPU 0's, and copies the map on CPU 0 beside them.
fn copy_phase<R: Threads + Wait + Sync, G: Gate>(
    rt: &R,
    alloc: Global,
    source: &AnyMap,
    target: &AnyMap,
    phase: u32,
    before: u32,
    calls: &[Call],
    count: u32,
    gate: &G,
    pass: &mut Pass,
    put_pass: &mut Pass,
) -> Result<ToldBeside, NoMemory>
    requires can { CanCopy (table_of source.now) (table_of target.now) pass.old put_pass.old }
    requires whole { IsWhole (table_of source.now) pass.old }
    requires calls { All (IsServedCall (table_of source.now).shape) calls.now }
    requires others { AreOfOthers calls.now }
    requires few { before + length calls.now ≤ 200000 }
    requires some { 1 ≤ count }
    ensures { IfOk result (λ told. HasCopiedBeside (table_of source.now) (table_of target.now)
        phase before count calls.now pass.old pass.new put_pass.old put_pass.new
        told.more.replies.items told.reads.items told.puts.items told.more.pieces.items) }
{
    if calls.is_empty() {
        return copy_alone(
            rt, alloc, source, target, phase, before, count, gate, pass, put_pass,
        );
    }
    copy_at_once(
        rt, alloc, source, target, phase, before, calls, count, gate, pass, put_pass,
    )
}

/// Copies the map in a phase that has no other call, by the pass.
fn copy_alone<R: Wait, G: Gate>(
    rt: &R,
    alloc: Global,
    source: &AnyMap,
    target: &AnyMap,
    phase: u32,
    before: u32,
    count: u32,
    gate: &G,
    pass: &mut Pass,
    put_pass: &mut Pass,
) -> Result<ToldBeside, NoMemory>
    requires can { CanCopy (table_of source.now) (table_of target.now) pass.old put_pass.old }
    requires whole { IsWhole (table_of source.now) pass.old }
    requires few { before ≤ 200000 }
    requires some { 1 ≤ count }
    ensures { IfOk result (λ told. HasCopiedBeside (table_of source.now) (table_of target.now)
        phase before count [] pass.old pass.new put_pass.old put_pass.new
        told.more.replies.items told.reads.items told.puts.items told.more.pieces.items) }
{
    let steps = pass.step_count();
    let Copied { reads, puts } = copy_map(
        rt, alloc, source, target, before, count, gate, pass, put_pass,
    )?;
    let pieces = whole_piece(alloc, phase, pass.step_count() - steps)?;
    Ok(ToldBeside {
        more: ToldPhase {
            replies: Vec::new(alloc),
            pieces,
        },
        reads: all_of(alloc, reads)?,
        puts,
    })
}

/// All replies of a queue.
fn all_of(alloc: Global, mut queue: ReplyQueue) -> Result<Vec<Reply>, NoMemory>
    ensures { IfOk result (λ replies. replies.items ≡ queue) }
{
    let mut replies = Vec::new(alloc);
    while let Some(reply) = queue.pop() {
        replies.push(reply)?;
    }
    Ok(replies)
}

/// Copies the map beside calls of other CPUs, by workers.
fn copy_at_once<R: Threads + Wait + Sync, G: Gate>(
    rt: &R,
    alloc: Global,
    source: &AnyMap,
    target: &AnyMap,
    phase: u32,
    before: u32,
    calls: &[Call],
    count: u32,
    gate: &G,
    pass: &mut Pass,
    put_pass: &mut Pass,
) -> Result<ToldBeside, NoMemory>
    requires can { CanCopy (table_of source.now) (table_of target.now) pass.old put_pass.old }
    requires whole { IsWhole (table_of source.now) pass.old }
    requires calls { All (IsServedCall (table_of source.now).shape) calls.now }
    requires others { AreOfOthers calls.now }
    requires there { 0 < length calls.now }
    requires few { before + length calls.now ≤ 200000 }
    requires some { 1 ≤ count }
    ensures { IfOk result (λ told. HasCopiedBeside (table_of source.now) (table_of target.now)
        phase before count calls.now pass.old pass.new put_pass.old put_pass.new
        told.more.replies.items told.reads.items told.puts.items told.more.pieces.items) }
{
    let cpus = source.table().shape().cpus;
    let mut workers = Vec::with_capacity(alloc, cpus as usize)?;
    split_all(alloc, source, pass, cpus, &mut workers);
    let puts = copy_beside(
        rt,
        alloc,
        source,
        target,
        before,
        calls,
        count,
        gate,
        put_pass,
        &mut workers,
    )?;
    let RacedBeside {
        replies,
        reads,
        counts,
    } = join_beside(alloc, source, calls, pass, workers)?;
    let pieces = pieces_of(alloc, phase, counts.as_slice())?;
    Ok(ToldBeside {
        more: ToldPhase { replies, pieces },
        reads,
        puts,
    })
}

/// The worker of CPU 0 copies the map, while all others make their calls. It fails where one of them found no memory.
fn copy_beside<R: Threads + Wait + Sync, G: Gate>(
    rt: &R,
    alloc: Global,
    source: &AnyMap,
    target: &AnyMap,
    before: u32,
    calls: &[Call],
    count: u32,
    gate: &G,
    put_pass: &mut Pass,
    workers: &mut Vec<Worker>,
) -> Result<Vec<Reply>, NoMemory>
    requires shape { IsShape (table_of source.now).shape }
    requires target { IsShape (table_of target.now).shape }
    requires fits { FitsSource (table_of source.now).shape (table_of target.now).shape }
    requires put_whole { IsWhole (table_of target.now) put_pass.old }
    requires calls { All (IsServedCall (table_of source.now).shape) calls.now }
    requires few { before + length calls.now ≤ 200000 }
    requires some { 1 ≤ count }
    requires split { (start : PassView) × AreSplitOff (table_of source.now) start 0 workers.old.items }
    requires there { 0 < length workers.old.items }
    ensures worked { IfOk result (λ puts. HaveWorkedBeside (table_of source.now)
        (table_of target.now) before count calls.now workers.old.items workers.new.items
        put_pass.old put_pass.new puts.items) }
    ensures none_failed { IfOk result (λ _. All (λ (worker : Worker). worker.failed ≡ false)
        workers.new.items) }
{
    let puts = work_beside(
        rt,
        alloc,
        source,
        target,
        before,
        calls,
        count,
        gate,
        put_pass,
        workers.as_mut_slice(),
    )?;
    if has_failed(workers.as_slice()) {
        return Err(AllocError.into());
    }
    Ok(puts)
}

/// The first of these workers copies the map, while the others make their calls.
fn work_beside<R: Threads + Wait + Sync, G: Gate>(
    rt: &R,
    alloc: Global,
    source: &AnyMap,
    target: &AnyMap,
    before: u32,
    calls: &[Call],
    count: u32,
    gate: &G,
    put_pass: &mut Pass,
    workers: &mut [Worker],
) -> Result<Vec<Reply>, NoMemory>
    requires shape { IsShape (table_of source.now).shape }
    requires target { IsShape (table_of target.now).shape }
    requires fits { FitsSource (table_of source.now).shape (table_of target.now).shape }
    requires put_whole { IsWhole (table_of target.now) put_pass.old }
    requires calls { All (IsServedCall (table_of source.now).shape) calls.now }
    requires few { before + length calls.now ≤ 200000 }
    requires some { 1 ≤ count }
    requires split { (start : PassView) × AreSplitOff (table_of source.now) start 0 workers.old }
    requires there { 0 < length workers.old }
    ensures { IfOk result (λ puts. HaveWorkedBeside (table_of source.now) (table_of target.now)
        before count calls.now workers.old workers.new put_pass.old put_pass.new puts.items) }
{
    let Some((first, others)) = workers.split_first_mut() else {
        unreachable!()
    };
    copy_and_work(
        rt, alloc, source, target, before, calls, count, gate, put_pass, first, others,
    )
}

/// A worker copies the map, while others make their calls, each in a thread of its own.
fn copy_and_work<R: Threads + Wait + Sync, G: Gate>(
    rt: &R,
    alloc: Global,
    source: &AnyMap,
    target: &AnyMap,
    before: u32,
    calls: &[Call],
    count: u32,
    gate: &G,
    put_pass: &mut Pass,
    first: &mut Worker,
    others: &mut [Worker],
) -> Result<Vec<Reply>, NoMemory>
    requires can { CanCopy (table_of source.now) (table_of target.now) first.old.pass put_pass.old }
    requires calls { All (IsServedCall (table_of source.now).shape) calls.now }
    requires few { before + length calls.now ≤ 200000 }
    requires some { 1 ≤ count }
    requires ready { All (IsReady (table_of source.now)) others.old }
    ensures cpu { first.new.cpu ≡ first.old.cpu }
    ensures copied { IfOk result (λ puts. HasCopiedAll (table_of source.now) (table_of target.now)
        (before + length calls.now) count first.old.pass first.new.pass put_pass.old put_pass.new
        first.new.replies puts.items) }
    ensures worked { (k : ℕ) (d : Worker) → k < length others.old
        → HasDone (table_of source.now) (suc before) calls.now (slice_index_or others.old k d)
        (slice_index_or others.new k d) }
{
    let number = before + calls.len() as u32;
    let mut copying = || -> Result<Vec<Reply>, NoMemory>
        requires can { CanCopy (table_of source.now) (table_of target.now) first.now.pass
            put_pass.now }
        requires few { number ≤ 200000 }
        requires some { 1 ≤ count }
    {
        copy_by(
            rt, alloc, source, target, number, count, gate, put_pass, first,
        )
    };
    let mut working = ||
        requires shape { IsShape (table_of source.now).shape }
        requires calls { All (IsServedCall (table_of source.now).shape) calls.now }
        requires few { before + length calls.now ≤ 200000 }
        requires ready { All (IsReady (table_of source.now)) others.now }
    { work_at_once(rt, alloc, source, before, calls, gate, others) };
    let (puts, ()) = join_mut(rt, &mut copying, &mut working);
    puts
}

/// A worker copies the map, its reads numbered from behind so many calls on, and keeps what they answered.
fn copy_by<R: Wait, G: Gate>(
    rt: &R,
    alloc: Global,
    source: &AnyMap,
    target: &AnyMap,
    before: u32,
    count: u32,
    gate: &G,
    put_pass: &mut Pass,
    worker: &mut Worker,
) -> Result<Vec<Reply>, NoMemory>
    requires can { CanCopy (table_of source.now) (table_of target.now) worker.old.pass put_pass.old }
    requires few { before ≤ 200000 }
    requires some { 1 ≤ count }
    ensures cpu { worker.new.cpu ≡ worker.old.cpu }
    ensures copied { IfOk result (λ puts. HasCopiedAll (table_of source.now) (table_of target.now)
        before count worker.old.pass worker.new.pass put_pass.old put_pass.new worker.new.replies
        puts.items) }
{
    let Copied { reads, puts } = copy_map(
        rt,
        alloc,
        source,
        target,
        before,
        count,
        gate,
        &mut worker.pass,
        put_pass,
    )?;
    worker.replies = reads;
    Ok(puts)
}

/// What the workers of a phase answered, in the order of the calls, what the reads beside them answered, and how many steps each CPU's
/// strand has.
#[derive(Drop)]
struct RacedBeside {
    replies: Vec<Reply>,
    reads: Vec<Reply>,
    counts: Vec<usize>,
}

/// Joins the workers' passes to the one that they were split off. It gives the replies to the calls, in their order, and those to the
/// reads, which CPU 0 made beside them.
fn join_beside(
    alloc: Global,
    source: &AnyMap,
    calls: &[Call],
    pass: &mut Pass,
    workers: Vec<Worker>,
) -> Result<RacedBeside, NoMemory>
    requires shape { IsShape (table_of source.now).shape }
    requires calls { All (IsServedCall (table_of source.now).shape) calls.now }
    requires others { AreOfOthers calls.now }
    requires ended { (number : ℕ) × (start : PassView) × (steps : List Step)
        × HaveEnded (table_of source.now) number (calls.now ++ map read_call steps) start pass.old
        workers.items }
    ensures raced { (number : ℕ) (start : PassView) (steps : List Step)
        → HaveEnded (table_of source.now) number (calls.now ++ map read_call steps) start pass.old
        workers.items
        → IfOk result (λ raced. HaveRaced (table_of source.now) number
        (calls.now ++ map read_call steps) start pass.new
        (raced.replies.items ++ raced.reads.items) raced.counts.items) }
    ensures reads { IfOk result (λ raced. raced.reads.items
        ≡ replies_by 0 (told_by workers.items)) }
{
    let Joined {
        mut replies,
        counts,
    } = join_workers(alloc, source, pass, workers)?;
    let reads = take_first(alloc, replies.as_mut_slice());
    let told = in_file_order(alloc, calls, replies)?;
    Ok(RacedBeside {
        replies: told,
        reads: all_of(alloc, reads)?,
        counts,
    })
}

/// Takes the first of some queues, and leaves an empty one in its place.
fn take_first(alloc: Global, queues: &mut [ReplyQueue]) -> ReplyQueue
    requires { 0 < length queues.old }
    ensures first { result ≡ replies_by 0 queues.old }
    ensures none { replies_by 0 queues.new ≡ [] }
    ensures others { (cpu : ℕ) → cpu ≢ 0 → replies_by cpu queues.new ≡ replies_by cpu queues.old }
{
    mem::replace(&mut queues[0], ReplyQueue::new(alloc))
}
