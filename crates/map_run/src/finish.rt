//! The top call: from the words and the input to what is written.

ghost use Rattle.std.specs.Prelude.{◌≡◌, false, true, is_some, map, None, IfOk, IfSome, string_bytes};
ghost use Rattle.map_script.specs.Reading.{is_copy};
ghost use Rattle.run_records.specs.Copies.{IsCopyOf};
ghost use Rattle.map_run.specs.Finish.{RanAs};
ghost use Rattle.record_check.specs.Said.{IsSaid};
ghost use Rattle.run_endings.specs.Finish.{copy_kept, form_of, judges, Finishes, HasCause, IsStatus, IsStatusDue};
ghost use Rattle.run_ends.specs.SourceReads.{Rose};
ghost use Rattle.run_words.specs.Words.{are_words};
ghost use Rattle.serial_laws.specs.Served.{IsScript};

use crate::copy_race::run_copy;
use crate::race::run_race;
use crate::serial::run_serial;
use crate::{CopyRecord, Finish, RunRecord, Sink, Source};
use map_script::Script;
use map_types::{Gate, NoMemory};
use place_table::Closed;
use record_check::judge;
use run_endings::{Task, begin, end_judged};
use run_words::Mode;
use std::alloc::Global;
use std::sync::Wait;
use std::thread::Threads;

/// What is kept of a run: its record, what its map left, and what is kept of a copy, where one was made.
type Ran = (RunRecord, Closed, Option<CopyRecord>);

/// Runs the calls of a script in the order of a mode that makes no copy, on a map over the shared table.
fn run_calls_in<R: Threads + Wait + Sync, G: Gate>(
    rt: &R,
    alloc: Global,
    mode: Mode,
    script: &Script,
    gate: &G,
) -> Result<(RunRecord, Closed), NoMemory>
    requires runs { judges mode ≡ false }
    requires alone { is_copy (form_of mode) ≡ false }
    requires script { IsScript script.now }
    ensures ran { IfOk result (λ kept. RanAs mode script.now kept.0 None) }
    ensures closed { IfOk result (λ kept. IsCopyOf kept.0 kept.1) }
{
    match mode {
        Mode::Serial | Mode::Gen | Mode::Compare => run_serial(rt, alloc, script, gate),
        Mode::Race => run_race(rt, alloc, script, gate),
        Mode::Check | Mode::Copy => unreachable!(),
    }
}

/// Runs the calls of a script in such a mode, and keeps no copy.
fn run_alone<R: Threads + Wait + Sync, G: Gate>(
    rt: &R,
    alloc: Global,
    mode: Mode,
    script: &Script,
    gate: &G,
) -> Result<Ran, NoMemory>
    requires runs { judges mode ≡ false }
    requires alone { is_copy (form_of mode) ≡ false }
    requires script { IsScript script.now }
    ensures ran { IfOk result (λ kept. RanAs mode script.now kept.0 (copy_kept kept.2)) }
    ensures closed { IfOk result (λ kept. IsCopyOf kept.0 kept.1) }
    ensures copied { IfOk result (λ kept. IfSome kept.2 (λ copy. IsCopyOf copy.target copy.closed)) }
{
    let (kept, closed) = run_calls_in(rt, alloc, mode, script, gate)?;
    Ok((kept, closed, None))
}

/// Runs the calls of a script, and copies its map into its target beside those of the last phase.
fn run_beside<R: Threads + Wait + Sync, G: Gate>(
    rt: &R,
    alloc: Global,
    script: &Script,
    gate: &G,
) -> Result<Ran, NoMemory>
    requires script { IsScript script.now }
    requires target { is_some script.now.target ≡ true }
    ensures ran { IfOk result (λ kept. RanAs Mode.Copy script.now kept.0 (copy_kept kept.2)) }
    ensures closed { IfOk result (λ kept. IsCopyOf kept.0 kept.1) }
    ensures copied { IfOk result (λ kept. IfSome kept.2 (λ copy. IsCopyOf copy.target copy.closed)) }
{
    let (kept, closed, copy) = run_copy(rt, alloc, script, gate)?;
    Ok((kept, closed, Some(copy)))
}

/// Runs the calls of a script in the order of a mode, on a map over the shared table; in mode `copy` beside a copy of the map.
fn run_in<R: Threads + Wait + Sync, G: Gate>(
    rt: &R,
    alloc: Global,
    mode: Mode,
    script: &Script,
    gate: &G,
) -> Result<Ran, NoMemory>
    requires runs { judges mode ≡ false }
    requires script { IsScript script.now }
    requires target { is_some script.now.target ≡ is_copy (form_of mode) }
    ensures ran { IfOk result (λ kept. RanAs mode script.now kept.0 (copy_kept kept.2)) }
    ensures closed { IfOk result (λ kept. IsCopyOf kept.0 kept.1) }
    ensures copied { IfOk result (λ kept. IfSome kept.2 (λ copy. IsCopyOf copy.target copy.closed)) }
{
    match mode {
        Mode::Copy => run_beside(rt, alloc, script, gate),
        Mode::Serial | Mode::Race | Mode::Gen | Mode::Compare => {
            run_alone(rt, alloc, mode, script, gate)
        }
        Mode::Check => unreachable!(),
    }
}

/// Runs the program: reads a script to its end, runs it in the mode that the words name, and writes its report, or in mode `check`
/// judges a report that stands behind the script. At most 16,777,217 bytes are read, whatever comes of it.
///
/// The words are the program's name, which is not looked at, then the mode once, `serial`, `race`, `gen`, `compare`, `check` or
/// `copy`, and each of `--history`, `--dump` and `--json` at most once, in any order, but none of them with `compare` and `check`,
/// and no `--json` with `copy`. One `--` may stand among them, after which no option follows.
///
/// Each script is run, but one that can't be compared: in mode `serial` its calls one after another, in mode `race` the calls of
/// each CPU in a thread of their own. In mode `gen` the script has a generator line, whose calls are run one after another, and
/// the report has a summary in place of the replies. In mode `compare` the calls are made one after another on a map of strict
/// recency, which evicts what was used least recently, and then as in mode `serial`; the report says of both how many lookups
/// found their key and how many keys were evicted, and how many calls were answered alike. A script is only compared where its
/// map is of kind `lru_hash` and its calls are lookups, updates, deletes and takes. In these modes the gate is passed at each
/// call's beginning and end on the map, and wherever a lock is taken or given back, on the call's CPU. With `--history` the
/// report says what happened under each lock, with `--dump` what the map holds at the end, and with `--json` it is a JSON object.
///
/// In mode `copy` the script has a target line, and its calls are run as in mode `race`, on a map that is the source. While the
/// calls of the last phase go on, of which none is CPU 0's, that CPU copies the source into another map, the target, which no other
/// call is made on: page after page it reads the source by a batch lookup, the first of as many pairs as the target line says, and
/// puts the pairs of the page into the target by a batch update before it reads the next one. Each next read starts at the bucket
/// that the reply names as next. It asks for as many pairs, or after ENOSPC for twice as many, at most as many as the source has
/// elements. The copy ends when all buckets were read, or with the put that was refused a pair. So the target was given the pairs of
/// each bucket as they stood there when it was read, in order, up to the first that it refused; one that evicts refuses none, and may
/// have lost some of them at the end. What is changed later in a bucket that was read isn't copied. At most as many reads as the
/// source has buckets, and 17 more, are made. The report is that of the source without its last line, then which map the target is,
/// how many reads were made, how many entries were put and the error that stopped a put, and then, with `--history` and `--dump`, the
/// same of the target. The gate is passed on the source alone.
///
/// In mode `check` no script is run, and the gate isn't passed. The input is a script, a line that is exactly `%%`, and a report
/// as `--history` and `--dump` together make it. The first such line divides them; at the end of the input it needs no line feed,
/// and the report has no byte then. It is said whether the record that the report tells is one of the script by the rules, whose
/// turns, in the order of their tickets, may be made in the core; or else what is wrong with it first. Whether a line divides the
/// input is asked first, then what the script is read as, and then the report.
///
/// The status says how it ended, and what was written is the report or one line:
///
/// | status | comes | written |
/// |---|---|---|
/// | 0 | the report was written and flushed; in mode `check` the verdict on the one that was read is yes | the report; `yes` |
/// | 1 | exactly where the input was read to its end and the script has a fault of the grammar, in mode `check` where a line divides the input | `bpfmap: line N: CAUSE` |
/// | 2 | exactly where the words are others; nothing is read | `bpfmap: words` |
/// | 3 | only where the source's count of faults rose | `bpfmap: read` |
/// | 4 | only where the sink's count of faults rose | a prefix of the report or the line |
/// | 5 | memory was not found | `bpfmap: memory` |
/// | 6 | exactly where the script's map or its target can't be created, in mode `check` where a line divides the input | `bpfmap: map refused: WHY` |
/// | 7 | exactly where 16,777,217 bytes were read | `bpfmap: too long` |
/// | 9 | exactly where in mode `check` a record's report was read and the verdict on it is no: by its first flaw | `bpfmap: no FLAW` |
/// | 10 | exactly where in mode `check` no line divides the input, or a script was read and no record has the report: by the line at fault, counted behind the line that divides | `bpfmap: record line 1`, `bpfmap: record line N` |
/// | 11 | exactly where the script is to be compared and can't be: by its map's kind, or else by its first other call | `bpfmap: compare: kind`, `bpfmap: compare: call N` |
///
/// Status 4 replaces the one whose report or line could not be written, and status 5 may come in the place of any other. The
/// record of the run is kept, with what its table left, exactly where its report was due: with status 0, and with 4 in the
/// place of it. In the modes `compare` and `check` none is kept. In mode `copy`, and in no other, what the reads answered and the
/// record of the target are kept beside it, with what the target's table left.
pub fn bpfmap<R: Threads + Wait + Sync, S: Source, K: Sink, G: Gate>(
    rt: &R,
    alloc: Global,
    words: &[String],
    source: &mut S,
    sink: &mut K,
    gate: &G,
) -> Finish
    // How it ended, why, what was written, and what is kept.
    ensures finish { Finishes IsCopyOf (HasCause RanAs IsSaid (map string_bytes words.now)
        (S.left source.old) (S.left source.new)
        (Rose (S.faults source.old) (S.faults source.new))) (K.written sink.old)
        (K.written sink.new)
        (Rose (K.faults sink.old) (K.faults sink.new)) result }

    // Where the source tells its bytes, the status is the one that they have, unless a read or a write failed or
    // memory was not found. So each script that is to be run is run, if it can be compared or isn't to be: with good words its
    // status is 0, or 5, or a fault's. And each report that is to be judged is: its status is that of what is said of it, or 5,
    // or a fault's.
    ensures status { IfSome (S.left source.old) (λ input. IsStatus
        (IsStatusDue IsSaid (map string_bytes words.now) input)
        result.status (Rose (S.faults source.old) (S.faults source.new))
        (Rose (K.faults sink.old) (K.faults sink.new))) }

    // With other words nothing is read.
    ensures unread { are_words (map string_bytes words.now) ≡ false → source.new ≡ source.old }
{
    match begin(alloc, words, source, sink) {
        Ok(Task::Run(due)) => {
            let ran = run_in(rt, alloc, due.asked.mode, &due.script, gate);
            due.end(alloc, ran, sink)
        }
        Ok(Task::Judge(claim)) => {
            let judged = judge(alloc, &claim.script, claim.report.as_slice());
            end_judged(alloc, judged, sink)
        }
        Err(status) => Finish {
            status,
            kept: None,
            closed: None,
            copy: None,
        },
    }
}
