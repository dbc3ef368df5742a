//! How a run of the program begins and ends: from the words and the input to the script that is to be run or the report that is
//! to be judged, and from what is kept of a run to what is written.

ghost use Rattle.std.specs.Prelude.{◌≡◌, ◌≤◌, ◌++◌, ℕ, List, None, Some, false, length, map, codes, decimal, IfOk, IfErr, IsOk, OnOk, string_bytes};
ghost use Rattle.run_words.specs.declared.words.Asked.{Asked};
ghost use Rattle.run_endings.specs.Finish.{copy_kept, form_of, judges, kept_in, lines_of, out, refusal_name, script_run, text_of_copy, unfit, unfit_name, HasCause, HasScript, HasSource, IsDelivered, IsInput, WasRead};
ghost use Rattle.run_endings.specs.Runs.{strictly_run, EndsEarly, EndsRun, EndsOutOfMemory, HasTarget, IsDueOf, IsReady, IsStrictlyRun, IsTask, IsTaskOf, IsUnfit, NeverRan, NeverSaid};
ghost use Rattle.lru_compare.specs.Comparison.{comparison};
ghost use Rattle.lru_compare.specs.Run.{strict};
ghost use Rattle.map_script.specs.CauseName.{cause_name};
ghost use Rattle.map_script.specs.Reading.{IsReadAs, IsReading, read_as};
ghost use Rattle.run_ends.specs.SourceReads.{Rose};
ghost use Rattle.serial_laws.specs.Served.{IsScript};
ghost use Rattle.run_words.specs.Words.{are_words};

use crate::judging::{Claim, begin_with_report};
use crate::{CopyRecord, Finish};
use copy_report::copy_text_of;
use lru_compare::{StrictOut, StrictRefusal, comparison_of, strict_run};
use map_report::{Options, RunRecord, json_of, summary_of, text_of};
use map_script::{Cause, Form, Script, ScriptRefusal};
use map_types::{CreateRefusal, Limit, NoMemory};
use run_ends::{ReadStop, Sink, Source, deliver};
use run_words::{Asked, Mode, WordsStop, asked_of};
use script_source::script_from;
use std::alloc::{AllocError, Global};
use std::io::Write;
use std::mem;
use workload_gen::generate;

/// A script that is to be run, as the words ask for it.
#[derive(Drop)]
pub struct Due {
    /// What the words ask for.
    pub asked: Asked,
    /// The script: the one that was read, or in mode `gen` the one with the calls that its generator line stands for.
    pub script: Script,
    /// Its run with strict recency, in mode `compare`.
    pub strict: Option<StrictOut>,
}

/// What words and an input ask for.
#[derive(Drop)]
pub enum Task {
    /// A script is to be run.
    Run(Due),
    /// A report is to be judged.
    Judge(Claim),
}

/// Looks at the words of the program and reads a script, and in mode `check` a report, to its end. Where no script is to be run
/// and no report to be judged, it writes the line that is due and answers the status with which the program ends: that of the line,
/// or 4 where a write failed. At most 16,777,217 bytes are read, whatever comes of it.
pub fn begin<S: Source, K: Sink>(
    alloc: Global,
    words: &[String],
    source: &mut S,
    sink: &mut K,
) -> Result<Task, u8>
    // A script is to be run, or a report to be judged, exactly as the words and the input have it.
    ensures task { IfOk result (IsTask (map string_bytes words.now) (S.left source.old) (S.left source.new)) }
    ensures ready { IfOk result IsReady }
    ensures unwritten { IsOk result → sink.new ≡ sink.old }

    // Else the run has ended with a cause, and its line was delivered.
    ensures early { IfErr result (EndsEarly (HasCause NeverRan NeverSaid (map string_bytes words.now)
        (S.left source.old) (S.left source.new)
        (Rose (S.faults source.old) (S.faults source.new))) (K.written sink.old)
        (K.written sink.new)
        (Rose (K.faults sink.old) (K.faults sink.new))) }

    // With other words nothing is read.
    ensures unread { are_words (map string_bytes words.now) ≡ false → source.new ≡ source.old }
{
    match asked_of(alloc, words) {
        Ok(asked) => begin_asked(alloc, asked, source, sink),
        Err(WordsStop::Other) => Err(end_with_line(sink, 2, b"bpfmap: words\n")),
        Err(WordsStop::NoMemory) => Err(end_with_line(sink, 5, b"bpfmap: memory\n")),
    }
}

impl Due {
    /// Ends the run of the script: writes what is due of its record, or in mode `copy` of the copy, and keeps the record and what
    /// its map left, but in mode `compare` neither. The copy that is handed in is kept, and the script is left to the system. The
    /// status is 0. Where memory was not found a line is written, nothing is kept, and the status is 5. Where a write fails it is 4.
    pub fn end<C: Drop, K: Sink>(
        self,
        alloc: Global,
        ran: Result<(RunRecord, C, Option<CopyRecord<C>>), NoMemory>,
        sink: &mut K,
    ) -> Finish<C>
        requires { self.strict ≡ strictly_run self.asked.mode self.script }
        ensures { EndsRun self ran (K.written sink.old) (K.written sink.new)
            (Rose (K.faults sink.old) (K.faults sink.new)) result }
    {
        let Ok((kept, closed, copy)) = ran else {
            return out_of_memory(sink);
        };
        let Ok(text) = text_in(alloc, self.asked, &self.script, &kept, &copy, &self.strict) else {
            return out_of_memory(sink);
        };
        let status = match deliver(sink, text.as_slice()) {
            Ok(()) => 0,
            Err(_) => 4,
        };
        let Due { asked, script, .. } = self;
        // A run ends soon, and the system takes back all memory at once.
        mem::forget(script);
        let (kept, closed) = kept_in(asked.mode, kept, closed);
        Finish {
            status,
            kept,
            closed,
            copy,
        }
    }
}

/// What is kept of a run in a mode: its record and what its map left, but nothing of a comparison, and nothing where none is run.
fn kept_in<C: Drop>(mode: Mode, kept: RunRecord, closed: C) -> (Option<RunRecord>, Option<C>)
    ensures kept { result.0 ≡ kept_in mode kept }
    ensures closed { result.1 ≡ kept_in mode closed }
{
    match mode {
        Mode::Serial | Mode::Race | Mode::Gen | Mode::Copy => (Some(kept), Some(closed)),
        Mode::Compare | Mode::Check => (None, None),
    }
}

/// Ends a run for which memory was not found.
pub(crate) fn out_of_memory<C, K: Sink>(sink: &mut K) -> Finish<C>
    ensures { EndsOutOfMemory (K.written sink.old) (K.written sink.new)
        (Rose (K.faults sink.old) (K.faults sink.new)) result }
{
    Finish {
        status: end_with_line(sink, 5, b"bpfmap: memory\n"),
        kept: None,
        closed: None,
        copy: None,
    }
}

/// Ends a run with a line, and answers its status.
pub(crate) fn end_with_line<K: Sink>(sink: &mut K, status: u8, line: &[u8]) -> u8
    ensures { IsDelivered status line.now result (K.written sink.old) (K.written sink.new)
        (Rose (K.faults sink.old) (K.faults sink.new)) }
{
    match deliver(sink, line) {
        Ok(()) => status,
        Err(_) => 4,
    }
}

/// What is written of a run.
fn text_in<C>(
    alloc: Global,
    asked: Asked,
    script: &Script,
    kept: &RunRecord,
    copy: &Option<CopyRecord<C>>,
    strictly: &Option<StrictOut>,
) -> Result<Vec<u8>, NoMemory>
    requires { strictly.now ≡ strictly_run asked.mode script.now }
    ensures { IfOk result (λ text. text.items ≡ out asked script.now kept.now (copy_kept copy.now)) }
{
    if asked.options.json {
        json_of(alloc, script, kept, asked.options)
    } else {
        lines_in(alloc, asked, script, kept, copy, strictly)
    }
}

/// What is written of a run in lines.
fn lines_in<C>(
    alloc: Global,
    asked: Asked,
    script: &Script,
    kept: &RunRecord,
    copy: &Option<CopyRecord<C>>,
    strictly: &Option<StrictOut>,
) -> Result<Vec<u8>, NoMemory>
    requires { strictly.now ≡ strictly_run asked.mode script.now }
    ensures { IfOk result (λ text. text.items
        ≡ lines_of asked.mode script.now kept.now (copy_kept copy.now) asked.options) }
{
    match asked.mode {
        Mode::Serial | Mode::Race => text_of(alloc, script, kept, asked.options),
        Mode::Gen => summary_of(alloc, script, kept, asked.options),
        Mode::Compare => comparison_in(alloc, script, kept, strictly),
        Mode::Check => Ok(Vec::new(alloc)),
        Mode::Copy => copy_in(alloc, script, kept, copy, asked.options),
    }
}

/// What is written of a copy: nothing, where the script has no target or no copy was made.
fn copy_in<C>(
    alloc: Global,
    script: &Script,
    kept: &RunRecord,
    copy: &Option<CopyRecord<C>>,
    options: Options,
) -> Result<Vec<u8>, NoMemory>
    ensures { IfOk result (λ text. text.items
        ≡ text_of_copy script.now.target script.now kept.now (copy_kept copy.now) options) }
{
    let Some(target) = &script.target else {
        return Ok(Vec::new(alloc));
    };
    let Some(copy) = copy else {
        return Ok(Vec::new(alloc));
    };
    copy_text_of(
        alloc,
        script,
        kept,
        &target.shape,
        &copy.target,
        copy.reads.as_slice(),
        options,
    )
}

/// What is written of a run beside the script's run with strict recency.
fn comparison_in(
    alloc: Global,
    script: &Script,
    kept: &RunRecord,
    strictly: &Option<StrictOut>,
) -> Result<Vec<u8>, NoMemory>
    requires { strictly.now ≡ Some (strict script.now) }
    ensures { IfOk result (λ text. text.items ≡ comparison script.now kept.now (strict script.now)) }
{
    let Some(out) = strictly else {
        unreachable!();
    };
    comparison_of(alloc, script, kept, out)
}

/// The script that is run of one that was read: itself, or the one with the calls that its generator line stands for.
fn script_due(alloc: Global, mode: Mode, script: Script) -> Result<Script, NoMemory>
    requires read { IsReadAs (form_of mode) script }
    requires script { IsScript script }
    ensures exact { IfOk result (λ due. due ≡ script_run mode script) }
    ensures script { IfOk result (λ due. IsScript due) }
{
    match mode {
        Mode::Serial | Mode::Race | Mode::Compare | Mode::Check | Mode::Copy => Ok(script),
        Mode::Gen => {
            let generated = generate(alloc, &script)?;
            Ok(generated)
        }
    }
}

/// The run of a script with strict recency, in the mode in which it is asked for.
fn run_strictly(
    alloc: Global,
    mode: Mode,
    script: &Script,
) -> Result<Option<StrictOut>, StrictRefusal>
    requires { IsScript script.now }
    ensures { IsStrictlyRun mode script.now result }
{
    match mode {
        Mode::Serial | Mode::Race | Mode::Gen | Mode::Check | Mode::Copy => Ok(None),
        Mode::Compare => match strict_run(alloc, script) {
            Ok(out) => Ok(Some(out)),
            Err(why) => Err(why),
        },
    }
}

/// The line of a script whose call of this number can't be compared with strict recency.
fn call_line(alloc: Global, call: u32) -> Result<Vec<u8>, AllocError>
    ensures { IfOk result (λ text. text.items
        ≡ codes "bpfmap: compare: " ++ unfit_name (StrictRefusal.Verb call) ++ codes "\n") }
{
    let mut text = Vec::new(alloc);
    text.extend_from_slice(b"bpfmap: compare: call ")?;
    push_number(&mut text, call)?;
    text.extend_from_slice(b"\n")?;
    Ok(text)
}

/// Ends a run whose script has a call, of this number, that can't be compared with strict recency.
fn end_with_call<K: Sink>(alloc: Global, sink: &mut K, call: u32) -> u8
    ensures { (asked : Asked) (input : List ℕ) (script : Script)
        → read_as (form_of asked.mode) input ≡ Ok script
        → IsUnfit asked.mode script (StrictRefusal.Verb call)
        → EndsEarly (HasScript NeverRan asked input) (K.written sink.old) (K.written sink.new)
        (Rose (K.faults sink.old) (K.faults sink.new)) result }
{
    let Ok(text) = call_line(alloc, call) else {
        return end_with_line(sink, 5, b"bpfmap: memory\n");
    };
    end_with_line(sink, 11, text.as_slice())
}

/// Ends a run whose script can't be compared with strict recency, or for which memory was not found.
fn end_unfit<K: Sink>(alloc: Global, sink: &mut K, why: StrictRefusal) -> u8
    ensures { (asked : Asked) (input : List ℕ) (script : Script)
        → read_as (form_of asked.mode) input ≡ Ok script
        → IsUnfit asked.mode script why
        → EndsEarly (HasScript NeverRan asked input) (K.written sink.old) (K.written sink.new)
        (Rose (K.faults sink.old) (K.faults sink.new)) result }
{
    match why {
        StrictRefusal::Kind => end_with_line(sink, 11, b"bpfmap: compare: kind\n"),
        StrictRefusal::Verb { call } => end_with_call(alloc, sink, call),
        StrictRefusal::NoMemory => end_with_line(sink, 5, b"bpfmap: memory\n"),
    }
}

/// Where a script was read, it is to be run, if it fits its mode.
fn begin_with_script<K: Sink>(
    alloc: Global,
    asked: Asked,
    script: Script,
    sink: &mut K,
) -> Result<Due, u8>
    requires read { IsReadAs (form_of asked.mode) script }
    requires script { IsScript script }
    ensures due { (input : List ℕ) → read_as (form_of asked.mode) input ≡ Ok script
        → IfOk result (IsDueOf asked input) }
    ensures script { IfOk result (λ due. IsScript due.script) }
    ensures strict { IfOk result (λ due. due.strict ≡ strictly_run due.asked.mode due.script) }
    ensures target { IfOk result HasTarget }
    ensures unwritten { IsOk result → sink.new ≡ sink.old }
    ensures early { (input : List ℕ) → read_as (form_of asked.mode) input ≡ Ok script
        → IfErr result (EndsEarly (HasScript NeverRan asked input) (K.written sink.old) (K.written sink.new)
        (Rose (K.faults sink.old) (K.faults sink.new))) }
{
    match run_strictly(alloc, asked.mode, &script) {
        Ok(strict) => begin_fitting(alloc, asked, script, strict, sink),
        Err(why) => Err(end_unfit(alloc, sink, why)),
    }
}

/// Where a script fits its mode, it is to be run.
fn begin_fitting<K: Sink>(
    alloc: Global,
    asked: Asked,
    script: Script,
    strict: Option<StrictOut>,
    sink: &mut K,
) -> Result<Due, u8>
    requires read { IsReadAs (form_of asked.mode) script }
    requires script { IsScript script }
    requires fits { unfit asked.mode script ≡ None }
    requires strict { strict ≡ strictly_run asked.mode script }
    ensures due { (input : List ℕ) → read_as (form_of asked.mode) input ≡ Ok script
        → IfOk result (IsDueOf asked input) }
    ensures script { IfOk result (λ due. IsScript due.script) }
    ensures strict { IfOk result (λ due. due.strict ≡ strictly_run due.asked.mode due.script) }
    ensures target { IfOk result HasTarget }
    ensures unwritten { IsOk result → sink.new ≡ sink.old }
    ensures early { (input : List ℕ) → IfErr result (EndsEarly (HasScript NeverRan asked input) (K.written sink.old) (K.written sink.new)
        (Rose (K.faults sink.old) (K.faults sink.new))) }
{
    match script_due(alloc, asked.mode, script) {
        Ok(script) => Ok(Due {
            asked,
            script,
            strict,
        }),
        Err(NoMemory { .. }) => Err(end_with_line(sink, 5, b"bpfmap: memory\n")),
    }
}

/// The line of a map that can't be created.
fn refusal_line(why: CreateRefusal) -> &'static str
    ensures { result.now ≡ codes "bpfmap: map refused: " ++ refusal_name why ++ codes "\n" }
{
    match why {
        CreateRefusal::Einval => "bpfmap: map refused: einval\n",
        CreateRefusal::Enotsupp => "bpfmap: map refused: enotsupp\n",
        CreateRefusal::Limit(Limit::Cpus) => "bpfmap: map refused: limit cpus\n",
        CreateRefusal::Limit(Limit::Max) => "bpfmap: map refused: limit max\n",
        CreateRefusal::Limit(Limit::Key) => "bpfmap: map refused: limit key\n",
        CreateRefusal::Limit(Limit::Value) => "bpfmap: map refused: limit value\n",
        CreateRefusal::Limit(Limit::Pool) => "bpfmap: map refused: limit pool\n",
    }
}

/// The line of a fault of a script.
fn fault_line(alloc: Global, line: u32, cause: Cause) -> Result<Vec<u8>, AllocError>
    ensures { IfOk result (λ text. text.items
        ≡ codes "bpfmap: line " ++ decimal line ++ codes ": " ++ cause_name cause ++ codes "\n") }
{
    let mut text = Vec::new(alloc);
    text.extend_from_slice(b"bpfmap: line ")?;
    push_number(&mut text, line)?;
    text.extend_from_slice(b": ")?;
    text.extend_from_slice(cause.name().as_bytes())?;
    text.extend_from_slice(b"\n")?;
    Ok(text)
}

/// Adds a number in decimal digits.
fn push_number(text: &mut Vec<u8>, number: u32) -> Result<(), AllocError>
    ensures { OnOk result (text.new.items ≡ text.old.items ++ decimal number) }
{
    match write!(text, "{number}") {
        Ok(()) => Ok(()),
        Err(_) => Err(AllocError),
    }
}

/// Ends a run whose script has a fault.
fn end_with_fault<K: Sink>(alloc: Global, sink: &mut K, line: u32, cause: Cause) -> u8
    ensures { (asked : Asked) (input : List ℕ)
        → read_as (form_of asked.mode) input ≡ Err (ScriptRefusal.Fault line cause)
        → EndsEarly (HasScript NeverRan asked input) (K.written sink.old) (K.written sink.new)
        (Rose (K.faults sink.old) (K.faults sink.new)) result }
{
    let Ok(text) = fault_line(alloc, line, cause) else {
        return end_with_line(sink, 5, b"bpfmap: memory\n");
    };
    end_with_line(sink, 1, text.as_slice())
}

/// Ends a run whose script has a map that can't be created.
fn end_with_refusal<K: Sink>(sink: &mut K, why: CreateRefusal) -> u8
    ensures { (asked : Asked) (input : List ℕ)
        → read_as (form_of asked.mode) input ≡ Err (ScriptRefusal.Create why)
        → EndsEarly (HasScript NeverRan asked input) (K.written sink.old) (K.written sink.new)
        (Rose (K.faults sink.old) (K.faults sink.new)) result }
{
    end_with_line(sink, 6, refusal_line(why).as_bytes())
}

/// Ends a run whose input is no script that can be run, or for which memory was not found.
pub(crate) fn end_without_script<K: Sink>(alloc: Global, sink: &mut K, refusal: ScriptRefusal) -> u8
    ensures { (asked : Asked) (input : List ℕ)
        → IsReading (Err refusal) (read_as (form_of asked.mode) input)
        → EndsEarly (HasScript NeverRan asked input) (K.written sink.old) (K.written sink.new)
        (Rose (K.faults sink.old) (K.faults sink.new)) result }
{
    match refusal {
        ScriptRefusal::Fault { line, cause } => end_with_fault(alloc, sink, line, cause),
        ScriptRefusal::Create(why) => end_with_refusal(sink, why),
        ScriptRefusal::NoMemory => end_with_line(sink, 5, b"bpfmap: memory\n"),
    }
}

/// The form that the script of a mode has.
fn form_of(mode: Mode) -> Form
    ensures { result ≡ form_of mode }
{
    match mode {
        Mode::Serial | Mode::Race | Mode::Compare | Mode::Check => Form::Calls,
        Mode::Gen => Form::Generator,
        Mode::Copy => Form::Copy,
    }
}

/// Begins a run whose input was read to its end.
fn begin_with_reading<K: Sink>(
    alloc: Global,
    asked: Asked,
    read: Result<Script, ScriptRefusal>,
    sink: &mut K,
) -> Result<Due, u8>
    requires { WasRead (form_of asked.mode) read }
    ensures due { (input : List ℕ) → IsReading read (read_as (form_of asked.mode) input)
        → IfOk result (IsDueOf asked input) }
    ensures script { IfOk result (λ due. IsScript due.script) }
    ensures strict { IfOk result (λ due. due.strict ≡ strictly_run due.asked.mode due.script) }
    ensures target { IfOk result HasTarget }
    ensures unwritten { IsOk result → sink.new ≡ sink.old }
    ensures early { (input : List ℕ) → IsReading read (read_as (form_of asked.mode) input)
        → IfErr result (EndsEarly (HasScript NeverRan asked input) (K.written sink.old) (K.written sink.new)
        (Rose (K.faults sink.old) (K.faults sink.new))) }
{
    match read {
        Ok(script) => begin_with_script(alloc, asked, script, sink),
        Err(refusal) => Err(end_without_script(alloc, sink, refusal)),
    }
}

/// Whether a mode judges a report, and runs nothing.
fn judges(mode: Mode) -> bool
    ensures { result ≡ judges mode }
{
    match mode {
        Mode::Serial | Mode::Race | Mode::Gen | Mode::Compare | Mode::Copy => false,
        Mode::Check => true,
    }
}

/// Begins what good words ask for.
fn begin_asked<S: Source, K: Sink>(
    alloc: Global,
    asked: Asked,
    source: &mut S,
    sink: &mut K,
) -> Result<Task, u8>
    ensures task { IfOk result (IsTaskOf asked (S.left source.old) (S.left source.new)) }
    ensures ready { IfOk result IsReady }
    ensures unwritten { IsOk result → sink.new ≡ sink.old }
    ensures early { IfErr result (EndsEarly (HasSource NeverRan NeverSaid asked (S.left source.old) (S.left source.new)
        (Rose (S.faults source.old) (S.faults source.new))) (K.written sink.old)
        (K.written sink.new)
        (Rose (K.faults sink.old) (K.faults sink.new))) }
{
    if judges(asked.mode) {
        match begin_with_report(alloc, source, sink) {
            Ok(claim) => Ok(Task::Judge(claim)),
            Err(status) => Err(status),
        }
    } else {
        match begin_with_source(alloc, asked, source, sink) {
            Ok(due) => Ok(Task::Run(due)),
            Err(status) => Err(status),
        }
    }
}

/// Begins a run that good words ask for.
fn begin_with_source<S: Source, K: Sink>(
    alloc: Global,
    asked: Asked,
    source: &mut S,
    sink: &mut K,
) -> Result<Due, u8>
    requires { judges asked.mode ≡ false }
    ensures due { IfOk result (λ due. (input : List ℕ) × IsInput (S.left source.old) (S.left source.new) input × IsDueOf asked input due) }
    ensures script { IfOk result (λ due. IsScript due.script) }
    ensures strict { IfOk result (λ due. due.strict ≡ strictly_run due.asked.mode due.script) }
    ensures target { IfOk result HasTarget }
    ensures unwritten { IsOk result → sink.new ≡ sink.old }
    ensures early { IfErr result (EndsEarly (HasSource NeverRan NeverSaid asked (S.left source.old) (S.left source.new)
        (Rose (S.faults source.old) (S.faults source.new))) (K.written sink.old)
        (K.written sink.new)
        (Rose (K.faults sink.old) (K.faults sink.new))) }
{
    match script_from(alloc, form_of(asked.mode), source) {
        Ok(read) => begin_with_reading(alloc, asked, read, sink),
        Err(ReadStop::Failed) => Err(end_with_line(sink, 3, b"bpfmap: read\n")),
        Err(ReadStop::TooLong) => Err(end_with_line(sink, 7, b"bpfmap: too long\n")),
        Err(ReadStop::NoMemory) => Err(end_with_line(sink, 5, b"bpfmap: memory\n")),
    }
}
