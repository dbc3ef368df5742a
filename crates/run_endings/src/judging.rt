//! How a run of the program begins and ends whose report is to be judged: from the input to its script and its report, and from what
//! is said of the report to what is written.

ghost use Rattle.std.specs.Prelude.{◌≡◌, ◌≤◌, ℕ, List, drop, length, true, vec_len, Err, IfErr, IfOk, IsOk, IsTrue};
ghost use Rattle.map_script.specs.declared.script.Form.TheVariants.{Calls};
ghost use Rattle.map_script.specs.Reading.{read_as, IsReading};
ghost use Rattle.run_ends.specs.SourceReads.{Rose};
ghost use Rattle.run_words.specs.declared.words.Asked.{Asked};
ghost use Rattle.run_endings.specs.Divided.{is_divided, script_part};
ghost use Rattle.run_endings.specs.Finish.{judges, status_said, HasReport, HasSource, IsInput};
ghost use Rattle.run_endings.specs.Runs.{EndsEarly, EndsJudged, IsClaimOf, IsJudgeable, NeverRan, NeverSaid};

use crate::Finish;
use crate::division::divider_of;
use crate::finish::{end_with_line, end_without_script, out_of_memory};
use map_script::{Form, Script, ScriptRefusal, read_script};
use map_types::NoMemory;
use record_flaws::{Said, Verdict, said_text};
use run_ends::{ReadStop, Sink, Source, read_all};
use std::alloc::Global;

/// A report that is to be judged.
#[derive(Drop)]
pub struct Claim {
    /// The script of whose run it is to be a report.
    pub script: Script,
    /// The report.
    pub report: Vec<u8>,
}

/// Reads a script and a report to their end. Where there is no report to be judged, it writes the line that is due and answers the
/// status with which the program ends.
pub(crate) fn begin_with_report<S: Source, K: Sink>(
    alloc: Global,
    source: &mut S,
    sink: &mut K,
) -> Result<Claim, u8>
    ensures claim { IfOk result (λ claim. (input : List ℕ)
        × IsInput (S.left source.old) (S.left source.new) input × IsClaimOf input claim) }
    ensures judgeable { IfOk result IsJudgeable }
    ensures unwritten { IsOk result → sink.new ≡ sink.old }
    ensures early { (asked : Asked) → judges asked.mode ≡ true
        → IfErr result (EndsEarly (HasSource NeverRan NeverSaid asked (S.left source.old) (S.left source.new)
        (Rose (S.faults source.old) (S.faults source.new))) (K.written sink.old)
        (K.written sink.new)
        (Rose (K.faults sink.old) (K.faults sink.new))) }
{
    match read_all(alloc, source) {
        Ok(input) => begin_with_input(alloc, input, sink),
        Err(ReadStop::Failed) => Err(end_with_line(sink, 3, b"bpfmap: read\n")),
        Err(ReadStop::TooLong) => Err(end_with_line(sink, 7, b"bpfmap: too long\n")),
        Err(ReadStop::NoMemory) => Err(end_with_line(sink, 5, b"bpfmap: memory\n")),
    }
}

/// Reads the script of an input, whose report is to be judged then.
fn begin_with_input<K: Sink>(alloc: Global, input: Vec<u8>, sink: &mut K) -> Result<Claim, u8>
    requires { length input.items ≤ 16777216 }
    ensures claim { IfOk result (IsClaimOf input.items) }
    ensures judgeable { IfOk result IsJudgeable }
    ensures unwritten { IsOk result → sink.new ≡ sink.old }
    ensures early { IfErr result (EndsEarly (HasReport NeverSaid input.items) (K.written sink.old) (K.written sink.new)
        (Rose (K.faults sink.old) (K.faults sink.new))) }
{
    let Some(divider) = divider_of(input.as_slice()) else {
        return Err(end_with_line(sink, 10, b"bpfmap: record line 1\n"));
    };
    match read_script(alloc, &input.as_slice()[..divider.before], Form::Calls) {
        Ok(script) => Ok(Claim {
            script,
            report: behind(input, divider.behind),
        }),
        Err(refusal) => Err(end_unjudged(alloc, sink, refusal)),
    }
}

/// The bytes from a place on. It takes no memory.
fn behind(input: Vec<u8>, place: usize) -> Vec<u8>
    requires { place ≤ vec_len input }
    ensures { result.items ≡ drop place input.items }
{
    let mut bytes = input;
    bytes.drain(..place);
    bytes
}

/// Ends a run whose report isn't judged, since what stands before it is no script, or for which memory was not found.
fn end_unjudged<K: Sink>(alloc: Global, sink: &mut K, refusal: ScriptRefusal) -> u8
    ensures { (input : List ℕ) → IsTrue (is_divided input)
        → IsReading (Err refusal) (read_as Calls (script_part input))
        → EndsEarly (HasReport NeverSaid input) (K.written sink.old) (K.written sink.new)
        (Rose (K.faults sink.old) (K.faults sink.new)) result }
{
    end_without_script(alloc, sink, refusal)
}

/// Ends a run whose report was judged: writes what is said of it, with the status of that, and keeps nothing. Where memory was
/// not found the status is 5, and where a write fails it is 4.
pub fn end_judged<C, K: Sink>(
    alloc: Global,
    judged: Result<Said, NoMemory>,
    sink: &mut K,
) -> Finish<C>
    ensures { EndsJudged judged (K.written sink.old) (K.written sink.new)
        (Rose (K.faults sink.old) (K.faults sink.new)) result }
{
    let Ok(said) = judged else {
        return out_of_memory(sink);
    };
    let Ok(text) = said_text(alloc, said) else {
        return out_of_memory(sink);
    };
    Finish {
        status: end_with_line(sink, status_said(said), text.as_bytes()),
        kept: None,
        closed: None,
        copy: None,
    }
}

/// The status of what is said of a report.
fn status_said(said: Said) -> u8
    ensures { result ≡ status_said said }
{
    match said {
        Said::Judged(Verdict::Yes) => 0,
        Said::Judged(Verdict::No(_)) => 9,
        Said::Unread { .. } => 10,
    }
}
