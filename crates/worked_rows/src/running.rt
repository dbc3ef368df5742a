//! The runs of a row.

use crate::judging::{Left, fault_of};
use crate::row::Row;
use map_run::{HoldGate, MemSink, MemSource, bpfmap};
use map_types::{Bytes, List, NoMemory};
use std::alloc::{AllocError, Global};
use std::sync::Wait;
use std::thread::Threads;

/// Runs a row, once or with each of its failing calls. It answers how many runs there were, or what the first that went
/// wrong did.
pub(crate) fn shows<R: Threads + Wait + Sync>(
    rt: &R,
    alloc: Global,
    row: &Row,
) -> Result<Result<String, String>, AllocError> {
    let Some(failing) = row.failing else {
        return match run(rt, alloc, row, None)? {
            Some(fault) => Ok(Err(fault)),
            None => Ok(Ok(String::from_str(alloc, "runs: 1")?)),
        };
    };
    for call in failing.first..failing.end {
        if let Some(fault) = run(rt, alloc, row, Some(call))? {
            return Ok(Err(format!(in alloc; "where call {call} fails, {fault}")?));
        }
    }
    let count = failing.end.saturating_sub(failing.first);
    Ok(Ok(format!(in alloc; "runs: {count}")?))
}

/// Runs the program as a row says, where a call of this number fails, and answers what went wrong.
fn run<R: Threads + Wait + Sync>(
    rt: &R,
    alloc: Global,
    row: &Row,
    call: Option<u32>,
) -> Result<Option<String>, AllocError> {
    let limit = row.pieces.max(1);
    let words = words_of(alloc, row.words)?;
    let input = Bytes::from_slice(alloc, row.input.as_slice()).map_err(|_: NoMemory| AllocError)?;
    let mut source = MemSource::of(input, failing_in(alloc, row, call, false)?, limit);
    let gate = gate_of(rt, alloc, row)?;
    let failing = failing_in(alloc, row, call, true)?;
    let mut sink = MemSink::of(alloc, failing, limit, row.room).map_err(|_: NoMemory| AllocError)?;
    let finish = bpfmap(rt, alloc, words.as_slice(), &mut source, &mut sink, &gate);
    let kept = finish.kept.is_some();
    let left = Left {
        written: sink.written(),
        status: finish.into_status(),
        unread: source.left().len(),
        kept,
        faults: source.faults().saturating_add(sink.faults()),
        missed: gate.missed(),
    };
    fault_of(alloc, row, call, &left)
}

/// The program's name and the words of a line.
fn words_of(alloc: Global, line: &str) -> Result<Vec<String>, AllocError> {
    let mut words = Vec::new(alloc);
    words.push(String::from_str(alloc, "bpfmap")?)?;
    for word in line.split_whitespace() {
        words.push(String::from_str(alloc, word)?)?;
    }
    Ok(words)
}

/// The numbers of the calls that fail, of the source or of the sink. The one behind would fail too, and be counted.
fn failing_in(
    alloc: Global,
    row: &Row,
    call: Option<u32>,
    of_sink: bool,
) -> Result<List<u32>, AllocError> {
    let mut numbers = Vec::new(alloc);
    if let (Some(failing), Some(call)) = (row.failing, call) {
        if failing.of_sink == of_sink {
            numbers.push(call)?;
            numbers.push(call.saturating_add(1))?;
        }
    }
    Ok(List::of(numbers))
}

/// A gate that holds the workers as a row says.
fn gate_of<'a, R: Sync>(
    rt: &'a R,
    alloc: Global,
    row: &Row,
) -> Result<HoldGate<&'a R>, AllocError> {
    let holds = List::of(row.holds.as_slice().to_vec(alloc)?);
    HoldGate::of(rt, alloc, holds, row.turns).map_err(|_: NoMemory| AllocError)
}
