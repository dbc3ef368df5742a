//! Runs worked rows of the program, and tells of each whether it wrote what it has to write.
//!
//! The rows are read from standard input (docs/FORMATS.md says how they are written), so that a new one is a few lines of
//! data. Each is run over a source and a sink in memory, with a gate that holds the workers of a race as the row says.
#![tactic(auto)]

mod arrival;
mod judging;
mod row;
mod running;

use row::{Row, RowStop};
use running::shows;
use std::alloc::{AllocError, Global};
use std::io;
use std::process::ExitCode;
use std::sync::Wait;
use std::thread::Threads;

/// How the rows went so far.
#[derive(Drop)]
struct Tally {
    rows: u32,
    failed: u32,
}

/// Runs a row and prints how it went.
fn tell<R: Threads + Wait + Sync + Print>(
    rt: &R,
    alloc: Global,
    row: &Row,
    tally: &mut Tally,
) -> io::Result<()> {
    let name = row.name;
    tally.rows = tally.rows.saturating_add(1);
    match shows(rt, alloc, row)? {
        Ok(runs) => println!(rt; "{name}: ok, {runs}"),
        Err(why) => {
            tally.failed = tally.failed.saturating_add(1);
            println!(rt; "{name}: {why}")
        }
    }
}

/// Runs each row of a text. An Err tells the line that isn't one of a row's.
fn tell_all<R: Threads + Wait + Sync + Print>(
    rt: &R,
    alloc: Global,
    text: &str,
    tally: &mut Tally,
) -> io::Result<Result<(), usize>> {
    let mut row = None;
    for (index, line) in text.split('\n').enumerate() {
        if let Some(name) = line.strip_prefix("row ") {
            if let Some(whole) = row.replace(Row::new(alloc, name)) {
                tell(rt, alloc, &whole, tally)?;
            }
        } else if let Some(started) = &mut row {
            match started.add_line(alloc, line) {
                Ok(()) => {}
                Err(RowStop::NoMemory) => return Err(AllocError.into()),
                Err(RowStop::Unclear) => return Ok(Err(index)),
            }
        } else if !line.is_empty() && !line.starts_with('#') {
            return Ok(Err(index));
        }
    }
    if let Some(whole) = row {
        tell(rt, alloc, &whole, tally)?;
    }
    Ok(Ok(()))
}

fn main(rt: HostRuntime) -> io::Result<ExitCode> {
    let text = io::read_to_string(rt.alloc(), rt.stdin())?;
    let mut tally = Tally { rows: 0, failed: 0 };
    let read = tell_all(&rt, rt.alloc(), text.as_str(), &mut tally)?;
    if let Err(index) = read {
        let line = index.saturating_add(1);
        println!(rt; "line {line} of the rows is none of a row's")?;
        return Ok(ExitCode::from(2));
    }
    let (rows, failed) = (tally.rows, tally.failed);
    println!(rt; "{rows} rows, {failed} failed")?;
    Ok(ExitCode::from(if failed == 0 && rows > 0 { 0 } else { 1 }))
}
