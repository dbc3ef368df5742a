//! The lines of a script of form Copy behind its target line. A call of CPU 0 is a fault where no line behind it begins a phase,
//! which only the lines behind it tell.

ghost use Rattle.std.specs.Prelude.{◌≡◌, ◌≤◌, ◌++◌, IfOk};
ghost use Rattle.map_types.specs.Creation.{IsShape};
ghost use Rattle.map_script.specs.CallsSoFar.{AreWithin};
ghost use Rattle.map_script.specs.CopyLines.{held_behind, either_fault, stop_at, IsNextCopied, copied_behind, ReadsCopied};
ghost use Rattle.map_script.specs.Pieces.{ReadsOn, read_on};
ghost use Rattle.map_script.specs.Reading.{phase_begins, body_line, body_with};

use crate::body::BodyLine;
use crate::calls::{add_line, body_line};
use crate::line_error::LineError;
use crate::lines::{Lines, TextLine};
use crate::refusal::{Cause, ScriptRefusal};
use crate::stage::{CallsRead, Copying, EitherFault, Head, Stage};
use map_types::{Call, Shape};
use std::alloc::{AllocError, Global};

/// What a line says, with its number.
#[derive(Drop)]
pub(crate) struct NumberedLine {
    pub(crate) number: u32,
    pub(crate) says: BodyLine,
}

/// Why no line is read behind some line.
#[derive(Clone, Copy)]
pub(crate) enum Stop {
    /// It is refused, or memory was not found.
    Refused(ScriptRefusal),
    /// It has a fault, and before it there is a call of CPU 0 since the last phase began.
    Either(EitherFault),
}

impl From<AllocError> for Stop {
    ghost use Rattle.map_script.specs.declared.copied.Stop.TheVariants as stops;
    ghost use Rattle.map_script.specs.declared.refusal.ScriptRefusal.TheVariants as refusals;

    ghost from_gives = { λ _ stop. stop ≡ stops.Refused refusals.NoMemory };

    fn from(_error: AllocError) -> Stop {
        Stop::Refused(ScriptRefusal::NoMemory)
    }
}

/// Reads each line that is left, behind the calls that were read.
pub(crate) fn read_copied(
    alloc: Global,
    copying: Copying,
    lines: &mut Lines,
) -> Result<Stage, ScriptRefusal>
    ensures reads { ReadsOn (λ end more. read_on (Stage.Copy copying) end
        (lines.old.lines ++ more)) result }
    ensures end { lines.new.end ≡ lines.old.end }
{
    let Copying { read, target, held } = copying;
    let CallsRead {
        head,
        mut calls,
        mut cuts,
        room,
    } = read;
    match copy_each(alloc, &head, &mut calls, &mut cuts, room, held, lines) {
        Ok((room, held)) => {
            let read = CallsRead {
                head,
                calls,
                cuts,
                room,
            };
            Ok(Stage::Copy(Copying { read, target, held }))
        }
        Err(Stop::Refused(refusal)) => Err(refusal),
        Err(Stop::Either(fault)) => read_either(fault, lines),
    }
}

/// Adds each line that is left to calls whose replies may have so many bytes, and tells how many they may have then, and which
/// call of CPU 0 is held back.
fn copy_each(
    alloc: Global,
    head: &Head,
    calls: &mut Vec<Call>,
    cuts: &mut Vec<u32>,
    room: u64,
    held: Option<u32>,
    lines: &mut Lines,
) -> Result<(u64, Option<u32>), Stop>
    requires { AreWithin head.now.shape calls.old.items room }
    ensures read { ReadsCopied head.now.version head.now.shape
        (λ more. copied_behind head.now.version head.now.shape held
        (body_with calls.old.items cuts.old.items) (lines.old.lines ++ more))
        (body_with calls.new.items cuts.new.items) lines.new.lines result }
    ensures within { IfOk result (λ found. AreWithin head.now.shape calls.new.items found.0) }
    ensures end { lines.new.end ≡ lines.old.end }
{
    let shape = &head.shape;
    let mut room = room;
    let mut held = held;
    while let Some(next) = copied_line(
        alloc,
        head.version,
        shape,
        calls.len(),
        room,
        cuts.len(),
        held,
        lines,
    )? {
        held = held_behind(held, &next);
        room = add_line(shape, calls, cuts, room, next.says)?;
    }
    Ok((room, held))
}

/// The line of the first call of CPU 0 in the phase that lasts, behind a line more.
fn held_behind(held: Option<u32>, next: &NumberedLine) -> Option<u32>
    ensures { result ≡ held_behind held next.now }
{
    match &next.says {
        BodyLine::Phase => None,
        BodyLine::Call(call) => match held {
            Some(copier) => Some(copier),
            None => {
                if call.cpu == 0 {
                    Some(next.number)
                } else {
                    None
                }
            }
        },
    }
}

/// Reads the next line, behind so many calls, whose replies may have so many bytes, so many `phase` lines, and a call of CPU 0
/// that is held back, or finds that none is left.
fn copied_line(
    alloc: Global,
    version: u32,
    shape: &Shape,
    count: usize,
    room: u64,
    cuts: usize,
    held: Option<u32>,
    lines: &mut Lines,
) -> Result<Option<NumberedLine>, Stop>
    requires shape { IsShape shape.now }
    requires room { room ≤ 67108864 }
    ensures next { IsNextCopied (body_line version shape.now count room cuts) held
        lines.old.lines lines.new.lines result }
    ensures end { lines.new.end ≡ lines.old.end }
{
    let number = lines.number();
    if let Some(call) = lines.front_call(alloc, shape, count, room) {
        return Ok(Some(NumberedLine {
            number,
            says: BodyLine::Call(call),
        }));
    }
    let Some(line) = lines.next_line() else {
        return Ok(None);
    };
    match body_line(alloc, version, shape, count, room, cuts, &line) {
        Ok(says) => Ok(Some(NumberedLine {
            number: line.number(),
            says,
        })),
        Err(LineError::Fault(cause)) => Err(stop_at(held, &line, cause)),
        Err(LineError::NoMemory) => Err(Stop::Refused(ScriptRefusal::NoMemory)),
    }
}

/// What a fault stops, behind a call of CPU 0 that is held back.
fn stop_at(held: Option<u32>, line: &TextLine, cause: Cause) -> Stop
    ensures { result ≡ stop_at held line.now cause }
{
    match held {
        None => fault_at(line.number(), cause),
        Some(copier) => {
            if line.begins_phase() {
                fault_at(line.number(), cause)
            } else {
                either_at(copier, line.number(), cause)
            }
        }
    }
}

/// A fault of this line.
fn fault_at(line: u32, cause: Cause) -> Stop
    ensures { result ≡ Stop.Refused (ScriptRefusal.Fault line cause) }
{
    Stop::Refused(ScriptRefusal::Fault { line, cause })
}

/// A fault of this line, or of the call of CPU 0.
fn either_at(copier: u32, line: u32, cause: Cause) -> Stop
    ensures { result ≡ Stop.Either (either_fault copier line cause) }
{
    Stop::Either(EitherFault {
        copier,
        line,
        cause,
    })
}

/// Looks for a line that begins a phase, which tells which of two faults it is.
pub(crate) fn read_either(fault: EitherFault, lines: &mut Lines) -> Result<Stage, ScriptRefusal>
    ensures reads { ReadsOn (λ end more. read_on (Stage.Either fault) end
        (lines.old.lines ++ more)) result }
    ensures end { lines.new.end ≡ lines.old.end }
{
    if phase_begins(lines) {
        Err(ScriptRefusal::Fault {
            line: fault.line,
            cause: fault.cause,
        })
    } else {
        Ok(Stage::Either(fault))
    }
}

/// Whether one of the lines that are left begins a phase.
fn phase_begins(lines: &mut Lines) -> bool
    ensures begins { result ≡ phase_begins lines.old.lines }
    ensures end { lines.new.end ≡ lines.old.end }
{
    while let Some(line) = lines.next_line() {
        if line.begins_phase() {
            return true;
        }
    }
    false
}
