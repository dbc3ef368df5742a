//! The lines of a script behind its map line: calls, and starts of phases.

ghost use Rattle.std.specs.Prelude.{◌≡◌, ◌≤◌, length, Ok, Err, IfOk, OnOk, MatchResult};
ghost use Rattle.map_types.specs.Creation.{IsShape};
ghost use Rattle.map_script.specs.Parsed.{IsParsedAs};
ghost use Rattle.map_script.specs.Grammar.{call_line, starts_phase, reply_bytes, reply_room};
ghost use Rattle.map_script.specs.Plain.{IsNext};
ghost use Rattle.map_script.specs.CallsSoFar.{calls_of, AreWithin};
ghost use Rattle.map_script.specs.Reading.{of_line, call_within, phase_within, body_line, body_with, with_next, body_from, IsReading};

use crate::body::BodyLine;
use crate::fault::with_number;
use crate::line_error::LineError;
use crate::lines::{Lines, TextLine};
use crate::refusal::{Cause, ScriptRefusal};
use crate::stage::{CallsRead, Head};
use crate::tokens::Tokens;
use crate::verbs::named_line;
use map_types::{Call, Shape, Side, Verb, value_len};
use std::alloc::{AllocError, Global};

/// How many calls a script may have.
pub(crate) const MAX_CALLS: usize = 200_000;

/// How many bytes the replies to a script's calls may have.
pub(crate) const MAX_ROOM: u64 = 67_108_864;

/// How many `phase` lines a script may have.
const MAX_CUTS: usize = 63;

/// Reads each line that is left, behind the calls that were read.
pub(crate) fn read_calls(
    alloc: Global,
    read: CallsRead,
    lines: &mut Lines,
) -> Result<CallsRead, ScriptRefusal>
    ensures read { IsReading result (calls_of read lines.old.lines) }
    ensures end { lines.new.end ≡ lines.old.end }
{
    let CallsRead {
        head,
        mut calls,
        mut cuts,
        room,
    } = read;
    let room = read_each(alloc, &head, &mut calls, &mut cuts, room, lines)?;
    Ok(CallsRead {
        head,
        calls,
        cuts,
        room,
    })
}

/// Adds each line that is left to calls whose replies may have so many bytes, and tells how many they may have then.
fn read_each(
    alloc: Global,
    head: &Head,
    calls: &mut Vec<Call>,
    cuts: &mut Vec<u32>,
    room: u64,
    lines: &mut Lines,
) -> Result<u64, ScriptRefusal>
    requires { AreWithin head.now.shape calls.old.items room }
    ensures read { MatchResult result
        (λ room. body_from head.now.version head.now.shape
        (body_with calls.old.items cuts.old.items) lines.old.lines
        ≡ Ok (body_with calls.new.items cuts.new.items))
        (λ refusal. IsReading (Err refusal) (body_from head.now.version head.now.shape
        (body_with calls.old.items cuts.old.items) lines.old.lines)) }
    ensures within { IfOk result (λ room. AreWithin head.now.shape calls.new.items room) }
    ensures end { lines.new.end ≡ lines.old.end }
{
    let shape = &head.shape;
    let mut room = room;
    while let Some(next) = next_line(
        alloc,
        head.version,
        shape,
        calls.len(),
        room,
        cuts.len(),
        lines,
    )? {
        room = add_line(shape, calls, cuts, room, next)?;
    }
    Ok(room)
}

/// Adds what a line says to what the lines before it say, and tells how many bytes the replies may have then.
#[inline(always)]
pub(crate) fn add_line(
    shape: &Shape,
    calls: &mut Vec<Call>,
    cuts: &mut Vec<u32>,
    room: u64,
    next: BodyLine,
) -> Result<u64, AllocError>
    requires shape { IsShape shape.now }
    requires few { length calls.old.items ≤ 200000 }
    requires room { room ≡ reply_room shape.now calls.old.items }
    requires fits { room ≤ 67108864 }
    ensures body { OnOk result (body_with calls.new.items cuts.new.items
        ≡ with_next (body_with calls.old.items cuts.old.items) next) }
    ensures room { IfOk result (λ room. room ≡ reply_room shape.now calls.new.items) }
{
    match next {
        BodyLine::Call(call) => {
            let room = room + reply_bytes(shape, &call.verb);
            calls.push(call)?;
            Ok(room)
        }
        BodyLine::Phase => {
            cuts.push(calls.len() as u32)?;
            Ok(room)
        }
    }
}

/// Reads the next line, behind so many calls, whose replies may have so many bytes, and so many `phase` lines, or finds
/// that none is left.
fn next_line(
    alloc: Global,
    version: u32,
    shape: &Shape,
    count: usize,
    room: u64,
    cuts: usize,
    lines: &mut Lines,
) -> Result<Option<BodyLine>, ScriptRefusal>
    requires shape { IsShape shape.now }
    requires room { room ≤ 67108864 }
    ensures next { IsNext (body_line version shape.now count room cuts) lines.old.lines
        lines.new.lines result }
    ensures end { lines.new.end ≡ lines.old.end }
{
    if let Some(call) = lines.front_call(alloc, shape, count, room) {
        return Ok(Some(BodyLine::Call(call)));
    }
    let Some(line) = lines.next_line() else {
        return Ok(None);
    };
    let read = body_line(alloc, version, shape, count, room, cuts, &line);
    let next = with_number(line.number(), read)?;
    Ok(Some(next))
}

/// Reads a line behind so many calls, whose replies may have so many bytes, and so many `phase` lines.
pub(crate) fn body_line(
    alloc: Global,
    version: u32,
    shape: &Shape,
    count: usize,
    room: u64,
    cuts: usize,
    line: &TextLine,
) -> Result<BodyLine, LineError>
    requires shape { IsShape shape.now }
    requires room { room ≤ 67108864 }
    ensures { IsParsedAs (λ next. next) result (of_line line.now
        (body_line version shape.now count room cuts)) }
{
    let tokens = line.tokens()?;
    if starts_phase(version, &tokens) {
        phase_within(cuts, tokens)?;
        Ok(BodyLine::Phase)
    } else {
        let call = call_within(alloc, version, shape, count, room, tokens)?;
        Ok(BodyLine::Call(call))
    }
}

/// Whether a line starts the next phase.
fn starts_phase(version: u32, tokens: &Tokens) -> bool
    ensures { result ≡ starts_phase version tokens.now }
{
    version == 2 && tokens.is_next(b"phase")
}

/// Reads `phase`, behind so many `phase` lines.
#[tactic(auto, unfolding(crate::specs::Grammar::phase_line))]
fn phase_within(cuts: usize, mut tokens: Tokens) -> Result<(), Cause>
    ensures { result ≡ phase_within cuts tokens.entry }
{
    tokens.token()?;
    tokens.at_end(())?;
    if cuts < MAX_CUTS {
        Ok(())
    } else {
        Err(Cause::Phases)
    }
}

/// Reads a call behind so many calls, whose replies may have so many bytes.
fn call_within(
    alloc: Global,
    version: u32,
    shape: &Shape,
    count: usize,
    room: u64,
    tokens: Tokens,
) -> Result<Call, LineError>
    requires shape { IsShape shape.now }
    requires room { room ≤ 67108864 }
    ensures { IsParsedAs (λ call. call) result
        (call_within version shape.now count room tokens.entry) }
{
    let call = call_line(alloc, version, shape, tokens)?;
    if count >= MAX_CALLS {
        return Err(LineError::Fault(Cause::Calls));
    }
    if room + reply_bytes(shape, &call.verb) > MAX_ROOM {
        return Err(LineError::Fault(Cause::Room));
    }
    Ok(call)
}

/// Reads a call: its CPU, and what it does.
#[tactic(auto, unfolding(crate::specs::Grammar::call_line))]
fn call_line(
    alloc: Global,
    version: u32,
    shape: &Shape,
    mut tokens: Tokens,
) -> Result<Call, LineError>
    requires { IsShape shape.now }
    ensures { IsParsedAs (λ call. call) result (call_line version shape.now tokens.entry) }
{
    let cpu = tokens.cpu(shape.cpus)?;
    let verb = named_line(alloc, version, shape, tokens)?;
    Ok(Call { cpu, verb })
}

/// How many bytes the reply to a call may have.
pub(crate) fn reply_bytes(shape: &Shape, verb: &Verb) -> u64
    requires { IsShape shape.now }
    ensures { result ≡ reply_bytes shape.now verb.now }
{
    match verb {
        Verb::Lookup { side, .. } => u64::from(value_len(shape, *side)),
        Verb::Take { .. } => u64::from(value_len(shape, Side::Sys)),
        Verb::Next { .. } => u64::from(shape.key_size),
        Verb::BatchRead { count, .. } => {
            let entry = u64::from(shape.key_size) + u64::from(value_len(shape, Side::Sys));
            u64::from((*count).min(shape.elements)) * entry
        }
        Verb::Each { .. } => {
            let entry = u64::from(shape.key_size) + u64::from(shape.value_size);
            u64::from(shape.elements) * entry
        }
        Verb::Update { .. }
        | Verb::Delete { .. }
        | Verb::BatchUpdate { .. }
        | Verb::BatchDelete { .. } => 0,
    }
}
