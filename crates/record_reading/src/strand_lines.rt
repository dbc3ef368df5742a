//! The lines of phases' starts, and the first lines of strands.

ghost use Rattle.std.specs.Prelude.{◌≡◌, IfOk, MatchOption, None, Some, codes};
ghost use Rattle.record_reading.specs.LineReaders.{joined_numbers, phase_front, phase_start, strand_head, strand_rest};
ghost use Rattle.record_reading.specs.Readers.{after, number, whole};

use crate::dump_lines::marks;
use crate::lock_names::behind_numbered;
use crate::numbers::{blank_number, number_below};
use crate::to_end::ascends;
use crate::words::behind;
use map_report::PhaseStart;
use map_types::{List, NoMemory, Numbers, Shape};
use std::alloc::Global;

/// `phase P TICKET marked`, and the elements whose bit is set.
#[tactic(auto, unfolding(crate::specs::LineReaders::phase_start))]
pub(crate) fn phase_line(
    alloc: Global,
    shape: &Shape,
    phase: u32,
    line: &[u8],
) -> Result<Option<PhaseStart>, NoMemory>
    ensures { IfOk result (λ found. found ≡ phase_start shape.now phase line.now) }
{
    let Some(rest) = behind_numbered(line, b"phase", phase) else {
        return Ok(None);
    };
    let Some((ticket, rest)) = blank_number(rest) else {
        return Ok(None);
    };
    let Some(rest) = behind(rest, b" marked") else {
        return Ok(None);
    };
    let Some(marked) = marks(alloc, shape, rest)? else {
        return Ok(None);
    };
    Ok(Some(PhaseStart { ticket, marked }))
}

/// `strand CPUS N`, and `strand P CPUS N` where the script is of version 2: its phase, its CPUs, and how many steps it has. The
/// phase isn't before this one.
#[tactic(auto, unfolding(crate::specs::LineReaders::strand_head))]
pub(crate) fn strand_line(
    alloc: Global,
    version: u32,
    shape: &Shape,
    phases: u32,
    least: u32,
    line: &[u8],
) -> Result<Option<(u32, (Numbers, u64))>, NoMemory>
    ensures { IfOk result (λ found. found ≡ strand_head version shape.now phases least line.now) }
{
    let Some(rest) = behind(line, b"strand ") else {
        return Ok(None);
    };
    let Some((phase, rest)) = phase_front(version, phases, rest) else {
        return Ok(None);
    };
    let Some(strand) = strand_rest(alloc, shape, rest)? else {
        return Ok(None);
    };
    if phase < least {
        return Ok(None);
    }
    Ok(Some((phase, strand)))
}

/// The phase of a strand, where the script is of version 2.
#[tactic(auto, unfolding(crate::specs::LineReaders::phase_front))]
fn phase_front(version: u32, phases: u32, text: &[u8]) -> Option<(u32, &[u8])>
    ensures { MatchOption result (phase_front version phases text.now ≡ None)
        (λ f. phase_front version phases text.now ≡ Some (f.0, f.1.now)) }
{
    if version != 2 {
        return Some((0, text));
    }
    let (phase, rest) = number_below(text, phases)?;
    let rest = behind(rest, b" ")?;
    Some((phase, rest))
}

/// The CPUs of a strand, and how many steps it has.
#[tactic(auto, unfolding(crate::specs::LineReaders::strand_rest))]
fn strand_rest(
    alloc: Global,
    shape: &Shape,
    text: &[u8],
) -> Result<Option<(Numbers, u64)>, NoMemory>
    ensures { IfOk result (λ found. found ≡ whole (strand_rest shape.now) text.now) }
{
    let (cpus, rest) = joined_numbers(alloc, shape.cpus, text)?;
    if !ascends(cpus.as_slice()) {
        return Ok(None);
    }
    let Some((count, rest)) = blank_number(rest) else {
        return Ok(None);
    };
    if !rest.is_empty() {
        return Ok(None);
    }
    Ok(Some((cpus, count)))
}

/// Numbers below this one with commas between them, as many as there are, and what stands behind them.
#[tactic(auto, using(crate::proofs::CommaLemmas::joined_none, crate::proofs::CommaLemmas::joined_start, crate::proofs::CommaLemmas::joined_more, crate::proofs::CommaLemmas::joined_over, crate::proofs::CommaLemmas::joined_full))]
fn joined_numbers(alloc: Global, below: u32, text: &[u8]) -> Result<(Numbers, &[u8]), NoMemory>
    ensures { IfOk result (λ f. joined_numbers below text.now ≡ Some (f.0, f.1.now)) }
{
    let mut found = List::of(Vec::new(alloc));
    let Some((first, behind_first)) = number_below(text, below) else {
        return Ok((found, text));
    };
    found.push(first)?;
    let mut rest = behind_first;
    for i in 0..below {
        let Some((number, next)) = comma_below(rest, below) else {
            return Ok((found, rest));
        };
        found.push(number)?;
        rest = next;
    }
    Ok((found, rest))
}

/// A number below this one, behind a comma.
fn comma_below(text: &[u8], below: u32) -> Option<(u32, &[u8])>
    ensures { MatchOption result (after (codes ",") (number below) text.now ≡ None)
        (λ f. after (codes ",") (number below) text.now ≡ Some (f.0, f.1.now)) }
{
    number_below(behind(text, b",")?, below)
}
