//! The pieces into which the strands that a table left are cut: what one CPU did in a phase, or all did.

ghost use Rattle.std.specs.Prelude.{◌≡◌, ◌<◌, ◌+◌, ◌^◌, ◌∷◌, [], IfOk, take, drop};
ghost use Rattle.std.specs.List.{range_with_len};
ghost use Rattle.place_words.specs.StrandSteps.{row_read};
ghost use Rattle.run_records.specs.Copies.{record_left};
ghost use Rattle.run_records.specs.Parts.{behind_steps, cpus_of, cut_strands, first_steps, left_at, place_behind};

use map_report::{PhaseStart, RunRecord};
use map_types::{List, NoMemory, Reply};
use place_table::Closed;
use place_words::{LockHistory, StepBuffer, StepRow, Strand, StrandSteps};
use std::alloc::Global;

/// A strand of the record.
#[derive(Clone, Copy)]
pub struct Piece {
    pub phase: u32,
    /// Its CPU, or none where all CPUs are in it.
    pub cpu: Option<u32>,
    /// How many steps it has.
    pub count: usize,
}

/// A place in a list of strands: so many strands, and so many steps of the next one, are before it.
#[derive(Clone, Copy)]
pub struct Place {
    pub strands: usize,
    pub steps: usize,
}

/// The record of a run whose calls were answered so, which had these pieces and starts of phases, and whose table left this.
pub(crate) fn record_of(
    alloc: Global,
    cpus: u32,
    pieces: &[Piece],
    replies: Vec<Reply>,
    starts: Vec<PhaseStart>,
    closed: &Closed,
) -> Result<RunRecord, NoMemory>
    ensures { IfOk result (λ kept. kept
        ≡ record_left cpus pieces.now replies.items starts.items closed.now) }
{
    let strands = cut_strands(alloc, cpus, pieces, closed.strands().as_slice())?;
    Ok(RunRecord {
        replies: List::of(replies),
        histories: histories_of(alloc, closed.histories())?,
        strands: List::of(strands),
        finals: closed.finals().copy(alloc)?,
        phases: List::of(starts),
    })
}

/// The strands, cut into these pieces.
fn cut_strands(
    alloc: Global,
    cpus: u32,
    pieces: &[Piece],
    strands: &[Strand],
) -> Result<Vec<Strand>, NoMemory>
    ensures { IfOk result (λ parts. parts.items ≡ cut_strands cpus pieces.now strands.now) }
{
    let mut parts = Vec::with_capacity(alloc, pieces.len())?;
    let mut place = Place {
        strands: 0,
        steps: 0,
    };
    for piece in pieces {
        parts.push(part_at(alloc, cpus, *piece, strands, place)?)?;
        place = behind(strands, place, piece.count);
    }
    Ok(parts)
}

/// The piece that starts at this place.
fn part_at(
    alloc: Global,
    cpus: u32,
    piece: Piece,
    strands: &[Strand],
    place: Place,
) -> Result<Strand, NoMemory>
    ensures { IfOk result (λ part. part ≡ record {
      phase = piece.phase;
      cpus = cpus_of cpus piece.cpu;
      steps = take piece.count (first_steps (left_at place strands.now));
    }) }
{
    let numbers = numbers_of(alloc, cpus, piece.cpu)?;
    let steps = steps_at(alloc, strands, place, piece.count)?;
    Ok(Strand {
        phase: piece.phase,
        cpus: List::of(numbers),
        steps,
    })
}

/// The CPU of a piece, or all CPUs.
fn numbers_of(alloc: Global, cpus: u32, cpu: Option<u32>) -> Result<Vec<u32>, NoMemory>
    ensures { IfOk result (λ numbers. numbers.items ≡ cpus_of cpus cpu) }
{
    match cpu {
        Some(cpu) => one_cpu(alloc, cpu),
        None => all_cpus(alloc, cpus),
    }
}

/// The number of a CPU.
fn one_cpu(alloc: Global, cpu: u32) -> Result<Vec<u32>, NoMemory>
    ensures { IfOk result (λ numbers. numbers.items ≡ cpu ∷ []) }
{
    let mut numbers = Vec::with_capacity(alloc, 1)?;
    numbers.push(cpu)?;
    Ok(numbers)
}

/// The numbers of all CPUs.
fn all_cpus(alloc: Global, cpus: u32) -> Result<Vec<u32>, NoMemory>
    ensures { IfOk result (λ numbers. numbers.items ≡ range_with_len 0 cpus) }
{
    Ok((0..cpus).collect(alloc)?)
}

/// So many of the steps that stand from a place on in its strand, or all.
fn steps_at(
    alloc: Global,
    strands: &[Strand],
    place: Place,
    count: usize,
) -> Result<StrandSteps, NoMemory>
    ensures { IfOk result (λ steps. steps ≡ take count (first_steps (left_at place strands.now))) }
{
    match strands.get(place.strands) {
        Some(strand) => steps_from(alloc, &strand.steps, place.steps, count),
        None => Ok(StrandSteps::of(StepBuffer::new(alloc))),
    }
}

/// So many steps of a strand behind so many, or all that there are. Where these are all of its steps, they are shared if the
/// strand's are.
fn steps_from(
    alloc: Global,
    steps: &StrandSteps,
    before: usize,
    count: usize,
) -> Result<StrandSteps, NoMemory>
    ensures { IfOk result (λ part. part ≡ take count (drop before steps.now)) }
{
    if before == 0 && steps.len() <= count {
        return steps.copy(alloc);
    }
    some_steps(alloc, steps.row(), before, count)
}

/// So many steps behind so many, or all that there are.
fn some_steps(
    alloc: Global,
    steps: StepRow<'_>,
    before: usize,
    count: usize,
) -> Result<StrandSteps, NoMemory>
    ensures { IfOk result (λ part. part ≡ take count (drop before (row_read steps.entry))) }
{
    steps.behind(before).first(count).copy(alloc)
}

/// The place behind so many steps more of its strand, or behind the strand where it has no more than these.
fn behind(strands: &[Strand], place: Place, count: usize) -> Place
    ensures { left_at result strands.now ≡ behind_steps count (left_at place strands.now) }
{
    match strands.get(place.strands) {
        Some(strand) => behind_in(strand.steps.len(), place, count),
        None => place,
    }
}

/// The same within a strand of so many steps.
fn behind_in(steps: usize, place: Place, count: usize) -> Place
    requires { place.strands + 1 < 2 ^ 64 }
    ensures { result ≡ place_behind steps place count }
{
    if count < steps.saturating_sub(place.steps) {
        return Place {
            strands: place.strands,
            steps: place.steps + count,
        };
    }
    Place {
        strands: place.strands + 1,
        steps: 0,
    }
}

/// The same histories once more. Those that a closed table shares are not copied.
fn histories_of(alloc: Global, histories: &List<LockHistory>) -> Result<List<LockHistory>, NoMemory>
    ensures { IfOk result (λ copies. copies ≡ histories.now) }
{
    match histories.again() {
        Some(same) => Ok(same),
        None => Ok(List::of(copies_of(alloc, histories.as_slice())?)),
    }
}

/// Copies of histories.
fn copies_of(alloc: Global, histories: &[LockHistory]) -> Result<Vec<LockHistory>, NoMemory>
    ensures { IfOk result (λ copies. copies.items ≡ histories.now) }
{
    let mut copies = Vec::with_capacity(alloc, histories.len())?;
    for history in histories {
        copies.push(history.copy(alloc)?)?;
    }
    Ok(copies)
}
