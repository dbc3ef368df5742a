//! The turns that steps name on a map that evicts, with what was noted of their moments.

ghost use Rattle.std.specs.Prelude.{◌≡◌, ◌∷◌, [], IfOk, false, slice_index_or};
ghost use Rattle.place_words.specs.StrandSteps.{row_read};
ghost use Rattle.evicting_traces.specs.Reading as reading;
ghost use Rattle.call_check.specs.PlainRows.{AreNamed, IsNamed};
ghost use Rattle.call_check.specs.RightCalls.{turns_named};
ghost use Rattle.call_check.specs.SeenRows.{AreKnown, gone_at, note_in, noted_at};

use crate::histories::Histories;
use evicting_traces::Seen;
use map_types::{DomainId, List, NoMemory, Shape};
use place_words::{StepRow, StrandStep};
use replay_words::Note;
use std::alloc::Global;

/// What is known of the turns of locks of lists.
#[derive(Drop)]
pub(crate) struct Notes<'a> {
    /// What the replay of each lock's history noted.
    pub(crate) of_locks: &'a [List<Note>],
    /// Which turns of each CPU's local lists are pushes that found their element gone since a refill had flushed it.
    pub(crate) gone: &'a [List<bool>],
    /// What is noted of any other turn.
    pub(crate) nothing: &'a Note,
}

/// The turns that these steps name, with what was noted of them.
pub(crate) fn seen_row<'a>(
    alloc: Global,
    shape: &Shape,
    histories: &Histories<'a>,
    notes: &Notes<'a>,
    row: StepRow<'_>,
) -> Result<Vec<Seen<'a>>, NoMemory>
    requires shape { histories.now.shape ≡ shape.now }
    requires known { AreKnown shape.now histories.now.all notes.now.of_locks.now notes.now.gone.now notes.now.nothing.now }
    requires named { AreNamed shape.now histories.now.all (row_read row) }
    ensures { IfOk result (λ seens. seens.items ≡ reading.all_seen shape.now (turns_named histories.now.all (row_read row.entry))) }
{
    let mut seens = Vec::new(alloc);
    for place in 0..row.len() {
        seens.push(seen_at(shape, histories, notes, row.at(place)))?;
    }
    Ok(seens)
}

/// The turn that a step names, with what was noted of it.
fn seen_at<'a>(
    shape: &Shape,
    histories: &Histories<'a>,
    notes: &Notes<'a>,
    step: StrandStep,
) -> Seen<'a>
    requires shape { histories.now.shape ≡ shape.now }
    requires known { AreKnown shape.now histories.now.all notes.now.of_locks.now notes.now.gone.now notes.now.nothing.now }
    requires named { IsNamed shape.now histories.now.all step }
    ensures { reading.all_seen shape.now (turns_named histories.now.all (step ∷ [])) ≡ result ∷ [] }
{
    match histories.named_by(step) {
        Some(entry) => Seen {
            lock: step.lock,
            part: entry.part,
            note: note_at(shape, notes, step),
            flushed: gone_at(notes.gone, step),
        },
        None => unreachable!(),
    }
}

/// What was noted of the turn that a step names.
fn note_at<'a>(shape: &Shape, notes: &Notes<'a>, step: StrandStep) -> &'a Note
    ensures { result.now ≡ noted_at shape.now notes.now.of_locks.now notes.now.nothing.now step }
{
    match step.lock {
        DomainId::Local(cpu) => note_in(notes, cpu, step.index),
        DomainId::Global => note_in(notes, shape.cpus, step.index),
        DomainId::CpuLru(cpu) => note_in(notes, cpu, step.index),
        _ => notes.nothing,
    }
}

/// What was noted of a turn, by the places of its lock's history and of the turn in that.
fn note_in<'a>(notes: &Notes<'a>, place: u32, index: u64) -> &'a Note
    ensures { result.now ≡ note_in notes.now.of_locks.now notes.now.nothing.now place index }
{
    let of_locks: &'a [List<Note>] = notes.of_locks;
    match of_locks.get(place as usize) {
        Some(of_lock) => note_or(of_lock.as_slice(), notes.nothing, index),
        None => notes.nothing,
    }
}

fn note_or<'a>(of_lock: &'a [Note], nothing: &'a Note, index: u64) -> &'a Note
    ensures { result.now ≡ slice_index_or of_lock.now index nothing.now }
{
    if index < of_lock.len() as u64 {
        &of_lock[index as usize]
    } else {
        nothing
    }
}

/// Whether the turn that a step names is a push that found its element gone since a refill had flushed it.
fn gone_at(gone: &[List<bool>], step: StrandStep) -> bool
    ensures { result ≡ gone_at gone.now step }
{
    match step.lock {
        DomainId::Local(cpu) => gone_in(gone, cpu, step.index),
        _ => false,
    }
}

fn gone_in(gone: &[List<bool>], cpu: u32, index: u64) -> bool
    ensures { result ≡ slice_index_or (slice_index_or gone.now cpu []) index false }
{
    match gone.get(cpu as usize) {
        Some(of_cpu) => gone_or(of_cpu.as_slice(), index),
        None => false,
    }
}

fn gone_or(of_cpu: &[bool], index: u64) -> bool
    ensures { result ≡ slice_index_or of_cpu.now index false }
{
    if index < of_cpu.len() as u64 {
        of_cpu[index as usize]
    } else {
        false
    }
}
