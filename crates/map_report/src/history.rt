//! The lines of a report that say what happened under each lock, and in which order.

ghost use Rattle.std.specs.Prelude.{◌≡◌, [], ◌∷◌, ◌++◌, OnOk, codes, decimal, map, string_bytes};
ghost use Rattle.std.specs.List.{flat_map};
ghost use Rattle.place_words.specs.Entries.{entry_read, part_read};
ghost use Rattle.map_report.specs.History.{entry_line, history_lines, joined, lock_line, lock_lines, part_text, phase_line, phase_lines, phase_name, record_line, step_line, strand_line, strand_lines};

use crate::lines::{Lines, Section, add_numbered};
use crate::piece::{Piece, push_decimal, push_each, push_number};
use crate::words::push_lock;
use crate::{PhaseStart, RunRecord};
use place_words::{Entries, EntryAt, LockHistory, PartAt, Strand, StrandStep, StrandSteps};
use std::alloc::AllocError;

/// Adds each lock that has an entry with its entries, then, of a script of version 2, the start of each phase, and then
/// each strand with its steps.
pub(crate) fn add_history<L: Lines>(
    lines: &mut L,
    version: u32,
    kept: &RunRecord,
) -> Result<(), AllocError>
    ensures { OnOk result (L.written lines.new
        ≡ L.written lines.old ++ flat_map L.line (history_lines version kept.now)) }
{
    lines.add(&RecordVersion {
        number: version as u64 + 1,
    })?;
    add_locks(lines, kept.histories.as_slice())?;
    add_phases(lines, version, kept.phases.as_slice())?;
    add_strands(lines, version, kept.strands.as_slice())
}

/// Adds each lock that has an entry, with its entries.
fn add_locks<L: Lines>(lines: &mut L, histories: &[LockHistory]) -> Result<(), AllocError>
    ensures { OnOk result (L.written lines.new
        ≡ L.written lines.old ++ flat_map L.line (flat_map lock_lines histories.now)) }
{
    for history in histories {
        add_lock(lines, history)?;
    }
    Ok(())
}

/// Adds a lock with its entries, if it has any.
fn add_lock<L: Lines>(lines: &mut L, history: &LockHistory) -> Result<(), AllocError>
    ensures { OnOk result (L.written lines.new
        ≡ L.written lines.old ++ flat_map L.line (lock_lines history.now)) }
{
    if history.entries.is_empty() {
        return Ok(());
    }
    lines.add(history)?;
    add_entries(lines, &history.entries)
}

/// Adds a line for each of the turns of a lock.
fn add_entries<L: Lines>(lines: &mut L, entries: &Entries) -> Result<(), AllocError>
    ensures { OnOk result (L.written lines.new
        ≡ L.written lines.old ++ flat_map L.line (map entry_line entries.now)) }
{
    for index in 0..entries.len() {
        lines.add(&entries.at(index))?;
    }
    Ok(())
}

/// Which lines the text of a record has.
#[derive(Clone, Copy)]
pub(crate) struct RecordVersion {
    pub(crate) number: u64,
}

/// `record 2` or `record 3`, the first line.
impl Piece for RecordVersion {
    ghost shown = { record_line };

    fn push_to(&self, text: &mut String) -> Result<(), AllocError> {
        text.push_str("record")?;
        push_number(text, self.number)
    }
}

/// `lock NAME N`, the line above its entries.
impl Piece for LockHistory {
    ghost shown = { lock_line };

    fn push_to(&self, text: &mut String) -> Result<(), AllocError> {
        text.push_str("lock ")?;
        push_lock(text, self.lock)?;
        push_number(text, self.entries.len() as u64)
    }
}

/// `TICKET CPU CALL PART`
impl Piece for EntryAt<'_> {
    ghost shown = { λ entry. entry_line (entry_read entry) };

    fn push_to(&self, text: &mut String) -> Result<(), AllocError> {
        push_decimal(text, self.ticket)?;
        self.cpu.push_to(text)?;
        self.call.push_to(text)?;
        text.push_str(" ")?;
        self.part.push_to(text)
    }
}

impl Piece for PartAt<'_> {
    ghost shown = { λ part. part_text (part_read part) };

    fn push_to(&self, text: &mut String) -> Result<(), AllocError> {
        match self {
            PartAt::Bucket(part) => match part.part() {
                Ok(part) => part.push_to(text),
                Err(part) => part.push_to(text),
            },
            PartAt::Free(part) => part.push_to(text),
            PartAt::Local(part) => match part.part() {
                Ok(part) => part.push_to(text),
                Err(part) => part.push_to(text),
            },
            PartAt::Global(part) => match part.part() {
                Ok(part) => part.push_to(text),
                Err(part) => part.push_to(text),
            },
            PartAt::Own(part) => part.part().push_to(text),
        }
    }
}

/// Adds the start of each phase, in version 2.
fn add_phases<L: Lines>(
    lines: &mut L,
    version: u32,
    starts: &[PhaseStart],
) -> Result<(), AllocError>
    ensures { OnOk result (L.written lines.new
        ≡ L.written lines.old ++ flat_map L.line (phase_lines version starts.now)) }
{
    if version == 2 {
        add_numbered(lines, 0, starts)
    } else {
        Ok(())
    }
}

/// One line, with the number of the phase.
impl Section for PhaseStart {
    ghost lines_at = { λ number start. phase_line number start ∷ [] };

    fn add_to<L: Lines>(&self, number: usize, lines: &mut L) -> Result<(), AllocError> {
        lines.add(&PhaseLine {
            number,
            start: self,
        })
    }
}

/// The start of a phase, with its number.
#[derive(Clone, Copy)]
struct PhaseLine<'a> {
    number: usize,
    start: &'a PhaseStart,
}

/// `phase P TICKET marked` and the marked elements.
impl Piece for PhaseLine<'_> {
    ghost shown = { λ line. phase_line line.number line.start.now };

    fn push_to(&self, text: &mut String) -> Result<(), AllocError> {
        text.push_str("phase")?;
        push_number(text, self.number as u64)?;
        push_number(text, self.start.ticket)?;
        text.push_str(" marked")?;
        push_each(text, self.start.marked.as_slice())
    }
}

/// Adds each strand with its steps.
fn add_strands<L: Lines>(lines: &mut L, version: u32, strands: &[Strand]) -> Result<(), AllocError>
    ensures { OnOk result (L.written lines.new
        ≡ L.written lines.old ++ flat_map L.line (flat_map (strand_lines version) strands.now)) }
{
    for strand in strands {
        lines.add(&StrandLine { version, strand })?;
        add_steps(lines, &strand.steps)?;
    }
    Ok(())
}

/// Adds a line for each of the steps of a strand.
fn add_steps<L: Lines>(lines: &mut L, steps: &StrandSteps) -> Result<(), AllocError>
    ensures { OnOk result (L.written lines.new
        ≡ L.written lines.old ++ flat_map L.line (map step_line steps.now)) }
{
    for place in 0..steps.len() {
        lines.add(&steps.at(place))?;
    }
    Ok(())
}

/// A strand, of a script of some version.
#[derive(Clone, Copy)]
struct StrandLine<'a> {
    version: u32,
    strand: &'a Strand,
}

/// `strand CPUS N` or `strand P CPUS N`, the line above its steps.
impl Piece for StrandLine<'_> {
    ghost shown = { λ line. strand_line line.version line.strand.now };

    fn push_to(&self, text: &mut String) -> Result<(), AllocError> {
        let strand = self.strand;
        text.push_str("strand ")?;
        push_phase(text, self.version, strand.phase)?;
        push_joined(text, strand.cpus.as_slice())?;
        push_number(text, strand.steps.len() as u64)
    }
}

/// Adds a strand's phase, in version 2.
fn push_phase(text: &mut String, version: u32, phase: u32) -> Result<(), AllocError>
    ensures { OnOk result (string_bytes text.new
        ≡ string_bytes text.old ++ phase_name version phase) }
{
    if version == 2 {
        push_decimal(text, phase as u64)?;
        text.push_str(" ")
    } else {
        Ok(())
    }
}

/// Adds numbers with commas between them.
fn push_joined(text: &mut String, numbers: &[u32]) -> Result<(), AllocError>
    ensures { OnOk result (string_bytes text.new ≡ string_bytes text.old ++ joined numbers.now) }
{
    match numbers.split_first() {
        Some((first, others)) => {
            push_decimal(text, *first as u64)?;
            push_behind_commas(text, others)
        }
        None => Ok(()),
    }
}

/// Adds numbers, each behind a comma.
fn push_behind_commas(text: &mut String, numbers: &[u32]) -> Result<(), AllocError>
    ensures { OnOk result (string_bytes text.new
        ≡ string_bytes text.old ++ flat_map (λ number. codes "," ++ decimal number) numbers.now) }
{
    for number in numbers {
        text.push_str(",")?;
        push_decimal(text, *number as u64)?;
    }
    Ok(())
}

/// `at NAME I`
impl Piece for StrandStep {
    ghost shown = { step_line };

    fn push_to(&self, text: &mut String) -> Result<(), AllocError> {
        text.push_str("at ")?;
        push_lock(text, self.lock)?;
        push_number(text, self.index)
    }
}
