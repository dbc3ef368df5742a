//! The strands.

ghost use Rattle.std.specs.Prelude.{◌≡◌, ◌≤◌, IfOk, length};
ghost use Rattle.map_types.specs.Creation.{IsShape};
ghost use Rattle.record_reading.specs.LineReaders.{step_part};
ghost use Rattle.record_reading.specs.Outcomes.{Reads};
ghost use Rattle.record_reading.specs.Readers.{whole};
ghost use Rattle.record_reading.specs.RecordReaders.{strands_section};
ghost use Rattle.record_reading.specs.Sections.{one_line, so_many};

use crate::history::step_line;
use crate::lines::Lines;
use crate::strand_lines::strand_line;
use map_script::Script;
use map_types::{List, NoMemory, Shape};
use place_words::{StepBuffer, Strand, StrandStep, StrandSteps};
use std::alloc::Global;

/// A step.
#[tactic(auto, using(crate::proofs::LineLemmas::line_found, crate::proofs::LineLemmas::line_other, crate::proofs::LineLemmas::line_missing))]
fn read_step(shape: &Shape, lines: &mut Lines) -> Result<Option<StrandStep>, NoMemory>
    requires { IsShape shape.now }
    ensures lines { IfOk result (Reads (one_line (whole (step_part shape.now))) lines.old.0 lines.new.0) }
    ensures rest { lines.new.1 ≡ lines.old.1 }
{
    let Some(line) = lines.first() else {
        return Ok(None);
    };
    let Some(step) = step_line(shape, line) else {
        return Ok(None);
    };
    lines.pass();
    Ok(Some(step))
}

/// So many steps. The text says how many there are to be, so no room is made for them before they are read.
#[tactic(auto, using(crate::proofs::LoopLemmas::many_more, crate::proofs::LoopLemmas::many_none, crate::proofs::LoopLemmas::many_done))]
fn read_steps(
    alloc: Global,
    shape: &Shape,
    count: u64,
    lines: &mut Lines,
) -> Result<Option<StrandSteps>, NoMemory>
    requires { IsShape shape.now }
    ensures lines { IfOk result (Reads (so_many count (one_line (whole (step_part shape.now))))
        lines.old.0 lines.new.0) }
    ensures rest { lines.new.1 ≡ lines.old.1 }
{
    let mut steps = StrandSteps::of(StepBuffer::new(alloc));
    for place in 0..count {
        let Some(step) = read_step(shape, lines)? else {
            return Ok(None);
        };
        steps.push(step)?;
    }
    Ok(Some(steps))
}

/// Each strand, as far as lines of strands go.
#[tactic(auto, using(crate::proofs::StrandLemmas::strands_more, crate::proofs::StrandLemmas::strands_none, crate::proofs::StrandLemmas::strands_done, crate::proofs::StrandLemmas::strands_end))]
pub(crate) fn read_strands(
    alloc: Global,
    script: &Script,
    lines: &mut Lines,
) -> Result<Option<List<Strand>>, NoMemory>
    requires shape { IsShape script.now.shape }
    requires few { length script.now.cuts ≤ 63 }
    ensures lines { IfOk result (Reads (strands_section script.now) lines.old.0 lines.new.0) }
    ensures rest { lines.new.1 ≡ lines.old.1 }
{
    let shape = &script.shape;
    let phases = script.cuts.len() as u32 + 1;
    let mut strands = List::of(Vec::new(alloc));
    let mut least = 0;
    while let Some(line) = lines.first() {
        let head = strand_line(alloc, script.version, shape, phases, least, line)?;
        let Some((phase, (cpus, count))) = head else {
            return Ok(Some(strands));
        };
        lines.pass();
        let Some(steps) = read_steps(alloc, shape, count, lines)? else {
            return Ok(None);
        };
        strands.push(Strand { phase, cpus, steps })?;
        least = phase;
    }
    Ok(Some(strands))
}
