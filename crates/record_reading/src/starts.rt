//! The starts of phases.

ghost use Rattle.std.specs.Prelude.{◌≡◌, ◌≤◌, [], ◌∷◌, IfOk, Some, length};
ghost use Rattle.map_types.specs.Creation.{IsShape};
ghost use Rattle.record_reading.specs.LineReaders.{phase_start};
ghost use Rattle.record_reading.specs.Outcomes.{Reads};
ghost use Rattle.record_reading.specs.RecordReaders.{starts_section};
ghost use Rattle.record_reading.specs.Sections.{one_line};
ghost use Rattle.record_shape.specs.WellShaped.{only_start};

use crate::lines::Lines;
use crate::sections::{Numbered, read_numbered};
use crate::strand_lines::phase_line;
use map_report::PhaseStart;
use map_script::Script;
use map_types::{List, NoMemory, Numbers, Shape};
use std::alloc::Global;

/// The line of a phase's start.
impl Numbered for PhaseStart {
    ghost section = { λ shape phase. one_line (phase_start shape phase) };

    #[tactic(auto, using(crate::proofs::LineLemmas::line_found, crate::proofs::LineLemmas::line_other, crate::proofs::LineLemmas::line_missing))]
    fn read<'a>(
        alloc: Global,
        shape: &Shape,
        number: u32,
        lines: &mut Lines<'a>,
    ) -> Result<Option<PhaseStart>, NoMemory> {
        let Some(line) = lines.first() else {
            return Ok(None);
        };
        let Some(start) = phase_line(alloc, shape, number, line)? else {
            return Ok(None);
        };
        lines.pass();
        Ok(Some(start))
    }
}

/// The start of each phase of a script of version 2. One of version 1 has one phase, which has no line.
pub(crate) fn read_starts(
    alloc: Global,
    script: &Script,
    lines: &mut Lines,
) -> Result<Option<List<PhaseStart>>, NoMemory>
    requires shape { IsShape script.now.shape }
    requires cuts { length script.now.cuts ≤ 63 }
    ensures lines { IfOk result (Reads (starts_section script.now) lines.old.0 lines.new.0) }
    ensures rest { lines.new.1 ≡ lines.old.1 }
{
    if script.version == 2 {
        read_numbered(alloc, &script.shape, script.cuts.len() as u32 + 1, lines)
    } else {
        only_start(alloc)
    }
}

/// The one start of a script of version 1.
fn only_start(alloc: Global) -> Result<Option<List<PhaseStart>>, NoMemory>
    ensures { IfOk result (λ starts. starts ≡ Some (only_start ∷ [])) }
{
    let mut starts = List::of(Vec::new(alloc));
    starts.push(PhaseStart {
        ticket: 0,
        marked: Numbers::of(Vec::new(alloc)),
    })?;
    Ok(Some(starts))
}
