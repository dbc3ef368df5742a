//! Which strand each CPU is in, in each phase.

ghost use Rattle.std.specs.Prelude.{◌≡◌, ◌+◌, ◌*◌, ◌≤◌, ◌<◌, ◌==◌, ℕ, All, IfOk, length, slice_index_or, if◌then◌else◌};
ghost use Rattle.std.specs.List.{list_any};
ghost use Rattle.map_script.specs.WellFormed.{IsWellFormed};
ghost use Rattle.place_words.specs.Phases.{phase_of};
ghost use Rattle.record_shape.specs.WellShaped.{WellShaped};
ghost use Rattle.record_flaws.specs.StrandFlaws.{AreStrandsRight};
ghost use Rattle.call_check.specs.StrandPlaces.{cell};
ghost use Rattle.call_check.specs.Steps.{LeadToStrands};

use map_report::RunRecord;
use map_script::Script;
use map_types::NoMemory;
use place_words::Strand;
use std::alloc::Global;

/// The place of the strand that each CPU is in, in each phase.
pub(crate) fn strands_by_cpu(
    alloc: Global,
    script: &Script,
    kept: &RunRecord,
) -> Result<Vec<usize>, NoMemory>
    requires script { IsWellFormed script.now }
    requires shaped { WellShaped script.now kept.now }
    requires strands { AreStrandsRight script.now kept.now }
    ensures size { IfOk result (λ table. length table.items ≡ (length script.now.cuts + 1) * 16) }
    ensures lead { IfOk result (λ table. LeadToStrands kept.now.strands table.items) }
{
    let strands = kept.strands.as_slice();
    let mut table = vec![in alloc; 0; (script.cuts.len() + 1) * 16]?;
    for place in 0..strands.len() {
        write_cpus(&mut table, place, &strands[place]);
    }
    Ok(table)
}

/// Writes the place of a strand for each of its CPUs.
fn write_cpus(table: &mut Vec<usize>, place: usize, strand: &Strand)
    requires phase { strand.now.phase ≤ 63 }
    requires size { (strand.now.phase + 1) * 16 ≤ length table.old.items }
    requires cpus { All (λ cpu. cpu < 16) strand.now.cpus }
    ensures size { length table.new.items ≡ length table.old.items }
    ensures written { (k : ℕ) → slice_index_or table.new.items k 0
        ≡ (if list_any (λ cpu. cell strand.now.phase cpu == k) strand.now.cpus then place else slice_index_or table.old.items k 0) }
{
    let cpus = strand.cpus.as_slice();
    for cpu in cpus {
        table[cell(strand.phase as usize, *cpu)] = place;
    }
}

/// The place of a CPU in a phase.
pub(crate) fn cell(phase: usize, cpu: u32) -> usize
    requires phase { phase ≤ 63 }
    requires cpu { cpu < 16 }
    ensures { result ≡ cell phase cpu }
{
    phase * 16 + cpu as usize
}

/// How many cuts are below the number of a call.
pub(crate) fn phase_of(cuts: &[u32], call: u32) -> usize
    ensures exact { result ≡ phase_of cuts.now call }
    ensures within { result ≤ length cuts.now }
{
    let mut phase = 0;
    for cut in cuts {
        if *cut < call {
            phase += 1;
        }
    }
    phase
}
