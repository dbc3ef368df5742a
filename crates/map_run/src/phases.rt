//! The phases of a run: which calls they have, and what a pass with all CPUs reads at their start.

ghost use Rattle.std.specs.Prelude.{◌≡◌, ◌==◌, ◌++◌, ◌∷◌, [], suc, true, not, None, Some, IfOk, length, if◌then◌else◌};
ghost use Rattle.std.specs.List.{list_any};
ghost use Rattle.map_types.specs.declared.call.Call.{Call};
ghost use Rattle.map_batch.specs.Calls.{table_of};
ghost use Rattle.place_table.specs.Passes.{IsPassOf};
ghost use Rattle.place_table.specs.Views.{has_all};
ghost use Rattle.place_words.specs.Phases.{calls_before};
ghost use Rattle.run_records.specs.Parts.{lone_cpu};
ghost use Rattle.run_records.specs.Phased.{IsWhole, SawBits, Started};

use map_batch::AnyMap;
use map_report::PhaseStart;
use map_script::Script;
use map_types::{Call, List, NoMemory};
use place_table::Pass;
use std::alloc::Global;

/// Reads what stands at the start of a phase: the ticket word and every bit.
pub(crate) fn phase_start(
    alloc: Global,
    map: &AnyMap,
    pass: &mut Pass,
) -> Result<PhaseStart, NoMemory>
    requires { IsWhole (table_of map.now) pass.old }
    ensures { IfOk result (λ start. Started (table_of map.now) pass.old pass.new start) }
{
    let ticket = map.table().ticket_now(pass);
    let marked = marked_elements(alloc, map, pass)?;
    Ok(PhaseStart {
        ticket,
        marked: List::of(marked),
    })
}

/// Reads every bit, and gives the elements whose bit is set, ascending.
fn marked_elements(alloc: Global, map: &AnyMap, pass: &mut Pass) -> Result<Vec<u32>, NoMemory>
    requires table { IsPassOf (table_of map.now) pass.old }
    requires all_cpus { has_all pass.old.view ≡ true }
    ensures { IfOk result (λ marked. SawBits
        (table_of map.now).shape.elements pass.old pass.new marked.items) }
{
    let elements = map.table().shape().elements;
    let mut marked = Vec::new(alloc);
    for element in 0..elements {
        let bit = map.table().bit_of(pass, element);
        add_marked(&mut marked, element, bit)?;
    }
    Ok(marked)
}

/// Adds an element whose bit is set.
fn add_marked(marked: &mut Vec<u32>, element: u32, bit: bool) -> Result<(), NoMemory>
    ensures { IfOk result (λ _. marked.new.items
        ≡ marked.old.items ++ (if bit then element ∷ [] else [])) }
{
    if bit {
        return Ok(marked.push(element)?);
    }
    Ok(())
}

/// Of a phase's calls the CPU that makes them all, CPU 0 where there is no call, and none where several CPUs make them.
pub(crate) fn lone_cpu(calls: &[Call]) -> Option<u32>
    ensures { result ≡ lone_cpu calls.now }
{
    match calls {
        [first, rest @ ..] => only_cpu(first.cpu, rest),
        [] => Some(0),
    }
}

/// This CPU, where none of these calls is another's.
fn only_cpu(cpu: u32, calls: &[Call]) -> Option<u32>
    ensures { result ≡ (if list_any (λ (other : Call). not (other.cpu == cpu)) calls.now
        then None else Some cpu) }
{
    if has_other(cpu, calls) {
        None
    } else {
        Some(cpu)
    }
}

/// Whether one of these calls is another CPU's.
fn has_other(cpu: u32, calls: &[Call]) -> bool
    ensures { result ≡ list_any (λ (other : Call). not (other.cpu == cpu)) calls.now }
{
    calls.iter().any(|other| other.cpu != cpu)
}

/// How many calls stand before a phase.
pub(crate) fn phase_first(script: &Script, phase: usize) -> usize
    ensures { result ≡ calls_before script.now.cuts (length script.now.calls) phase }
{
    if phase == 0 {
        return 0;
    }
    phase_end(script, phase - 1)
}

/// How many calls stand before the end of a phase.
pub(crate) fn phase_end(script: &Script, phase: usize) -> usize
    ensures { result ≡ calls_before script.now.cuts (length script.now.calls) (suc phase) }
{
    match script.cuts.as_slice().get(phase) {
        Some(cut) => *cut as usize,
        None => script.calls.len(),
    }
}
