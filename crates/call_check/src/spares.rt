//! The spare elements of the CPUs, by moments.

ghost use Rattle.std.specs.Prelude.{◌≡◌, ◌<◌, ℕ, if◌then◌else◌, IfOk, length, map, slice_get, slice_index_or, []};
ghost use Rattle.std.specs.List.{range_with_len};
ghost use Rattle.map_types.specs.Creation.{IsShape};
ghost use Rattle.map_report.specs.Serial.{has_spares, opening};
ghost use Rattle.map_script.specs.WellFormed.{IsWellFormed};
ghost use Rattle.record_shape.specs.Fits.{AllFit};
ghost use Rattle.record_shape.specs.WellShaped.{HistoryFits};
ghost use Rattle.call_check.specs.RightCalls.{spare_last};
ghost use Rattle.call_check.specs.Spares.{AreSpares, Rise, last_left, spare_in};

use crate::changes::{Change, by_cpu, sorted_changes};
use map_script::Script;
use map_types::{List, MapKind, NoMemory, Shape};
use place_words::{LockHistory, spares_at_first};
use std::alloc::Global;

/// The spares of the CPUs at first, and of each CPU its replacements by their moments.
#[derive(Drop)]
pub(crate) struct Spares {
    pub(crate) first: Vec<u32>,
    pub(crate) changes: Vec<List<Change>>,
}

/// The spares of the CPUs at each moment.
pub(crate) fn spares_of(
    alloc: Global,
    script: &Script,
    histories: &[LockHistory],
) -> Result<Spares, NoMemory>
    requires { IsShape script.now.shape }
    ensures { IfOk result (λ spares. AreSpares script.now.cuts script.now.shape histories.now spares.first.items spares.changes.items) }
{
    let first = first_spares(alloc, &script.shape)?;
    let sorted = sorted_changes(alloc, script.cuts.as_slice(), histories)?;
    let changes = by_cpu(alloc, script.shape.cpus, sorted.as_slice())?;
    Ok(Spares { first, changes })
}

/// The spares of the CPUs at first.
fn first_spares(alloc: Global, shape: &Shape) -> Result<Vec<u32>, NoMemory>
    requires { IsShape shape.now }
    ensures { IfOk result (λ spares. spares.items ≡ (opening shape.now).spares) }
{
    if has_spares(shape.kind) {
        let first = spares_at_first(alloc, shape)?;
        Ok(first)
    } else {
        Ok(Vec::new(alloc))
    }
}

/// Whether the CPUs of a map of this kind have spares.
fn has_spares(kind: MapKind) -> bool
    ensures { result ≡ has_spares kind }
{
    match kind {
        MapKind::Hash => true,
        MapKind::PercpuHash => false,
        MapKind::LruHash => false,
        MapKind::LruPercpuHash => false,
    }
}

/// The spare that a CPU has before a moment.
pub(crate) fn spare_before(spares: &Spares, cpu: u32, moment: u128) -> Option<u32>
    requires cpu { cpu < length spares.now.changes.items }
    requires rise { (c : ℕ) → Rise (slice_index_or spares.now.changes.items c []) }
    ensures { result ≡ spare_in spares.now.first.items spares.now.changes.items cpu moment }
{
    let own = changes_by(spares.changes.as_slice(), cpu);
    let count = own.partition_point(|change| change.moment < moment);
    left_after(spares.first.as_slice(), cpu, &own[..count])
}

/// The replacements by a CPU.
fn changes_by(changes: &[List<Change>], cpu: u32) -> &[Change]
    requires { cpu < length changes.now }
    ensures { result.now ≡ slice_index_or changes.now cpu [] }
{
    changes[cpu as usize].as_slice()
}

/// The spare that replacements left a CPU.
fn left_after(first: &[u32], cpu: u32, changes: &[Change]) -> Option<u32>
    ensures { result ≡ last_left (slice_get first.now cpu) changes.now }
{
    match changes.last() {
        Some(change) => Some(change.old),
        None => spare_at(first, cpu),
    }
}

/// The spare of a CPU at first.
fn spare_at(first: &[u32], cpu: u32) -> Option<u32>
    ensures { result ≡ slice_get first.now cpu }
{
    match first.get(cpu as usize) {
        Some(spare) => Some(*spare),
        None => None,
    }
}

/// The spare that each CPU has at the end.
pub fn last_spares(
    alloc: Global,
    script: &Script,
    histories: &[LockHistory],
) -> Result<Vec<Option<u32>>, NoMemory>
    requires script { IsWellFormed script.now }
    requires fit { AllFit (HistoryFits script.now.shape (length script.now.calls)) histories.now }
    ensures { IfOk result (λ left. left.items ≡ map (spare_last script.now.cuts script.now.shape histories.now) (range_with_len 0 script.now.shape.cpus)) }
{
    let spares = spares_of(alloc, script, histories)?;
    let mut left = Vec::new(alloc);
    let evicts = script.shape.kind.is_lru();
    for cpu in 0..script.shape.cpus {
        let changes = changes_by(spares.changes.as_slice(), cpu);
        left.push(left_at_end(evicts, spares.first.as_slice(), cpu, changes))?;
    }
    Ok(left)
}

/// The spare that replacements left a CPU, if they leave any: on a map that evicts they don't.
fn left_at_end(evicts: bool, first: &[u32], cpu: u32, changes: &[Change]) -> Option<u32>
    ensures { result ≡ (if evicts then slice_get first.now cpu else last_left (slice_get first.now cpu) changes.now) }
{
    if evicts {
        spare_at(first, cpu)
    } else {
        left_after(first, cpu, changes)
    }
}
