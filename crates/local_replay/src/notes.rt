//! What is noted of turns of local lists. Rows lie tail first.

ghost use Rattle.map_types.specs.declared.row.Row.{Row};
ghost use Rattle.place_words.specs.declared.visits.Look.{Look};
ghost use Rattle.place_words.specs.declared.visits.Try.{Try};
ghost use Rattle.place_words.specs.Takings.{stored_hash, walk_probes};
ghost use Rattle.std.specs.BTreeMap.{get};
ghost use Rattle.std.specs.Ordering.{nat_cmp};
ghost use Rattle.std.specs.Prelude.{◌≡◌, ℕ, IfOk, filter, is_some, map, reverse};

use map_types::{List, NoMemory, Numbers, Row};
use place_words::{Look, Try};
use std::alloc::Global;
use std::collections::BTreeMap;

/// The hashes of rows, in their order.
pub(crate) fn hashes_of(alloc: Global, rows: &[Row]) -> Result<Numbers, NoMemory>
    ensures { IfOk result (λ hashes. hashes ≡ map (λ (row : Row). row.hash) rows.now) }
{
    let hashes: Vec<u32> = rows.iter().map(|row| row.hash).collect(alloc)?;
    Ok(Numbers::of(hashes))
}

/// The stored hashes of the elements that the walks of a theft probed: each that of the element's row nearest to the head.
pub(crate) fn probed_hashes(
    alloc: Global,
    rows: &[Row],
    first: &[Look],
    second: &[Try],
) -> Result<List<Option<u32>>, NoMemory>
    ensures { IfOk result (λ hashes. hashes
        ≡ map (λ (probe : Try). stored_hash probe.element (reverse rows.now)) (walk_probes first.now second.now)) }
{
    let probed = probed_in(alloc, first, second)?;
    if probed.is_empty() {
        return Ok(List::of(Vec::new(alloc)));
    }
    let hashes = hashes_by_element(alloc, rows)?;
    hashes_at(alloc, &hashes, probed.as_slice())
}

/// The elements that looks and tries probed.
fn probed_in(alloc: Global, looks: &[Look], tries: &[Try]) -> Result<Vec<u32>, NoMemory>
    ensures { IfOk result (λ elements. elements.items ≡ map (λ (probe : Try). probe.element) (walk_probes looks.now tries.now)) }
{
    let mut elements = looked_at(alloc, looks)?;
    for attempt in tries {
        elements.push(attempt.element)?;
    }
    Ok(elements)
}

/// The elements that looks probed.
fn looked_at(alloc: Global, looks: &[Look]) -> Result<Vec<u32>, NoMemory>
    ensures { IfOk result (λ elements. elements.items ≡ map (λ (look : Look). look.element) (filter (λ (look : Look). is_some look.probed) looks.now)) }
{
    Ok(
        looks
            .iter()
            .filter(|look| look.probed.is_some())
            .map(|look| look.element)
            .collect(alloc)?,
    )
}

/// The hash of each element, where it has several rows that of the last.
fn hashes_by_element(alloc: Global, rows: &[Row]) -> Result<BTreeMap<u32, u32>, NoMemory>
    ensures { IfOk result (λ hashes. (e : ℕ) → get nat_cmp hashes e ≡ stored_hash e (reverse rows.now)) }
{
    let mut hashes = BTreeMap::new(alloc);
    for row in rows {
        hashes.insert(row.element, row.hash)?;
    }
    Ok(hashes)
}

/// The hashes of these elements, in their order.
fn hashes_at(
    alloc: Global,
    hashes: &BTreeMap<u32, u32>,
    elements: &[u32],
) -> Result<List<Option<u32>>, NoMemory>
    ensures { IfOk result (λ found. found ≡ map (get nat_cmp hashes.now) elements.now) }
{
    let mut found = List::of(Vec::new(alloc));
    for element in elements {
        found.push(hashes.get(element).copied())?;
    }
    Ok(found)
}
