//! The walks of a theft over rows that lie tail first.

ghost use Rattle.std.specs.Prelude.{◌≡◌, ◌==◌, ◌<◌, ◌&&◌, length, ◌∷◌, [], IfOk, MatchBool, filter, map, slice_index_or, count_by};
ghost use Rattle.map_types.specs.declared.row.Row.{Row};
ghost use Rattle.place_words.specs.declared.visits.Look.{Look};
ghost use Rattle.place_words.specs.declared.visits.Try.{Try};
ghost use Rattle.place_words.specs.Shrinking.{look_removed, try_removed, freed};
ghost use Rattle.local_replay.specs.Walks.{is_probed, spares, spares_none};

use map_types::{NoMemory, Row};
use place_words::{Look, Seen, Try};
use std::alloc::Global;

/// Whether these are the looks of the walk over rows that spares set bits.
pub(crate) fn is_sparing(rows: &[Row], looks: &[Look]) -> bool
    ensures { result ≡ spares rows.now looks.now }
{
    for index in 0..looks.len() {
        if index >= rows.len() {
            return false;
        }
        if !is_look_at(rows, looks, index) {
            return false;
        }
        if removes_at(looks, index) {
            return index + 1 == looks.len();
        }
    }
    looks.len() == rows.len()
}

/// Whether these are the tries of the walk over rows that spares none.
pub(crate) fn is_unsparing(rows: &[Row], tries: &[Try]) -> bool
    ensures { result ≡ spares_none rows.now tries.now }
{
    for index in 0..tries.len() {
        if index >= rows.len() {
            return false;
        }
        if !is_try_at(rows, tries, index) {
            return false;
        }
        if takes_at(tries, index) {
            return index + 1 == tries.len();
        }
    }
    tries.len() == rows.len()
}

/// Whether the look at an index is one at the row there.
fn is_look_at(rows: &[Row], looks: &[Look], index: usize) -> bool
    requires { (index < length rows.now) × (index < length looks.now) }
    ensures { (row : Row) (look : Look) → result ≡ (((slice_index_or looks.now index look).element
        == (slice_index_or rows.now index row).element) && is_probed (slice_index_or looks.now index look)) }
{
    looks[index].element == rows[index].element && is_probed(&looks[index])
}

/// Whether a look probes its element exactly where its bit isn't set.
fn is_probed(look: &Look) -> bool
    ensures { result ≡ is_probed look.now }
{
    if look.bit {
        look.probed.is_none()
    } else {
        look.probed.is_some()
    }
}

/// Whether the try at an index is one at the row there.
fn is_try_at(rows: &[Row], tries: &[Try], index: usize) -> bool
    requires { (index < length rows.now) × (index < length tries.now) }
    ensures { (row : Row) (tried : Try) → result ≡ ((slice_index_or tries.now index tried).element
        == (slice_index_or rows.now index row).element) }
{
    tries[index].element == rows[index].element
}

/// Whether the look at an index removed its element.
fn removes_at(looks: &[Look], index: usize) -> bool
    requires { index < length looks.now }
    ensures { (look : Look) → result ≡ look_removed (slice_index_or looks.now index look) }
{
    look_removes(&looks[index])
}

/// Whether a look removed its element.
pub(crate) fn look_removes(look: &Look) -> bool
    ensures { result ≡ look_removed look.now }
{
    match look.probed {
        Some(Seen::Removed) => true,
        Some(Seen::Held(_)) => false,
        None => false,
    }
}

/// Whether the try at an index removed its element.
fn takes_at(tries: &[Try], index: usize) -> bool
    requires { index < length tries.now }
    ensures { (tried : Try) → result ≡ try_removed (slice_index_or tries.now index tried) }
{
    try_removes(&tries[index])
}

/// Whether a try removed its element.
pub(crate) fn try_removes(tried: &Try) -> bool
    ensures { result ≡ try_removed tried.now }
{
    match tried.probed {
        Seen::Removed => true,
        Seen::Held(_) => false,
    }
}

/// Whether no look removed its element.
pub(crate) fn removes_none(looks: &[Look]) -> bool
    ensures { result ≡ (count_by look_removed looks.now == 0) }
{
    looks.iter().filter(|look| look_removes(look)).count() == 0
}

/// The elements that looks and tries removed.
pub(crate) fn freed_in(alloc: Global, looks: &[Look], tries: &[Try]) -> Result<Vec<u32>, NoMemory>
    ensures { IfOk result (λ elements. elements.items ≡ freed looks.now tries.now) }
{
    let mut elements = looked_off(alloc, looks)?;
    elements.extend_from_slice(tried_off(alloc, tries)?.as_slice())?;
    Ok(elements)
}

/// The elements that looks removed.
fn looked_off(alloc: Global, looks: &[Look]) -> Result<Vec<u32>, NoMemory>
    ensures { IfOk result (λ elements. elements.items
        ≡ map (λ look. look.element) (filter look_removed looks.now)) }
{
    Ok(
        looks
            .iter()
            .filter(|look| look_removes(look))
            .map(|look| look.element)
            .collect(alloc)?,
    )
}

/// The elements that tries removed.
fn tried_off(alloc: Global, tries: &[Try]) -> Result<Vec<u32>, NoMemory>
    ensures { IfOk result (λ elements. elements.items
        ≡ map (λ try. try.element) (filter try_removed tries.now)) }
{
    Ok(
        tries
            .iter()
            .filter(|tried| try_removes(tried))
            .map(|tried| tried.element)
            .collect(alloc)?,
    )
}

/// Whether a list is this element alone.
pub(crate) fn is_only(elements: &[u32], element: u32) -> bool
    ensures { MatchBool result (elements.now ≡ element ∷ []) (¬ (elements.now ≡ element ∷ [])) }
{
    match elements {
        [only] => *only == element,
        _ => false,
    }
}
