//! Whether the finals of a record hold each element in one place, once.

ghost use Rattle.std.specs.Prelude.{◌≡◌, ◌++◌, None, Some, IfOk, MatchBool, if◌then◌else◌};
ghost use Rattle.map_report.specs.EachOnce.{elements_of, in_buckets, on_freelists};
ghost use Rattle.map_report.specs.Record.{HoldsElements, free_elements, on_lists};
ghost use Rattle.map_report.specs.Serial.{spare_count};
ghost use Rattle.record_shape.specs.WellShaped.{freelist_count, local_count, set_count};
ghost use Rattle.finals_check.specs.Marking.{are_counted, are_once, are_placed, ascend_to, is_full, met_after};

use crate::meeting::{
    all_met, meet, meet_buckets, meet_free_locals, meet_free_sets, meet_freelists, meet_locals,
    meet_sets, none_met,
};
use map_types::{MapKind, NoMemory, Shape};
use place_words::Finals;
use std::alloc::Global;

/// Whether each element of a map is in one place, once, and on a map that evicts on one list; there are as many lists of each sort
/// as its shape says, and the elements that are marked ascend.
pub fn finals_whole(alloc: Global, shape: &Shape, finals: &Finals) -> Result<bool, NoMemory>
    ensures { IfOk result (λ whole. MatchBool whole (HoldsElements shape.now finals.now) (HoldsElements shape.now finals.now → ⊥)) }
{
    if !are_counted(shape, finals) {
        return Ok(false);
    }
    if !ascend_to(shape.elements, finals.marked.as_slice()) {
        return Ok(false);
    }
    let placed = are_placed(alloc, shape, finals)?;
    Ok(placed)
}

/// Whether each element is in one place, and on a map that evicts on one list.
fn are_placed(alloc: Global, shape: &Shape, finals: &Finals) -> Result<bool, NoMemory>
    ensures { IfOk result (λ placed. placed ≡ are_placed shape.now finals.now) }
{
    if shape.kind.is_lru() {
        Ok(
            are_once_free(alloc, shape.elements, finals)?
                && are_once_listed(alloc, shape.elements, finals)?,
        )
    } else {
        are_once_plain(alloc, shape.elements, finals)
    }
}

/// Whether each element is in a bucket, on a freelist or a spare, and stands there once.
fn are_once_plain(alloc: Global, elements: u32, finals: &Finals) -> Result<bool, NoMemory>
    ensures { IfOk result (λ once. once ≡ are_once elements (elements_of finals.now)) }
{
    let mut met = none_met(alloc, elements)?;
    Ok(fills_plain(met.as_mut_slice(), finals))
}

/// Whether these are the elements that weren't met, each once.
fn fills_plain(met: &mut [bool], finals: &Finals) -> bool
    ensures { result ≡ is_full (met_after met.old (elements_of finals.now)) }
{
    meet_plain(met, finals) && all_met(met)
}

/// Whether each element is in a bucket or free, and stands there once.
fn are_once_free(alloc: Global, elements: u32, finals: &Finals) -> Result<bool, NoMemory>
    ensures { IfOk result (λ once. once ≡ are_once elements (in_buckets finals.now ++ free_elements finals.now)) }
{
    let mut met = none_met(alloc, elements)?;
    Ok(fills_free(met.as_mut_slice(), finals))
}

/// Whether these are the elements that weren't met, each once.
fn fills_free(met: &mut [bool], finals: &Finals) -> bool
    ensures { result ≡ is_full (met_after met.old (in_buckets finals.now ++ free_elements finals.now)) }
{
    meet_used(met, finals) && all_met(met)
}

/// Whether each element is on one list, and stands there once.
fn are_once_listed(alloc: Global, elements: u32, finals: &Finals) -> Result<bool, NoMemory>
    ensures { IfOk result (λ once. once ≡ are_once elements (on_lists finals.now)) }
{
    let mut met = none_met(alloc, elements)?;
    Ok(fills_listed(met.as_mut_slice(), finals))
}

/// Whether these are the elements that weren't met, each once.
fn fills_listed(met: &mut [bool], finals: &Finals) -> bool
    ensures { result ≡ is_full (met_after met.old (on_lists finals.now)) }
{
    meet_listed(met, finals) && all_met(met)
}

/// Meets the elements in buckets, on freelists, and the spares.
#[tactic(auto, using(crate::proofs::MetLists::goes_on, crate::proofs::MetLists::stops))]
fn meet_plain(met: &mut [bool], finals: &Finals) -> bool
    ensures { (if result then Some met.new else None) ≡ met_after met.old (elements_of finals.now) }
{
    meet_stacks(met, finals) && meet(met, finals.spares.as_slice())
}

/// Meets the elements in buckets and on freelists.
#[tactic(auto, using(crate::proofs::MetLists::goes_on, crate::proofs::MetLists::stops))]
fn meet_stacks(met: &mut [bool], finals: &Finals) -> bool
    ensures { (if result then Some met.new else None) ≡ met_after met.old (in_buckets finals.now ++ on_freelists finals.now) }
{
    meet_buckets(met, finals.buckets.as_slice()) && meet_freelists(met, finals.freelists.as_slice())
}

/// Meets the elements in buckets and the free ones.
#[tactic(auto, using(crate::proofs::MetLists::goes_on, crate::proofs::MetLists::stops))]
fn meet_used(met: &mut [bool], finals: &Finals) -> bool
    ensures { (if result then Some met.new else None) ≡ met_after met.old (in_buckets finals.now ++ free_elements finals.now) }
{
    meet_buckets(met, finals.buckets.as_slice()) && meet_free(met, finals)
}

/// Meets the free elements of a map that evicts.
#[tactic(auto, using(crate::proofs::MetLists::goes_on, crate::proofs::MetLists::stops))]
fn meet_free(met: &mut [bool], finals: &Finals) -> bool
    ensures { (if result then Some met.new else None) ≡ met_after met.old (free_elements finals.now) }
{
    meet_free_sets(met, finals.sets.as_slice()) && meet_free_locals(met, finals.locals.as_slice())
}

/// Meets the elements that are on the lists of a map that evicts.
#[tactic(auto, using(crate::proofs::MetLists::goes_on, crate::proofs::MetLists::stops))]
fn meet_listed(met: &mut [bool], finals: &Finals) -> bool
    ensures { (if result then Some met.new else None) ≡ met_after met.old (on_lists finals.now) }
{
    meet_sets(met, finals.sets.as_slice()) && meet_locals(met, finals.locals.as_slice())
}

/// Whether these are numbers below a bound, each less than the next.
fn ascend_to(bound: u32, numbers: &[u32]) -> bool
    ensures { result ≡ ascend_to bound 0 numbers.now }
{
    let mut least = 0u64;
    for number in numbers {
        if *number >= bound {
            return false;
        }
        if (*number as u64) < least {
            return false;
        }
        least = *number as u64 + 1;
    }
    true
}

/// Whether there are as many lists of each sort as the map has.
fn are_counted(shape: &Shape, finals: &Finals) -> bool
    ensures { result ≡ are_counted shape.now finals.now }
{
    finals.buckets.as_slice().len() as u64 == shape.buckets as u64
        && finals.freelists.as_slice().len() as u64 == freelist_count(shape) as u64
        && finals.spares.as_slice().len() as u64 == spare_count(shape) as u64
        && finals.sets.as_slice().len() as u64 == set_count(shape) as u64
        && finals.locals.as_slice().len() as u64 == local_count(shape) as u64
}

/// How many freelists a map has.
fn freelist_count(shape: &Shape) -> u32
    ensures { result ≡ freelist_count shape.now }
{
    if shape.kind.is_lru() { 0 } else { shape.cpus }
}

/// How many spare elements a map has.
fn spare_count(shape: &Shape) -> u32
    ensures { result ≡ spare_count shape.now }
{
    match shape.kind {
        MapKind::Hash => shape.cpus,
        MapKind::PercpuHash => 0,
        MapKind::LruHash => 0,
        MapKind::LruPercpuHash => 0,
    }
}

/// How many sets a map has.
fn set_count(shape: &Shape) -> u32
    ensures { result ≡ set_count shape.now }
{
    if !shape.kind.is_lru() {
        0
    } else if shape.common {
        1
    } else {
        shape.cpus
    }
}

/// How many CPUs have local lists.
fn local_count(shape: &Shape) -> u32
    ensures { result ≡ local_count shape.now }
{
    if shape.kind.is_lru() && shape.common {
        shape.cpus
    } else {
        0
    }
}
