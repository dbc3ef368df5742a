//! Which elements of a map were met in its lists.

ghost use Rattle.std.specs.Prelude.{◌≡◌, ◌++◌, ◌∷◌, [], None, Some, IfOk, false, if◌then◌else◌, map, replicate};
ghost use Rattle.std.specs.List.{concat, flat_map};
ghost use Rattle.map_types.specs.Stored.{Stored};
ghost use Rattle.place_words.specs.declared.finals.LocalFinal.{LocalFinal};
ghost use Rattle.place_words.specs.declared.finals.SetFinal.{SetFinal};
ghost use Rattle.finals_check.specs.Marking.{all_met, is_new, met_after};

use map_types::{List, NoMemory, Numbers};
use place_words::{Kept, LocalFinal, SetFinal};
use std::alloc::Global;

/// A table in which no element was met.
pub(crate) fn none_met(alloc: Global, elements: u32) -> Result<Vec<bool>, NoMemory>
    ensures { IfOk result (λ met. met.items ≡ replicate elements false) }
{
    Ok(vec![in alloc; false; elements as usize]?)
}

/// Meets an element. It isn't new where it has no place in the table, or was met before.
fn meet_one(met: &mut [bool], element: u32) -> bool
    ensures { (if result then Some met.new else None) ≡ met_after met.old (element ∷ []) }
{
    if (element as usize) < met.len() && !met[element as usize] {
        met[element as usize] = true;
        true
    } else {
        false
    }
}

/// Meets elements.
pub(crate) fn meet(met: &mut [bool], elements: &[u32]) -> bool
    ensures { (if result then Some met.new else None) ≡ met_after met.old elements.now }
{
    for element in elements {
        if !meet_one(met, *element) {
            return false;
        }
    }
    true
}

/// Meets the elements of two lists.
#[tactic(auto, using(crate::proofs::MetLists::goes_on, crate::proofs::MetLists::stops))]
fn meet_both(met: &mut [bool], first: &[u32], second: &[u32]) -> bool
    ensures { (if result then Some met.new else None) ≡ met_after met.old (first.now ++ second.now) }
{
    meet(met, first) && meet(met, second)
}

/// Meets the elements of a bucket.
fn meet_bucket(met: &mut [bool], bucket: &[Kept]) -> bool
    ensures { (if result then Some met.new else None) ≡ met_after met.old (map (λ (stored : Stored). stored.element) bucket.now) }
{
    for kept in bucket {
        if !meet_one(met, kept.element) {
            return false;
        }
    }
    true
}

/// Meets the elements of all buckets.
pub(crate) fn meet_buckets(met: &mut [bool], buckets: &[List<Kept>]) -> bool
    ensures { (if result then Some met.new else None) ≡ met_after met.old (flat_map (λ bucket. map (λ (stored : Stored). stored.element) bucket) buckets.now) }
{
    for bucket in buckets {
        if !meet_bucket(met, bucket.as_slice()) {
            return false;
        }
    }
    true
}

/// Meets the elements of all freelists.
pub(crate) fn meet_freelists(met: &mut [bool], freelists: &[Numbers]) -> bool
    ensures { (if result then Some met.new else None) ≡ met_after met.old (concat freelists.now) }
{
    for freelist in freelists {
        if !meet(met, freelist.as_slice()) {
            return false;
        }
    }
    true
}

/// Meets the free elements of list sets.
pub(crate) fn meet_free_sets(met: &mut [bool], sets: &[SetFinal]) -> bool
    ensures { (if result then Some met.new else None) ≡ met_after met.old (flat_map (λ (set : SetFinal). set.free) sets.now) }
{
    for set in sets {
        if !meet(met, set.free.as_slice()) {
            return false;
        }
    }
    true
}

/// Meets the free elements of local lists.
pub(crate) fn meet_free_locals(met: &mut [bool], locals: &[LocalFinal]) -> bool
    ensures { (if result then Some met.new else None) ≡ met_after met.old (flat_map (λ (local : LocalFinal). local.free) locals.now) }
{
    for local in locals {
        if !meet(met, local.free.as_slice()) {
            return false;
        }
    }
    true
}

/// Meets all elements of a list set.
#[tactic(auto, using(crate::proofs::MetLists::goes_on, crate::proofs::MetLists::stops))]
fn meet_set(met: &mut [bool], set: &SetFinal) -> bool
    ensures { (if result then Some met.new else None) ≡ met_after met.old (set.now.free ++ (set.now.active ++ set.now.inactive)) }
{
    meet(met, set.free.as_slice()) && meet_both(met, set.active.as_slice(), set.inactive.as_slice())
}

/// Meets all elements of list sets.
pub(crate) fn meet_sets(met: &mut [bool], sets: &[SetFinal]) -> bool
    ensures { (if result then Some met.new else None) ≡ met_after met.old (flat_map (λ (set : SetFinal). set.free ++ (set.active ++ set.inactive)) sets.now) }
{
    for set in sets {
        if !meet_set(met, set) {
            return false;
        }
    }
    true
}

/// Meets all elements of a CPU's local lists.
fn meet_local(met: &mut [bool], local: &LocalFinal) -> bool
    ensures { (if result then Some met.new else None) ≡ met_after met.old (local.now.free ++ local.now.pending) }
{
    meet_both(met, local.free.as_slice(), local.pending.as_slice())
}

/// Meets all elements of local lists.
pub(crate) fn meet_locals(met: &mut [bool], locals: &[LocalFinal]) -> bool
    ensures { (if result then Some met.new else None) ≡ met_after met.old (flat_map (λ (local : LocalFinal). local.free ++ local.pending) locals.now) }
{
    for local in locals {
        if !meet_local(met, local) {
            return false;
        }
    }
    true
}

/// Whether all were met.
pub(crate) fn all_met(met: &[bool]) -> bool
    ensures { result ≡ all_met met.now }
{
    for one in met {
        if !*one {
            return false;
        }
    }
    true
}
