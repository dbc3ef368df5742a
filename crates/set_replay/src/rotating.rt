//! Rotations that an entry tells, judged by a rotation that finds what it tells.

ghost use Rattle.std.specs.Prelude.{◌≡◌, ◌++◌, [], IfOk, true};
ghost use Rattle.set_replay.specs.ByPlace.{visit_bits};
ghost use Rattle.set_replay.specs.Judged.{ToldRotation, RotationJudged, KeptSame};

use crate::told::{Calls, Telling, Told};
use lru_lists::{ListSet, Noted, RotateNotes};
use lru_rotate::rotate;
use map_types::NoMemory;
use place_words::Visit;
use row_list::Rows;
use std::alloc::{AllocError, Global};
use std::marker::{Brand, PhantomData};
use std::mem;

/// Whether these are the visits of a rotation of a set, which is rotated.
pub(crate) fn rotates<S: Rows>(
    alloc: Global,
    calls: &mut Calls,
    set: &mut ListSet<S>,
    scans: u32,
    active: &[Visit],
    inactive: &[Visit],
) -> Result<bool, NoMemory>
    ensures { IfOk result (RotationJudged scans active.now inactive.now set.old set.new) }
{
    let bits = bits_of(alloc, active, inactive)?;
    let notes = rotate_told::<S, Brand>(alloc, calls, set, scans, bits.as_slice())?;
    let first = is_kept(&notes.active, active)?;
    let second = is_kept(&notes.inactive, inactive)?;
    Ok(first & second)
}

/// Rotates a set and finds the bits that are told.
fn rotate_told<S: Rows, K: Telling>(
    alloc: Global,
    calls: &mut Calls,
    set: &mut ListSet<S>,
    scans: u32,
    bits: &[bool],
) -> Result<RotateNotes, NoMemory>
    requires bits { K.bits ≡ bits.now }
    requires seens { K.seens ≡ [] }
    ensures { IfOk result (ToldRotation scans bits.now set.old set.new) }
{
    calls.begin(2 * scans as usize)?;
    let mut notes = RotateNotes::empty(alloc);
    let mut told: Told<K> = Told {
        alloc,
        bits,
        seens: &[],
        calls: mem::replace(&mut calls.bits, Vec::new(alloc)),
        probes: mem::replace(&mut calls.probes, Vec::new(alloc)),
        lost: false,
        since: PhantomData,
    };
    rotate(set, &mut told, scans, &mut notes);
    told.give_back(calls);
    Ok(notes)
}

/// The bits of visits, of the first list and then of the second.
fn bits_of(alloc: Global, first: &[Visit], second: &[Visit]) -> Result<Vec<bool>, NoMemory>
    ensures { IfOk result (λ bits. bits.items ≡ visit_bits (first.now ++ second.now)) }
{
    let mut bits = Vec::new(alloc);
    for visit in first {
        bits.push(visit.bit)?;
    }
    for visit in second {
        bits.push(visit.bit)?;
    }
    Ok(bits)
}

/// Whether the notes are these visits: NoMemory where they were lost.
fn is_kept(notes: &Noted<Visit>, told: &[Visit]) -> Result<bool, NoMemory>
    ensures { IfOk result (KeptSame notes.now told.now) }
{
    match notes {
        Noted::Kept(kept) => Ok(are_same(kept.as_slice(), told)),
        Noted::Lost => Err(AllocError.into()),
    }
}

/// Whether two lists of visits are the same.
fn are_same(first: &[Visit], second: &[Visit]) -> bool
    ensures same { result ≡ true → first.now ≡ second.now }
    ensures all { first.now ≡ second.now → result ≡ true }
{
    if first.len() != second.len() {
        return false;
    }
    for at in 0..first.len() {
        if first[at].element != second[at].element || first[at].bit != second[at].bit {
            return false;
        }
    }
    true
}
