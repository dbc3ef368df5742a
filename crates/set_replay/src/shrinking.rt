//! Shrinks that an entry tells, judged by a shrink that finds what it tells.

ghost use Rattle.std.specs.Prelude.{◌≡◌, ◌+◌, ◌≤◌, ◌++◌, [], length, min, IfOk, OnOk, option_to_list, true};
ghost use Rattle.set_replay.specs.ByPlace.{look_bits, look_seens, try_seens};
ghost use Rattle.set_replay.specs.Judged.{ToldShrink, ShrinkJudged, KeptSame};

use crate::told::{Calls, Telling, Told};
use lru_lists::{ListName, ListSet, Noted, ShrinkNotes};
use lru_shrink::shrink;
use map_types::NoMemory;
use percpu_values::BodyStack;
use place_words::{Look, Seen, ShrinkNote, Try};
use row_list::Rows;
use std::alloc::{AllocError, Global};
use std::marker::{Brand, PhantomData};
use std::mem;

/// Whether these are the looks and the tries of a shrink of a set, which is shrunk into an empty stack. What it asked is then in
/// `calls`.
pub(crate) fn shrinks<S: Rows>(
    alloc: Global,
    calls: &mut Calls,
    set: &mut ListSet<S>,
    scans: u32,
    note: &ShrinkNote,
    out: &mut BodyStack,
) -> Result<bool, NoMemory>
    requires target { 1 ≤ note.now.target }
    requires empty { out.old.bodies ≡ [] }
    requires room { min note.now.target (length set.old.active + length set.old.inactive) ≤ out.old.spare }
    ensures { IfOk result (ShrinkJudged scans note.now set.old set.new out.old out.new calls.new.probes.items) }
{
    let looks = note.looks.as_slice();
    let forced = note.forced.as_slice();
    let bits = bits_of(alloc, looks)?;
    let seens = seens_of(alloc, looks, forced)?;
    let notes = shrink_told::<S, Brand>(
        alloc,
        calls,
        set,
        scans,
        note.target,
        bits.as_slice(),
        seens.as_slice(),
        out,
    )?;
    let first = are_looks(&notes.looks, looks)?;
    let second = are_tries(&notes.forced, forced)?;
    Ok(first & second)
}

/// Shrinks a set into an empty stack, and finds the bits and the answers that are told.
fn shrink_told<S: Rows, K: Telling>(
    alloc: Global,
    calls: &mut Calls,
    set: &mut ListSet<S>,
    scans: u32,
    target: u32,
    bits: &[bool],
    seens: &[Seen],
    out: &mut BodyStack,
) -> Result<ShrinkNotes, NoMemory>
    requires bits { K.bits ≡ bits.now }
    requires seens { K.seens ≡ seens.now }
    requires target { 1 ≤ target }
    requires empty { out.old.bodies ≡ [] }
    requires room { min target (length set.old.active + length set.old.inactive) ≤ out.old.spare }
    ensures { IfOk result (ToldShrink scans target bits.now seens.now set.old set.new out.old out.new calls.new.probes.items) }
{
    let active = set.rows(ListName::Active).len() as usize;
    let inactive = set.rows(ListName::Inactive).len() as usize;
    calls.begin(2 * scans as usize + (active + inactive))?;
    let mut notes = ShrinkNotes::empty(alloc);
    let mut telling: Told<K> = Told {
        alloc,
        bits,
        seens,
        calls: mem::replace(&mut calls.bits, Vec::new(alloc)),
        probes: mem::replace(&mut calls.probes, Vec::new(alloc)),
        lost: false,
        since: PhantomData,
    };
    // How many were freed is told by the bodies that came.
    let _ = shrink(set, &mut telling, scans, target, out, &mut notes);
    if telling.give_back(calls) {
        return Err(AllocError.into());
    }
    Ok(notes)
}

/// The bits of looks.
fn bits_of(alloc: Global, looks: &[Look]) -> Result<Vec<bool>, NoMemory>
    ensures { IfOk result (λ bits. bits.items ≡ look_bits looks.now) }
{
    let mut bits = Vec::new(alloc);
    for look in looks {
        bits.push(look.bit)?;
    }
    Ok(bits)
}

/// What the probes of looks found, and then those of tries.
fn seens_of(alloc: Global, looks: &[Look], forced: &[Try]) -> Result<Vec<Seen>, NoMemory>
    ensures { IfOk result (λ seens. seens.items ≡ look_seens looks.now ++ try_seens forced.now) }
{
    let mut seens = Vec::new(alloc);
    for look in looks {
        add_seen(&mut seens, look.probed)?;
    }
    for tried in forced {
        seens.push(tried.probed)?;
    }
    Ok(seens)
}

/// Adds what a probe found, where there was one.
fn add_seen(seens: &mut Vec<Seen>, probed: Option<Seen>) -> Result<(), NoMemory>
    ensures { OnOk result (seens.new.items ≡ seens.old.items ++ option_to_list probed) }
{
    if let Some(seen) = probed {
        seens.push(seen)?;
    }
    Ok(())
}

/// Whether the notes are these looks: NoMemory where they were lost.
fn are_looks(notes: &Noted<Look>, told: &[Look]) -> Result<bool, NoMemory>
    ensures { IfOk result (KeptSame notes.now told.now) }
{
    match notes {
        Noted::Kept(kept) => Ok(same_looks(kept.as_slice(), told)),
        Noted::Lost => Err(AllocError.into()),
    }
}

/// Whether the notes are these tries: NoMemory where they were lost.
fn are_tries(notes: &Noted<Try>, told: &[Try]) -> Result<bool, NoMemory>
    ensures { IfOk result (KeptSame notes.now told.now) }
{
    match notes {
        Noted::Kept(kept) => Ok(same_tries(kept.as_slice(), told)),
        Noted::Lost => Err(AllocError.into()),
    }
}

/// Whether two lists of looks are the same.
fn same_looks(first: &[Look], second: &[Look]) -> bool
    ensures same { result ≡ true → first.now ≡ second.now }
    ensures all { first.now ≡ second.now → result ≡ true }
{
    if first.len() != second.len() {
        return false;
    }
    for at in 0..first.len() {
        if first[at].element != second[at].element || first[at].bit != second[at].bit {
            return false;
        }
        if !same_probed(first[at].probed, second[at].probed) {
            return false;
        }
    }
    true
}

/// Whether two lists of tries are the same.
fn same_tries(first: &[Try], second: &[Try]) -> bool
    ensures same { result ≡ true → first.now ≡ second.now }
    ensures all { first.now ≡ second.now → result ≡ true }
{
    if first.len() != second.len() {
        return false;
    }
    for at in 0..first.len() {
        if first[at].element != second[at].element {
            return false;
        }
        if !same_seen(first[at].probed, second[at].probed) {
            return false;
        }
    }
    true
}

/// Whether two probes, where there were any, found the same.
fn same_probed(first: Option<Seen>, second: Option<Seen>) -> bool
    ensures same { result ≡ true → first ≡ second }
    ensures all { first ≡ second → result ≡ true }
{
    match (first, second) {
        (None, None) => true,
        (Some(first), Some(second)) => same_seen(first, second),
        _ => false,
    }
}

/// Whether two probes found the same.
fn same_seen(first: Seen, second: Seen) -> bool
    ensures same { result ≡ true → first ≡ second }
    ensures all { first ≡ second → result ≡ true }
{
    match (first, second) {
        (Seen::Removed, Seen::Removed) => true,
        (Seen::Held(first), Seen::Held(second)) => first == second,
        _ => false,
    }
}
