//! The first strand of a record that isn't right.

ghost use Rattle.std.specs.Prelude.{◌≡◌, ◌+◌, ◌*◌, ◌<◌, ◌≤◌, ◌||◌, ◌==◌, All, IfOk, IsTrue, MatchBool, count_by, nat_le, slice_set, length, map, slice_get, slice_index_or, suc, take, Some, true, false, ◌^◌, if◌then◌else◌};
ghost use Rattle.std.specs.Bool.{OnFalse, OnTrue};
ghost use Rattle.std.specs.List.{list_all, list_any};
ghost use Rattle.map_script.specs.WellFormed.{IsWellFormed};
ghost use Rattle.map_types.specs.Creation.{IsShape};
ghost use Rattle.place_words.specs.Entries.{entry_read};
ghost use Rattle.place_words.specs.Locks.{is_lock, lock_count};
ghost use Rattle.place_words.specs.Phases.{phase_of};
ghost use Rattle.place_words.specs.Tickets.{all_entries};
ghost use Rattle.map_report.specs.Record.{entries_of, has_cpu, locks_of};
ghost use Rattle.record_flaws.specs.First.{IsFirstWrong};
ghost use Rattle.record_flaws.specs.StrandFlaws.{EachStands, HasOwnSteps, IsRightPlace, is_call_of, is_own_call};
ghost use Rattle.record_parts.specs.StrandTables.{AreCounts, cell_of, AreMarks, AreMet, are_named, cell, entries_due, froms, has_met, is_own, places_of};
ghost use Rattle.record_flaws.specs.StrandFlaws.{passes};
ghost use Rattle.record_shape.specs.Fits.{AllFit};
ghost use Rattle.record_shape.specs.ShapedParts.{StepFits};
ghost use Rattle.record_shape.specs.WellShaped.{WellShaped, lock_of};

use crate::phases::phase_of;
use map_report::RunRecord;
use map_script::Script;
use map_types::{Call, DomainId, NoMemory, Shape};
use place_words::{
    Entries, EntryAt, LockHistory, Strand, StrandStep, is_lock, lock_named, lock_number,
};
use std::alloc::{AllocError, Global};

/// Which place of a lock's history the last step of a strand names.
#[derive(Clone, Copy)]
pub struct Mark {
    /// The strand's place, from 1.
    pub stamp: usize,
    pub last: u64,
}

/// The first strand that isn't right: a CPU of it stands in a strand before it of the same phase, or on some lock its steps aren't
/// the entries that its CPUs have there for calls of its phase, each once and in order, or a step of it is of no call of its CPUs.
/// Where each is right it is the number of strands if a CPU stands in no strand of some phase.
pub fn strand_flaw(
    alloc: Global,
    script: &Script,
    kept: &RunRecord,
) -> Result<Option<usize>, NoMemory>
    requires script { IsWellFormed script.now }
    requires shaped { WellShaped script.now kept.now }
    ensures { IfOk result (λ flaw. IsFirstWrong (IsRightPlace script.now kept.now) (suc (length kept.now.strands)) flaw) }
{
    let shape = &script.shape;
    let cuts = script.cuts.as_slice();
    let histories = kept.histories.as_slice();
    let strands = kept.strands.as_slice();
    let size = (cuts.len() + 1) * 16;
    let counts = count_all(alloc, cuts, histories, size)?;
    let places = places_of(alloc, shape)?;
    let mut met = vec![in alloc; false; size]?;
    let mut marks = vec![in alloc; Mark { stamp: 0, last: 0 }; places.len()]?;
    for place in 0..strands.len() {
        let is = is_right(
            script,
            kept,
            counts.as_slice(),
            places.as_slice(),
            met.as_slice(),
            place,
            &mut marks,
        )?;
        if !is {
            return Ok(Some(place));
        }
        meet(&mut met, &strands[place]);
    }
    if all_met(met.as_slice(), cuts.len() + 1, shape.cpus) {
        Ok(None)
    } else {
        Ok(Some(strands.len()))
    }
}

/// Whether a strand is right.
fn is_right(
    script: &Script,
    kept: &RunRecord,
    counts: &[usize],
    places: &[usize],
    met: &[bool],
    place: usize,
    marks: &mut Vec<Mark>,
) -> Result<bool, NoMemory>
    requires script { IsWellFormed script.now }
    requires shaped { WellShaped script.now kept.now }
    requires place { place < length kept.now.strands }
    requires few { place + 2 < 2 ^ 64 }
    requires counts { AreCounts script.now.cuts ((length script.now.cuts + 1) * 16) (all_entries kept.now.histories) counts.now }
    requires places { places.now ≡ places_of script.now.shape }
    requires met { AreMet ((length script.now.cuts + 1) * 16) (take place kept.now.strands) met.now }
    requires marks { AreMarks script.now.shape (place + 1) marks.old.items }
    ensures right { IfOk result (λ is. MatchBool is (IsRightPlace script.now kept.now place)
        (IsRightPlace script.now kept.now place → ⊥)) }
    ensures marks { AreMarks script.now.shape (place + 2) marks.new.items }
{
    let strands = kept.strands.as_slice();
    let strand = &strands[place];
    if !has_own_steps(script, kept, counts, places, met, place, strand, marks)? {
        return Ok(false);
    }
    Ok(are_own_calls(script, kept, places, strand))
}

/// Whether a strand at a place has the steps of its CPUs, and none of them stands in a strand before it.
fn has_own_steps(
    script: &Script,
    kept: &RunRecord,
    counts: &[usize],
    places: &[usize],
    met: &[bool],
    place: usize,
    strand: &Strand,
    marks: &mut Vec<Mark>,
) -> Result<bool, NoMemory>
    requires script { IsWellFormed script.now }
    requires shaped { WellShaped script.now kept.now }
    requires there { slice_get kept.now.strands place ≡ Some strand.now }
    requires few { place + 2 < 2 ^ 64 }
    requires counts { AreCounts script.now.cuts ((length script.now.cuts + 1) * 16) (all_entries kept.now.histories) counts.now }
    requires places { places.now ≡ places_of script.now.shape }
    requires met { AreMet ((length script.now.cuts + 1) * 16) (take place kept.now.strands) met.now }
    requires marks { AreMarks script.now.shape (place + 1) marks.old.items }
    ensures right { IfOk result (λ has. MatchBool has (HasOwnSteps script.now kept.now place strand.now)
        (HasOwnSteps script.now kept.now place strand.now → ⊥)) }
    ensures marks { AreMarks script.now.shape (place + 2) marks.new.items }
{
    if has_met(met, strand) {
        return Ok(false);
    }
    let due = entries_due(counts, strand)?;
    if due != strand.steps.len() {
        return Ok(false);
    }
    let cuts = script.cuts.as_slice();
    let histories = kept.histories.as_slice();
    Ok(are_named(
        &script.shape,
        cuts,
        histories,
        places,
        strand,
        place + 1,
        marks,
    ))
}

/// Whether each step of a strand is of a call of one of its CPUs.
fn are_own_calls(script: &Script, kept: &RunRecord, places: &[usize], strand: &Strand) -> bool
    requires shape { IsShape script.now.shape }
    requires locks { map lock_of kept.now.histories ≡ locks_of script.now.shape }
    requires places { places.now ≡ places_of script.now.shape }
    requires steps { AllFit (StepFits script.now.shape) strand.now.steps }
    ensures { result ≡ list_all (is_own_call script.now kept.now strand.now) strand.now.steps }
{
    let steps = strand.steps.row();
    for index in 0..steps.len() {
        let step = steps.at(index);
        let entries = entries_at(&script.shape, kept.histories.as_slice(), places, step.lock);
        if !is_own_call(
            script.calls.as_slice(),
            strand.cpus.as_slice(),
            entries,
            step.index,
        ) {
            return false;
        }
    }
    true
}

/// Whether there is an entry at this place, for a call of one of these CPUs.
fn is_own_call(calls: &[Call], cpus: &[u32], entries: &Entries, index: u64) -> bool
    ensures { result ≡ passes (is_call_of calls.now cpus.now) (slice_get entries.now index) }
{
    if index >= entries.len() as u64 {
        return false;
    }
    let number = entries.at(index as usize).call as usize;
    match calls.get(number.saturating_sub(1)) {
        Some(call) => has_cpu(call.cpu, cpus),
        None => false,
    }
}

/// The place of a CPU in a phase.
fn cell(phase: usize, cpu: u32) -> usize
    requires phase { phase ≤ 63 }
    requires cpu { cpu < 16 }
    ensures { result ≡ cell phase cpu }
{
    phase * 16 + cpu as usize
}

/// How many entries each CPU has in each phase.
fn count_all(
    alloc: Global,
    cuts: &[u32],
    histories: &[LockHistory],
    size: usize,
) -> Result<Vec<usize>, NoMemory>
    requires few { length cuts.now ≤ 63 }
    requires size { size ≡ (length cuts.now + 1) * 16 }
    requires cpus { All (λ history. All (λ entry. entry.cpu < 16) history.entries) histories.now }
    ensures { IfOk result (λ counts. AreCounts cuts.now size (all_entries histories.now) counts.items) }
{
    let mut counts = vec![in alloc; 0; size]?;
    for history in histories {
        count_each(cuts, &history.entries, &mut counts)?;
    }
    Ok(counts)
}

/// More entries, each of its CPU in its phase.
fn count_each(cuts: &[u32], entries: &Entries, counts: &mut Vec<usize>) -> Result<(), NoMemory>
    requires few { length cuts.now ≤ 63 }
    requires size { length counts.old.items ≡ (length cuts.now + 1) * 16 }
    requires cpus { All (λ entry. entry.cpu < 16) entries.now }
    ensures size { length counts.new.items ≡ length counts.old.items }
    ensures counts { IfOk result (λ _. (k : _) → slice_index_or counts.new.items k 0
        ≡ slice_index_or counts.old.items k 0 + count_by (λ entry. cell_of cuts.now entry == k) entries.now) }
{
    for index in 0..entries.len() {
        count(cuts, entries.at(index), counts)?;
    }
    Ok(())
}

/// One more entry of its CPU in its phase.
fn count(cuts: &[u32], entry: EntryAt<'_>, counts: &mut Vec<usize>) -> Result<(), NoMemory>
    requires few { length cuts.now ≤ 63 }
    requires size { length counts.old.items ≡ (length cuts.now + 1) * 16 }
    requires cpu { entry.cpu < 16 }
    ensures size { length counts.new.items ≡ length counts.old.items }
    ensures counts { IfOk result (λ _. (k : _) → slice_index_or counts.new.items k 0
        ≡ slice_index_or counts.old.items k 0 + (if cell_of cuts.now (entry_read entry.entry) == k then 1 else 0)) }
{
    let cell = cell(phase_of(cuts, entry.call), entry.cpu);
    counts[cell] = counts[cell].checked_add(1).ok_or(AllocError)?;
    Ok(())
}

/// How many entries a strand is to have.
fn entries_due(counts: &[usize], strand: &Strand) -> Result<usize, NoMemory>
    requires phase { strand.now.phase ≤ 63 }
    requires size { (strand.now.phase + 1) * 16 ≤ length counts.now }
    requires cpus { All (λ cpu. cpu < 16) strand.now.cpus }
    ensures { IfOk result (λ due. due ≡ entries_due counts.now strand.now) }
{
    let cpus = strand.cpus.as_slice();
    let mut due: usize = 0;
    for cpu in cpus {
        let more = counts[cell(strand.phase as usize, *cpu)];
        due = due.checked_add(more).ok_or(AllocError)?;
    }
    Ok(due)
}

/// Whether a CPU of a strand was met before, in its phase.
fn has_met(met: &[bool], strand: &Strand) -> bool
    requires phase { strand.now.phase ≤ 63 }
    requires size { (strand.now.phase + 1) * 16 ≤ length met.now }
    requires cpus { All (λ cpu. cpu < 16) strand.now.cpus }
    ensures { result ≡ has_met met.now strand.now }
{
    let cpus = strand.cpus.as_slice();
    for cpu in cpus {
        if met[cell(strand.phase as usize, *cpu)] {
            return true;
        }
    }
    false
}

/// Meets the CPUs of a strand.
fn meet(met: &mut Vec<bool>, strand: &Strand)
    requires phase { strand.now.phase ≤ 63 }
    requires size { (strand.now.phase + 1) * 16 ≤ length met.old.items }
    requires cpus { All (λ cpu. cpu < 16) strand.now.cpus }
    ensures size { length met.new.items ≡ length met.old.items }
    ensures met { (k : _) → slice_index_or met.new.items k false
        ≡ (slice_index_or met.old.items k false || list_any (λ cpu. cell strand.now.phase cpu == k) strand.now.cpus) }
{
    let cpus = strand.cpus.as_slice();
    for cpu in cpus {
        met[cell(strand.phase as usize, *cpu)] = true;
    }
}

/// Whether each of so many CPUs was met in each of so many phases.
fn all_met(met: &[bool], phases: usize, cpus: u32) -> bool
    requires phases { phases ≤ 64 }
    requires size { phases * 16 ≤ length met.now }
    requires cpus { cpus ≤ 16 }
    ensures { MatchBool result
        ((phase cpu : _) → phase < phases → cpu < cpus → slice_index_or met.now (cell phase cpu) false ≡ true)
        (((phase cpu : _) → phase < phases → cpu < cpus → slice_index_or met.now (cell phase cpu) false ≡ true) → ⊥) }
{
    for phase in 0..phases {
        for cpu in 0..cpus {
            if !met[cell(phase, cpu)] {
                return false;
            }
        }
    }
    true
}

/// Where among the histories that of each lock stands, by the numbers of the locks.
fn places_of(alloc: Global, shape: &Shape) -> Result<Vec<usize>, NoMemory>
    requires { IsShape shape.now }
    ensures { IfOk result (λ places. places.items ≡ places_of shape.now) }
{
    let count = 3 * shape.cpus + 1 + shape.buckets;
    let mut places = Vec::new(alloc);
    let mut place: usize = 0;
    for number in 0..count {
        places.push(place)?;
        if is_lock(shape, lock_named(shape, number)) {
            place += 1;
        }
    }
    Ok(places)
}

/// Whether each step of a strand names an entry of its CPUs for a call of its phase, and on each lock in order. It marks what it
/// names by the strand's number.
fn are_named(
    shape: &Shape,
    cuts: &[u32],
    histories: &[LockHistory],
    places: &[usize],
    strand: &Strand,
    stamp: usize,
    marks: &mut Vec<Mark>,
) -> bool
    requires shape { IsShape shape.now }
    requires locks { map lock_of histories.now ≡ locks_of shape.now }
    requires places { places.now ≡ places_of shape.now }
    requires steps { AllFit (StepFits shape.now) strand.now.steps }
    requires marks { AreMarks shape.now stamp marks.old.items }
    requires some { 0 < stamp }
    requires few { stamp + 1 < 2 ^ 64 }
    ensures named { result ≡ are_named shape.now histories.now (is_own cuts.now strand.now.phase strand.now.cpus) (λ _. 0) strand.now.steps }
    ensures marks { AreMarks shape.now (stamp + 1) marks.new.items }
{
    let steps = strand.steps.row();
    for index in 0..steps.len() {
        let step = steps.at(index);
        let entries = entries_at(shape, histories, places, step.lock);
        let is_own = passes(cuts, strand, entries, step.index);
        let number = lock_number(shape, step.lock) as usize;
        if !is_own || !is_next(step, number, stamp, marks) {
            return false;
        }
    }
    true
}

/// The entries of a lock's history.
fn entries_at<'a>(
    shape: &Shape,
    histories: &'a [LockHistory],
    places: &[usize],
    lock: DomainId,
) -> &'a Entries
    requires shape { IsShape shape.now }
    requires locks { map lock_of histories.now ≡ locks_of shape.now }
    requires places { places.now ≡ places_of shape.now }
    requires lock { IsTrue (is_lock shape.now lock) }
    ensures { result.now ≡ entries_of histories.now lock }
{
    let number = lock_number(shape, lock) as usize;
    let place = places[number];
    &histories[place].entries
}

/// Whether a step stands behind what was marked on its lock for its strand. Then its place is marked.
fn is_next(step: StrandStep, number: usize, stamp: usize, marks: &mut Vec<Mark>) -> bool
    requires number { number < length marks.old.items }
    ensures exact { result ≡ nat_le (froms stamp marks.old.items number) step.index }
    ensures marks { OnTrue result (marks.new.items
        ≡ slice_set marks.old.items number (record { stamp = stamp; last = step.index })) }
    ensures same { OnFalse result (marks.new.items ≡ marks.old.items) }
{
    let mark = marks[number];
    if mark.stamp == stamp && step.index <= mark.last {
        return false;
    }
    marks[number] = Mark {
        stamp,
        last: step.index,
    };
    true
}

/// Whether there is an entry at this place, of a CPU of a strand and for a call of its phase.
fn passes(cuts: &[u32], strand: &Strand, entries: &Entries, index: u64) -> bool
    ensures { result ≡ passes (is_own cuts.now strand.now.phase strand.now.cpus) (slice_get entries.now index) }
{
    if index >= entries.len() as u64 {
        return false;
    }
    let entry = entries.at(index as usize);
    phase_of(cuts, entry.call) == strand.phase as usize
        && has_cpu(entry.cpu, strand.cpus.as_slice())
}

/// Whether a CPU is one of these.
fn has_cpu(cpu: u32, cpus: &[u32]) -> bool
    ensures { result ≡ has_cpu cpu cpus.now }
{
    for other in cpus {
        if *other == cpu {
            return true;
        }
    }
    false
}
