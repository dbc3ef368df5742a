//! A refill of local lists, as its turn tells it, against the turn of the global lists inside it.

ghost use Rattle.std.specs.Prelude.{◌≡◌, ◌∷◌, ◌++◌, false, bytes_eq, List, ℕ, map, filter, MatchOption, None, Some};
ghost use Rattle.map_types.specs.declared.kind.DomainId.TheVariants as locks;
ghost use Rattle.place_words.specs.declared.visits.Visit as visit_words;
ghost use Rattle.place_words.specs.Globals.{flush_visit};
ghost use Rattle.place_words.specs.Shrinking.{freed, try_removed};
ghost use Rattle.place_words.specs.Takings.{freed_by};
ghost use Rattle.evicting_traces.specs.Calls as calls;
ghost use Rattle.evicting_traces.specs.Parts as told;

use crate::seen::Seen;
use map_types::DomainId;
use place_words::{
    Flush, GlobalPart, LocalPart, Look, PartAt, Seen as Probed, ShrinkNote, Try, Visit,
};
use replay_words::Note;
use trace_check::same_bool;

/// What a refill of a CPU's lists for a key of this hash got, and where a round of thefts begins, if these are its two turns.
pub(crate) fn refilled(
    given: &Seen<'_>,
    seen: &Seen<'_>,
    cpu: u32,
    hash: u32,
) -> Option<(Option<u32>, u32)>
    ensures { result ≡ calls.refilled_by cpu hash (told.on locks.Global (told.of_global told.given_in) given.now.turn) seen.now }
{
    match given.lock {
        DomainId::Global => match given.part {
            PartAt::Global(packed) => match packed.part() {
                Ok(part) => refilled_by(part, seen, cpu, hash),
                Err(part) => refilled_by(&part, seen, cpu, hash),
            },
            _ => None,
        },
        _ => None,
    }
}

/// The same by what was done under the lock of the global lists.
fn refilled_by(
    part: &GlobalPart,
    seen: &Seen<'_>,
    cpu: u32,
    hash: u32,
) -> Option<(Option<u32>, u32)>
    ensures { result ≡ calls.refilled_by cpu hash (told.given_in part.now) seen.now }
{
    match part {
        GlobalPart::Turn {
            flushed,
            free,
            shrink,
            ..
        } => {
            let got = got_of(seen, cpu, hash, flushed.as_slice(), free.as_slice(), shrink)?;
            let steal = steal_noted(flushed.as_slice(), seen.note)?;
            Some((got, steal))
        }
        GlobalPart::Push { .. } => None,
    }
}

/// What the refill got that flushed and gained this.
fn got_of(
    seen: &Seen<'_>,
    cpu: u32,
    hash: u32,
    flushed: &[Flush],
    free: &[u32],
    shrink: &Option<ShrinkNote>,
) -> Option<Option<u32>>
    ensures { result ≡ told.on (locks.Local cpu) (told.of_local (told.refilled_in hash (map flush_visit flushed.now) (free.now ++ freed_by shrink.now))) seen.now.turn }
{
    match seen.lock {
        DomainId::Local(at) if at == cpu => match seen.part {
            PartAt::Local(packed) => match packed.part() {
                Ok(part) => refilled_in(part, hash, flushed, free, shrink),
                Err(part) => refilled_in(&part, hash, flushed, free, shrink),
            },
            _ => None,
        },
        _ => None,
    }
}

/// The same by what was done under the lock of the local lists.
fn refilled_in(
    part: &LocalPart,
    hash: u32,
    flushed: &[Flush],
    free: &[u32],
    shrink: &Option<ShrinkNote>,
) -> Option<Option<u32>>
    ensures { result ≡ told.refilled_in hash (map flush_visit flushed.now) (free.now ++ freed_by shrink.now) part.now }
{
    match part {
        LocalPart::Refill {
            hash: stored,
            flushed: visits,
            gained,
            got,
        } => {
            if hash == *stored
                && are_visits(flushed, visits.as_slice())
                && are_gained(free, shrink, gained.as_slice())
            {
                Some(*got)
            } else {
                None
            }
        }
        _ => None,
    }
}

/// Whether these are the visits of what was flushed.
fn are_visits(flushed: &[Flush], visits: &[Visit]) -> bool
    ensures { result ≡ told.same_visits (map flush_visit flushed.now) visits.now }
{
    let mut left = visits;
    for flush in flushed {
        match behind_visit(flush.element, flush.bit, left) {
            None => return false,
            Some(rest) => left = rest,
        }
    }
    left.is_empty()
}

/// What is behind the visit of an element that had this bit, if it is the first.
fn behind_visit(element: u32, bit: bool, visits: &[Visit]) -> Option<&[Visit]>
    ensures { (more : List visit_words.Visit) → MatchOption result (told.same_visits (told.visit_of element bit ∷ more) visits.now ≡ false)
        (λ rest. told.same_visits (told.visit_of element bit ∷ more) visits.now ≡ told.same_visits more rest.now) }
{
    let (visit, rest) = visits.split_first()?;
    if element == visit.element && same_bool(bit, visit.bit) {
        Some(rest)
    } else {
        None
    }
}

/// Whether these are what was free, and after it what a shrink freed.
fn are_gained(free: &[u32], shrink: &Option<ShrinkNote>, elements: &[u32]) -> bool
    ensures { result ≡ bytes_eq (free.now ++ freed_by shrink.now) elements.now }
{
    let mut left = elements;
    for element in free {
        match behind(*element, left) {
            None => return false,
            Some(rest) => left = rest,
        }
    }
    match shrink {
        None => left.is_empty(),
        Some(note) => are_freed(note.looks.as_slice(), note.forced.as_slice(), left),
    }
}

/// Whether these are what looks and tries freed.
fn are_freed(looks: &[Look], forced: &[Try], elements: &[u32]) -> bool
    ensures { result ≡ bytes_eq (freed looks.now forced.now) elements.now }
{
    let mut left = elements;
    for look in looks {
        if matches!(look.probed, Some(Probed::Removed)) {
            match behind(look.element, left) {
                None => return false,
                Some(rest) => left = rest,
            }
        }
    }
    are_tried(forced, left)
}

/// Whether these are what tries freed.
fn are_tried(forced: &[Try], elements: &[u32]) -> bool
    ensures { result ≡ bytes_eq (map (λ try. try.element) (filter try_removed forced.now)) elements.now }
{
    let mut left = elements;
    for tried in forced {
        if matches!(tried.probed, Probed::Removed) {
            match behind(tried.element, left) {
                None => return false,
                Some(rest) => left = rest,
            }
        }
    }
    left.is_empty()
}

/// What is behind this number, if it is the first.
fn behind(number: u32, numbers: &[u32]) -> Option<&[u32]>
    ensures { (more : List ℕ) → MatchOption result (bytes_eq (number ∷ more) numbers.now ≡ false)
        (λ rest. bytes_eq (number ∷ more) numbers.now ≡ bytes_eq more rest.now) }
{
    let (first, rest) = numbers.split_first()?;
    if number == *first { Some(rest) } else { None }
}

/// Where a round of thefts begins, if what was flushed has the hashes of what was pending.
fn steal_noted(flushed: &[Flush], note: &Note) -> Option<u32>
    ensures { result ≡ told.steal_noted (calls.flushed_hashes flushed.now) note.now }
{
    match note {
        Note::Refill { hashes, steal } => {
            if are_hashes(flushed, hashes.as_slice()) {
                Some(*steal)
            } else {
                None
            }
        }
        Note::Nothing | Note::Probes(_) => None,
    }
}

/// Whether these are the hashes of what was flushed.
fn are_hashes(flushed: &[Flush], hashes: &[u32]) -> bool
    ensures { result ≡ bytes_eq (calls.flushed_hashes flushed.now) hashes.now }
{
    let mut left = hashes;
    for flush in flushed {
        match behind(flush.hash, left) {
            None => return false,
            Some(rest) => left = rest,
        }
    }
    left.is_empty()
}
