//! A turn of a list lock with the turns of its probes.

ghost use Rattle.std.specs.Prelude.{◌≡◌, ◌∷◌, false, List, MatchOption, None, Some, option_map};
ghost use Rattle.map_types.specs.Shape.{HasBounds};
ghost use Rattle.place_words.specs.declared.visits.Try as tries;
ghost use Rattle.place_words.specs.Packed.{own_read};
ghost use Rattle.place_words.specs.Takings.{global_probes, local_probes, own_probes, shrink_probes, walk_probes};
ghost use Rattle.evicting_traces.specs.Calls as told;
ghost use Rattle.evicting_traces.specs.Parts.{are_answers, hashes_noted, try_of};
ghost use Rattle.evicting_traces.specs.Reading.{turns_in};

use crate::parts::{is_answer, is_evict};
use crate::seen::{Seen, Seens};
use map_types::Shape;
use place_words::{GlobalPart, LocalPart, Look, OwnAt, PartAt, Seen as Probed, ShrinkNote, Try};
use replay_words::Note;
use std::marker::Model;

/// The turns of probes, the turn behind them, and the turns behind that one.
#[derive(Drop)]
struct Group<'a> {
    before: Seens<'a>,
    last: &'a Seen<'a>,
    rest: Seens<'a>,
}

impl<'a> Model for Group<'a> {
    ghost use Rattle.std.specs.Prelude.{List};
    ghost use Rattle.place_words.specs.Turns.{Turn};
    ghost use Rattle.evicting_traces.specs.Reading as reading;

    ghost Value = { (List Turn × reading.Seen) × List reading.Seen };

    ghost view = { λ g. ((reading.turns_in g.before, g.last.now), g.rest) };
}

/// The first turn in which nothing was to be evicted.
fn first_group<'a>(seens: &Seens<'a>) -> Option<Group<'a>>
    ensures { result ≡ told.group seens.now }
{
    let mut rest = seens.again();
    for count in 0..seens.len() {
        let (seen, behind) = rest.split_first()?;
        if !is_evict(seen.part) {
            return Some(Group {
                before: seens.first(count),
                last: seen,
                rest: behind,
            });
        }
        rest = behind;
    }
    None
}

/// That turn, if the turns before it are the answers to its probes, and the turns behind it.
pub(crate) fn answered_turn<'a>(
    shape: &Shape,
    seens: &Seens<'a>,
) -> Option<(&'a Seen<'a>, Seens<'a>)>
    requires { HasBounds shape.now }
    ensures { MatchOption result (told.answered_turn shape.now seens.now ≡ None)
        (λ found. told.answered_turn shape.now seens.now ≡ Some (found.0.now, found.1)) }
{
    let found = first_group(seens)?;
    let last: &'a Seen<'a> = found.last;
    if answers(shape, last, &found.before) {
        Some((last, found.rest))
    } else {
        None
    }
}

/// Whether turns answer the probes of a turn.
fn answers(shape: &Shape, last: &Seen<'_>, before: &Seens<'_>) -> bool
    requires { HasBounds shape.now }
    ensures { result ≡ told.answers shape.now (turns_in before.now) last.now }
{
    let stored = hashes(last.note);
    match last.part {
        PartAt::Bucket(_) | PartAt::Free(_) => are_tries(shape, &[], stored, before),
        PartAt::Local(packed) => match packed.part() {
            Ok(part) => are_local(shape, part, stored, before),
            Err(part) => are_local(shape, &part, stored, before),
        },
        PartAt::Global(packed) => match packed.part() {
            Ok(part) => are_global(shape, part, stored, before),
            Err(part) => are_global(shape, &part, stored, before),
        },
        PartAt::Own(packed) => are_own(shape, packed.part(), stored, before),
    }
}

/// Whether turns answer the probes of a turn of local lists.
fn are_local(shape: &Shape, part: &LocalPart, hashes: &[Option<u32>], before: &Seens<'_>) -> bool
    requires { HasBounds shape.now }
    ensures { result ≡ are_answers shape.now (local_probes part.now) hashes.now (turns_in before.now) }
{
    let (looks, tries) = local_probes(part);
    are_answers(shape, looks, tries, hashes, before)
}

/// Whether turns answer the probes of a turn of the global lists.
fn are_global(shape: &Shape, part: &GlobalPart, hashes: &[Option<u32>], before: &Seens<'_>) -> bool
    requires { HasBounds shape.now }
    ensures { result ≡ are_answers shape.now (global_probes part.now) hashes.now (turns_in before.now) }
{
    match part {
        GlobalPart::Turn { shrink, .. } => {
            let (looks, tries) = shrink_probes(shrink.as_ref());
            are_answers(shape, looks, tries, hashes, before)
        }
        GlobalPart::Push { .. } => are_tries(shape, &[], hashes, before),
    }
}

/// Whether turns answer the probes of a turn of a CPU's own lists.
fn are_own(shape: &Shape, part: OwnAt<'_>, hashes: &[Option<u32>], before: &Seens<'_>) -> bool
    requires { HasBounds shape.now }
    ensures { result ≡ are_answers shape.now (own_probes (own_read part.entry)) hashes.now (turns_in before.now) }
{
    match part {
        OwnAt::Turn { shrink, .. } => {
            let (looks, tries) = shrink_probes(shrink);
            are_answers(shape, looks, tries, hashes, before)
        }
        OwnAt::Push { .. } => are_tries(shape, &[], hashes, before),
    }
}

/// What a theft looked at and tried.
fn local_probes(part: &LocalPart) -> (&[Look], &[Try])
    ensures { local_probes part.now ≡ walk_probes result.0.now result.1.now }
{
    match part {
        LocalPart::Steal { first, second, .. } => (first.as_slice(), second.as_slice()),
        _ => (&[], &[]),
    }
}

/// What a shrink looked at and tried.
fn shrink_probes(shrink: Option<&ShrinkNote>) -> (&[Look], &[Try])
    ensures { shrink_probes (option_map (λ note. note.now) shrink.entry) ≡ walk_probes result.0.now result.1.now }
{
    match shrink {
        None => (&[], &[]),
        Some(note) => (note.looks.as_slice(), note.forced.as_slice()),
    }
}

/// The hashes that were noted of what was probed.
fn hashes(note: &Note) -> &[Option<u32>]
    ensures { result.now ≡ hashes_noted note.now }
{
    match note {
        Note::Probes(stored) => stored.as_slice(),
        Note::Nothing | Note::Refill { .. } => &[],
    }
}

/// Whether turns answer the probes of looks and tries.
fn are_answers(
    shape: &Shape,
    looks: &[Look],
    tries: &[Try],
    hashes: &[Option<u32>],
    before: &Seens<'_>,
) -> bool
    requires { HasBounds shape.now }
    ensures { result ≡ are_answers shape.now (walk_probes looks.now tries.now) hashes.now (turns_in before.now) }
{
    let mut stored = hashes;
    let mut left = before.again();
    for look in looks {
        if let Some(probed) = look.probed {
            match first_answer(shape, look.element, probed, stored, &left) {
                None => return false,
                Some((more_stored, more)) => {
                    stored = more_stored;
                    left = more;
                }
            }
        }
    }
    are_tries(shape, tries, stored, &left)
}

/// Whether turns answer the probes of tries.
fn are_tries(shape: &Shape, tries: &[Try], hashes: &[Option<u32>], before: &Seens<'_>) -> bool
    requires { HasBounds shape.now }
    ensures { result ≡ are_answers shape.now tries.now hashes.now (turns_in before.now) }
{
    let mut stored = hashes;
    let mut left = before.again();
    for tried in tries {
        match first_answer(shape, tried.element, tried.probed, stored, &left) {
            None => return false,
            Some((more_stored, more)) => {
                stored = more_stored;
                left = more;
            }
        }
    }
    left.split_first().is_none()
}

/// What is left where the first turn answers a probe of an element with the first hash.
fn first_answer<'h, 'a>(
    shape: &Shape,
    element: u32,
    probed: Probed,
    hashes: &'h [Option<u32>],
    before: &Seens<'a>,
) -> Option<(&'h [Option<u32>], Seens<'a>)>
    requires { HasBounds shape.now }
    ensures { (more : List tries.Try) → MatchOption result
        (are_answers shape.now (try_of element probed ∷ more) hashes.now (turns_in before.now) ≡ false)
        (λ left. are_answers shape.now (try_of element probed ∷ more) hashes.now (turns_in before.now) ≡ are_answers shape.now more left.0.now (turns_in left.1)) }
{
    let (hash, stored) = hashes.split_first()?;
    let (seen, left) = before.split_first()?;
    if is_answer(shape, element, probed, *hash, seen) {
        Some((stored, left))
    } else {
        None
    }
}
