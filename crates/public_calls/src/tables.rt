//! The table of the least map, with calls of its own alone: no call of a map stands over them.

ghost use Rattle.std.specs.Prelude.{◌≡◌, ℕ, List, IfOk, IfSome, IsTrue, None};
ghost use Rattle.place_words.specs.declared.bucket_part.BucketPart.TheVariants as turns;
ghost use Rattle.place_words.specs.declared.history.Part.TheVariants as parts;
ghost use Rattle.place_table.specs.declared.view.Turned.{Turned};
ghost use Rattle.place_table.specs.BucketTurns.{CanEnter};
ghost use Rattle.place_table.specs.Passes.{IsFirstPass, Went};
ghost use Rattle.public_calls.specs.Tables.{IsTurned, least};

use bucket_chain::lookup_missed;
use map_types::{CreateAttr, DomainId, Gate, MapKind, NoGate, NoMemory, Side, check_attr};
use place_table::{Closed, Content, Pass, PlaceTable};
use place_words::{
    BucketPart, EntryAt, Finals, LockHistory, PackedBucket, Part, PartAt, Strand, StrandStep,
};
use std::alloc::Global;
use std::sync::Wait;

/// The least map: element 0 is free, and element 1 is the spare.
const LEAST: CreateAttr = CreateAttr {
    kind: MapKind::Hash,
    key_size: 1,
    value_size: 1,
    max_entries: 1,
    flags: 0,
    seed: 0,
    cpus: 1,
};

/// Its bucket.
const BUCKET: DomainId = DomainId::Bucket(0);

/// Its freelist.
const FREELIST: DomainId = DomainId::Freelist(0);

/// The key that is looked up.
static KEY: [u8; 1] = [1];

/// Takes the bucket, looks a key up in it as a program does, and gives it back. Answers whether the key isn't there; else the bucket
/// is still held.
fn misses_the_key<R: Wait, G: Gate>(
    rt: &R,
    table: &PlaceTable,
    pass: &mut Pass,
    key: &[u8],
    gate: &G,
) -> bool
    requires can { CanEnter table.now 0 pass.old }
    ensures { IsTrue result → (more : List Turned) × (lost : List ℕ) × Went pass.old pass.new more lost }
{
    let Content::Bucket(chain) = table.take(rt, pass, BUCKET, gate) else {
        return false;
    };
    if chain.find(key).is_some() {
        return false;
    }
    let part = lookup_missed(table.alloc(), Side::Prog, key);
    table.give(pass, BUCKET, Content::Bucket(chain), part.ok(), gate);
    true
}

/// The part of a look at the head of an empty bucket.
fn first_part(alloc: Global) -> Result<Part, NoMemory>
    ensures { IfOk result (λ part. part ≡ parts.Bucket (turns.First None)) }
{
    let part = PackedBucket::new(alloc, BucketPart::First { key: None })?;
    Ok(Part::Bucket(part))
}

/// Takes the bucket, looks at its head, and gives it back. Answers whether nothing lies there; else the bucket is still held.
fn finds_no_head<R: Wait, G: Gate>(rt: &R, table: &PlaceTable, pass: &mut Pass, gate: &G) -> bool
    requires can { CanEnter table.now 0 pass.old }
    ensures { IsTrue result → (more : List Turned) × (lost : List ℕ) × Went pass.old pass.new more lost }
{
    let Content::Bucket(chain) = table.take(rt, pass, BUCKET, gate) else {
        return false;
    };
    if chain.len() != 0 {
        return false;
    }
    let part = first_part(table.alloc());
    table.give(pass, BUCKET, Content::Bucket(chain), part.ok(), gate);
    true
}

/// The least map's table, and its first pass. None where memory for it is not found.
fn opened(alloc: Global) -> Option<(PlaceTable, Pass)>
    ensures first { IfSome result (λ made. IsFirstPass made.0 made.1) }
    ensures least { IfSome result (λ made. made.0.shape ≡ least) }
{
    let Ok(shape) = check_attr(&LEAST) else {
        return None;
    };
    PlaceTable::create(alloc, &shape).ok()
}

/// Both turns, as call 1 of CPU 0. Answers whether they found nothing.
fn finds_nothing<R: Wait, G: Gate>(rt: &R, table: &PlaceTable, pass: &mut Pass, gate: &G) -> bool
    requires first { IsFirstPass table.now pass.old }
    requires least { table.now.shape ≡ least }
    ensures { IsTrue result → IsTurned table.now pass.new }
{
    table.begin(pass, 0, 1);
    if !misses_the_key(rt, table, pass, &KEY, gate) {
        return false;
    }
    finds_no_head(rt, table, pass, gate)
}

/// What a table leaves with these turns, after which the bit of the spare is cleared, which isn't set, while no lock is held. None
/// where memory is not found, or something else is.
fn left_behind<R: Wait>(rt: &R, alloc: Global) -> Option<Closed> {
    let (table, mut pass) = opened(alloc)?;
    if !finds_nothing(rt, &table, &mut pass, &NoGate) {
        return None;
    }
    if table.clear(&mut pass, 1) {
        return None;
    }
    table.close(pass).ok()
}

/// What a turn tells.
#[derive(Clone, Copy, PartialEq, Eq)]
enum Told {
    KeyMissed,
    NoHead,
}

/// The turns of the bucket: their tickets, and what they tell.
static TURNS: [(u64, Told); 2] = [(0, Told::KeyMissed), (1, Told::NoHead)];

/// What a part tells, if it is one of these.
fn told_by(part: &BucketPart) -> Option<Told> {
    match part {
        BucketPart::Lookup {
            side: Side::Prog,
            key,
            got: None,
        } if key.as_slice() == KEY.as_slice() => Some(Told::KeyMissed),
        BucketPart::First { key: None } => Some(Told::NoHead),
        _ => None,
    }
}

/// Whether an entry is this turn, of call 1 of CPU 0.
fn is_turn(entry: EntryAt, (ticket, told): (u64, Told)) -> bool {
    let PartAt::Bucket(packed) = entry.part else {
        return false;
    };
    let found = match packed.part() {
        Ok(part) => told_by(part),
        Err(part) => told_by(&part),
    };
    entry.ticket == ticket && entry.cpu == 0 && entry.call == 1 && found == Some(told)
}

/// Whether a history is that of the bucket with these turns.
fn is_history(history: &LockHistory) -> bool {
    let entries = &history.entries;
    if history.lock != BUCKET || entries.len() != TURNS.len() {
        return false;
    }
    for index in 0..entries.len() {
        if !is_turn(entries.at(index), TURNS[index]) {
            return false;
        }
    }
    true
}

/// Whether a strand is CPU 0's, with these turns.
fn is_strand(strand: &Strand) -> bool {
    let steps = &strand.steps;
    if strand.cpus.as_slice() != [0].as_slice() || steps.len() != TURNS.len() {
        return false;
    }
    for index in 0..steps.len() {
        let step = StrandStep {
            lock: BUCKET,
            index: index as u64,
        };
        if steps.at(index) != step {
            return false;
        }
    }
    true
}

/// Whether the bucket is empty, element 0 is free, element 1 is the spare, and no bit is set.
fn are_finals(finals: &Finals) -> bool {
    let buckets = finals.buckets.as_slice();
    let freelists = finals.freelists.as_slice();
    let plain = buckets.len() == 1
        && buckets[0].as_slice().is_empty()
        && freelists.len() == 1
        && freelists[0].as_slice() == [0].as_slice()
        && finals.spares.as_slice() == [1].as_slice();
    let sets = finals.sets.as_slice().len() + finals.locals.as_slice().len();
    plain && sets == 0 && finals.marked.as_slice().is_empty()
}

/// Whether these are what is left: a history of two turns for the bucket and one of none for the freelist, one strand of two turns, and
/// the map as it was opened.
fn are_left(closed: &Closed) -> bool {
    let histories = closed.histories().as_slice();
    let strands = closed.strands().as_slice();
    histories.len() == 2
        && is_history(&histories[0])
        && histories[1].lock == FREELIST
        && histories[1].entries.is_empty()
        && strands.len() == 1
        && is_strand(&strands[0])
        && are_finals(closed.finals())
        && !closed.lost()
}

#[test]
fn turns_of_a_table(rt: HostRuntime) {
    let closed = left_behind(&rt, rt.alloc());
    assert!(rt; closed.is_some_and(|closed| are_left(&closed)));
}
