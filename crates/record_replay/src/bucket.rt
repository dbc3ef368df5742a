//! The history of a bucket, replayed.

ghost use Rattle.std.specs.Prelude.{◌<◌, ℕ, All, IfOk, MatchResult};
ghost use Rattle.map_types.specs.Creation.{IsShape};
ghost use Rattle.map_types.specs.Shape.{HasBounds};
ghost use Rattle.map_types.specs.declared.kind.DomainId.TheVariants as locks;
ghost use Rattle.place_words.specs.Entries.{part_read};
ghost use Rattle.place_words.specs.Histories.{in_bucket};
ghost use Rattle.place_words.specs.Sizes.{AreSized, GivesSized};
ghost use Rattle.record_replay.specs.BucketSteps.{IsBucketStep, IsSizedEntry, PartIsSized};
ghost use Rattle.replay_words.specs.Replays.{IsStep, Leads, StopsAt};

use crate::changes::{delete, evict, take};
use crate::reads::{allows_first, allows_next, allows_read};
use crate::updates::update;
use crate::walks::walk;
use bucket_chain::{Chain, Write};
use map_types::{NoMemory, Shape};
use place_words::{BucketPart, Entries, PartAt};
use replay_words::ReplayStop;
use std::alloc::Global;

/// Replays the turns of a bucket from its opening, at which it is empty: the elements that lie there at the end, or the first turn
/// that the rules don't allow. An element may stand there twice, under two keys. A turn on a key or an element looks for it from
/// the head of the bucket, as the kernel does, so it takes time by the number of elements that lie there. A walk that tells all
/// elements takes time and memory by them. What lies there has keys and values of the map's sizes.
pub fn replay_bucket(alloc: Global, shape: &Shape, entries: &Entries) -> Result<Chain, ReplayStop>
    requires shape { IsShape shape.now }
    requires sized { All (IsSizedEntry shape.now) entries.now }
    ensures sized { IfOk result (λ chain. AreSized shape.now chain.bodies) }
    ensures replayed { (bucket : ℕ) → MatchResult result
        (λ chain. Leads shape.now (locks.Bucket bucket) entries.now (in_bucket chain.bodies))
        (StopsAt shape.now (locks.Bucket bucket) entries.now) }
{
    let mut chain = Chain::empty(alloc);
    for i in 0..entries.len() {
        let entry = entries.at(i);
        if !moves(alloc, shape, entry.cpu, entry.part, &mut chain)? {
            return Err(ReplayStop::NotAllowed { index: i });
        }
    }
    Ok(chain)
}

/// Makes a turn of a CPU on a bucket, and says whether it is allowed there.
fn moves(
    alloc: Global,
    shape: &Shape,
    cpu: u32,
    part: PartAt<'_>,
    chain: &mut Chain,
) -> Result<bool, NoMemory>
    requires shape { IsShape shape.now }
    requires bounds { HasBounds shape.now }
    requires cpu { cpu < shape.now.cpus }
    requires part { PartIsSized shape.now (part_read part) }
    requires sized { AreSized shape.now chain.old.bodies }
    ensures { IfOk result (IsStep shape.now cpu (part_read part.entry) (in_bucket chain.old.bodies) (in_bucket chain.new.bodies)) }
{
    match part {
        PartAt::Bucket(packed) => match packed.part() {
            Ok(part) => turn(alloc, shape, cpu, part, chain),
            Err(part) => turn(alloc, shape, cpu, &part, chain),
        },
        PartAt::Free(_) | PartAt::Local(_) | PartAt::Global(_) | PartAt::Own(_) => Ok(false),
    }
}

/// Makes a turn of a bucket's lock, where it is allowed.
#[tactic(auto, unfolding(place_words::specs::Buckets::AllowsInBucket, place_words::specs::Buckets::bucket_after))]
fn turn(
    alloc: Global,
    shape: &Shape,
    cpu: u32,
    part: &BucketPart,
    chain: &mut Chain,
) -> Result<bool, NoMemory>
    requires shape { IsShape shape.now }
    requires bounds { HasBounds shape.now }
    requires cpu { cpu < shape.now.cpus }
    requires part { GivesSized shape.now part.now }
    requires sized { AreSized shape.now chain.old.bodies }
    ensures { IfOk result (IsBucketStep shape.now cpu part.now chain.old.bodies chain.new.bodies) }
{
    match part {
        BucketPart::Lookup { side, key, got } => {
            allows_read(alloc, shape, *side, cpu, key.as_slice(), got, chain)
        }
        BucketPart::Update {
            side,
            flags,
            key,
            value,
            offer: _,
            put,
        } => {
            let write = Write {
                side: *side,
                flags: *flags,
                key: key.as_slice(),
                value: value.as_slice(),
            };
            update(alloc, shape, cpu, write, *put, chain)
        }
        BucketPart::Delete { key, gone } => Ok(delete(shape, cpu, key.as_slice(), *gone, chain)),
        BucketPart::Take { key, gone } => take(alloc, shape, cpu, key.as_slice(), gone, chain),
        BucketPart::Next { key, found } => Ok(allows_next(key.as_slice(), found, chain)),
        BucketPart::First { key } => Ok(allows_first(key, chain)),
        BucketPart::Walk {
            remove,
            room,
            result: walked,
        } => walk(alloc, shape, cpu, *remove, *room, walked, chain),
        BucketPart::Evict { element, probed } => { Ok(evict(shape, cpu, *element, *probed, chain)) }
    }
}
