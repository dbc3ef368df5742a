//! Batch take on a map that evicts.

ghost use Rattle.std.specs.Prelude.{◌≡◌, ◌+◌, ◌<◌, ◌≤◌, [], length, true, IsTrue};
ghost use Rattle.map_types.specs.Creation.{IsShape};
ghost use Rattle.map_types.specs.declared.call.Verb.TheVariants as verbs;
ghost use Rattle.map_types.specs.Kind.{is_lru};
ghost use Rattle.map_types.specs.Shape.{HasBounds};
ghost use Rattle.place_table.specs.Calls.{CanCall};
ghost use Rattle.place_table.specs.BucketTurns.{CanEnter};
ghost use Rattle.map_batch.specs.LruTakes.{CanTakeOut, CanFreeAll, FreedAll, TakesInto, TakesIn, TakesOn};
ghost use Rattle.bucket_walks.specs.BatchReads.{Answers, BeginsAt, Comes, IsOfMap};

use bucket_walks::{
    BatchOut, BatchRefusal, BatchRequest, Planned, ReadRoom, plan, read_out, read_whole, walk_part,
};
use lru_ops::LruMap;
use map_types::{DomainId, Gate};
use percpu_values::BodyStack;
use place_table::{Content, Pass, PlaceTable};
use std::alloc::Global;
use std::sync::Wait;

/// Copies keys and values as `look_up_batch` does, and takes their elements out of the map: after the turn of their
/// bucket they are freed, the last taken first. Room for as many bodies as it may take is found before anything is looked at.
/// The rule is that of the kernel's `__htab_map_lookup_and_delete_batch`.
pub(crate) fn take_batch_lru<R: Wait, G: Gate>(
    rt: &R,
    alloc: Global,
    map: &LruMap,
    pass: &mut Pass,
    request: BatchRequest,
    gate: &G,
) -> Result<BatchOut, BatchRefusal>
    requires can { CanCall map.now pass.old }
    ensures answers { Answers map.now pass.old pass.new
        (verbs.BatchRead true request.count request.start request.flags) result }
    ensures comes { Comes map.now.shape request.count request.start request.flags result }
{
    let shape = map.table().shape();
    match plan(alloc, shape, request) {
        Err(refusal) => Err(refusal),
        Ok(None) => Ok(BatchOut::Idle),
        Ok(Some(Planned { from, out })) => {
            let gone = BodyStack::with_room(alloc, out.left())?;
            let mut taking = Taking { out, gone };
            let next = take_from(rt, alloc, map, pass, from, &mut taking, gate);
            Ok(read_out(shape, next, taking.out))
        }
    }
}

/// What a batch take gathers: the pairs, and the bodies of a bucket that are still to be freed, the last taken on top.
#[derive(Drop)]
struct Taking {
    out: ReadRoom,
    gone: BodyStack,
}

/// Takes out the buckets from this one on, up to the first for which there is no room, and answers which that is, or else how
/// many buckets there are.
fn take_from<R: Wait, G: Gate>(
    rt: &R,
    alloc: Global,
    map: &LruMap,
    pass: &mut Pass,
    from: u32,
    taking: &mut Taking,
    gate: &G,
) -> u32
    requires can { CanTakeOut map.now pass.old }
    requires from { from ≤ map.now.shape.buckets }
    requires begins { BeginsAt map.now.shape taking.old.out.limit taking.old.out }
    requires gone { taking.old.gone ≡ record { bodies = []; spare = taking.old.out.limit } }
    ensures { TakesOn map.now from pass.old pass.new taking.old.out.limit taking.new.out.pairs
        result }
{
    let buckets = map.table().shape().buckets;
    for bucket in from..buckets {
        if !take_in(rt, alloc, map, pass, bucket, taking, gate) {
            return bucket;
        }
    }
    buckets
}

/// Takes a bucket out whole, where there is room for all its elements, and frees them, the last taken first. Answers whether it
/// did.
fn take_in<R: Wait, G: Gate>(
    rt: &R,
    alloc: Global,
    map: &LruMap,
    pass: &mut Pass,
    bucket: u32,
    taking: &mut Taking,
    gate: &G,
) -> bool
    requires can { CanTakeOut map.now pass.old }
    requires there { bucket < map.now.shape.buckets }
    requires of_map { IsOfMap map.now.shape taking.old.out }
    requires gone { taking.old.gone ≡ record { bodies = []; spare = taking.old.out.limit } }
    ensures takes { TakesIn map.now bucket pass.old pass.new result taking.old.out taking.new.out }
    ensures gone { taking.new.gone ≡ taking.old.gone }
{
    let whole = take_out(rt, alloc, map.table(), pass, bucket, taking, gate);
    free_all(rt, map, pass, &mut taking.gone, gate);
    whole
}

/// Takes all elements out of a bucket in one turn, head first, where there is room for them, and answers whether it did. They
/// are in the CPU's hand then, the last taken on top.
fn take_out<R: Wait, G: Gate>(
    rt: &R,
    alloc: Global,
    table: &PlaceTable,
    pass: &mut Pass,
    bucket: u32,
    taking: &mut Taking,
    gate: &G,
) -> bool
    requires can { CanEnter table.now bucket pass.old }
    requires shape { IsShape table.now.shape }
    requires bounds { HasBounds table.now.shape }
    requires evicts { IsTrue (is_lru table.now.shape.kind) }
    requires of_map { IsOfMap table.now.shape taking.old.out }
    requires empty { taking.old.gone.bodies ≡ [] }
    requires room { taking.old.out.limit ≤ taking.old.gone.spare }
    ensures takes { TakesInto table.now bucket pass.old pass.new result taking.old.out
        taking.new.out taking.new.gone.bodies }
    ensures room { taking.new.gone.spare + length taking.new.gone.bodies ≡ taking.old.gone.spare }
{
    let lock = DomainId::Bucket(bucket);
    let shape = table.shape();
    let room = taking.out.left();
    let mut chain = table.enter_bucket(rt, pass, bucket, gate);
    let cpu = table.cpu_of(pass);
    let part = walk_part(alloc, true, shape, cpu, room, &chain);
    if !read_whole(shape, cpu, &chain, &mut taking.out) {
        table.give(pass, lock, Content::Bucket(chain), part.ok(), gate);
        return false;
    }
    while let Some(body) = chain.take_out(0) {
        table.detach(pass, body.body().element(), bucket);
        taking.gone.push(body);
    }
    table.give(pass, lock, Content::Bucket(chain), part.ok(), gate);
    true
}

/// Frees the elements of bodies that were taken out, from the top.
fn free_all<R: Wait, G: Gate>(rt: &R, map: &LruMap, pass: &mut Pass, gone: &mut BodyStack, gate: &G)
    requires { CanFreeAll map.now gone.old.bodies pass.old }
    ensures freed { FreedAll map.now gone.old.bodies pass.old pass.new }
    ensures empty { gone.new
        ≡ record { bodies = []; spare = gone.old.spare + length gone.old.bodies } }
{
    while let Some(body) = gone.pop() {
        map.push_free(rt, pass, body, gate);
    }
}
