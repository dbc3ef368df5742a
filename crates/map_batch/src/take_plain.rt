//! Batch take on a map that doesn't evict.

ghost use Rattle.std.specs.Prelude.{◌≡◌, ◌≤◌, true, false};
ghost use Rattle.map_types.specs.declared.call.Verb.TheVariants as verbs;
ghost use Rattle.map_types.specs.Kind.{is_lru};
ghost use Rattle.place_table.specs.Calls.{CanCall};
ghost use Rattle.place_table.specs.InBucket.{InBucket};
ghost use Rattle.bucket_walks.specs.Looks.{CanWalk};
ghost use Rattle.place_table.specs.BucketTurns.{CanEnter};
ghost use Rattle.map_batch.specs.PlainTakes.{CanPushOut, IsPushed, PushesOut, TakesInto, TakesOn};
ghost use Rattle.bucket_walks.specs.BatchReads.{Answers, BeginsAt, Comes, IsOfMap};

use bucket_chain::{Chain, body_out};
use bucket_walks::{
    BatchOut, BatchRefusal, BatchRequest, ReadRoom, plan, read_out, read_whole, walk_part,
};
use hash_ops::PlainMap;
use map_types::{DomainId, Gate};
use percpu_values::BoxedBody;
use place_table::{Content, Pass};
use std::alloc::Global;
use std::sync::Wait;

/// Copies keys and values as `look_up_batch` does, and takes their elements out of the map: inside the turn of its bucket each of
/// them is pushed on the freelist of the pass's CPU, in the order taken. The rule is that of the kernel's
/// `__htab_map_lookup_and_delete_batch`.
pub(crate) fn take_batch_plain<R: Wait, G: Gate>(
    rt: &R,
    alloc: Global,
    map: &PlainMap,
    pass: &mut Pass,
    request: BatchRequest,
    gate: &G,
) -> Result<BatchOut, BatchRefusal>
    requires can { CanCall map.now pass.old }
    ensures answers { Answers map.now pass.old pass.new
        (verbs.BatchRead true request.count request.start request.flags) result }
    ensures comes { Comes map.now.shape request.count request.start request.flags result }
{
    let shape = map.table().shape();
    match plan(alloc, shape, request) {
        Err(refusal) => Err(refusal),
        Ok(None) => Ok(BatchOut::Idle),
        Ok(Some(mut planned)) => {
            let from = planned.from;
            let next = take_from(rt, alloc, map, pass, from, &mut planned.out, gate);
            Ok(read_out(shape, next, planned.out))
        }
    }
}

/// Takes the buckets from this one on, up to the first for which there is no room, and answers which that is, or else how many
/// buckets there are.
fn take_from<R: Wait, G: Gate>(
    rt: &R,
    alloc: Global,
    map: &PlainMap,
    pass: &mut Pass,
    from: u32,
    out: &mut ReadRoom,
    gate: &G,
) -> u32
    requires can { CanWalk map.now pass.old }
    requires from { from ≤ map.now.shape.buckets }
    requires begins { BeginsAt map.now.shape out.old.limit out.old }
    ensures { TakesOn map.now from pass.old pass.new out.old.limit out.new.pairs result }
{
    let buckets = map.table().shape().buckets;
    for bucket in from..buckets {
        if !take_in(rt, alloc, map, pass, bucket, out, gate) {
            return bucket;
        }
    }
    buckets
}

/// Reads a bucket whole in one turn and pushes all its elements, where there is room for them, and answers whether it did.
fn take_in<R: Wait, G: Gate>(
    rt: &R,
    alloc: Global,
    map: &PlainMap,
    pass: &mut Pass,
    bucket: u32,
    out: &mut ReadRoom,
    gate: &G,
) -> bool
    requires can { CanEnter map.now bucket pass.old }
    requires of_map { IsOfMap map.now.shape out.old }
    ensures { TakesInto map.now bucket pass.old pass.new result out.old out.new }
{
    let table = map.table();
    let shape = table.shape();
    let room = out.left();
    let mut chain = table.enter_bucket(rt, pass, bucket, gate);
    let cpu = table.cpu_of(pass);
    let whole = read_whole(shape, cpu, &chain, out);
    let part = walk_part(alloc, true, shape, cpu, room, &chain);
    push_read(rt, map, pass, bucket, whole, &mut chain, gate);
    table.give(
        pass,
        DomainId::Bucket(bucket),
        Content::Bucket(chain),
        part.ok(),
        gate,
    );
    whole
}

/// Takes all bodies out of a bucket that was read whole, and pushes them.
fn push_read<R: Wait, G: Gate>(
    rt: &R,
    map: &PlainMap,
    pass: &mut Pass,
    bucket: u32,
    whole: bool,
    chain: &mut Chain,
    gate: &G,
)
    requires inside { InBucket map.now bucket pass.old chain.old.bodies }
    requires plain { is_lru map.now.shape.kind ≡ false }
    ensures { IsPushed map.now bucket whole pass.old pass.new chain.old.bodies chain.new.bodies }
{
    if whole {
        push_all(rt, map, pass, bucket, chain, gate);
    }
}

/// Takes the bodies of a bucket out of it one after another, head first, and pushes each on the CPU's freelist.
fn push_all<R: Wait, G: Gate>(
    rt: &R,
    map: &PlainMap,
    pass: &mut Pass,
    bucket: u32,
    chain: &mut Chain,
    gate: &G,
)
    requires inside { InBucket map.now bucket pass.old chain.old.bodies }
    requires plain { is_lru map.now.shape.kind ≡ false }
    ensures { IsPushed map.now bucket true pass.old pass.new chain.old.bodies chain.new.bodies }
{
    let count = chain.len();
    for _done in 0..count {
        let body = body_out(chain, 0);
        push_out(rt, map, pass, bucket, body, gate);
    }
}

/// Pushes the element of a body that was taken out of a bucket, which comes to the CPU's hand first.
fn push_out<R: Wait, G: Gate>(
    rt: &R,
    map: &PlainMap,
    pass: &mut Pass,
    bucket: u32,
    body: BoxedBody,
    gate: &G,
)
    requires { CanPushOut map.now bucket body pass.old }
    ensures { PushesOut map.now bucket body pass.old pass.new }
{
    let element = body.body().element();
    map.table().detach(pass, element, bucket);
    map.push(rt, pass, body, gate);
}
