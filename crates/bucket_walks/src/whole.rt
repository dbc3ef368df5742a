//! The turn of a bucket that a batch lookup reads whole, or leaves where it has no room for it.

ghost use Rattle.std.specs.Prelude.{◌≡◌, ◌+◌, ◌-◌, ◌<◌, ◌≤◌, All, length, map};
ghost use Rattle.map_types.specs.Creation.{IsShape};
ghost use Rattle.map_types.specs.Shape.{HasBounds};
ghost use Rattle.map_types.specs.Stored.{IsSized};
ghost use Rattle.place_words.specs.Walks.{pair_of};
ghost use Rattle.place_table.specs.BucketTurns.{CanEnter};
ghost use Rattle.bucket_walks.specs.BatchReads.{IsOfMap, IsGathered, ReadsInto, all_read, walked_by, with_pairs};

use crate::parts::walk_part;
use crate::room::ReadRoom;
use bucket_chain::{Chain, body_at};
use map_types::{DomainId, Gate, Shape, Side};
use place_table::{Content, Pass, PlaceTable};
use std::alloc::Global;
use std::sync::Wait;

/// Reads a bucket whole in one turn, where there is room for all its elements, and answers whether it did.
pub(crate) fn read_in<R: Wait, G: Gate>(
    rt: &R,
    alloc: Global,
    table: &PlaceTable,
    pass: &mut Pass,
    bucket: u32,
    out: &mut ReadRoom,
    gate: &G,
) -> bool
    requires can { CanEnter table.now bucket pass.old }
    requires shape { IsShape table.now.shape }
    requires bounds { HasBounds table.now.shape }
    requires of_map { IsOfMap table.now.shape out.old }
    ensures { ReadsInto table.now bucket pass.old pass.new result out.old out.new }
{
    let shape = table.shape();
    let room = out.left();
    let chain = table.enter_bucket(rt, pass, bucket, gate);
    let cpu = table.cpu_of(pass);
    let whole = read_whole(shape, cpu, &chain, out);
    let part = walk_part(alloc, false, shape, cpu, room, &chain);
    table.give(
        pass,
        DomainId::Bucket(bucket),
        Content::Bucket(chain),
        part.ok(),
        gate,
    );
    whole
}

/// Reads a bucket whole where there is room for it.
pub fn read_whole(shape: &Shape, cpu: u32, chain: &Chain, out: &mut ReadRoom) -> bool
    requires bounds { HasBounds shape.now }
    requires cpu { cpu < shape.now.cpus }
    requires sized { All (IsSized shape.now) chain.now.bodies }
    requires of_map { IsOfMap shape.now out.old }
    ensures { IsGathered (walked_by shape.now cpu
        (out.old.limit - length out.old.pairs) chain.now.bodies) result out.old out.new }
{
    if out.left() < chain.len() {
        return false;
    }
    read_all(shape, cpu, chain, out);
    true
}

/// Reads all of a bucket.
fn read_all(shape: &Shape, cpu: u32, chain: &Chain, out: &mut ReadRoom)
    requires bounds { HasBounds shape.now }
    requires cpu { cpu < shape.now.cpus }
    requires sized { All (IsSized shape.now) chain.now.bodies }
    requires of_map { IsOfMap shape.now out.old }
    requires room { length out.old.pairs + length chain.now.bodies ≤ out.old.limit }
    ensures { out.new ≡ with_pairs out.old (map pair_of (all_read shape.now cpu chain.now.bodies)) }
{
    let count = chain.len();
    for place in 0..count {
        out.add(shape, Side::Sys, cpu, body_at(chain, place));
    }
}
