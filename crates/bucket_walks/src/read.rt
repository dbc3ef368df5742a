//! Batch lookup.

ghost use Rattle.std.specs.Prelude.{◌≡◌, ◌≤◌, min, false, IfOk};
ghost use Rattle.map_types.specs.Creation.{IsShape};
ghost use Rattle.map_types.specs.declared.call.Verb.TheVariants as verbs;
ghost use Rattle.map_types.specs.Shape.{HasBounds};
ghost use Rattle.place_table.specs.Calls.{CanCall};
ghost use Rattle.bucket_walks.specs.Looks.{CanWalk};
ghost use Rattle.bucket_walks.specs.declared.read.BatchOut.TheVariants as outs;
ghost use Rattle.bucket_walks.specs.Pages.{GivesPage};
ghost use Rattle.bucket_walks.specs.Plans.{Plans};
ghost use Rattle.bucket_walks.specs.BatchReads.{Answers, BeginsAt, Comes, ReadsOn, stop_of};

use crate::room::ReadRoom;
use crate::whole::read_in;
use map_types::{Errno, Gate, NoMemory, Pairs, Shape, Side, value_len};
use place_table::{Pass, PlaceTable};
use std::alloc::Global;
use std::sync::Wait;

/// What a batch read asks for: how many pairs at most, the number of the bucket to start at, if it isn't the first one, and flags,
/// of which there are none yet: they are to be 0.
#[derive(Clone, Copy)]
pub struct BatchRequest {
    pub count: u32,
    pub start: Option<u32>,
    pub flags: u32,
}

/// What a batch read gives.
#[derive(Drop)]
pub enum BatchOut {
    /// It was to take nothing.
    Idle,
    /// What it took, why it stopped, and the bucket at which the next one starts: the number of buckets after the last one.
    Read {
        stop: Option<Errno>,
        taken: Pairs,
        next: u32,
    },
}

/// Why a batch read is refused.
#[derive(Clone, Copy, Debug, PartialEq, Eq)]
pub enum BatchRefusal {
    /// A flag is set (EINVAL).
    Einval,
    /// It was to start at or past the number of buckets (ENOENT).
    Past,
    /// Memory was not found.
    NoMemory,
}

impl From<NoMemory> for BatchRefusal {
    ghost use Rattle.std.specs.Prelude.{◌≡◌};
    ghost use Rattle.bucket_walks.specs.declared.read.BatchRefusal.TheVariants as refusals;

    ghost from_gives = { λ _ refusal. refusal ≡ refusals.NoMemory };

    fn from(_error: NoMemory) -> BatchRefusal {
        BatchRefusal::NoMemory
    }
}

/// Copies the keys, each with the value that the system call reads on the pass's CPU, of whole buckets from the one of number
/// `request.start` on, or from the first one (0), as long as there is room for what they hold: for `request.count` pairs, and at most
/// for as many as the map has elements. A bucket for which there is no room ends it, with ENOSPC where nothing was taken before
/// and else without an error; after the last bucket it stops with ENOENT. Flags that aren't 0 are `Einval`; else a count of 0
/// is `Idle`; else a start at or past the number of buckets is `Past`; in all three nothing is looked at. Each bucket is read
/// in a turn of its own, head first; where memory for its entry isn't found, the record of that bucket's turns is lost, and the
/// call goes on. Memory for all pairs is found before anything is looked at, and where there is none nothing is done. The rule
/// is that of the kernel's `__htab_map_lookup_and_delete_batch`.
pub fn look_up_batch<R: Wait, G: Gate>(
    rt: &R,
    alloc: Global,
    table: &PlaceTable,
    pass: &mut Pass,
    request: BatchRequest,
    gate: &G,
) -> Result<BatchOut, BatchRefusal>
    requires can { CanCall table.now pass.old }
    requires shape { IsShape table.now.shape }
    ensures answers { Answers table.now pass.old pass.new
        (verbs.BatchRead false request.count request.start request.flags) result }
    ensures comes { Comes table.now.shape request.count request.start request.flags result }
    // What it takes is a page of the map.
    ensures page { GivesPage table.now.shape request.count request.start result }
{
    let shape = table.shape();
    match plan(alloc, shape, request) {
        Err(refusal) => Err(refusal),
        Ok(None) => Ok(BatchOut::Idle),
        Ok(Some(mut planned)) => {
            let from = planned.from;
            let next = read_from(rt, alloc, table, pass, from, &mut planned.out, gate);
            Ok(read_out(shape, next, planned.out))
        }
    }
}

/// A batch read that is to go over buckets: the first of them, and room for all that it may read.
#[derive(Drop)]
pub struct Planned {
    pub from: u32,
    pub out: ReadRoom,
}

/// Where a batch read starts, with room for what it reads, or nothing where it is to read nothing.
pub fn plan(
    alloc: Global,
    shape: &Shape,
    request: BatchRequest,
) -> Result<Option<Planned>, BatchRefusal>
    requires { IsShape shape.now }
    ensures { Plans shape.now request.count request.start request.flags result }
{
    if request.flags != 0 {
        return Err(BatchRefusal::Einval);
    }
    if request.count == 0 {
        return Ok(None);
    }
    let from = request.start.unwrap_or(0);
    if from >= shape.buckets {
        return Err(BatchRefusal::Past);
    }
    let out = room_for(alloc, shape, request.count)?;
    Ok(Some(Planned { from, out }))
}

/// Room for the pairs of a batch read, at most for as many as there are elements.
fn room_for(alloc: Global, shape: &Shape, count: u32) -> Result<ReadRoom, NoMemory>
    requires { IsShape shape.now }
    ensures { IfOk result (λ room. BeginsAt shape.now (min count shape.now.elements) room) }
{
    let value_size = value_len(shape, Side::Sys);
    ReadRoom::of(alloc, count.min(shape.elements), shape.key_size, value_size)
}

/// Reads the buckets from this one on, up to the first for which there is no room, and answers which that is, or else how many
/// buckets there are.
fn read_from<R: Wait, G: Gate>(
    rt: &R,
    alloc: Global,
    table: &PlaceTable,
    pass: &mut Pass,
    from: u32,
    out: &mut ReadRoom,
    gate: &G,
) -> u32
    requires can { CanWalk table.now pass.old }
    requires shape { IsShape table.now.shape }
    requires bounds { HasBounds table.now.shape }
    requires from { from ≤ table.now.shape.buckets }
    requires begins { BeginsAt table.now.shape out.old.limit out.old }
    ensures { ReadsOn table.now from pass.old pass.new out.old.limit out.new.pairs result }
{
    let buckets = table.shape().buckets;
    for bucket in from..buckets {
        if !read_in(rt, alloc, table, pass, bucket, out, gate) {
            return bucket;
        }
    }
    buckets
}

/// What a batch read gives that ended at this bucket, or after the last one.
pub fn read_out(shape: &Shape, next: u32, out: ReadRoom) -> BatchOut
    ensures { result ≡ outs.Read (stop_of shape.now next out.pairs) out.pairs next }
{
    let taken = out.into_pairs();
    let stop = stop_at(shape, next, &taken);
    BatchOut::Read { stop, taken, next }
}

/// Why a batch read ended at this bucket, or after the last one.
fn stop_at(shape: &Shape, next: u32, taken: &Pairs) -> Option<Errno>
    ensures { result ≡ stop_of shape.now next taken.now }
{
    if next >= shape.buckets {
        Some(Errno::Enoent)
    } else if taken.is_empty() {
        Some(Errno::Enospc)
    } else {
        None
    }
}
