//! One batch of a run.

ghost use Rattle.std.specs.Prelude.{◌≡◌, ◌<◌, ◌^◌, false, unwrap_or, All, IfOk, length};
ghost use Rattle.map_types.specs.declared.call.Verb.TheVariants as verbs;
ghost use Rattle.map_types.specs.declared.kind.Side.TheVariants.{Sys};
ghost use Rattle.map_types.specs.Pairs.{HaveSizes};
ghost use Rattle.map_types.specs.ValueLen.{value_len_of};
ghost use Rattle.place_table.specs.Calls.{CanCall, Called};
ghost use Rattle.bucket_walks.specs.BatchReads.{IsToRead};
ghost use Rattle.map_batch.specs.Calls.{table_of};
ghost use Rattle.map_copy.specs.Copied.{read_of};
ghost use Rattle.map_report.specs.Record.{MayAnswer};
ghost use Rattle.map_run.specs.Copying.{IsMapPage};

use bucket_walks::BatchRequest;
use map_batch::{
    AnyMap, BatchCount, BatchOut, BatchRefusal, WriteRefusal, delete_batch, read_batch,
    update_batch,
};
use map_types::{Bytes, Errno, Gate, List, NoMemory, Pairs, Reply};
use place_table::Pass;
use std::alloc::{AllocError, Global};
use std::sync::Wait;

/// Answers the keys and values of whole buckets, and takes their elements out where `remove` says so.
pub(crate) fn batch_read<R: Wait, G: Gate>(
    rt: &R,
    alloc: Global,
    map: &AnyMap,
    pass: &mut Pass,
    remove: bool,
    request: BatchRequest,
    gate: &G,
) -> Result<Reply, NoMemory>
    requires can { CanCall (table_of map.now) pass.old }
    ensures answers { IfOk result (λ reply. MayAnswer (table_of map.now).shape
        (verbs.BatchRead remove request.count request.start request.flags) reply) }
    ensures called { IfOk result (λ reply. Called (table_of map.now) pass.old pass.new
        (verbs.BatchRead remove request.count request.start request.flags) reply) }
    // A lookup that goes over buckets answers a page of the map.
    ensures page { IfOk result (λ reply. remove ≡ false
        → IsToRead (table_of map.now).shape request.count request.start request.flags
        → IsMapPage (table_of map.now).shape
        (read_of request.count (unwrap_or request.start 0)) reply) }
{
    let BatchRequest {
        count,
        start,
        flags,
    } = request;
    match read_batch(rt, alloc, map, pass, count, start, flags, remove, gate) {
        Ok(BatchOut::Idle) => Ok(Reply::Done),
        Ok(BatchOut::Read { stop, taken, next }) => Ok(Reply::Batch { stop, taken, next }),
        Err(BatchRefusal::Einval) => Ok(Reply::Refused(Errno::Einval)),
        Err(BatchRefusal::Past) => Ok(Reply::Refused(Errno::Enoent)),
        Err(BatchRefusal::NoMemory) => Err(AllocError.into()),
    }
}

/// Updates the keys of some pairs, up to the first that is refused.
pub(crate) fn batch_update<R: Wait, G: Gate>(
    rt: &R,
    map: &AnyMap,
    pass: &mut Pass,
    flags: u32,
    pairs: &Pairs,
    gate: &G,
) -> Result<Reply, NoMemory>
    requires can { CanCall (table_of map.now) pass.old }
    requires sizes { HaveSizes (table_of map.now).shape.key_size
        (value_len_of (table_of map.now).shape Sys) pairs.now }
    requires few { length pairs.now < 2 ^ 32 }
    ensures answers { IfOk result (λ reply. MayAnswer (table_of map.now).shape
        (verbs.BatchUpdate flags pairs.now) reply) }
    ensures called { IfOk result (λ reply. Called (table_of map.now) pass.old pass.new
        (verbs.BatchUpdate flags pairs.now) reply) }
{
    match update_batch(rt, map, pass, flags, pairs, gate) {
        Ok(BatchCount { done, stop }) => Ok(Reply::Count { stop, done }),
        Err(WriteRefusal::Einval) => Ok(Reply::Refused(Errno::Einval)),
    }
}

/// Deletes some keys, up to the first that isn't there.
pub(crate) fn batch_delete<R: Wait, G: Gate>(
    rt: &R,
    map: &AnyMap,
    pass: &mut Pass,
    flags: u32,
    keys: &List<Bytes>,
    gate: &G,
) -> Result<Reply, NoMemory>
    requires can { CanCall (table_of map.now) pass.old }
    requires sizes { All (λ key. length key ≡ (table_of map.now).shape.key_size) keys.now }
    requires few { length keys.now < 2 ^ 32 }
    ensures answers { IfOk result (λ reply. MayAnswer (table_of map.now).shape
        (verbs.BatchDelete flags keys.now) reply) }
    ensures called { IfOk result (λ reply. Called (table_of map.now) pass.old pass.new
        (verbs.BatchDelete flags keys.now) reply) }
{
    match delete_batch(rt, map, pass, flags, keys, gate) {
        Ok(BatchCount { done, stop }) => Ok(Reply::Count { stop, done }),
        Err(WriteRefusal::Einval) => Ok(Reply::Refused(Errno::Einval)),
    }
}
