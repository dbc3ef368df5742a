//! Next key and batch read.

ghost use Rattle.std.specs.Prelude.{◌≡◌, false, IfErr, IfSome, length, option_map};
ghost use Rattle.map_types.specs.declared.call.Verb.TheVariants as verbs;
ghost use Rattle.place_table.specs.Calls.{CanCall, Called, reply_of_value};
ghost use Rattle.bucket_walks.specs.BatchReads.{Answers, Comes};
ghost use Rattle.bucket_walks.specs.Pages.{GivesPage};
ghost use Rattle.map_batch.specs.Calls.{table_of};

use crate::any_map::AnyMap;
use crate::take_lru::take_batch_lru;
use crate::take_plain::take_batch_plain;
use bucket_walks::{BatchOut, BatchRefusal, BatchRequest, look_up_batch};
use map_types::{Absent, Gate};
use place_table::Pass;
use std::alloc::Global;
use std::sync::Wait;

/// Copies to `out` the key that follows another one in the order of a walk: the next one in its bucket, else the first one of
/// the first later bucket that isn't empty. Without a key, or with one that is absent, it is the first key of the first bucket
/// that isn't empty. `out` has as many bytes as a key. It is `Absent` (ENOENT), and `out` as it was, exactly where no such key
/// was found. Each bucket is looked at in a turn of its own; where memory for its entry isn't found, the record of that bucket's turns
/// is lost, and the call goes on. The rule is that of `htab_map_get_next_key`.
pub fn next_key<R: Wait, G: Gate>(
    rt: &R,
    map: &AnyMap,
    pass: &mut Pass,
    key: Option<&[u8]>,
    out: &mut [u8],
    gate: &G,
) -> Result<(), Absent>
    requires can { CanCall (table_of map.now) pass.old }
    requires key { IfSome key (λ key. length key.now ≡ (table_of map.now).shape.key_size) }
    requires out { length out.old ≡ (table_of map.now).shape.key_size }
    ensures called { Called (table_of map.now) pass.old pass.new
        (verbs.Next (option_map (λ key. key.now) key.entry)) (reply_of_value result out.new) }
    ensures refused { IfErr result (λ _. out.new ≡ out.old) }
{
    bucket_walks::next_key(rt, map.table(), pass, key, out, gate)
}

/// Copies the keys, each with the value that the system call reads on the pass's CPU, of whole buckets, head first, from the bucket
/// of number `start` on, or from the first one (0), as long as there is room for what they hold: for `count` pairs, and at most for
/// as many as the map has elements; and takes their elements out of the map where `remove` says so. Pairs have keys of key_size
/// bytes, and values as the system call's lookup gives them.
///
/// Flags that aren't 0 are `Einval` (EINVAL); else a count of 0 is `Idle`, which takes nothing; else a start at or past the number of
/// buckets is `Past` (ENOENT). In all three nothing is looked at, nor changed. Else a bucket for which there is no room ends the read,
/// with ENOSPC where nothing was taken before and else without an error, and `next` is its number; after the last bucket it stops
/// with ENOENT, and `next` is the number of buckets. Each bucket is read in a turn of its own; where memory for its entry isn't found,
/// the record of that bucket's turns is lost, and the call goes on. No bit is set. What is taken out is freed: on a map that doesn't
/// evict inside the bucket's turn, in the order taken, and on one that evicts after it, the last taken first. Memory for all that it
/// may take is found before anything is looked at, and where there is none nothing is done (`NoMemory`). The rule is that of the
/// kernel's `__htab_map_lookup_and_delete_batch`.
pub fn read_batch<R: Wait, G: Gate>(
    rt: &R,
    alloc: Global,
    map: &AnyMap,
    pass: &mut Pass,
    count: u32,
    start: Option<u32>,
    flags: u32,
    remove: bool,
    gate: &G,
) -> Result<BatchOut, BatchRefusal>
    requires can { CanCall (table_of map.now) pass.old }
    ensures answers { Answers (table_of map.now) pass.old pass.new
        (verbs.BatchRead remove count start flags) result }
    ensures comes { Comes (table_of map.now).shape count start flags result }
    // What a batch lookup takes is a page of the map.
    ensures page { remove ≡ false → GivesPage (table_of map.now).shape count start result }
{
    let request = BatchRequest {
        count,
        start,
        flags,
    };
    if !remove {
        return look_up_batch(rt, alloc, map.table(), pass, request, gate);
    }
    match map {
        AnyMap::Plain(map) => take_batch_plain(rt, alloc, map, pass, request, gate),
        AnyMap::Lru(map) => take_batch_lru(rt, alloc, map, pass, request, gate),
    }
}
