//! Batch update and batch delete.

ghost use Rattle.std.specs.Prelude.{◌≡◌, ◌<◌, ◌^◌, All, length};
ghost use Rattle.map_types.specs.Pairs.{HaveSizes};
ghost use Rattle.map_types.specs.declared.kind.Side.TheVariants.{Sys};
ghost use Rattle.map_types.specs.ValueLen.{value_len_of};
ghost use Rattle.place_table.specs.Calls.{CanCall};
ghost use Rattle.map_batch.specs.Calls.{table_of};
ghost use Rattle.map_batch.specs.Writes.{UpdatesBatch, DeletesBatch};

use crate::any_map::AnyMap;
use map_types::{Absent, Bytes, Errno, Gate, List, Pairs, Side};
use place_table::Pass;
use std::sync::Wait;

/// What a batch write did.
#[derive(Clone, Copy, Debug, PartialEq, Eq)]
pub struct BatchCount {
    /// How many entries are done.
    pub done: u32,
    /// The error with which the next one was refused; none where all are done.
    pub stop: Option<Errno>,
}

/// Why a batch write is refused.
#[derive(Clone, Copy, Debug, PartialEq, Eq)]
pub enum WriteRefusal {
    /// Flags that aren't 0.
    Einval,
}

/// Updates the keys of some pairs, fewer than 2^32, one after another, each by the system call with BPF_ANY, up to the first that is
/// refused: with E2BIG on a map that doesn't evict, and with ENOMEM on one that does. Keys have key_size bytes, and values those that
/// the system call writes. Flags that aren't 0 are `Einval`, before anything is looked at. It takes no memory that it needs. The rule
/// of `generic_map_update_batch`.
pub fn update_batch<R: Wait, G: Gate>(
    rt: &R,
    map: &AnyMap,
    pass: &mut Pass,
    flags: u32,
    pairs: &Pairs,
    gate: &G,
) -> Result<BatchCount, WriteRefusal>
    requires can { CanCall (table_of map.now) pass.old }
    requires sizes { HaveSizes (table_of map.now).shape.key_size
        (value_len_of (table_of map.now).shape Sys) pairs.now }
    requires few { length pairs.now < 2 ^ 32 }
    ensures { UpdatesBatch (table_of map.now) pass.old pass.new flags pairs.now result }
{
    if flags != 0 {
        return Err(WriteRefusal::Einval);
    }
    Ok(update_each(rt, map, pass, pairs, gate))
}

/// Updates the keys of some pairs up to the first that is refused.
fn update_each<R: Wait, G: Gate>(
    rt: &R,
    map: &AnyMap,
    pass: &mut Pass,
    pairs: &Pairs,
    gate: &G,
) -> BatchCount
    requires can { CanCall (table_of map.now) pass.old }
    requires sizes { HaveSizes (table_of map.now).shape.key_size
        (value_len_of (table_of map.now).shape Sys) pairs.now }
    requires few { length pairs.now < 2 ^ 32 }
    ensures { UpdatesBatch (table_of map.now) pass.old pass.new 0 pairs.now (Ok result) }
{
    let mut done = 0;
    for i in 0..pairs.len() {
        match map.update(rt, pass, Side::Sys, 0, pairs.key(i), pairs.value(i), gate) {
            Ok(()) => done += 1,
            Err(errno) => {
                return BatchCount {
                    done,
                    stop: Some(errno),
                };
            }
        }
    }
    BatchCount { done, stop: None }
}

/// Deletes some keys, fewer than 2^32, of key_size bytes, one after another, up to the first that isn't there (ENOENT). Flags that
/// aren't 0 are `Einval`, before anything is looked at. It takes no memory that it needs. The rule of `generic_map_delete_batch`.
pub fn delete_batch<R: Wait, G: Gate>(
    rt: &R,
    map: &AnyMap,
    pass: &mut Pass,
    flags: u32,
    keys: &List<Bytes>,
    gate: &G,
) -> Result<BatchCount, WriteRefusal>
    requires can { CanCall (table_of map.now) pass.old }
    requires sizes { All (λ key. length key ≡ (table_of map.now).shape.key_size) keys.now }
    requires few { length keys.now < 2 ^ 32 }
    ensures { DeletesBatch (table_of map.now) pass.old pass.new flags keys.now result }
{
    if flags != 0 {
        return Err(WriteRefusal::Einval);
    }
    Ok(delete_each(rt, map, pass, keys.as_slice(), gate))
}

/// Deletes some keys up to the first that isn't there.
fn delete_each<R: Wait, G: Gate>(
    rt: &R,
    map: &AnyMap,
    pass: &mut Pass,
    keys: &[Bytes],
    gate: &G,
) -> BatchCount
    requires can { CanCall (table_of map.now) pass.old }
    requires sizes { All (λ key. length key ≡ (table_of map.now).shape.key_size) keys.now }
    requires few { length keys.now < 2 ^ 32 }
    ensures { DeletesBatch (table_of map.now) pass.old pass.new 0 keys.now (Ok result) }
{
    let mut done = 0;
    for key in keys {
        match map.delete(rt, pass, key.as_slice(), gate) {
            Ok(()) => done += 1,
            Err(Absent) => {
                return BatchCount {
                    done,
                    stop: Some(Errno::Enoent),
                };
            }
        }
    }
    BatchCount { done, stop: None }
}
