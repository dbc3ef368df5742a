//! Next key.

ghost use Rattle.std.specs.Prelude.{◌≡◌, IfErr, IfSome, length, option_map, Some};
ghost use Rattle.map_types.specs.declared.call.Verb.TheVariants as verbs;
ghost use Rattle.map_types.specs.Shape.{HasBounds};
ghost use Rattle.place_table.specs.Calls.{CanCall, Called, reply_of_value};
ghost use Rattle.bucket_walks.specs.Looks.{CanWalk, WalksOn};

use crate::buckets::{BucketKey, first_in, next_in};
use crate::parts::After;
use bucket_chain::bucket_number;
use map_types::{Absent, Gate};
use place_table::{Pass, PlaceTable};
use std::sync::Wait;

/// Copies to `out` the key that follows another one in the order of a walk: the next one in its bucket, else the first one of
/// the first later bucket that isn't empty. Without a key, or with one that is absent, it is the first key of the first bucket
/// that isn't empty. `out` has as many bytes as a key. It is `Absent` (ENOENT), and `out` as it was, exactly where no such key
/// was found. Each bucket is looked at in a turn of its own; where memory for its entry isn't found, the record of that
/// bucket's turns is lost, and the call goes on. An absent key costs one turn of its bucket before the walk starts at the first
/// one. The rule is that of `htab_map_get_next_key`.
pub fn next_key<R: Wait, G: Gate>(
    rt: &R,
    table: &PlaceTable,
    pass: &mut Pass,
    key: Option<&[u8]>,
    out: &mut [u8],
    gate: &G,
) -> Result<(), Absent>
    requires can { CanCall table.now pass.old }
    requires bounds { HasBounds table.now.shape }
    requires key { IfSome key (λ key. length key.now ≡ table.now.shape.key_size) }
    requires out { length out.old ≡ table.now.shape.key_size }
    ensures called { Called table.now pass.old pass.new
        (verbs.Next (option_map (λ key. key.now) key.entry)) (reply_of_value result out.new) }
    ensures refused { IfErr result (λ _. out.new ≡ out.old) }
{
    match key {
        None => first_key(rt, table, pass, out, gate),
        Some(key) => key_after(rt, table, pass, key, out, gate),
    }
}

/// The first key of the map.
fn first_key<R: Wait, G: Gate>(
    rt: &R,
    table: &PlaceTable,
    pass: &mut Pass,
    out: &mut [u8],
    gate: &G,
) -> Result<(), Absent>
    requires can { CanCall table.now pass.old }
    requires out { length out.old ≡ table.now.shape.key_size }
    ensures called { Called table.now pass.old pass.new (verbs.Next None)
        (reply_of_value result out.new) }
    ensures refused { IfErr result (λ _. out.new ≡ out.old) }
{
    first_from(rt, table, pass, 0, out, gate)
}

/// The key after another one.
fn key_after<R: Wait, G: Gate>(
    rt: &R,
    table: &PlaceTable,
    pass: &mut Pass,
    key: &[u8],
    out: &mut [u8],
    gate: &G,
) -> Result<(), Absent>
    requires can { CanCall table.now pass.old }
    requires bounds { HasBounds table.now.shape }
    requires key { length key.now ≡ table.now.shape.key_size }
    requires out { length out.old ≡ table.now.shape.key_size }
    ensures called { Called table.now pass.old pass.new (verbs.Next (Some key.now))
        (reply_of_value result out.new) }
    ensures refused { IfErr result (λ _. out.new ≡ out.old) }
{
    let bucket = bucket_number(table.shape(), key);
    let from = BucketKey { bucket, key };
    match next_in(rt, table, pass, from, out, gate) {
        After::Absent => first_from(rt, table, pass, 0, out, gate),
        After::Last => first_from(rt, table, pass, bucket + 1, out, gate),
        After::Key => Ok(()),
    }
}

/// The first key of the first bucket that isn't empty, from this one on.
fn first_from<R: Wait, G: Gate>(
    rt: &R,
    table: &PlaceTable,
    pass: &mut Pass,
    from: u32,
    out: &mut [u8],
    gate: &G,
) -> Result<(), Absent>
    requires can { CanWalk table.now pass.old }
    requires out { length out.old ≡ table.now.shape.key_size }
    ensures walks { WalksOn table.now from pass.old pass.new (reply_of_value result out.new) }
    ensures refused { IfErr result (λ _. out.new ≡ out.old) }
{
    let buckets = table.shape().buckets;
    for bucket in from..buckets {
        if first_in(rt, table, pass, bucket, out, gate) {
            return Ok(());
        }
    }
    Err(Absent)
}
