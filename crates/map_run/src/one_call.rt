//! One call of a run.

ghost use Rattle.std.specs.Prelude.{◌≡◌, true, IfOk, IfSome, length};
ghost use Rattle.map_types.specs.declared.call.Verb.TheVariants as verbs;
ghost use Rattle.map_types.specs.Creation.{IsShape};
ghost use Rattle.map_types.specs.ValueLen.{value_len_of};
ghost use Rattle.place_table.specs.Passes.{begun, IsInNoCall, IsPassOf};
ghost use Rattle.place_table.specs.Views.{is_among};
ghost use Rattle.place_table.specs.Calls.{CanCall, Called, reply_of_value};
ghost use Rattle.map_batch.specs.Calls.{table_of};
ghost use Rattle.map_report.specs.Record.{MayAnswer};
ghost use Rattle.serial_laws.specs.Served.{IsServedCall};

use crate::batch_calls::{batch_delete, batch_read, batch_update};
use crate::each_call::each;
use bucket_chain::Write;
use bucket_walks::BatchRequest;
use map_batch::{AnyMap, next_key};
use map_types::{Absent, Bytes, Call, Errno, Gate, NoMemory, Reply, Side, Verb, value_len};
use place_table::Pass;
use std::alloc::Global;
use std::sync::Wait;

/// Room for values of at most so many bytes is taken in place.
const SHORT: usize = 64;

/// Runs a call of this number on its CPU, and gives its answer.
#[inline(always)]
pub(crate) fn run_call<R: Wait, G: Gate>(
    rt: &R,
    alloc: Global,
    map: &AnyMap,
    pass: &mut Pass,
    number: u32,
    call: &Call,
    gate: &G,
) -> Result<Reply, NoMemory>
    requires shape { IsShape (table_of map.now).shape }
    requires table { IsPassOf (table_of map.now) pass.old }
    requires has_cpu { is_among call.now.cpu pass.old.view.cpus ≡ true }
    requires in_no_call { IsInNoCall pass.old }
    requires served { IsServedCall (table_of map.now).shape call.now }
    ensures answers { IfOk result (λ reply. MayAnswer
        (table_of map.now).shape call.now.verb reply) }
    ensures called { IfOk result (λ reply. Called (table_of map.now)
        (begun pass.old call.now.cpu number) pass.new call.now.verb reply) }
{
    map.table().begin(pass, call.cpu, number);
    match &call.verb {
        Verb::Lookup { side, key } => look_up(rt, alloc, map, pass, *side, key.as_slice(), gate),
        Verb::Update {
            side,
            flags,
            key,
            value,
        } => {
            let write = Write {
                side: *side,
                flags: *flags,
                key: key.as_slice(),
                value: value.as_slice(),
            };
            update(rt, map, pass, write, gate)
        }
        Verb::Delete { key } => delete(rt, map, pass, key.as_slice(), gate),
        Verb::Take { key } => take(rt, alloc, map, pass, key.as_slice(), gate),
        Verb::Next { key } => next(rt, alloc, map, pass, key, gate),
        Verb::BatchRead {
            remove,
            count,
            start,
            flags,
        } => {
            let request = BatchRequest {
                count: *count,
                start: *start,
                flags: *flags,
            };
            batch_read(rt, alloc, map, pass, *remove, request, gate)
        }
        Verb::BatchUpdate { flags, pairs } => { batch_update(rt, map, pass, *flags, pairs, gate) }
        Verb::BatchDelete { flags, keys } => batch_delete(rt, map, pass, *flags, keys, gate),
        Verb::Each { flags, stop } => each(rt, alloc, map, pass, call.cpu, *flags, stop, gate),
    }
}

/// Answers what a side reads of a key.
fn look_up<R: Wait, G: Gate>(
    rt: &R,
    alloc: Global,
    map: &AnyMap,
    pass: &mut Pass,
    side: Side,
    key: &[u8],
    gate: &G,
) -> Result<Reply, NoMemory>
    requires shape { IsShape (table_of map.now).shape }
    requires can { CanCall (table_of map.now) pass.old }
    requires key { length key.now ≡ (table_of map.now).shape.key_size }
    ensures answers { IfOk result (λ reply. MayAnswer (table_of map.now).shape
        (verbs.Lookup side key.now) reply) }
    ensures called { IfOk result (λ reply. Called (table_of map.now) pass.old pass.new
        (verbs.Lookup side key.now) reply) }
{
    let len = value_len(map.table().shape(), side) as usize;
    if len <= SHORT {
        let mut out = [0; SHORT];
        let got = map.lookup(rt, pass, side, key, &mut out[..len], gate);
        return value_reply(alloc, got, &out[..len]);
    }
    let mut out = zeros(alloc, len)?;
    let got = map.lookup(rt, pass, side, key, out.as_mut_slice(), gate);
    value_reply(alloc, got, out.as_slice())
}

/// Updates a key.
#[inline(always)]
fn update<R: Wait, G: Gate>(
    rt: &R,
    map: &AnyMap,
    pass: &mut Pass,
    write: Write,
    gate: &G,
) -> Result<Reply, NoMemory>
    requires can { CanCall (table_of map.now) pass.old }
    requires key { length write.key.now ≡ (table_of map.now).shape.key_size }
    requires value { length write.value.now ≡ value_len_of (table_of map.now).shape write.side }
    ensures answers { IfOk result (λ reply. MayAnswer (table_of map.now).shape
        (verbs.Update write.entry.side write.entry.flags write.entry.key.now write.entry.value.now)
        reply) }
    ensures called { IfOk result (λ reply. Called (table_of map.now) pass.old pass.new
        (verbs.Update write.entry.side write.entry.flags write.entry.key.now write.entry.value.now)
        reply) }
{
    let Write {
        side,
        flags,
        key,
        value,
    } = write;
    match map.update(rt, pass, side, flags, key, value, gate) {
        Ok(()) => Ok(Reply::Done),
        Err(errno) => Ok(Reply::Refused(errno)),
    }
}

/// Deletes a key.
fn delete<R: Wait, G: Gate>(
    rt: &R,
    map: &AnyMap,
    pass: &mut Pass,
    key: &[u8],
    gate: &G,
) -> Result<Reply, NoMemory>
    requires can { CanCall (table_of map.now) pass.old }
    requires key { length key.now ≡ (table_of map.now).shape.key_size }
    ensures answers { IfOk result (λ reply. MayAnswer (table_of map.now).shape
        (verbs.Delete key.now) reply) }
    ensures called { IfOk result (λ reply. Called (table_of map.now) pass.old pass.new
        (verbs.Delete key.now) reply) }
{
    match map.delete(rt, pass, key, gate) {
        Ok(()) => Ok(Reply::Done),
        Err(Absent) => Ok(Reply::Refused(Errno::Enoent)),
    }
}

/// Answers what the system call reads of a key, and deletes it.
fn take<R: Wait, G: Gate>(
    rt: &R,
    alloc: Global,
    map: &AnyMap,
    pass: &mut Pass,
    key: &[u8],
    gate: &G,
) -> Result<Reply, NoMemory>
    requires shape { IsShape (table_of map.now).shape }
    requires can { CanCall (table_of map.now) pass.old }
    requires key { length key.now ≡ (table_of map.now).shape.key_size }
    ensures answers { IfOk result (λ reply. MayAnswer (table_of map.now).shape
        (verbs.Take key.now) reply) }
    ensures called { IfOk result (λ reply. Called (table_of map.now) pass.old pass.new
        (verbs.Take key.now) reply) }
{
    let len = value_len(map.table().shape(), Side::Sys) as usize;
    if len <= SHORT {
        let mut out = [0; SHORT];
        let got = map.take_key(rt, pass, key, &mut out[..len], gate);
        return value_reply(alloc, got, &out[..len]);
    }
    let mut out = zeros(alloc, len)?;
    let got = map.take_key(rt, pass, key, out.as_mut_slice(), gate);
    value_reply(alloc, got, out.as_slice())
}

/// Answers the key that follows this one in the order of a walk, or the first one.
fn next<R: Wait, G: Gate>(
    rt: &R,
    alloc: Global,
    map: &AnyMap,
    pass: &mut Pass,
    key: &Option<Bytes>,
    gate: &G,
) -> Result<Reply, NoMemory>
    requires can { CanCall (table_of map.now) pass.old }
    requires key { IfSome key.now (λ key. length key ≡ (table_of map.now).shape.key_size) }
    ensures answers { IfOk result (λ reply. MayAnswer (table_of map.now).shape
        (verbs.Next key.now) reply) }
    ensures called { IfOk result (λ reply. Called (table_of map.now) pass.old pass.new
        (verbs.Next key.now) reply) }
{
    let mut out = zeros(alloc, map.table().shape().key_size as usize)?;
    let got = next_into(rt, map, pass, key, out.as_mut_slice(), gate);
    value_reply(alloc, got, out.as_slice())
}

/// Copies to `out` the key that follows this one, or the first one.
fn next_into<R: Wait, G: Gate>(
    rt: &R,
    map: &AnyMap,
    pass: &mut Pass,
    key: &Option<Bytes>,
    out: &mut [u8],
    gate: &G,
) -> Result<(), Absent>
    requires can { CanCall (table_of map.now) pass.old }
    requires key { IfSome key.now (λ key. length key ≡ (table_of map.now).shape.key_size) }
    requires out { length out.old ≡ (table_of map.now).shape.key_size }
    ensures called { Called (table_of map.now) pass.old pass.new (verbs.Next key.now)
        (reply_of_value result out.new) }
    ensures sized { length out.new ≡ length out.old }
{
    match key {
        None => next_key(rt, map, pass, None, out, gate),
        Some(key) => next_key(rt, map, pass, Some(key.as_slice()), out, gate),
    }
}

/// The answer of a lookup, a take or a next key, which left this value or key where there was one.
fn value_reply(alloc: Global, got: Result<(), Absent>, value: &[u8]) -> Result<Reply, NoMemory>
    ensures { IfOk result (λ reply. reply ≡ reply_of_value got value.now) }
{
    match got {
        Ok(()) => Ok(Reply::Value(Bytes::from_slice(alloc, value)?)),
        Err(Absent) => Ok(Reply::Refused(Errno::Enoent)),
    }
}

/// So many zeros.
fn zeros(alloc: Global, count: usize) -> Result<Vec<u8>, NoMemory>
    ensures { IfOk result (λ bytes. length bytes.items ≡ count) }
{
    Ok(vec![in alloc; 0; count]?)
}
