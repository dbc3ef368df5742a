//! Which turns are a call's.

ghost use Rattle.std.specs.Prelude.{◌≡◌, ◌≢◌, ◌<◌, ℕ, List, All, IsTrue, MatchBool, MatchOption, None, Some, length};
ghost use Rattle.map_script.specs.WellFormed.{HasSizes};
ghost use Rattle.map_types.specs.Creation.{IsShape};
ghost use Rattle.map_types.specs.Kind.{is_lru};
ghost use Rattle.map_types.specs.Pairs.{pair_at};
ghost use Rattle.map_types.specs.Shape.{HasBounds};
ghost use Rattle.place_words.specs.Walks.{deletes_of, updates_of};
ghost use Rattle.evicting_traces.specs.Calls as told;
ghost use Rattle.evicting_traces.specs.Laws.{IsCountedAs, read_count};
ghost use Rattle.evicting_traces.specs.Reading.{IsSeenAs};

use crate::batch_reads::read_batch;
use crate::batch_writes::{read_deletes, read_updates};
use crate::element_walks::read_each;
use crate::key_calls::{Asked, read_delete, read_lookup, read_take, read_update};
use crate::next_key::read_next;
use crate::seen::{Seens, rest_if};
use map_types::{Bytes, Errno, Pairs, Reply, Shape, Side, Verb};
use trace_check::{BatchAsk, is_count, is_done, is_got, is_refused};

/// How many turns at the beginning are those of a call with this reply, on a map that evicts. None exactly where no beginning of the
/// turns is the call's.
pub fn read_call(
    shape: &Shape,
    cpu: u32,
    verb: &Verb,
    reply: &Reply,
    seens: &Seens<'_>,
) -> Option<usize>
    requires shape { IsShape shape.now }
    requires evicts { IsTrue (is_lru shape.now.kind) }
    requires cpu { cpu < shape.now.cpus }
    requires sizes { HasSizes shape.now verb.now }
    ensures { MatchOption result
        ((n : ℕ) → read_count shape.now cpu verb.now seens.now ≢ Some (n, reply.now))
        (λ n. read_count shape.now cpu verb.now seens.now ≡ Some (n, reply.now)) }
{
    let rest = read_rest(shape, cpu, verb, reply, seens)?;
    Some(seens.len().saturating_sub(rest.len()))
}

/// The turns behind those of a call, if it has this reply.
fn read_rest<'a>(
    shape: &Shape,
    cpu: u32,
    verb: &Verb,
    reply: &Reply,
    seens: &Seens<'a>,
) -> Option<Seens<'a>>
    requires shape { HasBounds shape.now }
    requires evicts { IsTrue (is_lru shape.now.kind) }
    requires cpu { cpu < shape.now.cpus }
    requires sizes { HasSizes shape.now verb.now }
    ensures { IsCountedAs seens.now (told.read_evicting shape.now cpu verb.now seens.now) reply.now result }
{
    match verb {
        Verb::Lookup { side, key } => lookup(shape, *side, key.as_slice(), reply, seens),
        Verb::Update {
            side,
            flags,
            key,
            value,
        } => {
            let asked = Asked {
                side: *side,
                flags: *flags,
                key: key.as_slice(),
                value: value.as_slice(),
            };
            update(shape, cpu, &asked, reply, seens)
        }
        Verb::Delete { key } => delete(shape, key.as_slice(), reply, seens),
        Verb::Take { key } => take(shape, key.as_slice(), reply, seens),
        Verb::Next { key } => read_next(shape, key, reply, seens),
        Verb::BatchRead {
            remove,
            count,
            start,
            flags,
        } => {
            let ask = BatchAsk {
                remove: *remove,
                count: *count,
                start: *start,
                flags: *flags,
            };
            read_batch(shape, ask, reply, seens)
        }
        Verb::BatchUpdate { flags, pairs } => batch_update(shape, cpu, *flags, pairs, reply, seens),
        Verb::BatchDelete { flags, keys } => {
            batch_delete(shape, cpu, *flags, keys.as_slice(), reply, seens)
        }
        Verb::Each { flags, stop } => read_each(shape, cpu, stop, *flags, reply, seens),
    }
}

/// Whether a reply says that a call was refused with this error, or was done.
fn is_refusal(reply: &Reply, refusal: Option<Errno>) -> bool
    ensures { MatchBool result (reply.now ≡ told.reply_of_refusal refusal) (reply.now ≢ told.reply_of_refusal refusal) }
{
    match refusal {
        None => is_done(reply),
        Some(errno) => is_refused(reply, errno),
    }
}

/// The turns behind a lookup's.
fn lookup<'a>(
    shape: &Shape,
    side: Side,
    key: &[u8],
    reply: &Reply,
    seens: &Seens<'a>,
) -> Option<Seens<'a>>
    requires shape { HasBounds shape.now }
    requires key { length key.now ≡ shape.now.key_size }
    ensures { IsSeenAs (told.read_lookup shape.now side key.now seens.now) reply.now result }
{
    let (got, rest) = read_lookup(shape, side, key, seens)?;
    rest_if(is_got(reply, got.found()), rest)
}

/// The turns behind an update's.
fn update<'a>(
    shape: &Shape,
    cpu: u32,
    asked: &Asked<'_>,
    reply: &Reply,
    seens: &Seens<'a>,
) -> Option<Seens<'a>>
    requires shape { HasBounds shape.now }
    requires evicts { IsTrue (is_lru shape.now.kind) }
    requires key { length asked.now.key.now ≡ shape.now.key_size }
    ensures { IsSeenAs (told.read_update shape.now cpu asked.now.side asked.now.flags asked.now.key.now asked.now.value.now seens.now) reply.now result }
{
    let (refusal, rest) = read_update(shape, cpu, asked, seens)?;
    rest_if(is_refusal(reply, refusal), rest)
}

/// The turns behind a delete's.
fn delete<'a>(shape: &Shape, key: &[u8], reply: &Reply, seens: &Seens<'a>) -> Option<Seens<'a>>
    requires shape { HasBounds shape.now }
    requires evicts { IsTrue (is_lru shape.now.kind) }
    requires key { length key.now ≡ shape.now.key_size }
    ensures { IsSeenAs (told.read_delete shape.now key.now seens.now) reply.now result }
{
    let (refusal, rest) = read_delete(shape, key, seens)?;
    rest_if(is_refusal(reply, refusal), rest)
}

/// The turns behind a take's.
fn take<'a>(shape: &Shape, key: &[u8], reply: &Reply, seens: &Seens<'a>) -> Option<Seens<'a>>
    requires shape { HasBounds shape.now }
    requires evicts { IsTrue (is_lru shape.now.kind) }
    requires key { length key.now ≡ shape.now.key_size }
    ensures { IsSeenAs (told.read_take shape.now key.now seens.now) reply.now result }
{
    let (gone, rest) = read_take(shape, key, seens)?;
    rest_if(is_got(reply, gone), rest)
}

/// The turns behind those of a batch of updates.
fn batch_update<'a>(
    shape: &Shape,
    cpu: u32,
    flags: u32,
    pairs: &Pairs,
    reply: &Reply,
    seens: &Seens<'a>,
) -> Option<Seens<'a>>
    requires shape { HasBounds shape.now }
    requires evicts { IsTrue (is_lru shape.now.kind) }
    requires keys { (i : ℕ) → i < length pairs.now → length (pair_at pairs.now i).0 ≡ shape.now.key_size }
    ensures { IsSeenAs (told.read_write_batch shape.now cpu flags (updates_of pairs.now) seens.now) reply.now result }
{
    if flags != 0 {
        return rest_if(is_refused(reply, Errno::Einval), seens.again());
    }
    let (ended, rest) = read_updates(shape, cpu, pairs, seens)?;
    rest_if(is_count(reply, ended.0, ended.1), rest)
}

/// The turns behind those of a batch of deletes.
fn batch_delete<'a>(
    shape: &Shape,
    cpu: u32,
    flags: u32,
    keys: &[Bytes],
    reply: &Reply,
    seens: &Seens<'a>,
) -> Option<Seens<'a>>
    requires shape { HasBounds shape.now }
    requires evicts { IsTrue (is_lru shape.now.kind) }
    requires keys { All (λ (key : List ℕ). length key ≡ shape.now.key_size) keys.now }
    ensures { IsSeenAs (told.read_write_batch shape.now cpu flags (deletes_of keys.now) seens.now) reply.now result }
{
    if flags != 0 {
        return rest_if(is_refused(reply, Errno::Einval), seens.again());
    }
    let (ended, rest) = read_deletes(shape, cpu, keys, seens)?;
    rest_if(is_count(reply, ended.0, ended.1), rest)
}
