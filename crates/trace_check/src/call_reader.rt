//! Which turns are a call's.

ghost use Rattle.std.specs.Prelude.{◌≡◌, ◌≢◌, ◌<◌, ℕ, List, All, MatchOption, None, Some, length};
ghost use Rattle.map_script.specs.WellFormed.{HasSizes};
ghost use Rattle.map_types.specs.Creation.{IsShape};
ghost use Rattle.map_types.specs.Shape.{HasBounds};
ghost use Rattle.map_types.specs.Pairs.{pair_at};
ghost use Rattle.map_types.specs.declared.call.Verb.TheVariants as verbs;
ghost use Rattle.trace_check.specs.BySpares as told;
ghost use Rattle.trace_check.specs.LawsBySpares.{read_count_by};
ghost use Rattle.trace_check.specs.Reading.{IsReadAs};
ghost use Rattle.trace_check.specs.Strand as strand;

use crate::batch_reads::{BatchAsk, read_batch};
use crate::batch_writes::{read_deletes, read_updates};
use crate::element_walks::read_each;
use crate::key_calls::{Asked, read_gone, read_got, read_put, read_taken};
use crate::next_key::read_next;
use crate::replies::{is_gone, is_got, is_put, is_refused};
use crate::strand::{Turns, rest_if, spare_before};
use map_types::{Bytes, Errno, Pairs, Reply, Shape, Side, Verb};

/// How many turns at the beginning are those of a call with this reply, on a map that doesn't evict. `spares` has, at the places of a
/// strand's turns up to its end, the spare of the CPU before each. None exactly where no beginning of the turns is the call's.
pub fn read_call(
    shape: &Shape,
    cpu: u32,
    spares: &[Option<u32>],
    verb: &Verb,
    reply: &Reply,
    turns: &Turns<'_>,
) -> Option<usize>
    requires shape { IsShape shape.now }
    requires cpu { cpu < shape.now.cpus }
    requires sizes { HasSizes shape.now verb.now }
    ensures { MatchOption result
        ((n : ℕ) → read_count_by shape.now cpu (strand.spare_before spares.now) verb.now turns.now ≢ Some (n, reply.now))
        (λ n. read_count_by shape.now cpu (strand.spare_before spares.now) verb.now turns.now ≡ Some (n, reply.now)) }
{
    let rest = read_rest(shape, cpu, spares, verb, reply, turns)?;
    Some(turns.len().saturating_sub(rest.len()))
}

/// The turns behind those of a call, if it has this reply.
fn read_rest<'a>(
    shape: &Shape,
    cpu: u32,
    spares: &[Option<u32>],
    verb: &Verb,
    reply: &Reply,
    turns: &Turns<'a>,
) -> Option<Turns<'a>>
    requires shape { HasBounds shape.now }
    requires cpu { cpu < shape.now.cpus }
    requires sizes { HasSizes shape.now verb.now }
    ensures { IsReadAs (told.read_plain_by shape.now cpu (strand.spare_before spares.now) verb.now turns.now) reply.now result }
{
    match verb {
        Verb::Lookup { side, key } => lookup(shape, *side, key.as_slice(), reply, turns),
        Verb::Update {
            side,
            flags,
            key,
            value,
        } => {
            let asked = Asked {
                side: *side,
                flags: *flags,
                key: key.as_slice(),
                value: value.as_slice(),
            };
            update(shape, cpu, spares, &asked, reply, turns)
        }
        Verb::Delete { key } => delete(shape, cpu, key.as_slice(), reply, turns),
        Verb::Take { key } => take(shape, cpu, key.as_slice(), reply, turns),
        Verb::Next { key } => read_next(shape, key, reply, turns),
        Verb::BatchRead {
            remove,
            count,
            start,
            flags,
        } => {
            let ask = BatchAsk {
                remove: *remove,
                count: *count,
                start: *start,
                flags: *flags,
            };
            read_batch(shape, cpu, ask, reply, turns)
        }
        Verb::BatchUpdate { flags, pairs } => {
            batch_update(shape, cpu, spares, *flags, pairs, reply, turns)
        }
        Verb::BatchDelete { flags, keys } => {
            batch_delete(shape, cpu, *flags, keys.as_slice(), reply, turns)
        }
        Verb::Each { flags, stop } => read_each(shape, cpu, stop, *flags, reply, turns),
    }
}

/// The turns behind a lookup's.
fn lookup<'a>(
    shape: &Shape,
    side: Side,
    key: &[u8],
    reply: &Reply,
    turns: &Turns<'a>,
) -> Option<Turns<'a>>
    requires shape { HasBounds shape.now }
    requires key { length key.now ≡ shape.now.key_size }
    ensures { (cpu : ℕ) (spares : told.Left) → IsReadAs (told.read_plain_by shape.now cpu spares (verbs.Lookup side key.now) turns.now) reply.now result }
{
    let (got, rest) = read_got(shape, side, key, turns)?;
    rest_if(is_got(reply, got.found()), rest)
}

/// The turns behind an update's.
fn update<'a>(
    shape: &Shape,
    cpu: u32,
    spares: &[Option<u32>],
    asked: &Asked<'_>,
    reply: &Reply,
    turns: &Turns<'a>,
) -> Option<Turns<'a>>
    requires shape { HasBounds shape.now }
    requires cpu { cpu < shape.now.cpus }
    requires key { length asked.now.key.now ≡ shape.now.key_size }
    ensures { IsReadAs (told.read_plain_by shape.now cpu (strand.spare_before spares.now)
        (verbs.Update asked.now.side asked.now.flags asked.now.key.now asked.now.value.now) turns.now) reply.now result }
{
    if asked.flags > 2 {
        return rest_if(is_refused(reply, Errno::Einval), turns.again());
    }
    let spare = spare_before(spares, turns.len());
    let (put, rest) = read_put(shape, cpu, spare, asked, turns)?;
    rest_if(is_put(reply, put), rest)
}

/// The turns behind a delete's.
fn delete<'a>(
    shape: &Shape,
    cpu: u32,
    key: &[u8],
    reply: &Reply,
    turns: &Turns<'a>,
) -> Option<Turns<'a>>
    requires shape { HasBounds shape.now }
    requires key { length key.now ≡ shape.now.key_size }
    ensures { (spares : told.Left) → IsReadAs (told.read_plain_by shape.now cpu spares (verbs.Delete key.now) turns.now) reply.now result }
{
    let (gone, rest) = read_gone(shape, cpu, key, turns)?;
    rest_if(is_gone(reply, gone), rest)
}

/// The turns behind a take's.
fn take<'a>(
    shape: &Shape,
    cpu: u32,
    key: &[u8],
    reply: &Reply,
    turns: &Turns<'a>,
) -> Option<Turns<'a>>
    requires shape { HasBounds shape.now }
    requires key { length key.now ≡ shape.now.key_size }
    ensures { (spares : told.Left) → IsReadAs (told.read_plain_by shape.now cpu spares (verbs.Take key.now) turns.now) reply.now result }
{
    let (gone, rest) = read_taken(shape, cpu, key, turns)?;
    rest_if(is_got(reply, gone), rest)
}

/// The turns behind a batch of updates.
fn batch_update<'a>(
    shape: &Shape,
    cpu: u32,
    spares: &[Option<u32>],
    flags: u32,
    pairs: &Pairs,
    reply: &Reply,
    turns: &Turns<'a>,
) -> Option<Turns<'a>>
    requires shape { HasBounds shape.now }
    requires cpu { cpu < shape.now.cpus }
    requires keys { (i : ℕ) → i < length pairs.now → length (pair_at pairs.now i).0 ≡ shape.now.key_size }
    ensures { IsReadAs (told.read_plain_by shape.now cpu (strand.spare_before spares.now) (verbs.BatchUpdate flags pairs.now) turns.now) reply.now result }
{
    if flags != 0 {
        return rest_if(is_refused(reply, Errno::Einval), turns.again());
    }
    read_updates(shape, cpu, spares, pairs, reply, turns)
}

/// The turns behind a batch of deletes.
fn batch_delete<'a>(
    shape: &Shape,
    cpu: u32,
    flags: u32,
    keys: &[Bytes],
    reply: &Reply,
    turns: &Turns<'a>,
) -> Option<Turns<'a>>
    requires shape { HasBounds shape.now }
    requires keys { All (λ (key : List ℕ). length key ≡ shape.now.key_size) keys.now }
    ensures { (spares : told.Left) → IsReadAs (told.read_plain_by shape.now cpu spares (verbs.BatchDelete flags keys.now) turns.now) reply.now result }
{
    if flags != 0 {
        return rest_if(is_refused(reply, Errno::Einval), turns.again());
    }
    read_deletes(shape, cpu, keys, reply, turns)
}
