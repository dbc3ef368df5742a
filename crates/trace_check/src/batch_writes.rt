//! Batch writes at the beginning of turns.

ghost use Rattle.std.specs.Prelude.{◌≡◌, ◌≢◌, ◌<◌, ℕ, List, All, MatchBool, None, Some, length};
ghost use Rattle.map_types.specs.Pairs.{pair_at};
ghost use Rattle.map_types.specs.Shape.{HasBounds};
ghost use Rattle.map_types.specs.declared.call.Verb.TheVariants as verbs;
ghost use Rattle.map_types.specs.declared.kind.Side.TheVariants.{Sys};
ghost use Rattle.map_types.specs.declared.reply.Reply.TheVariants as replies;
ghost use Rattle.place_words.specs.Walks.{deletes_of, updates_of};
ghost use Rattle.trace_check.specs.BySpares as told;
ghost use Rattle.trace_check.specs.Reading.{IsReadAs};
ghost use Rattle.trace_check.specs.Strand as strand;

use crate::key_calls::{Asked, read_gone, read_put};
use crate::replies::{is_same_error, put_refusal};
use crate::strand::{Turns, rest_if, spare_before};
use map_types::{Bytes, Errno, Pairs, Reply, Shape, Side};

/// Whether a batch write did so many entries, and stopped for this.
pub fn is_count(reply: &Reply, stop: Option<Errno>, count: usize) -> bool
    ensures { MatchBool result (reply.now ≡ replies.Count stop count) (reply.now ≢ replies.Count stop count) }
{
    match reply {
        Reply::Count { stop: why, done } => is_same_error(*why, stop) && *done as usize == count,
        _ => false,
    }
}

/// The error with which an entry was refused that updates a pair, if it was, and the turns behind its own.
fn read_updated<'a>(
    shape: &Shape,
    cpu: u32,
    spares: &[Option<u32>],
    key: &[u8],
    value: &[u8],
    turns: &Turns<'a>,
) -> Option<(Option<Errno>, Turns<'a>)>
    requires shape { HasBounds shape.now }
    requires cpu { cpu < shape.now.cpus }
    requires key { length key.now ≡ shape.now.key_size }
    ensures { result ≡ told.read_entry shape.now cpu (strand.spare_before spares.now) (verbs.Update Sys 0 key.now value.now) turns.now }
{
    let spare = spare_before(spares, turns.len());
    let asked = Asked {
        side: Side::Sys,
        flags: 0,
        key,
        value,
    };
    let (put, behind) = read_put(shape, cpu, spare, &asked, turns)?;
    Some((put_refusal(put), behind))
}

/// Whether the reply is that of updates by these pairs in order, and the turns behind theirs.
pub(crate) fn read_updates<'a>(
    shape: &Shape,
    cpu: u32,
    spares: &[Option<u32>],
    pairs: &Pairs,
    reply: &Reply,
    turns: &Turns<'a>,
) -> Option<Turns<'a>>
    requires shape { HasBounds shape.now }
    requires cpu { cpu < shape.now.cpus }
    requires keys { (i : ℕ) → i < length pairs.now → length (pair_at pairs.now i).0 ≡ shape.now.key_size }
    ensures { IsReadAs (told.read_writes_by shape.now cpu (strand.spare_before spares.now) (updates_of pairs.now) 0 turns.now) reply.now result }
{
    let mut rest = turns.again();
    for done in 0..pairs.len() {
        let (refusal, behind) = read_updated(
            shape,
            cpu,
            spares,
            pairs.key(done),
            pairs.value(done),
            &rest,
        )?;
        if let Some(errno) = refusal {
            return rest_if(is_count(reply, Some(errno), done), behind);
        }
        rest = behind;
    }
    rest_if(is_count(reply, None, pairs.len()), rest)
}

/// The error with which an entry was refused that deletes a key, if it was, and the turns behind its own.
fn read_deleted<'a>(
    shape: &Shape,
    cpu: u32,
    key: &[u8],
    turns: &Turns<'a>,
) -> Option<(Option<Errno>, Turns<'a>)>
    requires shape { HasBounds shape.now }
    requires key { length key.now ≡ shape.now.key_size }
    ensures { (spares : told.Left) → result ≡ told.read_entry shape.now cpu spares (verbs.Delete key.now) turns.now }
{
    let (gone, behind) = read_gone(shape, cpu, key, turns)?;
    match gone {
        None => Some((Some(Errno::Enoent), behind)),
        Some(_) => Some((None, behind)),
    }
}

/// Whether the reply is that of deletes of these keys in order, and the turns behind theirs.
pub(crate) fn read_deletes<'a>(
    shape: &Shape,
    cpu: u32,
    keys: &[Bytes],
    reply: &Reply,
    turns: &Turns<'a>,
) -> Option<Turns<'a>>
    requires shape { HasBounds shape.now }
    requires keys { All (λ (key : List ℕ). length key ≡ shape.now.key_size) keys.now }
    ensures { (spares : told.Left) → IsReadAs (told.read_writes_by shape.now cpu spares (deletes_of keys.now) 0 turns.now) reply.now result }
{
    let mut rest = turns.again();
    let mut done = 0;
    for key in keys {
        let (refusal, behind) = read_deleted(shape, cpu, key.as_slice(), &rest)?;
        if let Some(errno) = refusal {
            return rest_if(is_count(reply, Some(errno), done), behind);
        }
        rest = behind;
        done += 1;
    }
    rest_if(is_count(reply, None, keys.len()), rest)
}
