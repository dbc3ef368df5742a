//! Batch writes, read at the beginning of turns.

ghost use Rattle.std.specs.Prelude.{◌≡◌, ◌<◌, ℕ, length, MatchOption, None, Some, IsTrue, slice_index_or, []};
ghost use Rattle.map_types.specs.declared.reply.Reply.TheVariants as replies;
ghost use Rattle.map_types.specs.declared.call.Verb.TheVariants as verbs;
ghost use Rattle.map_types.specs.declared.kind.Side.TheVariants.{Sys};
ghost use Rattle.map_types.specs.Kind.{is_lru};
ghost use Rattle.map_types.specs.Pairs.{pair_at};
ghost use Rattle.map_types.specs.Shape.{HasBounds};
ghost use Rattle.place_words.specs.Walks.{deletes_of, updates_of};
ghost use Rattle.evicting_traces.specs.Calls as told;

use crate::key_calls::{Asked, read_delete, read_update};
use crate::seen::Seens;
use map_types::{Bytes, Errno, Pairs, Shape, Side};

/// With which error an entry was refused, if one was, of updates by these pairs in order, how many were done before, and the turns
/// behind.
pub(crate) fn read_updates<'a>(
    shape: &Shape,
    cpu: u32,
    pairs: &Pairs,
    seens: &Seens<'a>,
) -> Option<((Option<Errno>, usize), Seens<'a>)>
    requires bounds { HasBounds shape.now }
    requires evicts { IsTrue (is_lru shape.now.kind) }
    requires keys { (i : ℕ) → i < length pairs.now → length (pair_at pairs.now i).0 ≡ shape.now.key_size }
    ensures { MatchOption result (told.read_writes shape.now cpu (updates_of pairs.now) 0 seens.now ≡ None)
        (λ read. told.read_writes shape.now cpu (updates_of pairs.now) 0 seens.now ≡ Some (replies.Count read.0.0 read.0.1, read.1)) }
{
    let mut rest = seens.again();
    for done in 0..pairs.len() {
        let (refusal, behind) = read_updated(
            shape,
            cpu,
            pairs.key(done),
            pairs.value(done),
            &rest,
        )?;
        if let Some(errno) = refusal {
            return Some(((Some(errno), done), behind));
        }
        rest = behind;
    }
    Some(((None, pairs.len()), rest))
}

/// With which error an update by the system call with no flags is refused, and the turns behind its own.
fn read_updated<'a>(
    shape: &Shape,
    cpu: u32,
    key: &[u8],
    value: &[u8],
    seens: &Seens<'a>,
) -> Option<(Option<Errno>, Seens<'a>)>
    requires bounds { HasBounds shape.now }
    requires evicts { IsTrue (is_lru shape.now.kind) }
    requires key { length key.now ≡ shape.now.key_size }
    ensures { MatchOption result (told.read_key shape.now cpu (verbs.Update Sys 0 key.now value.now) seens.now ≡ None)
        (λ read. told.read_key shape.now cpu (verbs.Update Sys 0 key.now value.now) seens.now ≡ Some (told.reply_of_refusal read.0, read.1)) }
{
    let asked = Asked {
        side: Side::Sys,
        flags: 0,
        key,
        value,
    };
    read_update(shape, cpu, &asked, seens)
}

/// The same of deletes of these keys in order.
pub(crate) fn read_deletes<'a>(
    shape: &Shape,
    cpu: u32,
    keys: &[Bytes],
    seens: &Seens<'a>,
) -> Option<((Option<Errno>, usize), Seens<'a>)>
    requires bounds { HasBounds shape.now }
    requires evicts { IsTrue (is_lru shape.now.kind) }
    requires keys { (i : ℕ) → i < length keys.now → length (slice_index_or keys.now i []) ≡ shape.now.key_size }
    ensures { MatchOption result (told.read_writes shape.now cpu (deletes_of keys.now) 0 seens.now ≡ None)
        (λ read. told.read_writes shape.now cpu (deletes_of keys.now) 0 seens.now ≡ Some (replies.Count read.0.0 read.0.1, read.1)) }
{
    let mut rest = seens.again();
    for done in 0..keys.len() {
        let (refusal, behind) = read_delete(shape, key_at(keys, done), &rest)?;
        if let Some(errno) = refusal {
            return Some(((Some(errno), done), behind));
        }
        rest = behind;
    }
    Some(((None, keys.len()), rest))
}

/// The key at a place.
fn key_at(keys: &[Bytes], place: usize) -> &[u8]
    requires { place < length keys.now }
    ensures { result.now ≡ slice_index_or keys.now place [] }
{
    keys[place].as_slice()
}
