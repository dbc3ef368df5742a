//! Batch reads, read at the beginning of turns.

ghost use Rattle.std.specs.Prelude.{◌≡◌, ◌<◌, ◌+◌, ◌∷◌, [], IsTrue, MatchOption, None, Some, drop, length, min, reverse};
ghost use Rattle.map_types.specs.Kind.{is_lru};
ghost use Rattle.map_types.specs.Shape.{HasBounds};
ghost use Rattle.place_words.specs.declared.bucket_part.Walked as walked_words;
ghost use Rattle.place_words.specs.Bodies.{numbers};
ghost use Rattle.map_types.specs.declared.reply.Reply.TheVariants as replies;
ghost use Rattle.place_words.specs.Walks.{buckets_from, walked_out};
ghost use Rattle.evicting_traces.specs.Calls as told;
ghost use Rattle.evicting_traces.specs.Reading.{IsSeenAs};

use crate::frees::read_frees;
use crate::key_calls::first_at;
use crate::seen::{Seens, rest_if};
use map_types::{Errno, Reply, Shape};
use place_words::{Kept, Walked};
use trace_check::{
    BatchAsk, BatchReply, ends_at, is_done, is_refused, place_behind, room_left, stopped_behind,
    walked_in,
};

/// What a walk took of a bucket for which it had this room, and the turns behind those in which what it took out is freed.
pub(crate) fn read_emptied<'a>(
    shape: &Shape,
    bucket: u32,
    remove: bool,
    room: u32,
    seens: &Seens<'a>,
) -> Option<(&'a Walked, Seens<'a>)>
    requires bounds { HasBounds shape.now }
    requires evicts { IsTrue (is_lru shape.now.kind) }
    ensures { MatchOption result (told.read_emptied shape.now bucket remove room seens.now ≡ None)
        (λ read. told.read_emptied shape.now bucket remove room seens.now ≡ Some (read.0.now, read.1)) }
{
    let (part, rest) = first_at(bucket, seens)?;
    let walked = walked_in(part, remove, room)?;
    let behind = read_taken_out(shape, remove, walked, &rest)?;
    Some((walked, behind))
}

/// What is behind the turns in which what a walk took out is freed.
fn read_taken_out<'a>(
    shape: &Shape,
    remove: bool,
    walked: &Walked,
    seens: &Seens<'a>,
) -> Option<Seens<'a>>
    requires bounds { HasBounds shape.now }
    requires evicts { IsTrue (is_lru shape.now.kind) }
    ensures { (answer : walked_words.Walked) → MatchOption result (told.read_frees_all shape.now answer (reverse (walked_out remove walked.now)) seens.now ≡ None)
        (λ rest. told.read_frees_all shape.now answer (reverse (walked_out remove walked.now)) seens.now ≡ Some (answer, rest)) }
{
    match walked {
        Walked::Taken(all) => {
            if remove {
                read_all_freed(shape, all.as_slice(), seens)
            } else {
                Some(seens.again())
            }
        }
        Walked::Over(_) => Some(seens.again()),
    }
}

/// What is behind the turns in which these elements are freed, the last one first.
fn read_all_freed<'a>(shape: &Shape, all: &[Kept], seens: &Seens<'a>) -> Option<Seens<'a>>
    requires bounds { HasBounds shape.now }
    requires evicts { IsTrue (is_lru shape.now.kind) }
    ensures { (answer : walked_words.Walked) → MatchOption result (told.read_frees_all shape.now answer (reverse (numbers all.now)) seens.now ≡ None)
        (λ rest. told.read_frees_all shape.now answer (reverse (numbers all.now)) seens.now ≡ Some (answer, rest)) }
{
    let mut left = seens.again();
    for freed in 0..all.len() {
        left = read_frees(shape, from_tail(all, freed), &left)?;
    }
    Some(left)
}

/// The element before so many from the end.
fn from_tail(all: &[Kept], behind: usize) -> u32
    requires { behind < length all.now }
    ensures { drop behind (reverse (numbers all.now)) ≡ result ∷ drop (behind + 1) (reverse (numbers all.now)) }
{
    let kept: &Kept = &all[all.len() - 1 - behind];
    kept.element
}

/// Whether the reply goes with the buckets from one on, and the turns behind those of the batch.
fn read_walks<'a>(
    shape: &Shape,
    ask: BatchAsk,
    from: u32,
    reply: &BatchReply<'_>,
    seens: &Seens<'a>,
) -> Option<Seens<'a>>
    requires bounds { HasBounds shape.now }
    requires evicts { IsTrue (is_lru shape.now.kind) }
    ensures { IsSeenAs (told.read_walks shape.now ask.remove (min ask.count shape.now.elements) (buckets_from shape.now from) [] seens.now)
        (replies.Batch reply.now.stop reply.now.taken.now reply.now.next) result }
{
    let limit = ask.count.min(shape.elements);
    let mut rest = seens.again();
    let mut count = 0;
    for bucket in from..shape.buckets {
        let room = room_left(limit, count);
        let (walked, behind) = read_emptied(shape, bucket, ask.remove, room, &rest)?;
        match walked {
            Walked::Over(_) => {
                let stop = stopped_behind(reply, count);
                return rest_if(ends_at(reply, stop, count, bucket), behind);
            }
            Walked::Taken(taken) => {
                count = place_behind(shape, None, reply.taken, count, taken.as_slice())?;
                rest = behind;
            }
        }
    }
    rest_if(
        ends_at(reply, Some(Errno::Enoent), count, shape.buckets),
        rest,
    )
}

/// Whether the reply is a batch read's, and the turns behind it.
pub(crate) fn read_batch<'a>(
    shape: &Shape,
    ask: BatchAsk,
    reply: &Reply,
    seens: &Seens<'a>,
) -> Option<Seens<'a>>
    requires bounds { HasBounds shape.now }
    requires evicts { IsTrue (is_lru shape.now.kind) }
    ensures { IsSeenAs (told.read_batch shape.now ask.remove ask.count ask.start ask.flags seens.now) reply.now result }
{
    if ask.flags != 0 {
        return rest_if(is_refused(reply, Errno::Einval), seens.again());
    }
    if ask.count == 0 {
        return rest_if(is_done(reply), seens.again());
    }
    let from = ask.start.unwrap_or(0);
    if from >= shape.buckets {
        return rest_if(is_refused(reply, Errno::Enoent), seens.again());
    }
    read_from(shape, ask, from, reply, seens)
}

/// Whether the reply is that of a batch read that starts at a bucket.
fn read_from<'a>(
    shape: &Shape,
    ask: BatchAsk,
    from: u32,
    reply: &Reply,
    seens: &Seens<'a>,
) -> Option<Seens<'a>>
    requires bounds { HasBounds shape.now }
    requires evicts { IsTrue (is_lru shape.now.kind) }
    ensures { IsSeenAs (told.read_walks shape.now ask.remove (min ask.count shape.now.elements) (buckets_from shape.now from) [] seens.now)
        reply.now result }
{
    match reply {
        Reply::Batch { stop, taken, next } => {
            let given = BatchReply {
                stop: *stop,
                taken,
                next: *next,
            };
            read_walks(shape, ask, from, &given, seens)
        }
        _ => None,
    }
}
