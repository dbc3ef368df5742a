//! Batch reads at the beginning of turns.

ghost use Rattle.std.specs.Prelude.{◌≡◌, ◌≢◌, ◌-◌, ◌<◌, ◌≤◌, [], MatchBool, MatchOption, None, Some, length, min, take, unwrap_or};
ghost use Rattle.map_types.specs.Shape.{HasBounds};
ghost use Rattle.map_types.specs.declared.reply.Reply.TheVariants as replies;
ghost use Rattle.place_words.specs.Walks.{buckets_from, stopped_at};
ghost use Rattle.trace_check.specs.Calls as told;
ghost use Rattle.trace_check.specs.Reading.{IsReadAs};

use crate::group::bucket_group;
use crate::looks::are_taken_out;
use crate::pair_tests::place_behind;
use crate::parts::walked_in;
use crate::replies::{is_done, is_refused, is_same_error};
use crate::strand::{Turns, rest_if};
use map_types::{Errno, Pairs, Reply, Shape};
use place_words::Walked;

/// The reply of a batch read.
#[derive(Drop)]
pub struct BatchReply<'a> {
    pub stop: Option<Errno>,
    pub taken: &'a Pairs,
    pub next: u32,
}

/// What a batch read asks for.
#[derive(Clone, Copy)]
pub struct BatchAsk {
    pub remove: bool,
    pub count: u32,
    pub start: Option<u32>,
    pub flags: u32,
}

/// Whether the batch ends here, behind so many pairs.
pub fn ends_at(reply: &BatchReply<'_>, stop: Option<Errno>, count: usize, next: u32) -> bool
    requires { count ≤ length reply.now.taken.now }
    ensures { MatchBool result
        (replies.Batch reply.now.stop reply.now.taken.now reply.now.next ≡ replies.Batch stop (take count reply.now.taken.now) next)
        (replies.Batch reply.now.stop reply.now.taken.now reply.now.next ≢ replies.Batch stop (take count reply.now.taken.now) next) }
{
    is_same_error(reply.stop, stop) && reply.taken.len() == count && reply.next == next
}

/// Why a batch stops at a bucket for which there is no room, behind so many pairs.
pub fn stopped_behind(reply: &BatchReply<'_>, count: usize) -> Option<Errno>
    requires { count ≤ length reply.now.taken.now }
    ensures { result ≡ stopped_at (take count reply.now.taken.now) }
{
    if count == 0 {
        Some(Errno::Enospc)
    } else {
        None
    }
}

/// What is left of the room.
pub fn room_left(limit: u32, count: usize) -> u32
    ensures { result ≡ limit - count }
{
    (limit as usize).saturating_sub(count) as u32
}

/// What a walk took of a bucket, and the turns behind its own.
pub(crate) fn read_bucket<'a>(
    cpu: u32,
    bucket: u32,
    remove: bool,
    room: u32,
    turns: &Turns<'a>,
) -> Option<(&'a Walked, Turns<'a>)>
    ensures { MatchOption result (told.read_bucket cpu bucket remove room turns.now ≡ None)
        (λ read. told.read_bucket cpu bucket remove room turns.now ≡ Some (read.0.now, read.1)) }
{
    let group = bucket_group(bucket, turns)?;
    let walked = walked_in(group.part, remove, room)?;
    if are_taken_out(cpu, remove, walked, &group.before) {
        Some((walked, group.rest))
    } else {
        None
    }
}

/// Whether the reply goes with the buckets from one on, and the turns behind those of the batch.
fn read_walks<'a>(
    shape: &Shape,
    cpu: u32,
    ask: BatchAsk,
    from: u32,
    reply: &BatchReply<'_>,
    turns: &Turns<'a>,
) -> Option<Turns<'a>>
    requires { HasBounds shape.now }
    ensures { IsReadAs (told.read_walks shape.now cpu ask.remove (min ask.count shape.now.elements) (buckets_from shape.now from) [] turns.now)
        (replies.Batch reply.now.stop reply.now.taken.now reply.now.next) result }
{
    let limit = ask.count.min(shape.elements);
    let mut rest = turns.again();
    let mut count = 0;
    for bucket in from..shape.buckets {
        let room = room_left(limit, count);
        let (walked, behind) = read_bucket(cpu, bucket, ask.remove, room, &rest)?;
        match walked {
            Walked::Over(_) => {
                let stop = stopped_behind(reply, count);
                return rest_if(ends_at(reply, stop, count, bucket), behind);
            }
            Walked::Taken(taken) => {
                count = place_behind(shape, None, reply.taken, count, taken.as_slice())?;
                rest = behind;
            }
        }
    }
    rest_if(
        ends_at(reply, Some(Errno::Enoent), count, shape.buckets),
        rest,
    )
}

/// Whether the reply is a batch read's, and the turns behind it.
pub(crate) fn read_batch<'a>(
    shape: &Shape,
    cpu: u32,
    ask: BatchAsk,
    reply: &Reply,
    turns: &Turns<'a>,
) -> Option<Turns<'a>>
    requires { HasBounds shape.now }
    ensures { IsReadAs (told.read_batch shape.now cpu ask.remove ask.count ask.start ask.flags turns.now) reply.now result }
{
    if ask.flags != 0 {
        return rest_if(is_refused(reply, Errno::Einval), turns.again());
    }
    if ask.count == 0 {
        return rest_if(is_done(reply), turns.again());
    }
    let from = ask.start.unwrap_or(0);
    if from >= shape.buckets {
        return rest_if(is_refused(reply, Errno::Enoent), turns.again());
    }
    read_from(shape, cpu, ask, from, reply, turns)
}

/// Whether the reply is that of a batch read that starts at a bucket.
fn read_from<'a>(
    shape: &Shape,
    cpu: u32,
    ask: BatchAsk,
    from: u32,
    reply: &Reply,
    turns: &Turns<'a>,
) -> Option<Turns<'a>>
    requires { HasBounds shape.now }
    ensures { IsReadAs (told.read_walks shape.now cpu ask.remove (min ask.count shape.now.elements) (buckets_from shape.now from) [] turns.now)
        reply.now result }
{
    match reply {
        Reply::Batch { stop, taken, next } => {
            let given = BatchReply {
                stop: *stop,
                taken,
                next: *next,
            };
            read_walks(shape, cpu, ask, from, &given, turns)
        }
        _ => None,
    }
}
