//! Walks over all elements, read at the beginning of turns.

ghost use Rattle.std.specs.Prelude.{◌≡◌, ◌<◌, [], MatchOption, None, Some};
ghost use Rattle.map_types.specs.Shape.{HasBounds};
ghost use Rattle.map_types.specs.declared.reply.Reply.TheVariants as replies;
ghost use Rattle.place_words.specs.Walks.{buckets_from};
ghost use Rattle.trace_check.specs.Calls as told;
ghost use Rattle.evicting_traces.specs.Reading.{IsTurnsAs, turns_in};

use crate::key_calls::first_at;
use crate::seen::{Seens, rest_if};
use map_types::{Bytes, Errno, Reply, Shape};
use place_words::Walked;
use trace_check::{
    BatchReply, ends_at, handed_over, is_refused, place_behind, room_left, walked_in,
};

/// What a walk took of a bucket that it leaves as it is, and the turns behind its own.
fn read_whole<'a>(bucket: u32, room: u32, seens: &Seens<'a>) -> Option<(&'a Walked, Seens<'a>)>
    ensures { MatchOption result (told.read_whole bucket room (turns_in seens.now) ≡ None)
        (λ read. told.read_whole bucket room (turns_in seens.now) ≡ Some (read.0.now, turns_in read.1)) }
{
    let (part, rest) = first_at(bucket, seens)?;
    let walked = walked_in(part, false, room)?;
    Some((walked, rest))
}

/// Whether the reply goes with a walk over all buckets, and the turns behind it.
fn read_handing<'a>(
    shape: &Shape,
    cpu: u32,
    stop: &Option<Bytes>,
    reply: &BatchReply<'_>,
    seens: &Seens<'a>,
) -> Option<Seens<'a>>
    requires shape { HasBounds shape.now }
    requires cpu { cpu < shape.now.cpus }
    ensures { IsTurnsAs (told.read_handing shape.now cpu stop.now (buckets_from shape.now 0) [] (turns_in seens.now))
        (replies.Batch reply.now.stop reply.now.taken.now reply.now.next) result }
{
    let mut rest = seens.again();
    let mut count = 0;
    for bucket in 0..shape.buckets {
        let room = room_left(shape.elements, count);
        let (walked, behind) = read_whole(bucket, room, &rest)?;
        match walked {
            Walked::Over(_) => return rest_if(ends_at(reply, None, count, bucket), behind),
            Walked::Taken(taken) => {
                let (over, stopped) = handed_over(stop, taken.as_slice());
                count = place_behind(shape, Some(cpu), reply.taken, count, over)?;
                if stopped {
                    return rest_if(ends_at(reply, None, count, bucket + 1), behind);
                }
                rest = behind;
            }
        }
    }
    rest_if(ends_at(reply, None, count, shape.buckets), rest)
}

/// Whether the reply is a walk's over all elements, and the turns behind it.
pub(crate) fn read_each<'a>(
    shape: &Shape,
    cpu: u32,
    stop: &Option<Bytes>,
    flags: u32,
    reply: &Reply,
    seens: &Seens<'a>,
) -> Option<Seens<'a>>
    requires shape { HasBounds shape.now }
    requires cpu { cpu < shape.now.cpus }
    ensures { IsTurnsAs (told.read_each shape.now cpu stop.now flags (turns_in seens.now)) reply.now result }
{
    if flags != 0 {
        return rest_if(is_refused(reply, Errno::Einval), seens.again());
    }
    match reply {
        Reply::Batch {
            stop: why,
            taken,
            next,
        } => {
            let given = BatchReply {
                stop: *why,
                taken,
                next: *next,
            };
            read_handing(shape, cpu, stop, &given, seens)
        }
        _ => None,
    }
}
