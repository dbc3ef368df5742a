//! Walks over all elements at the beginning of turns.

ghost use Rattle.std.specs.Prelude.{◌≡◌, ◌<◌, ℕ, [], IfSome, MatchOption, None, Some, length, map};
ghost use Rattle.map_types.specs.Shape.{HasBounds};
ghost use Rattle.map_types.specs.declared.attr.Shape.{Shape};
ghost use Rattle.map_types.specs.declared.reply.Reply.TheVariants as replies;
ghost use Rattle.place_words.specs.Handing.{handed, up_to_stop};
ghost use Rattle.place_words.specs.Walks.{buckets_from};
ghost use Rattle.trace_check.specs.Calls as told;
ghost use Rattle.trace_check.specs.Pairs as pairs;
ghost use Rattle.trace_check.specs.Reading.{IsReadAs};

use crate::batch_reads::{BatchReply, ends_at, room_left};
use crate::group::bucket_group;
use crate::pair_tests::place_behind;
use crate::parts::walked_in;
use crate::replies::is_refused;
use crate::strand::{Turns, rest_if};
use map_types::{Bytes, Errno, Reply, Shape};
use place_words::{Kept, Walked};

/// What a walk took of a bucket that it leaves as it is, and the turns behind its own.
fn read_whole<'a>(bucket: u32, room: u32, turns: &Turns<'a>) -> Option<(&'a Walked, Turns<'a>)>
    ensures { MatchOption result (told.read_whole bucket room turns.now ≡ None)
        (λ read. told.read_whole bucket room turns.now ≡ Some (read.0.now, read.1)) }
{
    let group = bucket_group(bucket, turns)?;
    let walked = walked_in(group.part, false, room)?;
    if group.before.is_empty() {
        Some((walked, group.rest))
    } else {
        None
    }
}

/// The place of the first element with a key.
fn key_place(key: &[u8], all: &[Kept]) -> Option<usize>
    ensures exact { result ≡ pairs.key_place key.now all.now }
    ensures within { IfSome result (λ place. place < length all.now) }
{
    let mut place = 0;
    for kept in all {
        if kept.key.as_slice() == key {
            return Some(place);
        }
        place += 1;
    }
    None
}

/// The place of the element at which the callback is stopped.
fn stop_place(stop: &Option<Bytes>, all: &[Kept]) -> Option<usize>
    ensures exact { result ≡ pairs.stop_place stop.now all.now }
    ensures within { IfSome result (λ place. place < length all.now) }
{
    match stop {
        None => None,
        Some(key) => key_place(key.as_slice(), all),
    }
}

/// Those of the elements that are handed over, and whether the callback is stopped there.
pub fn handed_over<'a>(stop: &Option<Bytes>, all: &'a [Kept]) -> (&'a [Kept], bool)
    ensures over { (shape : Shape) (cpu : ℕ) → map (handed shape cpu) result.0.now ≡ up_to_stop stop.now (map (handed shape cpu) all.now) }
    ensures stopped { (shape : Shape) (cpu : ℕ) → result.1 ≡ told.stops_in stop.now (map (handed shape cpu) all.now) }
{
    match stop_place(stop, all) {
        None => (all, false),
        Some(place) => (&all[..place + 1], true),
    }
}

/// Whether the reply goes with a walk over all buckets, and the turns behind it.
fn read_handing<'a>(
    shape: &Shape,
    cpu: u32,
    stop: &Option<Bytes>,
    reply: &BatchReply<'_>,
    turns: &Turns<'a>,
) -> Option<Turns<'a>>
    requires shape { HasBounds shape.now }
    requires cpu { cpu < shape.now.cpus }
    ensures { IsReadAs (told.read_handing shape.now cpu stop.now (buckets_from shape.now 0) [] turns.now)
        (replies.Batch reply.now.stop reply.now.taken.now reply.now.next) result }
{
    let mut rest = turns.again();
    let mut count = 0;
    for bucket in 0..shape.buckets {
        let room = room_left(shape.elements, count);
        let (walked, behind) = read_whole(bucket, room, &rest)?;
        match walked {
            Walked::Over(_) => return rest_if(ends_at(reply, None, count, bucket), behind),
            Walked::Taken(taken) => {
                let (over, stopped) = handed_over(stop, taken.as_slice());
                count = place_behind(shape, Some(cpu), reply.taken, count, over)?;
                if stopped {
                    return rest_if(ends_at(reply, None, count, bucket + 1), behind);
                }
                rest = behind;
            }
        }
    }
    rest_if(ends_at(reply, None, count, shape.buckets), rest)
}

/// Whether the reply is a walk's over all elements, and the turns behind it.
pub(crate) fn read_each<'a>(
    shape: &Shape,
    cpu: u32,
    stop: &Option<Bytes>,
    flags: u32,
    reply: &Reply,
    turns: &Turns<'a>,
) -> Option<Turns<'a>>
    requires shape { HasBounds shape.now }
    requires cpu { cpu < shape.now.cpus }
    ensures { IsReadAs (told.read_each shape.now cpu stop.now flags turns.now) reply.now result }
{
    if flags != 0 {
        return rest_if(is_refused(reply, Errno::Einval), turns.again());
    }
    match reply {
        Reply::Batch {
            stop: why,
            taken,
            next,
        } => {
            let given = BatchReply {
                stop: *why,
                taken,
                next: *next,
            };
            read_handing(shape, cpu, stop, &given, turns)
        }
        _ => None,
    }
}
