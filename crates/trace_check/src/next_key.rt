//! Next key, read at the beginning of turns.

ghost use Rattle.std.specs.Prelude.{◌≡◌, length, MatchOption, None, Some};
ghost use Rattle.map_types.specs.Shape.{HasBounds};
ghost use Rattle.place_words.specs.Walks.{buckets_from};
ghost use Rattle.trace_check.specs.Calls as told;
ghost use Rattle.trace_check.specs.Reading.{IsReadAs};

use crate::group::bucket_group;
use crate::key_bucket::bucket_number;
use crate::parts::{first_in, found_in};
use crate::replies::{is_refused, is_value};
use crate::strand::{Turns, rest_if};
use map_types::{Bytes, Errno, Reply, Shape};
use place_words::NextFound;

/// The key at the head of a bucket, and the turns behind the look at it.
fn read_head<'a>(bucket: u32, turns: &Turns<'a>) -> Option<(&'a Option<Bytes>, Turns<'a>)>
    ensures { MatchOption result (told.read_head bucket turns.now ≡ None)
        (λ read. told.read_head bucket turns.now ≡ Some (read.0.now, read.1)) }
{
    let group = bucket_group(bucket, turns)?;
    let key = first_in(group.part)?;
    if group.before.is_empty() {
        Some((key, group.rest))
    } else {
        None
    }
}

/// Whether the reply is the first key of the buckets from one on, and the turns behind those of the looks.
fn read_firsts<'a>(shape: &Shape, from: u32, reply: &Reply, turns: &Turns<'a>) -> Option<Turns<'a>>
    ensures { IsReadAs (told.read_firsts (buckets_from shape.now from) turns.now) reply.now result }
{
    let mut rest = turns.again();
    for bucket in from..shape.buckets {
        let (key, behind) = read_head(bucket, &rest)?;
        match key {
            Some(key) => return rest_if(is_value(reply, key.as_slice()), behind),
            None => rest = behind,
        }
    }
    rest_if(is_refused(reply, Errno::Enoent), rest)
}

/// What follows a key, and the turns behind the bucket's.
fn read_found<'a>(
    shape: &Shape,
    key: &[u8],
    turns: &Turns<'a>,
) -> Option<(&'a NextFound, Turns<'a>)>
    requires shape { HasBounds shape.now }
    requires key { length key.now ≡ shape.now.key_size }
    ensures { MatchOption result (told.read_found shape.now key.now turns.now ≡ None)
        (λ read. told.read_found shape.now key.now turns.now ≡ Some (read.0.now, read.1)) }
{
    let group = bucket_group(bucket_number(shape, key), turns)?;
    let found = found_in(group.part, key)?;
    if group.before.is_empty() {
        Some((found, group.rest))
    } else {
        None
    }
}

/// Whether the reply is the key after one, or the first, and the turns behind the call's.
pub(crate) fn read_next<'a>(
    shape: &Shape,
    key: &Option<Bytes>,
    reply: &Reply,
    turns: &Turns<'a>,
) -> Option<Turns<'a>>
    requires shape { HasBounds shape.now }
    requires key { MatchOption key.now (Unit {0}) (λ key. length key ≡ shape.now.key_size) }
    ensures { IsReadAs (told.read_next shape.now key.now turns.now) reply.now result }
{
    match key {
        None => read_firsts(shape, 0, reply, turns),
        Some(key) => read_after(shape, key.as_slice(), reply, turns),
    }
}

/// Whether the reply is the key after one, and the turns behind the call's.
fn read_after<'a>(shape: &Shape, key: &[u8], reply: &Reply, turns: &Turns<'a>) -> Option<Turns<'a>>
    requires shape { HasBounds shape.now }
    requires key { length key.now ≡ shape.now.key_size }
    ensures { IsReadAs (told.read_next shape.now (Some key.now) turns.now) reply.now result }
{
    let (found, behind) = read_found(shape, key, turns)?;
    match found {
        NextFound::Absent => read_firsts(shape, 0, reply, &behind),
        NextFound::Last => read_firsts(shape, bucket_number(shape, key) + 1, reply, &behind),
        NextFound::Key(next) => rest_if(is_value(reply, next.as_slice()), behind),
    }
}
