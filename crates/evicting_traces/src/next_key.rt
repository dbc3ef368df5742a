//! Next key, read at the beginning of turns.

ghost use Rattle.std.specs.Prelude.{◌≡◌, length, MatchOption, None, Some};
ghost use Rattle.map_types.specs.Shape.{HasBounds};
ghost use Rattle.place_words.specs.Walks.{buckets_from};
ghost use Rattle.trace_check.specs.Calls as told;
ghost use Rattle.evicting_traces.specs.Reading.{IsTurnsAs, turns_in};

use crate::key_calls::first_at;
use crate::seen::{Seens, rest_if};
use map_types::{Bytes, Errno, Reply, Shape};
use place_words::NextFound;
use trace_check::{bucket_number, first_in, found_in, is_refused, is_value};

/// The key at the head of a bucket, and the turns behind the look at it.
fn read_head<'a>(bucket: u32, seens: &Seens<'a>) -> Option<(&'a Option<Bytes>, Seens<'a>)>
    ensures { MatchOption result (told.read_head bucket (turns_in seens.now) ≡ None)
        (λ read. told.read_head bucket (turns_in seens.now) ≡ Some (read.0.now, turns_in read.1)) }
{
    let (part, rest) = first_at(bucket, seens)?;
    let key = first_in(part)?;
    Some((key, rest))
}

/// Whether the reply is the first key of the buckets from one on, and the turns behind those of the looks.
fn read_firsts<'a>(shape: &Shape, from: u32, reply: &Reply, seens: &Seens<'a>) -> Option<Seens<'a>>
    ensures { IsTurnsAs (told.read_firsts (buckets_from shape.now from) (turns_in seens.now)) reply.now result }
{
    let mut rest = seens.again();
    for bucket in from..shape.buckets {
        let (key, behind) = read_head(bucket, &rest)?;
        match key {
            Some(key) => return rest_if(is_value(reply, key.as_slice()), behind),
            None => rest = behind,
        }
    }
    rest_if(is_refused(reply, Errno::Enoent), rest)
}

/// What follows a key, and the turns behind the bucket's.
fn read_found<'a>(
    shape: &Shape,
    key: &[u8],
    seens: &Seens<'a>,
) -> Option<(&'a NextFound, Seens<'a>)>
    requires shape { HasBounds shape.now }
    requires key { length key.now ≡ shape.now.key_size }
    ensures { MatchOption result (told.read_found shape.now key.now (turns_in seens.now) ≡ None)
        (λ read. told.read_found shape.now key.now (turns_in seens.now) ≡ Some (read.0.now, turns_in read.1)) }
{
    let (part, rest) = first_at(bucket_number(shape, key), seens)?;
    let found = found_in(part, key)?;
    Some((found, rest))
}

/// Whether the reply is the key after one, or the first, and the turns behind the call's.
pub(crate) fn read_next<'a>(
    shape: &Shape,
    key: &Option<Bytes>,
    reply: &Reply,
    seens: &Seens<'a>,
) -> Option<Seens<'a>>
    requires shape { HasBounds shape.now }
    requires key { MatchOption key.now (Unit {0}) (λ key. length key ≡ shape.now.key_size) }
    ensures { IsTurnsAs (told.read_next shape.now key.now (turns_in seens.now)) reply.now result }
{
    match key {
        None => read_firsts(shape, 0, reply, seens),
        Some(key) => read_after(shape, key.as_slice(), reply, seens),
    }
}

/// Whether the reply is the key after one, and the turns behind the call's.
fn read_after<'a>(shape: &Shape, key: &[u8], reply: &Reply, seens: &Seens<'a>) -> Option<Seens<'a>>
    requires shape { HasBounds shape.now }
    requires key { length key.now ≡ shape.now.key_size }
    ensures { IsTurnsAs (told.read_next shape.now (Some key.now) (turns_in seens.now)) reply.now result }
{
    let (found, behind) = read_found(shape, key, seens)?;
    match found {
        NextFound::Absent => read_firsts(shape, 0, reply, &behind),
        NextFound::Last => read_firsts(shape, bucket_number(shape, key) + 1, reply, &behind),
        NextFound::Key(next) => rest_if(is_value(reply, next.as_slice()), behind),
    }
}
