//! Calls on one key, read at the beginning of turns.

ghost use Rattle.std.specs.Prelude.{◌≡◌, ◌<◌, length, MatchOption, None, Some};
ghost use Rattle.map_types.specs.Shape.{HasBounds};
ghost use Rattle.place_words.specs.PlainTraces.{element_gone};
ghost use Rattle.trace_check.specs.Calls as told;

use crate::found::FoundAt;
use crate::group::bucket_group;
use crate::key_bucket::bucket_number;
use crate::looks::{are_pushes, looks_for};
use crate::parts::{gone_in, got_in, put_in, taken_in};
use crate::strand::Turns;
use map_types::{Bytes, Shape, Side};
use place_words::Put;

/// What an update asks for.
#[derive(Drop)]
pub(crate) struct Asked<'a> {
    pub(crate) side: Side,
    pub(crate) flags: u32,
    pub(crate) key: &'a [u8],
    pub(crate) value: &'a [u8],
}

/// What a lookup got, and the turns behind its own.
pub(crate) fn read_got<'a>(
    shape: &Shape,
    side: Side,
    key: &[u8],
    turns: &Turns<'a>,
) -> Option<(FoundAt<'a>, Turns<'a>)>
    requires shape { HasBounds shape.now }
    requires key { length key.now ≡ shape.now.key_size }
    ensures { result ≡ told.read_got shape.now side key.now turns.now }
{
    let group = bucket_group(bucket_number(shape, key), turns)?;
    let got = got_in(group.part, side, key)?;
    if group.before.is_empty() {
        Some((got, group.rest))
    } else {
        None
    }
}

/// Which element a delete took out, and the turns behind its own.
pub(crate) fn read_gone<'a>(
    shape: &Shape,
    cpu: u32,
    key: &[u8],
    turns: &Turns<'a>,
) -> Option<(Option<u32>, Turns<'a>)>
    requires shape { HasBounds shape.now }
    requires key { length key.now ≡ shape.now.key_size }
    ensures { result ≡ told.read_gone shape.now cpu key.now turns.now }
{
    let group = bucket_group(bucket_number(shape, key), turns)?;
    let gone = gone_in(group.part, key)?;
    if are_pushes(cpu, gone, &group.before) {
        Some((gone, group.rest))
    } else {
        None
    }
}

/// What a take took out, and the turns behind its own.
pub(crate) fn read_taken<'a>(
    shape: &Shape,
    cpu: u32,
    key: &[u8],
    turns: &Turns<'a>,
) -> Option<(&'a Option<(u32, Bytes)>, Turns<'a>)>
    requires shape { HasBounds shape.now }
    requires key { length key.now ≡ shape.now.key_size }
    ensures { MatchOption result (told.read_taken shape.now cpu key.now turns.now ≡ None)
        (λ read. told.read_taken shape.now cpu key.now turns.now ≡ Some (read.0.now, read.1)) }
{
    let group = bucket_group(bucket_number(shape, key), turns)?;
    let gone = taken_in(group.part, key)?;
    if are_pushes(cpu, element_gone(gone), &group.before) {
        Some((gone, group.rest))
    } else {
        None
    }
}

/// The element alone.
fn element_gone(gone: &Option<(u32, Bytes)>) -> Option<u32>
    ensures { result ≡ element_gone gone.now }
{
    match gone {
        None => None,
        Some((element, _)) => Some(*element),
    }
}

/// What an update put whose flags are known, and the turns behind its own.
pub(crate) fn read_put<'a>(
    shape: &Shape,
    cpu: u32,
    spare: Option<u32>,
    asked: &Asked<'_>,
    turns: &Turns<'a>,
) -> Option<(Put, Turns<'a>)>
    requires shape { HasBounds shape.now }
    requires cpu { cpu < shape.now.cpus }
    requires key { length asked.now.key.now ≡ shape.now.key_size }
    ensures { result ≡ told.read_what_was_put shape.now cpu spare asked.now.side asked.now.flags asked.now.key.now asked.now.value.now turns.now }
{
    let group = bucket_group(bucket_number(shape, asked.key), turns)?;
    let put = put_in(group.part, asked.side, asked.flags, asked.key, asked.value)?;
    if looks_for(shape, cpu, spare, put, &group.before) {
        Some((put, group.rest))
    } else {
        None
    }
}
