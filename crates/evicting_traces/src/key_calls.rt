//! Calls on one key, read at the beginning of turns.

ghost use Rattle.std.specs.Prelude.{◌≡◌, IsTrue, length, MatchOption, None, Some};
ghost use Rattle.map_types.specs.Kind.{is_lru};
ghost use Rattle.map_types.specs.Shape.{HasBounds};
ghost use Rattle.place_words.specs.Evicting.{left_over};
ghost use Rattle.place_words.specs.PlainTraces.{element_gone, reply_of_gone, reply_of_got, reply_of_put};
ghost use Rattle.evicting_traces.specs.Calls as told;

use crate::frees::read_frees_one;
use crate::parts::put_of;
use crate::seen::Seens;
use crate::takes::read_acquires;
use key_hash::jhash;
use map_types::{Bytes, DomainId, Errno, Shape, Side};
use place_words::{PackedBucket, PartAt, Put};
use trace_check::{FoundAt, bucket_number, gone_in, got_in, taken_in};

/// What an update asks for.
#[derive(Drop)]
pub(crate) struct Asked<'a> {
    pub(crate) side: Side,
    pub(crate) flags: u32,
    pub(crate) key: &'a [u8],
    pub(crate) value: &'a [u8],
}

/// What a lookup got, and the turns behind its own.
pub(crate) fn read_lookup<'a>(
    shape: &Shape,
    side: Side,
    key: &[u8],
    seens: &Seens<'a>,
) -> Option<(FoundAt<'a>, Seens<'a>)>
    requires bounds { HasBounds shape.now }
    requires key { length key.now ≡ shape.now.key_size }
    ensures { MatchOption result (told.read_lookup shape.now side key.now seens.now ≡ None)
        (λ read. told.read_lookup shape.now side key.now seens.now ≡ Some (reply_of_got read.0, read.1)) }
{
    let (part, rest) = first_at(bucket_number(shape, key), seens)?;
    let got = got_in(part, side, key)?;
    Some((got, rest))
}

/// With which error a delete is refused, and the turns behind its own.
pub(crate) fn read_delete<'a>(
    shape: &Shape,
    key: &[u8],
    seens: &Seens<'a>,
) -> Option<(Option<Errno>, Seens<'a>)>
    requires bounds { HasBounds shape.now }
    requires evicts { IsTrue (is_lru shape.now.kind) }
    requires key { length key.now ≡ shape.now.key_size }
    ensures { MatchOption result (told.read_delete shape.now key.now seens.now ≡ None)
        (λ read. told.read_delete shape.now key.now seens.now ≡ Some (told.reply_of_refusal read.0, read.1)) }
{
    let (part, rest) = first_at(bucket_number(shape, key), seens)?;
    let gone = gone_in(part, key)?;
    let behind = read_frees_one(shape, gone, &rest)?;
    Some((gone_refusal(gone), behind))
}

/// What a take took out, and the turns behind its own.
pub(crate) fn read_take<'a>(
    shape: &Shape,
    key: &[u8],
    seens: &Seens<'a>,
) -> Option<(&'a Option<(u32, Bytes)>, Seens<'a>)>
    requires bounds { HasBounds shape.now }
    requires evicts { IsTrue (is_lru shape.now.kind) }
    requires key { length key.now ≡ shape.now.key_size }
    ensures { MatchOption result (told.read_take shape.now key.now seens.now ≡ None)
        (λ read. told.read_take shape.now key.now seens.now ≡ Some (reply_of_got read.0.now, read.1)) }
{
    let (part, rest) = first_at(bucket_number(shape, key), seens)?;
    let gone = taken_in(part, key)?;
    let behind = read_frees_one(shape, element_gone(gone), &rest)?;
    Some((gone, behind))
}

/// With which error an update is refused, and the turns behind its own.
pub(crate) fn read_update<'a>(
    shape: &Shape,
    cpu: u32,
    asked: &Asked<'_>,
    seens: &Seens<'a>,
) -> Option<(Option<Errno>, Seens<'a>)>
    requires bounds { HasBounds shape.now }
    requires evicts { IsTrue (is_lru shape.now.kind) }
    requires key { length asked.now.key.now ≡ shape.now.key_size }
    ensures { MatchOption result (told.read_update shape.now cpu asked.now.side asked.now.flags asked.now.key.now asked.now.value.now seens.now ≡ None)
        (λ read. told.read_update shape.now cpu asked.now.side asked.now.flags asked.now.key.now asked.now.value.now seens.now ≡ Some (told.reply_of_refusal read.0, read.1)) }
{
    if asked.flags > 2 {
        return Some((Some(Errno::Einval), seens.again()));
    }
    if shape.kind.is_percpu() && asked.flags == 2 {
        read_write(shape, asked, seens)
    } else {
        read_offers(shape, cpu, asked, seens)
    }
}

/// An update that only writes in place.
fn read_write<'a>(
    shape: &Shape,
    asked: &Asked<'_>,
    seens: &Seens<'a>,
) -> Option<(Option<Errno>, Seens<'a>)>
    requires bounds { HasBounds shape.now }
    requires key { length asked.now.key.now ≡ shape.now.key_size }
    ensures { MatchOption result (told.read_write shape.now asked.now.side asked.now.flags asked.now.key.now asked.now.value.now seens.now ≡ None)
        (λ read. told.read_write shape.now asked.now.side asked.now.flags asked.now.key.now asked.now.value.now seens.now ≡ Some (told.reply_of_refusal read.0, read.1)) }
{
    let (part, rest) = first_at(bucket_number(shape, asked.key), seens)?;
    let put = put_of(part, asked.side, asked.flags, asked.key, asked.value, None)?;
    if may_put_alone(put) {
        Some((put_refusal(put), rest))
    } else {
        None
    }
}

/// An update that takes an element first.
fn read_offers<'a>(
    shape: &Shape,
    cpu: u32,
    asked: &Asked<'_>,
    seens: &Seens<'a>,
) -> Option<(Option<Errno>, Seens<'a>)>
    requires bounds { HasBounds shape.now }
    requires evicts { IsTrue (is_lru shape.now.kind) }
    requires key { length asked.now.key.now ≡ shape.now.key_size }
    ensures { MatchOption result (told.read_offers shape.now cpu asked.now.side asked.now.flags asked.now.key.now asked.now.value.now seens.now ≡ None)
        (λ read. told.read_offers shape.now cpu asked.now.side asked.now.flags asked.now.key.now asked.now.value.now seens.now ≡ Some (told.reply_of_refusal read.0, read.1)) }
{
    let (got, rest) = read_acquires(shape, cpu, jhash(asked.key, shape.seed), seens)?;
    match got {
        None => Some((Some(Errno::Enomem), rest)),
        Some(element) => read_offer(shape, asked, element, &rest),
    }
}

/// An element is offered to the key's bucket, and what is left over is freed.
fn read_offer<'a>(
    shape: &Shape,
    asked: &Asked<'_>,
    element: u32,
    seens: &Seens<'a>,
) -> Option<(Option<Errno>, Seens<'a>)>
    requires bounds { HasBounds shape.now }
    requires evicts { IsTrue (is_lru shape.now.kind) }
    requires key { length asked.now.key.now ≡ shape.now.key_size }
    ensures { MatchOption result (told.read_offer shape.now asked.now.side asked.now.flags asked.now.key.now asked.now.value.now element seens.now ≡ None)
        (λ read. told.read_offer shape.now asked.now.side asked.now.flags asked.now.key.now asked.now.value.now element seens.now ≡ Some (told.reply_of_refusal read.0, read.1)) }
{
    let (part, rest) = first_at(bucket_number(shape, asked.key), seens)?;
    let put = put_of(
        part,
        asked.side,
        asked.flags,
        asked.key,
        asked.value,
        Some(element),
    )?;
    if may_put(shape, element, put) {
        let behind = read_frees_one(shape, left_over(element, put), &rest)?;
        Some((put_refusal(put), behind))
    } else {
        None
    }
}

/// What was done in the first turn, if it is this bucket's, and the turns behind it.
#[tactic(auto, unfolding(crate::specs::Calls::first_at))]
pub(crate) fn first_at<'a>(bucket: u32, seens: &Seens<'a>) -> Option<(&'a PackedBucket, Seens<'a>)>
    ensures { MatchOption result (told.first_at bucket seens.now ≡ None) (λ first. told.first_at bucket seens.now ≡ Some (first.0.now, first.1)) }
{
    let (seen, rest) = seens.split_first()?;
    match seen.lock {
        DomainId::Bucket(number) if number == bucket => match seen.part {
            PartAt::Bucket(part) => Some((part, rest)),
            _ => None,
        },
        _ => None,
    }
}

/// The element alone.
fn element_gone(gone: &Option<(u32, Bytes)>) -> Option<u32>
    ensures { result ≡ element_gone gone.now }
{
    match gone {
        None => None,
        Some((element, _)) => Some(*element),
    }
}

/// The error with which a delete is refused that took this out.
fn gone_refusal(gone: Option<u32>) -> Option<Errno>
    ensures { told.reply_of_refusal result ≡ reply_of_gone gone }
{
    match gone {
        None => Some(Errno::Enoent),
        Some(_) => None,
    }
}

/// The error with which an update is refused that puts this.
fn put_refusal(put: Put) -> Option<Errno>
    ensures { told.reply_of_refusal result ≡ reply_of_put put }
{
    match put {
        Put::Added(_) | Put::Replaced { .. } | Put::Written(_) => None,
        Put::Exists => Some(Errno::Eexist),
        Put::Absent => Some(Errno::Enoent),
        Put::Full => Some(Errno::E2big),
    }
}

/// Whether an update may put this that was offered an element.
fn may_put(shape: &Shape, element: u32, put: Put) -> bool
    ensures { result ≡ told.may_put shape.now element put }
{
    match put {
        Put::Added(added) => added == element,
        Put::Replaced { new, .. } => new == element && !shape.kind.is_percpu(),
        Put::Written(_) => shape.kind.is_percpu(),
        Put::Exists | Put::Absent => true,
        Put::Full => false,
    }
}

/// Whether an update may put this that was offered nothing.
fn may_put_alone(put: Put) -> bool
    ensures { result ≡ told.may_put_alone put }
{
    matches!(put, Put::Written(_) | Put::Absent)
}

/// Which element is freed after an update that was offered one.
fn left_over(element: u32, put: Put) -> Option<u32>
    ensures { result ≡ left_over element put }
{
    match put {
        Put::Added(_) => None,
        Put::Replaced { old, .. } => Some(old),
        Put::Written(_) | Put::Exists | Put::Absent | Put::Full => Some(element),
    }
}
