//! What a turn tells, if it is one that a call asks for.

ghost use Rattle.std.specs.Prelude.{◌≡◌, MatchOption, None, Some, true};
ghost use Rattle.place_words.specs.Entries.{part_read};
ghost use Rattle.place_words.specs.PackedBuckets.{may_lie_in_place};
ghost use Rattle.place_words.specs.Turns.{on_freelist_of, on_lock};
ghost use Rattle.trace_check.specs.Calls as told;
ghost use Rattle.trace_check.specs.Reading as reading;

use crate::found::FoundAt;
use map_types::{Bytes, DomainId, Side};
use place_words::{BucketPart, FreePart, NextFound, PackedBucket, PartAt, Put, Walked};

/// Whether it is a turn of a freelist.
pub(crate) fn is_free(part: PartAt<'_>) -> bool
    ensures { result ≡ reading.is_free (part_read part.entry) }
{
    matches!(part, PartAt::Free(_))
}

/// Whether two sides are one.
pub fn same_side(side: Side, other: Side) -> bool
    ensures { result ≡ reading.same_side side other }
{
    match side {
        Side::Prog => matches!(other, Side::Prog),
        Side::Sys => matches!(other, Side::Sys),
    }
}

/// Whether two turns of freelists did the same.
pub(crate) fn same_free(part: FreePart, other: FreePart) -> bool
    ensures { result ≡ reading.same_free part other }
{
    match part {
        FreePart::Pushed(e) => matches!(other, FreePart::Pushed(x) if e == x),
        FreePart::Popped(e) => matches!(other, FreePart::Popped(x) if e == x),
        FreePart::FoundEmpty => matches!(other, FreePart::FoundEmpty),
    }
}

/// What a turn of a bucket did, if that lies in a block. A part that is of no common kind always does.
fn boxed_part(packed: &PackedBucket) -> Option<&BucketPart>
    ensures { MatchOption result (may_lie_in_place packed.now ≡ true) (λ part. packed.now ≡ part.now) }
{
    match packed.part() {
        Ok(part) => Some(part),
        Err(_) => None,
    }
}

/// What a lookup of this key got.
pub fn got_in<'a>(packed: &'a PackedBucket, side: Side, key: &[u8]) -> Option<FoundAt<'a>>
    ensures { result ≡ told.got_in side key.now packed.now }
{
    match packed.part() {
        Ok(part) => got_there(part, side, key),
        Err(part) => got_of(part, side, key),
    }
}

/// The same of a part that lies in a block.
fn got_there<'a>(part: &'a BucketPart, side: Side, key: &[u8]) -> Option<FoundAt<'a>>
    ensures { result ≡ told.got_in side key.now part.now }
{
    match part {
        BucketPart::Lookup {
            side: was,
            key: asked,
            got,
        } => {
            if same_side(side, *was) && key == asked.as_slice() {
                Some(FoundAt::lent(got))
            } else {
                None
            }
        }
        _ => None,
    }
}

/// The same of a part that was made.
fn got_of<'a>(part: BucketPart, side: Side, key: &[u8]) -> Option<FoundAt<'a>>
    ensures { result ≡ told.got_in side key.now part }
{
    match part {
        BucketPart::Lookup {
            side: was,
            key: asked,
            got,
        } => {
            if same_side(side, was) && key == asked.as_slice() {
                Some(FoundAt::made(got))
            } else {
                None
            }
        }
        _ => None,
    }
}

/// Which element a delete of this key took out.
pub fn gone_in(packed: &PackedBucket, key: &[u8]) -> Option<Option<u32>>
    ensures { result ≡ told.gone_in key.now packed.now }
{
    match packed.part() {
        Ok(part) => gone_of(part, key),
        Err(part) => gone_of(&part, key),
    }
}

/// The same of a part that is at hand.
fn gone_of(part: &BucketPart, key: &[u8]) -> Option<Option<u32>>
    ensures { result ≡ told.gone_in key.now part.now }
{
    match part {
        BucketPart::Delete { key: asked, gone } => {
            if key == asked.as_slice() {
                Some(*gone)
            } else {
                None
            }
        }
        _ => None,
    }
}

/// What a take of this key took out.
pub fn taken_in<'a>(packed: &'a PackedBucket, key: &[u8]) -> Option<&'a Option<(u32, Bytes)>>
    ensures { MatchOption result (told.taken_in key.now packed.now ≡ None) (λ gone. told.taken_in key.now packed.now ≡ Some gone.now) }
{
    let part = boxed_part(packed)?;
    match part {
        BucketPart::Take { key: asked, gone } => {
            if key == asked.as_slice() {
                Some(gone)
            } else {
                None
            }
        }
        _ => None,
    }
}

/// What an update with these words put.
pub(crate) fn put_in(
    packed: &PackedBucket,
    side: Side,
    flags: u32,
    key: &[u8],
    value: &[u8],
) -> Option<Put>
    ensures { result ≡ told.put_in side flags key.now value.now packed.now }
{
    match packed.part() {
        Ok(part) => put_by(part, side, flags, key, value),
        Err(part) => put_by(&part, side, flags, key, value),
    }
}

/// The same of a part that is at hand.
fn put_by(part: &BucketPart, side: Side, flags: u32, key: &[u8], value: &[u8]) -> Option<Put>
    ensures { result ≡ told.put_in side flags key.now value.now part.now }
{
    match part {
        BucketPart::Update {
            side: was,
            flags: with,
            key: asked,
            value: given,
            offer: None,
            put,
        } => {
            if same_side(side, *was)
                && flags == *with
                && key == asked.as_slice()
                && value == given.as_slice()
            {
                Some(*put)
            } else {
                None
            }
        }
        _ => None,
    }
}

/// The key at the head of a bucket, as a turn that looks there tells it.
pub fn first_in(packed: &PackedBucket) -> Option<&Option<Bytes>>
    ensures { MatchOption result (told.first_in packed.now ≡ None) (λ key. told.first_in packed.now ≡ Some key.now) }
{
    let part = boxed_part(packed)?;
    match part {
        BucketPart::First { key } => Some(key),
        _ => None,
    }
}

/// What follows this key.
pub fn found_in<'a>(packed: &'a PackedBucket, key: &[u8]) -> Option<&'a NextFound>
    ensures { MatchOption result (told.found_in key.now packed.now ≡ None) (λ found. told.found_in key.now packed.now ≡ Some found.now) }
{
    let part = boxed_part(packed)?;
    match part {
        BucketPart::Next { key: asked, found } => {
            if key == asked.as_slice() {
                Some(found)
            } else {
                None
            }
        }
        _ => None,
    }
}

/// Whether two tests have one answer.
pub fn same_bool(one: bool, other: bool) -> bool
    ensures { result ≡ told.same_bool one other }
{
    if one { other } else { !other }
}

/// What a batch, or a walk over all elements, took of a bucket with this room.
pub fn walked_in(packed: &PackedBucket, remove: bool, room: u32) -> Option<&Walked>
    ensures { MatchOption result (told.walked_in remove room packed.now ≡ None) (λ walked. told.walked_in remove room packed.now ≡ Some walked.now) }
{
    let part = boxed_part(packed)?;
    match part {
        BucketPart::Walk {
            remove: removes,
            room: has,
            result,
        } => {
            if same_bool(remove, *removes) && room == *has {
                Some(result)
            } else {
                None
            }
        }
        _ => None,
    }
}

/// Whether a turn of this lock with this part is the turn of a CPU's freelist in which so much was done.
pub(crate) fn is_free_turn(lock: DomainId, part: PartAt<'_>, cpu: u32, wanted: FreePart) -> bool
    ensures { result ≡ reading.same_turn (on_freelist_of cpu wanted) (on_lock lock (part_read part.entry)) }
{
    match lock {
        DomainId::Freelist(at) => match part {
            PartAt::Free(done) => cpu == at && same_free(wanted, done),
            _ => false,
        },
        _ => false,
    }
}
