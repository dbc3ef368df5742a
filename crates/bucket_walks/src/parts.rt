//! The entries of the turns of buckets. Each takes memory for its copies of keys, and only want of it refuses one. That of an
//! empty bucket has no key to copy.

ghost use Rattle.std.specs.Prelude.{◌≡◌, ◌<◌, false, All, IfOk};
ghost use Rattle.map_types.specs.Creation.{IsShape};
ghost use Rattle.map_types.specs.declared.kind.Side.TheVariants.{Sys};
ghost use Rattle.map_types.specs.Shape.{HasBounds};
ghost use Rattle.map_types.specs.Sides.{value_read};
ghost use Rattle.map_types.specs.Stored.{IsSized};
ghost use Rattle.place_words.specs.Buckets.{as_read};
ghost use Rattle.place_words.specs.declared.bucket_part.BucketPart.TheVariants as turns;
ghost use Rattle.place_words.specs.declared.history.Part.TheVariants as parts;
ghost use Rattle.bucket_walks.specs.Looks.{key_where, found_after};
ghost use Rattle.bucket_walks.specs.BatchReads.{all_read, walked_by};

use bucket_chain::{Chain, body_at, read_value};
use map_types::{Bytes, List, NoMemory, Shape, Side, value_len};
use percpu_values::Body;
use place_words::{BucketPart, Kept, KeptValues, NextFound, PackedBucket, Part, Walked};
use std::alloc::Global;

/// What follows a key in its bucket.
#[derive(Clone, Copy, Debug, PartialEq, Eq)]
pub(crate) enum After {
    /// The key isn't there.
    Absent,
    /// It is the last one.
    Last,
    /// Another key.
    Key,
}

/// A copy of bytes.
fn bytes_of(alloc: Global, bytes: &[u8]) -> Result<Bytes, NoMemory>
    ensures { IfOk result (λ copy. copy ≡ bytes.now) }
{
    Bytes::from_slice(alloc, bytes)
}

/// What was done under a bucket's lock, as it lies in an entry.
fn packed(alloc: Global, part: BucketPart) -> Result<Part, NoMemory>
    ensures { IfOk result (λ packed. packed ≡ parts.Bucket part) }
{
    Ok(Part::Bucket(PackedBucket::new(alloc, part)?))
}

/// The entry of a look at the head of a bucket, which has this key where there is one.
pub(crate) fn first_part(alloc: Global, found: bool, key: &[u8]) -> Result<Part, NoMemory>
    ensures { IfOk result (λ part. part ≡ parts.Bucket (turns.First (key_where found key.now))) }
{
    if found {
        let key = bytes_of(alloc, key)?;
        packed(alloc, BucketPart::First { key: Some(key) })
    } else {
        packed(alloc, BucketPart::First { key: None })
    }
}

/// The entry of a look at what follows a key.
pub(crate) fn next_part(
    alloc: Global,
    key: &[u8],
    after: After,
    next: &[u8],
) -> Result<Part, NoMemory>
    ensures { IfOk result (λ part. part
        ≡ parts.Bucket (turns.Next key.now (found_after after next.now))) }
{
    let key = bytes_of(alloc, key)?;
    let found = next_found(alloc, after, next)?;
    packed(alloc, BucketPart::Next { key, found })
}

/// What follows a key, with a copy of the key that does.
fn next_found(alloc: Global, after: After, next: &[u8]) -> Result<NextFound, NoMemory>
    ensures { IfOk result (λ found. found ≡ found_after after next.now) }
{
    match after {
        After::Absent => Ok(NextFound::Absent),
        After::Last => Ok(NextFound::Last),
        After::Key => Ok(NextFound::Key(bytes_of(alloc, next)?)),
    }
}

/// The entry of a batch read that comes by with room for so many elements, and takes them out or doesn't.
pub fn walk_part(
    alloc: Global,
    remove: bool,
    shape: &Shape,
    cpu: u32,
    room: u32,
    chain: &Chain,
) -> Result<Part, NoMemory>
    requires shape { IsShape shape.now }
    requires bounds { HasBounds shape.now }
    requires cpu { cpu < shape.now.cpus }
    requires sized { All (IsSized shape.now) chain.now.bodies }
    ensures { IfOk result (λ part. part
        ≡ parts.Bucket (turns.Walk remove room (walked_by shape.now cpu room chain.now.bodies))) }
{
    let result = walked(alloc, shape, cpu, room, chain)?;
    let part = BucketPart::Walk {
        remove,
        room,
        result,
    };
    packed(alloc, part)
}

/// What a batch lookup reads of a bucket: copies of all its elements, or how many they are where there is no room for them.
fn walked(
    alloc: Global,
    shape: &Shape,
    cpu: u32,
    room: u32,
    chain: &Chain,
) -> Result<Walked, NoMemory>
    requires shape { IsShape shape.now }
    requires bounds { HasBounds shape.now }
    requires cpu { cpu < shape.now.cpus }
    requires sized { All (IsSized shape.now) chain.now.bodies }
    ensures { IfOk result (λ found. found ≡ walked_by shape.now cpu room chain.now.bodies) }
{
    let count = chain.len();
    if room < count {
        return Ok(Walked::Over(count));
    }
    Ok(Walked::Taken(copies_of(alloc, shape, cpu, chain)?))
}

/// Copies of all elements of a bucket, each with the value that the system call reads.
fn copies_of(alloc: Global, shape: &Shape, cpu: u32, chain: &Chain) -> Result<List<Kept>, NoMemory>
    requires shape { IsShape shape.now }
    requires bounds { HasBounds shape.now }
    requires cpu { cpu < shape.now.cpus }
    requires sized { All (IsSized shape.now) chain.now.bodies }
    ensures { IfOk result (λ copies. copies ≡ all_read shape.now cpu chain.now.bodies) }
{
    let count = chain.len();
    let mut copies = Vec::with_capacity(alloc, count as usize)?;
    for place in 0..count {
        copies.push(copy_of(alloc, shape, cpu, body_at(chain, place))?)?;
    }
    Ok(List::of(copies))
}

/// A copy of an element, with the value that the system call reads.
fn copy_of(alloc: Global, shape: &Shape, cpu: u32, body: &Body) -> Result<Kept, NoMemory>
    requires shape { IsShape shape.now }
    requires bounds { HasBounds shape.now }
    requires cpu { cpu < shape.now.cpus }
    requires sized { IsSized shape.now body.now }
    ensures { IfOk result (λ copy. copy ≡ as_read shape.now cpu body.now) }
{
    let key = bytes_of(alloc, body.key())?;
    let value = value_of(alloc, shape, cpu, body)?;
    Ok(Kept {
        element: body.element(),
        key,
        values: KeptValues::one(value),
    })
}

/// The value that the system call reads of an element.
fn value_of(alloc: Global, shape: &Shape, cpu: u32, body: &Body) -> Result<Bytes, NoMemory>
    requires shape { IsShape shape.now }
    requires bounds { HasBounds shape.now }
    requires cpu { cpu < shape.now.cpus }
    requires sized { IsSized shape.now body.now }
    ensures { IfOk result (λ value. value ≡ value_read shape.now Sys cpu body.now.values) }
{
    let mut value = vec![in alloc; 0; value_len(shape, Side::Sys) as usize]?;
    read_value(shape, Side::Sys, cpu, body, &mut value);
    Bytes::from_slice(alloc, value.as_slice())
}
