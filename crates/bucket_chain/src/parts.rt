//! The entries of a bucket's turns. Each takes memory for its copies of keys and values, and only want of it refuses one.

ghost use Rattle.std.specs.Prelude.{◌≡◌, IfOk, Some, None};
ghost use Rattle.place_words.specs.declared.bucket_part.BucketPart.TheVariants as turns;
ghost use Rattle.place_words.specs.declared.history.Part.TheVariants as parts;

use map_types::{Bytes, NoMemory, Side};
use place_words::{BucketPart, PackedBucket, Part, Put};
use std::alloc::Global;

/// The flag of an update that refuses a present key.
pub const BPF_NOEXIST: u32 = 1;

/// The flag of an update that refuses an absent key, and the greatest flag of an update.
pub const BPF_EXIST: u32 = 2;

/// A copy of bytes.
fn bytes_of(alloc: Global, bytes: &[u8]) -> Result<Bytes, NoMemory>
    ensures { IfOk result (λ copy. copy ≡ bytes.now) }
{
    Bytes::from_slice(alloc, bytes)
}

/// What was done under a bucket's lock, as it lies in an entry.
fn packed(alloc: Global, part: BucketPart) -> Result<Part, NoMemory>
    ensures { IfOk result (λ packed. packed ≡ parts.Bucket part) }
{
    Ok(Part::Bucket(PackedBucket::new(alloc, part)?))
}

/// The entry of a lookup that found no element.
#[inline(always)]
pub fn lookup_missed(alloc: Global, side: Side, key: &[u8]) -> Result<Part, NoMemory>
    ensures { IfOk result (λ part. part ≡ parts.Bucket (turns.Lookup side key.now None)) }
{
    Ok(Part::Bucket(PackedBucket::missed(alloc, side, key)?))
}

/// The entry of a lookup that found an element with this value.
#[inline(always)]
pub fn lookup_got(
    alloc: Global,
    side: Side,
    key: &[u8],
    element: u32,
    value: &[u8],
) -> Result<Part, NoMemory>
    ensures { IfOk result (λ part. part
        ≡ parts.Bucket (turns.Lookup side key.now (Some (element, value.now)))) }
{
    let part = PackedBucket::got(alloc, side, key, element, value)?;
    Ok(Part::Bucket(part))
}

/// The entry of a delete, and the element that is gone.
#[inline(always)]
pub fn deleted(alloc: Global, key: &[u8], gone: Option<u32>) -> Result<Part, NoMemory>
    ensures { IfOk result (λ part. part ≡ parts.Bucket (turns.Delete key.now gone)) }
{
    Ok(Part::Bucket(PackedBucket::deleted(alloc, key, gone)?))
}

/// The entry of a take that found no element.
pub fn take_missed(alloc: Global, key: &[u8]) -> Result<Part, NoMemory>
    ensures { IfOk result (λ part. part ≡ parts.Bucket (turns.Take key.now None)) }
{
    let key = bytes_of(alloc, key)?;
    packed(alloc, BucketPart::Take { key, gone: None })
}

/// The entry of a take of an element with this value.
pub fn take_got(alloc: Global, key: &[u8], element: u32, value: &[u8]) -> Result<Part, NoMemory>
    ensures { IfOk result (λ part. part
        ≡ parts.Bucket (turns.Take key.now (Some (element, value.now)))) }
{
    let key = bytes_of(alloc, key)?;
    let value = bytes_of(alloc, value)?;
    let part = BucketPart::Take {
        key,
        gone: Some((element, value)),
    };
    packed(alloc, part)
}

/// The entry of an update that was offered this element, if any, and did this.
#[inline(always)]
pub fn updated(
    alloc: Global,
    side: Side,
    flags: u32,
    key: &[u8],
    value: &[u8],
    offer: Option<u32>,
    put: Put,
) -> Result<Part, NoMemory>
    ensures { IfOk result (λ part. part
        ≡ parts.Bucket (turns.Update side flags key.now value.now offer put)) }
{
    let part = PackedBucket::updated(alloc, side, flags, key, value, offer, put)?;
    Ok(Part::Bucket(part))
}
