//! What lies in a bucket, against what the finals tell of it.

ghost use Rattle.std.specs.Prelude.{◌≡◌, ◌<◌, [], IfOk, length};
ghost use Rattle.finals_check.specs.Telling.{BucketTold};
ghost use Rattle.map_types.specs.Parts.{part_at, part_size};
ghost use Rattle.map_types.specs.Sides.{part_count};
ghost use Rattle.map_types.specs.Stored.{IsSized};
ghost use Rattle.place_words.specs.Sizes.{AreSized};
ghost use Rattle.record_check.specs.Replayed.{TellsWhether};

use bucket_chain::Chain;
use map_types::{Bytes, NoMemory, Shape};
use percpu_values::Body;
use place_words::{Finals, Kept};
use std::alloc::Global;

/// Whether the finals tell these elements of the bucket of a number.
pub(crate) fn bucket_told(
    alloc: Global,
    shape: &Shape,
    finals: &Finals,
    number: u32,
    chain: Chain,
) -> Result<bool, NoMemory>
    requires { AreSized shape.now chain.bodies }
    ensures { IfOk result (TellsWhether (BucketTold finals.now.buckets number chain.bodies)) }
{
    match finals.buckets.as_slice().get(number as usize) {
        Some(bucket) => are_kept(alloc, shape, bucket.as_slice(), chain),
        None => Ok(is_none(&chain)),
    }
}

/// Whether a bucket is empty.
fn is_none(chain: &Chain) -> bool
    ensures { TellsWhether ([] ≡ chain.now.bodies) result }
{
    chain.len() == 0
}

/// Whether these are the elements of a bucket, in order.
fn are_kept(alloc: Global, shape: &Shape, kept: &[Kept], chain: Chain) -> Result<bool, NoMemory>
    requires { AreSized shape.now chain.bodies }
    ensures { IfOk result (TellsWhether (kept.now ≡ chain.bodies)) }
{
    if kept.len() as u64 != chain.len() as u64 {
        return Ok(false);
    }
    let mut buffer = zeros(alloc, shape.value_size as usize)?;
    Ok(are_same(shape, kept, chain, buffer.as_mut_slice()))
}

/// So many zeros.
fn zeros(alloc: Global, count: usize) -> Result<Vec<u8>, NoMemory>
    ensures { IfOk result (λ bytes. length bytes.items ≡ count) }
{
    Ok(vec![in alloc; 0; count]?)
}

/// Whether these are the elements of a bucket that has as many. A value is read into the buffer.
fn are_same(shape: &Shape, kept: &[Kept], chain: Chain, buffer: &mut [u8]) -> bool
    requires counted { length kept.now ≡ length chain.bodies }
    requires sized { AreSized shape.now chain.bodies }
    requires exact { length buffer.old ≡ shape.now.value_size }
    ensures { TellsWhether (kept.now ≡ chain.bodies) result }
{
    let mut left = chain;
    for place in 0..kept.len() {
        let Some(body) = left.take_out(0) else {
            unreachable!()
        };
        if !is_same(shape, &kept[place], body.body(), buffer) {
            return false;
        }
    }
    true
}

/// Whether this is an element.
fn is_same(shape: &Shape, kept: &Kept, body: &Body, buffer: &mut [u8]) -> bool
    requires sized { IsSized shape.now body.now }
    requires exact { length buffer.old ≡ shape.now.value_size }
    ensures { TellsWhether (kept.now ≡ body.now) result }
{
    if kept.element != body.element() {
        return false;
    }
    if kept.key.as_slice() != body.key() {
        return false;
    }
    are_values(shape, kept.values.as_slice(), body, buffer)
}

/// Whether these are the values of an element, one for each part.
fn are_values(shape: &Shape, kept: &[Bytes], body: &Body, buffer: &mut [u8]) -> bool
    requires sized { IsSized shape.now body.now }
    requires exact { length buffer.old ≡ shape.now.value_size }
    ensures { TellsWhether (kept.now ≡ body.now.values) result }
{
    let parts = part_count(shape);
    if kept.len() as u64 != parts as u64 {
        return false;
    }
    for part in 0..parts {
        if !is_part(kept[part as usize].as_slice(), part, body, buffer) {
            return false;
        }
    }
    true
}

/// How many parts the values of an element have.
fn part_count(shape: &Shape) -> u32
    ensures { result ≡ part_count shape.now }
{
    if shape.kind.is_percpu() {
        shape.cpus
    } else {
        1
    }
}

/// Whether these bytes are a part of an element's values.
fn is_part(value: &[u8], part: u32, body: &Body, buffer: &mut [u8]) -> bool
    requires in_range { part < length body.now.values }
    requires exact { length buffer.old ≡ part_size body.now.values }
    ensures { TellsWhether (value.now ≡ part_at part body.now.values) result }
{
    body.values().read_own(part, buffer);
    same_bytes(value, buffer)
}

/// Whether these are the same bytes.
fn same_bytes(first: &[u8], second: &[u8]) -> bool
    ensures { TellsWhether (first.now ≡ second.now) result }
{
    first == second
}
