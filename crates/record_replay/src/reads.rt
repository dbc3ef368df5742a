//! Turns that read a bucket.

ghost use Rattle.std.specs.Prelude.{◌≡◌, ◌<◌, IfOk, None, Some, option_map, slice_get};
ghost use Rattle.map_types.specs.Creation.{IsShape};
ghost use Rattle.map_types.specs.Shape.{HasBounds};
ghost use Rattle.map_types.specs.Sides.{value_read};
ghost use Rattle.map_types.specs.Stored.{IsSized, Stored};
ghost use Rattle.place_words.specs.Bodies.{first_key};
ghost use Rattle.place_words.specs.Buckets.{AllowsNext};
ghost use Rattle.place_words.specs.Sizes.{AreSized};
ghost use Rattle.record_replay.specs.BucketSteps.{AllowsRead, IsTold};

use bucket_chain::{Chain, body_at, read_value};
use map_types::{Bytes, NoMemory, Shape, Side, value_len};
use percpu_values::Body;
use place_words::NextFound;
use std::alloc::Global;

/// Whether a side reads these bytes of a body on a CPU.
pub(crate) fn reads(
    alloc: Global,
    shape: &Shape,
    side: Side,
    cpu: u32,
    body: &Body,
    value: &[u8],
) -> Result<bool, NoMemory>
    requires shape { IsShape shape.now }
    requires bounds { HasBounds shape.now }
    requires cpu { cpu < shape.now.cpus }
    requires sized { IsSized shape.now body.now }
    ensures { IfOk result (IsTold (value.now ≡ value_read shape.now side cpu body.now.values)) }
{
    let len = value_len(shape, side) as usize;
    let mut out = vec![in alloc; 0; len]?;
    read_value(shape, side, cpu, body, &mut out);
    Ok(same_bytes(value, out.as_slice()))
}

/// Whether these are the same bytes.
fn same_bytes(first: &[u8], second: &[u8]) -> bool
    ensures { IsTold (first.now ≡ second.now) result }
{
    first == second
}

/// Whether a body is of this element, and a side reads these bytes of it on a CPU.
fn reads_of(
    alloc: Global,
    shape: &Shape,
    side: Side,
    cpu: u32,
    body: &Body,
    got: &(u32, Bytes),
) -> Result<bool, NoMemory>
    requires shape { IsShape shape.now }
    requires bounds { HasBounds shape.now }
    requires cpu { cpu < shape.now.cpus }
    requires sized { IsSized shape.now body.now }
    ensures { IfOk result (IsTold ((body.now.element ≡ got.now.0)
        × (got.now.1 ≡ value_read shape.now side cpu body.now.values))) }
{
    if body.element() != got.0 {
        return Ok(false);
    }
    reads(alloc, shape, side, cpu, body, got.1.as_slice())
}

/// Whether a side reads this of a key on a CPU.
pub(crate) fn allows_read(
    alloc: Global,
    shape: &Shape,
    side: Side,
    cpu: u32,
    key: &[u8],
    got: &Option<(u32, Bytes)>,
    chain: &Chain,
) -> Result<bool, NoMemory>
    requires shape { IsShape shape.now }
    requires bounds { HasBounds shape.now }
    requires cpu { cpu < shape.now.cpus }
    requires sized { AreSized shape.now chain.now.bodies }
    ensures { IfOk result (IsTold (AllowsRead shape.now side cpu key.now got.now chain.now.bodies)) }
{
    let Some(place) = chain.find(key) else {
        return Ok(got.is_none());
    };
    match got {
        None => Ok(false),
        Some(got) => reads_of(alloc, shape, side, cpu, body_at(chain, place), got),
    }
}

/// Whether this key stands at a place.
fn has_key_at(chain: &Chain, place: u32, key: &[u8]) -> bool
    ensures { IsTold (option_map (λ (body : Stored). body.key) (slice_get chain.now.bodies place) ≡ Some key.now) result }
{
    match chain.body(place) {
        Some(body) => body.key() == key,
        None => false,
    }
}

/// Whether nothing stands at a place.
fn ends_at(chain: &Chain, place: u32) -> bool
    ensures { IsTold (option_map (λ (body : Stored). body.key) (slice_get chain.now.bodies place) ≡ None) result }
{
    match chain.body(place) {
        Some(_) => false,
        None => true,
    }
}

/// Whether this follows a key.
pub(crate) fn allows_next(key: &[u8], found: &NextFound, chain: &Chain) -> bool
    ensures { IsTold (AllowsNext key.now found.now chain.now.bodies) result }
{
    let _count = chain.len();
    let Some(place) = chain.find(key) else {
        return matches!(found, NextFound::Absent);
    };
    match found {
        NextFound::Absent => false,
        NextFound::Last => ends_at(chain, place + 1),
        NextFound::Key(next) => has_key_at(chain, place + 1, next.as_slice()),
    }
}

/// Whether this is the key at the head, or there is none.
pub(crate) fn allows_first(key: &Option<Bytes>, chain: &Chain) -> bool
    ensures { IsTold (key.now ≡ first_key chain.now.bodies) result }
{
    match key {
        None => ends_at(chain, 0),
        Some(key) => has_key_at(chain, 0, key.as_slice()),
    }
}
