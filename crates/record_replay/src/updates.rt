//! Updates of a key in a bucket.

ghost use Rattle.std.specs.Prelude.{◌≡◌, ◌∷◌, ◌<◌, IfOk, OnOk, None, length};
ghost use Rattle.map_types.specs.Creation.{IsShape};
ghost use Rattle.map_types.specs.Shape.{HasBounds};
ghost use Rattle.map_types.specs.ValueLen.{value_len_of};
ghost use Rattle.place_words.specs.declared.bucket_part.Put.TheVariants as puts;
ghost use Rattle.place_words.specs.Buckets.{new_stored};
ghost use Rattle.place_words.specs.Sizes.{AreSized};
ghost use Rattle.bucket_chain.specs.Places.{place_of_key};
ghost use Rattle.record_replay.specs.BucketSteps.{IsPutStep};

use bucket_chain::{BPF_EXIST, BPF_NOEXIST, Chain, Write, body_at, fill_body, write_value};
use map_types::{NoMemory, Shape};
use percpu_values::BoxedBody;
use place_words::Put;
use std::alloc::{AllocError, Global};

/// Makes an update, where it is allowed.
pub(crate) fn update(
    alloc: Global,
    shape: &Shape,
    cpu: u32,
    write: Write,
    put: Put,
    chain: &mut Chain,
) -> Result<bool, NoMemory>
    requires shape { IsShape shape.now }
    requires bounds { HasBounds shape.now }
    requires cpu { cpu < shape.now.cpus }
    requires key { length write.key.now ≡ shape.now.key_size }
    requires value { length write.value.now ≡ value_len_of shape.now write.side }
    requires sized { AreSized shape.now chain.old.bodies }
    ensures { IfOk result (IsPutStep shape.now write.entry.side cpu write.entry.flags write.entry.key.now write.entry.value.now
        put chain.old.bodies chain.new.bodies) }
{
    match put {
        Put::Added(element) => added(alloc, shape, cpu, write, element, chain),
        Put::Replaced { new, old } => replaced(alloc, shape, cpu, write, new, old, chain),
        Put::Written(element) => Ok(written(shape, cpu, write, element, chain)),
        Put::Exists => Ok(write.flags == BPF_NOEXIST && chain.find(write.key).is_some()),
        Put::Absent => Ok(write.flags == BPF_EXIST && chain.find(write.key).is_none()),
        Put::Full => Ok(
            write.flags != BPF_EXIST && !shape.kind.is_lru() && chain.find(write.key).is_none(),
        ),
    }
}

/// A body of an element with a key, and with a value that a side writes on a CPU.
fn new_body(
    alloc: Global,
    shape: &Shape,
    cpu: u32,
    element: u32,
    write: Write,
) -> Result<BoxedBody, NoMemory>
    requires bounds { HasBounds shape.now }
    requires cpu { cpu < shape.now.cpus }
    requires key { length write.key.now ≡ shape.now.key_size }
    requires value { length write.value.now ≡ value_len_of shape.now write.side }
    ensures { IfOk result (λ body. body ≡ new_stored shape.now write.entry.side cpu element write.entry.key.now write.entry.value.now) }
{
    let parts = if shape.kind.is_percpu() {
        shape.cpus
    } else {
        1
    };
    let mut body = BoxedBody::create(alloc, element, shape.key_size, parts, shape.value_size)?;
    fill_body(shape, write.side, cpu, &mut body, write.key, write.value);
    Ok(body)
}

/// Adds an element for a key that is absent, where that is allowed. A bucket of 2^32 - 1 elements, for which no machine has memory,
/// takes no more.
fn added(
    alloc: Global,
    shape: &Shape,
    cpu: u32,
    write: Write,
    element: u32,
    chain: &mut Chain,
) -> Result<bool, NoMemory>
    requires bounds { HasBounds shape.now }
    requires cpu { cpu < shape.now.cpus }
    requires key { length write.key.now ≡ shape.now.key_size }
    requires value { length write.value.now ≡ value_len_of shape.now write.side }
    ensures { IfOk result (IsPutStep shape.now write.entry.side cpu write.entry.flags write.entry.key.now write.entry.value.now
        (puts.Added element) chain.old.bodies chain.new.bodies) }
{
    if write.flags == BPF_EXIST || chain.find(write.key).is_some() {
        return Ok(false);
    }
    if chain.len() == u32::MAX {
        return Err(AllocError.into());
    }
    let body = new_body(alloc, shape, cpu, element, write)?;
    chain.add_head(body);
    Ok(true)
}

/// Replaces the element of a key by a new one, where that is allowed.
fn replaced(
    alloc: Global,
    shape: &Shape,
    cpu: u32,
    write: Write,
    new: u32,
    old: u32,
    chain: &mut Chain,
) -> Result<bool, NoMemory>
    requires bounds { HasBounds shape.now }
    requires cpu { cpu < shape.now.cpus }
    requires key { length write.key.now ≡ shape.now.key_size }
    requires value { length write.value.now ≡ value_len_of shape.now write.side }
    ensures { IfOk result (IsPutStep shape.now write.entry.side cpu write.entry.flags write.entry.key.now write.entry.value.now
        (puts.Replaced new old) chain.old.bodies chain.new.bodies) }
{
    if write.flags == BPF_NOEXIST || shape.kind.is_percpu() {
        return Ok(false);
    }
    let Some(place) = chain.find(write.key) else {
        return Ok(false);
    };
    let body = new_body(alloc, shape, cpu, new, write)?;
    Ok(chain.replace_head(place, body).body().element() == old)
}

/// Writes over the values of a key's element, where that is allowed.
fn written(shape: &Shape, cpu: u32, write: Write, element: u32, chain: &mut Chain) -> bool
    requires bounds { HasBounds shape.now }
    requires cpu { cpu < shape.now.cpus }
    requires value { length write.value.now ≡ value_len_of shape.now write.side }
    requires sized { AreSized shape.now chain.old.bodies }
    ensures { IsPutStep shape.now write.entry.side cpu write.entry.flags write.entry.key.now write.entry.value.now
        (puts.Written element) chain.old.bodies chain.new.bodies result }
{
    if write.flags == BPF_NOEXIST || !shape.kind.is_percpu() {
        return false;
    }
    let Some(place) = chain.find(write.key) else {
        return false;
    };
    if body_at(chain, place).element() != element {
        return false;
    }
    write_value(shape, write.side, cpu, chain, place, write.key, write.value);
    true
}
