//! Walks over a bucket.

ghost use Rattle.std.specs.Prelude.{◌≡◌, ◌∷◌, [], ◌<◌, IfOk, map};
ghost use Rattle.map_types.specs.Creation.{IsShape};
ghost use Rattle.map_types.specs.Shape.{HasBounds};
ghost use Rattle.map_types.specs.Sides.{value_read};
ghost use Rattle.map_types.specs.Stored.{IsSized};
ghost use Rattle.map_types.specs.declared.kind.Side.TheVariants as sides;
ghost use Rattle.place_words.specs.declared.bucket_part.BucketPart.TheVariants as turns;
ghost use Rattle.place_words.specs.declared.bucket_part.Walked.TheVariants as walks;
ghost use Rattle.place_words.specs.Buckets.{as_read};
ghost use Rattle.place_words.specs.Sizes.{AreSized};
ghost use Rattle.record_replay.specs.BucketSteps.{IsBucketStep, IsTold};

use crate::listed::{put_back, take_all};
use crate::reads::reads;
use bucket_chain::Chain;
use map_types::{Bytes, NoMemory, Shape, Side};
use percpu_values::{Body, BoxedBody};
use place_words::{Kept, Walked};
use std::alloc::Global;

/// Makes a walk, where it is allowed.
#[tactic(auto, unfolding(place_words::specs::Buckets::AllowsInBucket, place_words::specs::Buckets::bucket_after))]
pub(crate) fn walk(
    alloc: Global,
    shape: &Shape,
    cpu: u32,
    remove: bool,
    room: u32,
    walked: &Walked,
    chain: &mut Chain,
) -> Result<bool, NoMemory>
    requires shape { IsShape shape.now }
    requires bounds { HasBounds shape.now }
    requires cpu { cpu < shape.now.cpus }
    requires sized { AreSized shape.now chain.old.bodies }
    ensures { IfOk result (IsBucketStep shape.now cpu (turns.Walk remove room walked.now) chain.old.bodies chain.new.bodies) }
{
    match walked {
        Walked::Over(count) => Ok(*count == chain.len() && room < *count),
        Walked::Taken(all) => walk_whole(alloc, shape, cpu, remove, room, all.as_slice(), chain),
    }
}

/// Makes a walk that takes the whole bucket, where it is allowed.
#[tactic(auto, unfolding(place_words::specs::Buckets::AllowsInBucket, place_words::specs::Buckets::bucket_after))]
fn walk_whole(
    alloc: Global,
    shape: &Shape,
    cpu: u32,
    remove: bool,
    room: u32,
    all: &[Kept],
    chain: &mut Chain,
) -> Result<bool, NoMemory>
    requires shape { IsShape shape.now }
    requires bounds { HasBounds shape.now }
    requires cpu { cpu < shape.now.cpus }
    requires sized { AreSized shape.now chain.old.bodies }
    ensures { IfOk result (IsBucketStep shape.now cpu (turns.Walk remove room (walks.Taken all.now)) chain.old.bodies chain.new.bodies) }
{
    if room < chain.len() {
        return Ok(false);
    }
    let bodies = take_all(alloc, chain)?;
    if !are_read(alloc, shape, cpu, all, bodies.as_slice())? {
        return Ok(false);
    }
    if !remove {
        put_back(chain, bodies);
    }
    Ok(true)
}

/// Whether these are the elements of bodies in order, as the system call reads them on a CPU.
fn are_read(
    alloc: Global,
    shape: &Shape,
    cpu: u32,
    all: &[Kept],
    bodies: &[BoxedBody],
) -> Result<bool, NoMemory>
    requires shape { IsShape shape.now }
    requires bounds { HasBounds shape.now }
    requires cpu { cpu < shape.now.cpus }
    requires sized { AreSized shape.now bodies.now }
    ensures { IfOk result (IsTold (all.now ≡ map (as_read shape.now cpu) bodies.now)) }
{
    if all.len() != bodies.len() {
        return Ok(false);
    }
    for place in 0..all.len() {
        if !is_read(alloc, shape, cpu, &all[place], bodies[place].body())? {
            return Ok(false);
        }
    }
    Ok(true)
}

/// Whether this is an element as the system call reads it on a CPU.
fn is_read(
    alloc: Global,
    shape: &Shape,
    cpu: u32,
    kept: &Kept,
    body: &Body,
) -> Result<bool, NoMemory>
    requires shape { IsShape shape.now }
    requires bounds { HasBounds shape.now }
    requires cpu { cpu < shape.now.cpus }
    requires sized { IsSized shape.now body.now }
    ensures { IfOk result (IsTold (kept.now ≡ as_read shape.now cpu body.now)) }
{
    if kept.element != body.element() {
        return Ok(false);
    }
    if kept.key.as_slice() != body.key() {
        return Ok(false);
    }
    is_only_value(alloc, shape, cpu, kept.values.as_slice(), body)
}

/// Whether these values are one alone, the one that the system call reads of a body on a CPU.
fn is_only_value(
    alloc: Global,
    shape: &Shape,
    cpu: u32,
    values: &[Bytes],
    body: &Body,
) -> Result<bool, NoMemory>
    requires shape { IsShape shape.now }
    requires bounds { HasBounds shape.now }
    requires cpu { cpu < shape.now.cpus }
    requires sized { IsSized shape.now body.now }
    ensures { IfOk result (IsTold (values.now ≡ value_read shape.now sides.Sys cpu body.now.values ∷ [])) }
{
    if values.len() != 1 {
        return Ok(false);
    }
    reads(alloc, shape, Side::Sys, cpu, body, values[0].as_slice())
}
