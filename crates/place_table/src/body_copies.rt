//! Copies of the bodies that a table leaves.

ghost use Rattle.std.specs.Prelude.{◌≡◌, ◌<◌, All, IfOk, length};
ghost use Rattle.map_types.specs.Parts.{part_at};
ghost use Rattle.map_types.specs.Stored.{IsSized};

use bucket_chain::Chain;
use map_types::{Bytes, List, NoMemory, Shape};
use percpu_values::Body;
use place_words::{Kept, KeptValues};
use std::alloc::Global;

/// A copy of a bucket, head first.
pub(crate) fn bucket_copy(
    alloc: Global,
    shape: &Shape,
    chain: &Chain,
) -> Result<List<Kept>, NoMemory>
    requires sized { All (IsSized shape.now) chain.now.bodies }
    ensures { IfOk result (λ bucket. bucket ≡ chain.now.bodies) }
{
    let mut bucket = Vec::with_capacity(alloc, chain.len() as usize)?;
    for place in 0..chain.len() {
        if let Some(body) = chain.body(place) {
            bucket.push(body_copy(alloc, shape, body)?)?;
        }
    }
    Ok(List::of(bucket))
}

/// A copy of a body.
fn body_copy(alloc: Global, shape: &Shape, body: &Body) -> Result<Kept, NoMemory>
    requires sized { IsSized shape.now body.now }
    ensures { IfOk result (λ kept. kept ≡ body.now) }
{
    let key = Bytes::from_slice(alloc, body.key())?;
    Ok(Kept {
        element: body.element(),
        key,
        values: values_copy(alloc, shape, body)?,
    })
}

/// A copy of a body's values.
fn values_copy(alloc: Global, shape: &Shape, body: &Body) -> Result<KeptValues, NoMemory>
    requires sized { IsSized shape.now body.now }
    ensures { IfOk result (λ values. values ≡ body.now.values) }
{
    if shape.kind.is_percpu() {
        Ok(KeptValues::each(List::of(parts_of(alloc, shape.cpus, body)?)))
    } else {
        Ok(KeptValues::one(own_of(alloc, 0, body)?))
    }
}

/// Copies of the parts of a body's values, which are so many.
fn parts_of(alloc: Global, parts: u32, body: &Body) -> Result<Vec<Bytes>, NoMemory>
    requires { length body.now.values ≡ parts }
    ensures { IfOk result (λ values. values.items ≡ body.now.values) }
{
    let mut values = Vec::with_capacity(alloc, parts as usize)?;
    for part in 0..parts {
        values.push(own_of(alloc, part, body)?)?;
    }
    Ok(values)
}

/// A copy of a part of a body's values.
fn own_of(alloc: Global, part: u32, body: &Body) -> Result<Bytes, NoMemory>
    requires { part < length body.now.values }
    ensures { IfOk result (λ value. value ≡ part_at part body.now.values) }
{
    Bytes::from_slice(alloc, body.values().part(part))
}
