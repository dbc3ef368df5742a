//! The pairs that a walk over buckets gathers, with room for all that it may take.

ghost use Rattle.std.specs.Prelude.{◌≡◌, ◌-◌, ◌+◌, ◌<◌, ◌≤◌, [], ◌∷◌, ◌++◌, length, take, IfOk, vec_len, vec_capacity};
ghost use Rattle.map_types.specs.Shape.{HasBounds};
ghost use Rattle.map_types.specs.Pairs.{pair_at};
ghost use Rattle.map_types.specs.Sides.{value_read};
ghost use Rattle.map_types.specs.ValueLen.{value_len_of};
ghost use Rattle.map_types.specs.Stored.{IsSized};
ghost use Rattle.bucket_walks.specs.BatchReads.{IsOfSide};

use bucket_chain::read_value;
use map_types::{NoMemory, PairBlock, Pairs, Shape, Side, piece};
use percpu_values::Body;
use std::alloc::Global;
use std::marker::Model;

/// Keys with values, as a side reads them, and room for some more. Memory for all of them is found at the start.
#[derive(Drop)]
pub struct ReadRoom {
    count: u32,
    limit: u32,
    key_size: usize,
    value_size: usize,
    keys: Vec<u8>,
    values: Vec<u8>,
    /// The value that is read just now.
    value: Vec<u8>,
    /// Where the pairs come to lie.
    block: PairBlock,
}

impl Model for ReadRoom {
    ghost use Rattle.std.specs.Prelude.{◌≡◌, ◌*◌, ◌≤◌, length, vec_capacity};
    ghost use Rattle.map_types.specs.Pairs.{pairs_of};
    ghost use Rattle.bucket_walks.specs.BatchReads.{PairsSoFar};

    ghost Value = { PairsSoFar };

    ghost view = { λ r. record {
      pairs = pairs_of r.count r.key_size r.value_size r.keys.items r.values.items;
      limit
          = r.limit;
      key_size = r.key_size;
      value_size = r.value_size;
    } };

    ghost invariant = { λ r. (r.count ≤ r.limit) × (length r.keys.items ≡ r.count * r.key_size)
        × (length r.values.items ≡ r.count * r.value_size) × (length r.value.items ≡ r.value_size)
        × (r.limit * r.key_size ≤ vec_capacity r.keys)
        × (r.limit * r.value_size ≤ vec_capacity r.values) };
}

impl ReadRoom {
    /// Room for so many pairs, of keys and values of these sizes in bytes.
    pub fn of(
        alloc: Global,
        limit: u32,
        key_size: u32,
        value_size: u32,
    ) -> Result<ReadRoom, NoMemory>
        ensures { IfOk result (λ made. made
            ≡ record { pairs = []; limit = limit; key_size = key_size; value_size = value_size }) }
    {
        let key_size = key_size as usize;
        let value_size = value_size as usize;
        Ok(ReadRoom {
            count: 0,
            limit,
            key_size,
            value_size,
            keys: Vec::with_capacity(alloc, limit as usize * key_size)?,
            values: Vec::with_capacity(alloc, limit as usize * value_size)?,
            value: zeros(alloc, value_size)?,
            block: PairBlock::new(alloc)?,
        })
    }

    /// How many pairs there are.
    pub fn len(&self) -> u32
        ensures { result ≡ length self.now.pairs }
    {
        self.count
    }

    /// The key of the pair at an index.
    pub fn key(&self, i: u32) -> &[u8]
        requires { i < length self.now.pairs }
        ensures bytes { result.now ≡ (pair_at self.now.pairs i).0 }
        ensures sized { length result.now ≡ self.now.key_size }
    {
        piece(
            self.keys.as_slice(),
            self.count as usize,
            self.key_size,
            i as usize,
        )
    }

    /// The value of the pair at an index.
    pub fn value(&self, i: u32) -> &[u8]
        requires { i < length self.now.pairs }
        ensures bytes { result.now ≡ (pair_at self.now.pairs i).1 }
        ensures sized { length result.now ≡ self.now.value_size }
    {
        piece(
            self.values.as_slice(),
            self.count as usize,
            self.value_size,
            i as usize,
        )
    }

    /// Keeps the first pairs, so many, and forgets the others.
    pub fn keep(&mut self, count: u32)
        requires { count ≤ length self.old.pairs }
        ensures { self.new ≡ record self.old { pairs = take count self.old.pairs } }
    {
        self.keys.truncate(count as usize * self.key_size);
        self.values.truncate(count as usize * self.value_size);
        self.count = count;
    }

    /// How many more pairs there is room for.
    pub fn left(&self) -> u32
        ensures value { result ≡ self.now.limit - length self.now.pairs }
        ensures within { length self.now.pairs ≤ self.now.limit }
    {
        self.limit - self.count
    }

    /// Adds the key of a body, and the value that a side reads of it on a CPU.
    pub fn add(&mut self, shape: &Shape, side: Side, cpu: u32, body: &Body)
        requires bounds { HasBounds shape.now }
        requires cpu { cpu < shape.now.cpus }
        requires sized { IsSized shape.now body.now }
        requires of_map { IsOfSide shape.now side self.old }
        requires room { length self.old.pairs < self.old.limit }
        ensures { self.new
            ≡ record self.old {
              pairs = self.old.pairs
                  ++ (body.now.key, value_read shape.now side cpu body.now.values) ∷ [];
            } }
    {
        copy_pair(
            shape,
            side,
            cpu,
            body,
            &mut self.keys,
            &mut self.values,
            &mut self.value,
        );
        self.count += 1;
    }

    /// The pairs.
    pub fn into_pairs(self) -> Pairs
        ensures { result ≡ self.pairs }
    {
        let ReadRoom {
            count,
            key_size,
            value_size,
            keys,
            values,
            block,
            ..
        } = self;
        Pairs::of(block, count as usize, key_size, value_size, keys, values)
    }
}

/// So many bytes.
fn zeros(alloc: Global, count: usize) -> Result<Vec<u8>, NoMemory>
    ensures { IfOk result (λ bytes. length bytes.items ≡ count) }
{
    Ok(vec![in alloc; 0; count]?)
}

/// Appends the key of a body, and the value that a side reads of it, which is read to `value` first.
fn copy_pair(
    shape: &Shape,
    side: Side,
    cpu: u32,
    body: &Body,
    keys: &mut Vec<u8>,
    values: &mut Vec<u8>,
    value: &mut [u8],
)
    requires bounds { HasBounds shape.now }
    requires cpu { cpu < shape.now.cpus }
    requires sized { IsSized shape.now body.now }
    requires value { length value.old ≡ value_len_of shape.now side }
    requires key_room { length keys.old.items + shape.now.key_size ≤ vec_capacity keys.old }
    requires value_room { length values.old.items + value_len_of shape.now side
        ≤ vec_capacity values.old }
    ensures keys { keys.new.items ≡ keys.old.items ++ body.now.key }
    ensures values { values.new.items
        ≡ values.old.items ++ value_read shape.now side cpu body.now.values }
    ensures key_room { vec_capacity keys.old ≤ vec_capacity keys.new }
    ensures value_room { vec_capacity values.old ≤ vec_capacity values.new }
    ensures value { length value.new ≡ length value.old }
{
    append(keys, body.key());
    read_value(shape, side, cpu, body, value);
    append(values, value);
}

/// Appends bytes for which there is room.
fn append(to: &mut Vec<u8>, bytes: &[u8])
    requires { length to.old.items + length bytes.now ≤ vec_capacity to.old }
    ensures items { to.new.items ≡ to.old.items ++ bytes.now }
    ensures room { vec_capacity to.old ≤ vec_capacity to.new }
{
    if to.extend_from_slice(bytes).is_err() {
        unreachable!()
    }
}
