//! Pairs of a key and a value, in two flat buffers.

ghost use Rattle.std.specs.Prelude.{◌≡◌, ◌*◌, ◌<◌, ◌==◌, List, ℕ, length, take, drop, vec_len};
ghost use Rattle.map_types.specs.Pairs.{pairs_of, pair_at, joined_keys, joined_values, HaveSizes};

use crate::NoMemory;
use std::alloc::Global;
use std::marker::Model;

/// Keys of one size with values of one size, in order. Contracts see a list of pairs.
#[derive(Drop)]
pub struct Pairs {
    data: Box<PairData>,
}

/// A block in which pairs come to lie. It is had before the pairs are, so that they can be made where no memory may be
/// wanting.
#[derive(Drop)]
pub struct PairBlock {
    data: Box<PairData>,
}

/// What lies in the block of some pairs.
#[derive(Drop)]
pub(crate) struct PairData {
    key_size: usize,
    value_size: usize,
    count: usize,
    keys: Vec<u8>,
    values: Vec<u8>,
}

impl Model for Pairs {
    ghost use Rattle.std.specs.Prelude.{◌≡◌, ◌*◌, List, ℕ, length};
    ghost use Rattle.map_types.specs.Pairs.{pairs_of};

    ghost Value = { List (List ℕ × List ℕ) };

    ghost view = { λ p. pairs_of p.data.value.count p.data.value.key_size p.data.value.value_size p.data.value.keys.items p.data.value.values.items };

    ghost invariant = { λ p. (length p.data.value.keys.items ≡ p.data.value.count * p.data.value.key_size)
        × (length p.data.value.values.items ≡ p.data.value.count * p.data.value.value_size) };
}

impl PairBlock {
    /// A block for some pairs.
    pub fn new(alloc: Global) -> Result<PairBlock, NoMemory> {
        let nothing = PairData {
            key_size: 0,
            value_size: 0,
            count: 0,
            keys: Vec::new(alloc),
            values: Vec::new(alloc),
        };
        Ok(PairBlock {
            data: Box::new(alloc, nothing)?,
        })
    }
}

impl Pairs {
    /// The pairs that lie end to end in two buffers: so many keys of a size, and as many values of a size, in bytes. They
    /// come to lie in this block.
    pub fn of(
        block: PairBlock,
        count: usize,
        key_size: usize,
        value_size: usize,
        keys: Vec<u8>,
        values: Vec<u8>,
    ) -> Pairs
        requires keys_fill { vec_len keys ≡ count * key_size }
        requires values_fill { vec_len values ≡ count * value_size }
        ensures exact { result ≡ pairs_of count key_size value_size keys.items values.items }
        ensures sizes { HaveSizes key_size value_size result }
        // Pairs whose keys and values are laid end to end are got back.
        ensures joined { (pairs : List (List ℕ × List ℕ)) → HaveSizes key_size value_size pairs
            → length pairs ≡ count
            → joined_keys pairs ≡ keys.items → joined_values pairs ≡ values.items → result ≡ pairs }
    {
        let PairBlock { mut data } = block;
        *data = PairData {
            key_size,
            value_size,
            count,
            keys,
            values,
        };
        Pairs { data }
    }

    /// The buffers: the keys end to end, and the values.
    pub fn into_parts(self) -> (Vec<u8>, Vec<u8>)
        ensures keys { result.0.items ≡ joined_keys self }
        ensures values { result.1.items ≡ joined_values self }
    {
        let Pairs { data } = self;
        let PairData { keys, values, .. } = Box::into_inner(data);
        (keys, values)
    }

    /// How many pairs there are.
    pub fn len(&self) -> usize
        ensures { result ≡ length self.now }
    {
        self.data.count
    }

    /// Whether there is none.
    pub fn is_empty(&self) -> bool
        ensures { result ≡ (length self.now == 0) }
    {
        self.data.count == 0
    }

    /// The key of the pair at an index below `len`.
    pub fn key(&self, i: usize) -> &[u8]
        requires { i < length self.now }
        ensures { result.now ≡ (pair_at self.now i).0 }
    {
        let data: &PairData = &self.data;
        piece(&data.keys, data.count, data.key_size, i)
    }

    /// The value of the pair at an index below `len`.
    pub fn value(&self, i: usize) -> &[u8]
        requires { i < length self.now }
        ensures { result.now ≡ (pair_at self.now i).1 }
    {
        let data: &PairData = &self.data;
        piece(&data.values, data.count, data.value_size, i)
    }
}

/// The bytes at an index, of so many pieces of a size that lie end to end.
pub fn piece(bytes: &[u8], count: usize, size: usize, i: usize) -> &[u8]
    requires fill { length bytes.now ≡ count * size }
    requires within { i < count }
    ensures { result.now ≡ take size (drop (i * size) bytes.now) }
{
    let start = i * size;
    &bytes[start..start + size]
}
