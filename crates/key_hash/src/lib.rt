//! The hash of a key, and the bucket of a hash.
#![tactic(auto)]

ghost use Rattle.std.specs.Prelude.{◌≡◌, ◌%◌, ◌<◌, ◌≤◌, length};
ghost use Rattle.key_hash.specs.Bucket.{IsPowerOfTwo, bucket_number};
ghost use Rattle.key_hash.specs.Jhash.{hash};

use state::{BLOCK_LEN, State};

mod state;

/// The hash of a key of 1 to 512 bytes, as the Linux kernel's `jhash` computes it. Two seeds give
/// two hashes of the same key that have little to do with each other.
pub fn jhash(key: &[u8], seed: u32) -> u32
    requires not_empty { 1 ≤ length key.now }
    requires at_most_512 { length key.now ≤ 512 }
    ensures { result ≡ hash key.now seed }
{
    let mut state = State::new(key.len() as u32, seed);
    let mut rest = key;
    while let Some((block, left)) = rest.split_first_chunk::<BLOCK_LEN>()
        && !left.is_empty()
    {
        state.add_block(block);
        state.mix();
        rest = left;
    }
    state.add_last(rest);
    state.finish()
}

/// The bucket, from 0 to `buckets - 1`, that the kernel's hash map puts a hash into
/// (`__select_bucket`): the low bits of the hash. The number of buckets is a power of two.
#[tactic(auto, unfolding(crate::specs::Bucket::bucket_number))]
pub fn bucket_of(hash: u32, buckets: u32) -> u32
    requires { IsPowerOfTwo buckets }
    ensures value { result ≡ bucket_number hash buckets }
    ensures in_range { result < buckets }
    ensures remainder { result ≡ hash % buckets }
{
    hash & (buckets - 1)
}
