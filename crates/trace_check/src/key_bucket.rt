//! The bucket of a key.

ghost use Rattle.std.specs.Prelude.{◌≡◌, ◌<◌, length};
ghost use Rattle.map_types.specs.Shape.{HasBounds};
ghost use Rattle.place_words.specs.Turns.{bucket_of_key};

use key_hash::{bucket_of, jhash};
use map_types::Shape;

/// The number of a key's bucket, as in the kernel's `__select_bucket` for the hash of `htab_map_hash`: below the map's number of
/// buckets.
pub fn bucket_number(shape: &Shape, key: &[u8]) -> u32
    requires bounds { HasBounds shape.now }
    requires key { length key.now ≡ shape.now.key_size }
    ensures value { result ≡ bucket_of_key shape.now key.now }
    ensures in_range { result < shape.now.buckets }
{
    bucket_of(jhash(key, shape.seed), shape.buckets)
}
