//! The bucket of a key, and the bodies that stand in a bucket.

ghost use Rattle.std.specs.Prelude.{◌≡◌, ◌<◌, ◌≤◌, Some, length, slice_get};
ghost use Rattle.map_types.specs.Shape.{HasBounds};
ghost use Rattle.place_words.specs.Bodies.{present, without_key};
ghost use Rattle.place_words.specs.Turns.{bucket_of_key};

use crate::chain::Chain;
use key_hash::{bucket_of, jhash};
use map_types::Shape;
use percpu_values::{Body, BoxedBody};

/// The number of a key's bucket, as in the kernel's `__select_bucket` for the hash of `htab_map_hash`: below the map's number
/// of buckets.
pub fn bucket_number(shape: &Shape, key: &[u8]) -> u32
    requires bounds { HasBounds shape.now }
    requires key { length key.now ≡ shape.now.key_size }
    ensures value { result ≡ bucket_of_key shape.now key.now }
    ensures in_range { result < shape.now.buckets }
{
    bucket_of(jhash(key, shape.seed), shape.buckets)
}

/// The body at a place of a bucket.
pub fn body_at(chain: &Chain, place: u32) -> &Body
    requires { place < length chain.now.bodies }
    ensures { slice_get chain.now.bodies place ≡ Some result.now }
{
    match chain.body(place) {
        Some(body) => body,
        None => unreachable!(),
    }
}

/// Takes the body at a place out of its bucket.
pub fn body_out(chain: &mut Chain, place: u32) -> BoxedBody
    requires { place < length chain.old.bodies }
    ensures found { slice_get chain.old.bodies place ≡ Some result }
    ensures present { present result.key chain.old.bodies ≡ Some result }
    ensures bodies { chain.new.bodies ≡ without_key result.key chain.old.bodies }
    ensures room { chain.old.spare ≤ chain.new.spare }
{
    match chain.take_out(place) {
        Some(body) => body,
        None => unreachable!(),
    }
}
