//! Turns that change a bucket.

ghost use Rattle.std.specs.Prelude.{◌≡◌, ◌<◌, IfOk, MatchOption};
ghost use Rattle.map_types.specs.Creation.{IsShape};
ghost use Rattle.map_types.specs.Shape.{HasBounds};
ghost use Rattle.place_words.specs.declared.bucket_part.BucketPart.TheVariants as turns;
ghost use Rattle.place_words.specs.Bodies.{present, without_key};
ghost use Rattle.place_words.specs.Sizes.{AreSized};
ghost use Rattle.record_replay.specs.BucketSteps.{IsBucketStep};

use crate::reads::allows_read;
use bucket_chain::{Chain, body_out};
use map_types::{Bytes, NoMemory, Shape, Side};
use place_words::Seen;
use std::alloc::Global;

/// Takes the body of a key out of its bucket, where it is there.
fn remove_key(chain: &mut Chain, key: &[u8])
    ensures { MatchOption (present key.now chain.old.bodies) (chain.new.bodies ≡ chain.old.bodies)
        (λ _. chain.new.bodies ≡ without_key key.now chain.old.bodies) }
{
    if let Some(place) = chain.find(key) {
        body_out(chain, place);
    }
}

/// Makes a take of a key, where it is allowed.
#[tactic(auto, unfolding(place_words::specs::Buckets::AllowsInBucket, place_words::specs::Buckets::bucket_after))]
pub(crate) fn take(
    alloc: Global,
    shape: &Shape,
    cpu: u32,
    key: &[u8],
    gone: &Option<(u32, Bytes)>,
    chain: &mut Chain,
) -> Result<bool, NoMemory>
    requires shape { IsShape shape.now }
    requires bounds { HasBounds shape.now }
    requires cpu { cpu < shape.now.cpus }
    requires sized { AreSized shape.now chain.old.bodies }
    ensures { IfOk result (IsBucketStep shape.now cpu (turns.Take key.now gone.now) chain.old.bodies chain.new.bodies) }
{
    if !allows_read(alloc, shape, Side::Sys, cpu, key, gone, chain)? {
        return Ok(false);
    }
    if gone.is_some() {
        remove_key(chain, key);
    }
    Ok(true)
}

/// Makes a delete of a key, where it is allowed.
#[tactic(auto, unfolding(place_words::specs::Buckets::AllowsInBucket, place_words::specs::Buckets::bucket_after))]
pub(crate) fn delete(
    shape: &Shape,
    cpu: u32,
    key: &[u8],
    gone: Option<u32>,
    chain: &mut Chain,
) -> bool
    ensures { IsBucketStep shape.now cpu (turns.Delete key.now gone) chain.old.bodies chain.new.bodies result }
{
    let Some(place) = chain.find(key) else {
        return gone.is_none();
    };
    let Some(element) = gone else {
        return false;
    };
    body_out(chain, place).body().element() == element
}

/// Makes a probe of an element, where it is allowed.
#[tactic(auto, unfolding(place_words::specs::Buckets::AllowsInBucket, place_words::specs::Buckets::bucket_after))]
pub(crate) fn evict(shape: &Shape, cpu: u32, element: u32, probed: Seen, chain: &mut Chain) -> bool
    ensures { IsBucketStep shape.now cpu (turns.Evict element probed) chain.old.bodies chain.new.bodies result }
{
    let found = chain.take_element(element).is_some();
    match probed {
        Seen::Removed => found,
        Seen::Held(holder) => !found && holder < shape.cpus && holder != cpu,
    }
}
