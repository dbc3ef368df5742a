//! Turns of a bucket that leave it as it is: one looks at its head, another at what follows a key.

ghost use Rattle.std.specs.Prelude.{◌≡◌, ◌<◌, false, All, Some, length, option_map, slice_get};
ghost use Rattle.map_types.specs.Stored.{Stored};
ghost use Rattle.place_words.specs.declared.bucket_part.BucketPart.TheVariants as turns;
ghost use Rattle.place_words.specs.Bodies.{first_key};
ghost use Rattle.place_words.specs.Buckets.{AllowsNext};
ghost use Rattle.place_table.specs.BucketTurns.{CanEnter};
ghost use Rattle.bucket_walks.specs.Looks.{HasKeyOf, LooksInto, key_where, found_after};
ghost use Rattle.bucket_walks.specs.declared.parts.After.TheVariants as afters;

use crate::parts::{After, first_part, next_part};
use bucket_chain::{Chain, body_at};
use map_types::{DomainId, Gate};
use place_table::{Content, Pass, PlaceTable};
use std::sync::Wait;

/// Looks at the head of a bucket, in one turn: whether there is one, with its key copied to `out`. Else `out` stays.
pub(crate) fn first_in<R: Wait, G: Gate>(
    rt: &R,
    table: &PlaceTable,
    pass: &mut Pass,
    bucket: u32,
    out: &mut [u8],
    gate: &G,
) -> bool
    requires can { CanEnter table.now bucket pass.old }
    requires out { length out.old ≡ table.now.shape.key_size }
    ensures looks { LooksInto table.now bucket pass.old pass.new
        (turns.First (key_where result out.new)) }
    ensures stays { result ≡ false → out.new ≡ out.old }
    ensures sized { length out.new ≡ length out.old }
{
    let chain = table.enter_bucket(rt, pass, bucket, gate);
    let found = copy_first(&chain, out);
    let part = first_part(table.alloc(), found, out);
    table.give(
        pass,
        DomainId::Bucket(bucket),
        Content::Bucket(chain),
        part.ok(),
        gate,
    );
    found
}

/// A key, and the number of its bucket.
#[derive(Clone, Copy)]
pub(crate) struct BucketKey<'a> {
    pub(crate) bucket: u32,
    pub(crate) key: &'a [u8],
}

/// Looks at what follows a key in its bucket, in one turn. The key that does is copied to `out`. Where there is none, `out` stays.
pub(crate) fn next_in<R: Wait, G: Gate>(
    rt: &R,
    table: &PlaceTable,
    pass: &mut Pass,
    from: BucketKey,
    out: &mut [u8],
    gate: &G,
) -> After
    requires can { CanEnter table.now from.bucket pass.old }
    requires out { length out.old ≡ table.now.shape.key_size }
    ensures looks { LooksInto table.now from.entry.bucket pass.old pass.new
        (turns.Next from.entry.key.now (found_after result out.new)) }
    ensures stays { (result ≡ afters.Key → ⊥) → out.new ≡ out.old }
    ensures sized { length out.new ≡ length out.old }
{
    let chain = table.enter_bucket(rt, pass, from.bucket, gate);
    let after = copy_after(&chain, from.key, out);
    let part = next_part(table.alloc(), from.key, after, out);
    table.give(
        pass,
        DomainId::Bucket(from.bucket),
        Content::Bucket(chain),
        part.ok(),
        gate,
    );
    after
}

/// Copies the first key of a bucket, where there is one.
fn copy_first(chain: &Chain, out: &mut [u8]) -> bool
    requires { All (HasKeyOf (length out.old)) chain.now.bodies }
    ensures first { key_where result out.new ≡ first_key chain.now.bodies }
    ensures stays { result ≡ false → out.new ≡ out.old }
    ensures sized { length out.new ≡ length out.old }
{
    if chain.len() == 0 {
        return false;
    }
    copy_key(chain, 0, out);
    true
}

/// Copies the key that follows another one in its bucket, where there is one.
fn copy_after(chain: &Chain, key: &[u8], out: &mut [u8]) -> After
    requires { All (HasKeyOf (length out.old)) chain.now.bodies }
    ensures follows { AllowsNext key.now (found_after result out.new) chain.now.bodies }
    ensures stays { (result ≡ afters.Key → ⊥) → out.new ≡ out.old }
    ensures sized { length out.new ≡ length out.old }
{
    let count = chain.len();
    let Some(place) = chain.find(key) else {
        return After::Absent;
    };
    if place + 1 == count {
        return After::Last;
    }
    copy_key(chain, place + 1, out);
    After::Key
}

/// Copies the key at a place of a bucket.
fn copy_key(chain: &Chain, place: u32, out: &mut [u8])
    requires there { place < length chain.now.bodies }
    requires sized { All (HasKeyOf (length out.old)) chain.now.bodies }
    ensures key { option_map (λ (body : Stored). body.key) (slice_get chain.now.bodies place)
        ≡ Some out.new }
    ensures sized { length out.new ≡ length out.old }
{
    out.copy_from_slice(body_at(chain, place).key());
}
