//! The turn of a bucket that a probe makes.

ghost use Rattle.std.specs.Prelude.{◌≡◌, None};
ghost use Rattle.place_words.specs.Bodies.{body_of};
ghost use Rattle.place_words.specs.declared.bucket_part.Seen.TheVariants as seen;
ghost use Rattle.lru_ops.specs.Evictions.{CanProbe, Inside, TakenOut, Ended, EndedWith, Evicted};

use bucket_chain::Chain;
use lru_lists::Probed;
use map_types::DomainId;
use place_table::{Content, Pass, PlaceTable, Points};
use place_words::{Owner, PackedBucket, Part, Seen};
use std::sync::Wait;

/// Probes a bucket for an element, as the kernel's `htab_lru_map_delete_node`: in one turn of its lock the element is taken
/// out where it is there; else its owner word shows in whose hand it is.
pub(crate) fn probe_bucket<R: Wait, G: Points>(
    rt: &R,
    table: &PlaceTable,
    pass: &mut Pass,
    bucket: u32,
    element: u32,
    gate: &G,
) -> Probed
    requires can { CanProbe table.now bucket element pass.old }
    ensures { Evicted table.now bucket element pass.old pass.new result }
{
    let Content::Bucket(chain) = table.take_at(rt, pass, DomainId::Bucket(bucket), gate) else {
        unreachable!()
    };
    look_in(table, pass, bucket, element, chain, gate)
}

/// The same once the bucket is taken.
fn look_in<G: Points>(
    table: &PlaceTable,
    pass: &mut Pass,
    bucket: u32,
    element: u32,
    mut chain: Chain,
    gate: &G,
) -> Probed
    requires inside { Inside table.now bucket element pass.old chain.bodies }
    ensures { Ended table.now bucket element pass.old pass.new result }
{
    match chain.take_element(element) {
        Some(body) => {
            give_removed(table, pass, bucket, element, chain, gate);
            Probed::Removed(body)
        }
        None => Probed::Held(give_held(table, pass, bucket, element, chain, gate)),
    }
}

/// Gives the bucket back without the element, which is in the CPU's hand.
fn give_removed<G: Points>(
    table: &PlaceTable,
    pass: &mut Pass,
    bucket: u32,
    element: u32,
    chain: Chain,
    gate: &G,
)
    requires taken { TakenOut table.now bucket element pass.old chain.bodies }
    ensures { EndedWith table.now bucket element pass.old pass.new seen.Removed }
{
    table.detach(pass, element, bucket);
    let part = Part::Bucket(PackedBucket::evict(element, Seen::Removed));
    table.give_at(
        pass,
        DomainId::Bucket(bucket),
        Content::Bucket(chain),
        Some(part),
        gate,
    );
}

/// Gives the bucket back as it was, with the CPU in whose hand the element is.
fn give_held<G: Points>(
    table: &PlaceTable,
    pass: &mut Pass,
    bucket: u32,
    element: u32,
    chain: Chain,
    gate: &G,
) -> u32
    requires inside { Inside table.now bucket element pass.old chain.bodies }
    requires none { body_of element chain.bodies ≡ None }
    ensures { EndedWith table.now bucket element pass.old pass.new (seen.Held result) }
{
    // What is listed and in no bucket of its hash is in a hand.
    let Owner::Hand(holder) = table.owner_of(pass, element) else {
        unreachable!()
    };
    let held = Part::Bucket(PackedBucket::evict(element, Seen::Held(holder)));
    table.give_at(
        pass,
        DomainId::Bucket(bucket),
        Content::Bucket(chain),
        Some(held),
        gate,
    );
    holder
}
