//! What each side reads and writes of an element's values.

ghost use Rattle.std.specs.Prelude.{◌≡◌, ◌<◌, IsTrue, All, Some, map, if◌then◌else◌, length};
ghost use Rattle.map_types.specs.Kind.{is_percpu};
ghost use Rattle.map_types.specs.Shape.{HasBounds};
ghost use Rattle.map_types.specs.Sides.{part_count, value_read, new_values};
ghost use Rattle.map_types.specs.Stored.{HasSizes, IsSized};
ghost use Rattle.map_types.specs.ValueLen.{value_len_of};
ghost use Rattle.bucket_chain.specs.Places.{place_of_key};
ghost use Rattle.place_words.specs.Buckets.{new_stored, written_over};

use crate::chain::Chain;
use map_types::{Shape, Side};
use percpu_values::{Body, BoxedBody};

/// Copies to `out` what a side reads of a body on a CPU, as `htab_map_lookup_elem` hands it to a program and
/// `bpf_percpu_hash_copy` to the system call.
pub fn read_value(shape: &Shape, side: Side, cpu: u32, body: &Body, out: &mut [u8])
    requires bounds { HasBounds shape.now }
    requires cpu { cpu < shape.now.cpus }
    requires sized { IsSized shape.now body.now }
    requires out { length out.old ≡ value_len_of shape.now side }
    ensures { out.new ≡ value_read shape.now side cpu body.now.values }
{
    if shape.kind.is_percpu() && side == Side::Sys {
        body.values().read_all(out);
    } else {
        body.values().read_own(part_of(shape, cpu), out);
    }
}

/// Makes a body that of a key, with a value that a side writes on a CPU, as in the kernel's `alloc_htab_elem`.
#[inline(always)]
pub fn fill_body(
    shape: &Shape,
    side: Side,
    cpu: u32,
    body: &mut BoxedBody,
    key: &[u8],
    value: &[u8],
)
    requires bounds { HasBounds shape.now }
    requires cpu { cpu < shape.now.cpus }
    requires sized { IsSized shape.now body.old }
    requires key { length key.now ≡ shape.now.key_size }
    requires value { length value.now ≡ value_len_of shape.now side }
    ensures stored { body.new ≡ new_stored shape.now side cpu body.old.element key.now value.now }
    ensures sized { IsSized shape.now body.new }
{
    body.body_mut().set_key(key);
    fill_values(shape, side, cpu, body, value);
}

/// Fills the values of a body that is new in its bucket by one that a side writes on a CPU.
fn fill_values(shape: &Shape, side: Side, cpu: u32, body: &mut BoxedBody, value: &[u8])
    requires bounds { HasBounds shape.now }
    requires cpu { cpu < shape.now.cpus }
    requires sized { IsSized shape.now body.old }
    requires value { length value.now ≡ value_len_of shape.now side }
    ensures { body.new ≡ record body.old { values = new_values shape.now side cpu value.now } }
{
    if shape.kind.is_percpu() && side == Side::Sys {
        body.body_mut().values_mut().init_all(value);
    } else {
        let part = part_of(shape, cpu);
        body.body_mut().values_mut().init_own(part, value);
    }
}

/// Writes a value of a side, on a CPU, over the values of the key at a place, as in the kernel's `pcpu_copy_value`.
pub fn write_value(
    shape: &Shape,
    side: Side,
    cpu: u32,
    chain: &mut Chain,
    place: u32,
    key: &[u8],
    value: &[u8],
)
    requires bounds { HasBounds shape.now }
    requires kind { IsTrue (is_percpu shape.now.kind) }
    requires cpu { cpu < shape.now.cpus }
    requires value { length value.now ≡ value_len_of shape.now side }
    requires sized { All (IsSized shape.now) chain.old.bodies }
    requires place { place_of_key key.now chain.old.bodies ≡ Some place }
    ensures written { chain.new.bodies
        ≡ map (written_over shape.now side cpu key.now value.now) chain.old.bodies }
    ensures sized { All (IsSized shape.now) chain.new.bodies }
{
    match side {
        Side::Prog => chain.write_own(place, cpu, value),
        Side::Sys => chain.write_all(place, value),
    }
}

/// The part of a CPU.
fn part_of(shape: &Shape, cpu: u32) -> u32
    ensures { result ≡ (if is_percpu shape.now.kind then cpu else 0) }
{
    if shape.kind.is_percpu() { cpu } else { 0 }
}
