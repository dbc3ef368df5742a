//! The pairs of a reply against what buckets' turns tell.

ghost use Rattle.std.specs.Prelude.{◌≡◌, ◌+◌, ◌<◌, ◌≤◌, true, false, drop, length, map, MatchOption, ⊤};
ghost use Rattle.map_types.specs.Pairs.{pair_at};
ghost use Rattle.map_types.specs.Parts.{part_at, values_in};
ghost use Rattle.map_types.specs.Shape.{HasBounds};
ghost use Rattle.place_words.specs.Handing.{program_value};
ghost use Rattle.place_words.specs.Walks.{pair_of};
ghost use Rattle.trace_check.specs.Pairs as told;

use map_types::{Pairs, Shape};
use place_words::Kept;

/// The value of an element, as the system call reads it.
fn system_value(kept: &Kept) -> &[u8]
    ensures { result.now ≡ (pair_of kept.now).1 }
{
    match kept.values.as_slice().first() {
        Some(value) => value.as_slice(),
        None => &[],
    }
}

/// What a program on a CPU reads where the system call reads this.
fn program_value<'a>(shape: &Shape, cpu: u32, value: &'a [u8]) -> &'a [u8]
    requires shape { HasBounds shape.now }
    requires cpu { cpu < shape.now.cpus }
    ensures { result.now ≡ program_value shape.now cpu value.now }
{
    if shape.kind.is_percpu() {
        field(value, shape.cpus, shape.value_size, cpu)
    } else {
        value
    }
}

/// The value in a CPU's field, of values that lie in the fields of so many CPUs.
fn field(fields: &[u8], cpus: u32, size: u32, cpu: u32) -> &[u8]
    requires size { size ≤ 4096 }
    requires few { cpus ≤ 16 }
    requires cpu { cpu < cpus }
    ensures { result.now ≡ part_at cpu (values_in cpus size fields.now) }
{
    let start = (cpu * size.next_multiple_of(8)) as usize;
    let rest = &fields[start.min(fields.len())..];
    &rest[..(size as usize).min(rest.len())]
}

/// The value of an element, as the system call reads it, or a program on a CPU.
fn value_for<'a>(shape: &Shape, reader: Option<u32>, kept: &'a Kept) -> &'a [u8]
    requires shape { HasBounds shape.now }
    requires reader { MatchOption reader ⊤ (λ cpu. cpu < shape.now.cpus) }
    ensures { result.now ≡ (told.pair_for shape.now reader kept.now).1 }
{
    match reader {
        None => system_value(kept),
        Some(cpu) => program_value(shape, cpu, system_value(kept)),
    }
}

/// Whether the pair at an index has this key and value.
fn is_pair(given: &Pairs, i: usize, key: &[u8], value: &[u8]) -> bool
    requires { i < length given.now }
    ensures { result ≡ told.same_pair (key.now, value.now) (pair_at given.now i) }
{
    key == given.key(i) && value == given.value(i)
}

/// Whether a pair of the reply is an element's.
fn is_kept(shape: &Shape, reader: Option<u32>, given: &Pairs, i: usize, kept: &Kept) -> bool
    requires shape { HasBounds shape.now }
    requires reader { MatchOption reader ⊤ (λ cpu. cpu < shape.now.cpus) }
    requires there { i < length given.now }
    ensures { result ≡ told.same_pair (told.pair_for shape.now reader kept.now) (pair_at given.now i) }
{
    is_pair(
        given,
        i,
        kept.key.as_slice(),
        value_for(shape, reader, kept),
    )
}

/// The place behind these elements' pairs in a reply, if they stand there from a place on.
pub fn place_behind(
    shape: &Shape,
    reader: Option<u32>,
    given: &Pairs,
    from: usize,
    all: &[Kept],
) -> Option<usize>
    requires shape { HasBounds shape.now }
    requires reader { MatchOption reader ⊤ (λ cpu. cpu < shape.now.cpus) }
    requires from { from ≤ length given.now }
    ensures { MatchOption result
        (told.are_first (map (told.pair_for shape.now reader) all.now) (drop from given.now) ≡ false)
        (λ place. (told.are_first (map (told.pair_for shape.now reader) all.now) (drop from given.now) ≡ true) × (place ≡ from + length all.now)) }
{
    let mut place = from;
    for kept in all {
        if place >= given.len() || !is_kept(shape, reader, given, place, kept) {
            return None;
        }
        place += 1;
    }
    Some(place)
}
