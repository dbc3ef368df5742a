//! The verbs of generated calls.

ghost use Rattle.std.specs.Prelude.{◌≡◌, ◌<◌, ◌^◌, ◌-◌, IfOk};
ghost use Rattle.workload_gen.specs.Generated.{key_of, update_of, lookup_of, delete_of, round_verb, drawn_verb};

use crate::bytes::little_endian;
use map_types::{Bytes, NoMemory, Shape, Side, Verb};
use std::alloc::Global;

/// The flags of an update of a key, be it there or not.
const BPF_ANY: u32 = 0;

/// What call `i` does on key `k` in a round: an update in rounds of even number, and else a lookup.
pub(crate) fn round_verb(
    alloc: Global,
    shape: &Shape,
    round: u32,
    k: u32,
    i: u32,
) -> Result<Verb, NoMemory>
    requires key { k < 2 ^ 32 - 1 }
    requires call { i < 2 ^ 32 - 1 }
    ensures { IfOk result (λ verb. verb ≡ round_verb shape.now round k i) }
{
    if round % 2 == 0 {
        update_of(alloc, shape, k, i)
    } else {
        lookup_of(alloc, shape, k)
    }
}

/// What call `i` does on key `k` by a choice of eight: three are an update, four a lookup, and one a delete.
pub(crate) fn drawn_verb(
    alloc: Global,
    shape: &Shape,
    choice: u32,
    k: u32,
    i: u32,
) -> Result<Verb, NoMemory>
    requires key { k < 2 ^ 32 - 1 }
    requires call { i < 2 ^ 32 - 1 }
    ensures { IfOk result (λ verb. verb ≡ drawn_verb shape.now choice k i) }
{
    match choice {
        0..=2 => update_of(alloc, shape, k, i),
        3..=6 => lookup_of(alloc, shape, k),
        _ => delete_of(alloc, shape, k),
    }
}

/// Call `i` as an update of key `k`, be it there or not.
fn update_of(alloc: Global, shape: &Shape, k: u32, i: u32) -> Result<Verb, NoMemory>
    requires key { k < 2 ^ 32 - 1 }
    requires call { i < 2 ^ 32 - 1 }
    ensures { IfOk result (λ verb. verb ≡ update_of shape.now k i) }
{
    Ok(Verb::Update {
        side: Side::Prog,
        flags: BPF_ANY,
        key: key_of(alloc, shape, k)?,
        value: little_endian(alloc, i + 1, shape.value_size)?,
    })
}

/// A lookup of key `k`.
fn lookup_of(alloc: Global, shape: &Shape, k: u32) -> Result<Verb, NoMemory>
    requires { k < 2 ^ 32 - 1 }
    ensures { IfOk result (λ verb. verb ≡ lookup_of shape.now k) }
{
    Ok(Verb::Lookup {
        side: Side::Prog,
        key: key_of(alloc, shape, k)?,
    })
}

/// A delete of key `k`.
fn delete_of(alloc: Global, shape: &Shape, k: u32) -> Result<Verb, NoMemory>
    requires { k < 2 ^ 32 - 1 }
    ensures { IfOk result (λ verb. verb ≡ delete_of shape.now k) }
{
    Ok(Verb::Delete {
        key: key_of(alloc, shape, k)?,
    })
}

/// Key `k` of a workload, from 0.
fn key_of(alloc: Global, shape: &Shape, k: u32) -> Result<Bytes, NoMemory>
    requires { k < 2 ^ 32 - 1 }
    ensures { IfOk result (λ key. key ≡ key_of shape.now k) }
{
    little_endian(alloc, k + 1, shape.key_size)
}
