//! The rules by which a map is created.

ghost use Rattle.std.specs.Prelude.{◌≡◌, ◌+◌, ◌≤◌, None, Some, MatchResult, IfOk};
ghost use Rattle.std.specs.Option.{option_map};
ghost use Rattle.map_types.specs.Creation.{has_flag, flags_refusal, contents_refusal, capacity_of, elements_of, shape_of, pool_of, limit_passed, creation, IsShape};
ghost use Rattle.map_types.specs.Powers.{least_power_from};
ghost use Rattle.map_types.specs.Shape.{HasBounds};

use crate::values::sys_value_len;
use crate::{CreateAttr, CreateRefusal, Limit, MapKind, Shape};

/// A create flag: elements are not to be made in advance, which is refused.
pub const BPF_F_NO_PREALLOC: u32 = 1;

/// A create flag: each CPU of an evicting map has lists of its own.
pub const BPF_F_NO_COMMON_LRU: u32 = 2;

/// A create flag: the seed of the keys' hash is 0.
pub const BPF_F_ZERO_SEED: u32 = 64;

const MAX_CPUS: u32 = 16;

const MAX_ENTRIES: u32 = 65_536;

const MAX_KEY_SIZE: u32 = 512;

const MAX_VALUE_SIZE: u32 = 4_096;

const MAX_POOL: u64 = 268_435_456;

/// Whether a map may be created, and what it then is, after the kernel's `htab_map_alloc_check` and `htab_map_alloc`.
/// The first rule that is broken is the answer, in this order, which is this project's own, as are the limits and the
/// refusals of other flags, of elements that aren't made in advance, and of a seed beside the flag for a seed of 0.
///
/// - `Einval`: a flag that isn't known; `BPF_F_NO_COMMON_LRU` on a kind that doesn't evict.
/// - `BPF_F_NO_PREALLOC`: `Enotsupp` on a kind that evicts, and `Einval` on the others.
/// - `Einval`: no entries, or keys or values of 0 bytes; `BPF_F_ZERO_SEED` with a seed that isn't 0.
/// - `Limit`: the limits, in the order of [`Limit`].
pub fn check_attr(attr: &CreateAttr) -> Result<Shape, CreateRefusal>
    ensures exact { result ≡ creation attr.now }
    ensures shape { IfOk result IsShape }
    ensures bounds { IfOk result HasBounds }
{
    check_flags(attr)?;
    check_contents(attr)?;
    limited_shape(attr)
}

/// Whether the flags are known and go with the kind.
#[tactic(auto, unfolding(crate::specs::Creation::flags_refusal))]
fn check_flags(attr: &CreateAttr) -> Result<(), CreateRefusal>
    ensures { MatchResult result
        (λ _. flags_refusal attr.now ≡ None)
        (λ refusal. flags_refusal attr.now ≡ Some refusal) }
{
    let known = BPF_F_NO_PREALLOC | BPF_F_NO_COMMON_LRU | BPF_F_ZERO_SEED;
    if attr.flags & known != attr.flags {
        return Err(CreateRefusal::Einval);
    }
    if has_flag(attr.flags, BPF_F_NO_COMMON_LRU) && !attr.kind.is_lru() {
        return Err(CreateRefusal::Einval);
    }
    if has_flag(attr.flags, BPF_F_NO_PREALLOC) {
        return Err(if attr.kind.is_lru() {
            CreateRefusal::Enotsupp
        } else {
            CreateRefusal::Einval
        });
    }
    Ok(())
}

/// Whether there is something to hold, and the seed is one that goes with the flags.
#[tactic(auto, unfolding(crate::specs::Creation::contents_refusal))]
fn check_contents(attr: &CreateAttr) -> Result<(), CreateRefusal>
    ensures { MatchResult result
        (λ _. contents_refusal attr.now ≡ None)
        (λ refusal. contents_refusal attr.now ≡ Some refusal) }
{
    if attr.max_entries == 0 || attr.key_size == 0 || attr.value_size == 0 {
        return Err(CreateRefusal::Einval);
    }
    if has_flag(attr.flags, BPF_F_ZERO_SEED) && attr.seed != 0 {
        return Err(CreateRefusal::Einval);
    }
    Ok(())
}

/// The shape, where it passes no limit.
#[tactic(auto, unfolding(crate::specs::Creation::limit_passed, crate::specs::Creation::shape_of))]
fn limited_shape(attr: &CreateAttr) -> Result<Shape, CreateRefusal>
    ensures { MatchResult result
        (λ shape. (limit_passed attr.now ≡ None) × (shape ≡ shape_of attr.now))
        (λ refusal. option_map CreateRefusal.Limit (limit_passed attr.now) ≡ Some refusal) }
{
    if attr.cpus == 0 || attr.cpus > MAX_CPUS {
        return Err(CreateRefusal::Limit(Limit::Cpus));
    }
    if attr.max_entries > MAX_ENTRIES {
        return Err(CreateRefusal::Limit(Limit::Max));
    }
    if attr.key_size > MAX_KEY_SIZE {
        return Err(CreateRefusal::Limit(Limit::Key));
    }
    if attr.value_size > MAX_VALUE_SIZE {
        return Err(CreateRefusal::Limit(Limit::Value));
    }
    let shape = shape_for(attr);
    if pool_len(&shape) > MAX_POOL {
        return Err(CreateRefusal::Limit(Limit::Pool));
    }
    Ok(shape)
}

/// The shape of a map with these attributes.
#[tactic(auto, unfolding(crate::specs::Creation::shape_of))]
fn shape_for(attr: &CreateAttr) -> Shape
    requires some_cpu { 1 ≤ attr.now.cpus }
    requires few_cpus { attr.now.cpus ≤ 16 }
    requires few_entries { attr.now.max_entries ≤ 65536 }
    ensures exact { result ≡ shape_of attr.now }
    ensures bounded { result.elements ≤ 65566 }
{
    let own_lists = has_flag(attr.flags, BPF_F_NO_COMMON_LRU);
    let capacity = capacity_for(attr);
    Shape {
        kind: attr.kind,
        cpus: attr.cpus,
        capacity,
        elements: elements_for(attr.kind, capacity, attr.cpus),
        buckets: buckets_for(capacity),
        key_size: attr.key_size,
        value_size: attr.value_size,
        seed: attr.seed,
        common: attr.kind.is_lru() && !own_lists,
    }
}

/// How many keys a map with these attributes can hold.
fn capacity_for(attr: &CreateAttr) -> u32
    requires some_cpu { 1 ≤ attr.now.cpus }
    requires few_cpus { attr.now.cpus ≤ 16 }
    requires few_entries { attr.now.max_entries ≤ 65536 }
    ensures exact { result ≡ capacity_of attr.now }
    ensures bounded { result ≤ 65550 }
{
    if has_flag(attr.flags, BPF_F_NO_COMMON_LRU) {
        attr.max_entries.next_multiple_of(attr.cpus)
    } else {
        attr.max_entries
    }
}

/// How many elements a map of this kind has.
fn elements_for(kind: MapKind, capacity: u32, cpus: u32) -> u32
    requires few_keys { capacity ≤ 65550 }
    requires few_cpus { cpus ≤ 16 }
    ensures exact { result ≡ elements_of kind capacity cpus }
    ensures bounded { result ≤ 65566 }
{
    match kind {
        MapKind::Hash => capacity + cpus,
        MapKind::PercpuHash | MapKind::LruHash | MapKind::LruPercpuHash => capacity,
    }
}

/// How many buckets a map of this capacity has.
#[tactic(auto, using(crate::proofs::PowerLemmas::least_power_is))]
fn buckets_for(capacity: u32) -> u32
    requires { capacity ≤ 65550 }
    ensures { result ≡ least_power_from capacity }
{
    capacity.next_power_of_two()
}

/// The bytes of the keys and values of all elements.
fn pool_len(shape: &Shape) -> u64
    requires cpus { shape.now.cpus ≤ 16 }
    requires elements { shape.now.elements ≤ 65566 }
    requires key { shape.now.key_size ≤ 512 }
    requires value { shape.now.value_size ≤ 4096 }
    ensures { result ≡ pool_of shape.now }
{
    let value_len = sys_value_len(shape.kind, shape.cpus, shape.value_size);
    u64::from(shape.elements) * u64::from(shape.key_size + value_len)
}

/// Whether a flag is set.
fn has_flag(flags: u32, flag: u32) -> bool
    ensures { result ≡ has_flag flags flag }
{
    flags & flag != 0
}
