//! The opening contents of a map.

ghost use Rattle.std.specs.Prelude.{◌≡◌, ◌+◌, ◌≤◌, ◌++◌, ◌<◌, ◌^◌, ◌==◌, length, map, position, slice_index_or, filter, IfOk, IfSome, OnOk};
ghost use Rattle.std.specs.List.{range_with_len};
ghost use Rattle.map_types.specs.Creation.{IsShape};
ghost use Rattle.map_types.specs.declared.attr.Shape as shapes;
ghost use Rattle.place_words.specs.declared.owner.Owner.TheVariants as owner_names;
ghost use Rattle.place_words.specs.Openings.{is_free, opening_stack, opening_spares, opening_owner, opening_free};
ghost use Rattle.place_words.specs.OpeningState.{AreOpeningOwners, opening_home};
ghost use Rattle.place_words.specs.Shares.{pushed_from};

use crate::shares::share;
use crate::{Home, Owner, is_free, is_lock};
use map_types::{DomainId, MapKind, NoMemory, Numbers, Shape};
use std::alloc::Global;

/// Adds so many elements from one on, the last of them first: as they lie where each is pushed at the head.
fn push_from(list: &mut Vec<u32>, first: u32, count: u32) -> Result<(), NoMemory>
    requires { first + count < 2 ^ 32 }
    ensures { OnOk result (list.new.items ≡ list.old.items ++ pushed_from first count) }
{
    let mut left = count;
    while left > 0 {
        left -= 1;
        list.push(first + left)?;
    }
    Ok(())
}

/// A CPU's share, as it lies on its stack at first.
fn stack(alloc: Global, shape: &Shape, cpu: u32) -> Result<Vec<u32>, NoMemory>
    requires shape { IsShape shape.now }
    requires cpu { cpu < shape.now.cpus }
    ensures { IfOk result (λ list. list.items ≡ opening_stack shape.now cpu) }
{
    let (first, count) = share(shape.elements, shape.cpus, cpu);
    let mut list = Vec::new(alloc);
    push_from(&mut list, first, count)?;
    Ok(list)
}

/// The spare elements of the CPUs of a map of kind HASH, by CPU.
pub fn spares_at_first(alloc: Global, shape: &Shape) -> Result<Vec<u32>, NoMemory>
    requires { IsShape shape.now }
    ensures { IfOk result (λ list. list.items ≡ opening_spares shape.now) }
{
    let mut list = Vec::new(alloc);
    for cpu in 0..shape.cpus {
        list.extend_from_slice(stack(alloc, shape, cpu)?.as_slice())?;
    }
    list.truncate(shape.cpus as usize);
    Ok(list)
}

/// The first index of an element.
fn index_of(element: u32, elements: &[u32]) -> Option<usize>
    ensures exact { result ≡ position (λ x. x == element) elements.now }
    ensures within { IfSome result (λ i. i < length elements.now) }
{
    elements.iter().position(|x| *x == element)
}

/// Who has an element at first.
#[tactic(auto, unfolding(crate::specs::Openings::opening_owner))]
fn owner_at_first(kind: MapKind, spares: &[u32], element: u32) -> Owner
    requires { length spares.now < 2 ^ 32 }
    ensures { (shape : shapes.Shape) → opening_spares shape ≡ spares.now
        → result ≡ opening_owner shape kind element }
{
    match kind {
        MapKind::Hash => match index_of(element, spares) {
            Some(cpu) => Owner::Hand(cpu as u32),
            None => Owner::Free,
        },
        MapKind::PercpuHash | MapKind::LruHash | MapKind::LruPercpuHash => Owner::Free,
    }
}

/// Where the home of an element is at first.
#[tactic(auto, unfolding(crate::specs::OpeningState::opening_home))]
pub fn home_at_first(shape: &Shape, element: u32) -> Home
    requires shape { IsShape shape.now }
    requires element { element < shape.now.elements }
    ensures { result ≡ opening_home shape.now element }
{
    if shape.common {
        Home::In(DomainId::Global)
    } else if shape.kind.is_lru() {
        Home::In(DomainId::CpuLru(element / (shape.elements / shape.cpus)))
    } else {
        Home::Unlisted
    }
}

/// Elements pushed as above, of which those that aren't free are left out.
fn only_free(alloc: Global, owners: &[Owner], first: u32, count: u32) -> Result<Numbers, NoMemory>
    requires within { first + count ≤ length owners.now }
    requires few { length owners.now < 2 ^ 32 }
    ensures { IfOk result (λ list. list
        ≡ filter (λ e. is_free (slice_index_or owners.now e owner_names.Free))
        (pushed_from first count)) }
{
    let mut list = Vec::new(alloc);
    let mut left = count;
    while left > 0 {
        left -= 1;
        let element = first + left;
        if is_free(owners[element as usize]) {
            list.push(element)?;
        }
    }
    Ok(Numbers::of(list))
}

/// What is free under a lock at first, the head first.
pub fn free_at_first(
    alloc: Global,
    shape: &Shape,
    owners: &[Owner],
    lock: DomainId,
) -> Result<Numbers, NoMemory>
    requires shape { IsShape shape.now }
    requires owners { AreOpeningOwners shape.now owners.now }
    ensures { IfOk result (λ list. list ≡ opening_free shape.now lock) }
{
    if !is_lock(shape, lock) {
        return Ok(Numbers::of(Vec::new(alloc)));
    }
    match lock {
        DomainId::Local(_) => Ok(Numbers::of(Vec::new(alloc))),
        DomainId::Bucket(_) => Ok(Numbers::of(Vec::new(alloc))),
        DomainId::Global => only_free(alloc, owners, 0, shape.elements),
        DomainId::CpuLru(cpu) => {
            let (first, count) = share(shape.elements, shape.cpus, cpu);
            only_free(alloc, owners, first, count)
        }
        DomainId::Freelist(cpu) => {
            let (first, count) = share(shape.elements, shape.cpus, cpu);
            only_free(alloc, owners, first, count)
        }
    }
}

/// Who has each element at first.
pub fn owners_at_first(alloc: Global, shape: &Shape) -> Result<Vec<Owner>, NoMemory>
    requires { IsShape shape.now }
    ensures { IfOk result (λ owners. owners.items
        ≡ map (opening_owner shape.now shape.now.kind) (range_with_len 0 shape.now.elements)) }
{
    let spares = spares_at_first(alloc, shape)?;
    let mut owners = Vec::new(alloc);
    for element in 0..shape.elements {
        owners.push(owner_at_first(shape.kind, spares.as_slice(), element))?;
    }
    Ok(owners)
}
