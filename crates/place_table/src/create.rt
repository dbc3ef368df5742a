//! What lies in a table at its opening.

ghost use Rattle.std.specs.Prelude.{◌≡◌, ◌+◌, ◌<◌, ◌≤◌, ◌++◌, ℕ, false, [], length, map, replicate, vec_capacity, All, IfOk, OnOk};
ghost use Rattle.map_types.specs.Creation.{IsShape};
ghost use Rattle.map_types.specs.declared.attr.Shape.{Shape};
ghost use Rattle.map_types.specs.declared.kind.DomainId.{DomainId};
ghost use Rattle.map_types.specs.ElementLists.{times, IsIn};
ghost use Rattle.map_types.specs.Stored.{IsSized};
ghost use Rattle.place_words.specs.Bodies.{numbers};
ghost use Rattle.place_words.specs.Codes.{owner_code, HasOwnerCode};
ghost use Rattle.place_words.specs.Locks.{first_bucket, first_freelist, lock_count};
ghost use Rattle.place_words.specs.Openings.{first_spares};
ghost use Rattle.place_words.specs.Sets.{new_set};
ghost use Rattle.place_words.specs.OpeningState.{AreOpeningOwners};
ghost use Rattle.place_table.specs.Contents.{FitsSet, set_told};
ghost use Rattle.place_table.specs.Opening.{IsFirstContent, IsFirstSlot, AreFirstSlots, AreBodiesOf};
ghost use Rattle.place_table.specs.Rules.{KeptAs};
ghost use Rattle.place_table.specs.SlotTurns.{HasTurns};
ghost use Rattle.place_table.specs.Words.{opening_words, opening_home_codes};

use crate::content::{Behind, Content, Listing, SlotTurns};
use bucket_chain::Chain;
use cpu_freelist::Freelist;
use local_lists::LocalSet;
use lru_lists::ListSet;
use map_types::{DomainId, MapKind, NoMemory, Shape};
use percpu_values::BoxedBody;
use place_words::{
    Entries, Owner, free_at_first, home_at_first, home_code, is_lock, lock_named, owner_code,
    owners_at_first, spares_at_first,
};
use std::alloc::Global;

/// Room for so many turns of a lock is taken at the opening where lists lie under it, since it has many. Memory of this size is a
/// block of its own, which the system doesn't copy to let it grow.
const FIRST_TURNS: usize = 4096;

/// Adds so many zeros.
fn push_zeros(words: &mut Vec<u64>, count: u32) -> Result<(), NoMemory>
    ensures { OnOk result (words.new.items ≡ words.old.items ++ replicate count 0) }
{
    words.resize(words.len() + count as usize, 0)?;
    Ok(())
}

/// Adds the codes of owners.
fn push_codes(words: &mut Vec<u64>, owners: &[Owner]) -> Result<(), NoMemory>
    requires { All HasOwnerCode owners.now }
    ensures { OnOk result (words.new.items ≡ words.old.items ++ map owner_code owners.now) }
{
    for owner in owners {
        words.push(owner_code(*owner))?;
    }
    Ok(())
}

/// Adds the codes of the homes of all elements.
fn push_homes(words: &mut Vec<u64>, shape: &Shape) -> Result<(), NoMemory>
    requires { IsShape shape.now }
    ensures { OnOk result (words.new.items ≡ words.old.items ++ opening_home_codes shape.now) }
{
    for element in 0..shape.elements {
        words.push(home_code(home_at_first(shape, element)))?;
    }
    Ok(())
}

/// How many locks are numbered.
fn count_locks(shape: &Shape) -> u32
    requires { IsShape shape.now }
    ensures { result ≡ lock_count shape.now }
{
    3 * shape.cpus + 1 + shape.buckets
}

/// The words of the locks, of the owners, of the homes, and of the bits, and the one that tickets are drawn from.
pub(crate) fn first_words(
    alloc: Global,
    shape: &Shape,
    owners: &[Owner],
) -> Result<Vec<u64>, NoMemory>
    requires shape { IsShape shape.now }
    requires owners { AreOpeningOwners shape.now owners.now }
    ensures { IfOk result (λ words. words.items ≡ opening_words shape.now) }
{
    let locks = count_locks(shape);
    let count = locks as usize + 3 * shape.elements as usize + 1;
    let mut words = Vec::with_capacity(alloc, count)?;
    push_zeros(&mut words, locks)?;
    push_codes(&mut words, owners)?;
    push_homes(&mut words, shape)?;
    push_zeros(&mut words, shape.elements + 1)?;
    Ok(words)
}

/// The body of an element, in the map's sizes.
fn new_body(alloc: Global, shape: &Shape, element: u32) -> Result<BoxedBody, NoMemory>
    ensures element { IfOk result (λ body. body.element ≡ element) }
    ensures sized { IfOk result (λ body. IsSized shape.now body) }
{
    let parts = if shape.kind.is_percpu() {
        shape.cpus
    } else {
        1
    };
    BoxedBody::create(alloc, element, shape.key_size, parts, shape.value_size)
}

/// A freelist with these elements, the first on top, and with room for all elements of the map.
fn freelist_of(alloc: Global, shape: &Shape, elements: &[u32]) -> Result<Freelist, NoMemory>
    requires { length elements.now ≤ shape.now.elements }
    ensures numbers { IfOk result (λ freelist. numbers freelist.bodies ≡ elements.now) }
    ensures sized { IfOk result (λ freelist. All (IsSized shape.now) freelist.bodies) }
    ensures room { IfOk result (λ freelist. freelist.room ≡ shape.now.elements) }
{
    let mut freelist = Freelist::create(alloc, shape.elements)?;
    let mut left = elements.len();
    while left > 0 {
        left -= 1;
        freelist.push(new_body(alloc, shape, elements[left])?);
    }
    Ok(freelist)
}

/// A list set with these elements free, the first at the head, and with room for all elements of the map.
fn set_of(alloc: Global, shape: &Shape, elements: &[u32]) -> Result<ListSet<Listing>, NoMemory>
    requires few { length elements.now ≤ shape.now.elements }
    requires real { (e : ℕ) → IsIn e elements.now → e < shape.now.elements }
    requires once { (e : ℕ) → times e elements.now ≤ 1 }
    ensures told { IfOk result (λ set. set_told set ≡ new_set elements.now) }
    ensures fits { IfOk result (FitsSet shape.now) }
{
    let mut set = ListSet::create(alloc, shape.elements)?;
    let mut left = elements.len();
    while left > 0 {
        left -= 1;
        set.free_push(new_body(alloc, shape, elements[left])?);
    }
    Ok(set)
}

/// What lies under a lock at first, or nothing where the map has no such lock.
fn first_content(
    alloc: Global,
    shape: &Shape,
    owners: &[Owner],
    lock: DomainId,
) -> Result<Option<Content>, NoMemory>
    requires shape { IsShape shape.now }
    requires owners { AreOpeningOwners shape.now owners.now }
    ensures { IfOk result (λ content. IsFirstContent shape.now lock content) }
{
    if !is_lock(shape, lock) {
        return Ok(None);
    }
    match lock {
        DomainId::Bucket(_) => Ok(Some(Content::Bucket(Chain::empty(alloc)))),
        DomainId::Freelist(_) => {
            let free = free_at_first(alloc, shape, owners, lock)?;
            let freelist = freelist_of(alloc, shape, free.as_slice())?;
            Ok(Some(Content::Freelist(freelist)))
        }
        DomainId::CpuLru(_) | DomainId::Global => {
            let free = free_at_first(alloc, shape, owners, lock)?;
            let set = set_of(alloc, shape, free.as_slice())?;
            Ok(Some(Content::Set(set)))
        }
        DomainId::Local(cpu) => {
            let lists = LocalSet::create(alloc, shape.elements, cpu)?;
            Ok(Some(Content::Local(lists)))
        }
    }
}

/// A slot with this content and this history.
fn slot_with(content: Option<Content>, history: SlotTurns) -> Behind
    ensures content { result.content ≡ content }
    ensures kept { (lock : DomainId) → HasTurns lock [] history → KeptAs lock false [] result }
{
    Behind {
        content,
        history: Some(history),
    }
}

/// No turns yet of a lock, with room for the first ones where the map has the lock.
fn first_entries(alloc: Global, shape: &Shape, lock: DomainId) -> Result<Entries, NoMemory>
    ensures { IfOk result (λ entries. entries ≡ []) }
{
    if !is_lock(shape, lock) {
        return Ok(Entries::none_of(alloc, lock));
    }
    Entries::with_room(alloc, lock, FIRST_TURNS)
}

/// A history without a turn, in the form that a slot keeps of the lock.
fn first_history(alloc: Global, shape: &Shape, lock: DomainId) -> Result<SlotTurns, NoMemory>
    ensures { IfOk result (λ history. HasTurns lock [] history) }
{
    match lock {
        DomainId::Bucket(_) => Ok(SlotTurns::Logged(0)),
        DomainId::Local(_) | DomainId::Global | DomainId::CpuLru(_) | DomainId::Freelist(_) => {
            let entries = first_entries(alloc, shape, lock)?;
            Ok(SlotTurns::Here(Box::new(alloc, entries)?))
        }
    }
}

/// What stands in the slot of a lock at first.
fn first_slot(alloc: Global, shape: &Shape, owners: &[Owner], lock: u32) -> Result<Behind, NoMemory>
    requires shape { IsShape shape.now }
    requires owners { AreOpeningOwners shape.now owners.now }
    ensures { IfOk result (λ behind. IsFirstSlot shape.now lock behind) }
{
    let named = lock_named(shape, lock);
    let history = first_history(alloc, shape, named)?;
    let content = first_content(alloc, shape, owners, named)?;
    Ok(slot_with(content, history))
}

/// Adds what stands at first in the slots whose numbers are from one up to another, after all slots before.
fn push_slots(
    slots: &mut Vec<Behind>,
    alloc: Global,
    shape: &Shape,
    owners: &[Owner],
    first: u32,
    past: u32,
) -> Result<(), NoMemory>
    requires shape { IsShape shape.now }
    requires owners { AreOpeningOwners shape.now owners.now }
    requires ascending { first ≤ past }
    requires room { past ≤ vec_capacity slots.old }
    requires before { AreFirstSlots shape.now first slots.old.items }
    ensures after { OnOk result (AreFirstSlots shape.now past slots.new.items) }
    ensures room { OnOk result (vec_capacity slots.new ≡ vec_capacity slots.old) }
{
    for lock in first..past {
        slots.push_reserved(first_slot(alloc, shape, owners, lock)?);
    }
    Ok(())
}

/// The slot of an empty bucket.
fn bucket_slot(alloc: Global) -> Behind
    ensures { (shape : Shape) (bucket : ℕ) → bucket < shape.buckets
        → IsFirstSlot shape (first_bucket shape + bucket) result }
{
    let content = Content::Bucket(Chain::empty(alloc));
    slot_with(Some(content), SlotTurns::Logged(0))
}

/// Adds what stands at first in the slots of the buckets, after all slots before.
fn push_buckets(slots: &mut Vec<Behind>, alloc: Global, shape: &Shape)
    requires room { first_freelist shape.now ≤ vec_capacity slots.old }
    requires before { AreFirstSlots shape.now (first_bucket shape.now) slots.old.items }
    ensures after { AreFirstSlots shape.now (first_freelist shape.now) slots.new.items }
    ensures room { vec_capacity slots.new ≡ vec_capacity slots.old }
{
    for _ in 0..shape.buckets {
        slots.push_reserved(bucket_slot(alloc));
    }
}

/// What stands in the slots of all locks at first.
pub(crate) fn first_slots(
    alloc: Global,
    shape: &Shape,
    owners: &[Owner],
) -> Result<Vec<Behind>, NoMemory>
    requires shape { IsShape shape.now }
    requires owners { AreOpeningOwners shape.now owners.now }
    ensures { IfOk result (λ slots. AreFirstSlots shape.now (lock_count shape.now) slots.items) }
{
    let first_bucket = 2 * shape.cpus + 1;
    let first_freelist = first_bucket + shape.buckets;
    let count = count_locks(shape);
    let mut slots = Vec::with_capacity(alloc, count as usize)?;
    push_slots(&mut slots, alloc, shape, owners, 0, first_bucket)?;
    push_buckets(&mut slots, alloc, shape);
    push_slots(&mut slots, alloc, shape, owners, first_freelist, count)?;
    Ok(slots)
}

/// No body for any CPU.
pub(crate) fn no_bodies() -> [Option<BoxedBody>; 16]
    ensures { result ≡ replicate 16 None }
{
    [
        None, None, None, None, None, None, None, None, None, None, None, None, None, None, None,
        None,
    ]
}

/// The bodies of some elements, by CPU.
fn bodies_of(
    alloc: Global,
    shape: &Shape,
    elements: &[u32],
) -> Result<[Option<BoxedBody>; 16], NoMemory>
    requires { length elements.now ≤ 16 }
    ensures { IfOk result (λ bodies. AreBodiesOf shape.now elements.now bodies) }
{
    let mut bodies = no_bodies();
    for cpu in 0..elements.len() {
        bodies[cpu] = Some(new_body(alloc, shape, elements[cpu])?);
    }
    Ok(bodies)
}

/// The bodies of the spares at first, by CPU.
pub(crate) fn spare_bodies(
    alloc: Global,
    shape: &Shape,
) -> Result<[Option<BoxedBody>; 16], NoMemory>
    requires { IsShape shape.now }
    ensures { IfOk result (λ spares. AreBodiesOf shape.now
        (first_spares shape.now shape.now.kind) spares) }
{
    match shape.kind {
        MapKind::Hash => {
            let elements = spares_at_first(alloc, shape)?;
            bodies_of(alloc, shape, elements.as_slice())
        }
        MapKind::PercpuHash | MapKind::LruHash | MapKind::LruPercpuHash => Ok(no_bodies()),
    }
}
