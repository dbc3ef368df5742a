//! Lists that change by one element, each made anew.

ghost use Rattle.std.specs.Prelude.{◌≡◌, ℕ, ◌∷◌, ◌↔◌, ◌==◌, nat_lt, position, length, ◌<◌, IsTrue, IfOk, IfSome, MatchBool};
ghost use Rattle.map_types.specs.ElementLists.{times, IsIn, without, neighbour};
ghost use Rattle.place_words.specs.State.{rows};
ghost use Rattle.place_words.specs.Steps.{with_free, without_free, with_row, without_row};

use crate::Lists;
use map_types::{DomainId, NoMemory, Numbers};
use std::alloc::Global;

/// The same list.
fn copied(alloc: Global, elements: &[u32]) -> Result<Numbers, NoMemory>
    ensures { IfOk result (λ list. list ≡ elements.now) }
{
    Ok(Numbers::of(elements.to_vec(alloc)?))
}

/// The list with one more element at its head.
fn with_head(alloc: Global, element: u32, elements: &[u32]) -> Result<Numbers, NoMemory>
    ensures { IfOk result (λ list. list ≡ element ∷ elements.now) }
{
    let mut items = Vec::new(alloc);
    items.push(element)?;
    items.extend_from_slice(elements)?;
    Ok(Numbers::of(items))
}

/// The first index of an element.
pub(crate) fn index_of(element: u32, elements: &[u32]) -> Option<usize>
    ensures exact { result ≡ position (λ x. x == element) elements.now }
    ensures within { IfSome result (λ i. i < length elements.now) }
{
    elements.iter().position(|x| *x == element)
}

/// The list without an element.
fn without(alloc: Global, element: u32, elements: &[u32]) -> Result<Numbers, NoMemory>
    ensures { IfOk result (λ list. list ≡ without element elements.now) }
{
    let mut items = elements.to_vec(alloc)?;
    match index_of(element, elements) {
        Some(i) => {
            items.remove(i);
            Ok(Numbers::of(items))
        }
        None => Ok(Numbers::of(items)),
    }
}

/// The neighbour of an element towards the head.
fn neighbour(element: u32, elements: &[u32]) -> Option<u32>
    ensures { result ≡ neighbour element elements.now }
{
    let mut last = None;
    for x in elements {
        if *x == element {
            return last;
        }
        last = Some(*x);
    }
    None
}

/// Whether an element is in a list.
pub(crate) fn is_in(element: u32, elements: &[u32]) -> bool
    ensures { result ≡ nat_lt 0 (times element elements.now) }
{
    elements.contains(&element)
}

/// Whether an element is listed under a lock, where it has to be.
pub(crate) fn is_listed_if(lru: bool, element: u32, lists: &Lists) -> bool
    ensures { MatchBool result (IsTrue lru → IsIn element (rows lists.now))
        (IsTrue lru × (¬ IsIn element (rows lists.now))) }
{
    if !lru {
        return true;
    }
    if is_in(element, lists.first.as_slice()) {
        return true;
    }
    is_in(element, lists.second.as_slice())
}

/// Whether each number stands equally often in two lists.
pub(crate) fn have_same(alloc: Global, some: &[u32], others: &[u32]) -> Result<bool, NoMemory>
    ensures { IfOk result (λ same. IsTrue same
        ↔ ((e : ℕ) → times e some.now ≡ times e others.now)) }
{
    let mut one = some.to_vec(alloc)?;
    let mut other = others.to_vec(alloc)?;
    one.sort()?;
    other.sort()?;
    Ok(one == other)
}

/// Whether the same elements are listed, or in the bucket, in two lists of a lock.
pub(crate) fn have_same_rows(alloc: Global, some: &Lists, others: &Lists) -> Result<bool, NoMemory>
    ensures { IfOk result (λ same. IsTrue same
        ↔ ((e : ℕ) → times e (rows some.now) ≡ times e (rows others.now))) }
{
    let mut one = some.first.as_slice().to_vec(alloc)?;
    one.extend_from_slice(some.second.as_slice())?;
    let mut other = others.first.as_slice().to_vec(alloc)?;
    other.extend_from_slice(others.second.as_slice())?;
    have_same(alloc, one.as_slice(), other.as_slice())
}

/// The same lists.
pub(crate) fn copied_lists(alloc: Global, lists: &Lists) -> Result<Lists, NoMemory>
    ensures { IfOk result (λ now. now ≡ lists.now) }
{
    Ok(Lists {
        free: copied(alloc, lists.free.as_slice())?,
        first: copied(alloc, lists.first.as_slice())?,
        second: copied(alloc, lists.second.as_slice())?,
        cursor: lists.cursor,
    })
}

/// The lists with an element at the head of the free ones.
pub(crate) fn with_free(alloc: Global, element: u32, lists: &Lists) -> Result<Lists, NoMemory>
    ensures { IfOk result (λ now. now ≡ with_free element lists.now) }
{
    Ok(Lists {
        free: with_head(alloc, element, lists.free.as_slice())?,
        first: copied(alloc, lists.first.as_slice())?,
        second: copied(alloc, lists.second.as_slice())?,
        cursor: lists.cursor,
    })
}

/// The lists without an element among the free ones.
pub(crate) fn without_free(alloc: Global, element: u32, lists: &Lists) -> Result<Lists, NoMemory>
    ensures { IfOk result (λ now. now ≡ without_free element lists.now) }
{
    Ok(Lists {
        free: without(alloc, element, lists.free.as_slice())?,
        first: copied(alloc, lists.first.as_slice())?,
        second: copied(alloc, lists.second.as_slice())?,
        cursor: lists.cursor,
    })
}

/// The lists with an element at the head of those in which a lock lists what isn't free.
pub(crate) fn with_row(
    alloc: Global,
    lock: DomainId,
    element: u32,
    lists: &Lists,
) -> Result<Lists, NoMemory>
    ensures { IfOk result (λ now. now ≡ with_row lock element lists.now) }
{
    let free = copied(alloc, lists.free.as_slice())?;
    let first = match lock {
        DomainId::Local(_) | DomainId::Bucket(_) => {
            with_head(alloc, element, lists.first.as_slice())?
        }
        DomainId::Global | DomainId::CpuLru(_) | DomainId::Freelist(_) => {
            copied(alloc, lists.first.as_slice())?
        }
    };
    let second = match lock {
        DomainId::Global | DomainId::CpuLru(_) => {
            with_head(alloc, element, lists.second.as_slice())?
        }
        DomainId::Local(_) | DomainId::Bucket(_) | DomainId::Freelist(_) => {
            copied(alloc, lists.second.as_slice())?
        }
    };
    Ok(Lists {
        free,
        first,
        second,
        cursor: lists.cursor,
    })
}

/// The lists without an element among those that aren't free. A cursor at it moves towards the head.
pub(crate) fn without_row(alloc: Global, element: u32, lists: &Lists) -> Result<Lists, NoMemory>
    ensures { IfOk result (λ now. now ≡ without_row element lists.now) }
{
    Ok(Lists {
        free: copied(alloc, lists.free.as_slice())?,
        first: without(alloc, element, lists.first.as_slice())?,
        second: without(alloc, element, lists.second.as_slice())?,
        cursor: match lists.cursor {
            Some(at) if at == element => neighbour(element, lists.second.as_slice()),
            cursor => cursor,
        },
    })
}
