//! What the lists of a closed table leave, read of what lay under the locks before the buckets.

ghost use Rattle.std.specs.Prelude.{◌≡◌, ◌∷◌, ◌<◌, [], IfOk, None, drop, length, map, slice_index_or, take};
ghost use Rattle.map_types.specs.Creation.{IsShape};
ghost use Rattle.place_words.specs.Bodies.{numbers};
ghost use Rattle.place_words.specs.Locals.{new_locals};
ghost use Rattle.place_words.specs.Logs.{final_set, final_local};
ghost use Rattle.place_words.specs.Sets.{new_set};
ghost use Rattle.local_lists.specs.LocalLists.{local_told};
ghost use Rattle.place_table.specs.Contents.{set_told};
ghost use Rattle.place_table.specs.Leaving.{all_locals_in, locals_in, set_in, sets_in};

use crate::content::{Content, Listing};
use local_lists::LocalSet;
use lru_lists::{ListName, ListSet};
use map_types::{List, NoMemory, Numbers, Shape};
use place_words::{LocalFinal, SetFinal};
use row_list::Rows;
use std::alloc::Global;
use std::mem;

/// The list sets of the CPUs, or the one that they share, and their local lists.
#[derive(Drop)]
pub(crate) struct ListsLeft {
    pub(crate) sets: Vec<SetFinal>,
    pub(crate) locals: Vec<LocalFinal>,
}

/// Of a map that evicts the list sets of the CPUs, or the one that they share and their local lists; of another map none. What lay under
/// the locks is gone then, with the memory that the rows had, but for the bodies of free elements, which stay where they are.
pub(crate) fn lists_left(
    alloc: Global,
    shape: &Shape,
    lists: Vec<Option<Content>>,
) -> Result<ListsLeft, NoMemory>
    requires shape { IsShape shape.now }
    requires counted { shape.now.cpus < length lists.items }
    ensures sets { IfOk result (λ left. left.sets.items ≡ sets_in shape.now lists.items) }
    ensures locals { IfOk result (λ left. left.locals.items
        ≡ all_locals_in shape.now lists.items) }
{
    if shape.common {
        shared_left(alloc, lists, shape.cpus as usize)
    } else if shape.kind.is_lru() {
        Ok(ListsLeft {
            sets: sets_left(alloc, lists, shape.cpus as usize + 1)?,
            locals: Vec::new(alloc),
        })
    } else {
        Ok(ListsLeft {
            sets: Vec::new(alloc),
            locals: Vec::new(alloc),
        })
    }
}

/// The list set that the CPUs share, which stands at this place, and their local lists, which stand before it.
fn shared_left(
    alloc: Global,
    mut contents: Vec<Option<Content>>,
    cpus: usize,
) -> Result<ListsLeft, NoMemory>
    requires within { cpus < length contents.items }
    ensures sets { IfOk result (λ lists. lists.sets.items
        ≡ set_in (slice_index_or contents.items cpus None) ∷ []) }
    ensures locals { IfOk result (λ lists. lists.locals.items
        ≡ map locals_in (take cpus contents.items)) }
{
    let shared = contents[cpus].take();
    Ok(ListsLeft {
        sets: vec![in alloc; set_left(alloc, shared)?]?,
        locals: locals_left(alloc, contents, cpus)?,
    })
}

/// The local lists, which stand up to one place.
fn locals_left(
    alloc: Global,
    mut contents: Vec<Option<Content>>,
    past: usize,
) -> Result<Vec<LocalFinal>, NoMemory>
    ensures { IfOk result (λ locals. locals.items ≡ map locals_in (take past contents.items)) }
{
    contents.truncate(past);
    let mut locals = Vec::new(alloc);
    for content in contents {
        locals.push(local_left(alloc, content)?)?;
    }
    Ok(locals)
}

/// The elements of local lists, and their steal cursor.
fn local_left(alloc: Global, content: Option<Content>) -> Result<LocalFinal, NoMemory>
    ensures { IfOk result (λ local. local ≡ locals_in content) }
{
    match content {
        Some(Content::Local(lists)) => lists_of_cpu(alloc, lists),
        _ => Ok(no_locals(alloc)),
    }
}

/// Local lists without elements.
fn no_locals(alloc: Global) -> LocalFinal
    ensures { result ≡ final_local (new_locals 0) }
{
    LocalFinal {
        free: List::of(Vec::new(alloc)),
        pending: List::of(Vec::new(alloc)),
        steal: 0,
    }
}

/// The elements of local lists, and their steal cursor.
fn lists_of_cpu(alloc: Global, lists: LocalSet<Listing>) -> Result<LocalFinal, NoMemory>
    ensures { IfOk result (λ told. told ≡ final_local (local_told lists)) }
{
    Ok(LocalFinal {
        pending: lists.pending().elements(alloc)?,
        steal: lists.steal_cursor(),
        free: local_free_left(alloc, lists)?,
    })
}

/// The free elements of local lists, head first. Their bodies stay where they are: a run ends soon, and the system takes back all
/// memory at once.
fn local_free_left(alloc: Global, mut lists: LocalSet<Listing>) -> Result<Numbers, NoMemory>
    ensures { IfOk result (λ elements. elements ≡ numbers lists.free.bodies) }
{
    let mut elements = Vec::new(alloc);
    while let Some(body) = lists.pop_free() {
        elements.push(body.body().element())?;
        mem::forget(body);
    }
    Ok(List::of(elements))
}

/// The list sets, which stand from one place on.
fn sets_left(
    alloc: Global,
    contents: Vec<Option<Content>>,
    first: usize,
) -> Result<Vec<SetFinal>, NoMemory>
    ensures { IfOk result (λ sets. sets.items ≡ map set_in (drop first contents.items)) }
{
    let mut sets = Vec::new(alloc);
    for content in contents.into_iter().skip(first) {
        sets.push(set_left(alloc, content)?)?;
    }
    Ok(sets)
}

/// The elements of a list set, and its cursor.
fn set_left(alloc: Global, content: Option<Content>) -> Result<SetFinal, NoMemory>
    ensures { IfOk result (λ set. set ≡ set_in content) }
{
    match content {
        Some(Content::Set(set)) => own_left(alloc, set),
        _ => Ok(no_set(alloc)),
    }
}

/// A list set without elements, with its cursor at the mark.
fn no_set(alloc: Global) -> SetFinal
    ensures { result ≡ final_set (new_set []) }
{
    SetFinal {
        active: List::of(Vec::new(alloc)),
        inactive: List::of(Vec::new(alloc)),
        free: List::of(Vec::new(alloc)),
        cursor: None,
    }
}

/// The elements of a list set, and its cursor.
fn own_left(alloc: Global, set: ListSet<Listing>) -> Result<SetFinal, NoMemory>
    ensures { IfOk result (λ told. told ≡ final_set (set_told set)) }
{
    Ok(SetFinal {
        active: set.rows(ListName::Active).elements(alloc)?,
        inactive: set.rows(ListName::Inactive).elements(alloc)?,
        cursor: set.cursor(),
        free: free_left(alloc, set)?,
    })
}

/// The free elements of a list set, head first. Their bodies stay where they are.
fn free_left(alloc: Global, mut set: ListSet<Listing>) -> Result<Numbers, NoMemory>
    ensures { IfOk result (λ elements. elements ≡ numbers set.free.bodies) }
{
    let mut elements = Vec::new(alloc);
    while let Some(body) = set.free_pop() {
        elements.push(body.body().element())?;
        mem::forget(body);
    }
    Ok(List::of(elements))
}
