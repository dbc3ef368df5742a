//! Equal copies of what keeps memory of its own.

ghost use Rattle.std.specs.Prelude.{◌≡◌, IfOk};

use map_types::{Bytes, List, NoMemory, Numbers};
use std::alloc::Global;

/// What keeps memory of its own, so that a copy may find none.
pub(crate) trait EqualCopy: Sized + Drop {
    /// An equal value.
    fn copy(&self, alloc: Global) -> Result<Self, NoMemory>
        ensures { IfOk result (λ copy. copy ≡ self.now) };
}

impl EqualCopy for Bytes {
    fn copy(&self, alloc: Global) -> Result<Bytes, NoMemory> {
        self.copy(alloc)
    }
}

impl EqualCopy for Numbers {
    fn copy(&self, alloc: Global) -> Result<Numbers, NoMemory> {
        copy_list(self, alloc)
    }
}

impl EqualCopy for (u32, Bytes) {
    fn copy(&self, alloc: Global) -> Result<(u32, Bytes), NoMemory> {
        Ok((self.0, self.1.copy(alloc)?))
    }
}

/// A list of the same small records. One whose elements are shared takes no memory.
pub(crate) fn copy_list<T: Copy>(list: &List<T>, alloc: Global) -> Result<List<T>, NoMemory>
    ensures { IfOk result (λ copy. copy ≡ list.now) }
{
    match list.again() {
        Some(same) => Ok(same),
        None => Ok(List::of(Vec::from_slice(alloc, list.as_slice())?)),
    }
}

/// A list of copies of all elements of a list. One whose elements are shared takes no memory.
pub(crate) fn copy_each<T: EqualCopy>(list: &List<T>, alloc: Global) -> Result<List<T>, NoMemory>
    ensures { IfOk result (λ copy. copy ≡ list.now) }
{
    match list.again() {
        Some(same) => Ok(same),
        None => Ok(List::of(copies_of(alloc, list.as_slice())?)),
    }
}

/// Copies of all of these.
pub(crate) fn copies_of<T: EqualCopy>(alloc: Global, items: &[T]) -> Result<Vec<T>, NoMemory>
    ensures { IfOk result (λ copies. copies.items ≡ items.now) }
{
    let mut copies = Vec::with_capacity(alloc, items.len())?;
    for item in items {
        copies.push(item.copy(alloc)?)?;
    }
    Ok(copies)
}

/// A copy of what is there, if anything is.
pub(crate) fn copy_option<T: EqualCopy>(
    option: &Option<T>,
    alloc: Global,
) -> Result<Option<T>, NoMemory>
    ensures { IfOk result (λ copy. copy ≡ option.now) }
{
    match option {
        Some(item) => Ok(Some(item.copy(alloc)?)),
        None => Ok(None),
    }
}
