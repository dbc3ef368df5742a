//! What a map holds at the end of a run.

ghost use Rattle.std.specs.Prelude.{◌≡◌, IfOk};

use crate::copying::{EqualCopy, copy_each, copy_list};
use crate::kept_values::KeptValues;
use map_types::{Bytes, List, NoMemory, Numbers};
use std::alloc::Global;
use std::marker::Model;

/// An element in a bucket, with its key and its value for each part: one for each CPU on the kinds that keep them apart,
/// else one. Contracts see what is stored.
#[derive(Drop)]
pub struct Kept {
    pub element: u32,
    pub key: Bytes,
    pub values: KeptValues,
}

impl Model for Kept {
    ghost use Rattle.map_types.specs.Stored.{Stored};

    ghost Value = { Stored };

    ghost view = { λ k. record { element = k.element; key = k.key; values = k.values } };
}

/// The lists of the global lock, or of a CPU's own list set, head first, and the cursor of the rotation: an inactive
/// element, or none where it stands at the list's mark.
#[derive(Drop)]
pub struct SetFinal {
    pub active: Numbers,
    pub inactive: Numbers,
    pub free: Numbers,
    pub cursor: Option<u32>,
}

/// The local lists of a CPU, head first, and the CPU from which it steals next.
#[derive(Drop)]
pub struct LocalFinal {
    pub free: Numbers,
    pub pending: Numbers,
    pub steal: u32,
}

/// What a map holds: each bucket with its elements, head first; of a map that doesn't evict the CPUs' freelists, top
/// first, and on HASH their spares; of a map that evicts its list sets, the CPUs' local lists, and the elements whose
/// bit is set. Lists that a kind doesn't have are empty.
#[derive(Drop)]
pub struct Finals {
    pub buckets: List<List<Kept>>,
    pub freelists: List<Numbers>,
    pub spares: Numbers,
    pub sets: List<SetFinal>,
    pub locals: List<LocalFinal>,
    pub marked: Numbers,
}

impl EqualCopy for Kept {
    fn copy(&self, alloc: Global) -> Result<Kept, NoMemory> {
        Ok(Kept {
            element: self.element,
            key: self.key.copy(alloc)?,
            values: self.values.copy(alloc)?,
        })
    }
}

impl EqualCopy for List<Kept> {
    fn copy(&self, alloc: Global) -> Result<List<Kept>, NoMemory> {
        copy_each(self, alloc)
    }
}

impl EqualCopy for SetFinal {
    fn copy(&self, alloc: Global) -> Result<SetFinal, NoMemory> {
        Ok(SetFinal {
            active: copy_list(&self.active, alloc)?,
            inactive: copy_list(&self.inactive, alloc)?,
            free: copy_list(&self.free, alloc)?,
            cursor: self.cursor,
        })
    }
}

impl EqualCopy for LocalFinal {
    fn copy(&self, alloc: Global) -> Result<LocalFinal, NoMemory> {
        Ok(LocalFinal {
            free: copy_list(&self.free, alloc)?,
            pending: copy_list(&self.pending, alloc)?,
            steal: self.steal,
        })
    }
}

impl Finals {
    /// Equal ones.
    pub fn copy(&self, alloc: Global) -> Result<Finals, NoMemory>
        ensures { IfOk result (λ copy. copy ≡ self.now) }
    {
        Ok(Finals {
            buckets: copy_each(&self.buckets, alloc)?,
            freelists: copy_each(&self.freelists, alloc)?,
            spares: copy_list(&self.spares, alloc)?,
            sets: copy_each(&self.sets, alloc)?,
            locals: copy_each(&self.locals, alloc)?,
            marked: copy_list(&self.marked, alloc)?,
        })
    }
}
