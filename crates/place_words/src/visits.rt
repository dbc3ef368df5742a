//! What a rotation, a flush and a shrink saw of the elements that they came by.

use crate::Seen;
use crate::copying::{EqualCopy, copy_list};
use map_types::{List, NoMemory};
use std::alloc::Global;

/// An element that a rotation or a flush came by, and its bit, which it cleared.
#[derive(Clone, Copy, Debug, PartialEq, Eq)]
pub struct Visit {
    pub element: u32,
    pub bit: bool,
}

/// An element that was flushed to the global lists, with the hash of its key and its bit, which was cleared.
#[derive(Clone, Copy, Debug, PartialEq, Eq)]
pub struct Flush {
    pub element: u32,
    pub hash: u32,
    pub bit: bool,
}

/// An element that a walk which spares set bits came by: its bit, and where that isn't set what a probe found.
#[derive(Clone, Copy, Debug, PartialEq, Eq)]
pub struct Look {
    pub element: u32,
    pub bit: bool,
    pub probed: Option<Seen>,
}

/// An element that a walk which spares none came by, and what a probe found.
#[derive(Clone, Copy, Debug, PartialEq, Eq)]
pub struct Try {
    pub element: u32,
    pub probed: Seen,
}

/// A shrink: how many elements it was to free, what it looked at, and, where that freed none, what it then tried by
/// force.
#[derive(Drop)]
pub struct ShrinkNote {
    pub target: u32,
    pub looks: List<Look>,
    pub forced: List<Try>,
}

impl EqualCopy for ShrinkNote {
    fn copy(&self, alloc: Global) -> Result<ShrinkNote, NoMemory> {
        Ok(ShrinkNote {
            target: self.target,
            looks: copy_list(&self.looks, alloc)?,
            forced: copy_list(&self.forced, alloc)?,
        })
    }
}
