//! What one turn of the lock of an LRU list did.

use crate::copying::{EqualCopy, copy_list, copy_option};
use crate::visits::{Flush, Look, ShrinkNote, Try, Visit};
use map_types::{List, NoMemory, Numbers};
use std::alloc::Global;

/// What one turn of the lock of a CPU's local lists did.
#[derive(Drop)]
pub enum LocalPart {
    /// The head of the local free list went to pending with this hash.
    Pop {
        hash: u32,
        element: u32,
    },
    /// The local free list was empty. All pending elements were flushed, tail first, with their bits. `gained` came to
    /// the local free list, in this order, and `got`, the last of them, went on to pending with this hash.
    Refill {
        hash: u32,
        flushed: List<Visit>,
        gained: Numbers,
        got: Option<u32>,
    },
    /// A CPU that found nothing of its own looked here for an element, which it took or didn't find. `first` is the walk over
    /// pending that spares set bits, and `second` the one that spares none.
    Steal {
        got: Stolen,
        first: List<Look>,
        second: List<Try>,
    },
    /// A stolen element came to pending with this hash, and the CPU from which the next theft starts is `cursor`.
    Add {
        hash: u32,
        element: u32,
        cursor: u32,
    },
    /// An element was to be freed: `done` where it was pending here and went to the local free list, else nothing changed.
    Push {
        element: u32,
        done: bool,
    },
}

/// What was stolen.
#[derive(Clone, Copy, Debug, PartialEq, Eq)]
pub enum Stolen {
    /// The head of the free list.
    Free(u32),
    /// A pending element that a probe removed.
    Pending(u32),
    Nothing,
}

/// What one turn of the global lists' lock did.
#[derive(Drop)]
pub enum GlobalPart {
    /// Elements were flushed from a CPU's pending list, the lists rotated, `free` moved off the head of the free list, and
    /// where these were too few, the lists were shrunk.
    Turn {
        flushed: List<Flush>,
        active: List<Visit>,
        inactive: List<Visit>,
        free: Numbers,
        shrink: Option<ShrinkNote>,
    },
    /// An element was freed.
    Push {
        element: u32,
    },
}

/// What one turn of the lock of a CPU's own list set did, where CPUs don't share their lists.
#[derive(Drop)]
pub enum OwnPart {
    /// The lists rotated, were shrunk where the free list was empty, and the head of the free list went to inactive with
    /// this hash.
    Turn {
        hash: u32,
        active: List<Visit>,
        inactive: List<Visit>,
        shrink: Option<ShrinkNote>,
        got: Option<u32>,
    },
    /// An element was freed.
    Push {
        element: u32,
    },
}

impl EqualCopy for LocalPart {
    fn copy(&self, alloc: Global) -> Result<LocalPart, NoMemory> {
        match self {
            LocalPart::Pop { hash, element } => Ok(LocalPart::Pop {
                hash: *hash,
                element: *element,
            }),
            LocalPart::Refill {
                hash,
                flushed,
                gained,
                got,
            } => Ok(LocalPart::Refill {
                hash: *hash,
                flushed: copy_list(flushed, alloc)?,
                gained: copy_list(gained, alloc)?,
                got: *got,
            }),
            LocalPart::Steal { got, first, second } => Ok(LocalPart::Steal {
                got: *got,
                first: copy_list(first, alloc)?,
                second: copy_list(second, alloc)?,
            }),
            LocalPart::Add {
                hash,
                element,
                cursor,
            } => Ok(LocalPart::Add {
                hash: *hash,
                element: *element,
                cursor: *cursor,
            }),
            LocalPart::Push { element, done } => Ok(LocalPart::Push {
                element: *element,
                done: *done,
            }),
        }
    }
}

impl EqualCopy for GlobalPart {
    fn copy(&self, alloc: Global) -> Result<GlobalPart, NoMemory> {
        match self {
            GlobalPart::Turn {
                flushed,
                active,
                inactive,
                free,
                shrink,
            } => Ok(GlobalPart::Turn {
                flushed: copy_list(flushed, alloc)?,
                active: copy_list(active, alloc)?,
                inactive: copy_list(inactive, alloc)?,
                free: copy_list(free, alloc)?,
                shrink: copy_option(shrink, alloc)?,
            }),
            GlobalPart::Push { element } => Ok(GlobalPart::Push { element: *element }),
        }
    }
}

impl EqualCopy for OwnPart {
    fn copy(&self, alloc: Global) -> Result<OwnPart, NoMemory> {
        match self {
            OwnPart::Turn {
                hash,
                active,
                inactive,
                shrink,
                got,
            } => Ok(OwnPart::Turn {
                hash: *hash,
                active: copy_list(active, alloc)?,
                inactive: copy_list(inactive, alloc)?,
                shrink: copy_option(shrink, alloc)?,
                got: *got,
            }),
            OwnPart::Push { element } => Ok(OwnPart::Push { element: *element }),
        }
    }
}
