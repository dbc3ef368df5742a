//! A call on a map.

use crate::{Bytes, List, Pairs, Side};

/// A call on a CPU.
#[derive(Drop)]
pub struct Call {
    pub cpu: u32,
    pub verb: Verb,
}

/// What a call does.
#[derive(Drop)]
pub enum Verb {
    Lookup {
        side: Side,
        key: Bytes,
    },
    /// `flags`: BPF_ANY is 0, BPF_NOEXIST is 1, BPF_EXIST is 2.
    Update {
        side: Side,
        flags: u32,
        key: Bytes,
        value: Bytes,
    },
    Delete {
        key: Bytes,
    },
    /// Lookup and delete in one.
    Take {
        key: Bytes,
    },
    /// The key after this one, or the first.
    Next {
        key: Option<Bytes>,
    },
    /// Whole buckets from `start` on, which are emptied where `remove` is set.
    BatchRead {
        remove: bool,
        count: u32,
        start: Option<u32>,
        flags: u32,
    },
    BatchUpdate {
        flags: u32,
        pairs: Pairs,
    },
    BatchDelete {
        flags: u32,
        keys: List<Bytes>,
    },
    /// A walk over all elements, in the order of buckets, which hands each to a callback: up to and including this key, or over
    /// all, as also where the key isn't there.
    Each {
        flags: u32,
        stop: Option<Bytes>,
    },
}
