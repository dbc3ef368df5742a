//! What one turn of a bucket's lock did.

use crate::Kept;
use crate::copying::{EqualCopy, copy_each, copy_option};
use map_types::{Bytes, List, NoMemory, Side};
use std::alloc::Global;

/// What one turn of a bucket's lock did.
#[derive(Drop)]
pub enum BucketPart {
    /// A lookup, and the element that holds the key with the value that was read, as its side reads it.
    Lookup {
        side: Side,
        key: Bytes,
        got: Option<(u32, Bytes)>,
    },
    /// An update. `flags`: BPF_ANY is 0, BPF_NOEXIST is 1, BPF_EXIST is 2. `offer` is the element that was taken before
    /// the bucket, on a map that evicts.
    Update {
        side: Side,
        flags: u32,
        key: Bytes,
        value: Bytes,
        offer: Option<u32>,
        put: Put,
    },
    /// A delete, and the element that held the key.
    Delete {
        key: Bytes,
        gone: Option<u32>,
    },
    /// A lookup and delete in one, and the element that held the key with the value that the system call reads.
    Take {
        key: Bytes,
        gone: Option<(u32, Bytes)>,
    },
    /// What follows a key.
    Next {
        key: Bytes,
        found: NextFound,
    },
    /// The key at the head, none where the bucket is empty.
    First {
        key: Option<Bytes>,
    },
    /// A batch read, or a walk over all elements, comes by with room for so many elements, and takes the whole bucket or
    /// nothing. `remove` says whether it empties the bucket, as a batch may.
    Walk {
        remove: bool,
        room: u32,
        result: Walked,
    },
    /// An element is to be evicted.
    Evict {
        element: u32,
        probed: Seen,
    },
}

/// What an update did.
#[derive(Clone, Copy, Debug, PartialEq, Eq)]
pub enum Put {
    /// The key was absent, and this element holds it now.
    Added(u32),
    /// The key was present, and another element holds it now.
    Replaced { new: u32, old: u32 },
    /// The key was present, and the values of its element were written in place.
    Written(u32),
    /// The key is present, and the flags refuse that.
    Exists,
    /// The key is absent, and the flags refuse that.
    Absent,
    /// The key is absent, and each freelist was found empty when it was looked at.
    Full,
}

/// What follows a key.
#[derive(Drop)]
pub enum NextFound {
    /// The key isn't in the bucket.
    Absent,
    /// It is the last one.
    Last,
    /// The key that follows it.
    Key(Bytes),
}

/// What a batch read, or a walk over all elements, took of a bucket.
#[derive(Drop)]
pub enum Walked {
    /// The bucket has so many elements, which is more than there is room for.
    Over(u32),
    /// All of them in order, each with its key and one value, the one that the system call reads.
    Taken(List<Kept>),
}

/// What a probe of an element found, as in the kernel's `htab_lru_map_delete_node`.
#[derive(Clone, Copy, Debug, PartialEq, Eq)]
pub enum Seen {
    /// It was in its bucket, and was taken out.
    Removed,
    /// It is in the hand of another CPU.
    Held(u32),
}

impl EqualCopy for BucketPart {
    fn copy(&self, alloc: Global) -> Result<BucketPart, NoMemory> {
        match self {
            BucketPart::Lookup { side, key, got } => Ok(BucketPart::Lookup {
                side: *side,
                key: key.copy(alloc)?,
                got: copy_option(got, alloc)?,
            }),
            BucketPart::Update {
                side,
                flags,
                key,
                value,
                offer,
                put,
            } => Ok(BucketPart::Update {
                side: *side,
                flags: *flags,
                key: key.copy(alloc)?,
                value: value.copy(alloc)?,
                offer: *offer,
                put: *put,
            }),
            BucketPart::Delete { key, gone } => Ok(BucketPart::Delete {
                key: key.copy(alloc)?,
                gone: *gone,
            }),
            BucketPart::Take { key, gone } => Ok(BucketPart::Take {
                key: key.copy(alloc)?,
                gone: copy_option(gone, alloc)?,
            }),
            BucketPart::Next { key, found } => Ok(BucketPart::Next {
                key: key.copy(alloc)?,
                found: found.copy(alloc)?,
            }),
            BucketPart::First { key } => Ok(BucketPart::First {
                key: copy_option(key, alloc)?,
            }),
            BucketPart::Walk {
                remove,
                room,
                result,
            } => Ok(BucketPart::Walk {
                remove: *remove,
                room: *room,
                result: result.copy(alloc)?,
            }),
            BucketPart::Evict { element, probed } => Ok(BucketPart::Evict {
                element: *element,
                probed: *probed,
            }),
        }
    }
}

impl EqualCopy for NextFound {
    fn copy(&self, alloc: Global) -> Result<NextFound, NoMemory> {
        match self {
            NextFound::Absent => Ok(NextFound::Absent),
            NextFound::Last => Ok(NextFound::Last),
            NextFound::Key(key) => Ok(NextFound::Key(key.copy(alloc)?)),
        }
    }
}

impl EqualCopy for Walked {
    fn copy(&self, alloc: Global) -> Result<Walked, NoMemory> {
        match self {
            Walked::Over(count) => Ok(Walked::Over(*count)),
            Walked::Taken(elements) => Ok(Walked::Taken(copy_each(elements, alloc)?)),
        }
    }
}
