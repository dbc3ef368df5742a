//! What a map is asked to be, and what it then is.

use crate::MapKind;

/// What a map is asked to be.
#[derive(Clone, Copy, Debug, PartialEq, Eq)]
pub struct CreateAttr {
    pub kind: MapKind,
    /// Bytes of a key.
    pub key_size: u32,
    /// Bytes of a value, on one CPU.
    pub value_size: u32,
    pub max_entries: u32,
    /// Of `BPF_F_NO_PREALLOC`, `BPF_F_NO_COMMON_LRU` and `BPF_F_ZERO_SEED`.
    pub flags: u32,
    /// The seed of the keys' hash.
    pub seed: u32,
    pub cpus: u32,
}

/// What a created map is. `check_attr` makes each.
#[derive(Clone, Copy, Debug, PartialEq, Eq)]
pub struct Shape {
    pub kind: MapKind,
    /// 1 to 16.
    pub cpus: u32,
    /// How many keys the map can hold.
    pub capacity: u32,
    /// How many elements it has, which are numbered from 0.
    pub elements: u32,
    /// How many buckets it has: a power of two.
    pub buckets: u32,
    /// Bytes of a key, 1 to 512.
    pub key_size: u32,
    /// Bytes of a value on one CPU, 1 to 4,096.
    pub value_size: u32,
    /// The seed of the keys' hash.
    pub seed: u32,
    /// Whether the CPUs of an evicting map share its lists.
    pub common: bool,
}
