//! The kinds of map, the sides that a call comes from, and the names of locks.

ghost use Rattle.std.specs.Prelude.{◌≡◌};
ghost use Rattle.map_types.specs.Kind.{is_lru, is_percpu};

/// The kind of a map, with the number that the kernel gives it.
#[derive(Clone, Copy, Debug, PartialEq, Eq)]
pub enum MapKind {
    /// BPF_MAP_TYPE_HASH
    Hash = 1,
    /// BPF_MAP_TYPE_PERCPU_HASH
    PercpuHash = 5,
    /// BPF_MAP_TYPE_LRU_HASH
    LruHash = 9,
    /// BPF_MAP_TYPE_LRU_PERCPU_HASH
    LruPercpuHash = 10,
}

impl MapKind {
    /// Whether a map of this kind evicts.
    pub fn is_lru(self) -> bool
        ensures { result ≡ is_lru self }
    {
        matches!(self, MapKind::LruHash | MapKind::LruPercpuHash)
    }

    /// Whether a map of this kind has a value for each CPU.
    pub fn is_percpu(self) -> bool
        ensures { result ≡ is_percpu self }
    {
        matches!(self, MapKind::PercpuHash | MapKind::LruPercpuHash)
    }
}

/// Where a call comes from: a program on a CPU, or the system call.
#[derive(Clone, Copy, Debug, PartialEq, Eq)]
pub enum Side {
    Prog,
    Sys,
}

/// A lock, by what lies under it.
#[derive(Clone, Copy, Debug, PartialEq, Eq)]
pub enum DomainId {
    /// The local lists of a CPU.
    Local(u32),
    /// The global lists.
    Global,
    /// The list set of a CPU, where each CPU has its own.
    CpuLru(u32),
    /// A bucket, by its number.
    Bucket(u32),
    /// The freelist of a CPU.
    Freelist(u32),
}
