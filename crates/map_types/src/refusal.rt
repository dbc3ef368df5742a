//! What a call answers where it gives nothing.

use std::alloc::{AllocError, AllocFailed};
use thiserror::Error;

/// The error that a call on a map answers, as the kernel names it.
#[derive(Clone, Copy, Debug, PartialEq, Eq)]
pub enum Errno {
    /// The key is absent, or there is no further one.
    Enoent = 2,
    /// A map that doesn't evict has no free element left.
    E2big = 7,
    /// An evicting map found no element to evict.
    Enomem = 12,
    /// The key is present, and was to be new.
    Eexist = 17,
    /// A flag that isn't known.
    Einval = 22,
    /// A bucket doesn't fit in what is left of a batch.
    Enospc = 28,
}

/// Memory for the answer was not found. It is made from an allocator's error alone, which it keeps.
#[derive(Clone, Copy, Debug, PartialEq, Eq)]
pub struct NoMemory {
    cause: AllocError,
}

impl From<AllocError> for NoMemory {
    ghost from_gives = { λ _ _. Unit {0} };

    fn from(cause: AllocError) -> NoMemory {
        NoMemory { cause }
    }
}

impl<T: Drop> From<AllocFailed<T>> for NoMemory {
    ghost from_gives = { λ _ _. Unit {0} };

    fn from(error: AllocFailed<T>) -> NoMemory {
        NoMemory {
            cause: error.into(),
        }
    }
}

/// The key is not in the map (ENOENT).
#[derive(Clone, Copy, Debug, PartialEq, Eq)]
pub struct Absent;

/// A read or a write failed.
#[derive(Clone, Copy, Debug, PartialEq, Eq)]
pub struct Failed;

/// The limit that a map would pass.
#[derive(Clone, Copy, Debug, PartialEq, Eq)]
pub enum Limit {
    /// 1 to 16 CPUs.
    Cpus,
    /// At most 65,536 entries.
    Max,
    /// Keys of at most 512 bytes.
    Key,
    /// Values of at most 4,096 bytes.
    Value,
    /// At most 268,435,456 bytes of keys and values in all elements.
    Pool,
}

/// Why a map is not created.
#[derive(Clone, Copy, Debug, PartialEq, Eq, Error)]
pub enum CreateRefusal {
    #[error("Einval")]
    Einval,
    #[error("Enotsupp")]
    Enotsupp,
    #[error("Limit")]
    Limit(Limit),
}
