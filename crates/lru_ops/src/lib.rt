//! LRU_HASH and LRU_PERCPU_HASH maps over the shared table: lookups, updates, deletes and takes of keys, by passes of
//! different CPUs, and how elements are taken for new keys and freed.
#![tactic(auto)]

mod buckets;
mod calls;
mod elements;
mod map;
mod own_set;
mod probe;
mod probing;
mod push;
mod refill;
mod shared;
mod steal;
mod taking;
mod updates;

pub use map::{LruMap, LruRefusal};
