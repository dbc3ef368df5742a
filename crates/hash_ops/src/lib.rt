//! HASH and PERCPU_HASH maps over the shared table: lookups, updates, deletes and takes of keys, by passes of different
//! CPUs.
#![tactic(auto)]

mod buckets;
mod calls;
mod free;
mod map;
mod updates;

pub use map::{PlainMap, PlainRefusal};
