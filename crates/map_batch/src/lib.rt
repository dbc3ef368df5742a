//! Maps of any kind, and the calls on them by passes of different CPUs.
#![tactic(auto)]

mod any_map;
mod take_lru;
mod take_plain;
mod walks;
mod writes;

pub use any_map::AnyMap;
pub use bucket_walks::{BatchOut, BatchRefusal};
pub use walks::{next_key, read_batch};
pub use writes::{BatchCount, WriteRefusal, delete_batch, update_batch};
