//! Reads that walk over the buckets of a map of any kind: next key and batch lookups; and how one bucket is read, with which batch
//! takes begin.
#![tactic(auto)]

mod buckets;
mod next;
mod parts;
mod read;
mod room;
mod whole;

pub use next::next_key;
pub use parts::walk_part;
pub use read::{BatchOut, BatchRefusal, BatchRequest, Planned, look_up_batch, plan, read_out};
pub use room::ReadRoom;
pub use whole::read_whole;
