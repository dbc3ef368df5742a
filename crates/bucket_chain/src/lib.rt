//! What lies under a bucket's lock: the list of the bodies whose keys hash to it. Beside it the bucket of a key, the entries of
//! buckets' turns, and what each side reads and writes of an element's values there.
#![tactic(auto)]

mod bodies;
mod cells;
mod chain;
mod parts;
mod values;
mod write;

pub use bodies::{body_at, body_out, bucket_number};
pub use chain::Chain;
pub use parts::{
    BPF_EXIST, BPF_NOEXIST, deleted, lookup_got, lookup_missed, take_got, take_missed, updated,
};
pub use values::{fill_body, read_value, write_value};
pub use write::{TakenBucket, Write};
