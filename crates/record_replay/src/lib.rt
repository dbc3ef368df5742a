//! The history of a lock is replayed by the rules: which of its turns is the first that could not have been made there, and where
//! there is none, what lies under the lock at the end.
#![tactic(auto)]

mod bucket;
mod changes;
mod claims;
mod freelist;
mod listed;
mod reads;
mod updates;
mod walks;

pub use bucket::replay_bucket;
pub use claims::replay_laws;
pub use freelist::replay_freelist;
