//! Which turns of a strand are a call's on a map that evicts, and its reply.
#![tactic(auto)]

mod batch_reads;
mod batch_writes;
mod call_reader;
mod chase;
mod element_walks;
mod frees;
mod key_calls;
mod laws;
mod next_key;
mod parts;
mod refill;
mod seen;
mod takes;

pub use call_reader::read_call;
pub use laws::evicting_laws;
pub use seen::{Seen, Seens};
