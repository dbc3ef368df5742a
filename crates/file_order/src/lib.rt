//! The replies of all CPUs in the order of the calls that they answer.
#![tactic(auto)]

mod file_order;
mod queue;

pub use file_order::in_file_order;
pub use queue::ReplyQueue;
