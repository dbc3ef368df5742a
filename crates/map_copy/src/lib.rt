//! Plans a copy of a map into another, while calls on it go on: which batch lookup comes next, and when the copy ends.
#![tactic(auto)]

mod laws;
mod plan;

pub use laws::{order_laws, read_laws, script_laws};
pub use plan::Plan;
