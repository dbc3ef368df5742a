//! The turns of a record in the order of their tickets.
#![tactic(auto)]

mod laws;

pub use laws::order_laws;
