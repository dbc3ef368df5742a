//! The turns of a record on one plain map from keys to values.
#![tactic(auto)]

mod laws;

pub use laws::one_map_laws;
