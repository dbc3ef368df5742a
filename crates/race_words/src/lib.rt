//! Records of races whose turns, in the order of their tickets, are runs of the core.
#![tactic(auto)]

mod laws;

pub use laws::race_laws;
