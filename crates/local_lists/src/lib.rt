//! The local lists of a CPU of an evicting map whose CPUs share the global lists: free and pending elements, and the cursor
//! of its thefts.
#![tactic(auto)]

mod set;

pub use set::LocalSet;
