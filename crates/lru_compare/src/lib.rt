//! Strict recency: what a map that evicts would have kept, and answered, if it always evicted the pair that was used least
//! recently.
#![tactic(auto)]

mod cache;
mod comparison;
mod run;

pub use comparison::comparison_of;
pub use run::{StrictOut, StrictRefusal, strict_run};
