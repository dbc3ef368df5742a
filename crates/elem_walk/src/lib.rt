//! The walk over all elements of a map, which hands each to a callback.
#![tactic(auto)]

mod walk;

pub use walk::{ElemWalk, Handed, WalkRefusal};
