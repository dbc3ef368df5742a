//! Which records a report can tell: the well-shaped ones. Each record of a run is one.
#![tactic(auto)]

mod claims;

pub use claims::shape_laws;
