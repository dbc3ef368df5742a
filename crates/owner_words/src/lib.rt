//! What turns make of the owners of elements.
#![tactic(auto)]

mod laws;

pub use laws::owner_laws;
