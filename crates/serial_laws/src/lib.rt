//! Laws of runs in serial order, over the definitions alone.
#![tactic(auto)]

mod laws;

pub use laws::{record_laws, serial_laws};
