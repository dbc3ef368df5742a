//! The order in which a CPU without a free element looks at the local lists of the CPUs.
#![tactic(auto)]

mod ring;

pub use ring::{Ring, ring_next};
