//! Makes the calls of a script that has a generator line.
#![tactic(auto)]

mod bytes;
mod draws;
mod mixes;
mod verbs;
mod workload;

pub use workload::generate;
