//! The histories of the local lists of a CPU, replayed: the first turn that wasn't allowed where it stands, or what lies there
//! after all of them.
#![tactic(auto)]

mod allowed;
mod lists;
mod notes;
mod replay;
mod walks;

pub use replay::{ReplayedLocals, replay_local};
