//! The histories of the lists of evicting maps that CPUs rotate and shrink, replayed: what lies there at the end with the notes of
//! their turns, or which is the first turn that the rules don't allow.
#![tactic(auto)]

mod global;
mod own;
mod pushing;
mod replay;
mod rotating;
mod shrinking;
mod told;

pub use replay::{ReplayedSet, replay_global, replay_own};
