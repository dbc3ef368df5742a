//! The list set of an evicting map: active, inactive and free elements, and the cursor of the rotation; and what a rotation
//! and a shrink ask of the bits and the buckets, and note.
#![tactic(auto)]

mod bits;
mod name;
mod notes;
mod set;

pub use bits::{BitCall, Bits, Probe, ProbeCall, Probed};
pub use name::ListName;
pub use notes::{Noted, RotateNotes, ShrinkNotes};
pub use set::ListSet;
