//! The rotation of a list set, as the kernel's `__bpf_lru_list_rotate`: it gives elements that were used a second chance.
#![tactic(auto)]

mod active;
mod inactive;
mod rotation;

pub use rotation::rotate;
