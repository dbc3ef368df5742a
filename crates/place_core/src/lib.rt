//! The pure core of a map: a body that does the steps of its CPUs, and the laws of these.
#![tactic(auto)]

mod cells;
mod first_cells;
mod laws;
mod lists;
mod locks;
mod owners;
mod pure_core;
mod refusal;
mod rehome;

pub use laws::{place_laws, reached_laws, step_laws, wait_laws};
pub use place_words::{
    Lists, Step, free_at_first, home_at_first, owners_at_first, spares_at_first,
};
pub use pure_core::Core;
pub use refusal::CoreRefusal;
