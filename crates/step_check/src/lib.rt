//! Whether the turns of a record, in the order of their tickets, are a run of the core.
#![tactic(auto)]

mod change;
mod first_words;
mod flaw;
mod flushes;
mod laws;
mod list_parts;
mod locks;
mod outer;
mod owners;
mod parts;
mod places;
mod rehome;
mod takes;
mod turn;
mod words;

pub use flaw::step_flaw;
pub use laws::step_laws;
