//! The words of the command.
#![tactic(auto)]

mod words;

pub use words::{Asked, Mode, WordsStop, asked_of};
