//! What is said of a report and of its record, and what is wrong with a record that isn't one of a run, part by part.
#![tactic(auto)]

mod text;
mod verdict;

pub use text::{said_text, verdict_text};
pub use verdict::{Flaw, Said, Verdict};
