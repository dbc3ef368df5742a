//! What is wrong with a record, first of its phases and then of its strands.
#![tactic(auto)]

mod claims;
mod phases;
mod strands;

pub use claims::part_laws;
pub use phases::phase_flaw;
pub use strands::{Mark, strand_flaw};
