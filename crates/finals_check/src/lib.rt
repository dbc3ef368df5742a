//! What the finals of a record hold: each element in one place, once, and under each lock what its history leads to.
#![tactic(auto)]

mod claims;
mod meeting;
mod told;
mod whole;

pub use claims::telling_laws;
pub use told::{Lies, Lying, finals_told, is_told, spares_told};
pub use whole::finals_whole;
