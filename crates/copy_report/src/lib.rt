//! The report of a copy of a map into another one.
#![tactic(auto)]

mod laws;
mod outcome;
mod text;

pub use laws::row_laws;
pub use text::copy_text_of;
