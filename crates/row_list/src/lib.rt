//! Lists of rows, each an element with the stored hash of its key: what the lists of an evicting map are made of.
#![tactic(auto)]

mod moves;
mod plain;
mod rows;

pub use map_types::Row;
pub use moves::{RowMove, replay};
pub use plain::PlainRows;
pub use rows::Rows;
