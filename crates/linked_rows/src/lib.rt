//! Lists of rows that are linked through an array of cells, so that each call takes the same time however long the list
//! is.
#![tactic(auto)]

mod cells;
mod linked;

pub use linked::LinkedRows;
