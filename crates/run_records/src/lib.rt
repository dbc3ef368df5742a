//! What the record of a run is, by what its table left and the pieces into which the strands are cut.
#![tactic(auto)]

mod keeping;
mod pieces;

pub use keeping::{Told, keep};
pub use pieces::Piece;
