//! What a replay of the history of a lock answers: which of its turns is the first that could not have been made there, what lies
//! there at the end where there is none, and what the traces of calls ask of the moments of its turns.
#![tactic(auto)]

mod note;
mod stop;

pub use note::Note;
pub use stop::ReplayStop;
