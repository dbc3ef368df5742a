//! By their tickets all entries of a record stand in one order. Which entry is the first whose ticket is wrong.
#![tactic(auto)]

mod claims;
mod leasts;
mod tickets;
mod used;

pub use claims::ticket_laws;
pub use tickets::ticket_flaw;
