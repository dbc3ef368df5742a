//! Which call of a record is the first that hasn't its trace.
#![tactic(auto)]

mod changes;
mod evicting_trace;
mod flaw;
mod gone;
mod histories;
mod judge;
mod laws;
mod moved;
mod order;
mod seen_rows;
mod spares;
mod steps;
mod strand_of;
mod trace;

pub use flaw::call_flaw;
pub use laws::call_laws;
pub use spares::last_spares;
