//! Reports are judged: whether the record that a report tells is one of a run, and where it isn't, what is wrong with it first.
#![tactic(auto)]

mod chains;
mod check;
mod claims;
mod histories;
mod lock;
mod reports;
mod stop;

pub use check::check_record;
pub use claims::{history_laws, verdict_laws};
pub use histories::{Replayed, replay_histories};
pub use record_reading::{RecordRefusal, read_record};
pub use reports::judge;
pub use stop::HistoryStop;
