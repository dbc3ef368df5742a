//! Tests of two values for equality: of what is recorded of a run, and of replies. A checker of records compares by them what an
//! entry tells with what was computed.
#![tactic(auto)]

mod bucket;
mod finals;
mod history;
mod lists;
mod plain;
mod reply;
mod same;

pub use same::{Same, same_part, same_reply};
