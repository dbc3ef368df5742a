//! What a run keeps, and its report.
#![tactic(auto)]

mod bucket_part;
mod dump;
mod history;
mod json;
mod lines;
mod list_part;
mod piece;
mod record;
mod reply;
mod summary;
mod text;
mod words;

pub use json::json_of;
pub use place_words::{Finals, Kept, LocalFinal, SetFinal};
pub use record::{Options, PhaseStart, RunRecord};
pub use summary::summary_of;
pub use text::{add_dump_if, add_history_if, add_told, push_shape, text_of};
pub use words::errno_name;
