//! A report is read back into the record that it tells.
#![tactic(auto)]

mod bucket_part;
mod claims;
mod dump_lines;
mod finals;
mod free_part;
mod head_lines;
mod hexadecimal;
mod histories;
mod history;
mod lines;
mod list_part;
mod lock_names;
mod many;
mod numbers;
mod pairs;
mod record;
mod refusal;
mod replies;
mod reply;
mod sections;
mod starts;
mod strand_lines;
mod strands;
mod text_lines;
mod to_end;
mod values;
mod visits;
mod words;

pub use claims::reading_laws;
pub use record::read_record;
pub use refusal::RecordRefusal;
