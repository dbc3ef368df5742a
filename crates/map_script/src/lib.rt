//! Scripts in their text form: a map, and calls on it.
#![tactic(auto)]

mod body;
mod calls;
mod copied;
mod fault;
mod front;
mod head;
mod laws;
mod line_error;
mod lines;
mod pieces;
mod places;
mod reading;
mod refusal;
mod script;
mod stage;
mod text;
mod tokens;
mod verbs;

pub use laws::reading_laws;
pub use pieces::{ScriptReader, read_script};
pub use refusal::{Cause, ScriptRefusal};
pub use script::{Form, GenSpec, Script, Target};
pub use text::kind_name;
