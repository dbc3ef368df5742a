//! The ends of a run: bytes that are read, bytes that are written, and both in memory.
#![tactic(auto)]

mod delivery;
mod in_memory;
mod reading;
mod sink;
mod source;

pub use delivery::deliver;
pub use in_memory::{MemSink, MemSource};
pub use reading::{MAX_SCRIPT_BYTES, ReadStop, read_all, read_block};
pub use sink::Sink;
pub use source::Source;
