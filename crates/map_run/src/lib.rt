//! Runs scripts of calls on maps, and prints what they answered; and judges what is printed of such runs.
#![tactic(auto)]

mod batch_calls;
mod copy;
mod copy_race;
mod each_call;
mod finish;
mod hold_gate;
mod laws;
mod one_call;
mod phases;
mod race;
mod record;
mod serial;
mod worker;

pub use copy_race::run_copy;
pub use finish::bpfmap;
pub use hold_gate::{Hold, HoldGate};
pub use laws::{cause_law, check_law, copy_law, linear_law, race_law, refused_laws};
pub use map_report::{Finals, Kept, LocalFinal, Options, RunRecord, SetFinal};
pub use race::run_race;
pub use record::{CopyRecord, Finish};
pub use run_ends::{MemSink, MemSource, Sink, Source};
pub use serial::run_serial;
pub use serial_laws::record_laws;
