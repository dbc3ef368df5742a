//! How a run of the program begins and ends, whatever runs its script or judges its report.
#![tactic(auto)]

mod division;
mod finish;
mod judging;
mod laws;
mod record;

pub use finish::{Due, Task, begin};
pub use judging::{Claim, end_judged};
pub use laws::{comparison_law, division_law};
pub use record::{CopyRecord, Finish};
