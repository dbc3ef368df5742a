//! How a run of the program ended.

use place_table::Closed;

/// How a run of the program ended, with what its table left when it was closed, exactly where the record is there.
pub type Finish = run_endings::Finish<Closed>;

/// What is kept of a copy beside the source's record: what its reads answered, the record of the target, and what the target's table
/// left when it was closed.
pub type CopyRecord = run_endings::CopyRecord<Closed>;
