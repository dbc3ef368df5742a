//! What is kept of a run, and what is asked of its report.

use map_types::{List, Numbers, Reply};
use place_words::{Finals, LockHistory, Strand};

/// How a report is written, and what it has beside the replies.
#[derive(Clone, Copy, Debug, PartialEq, Eq)]
pub struct Options {
    /// What happened under each lock.
    pub history: bool,
    /// What the map holds at the end.
    pub dump: bool,
    /// One JSON object in place of lines.
    pub json: bool,
}

/// The start of a phase, which comes once all calls of the phases before it have ended.
#[derive(Drop)]
pub struct PhaseStart {
    /// How many tickets were drawn before it.
    pub ticket: u64,
    /// The elements whose bit was set then, ascending.
    pub marked: Numbers,
}

/// What is kept of a run.
#[derive(Drop)]
pub struct RunRecord {
    /// The answer to each call, in the script's order.
    pub replies: List<Reply>,
    /// What happened under each lock of the map, in the order of the locks: local lists by CPU, the global
    /// lists, list sets by CPU, buckets by number, freelists by CPU.
    pub histories: List<LockHistory>,
    /// The turns of the CPUs in the order in which they gave the locks back, phase by phase. In serial order all CPUs are in one
    /// strand in each phase. In a race they are where a phase's calls are all of one CPU, or it has none; else each CPU is in a
    /// strand of its own, in ascending order.
    pub strands: List<Strand>,
    /// What the map holds at the end.
    pub finals: Finals,
    /// The start of each phase. A script of version 1 has one phase.
    pub phases: List<PhaseStart>,
}
