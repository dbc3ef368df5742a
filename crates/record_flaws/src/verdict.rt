//! What is said of a report and of a record, and why one isn't that of a run.

use map_types::DomainId;

/// What is said of a report.
#[derive(Clone, Copy)]
pub enum Said {
    /// No record has this report: the line at fault, counted from 1.
    Unread { line: u32 },
    /// The report is that of a record, of which this is the verdict.
    Judged(Verdict),
}

/// What is said of a record.
#[derive(Clone, Copy)]
pub enum Verdict {
    /// It is a record of its script by the rules, and its turns, in the order of their tickets, may be made in the core.
    Yes,
    /// It isn't, or its turns aren't: the first flaw.
    No(Flaw),
}

/// What is wrong with a record, where nothing that stands above it is.
#[derive(Clone, Copy)]
pub enum Flaw {
    /// The first turn, in the order of the locks, that isn't allowed on what those before it lead to.
    History { lock: DomainId, index: u64 },
    /// The first phase whose start isn't right (the first one's isn't 0 with nothing marked, or it is below that of the phase before
    /// it or above the number of entries), or an entry of whose calls stands before its start, or not before the next one's.
    Phase { phase: u32 },
    /// The first strand that hasn't the steps of its CPUs in its phase, one of whose CPUs stands in a strand of its phase before it, or
    /// a step of which is of no call of its CPUs; the number of strands where in some phase a CPU stands in none.
    Strand { index: u64 },
    /// The first call, counted from 1, whose steps and reply aren't its trace, or a step of which stands after one of a later call.
    Call { call: u32 },
    /// What the map holds at the end isn't what the histories lead to, a CPU's spare isn't the one that its calls left, or an element
    /// isn't in one place.
    Finals,
    /// The first entry, in the order of the locks, whose ticket isn't below the number of entries, is that of an entry before it, or
    /// isn't above the one before it in its history or its strand.
    Ticket { lock: DomainId, index: u64 },
    /// The first ticket at which a step of the core may not be done, or a probe tells another hand than the element is in.
    Step { ticket: u64 },
}
