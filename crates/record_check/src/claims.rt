//! The laws of flaws of histories, and of verdicts, as clauses of functions that do nothing.

ghost use Rattle.record_check.specs.HistoryLaws.{FlawRefutesLegal, FlawRefutesRecord, OneFlaw, RecordsTellHistories, ReplaysDecide, ToldIsContents};
ghost use Rattle.record_check.specs.VerdictLaws.{OneVerdict, RecordsFailAtSteps, ReportsAreJudged, SerialIsRight};

/// A flaw of a history shows that there is no record, and is one alone. Where the histories are those of the map's locks, what is asked
/// of the finals here is what is asked of those of a record.
pub fn history_laws()
    ensures legal { FlawRefutesLegal }
    ensures refuted { FlawRefutesRecord }
    ensures one { OneFlaw }
    ensures contents { ToldIsContents }
    ensures told { RecordsTellHistories }
    ensures decided { ReplaysDecide }
{}

/// The record of a run in serial order is right, and so is that of a race, unless a step of the core is its flaw. Two verdicts on a
/// well-shaped record are one. Of its report the verdict on it is said.
pub fn verdict_laws()
    ensures serial { SerialIsRight }
    ensures steps { RecordsFailAtSteps }
    ensures one { OneVerdict }
    ensures reports { ReportsAreJudged }
{}
