//! Laws of the readers of calls, as clauses of a function that does nothing.

ghost use Rattle.trace_check.specs.Laws.{CountsTurns, OneBeginning, ReadsCalls, ReadsDeletes, ReadsLookups, ReadsNext, ReadsTakes, ReadsUpdates, ReadsWriteBatches};
ghost use Rattle.trace_check.specs.LawsBySpares.{CountsTurnsBy, OneBeginningBy, ReadsCallsBy};
ghost use Rattle.trace_check.specs.Worked.{ReadInTurn};

/// The turns at the beginning of a row are read as a call's exactly where they are its trace, with the one reply that goes with them.
pub fn read_laws()
    ensures lookups { ReadsLookups }
    ensures deletes { ReadsDeletes }
    ensures takes { ReadsTakes }
    ensures updates { ReadsUpdates }
    ensures next_keys { ReadsNext }
    ensures write_batches { ReadsWriteBatches }
    ensures calls { ReadsCalls }
    ensures counts { CountsTurns }
    ensures one { OneBeginning }
    ensures calls_by_spares { ReadsCallsBy }
    ensures counts_by_spares { CountsTurnsBy }
    ensures one_by_spares { OneBeginningBy }
    ensures worked { ReadInTurn }
{}
