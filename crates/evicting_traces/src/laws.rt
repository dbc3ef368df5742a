//! Laws of the readers of calls, as clauses of a function that does nothing.

ghost use Rattle.evicting_traces.specs.Laws.{CountsTurns, OneBeginning, ReadsEvictingCalls, ReadsEvictingKeys, ReadsFrees, ReadsTakings};
ghost use Rattle.evicting_traces.specs.Worked.{ReadInTurn};

/// The turns at the beginning of a row are read as a call's exactly where they are its trace, with the one reply that goes with them.
pub fn evicting_laws()
    ensures frees { ReadsFrees }
    ensures takings { ReadsTakings }
    ensures keys { ReadsEvictingKeys }
    ensures calls { ReadsEvictingCalls }
    ensures counts { CountsTurns }
    ensures one { OneBeginning }
    ensures worked { ReadInTurn }
{}
