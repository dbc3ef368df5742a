//! Laws of the interleaving of a record, as clauses of functions that do nothing.

ghost use Rattle.core_runs.specs.RowApart.{ApartEvents};
ghost use Rattle.core_runs.specs.RowFlushed.{FlushedEvents};
ghost use Rattle.core_runs.specs.RowPhases.{PhasesEvents};
ghost use Rattle.core_runs.specs.RaceRows.{ForgedFails, ForgedTurns, RacesByWords, RefilledTurns, SharedByWords};
ghost use Rattle.core_runs.specs.Serial.{RunsOnCore};
ghost use Rattle.core_runs.specs.Rows.{ExchangedEvents, FirstRefused, RowEvents};

/// The record of every script in serial order whose calls are on the CPUs of a map that can be created is a run of the core. The worked races, and a worked run in phases, are
/// the steps that their tickets say, and with two tickets of the first exchanged its third step may not be done. The interleaving
/// of a race may be done up to any step exactly where holders, owners and homes allow it up to there: a forged race shows that
/// legal histories alone don't.
pub fn run_laws()
    ensures row { RowEvents }
    ensures exchanged { ExchangedEvents }
    ensures refused { FirstRefused }
    ensures apart { ApartEvents }
    ensures flushed { FlushedEvents }
    ensures phases { PhasesEvents }
    ensures serial { RunsOnCore }
    ensures forged { ForgedTurns }
    ensures fails { ForgedFails }
    ensures by_words { RacesByWords }
    ensures refilled { RefilledTurns }
    ensures shared_by_words { SharedByWords }
{}
