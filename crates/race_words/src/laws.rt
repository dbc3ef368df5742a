//! Laws of records of races, as clauses of a function that does nothing.

ghost use Rattle.race_words.specs.RaceLaws.{OwnersLookRight, OwnRacesRun, PlainRacesRun, RacesRun, RunsNest, SharedRacesRun, ToldRacesRun};

/// The turns of a record of a race, in the order of their tickets, are a run of the core where what is asked of the locks that were
/// held at the draws stands in it.
pub fn race_laws()
    ensures plain { PlainRacesRun }
    ensures own { OwnRacesRun }
    ensures shared { SharedRacesRun }
    ensures any { RacesRun }
    ensures needed { RunsNest }
    ensures looks { OwnersLookRight }
    ensures told { ToldRacesRun }
{}
