//! The laws of what is judged of a record, as clauses of a function that does nothing.

ghost use Rattle.record_parts.specs.PartLaws.{PhasesAreJudged, RecordsHaveTheirPhases, RecordsHaveTheirStrands, StrandsAreJudged};

/// Nothing is wrong with a part exactly where that part is as a record has it.
pub fn part_laws()
    ensures phases { PhasesAreJudged }
    ensures phases_of_records { RecordsHaveTheirPhases }
    ensures strands { StrandsAreJudged }
    ensures strands_of_records { RecordsHaveTheirStrands }
{}
