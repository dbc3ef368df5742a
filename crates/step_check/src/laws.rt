//! Laws of the turns of a record in the order of their tickets, as clauses of a function that does nothing.

ghost use Rattle.step_check.specs.StepLaws.{RunsInOrder, WordsDecide};

/// The turns of a record are a run of the core exactly where each step of theirs may be done in its place, and up to any turn
/// that is decided by who holds each lock, and where each element is and belongs.
pub fn step_laws()
    ensures words { WordsDecide }
    ensures whole { RunsInOrder }
{}
