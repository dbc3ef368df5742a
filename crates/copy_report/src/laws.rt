//! Copies worked by hand, as clauses of a function that does nothing.

ghost use Rattle.copy_report.specs.Rows.{TellsAll, TellsStop};

/// What is told of a copy of all keys, and of one into a map that was full before.
pub fn row_laws()
    ensures tells_all { TellsAll }
    ensures tells_stop { TellsStop }
{}
