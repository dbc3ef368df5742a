//! What follows from the definitions of endings, as clauses of a function that does nothing.

ghost use Rattle.run_endings.specs.Comparisons.{WritesComparison};
ghost use Rattle.run_endings.specs.Divisions.{DividesAtTheEnd, DividesThere};

/// In mode `compare` what is written of a run is the comparison of its record with the script's run with strict recency.
pub fn comparison_law()
    ensures { WritesComparison }
{}

/// In mode `check` the lines of a script, a line `%%` and any report behind it are divided there; and so is an input that ends with
/// `%%`, whose report is empty.
pub fn division_law()
    ensures there { DividesThere }
    ensures end { DividesAtTheEnd }
{}
