//! The law of well-shaped records, as a clause of a function that does nothing.

ghost use Rattle.record_shape.specs.ShapeLaws.{RecordsAreShaped};

/// A record of a run that a table left is well shaped.
pub fn shape_laws()
    ensures { RecordsAreShaped }
{}
