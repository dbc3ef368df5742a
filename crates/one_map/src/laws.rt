//! Laws of records on one plain map, as clauses of a function that does nothing.

ghost use Rattle.one_map.specs.Linear.{RecordsAreOneMap};

/// The calls of a record are answered by one plain map: in the order of the tickets its turns are what that map does.
pub fn one_map_laws()
    ensures calls { RecordsAreOneMap }
{}
