//! The laws of what finals tell, as clauses of a function that does nothing.

ghost use Rattle.finals_check.specs.Telling.{AllTell, FormTells};

/// What lies under a lock is told in its own form exactly where the finals tell it, and so are all locks of a map.
pub fn telling_laws()
    ensures each { FormTells }
    ensures all { AllTell }
{}
