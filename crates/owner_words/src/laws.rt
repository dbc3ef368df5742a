//! The law of owners, as a clause of a function that does nothing.

ghost use Rattle.owner_words.specs.Owners.{OneByOne};

/// What some steps and then others make of an owner is what the others make of what the first made.
pub fn owner_laws()
    ensures { OneByOne }
{}
