//! Wrong steps on the words of the table, and wrong answers of its calls.

ghost use Rattle.refusals.specs.Table.{MarkSetsTheBit, ClearTakesTheBit, RehomeStoresTheHome, TurnTellsItsPart, TurnTellsItsBits, SystemLookupMarksNone, OwnerIsTheOneRead, StrandsAreHandedOut};

/// A mark leaves 1, a clear 0, and an element that goes home its home's number. A look at an owner answers the one that was read. A lock
/// that is given back tells its part, and isn't told with another bit than the clear in its place found, also where its record is lost; the
/// system call's lookup marks nothing, and a closed table has a strand where a history is there
/// and a strand has a step.
pub fn table_refusals()
    ensures mark { MarkSetsTheBit }
    ensures clear { ClearTakesTheBit }
    ensures rehome { RehomeStoresTheHome }
    ensures part { TurnTellsItsPart }
    ensures bits { TurnTellsItsBits }
    ensures system { SystemLookupMarksNone }
    ensures owner { OwnerIsTheOneRead }
    ensures strands { StrandsAreHandedOut }
{}
