//! What no walk over the buckets answers.

ghost use Rattle.refusals.specs.Walks.{FirstKeyLeavesOutNone, AbsentKeyStartsOver, LastKeyGoesOn, GivesWholeBuckets, ReadsInOrder, EnospcTakesNothing, TakenArePushedInOrder};

/// A walk leaves out no bucket: with no key, or behind one that isn't there, it begins at the first bucket, and behind the last key of a
/// bucket it goes on at the next one. A batch read gives whole buckets, a batch lookup in their order. A batch that answers ENOSPC gives
/// nothing, and one that takes keys out of a map that doesn't evict frees their elements in the order in which they lay.
pub fn walk_refusals()
    ensures first { FirstKeyLeavesOutNone }
    ensures absent { AbsentKeyStartsOver }
    ensures last { LastKeyGoesOn }
    ensures whole { GivesWholeBuckets }
    ensures reads { ReadsInOrder }
    ensures no_space { EnospcTakesNothing }
    ensures in_order { TakenArePushedInOrder }
{}
