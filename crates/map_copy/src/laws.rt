//! Laws of copies, as clauses of functions that do nothing.

ghost use Rattle.map_copy.specs.Bounds.{AsksWithin, GoesOnBelow, HasFewReads};
ghost use Rattle.map_copy.specs.Buckets.{ReadsEach, ReadsOnce};
ghost use Rattle.map_copy.specs.Ends.{EndsThere};
ghost use Rattle.map_copy.specs.Neighbours.{BeginsAtFirst, FollowsEach};
ghost use Rattle.map_copy.specs.Rows.{CopiesAll, CopiesNone, StopsEarly, StopsFull};
ghost use Rattle.map_copy.specs.ScriptLaws.{AnswersPuts, HasExtended, HasTargetScript, PutsPages};

/// The first read of a copy has the given count, from bucket 0 on. Each other one starts where the reply before it says, with the
/// same count, or after ENOSPC with twice that, at most the source's elements. A copy ends after a put that stopped, or after a
/// read that found no bucket left, and after no other.
pub fn order_laws()
    ensures first { BeginsAtFirst }
    ensures follows { FollowsEach }
    ensures ends { EndsThere }
    ensures copies_all { CopiesAll }
    ensures copies_none { CopiesNone }
    ensures stops_early { StopsEarly }
    ensures stops_full { StopsFull }
{}

/// A copy makes at most as many reads as its source has buckets and 17 more, and has made fewer while it goes on; each asks for
/// some pairs, from a bucket that there is. No bucket is read twice, and where no put stopped each is.
pub fn read_laws()
    ensures goes_on { GoesOnBelow }
    ensures few { HasFewReads }
    ensures asks { AsksWithin }
    ensures once { ReadsOnce }
    ensures each { ReadsEach }
{}

/// The puts are the calls of a well-formed script of the target's map: they put the pairs of the pages in order, and each has a
/// reply. The reads are calls on the source's map, behind those of its script.
pub fn script_laws()
    ensures puts { PutsPages }
    ensures replies { AnswersPuts }
    ensures target { HasTargetScript }
    ensures extended { HasExtended }
{}
