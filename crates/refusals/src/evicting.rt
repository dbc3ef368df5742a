//! What no call on a key of a map that evicts answers.

ghost use Rattle.refusals.specs.Evicting.{SystemLookupSetsNone, ProgramLookupSetsIt, DeletedIsFreed, MovedOnWasFlushed, NoneAfterARound, NoneAfterAShrink, EvictionsGoByTheHash, ProbesAreTurns, FlushedKeepTheirHashes, StolenIsGone};

/// A program's lookup sets the bit of its key's element, and the system call's sets none. A delete frees its element, and where it finds
/// it moved on from local lists, a flush had taken it. An update finds no element only after a refill that gained nothing and a round of
/// thefts, or after a shrink that freed none. Each probe is a turn of the bucket of its element's hash. What is flushed keeps its hash,
/// and what is stolen is pending no more.
pub fn evicting_refusals()
    ensures system { SystemLookupSetsNone }
    ensures program { ProgramLookupSetsIt }
    ensures deleted { DeletedIsFreed }
    ensures moved_on { MovedOnWasFlushed }
    ensures round { NoneAfterARound }
    ensures shrink { NoneAfterAShrink }
    ensures evictions { EvictionsGoByTheHash }
    ensures probes { ProbesAreTurns }
    ensures flushed { FlushedKeepTheirHashes }
    ensures stolen { StolenIsGone }
{}
