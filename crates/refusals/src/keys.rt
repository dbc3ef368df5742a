//! What no lookup and no update of a key answers, on a map of any kind.

ghost use Rattle.refusals.specs.Keys.{EnoentIsAbsent, ValueLiesThere, DoneIsWritten, NoexistFindsNone, ExistFindsIt, E2bigIsPlain, EnomemIsEvicting};

/// A lookup finds its key exactly where it lies in its bucket, with the value that lies there. An update that is done has written its
/// value, and goes by its flags. A map that evicts is never full, and another one never lacks an element to evict. All this is so also
/// where the record of a turn is lost.
pub fn key_refusals()
    ensures absent { EnoentIsAbsent }
    ensures value { ValueLiesThere }
    ensures written { DoneIsWritten }
    ensures noexist { NoexistFindsNone }
    ensures exist { ExistFindsIt }
    ensures full { E2bigIsPlain }
    ensures no_element { EnomemIsEvicting }
{}
