//! What no call on a key of a map that doesn't evict answers.

ghost use Rattle.refusals.specs.Plain.{E2bigLooksAtEach, LooksAreTold, PresentKeyPopsNothing, PresentKeyTakesTheSpare, DeletedIsPushed};

/// An update that finds the map full has looked at each CPU's freelist, and tells each look. One of a key that is there pops none, and
/// takes the CPU's spare where there is one value for each key. A delete pushes its element on the CPU's freelist.
pub fn plain_refusals()
    ensures full { E2bigLooksAtEach }
    ensures told { LooksAreTold }
    ensures present { PresentKeyPopsNothing }
    ensures spare { PresentKeyTakesTheSpare }
    ensures pushed { DeletedIsPushed }
{}
