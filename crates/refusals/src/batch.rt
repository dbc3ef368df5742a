//! What no batch write answers.

ghost use Rattle.refusals.specs.Batch.{UpdatesDoEach, DeletesDoEach, UpdatesAreCounted, DeletesAreCounted, NoneWasMissed, StopsAtTheFirstMissed};

/// A batch write that tells no stop did each of its entries. It counts the entries that it did, and a batch delete ends with the first
/// key that it doesn't find.
pub fn batch_refusals()
    ensures updates_each { UpdatesDoEach }
    ensures deletes_each { DeletesDoEach }
    ensures updates { UpdatesAreCounted }
    ensures deletes { DeletesAreCounted }
    ensures all_found { NoneWasMissed }
    ensures stops { StopsAtTheFirstMissed }
{}
