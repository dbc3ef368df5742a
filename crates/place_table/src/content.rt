//! What lies under a lock.

use bucket_chain::Chain;
use cpu_freelist::Freelist;
use linked_rows::LinkedRows;
use local_lists::LocalSet;
use lru_lists::ListSet;
use place_words::Entries;

/// The lists of rows of a map that evicts.
pub type Listing = LinkedRows;

/// What lies under a lock.
#[derive(Drop)]
pub enum Content {
    /// The elements of a bucket.
    Bucket(Chain),
    /// The free elements of a CPU.
    Freelist(Freelist),
    /// The free and pending elements of a CPU on a map whose CPUs share lists, and the CPU from which its next theft starts.
    Local(LocalSet<Listing>),
    /// The active, inactive and free elements of the set that the CPUs share, or of a CPU's own set, with the cursor of its
    /// rotation.
    Set(ListSet<Listing>),
}

/// What a slot keeps of the turns of its lock.
#[derive(Drop)]
pub enum SlotTurns {
    /// The turns themselves. Behind a pointer, so that the many slots of buckets are small.
    Here(Box<Entries>),
    /// Of a bucket how many there are. They stand in the logs of strands.
    Logged(u32),
}

/// What stands in the slot of a lock: the content, which is out while the lock is held, and what is kept of its turns, none once one
/// couldn't be recorded.
#[derive(Drop)]
pub struct Behind {
    pub content: Option<Content>,
    pub history: Option<SlotTurns>,
}
