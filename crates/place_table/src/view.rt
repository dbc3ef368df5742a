//! What a pass knows. No value of these types is made: they are what contracts see.

use map_types::Shape;
use place_words::{Entry, Flush, Home, Lists, Owner, StrandStep};
use std::collections::LinkedList;

/// A lock that is held: its number, the CPU, the turns before, what lies there at this step, and whether the record of
/// the turns is lost.
pub struct Hold {
    pub lock: u64,
    pub cpu: u64,
    pub log: LinkedList<Entry>,
    pub now: Lists,
    pub lost: bool,
}

/// An element in the hand of a CPU.
pub struct InHand {
    pub element: u64,
    pub cpu: u64,
}

/// An element in the hand of a CPU, and the bucket of its stored hash: the hash was given since the element came to that hand, or
/// the element was detached from that bucket.
pub struct HashIn {
    pub element: u64,
    pub cpu: u64,
    pub bucket: u64,
    pub given: bool,
}

/// A turn that a pass made: the lock's number, the turns of the lock before it, the entry, and the moment at which the lock was given
/// back.
pub struct Turned {
    pub lock: u64,
    pub earlier: LinkedList<Entry>,
    pub entry: Entry,
    pub moment: Moment,
}

/// What a pass held, had in hand and carried at a moment, and what was noted under the locks held, those taken last first.
pub struct Moment {
    pub held: LinkedList<Hold>,
    pub hand: LinkedList<InHand>,
    pub carried: LinkedList<InHand>,
    pub notes: LinkedList<Notes>,
}

/// The bit of an element, as it was read.
pub struct BitSeen {
    pub element: u64,
    pub bit: bool,
}

/// A call for the bit of an element, with what it was: the bit was cleared, or only read.
pub struct BitAsked {
    pub element: u64,
    pub bit: bool,
    pub cleared: bool,
}

/// An owner of an element.
pub struct OwnerSeen {
    pub element: u64,
    pub owner: Owner,
}

/// The home of an element, as it was read.
pub struct HomeSeen {
    pub element: u64,
    pub home: Home,
}

/// The home of an element in the hand of a CPU, as it was last read since it came there. Where it was read as local lists, whose lock
/// was taken since and which had the element no more, it is the global ones. With it how many steps on words had been made before the
/// one that read it, and, of a home that was read as local lists, how many turns their lock had had then.
pub struct HomeIn {
    pub element: u64,
    pub cpu: u64,
    pub home: Home,
    pub at: u64,
    pub turns: u64,
}

/// A look at the home of an element, with what it told: the home, how many steps on words had been made before it, and, of a home
/// that was read as local lists, how many turns their lock had had then.
pub struct HomeRead {
    pub element: u64,
    pub home: Home,
    pub at: u64,
    pub turns: u64,
}

/// A step that a pass made on a word of the table: how many steps on words had been made before it, what it found there, where
/// the step tells, and what is there from then on.
pub struct WordStep {
    pub at: u64,
    pub word: u64,
    pub seen: Option<u64>,
    pub left: u64,
}

/// How far the turn of the lock taken last is with its ticket, which is drawn before that lock is given back: the ticket word wasn't
/// read yet; it was read as less than 2^63, and the pass is about to draw; a ticket was drawn; or it was read as 2^63 or more, and
/// none is drawn.
pub enum Ticket {
    Unread,
    Drawing,
    Drawn(u64),
    Refused,
}

/// What was done and read while a lock was the last one taken of those that are held, the last first; but what was flushed in the
/// order in which it was told. The owners that were read under a bucket's lock inside are among these too.
pub struct Notes {
    /// The elements that came to the CPU's hand from this lock's free list, or to its lists from another home. One that left again
    /// stays noted, and one that goes home to the home that it has isn't noted.
    pub came: LinkedList<u64>,
    pub marks: LinkedList<u64>,
    /// The clears and the reads of bits.
    pub asked: LinkedList<BitAsked>,
    pub owners: LinkedList<OwnerSeen>,
    pub homes: LinkedList<HomeSeen>,
    /// What turns of the global lists inside this turn told that they flushed.
    pub flushed: LinkedList<Flush>,
    /// The elements that went from these local lists to the global ones, straight or by way of a hand, also where they came back
    /// since.
    pub off: LinkedList<u64>,
    /// The elements whose owners were changed, with what they were changed to.
    pub changed: LinkedList<OwnerSeen>,
}

/// The turns of a lock that isn't held, as a pass with all CPUs knows them.
pub struct Known {
    pub lock: u64,
    pub log: LinkedList<Entry>,
}

/// A strand that has ended.
pub struct Ended {
    pub cpus: LinkedList<u64>,
    pub steps: LinkedList<Turned>,
    pub kept: LinkedList<StrandStep>,
    pub touched: LinkedList<WordStep>,
}

/// What a pass knows.
pub struct View {
    pub shape: Shape,
    pub cpus: LinkedList<u64>,
    /// The locks held, the last taken first.
    pub held: LinkedList<Hold>,
    pub hand: LinkedList<InHand>,
    /// Those of them that are on no lock's lists, since a hand carries them from one lock's to another's.
    pub carried: LinkedList<InHand>,
    /// Of elements in hand the buckets of their stored hashes, where they are known. What stands first counts.
    pub hashes: LinkedList<HashIn>,
    /// Of elements in hand the homes that were read, where the pass hasn't moved them since. What stands first counts.
    pub readings: LinkedList<HomeIn>,
    /// Those of the locks held, in the same order.
    pub notes: LinkedList<Notes>,
    /// Empty unless the pass has all CPUs. What stands first of a lock or an element counts.
    pub known: LinkedList<Known>,
    pub bits: LinkedList<BitSeen>,
    /// How far the turn of the lock taken last is with its ticket. `Unread` where no lock is held.
    pub ticket: Ticket,
    /// A number that the ticket word has reached.
    pub reached: u64,
    /// At least as many as the turns of the pass's strands that got no ticket.
    pub refused: u64,
    /// The turns of the current strand, and those of them that are recorded.
    pub steps: LinkedList<Turned>,
    pub kept: LinkedList<StrandStep>,
    /// The steps of the current strand on words.
    pub touched: LinkedList<WordStep>,
    /// The looks at homes in the current strand, in their order, of elements in hand or not, whatever happened to these since.
    pub homes_read: LinkedList<HomeRead>,
    pub ended: LinkedList<Ended>,
    /// The locks that the pass gave back without a part: the record of their turns is lost.
    pub lost: LinkedList<u64>,
}
