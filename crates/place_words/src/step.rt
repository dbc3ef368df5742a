//! The steps by which a map's elements move.

use crate::Home;
use map_types::{DomainId, Numbers};

/// One step of a CPU: what one operation on one word of a shared table does.
#[derive(Drop)]
pub enum Step {
    /// The CPU takes a lock that nobody holds, of a rank above those of all that it holds.
    Take {
        cpu: u32,
        lock: DomainId,
    },
    /// It gives a lock back, with the same elements, each once, in the order of these lists.
    Give {
        cpu: u32,
        lock: DomainId,
        lists: Lists,
    },
    /// It takes the head of a free list into its hand. On a map that evicts the element is listed from then on, at the
    /// head of pending or of inactive.
    Claim {
        cpu: u32,
        element: u32,
        lock: DomainId,
    },
    /// It lays an element of its hand at the head of a free list.
    Settle {
        cpu: u32,
        element: u32,
        lock: DomainId,
    },
    /// It puts an element of its hand at the head of a bucket.
    Attach {
        cpu: u32,
        element: u32,
        bucket: u32,
    },
    /// It takes an element out of a bucket into its hand.
    Detach {
        cpu: u32,
        element: u32,
        bucket: u32,
    },
    /// It moves an element to the head of the lists under a lock, or off all lists into its hand.
    Rehome {
        cpu: u32,
        element: u32,
        to: Home,
    },
    /// It sets the bit of an element of a bucket.
    Mark {
        cpu: u32,
        element: u32,
        bucket: u32,
    },
    /// It clears an element's bit.
    Clear {
        cpu: u32,
        element: u32,
    },
    /// It looks at an element's bit, home or owner, and changes nothing.
    Glance {
        cpu: u32,
        element: u32,
    },
}

/// What lies under a lock. What a lock doesn't have is empty.
#[derive(Drop)]
pub struct Lists {
    /// The free elements, of every lock but a bucket's.
    pub free: Numbers,
    /// The pending elements of a CPU, the active ones of the global lists or of a list set, or the elements of a bucket.
    pub first: Numbers,
    /// The inactive elements of the global lists or of a list set.
    pub second: Numbers,
    /// Where the rotation of these goes on: an inactive element, or None for the mark at the head.
    pub cursor: Option<u32>,
}
