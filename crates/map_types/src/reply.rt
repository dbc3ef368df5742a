//! What a call answers.

use crate::{Bytes, Errno, Pairs};

/// The answer to a call.
#[derive(Drop)]
pub enum Reply {
    /// It is done, with nothing to give.
    Done,
    /// The value or the key that was asked for.
    Value(Bytes),
    /// It is refused.
    Refused(Errno),
    /// What a batch read took, why it stopped, and the bucket at which the next one starts. Of a walk over all elements what it
    /// handed over, with no error, and the bucket behind the last one that it went over; where there was no room for a bucket,
    /// that one.
    Batch {
        stop: Option<Errno>,
        taken: Pairs,
        next: u32,
    },
    /// How many entries a batch write did, and why it stopped.
    Count {
        stop: Option<Errno>,
        done: u32,
    },
}
