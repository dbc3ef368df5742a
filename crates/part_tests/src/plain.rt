//! Tests of small records and cases, which keep no memory of their own.

use crate::Same;
use map_types::{DomainId, Errno, Side};
use place_words::{Flush, FreePart, Look, Put, Seen, Stolen, StrandStep, Try, Visit};

impl Same for Side {
    fn same(&self, other: &Side) -> bool {
        *self == *other
    }
}

impl Same for Errno {
    fn same(&self, other: &Errno) -> bool {
        *self == *other
    }
}

impl Same for Seen {
    fn same(&self, other: &Seen) -> bool {
        *self == *other
    }
}

impl Same for Put {
    fn same(&self, other: &Put) -> bool {
        *self == *other
    }
}

impl Same for FreePart {
    fn same(&self, other: &FreePart) -> bool {
        *self == *other
    }
}

impl Same for Stolen {
    fn same(&self, other: &Stolen) -> bool {
        *self == *other
    }
}

impl Same for Visit {
    fn same(&self, other: &Visit) -> bool {
        *self == *other
    }
}

impl Same for Flush {
    fn same(&self, other: &Flush) -> bool {
        *self == *other
    }
}

impl Same for Look {
    fn same(&self, other: &Look) -> bool {
        *self == *other
    }
}

impl Same for Try {
    fn same(&self, other: &Try) -> bool {
        *self == *other
    }
}

impl Same for DomainId {
    fn same(&self, other: &DomainId) -> bool {
        *self == *other
    }
}

impl Same for StrandStep {
    fn same(&self, other: &StrandStep) -> bool {
        *self == *other
    }
}
