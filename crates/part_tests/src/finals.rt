//! Tests of what a map holds at the end of a run.

use crate::Same;
use crate::same::are_same;
use place_words::{Finals, Kept, KeptValues, LocalFinal, SetFinal};

impl Same for KeptValues {
    fn same(&self, other: &KeptValues) -> bool {
        are_same(self.as_slice(), other.as_slice())
    }
}

impl Same for Kept {
    fn same(&self, other: &Kept) -> bool {
        self.element.same(&other.element)
            && self.key.same(&other.key)
            && self.values.same(&other.values)
    }
}

impl Same for SetFinal {
    fn same(&self, other: &SetFinal) -> bool {
        self.active.same(&other.active)
            && self.inactive.same(&other.inactive)
            && self.free.same(&other.free)
            && self.cursor.same(&other.cursor)
    }
}

impl Same for LocalFinal {
    fn same(&self, other: &LocalFinal) -> bool {
        self.free.same(&other.free)
            && self.pending.same(&other.pending)
            && self.steal.same(&other.steal)
    }
}

impl Same for Finals {
    fn same(&self, other: &Finals) -> bool {
        self.buckets.same(&other.buckets)
            && self.freelists.same(&other.freelists)
            && self.spares.same(&other.spares)
            && self.sets.same(&other.sets)
            && self.locals.same(&other.locals)
            && self.marked.same(&other.marked)
    }
}
