//! Tests of what a turn of the lock of an LRU list tells.

ghost use Rattle.std.specs.Prelude.{◌≡◌, ◌≢◌, MatchBool, option_map};
ghost use Rattle.place_words.specs.Packed.{own_read};

use crate::Same;
use crate::same::{are_same, same_told};
use place_words::{GlobalPart, LocalPart, OwnAt, PackedGlobal, PackedLocal, PackedOwn, ShrinkNote};

impl Same for ShrinkNote {
    fn same(&self, other: &ShrinkNote) -> bool {
        self.target.same(&other.target)
            && self.looks.same(&other.looks)
            && self.forced.same(&other.forced)
    }
}

impl Same for LocalPart {
    fn same(&self, other: &LocalPart) -> bool {
        match self {
            LocalPart::Pop { hash, element } => match other {
                LocalPart::Pop {
                    hash: other_hash,
                    element: other_element,
                } => hash.same(other_hash) && element.same(other_element),
                _ => false,
            },
            LocalPart::Refill {
                hash,
                flushed,
                gained,
                got,
            } => match other {
                LocalPart::Refill {
                    hash: other_hash,
                    flushed: other_flushed,
                    gained: other_gained,
                    got: other_got,
                } => {
                    hash.same(other_hash)
                        && flushed.same(other_flushed)
                        && gained.same(other_gained)
                        && got.same(other_got)
                }
                _ => false,
            },
            LocalPart::Steal { got, first, second } => match other {
                LocalPart::Steal {
                    got: other_got,
                    first: other_first,
                    second: other_second,
                } => got.same(other_got) && first.same(other_first) && second.same(other_second),
                _ => false,
            },
            LocalPart::Add {
                hash,
                element,
                cursor,
            } => match other {
                LocalPart::Add {
                    hash: other_hash,
                    element: other_element,
                    cursor: other_cursor,
                } => {
                    hash.same(other_hash)
                        && element.same(other_element)
                        && cursor.same(other_cursor)
                }
                _ => false,
            },
            LocalPart::Push { element, done } => match other {
                LocalPart::Push {
                    element: other_element,
                    done: other_done,
                } => element.same(other_element) && done.same(other_done),
                _ => false,
            },
        }
    }
}

impl Same for GlobalPart {
    fn same(&self, other: &GlobalPart) -> bool {
        match self {
            GlobalPart::Turn {
                flushed,
                active,
                inactive,
                free,
                shrink,
            } => match other {
                GlobalPart::Turn {
                    flushed: other_flushed,
                    active: other_active,
                    inactive: other_inactive,
                    free: other_free,
                    shrink: other_shrink,
                } => {
                    flushed.same(other_flushed)
                        && active.same(other_active)
                        && inactive.same(other_inactive)
                        && free.same(other_free)
                        && shrink.same(other_shrink)
                }
                _ => false,
            },
            GlobalPart::Push { element } => match other {
                GlobalPart::Push {
                    element: other_element,
                } => element.same(other_element),
                _ => false,
            },
        }
    }
}

impl Same for PackedLocal {
    fn same(&self, other: &PackedLocal) -> bool {
        same_told(self.part(), other.part())
    }
}

impl Same for PackedGlobal {
    fn same(&self, other: &PackedGlobal) -> bool {
        same_told(self.part(), other.part())
    }
}

impl Same for PackedOwn {
    fn same(&self, other: &PackedOwn) -> bool {
        same_own(self.part(), other.part())
    }
}

/// Whether two parts of an own set, each read in place, are the same.
fn same_own(one: OwnAt<'_>, another: OwnAt<'_>) -> bool
    ensures { MatchBool result (own_read one.entry ≡ own_read another.entry)
        (own_read one.entry ≢ own_read another.entry) }
{
    match (one, another) {
        (
            OwnAt::Turn {
                hash,
                active,
                inactive,
                shrink,
                got,
            },
            OwnAt::Turn {
                hash: other_hash,
                active: other_active,
                inactive: other_inactive,
                shrink: other_shrink,
                got: other_got,
            },
        ) => {
            hash.same(&other_hash)
                && are_same(active, other_active)
                && are_same(inactive, other_inactive)
                && same_shrink(shrink, other_shrink)
                && got.same(&other_got)
        }
        (OwnAt::Push { element }, OwnAt::Push { element: other }) => element.same(&other),
        _ => false,
    }
}

/// Whether two shrinks, where there are any, are the same.
fn same_shrink(one: Option<&ShrinkNote>, another: Option<&ShrinkNote>) -> bool
    ensures { MatchBool result
        (option_map (λ note. note.now) one.entry ≡ option_map (λ note. note.now) another.entry)
        (option_map (λ note. note.now) one.entry ≢ option_map (λ note. note.now) another.entry) }
{
    match (one, another) {
        (Some(note), Some(other)) => note.same(other),
        (None, None) => true,
        _ => false,
    }
}
