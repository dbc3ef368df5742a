//! The test for equality of values that keep memory of their own, and of lists of any values that have one.

ghost use Rattle.std.specs.Prelude.{◌≡◌, ◌≢◌, MatchBool, MatchResult};
ghost use Rattle.place_words.specs.Entries.{part_read};

use map_types::{Bytes, List, Reply};
use place_words::PartAt;

/// What can be tested for equality, by reference, with no memory.
pub trait Same {
    /// Whether the two are equal. It ends at the first difference.
    fn same(&self, other: &Self) -> bool
        ensures { MatchBool result (self.now ≡ other.now) (self.now ≢ other.now) };
}

impl Same for u32 {
    fn same(&self, other: &u32) -> bool {
        *self == *other
    }
}

impl Same for u64 {
    fn same(&self, other: &u64) -> bool {
        *self == *other
    }
}

impl Same for bool {
    fn same(&self, other: &bool) -> bool {
        *self == *other
    }
}

impl Same for Bytes {
    fn same(&self, other: &Bytes) -> bool {
        self.as_slice() == other.as_slice()
    }
}

impl<T: Same> Same for Option<T> {
    fn same(&self, other: &Option<T>) -> bool {
        match (self, other) {
            (Some(one), Some(another)) => one.same(another),
            (None, None) => true,
            _ => false,
        }
    }
}

impl<A: Same, B: Same> Same for (A, B) {
    fn same(&self, other: &(A, B)) -> bool {
        self.0.same(&other.0) && self.1.same(&other.1)
    }
}

impl<T: Same> Same for List<T> {
    fn same(&self, other: &List<T>) -> bool {
        are_same(self.as_slice(), other.as_slice())
    }
}

/// Whether two slices have the same items in the same order.
pub(crate) fn are_same<T: Same>(items: &[T], others: &[T]) -> bool
    ensures { MatchBool result (items.now ≡ others.now) (items.now ≢ others.now) }
{
    if items.len() != others.len() {
        return false;
    }
    for i in 0..items.len() {
        if !items[i].same(&others[i]) {
            return false;
        }
    }
    true
}

/// Whether two packed parts are the same, where each is told by reference, or as one that was made for the answer.
pub(crate) fn same_told<T: Same + Drop>(part: Result<&T, T>, another: Result<&T, T>) -> bool
    ensures { (one other : T) → MatchResult part.entry (λ told. told.now ≡ one) (λ told. told ≡ one)
        → MatchResult another.entry (λ told. told.now ≡ other) (λ told. told ≡ other)
        → MatchBool result (one ≡ other) (one ≢ other) }
{
    match (part, another) {
        (Ok(part), Ok(another)) => part.same(another),
        (Ok(part), Err(another)) => part.same(&another),
        (Err(part), Ok(another)) => part.same(another),
        (Err(part), Err(another)) => part.same(&another),
    }
}

/// Whether two parts tell the same.
pub fn same_part(one: PartAt<'_>, another: PartAt<'_>) -> bool
    ensures { MatchBool result (part_read one.entry ≡ part_read another.entry)
        (part_read one.entry ≢ part_read another.entry) }
{
    match (one, another) {
        (PartAt::Bucket(part), PartAt::Bucket(other)) => part.same(other),
        (PartAt::Free(part), PartAt::Free(other)) => part.same(&other),
        (PartAt::Local(part), PartAt::Local(other)) => part.same(other),
        (PartAt::Global(part), PartAt::Global(other)) => part.same(other),
        (PartAt::Own(part), PartAt::Own(other)) => part.same(other),
        _ => false,
    }
}

/// Whether two replies are the same.
pub fn same_reply(one: &Reply, another: &Reply) -> bool
    ensures { MatchBool result (one.now ≡ another.now) (one.now ≢ another.now) }
{
    one.same(another)
}
