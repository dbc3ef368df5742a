//! Tests of replies.

ghost use Rattle.std.specs.Prelude.{◌≡◌, ◌≢◌, ◌<◌, length, MatchBool};
ghost use Rattle.map_types.specs.Pairs.{pair_at};

use crate::Same;
use map_types::{Pairs, Reply};

impl Same for Pairs {
    fn same(&self, other: &Pairs) -> bool {
        if self.len() != other.len() {
            return false;
        }
        for i in 0..self.len() {
            if !same_pair(self, other, i) {
                return false;
            }
        }
        true
    }
}

/// Whether the pairs at an index are the same.
fn same_pair(pairs: &Pairs, others: &Pairs, i: usize) -> bool
    requires here { i < length pairs.now }
    requires there { i < length others.now }
    ensures { MatchBool result (pair_at pairs.now i ≡ pair_at others.now i) (pair_at pairs.now i ≢ pair_at others.now i) }
{
    pairs.key(i) == others.key(i) && pairs.value(i) == others.value(i)
}

impl Same for Reply {
    fn same(&self, other: &Reply) -> bool {
        match self {
            Reply::Done => matches!(other, Reply::Done),
            Reply::Value(bytes) => match other {
                Reply::Value(others) => bytes.same(others),
                _ => false,
            },
            Reply::Refused(errno) => match other {
                Reply::Refused(another) => errno.same(another),
                _ => false,
            },
            Reply::Batch { stop, taken, next } => match other {
                Reply::Batch {
                    stop: other_stop,
                    taken: other_taken,
                    next: other_next,
                } => stop.same(other_stop) && next.same(other_next) && taken.same(other_taken),
                _ => false,
            },
            Reply::Count { stop, done } => match other {
                Reply::Count {
                    stop: other_stop,
                    done: other_done,
                } => stop.same(other_stop) && done.same(other_done),
                _ => false,
            },
        }
    }
}
