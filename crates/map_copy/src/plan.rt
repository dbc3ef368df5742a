//! The plan of a copy.

ghost use Rattle.std.specs.Prelude.{◌≡◌, ◌≤◌, ℕ, List, [], ◌∷◌, ◌++◌, is_some, unwrap_or, MatchBool};
ghost use Rattle.std.specs.Option.{option_copied};
ghost use Rattle.map_copy.specs.Copied.{Step, first_read, has_stopped, read_after, IsPage, IsPutOf};
ghost use Rattle.map_copy.specs.Plans.{plan_of, step_of, plan_after, IsCopied, IsCopying};

use map_types::{Errno, Reply};
use std::marker::Model;

/// Where a copy of a map stands: what the next read of the source asks for. The one who copies makes the read that `ask`
/// names, puts the pairs of its page into the target, tells `answer` both replies, and goes on while that is true.
#[derive(Drop)]
pub struct Plan {
    /// How many elements the source has.
    elements: u32,
    /// How many pairs the next read asks for at most.
    count: u32,
    /// The bucket from which it reads on.
    start: u32,
}

impl Model for Plan {
    ghost use Rattle.map_copy.specs.Plans.{PlanView, plan_view, IsPlan};

    ghost Value = { PlanView };

    ghost view = { λ p. plan_view p.elements p.count p.start };

    ghost invariant = { λ p. IsPlan (plan_view p.elements p.count p.start) };
}

impl Plan {
    /// The plan of a copy whose first read asks for so many pairs, from a source with so many elements.
    pub fn of(count: u32, elements: u32) -> Plan
        requires some_count { 1 ≤ count }
        requires some_element { 1 ≤ elements }
        ensures exact { result ≡ plan_of elements (first_read count) }
        // Nothing was copied yet.
        ensures so_far { IsCopying count [] result }
    {
        Plan {
            elements,
            count,
            start: 0,
        }
    }

    /// The next read: how many pairs it asks for at most, and the bucket from which it reads on.
    pub fn ask(&self) -> (u32, u32)
        ensures count { result.0 ≡ self.now.next.count }
        ensures start { result.1 ≡ self.now.next.start }
        // It asks for some.
        ensures some { 1 ≤ result.0 }
    {
        (self.count, self.start)
    }

    /// Takes the reply to the read that `ask` names, which is a page, and that to the put of its pairs, and says whether another
    /// read is next. Where none is, the copy has ended, and the plan stays as it is. The pairs are neither looked at nor copied.
    pub fn answer(&mut self, page: &Reply, put: Option<&Reply>) -> bool
        requires page { IsPage page.now }
        // A put is there exactly where the page has pairs.
        requires put { IsPutOf page.now (option_copied put) }
        ensures goes_on { result
            ≡ is_some (read_after self.old.elements self.old.next page.now (option_copied put.entry)) }
        ensures exact { self.new ≡ plan_after self.old page.now (option_copied put.entry) }
        // What was copied before and this step are the copy so far, or the whole of it.
        ensures so_far { (count : ℕ) (steps : List Step) → IsCopying count steps self.old
            → let now = steps ++ step_of self.old page.now (option_copied put.entry) ∷ [] in
            MatchBool result (IsCopying count now self.new) (IsCopied count self.old.elements now) }
    {
        self.go_on(page, put)
    }

    /// What `answer` answers and leaves.
    fn go_on(&mut self, page: &Reply, put: Option<&Reply>) -> bool
        ensures goes_on { result
            ≡ is_some (read_after self.old.elements self.old.next page.now (option_copied put.entry)) }
        ensures exact { self.new ≡ plan_after self.old page.now (option_copied put.entry) }
    {
        if has_stopped(put) {
            return false;
        }
        let Reply::Batch { stop, next, .. } = page else {
            return false;
        };
        match stop {
            None => {}
            Some(Errno::Enospc) => {
                self.count = self.count.saturating_mul(2).min(self.elements);
            }
            Some(_) => return false,
        }
        self.start = *next;
        true
    }
}

/// Whether a put is there and stopped.
fn has_stopped(put: Option<&Reply>) -> bool
    ensures { result ≡ has_stopped (option_copied put.entry) }
{
    matches!(put, Some(Reply::Count { stop: Some(_), .. }))
}
