//! What a turn does to the words of its elements.

ghost use Rattle.std.specs.Prelude.{[], ◌∷◌, map};
ghost use Rattle.place_words.specs.Interleaving.{does};
ghost use Rattle.step_check.specs.Answers.{view_of};
ghost use Rattle.step_check.specs.Ran.{Ran, step_of};
ghost use Rattle.step_check.specs.WordsView.{AreWords};

use crate::owners::{attach, claim, detach, settle};
use crate::rehome::rehome;
use crate::words::Kept;
use map_types::DomainId;
use place_words::Home;

/// What is done to the words of one element, by the CPU whose turn it is.
#[derive(Clone, Copy)]
pub(crate) enum Change {
    /// The head of a free list comes into the hand.
    Claim { element: u32, lock: DomainId },
    /// An element of the hand is laid on a free list.
    Settle { element: u32, lock: DomainId },
    /// An element of the hand is put into a bucket.
    Attach { element: u32, bucket: u32 },
    /// An element of a bucket comes into the hand.
    Detach { element: u32, bucket: u32 },
    /// An element comes to other lists, or off all lists.
    Rehome { element: u32, to: Home },
}

/// Does one change, where it may be done.
pub(crate) fn run_change(kept: &mut Kept, cpu: u32, change: Change) -> bool
    requires { AreWords (view_of kept.old) }
    ensures { Ran (view_of kept.old) (does (step_of cpu change) ∷ []) (view_of kept.new) result }
{
    match change {
        Change::Claim { element, lock } => claim(kept, cpu, element, lock),
        Change::Settle { element, lock } => settle(kept, cpu, element, lock),
        Change::Attach { element, bucket } => attach(kept, cpu, element, bucket),
        Change::Detach { element, bucket } => detach(kept, cpu, element, bucket),
        Change::Rehome { element, to } => rehome(kept, cpu, element, to),
    }
}

/// Does changes one after another, as long as each may be done.
pub(crate) fn run_changes(kept: &mut Kept, cpu: u32, changes: &[Change]) -> bool
    requires { AreWords (view_of kept.old) }
    ensures { Ran (view_of kept.old) (map does (map (step_of cpu) changes.now))
        (view_of kept.new) result }
{
    for change in changes {
        if !run_change(kept, cpu, *change) {
            return false;
        }
    }
    true
}
