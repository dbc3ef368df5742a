//! The step that moves an element between the lists of locks.

ghost use Rattle.std.specs.Prelude.{MatchBool};
ghost use Rattle.core_runs.specs.Words.{LeavesWord, EntersWord, RehomesWord};
ghost use Rattle.step_check.specs.Answers.{view_of, Answered, with_home_word};
ghost use Rattle.step_check.specs.WordsView.{words_in, AreWords};

use crate::words::{Kept, holds, is_hand};
use map_types::DomainId;
use place_words::{Home, Owner, is_free};

/// Whether an element may leave its home by a CPU's step.
fn may_leave(kept: &Kept, cpu: u32, home: Home) -> bool
    requires { AreWords (view_of kept.now) }
    ensures { MatchBool result (LeavesWord kept.now.shape (words_in (view_of kept.now)) cpu home)
        (¬ LeavesWord kept.now.shape (words_in (view_of kept.now)) cpu home) }
{
    match home {
        Home::In(lock) => holds(kept, cpu, lock),
        Home::Hand(hand) => hand == cpu,
        Home::Unlisted => false,
    }
}

/// Whether an element of this owner may come to a home by a CPU's step.
fn may_enter(kept: &Kept, cpu: u32, owner: Owner, to: Home) -> bool
    requires { AreWords (view_of kept.now) }
    ensures { MatchBool result (EntersWord kept.now.shape
        (words_in (view_of kept.now)) cpu owner to)
        (¬ EntersWord kept.now.shape (words_in (view_of kept.now)) cpu owner to) }
{
    match to {
        Home::In(DomainId::Local(at)) => {
            (is_free(owner) || is_hand(owner, cpu)) && holds(kept, cpu, DomainId::Local(at))
        }
        Home::In(DomainId::Global) => holds(kept, cpu, DomainId::Global),
        Home::Hand(hand) => hand == cpu && is_hand(owner, cpu),
        Home::In(DomainId::CpuLru(_) | DomainId::Bucket(_) | DomainId::Freelist(_))
        | Home::Unlisted => false,
    }
}

/// A CPU moves an element to the lists under another lock, or into its hand.
pub(crate) fn rehome(kept: &mut Kept, cpu: u32, element: u32, to: Home) -> bool
    requires { AreWords (view_of kept.old) }
    ensures { Answered (view_of kept.old)
        (RehomesWord kept.old.shape (words_in (view_of kept.old)) cpu element to)
        (with_home_word (words_in (view_of kept.old)) element to) (view_of kept.new) result }
{
    if !kept.shape.common || cpu >= kept.shape.cpus || element >= kept.shape.elements {
        return false;
    }
    let owner = kept.owners[element as usize];
    let home = kept.homes[element as usize];
    if !may_leave(kept, cpu, home) || !may_enter(kept, cpu, owner, to) {
        return false;
    }
    kept.homes[element as usize] = to;
    true
}
