//! What a core is made of, and what can be read there.

ghost use Rattle.std.specs.Prelude.{◌≡◌, ◌≢◌, ◌==◌, ◌||◌, not, nat_lt, MatchBool, IsTrue};
ghost use Rattle.std.specs.List.{list_all};
ghost use Rattle.map_types.specs.Creation.{IsShape};
ghost use Rattle.place_words.specs.Locks.{rank_of, lock_named};
ghost use Rattle.place_words.specs.declared.owner.Owner.TheVariants as owners;
ghost use Rattle.place_core.specs.Answers.{view_of};
ghost use Rattle.place_core.specs.CoreView.{holder_in, state_of, IsCore};
ghost use Rattle.map_types.specs.ElementLists.{IsHead};
ghost use Rattle.place_words.specs.State.{is_bucket};
ghost use Rattle.place_words.specs.Steps.{Holds, IsLockHome};

use crate::Lists;
use map_types::{DomainId, Shape};
use place_words::{Home, Owner, is_lock, lock_named, lock_number, rank};

/// The state of a map's places, by the numbers of locks and elements.
#[derive(Drop)]
pub(crate) struct Cells {
    pub(crate) shape: Shape,
    /// The locks that are held, each with its CPU.
    pub(crate) held: Vec<(u32, u32)>,
    pub(crate) lists: Vec<Lists>,
    pub(crate) owners: Vec<Owner>,
    pub(crate) homes: Vec<Home>,
    pub(crate) bits: Vec<bool>,
}

/// The CPU that holds the lock of a number.
pub(crate) fn holder_in(number: u32, held: &[(u32, u32)]) -> Option<u32>
    ensures { result ≡ holder_in number held.now }
{
    for (taken, cpu) in held {
        if *taken == number {
            return Some(*cpu);
        }
    }
    None
}

/// Whether all that a CPU holds is below a rank.
pub(crate) fn holds_below(shape: &Shape, cpu: u32, rank_above: u32, held: &[(u32, u32)]) -> bool
    requires { IsShape shape.now }
    ensures { result
        ≡ list_all (λ hold. not (hold.1 == cpu) || nat_lt
        (rank_of (lock_named shape.now hold.0)) rank_above) held.now }
{
    held.iter().all(|hold| hold.1 != cpu || rank(lock_named(shape, hold.0)) < rank_above)
}

/// Whether a CPU holds a lock.
pub(crate) fn holds(cells: &Cells, cpu: u32, lock: DomainId) -> bool
    requires { IsCore (view_of cells.now) }
    ensures { MatchBool result (Holds cells.now.shape (state_of (view_of cells.now)) cpu lock)
        (¬ Holds cells.now.shape (state_of (view_of cells.now)) cpu lock) }
{
    if cpu >= cells.shape.cpus || !is_lock(&cells.shape, lock) {
        return false;
    }
    match holder_in(lock_number(&cells.shape, lock), cells.held.as_slice()) {
        Some(holder) => holder == cpu,
        None => false,
    }
}

/// Whether an element is the head of a list.
pub(crate) fn is_head(element: u32, elements: &[u32]) -> bool
    ensures { MatchBool result (IsHead element elements.now) (¬ IsHead element elements.now) }
{
    match elements {
        [] => false,
        [head, ..] => *head == element,
    }
}

/// Whether an owner is the hand of a CPU.
pub(crate) fn is_hand(owner: Owner, cpu: u32) -> bool
    ensures { MatchBool result (owner ≡ owners.Hand cpu) (owner ≢ owners.Hand cpu) }
{
    match owner {
        Owner::Hand(hand) => hand == cpu,
        Owner::Free | Owner::Bucket(_) => false,
    }
}

/// Whether a lock is that of a bucket.
pub(crate) fn is_bucket(lock: DomainId) -> bool
    ensures { result ≡ is_bucket lock }
{
    matches!(lock, DomainId::Bucket(_))
}

/// Whether a home is a lock, where it has to be.
pub(crate) fn is_lock_home_if(lru: bool, home: Home) -> bool
    ensures { MatchBool result (IsTrue lru → IsLockHome home) (IsTrue lru × (¬ IsLockHome home)) }
{
    if !lru {
        return true;
    }
    match home {
        Home::In(_) => true,
        Home::Unlisted | Home::Hand(_) => false,
    }
}
