//! The words of a run: who holds each lock, and of each element its owner and home.

ghost use Rattle.std.specs.Prelude.{◌≡◌, ◌≢◌, ◌==◌, ◌||◌, not, nat_lt, MatchBool, IsTrue};
ghost use Rattle.std.specs.List.{list_all};
ghost use Rattle.map_types.specs.Creation.{IsShape};
ghost use Rattle.place_words.specs.Locks.{rank_of, lock_named};
ghost use Rattle.place_words.specs.State.{is_bucket};
ghost use Rattle.place_words.specs.Steps.{IsLockHome};
ghost use Rattle.place_words.specs.declared.home.Home.TheVariants as homes;
ghost use Rattle.place_words.specs.declared.owner.Owner.TheVariants as owners;
ghost use Rattle.core_runs.specs.Words.{HoldsWord};
ghost use Rattle.step_check.specs.Answers.{view_of};
ghost use Rattle.step_check.specs.WordsView.{holder_in, words_in, AreWords};

use map_types::{DomainId, Shape};
use place_words::{Home, Owner, is_lock, lock_named, lock_number, rank};

/// The words at one moment of a run, by the numbers of locks and elements. A CPU holds four locks at most, so `held` is short.
#[derive(Drop)]
pub(crate) struct Kept {
    pub(crate) shape: Shape,
    /// The locks that are held, each with its CPU.
    pub(crate) held: Vec<(u32, u32)>,
    pub(crate) owners: Vec<Owner>,
    pub(crate) homes: Vec<Home>,
}

/// The CPU that holds the lock of a number.
pub(crate) fn holder_in(number: u32, held: &[(u32, u32)]) -> Option<u32>
    ensures { result ≡ holder_in number held.now }
{
    for (taken, cpu) in held {
        if *taken == number {
            return Some(*cpu);
        }
    }
    None
}

/// Whether all that a CPU holds is below a rank.
pub(crate) fn holds_below(shape: &Shape, cpu: u32, rank_above: u32, held: &[(u32, u32)]) -> bool
    requires { IsShape shape.now }
    ensures { result
        ≡ list_all (λ hold. not (hold.1 == cpu) || nat_lt
        (rank_of (lock_named shape.now hold.0)) rank_above) held.now }
{
    held.iter().all(|hold| hold.1 != cpu || rank(lock_named(shape, hold.0)) < rank_above)
}

/// Whether a CPU holds a lock.
pub(crate) fn holds(kept: &Kept, cpu: u32, lock: DomainId) -> bool
    requires { AreWords (view_of kept.now) }
    ensures { MatchBool result (HoldsWord kept.now.shape (words_in (view_of kept.now)) cpu lock)
        (¬ HoldsWord kept.now.shape (words_in (view_of kept.now)) cpu lock) }
{
    if cpu >= kept.shape.cpus || !is_lock(&kept.shape, lock) {
        return false;
    }
    match holder_in(lock_number(&kept.shape, lock), kept.held.as_slice()) {
        Some(holder) => holder == cpu,
        None => false,
    }
}

/// Whether an owner is the hand of a CPU.
pub(crate) fn is_hand(owner: Owner, cpu: u32) -> bool
    ensures { MatchBool result (owner ≡ owners.Hand cpu) (owner ≢ owners.Hand cpu) }
{
    match owner {
        Owner::Hand(hand) => hand == cpu,
        Owner::Free | Owner::Bucket(_) => false,
    }
}

/// Whether an owner is a bucket.
pub(crate) fn is_in_bucket(owner: Owner, bucket: u32) -> bool
    ensures { MatchBool result (owner ≡ owners.Bucket bucket) (owner ≢ owners.Bucket bucket) }
{
    match owner {
        Owner::Bucket(other) => other == bucket,
        Owner::Free | Owner::Hand(_) => false,
    }
}

/// Whether a lock is that of a bucket.
pub(crate) fn is_bucket(lock: DomainId) -> bool
    ensures { result ≡ is_bucket lock }
{
    matches!(lock, DomainId::Bucket(_))
}

/// Whether a home is a lock, where it has to be.
pub(crate) fn is_lock_home_if(lru: bool, home: Home) -> bool
    ensures { MatchBool result (IsTrue lru → IsLockHome home) (IsTrue lru × (¬ IsLockHome home)) }
{
    if !lru {
        return true;
    }
    match home {
        Home::In(_) => true,
        Home::Unlisted | Home::Hand(_) => false,
    }
}

/// Whether a home is this lock, where it has to be.
pub(crate) fn is_home_if(lru: bool, home: Home, lock: DomainId) -> bool
    ensures { MatchBool result (IsTrue lru → home ≡ homes.In lock)
        (IsTrue lru × (home ≢ homes.In lock)) }
{
    if !lru {
        return true;
    }
    match home {
        Home::In(other) => other == lock,
        Home::Unlisted | Home::Hand(_) => false,
    }
}
