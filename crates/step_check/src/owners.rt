//! The steps that change who has an element, and what a probe sees of it.

ghost use Rattle.std.specs.Prelude.{◌≡◌, ◌≢◌, ◌<◌, MatchBool};
ghost use Rattle.place_words.specs.declared.owner.Owner.TheVariants as owners;
ghost use Rattle.core_runs.specs.Words.{HoldsWord, SettlesWord, AttachesWord, InBucketWord, with_owner_word};
ghost use Rattle.step_check.specs.Answers.{view_of, Answered};
ghost use Rattle.step_check.specs.WordsView.{words_in, AreWords};

use crate::words::{Kept, holds, is_bucket, is_hand, is_home_if, is_in_bucket, is_lock_home_if};
use map_types::DomainId;
use place_words::Owner;

/// A CPU takes the head of a free list into its hand.
pub(crate) fn claim(kept: &mut Kept, cpu: u32, element: u32, lock: DomainId) -> bool
    requires { AreWords (view_of kept.old) }
    ensures { Answered (view_of kept.old)
        (HoldsWord kept.old.shape (words_in (view_of kept.old)) cpu lock
        × (element < kept.old.shape.elements))
        (with_owner_word (words_in (view_of kept.old)) element (owners.Hand cpu))
        (view_of kept.new) result }
{
    if !holds(kept, cpu, lock) || element >= kept.shape.elements {
        return false;
    }
    kept.owners[element as usize] = Owner::Hand(cpu);
    true
}

/// A CPU lays an element of its hand at the head of a free list.
pub(crate) fn settle(kept: &mut Kept, cpu: u32, element: u32, lock: DomainId) -> bool
    requires { AreWords (view_of kept.old) }
    ensures { Answered (view_of kept.old)
        (SettlesWord kept.old.shape (words_in (view_of kept.old)) cpu element lock)
        (with_owner_word (words_in (view_of kept.old)) element owners.Free)
        (view_of kept.new) result }
{
    if !holds(kept, cpu, lock) || is_bucket(lock) || element >= kept.shape.elements {
        return false;
    }
    if !is_hand(kept.owners[element as usize], cpu) {
        return false;
    }
    if !is_home_if(kept.shape.kind.is_lru(), kept.homes[element as usize], lock) {
        return false;
    }
    kept.owners[element as usize] = Owner::Free;
    true
}

/// A CPU puts an element of its hand at the head of a bucket.
pub(crate) fn attach(kept: &mut Kept, cpu: u32, element: u32, bucket: u32) -> bool
    requires { AreWords (view_of kept.old) }
    ensures { Answered (view_of kept.old)
        (AttachesWord kept.old.shape (words_in (view_of kept.old)) cpu element bucket)
        (with_owner_word (words_in (view_of kept.old)) element (owners.Bucket bucket))
        (view_of kept.new) result }
{
    if !holds(kept, cpu, DomainId::Bucket(bucket)) || element >= kept.shape.elements {
        return false;
    }
    if !is_hand(kept.owners[element as usize], cpu) {
        return false;
    }
    if !is_lock_home_if(kept.shape.kind.is_lru(), kept.homes[element as usize]) {
        return false;
    }
    kept.owners[element as usize] = Owner::Bucket(bucket);
    true
}

/// A CPU takes an element out of a bucket into its hand.
pub(crate) fn detach(kept: &mut Kept, cpu: u32, element: u32, bucket: u32) -> bool
    requires { AreWords (view_of kept.old) }
    ensures { Answered (view_of kept.old)
        (InBucketWord kept.old.shape (words_in (view_of kept.old)) cpu element bucket)
        (with_owner_word (words_in (view_of kept.old)) element (owners.Hand cpu))
        (view_of kept.new) result }
{
    if !holds(kept, cpu, DomainId::Bucket(bucket)) || element >= kept.shape.elements {
        return false;
    }
    if !is_in_bucket(kept.owners[element as usize], bucket) {
        return false;
    }
    kept.owners[element as usize] = Owner::Hand(cpu);
    true
}

/// Whether an element is in the hand of a CPU, as a probe says.
pub(crate) fn sees(kept: &Kept, element: u32, hand: u32) -> bool
    requires { AreWords (view_of kept.now) }
    ensures { MatchBool result ((words_in (view_of kept.now)).owner element ≡ owners.Hand hand)
        ((words_in (view_of kept.now)).owner element ≢ owners.Hand hand) }
{
    if element >= kept.shape.elements {
        return false;
    }
    is_hand(kept.owners[element as usize], hand)
}
