//! Wrong steps of the core.

ghost use Rattle.std.specs.Prelude.{◌≡◌, ◌≢◌, ℕ, Err, OnOk};
ghost use Rattle.map_types.specs.declared.kind.DomainId as locks;
ghost use Rattle.place_words.specs.declared.owner.Owner.TheVariants as owners;
ghost use Rattle.place_core.specs.declared.refusal.CoreRefusal.TheVariants as refusals;
ghost use Rattle.place_words.specs.declared.step.Step.TheVariants as steps;
ghost use Rattle.place_core.specs.CoreView.{state_of};
ghost use Rattle.place_words.specs.Steps.{IsEnabled};
ghost use Rattle.refusals.specs.Steps.{IsRefusedAt, TakesNoSecondBucket, GivesTheRowsBack, ClaimsOnlyFree, SettlesToFree, ClearsInHand};

use place_core::{Core, CoreRefusal, Step};
use std::alloc::Global;

/// What no core does, and what it has to do: each in a state that some steps lead to from the opening of a map. A second
/// bucket is not taken beside one that is held, nor is a bucket given back with other rows. The head of a list that isn't
/// the free one is not claimed. An element that is settled doesn't stay in the hand, and the bit of one in the hand may be
/// cleared.
pub fn step_refusals()
    ensures take { TakesNoSecondBucket }
    ensures give { GivesTheRowsBack }
    ensures claim { ClaimsOnlyFree }
    ensures settle { SettlesToFree }
    ensures clear { ClearsInHand }
{}

/// A step that is refused in the state of a core isn't done.
pub fn refused_step(core: &mut Core, alloc: Global, step: &Step) -> Result<(), CoreRefusal>
    requires { IsRefusedAt core.old.shape (state_of core.old) step.now }
    ensures { OnOk result ⊥ }
{
    core.step(alloc, step)
}

/// A step that may be done isn't refused, but for want of memory.
pub fn enabled_step(core: &mut Core, alloc: Global, step: &Step) -> Result<(), CoreRefusal>
    requires { IsEnabled core.old.shape (state_of core.old) step.now }
    ensures { result ≢ Err refusals.NotEnabled }
{
    core.step(alloc, step)
}

/// An element that was settled isn't in the hand of its CPU.
pub fn settled_element(core: &mut Core, alloc: Global, step: &Step) -> Result<(), CoreRefusal>
    ensures { (cpu e : ℕ) (lock : locks.DomainId) → step.now ≡ steps.Settle cpu e lock
        → OnOk result ((state_of core.new).owner e ≢ owners.Hand cpu) }
{
    core.step(alloc, step)
}
