//! Wrong answers about locks, homes, shares, rounds and copies: each function makes one call, whose contract refuses them.

ghost use Rattle.std.specs.Prelude.{◌≡◌, ◌≢◌, ◌+◌, true, false, [], ◌∷◌, None, IfOk, IsTrue};
ghost use Rattle.map_types.specs.Creation.{IsShape};
ghost use Rattle.map_types.specs.declared.kind.DomainId.TheVariants as locks;
ghost use Rattle.place_words.specs.Locks.{is_lock};
ghost use Rattle.refusals.specs.Words.{IsOnePush};

use map_types::{DomainId, NoMemory, Shape};
use place_words::{Finals, Home, LockHistory, home_of_code, is_lock, lock_number, share};
use std::alloc::Global;
use steal_ring::Ring;

/// The code behind those of the CPUs' local lists is no home's: CPUs are numbered below 16.
pub fn home_of_48() -> Option<Home>
    ensures { result ≡ None }
{
    home_of_code(48)
}

/// A map whose CPUs share lists has no list set of a CPU's own.
pub fn has_set_beside_shared(shape: &Shape, cpu: u32) -> bool
    requires { shape.now.common ≡ true }
    ensures { result ≡ false }
{
    is_lock(shape, DomainId::CpuLru(cpu))
}

/// The number of a list set isn't counted from that of the global lock.
pub fn number_of_set(shape: &Shape, cpu: u32) -> u32
    requires shape { IsShape shape.now }
    requires set { IsTrue (is_lock shape.now (locks.CpuLru cpu)) }
    ensures { result ≢ shape.now.cpus + cpu }
{
    lock_number(shape, DomainId::CpuLru(cpu))
}

/// A round over three CPUs from CPU 1 goes on at CPU 0 after the last.
pub fn round_from_1() -> Ring
    ensures { result ≡ 1 ∷ 2 ∷ 0 ∷ [] }
{
    Ring::of(1, 3)
}

/// Of ten elements the first of three CPUs has four.
pub fn share_of_first() -> (u32, u32)
    ensures { result.1 ≡ 4 }
{
    share(10, 3, 0)
}

/// A push of element 1 on the global lists isn't copied as one of element 0.
pub fn copied_push(history: &LockHistory, alloc: Global) -> Result<LockHistory, NoMemory>
    requires { IsOnePush 1 history.now }
    ensures { IfOk result (λ copy. ¬ IsOnePush 0 copy) }
{
    history.copy(alloc)
}

/// The copy of what a map holds has the same bits set.
pub fn copied_finals(finals: &Finals, alloc: Global) -> Result<Finals, NoMemory>
    ensures { IfOk result (λ copy. copy.marked ≡ finals.now.marked) }
{
    finals.copy(alloc)
}
