//! How an element is taken for a new key of a map, and how one is freed.

ghost use Rattle.place_table.specs.Calls.{CanCall};
ghost use Rattle.lru_ops.specs.Lists.{Acquired, CanFree, Freed};

use crate::map::LruMap;
use crate::push::push_free;
use crate::taking::acquire;
use map_types::Gate;
use percpu_values::BoxedBody;
use place_table::Pass;
use std::sync::Wait;

impl LruMap {
    /// Takes an element for a key of this hash, or finds none (ENOMEM). The element is in the CPU's hand then, and listed with the
    /// hash. Where each CPU has a list set of its own, one turn of the CPU's set is made: it is rotated, shrunk where nothing is
    /// free, and gives out the head of its free list, as in the kernel's `bpf_percpu_lru_pop_free`. Where the CPUs share lists, as
    /// in `bpf_common_lru_pop_free`: the head of the CPU's local free list is given out, which is filled from the global lists
    /// where it is empty; and where these give nothing, an element is stolen from the local lists of a CPU, in a round from the
    /// CPU's own steal cursor. None comes exactly where every list that was looked at gave nothing: its free list was empty, and
    /// each element that was tried at last was in the hand of another CPU, whose owner word showed it. The pass is in no other
    /// call. It takes no memory that it needs: where there is none for what a turn tells, the record of that lock's turns is lost.
    pub fn acquire<R: Wait, G: Gate>(
        &self,
        rt: &R,
        pass: &mut Pass,
        hash: u32,
        gate: &G,
    ) -> Option<BoxedBody>
        requires { CanCall self.now pass.old }
        ensures { Acquired self.now hash pass.old pass.new result }
    {
        acquire(rt, self.alloc, &self.table, pass, hash, gate)
    }

    /// Frees the element of a body, which is in the hand of the pass's CPU and whose home is a lock. Where each CPU has a list set
    /// of its own: in one turn of the lock of the set in which the element lives it goes to the head of the free list, as in the
    /// kernel's `bpf_percpu_lru_push_free`. Where the CPUs share lists, as in `bpf_common_lru_push_free`: where its home word shows
    /// a CPU's local lists, and it is still pending there, it goes to the head of their free list; else to the head of the free
    /// list of the global lists. The pass holds no lock. It takes no memory that it needs.
    pub fn push_free<R: Wait, G: Gate>(&self, rt: &R, pass: &mut Pass, body: BoxedBody, gate: &G)
        requires { CanFree self.now body pass.old }
        ensures { Freed self.now body pass.old pass.new }
    {
        push_free(rt, &self.table, pass, body, gate);
    }
}
