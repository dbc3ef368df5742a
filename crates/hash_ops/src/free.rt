//! Pops and pushes of the CPUs' freelists.

ghost use Rattle.std.specs.Prelude.{◌-◌, ◌<◌, ◌≤◌, [], ◌∷◌};
ghost use Rattle.std.specs.List.{range_with_len};
ghost use Rattle.hash_ops.specs.Free.{CanReach, PoppedAmong, Popped, CanPush, Pushed};

use crate::map::PlainMap;
use map_types::{DomainId, Gate};
use percpu_values::BoxedBody;
use place_table::{Content, Pass};
use place_words::{FreePart, Part};
use std::sync::Wait;

impl PlainMap {
    /// Pops an element: looks at the freelists from the CPU's own upwards, wrapping, one turn each, up to the first that
    /// gives one, as in the kernel's `__pcpu_freelist_pop`.
    pub(crate) fn pop<R: Wait, G: Gate>(
        &self,
        rt: &R,
        pass: &mut Pass,
        gate: &G,
    ) -> Option<BoxedBody>
        requires { CanReach self.now pass.old }
        ensures { Popped self.now pass.old pass.new result }
    {
        let cpu = self.table.cpu_of(pass);
        let cpus = self.table.shape().cpus;
        match self.pop_among(rt, pass, cpu, cpus, gate) {
            Some(body) => Some(body),
            None => self.pop_among(rt, pass, 0, cpu, gate),
        }
    }

    /// Pushes the element of a body, which is in the hand of the pass's CPU, on the CPU's own freelist, in one turn of it, as in
    /// the kernel's `__pcpu_freelist_push`. No lock that is held has the rank of a freelist. It takes no memory that it needs.
    pub fn push<R: Wait, G: Gate>(&self, rt: &R, pass: &mut Pass, body: BoxedBody, gate: &G)
        requires { CanPush self.now body pass.old }
        ensures { Pushed self.now body pass.old pass.new }
    {
        let own = self.table.cpu_of(pass);
        let lock = DomainId::Freelist(own);
        let Content::Freelist(mut freelist) = self.table.take(rt, pass, lock, gate) else {
            unreachable!()
        };
        let element = body.body().element();
        self.table.settle(pass, element, lock);
        freelist.push(body);
        let part = Part::Free(FreePart::Pushed(element));
        self.table
            .give(pass, lock, Content::Freelist(freelist), Some(part), gate);
    }

    /// Looks at the freelists of the CPUs between these, up to the first that gives an element.
    fn pop_among<R: Wait, G: Gate>(
        &self,
        rt: &R,
        pass: &mut Pass,
        from: u32,
        to: u32,
        gate: &G,
    ) -> Option<BoxedBody>
        requires can { CanReach self.now pass.old }
        requires cpus { to ≤ self.now.shape.cpus }
        ensures { PoppedAmong self.now (range_with_len from (to - from)) pass.old pass.new result }
    {
        for cpu in from..to {
            if let Some(body) = self.pop_from(rt, pass, cpu, gate) {
                return Some(body);
            }
        }
        None
    }

    /// One look at the freelist of a CPU, which takes the element on top where there is one.
    fn pop_from<R: Wait, G: Gate>(
        &self,
        rt: &R,
        pass: &mut Pass,
        cpu: u32,
        gate: &G,
    ) -> Option<BoxedBody>
        requires can { CanReach self.now pass.old }
        requires there { cpu < self.now.shape.cpus }
        ensures { PoppedAmong self.now (cpu ∷ []) pass.old pass.new result }
    {
        let lock = DomainId::Freelist(cpu);
        let Content::Freelist(mut freelist) = self.table.take(rt, pass, lock, gate) else {
            unreachable!()
        };
        let popped = freelist.pop();
        let done = match &popped {
            Some(body) => {
                let element = body.body().element();
                self.table.claim(pass, element, lock);
                FreePart::Popped(element)
            }
            None => FreePart::FoundEmpty,
        };
        let part = Part::Free(done);
        self.table
            .give(pass, lock, Content::Freelist(freelist), Some(part), gate);
        popped
    }
}
