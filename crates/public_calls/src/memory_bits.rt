//! Bits and bodies in memory, of elements below 6.

ghost use Rattle.std.specs.Prelude.{◌≡◌, ◌+◌, ◌≤◌, vec_len, vec_capacity, IfOk, IfSome};
ghost use Rattle.lru_lists.specs.Probes.{seen_of};

use lru_lists::{BitCall, Bits, Probe, ProbeCall, Probed};
use map_types::NoMemory;
use percpu_values::BoxedBody;
use place_words::{Seen, Visit};
use std::alloc::Global;

/// The bits of elements, the bodies of those that are in a bucket, and the calls in room that was taken when the table was
/// made. Every other element is in the hand of CPU 1.
#[derive(Drop)]
pub(crate) struct MemoryBits {
    bits: [bool; 6],
    bodies: Vec<BoxedBody>,
    calls: Vec<BitCall>,
    probes: Vec<ProbeCall>,
}

impl Bits for MemoryBits {
    ghost use Rattle.std.specs.Prelude.{◌+◌, ◌≤◌, vec_len, vec_capacity};

    ghost calls = { λ table. table.calls.items };

    ghost can_note = { λ table n. (vec_len table.calls + n ≤ vec_capacity table.calls) × (vec_len table.probes + n ≤ vec_capacity table.probes) };

    ghost may_ask = { λ _ _. Unit {0} };

    ghost lender = { λ _. 0 };

    ghost probes = { λ table. table.probes.items };

    ghost may_probe = { λ _ _. Unit {0} };

    ghost use Rattle.std.proofs.Common.{arith};

    ghost fewer = { λ table m n less can. let calls = can.0 in let probes = can.1 in (Prim.omega arith, Prim.omega arith) };

    fn clear(&mut self, element: u32) -> bool {
        let bit = self.bit(element);
        if bit && element < 6 {
            self.bits[element as usize] = false;
        }
        self.calls
            .push_reserved(BitCall::Cleared(Visit { element, bit }));
        bit
    }

    fn read(&mut self, element: u32) -> bool {
        let bit = self.bit(element);
        self.calls
            .push_reserved(BitCall::Read(Visit { element, bit }));
        bit
    }
}

impl Probe for MemoryBits {
    fn evict(&mut self, element: u32, hash: u32) -> Probed {
        let answer = match take_body(&mut self.bodies, element) {
            Some(body) => Probed::Removed(body),
            None => Probed::Held(1),
        };
        self.probes.push_reserved(ProbeCall {
            element,
            hash,
            probed: seen(&answer),
        });
        answer
    }
}

impl MemoryBits {
    ghost use Rattle.std.specs.Prelude.{◌+◌, ◌≤◌, IfOk, vec_len, vec_capacity};

    /// With the bits of some elements set, others in a bucket, and room for so many calls of each kind.
    pub(crate) fn of(
        alloc: Global,
        set: &[u32],
        bodies: &[u32],
        room: usize,
    ) -> Result<MemoryBits, NoMemory>
        ensures { IfOk result (λ table. (vec_len table.calls + room ≤ vec_capacity table.calls) × (vec_len table.probes + room ≤ vec_capacity table.probes)) }
    {
        Ok(MemoryBits {
            bits: bits_of(set),
            bodies: bodies_of(alloc, bodies)?,
            calls: Vec::with_capacity(alloc, room)?,
            probes: Vec::with_capacity(alloc, room)?,
        })
    }

    /// Whether no bit is set.
    pub(crate) fn is_clear(&self) -> bool {
        self.bits == [false; 6]
    }

    /// The bit of an element.
    fn bit(&self, element: u32) -> bool {
        element < 6 && self.bits[element as usize]
    }
}

fn bits_of(set: &[u32]) -> [bool; 6] {
    let mut bits = [false; 6];
    for element in set {
        if *element < 6 {
            bits[*element as usize] = true;
        }
    }
    bits
}

fn bodies_of(alloc: Global, elements: &[u32]) -> Result<Vec<BoxedBody>, NoMemory> {
    let mut bodies = Vec::new(alloc);
    for element in elements {
        bodies.push(BoxedBody::create(alloc, *element, 1, 1, 1)?)?;
    }
    Ok(bodies)
}

/// Takes out the body of an element, where there is one.
fn take_body(bodies: &mut Vec<BoxedBody>, element: u32) -> Option<BoxedBody>
    ensures { IfSome result (λ body. body.element ≡ element) }
{
    for at in 0..bodies.len() {
        if bodies[at].body().element() == element {
            return Some(bodies.remove(at));
        }
    }
    None
}

/// An answer without the body.
fn seen(answer: &Probed) -> Seen
    ensures { result ≡ seen_of answer.now }
{
    match answer {
        Probed::Removed(_) => Seen::Removed,
        Probed::Held(cpu) => Seen::Held(*cpu),
    }
}
