//! Bits and probes that are answered as an entry tells them.

ghost use Rattle.std.specs.Prelude.{◌≡◌, ◌≤◌, [], IfSome, OnOk, get_or, false, vec_len, vec_capacity};
ghost use Rattle.place_words.specs.declared.bucket_part.Seen.TheVariants as seen;
ghost use Rattle.lru_lists.specs.Probes.{seen_of, IfRemoved};

use lru_lists::{BitCall, Bits, Probe, ProbeCall, Probed};
use map_types::NoMemory;
use percpu_values::BoxedBody;
use place_words::{Seen, Visit};
use std::alloc::Global;
use std::marker::{Brand, PhantomData};

/// What is told: bits, and what probes found. Each walk is called at `Brand`, whose members the proof of the call picks.
pub(crate) trait Telling {
    ghost use Rattle.std.specs.Prelude.{List, Bool};
    ghost use Rattle.place_words.specs.declared.bucket_part.Seen.{Seen};

    ghost bits: { List Bool };

    ghost seens: { List Seen };
}

impl Telling for Brand {
    ghost use Rattle.std.specs.Prelude.{[]};

    ghost bits = { [] };

    ghost seens = { [] };
}

/// What a walk asked: its calls for bits, and its probes. The room for them is kept from walk to walk.
#[derive(Drop)]
pub(crate) struct Calls {
    pub(crate) bits: Vec<BitCall>,
    pub(crate) probes: Vec<ProbeCall>,
}

impl Calls {
    /// None, and no room.
    pub(crate) fn empty(alloc: Global) -> Calls {
        Calls {
            bits: Vec::new(alloc),
            probes: Vec::new(alloc),
        }
    }

    /// Forgets all, and makes room for so many of both.
    pub(crate) fn begin(&mut self, count: usize) -> Result<(), NoMemory>
        ensures bits { OnOk result ((self.new.bits.items ≡ []) × (vec_len self.new.bits ≡ 0)
            × (count ≤ vec_capacity self.new.bits)) }
        ensures probes { OnOk result ((self.new.probes.items ≡ []) × (vec_len self.new.probes ≡ 0)
            × (count ≤ vec_capacity self.new.probes)) }
    {
        self.bits.clear();
        self.bits.reserve(count)?;
        self.probes.clear();
        self.probes.reserve(count)?;
        Ok(())
    }
}

/// An object that answers for bits and probes, by place, whatever element it is asked of. The calls are kept in room that was
/// taken when it was made. An element that is told to be removed has to be handed over with a body: where no memory for that is
/// found, `lost` is set, and the answers mean nothing from there on.
#[derive(Drop)]
pub(crate) struct Told<'a, K> {
    pub(crate) alloc: Global,
    pub(crate) bits: &'a [bool],
    pub(crate) seens: &'a [Seen],
    pub(crate) calls: Vec<BitCall>,
    pub(crate) probes: Vec<ProbeCall>,
    pub(crate) lost: bool,
    pub(crate) since: PhantomData<K>,
}

impl<'a, K> Told<'a, K> {
    /// Gives back what was asked. Whether an answer was lost.
    pub(crate) fn give_back(self, calls: &mut Calls) -> bool
        ensures calls { calls.new ≡ record { bits = self.entry.calls; probes = self.entry.probes } }
        ensures lost { result ≡ self.entry.lost }
    {
        let Told {
            calls: bits,
            probes,
            lost,
            ..
        } = self;
        calls.bits = bits;
        calls.probes = probes;
        lost
    }
}

impl<'a, K: Telling> Bits for Told<'a, K> {
    ghost use Rattle.std.specs.Prelude.{◌≡◌, ◌+◌, ◌≤◌, vec_len, vec_capacity};
    ghost use Rattle.std.proofs.Common.{arith};
    ghost use Rattle.set_replay.specs.ByPlace.{Fed};

    ghost calls = { λ s. s.calls.items };

    ghost can_note = { λ s n. (vec_len s.calls + n ≤ vec_capacity s.calls) × (vec_len s.probes + n ≤ vec_capacity s.probes)
        × (s.bits.now ≡ K.bits) × (s.seens.now ≡ K.seens) × Fed K.bits K.seens s.calls.items s.probes.items s.lost };

    ghost may_ask = { λ _ _. Unit {0} };

    ghost lender = { λ _. 0 };

    ghost probes = { λ s. s.probes.items };

    ghost may_probe = { λ _ _. Unit {0} };

    ghost fewer = { λ s m n less can. let calls = can.0 in let probes = can.1 in (Prim.omega arith, Prim.omega arith, can.2, can.3, can.4) };

    fn clear(&mut self, element: u32) -> bool {
        let bit = bit_at(self.bits, self.calls.as_slice().len());
        self.calls
            .push_reserved(BitCall::Cleared(Visit { element, bit }));
        bit
    }

    fn read(&mut self, element: u32) -> bool {
        let bit = bit_at(self.bits, self.calls.as_slice().len());
        self.calls
            .push_reserved(BitCall::Read(Visit { element, bit }));
        bit
    }
}

impl<'a, K: Telling> Probe for Told<'a, K> {
    fn evict(&mut self, element: u32, hash: u32) -> Probed {
        let told = seen_at(self.seens, self.probes.as_slice().len());
        match answer_of(self.alloc, told, element) {
            Some(answer) => {
                self.probes.push_reserved(ProbeCall {
                    element,
                    hash,
                    probed: told,
                });
                answer
            }
            None => {
                self.lost = true;
                self.probes.push_reserved(ProbeCall {
                    element,
                    hash,
                    probed: Seen::Held(0),
                });
                Probed::Held(0)
            }
        }
    }
}

/// The bit that is told at a place, behind the end of the bits false.
fn bit_at(bits: &[bool], at: usize) -> bool
    ensures { result ≡ get_or bits.now at false }
{
    if at < bits.len() { bits[at] } else { false }
}

/// What a probe is told to have found at a place, behind the end that CPU 0 has the element in its hand.
fn seen_at(seens: &[Seen], at: usize) -> Seen
    ensures { result ≡ get_or seens.now at (seen.Held 0) }
{
    if at < seens.len() {
        seens[at]
    } else {
        Seen::Held(0)
    }
}

/// The answer of a probe that found this: None where memory for a body isn't found.
fn answer_of(alloc: Global, told: Seen, element: u32) -> Option<Probed>
    ensures told { IfSome result (λ answer. seen_of answer ≡ told) }
    ensures body { IfSome result (λ answer. IfRemoved answer (λ body. body.element ≡ element)) }
{
    match told {
        Seen::Removed => {
            let body = BoxedBody::create(alloc, element, 0, 0, 0).ok()?;
            Some(Probed::Removed(body))
        }
        Seen::Held(cpu) => Some(Probed::Held(cpu)),
    }
}
