//! Updates in a key's bucket.

ghost use Rattle.std.specs.Prelude.{◌≡◌, ◌<◌, ◌≤◌, IfErr, IsTrue, None};
ghost use Rattle.map_types.specs.Kind.{is_percpu};
ghost use Rattle.place_words.specs.Bodies.{present};
ghost use Rattle.place_table.specs.InBucket.{IsAt};
ghost use Rattle.place_table.specs.BucketHeld.{HoldsBucket};
ghost use Rattle.lru_ops.specs.Calls.{MayRefuse};
ghost use Rattle.lru_ops.specs.Offers.{AreUpdateArguments, IsOffered, OfferEnds, AloneEnds, offer_of, update_call};

use crate::map::{LruMap, LruRefusal};
use bucket_chain::{BPF_EXIST, BPF_NOEXIST, TakenBucket, Write};
use map_types::{Gate, Side};
use percpu_values::BoxedBody;
use place_table::Pass;
use place_words::Put;

/// What an update that was offered an element left: its answer, and the body that has to be freed.
pub(crate) struct Offered {
    pub(crate) answer: Result<(), LruRefusal>,
    pub(crate) left: Option<BoxedBody>,
}

impl LruMap {
    /// Updates a key in its bucket, by flags that are known, with an element that was taken for it, as in the kernel's
    /// `htab_lru_map_update_elem` and `__htab_lru_percpu_map_update_elem`. What isn't needed, or was replaced, is left over.
    pub(crate) fn update_in<G: Gate>(
        &self,
        pass: &mut Pass,
        taken: TakenBucket,
        write: Write,
        body: BoxedBody,
        gate: &G,
    ) -> Offered
        requires holds { HoldsBucket self.now taken.number pass.old taken.chain.bodies }
        requires gives { AreUpdateArguments self.now taken.number write.side write.key.now
            write.value.now }
        requires offered { IsOffered self.now taken.number pass.old body }
        requires real { body.element < self.now.shape.elements }
        requires known { write.flags ≤ 2 }
        ensures ends { OfferEnds self.now taken.number pass.old pass.new
            (offer_of write.entry.side write.entry.flags write.entry.key.now
            write.entry.value.now body.element) result.left result.answer }
        ensures refuses { IfErr result.answer (MayRefuse self.now.shape.kind write.entry.flags) }
    {
        match taken.chain.find(write.key) {
            Some(place) => self.update_present(pass, taken, place, write, body, gate),
            None => self.update_absent(pass, taken, write, body, gate),
        }
    }

    /// An update of a key that is present.
    fn update_present<G: Gate>(
        &self,
        pass: &mut Pass,
        taken: TakenBucket,
        place: u32,
        write: Write,
        body: BoxedBody,
        gate: &G,
    ) -> Offered
        requires holds { HoldsBucket self.now taken.number pass.old taken.chain.bodies }
        requires gives { AreUpdateArguments self.now taken.number write.side write.key.now
            write.value.now }
        requires offered { IsOffered self.now taken.number pass.old body }
        requires real { body.element < self.now.shape.elements }
        requires at { IsAt write.key.now place taken.chain.bodies }
        requires known { write.flags ≤ 2 }
        ensures ends { OfferEnds self.now taken.number pass.old pass.new
            (offer_of write.entry.side write.entry.flags write.entry.key.now
            write.entry.value.now body.element) result.left result.answer }
        ensures refuses { IfErr result.answer (MayRefuse self.now.shape.kind write.entry.flags) }
    {
        let offer = Some(body.body().element());
        if write.flags == BPF_NOEXIST {
            self.table
                .refuse_update(pass, taken, write, offer, Put::Exists, gate);
            return Offered {
                answer: Err(LruRefusal::Eexist),
                left: Some(body),
            };
        }
        if self.table.shape().kind.is_percpu() {
            self.table.write_key(pass, taken, place, write, offer, gate);
            return Offered {
                answer: Ok(()),
                left: Some(body),
            };
        }
        let old = self
            .table
            .replace_key(pass, taken, place, write, body, gate);
        Offered {
            answer: Ok(()),
            left: Some(old),
        }
    }

    /// An update of a key that is absent.
    fn update_absent<G: Gate>(
        &self,
        pass: &mut Pass,
        taken: TakenBucket,
        write: Write,
        body: BoxedBody,
        gate: &G,
    ) -> Offered
        requires holds { HoldsBucket self.now taken.number pass.old taken.chain.bodies }
        requires gives { AreUpdateArguments self.now taken.number write.side write.key.now
            write.value.now }
        requires offered { IsOffered self.now taken.number pass.old body }
        requires real { body.element < self.now.shape.elements }
        requires absent { present write.key.now taken.chain.bodies ≡ None }
        requires known { write.flags ≤ 2 }
        ensures ends { OfferEnds self.now taken.number pass.old pass.new
            (offer_of write.entry.side write.entry.flags write.entry.key.now
            write.entry.value.now body.element) result.left result.answer }
        ensures refuses { IfErr result.answer (MayRefuse self.now.shape.kind write.entry.flags) }
    {
        if write.flags == BPF_EXIST {
            let offer = Some(body.body().element());
            self.table
                .refuse_update(pass, taken, write, offer, Put::Absent, gate);
            return Offered {
                answer: Err(LruRefusal::Enoent),
                left: Some(body),
            };
        }
        self.table.add_key(pass, taken, write, body, gate);
        Offered {
            answer: Ok(()),
            left: None,
        }
    }

    /// Updates a present key in place, and no other, where no element was taken for it.
    pub(crate) fn write_present<G: Gate>(
        &self,
        pass: &mut Pass,
        taken: TakenBucket,
        side: Side,
        key: &[u8],
        value: &[u8],
        gate: &G,
    ) -> Result<(), LruRefusal>
        requires holds { HoldsBucket self.now taken.number pass.old taken.chain.bodies }
        requires gives { AreUpdateArguments self.now taken.number side key.now value.now }
        requires percpu { IsTrue (is_percpu self.now.shape.kind) }
        ensures ends { AloneEnds self.now taken.number pass.old pass.new
            (update_call side 2 key.now value.now) result }
        ensures refuses { IfErr result (MayRefuse self.now.shape.kind 2) }
    {
        let write = Write {
            side,
            flags: BPF_EXIST,
            key,
            value,
        };
        match taken.chain.find(key) {
            Some(place) => {
                self.table.write_key(pass, taken, place, write, None, gate);
                Ok(())
            }
            None => {
                self.table
                    .refuse_update(pass, taken, write, None, Put::Absent, gate);
                Err(LruRefusal::Enoent)
            }
        }
    }
}
