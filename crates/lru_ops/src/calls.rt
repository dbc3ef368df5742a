//! The calls on a map.

ghost use Rattle.std.specs.Prelude.{◌≡◌, ◌<◌, ◌≤◌, ◌==◌, ◌&&◌, IfErr, IsTrue, length};
ghost use Rattle.map_types.specs.declared.call.Verb.TheVariants as verbs;
ghost use Rattle.map_types.specs.declared.kind.Side.TheVariants.{Sys};
ghost use Rattle.map_types.specs.Kind.{is_lru, is_percpu};
ghost use Rattle.map_types.specs.ValueLen.{value_len_of};
ghost use Rattle.place_words.specs.Turns.{bucket_of_key};
ghost use Rattle.place_table.specs.Calls.{CanCall, reply_of_value, reply_of_done};
ghost use Rattle.lru_ops.specs.Calls.{CalledOn, MayRefuse, Updates};
ghost use Rattle.lru_ops.specs.Offers.{AreUpdateArguments, CanFreeLeft, HasFreedLeft, CanOffer, OfferAnswers, offer_of, update_call};

use crate::map::{LruMap, LruRefusal};
use crate::updates::Offered;
use bucket_chain::{BPF_EXIST, TakenBucket, Write};
use map_types::{Absent, Gate, Side};
use percpu_values::BoxedBody;
use place_table::{Pass, TakenOut};
use std::sync::Wait;

impl LruMap {
    /// Copies to `out` what a side reads of a key: on LRU_PERCPU_HASH the value of the pass's CPU for a program, and those of
    /// all CPUs for the system call; on LRU_HASH the value. `out` has as many bytes. A program's lookup that finds the key sets
    /// its element's bit, and the system call's doesn't. It is `Absent` (ENOENT), and `out` as it was, exactly where the
    /// bucket's turn found no such key. The rules are those of `htab_lru_map_lookup_elem`, `htab_lru_map_lookup_elem_sys`,
    /// `htab_lru_percpu_map_lookup_elem` and `bpf_percpu_hash_copy`.
    pub fn lookup<R: Wait, G: Gate>(
        &self,
        rt: &R,
        pass: &mut Pass,
        side: Side,
        key: &[u8],
        out: &mut [u8],
        gate: &G,
    ) -> Result<(), Absent>
        requires can { CanCall self.now pass.old }
        requires key { length key.now ≡ self.now.shape.key_size }
        requires out { length out.old ≡ value_len_of self.now.shape side }
        ensures called { CalledOn self.now pass.old pass.new (verbs.Lookup side key.now) key.now
            (reply_of_value result out.new) }
        ensures refused { IfErr result (λ _. out.new ≡ out.old) }
    {
        let number = self.bucket_of_key(key);
        let chain = self.enter(rt, pass, number, gate);
        let taken = TakenBucket { number, chain };
        self.table.look_up(pass, taken, side, key, out, gate)
    }

    /// Updates a key with a value of a side's length, by flags: BPF_ANY (0), BPF_NOEXIST (1) or BPF_EXIST (2). It is refused
    /// with `Einval` exactly where the flags are others, before anything is looked at. Else an element is taken first, which
    /// may evict others, but on LRU_PERCPU_HASH under BPF_EXIST; it is refused with `Enomem` exactly where none was found: then
    /// each free list that was looked at was empty, the CPU's own first, and each element that was probed was in the hand of
    /// another CPU. With one taken it is refused with `Eexist` or `Enoent` where the bucket's turn found the key there under
    /// BPF_NOEXIST, or not there under BPF_EXIST: so an update under BPF_EXIST may evict its own key. What isn't needed, or was
    /// replaced, is freed. It takes no memory that it needs: where memory for the entry of the key's bucket isn't found, the
    /// update is done and answers all the same, and the record of that bucket's turns is lost. The rules are those of
    /// `htab_lru_map_update_elem` and `__htab_lru_percpu_map_update_elem`.
    pub fn update<R: Wait, G: Gate>(
        &self,
        rt: &R,
        pass: &mut Pass,
        side: Side,
        flags: u32,
        key: &[u8],
        value: &[u8],
        gate: &G,
    ) -> Result<(), LruRefusal>
        requires can { CanCall self.now pass.old }
        requires key { length key.now ≡ self.now.shape.key_size }
        requires value { length value.now ≡ value_len_of self.now.shape side }
        ensures updates { Updates self.now pass.old pass.new
            (update_call side flags key.now value.now) result }
        ensures refuses { IfErr result (MayRefuse self.now.shape.kind flags) }
    {
        if flags > BPF_EXIST {
            return Err(LruRefusal::Einval);
        }
        if self.only_writes(flags) {
            return self.write_key(rt, pass, side, key, value, gate);
        }
        let hash = self.hash_of_key(key);
        match self.acquire(rt, pass, hash, gate) {
            Some(body) => {
                let write = Write {
                    side,
                    flags,
                    key,
                    value,
                };
                let number = self.bucket_of_hash(hash);
                self.offer(rt, pass, number, write, body, gate)
            }
            None => Err(LruRefusal::Enomem),
        }
    }

    /// Takes a key out of the map. It is `Absent` (ENOENT) exactly where the bucket's turn found no such key. The element is
    /// freed after that turn. The rule is that of `htab_lru_map_delete_elem`.
    pub fn delete<R: Wait, G: Gate>(
        &self,
        rt: &R,
        pass: &mut Pass,
        key: &[u8],
        gate: &G,
    ) -> Result<(), Absent>
        requires can { CanCall self.now pass.old }
        requires key { length key.now ≡ self.now.shape.key_size }
        ensures { CalledOn self.now pass.old pass.new (verbs.Delete key.now) key.now
            (reply_of_done result) }
    {
        let number = self.bucket_of_key(key);
        let chain = self.enter(rt, pass, number, gate);
        let taken = TakenBucket { number, chain };
        match self.table.delete_from(pass, taken, key, gate) {
            Some(removed) => {
                let TakenOut { body, chain } = removed;
                let element = body.body().element();
                let left = TakenBucket { number, chain };
                self.table.give_deleted(pass, left, key, element, gate);
                self.push_free(rt, pass, body, gate);
                Ok(())
            }
            None => Err(Absent),
        }
    }

    /// The same, and copies to `out` what the system call reads of the key. Where it is `Absent`, `out` is as it was. The rules
    /// are those of `htab_lru_map_lookup_and_delete_elem` and `htab_lru_percpu_map_lookup_and_delete_elem`.
    pub fn take_key<R: Wait, G: Gate>(
        &self,
        rt: &R,
        pass: &mut Pass,
        key: &[u8],
        out: &mut [u8],
        gate: &G,
    ) -> Result<(), Absent>
        requires can { CanCall self.now pass.old }
        requires key { length key.now ≡ self.now.shape.key_size }
        requires out { length out.old ≡ value_len_of self.now.shape Sys }
        ensures called { CalledOn self.now pass.old pass.new (verbs.Take key.now) key.now
            (reply_of_value result out.new) }
        ensures refused { IfErr result (λ _. out.new ≡ out.old) }
    {
        let number = self.bucket_of_key(key);
        let chain = self.enter(rt, pass, number, gate);
        let taken = TakenBucket { number, chain };
        match self.table.take_from(pass, taken, key, out, gate) {
            Some(removed) => {
                let TakenOut { body, chain } = removed;
                let element = body.body().element();
                let left = TakenBucket { number, chain };
                self.table.give_taken(pass, left, key, element, out, gate);
                self.push_free(rt, pass, body, gate);
                Ok(())
            }
            None => Err(Absent),
        }
    }

    /// Writes a present key in place, with no element taken for it.
    fn write_key<R: Wait, G: Gate>(
        &self,
        rt: &R,
        pass: &mut Pass,
        side: Side,
        key: &[u8],
        value: &[u8],
        gate: &G,
    ) -> Result<(), LruRefusal>
        requires can { CanCall self.now pass.old }
        requires gives { AreUpdateArguments self.now
            (bucket_of_key self.now.shape key.now) side key.now value.now }
        requires percpu { IsTrue (is_percpu self.now.shape.kind) }
        ensures updates { Updates self.now pass.old pass.new
            (update_call side 2 key.now value.now) result }
        ensures refuses { IfErr result (MayRefuse self.now.shape.kind 2) }
    {
        let number = self.bucket_of_key(key);
        let chain = self.enter(rt, pass, number, gate);
        let taken = TakenBucket { number, chain };
        self.write_present(pass, taken, side, key, value, gate)
    }

    /// Updates a key in its bucket, whose number this is, with an element that was taken for it, and frees what is left over.
    fn offer<R: Wait, G: Gate>(
        &self,
        rt: &R,
        pass: &mut Pass,
        number: u32,
        write: Write,
        body: BoxedBody,
        gate: &G,
    ) -> Result<(), LruRefusal>
        requires can { CanOffer self.now write.key.now body pass.old }
        requires there { number < self.now.shape.buckets }
        requires gives { AreUpdateArguments self.now number write.side write.key.now
            write.value.now }
        requires known { write.flags ≤ 2 }
        ensures answers { OfferAnswers self.now pass.old pass.new
            (offer_of write.entry.side write.entry.flags write.entry.key.now
            write.entry.value.now body.element) result }
        ensures refuses { IfErr result (MayRefuse self.now.shape.kind write.entry.flags) }
    {
        let chain = self.enter(rt, pass, number, gate);
        let taken = TakenBucket { number, chain };
        let Offered { answer, left } = self.update_in(pass, taken, write, body, gate);
        self.free_left(rt, pass, left, gate);
        answer
    }

    /// Frees what is left over, where there is anything.
    fn free_left<R: Wait, G: Gate>(
        &self,
        rt: &R,
        pass: &mut Pass,
        left: Option<BoxedBody>,
        gate: &G,
    )
        requires { CanFreeLeft self.now left pass.old }
        ensures { HasFreedLeft self.now left pass.old pass.new }
    {
        match left {
            Some(body) => self.push_free(rt, pass, body, gate),
            None => (),
        }
    }

    /// Whether an update takes no element and only writes in place.
    fn only_writes(&self, flags: u32) -> bool
        ensures value { result ≡ (is_percpu self.now.shape.kind && (flags == 2)) }
        ensures evicts { IsTrue (is_lru self.now.shape.kind) }
    {
        self.table.shape().kind.is_percpu() && flags == BPF_EXIST
    }
}
