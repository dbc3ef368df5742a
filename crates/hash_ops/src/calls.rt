//! The calls on a map.

ghost use Rattle.std.specs.Prelude.{◌≡◌, IfErr, length};
ghost use Rattle.map_types.specs.declared.call.Verb.TheVariants as verbs;
ghost use Rattle.map_types.specs.declared.kind.Side.TheVariants.{Sys};
ghost use Rattle.map_types.specs.ValueLen.{value_len_of};
ghost use Rattle.hash_ops.specs.Calls.{CanCall, CalledOn, MayRefuse, Updates, update_call, reply_of_value, reply_of_done};

use crate::map::{PlainMap, PlainRefusal};
use bucket_chain::{BPF_EXIST, TakenBucket, Write};
use map_types::{Absent, Gate, Side};
use place_table::{Pass, TakenOut};
use std::sync::Wait;

impl PlainMap {
    /// Copies to `out` what a side reads of a key: on PERCPU_HASH the value of the pass's CPU for a program, and those of all
    /// CPUs for the system call; on HASH the value. `out` has as many bytes. It is `Absent` (ENOENT), and `out` as it was,
    /// exactly where the bucket's turn found no such key. The rules are those of `htab_map_lookup_elem`,
    /// `htab_percpu_map_lookup_elem` and `bpf_percpu_hash_copy`.
    pub fn lookup<R: Wait, G: Gate>(
        &self,
        rt: &R,
        pass: &mut Pass,
        side: Side,
        key: &[u8],
        out: &mut [u8],
        gate: &G,
    ) -> Result<(), Absent>
        requires can { CanCall self.now pass.old }
        requires key { length key.now ≡ self.now.shape.key_size }
        requires out { length out.old ≡ value_len_of self.now.shape side }
        ensures called { CalledOn self.now pass.old pass.new (verbs.Lookup side key.now) key.now
            (reply_of_value result out.new) }
        ensures refused { IfErr result (λ _. out.new ≡ out.old) }
    {
        let number = self.bucket_of_key(key);
        let chain = self.enter(rt, pass, number, gate);
        let taken = TakenBucket { number, chain };
        self.table.look_up(pass, taken, side, key, out, gate)
    }

    /// Updates a key with a value of a side's length, by flags: BPF_ANY (0), BPF_NOEXIST (1) or BPF_EXIST (2). It is refused
    /// with `Einval` exactly where the flags are others, before anything is looked at; with `Eexist` or `Enoent` where the
    /// bucket's turn found the key there under BPF_NOEXIST, or not there under BPF_EXIST; with `E2big` where the key isn't
    /// there and each CPU's freelist, looked at from the CPU's own upwards, was found empty. After a refusal the bucket is as
    /// its turn found it. It takes no memory that it needs: where none is found for the entry of the bucket's turn, the record
    /// of that bucket's turns is lost, and the answer is the same. The rules are those of `htab_map_update_elem`,
    /// `__htab_percpu_map_update_elem` and `bpf_percpu_hash_update`.
    pub fn update<R: Wait, G: Gate>(
        &self,
        rt: &R,
        pass: &mut Pass,
        side: Side,
        flags: u32,
        key: &[u8],
        value: &[u8],
        gate: &G,
    ) -> Result<(), PlainRefusal>
        requires can { CanCall self.now pass.old }
        requires key { length key.now ≡ self.now.shape.key_size }
        requires value { length value.now ≡ value_len_of self.now.shape side }
        ensures updates { Updates self.now pass.old pass.new
            (update_call side flags key.now value.now) result }
        ensures refuses { IfErr result (MayRefuse flags) }
    {
        if flags > BPF_EXIST {
            return Err(PlainRefusal::Einval);
        }
        let number = self.bucket_of_key(key);
        let chain = self.enter(rt, pass, number, gate);
        let taken = TakenBucket { number, chain };
        let write = Write {
            side,
            flags,
            key,
            value,
        };
        self.update_in(rt, pass, taken, write, gate)
    }

    /// Takes a key out of the map. It is `Absent` (ENOENT) exactly where the bucket's turn found no such key. The element goes
    /// on the freelist of the pass's CPU. The rule is that of `htab_map_delete_elem`.
    pub fn delete<R: Wait, G: Gate>(
        &self,
        rt: &R,
        pass: &mut Pass,
        key: &[u8],
        gate: &G,
    ) -> Result<(), Absent>
        requires can { CanCall self.now pass.old }
        requires key { length key.now ≡ self.now.shape.key_size }
        ensures { CalledOn self.now pass.old pass.new (verbs.Delete key.now) key.now
            (reply_of_done result) }
    {
        let number = self.bucket_of_key(key);
        let chain = self.enter(rt, pass, number, gate);
        let taken = TakenBucket { number, chain };
        match self.table.delete_from(pass, taken, key, gate) {
            Some(removed) => {
                let TakenOut { body, chain } = removed;
                let element = self.push_out(rt, pass, body, gate);
                let left = TakenBucket { number, chain };
                self.table.give_deleted(pass, left, key, element, gate);
                Ok(())
            }
            None => Err(Absent),
        }
    }

    /// The same, and copies to `out` what the system call reads of the key. Where it is `Absent`, `out` is as it was. The rules
    /// are those of `htab_map_lookup_and_delete_elem` and `htab_percpu_map_lookup_and_delete_elem`.
    pub fn take_key<R: Wait, G: Gate>(
        &self,
        rt: &R,
        pass: &mut Pass,
        key: &[u8],
        out: &mut [u8],
        gate: &G,
    ) -> Result<(), Absent>
        requires can { CanCall self.now pass.old }
        requires key { length key.now ≡ self.now.shape.key_size }
        requires out { length out.old ≡ value_len_of self.now.shape Sys }
        ensures called { CalledOn self.now pass.old pass.new (verbs.Take key.now) key.now
            (reply_of_value result out.new) }
        ensures refused { IfErr result (λ _. out.new ≡ out.old) }
    {
        let number = self.bucket_of_key(key);
        let chain = self.enter(rt, pass, number, gate);
        let taken = TakenBucket { number, chain };
        match self.table.take_from(pass, taken, key, out, gate) {
            Some(removed) => {
                let TakenOut { body, chain } = removed;
                let element = self.push_out(rt, pass, body, gate);
                let left = TakenBucket { number, chain };
                self.table.give_taken(pass, left, key, element, out, gate);
                Ok(())
            }
            None => Err(Absent),
        }
    }
}
