//! A map of any kind, and its calls on one key.

ghost use Rattle.std.specs.Prelude.{◌≡◌, ℕ, ◌<◌, true, false, IfErr, IfOk, length};
ghost use Rattle.map_types.specs.Creation.{IsShape};
ghost use Rattle.map_types.specs.declared.call.Verb.TheVariants as verbs;
ghost use Rattle.map_types.specs.declared.kind.Side.TheVariants.{Sys};
ghost use Rattle.map_types.specs.ValueLen.{value_len_of};
ghost use Rattle.place_table.specs.Calls.{CanCall, reply_of_value, reply_of_done};
ghost use Rattle.place_table.specs.KeyCalls.{CalledOn};
ghost use Rattle.place_table.specs.Closing.{IsClosed};
ghost use Rattle.place_table.specs.Passes.{IsFirstPass, IsPassOf, IsInNoCall};
ghost use Rattle.place_table.specs.Views.{is_among};
ghost use Rattle.map_batch.specs.Calls.{table_of, IsOfItsSort, Updates, update_call, MayRefuse, answer_of_plain, answer_of_lru};

use hash_ops::{PlainMap, PlainRefusal};
use lru_ops::{LruMap, LruRefusal};
use map_types::{Absent, Errno, Gate, NoMemory, Shape, Side};
use place_table::{Closed, Pass, PlaceTable};
use std::alloc::Global;
use std::sync::Wait;

/// A map that doesn't evict, or one that evicts, whose CPUs share lists or have lists of their own (NO_COMMON_LRU). It may be
/// shared by threads, each of which has a pass.
#[derive(Drop)]
pub enum AnyMap {
    Plain(PlainMap),
    Lru(LruMap),
}

impl AnyMap {
    /// A new map, and its first pass, which has all CPUs and spares and is in no call. Memory for all elements is found
    /// here. The rule of `htab_map_alloc`, without the checks of the attributes.
    pub fn create(alloc: Global, shape: &Shape) -> Result<(AnyMap, Pass), NoMemory>
        requires shape { IsShape shape.now }
        ensures { IfOk result (λ made. ((table_of made.0).shape ≡ shape.now)
            × IsFirstPass (table_of made.0) made.1) }
    {
        if shape.kind.is_lru() {
            let (map, pass) = LruMap::create(alloc, shape)?;
            Ok((AnyMap::Lru(map), pass))
        } else {
            let (map, pass) = PlainMap::create(alloc, shape)?;
            Ok((AnyMap::Plain(map), pass))
        }
    }

    /// The table of the map, whose shape is within the limits, and whose kind evicts exactly where the map does.
    pub fn table(&self) -> &PlaceTable
        ensures value { result.now ≡ table_of self.now }
        ensures shape { IsShape (table_of self.now).shape }
        ensures sort { IsOfItsSort self.now }
    {
        match self {
            AnyMap::Plain(map) => map.table(),
            AnyMap::Lru(map) => map.table(),
        }
    }

    /// Closes a map whose one pass has all CPUs and is in no call, and hands out what is left. Where there is no memory
    /// for that, the map and the pass are gone.
    pub fn close(self, pass: Pass) -> Result<Closed, NoMemory>
        requires table { IsPassOf (table_of self) pass }
        requires all_cpus { (c : ℕ) → c < (table_of self).shape.cpus
            → is_among c pass.view.cpus ≡ true }
        requires in_no_call { IsInNoCall pass }
        ensures { IfOk result (λ closed. IsClosed (table_of self).shape pass closed) }
    {
        match self {
            AnyMap::Plain(map) => map.close(pass),
            AnyMap::Lru(map) => map.close(pass),
        }
    }

    /// Copies to `out` what a side reads of a key: on the per-CPU kinds the value of the pass's CPU for a program, and those of
    /// all CPUs for the system call; else the value. `out` has as many bytes. It is `Absent` (ENOENT), and `out` as it was,
    /// exactly where the bucket's turn found no such key.
    #[inline(always)]
    pub fn lookup<R: Wait, G: Gate>(
        &self,
        rt: &R,
        pass: &mut Pass,
        side: Side,
        key: &[u8],
        out: &mut [u8],
        gate: &G,
    ) -> Result<(), Absent>
        requires can { CanCall (table_of self.now) pass.old }
        requires key { length key.now ≡ (table_of self.now).shape.key_size }
        requires out { length out.old ≡ value_len_of (table_of self.now).shape side }
        ensures called { CalledOn (table_of self.now) pass.old pass.new (verbs.Lookup side key.now)
            key.now (reply_of_value result out.new) }
        ensures refused { IfErr result (λ _. out.new ≡ out.old) }
    {
        match self {
            AnyMap::Plain(map) => map.lookup(rt, pass, side, key, out, gate),
            AnyMap::Lru(map) => map.lookup(rt, pass, side, key, out, gate),
        }
    }

    /// Updates a key with a value of a side's length, by flags: BPF_ANY (0), BPF_NOEXIST (1) or BPF_EXIST (2). The trace says
    /// which error is answered; `Einval` comes before anything is looked at. `E2big` comes only of a map that doesn't evict, and
    /// `Enomem` only of one that does, and shows why no element was found. It takes no memory that it needs: where memory for the
    /// entry of the key's bucket isn't found, the record of that bucket's turns is lost, and the answer is the same. A map that
    /// doesn't evict gives back no other lock without a part. The rules are those of `PlainMap::update` and `LruMap::update`.
    #[inline(always)]
    pub fn update<R: Wait, G: Gate>(
        &self,
        rt: &R,
        pass: &mut Pass,
        side: Side,
        flags: u32,
        key: &[u8],
        value: &[u8],
        gate: &G,
    ) -> Result<(), Errno>
        requires can { CanCall (table_of self.now) pass.old }
        requires key { length key.now ≡ (table_of self.now).shape.key_size }
        requires value { length value.now ≡ value_len_of (table_of self.now).shape side }
        ensures updates { Updates (table_of self.now) pass.old pass.new
            (update_call side flags key.now value.now) result }
        ensures refuses { IfErr result (MayRefuse (table_of self.now).shape.kind flags) }
    {
        // Which answers there are goes by the map's kind.
        let _table = self.table();
        match self {
            AnyMap::Plain(map) => {
                plain_answer(map.update(rt, pass, side, flags, key, value, gate))
            }
            AnyMap::Lru(map) => lru_answer(map.update(rt, pass, side, flags, key, value, gate)),
        }
    }

    /// Takes a key out of the map. It is `Absent` (ENOENT) exactly where the bucket's turn found no such key.
    #[inline(always)]
    pub fn delete<R: Wait, G: Gate>(
        &self,
        rt: &R,
        pass: &mut Pass,
        key: &[u8],
        gate: &G,
    ) -> Result<(), Absent>
        requires can { CanCall (table_of self.now) pass.old }
        requires key { length key.now ≡ (table_of self.now).shape.key_size }
        ensures { CalledOn (table_of self.now) pass.old pass.new (verbs.Delete key.now) key.now
            (reply_of_done result) }
    {
        match self {
            AnyMap::Plain(map) => map.delete(rt, pass, key, gate),
            AnyMap::Lru(map) => map.delete(rt, pass, key, gate),
        }
    }

    /// The same, and copies to `out` what the system call reads of the key. Where it is `Absent`, `out` is as it was.
    pub fn take_key<R: Wait, G: Gate>(
        &self,
        rt: &R,
        pass: &mut Pass,
        key: &[u8],
        out: &mut [u8],
        gate: &G,
    ) -> Result<(), Absent>
        requires can { CanCall (table_of self.now) pass.old }
        requires key { length key.now ≡ (table_of self.now).shape.key_size }
        requires out { length out.old ≡ value_len_of (table_of self.now).shape Sys }
        ensures called { CalledOn (table_of self.now) pass.old pass.new (verbs.Take key.now) key.now
            (reply_of_value result out.new) }
        ensures refused { IfErr result (λ _. out.new ≡ out.old) }
    {
        match self {
            AnyMap::Plain(map) => map.take_key(rt, pass, key, out, gate),
            AnyMap::Lru(map) => map.take_key(rt, pass, key, out, gate),
        }
    }
}

/// The answer of an update of a map that doesn't evict.
fn plain_answer(answer: Result<(), PlainRefusal>) -> Result<(), Errno>
    ensures { result ≡ answer_of_plain answer }
{
    match answer {
        Ok(()) => Ok(()),
        Err(PlainRefusal::Einval) => Err(Errno::Einval),
        Err(PlainRefusal::Enoent) => Err(Errno::Enoent),
        Err(PlainRefusal::Eexist) => Err(Errno::Eexist),
        Err(PlainRefusal::E2big) => Err(Errno::E2big),
    }
}

/// The answer of an update of a map that evicts.
fn lru_answer(answer: Result<(), LruRefusal>) -> Result<(), Errno>
    ensures { result ≡ answer_of_lru answer }
{
    match answer {
        Ok(()) => Ok(()),
        Err(LruRefusal::Einval) => Err(Errno::Einval),
        Err(LruRefusal::Enoent) => Err(Errno::Enoent),
        Err(LruRefusal::Eexist) => Err(Errno::Eexist),
        Err(LruRefusal::Enomem) => Err(Errno::Enomem),
    }
}
