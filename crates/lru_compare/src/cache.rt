//! A map of strict recency, over the keys and values that it is lent.

ghost use Rattle.std.specs.Prelude.{◌≡◌, ◌<◌, ◌^◌, ◌-◌, ◌+◌, ◌∷◌, ◌&&◌, not, ℕ, List, Some, OnOk, OnErr, IfOk, length, if◌then◌else◌};
ghost use Rattle.lru_compare.specs.Strict.{holds_none, refusal, used_by, looked_up, put_in, taken_out, value_of, without, with_pairs, within_capacity, after_call, held_after, replies_from};
ghost use Rattle.map_types.specs.declared.reply.Reply.TheVariants as replies;

use lru::LruCache;
use map_types::{Bytes, Call, Errno, NoMemory, Reply, Side, Verb};
use std::alloc::Global;
use std::marker::Model;
use std::num::NonZeroUsize;

/// Pairs, the most recently used first, of keys and values that lie elsewhere, and how many were evicted.
#[derive(Drop)]
pub(crate) struct Strict<'a> {
    pairs: LruCache<&'a [u8], &'a [u8]>,
    evicted: u32,
}

impl<'a> Model for Strict<'a> {
    ghost use Rattle.std.specs.Prelude.{map};
    ghost use Rattle.lru_compare.specs.Strict.{Held};

    ghost Value = { Held };

    ghost view = { λ s. record { capacity = s.pairs.cap; pairs = map (λ pair. (pair.0.now, pair.1.now)) s.pairs.entries; evicted = s.evicted } };
}

impl<'a> Strict<'a> {
    /// An empty one of so many pairs.
    pub(crate) fn new(alloc: Global, capacity: u32) -> Result<Strict<'a>, NoMemory>
        requires { 0 < capacity }
        ensures { IfOk result (λ held. held ≡ holds_none capacity) }
    {
        let pairs = match NonZeroUsize::new(capacity as usize) {
            Some(capacity) => LruCache::new(alloc, capacity)?,
            None => unreachable!(),
        };
        Ok(Strict { pairs, evicted: 0 })
    }

    /// How many pairs were evicted.
    pub(crate) fn evicted(&self) -> u32
        ensures { result ≡ self.now.evicted }
    {
        self.evicted
    }

    /// A side's lookup. Where it finds its key, a program's moves the pair to the front.
    pub(crate) fn look_up(
        &mut self,
        alloc: Global,
        side: Side,
        key: &[u8],
    ) -> Result<Reply, NoMemory>
        ensures held { OnOk result (self.new ≡ (looked_up side key.now (value_of key.now self.old) self.old).0) }
        ensures reply { IfOk result (λ reply. reply ≡ (looked_up side key.now (value_of key.now self.old) self.old).1) }
        ensures failed { OnErr result (self.new ≡ self.old) }
    {
        let value = match self.pairs.peek(key) {
            Some(value) => *value,
            None => return Ok(Reply::Refused(Errno::Enoent)),
        };
        let reply = Reply::Value(Bytes::from_slice(alloc, value)?);
        self.use_by(side, key);
        Ok(reply)
    }

    /// A key that is there is used by a side.
    fn use_by(&mut self, side: Side, key: &[u8])
        ensures { (value : List ℕ) → value_of key.now self.old ≡ Some value
            → self.new ≡ used_by side key.now value self.old }
    {
        match side {
            Side::Prog => {
                self.pairs.promote(key);
            }
            Side::Sys => {}
        }
    }

    /// An update. Where it isn't refused, its pair comes first, the key's older one goes, and where there are more pairs than
    /// there may be the last one goes.
    pub(crate) fn update(
        &mut self,
        flags: u32,
        key: &'a [u8],
        value: &'a [u8],
    ) -> Result<Reply, NoMemory>
        requires { self.old.evicted < 2 ^ 32 - 1 }
        ensures held { OnOk result (self.new ≡ (put_in flags key.now value.now self.old).0) }
        ensures reply { IfOk result (λ reply. reply ≡ (put_in flags key.now value.now self.old).1) }
        ensures failed { OnErr result (self.new ≡ self.old) }
    {
        match refusal(flags, self.pairs.contains(key)) {
            Some(errno) => Ok(Reply::Refused(errno)),
            None => {
                self.put(key, value)?;
                Ok(Reply::Done)
            }
        }
    }

    /// Puts a pair first.
    fn put(&mut self, key: &'a [u8], value: &'a [u8]) -> Result<(), NoMemory>
        requires { self.old.evicted < 2 ^ 32 - 1 }
        ensures held { OnOk result (self.new ≡ within_capacity (with_pairs self.old
            ((key.now, value.now) ∷ without key.now self.old))) }
        ensures failed { OnErr result (self.new ≡ self.old) }
    {
        let is_full = self.pairs.len() == self.pairs.cap().get();
        let older = self.pairs.put(key, value)?;
        self.evicted = counted(self.evicted, is_full, older.is_some());
        Ok(())
    }

    /// A delete. The pair goes.
    pub(crate) fn delete(&mut self, key: &[u8]) -> Reply
        ensures held { self.new ≡ (taken_out key.now (λ value. replies.Done) (value_of key.now self.old) self.old).0 }
        ensures reply { result ≡ (taken_out key.now (λ value. replies.Done) (value_of key.now self.old) self.old).1 }
    {
        let Some(_) = self.pairs.pop(key) else {
            return Reply::Refused(Errno::Enoent);
        };
        Reply::Done
    }

    /// A take. The pair goes, and its value is the answer.
    pub(crate) fn take(&mut self, alloc: Global, key: &[u8]) -> Result<Reply, NoMemory>
        ensures held { OnOk result (self.new ≡ (taken_out key.now replies.Value (value_of key.now self.old) self.old).0) }
        ensures reply { IfOk result (λ reply. reply ≡ (taken_out key.now replies.Value
            (value_of key.now self.old) self.old).1) }
    {
        let Some(value) = self.pairs.pop(key) else {
            return Ok(Reply::Refused(Errno::Enoent));
        };
        Ok(Reply::Value(Bytes::from_slice(alloc, value)?))
    }

    /// A call of any kind. One that is no lookup, update, delete or take isn't made on such a map: it changes nothing.
    pub(crate) fn answer(&mut self, alloc: Global, verb: &'a Verb) -> Result<Reply, NoMemory>
        requires { self.old.evicted < 2 ^ 32 - 1 }
        ensures held { OnOk result (self.new ≡ (after_call verb.now self.old).0) }
        ensures reply { IfOk result (λ reply. reply ≡ (after_call verb.now self.old).1) }
    {
        match verb {
            Verb::Lookup { side, key } => self.look_up(alloc, *side, key.as_slice()),
            Verb::Update {
                flags,
                key,
                value,
                ..
            } => self.update(*flags, key.as_slice(), value.as_slice()),
            Verb::Delete { key } => Ok(self.delete(key.as_slice())),
            Verb::Take { key } => self.take(alloc, key.as_slice()),
            _ => Ok(Reply::Refused(Errno::Einval)),
        }
    }
}

/// Why an update with these flags is refused, if it is.
fn refusal(flags: u32, is_there: bool) -> Option<Errno>
    ensures { result ≡ refusal flags is_there }
{
    match (flags, is_there) {
        (0, _) => None,
        (1, true) => Some(Errno::Eexist),
        (1, false) => None,
        (2, true) => None,
        (2, false) => Some(Errno::Enoent),
        _ => Some(Errno::Einval),
    }
}

/// How many were evicted with a pair that was put in: one more where there was no room and the key wasn't there.
fn counted(evicted: u32, is_full: bool, is_there: bool) -> u32
    requires { evicted < 2 ^ 32 - 1 }
    ensures { result ≡ (if is_full && not is_there then evicted + 1 else evicted) }
{
    if is_full && !is_there {
        evicted + 1
    } else {
        evicted
    }
}

/// The replies of calls in their order.
pub(crate) fn replies_of<'a>(
    alloc: Global,
    cache: &mut Strict<'a>,
    calls: &'a [Call],
) -> Result<Vec<Reply>, NoMemory>
    requires { cache.old.evicted + length calls.now < 2 ^ 32 }
    ensures held { OnOk result (cache.new ≡ held_after cache.old calls.now) }
    ensures replies { IfOk result (λ replies. replies.items ≡ replies_from cache.old calls.now) }
{
    let mut replies = Vec::with_capacity(alloc, calls.len())?;
    for call in calls {
        replies.push(cache.answer(alloc, &call.verb)?)?;
    }
    Ok(replies)
}
