//! The walk over all elements of a map of any kind.

ghost use Rattle.std.specs.Prelude.{◌≡◌, ◌+◌, ◌-◌, ◌<◌, ◌≤◌, All, [], length, map};
ghost use Rattle.map_types.specs.Creation.{IsShape};
ghost use Rattle.map_types.specs.declared.kind.Side.TheVariants.{Prog};
ghost use Rattle.map_types.specs.Shape.{HasBounds};
ghost use Rattle.map_types.specs.Stored.{IsSized};
ghost use Rattle.place_words.specs.Handing.{handed};
ghost use Rattle.place_table.specs.Calls.{CanCall};
ghost use Rattle.place_table.specs.BucketTurns.{CanEnter};
ghost use Rattle.bucket_walks.specs.BatchReads.{IsOfSide, all_read, walked_by, with_pairs};
ghost use Rattle.bucket_walks.specs.Looks.{CanWalk};
ghost use Rattle.elem_walk.specs.Walks.{TakesPairs, MayCall, Answers, IsOfShape, IsCopied, CopiesInto, HandsFrom, HandsIn, HandsOn, WalksOver};

use bucket_chain::{Chain, body_at};
use bucket_walks::{ReadRoom, walk_part};
use map_types::{DomainId, Gate, NoMemory, Pairs, Shape, Side};
use place_table::{Content, Pass, PlaceTable};
use std::alloc::Global;
use std::marker::Model;
use std::sync::Wait;

/// A walk over all elements of a map, with the callback to which it hands each of them: its key, and its value as a program reads
/// it. Where the callback answers true the walk stops.
#[derive(Drop)]
pub struct ElemWalk<F>
where
    F: Fn(&[u8], &[u8]) -> bool,
{
    call: F,
    key_size: u32,
    value_size: u32,
}

impl<F> Model for ElemWalk<F>
where
    F: Fn(&[u8], &[u8]) -> bool,
{
    ghost use Rattle.elem_walk.specs.Walks.{Walker};

    ghost Value = { Walker F };

    ghost view = { λ w. record { call = w.call; key_size = w.key_size; value_size = w.value_size } };
}

/// What a walk handed over, and the number of the bucket behind the last one that it went over: where there was no room for a bucket,
/// the number of that one.
#[derive(Drop)]
pub struct Handed {
    pub taken: Pairs,
    pub next: u32,
}

/// Why a walk is refused.
#[derive(Clone, Copy, Debug, PartialEq, Eq)]
pub enum WalkRefusal {
    /// A flag is set (EINVAL).
    Einval,
    /// Memory was not found.
    NoMemory,
}

impl From<NoMemory> for WalkRefusal {
    ghost use Rattle.std.specs.Prelude.{◌≡◌};
    ghost use Rattle.elem_walk.specs.declared.walk.WalkRefusal.TheVariants as refusals;

    ghost from_gives = { λ _ refusal. refusal ≡ refusals.NoMemory };

    fn from(_error: NoMemory) -> WalkRefusal {
        WalkRefusal::NoMemory
    }
}

/// Whether a walk ends with a bucket.
#[derive(Clone, Copy, Debug, PartialEq, Eq)]
pub(crate) enum Ended {
    /// It goes on with the next one.
    Not,
    /// There was no room for its elements.
    Here,
    /// The callback stopped it in this bucket.
    Behind,
}

impl<F> ElemWalk<F>
where
    F: Fn(&[u8], &[u8]) -> bool,
{
    /// A walk that hands elements to this callback, which may be called on every key and value of these sizes in bytes. That it may be
    /// is handed on, since the walk can't keep it: `run` asks it.
    pub fn of(call: F, key_size: u32, value_size: u32) -> ElemWalk<F>
        requires { TakesPairs F.pre call key_size value_size }
        ensures is { result ≡ record { call = call; key_size = key_size; value_size = value_size } }
        ensures callable { MayCall F.pre result }
    {
        ElemWalk {
            call,
            key_size,
            value_size,
        }
    }

    /// Goes over the buckets of a map in order, and hands each element to the callback: its key, and the value that a program reads of
    /// it on the pass's CPU. It ends behind the bucket of the first element for which the callback answers true, or behind the last
    /// bucket. Each bucket is copied whole in a turn of its own, head first, and then its elements are handed over, with no lock held
    /// (no clause says when the callback is called, or how often); where memory for the turn's entry isn't found, the record of that
    /// bucket's turns is lost, and the walk goes on. It has room for as many elements as the map has, less those that it handed over
    /// before: a bucket with more, as it may come in a race, ends it. No bit is set. Flags that aren't 0 are `Einval`, before anything
    /// is looked at. Memory for all pairs is found before anything is looked at, and where there is none nothing is done. That each
    /// element is handed over, and that the callback may stop the walk, is the rule of the kernel's `bpf_for_each_hash_elem`.
    pub fn run<R: Wait, G: Gate>(
        &self,
        rt: &R,
        alloc: Global,
        table: &PlaceTable,
        shape: &Shape,
        pass: &mut Pass,
        cpu: u32,
        flags: u32,
        gate: &G,
    ) -> Result<Handed, WalkRefusal>
        requires can { CanCall table.now pass.old }
        requires created { IsShape table.now.shape }
        requires shape { shape.now ≡ table.now.shape }
        requires cpu { cpu ≡ pass.old.cpu }
        requires sizes { IsOfShape shape.now self.now }
        requires callable { MayCall F.pre self.now }
        ensures { WalksOver table.now (Answers F.Fn self.now.call) pass.old pass.new flags result }
    {
        if flags != 0 {
            return Err(WalkRefusal::Einval);
        }
        let mut over = ReadRoom::of(alloc, shape.elements, shape.key_size, shape.value_size)?;
        let next = self.hand_on(rt, alloc, table, shape, pass, cpu, &mut over, gate);
        Ok(Handed {
            taken: over.into_pairs(),
            next,
        })
    }

    /// Hands over what lies in the buckets, from the first one on, and answers where that ends.
    fn hand_on<R: Wait, G: Gate>(
        &self,
        rt: &R,
        alloc: Global,
        table: &PlaceTable,
        shape: &Shape,
        pass: &mut Pass,
        cpu: u32,
        over: &mut ReadRoom,
        gate: &G,
    ) -> u32
        requires can { CanWalk table.now pass.old }
        requires created { IsShape table.now.shape }
        requires bounds { HasBounds table.now.shape }
        requires shape { shape.now ≡ table.now.shape }
        requires cpu { cpu ≡ pass.old.cpu }
        requires sizes { IsOfShape shape.now self.now }
        requires callable { MayCall F.pre self.now }
        requires of_map { IsOfSide shape.now Prog over.old }
        requires none { over.old.pairs ≡ [] }
        requires limit { over.old.limit ≡ shape.now.elements }
        ensures { HandsOn table.now (Answers F.Fn self.now.call) pass.old pass.new over.new.pairs
            result }
    {
        for bucket in 0..shape.buckets {
            match self.hand_in(rt, alloc, table, shape, pass, cpu, bucket, over, gate) {
                Ended::Not => {}
                Ended::Here => return bucket,
                Ended::Behind => return bucket + 1,
            }
        }
        shape.buckets
    }

    /// Copies a bucket in one turn, and then hands its elements over.
    fn hand_in<R: Wait, G: Gate>(
        &self,
        rt: &R,
        alloc: Global,
        table: &PlaceTable,
        shape: &Shape,
        pass: &mut Pass,
        cpu: u32,
        bucket: u32,
        over: &mut ReadRoom,
        gate: &G,
    ) -> Ended
        requires can { CanEnter table.now bucket pass.old }
        requires created { IsShape table.now.shape }
        requires bounds { HasBounds table.now.shape }
        requires shape { shape.now ≡ table.now.shape }
        requires cpu { cpu ≡ pass.old.cpu }
        requires sizes { IsOfShape shape.now self.now }
        requires callable { MayCall F.pre self.now }
        requires of_map { IsOfSide shape.now Prog over.old }
        ensures { HandsIn table.now (Answers F.Fn self.now.call) bucket pass.old pass.new result
            over.old over.new }
    {
        let from = over.len();
        if !copy_in(rt, alloc, table, shape, pass, cpu, bucket, over, gate) {
            return Ended::Here;
        }
        if self.hand_from(from, over) {
            Ended::Behind
        } else {
            Ended::Not
        }
    }

    /// Hands over the pairs from an index on, and answers whether the callback stopped the walk. Then the pairs behind that one are
    /// given up.
    fn hand_from(&self, from: u32, over: &mut ReadRoom) -> bool
        requires from { from ≤ length over.old.pairs }
        requires keys { over.old.key_size ≡ self.now.key_size }
        requires values { over.old.value_size ≡ self.now.value_size }
        requires callable { MayCall F.pre self.now }
        ensures { HandsFrom (Answers F.Fn self.now.call) from result over.old over.new }
    {
        for i in from..over.len() {
            if self.answer(over.key(i), over.value(i)) {
                over.keep(i + 1);
                return true;
            }
        }
        false
    }

    /// What the callback answers for a pair.
    fn answer(&self, key: &[u8], value: &[u8]) -> bool
        requires key { length key.now ≡ self.now.key_size }
        requires value { length value.now ≡ self.now.value_size }
        requires callable { MayCall F.pre self.now }
        ensures { Answers F.Fn self.now.call (key.now, value.now) result }
    {
        (self.call)(key, value)
    }
}

/// Copies the elements of a bucket in one turn, where there is room for all of them, and answers whether it did.
fn copy_in<R: Wait, G: Gate>(
    rt: &R,
    alloc: Global,
    table: &PlaceTable,
    shape: &Shape,
    pass: &mut Pass,
    cpu: u32,
    bucket: u32,
    over: &mut ReadRoom,
    gate: &G,
) -> bool
    requires can { CanEnter table.now bucket pass.old }
    requires created { IsShape table.now.shape }
    requires bounds { HasBounds table.now.shape }
    requires shape { shape.now ≡ table.now.shape }
    requires cpu { cpu ≡ pass.old.cpu }
    requires of_map { IsOfSide shape.now Prog over.old }
    ensures { CopiesInto table.now bucket pass.old pass.new result over.old over.new }
{
    let room = over.left();
    let chain = table.enter_bucket(rt, pass, bucket, gate);
    let whole = copy_whole(shape, cpu, &chain, over);
    let part = walk_part(alloc, false, shape, cpu, room, &chain);
    table.give(
        pass,
        DomainId::Bucket(bucket),
        Content::Bucket(chain),
        part.ok(),
        gate,
    );
    whole
}

/// Copies all of a bucket where there is room for it.
fn copy_whole(shape: &Shape, cpu: u32, chain: &Chain, over: &mut ReadRoom) -> bool
    requires bounds { HasBounds shape.now }
    requires cpu { cpu < shape.now.cpus }
    requires sized { All (IsSized shape.now) chain.now.bodies }
    requires of_map { IsOfSide shape.now Prog over.old }
    ensures { IsCopied shape.now cpu (walked_by shape.now cpu
        (over.old.limit - length over.old.pairs) chain.now.bodies) result over.old over.new }
{
    if over.left() < chain.len() {
        return false;
    }
    copy_all(shape, cpu, chain, over);
    true
}

/// Copies all of a bucket.
fn copy_all(shape: &Shape, cpu: u32, chain: &Chain, over: &mut ReadRoom)
    requires bounds { HasBounds shape.now }
    requires cpu { cpu < shape.now.cpus }
    requires sized { All (IsSized shape.now) chain.now.bodies }
    requires of_map { IsOfSide shape.now Prog over.old }
    requires room { length over.old.pairs + length chain.now.bodies ≤ over.old.limit }
    ensures { over.new
        ≡ with_pairs over.old (map (handed shape.now cpu) (all_read shape.now cpu chain.now.bodies)) }
{
    let count = chain.len();
    for place in 0..count {
        over.add(shape, Side::Prog, cpu, body_at(chain, place));
    }
}
