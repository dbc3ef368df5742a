//! Bits and probes over a pass that holds the lock of lists: of its CPU's own set, of the global lists within that of its CPU's local
//! ones, or of the local lists of a CPU.

ghost use Rattle.std.specs.Prelude.{◌≡◌, ◌↔◌, ℕ, ◌+◌, ◌-◌, ◌*◌, ◌≤◌, [], length, Some};
ghost use Rattle.map_types.specs.ElementLists.{times};
ghost use Rattle.map_types.specs.Stored.{Stored};
ghost use Rattle.map_types.specs.declared.row.Row as row_record;
ghost use Rattle.place_words.specs.Bodies.{numbers};
ghost use Rattle.local_lists.specs.LocalLists.{IsLocal};
ghost use Rattle.lru_lists.specs.Sets.{IsListed, IsSet, row_on, times_listed};
ghost use Rattle.map_types.specs.declared.kind.DomainId.TheVariants as locks;
ghost use Rattle.lru_ops.specs.declared.probing.Destination.TheVariants as destinations;
ghost use Rattle.lru_ops.specs.Evictions.{CanChase, ChasedFor, CanPut, PutThere};
ghost use Rattle.lru_ops.specs.GlobalWork.{CanWalk, Rotated, CanShrinkInto, ShrinksInto, ShrunkInto, both_lists};
ghost use Rattle.lru_ops.specs.OwnTurns.{ShrinksFree, CanWork, Worked, rows_on, in_turn};
ghost use Rattle.lru_ops.specs.Thefts.{CanSearch, SearchedSparing, SearchedAll, last_lock};

use crate::own_set::OWN_TARGET;
use crate::probe::probe_bucket;
use key_hash::bucket_of;
use local_lists::LocalSet;
use lru_lists::{Bits, ListSet, Noted, Probe, Probed, RotateNotes, ShrinkNotes};
use lru_rotate::rotate;
use lru_shrink::shrink;
use map_types::{DomainId, Gate};
use percpu_values::{BodyStack, BoxedBody};
use place_table::{At, Listing, Pass, PlaceTable, Points};
use place_words::{Home, Look, Try};
use row_list::Rows;
use std::alloc::Global;
use std::marker::{Brand, PhantomData};
use std::sync::Wait;

/// How many elements one walk over a list of a CPU's own set looks at.
const OWN_SCANS: u32 = 4;

/// How many elements one walk over a list of the global lists looks at.
const GLOBAL_SCANS: u32 = 128;

/// What was so where the pass was lent: the pass, the lock of the walk, the rows there, and where what a probe removes goes. Each
/// walk is called at `Brand`, whose members the proof of the call picks.
pub trait Begun {
    ghost use Rattle.std.specs.Prelude.{List};
    ghost use Rattle.map_types.specs.declared.kind.DomainId.{DomainId};
    ghost use Rattle.map_types.specs.declared.row.Row.{Row};
    ghost use Rattle.place_table.specs.Passes.{PassView};
    ghost use Rattle.lru_ops.specs.declared.probing.Destination.{Destination};

    ghost start: { PassView };

    ghost lock: { DomainId };

    ghost rows: { List Row };

    ghost to: { Destination };
}

impl Begun for Brand {
    ghost use Rattle.std.specs.Prelude.{[]};
    ghost use Rattle.map_types.specs.declared.kind.DomainId.TheVariants.{Global};
    ghost use Rattle.lru_ops.specs.Askings.{nowhere};
    ghost use Rattle.lru_ops.specs.declared.probing.Destination.TheVariants.{OwnFree};

    ghost start = { nowhere };

    ghost lock = { Global };

    ghost rows = { [] };

    ghost to = { OwnFree };
}

/// Where an element goes that a probe removed.
#[derive(Clone, Copy)]
pub(crate) enum Destination {
    /// To the free list of the CPU's own set, whose lock the pass holds.
    OwnFree,
    /// From the global lists to the free list of the CPU's local lists. The pass holds both locks.
    LocalFree,
    /// From local lists, whose lock the pass holds, to the hand of the CPU, which carries it.
    OwnHand,
}

/// What a turn of lists works with beside its pass: the runtime that it waits by, where it takes memory, the table, and the gate
/// that is told of locks.
#[derive(Drop)]
pub(crate) struct Tools<'a, R, G> {
    pub(crate) rt: &'a R,
    pub(crate) alloc: Global,
    pub(crate) table: &'a PlaceTable,
    pub(crate) gate: &'a G,
}

/// A pass that answers for bits and probes, and where what a probe removes goes.
#[derive(Drop)]
pub(crate) struct Probing<'a, R, G, K> {
    table: &'a PlaceTable,
    pass: &'a mut Pass,
    rt: &'a R,
    gate: &'a G,
    to: Destination,
    since: PhantomData<K>,
}

impl<'a, R: Wait, G: Points, K: Begun> Bits for Probing<'a, R, G, K> {
    ghost use Rattle.std.specs.Prelude.{◌≡◌};
    ghost use Rattle.lru_ops.specs.Askings.{calls_noted, probes_made, hash_in, Since, MayAsk, MayChase};
    ghost use Rattle.map_types.specs.Stored.{IsSized};

    ghost calls = { λ s. calls_noted s.pass.now.view.notes };

    ghost can_note = { λ s _. (s.to ≡ K.to)
        × Since s.table.now K.to K.lock K.rows K.start s.pass.now };

    ghost may_ask = { λ s e. MayAsk s.table.now s.pass.now e };

    ghost lender = { λ s. s.pass.ghost_name };

    ghost probes = { λ s. probes_made (hash_in K.rows) s.pass.now.view.steps };

    ghost may_probe = { λ s row. MayChase s.table.now K.rows s.pass.now row };

    ghost gives = { λ s body. IsSized s.table.now.shape body };

    ghost fewer = { λ s m n less can. can };

    fn clear(&mut self, element: u32) -> bool {
        self.table.clear(self.pass, element)
    }

    fn read(&mut self, element: u32) -> bool {
        self.table.bit_of(self.pass, element)
    }
}

impl<'a, R: Wait, G: Points, K: Begun> Probe for Probing<'a, R, G, K> {
    fn evict(&mut self, element: u32, hash: u32) -> Probed {
        let bucket = bucket_of(hash, self.table.shape().buckets);
        chase(
            self.rt, self.table, self.pass, self.to, bucket, element, self.gate,
        )
    }
}

/// Probes a bucket for an element. What that removes goes where it is to go.
fn chase<R: Wait, G: Points>(
    rt: &R,
    table: &PlaceTable,
    pass: &mut Pass,
    to: Destination,
    bucket: u32,
    element: u32,
    gate: &G,
) -> Probed
    requires can { CanChase table.now to bucket element pass.old }
    ensures { ChasedFor table.now to bucket element pass.old pass.new result }
{
    let probed = probe_bucket(rt, table, pass, bucket, element, gate);
    if let Probed::Removed(_) = &probed {
        put_removed(table, pass, to, element);
    }
    probed
}

/// Puts an element that a probe removed where it is to go.
fn put_removed(table: &PlaceTable, pass: &mut Pass, to: Destination, element: u32)
    requires can { CanPut table.now to element pass.old }
    ensures { PutThere table.now to element pass.old pass.new }
{
    let cpu = table.cpu_of(pass);
    match to {
        Destination::OwnFree => table.settle(pass, element, DomainId::CpuLru(cpu)),
        Destination::LocalFree => {
            let lock = DomainId::Local(cpu);
            table.rehome(pass, element, Home::In(lock));
            table.settle(pass, element, lock);
        }
        Destination::OwnHand => table.rehome(pass, element, Home::Hand(cpu)),
    }
}

/// Rotates the own set, whose lock the pass holds, and shrinks it where nothing is free, which it answers.
pub(crate) fn work_under<R: Wait, G: Gate, K: Begun>(
    tools: &Tools<R, G>,
    pass: &mut Pass,
    set: &mut ListSet<Listing>,
    turning: &mut RotateNotes,
    shrinking: &mut ShrinkNotes,
) -> bool
    requires start { K.start ≡ pass.old }
    requires lock { K.lock ≡ locks.CpuLru pass.old.cpu }
    requires to { K.to ≡ destinations.OwnFree }
    requires rows { K.rows ≡ rows_on set.old }
    requires can { CanWork tools.now.table.now set.old pass.old }
    ensures { Worked tools.now.table.now
        (in_turn set.old turning.old shrinking.old)
        (in_turn set.new turning.new shrinking.new) result pass.old pass.new }
{
    let points = At { gate: tools.gate };
    let mut probing: Probing<R, At<G>, K> = Probing {
        table: tools.table,
        pass,
        rt: tools.rt,
        gate: &points,
        to: Destination::OwnFree,
        since: PhantomData,
    };
    rotate(set, &mut probing, OWN_SCANS, turning);
    if set.free_len() > 0 {
        return false;
    }
    shrink_free(tools.alloc, set, &mut probing, shrinking);
    true
}

/// Shrinks a set whose free list is empty into that list.
fn shrink_free<S: Rows, P: Probe>(
    alloc: Global,
    set: &mut ListSet<S>,
    probe: &mut P,
    notes: &mut ShrinkNotes,
)
    requires was_whole { IsSet set.old }
    requires empty { set.old.free.bodies ≡ [] }
    requires room { length set.old.active + length set.old.inactive ≤ set.old.free.spare }
    requires noted { P.can_note probe.old (2 * 4
        + (length set.old.active + length set.old.inactive)) }
    requires asked { (e : ℕ) → IsListed e set.old → P.may_ask probe.old e }
    requires probed { (row : row_record.Row) → row_on row.element set.old ≡ Some row
        → P.may_probe probe.old row }
    ensures shrinks { ShrinksFree (P.gives probe.new) set.old set.new
        (record { calls = P.calls probe.old; probes = P.probes probe.old })
        (record { calls = P.calls probe.new; probes = P.probes probe.new }) notes.old notes.new }
    ensures whole { IsSet set.new }
    ensures noted { (n : ℕ) → P.can_note probe.old n
        → P.can_note probe.new
        (n - ((length (P.calls probe.new) - length (P.calls probe.old))
        + (length (P.probes probe.new) - length (P.probes probe.old)))) }
    ensures gives { (body : Stored) → P.gives probe.old body ↔ P.gives probe.new body }
    ensures lent { P.lender probe.new ≡ P.lender probe.old }
{
    let mut freed = BodyStack::empty(alloc);
    set.swap_free(&mut freed);
    // How many were freed is told by the bodies that came.
    let _ = shrink(set, probe, OWN_SCANS, OWN_TARGET, &mut freed, notes);
    set.swap_free(&mut freed);
}

/// Rotates the global lists, whose lock the pass holds within that of the CPU's local lists.
pub(crate) fn rotate_under<R: Wait, G: Gate, K: Begun>(
    rt: &R,
    table: &PlaceTable,
    pass: &mut Pass,
    set: &mut ListSet<Listing>,
    turning: &mut RotateNotes,
    gate: &G,
)
    requires start { K.start ≡ pass.old }
    requires lock { K.lock ≡ locks.Global }
    requires to { K.to ≡ destinations.LocalFree }
    requires rows { K.rows ≡ rows_on set.old }
    requires can { CanWalk table.now set.old pass.old }
    ensures { Rotated table.now set.old set.new turning.old turning.new pass.old pass.new }
{
    let points = At { gate };
    let mut probing: Probing<R, At<G>, K> = Probing {
        table,
        pass,
        rt,
        gate: &points,
        to: Destination::LocalFree,
        since: PhantomData,
    };
    rotate(set, &mut probing, GLOBAL_SCANS, turning);
}

/// Shrinks the global lists, whose lock the pass holds within that of the CPU's local lists, by up to `target` elements. What
/// that frees comes on top of the local free list.
pub(crate) fn shrink_under<R: Wait, G: Gate, K: Begun>(
    tools: &Tools<R, G>,
    pass: &mut Pass,
    set: &mut ListSet<Listing>,
    lists: &mut LocalSet<Listing>,
    target: u32,
    shrinking: &mut ShrinkNotes,
)
    requires start { K.start ≡ pass.old }
    requires lock { K.lock ≡ locks.Global }
    requires to { K.to ≡ destinations.LocalFree }
    requires rows { K.rows ≡ rows_on set.old }
    requires target { 1 ≤ target }
    requires can { CanShrinkInto tools.now.table.now set.old lists.old pass.old }
    ensures { ShrunkInto tools.now.table.now target
        (both_lists set.old lists.old pass.old)
        (both_lists set.new lists.new pass.new) shrinking.old shrinking.new }
{
    let points = At { gate: tools.gate };
    let mut probing: Probing<R, At<G>, K> = Probing {
        table: tools.table,
        pass,
        rt: tools.rt,
        gate: &points,
        to: Destination::LocalFree,
        since: PhantomData,
    };
    shrink_into(tools.alloc, set, lists, &mut probing, target, shrinking);
}

/// Shrinks a set into the free list of local lists on which nothing is pending.
fn shrink_into<S: Rows, P: Probe>(
    alloc: Global,
    set: &mut ListSet<S>,
    lists: &mut LocalSet<S>,
    probe: &mut P,
    target: u32,
    notes: &mut ShrinkNotes,
)
    requires was_whole { IsSet set.old }
    requires none_pending { lists.old.pending ≡ [] }
    requires bound { lists.old.elements ≡ set.old.elements }
    requires apart { (e : ℕ)
        → times_listed e set.old + times e (numbers lists.old.free.bodies) ≤ 1 }
    requires target { 1 ≤ target }
    requires room { length set.old.active + length set.old.inactive ≤ lists.old.free.spare }
    requires noted { P.can_note probe.old (2 * 128
        + (length set.old.active + length set.old.inactive)) }
    requires asked { (e : ℕ) → IsListed e set.old → P.may_ask probe.old e }
    requires probed { (row : row_record.Row) → row_on row.element set.old ≡ Some row
        → P.may_probe probe.old row }
    ensures shrinks { ShrinksInto target (P.gives probe.new)
        (record {
          set = set.old;
          lists = lists.old;
          notes = notes.old;
          asked = record { calls = P.calls probe.old; probes = P.probes probe.old };
        })
        (record {
          set = set.new;
          lists = lists.new;
          notes = notes.new;
          asked = record { calls = P.calls probe.new; probes = P.probes probe.new };
        }) }
    ensures whole { IsSet set.new }
    ensures local { IsLocal lists.new }
    ensures noted { (n : ℕ) → P.can_note probe.old n
        → P.can_note probe.new
        (n - ((length (P.calls probe.new) - length (P.calls probe.old))
        + (length (P.probes probe.new) - length (P.probes probe.old)))) }
    ensures gives { (body : Stored) → P.gives probe.old body ↔ P.gives probe.new body }
    ensures lent { P.lender probe.new ≡ P.lender probe.old }
{
    let mut free = BodyStack::empty(alloc);
    lists.swap_free(&mut free);
    // How many were freed is told by the bodies that came.
    let _ = shrink(set, probe, GLOBAL_SCANS, target, &mut free, notes);
    lists.swap_free(&mut free);
}

/// Walks over the pending list of local lists, whose lock alone the pass holds, and spares set bits.
pub(crate) fn search_sparing<R: Wait, G: Gate, K: Begun>(
    rt: &R,
    table: &PlaceTable,
    pass: &mut Pass,
    lists: &LocalSet<Listing>,
    first: &mut Noted<Look>,
    gate: &G,
) -> Option<BoxedBody>
    requires start { K.start ≡ pass.old }
    requires lock { K.lock ≡ last_lock table.now.shape pass.old.view.held }
    requires to { K.to ≡ destinations.OwnHand }
    requires rows { K.rows ≡ lists.now.pending }
    requires can { CanSearch table.now lists.now pass.old }
    ensures { SearchedSparing table.now lists.now.pending first.old first.new pass.old pass.new
        result }
{
    let points = At { gate };
    let mut probing: Probing<R, At<G>, K> = Probing {
        table,
        pass,
        rt,
        gate: &points,
        to: Destination::OwnHand,
        since: PhantomData,
    };
    lru_shrink::search_sparing(lists.pending(), &mut probing, first)
}

/// Walks over it and spares none.
pub(crate) fn search_all<R: Wait, G: Gate, K: Begun>(
    rt: &R,
    table: &PlaceTable,
    pass: &mut Pass,
    lists: &LocalSet<Listing>,
    second: &mut Noted<Try>,
    gate: &G,
) -> Option<BoxedBody>
    requires start { K.start ≡ pass.old }
    requires lock { K.lock ≡ last_lock table.now.shape pass.old.view.held }
    requires to { K.to ≡ destinations.OwnHand }
    requires rows { K.rows ≡ lists.now.pending }
    requires can { CanSearch table.now lists.now pass.old }
    ensures { SearchedAll table.now lists.now.pending second.old second.new pass.old pass.new
        result }
{
    let points = At { gate };
    let mut probing: Probing<R, At<G>, K> = Probing {
        table,
        pass,
        rt,
        gate: &points,
        to: Destination::OwnHand,
        since: PhantomData,
    };
    lru_shrink::search_all(lists.pending(), &mut probing, second)
}
