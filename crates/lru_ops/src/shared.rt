//! How an element is taken where the CPUs of a map share its lists.

ghost use Rattle.std.specs.Prelude.{◌≡◌, IfSome, MatchOption, None, Some, option_map};
ghost use Rattle.place_words.specs.declared.history.Part.TheVariants as parts;
ghost use Rattle.map_types.specs.declared.kind.DomainId.TheVariants as locks;
ghost use Rattle.lru_ops.specs.Lists.{MapEvicts, Acquired};
ghost use Rattle.lru_ops.specs.LocalWork.{CanMakePending, MakesPending};
ghost use Rattle.lru_ops.specs.Shared.{CanTakeShared, IsRefillPart, TookLocal};

use crate::own_set::element_of;
use crate::refill::{Refilled, refill};
use crate::steal::steal_round;
use local_lists::LocalSet;
use map_types::{DomainId, Gate, Row};
use percpu_values::BoxedBody;
use place_table::{Content, Listing, Pass, PlaceTable};
use place_words::{LocalPart, PackedLocal, Part};
use std::alloc::Global;
use std::sync::Wait;

/// What a CPU's local lists gave.
pub(crate) enum Taken {
    /// A body, whose element is in the CPU's hand and pending there.
    Got(BoxedBody),
    /// Nothing: a round of thefts starts at this CPU.
    Nothing(u32),
}

/// Takes an element for a key of this hash where the CPUs share lists, as in the kernel's `bpf_common_lru_pop_free`.
pub(crate) fn take_shared<R: Wait, G: Gate>(
    rt: &R,
    alloc: Global,
    table: &PlaceTable,
    pass: &mut Pass,
    hash: u32,
    gate: &G,
) -> Option<BoxedBody>
    requires can { CanTakeShared table.now pass.old }
    requires evicts { MapEvicts table.now }
    ensures { Acquired table.now hash pass.old pass.new result }
{
    match take_local(rt, alloc, table, pass, hash, gate) {
        Taken::Got(body) => Some(body),
        Taken::Nothing(cursor) => steal_round(rt, alloc, table, pass, cursor, hash, gate),
    }
}

/// Takes the head of the CPU's local free list, which is filled from the global lists where it is empty.
fn take_local<R: Wait, G: Gate>(
    rt: &R,
    alloc: Global,
    table: &PlaceTable,
    pass: &mut Pass,
    hash: u32,
    gate: &G,
) -> Taken
    requires can { CanTakeShared table.now pass.old }
    requires evicts { MapEvicts table.now }
    ensures { TookLocal table.now hash pass.old pass.new result }
{
    let lock = DomainId::Local(table.cpu_of(pass));
    let Content::Local(mut lists) = table.take(rt, pass, lock, gate) else {
        unreachable!()
    };
    if let Some(body) = make_pending(table, pass, lock, &mut lists, hash) {
        let element = body.body().element();
        let part = Part::Local(PackedLocal::pop(hash, element));
        table.give(pass, lock, Content::Local(lists), Some(part), gate);
        return Taken::Got(body);
    }
    let refilled = refill(rt, alloc, table, pass, &mut lists, gate);
    let got = make_pending(table, pass, lock, &mut lists, hash);
    let cursor = lists.steal_cursor();
    let part = packed_part(alloc, refill_part(hash, refilled, element_of(&got)));
    table.give(pass, lock, Content::Local(lists), part, gate);
    match got {
        Some(body) => Taken::Got(body),
        None => Taken::Nothing(cursor),
    }
}

/// What a turn of the local lists tells that were refilled, none where the refill didn't tell what it did.
fn refill_part(hash: u32, refilled: Option<Refilled>, got: Option<u32>) -> Option<LocalPart>
    ensures { MatchOption result (refilled ≡ None)
        (λ part. IsRefillPart hash refilled got (parts.Local part)) }
{
    let refilled = refilled?;
    Some(LocalPart::Refill {
        hash,
        flushed: refilled.flushed,
        gained: refilled.gained,
        got,
    })
}

/// A part of local lists as it lies in an entry, none where there is none, or no memory for it.
pub(crate) fn packed_part(alloc: Global, part: Option<LocalPart>) -> Option<Part>
    ensures { IfSome result (λ packed. option_map parts.Local part ≡ Some packed) }
{
    Some(Part::Local(PackedLocal::new(alloc, part?).ok()?))
}

/// Moves the head of the local free list, where there is one, to the head of pending with this hash, and to the CPU's hand.
fn make_pending(
    table: &PlaceTable,
    pass: &mut Pass,
    lock: DomainId,
    lists: &mut LocalSet<Listing>,
    hash: u32,
) -> Option<BoxedBody>
    requires can { CanMakePending table.now lists.old pass.old }
    requires lock { lock ≡ locks.Local pass.old.cpu }
    ensures { MakesPending table.now hash lists.old lists.new pass.old pass.new result }
{
    let body = lists.pop_free()?;
    let element = body.body().element();
    table.claim(pass, element, lock);
    // Whatever the bit was, it is clear from here on.
    let _ = table.clear(pass, element);
    lists.add_pending(Row { element, hash });
    Some(body)
}
