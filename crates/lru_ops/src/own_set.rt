//! How an element is taken for a new key from the own set of a CPU.

ghost use Rattle.std.specs.Prelude.{◌≡◌, false, IfSome, IfNone, MatchOption, option_map};
ghost use Rattle.map_types.specs.declared.kind.DomainId.TheVariants as locks;
ghost use Rattle.place_words.specs.declared.history.Part.TheVariants as parts;
ghost use Rattle.lru_lists.specs.declared.notes.Noted.TheVariants as noted;
ghost use Rattle.place_table.specs.Calls.{CanCall};
ghost use Rattle.lru_ops.specs.Lists.{MapEvicts, Acquired};
ghost use Rattle.lru_ops.specs.OwnTurns.{CanGiveOut, GivesOut, IsOwnTurn, LostSome};

use crate::probing::{Tools, work_under};
use lru_lists::{ListName, ListSet, Noted, RotateNotes, ShrinkNotes};
use map_types::{DomainId, Gate, List, Row};
use percpu_values::BoxedBody;
use place_table::{Content, Listing, Pass, PlaceTable};
use place_words::{OwnPart, PackedOwn, Part, ShrinkNote};
use std::alloc::Global;
use std::marker::Brand;
use std::sync::Wait;

/// How many elements are freed at once where a CPU's own set has none free.
pub(crate) const OWN_TARGET: u32 = 4;

/// Takes an element in one turn of the lock of the CPU's own set.
pub(crate) fn take_own<R: Wait, G: Gate>(
    rt: &R,
    alloc: Global,
    table: &PlaceTable,
    pass: &mut Pass,
    hash: u32,
    gate: &G,
) -> Option<BoxedBody>
    requires can { CanCall table.now pass.old }
    requires evicts { MapEvicts table.now }
    requires own_lists { table.now.shape.common ≡ false }
    ensures { Acquired table.now hash pass.old pass.new result }
{
    let lock = DomainId::CpuLru(table.cpu_of(pass));
    let Content::Set(mut set) = table.take(rt, pass, lock, gate) else {
        unreachable!()
    };
    let mut turning = RotateNotes::empty(alloc);
    let mut shrinking = ShrinkNotes::empty(alloc);
    let tools = Tools {
        rt,
        alloc,
        table,
        gate,
    };
    let shrunk = work_under::<R, G, Brand>(&tools, pass, &mut set, &mut turning, &mut shrinking);
    let got = give_out(table, pass, lock, &mut set, hash);
    let part = own_turn(alloc, hash, turning, shrunk, shrinking, element_of(&got));
    table.give(pass, lock, Content::Set(set), part, gate);
    got
}

/// The element of a body.
pub(crate) fn element_of(got: &Option<BoxedBody>) -> Option<u32>
    ensures { result ≡ option_map (λ body. body.element) got.now }
{
    got.as_ref().map(|body| body.body().element())
}

/// Moves the head of the free list of the own set, where there is one, to the head of inactive with this hash, and to the
/// CPU's hand.
fn give_out(
    table: &PlaceTable,
    pass: &mut Pass,
    lock: DomainId,
    set: &mut ListSet<Listing>,
    hash: u32,
) -> Option<BoxedBody>
    requires can { CanGiveOut table.now set.old pass.old }
    requires lock { lock ≡ locks.CpuLru pass.old.cpu }
    ensures { GivesOut table.now hash set.old set.new pass.old pass.new result }
{
    let body = set.free_pop()?;
    let element = body.body().element();
    table.claim(pass, element, lock);
    // Whatever the bit was, it is clear from here on.
    let _ = table.clear(pass, element);
    set.move_in(Row { element, hash }, ListName::Inactive);
    Some(body)
}

/// The list of notes, none where memory for one was not found.
pub(crate) fn kept<T>(notes: Noted<T>) -> Option<List<T>>
    ensures { MatchOption result (notes ≡ noted.Lost) (λ list. notes ≡ noted.Kept list) }
{
    match notes {
        Noted::Kept(list) => Some(list),
        Noted::Lost => None,
    }
}

/// The entry of a turn of an own set, none where memory for it or for a part of it was not found.
fn own_turn(
    alloc: Global,
    hash: u32,
    turning: RotateNotes,
    shrunk: bool,
    shrinking: ShrinkNotes,
    got: Option<u32>,
) -> Option<Part>
    ensures told { IfSome result (IsOwnTurn hash turning shrunk shrinking got) }
{
    let turn = noted_turn(hash, turning, shrunk, shrinking, got)?;
    Some(Part::Own(PackedOwn::new(alloc, turn).ok()?))
}

/// What a turn of an own set noted, none where memory for a part of it was not found.
fn noted_turn(
    hash: u32,
    turning: RotateNotes,
    shrunk: bool,
    shrinking: ShrinkNotes,
    got: Option<u32>,
) -> Option<OwnPart>
    ensures told { IfSome result (λ turn. IsOwnTurn hash turning shrunk shrinking got
        (parts.Own turn)) }
    ensures lost { IfNone result (LostSome turning shrunk shrinking) }
{
    let active = kept(turning.active)?;
    let inactive = kept(turning.inactive)?;
    let shrink = if shrunk {
        Some(ShrinkNote {
            target: OWN_TARGET,
            looks: kept(shrinking.looks)?,
            forced: kept(shrinking.forced)?,
        })
    } else {
        None
    };
    Some(OwnPart::Turn {
        hash,
        active,
        inactive,
        shrink,
        got,
    })
}
