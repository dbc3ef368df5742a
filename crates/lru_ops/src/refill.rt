//! A turn of the global lists that fills a CPU's local free list.

ghost use Rattle.std.specs.Prelude.{◌≡◌, ◌++◌, [], Some, IfOk, IfSome, IfNone, map, filter};
ghost use Rattle.place_words.specs.declared.history.Part.TheVariants as parts;
ghost use Rattle.place_words.specs.Globals.{flush_visit};
ghost use Rattle.place_words.specs.Shrinking.{freed, look_removed, try_removed};
ghost use Rattle.row_list.specs.RowWords.{tail_row};
ghost use Rattle.lru_ops.specs.Filling.{AreFresh, FilledUp, MovedAll, MovesOne, ShrinksLacking, CanFill, FlushedOne, FlushedAll, flushed_to, IsGlobalTurn, LostInTurn};
ghost use Rattle.lru_ops.specs.Refills.{CanRefill, FilledFrom, IsToldRefill};
ghost use Rattle.lru_ops.specs.GlobalWork.{CanShrinkInto, both_lists};

use crate::own_set::kept;
use crate::probing::{Tools, rotate_under, shrink_under};
use local_lists::LocalSet;
use lru_lists::{ListName, ListSet, Noted, RotateNotes, ShrinkNotes};
use map_types::{DomainId, Gate, List, NoMemory, Numbers, Row};
use percpu_values::BoxedBody;
use place_table::{Content, Listing, Pass, PlaceTable};
use place_words::{
    Flush, GlobalPart, Home, Look, PackedGlobal, Part, Seen, ShrinkNote, Try, Visit,
};
use row_list::Rows;
use std::alloc::Global;
use std::marker::Brand;
use std::sync::Wait;

/// How many elements a turn of the global lists is to give.
pub(crate) const GLOBAL_TARGET: u32 = 128;

/// What the turn of the local lists tells of it.
#[derive(Drop)]
pub(crate) struct Refilled {
    pub(crate) flushed: List<Visit>,
    pub(crate) gained: Numbers,
}

/// What is noted of a turn of the global lists: what was flushed, what the rotation visited, what moved over, and what the shrink
/// looked at and tried.
#[derive(Drop)]
struct GlobalNotes {
    flushed: Noted<Flush>,
    turning: RotateNotes,
    moved: Noted<u32>,
    shrinking: ShrinkNotes,
}

/// Flushes the pending list of the CPU's local lists and fills their free list, in one turn of the global lists: these are rotated,
/// up to 128 free elements move over, and where these are too few the global lists are shrunk for what lacks, as in the kernel's
/// `bpf_lru_list_pop_free_to_local`. Answers what the turn of the local lists tells of it, None where memory for that was not found.
pub(crate) fn refill<R: Wait, G: Gate>(
    rt: &R,
    alloc: Global,
    table: &PlaceTable,
    pass: &mut Pass,
    lists: &mut LocalSet<Listing>,
    gate: &G,
) -> Option<Refilled>
    requires can { CanRefill table.now lists.old pass.old }
    ensures { FilledFrom table.now lists.old lists.new pass.old pass.new result }
{
    let lock = DomainId::Global;
    let Content::Set(mut set) = table.take(rt, pass, lock, gate) else {
        unreachable!()
    };
    let tools = Tools {
        rt,
        alloc,
        table,
        gate,
    };
    let mut notes = GlobalNotes {
        flushed: Noted::empty(alloc),
        turning: RotateNotes::empty(alloc),
        moved: Noted::empty(alloc),
        shrinking: ShrinkNotes::empty(alloc),
    };
    let target = fill(&tools, pass, lists, &mut set, &mut notes);
    let GlobalNotes {
        flushed,
        turning,
        moved,
        shrinking,
    } = notes;
    let refilled = tell_refill(alloc, &flushed, &moved, &shrinking);
    let part = global_turn(
        alloc,
        flushed,
        turning,
        moved,
        target > 0,
        target,
        shrinking,
    );
    table.give(pass, lock, Content::Set(set), part, gate);
    refilled
}

/// Does what a turn of the global lists does, whose lock the pass holds, and answers how many elements they were shrunk for.
fn fill<R: Wait, G: Gate>(
    tools: &Tools<R, G>,
    pass: &mut Pass,
    lists: &mut LocalSet<Listing>,
    set: &mut ListSet<Listing>,
    notes: &mut GlobalNotes,
) -> u32
    requires can { CanFill tools.now.table.now set.old lists.old pass.old }
    requires none_free { lists.old.free.bodies ≡ [] }
    requires fresh { AreFresh pass.old }
    ensures { FilledUp tools.now.table.now
        (both_lists set.old lists.old pass.old)
        (both_lists set.new lists.new pass.new) notes.old notes.new result }
{
    let table = tools.table;
    flush(table, pass, lists, set, &mut notes.flushed);
    rotate_under::<R, G, Brand>(tools.rt, table, pass, set, &mut notes.turning, tools.gate);
    let count = move_free(table, pass, lists, set, &mut notes.moved);
    let target = GLOBAL_TARGET - count;
    shrink_lacking(tools, pass, lists, set, target, &mut notes.shrinking);
    target
}

/// Shrinks the global lists into the local free list, on which so many elements lack, unless none does.
fn shrink_lacking<R: Wait, G: Gate>(
    tools: &Tools<R, G>,
    pass: &mut Pass,
    lists: &mut LocalSet<Listing>,
    set: &mut ListSet<Listing>,
    target: u32,
    shrinking: &mut ShrinkNotes,
)
    requires can { CanShrinkInto tools.now.table.now set.old lists.old pass.old }
    ensures { ShrinksLacking tools.now.table.now target
        (both_lists set.old lists.old pass.old)
        (both_lists set.new lists.new pass.new) shrinking.old shrinking.new }
{
    if target == 0 {
        return;
    }
    shrink_under::<R, G, Brand>(tools, pass, set, lists, target, shrinking);
}

/// Flushes all that is pending, from the tail, as in the kernel's `__local_list_flush`.
fn flush(
    table: &PlaceTable,
    pass: &mut Pass,
    lists: &mut LocalSet<Listing>,
    set: &mut ListSet<Listing>,
    flushed: &mut Noted<Flush>,
)
    requires can { CanFill table.now set.old lists.old pass.old }
    ensures { FlushedAll table.now
        (both_lists set.old lists.old pass.old)
        (both_lists set.new lists.new pass.new) flushed.old flushed.new }
{
    while let Some(row) = lists.pending().tail() {
        let flush = flush_tail(table, pass, lists, set, row);
        flushed.note(flush);
    }
}

/// Flushes the row at the tail of pending: an element whose bit is set goes to active, another to inactive, with its hash.
fn flush_tail(
    table: &PlaceTable,
    pass: &mut Pass,
    lists: &mut LocalSet<Listing>,
    set: &mut ListSet<Listing>,
    row: Row,
) -> Flush
    requires can { CanFill table.now set.old lists.old pass.old }
    requires tail { Some row ≡ tail_row lists.old.pending }
    ensures { FlushedOne table.now row
        (both_lists set.old lists.old pass.old)
        (both_lists set.new lists.new pass.new) result }
{
    let bit = table.clear(pass, row.element);
    table.rehome(pass, row.element, Home::In(DomainId::Global));
    // What comes off is this row.
    let _ = lists.take_pending(row.element);
    set.move_in(row, list_of(bit));
    Flush {
        element: row.element,
        hash: row.hash,
        bit,
    }
}

/// The list to which an element is flushed.
fn list_of(bit: bool) -> ListName
    ensures { result ≡ flushed_to bit }
{
    if bit {
        ListName::Active
    } else {
        ListName::Inactive
    }
}

/// Moves free elements of the global lists to the local free list, from the head, up to 128, and says how many.
fn move_free(
    table: &PlaceTable,
    pass: &mut Pass,
    lists: &mut LocalSet<Listing>,
    set: &mut ListSet<Listing>,
    moved: &mut Noted<u32>,
) -> u32
    requires can { CanFill table.now set.old lists.old pass.old }
    ensures { MovedAll table.now
        (both_lists set.old lists.old pass.old)
        (both_lists set.new lists.new pass.new) moved.old moved.new result }
{
    let mut count = 0;
    while count < GLOBAL_TARGET {
        let Some(element) = move_one(table, pass, lists, set) else {
            return count;
        };
        moved.note(element);
        count += 1;
    }
    count
}

/// Moves the head of the free list of the global lists to the head of the local free list, and says which element it is.
fn move_one(
    table: &PlaceTable,
    pass: &mut Pass,
    lists: &mut LocalSet<Listing>,
    set: &mut ListSet<Listing>,
) -> Option<u32>
    requires can { CanFill table.now set.old lists.old pass.old }
    ensures { MovesOne table.now
        (both_lists set.old lists.old pass.old)
        (both_lists set.new lists.new pass.new) result }
{
    let body = set.free_pop()?;
    let element = body.body().element();
    table.rehome(pass, element, Home::In(DomainId::Local(table.cpu_of(pass))));
    lists.push_free(body);
    Some(element)
}

/// What a refill tells of the turn of the global lists inside it, None where there is no memory, or a note of it was lost.
fn tell_refill(
    alloc: Global,
    flushed: &Noted<Flush>,
    moved: &Noted<u32>,
    shrinking: &ShrinkNotes,
) -> Option<Refilled>
    ensures { IfSome result (IsToldRefill flushed.now moved.now shrinking.now) }
{
    let (Noted::Kept(flushed), Noted::Kept(moved)) = (flushed, moved) else {
        return None;
    };
    let (Noted::Kept(looks), Noted::Kept(forced)) = (&shrinking.looks, &shrinking.forced) else {
        return None;
    };
    let visits = visits_of(alloc, flushed.as_slice()).ok()?;
    let gained = gained_from(alloc, moved.as_slice(), looks.as_slice(), forced.as_slice()).ok()?;
    Some(Refilled {
        flushed: List::of(visits),
        gained: List::of(gained),
    })
}

/// Flushes as visits.
fn visits_of(alloc: Global, flushed: &[Flush]) -> Result<Vec<Visit>, NoMemory>
    ensures { IfOk result (λ visits. visits.items ≡ map flush_visit flushed.now) }
{
    Ok(
        flushed
            .iter()
            .map(|flush| Visit {
                element: flush.element,
                bit: flush.bit,
            })
            .collect(alloc)?,
    )
}

/// The elements that came to the local free list, in the order in which they came.
fn gained_from(
    alloc: Global,
    moved: &[u32],
    looks: &[Look],
    forced: &[Try],
) -> Result<Vec<u32>, NoMemory>
    ensures { IfOk result (λ gained. gained.items ≡ moved.now ++ freed looks.now forced.now) }
{
    let mut gained = Vec::from_slice(alloc, moved)?;
    gained.extend_from_slice(looked_off(alloc, looks)?.as_slice())?;
    gained.extend_from_slice(forced_off(alloc, forced)?.as_slice())?;
    Ok(gained)
}

/// The elements that looks removed.
fn looked_off(alloc: Global, looks: &[Look]) -> Result<Vec<u32>, NoMemory>
    ensures { IfOk result (λ elements. elements.items
        ≡ map (λ look. look.element) (filter look_removed looks.now)) }
{
    Ok(
        looks
            .iter()
            .filter(|look| look_removes(look))
            .map(|look| look.element)
            .collect(alloc)?,
    )
}

/// The elements that tries removed.
fn forced_off(alloc: Global, forced: &[Try]) -> Result<Vec<u32>, NoMemory>
    ensures { IfOk result (λ elements. elements.items
        ≡ map (λ try. try.element) (filter try_removed forced.now)) }
{
    Ok(
        forced
            .iter()
            .filter(|tried| removes(tried))
            .map(|tried| tried.element)
            .collect(alloc)?,
    )
}

fn look_removes(look: &Look) -> bool
    ensures { result ≡ look_removed look.now }
{
    match look.probed {
        Some(Seen::Removed) => true,
        Some(Seen::Held(_)) => false,
        None => false,
    }
}

fn removes(tried: &Try) -> bool
    ensures { result ≡ try_removed tried.now }
{
    match tried.probed {
        Seen::Removed => true,
        Seen::Held(_) => false,
    }
}

/// The entry of a turn of the global lists, none where memory for it or for a part of it was not found.
fn global_turn(
    alloc: Global,
    flushed: Noted<Flush>,
    turning: RotateNotes,
    moved: Noted<u32>,
    shrunk: bool,
    target: u32,
    shrinking: ShrinkNotes,
) -> Option<Part>
    ensures told { IfSome result (IsGlobalTurn flushed turning moved shrunk target shrinking) }
{
    let turn = noted_turn(flushed, turning, moved, shrunk, target, shrinking)?;
    Some(Part::Global(PackedGlobal::new(alloc, turn).ok()?))
}

/// What a turn of the global lists noted, none where memory for a part of it was not found.
fn noted_turn(
    flushed: Noted<Flush>,
    turning: RotateNotes,
    moved: Noted<u32>,
    shrunk: bool,
    target: u32,
    shrinking: ShrinkNotes,
) -> Option<GlobalPart>
    ensures told { IfSome result
        (λ turn. IsGlobalTurn flushed turning moved shrunk target shrinking
        (parts.Global turn)) }
    ensures lost { IfNone result (LostInTurn flushed turning moved shrunk shrinking) }
{
    let flushed = kept(flushed)?;
    let active = kept(turning.active)?;
    let inactive = kept(turning.inactive)?;
    let free = kept(moved)?;
    let shrink = if shrunk {
        Some(ShrinkNote {
            target,
            looks: kept(shrinking.looks)?,
            forced: kept(shrinking.forced)?,
        })
    } else {
        None
    };
    Some(GlobalPart::Turn {
        flushed,
        active,
        inactive,
        free,
        shrink,
    })
}
