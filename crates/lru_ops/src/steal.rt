//! The round of thefts of a CPU that found no free element.

ghost use Rattle.std.specs.Prelude.{◌≡◌, ◌<◌, ◌⊎◌, [], IfSome, IfNone};
ghost use Rattle.lru_lists.specs.declared.notes.Noted.TheVariants as noted;
ghost use Rattle.place_words.specs.declared.history.Part.TheVariants as parts;
ghost use Rattle.place_words.specs.Turns.{ring};
ghost use Rattle.lru_ops.specs.Lists.{MapEvicts};
ghost use Rattle.lru_ops.specs.Shared.{CanSteal, StoleFrom, StoleRound, CanBringHome, BroughtHome};
ghost use Rattle.lru_ops.specs.Thefts.{CanSearch, Walked, Searched, stolen_of, IsTheft, both_walks};

use crate::probing::{search_all, search_sparing};
use crate::shared::packed_part;
use local_lists::LocalSet;
use lru_lists::Noted;
use map_types::{DomainId, Gate, Row};
use percpu_values::BoxedBody;
use place_table::{Content, Listing, Pass, PlaceTable};
use place_words::{Home, LocalPart, Look, PackedLocal, Part, Stolen, Try};
use std::alloc::Global;
use std::marker::Brand;
use std::sync::Wait;
use steal_ring::{Ring, ring_next};

/// Looks for an element under the local lists of each CPU, from this one upwards with wrapping, up to the first that gives one,
/// and brings it to the own local lists.
pub(crate) fn steal_round<R: Wait, G: Gate>(
    rt: &R,
    alloc: Global,
    table: &PlaceTable,
    pass: &mut Pass,
    cursor: u32,
    hash: u32,
    gate: &G,
) -> Option<BoxedBody>
    requires can { CanSteal table.now pass.old }
    requires evicts { MapEvicts table.now }
    requires below { cursor < table.now.shape.cpus }
    ensures { StoleRound table.now hash (ring cursor table.now.shape.cpus) pass.old pass.new
        result }
{
    let cpus = table.shape().cpus;
    for from in Ring::of(cursor, cpus) {
        if let Some(body) = steal_from(rt, alloc, table, pass, from, gate) {
            let element = body.body().element();
            bring_home(rt, table, pass, element, hash, from, gate);
            return Some(body);
        }
    }
    None
}

/// Takes an element from the local lists of a CPU, in one turn of their lock: the head of the free list; or the first pending one,
/// from the tail, whose bit isn't set and that a probe removes; or the first that a probe removes, whatever its bit. It is carried
/// by the pass's CPU then.
fn steal_from<R: Wait, G: Gate>(
    rt: &R,
    alloc: Global,
    table: &PlaceTable,
    pass: &mut Pass,
    from: u32,
    gate: &G,
) -> Option<BoxedBody>
    requires can { CanSteal table.now pass.old }
    requires evicts { MapEvicts table.now }
    requires there { from < table.now.shape.cpus }
    ensures { StoleFrom table.now from pass.old pass.new result }
{
    let lock = DomainId::Local(from);
    let cpu = table.cpu_of(pass);
    let Content::Local(mut lists) = table.take(rt, pass, lock, gate) else {
        unreachable!()
    };
    if let Some(body) = lists.pop_free() {
        let element = body.body().element();
        table.claim(pass, element, lock);
        table.rehome(pass, element, Home::Hand(cpu));
        let part = Part::Local(PackedLocal::steal_free(alloc, element));
        table.give(pass, lock, Content::Local(lists), Some(part), gate);
        return Some(body);
    }
    let mut first = Noted::empty(alloc);
    let mut second = Noted::empty(alloc);
    let got = search(rt, table, pass, &mut lists, &mut first, &mut second, gate);
    let part = packed_part(alloc, steal_part(stolen_of(&got), first, second));
    table.give(pass, lock, Content::Local(lists), part, gate);
    got
}

/// Walks over the pending list of local lists, whose lock alone the pass holds, first sparing set bits and then not, up to the first
/// element that a probe removes. That one leaves the list.
fn search<R: Wait, G: Gate>(
    rt: &R,
    table: &PlaceTable,
    pass: &mut Pass,
    lists: &mut LocalSet<Listing>,
    first: &mut Noted<Look>,
    second: &mut Noted<Try>,
    gate: &G,
) -> Option<BoxedBody>
    requires can { CanSearch table.now lists.old pass.old }
    requires none_free { lists.old.free.bodies ≡ [] }
    ensures { Searched table.now lists.old lists.new
        (both_walks first.old second.old pass.old)
        (both_walks first.new second.new pass.new) result }
{
    let body = walk(rt, table, pass, lists, first, second, gate)?;
    // Its row goes: the element goes on in its body.
    let _ = lists.take_pending(body.body().element());
    Some(body)
}

/// The walks alone.
fn walk<R: Wait, G: Gate>(
    rt: &R,
    table: &PlaceTable,
    pass: &mut Pass,
    lists: &LocalSet<Listing>,
    first: &mut Noted<Look>,
    second: &mut Noted<Try>,
    gate: &G,
) -> Option<BoxedBody>
    requires can { CanSearch table.now lists.now pass.old }
    requires none_free { lists.now.free.bodies ≡ [] }
    ensures { Walked table.now lists.now
        (both_walks first.old second.old pass.old)
        (both_walks first.new second.new pass.new) result }
{
    match search_sparing::<R, G, Brand>(rt, table, pass, lists, first, gate) {
        Some(body) => Some(body),
        None => search_all::<R, G, Brand>(rt, table, pass, lists, second, gate),
    }
}

/// Brings an element that the CPU carries to the head of the own pending list, with this hash and a cleared bit. The next theft
/// starts at the CPU after the one from which it was stolen.
fn bring_home<R: Wait, G: Gate>(
    rt: &R,
    table: &PlaceTable,
    pass: &mut Pass,
    element: u32,
    hash: u32,
    from: u32,
    gate: &G,
)
    requires can { CanBringHome table.now element pass.old }
    requires evicts { MapEvicts table.now }
    requires there { from < table.now.shape.cpus }
    ensures { BroughtHome table.now hash from element pass.old pass.new }
{
    let cursor = ring_next(from, table.shape().cpus);
    let lock = DomainId::Local(table.cpu_of(pass));
    let Content::Local(mut lists) = table.take(rt, pass, lock, gate) else {
        unreachable!()
    };
    table.rehome(pass, element, Home::In(lock));
    // Whatever the bit was, it is clear from here on.
    let _ = table.clear(pass, element);
    lists.add_pending(Row { element, hash });
    lists.set_steal_cursor(cursor);
    let part = Part::Local(PackedLocal::add(hash, element, cursor));
    table.give(pass, lock, Content::Local(lists), Some(part), gate);
}

/// What a search of the pending list stole.
fn stolen_of(got: &Option<BoxedBody>) -> Stolen
    ensures { result ≡ stolen_of got.now }
{
    match got {
        Some(body) => Stolen::Pending(body.body().element()),
        None => Stolen::Nothing,
    }
}

/// What a theft's turn tells, none where memory for a note of it was not found.
fn steal_part(stolen: Stolen, first: Noted<Look>, second: Noted<Try>) -> Option<LocalPart>
    ensures told { IfSome result (λ part. IsTheft stolen first second (parts.Local part)) }
    ensures lost { IfNone result ((first ≡ noted.Lost) ⊎ (second ≡ noted.Lost)) }
{
    let (Noted::Kept(first), Noted::Kept(second)) = (first, second) else {
        return None;
    };
    Some(LocalPart::Steal {
        got: stolen,
        first,
        second,
    })
}
