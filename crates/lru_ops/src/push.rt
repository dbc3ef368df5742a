//! How an element is freed.

ghost use Rattle.std.specs.Prelude.{◌≡◌, ◌≢◌, ◌<◌, ℕ, false, IsTrue, MatchOption};
ghost use Rattle.map_types.specs.declared.kind.DomainId.TheVariants as locks;
ghost use Rattle.place_words.specs.declared.home.Home.TheVariants as homes;
ghost use Rattle.place_words.specs.Takings.{set_of, freed_globally};
ghost use Rattle.lru_ops.specs.Lists.{MapEvicts, CanFree, Freed};
ghost use Rattle.lru_ops.specs.Shared.{CanPushAt, LiesUnder, FreedBy, PushesLocal};

use map_types::{DomainId, Gate};
use percpu_values::BoxedBody;
use place_table::{Content, Pass, PlaceTable};
use place_words::{Home, PackedGlobal, PackedLocal, PackedOwn, Part};
use std::sync::Wait;

/// Frees the element of a body, as `LruMap::push_free`: in the list set in which it lives, or where the CPUs share lists at its
/// home.
pub(crate) fn push_free<R: Wait, G: Gate>(
    rt: &R,
    table: &PlaceTable,
    pass: &mut Pass,
    body: BoxedBody,
    gate: &G,
)
    requires can { CanFree table.now body pass.old }
    requires evicts { MapEvicts table.now }
    ensures { Freed table.now body pass.old pass.new }
{
    if table.shape().common {
        push_shared(rt, table, pass, body, gate);
    } else {
        push_own(rt, table, pass, body, gate);
    }
}

/// Frees the element in one turn of the set in which it lives.
fn push_own<R: Wait, G: Gate>(
    rt: &R,
    table: &PlaceTable,
    pass: &mut Pass,
    body: BoxedBody,
    gate: &G,
)
    requires can { CanFree table.now body pass.old }
    requires evicts { MapEvicts table.now }
    requires own_lists { table.now.shape.common ≡ false }
    ensures { Freed table.now body pass.old pass.new }
{
    let element = body.body().element();
    let lock = DomainId::CpuLru(set_of(table, element));
    let Content::Set(mut set) = table.take(rt, pass, lock, gate) else {
        unreachable!()
    };
    // Whatever the bit was, it is clear from here on.
    let _ = table.clear(pass, element);
    table.settle(pass, element, lock);
    // Its row goes: the element goes on in its body.
    let _ = set.take_off(element);
    set.free_push(body);
    let part = Part::Own(PackedOwn::push(element));
    table.give(pass, lock, Content::Set(set), Some(part), gate);
}

/// Frees the element at the home that its home word shows: local lists, or the global ones. What the CPU has in hand and doesn't
/// carry is at home under a lock.
fn push_shared<R: Wait, G: Gate>(
    rt: &R,
    table: &PlaceTable,
    pass: &mut Pass,
    body: BoxedBody,
    gate: &G,
)
    requires can { CanFree table.now body pass.old }
    requires evicts { MapEvicts table.now }
    requires common { IsTrue table.now.shape.common }
    ensures { Freed table.now body pass.old pass.new }
{
    let element = body.body().element();
    let home = table.home_of(pass, element);
    let Some(cpu) = local_cpu(home) else {
        push_global(rt, table, pass, body, gate);
        return;
    };
    if let Some(body) = push_local(rt, table, pass, cpu, body, gate) {
        push_global(rt, table, pass, body, gate);
    }
}

/// Frees the element in one turn of the local lists of a CPU, where it is still pending there. Else the turn changes nothing, and
/// hands the body back.
fn push_local<R: Wait, G: Gate>(
    rt: &R,
    table: &PlaceTable,
    pass: &mut Pass,
    cpu: u32,
    body: BoxedBody,
    gate: &G,
) -> Option<BoxedBody>
    requires can { CanPushAt table.now (locks.Local cpu) body pass.old }
    requires evicts { MapEvicts table.now }
    requires lies { LiesUnder table.now (locks.Local cpu) body.element pass.old }
    ensures { PushesLocal table.now cpu body pass.old pass.new result }
{
    let element = body.body().element();
    let lock = DomainId::Local(cpu);
    let Content::Local(mut lists) = table.take(rt, pass, lock, gate) else {
        unreachable!()
    };
    if lists.take_pending(element).is_some() {
        // Whatever the bit was, it is clear from here on.
        let _ = table.clear(pass, element);
        table.settle(pass, element, lock);
        lists.push_free(body);
        let part = Part::Local(PackedLocal::push(element, true));
        table.give(pass, lock, Content::Local(lists), Some(part), gate);
        None
    } else {
        let part = Part::Local(PackedLocal::push(element, false));
        table.give(pass, lock, Content::Local(lists), Some(part), gate);
        Some(body)
    }
}

/// Frees the element in one turn of the global lists.
fn push_global<R: Wait, G: Gate>(
    rt: &R,
    table: &PlaceTable,
    pass: &mut Pass,
    body: BoxedBody,
    gate: &G,
)
    requires can { CanPushAt table.now locks.Global body pass.old }
    requires evicts { MapEvicts table.now }
    ensures { FreedBy table.now (freed_globally body.element) body pass.old pass.new }
{
    let element = body.body().element();
    let lock = DomainId::Global;
    let Content::Set(mut set) = table.take(rt, pass, lock, gate) else {
        unreachable!()
    };
    // Whatever the bit was, it is clear from here on.
    let _ = table.clear(pass, element);
    table.settle(pass, element, lock);
    // Its row goes: the element goes on in its body.
    let _ = set.take_off(element);
    set.free_push(body);
    let part = Part::Global(PackedGlobal::push(element));
    table.give(pass, lock, Content::Set(set), Some(part), gate);
}

/// The CPU in whose set an element lives.
fn set_of(table: &PlaceTable, element: u32) -> u32
    requires real { element < table.now.shape.elements }
    requires evicts { MapEvicts table.now }
    requires own_lists { table.now.shape.common ≡ false }
    ensures value { result ≡ set_of table.now.shape element }
    ensures in_range { result < table.now.shape.cpus }
{
    let shape = table.shape();
    element / (shape.elements / shape.cpus)
}

/// The CPU whose local lists are a home: None where it is another.
fn local_cpu(home: Home) -> Option<u32>
    ensures { MatchOption result ((cpu : ℕ) → home ≢ homes.In (locks.Local cpu))
        (λ cpu. home ≡ homes.In (locks.Local cpu)) }
{
    match home {
        Home::In(DomainId::Local(cpu)) => Some(cpu),
        _ => None,
    }
}
