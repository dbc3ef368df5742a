//! One walk over all elements of a run.

ghost use Rattle.std.specs.Prelude.{◌≡◌, IfOk, IfSome, List, ℕ, length};
ghost use Rattle.map_types.specs.declared.call.Verb.TheVariants as verbs;
ghost use Rattle.place_words.specs.Handing.{is_stop};
ghost use Rattle.place_table.specs.Calls.{CanCall, Called};
ghost use Rattle.map_batch.specs.Calls.{table_of};
ghost use Rattle.map_report.specs.Record.{MayAnswer};

use elem_walk::{ElemWalk, Handed, WalkRefusal};
use map_batch::AnyMap;
use map_types::{Bytes, Errno, Gate, NoMemory, Reply};
use place_table::Pass;
use std::alloc::{AllocError, Global};
use std::sync::Wait;

/// Hands over all elements up to a key, or all, and answers what was handed over.
pub(crate) fn each<R: Wait, G: Gate>(
    rt: &R,
    alloc: Global,
    map: &AnyMap,
    pass: &mut Pass,
    cpu: u32,
    flags: u32,
    stop: &Option<Bytes>,
    gate: &G,
) -> Result<Reply, NoMemory>
    requires can { CanCall (table_of map.now) pass.old }
    requires cpu { cpu ≡ pass.old.cpu }
    ensures answers { IfOk result (λ reply. MayAnswer (table_of map.now).shape
        (verbs.Each flags stop.now) reply) }
    ensures called { IfOk result (λ reply. Called (table_of map.now) pass.old pass.new
        (verbs.Each flags stop.now) reply) }
{
    let table = map.table();
    let shape = table.shape();
    let walk = ElemWalk::of(
        |key: &[u8], _value: &[u8]| stops_at(stop, key),
        shape.key_size,
        shape.value_size,
    );
    match walk.run(rt, alloc, table, shape, pass, cpu, flags, gate) {
        Ok(Handed { taken, next }) => Ok(Reply::Batch {
            stop: None,
            taken,
            next,
        }),
        Err(WalkRefusal::Einval) => Ok(Reply::Refused(Errno::Einval)),
        Err(WalkRefusal::NoMemory) => Err(AllocError.into()),
    }
}

/// Whether a walk stops at a key.
fn stops_at(stop: &Option<Bytes>, key: &[u8]) -> bool
    ensures { (value : List ℕ) → result ≡ is_stop stop.now (key.now, value) }
{
    match stop {
        None => false,
        Some(stop) => key == stop.as_slice(),
    }
}
