//! How an element is taken for a new key.

ghost use Rattle.place_table.specs.Calls.{CanCall};
ghost use Rattle.lru_ops.specs.Lists.{MapEvicts, Acquired};

use crate::own_set::take_own;
use crate::shared::take_shared;
use map_types::Gate;
use percpu_values::BoxedBody;
use place_table::{Pass, PlaceTable};
use std::alloc::Global;
use std::sync::Wait;

/// Takes an element for a key of this hash, as `LruMap::acquire`: from the CPU's own list set, or where the CPUs share lists from
/// these.
pub(crate) fn acquire<R: Wait, G: Gate>(
    rt: &R,
    alloc: Global,
    table: &PlaceTable,
    pass: &mut Pass,
    hash: u32,
    gate: &G,
) -> Option<BoxedBody>
    requires can { CanCall table.now pass.old }
    requires evicts { MapEvicts table.now }
    ensures { Acquired table.now hash pass.old pass.new result }
{
    if table.shape().common {
        take_shared(rt, alloc, table, pass, hash, gate)
    } else {
        take_own(rt, alloc, table, pass, hash, gate)
    }
}
