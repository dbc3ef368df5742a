//! Of the local lists of each CPU, which turns are pushes that found their element gone since a refill had flushed it.

ghost use Rattle.std.specs.Prelude.{◌≡◌, IfOk, map, true};
ghost use Rattle.map_types.specs.Creation.{IsShape};
ghost use Rattle.map_report.specs.Record.{locks_of};
ghost use Rattle.record_shape.specs.WellShaped.{lock_of};
ghost use Rattle.call_check.specs.GoneTables.{NameElements, gone_by_cpu, local_lists};

use crate::moved::were_gone;
use map_types::{List, NoMemory, Shape};
use place_words::LockHistory;
use std::alloc::Global;

/// Of the local lists of each CPU which turns are such pushes.
pub(crate) fn gone_by_cpu(
    alloc: Global,
    shape: &Shape,
    histories: &[LockHistory],
) -> Result<Vec<List<bool>>, NoMemory>
    requires shape { IsShape shape.now }
    requires locks { map lock_of histories.now ≡ locks_of shape.now }
    requires elements { NameElements shape.now histories.now }
    ensures { IfOk result (λ gone. gone.items ≡ gone_by_cpu shape.now histories.now) }
{
    let mut table = Vec::new(alloc);
    for cpu in 0..local_lists(shape) {
        let entries = &histories[cpu as usize].entries;
        let gone = were_gone(alloc, shape.elements, entries)?;
        table.push(List::of(gone))?;
    }
    Ok(table)
}

/// How many CPUs have local lists.
fn local_lists(shape: &Shape) -> u32
    ensures { result ≡ local_lists shape.now }
{
    if shape.common { shape.cpus } else { 0 }
}
