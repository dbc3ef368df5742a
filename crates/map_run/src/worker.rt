//! One worker of a race.

ghost use Rattle.std.specs.Prelude.{suc, ◌≡◌, ◌≤◌, ◌+◌, false, All, OnOk, length};
ghost use Rattle.map_types.specs.Creation.{IsShape};
ghost use Rattle.map_batch.specs.Calls.{table_of};
ghost use Rattle.serial_laws.specs.Served.{IsServedCall};
ghost use Rattle.run_records.specs.Work.{HasWorked};
ghost use Rattle.map_run.specs.Workers.{IsReady};

use crate::one_call::run_call;
use file_order::ReplyQueue;
use map_batch::AnyMap;
use map_types::{Call, Gate, NoMemory, Point};
use place_table::Pass;
use std::alloc::Global;
use std::sync::Wait;

/// A worker of a race, which makes the calls of one CPU.
#[derive(Drop)]
pub struct Worker {
    pub cpu: u32,
    /// A pass that has this CPU alone.
    pub pass: Pass,
    /// The answers to its calls, in their order.
    pub replies: ReplyQueue,
    /// Whether it found no memory, and made no call from there on.
    pub failed: bool,
}

/// Makes the worker's calls among all those of a phase, in their order. So many calls came before the phase.
pub(crate) fn work<R: Wait, G: Gate>(
    rt: &R,
    alloc: Global,
    map: &AnyMap,
    before: u32,
    calls: &[Call],
    gate: &G,
    worker: &mut Worker,
)
    requires shape { IsShape (table_of map.now).shape }
    requires calls { All (IsServedCall (table_of map.now).shape) calls.now }
    requires few { before + length calls.now ≤ 200000 }
    requires first { IsReady (table_of map.now) worker.old }
    ensures cpu { worker.new.cpu ≡ worker.old.cpu }
    ensures worked { worker.new.failed ≡ false
        → HasWorked (table_of map.now) worker.old.cpu (suc before) calls.now worker.old.pass
        worker.new.pass worker.new.replies }
{
    let done = run_own(rt, alloc, map, before, calls, gate, worker);
    worker.failed = done.is_err();
}

/// Runs the calls of the worker's CPU among these, and adds their answers. They are numbered as they stand among all, from
/// `before + 1` on.
fn run_own<R: Wait, G: Gate>(
    rt: &R,
    alloc: Global,
    map: &AnyMap,
    before: u32,
    calls: &[Call],
    gate: &G,
    worker: &mut Worker,
) -> Result<(), NoMemory>
    requires shape { IsShape (table_of map.now).shape }
    requires calls { All (IsServedCall (table_of map.now).shape) calls.now }
    requires few { before + length calls.now ≤ 200000 }
    requires first { IsReady (table_of map.now) worker.old }
    ensures cpu { worker.new.cpu ≡ worker.old.cpu }
    ensures worked { OnOk result
        (HasWorked (table_of map.now) worker.old.cpu (suc before) calls.now worker.old.pass
        worker.new.pass worker.new.replies) }
{
    let cpu = worker.cpu;
    let mut number = before;
    for call in calls {
        number += 1;
        if call.cpu != cpu {
            continue;
        }
        gate.at(cpu, Point::Begin(number));
        let reply = run_call(rt, alloc, map, &mut worker.pass, number, call, gate)?;
        gate.at(cpu, Point::Done(number));
        worker.replies.push(reply)?;
    }
    Ok(())
}
