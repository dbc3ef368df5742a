//! The calls of each mix.

ghost use Rattle.std.specs.Prelude.{◌≡◌, ◌≤◌, ◌<◌, ◌+◌, ◌*◌, map, IfOk};
ghost use Rattle.std.specs.List.{range_with_len};
ghost use Rattle.workload_gen.specs.Draws.{state_after};
ghost use Rattle.workload_gen.specs.Generated.{round_call, drawn_call};

use crate::draws::Draws;
use crate::verbs::{drawn_verb, round_verb};
use map_script::GenSpec;
use map_types::{Call, NoMemory, Shape};
use std::alloc::Global;

/// The calls of mix 0: rounds over the keys, the CPUs in turn.
pub(crate) fn round_calls(
    alloc: Global,
    shape: &Shape,
    spec: &GenSpec,
) -> Result<Vec<Call>, NoMemory>
    requires cpus { 1 ≤ shape.now.cpus }
    requires keys { 1 ≤ spec.now.keys }
    requires few { spec.now.calls ≤ 200000 }
    ensures { IfOk result (λ calls. calls.items
        ≡ map (round_call shape.now spec.now) (range_with_len 0 spec.now.calls)) }
{
    let mut calls = Vec::with_capacity(alloc, spec.calls as usize)?;
    for i in 0..spec.calls {
        let call = round_call(alloc, shape, spec, i)?;
        calls.push(call)?;
    }
    Ok(calls)
}

/// The calls of mix 1: three draws for each.
pub(crate) fn drawn_calls(
    alloc: Global,
    shape: &Shape,
    spec: &GenSpec,
) -> Result<Vec<Call>, NoMemory>
    requires cpus { 1 ≤ shape.now.cpus }
    requires keys { 1 ≤ spec.now.keys }
    requires few { spec.now.calls ≤ 200000 }
    ensures { IfOk result (λ calls. calls.items
        ≡ map (drawn_call shape.now spec.now) (range_with_len 0 spec.now.calls)) }
{
    let mut calls = Vec::with_capacity(alloc, spec.calls as usize)?;
    let mut draws = Draws::of(spec.seed);
    for i in 0..spec.calls {
        let call = drawn_call(alloc, shape, spec, &mut draws, i)?;
        calls.push(call)?;
    }
    Ok(calls)
}

/// Call `i` of mix 0.
#[tactic(auto, unfolding(crate::specs::Generated::round_call))]
fn round_call(alloc: Global, shape: &Shape, spec: &GenSpec, i: u32) -> Result<Call, NoMemory>
    requires cpus { 1 ≤ shape.now.cpus }
    requires keys { 1 ≤ spec.now.keys }
    requires few { spec.now.calls ≤ 200000 }
    requires within { i < spec.now.calls }
    ensures { IfOk result (λ call. call ≡ round_call shape.now spec.now i) }
{
    Ok(Call {
        cpu: i % shape.cpus,
        verb: round_verb(alloc, shape, i / spec.keys, i % spec.keys, i)?,
    })
}

/// Call `i` of mix 1, by the next three draws: its CPU, its verb and its key.
#[tactic(auto, unfolding(crate::specs::Generated::drawn_call))]
fn drawn_call(
    alloc: Global,
    shape: &Shape,
    spec: &GenSpec,
    draws: &mut Draws,
    i: u32,
) -> Result<Call, NoMemory>
    requires cpus { 1 ≤ shape.now.cpus }
    requires keys { 1 ≤ spec.now.keys }
    requires few { spec.now.calls ≤ 200000 }
    requires within { i < spec.now.calls }
    requires drawn { draws.old.state ≡ state_after spec.now.seed (3 * i) }
    ensures call { IfOk result (λ call. call ≡ drawn_call shape.now spec.now i) }
    ensures drawn { draws.new.state ≡ state_after spec.now.seed (3 * (i + 1)) }
{
    let cpu = draws.draw();
    let choice = draws.draw();
    let key = draws.draw();
    Ok(Call {
        cpu: cpu % shape.cpus,
        verb: drawn_verb(alloc, shape, choice % 8, key % spec.keys, i)?,
    })
}
