//! The workload of a script.

ghost use Rattle.std.specs.Prelude.{◌≡◌, ◌≤◌, Ok, IfOk, IfSome};
ghost use Rattle.map_script.specs.declared.script.Form as forms;
ghost use Rattle.map_script.specs.Canonical.{canonical};
ghost use Rattle.map_script.specs.Reading.{IsReadAs, read_as};
ghost use Rattle.map_script.specs.WellFormed.{IsWellFormed};
ghost use Rattle.workload_gen.specs.Generated.{calls_of_spec, calls_generated, generated_script, listed};

use crate::mixes::{drawn_calls, round_calls};
use map_script::{Form, GenSpec, Script};
use map_types::{Call, List, NoMemory, Shape};
use std::alloc::Global;

/// The script with the calls that its generator line stands for. It keeps the line.
///
/// Calls and keys are numbered from 0. Key `k` is the number `k + 1`, and call `i` stores the number `i + 1`, each in
/// little-endian bytes. All calls are those of programs. In mix 0 call `i` is on CPU `i % cpus` and key `i % keys`, and
/// updates it in rounds over the keys of even number, and looks it up in the others. In mix 1 each call draws its CPU,
/// then of eight choices its verb (three are an update, four a lookup, one a delete), and then its key.
///
/// It fails only where memory for the calls isn't found. Time and memory are linear in the bytes of all keys and values.
#[tactic(auto, unfolding(crate::specs::Generated::generated_script))]
pub fn generate(alloc: Global, script: &Script) -> Result<Script, NoMemory>
    // It is a script that form Generator gives.
    requires { IsReadAs Form.Generator script.now }
    ensures exact { IfOk result (λ generated. generated ≡ generated_script script.now) }
    ensures well_formed { IfOk result IsWellFormed }
    // Its canonical text, which has the line and no calls, is read as the script again.
    ensures own_text { IfOk result (λ generated. read_as Form.Generator (canonical generated)
        ≡ Ok script.now) }
    // The canonical text of the same calls without the line is read as these calls.
    ensures listed_text { IfOk result (λ generated. read_as Form.Calls
        (canonical (listed generated)) ≡ Ok (listed generated)) }
{
    let calls = calls_generated(alloc, &script.shape, script.spec)?;
    Ok(Script {
        version: script.version,
        attr: script.attr,
        shape: script.shape,
        calls: List::of(calls),
        cuts: List::of(Vec::new(alloc)),
        spec: script.spec,
        target: None,
    })
}

/// The calls of the spec that a script has.
fn calls_generated(
    alloc: Global,
    shape: &Shape,
    spec: Option<GenSpec>,
) -> Result<Vec<Call>, NoMemory>
    requires cpus { 1 ≤ shape.now.cpus }
    requires keys { IfSome spec (λ spec. 1 ≤ spec.keys) }
    requires few { IfSome spec (λ spec. spec.calls ≤ 200000) }
    ensures { IfOk result (λ calls. calls.items ≡ calls_generated shape.now spec) }
{
    match spec {
        None => Ok(Vec::new(alloc)),
        Some(spec) => calls_of_spec(alloc, shape, &spec),
    }
}

/// The calls of a spec.
fn calls_of_spec(alloc: Global, shape: &Shape, spec: &GenSpec) -> Result<Vec<Call>, NoMemory>
    requires cpus { 1 ≤ shape.now.cpus }
    requires keys { 1 ≤ spec.now.keys }
    requires few { spec.now.calls ≤ 200000 }
    ensures { IfOk result (λ calls. calls.items ≡ calls_of_spec shape.now spec.now) }
{
    if spec.mix == 0 {
        round_calls(alloc, shape, spec)
    } else {
        drawn_calls(alloc, shape, spec)
    }
}
