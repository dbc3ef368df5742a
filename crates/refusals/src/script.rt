//! Wrong readings and texts of scripts: each function makes one call, whose contract refuses them.

ghost use Rattle.std.specs.Prelude.{◌≡◌, ◌≢◌, ℕ, ◌-◌, ◌≤◌, ◌^◌, List, [], ◌∷◌, ◌++◌, length, count_by, codes, IfOk, Err};
ghost use Rattle.map_script.specs.Lines.{is_line_feed};
ghost use Rattle.map_script.specs.declared.refusal.Cause as causes;
ghost use Rattle.map_script.specs.declared.refusal.Cause.TheVariants.{Number, Copier};
ghost use Rattle.map_script.specs.declared.refusal.ScriptRefusal.TheVariants as refusals;
ghost use Rattle.refusals.specs.Script.{IsInThreePhases, update_any};

use map_script::{Form, Script, ScriptRefusal, kind_name, read_script};
use map_types::{MapKind, NoMemory};
use std::alloc::Global;

/// A fault of the generator line is told at that line, which is the third here.
pub fn fault_of_third_line(alloc: Global) -> Result<Script, ScriptRefusal>
    ensures { (line : ℕ) (cause : causes.Cause) → result ≡ Err (refusals.Fault line cause)
        → line ≡ 3 }
{
    read_script(
        alloc,
        b"bpfmap 1\nmap hash key 1 value 1 max 1 cpus 1\ngen\n",
        Form::Generator,
    )
}

/// No script is read where a second generator line stands.
pub fn second_generator_line(alloc: Global) -> Result<Script, ScriptRefusal>
    ensures { IfOk result (λ script. ⊥) }
{
    read_script(
        alloc,
        b"bpfmap 1\nmap hash key 1 value 1 max 1 cpus 1\ngen seed 0 calls 1 keys 1 mix 0\ngen\n",
        Form::Generator,
    )
}

/// An update under the flag `any` may overwrite.
pub fn update_under_any(alloc: Global) -> Result<Script, ScriptRefusal>
    ensures { IfOk result (λ script. script.calls ≡ update_any ∷ []) }
{
    read_script(
        alloc,
        b"bpfmap 1\nmap hash key 1 value 1 max 1 cpus 1\n0 update any 01 02\n",
        Form::Calls,
    )
}

/// A call of CPU 0 behind which no phase begins is the first fault, and not the line behind it.
pub fn call_where_cpu_0_copies(alloc: Global) -> Result<Script, ScriptRefusal>
    ensures { (line : ℕ) (cause : causes.Cause) → result ≡ Err (refusals.Fault line cause)
        → (line ≡ 4) × (cause ≡ Copier) }
{
    read_script(
        alloc,
        b"bpfmap 2\nmap hash key 1 value 1 max 1 cpus 1\ntarget hash max 1 count 1\n0 next\nfrob\n",
        Form::Copy,
    )
}

/// Where a phase begins behind it, that call is none, though there is a fault between them.
pub fn fault_before_a_phase(alloc: Global) -> Result<Script, ScriptRefusal>
    ensures { (line : ℕ) (cause : causes.Cause) → result ≡ Err (refusals.Fault line cause)
        → (line ≡ 5) × (cause ≡ Number) }
{
    read_script(
        alloc,
        b"bpfmap 2\nmap hash key 1 value 1 max 1 cpus 1\ntarget hash max 1 count 1\n0 next\nfrob\nphase x\n",
        Form::Copy,
    )
}

/// No script has 65 phases.
pub fn script_of_few_phases(alloc: Global, text: &[u8]) -> Result<Script, ScriptRefusal>
    requires { count_by is_line_feed text.now ≤ 2 ^ 32 - 3 }
    ensures { IfOk result (λ script. length script.cuts ≢ 64) }
{
    read_script(alloc, text, Form::Calls)
}

/// Of three calls in three phases the last is written behind the last `phase` line.
pub fn text_in_three_phases(script: &Script, alloc: Global) -> Result<Vec<u8>, NoMemory>
    requires { IsInThreePhases script.now }
    ensures { IfOk result (λ text. (before : List ℕ) → text.items ≢ before ++ codes "phase\n") }
{
    script.text(alloc)
}

/// A kind that evicts and keeps a value for each CPU isn't written as one that keeps one value.
pub fn name_of_lru_percpu() -> &'static str
    ensures { result.now ≢ codes "lru_hash" }
{
    kind_name(MapKind::LruPercpuHash)
}
