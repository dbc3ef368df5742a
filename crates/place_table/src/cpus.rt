//! Which CPUs a pass has, as flags.

ghost use Rattle.std.specs.Prelude.{◌≡◌, ◌++◌, ◌∷◌, ◌<◌, ◌≤◌, List, [], ℕ};
ghost use Rattle.place_table.specs.Views.{numbers_below, without_cpu};
ghost use Rattle.place_table.specs.Passes.{flags_of};

/// All CPUs of a map.
pub(crate) fn first_cpus(count: u32) -> [bool; 16]
    requires { count ≤ 16 }
    ensures { result ≡ flags_of (numbers_below count) }
{
    let mut cpus = [false; 16];
    for cpu in 0..count {
        add_cpu(&mut cpus, cpu);
    }
    cpus
}

/// One CPU.
pub(crate) fn one_cpu(cpu: u32) -> [bool; 16]
    requires { cpu < 16 }
    ensures { result ≡ flags_of (cpu ∷ []) }
{
    let mut cpus = [false; 16];
    add_cpu(&mut cpus, cpu);
    cpus
}

/// Adds a CPU.
fn add_cpu(cpus: &mut [bool; 16], cpu: u32)
    requires { cpu < 16 }
    ensures { (among : List ℕ) → cpus.old ≡ flags_of among → cpus.new ≡ flags_of (cpu ∷ among) }
{
    cpus[cpu as usize] = true;
}

/// Takes a CPU out.
pub(crate) fn drop_cpu(cpus: &mut [bool; 16], cpu: u32)
    requires { cpu < 16 }
    ensures { (among : List ℕ) → cpus.old ≡ flags_of among
        → cpus.new ≡ flags_of (without_cpu cpu among) }
{
    cpus[cpu as usize] = false;
}

/// Adds the CPUs of another pass.
pub(crate) fn add_cpus(cpus: &mut [bool; 16], others: &[bool; 16])
    ensures { (first second : List ℕ) → cpus.old ≡ flags_of first → others.now ≡ flags_of second
        → cpus.new ≡ flags_of (first ++ second) }
{
    for cpu in 0..16 {
        cpus[cpu] = cpus[cpu] | others[cpu];
    }
}
