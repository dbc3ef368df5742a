//! The spare elements of a map of kind HASH. They are in the hands of their CPUs, and no word tells of them.

ghost use Rattle.std.specs.Prelude.{◌≡◌, ◌≢◌, ℕ, ◌<◌, Some, None};
ghost use Rattle.place_table.specs.Passes.{CanSpare, Spared, CanKeepSpare, KeptSpare, SparesDiffer, spare_of, either_spare};

use crate::create::no_bodies;
use crate::pass::Pass;
use crate::table::PlaceTable;
use percpu_values::BoxedBody;
use std::mem;

impl PlaceTable {
    /// Hands out the spare element of the CPU, or none where it is out. Only a map of kind HASH has spares.
    pub fn spare(&self, pass: &mut Pass) -> Option<BoxedBody>
        requires { CanSpare self.now pass.old }
        ensures { Spared self.now pass.old pass.new result }
    {
        // That a map has 16 CPUs at most is known of the table once a field is read.
        let _ = &self.shape;
        take_from(&mut pass.spares, pass.cpu)
    }

    /// Keeps an element that is in the CPU's hand as its spare, where that is out.
    pub fn keep_spare(&self, pass: &mut Pass, body: BoxedBody)
        requires { CanKeepSpare self.now body pass.old }
        ensures { KeptSpare body pass.old pass.new }
    {
        // That a map has 16 CPUs at most is known of the table once a field is read.
        let _ = &self.shape;
        put_into(&mut pass.spares, pass.cpu, body);
    }
}

/// Takes out what is kept for a CPU.
fn take_from(spares: &mut [Option<BoxedBody>; 16], cpu: u32) -> Option<BoxedBody>
    requires { cpu < 16 }
    ensures taken { result ≡ spare_of cpu spares.old }
    ensures out { spare_of cpu spares.new ≡ None }
    ensures others { SparesDiffer cpu spares.old spares.new }
{
    mem::replace(&mut spares[cpu as usize], None)
}

/// Keeps a body for a CPU.
fn put_into(spares: &mut [Option<BoxedBody>; 16], cpu: u32, body: BoxedBody)
    requires { cpu < 16 }
    ensures here { spare_of cpu spares.new ≡ Some body }
    ensures others { SparesDiffer cpu spares.old spares.new }
{
    spares[cpu as usize] = Some(body);
}

/// Takes out what is kept for a CPU, by CPU.
pub(crate) fn split_spares(
    spares: &mut [Option<BoxedBody>; 16],
    cpu: u32,
) -> [Option<BoxedBody>; 16]
    requires { cpu < 16 }
    ensures gone { spare_of cpu spares.new ≡ None }
    ensures stay { SparesDiffer cpu spares.old spares.new }
    ensures taken { spare_of cpu result ≡ spare_of cpu spares.old }
    ensures no_others { (other : ℕ) → other ≢ cpu → spare_of other result ≡ None }
{
    let mut off = no_bodies();
    off[cpu as usize] = take_from(spares, cpu);
    off
}

/// Keeps for each CPU what is kept for it here or there.
pub(crate) fn join_spares(ours: &mut [Option<BoxedBody>; 16], theirs: &mut [Option<BoxedBody>; 16])
    ensures { (cpu : ℕ)
        → spare_of cpu ours.new ≡ either_spare (spare_of cpu ours.old) (spare_of cpu theirs.old) }
{
    for cpu in 0..16 {
        join_spare(ours, theirs, cpu);
    }
}

/// Keeps what is kept there for a CPU, where nothing is kept for it here.
fn join_spare(ours: &mut [Option<BoxedBody>; 16], theirs: &mut [Option<BoxedBody>; 16], cpu: u32)
    requires { cpu < 16 }
    ensures here { spare_of cpu ours.new
        ≡ either_spare (spare_of cpu ours.old) (spare_of cpu theirs.old) }
    ensures others { SparesDiffer cpu ours.old ours.new × SparesDiffer cpu theirs.old theirs.new }
{
    if ours[cpu as usize].is_none() {
        ours[cpu as usize] = take_from(theirs, cpu);
    }
}
