//! The core.

ghost use Rattle.std.specs.Prelude.{◌≡◌, IfOk, OnOk, OnErr};
ghost use Rattle.map_types.specs.Creation.{IsShape};
ghost use Rattle.place_core.specs.declared.refusal.CoreRefusal.TheVariants as refusals;
ghost use Rattle.place_core.specs.Answers.{view_of, Answers};
ghost use Rattle.place_core.specs.CoreView.{state_of, IsCore};
ghost use Rattle.place_words.specs.OpeningState.{opening};
ghost use Rattle.place_words.specs.Places.{Placed};
ghost use Rattle.place_words.specs.Ranks.{Ranked};
ghost use Rattle.place_words.specs.Steps.{CoreStep, IsEnabled};

use crate::cells::Cells;
use crate::first_cells::cells_at_first;
use crate::locks::{give, take};
use crate::owners::{attach, claim, detach, mark, settle};
use crate::rehome::{clear, glance, rehome};
use crate::{CoreRefusal, Step};
use map_types::{NoMemory, Shape};
use std::alloc::Global;
use std::marker::Model;

/// Where the elements of a map are, who holds its locks, and by which steps that changes.
#[derive(Drop)]
pub struct Core {
    cells: Cells,
}

impl Model for Core {
    ghost use Rattle.place_core.specs.CoreView.{CoreView, IsCore};
    ghost use Rattle.place_core.specs.Answers.{view_of};

    ghost Value = { CoreView };

    ghost view = { λ core. view_of core.cells };

    ghost invariant = { λ core. IsCore (view_of core.cells) };
}

impl Core {
    /// The core of a map at its opening: nobody holds a lock, and the elements lie in its freelists, or on the free lists of
    /// a map that evicts, but for the spare elements of a map of kind HASH, as the kernel's `prealloc_init`,
    /// `alloc_extra_elems` and `bpf_lru_populate` leave them. That CPU 0 pops all spares is this project's own choice.
    pub fn start(alloc: Global, shape: &Shape) -> Result<Core, NoMemory>
        requires { IsShape shape.now }
        ensures shape { IfOk result (λ core. core.shape ≡ shape.now) }
        ensures exact { IfOk result (λ core. state_of core ≡ opening shape.now) }
        ensures placed { IfOk result (λ core. Placed shape.now (state_of core)) }
        ensures ranked { IfOk result (λ core. Ranked shape.now (state_of core)) }
    {
        let cells = cells_at_first(alloc, shape)?;
        Ok(Core { cells })
    }

    /// Does a step. `NotEnabled` comes exactly where its condition fails, and `NoMemory` where memory for it was not found.
    /// After either nothing has changed. A step copies the lists that it changes, and takes time and memory by their
    /// length.
    pub fn step(&mut self, alloc: Global, step: &Step) -> Result<(), CoreRefusal>
        ensures done { OnOk result (CoreStep self.old.shape (state_of self.old) step.now
            (state_of self.new)) }
        ensures not_enabled { result ≡ Err refusals.NotEnabled
            → ¬ IsEnabled self.old.shape (state_of self.old) step.now }
        ensures unchanged { OnErr result (self.new ≡ self.old) }
        ensures shape { self.new.shape ≡ self.old.shape }

        // Each core has its elements in their places, and the locks of its CPUs ranked.
        ensures placed { Placed self.new.shape (state_of self.new) }
        ensures ranked { Ranked self.new.shape (state_of self.new) }
    {
        do_step(&mut self.cells, alloc, step)
    }
}

/// Does a step of any kind.
fn do_step(cells: &mut Cells, alloc: Global, step: &Step) -> Result<(), CoreRefusal>
    requires { IsCore (view_of cells.old) }
    ensures { Answers (view_of cells.old) step.now (view_of cells.new) result }
{
    match step {
        Step::Take { cpu, lock } => take(cells, *cpu, *lock),
        Step::Give { cpu, lock, lists } => give(cells, alloc, *cpu, *lock, lists),
        Step::Claim { cpu, element, lock } => claim(cells, alloc, *cpu, *element, *lock),
        Step::Settle { cpu, element, lock } => settle(cells, alloc, *cpu, *element, *lock),
        Step::Attach {
            cpu,
            element,
            bucket,
        } => attach(cells, alloc, *cpu, *element, *bucket),
        Step::Detach {
            cpu,
            element,
            bucket,
        } => detach(cells, alloc, *cpu, *element, *bucket),
        Step::Rehome { cpu, element, to } => rehome(cells, alloc, *cpu, *element, *to),
        Step::Mark {
            cpu,
            element,
            bucket,
        } => mark(cells, *cpu, *element, *bucket),
        Step::Clear { cpu, element } => clear(cells, *cpu, *element),
        Step::Glance { cpu, element } => glance(cells, *cpu, *element),
    }
}
