//! What one worker has of the table: its seat, its call, its CPUs, the steps of its strands that are recorded, and its spares. How
//! the first pass of a table is made, how passes are split and joined, and how the last one ends with its table: no code elsewhere
//! sees which CPUs a pass has, or can lose the strands that have ended.

ghost use Rattle.std.specs.Prelude.{ℕ, ◌≡◌, ◌<◌, true, IfOk};
ghost use Rattle.map_types.specs.Creation.{IsShape};
ghost use Rattle.place_table.specs.Closing.{IsClosed};
ghost use Rattle.place_table.specs.Passes.{IsFirstPass, IsPassOf, IsInNoCall, CanSplit, Split, CanJoin, Joined};
ghost use Rattle.place_table.specs.Views.{is_among};

use crate::close::{empty_out, keep_others, marked_in, room_for};
use crate::closed::Closed;
use crate::cpus::{add_cpus, drop_cpu, first_cpus, one_cpu};
use crate::create::{first_slots, first_words, spare_bodies};
use crate::read_slots::read_slots;
use crate::rule::TableSeat;
use crate::spares::{join_spares, split_spares};
use crate::steps::{cut_seat, merge_seat};
use crate::strands::{TurnsMade, end_strand, ended_told, join_made, none_made};
use crate::table::PlaceTable;
use atomic_table::Table;
use map_types::{NoMemory, Shape};
use percpu_values::BoxedBody;
use place_words::{StepBuffer, owners_at_first};
use std::alloc::{AllocError, Global};
use std::marker::{Brand, Model};
use std::mem;

/// A pass for some CPUs of a map. It may move to another thread.
#[derive(Drop)]
pub struct Pass {
    pub(crate) seat: TableSeat,
    pub(crate) cpu: u32,
    pub(crate) call: u32,
    cpus: [bool; 16],
    pub(crate) strand: StepBuffer,
    pub(crate) made: TurnsMade,
    pub(crate) spares: [Option<BoxedBody>; 16],
}

impl Model for Pass {
    ghost use Rattle.place_words.specs.StrandSteps.{steps_made};
    ghost use Rattle.place_table.specs.Passes.{PassView, IsPass};

    ghost Value = { PassView };

    ghost view = { λ p. record {
      table = p.seat.table_id;
      seat = p.seat.id;
      cpu = p.cpu;
      call = p.call;
      view
          = p.seat.me.0;
      spares = p.spares;
    } };

    ghost invariant = { λ p. IsPass p.seat.me.0 p.seat.me.1 (steps_made p.strand) p.spares p.cpus
        p.made };
}

impl Pass {
    ghost use Rattle.std.specs.Prelude.{◌≡◌, length};

    /// How many steps of its current strand are recorded.
    pub fn step_count(&self) -> usize
        ensures { result ≡ length self.now.view.kept }
    {
        self.strand.len()
    }
}

/// Room for so many steps is taken at the opening. Memory of this size is a block of its own, which the system doesn't copy to let
/// it grow.
const FIRST_STEPS: usize = 32768;

/// And for so many turns of buckets.
const FIRST_LOGGED: usize = 4096;

impl PlaceTable {
    /// A table at its opening, and its first pass. All buckets are empty. The elements lie in the freelists of the CPUs, but for
    /// the spare elements of a map of kind HASH, or on a map that evicts free in the list sets of the CPUs, or in the one that
    /// they share. The pass has all CPUs and all spares, is in no call and has begun none. Memory for all elements is found
    /// here, and only want of it is refused, after which nothing is left of what was made.
    pub fn create(alloc: Global, shape: &Shape) -> Result<(PlaceTable, Pass), NoMemory>
        requires shape { IsShape shape.now }
        ensures { IfOk result (λ made. (made.0.shape ≡ shape.now) × IsFirstPass made.0 made.1) }
    {
        let strand = StepBuffer::with_room(alloc, FIRST_STEPS)?;
        let log = Vec::with_capacity(alloc, FIRST_LOGGED)?;
        let owners = owners_at_first(alloc, shape)?;
        let words = first_words(alloc, shape, owners.as_slice())?;
        let slots = first_slots(alloc, shape, owners.as_slice())?;
        let spares = spare_bodies(alloc, shape)?;
        match Table::new(alloc, words.as_slice(), slots, shape) {
            Ok((table, seat)) => Ok((
                PlaceTable {
                    table,
                    shape: *shape,
                    alloc,
                },
                Pass {
                    seat,
                    cpu: shape.cpus,
                    call: 0,
                    cpus: first_cpus(shape.cpus),
                    strand,
                    made: none_made(alloc, log),
                    spares,
                },
            )),
            Err(_) => Err(AllocError.into()),
        }
    }

    /// Splits a CPU of the pass, which is in no call, off to a new pass, which may move to another thread. What is in the
    /// CPU's hand goes with it, and its spare. The strand of the pass ends, and goes to the new one with all that had ended. A new
    /// strand begins on either side. Nobody waits, and only where there is no memory for the strand that has ended is the
    /// record lost, of all locks.
    pub fn split(&self, pass: &mut Pass, cpu: u32) -> Pass
        requires { CanSplit self.now cpu pass.old }
        ensures { Split cpu pass.old pass.new result }
    {
        let seat = cut_seat::<Brand>(&self.table.shared, &mut pass.seat, cpu);
        let steps = mem::replace(&mut pass.strand, StepBuffer::new(self.alloc));
        let new = none_made(self.alloc, Vec::new(self.alloc));
        let made = mem::replace(&mut pass.made, new);
        let made = end_strand(self.alloc, made, &pass.cpus, steps);
        drop_cpu(&mut pass.cpus, cpu);
        Pass {
            seat,
            // No call has begun.
            cpu: self.shape.cpus,
            call: 0,
            cpus: one_cpu(cpu),
            strand: StepBuffer::new(self.alloc),
            made,
            spares: split_spares(&mut pass.spares, cpu),
        }
    }

    /// Joins another pass of the table to this one. Both are in no call, and the pass is in none then. It has the CPUs of both
    /// from then on, what is in their hands, and their spares. The strands of both end, those of this pass before those of the
    /// other, and a new one begins. Nobody waits, and only where there is no memory for all strands that have ended is the
    /// record lost, of all locks.
    pub fn join(&self, pass: &mut Pass, other: Pass)
        requires { CanJoin self.now pass.old other }
        ensures { Joined pass.old other pass.new }
    {
        let Pass {
            seat,
            cpu: _,
            call: _,
            cpus,
            strand,
            made,
            mut spares,
        } = other;
        merge_seat::<Brand>(&self.table.shared, &mut pass.seat, seat);
        let steps = mem::replace(&mut pass.strand, StepBuffer::new(self.alloc));
        let new = none_made(self.alloc, Vec::new(self.alloc));
        let ours = mem::replace(&mut pass.made, new);
        let ours = end_strand(self.alloc, ours, &pass.cpus, steps);
        pass.made = join_made(ours, end_strand(self.alloc, made, &cpus, strand));
        add_cpus(&mut pass.cpus, &cpus);
        join_spares(&mut pass.spares, &mut spares);
    }

    /// Closes a table whose one pass has all CPUs and is in no call, and hands out what is left, in which each element stands
    /// once. Where there is no memory for that, the table and the pass are gone, and nothing is answered of them. Where memory
    /// for a strand was not found, the record of every lock is lost.
    pub fn close(self, pass: Pass) -> Result<Closed, NoMemory>
        requires table { IsPassOf self pass }
        requires all_cpus { (c : ℕ) → c < self.shape.cpus → is_among c pass.view.cpus ≡ true }
        requires in_no_call { IsInNoCall pass }
        ensures { IfOk result (λ closed. IsClosed self.shape pass closed) }
    {
        let PlaceTable {
            table,
            shape,
            alloc,
        } = self;
        let Pass {
            seat,
            cpu: _,
            call: _,
            cpus,
            strand,
            made,
            spares,
        } = pass;
        let first_bit = table.word_count() - shape.elements as usize - 1;
        let mut emptied = room_for(alloc, &shape)?;
        let mut closed = table.close_with(seat);
        let marked = marked_in(alloc, &closed, first_bit, shape.elements);
        let (ended, logs) = ended_told(alloc, end_strand(alloc, made, &cpus, strand));
        let told = empty_out(alloc, &shape, &mut closed, &mut emptied);
        closed.free();
        keep_others(alloc, &shape, &mut emptied, logs)?;
        read_slots(alloc, &shape, emptied, told?, marked?, ended, &spares)
    }
}
