//! The local lists of a CPU.

ghost use Rattle.std.specs.Prelude.{◌≡◌, ◌+◌, ◌<◌, ◌≤◌, ◌↔◌, ℕ, length, slice_get, IfOk, IfSome, IsSome};
ghost use Rattle.map_types.specs.ElementLists.{times, IsIn};
ghost use Rattle.map_types.specs.Listed.{elements_of};
ghost use Rattle.place_words.specs.Bodies.{numbers};
ghost use Rattle.row_list.specs.RowWords.{row_of};
ghost use Rattle.local_lists.specs.LocalLists.{IsLocal, empty_local, times_on, with_free, with_pending_row, without_pending, with_steal};
ghost use Rattle.percpu_values.specs.BodyList.{pushed, popped};

use map_types::NoMemory;
use percpu_values::{BodyStack, BoxedBody};
use row_list::{Row, Rows};
use std::alloc::Global;
use std::marker::Model;
use std::mem;

/// The local lists free and pending of a CPU, and its steal cursor, which is the number of the CPU where its next theft
/// starts: the kernel's `struct bpf_lru_locallist`. Contracts see the two lists, head first, the cursor, and a bound of the
/// elements. Each element is on one list at most. The lists lie in a block of their own, so that to hold them takes the room
/// of a pointer.
#[derive(Drop)]
pub struct LocalSet<R: Rows> {
    lists: Box<LocalLists<R>>,
}

/// What lies in the block of local lists.
#[derive(Drop)]
pub(crate) struct LocalLists<R: Rows> {
    pending: R,
    free: BodyStack,
    steal: u32,
}

impl<R: Rows> Model for LocalSet<R> {
    ghost use Rattle.local_lists.specs.LocalLists.{LocalView, IsLocal};

    ghost Value = { LocalView };

    ghost view = { λ s. record {
      free = s.lists.value.free;
      pending = R.rows s.lists.value.pending;
      steal = s.lists.value.steal;
      elements = R.bound s.lists.value.pending;
    } };

    ghost invariant = { λ s. IsLocal
        (record {
          free = s.lists.value.free;
          pending = R.rows s.lists.value.pending;
          steal = s.lists.value.steal;
          elements = R.bound s.lists.value.pending;
        }) };
}

impl<R: Rows> LocalSet<R> {
    /// Empty lists, with room on each for every element below `elements`. The steal cursor starts at `cpu`, as in the kernel's
    /// `bpf_lru_locallist_init`. Only want of memory is refused.
    pub fn create(alloc: Global, elements: u32, cpu: u32) -> Result<LocalSet<R>, NoMemory>
        ensures exact { IfOk result (λ lists. lists ≡ empty_local elements cpu) }
        ensures whole { IfOk result IsLocal }
    {
        let lists = LocalLists {
            pending: R::with_room(alloc, elements)?,
            free: BodyStack::with_room(alloc, elements)?,
            steal: cpu,
        };
        Ok(LocalSet {
            lists: Box::new(alloc, lists)?,
        })
    }

    /// Takes the body at the head of the free list, as the kernel's `__local_list_pop_free`: None where nothing is free. Its
    /// element is then on neither list.
    pub fn pop_free(&mut self) -> Option<BoxedBody>
        ensures top { result ≡ slice_get self.old.free.bodies 0 }
        ensures exact { self.new ≡ with_free (popped self.old.free) self.old }
        ensures known { IfSome result (λ body. (body.element < self.new.elements)
            × (times_on body.element self.new ≡ 0)) }
        ensures whole { IsLocal self.new }
    {
        self.lists.free.pop()
    }

    /// Puts a body whose element is on neither list at the head of the free list, where that has room, as the kernel's
    /// `bpf_common_lru_push_free` does with an element that was pending.
    pub fn push_free(&mut self, body: BoxedBody)
        requires room { 1 ≤ self.old.free.spare }
        requires below { body.element < self.old.elements }
        requires absent { times_on body.element self.old ≡ 0 }
        ensures exact { self.new ≡ with_free (pushed body self.old.free) self.old }
        ensures whole { IsLocal self.new }
    {
        self.lists.free.push(body);
    }

    /// The free list and a stack of bodies change places, their room included. The elements of the stack aren't pending, and
    /// no two are the same.
    pub fn swap_free(&mut self, other: &mut BodyStack)
        requires below { (e : ℕ) → IsIn e (numbers other.old.bodies) → e < self.old.elements }
        requires absent { (e : ℕ)
            → times e (elements_of self.old.pending) + times e (numbers other.old.bodies) ≤ 1 }
        ensures exact { self.new ≡ with_free other.old self.old }
        ensures other { other.new ≡ self.old.free }
        ensures whole { IsLocal self.new }
        ensures was_whole { IsLocal self.old }
    {
        mem::swap(&mut self.lists.free, other);
    }

    /// Puts the row of an element that is on neither list at the head of the pending list, as the kernel's
    /// `__local_list_add_pending`.
    pub fn add_pending(&mut self, row: Row)
        requires below { row.element < self.old.elements }
        requires absent { times_on row.element self.old ≡ 0 }
        ensures exact { self.new ≡ with_pending_row row self.old }
        ensures whole { IsLocal self.new }
    {
        self.lists.pending.push_head(row);
    }

    /// Takes an element off the pending list, wherever it stands there, as the kernel's `__local_list_pop_pending` does with the
    /// one that it found: None where it isn't pending. An element that was pending is then on neither list.
    pub fn take_pending(&mut self, element: u32) -> Option<Row>
        ensures taken { result ≡ row_of element self.old.pending }
        ensures present { IsSome result ↔ IsIn element (elements_of self.old.pending) }
        ensures exact { self.new ≡ without_pending element self.old }
        ensures known { IfSome result (λ row. (row.element ≡ element)
            × (element < self.new.elements) × (times_on element self.new ≡ 0)) }
        ensures off { times element (elements_of self.new.pending) ≡ 0 }
        ensures whole { IsLocal self.new }
        ensures was_whole { IsLocal self.old }
    {
        self.lists.pending.take_out(element)
    }

    /// The rows of the pending list.
    pub fn pending(&self) -> &R
        ensures exact { R.rows result.now ≡ self.now.pending }
        ensures bound { R.bound result.now ≡ self.now.elements }
        ensures whole { IsLocal self.now }
    {
        &self.lists.pending
    }

    /// How many bodies are free.
    pub fn free_len(&self) -> u32
        ensures exact { result ≡ length self.now.free.bodies }
        ensures whole { IsLocal self.now }
    {
        self.lists.free.len()
    }

    /// The number of the CPU where the next theft starts, as the kernel's `next_steal`.
    pub fn steal_cursor(&self) -> u32
        ensures exact { result ≡ self.now.steal }
        ensures whole { IsLocal self.now }
    {
        self.lists.steal
    }

    /// Sets the number of the CPU where the next theft starts.
    pub fn set_steal_cursor(&mut self, cpu: u32)
        ensures exact { self.new ≡ with_steal cpu self.old }
        ensures whole { IsLocal self.new }
    {
        self.lists.steal = cpu;
    }
}
