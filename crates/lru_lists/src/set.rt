//! A list set.

ghost use Rattle.std.specs.Prelude.{◌≡◌, ◌==◌, ◌+◌, ◌<◌, ◌≤◌, ◌↔◌, ◌++◌, ℕ, length, slice_get, IfOk, IfSome, IsSome, MatchOption};
ghost use Rattle.map_types.specs.Listed.{elements_of, cursor_without};
ghost use Rattle.row_list.specs.RowWords.{row_of, row_before, without_row};
ghost use Rattle.std.specs.Option.{option_map};
ghost use Rattle.map_types.specs.ElementLists.{times, IsIn};
ghost use Rattle.lru_lists.specs.Sets.{IsSet, IsListed, IsPlace, empty_set, rows_of, times_listed, times_on, row_on, moved_in, moved_to, taken_off, with_cursor, with_free};
ghost use Rattle.percpu_values.specs.BodyList.{pushed, popped};
ghost use Rattle.place_words.specs.Bodies.{numbers};

use crate::ListName;
use map_types::NoMemory;
use percpu_values::{BodyStack, BoxedBody};
use row_list::{Row, Rows};
use std::alloc::Global;
use std::marker::Model;
use std::mem;

/// The lists active, inactive and free of an evicting map, and the cursor of the rotation, which is an inactive element or
/// the mark. Contracts see the three lists, head first, the cursor, and a bound of the elements. Each element is on one
/// list at most. Every move puts it at the head of its list. Where the element under the cursor leaves inactive, the
/// cursor goes to its neighbour towards the head, or to the mark. The lists lie in a block of their own, so that to hold
/// them takes the room of a pointer.
#[derive(Drop)]
pub struct ListSet<R: Rows> {
    lists: Box<Lists<R>>,
}

/// What lies in the block of a set.
#[derive(Drop)]
pub(crate) struct Lists<R: Rows> {
    active: R,
    inactive: R,
    free: BodyStack,
    cursor: Option<u32>,
}

impl<R: Rows> Model for ListSet<R> {
    ghost use Rattle.std.specs.Prelude.{◌≡◌};
    ghost use Rattle.lru_lists.specs.Sets.{SetView, IsSet};

    ghost Value = { SetView };

    ghost view = { λ s. record {
      active = R.rows s.lists.value.active;
      inactive = R.rows s.lists.value.inactive;
      free = s.lists.value.free;
      cursor = s.lists.value.cursor;
      elements = R.bound s.lists.value.active;
    } };

    ghost invariant = { λ s. IsSet
        (record {
          active = R.rows s.lists.value.active;
          inactive = R.rows s.lists.value.inactive;
          free = s.lists.value.free;
          cursor = s.lists.value.cursor;
          elements = R.bound s.lists.value.active;
        })
        × (R.bound s.lists.value.inactive ≡ R.bound s.lists.value.active) };
}

impl<R: Rows> ListSet<R> {
    /// Empty lists, with the cursor at the mark, and with room on each for every element below `elements`.
    pub fn create(alloc: Global, elements: u32) -> Result<ListSet<R>, NoMemory>
        ensures exact { IfOk result (λ set. set ≡ empty_set elements) }
        ensures whole { IfOk result IsSet }
    {
        let lists = Lists {
            active: R::with_room(alloc, elements)?,
            inactive: R::with_room(alloc, elements)?,
            free: BodyStack::with_room(alloc, elements)?,
            cursor: None,
        };
        Ok(ListSet {
            lists: Box::new(alloc, lists)?,
        })
    }

    /// Puts the row of an element that is on no list at the head of one.
    pub fn move_in(&mut self, row: Row, to: ListName)
        requires below { row.element < self.old.elements }
        requires absent { times_on row.element self.old ≡ 0 }
        ensures exact { self.new ≡ moved_in row to self.old }
        ensures whole { IsSet self.new }
    {
        let lists: &mut Lists<R> = &mut self.lists;
        match to {
            ListName::Active => lists.active.push_head(row),
            ListName::Inactive => lists.inactive.push_head(row),
        }
    }

    /// Moves an active or inactive element to the head of a list, with the row that it has.
    pub fn move_to(&mut self, element: u32, to: ListName)
        requires { IsListed element self.old }
        ensures exact { self.new ≡ moved_to element to self.old }
        ensures whole { IsSet self.new }
    {
        if let Some(row) = self.take_off(element) {
            self.move_in(row, to);
        }
    }

    /// Takes an element off active or inactive: None where it is on neither.
    #[inline(always)]
    pub fn take_off(&mut self, element: u32) -> Option<Row>
        ensures taken { result ≡ row_on element self.old }
        ensures present { IsSome result ↔ IsListed element self.old }
        ensures exact { self.new ≡ taken_off element self.old }
        ensures off { times_listed element self.new ≡ 0 }
        ensures whole { IsSet self.new }
        ensures was_whole { IsSet self.old }
    {
        let lists: &mut Lists<R> = &mut self.lists;
        lists.cursor = cursor_off(lists.cursor, &lists.inactive, element);
        take_out_of(&mut lists.active, &mut lists.inactive, element)
    }

    /// Frees a body whose element is on no list, where the free list has room.
    pub fn free_push(&mut self, body: BoxedBody)
        requires room { 1 ≤ self.old.free.spare }
        requires below { body.element < self.old.elements }
        requires absent { times_on body.element self.old ≡ 0 }
        ensures exact { self.new ≡ with_free (pushed body self.old.free) self.old }
        ensures whole { IsSet self.new }
    {
        self.lists.free.push(body);
    }

    /// Takes the body at the head of the free list, where there is one. Its element is then on no list.
    pub fn free_pop(&mut self) -> Option<BoxedBody>
        ensures top { result ≡ slice_get self.old.free.bodies 0 }
        ensures exact { self.new ≡ with_free (popped self.old.free) self.old }
        ensures known { IfSome result (λ body. (body.element < self.new.elements)
            × (times_on body.element self.new ≡ 0)) }
        ensures whole { IsSet self.new }
    {
        self.lists.free.pop()
    }

    /// The free list and a stack of bodies change places, their room included. The elements of the stack are neither active
    /// nor inactive, and no two are the same.
    pub fn swap_free(&mut self, other: &mut BodyStack)
        requires below { (e : ℕ) → IsIn e (numbers other.old.bodies) → e < self.old.elements }
        requires absent { (e : ℕ)
            → times_listed e self.old + times e (numbers other.old.bodies) ≤ 1 }
        ensures exact { self.new ≡ with_free other.old self.old }
        ensures other { other.new ≡ self.old.free }
        ensures whole { IsSet self.new }
        ensures was_whole { IsSet self.old }
    {
        mem::swap(&mut self.lists.free, other);
    }

    /// The element under the cursor: None where it is at the mark.
    pub fn cursor(&self) -> Option<u32>
        ensures exact { result ≡ self.now.cursor }
        ensures whole { IsSet self.now }
    {
        self.lists.cursor
    }

    /// Sets the cursor to an inactive element, or to the mark.
    pub fn set_cursor(&mut self, at: Option<u32>)
        requires { IsPlace at self.old }
        ensures exact { self.new ≡ with_cursor at self.old }
        ensures whole { IsSet self.new }
    {
        self.lists.cursor = at;
    }

    /// The rows of a list.
    pub fn rows(&self, list: ListName) -> &R
        ensures exact { R.rows result.now ≡ rows_of list self.now }
        ensures bound { R.bound result.now ≡ self.now.elements }
        ensures whole { IsSet self.now }
    {
        match list {
            ListName::Active => &self.lists.active,
            ListName::Inactive => &self.lists.inactive,
        }
    }

    /// How many bodies are free.
    pub fn free_len(&self) -> u32
        ensures exact { result ≡ length self.now.free.bodies }
        ensures whole { IsSet self.now }
    {
        self.lists.free.len()
    }
}

/// Where a cursor of the inactive list stands once an element leaves: off it, towards the head.
fn cursor_off<R: Rows>(cursor: Option<u32>, inactive: &R, element: u32) -> Option<u32>
    requires { MatchOption cursor (Unit {0}) (λ e. IsIn e (elements_of (R.rows inactive.now))) }
    ensures { result ≡ cursor_without (λ x. x == element) (R.rows inactive.now) cursor }
{
    if cursor == Some(element) {
        neighbour_of(inactive, element)
    } else {
        cursor
    }
}

/// The element next to another one, towards the head.
fn neighbour_of<R: Rows>(rows: &R, element: u32) -> Option<u32>
    ensures { result ≡ option_map (λ row. row.element) (row_before element (R.rows rows.now)) }
{
    rows.before(element).map(|row| row.element)
}

/// Takes the row of an element out of the list on which it is, where it is on one.
fn take_out_of<R: Rows>(active: &mut R, inactive: &mut R, element: u32) -> Option<Row>
    requires { times element (elements_of (R.rows active.old))
        + times element (elements_of (R.rows inactive.old)) ≤ 1 }
    ensures taken { result ≡ row_of element (R.rows active.old ++ R.rows inactive.old) }
    ensures active { R.rows active.new ≡ without_row element (R.rows active.old) }
    ensures inactive { R.rows inactive.new ≡ without_row element (R.rows inactive.old) }
    ensures bounds { (R.bound active.new ≡ R.bound active.old)
        × (R.bound inactive.new ≡ R.bound inactive.old) }
{
    match active.take_out(element) {
        Some(row) => Some(row),
        None => inactive.take_out(element),
    }
}
