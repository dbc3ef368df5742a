//! A bucket's list of bodies.

ghost use Rattle.std.specs.Prelude.{◌≡◌, ◌-◌, ◌*◌, ◌^◌, ◌<◌, ◌≤◌, ◌↔◌, [], ◌∷◌, length, remove, slice_get, map, IsOk, IsSome, IfSome, IfNone, MatchOption, OnOk};
ghost use Rattle.std.specs.Option.{option_map};
ghost use Rattle.map_types.specs.Parts.{part_size, values_in, written_own};
ghost use Rattle.map_types.specs.ValueLen.{round8};
ghost use Rattle.place_words.specs.Bodies.{present, without_key, body_of, without_element, HasDistinctKeys};
ghost use Rattle.bucket_chain.specs.Places.{place_of_key, key_at, values_at, with_values_at, rewritten};

use crate::cells::Cells;
use map_types::NoMemory;
use percpu_values::{Body, BoxedBody};
use std::alloc::Global;
use std::marker::Model;

/// A bucket's list of bodies, with distinct keys, linked through the bodies: it takes no memory of its own. Contracts see
/// the list, head first, and how many bodies it has room for, which is always one. A place is an index of the list, from 0
/// at the head. A chain of any length is dropped body by body from its head.
#[derive(Drop)]
pub struct Chain {
    cells: Cells,
    count: u32,
}

impl Model for Chain {
    ghost use Rattle.std.specs.Prelude.{◌≡◌, ◌<◌, ◌^◌, length};
    ghost use Rattle.percpu_values.specs.BodyList.{BodyList};
    ghost use Rattle.place_words.specs.Bodies.{HasDistinctKeys};

    ghost Value = { BodyList };

    ghost view = { λ c. record { bodies = c.cells; spare = 1 } };

    ghost invariant = { λ c. HasDistinctKeys c.cells × (length c.cells ≡ c.count)
        × (c.count < 2 ^ 32) };
}

impl Chain {
    /// A list with no body.
    pub fn empty(_alloc: Global) -> Chain
        ensures { result.bodies ≡ [] }
    {
        Chain {
            cells: Cells::empty(),
            count: 0,
        }
    }

    /// Room for one more body, which is always there: no memory is taken. The list stays.
    pub fn reserve_one(&mut self, _alloc: Global) -> Result<(), NoMemory>
        ensures bodies { self.new.bodies ≡ self.old.bodies }
        ensures room { OnOk result (1 ≤ self.new.spare) }
        ensures always { IsOk result }
        ensures one { self.new.spare ≡ 1 }
    {
        // What the chain is seen as is known once a field is read.
        let _ = &self.count;
        Ok(())
    }

    /// The place of a key, where it is in the list, as in the kernel's `lookup_elem_raw`.
    #[inline(always)]
    pub fn find(&self, key: &[u8]) -> Option<u32>
        ensures place { result ≡ place_of_key key.now self.now.bodies }
        ensures holder { MatchOption result (present key.now self.now.bodies ≡ None)
            (λ place. slice_get self.now.bodies place ≡ present key.now self.now.bodies) }
        ensures found { IfSome result (λ place. (place < length self.now.bodies)
            × (key_at place self.now.bodies ≡ key.now)) }
        ensures distinct { HasDistinctKeys self.now.bodies }
    {
        self.cells.position_of_key(key)
    }

    /// The body at a place, where there is one.
    pub fn body(&self, place: u32) -> Option<&Body>
        ensures value { option_map (λ body. body.now) result ≡ slice_get self.now.bodies place }
        ensures present { IsSome result ↔ (place < length self.now.bodies) }
    {
        self.cells.body(place)
    }

    /// Writes one part of the values at a place, below the length, by a value of its size, as `Values` does.
    pub fn write_own(&mut self, place: u32, part: u32, value: &[u8])
        requires at_body { place < length self.old.bodies }
        requires in_range { part < length (values_at place self.old.bodies) }
        requires exact { length value.now ≡ part_size (values_at place self.old.bodies) }
        ensures bodies { self.new.bodies
            ≡ with_values_at place
            (written_own part value.now (values_at place self.old.bodies)) self.old.bodies }
        ensures of_key { self.new.bodies
            ≡ map (rewritten (key_at place self.old.bodies)
            (written_own part value.now)) self.old.bodies }
        ensures room { self.new.spare ≡ self.old.spare }
    {
        self.cells.write_own(place, part, value);
    }

    /// Writes all parts of the values at a place, below the length, from their fields, as `Values` does.
    pub fn write_all(&mut self, place: u32, fields: &[u8])
        requires at_body { place < length self.old.bodies }
        requires exact { length fields.now
            ≡ length (values_at place self.old.bodies) * round8
            (part_size (values_at place self.old.bodies)) }
        ensures bodies { self.new.bodies
            ≡ with_values_at place
            (values_in (length (values_at place self.old.bodies))
            (part_size (values_at place self.old.bodies)) fields.now) self.old.bodies }
        ensures of_key { self.new.bodies
            ≡ map (rewritten (key_at place self.old.bodies)
            (λ values. values_in (length values)
            (part_size values) fields.now)) self.old.bodies }
        ensures room { self.new.spare ≡ self.old.spare }
    {
        self.cells.write_all(place, fields);
    }

    /// Adds a body at the head, where there is room and its key is not in the list.
    pub fn add_head(&mut self, body: BoxedBody)
        requires room { 1 ≤ self.old.spare }
        requires countable { length self.old.bodies < 2 ^ 32 - 1 }
        requires absent { place_of_key body.key self.old.bodies ≡ None }
        ensures { self.new.bodies ≡ body ∷ self.old.bodies }
    {
        self.cells.push(body);
        self.count += 1;
    }

    /// Takes out the body at a place, below the length, and adds one of the same key at the head.
    pub fn replace_head(&mut self, place: u32, body: BoxedBody) -> BoxedBody
        requires at_body { place < length self.old.bodies }
        requires same_key { key_at place self.old.bodies ≡ body.key }
        ensures taken { slice_get self.old.bodies place ≡ Some result }
        ensures holder { present body.key self.old.bodies ≡ Some result }
        ensures bodies { self.new.bodies ≡ body ∷ remove self.old.bodies place }
        ensures of_key { self.new.bodies ≡ body ∷ without_key body.key self.old.bodies }
        ensures room { self.new.spare ≡ self.old.spare }
    {
        match self.cells.replace(place, body) {
            Some(old) => old,
            None => unreachable!(),
        }
    }

    /// Takes out the body at a place, where there is one.
    #[inline(always)]
    pub fn take_out(&mut self, place: u32) -> Option<BoxedBody>
        ensures taken { result ≡ slice_get self.old.bodies place }
        ensures present { IsSome result ↔ (place < length self.old.bodies) }
        ensures bodies { self.new.bodies ≡ remove self.old.bodies place }
        ensures of_key { IfSome result (λ body. (present body.key self.old.bodies ≡ Some body)
            × (self.new.bodies ≡ without_key body.key self.old.bodies)) }
        ensures same { IfNone result (self.new ≡ self.old) }
        ensures room { self.old.spare ≤ self.new.spare }
    {
        if place >= self.count {
            return None;
        }
        let Some(body) = self.cells.remove(place) else {
            unreachable!()
        };
        self.count -= 1;
        Some(body)
    }

    /// Takes out the body of an element, where there is one: the first from the head.
    pub fn take_element(&mut self, element: u32) -> Option<BoxedBody>
        ensures taken { result ≡ body_of element self.old.bodies }
        ensures bodies { self.new.bodies ≡ without_element element self.old.bodies }
        ensures same { IfNone result (self.new ≡ self.old) }
        ensures room { self.old.spare ≤ self.new.spare }
    {
        let place = self.cells.position_of_element(element)?;
        self.take_out(place)
    }

    /// How many bodies there are, which is kept and not counted.
    pub fn len(&self) -> u32
        ensures count { result ≡ length self.now.bodies }
        ensures distinct { HasDistinctKeys self.now.bodies }
        ensures room { self.now.spare ≡ 1 }
    {
        self.count
    }
}
