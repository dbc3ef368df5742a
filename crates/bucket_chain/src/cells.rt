//! A list that is linked through its bodies.

ghost use Rattle.std.specs.Prelude.{◌≡◌, ◌*◌, ◌^◌, ◌<◌, [], ◌∷◌, ◌++◌, length, take, drop, remove, reverse, position, slice_get, MatchOption};
ghost use Rattle.std.specs.Option.{option_map};
ghost use Rattle.map_types.specs.Parts.{part_size, values_in, written_own};
ghost use Rattle.map_types.specs.ValueLen.{round8};
ghost use Rattle.place_words.specs.Bodies.{has_key, has_number};
ghost use Rattle.bucket_chain.specs.Places.{values_at, with_values_at};

use percpu_values::{Body, BoxedBody, Cell};
use std::marker::Model;

/// A list of bodies, each in a cell with the link to the next one's. To add, to take out and to put elsewhere moves boxes:
/// no body is copied, and no memory is taken. Contracts see the list, head first.
#[derive(Drop)]
pub struct Cells {
    first: Option<Box<Cell>>,
}

impl Model for Cells {
    ghost use Rattle.std.specs.Prelude.{List};
    ghost use Rattle.map_types.specs.Stored.{Stored};
    ghost use Rattle.bucket_chain.specs.Linked.{linked};

    ghost Value = { List Stored };

    ghost view = { λ c. linked c.first };
}

impl Cells {
    /// A list with no body.
    pub fn empty() -> Cells
        ensures { result ≡ [] }
    {
        Cells { first: None }
    }

    /// Adds a body at the head.
    pub fn push(&mut self, body: BoxedBody)
        ensures { self.new ≡ body ∷ self.old }
    {
        let mut cell = body.into_cell();
        cell.next = self.first.take();
        self.first = Some(cell);
    }

    /// Takes the body at the head out, where there is one.
    pub fn pop(&mut self) -> Option<BoxedBody>
        ensures { MatchOption result ((self.old ≡ []) × (self.new ≡ []))
            (λ body. self.old ≡ body ∷ self.new) }
    {
        let mut cell = self.first.take()?;
        self.first = cell.next.take();
        Some(BoxedBody::of_cell(cell))
    }

    /// The place of a key.
    pub fn position_of_key(&self, key: &[u8]) -> Option<u32>
        requires { length self.now < 2 ^ 32 }
        ensures { result ≡ position (has_key key.now) self.now }
    {
        let mut place = 0;
        let mut rest = &self.first;
        while let Some(cell) = rest {
            if cell.body.key() == key {
                return Some(place);
            }
            place += 1;
            rest = &cell.next;
        }
        None
    }

    /// The place of an element.
    pub fn position_of_element(&self, element: u32) -> Option<u32>
        requires { length self.now < 2 ^ 32 }
        ensures { result ≡ position (has_number element) self.now }
    {
        let mut place = 0;
        let mut rest = &self.first;
        while let Some(cell) = rest {
            if cell.body.element() == element {
                return Some(place);
            }
            place += 1;
            rest = &cell.next;
        }
        None
    }

    /// The body at a place, where there is one.
    pub fn body(&self, place: u32) -> Option<&Body>
        ensures { option_map (λ body. body.now) result ≡ slice_get self.now place }
    {
        let mut rest = &self.first;
        for _ in 0..place {
            let Some(cell) = rest else {
                return None;
            };
            rest = &cell.next;
        }
        match rest {
            None => None,
            Some(cell) => Some(&cell.body),
        }
    }

    /// Takes the body at a place out, where there is one.
    pub fn remove(&mut self, place: u32) -> Option<BoxedBody>
        ensures taken { result ≡ slice_get self.old place }
        ensures rest { self.new ≡ remove self.old place }
    {
        let front = self.take_front(place);
        let taken = self.pop();
        self.put_front(front);
        taken
    }

    /// Takes the body at a place out, where there is one, and adds one at the head.
    pub fn replace(&mut self, place: u32, new: BoxedBody) -> Option<BoxedBody>
        ensures taken { result ≡ slice_get self.old place }
        ensures bodies { self.new ≡ new ∷ remove self.old place }
    {
        let before = self.take_front(place);
        let taken = self.pop();
        self.put_front(before);
        self.push(new);
        taken
    }

    /// Writes one part of the values at a place, below the length, by a value of its size.
    pub fn write_own(&mut self, place: u32, part: u32, value: &[u8])
        requires at_body { place < length self.old }
        requires in_range { part < length (values_at place self.old) }
        requires exact { length value.now ≡ part_size (values_at place self.old) }
        ensures { self.new
            ≡ with_values_at place
            (written_own part value.now (values_at place self.old)) self.old }
    {
        let front = self.take_front(place);
        let Some(mut body) = self.pop() else {
            unreachable!()
        };
        body.body_mut().values_mut().write_own(part, value);
        self.push(body);
        self.put_front(front);
    }

    /// Writes all parts of the values at a place, below the length, from their fields.
    pub fn write_all(&mut self, place: u32, fields: &[u8])
        requires at_body { place < length self.old }
        requires exact { length fields.now
            ≡ length (values_at place self.old) * round8 (part_size (values_at place self.old)) }
        ensures { self.new
            ≡ with_values_at place
            (values_in (length (values_at place self.old))
            (part_size (values_at place self.old)) fields.now) self.old }
    {
        let front = self.take_front(place);
        let Some(mut body) = self.pop() else {
            unreachable!()
        };
        body.body_mut().values_mut().write_all(fields);
        self.push(body);
        self.put_front(front);
    }

    /// Takes the bodies before a place out, into a list in the other order.
    #[inline(always)]
    fn take_front(&mut self, place: u32) -> Cells
        ensures front { result ≡ reverse (take place self.old) }
        ensures rest { self.new ≡ drop place self.old }
    {
        let mut front = Cells::empty();
        for _ in 0..place {
            match self.pop() {
                None => return front,
                Some(body) => front.push(body),
            }
        }
        front
    }

    /// Puts bodies before the head, from a list in the other order.
    #[inline(always)]
    fn put_front(&mut self, mut front: Cells)
        ensures { self.new ≡ reverse front ++ self.old }
    {
        while let Some(body) = front.pop() {
            self.push(body);
        }
    }
}
