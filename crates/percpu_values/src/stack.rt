//! A stack of bodies.

ghost use Rattle.std.specs.Prelude.{◌≡◌, ◌+◌, ◌-◌, ◌≤◌, ◌<◌, ◌^◌, [], ◌∷◌, length, IfOk, MatchOption};

use crate::BoxedBody;
use map_types::NoMemory;
use std::alloc::Global;
use std::marker::Model;

/// A stack of bodies with room for some more, which never finds memory. Contracts see the list of the bodies, the top
/// first, and the number that can still be pushed.
#[derive(Drop)]
pub struct BodyStack {
    /// The top is the last.
    bodies: Vec<BoxedBody>,
}

impl Model for BodyStack {
    ghost use Rattle.std.specs.Prelude.{◌-◌, ◌<◌, ◌^◌, reverse, vec_len, vec_capacity};
    ghost use Rattle.percpu_values.specs.BodyList.{BodyList};

    ghost Value = { BodyList };

    ghost view = { λ s. record
        { bodies = reverse s.bodies.items; spare = vec_capacity s.bodies - vec_len s.bodies } };

    ghost invariant = { λ s. vec_capacity s.bodies < 2 ^ 32 };
}

impl BodyStack {
    /// A stack with no body and no room.
    pub fn empty(alloc: Global) -> BodyStack
        ensures { result ≡ record { bodies = []; spare = 0 } }
    {
        BodyStack {
            bodies: Vec::new(alloc),
        }
    }

    /// A stack with no body and room for so many.
    pub fn with_room(alloc: Global, n: u32) -> Result<BodyStack, NoMemory>
        ensures { IfOk result (λ stack. stack ≡ record { bodies = []; spare = n }) }
    {
        Ok(BodyStack {
            bodies: Vec::with_capacity(alloc, n as usize)?,
        })
    }

    /// Puts a body on top, where there is room for one.
    pub fn push(&mut self, body: BoxedBody)
        requires { 1 ≤ self.old.spare }
        ensures { self.new
            ≡ record { bodies = body ∷ self.old.bodies; spare = self.old.spare - 1 } }
    {
        self.bodies.push_reserved(body);
    }

    /// Takes the body on top, where there is one. There is then room for one more.
    pub fn pop(&mut self) -> Option<BoxedBody>
        ensures top { MatchOption result ((self.old.bodies ≡ []) × (self.new ≡ self.old))
            (λ body. self.old
            ≡ record { bodies = body ∷ self.new.bodies; spare = self.new.spare - 1 }) }
        ensures room { MatchOption result (self.new.spare ≡ self.old.spare)
            (λ _. self.new.spare ≡ self.old.spare + 1) }
    {
        self.bodies.pop()
    }

    /// How many bodies there are.
    pub fn len(&self) -> u32
        ensures { result ≡ length self.now.bodies }
    {
        self.bodies.len() as u32
    }
}
