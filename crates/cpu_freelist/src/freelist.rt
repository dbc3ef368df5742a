//! The stack of a CPU's free elements.

ghost use Rattle.std.specs.Prelude.{◌≡◌, ◌<◌, [], ◌∷◌, length, IfOk, MatchOption};
ghost use Rattle.place_words.specs.Bodies.{numbers};

use map_types::NoMemory;
use percpu_values::{BodyStack, BoxedBody};
use std::alloc::Global;
use std::marker::Model;

/// The free elements of a CPU: a stack that never finds memory. Contracts see the list of the bodies, the top first, and
/// how many it can hold, which stays.
#[derive(Drop)]
pub struct Freelist {
    bodies: BodyStack,
}

impl Model for Freelist {
    ghost use Rattle.std.specs.Prelude.{◌+◌, length};
    ghost use Rattle.cpu_freelist.specs.Stack.{FreelistView};

    ghost Value = { FreelistView };

    ghost view = { λ f. record {
      bodies = f.bodies.bodies;
      room = length f.bodies.bodies + f.bodies.spare;
    } };
}

impl Freelist {
    /// A stack with no body, which can hold so many.
    pub fn create(alloc: Global, room: u32) -> Result<Freelist, NoMemory>
        ensures { IfOk result (λ freelist. freelist ≡ record { bodies = []; room = room }) }
    {
        Ok(Freelist {
            bodies: BodyStack::with_room(alloc, room)?,
        })
    }

    /// Puts a body on top, where there is room for it.
    pub fn push(&mut self, body: BoxedBody)
        requires { length self.old.bodies < self.old.room }
        ensures on_top { self.new ≡ record self.old { bodies = body ∷ self.old.bodies } }
        ensures numbers { numbers self.new.bodies ≡ body.element ∷ numbers self.old.bodies }
    {
        self.bodies.push(body);
    }

    /// Takes the body on top, or gives none where there is none.
    pub fn pop(&mut self) -> Option<BoxedBody>
        ensures top { MatchOption result ((self.old.bodies ≡ []) × (self.new ≡ self.old))
            (λ body. self.old ≡ record self.new { bodies = body ∷ self.new.bodies }) }
        ensures numbers { MatchOption result (numbers self.old.bodies ≡ [])
            (λ body. numbers self.old.bodies ≡ body.element ∷ numbers self.new.bodies) }
    {
        self.bodies.pop()
    }
}
