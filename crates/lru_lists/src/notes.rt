//! What is noted of a rotation or a shrink. Where memory for a note isn't found the notes are lost, and the work goes on.

ghost use Rattle.std.specs.Prelude.{◌≡◌, [], ◌∷◌};
ghost use Rattle.lru_lists.specs.Notes.{AreNoted};

use map_types::List;
use place_words::{Look, Try, Visit};
use std::alloc::Global;

/// Notes in order, or Lost where memory for one was not found.
#[derive(Drop)]
pub enum Noted<T> {
    Kept(List<T>),
    Lost,
}

impl<T: Drop> Noted<T> {
    /// No notes.
    pub fn empty(alloc: Global) -> Noted<T>
        ensures { result ≡ Noted.Kept [] }
    {
        Noted::Kept(List::of(Vec::new(alloc)))
    }

    /// Notes one more, or loses all notes where memory for it isn't found. Lost notes stay lost.
    #[inline(always)]
    pub fn note(&mut self, value: T)
        ensures { AreNoted (value ∷ []) self.old self.new }
    {
        let kept = match self {
            Noted::Kept(list) => list.push(value).is_ok(),
            Noted::Lost => return,
        };
        if !kept {
            *self = Noted::Lost;
        }
    }
}

/// What a rotation visited.
#[derive(Drop)]
pub struct RotateNotes {
    pub active: Noted<Visit>,
    pub inactive: Noted<Visit>,
}

impl RotateNotes {
    /// No notes.
    pub fn empty(alloc: Global) -> RotateNotes
        ensures { result ≡ record { active = Noted.Kept []; inactive = Noted.Kept [] } }
    {
        RotateNotes {
            active: Noted::empty(alloc),
            inactive: Noted::empty(alloc),
        }
    }
}

/// What a shrink looked at, and what it tried by force.
#[derive(Drop)]
pub struct ShrinkNotes {
    pub looks: Noted<Look>,
    pub forced: Noted<Try>,
}

impl ShrinkNotes {
    /// No notes.
    pub fn empty(alloc: Global) -> ShrinkNotes
        ensures { result ≡ record { looks = Noted.Kept []; forced = Noted.Kept [] } }
    {
        ShrinkNotes {
            looks: Noted::empty(alloc),
            forced: Noted::empty(alloc),
        }
    }
}
