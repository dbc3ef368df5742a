//! The turns of a strand with what was noted of their moments.

ghost use Rattle.std.specs.Prelude.{◌≡◌, ◌∷◌, ◌≤◌, [], MatchOption, None, Some, length, take, if◌then◌else◌};

use map_types::DomainId;
use place_words::PartAt;
use replay_words::Note;
use std::marker::Model;

/// A turn with what was noted of its moment. Of a push that found its element gone also whether a refill had flushed it.
#[derive(Drop)]
pub struct Seen<'a> {
    pub lock: DomainId,
    pub part: PartAt<'a>,
    pub note: &'a Note,
    pub flushed: bool,
}

impl<'a> Model for Seen<'a> {
    ghost use Rattle.place_words.specs.Entries.{part_read};
    ghost use Rattle.place_words.specs.Turns.{on_lock};
    ghost use Rattle.evicting_traces.specs.Reading as reading;

    ghost Value = { reading.Seen };

    ghost view = { λ s. reading.seen_of (on_lock s.lock (part_read s.part)) s.note.now s.flushed };
}

/// Turns from some place on.
#[derive(Drop)]
pub struct Seens<'a> {
    turns: &'a [Seen<'a>],
}

impl<'a> Model for Seens<'a> {
    ghost use Rattle.std.specs.Prelude.{List};
    ghost use Rattle.evicting_traces.specs.Reading as reading;

    ghost Value = { List reading.Seen };

    ghost view = { λ s. s.turns.now };
}

impl<'a> Seens<'a> {
    /// These turns.
    pub fn of(turns: &'a [Seen<'a>]) -> Seens<'a>
        ensures { result ≡ turns.now }
    {
        Seens { turns }
    }

    /// How many there are.
    pub fn len(&self) -> usize
        ensures { result ≡ length self.now }
    {
        self.turns.len()
    }

    /// The first one, and those behind it.
    pub fn split_first(&self) -> Option<(&'a Seen<'a>, Seens<'a>)>
        ensures { MatchOption result (self.now ≡ []) (λ split. self.now ≡ split.0.now ∷ split.1) }
    {
        let (first, rest) = self.turns.split_first()?;
        Some((first, Seens { turns: rest }))
    }

    /// The first so many.
    pub fn first(&self, count: usize) -> Seens<'a>
        requires { count ≤ length self.now }
        ensures { result ≡ take count self.now }
    {
        Seens {
            turns: &self.turns[..count],
        }
    }

    /// The same turns once more.
    pub fn again(&self) -> Seens<'a>
        ensures { result ≡ self.now }
    {
        Seens { turns: self.turns }
    }
}

/// The turns behind a call, if it is the call.
pub(crate) fn rest_if<'a>(is: bool, rest: Seens<'a>) -> Option<Seens<'a>>
    ensures { result ≡ (if is then Some rest.entry else None) }
{
    is.then_some(rest)
}
