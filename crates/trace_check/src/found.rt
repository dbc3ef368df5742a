//! What a lookup got, as a turn tells it.

ghost use Rattle.std.specs.Prelude.{◌≡◌};

use map_types::Bytes;
use std::marker::Model;

/// The element and the value that a lookup got, if any: lent by the turn that tells them, or made from it. Contracts see what was got.
#[derive(Drop)]
pub struct FoundAt<'a> {
    lies: FoundIn<'a>,
}

/// Where it lies.
#[derive(Drop)]
enum FoundIn<'a> {
    /// In the turn.
    Lent(&'a Option<(u32, Bytes)>),
    /// Here.
    Made(Option<(u32, Bytes)>),
}

impl<'a> Model for FoundAt<'a> {
    ghost use Rattle.std.specs.Prelude.{List, Option, ℕ};
    ghost use Rattle.trace_check.specs.Found.{found_of};

    ghost Value = { Option (ℕ × List ℕ) };

    ghost view = { λ f. found_of f.lies };
}

impl<'a> FoundAt<'a> {
    /// What lies in a turn.
    pub(crate) fn lent(found: &'a Option<(u32, Bytes)>) -> FoundAt<'a>
        ensures { result ≡ found.now }
    {
        FoundAt {
            lies: FoundIn::Lent(found),
        }
    }

    /// What was made from a turn.
    pub(crate) fn made(found: Option<(u32, Bytes)>) -> FoundAt<'a>
        ensures { result ≡ found }
    {
        FoundAt {
            lies: FoundIn::Made(found),
        }
    }

    /// What was got.
    pub fn found(&self) -> &Option<(u32, Bytes)>
        ensures { result.now ≡ self.now }
    {
        match &self.lies {
            FoundIn::Lent(found) => found,
            FoundIn::Made(found) => found,
        }
    }
}
