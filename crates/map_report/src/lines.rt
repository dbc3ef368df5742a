//! What takes the lines of a report.

ghost use Rattle.std.specs.Prelude.{◌≡◌, ◌≤◌, ℕ, List, [], ◌∷◌, ◌++◌, OnOk, map, string_bytes};
ghost use Rattle.std.specs.List.{flat_map};
ghost use Rattle.map_report.specs.Text.{ended};
ghost use Rattle.map_report.specs.Words.{numbered};

use crate::piece::Piece;
use map_types::Bytes;
use std::alloc::AllocError;

/// What takes the lines of a report, one after the other.
pub(crate) trait Lines {
    /// What it is a list of.
    type Item;

    /// The items that it has.
    ghost written: { Self → List Self.Item };

    /// The items of a line.
    ghost line: { List ℕ → List Self.Item };

    /// Adds a line.
    fn add<T: Piece>(&mut self, piece: &T) -> Result<(), AllocError>
        ensures { OnOk result (written self.new
            ≡ written self.old ++ line (T.Piece.shown piece.now)) };
}

/// Its bytes: each line is ended by a line feed.
impl Lines for String {
    type Item = u8;

    ghost written = { string_bytes };

    ghost line = { ended };

    fn add<T: Piece>(&mut self, piece: &T) -> Result<(), AllocError> {
        piece.push_to(self)?;
        self.push_str("\n")
    }
}

/// Its texts: each line is one.
impl Lines for Vec<String> {
    type Item = Bytes;

    ghost written = { λ texts. map string_bytes texts.items };

    ghost line = { λ line. line ∷ [] };

    fn add<T: Piece>(&mut self, piece: &T) -> Result<(), AllocError> {
        let mut text = String::new(*self.allocator());
        piece.push_to(&mut text)?;
        self.push(text)?;
        Ok(())
    }
}

/// Adds a line for each of the items.
pub(crate) fn add_each<L: Lines, T: Piece>(lines: &mut L, items: &[T]) -> Result<(), AllocError>
    ensures { OnOk result (L.written lines.new
        ≡ L.written lines.old ++ flat_map L.line (map T.shown items.now)) }
{
    for item in items {
        lines.add(item)?;
    }
    Ok(())
}

/// What has lines of its own, by its number.
pub(crate) trait Section {
    /// Its lines.
    ghost lines_at: { ℕ → Self → List (List ℕ) };

    /// Adds its lines.
    fn add_to<L: Lines>(&self, number: usize, lines: &mut L) -> Result<(), AllocError>
        ensures { OnOk result (L.Lines.written lines.new
            ≡ L.Lines.written lines.old ++ flat_map L.Lines.line (lines_at number self.now)) };
}

/// Adds the lines of each section. They are numbered from 0 or 1 on.
pub(crate) fn add_numbered<L: Lines, S: Section>(
    lines: &mut L,
    first: usize,
    sections: &[S],
) -> Result<(), AllocError>
    requires { first ≤ 1 }
    ensures { OnOk result (L.written lines.new
        ≡ L.written lines.old ++ flat_map L.line (numbered S.lines_at first sections.now)) }
{
    for (index, section) in sections.iter().enumerate() {
        section.add_to(first + index, lines)?;
    }
    Ok(())
}
