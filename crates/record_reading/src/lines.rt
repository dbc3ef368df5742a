//! The lines of a text that are left.

ghost use Rattle.std.specs.Prelude.{◌≡◌, ◌≢◌, [], ◌∷◌, MatchBool, MatchOption, count_by, drop, length};
ghost use Rattle.map_script.specs.Lines.{is_line_feed};
ghost use Rattle.record_reading.specs.Outcomes.{lines_with};
ghost use Rattle.record_reading.specs.TextLines.{lines_in};

use crate::text_lines::next_line;
use std::marker::Model;

/// The lines of a text that are left. Contracts see them, and what stands behind the last line feed.
#[derive(Drop)]
pub(crate) struct Lines<'a> {
    /// Whether there is a line.
    is_line: bool,
    /// The first one, which is looked for once.
    first: &'a [u8],
    /// What stands behind it.
    behind: &'a [u8],
}

impl<'a> Model for Lines<'a> {
    ghost use Rattle.std.specs.Prelude.{List, ℕ};
    ghost use Rattle.record_reading.specs.Outcomes.{lines_with};
    ghost use Rattle.record_reading.specs.Sections.{Line};

    ghost Value = { List Line × List ℕ };

    ghost view = { λ lines. lines_with lines.is_line lines.first.now lines.behind.now };
}

impl<'a> Lines<'a> {
    /// The lines of a text.
    pub(crate) fn of(text: &'a [u8]) -> Lines<'a>
        ensures { result ≡ lines_in text.now }
    {
        match next_line(text) {
            Some((line, behind)) => Lines {
                is_line: true,
                first: line,
                behind,
            },
            None => Lines {
                is_line: false,
                first: &[],
                behind: text,
            },
        }
    }

    /// The first line.
    pub(crate) fn first(&self) -> Option<&'a [u8]>
        ensures { MatchOption result (self.now.0 ≡ [])
            (λ line. self.now.0 ≡ line.now ∷ drop 1 self.now.0) }
    {
        first_of(self.is_line, self.first, self.behind)
    }

    /// Passes over the first line.
    pub(crate) fn pass(&mut self)
        ensures lines { self.new.0 ≡ drop 1 self.old.0 }
        ensures rest { self.new.1 ≡ self.old.1 }
    {
        *self = behind_first(self.is_line, self.first, self.behind);
    }

    /// Whether nothing is left of the text.
    pub(crate) fn is_over(&self) -> bool
        ensures { MatchBool result (self.now ≡ ([], [])) (self.now ≢ ([], [])) }
    {
        is_over(self.is_line, self.first, self.behind)
    }

    /// How many lines there are.
    pub(crate) fn count(&self) -> usize
        ensures { result ≡ length self.now.0 }
    {
        count_lines(self.is_line, self.first, self.behind)
    }
}

/// The first line, if there is one.
fn first_of<'a>(is_line: bool, first: &'a [u8], behind: &[u8]) -> Option<&'a [u8]>
    ensures { MatchOption result ((lines_with is_line first.now behind.now).0 ≡ [])
        (λ line. (lines_with is_line first.now behind.now).0
        ≡ line.now ∷ drop 1 (lines_with is_line first.now behind.now).0) }
{
    if is_line { Some(first) } else { None }
}

/// The lines behind the first one, if there is one.
fn behind_first<'a>(is_line: bool, first: &[u8], behind: &'a [u8]) -> Lines<'a>
    ensures lines { result.0 ≡ drop 1 (lines_with is_line first.now behind.now).0 }
    ensures rest { result.1 ≡ (lines_with is_line first.now behind.now).1 }
{
    if is_line {
        Lines::of(behind)
    } else {
        Lines {
            is_line: false,
            first: &[],
            behind,
        }
    }
}

/// Whether there is neither a line nor a rest.
#[tactic(auto, using(crate::proofs::RecordCases::over_where, crate::proofs::RecordCases::line_stays))]
fn is_over(is_line: bool, first: &[u8], behind: &[u8]) -> bool
    ensures { MatchBool result (lines_with is_line first.now behind.now ≡ ([], []))
        (lines_with is_line first.now behind.now ≢ ([], [])) }
{
    if is_line { false } else { behind.is_empty() }
}

/// How many lines there are.
#[tactic(auto, using(crate::proofs::RecordCases::counted))]
fn count_lines(is_line: bool, first: &[u8], behind: &[u8]) -> usize
    ensures { result ≡ length (lines_with is_line first.now behind.now).0 }
{
    if is_line {
        count_line_feeds(behind) + 1
    } else {
        0
    }
}

/// How many line feeds a text has.
fn count_line_feeds(text: &[u8]) -> usize
    ensures { result ≡ count_by is_line_feed text.now }
{
    text.iter().filter(|byte| **byte == b'\n').count()
}
