//! The tokens of a line, each read once from the front.

ghost use Rattle.std.specs.Prelude.{◌≡◌, ◌<◌, ◌==◌, [], ◌∷◌, length, MatchOption, IsTrue, IsFalse, if◌then◌else◌};
ghost use Rattle.std.specs.List.{list_all};
ghost use Rattle.map_script.specs.Lines.{is_blank, tokens_of};
ghost use Rattle.map_script.specs.Places.{is_next};

use crate::lines::is_blank;
use memchr::memchr3;
use std::marker::Model;

/// The tokens of a line that are left.
#[derive(Drop)]
pub(crate) struct Tokens<'a> {
    rest: &'a [u8],
}

impl<'a> Model for Tokens<'a> {
    ghost use Rattle.std.specs.Prelude.{List, ℕ};
    ghost use Rattle.map_script.specs.Lines.{tokens_of};

    ghost Value = { List (List ℕ) };

    ghost view = { λ tokens. tokens_of tokens.rest.now };
}

impl<'a> Tokens<'a> {
    /// The tokens of a line.
    pub(crate) fn of(line: &'a [u8]) -> Tokens<'a>
        ensures { result ≡ tokens_of line.now }
    {
        Tokens { rest: line }
    }

    /// The next token.
    pub(crate) fn next_token(&mut self) -> Option<&'a [u8]>
        ensures { MatchOption result (self.old ≡ []) (λ token. self.old ≡ token.now ∷ self.new) }
    {
        let (token, rest) = first_token(self.rest)?;
        self.rest = rest;
        Some(token)
    }

    /// Reads this word, where it is the next token. Otherwise nothing is read.
    pub(crate) fn takes(&mut self, word: &[u8]) -> bool
        ensures taken { IsTrue result → self.old ≡ word.now ∷ self.new }
        ensures left { IsFalse result
            → (self.new ≡ self.old) × IsFalse (is_next word.now self.old) }
    {
        let Some((token, rest)) = first_token(self.rest) else {
            return false;
        };
        if token != word {
            return false;
        }
        self.rest = rest;
        true
    }

    /// Whether this word is the next token.
    pub(crate) fn is_next(&self, word: &[u8]) -> bool
        ensures { result ≡ is_next word.now self.now }
    {
        match first_token(self.rest) {
            Some((token, _)) => token == word,
            None => false,
        }
    }

    /// Whether no token is left.
    pub(crate) fn is_empty(&self) -> bool
        ensures { result ≡ (length self.now == 0) }
    {
        has_no_token(self.rest)
    }
}

/// Whether a line has no token.
fn has_no_token(line: &[u8]) -> bool
    ensures { result ≡ (length (tokens_of line.now) == 0) }
{
    is_all_blank(line)
}

/// Whether each byte is a blank.
fn is_all_blank(line: &[u8]) -> bool
    ensures { result ≡ list_all is_blank line.now }
{
    line.iter().all(|byte| is_blank(*byte))
}

/// The first token of a line, and the line behind it.
fn first_token(line: &[u8]) -> Option<(&[u8], &[u8])>
    ensures { MatchOption result
        (tokens_of line.now ≡ [])
        (λ parts. tokens_of line.now ≡ parts.0.now ∷ tokens_of parts.1.now) }
{
    let mut rest = line;
    while !rest.is_empty() {
        let (token, after) = cut_token(rest);
        if !token.is_empty() {
            return Some((token, after));
        }
        rest = after;
    }
    None
}

/// What stands before the first blank, and what stands behind it.
fn cut_token(line: &[u8]) -> (&[u8], &[u8])
    requires { 0 < length line.now }
    ensures tokens { tokens_of line.now
        ≡ (if length result.0.now == 0 then tokens_of result.1.now else result.0.now
        ∷ tokens_of result.1.now) }
    ensures shorter { length result.1.now < length line.now }
{
    match memchr3(b' ', b'\t', b'\r', line) {
        Some(at) => (&line[..at], &line[at + 1..]),
        None => line.split_at(line.len()),
    }
}
