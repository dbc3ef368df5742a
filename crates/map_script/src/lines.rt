//! The lines of a text, each read once from the front.

ghost use Rattle.std.specs.Prelude.{◌≡◌, ℕ, ◌+◌, ◌-◌, ◌<◌, ◌≤◌, ◌^◌, [], ◌∷◌, length, count_by, ⊤, MatchOption, if◌then◌else◌};
ghost use Rattle.std.specs.List.{list_all};
ghost use Rattle.map_script.specs.Lines.{is_line_feed, is_blank, is_allowed, before_comment, said_by, tokens_said, is_nothing};
ghost use Rattle.map_script.specs.Lines.{lines_from, end_from};
ghost use Rattle.map_types.specs.Creation.{IsShape};
ghost use Rattle.map_script.specs.Plain.{FirstAt};
ghost use Rattle.map_script.specs.Reading.{begins_phase, call_within};
ghost use Rattle.map_script.specs.Unread.{unread_from};

use crate::calls::{MAX_CALLS, MAX_ROOM, reply_bytes};
use crate::front::call_at_front;
use crate::refusal::Cause;
use crate::tokens::Tokens;
use map_types::{Call, Shape};
use memchr::memchr;
use std::alloc::Global;
use std::marker::Model;

/// The lines of a text that are left. Those that say nothing don't count.
#[derive(Drop)]
pub(crate) struct Lines<'a> {
    rest: &'a [u8],
    /// The number of the first line of `rest`.
    number: u32,
}

impl<'a> Model for Lines<'a> {
    ghost use Rattle.std.specs.Prelude.{◌<◌, ◌^◌};
    ghost use Rattle.map_script.specs.Lines.{end_from};
    ghost use Rattle.map_script.specs.Unread.{Unread, unread_from};

    ghost Value = { Unread };

    ghost view = { λ lines. unread_from lines.number lines.rest.now };

    ghost invariant = { λ lines. end_from lines.number lines.rest.now < 2 ^ 32 };
}

impl<'a> Lines<'a> {
    /// The lines of a text, whose first line has this number.
    pub(crate) fn of(number: u32, text: &'a [u8]) -> Lines<'a>
        requires { end_from number text.now < 2 ^ 32 }
        ensures { result ≡ unread_from number text.now }
    {
        Lines { rest: text, number }
    }

    /// The next line that says something.
    pub(crate) fn next_line(&mut self) -> Option<TextLine<'a>>
        ensures line { MatchOption result (self.old.lines ≡ [])
            (λ line. self.old.lines ≡ line ∷ self.new.lines) }
        ensures end { self.new.end ≡ self.old.end }
    {
        let (line, rest, number) = first_line(self.rest, self.number)?;
        self.rest = rest;
        self.number = number;
        Some(line)
    }

    /// Reads a call that stands at the front in the form in which most are written, behind so many calls, whose replies may
    /// have so many bytes. Where none is found nothing is read.
    pub(crate) fn front_call(
        &mut self,
        alloc: Global,
        shape: &Shape,
        count: usize,
        room: u64,
    ) -> Option<Call>
        requires shape { IsShape shape.now }
        requires room { room ≤ 67108864 }
        ensures call { MatchOption result (self.new ≡ self.old)
            (λ call. (version : ℕ) → FirstAt self.old.number
            (call_within version shape.now count room) self.old.lines call self.new.lines) }
        ensures end { self.new.end ≡ self.old.end }
    {
        if count >= MAX_CALLS {
            return None;
        }
        let (call, rest) = call_at_front(alloc, shape, self.rest)?;
        if room + reply_bytes(shape, &call.verb) > MAX_ROOM {
            return None;
        }
        self.rest = rest;
        self.number += 1;
        Some(call)
    }

    /// The number of the first line of the text that is left.
    pub(crate) fn number(&self) -> u32
        ensures { result ≡ self.now.number }
    {
        self.number
    }

    /// The number of a fault at the end.
    pub(crate) fn end(&self) -> u32
        ensures { result ≡ self.now.end }
    {
        let line_feeds = self.rest.iter().filter(|byte| **byte == b'\n').count();
        self.number + line_feeds as u32
    }
}

/// A line, without its comment.
#[derive(Drop)]
pub(crate) struct TextLine<'a> {
    number: u32,
    text: &'a [u8],
    /// Whether each byte may stand there.
    allowed: bool,
}

impl<'a> Model for TextLine<'a> {
    ghost use Rattle.map_script.specs.Lines.{Line, tokens_of};

    ghost Value = { Line };

    ghost view = { λ line. record {
      number = line.number;
      says = record { tokens = tokens_of line.text.now; allowed = line.allowed };
    } };
}

impl<'a> TextLine<'a> {
    /// Its number, from 1.
    pub(crate) fn number(&self) -> u32
        ensures { result ≡ self.now.number }
    {
        self.number
    }

    /// What it says.
    pub(crate) fn tokens(&self) -> Result<Tokens<'a>, Cause>
        ensures { result ≡ tokens_said self.now.says }
    {
        if self.allowed {
            Ok(Tokens::of(self.text))
        } else {
            Err(Cause::Byte)
        }
    }

    /// Whether it begins a phase, whatever else may be wrong with it.
    pub(crate) fn begins_phase(&self) -> bool
        ensures { result ≡ begins_phase self.now }
    {
        Tokens::of(self.text).is_next(b"phase")
    }

    /// Whether it has no token and no byte that may not stand there.
    fn is_nothing(&self) -> bool
        ensures { result ≡ is_nothing self.now.says }
    {
        self.allowed && Tokens::of(self.text).is_empty()
    }
}

/// The first line that says something, the text behind it, and the number of the first line there.
fn first_line(text: &[u8], number: u32) -> Option<(TextLine, &[u8], u32)>
    requires { end_from number text.now < 2 ^ 32 }
    ensures line { MatchOption result
        (lines_from number text.now ≡ [])
        (λ parts. lines_from number text.now ≡ parts.0 ∷ lines_from parts.2 parts.1.now) }
    ensures end { MatchOption result
        ⊤
        (λ parts. end_from parts.2 parts.1.now ≡ end_from number text.now) }
{
    let mut rest = text;
    let mut next = number;
    while !rest.is_empty() {
        let (cut, after, line_feeds) = cut_line(rest);
        let line = judged_line(cut, next);
        rest = after;
        next += line_feeds;
        if !line.is_nothing() {
            return Some((line, rest, next));
        }
    }
    None
}

/// What stands before the first line feed, what stands behind it, and how many line feeds that are.
fn cut_line(text: &[u8]) -> (&[u8], &[u8], u32)
    requires { 0 < length text.now }
    ensures lines { (number : ℕ) → lines_from number text.now ≡
        (if is_nothing (said_by result.0.now)
        then lines_from (number + result.2) result.1.now
        else record { number = number; says = said_by result.0.now }
        ∷ lines_from (number + result.2) result.1.now) }
    ensures line_feeds { count_by is_line_feed text.now ≡ count_by is_line_feed result.1.now + result.2 }
    ensures shorter { length result.1.now < length text.now }
{
    match memchr(b'\n', text) {
        Some(at) => (&text[..at], &text[at + 1..], 1),
        None => {
            let (line, rest) = text.split_at(text.len());
            (line, rest, 0)
        }
    }
}

/// A line, with its number.
fn judged_line(line: &[u8], number: u32) -> TextLine
    ensures { result ≡ record { number = number; says = said_by line.now } }
{
    let text = before_comment(line);
    TextLine {
        number,
        text,
        allowed: is_all_allowed(text),
    }
}

/// A line without its comment.
fn before_comment(line: &[u8]) -> &[u8]
    ensures { result.now ≡ before_comment line.now }
{
    match memchr(b'#', line) {
        Some(at) => &line[..at],
        None => line,
    }
}

/// Whether each byte may stand outside a comment. It judges all of them with no branch, so that a processor takes many at a
/// time.
fn is_all_allowed(text: &[u8]) -> bool
    ensures { result ≡ list_all is_allowed text.now }
{
    let mut all = true;
    for byte in text {
        all &= is_allowed(*byte);
    }
    all
}

/// Whether a byte is a blank or a visible character.
fn is_allowed(byte: u8) -> bool
    ensures { result ≡ is_allowed byte }
{
    is_blank(byte) || (33..=126).contains(&byte)
}

/// Whether a byte is a space, a tab or a carriage return.
pub(crate) fn is_blank(byte: u8) -> bool
    ensures { result ≡ is_blank byte }
{
    byte == b' ' || byte == b'\t' || byte == b'\r'
}
