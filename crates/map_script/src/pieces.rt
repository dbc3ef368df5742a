//! Reads scripts, whole or in any pieces.

ghost use Rattle.std.specs.Prelude.{◌≡◌, ℕ, ◌+◌, ◌-◌, ◌≤◌, ◌<◌, ◌^◌, List, [], ◌++◌, is_some, None, Err, IsErr, IfOk, OnOk, OnErr, MatchOption, ⊤, count_by};
ghost use Rattle.map_script.specs.declared.refusal.ScriptRefusal.TheVariants as refusals;
ghost use Rattle.map_script.specs.Lines.{is_line_feed, lines_from};
ghost use Rattle.map_script.specs.Pieces.{read_behind, ReadsOn, EndsWithLineFeed, StandsFor, IsFed};
ghost use Rattle.map_script.specs.Reading.{read_as, is_copy, IsReading};
ghost use Rattle.map_script.specs.WellFormed.{IsWellFormed};

use crate::lines::Lines;
use crate::reading::read_lines;
use crate::refusal::ScriptRefusal;
use crate::script::{Form, Script};
use crate::stage::{Stage, ended};
use map_types::NoMemory;
use memchr::memchr;
use std::alloc::{AllocError, Global};
use std::marker::Model;
use std::mem;

/// Reads a script in a form, in time and memory that are linear in the text, which may have 2^32 - 3 line feeds.
///
/// A line's tokens stand between spaces, tabs and carriage returns, and from the first `#` on it is a comment. Lines
/// without tokens are passed over, and counted. The first line with tokens is `bpfmap 1` in form Generator, `bpfmap 2` in
/// form Copy, and either in form Calls. The second is `map KIND key N value N max N cpus N`, then `flags N` or not, then `seed N`
/// or not. In form Copy the third is `target KIND max N count N`, then `flags N` or not, then `seed N` or not: the count is from 1 to
/// 65,536, and both kinds have a value for each CPU, or neither. The others are calls, each with its CPU first, and in version 2
/// at most 63 lines `phase`, each of which begins the next phase; or the one generator line `gen seed N calls N keys N mix N`.
/// In form Copy no call of the last phase is of CPU 0, which copies there. A line begins a phase by its first token, also where
/// something is wrong with the line.
///
/// - `Fault`: the first line that is not in the grammar, and the first cause there, from left to right, but for bytes
///   that may stand nowhere, which come first.
/// - `Create`: the refusal of `check_attr`, where it refuses the map or the target. No later line is judged then.
/// - `NoMemory`: memory for the script, or for a last line without its line feed, was not found.
pub fn read_script(alloc: Global, text: &[u8], form: Form) -> Result<Script, ScriptRefusal>
    requires { count_by is_line_feed text.now ≤ 2 ^ 32 - 3 }
    ensures exact { IsReading result (read_as form text.now) }
    ensures well_formed { IfOk result IsWellFormed }
    // There is a target exactly where the form is Copy.
    ensures target { IfOk result (λ script. is_some script.target ≡ is_copy form) }
{
    let mut reader = ScriptReader::open(alloc, form)?;
    reader.feed(text)?;
    reader.finish()
}

/// Reads a script from pieces of its text, which may end anywhere. It keeps the script so far and the line that isn't whole
/// yet, and no bytes of lines that are. Behind a line that is refused it counts line feeds alone; but where in form Copy a
/// call of CPU 0 stands before that line in its phase, only once another phase begins, since that tells which of the two is the
/// first line that is refused. After `NoMemory` it has failed
/// for good.
#[derive(Drop)]
pub struct ScriptReader {
    alloc: Global,
    /// Where the whole lines lead, or why one of them is refused, or `NoMemory` where it has failed.
    read: Result<Stage, ScriptRefusal>,
    /// The line that isn't whole yet.
    line: Vec<u8>,
    /// How many line feeds were fed, or at most so many where it has failed.
    line_feeds: u32,
}

impl Model for ScriptReader {
    ghost use Rattle.std.specs.Prelude.{◌≡◌, ◌≤◌, ◌^◌, ◌-◌, count_by};
    ghost use Rattle.map_script.specs.Lines.{is_line_feed};
    ghost use Rattle.map_script.specs.Pieces.{Reader};

    ghost Value = { Reader };

    ghost view = { λ reader. record {
      read = reader.read;
      line = reader.line.items;
      line_feeds = reader.line_feeds;
    } };

    ghost invariant = { λ reader. (reader.line_feeds ≤ 2 ^ 32 - 3)
        × (count_by is_line_feed reader.line.items ≡ 0) };
}

impl ScriptReader {
    /// A reader that was fed nothing. `NoMemory` where memory for it was not found.
    pub fn open(alloc: Global, form: Form) -> Result<ScriptReader, NoMemory>
        ensures empty { IfOk result (λ reader. StandsFor form reader []) }
        ensures line_feeds { IfOk result (λ reader. reader.line_feeds ≡ 0) }
    {
        Ok(ScriptReader {
            alloc,
            read: Ok(Stage::Start(form)),
            line: Vec::new(alloc),
            line_feeds: 0,
        })
    }

    /// Reads the next piece of the text. All pieces may have 2^32 - 3 line feeds together. A fault of the script, or that a map
    /// of it is refused, isn't told before the end, and line feeds behind it are counted as well. `NoMemory`: memory for the
    /// script or the line was not found, now or before, and the reader has failed.
    pub fn feed(&mut self, piece: &[u8]) -> Result<(), NoMemory>
        requires { self.old.line_feeds + count_by is_line_feed piece.now ≤ 2 ^ 32 - 3 }
        ensures fed { OnOk result (IsFed self.old piece.now self.new) }
        ensures fails { OnErr result (self.new.read ≡ Err refusals.NoMemory) }
        // Where it has failed it fails again.
        ensures failed { self.old.read ≡ Err refusals.NoMemory → IsErr result }
        ensures at_most { self.new.line_feeds ≤ self.old.line_feeds + count_by is_line_feed piece.now }
    {
        match refusal_of(&self.read) {
            None => self.feed_on(piece),
            Some(ScriptRefusal::NoMemory) => Err(AllocError.into()),
            Some(_) => {
                self.line_feeds += count_line_feeds(piece);
                Ok(())
            }
        }
    }

    /// The script whose text was fed, or why it is none: the first fault, or the refusal of a map of it, as `read_script` has
    /// them, or `NoMemory` where memory was not found, now or before.
    pub fn finish(self) -> Result<Script, ScriptRefusal>
        ensures exact { (form : Form) (bytes : List ℕ) → StandsFor form self bytes
            → IsReading result (read_as form bytes) }
        ensures well_formed { (form : Form) (bytes : List ℕ) → StandsFor form self bytes
            → IfOk result IsWellFormed }
        ensures target { (form : Form) (bytes : List ℕ) → StandsFor form self bytes
            → IfOk result (λ script. is_some script.target ≡ is_copy form) }
        ensures failed { self.read ≡ Err refusals.NoMemory → result ≡ Err refusals.NoMemory }
    {
        let ScriptReader {
            alloc,
            read,
            line,
            line_feeds,
        } = self;
        let (last, end) = read_text(alloc, read, line_feeds, line.as_slice());
        ended(last?, end + 1)
    }

    /// Reads the next piece, where no line was refused.
    fn feed_on(&mut self, piece: &[u8]) -> Result<(), NoMemory>
        requires { self.old.line_feeds + count_by is_line_feed piece.now ≤ 2 ^ 32 - 3 }
        ensures fed { OnOk result (IsFed self.old piece.now self.new) }
        ensures fails { OnErr result (self.new.read ≡ Err refusals.NoMemory) }
        ensures at_most { self.new.line_feeds ≤ self.old.line_feeds + count_by is_line_feed piece.now }
    {
        if self.line.is_empty() {
            return self.feed_lines(piece);
        }
        let Some((ending, rest)) = cut_first(piece) else {
            return self.keep(piece);
        };
        self.end_line(ending)?;
        self.feed_lines(rest)
    }

    /// Reads the next piece, where no line was refused and none is begun.
    fn feed_lines(&mut self, piece: &[u8]) -> Result<(), NoMemory>
        requires fits { self.old.line_feeds + count_by is_line_feed piece.now ≤ 2 ^ 32 - 3 }
        requires none { self.old.line ≡ [] }
        ensures fed { OnOk result (IsFed self.old piece.now self.new) }
        ensures fails { OnErr result (self.new.read ≡ Err refusals.NoMemory) }
        ensures at_most { self.new.line_feeds ≤ self.old.line_feeds + count_by is_line_feed piece.now }
    {
        let Some((whole, rest)) = cut_last(piece) else {
            return self.keep(piece);
        };
        self.read_whole(whole)?;
        self.keep(rest)
    }

    /// Reads the line that was begun, with its end.
    fn end_line(&mut self, ending: &[u8]) -> Result<(), NoMemory>
        requires fits { self.old.line_feeds + count_by is_line_feed ending.now ≤ 2 ^ 32 - 3 }
        requires ends { EndsWithLineFeed ending.now }
        ensures fed { OnOk result (IsFed self.old ending.now self.new) }
        ensures none { OnOk result (self.new.line ≡ []) }
        ensures fails { OnErr result (self.new.read ≡ Err refusals.NoMemory) }
        ensures at_most { self.new.line_feeds ≤ self.old.line_feeds + count_by is_line_feed ending.now }
    {
        let before = mem::replace(&mut self.read, Err(ScriptRefusal::NoMemory));
        self.line.extend_from_slice(ending)?;
        let (read, line_feeds) = read_text(
            self.alloc,
            before,
            self.line_feeds,
            self.line.as_slice(),
        );
        self.line.clear();
        self.read = read;
        self.line_feeds = line_feeds;
        memory_of(&self.read)
    }

    /// Reads whole lines, where no line was begun.
    fn read_whole(&mut self, text: &[u8]) -> Result<(), NoMemory>
        requires fits { self.old.line_feeds + count_by is_line_feed text.now ≤ 2 ^ 32 - 3 }
        requires none { self.old.line ≡ [] }
        requires ends { EndsWithLineFeed text.now }
        ensures fed { OnOk result (IsFed self.old text.now self.new) }
        ensures none { OnOk result (self.new.line ≡ []) }
        ensures fails { OnErr result (self.new.read ≡ Err refusals.NoMemory) }
        ensures at_most { self.new.line_feeds ≤ self.old.line_feeds + count_by is_line_feed text.now }
    {
        let before = mem::replace(&mut self.read, Err(ScriptRefusal::NoMemory));
        let (read, line_feeds) = read_text(self.alloc, before, self.line_feeds, text);
        self.read = read;
        self.line_feeds = line_feeds;
        memory_of(&self.read)
    }

    /// Keeps bytes of a line that isn't whole yet.
    fn keep(&mut self, part: &[u8]) -> Result<(), NoMemory>
        requires { count_by is_line_feed part.now ≡ 0 }
        ensures fed { OnOk result (IsFed self.old part.now self.new) }
        ensures fails { OnErr result (self.new.read ≡ Err refusals.NoMemory) }
        ensures line_feeds { self.new.line_feeds ≡ self.old.line_feeds }
    {
        match self.line.extend_from_slice(part) {
            Ok(()) => Ok(()),
            Err(error) => {
                self.read = Err(ScriptRefusal::NoMemory);
                Err(error.into())
            }
        }
    }
}

/// Reads the lines of a text, behind lines that had so many line feeds. The answer is where they lead, and how many line feeds
/// there are then.
fn read_text(
    alloc: Global,
    before: Result<Stage, ScriptRefusal>,
    line_feeds: u32,
    text: &[u8],
) -> (Result<Stage, ScriptRefusal>, u32)
    requires { line_feeds + count_by is_line_feed text.now ≤ 2 ^ 32 - 3 }
    ensures reads { ReadsOn (λ end more. read_behind before end
        (lines_from (line_feeds + 1) text.now ++ more)) result.0 }
    ensures line_feeds { result.1 ≡ line_feeds + count_by is_line_feed text.now }
{
    let mut lines = Lines::of(line_feeds + 1, text);
    let read = read_more(alloc, before, &mut lines);
    (read, lines.end() - 1)
}

/// Reads lines, unless those before them are refused.
fn read_more(
    alloc: Global,
    before: Result<Stage, ScriptRefusal>,
    lines: &mut Lines,
) -> Result<Stage, ScriptRefusal>
    ensures reads { ReadsOn (λ end more. read_behind before end (lines.old.lines ++ more)) result }
    ensures end { lines.new.end ≡ lines.old.end }
{
    match before {
        Ok(stage) => read_lines(alloc, stage, lines),
        Err(refusal) => Err(refusal),
    }
}

/// Whether memory was found.
fn memory_of(read: &Result<Stage, ScriptRefusal>) -> Result<(), NoMemory>
    ensures found { OnOk result (read.now ≡ Err refusals.NoMemory → ⊥) }
    ensures missing { OnErr result (read.now ≡ Err refusals.NoMemory) }
{
    match read {
        Err(ScriptRefusal::NoMemory) => Err(AllocError.into()),
        _ => Ok(()),
    }
}

/// Why lines are refused, if they are.
fn refusal_of(read: &Result<Stage, ScriptRefusal>) -> Option<ScriptRefusal>
    ensures refused { MatchOption result ⊤ (λ refusal. read.now ≡ Err refusal) }
    ensures none { result ≡ None → read.now ≡ Err refusals.NoMemory → ⊥ }
{
    match read {
        Ok(_) => None,
        Err(refusal) => Some(*refusal),
    }
}

/// Cuts a text behind a line feed, its first one.
fn cut_first(text: &[u8]) -> Option<(&[u8], &[u8])>
    ensures { MatchOption result
        (count_by is_line_feed text.now ≡ 0)
        (λ parts. (text.now ≡ parts.0.now ++ parts.1.now) × EndsWithLineFeed parts.0.now) }
{
    match memchr(b'\n', text) {
        Some(at) => Some(text.split_at(at + 1)),
        None => None,
    }
}

/// Cuts a text behind its last line feed.
fn cut_last(text: &[u8]) -> Option<(&[u8], &[u8])>
    ensures { MatchOption result
        (count_by is_line_feed text.now ≡ 0)
        (λ parts. (text.now ≡ parts.0.now ++ parts.1.now) × EndsWithLineFeed parts.0.now
        × (count_by is_line_feed parts.1.now ≡ 0)) }
{
    let mut end = text.len();
    while end > 0 {
        if text[end - 1] == b'\n' {
            return Some(text.split_at(end));
        }
        end -= 1;
    }
    None
}

/// How many line feeds there are.
fn count_line_feeds(text: &[u8]) -> u32
    requires { count_by is_line_feed text.now < 2 ^ 32 }
    ensures { result ≡ count_by is_line_feed text.now }
{
    text.iter().filter(|byte| **byte == b'\n').count() as u32
}
