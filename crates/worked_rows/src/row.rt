//! A worked row: words, an input, what fails and who is held, and what the program has to write and to end with.

use crate::arrival::hold_of;
use map_run::Hold;
use std::alloc::{AllocError, Global};
use std::num::ParseIntError;

/// Why a line isn't taken.
#[derive(Debug, Drop)]
pub(crate) enum RowStop {
    /// It is none of a row's.
    Unclear,
    NoMemory,
}

impl From<AllocError> for RowStop {
    fn from(_: AllocError) -> RowStop {
        RowStop::NoMemory
    }
}

impl From<ParseIntError> for RowStop {
    fn from(_: ParseIntError) -> RowStop {
        RowStop::Unclear
    }
}

/// Which calls of a source or a sink fail, each in a run of its own, and with it the one behind it.
#[derive(Clone, Copy)]
pub(crate) struct Failing {
    pub(crate) first: u32,
    /// One above the last.
    pub(crate) end: u32,
    /// Whether they are writes and flushes, and not reads.
    pub(crate) of_sink: bool,
}

/// The block that indented lines belong to.
#[derive(Clone, Copy)]
enum Block {
    Script,
    Report,
}

/// A row, with the defaults of what it doesn't say.
#[derive(Drop)]
pub(crate) struct Row<'a> {
    pub(crate) name: &'a str,
    /// The command words behind the program's name.
    pub(crate) words: &'a str,
    pub(crate) input: Vec<u8>,
    /// What has to be written.
    pub(crate) report: Vec<u8>,
    pub(crate) status: u8,
    /// How many bytes of the input have to be left, where it says so.
    pub(crate) unread: Option<usize>,
    /// The most bytes that a read or a write takes.
    pub(crate) pieces: u32,
    /// How many bytes the sink takes.
    pub(crate) room: u32,
    pub(crate) failing: Option<Failing>,
    pub(crate) holds: Vec<Hold>,
    /// For how many yields a worker is held at most.
    pub(crate) turns: u32,
    /// Whether a hold has to run out of turns.
    pub(crate) missed: bool,
    block: Block,
}

impl<'a> Row<'a> {
    pub(crate) fn new(alloc: Global, name: &'a str) -> Row<'a> {
        Row {
            name,
            words: "",
            input: Vec::new(alloc),
            report: Vec::new(alloc),
            status: 0,
            unread: None,
            pieces: 4096,
            room: 65_536,
            failing: None,
            holds: Vec::new(alloc),
            turns: 100_000_000,
            missed: false,
            block: Block::Script,
        }
    }

    /// Takes a line that says something of the row. Empty lines and comments say nothing.
    pub(crate) fn add_line(&mut self, alloc: Global, line: &'a str) -> Result<(), RowStop> {
        if let Some(text) = line.strip_prefix("  ") {
            return self.add_text(text.as_bytes());
        }
        if line.starts_with('#') {
            return Ok(());
        }
        match line.split_once(' ') {
            Some((key, rest)) => self.set(alloc, key, rest),
            None => self.flag(line),
        }
    }

    /// Takes a line of the script or the report.
    fn add_text(&mut self, text: &[u8]) -> Result<(), RowStop> {
        let block = match self.block {
            Block::Script => &mut self.input,
            Block::Report => &mut self.report,
        };
        block.extend_from_slice(text)?;
        block.extend_from_slice(b"\n")?;
        Ok(())
    }

    /// Takes a line of one word.
    fn flag(&mut self, word: &str) -> Result<(), RowStop> {
        match word {
            "" => {}
            "script" => self.block = Block::Script,
            "report" => self.block = Block::Report,
            "cut" => {
                // The last byte goes, where there is one.
                let _ = self.input.pop();
            }
            "missed" => self.missed = true,
            _ => return Err(RowStop::Unclear),
        }
        Ok(())
    }

    /// Takes a line of a word and what it sets.
    fn set(&mut self, alloc: Global, key: &str, rest: &'a str) -> Result<(), RowStop> {
        match key {
            "words" => self.words = rest,
            "repeat" => self.add_many(rest)?,
            "count" => self.add_numbered(alloc, rest)?,
            "status" => self.status = rest.parse()?,
            "unread" => self.unread = Some(rest.parse()?),
            "pieces" => self.pieces = rest.parse()?,
            "room" => self.room = rest.parse()?,
            "turns" => self.turns = rest.parse()?,
            "reads" => self.failing = Some(failing_of(rest, false)?),
            "writes" => self.failing = Some(failing_of(rest, true)?),
            "hold" => self.add_hold(rest)?,
            _ => return Err(RowStop::Unclear),
        }
        Ok(())
    }

    /// Takes a line that stands so many times in the script.
    fn add_many(&mut self, text: &str) -> Result<(), RowStop> {
        let (count, line) = text.split_once(' ').ok_or(RowStop::Unclear)?;
        let count: u32 = count.parse()?;
        for _ in 0..count {
            self.add_text(line.as_bytes())?;
        }
        Ok(())
    }

    /// Takes a line that stands so many times, each behind its number.
    fn add_numbered(&mut self, alloc: Global, text: &str) -> Result<(), RowStop> {
        let (count, line) = text.split_once(' ').ok_or(RowStop::Unclear)?;
        let count: u32 = count.parse()?;
        for before in 0..count {
            let number = u64::from(before) + 1;
            let numbered = format!(in alloc; "{number} {line}")?;
            self.add_text(numbered.as_bytes())?;
        }
        Ok(())
    }

    fn add_hold(&mut self, text: &str) -> Result<(), RowStop> {
        let hold = hold_of(text).ok_or(RowStop::Unclear)?;
        self.holds.push(hold).map_err(AllocError::from)?;
        Ok(())
    }
}

/// Numbers of calls, as `0..107`, which are the first and one above the last.
fn failing_of(text: &str, of_sink: bool) -> Result<Failing, RowStop> {
    let (first, end) = text.split_once("..").ok_or(RowStop::Unclear)?;
    Ok(Failing {
        first: first.parse()?,
        end: end.parse()?,
        of_sink,
    })
}
