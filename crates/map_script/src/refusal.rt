//! Why a text is not read as a script.

ghost use Rattle.std.specs.Prelude.{◌≡◌, Some};
ghost use Rattle.map_script.specs.CauseName.{cause_name};

use map_types::CreateRefusal;
use std::fmt;
use thiserror::Error;

/// What is wrong with a line.
#[derive(Clone, Copy, Debug, PartialEq, Eq)]
pub enum Cause {
    /// A byte outside a comment that is neither a blank nor a visible ASCII character.
    Byte,
    /// The first line with tokens isn't `bpfmap 1` in form `Generator`, `bpfmap 2` in form `Copy`, or one of them in form
    /// `Calls`, or no line has tokens.
    Version,
    /// The second line with tokens is no map line, or the text ends before it.
    Map,
    /// The third line with tokens is no generator line whose numbers are in the ranges of `GenSpec`, the text ends
    /// before it, or a further line with tokens follows it.
    Gen,
    /// A token in a number's place isn't 1 to 10 digits that write at most 4,294,967,295, nor `-` where a batch read
    /// starts.
    Number,
    /// The CPU is not one of the map's.
    Cpu,
    /// No call has this name.
    Verb,
    /// A token in a flag's place is neither a name nor a number.
    Flag,
    /// A token in a key's or a value's place has a byte that is no hexadecimal digit.
    Digits,
    /// The digits of a key or a value are all right, but not two for each byte of its size.
    Length,
    /// The line ends where a token must stand.
    Missing,
    /// Tokens are left after the last place.
    Extra,
    /// It is well formed, and the 200,001st call.
    Calls,
    /// It is well formed, and with it the replies may have more than 67,108,864 bytes.
    Room,
    /// It is a well formed `phase` line, and would start the 65th phase.
    Phases,
    /// The third line with tokens of form `Copy` is no target line, its count isn't from 1 to 65,536, one of the two kinds has a
    /// value for each CPU and the other hasn't, or the text ends before it.
    Target,
    /// In form `Copy` it is a well formed call of CPU 0 within the limits, and no line behind it begins a phase.
    Copier,
}

impl Cause {
    /// The name of the cause, as it is printed.
    pub fn name(self) -> &'static str
        ensures { result.now ≡ cause_name self }
    {
        match self {
            Cause::Byte => "byte",
            Cause::Version => "version",
            Cause::Map => "map",
            Cause::Gen => "gen",
            Cause::Number => "number",
            Cause::Cpu => "cpu",
            Cause::Verb => "verb",
            Cause::Flag => "flag",
            Cause::Digits => "digits",
            Cause::Length => "length",
            Cause::Missing => "missing",
            Cause::Extra => "extra",
            Cause::Calls => "calls",
            Cause::Room => "room",
            Cause::Phases => "phases",
            Cause::Target => "target",
            Cause::Copier => "copier",
        }
    }
}

/// A cause prints as its name, in lower case.
impl fmt::Display for Cause {
    ghost output = { λ cause. Some (cause_name cause) };

    fn fmt<W: fmt::Write>(&self, f: &mut fmt::Formatter<W>) -> fmt::Result {
        f.write_str(self.name())
    }
}

/// Why a text is not read as a script.
#[derive(Clone, Copy, Debug, PartialEq, Eq, Error)]
pub enum ScriptRefusal {
    /// The first line that is not in the grammar, and what is wrong there first. Lines are numbered from 1. A fault at
    /// the end of the text has the number of line feeds plus 1.
    #[error("Fault")]
    Fault { line: u32, cause: Cause },
    /// The map, or the target of a copy, can't be created. No later line is judged then.
    #[error("Create")]
    Create(CreateRefusal),
    /// Memory for the script was not found.
    #[error("NoMemory")]
    NoMemory,
}
