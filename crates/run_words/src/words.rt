//! The command words, read by clap as those of one command.

ghost use Rattle.std.specs.Prelude.{◌≡◌, ◌⊎◌, Some, false, codes, map, IfErr, IfOk, IsErrOf, IsTrue, string_bytes};
ghost use Rattle.clap.specs.Words.{first_value, found_of, kind_of, new_rule, one_text, rule_of};
ghost use Rattle.clap.specs.Values.{bool_text};
ghost use Rattle.run_words.specs.Words.{are_read, are_words, may_stand, mode_of, mode_word, options_of};

use clap::error::ErrorKind;
use clap::{Arg, ArgAction, ArgMatches, Command, Error};
use map_report::Options;
use std::alloc::Global;

/// Which calls are made, in which order, and what is printed of them.
#[derive(Clone, Copy, Debug, PartialEq, Eq)]
pub enum Mode {
    /// The calls of a script one after another, as they stand there.
    Serial,
    /// Each CPU's calls by a thread of its own.
    Race,
    /// Generated calls one after another, of which a summary is printed.
    Gen,
    /// The calls of a script one after another, beside those of a map of strict recency: how often they answer alike is printed.
    Compare,
    /// None: a script and a report are read, and it is printed whether the report is that of a run of the script.
    Check,
    /// One map is copied into another while calls go on: those of a race, beside whose last phase CPU 0 copies.
    Copy,
}

/// What the command words ask for.
#[derive(Clone, Copy, Debug, PartialEq, Eq)]
pub struct Asked {
    pub mode: Mode,
    pub options: Options,
}

/// Why command words aren't taken.
#[derive(Clone, Copy, Debug, PartialEq, Eq)]
pub enum WordsStop {
    /// They are others.
    Other,
    /// Memory to read them was not found.
    NoMemory,
}

static MODES: [&str; 6] = ["serial", "race", "gen", "compare", "check", "copy"];

/// An option that is given or not.
fn flag<'a>(alloc: Global, name: &'a str) -> Arg<'a>
    ensures rule { rule_of result
        ≡ record (new_rule name.now) { long = Some name.now; action = Some ArgAction.SetTrue } }
    ensures local { result.global ≡ false }
{
    Arg::new(alloc, name).long(name).action(ArgAction::SetTrue)
}

/// What clap makes of the words. The command has one positional and three flags, and neither `--help` nor `--version`.
fn matches_of<'a>(alloc: Global, words: &'a [String]) -> Result<ArgMatches<'a>, Error>
    ensures taken { IfOk result (λ m. IsTrue (are_read (map string_bytes words.now))) }
    ensures options { IfOk result (λ m. let options = options_of (map string_bytes words.now) in
        (one_text (found_of m) (codes "history") ≡ Some (bool_text options.history))
        × (one_text (found_of m) (codes "dump") ≡ Some (bool_text options.dump))
        × (one_text (found_of m) (codes "json") ≡ Some (bool_text options.json))) }
    ensures mode { IfOk result (λ m. first_value (found_of m) (codes "mode")
        ≡ Some (mode_word (mode_of (map string_bytes words.now)))) }
    ensures other { IfErr result (λ e. (kind_of e ≡ ErrorKind.OutOfMemory)
        ⊎ (are_read (map string_bytes words.now) ≡ false)) }
{
    let mode = Arg::new(alloc, "mode")
        .required(true)
        .value_parser(MODES.as_slice());
    let command = Command::new(alloc, "bpfmap")
        .disable_help_flag(true)
        .disable_version_flag(true)
        .arg(mode)?
        .arg(flag(alloc, "history"))?
        .arg(flag(alloc, "dump"))?
        .arg(flag(alloc, "json"))?;
    command.try_get_matches_from(words)
}

/// What the command words ask for: the program's name, which is not looked at, then `serial`, `race`, `gen`, `compare`,
/// `check` or `copy` once and each of `--history`, `--dump` and `--json` at most once, in any order. One `--` may stand, after
/// which no option follows. With `compare` and with `check` no option may stand, and with `copy` not `--json`.
pub fn asked_of(alloc: Global, words: &[String]) -> Result<Asked, WordsStop>
    ensures taken { IfOk result (λ asked. IsTrue (are_words (map string_bytes words.now))
        × (asked.options ≡ options_of (map string_bytes words.now))
        × (asked.mode ≡ mode_of (map string_bytes words.now))) }
    ensures other { IsErrOf result WordsStop.Other
        → are_words (map string_bytes words.now) ≡ false }
{
    match read_of(alloc, words) {
        Ok(asked) => taken(asked),
        Err(stop) => Err(stop),
    }
}

/// The mode and the options that stand among the words.
fn read_of(alloc: Global, words: &[String]) -> Result<Asked, WordsStop>
    ensures taken { IfOk result (λ asked. IsTrue (are_read (map string_bytes words.now))
        × (asked.options ≡ options_of (map string_bytes words.now))
        × (asked.mode ≡ mode_of (map string_bytes words.now))) }
    ensures other { IsErrOf result WordsStop.Other
        → are_read (map string_bytes words.now) ≡ false }
{
    match matches_of(alloc, words) {
        Ok(matches) => Ok(Asked {
            mode: match matches.get_str("mode") {
                Some("race") => Mode::Race,
                Some("gen") => Mode::Gen,
                Some("compare") => Mode::Compare,
                Some("check") => Mode::Check,
                Some("copy") => Mode::Copy,
                _ => Mode::Serial,
            },
            options: Options {
                history: matches.get_flag("history"),
                dump: matches.get_flag("dump"),
                json: matches.get_flag("json"),
            },
        }),
        Err(error) => match error.kind() {
            ErrorKind::OutOfMemory => Err(WordsStop::NoMemory),
            _ => Err(WordsStop::Other),
        },
    }
}

/// What was asked for, where its options may stand in its mode.
fn taken(asked: Asked) -> Result<Asked, WordsStop>
    ensures taken { IfOk result (λ taken. (taken ≡ asked) × IsTrue (may_stand asked.mode asked.options)) }
    ensures other { IfErr result (λ stop. may_stand asked.mode asked.options ≡ false) }
{
    if may_stand(asked.mode, asked.options) {
        Ok(asked)
    } else {
        Err(WordsStop::Other)
    }
}

/// Whether the options may stand in the mode.
fn may_stand(mode: Mode, options: Options) -> bool
    ensures { result ≡ may_stand mode options }
{
    match mode {
        Mode::Compare | Mode::Check => !(options.history || options.dump || options.json),
        Mode::Copy => !options.json,
        Mode::Serial | Mode::Race | Mode::Gen => true,
    }
}
