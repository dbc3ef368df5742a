//! What is written of a verdict, and of a report.

ghost use Rattle.std.specs.Prelude.{◌≡◌, ◌++◌, ℕ, IfOk, OnOk, codes, string_bytes};
ghost use Rattle.map_report.specs.Words.{lock_name, number_text};
ghost use Rattle.record_flaws.specs.FlawText.{flaw_text, said_text, verdict_text};

use crate::{Flaw, Said, Verdict};
use map_types::{DomainId, NoMemory};
use std::alloc::{AllocError, Global};
use std::fmt::Write;

/// The line of what is said of a report: that of its record's verdict, or `bpfmap: record line N` where no record has it. Only
/// want of memory is refused.
pub fn said_text(alloc: Global, said: Said) -> Result<String, NoMemory>
    ensures { IfOk result (λ text. string_bytes text ≡ said_text said) }
{
    match said {
        Said::Unread { line } => unread_text(alloc, line),
        Said::Judged(verdict) => verdict_text(alloc, verdict),
    }
}

/// The line of a report that no record has, by its line at fault.
fn unread_text(alloc: Global, line: u32) -> Result<String, NoMemory>
    ensures { IfOk result (λ text. string_bytes text
        ≡ codes "bpfmap: record line" ++ number_text line ++ codes "\n") }
{
    let mut text = String::new(alloc);
    text.push_str("bpfmap: record line")?;
    push_number(&mut text, line as u64)?;
    text.push_str("\n")?;
    Ok(text)
}

/// The line of a verdict: `yes`, or `bpfmap: no FLAW` with the flaw's name and its place. Only want of memory is refused.
pub fn verdict_text(alloc: Global, verdict: Verdict) -> Result<String, NoMemory>
    ensures { IfOk result (λ text. string_bytes text ≡ verdict_text verdict) }
{
    let mut text = String::new(alloc);
    match verdict {
        Verdict::Yes => text.push_str("yes\n")?,
        Verdict::No(flaw) => {
            text.push_str("bpfmap: no ")?;
            push_flaw(&mut text, flaw)?;
            text.push_str("\n")?;
        }
    }
    Ok(text)
}

/// Adds the name of a flaw, with its place.
fn push_flaw(text: &mut String, flaw: Flaw) -> Result<(), AllocError>
    ensures { OnOk result (string_bytes text.new ≡ string_bytes text.old ++ flaw_text flaw) }
{
    match flaw {
        Flaw::History { lock, index } => push_place(text, "history ", lock, index),
        Flaw::Phase { phase } => push_named(text, "phase", phase as u64),
        Flaw::Strand { index } => push_named(text, "strand", index),
        Flaw::Call { call } => push_named(text, "call", call as u64),
        Flaw::Finals => text.push_str("finals"),
        Flaw::Ticket { lock, index } => push_place(text, "ticket ", lock, index),
        Flaw::Step { ticket } => push_named(text, "step", ticket),
    }
}

/// Adds a name, that of a lock, and a place in its history.
fn push_place(text: &mut String, name: &str, lock: DomainId, index: u64) -> Result<(), AllocError>
    ensures { OnOk result (string_bytes text.new
        ≡ string_bytes text.old ++ (name.now ++ lock_name lock ++ number_text index)) }
{
    text.push_str(name)?;
    push_lock(text, lock)?;
    push_number(text, index)
}

/// Adds the name of a lock.
fn push_lock(text: &mut String, lock: DomainId) -> Result<(), AllocError>
    ensures { OnOk result (string_bytes text.new ≡ string_bytes text.old ++ lock_name lock) }
{
    match lock {
        DomainId::Local(cpu) => push_named(text, "local", cpu as u64),
        DomainId::Global => text.push_str("global"),
        DomainId::CpuLru(cpu) => push_named(text, "lru", cpu as u64),
        DomainId::Bucket(bucket) => push_named(text, "bucket", bucket as u64),
        DomainId::Freelist(cpu) => push_named(text, "freelist", cpu as u64),
    }
}

/// Adds a name and a number.
fn push_named(text: &mut String, name: &str, number: u64) -> Result<(), AllocError>
    ensures { OnOk result (string_bytes text.new
        ≡ string_bytes text.old ++ (name.now ++ number_text number)) }
{
    text.push_str(name)?;
    push_number(text, number)
}

/// Adds a number behind a blank.
fn push_number(text: &mut String, number: u64) -> Result<(), AllocError>
    ensures { OnOk result (string_bytes text.new ≡ string_bytes text.old ++ number_text number) }
{
    match write!(text, " {number}") {
        Ok(()) => Ok(()),
        Err(_) => Err(AllocError),
    }
}
