//! The lines that say what came of a copy.

ghost use Rattle.std.specs.Prelude.{◌≡◌, ◌++◌, IfOk, OnOk, decimal, string_bytes};
ghost use Rattle.std.specs.List.{flat_map};
ghost use Rattle.copy_report.specs.CopyText.{copied, done_by, outcome_lines, stop_line, stop_of, stop_text, target_line};
ghost use Rattle.map_report.specs.Summary.{total_line};
ghost use Rattle.map_report.specs.Text.{ended};
ghost use Rattle.map_types.specs.Replies.{error_of};

use map_report::{errno_name, push_shape};
use map_types::{Errno, Reply, Shape};
use std::alloc::AllocError;
use std::fmt::Write;

/// Adds which map the target is, how many reads of the source were made, how many entries the puts did, and the error of the put
/// that stopped.
pub(crate) fn add_outcome(
    text: &mut String,
    shape: &Shape,
    reads: &[Reply],
    puts: &[Reply],
) -> Result<(), AllocError>
    ensures { OnOk result (string_bytes text.new
        ≡ string_bytes text.old ++ flat_map ended (outcome_lines shape.now reads.now puts.now)) }
{
    add_target_line(text, shape)?;
    add_total(text, "reads", reads.len() as u64)?;
    add_total(text, "copied", copied(puts)?)?;
    add_stop(text, stop_of(puts))
}

/// Adds the line of the target.
fn add_target_line(text: &mut String, shape: &Shape) -> Result<(), AllocError>
    ensures { OnOk result (string_bytes text.new
        ≡ string_bytes text.old ++ ended (target_line shape.now)) }
{
    push_shape(text, "target ", shape)?;
    text.push_str("\n")
}

/// Adds a line of a word and a number.
fn add_total(text: &mut String, word: &str, total: u64) -> Result<(), AllocError>
    ensures { OnOk result (string_bytes text.new
        ≡ string_bytes text.old ++ ended (total_line word.now total)) }
{
    text.push_str(word)?;
    text.push_str(" ")?;
    push_decimal(text, total)?;
    text.push_str("\n")
}

/// Adds a number in decimal digits.
fn push_decimal(text: &mut String, number: u64) -> Result<(), AllocError>
    ensures { OnOk result (string_bytes text.new ≡ string_bytes text.old ++ decimal number) }
{
    write!(text, "{number}")
}

/// Adds the line of the error at which a put stopped, or of none.
fn add_stop(text: &mut String, stop: Option<Errno>) -> Result<(), AllocError>
    ensures { OnOk result (string_bytes text.new
        ≡ string_bytes text.old ++ ended (stop_line stop)) }
{
    text.push_str("stop ")?;
    text.push_str(stop_text(stop))?;
    text.push_str("\n")
}

/// The name of an error, and `-` where there is none.
fn stop_text(stop: Option<Errno>) -> &'static str
    ensures { result.now ≡ stop_text stop }
{
    match stop {
        None => "-",
        Some(errno) => errno_name(errno),
    }
}

/// How many entries the puts did.
fn copied(puts: &[Reply]) -> Result<u64, AllocError>
    ensures { IfOk result (λ total. total ≡ copied puts.now) }
{
    let mut total: u64 = 0;
    for put in puts {
        total = total.checked_add(done_by(put) as u64).ok_or(AllocError)?;
    }
    Ok(total)
}

/// How many entries a put did.
fn done_by(put: &Reply) -> u32
    ensures { result ≡ done_by put.now }
{
    match put {
        Reply::Count { done, .. } => *done,
        _ => 0,
    }
}

/// The error of the first put that stopped, where one did.
fn stop_of(puts: &[Reply]) -> Option<Errno>
    ensures { result ≡ stop_of puts.now }
{
    for put in puts {
        let stop = error_of(put);
        if stop.is_some() {
            return stop;
        }
    }
    None
}

/// The error that a reply names.
fn error_of(reply: &Reply) -> Option<Errno>
    ensures { result ≡ error_of reply.now }
{
    match reply {
        Reply::Done | Reply::Value(_) => None,
        Reply::Refused(errno) => Some(*errno),
        Reply::Batch { stop, .. } | Reply::Count { stop, .. } => *stop,
    }
}
