//! Replies as text.

ghost use Rattle.std.specs.Prelude.{◌≡◌, [], ◌∷◌, ◌++◌, OnOk, string_bytes};
ghost use Rattle.std.specs.List.{flat_map};
ghost use Rattle.map_types.specs.declared.reply.Reply.TheVariants as replies;
ghost use Rattle.map_report.specs.Text.{pair_text, reply_line, reply_text, stop_name};

use crate::lines::{Lines, Section};
use crate::piece::{Piece, push_decimal, push_hex};
use crate::words::errno_name;
use map_types::{Errno, Pairs, Reply};
use std::alloc::AllocError;

impl Piece for Reply {
    ghost shown = { reply_text };

    fn push_to(&self, text: &mut String) -> Result<(), AllocError> {
        match self {
            Reply::Done => text.push_str("ok"),
            Reply::Value(bytes) => {
                text.push_str("ok ")?;
                push_hex(text, bytes.as_slice())
            }
            Reply::Refused(errno) => text.push_str(errno_name(*errno)),
            Reply::Batch { stop, taken, next } => push_batch(text, *stop, taken, *next),
            Reply::Count { stop, done } => push_count(text, *stop, *done),
        }
    }
}

/// Adds why a batch read stopped, what it took, and the bucket at which the next one starts.
fn push_batch(
    text: &mut String,
    stop: Option<Errno>,
    taken: &Pairs,
    next: u32,
) -> Result<(), AllocError>
    ensures { OnOk result (string_bytes text.new
        ≡ string_bytes text.old ++ reply_text (replies.Batch stop taken.now next)) }
{
    text.push_str(stop_name(stop))?;
    text.push_str(" taken ")?;
    push_decimal(text, taken.len() as u64)?;
    text.push_str(" next ")?;
    push_decimal(text, next as u64)?;
    push_pairs(text, taken)
}

/// Adds why a batch write stopped, and how many entries it did.
fn push_count(text: &mut String, stop: Option<Errno>, done: u32) -> Result<(), AllocError>
    ensures { OnOk result (string_bytes text.new
        ≡ string_bytes text.old ++ reply_text (replies.Count stop done)) }
{
    text.push_str(stop_name(stop))?;
    text.push_str(" done ")?;
    push_decimal(text, done as u64)
}

/// Adds each pair, as ` KEY=VALUE`.
fn push_pairs(text: &mut String, pairs: &Pairs) -> Result<(), AllocError>
    ensures { OnOk result (string_bytes text.new
        ≡ string_bytes text.old ++ flat_map pair_text pairs.now) }
{
    for i in 0..pairs.len() {
        text.push_str(" ")?;
        push_hex(text, pairs.key(i))?;
        text.push_str("=")?;
        push_hex(text, pairs.value(i))?;
    }
    Ok(())
}

/// `ok`, or the name of the error at which a batch stopped.
pub(crate) fn stop_name(stop: Option<Errno>) -> &'static str
    ensures { result.now ≡ stop_name stop }
{
    match stop {
        None => "ok",
        Some(errno) => errno_name(errno),
    }
}

/// A reply with its number.
#[derive(Clone, Copy)]
struct Numbered<'a> {
    number: usize,
    reply: &'a Reply,
}

impl Piece for Numbered<'_> {
    ghost shown = { λ numbered. reply_line numbered.number numbered.reply.now };

    fn push_to(&self, text: &mut String) -> Result<(), AllocError> {
        push_decimal(text, self.number as u64)?;
        text.push_str(" ")?;
        self.reply.push_to(text)
    }
}

/// One line, with its number.
impl Section for Reply {
    ghost lines_at = { λ number reply. reply_line number reply ∷ [] };

    fn add_to<L: Lines>(&self, number: usize, lines: &mut L) -> Result<(), AllocError> {
        lines.add(&Numbered {
            number,
            reply: self,
        })
    }
}
