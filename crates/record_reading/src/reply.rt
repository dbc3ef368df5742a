//! Lines of replies.

ghost use Rattle.std.specs.Prelude.{◌≡◌, ◌++◌, IfOk, MatchOption, None, Option, Some, codes, decimal};
ghost use Rattle.map_types.specs.Creation.{IsShape};
ghost use Rattle.map_types.specs.declared.reply.Reply.TheVariants as replies;
ghost use Rattle.map_types.specs.declared.refusal.Errno as errors;
ghost use Rattle.record_reading.specs.Answers.{answer_of, reply_of};
ghost use Rattle.record_reading.specs.BucketReaders.{value};
ghost use Rattle.record_reading.specs.Readers.{behind, bytes, made, whole};
ghost use Rattle.record_reading.specs.ReplyReaders.{TakenPart, batch, count_done, errno, plain, stop_part, told_by, value_behind};
ghost use Rattle.record_shape.specs.ShapedParts.{pair_side};

use crate::hexadecimal::bytes;
use crate::numbers::{number, u32_number};
use crate::pairs::pairs;
use crate::to_end::some_bytes;
use crate::values::value;
use crate::words::behind;
use itoa::Buffer;
use map_types::{Bytes, Call, Errno, NoMemory, Pairs, Reply, Shape, Side, Verb};
use std::alloc::Global;

/// `N REPLY`: the reply to the call of this number.
#[tactic(auto, unfolding(crate::specs::ReplyReaders::reply))]
pub(crate) fn reply_line(
    alloc: Global,
    shape: &Shape,
    number: u32,
    call: &Call,
    line: &[u8],
) -> Result<Option<Reply>, NoMemory>
    requires { IsShape shape.now }
    ensures { IfOk result (λ found. found ≡ reply_of shape.now (number, call.now) line.now) }
{
    let Some(text) = behind_call(number, line) else {
        return Ok(None);
    };
    let Some((stop, rest)) = stop_part(text) else {
        return Ok(None);
    };
    told_by(alloc, shape, &call.verb, stop, rest)
}

/// What stands behind a call's number and a blank.
#[tactic(auto, using(crate::proofs::NameLemmas::behind_neither, crate::proofs::NameLemmas::behind_then))]
fn behind_call(number: u32, line: &[u8]) -> Option<&[u8]>
    ensures { MatchOption result (behind (decimal number ++ codes " ") line.now ≡ None)
        (λ rest. behind (decimal number ++ codes " ") line.now ≡ Some rest.now) }
{
    let mut digits = Buffer::new();
    let Some(rest) = behind(line, digits.format(number).as_bytes()) else {
        return None;
    };
    behind(rest, b" ")
}

/// `ok`, or the error at which a call stopped.
#[tactic(auto, unfolding(crate::specs::ReplyReaders::stop_part, crate::specs::Readers::or_else))]
fn stop_part(text: &[u8]) -> Option<(Option<Errno>, &[u8])>
    ensures { MatchOption result (stop_part text.now ≡ None)
        (λ f. stop_part text.now ≡ Some (f.0, f.1.now)) }
{
    if let Some(rest) = behind(text, b"ok") {
        return Some((None, rest));
    }
    let (errno, rest) = errno(text)?;
    Some((Some(errno), rest))
}

/// The name of an error.
#[tactic(auto, unfolding(crate::specs::ReplyReaders::errno, crate::specs::Readers::or_else))]
fn errno(text: &[u8]) -> Option<(Errno, &[u8])>
    ensures { MatchOption result (errno text.now ≡ None)
        (λ f. errno text.now ≡ Some (f.0, f.1.now)) }
{
    if let Some(rest) = behind(text, b"enoent") {
        return Some((Errno::Enoent, rest));
    }
    if let Some(rest) = behind(text, b"e2big") {
        return Some((Errno::E2big, rest));
    }
    if let Some(rest) = behind(text, b"enomem") {
        return Some((Errno::Enomem, rest));
    }
    if let Some(rest) = behind(text, b"eexist") {
        return Some((Errno::Eexist, rest));
    }
    if let Some(rest) = behind(text, b"einval") {
        return Some((Errno::Einval, rest));
    }
    let rest = behind(text, b"enospc")?;
    Some((Errno::Enospc, rest))
}

/// What is told behind `ok` or an error: nothing, what a batch took, how many entries it did, or a value.
#[tactic(auto, unfolding(crate::specs::Readers::or_else))]
fn told_by(
    alloc: Global,
    shape: &Shape,
    verb: &Verb,
    stop: Option<Errno>,
    text: &[u8],
) -> Result<Option<Reply>, NoMemory>
    requires { IsShape shape.now }
    ensures { IfOk result (λ found. found ≡ told_by shape.now (pair_side verb.now) (answer_of shape.now verb.now) stop text.now) }
{
    if text.is_empty() {
        return Ok(Some(plain(stop)));
    }
    if let Some(found) = batch_reply(alloc, shape, pair_side(verb), stop, text)? {
        return Ok(Some(found));
    }
    if let Some(found) = count_reply(stop, text) {
        return Ok(Some(found));
    }
    value_behind(alloc, shape, verb, stop, text)
}

/// A refusal, or that it is done.
fn plain(stop: Option<Errno>) -> Reply
    ensures { result ≡ plain stop }
{
    match stop {
        Some(errno) => Reply::Refused(errno),
        None => Reply::Done,
    }
}

/// The side of the values in the pairs that a call answers: a walk over all elements hands over what a program reads.
fn pair_side(verb: &Verb) -> Side
    ensures { result ≡ pair_side verb.now }
{
    match verb {
        Verb::Each { .. } => Side::Prog,
        Verb::Lookup { .. }
        | Verb::Take { .. }
        | Verb::Next { .. }
        | Verb::Update { .. }
        | Verb::Delete { .. }
        | Verb::BatchRead { .. }
        | Verb::BatchUpdate { .. }
        | Verb::BatchDelete { .. } => Side::Sys,
    }
}

/// What a batch took, to the end of a line, and the bucket at which the next one starts.
#[tactic(auto, unfolding(crate::specs::ReplyReaders::batch))]
fn batch_reply(
    alloc: Global,
    shape: &Shape,
    side: Side,
    stop: Option<Errno>,
    text: &[u8],
) -> Result<Option<Reply>, NoMemory>
    requires { IsShape shape.now }
    ensures { IfOk result (λ found. whole (made (λ (x : TakenPart). replies.Batch stop x.1.1 x.1.0) (batch shape.now side)) text.now ≡ found) }
{
    let Some(rest) = behind(text, b" taken ") else {
        return Ok(None);
    };
    let Some((count, rest)) = number(rest) else {
        return Ok(None);
    };
    let Some(rest) = behind(rest, b" next ") else {
        return Ok(None);
    };
    let Some((next, rest)) = u32_number(rest) else {
        return Ok(None);
    };
    let Some((taken, rest)) = pairs(alloc, shape, side, rest, count)? else {
        return Ok(None);
    };
    if !rest.is_empty() {
        return Ok(None);
    }
    Ok(Some(Reply::Batch { stop, taken, next }))
}

/// How many entries a batch write did, to the end of a line.
#[tactic(auto, unfolding(crate::specs::ReplyReaders::count_done))]
fn count_reply(stop: Option<Errno>, text: &[u8]) -> Option<Reply>
    ensures { whole (made (replies.Count stop) count_done) text.now ≡ result }
{
    let (done, rest) = u32_number(behind(text, b" done ")?)?;
    if !rest.is_empty() {
        return None;
    }
    Some(Reply::Count { stop, done })
}

/// The value that a call answers, behind a blank.
fn value_behind(
    alloc: Global,
    shape: &Shape,
    verb: &Verb,
    stop: Option<Errno>,
    text: &[u8],
) -> Result<Option<Reply>, NoMemory>
    requires { IsShape shape.now }
    ensures { IfOk result (λ found. value_behind (answer_of shape.now verb.now) stop text.now ≡ found) }
{
    if stop.is_some() {
        return Ok(None);
    }
    let Some(rest) = behind(text, b" ") else {
        return Ok(None);
    };
    let Some(value) = answer_of(alloc, shape, verb, rest)? else {
        return Ok(None);
    };
    Ok(Some(Reply::Value(value)))
}

/// What a call that does this may answer as its value.
fn answer_of(
    alloc: Global,
    shape: &Shape,
    verb: &Verb,
    text: &[u8],
) -> Result<Option<Bytes>, NoMemory>
    requires { IsShape shape.now }
    ensures { IfOk result (λ found. found ≡ answer_of shape.now verb.now text.now) }
{
    match verb {
        Verb::Lookup { side, .. } => whole_value(alloc, shape, *side, text),
        Verb::Take { .. } => whole_value(alloc, shape, Side::Sys, text),
        Verb::Next { .. } => whole_key(alloc, shape, text),
        Verb::Update { .. }
        | Verb::Delete { .. }
        | Verb::BatchRead { .. }
        | Verb::BatchUpdate { .. }
        | Verb::BatchDelete { .. }
        | Verb::Each { .. } => some_bytes(alloc, text),
    }
}

/// A value as a side reads it, to the end of a line.
fn whole_value(
    alloc: Global,
    shape: &Shape,
    side: Side,
    text: &[u8],
) -> Result<Option<Bytes>, NoMemory>
    requires { IsShape shape.now }
    ensures { IfOk result (λ found. whole (value shape.now side) text.now ≡ found) }
{
    let Some((value, rest)) = value(alloc, shape, side, text)? else {
        return Ok(None);
    };
    if !rest.is_empty() {
        return Ok(None);
    }
    Ok(Some(value))
}

/// A key, to the end of a line.
fn whole_key(alloc: Global, shape: &Shape, text: &[u8]) -> Result<Option<Bytes>, NoMemory>
    ensures { IfOk result (λ found. whole (bytes shape.now.key_size) text.now ≡ found) }
{
    let Some((key, rest)) = bytes(alloc, text, shape.key_size as usize)? else {
        return Ok(None);
    };
    if !rest.is_empty() {
        return Ok(None);
    }
    Ok(Some(key))
}
