//! The replies.

ghost use Rattle.std.specs.Prelude.{◌≡◌, ◌≤◌, IfOk, length};
ghost use Rattle.map_types.specs.Creation.{IsShape};
ghost use Rattle.record_reading.specs.Answers.{reply_of};
ghost use Rattle.record_reading.specs.Outcomes.{Reads};
ghost use Rattle.record_reading.specs.RecordReaders.{replies_section};
ghost use Rattle.record_reading.specs.Sections.{one_line};

use crate::lines::Lines;
use crate::reply::reply_line;
use map_script::Script;
use map_types::{Call, List, NoMemory, Reply, Shape};
use std::alloc::Global;

/// The reply to a call.
#[tactic(auto, using(crate::proofs::LineLemmas::line_found, crate::proofs::LineLemmas::line_other, crate::proofs::LineLemmas::line_missing))]
fn read_reply(
    alloc: Global,
    shape: &Shape,
    number: u32,
    call: &Call,
    lines: &mut Lines,
) -> Result<Option<Reply>, NoMemory>
    requires { IsShape shape.now }
    ensures lines { IfOk result (Reads (one_line (reply_of shape.now (number, call.now)))
        lines.old.0 lines.new.0) }
    ensures rest { lines.new.1 ≡ lines.old.1 }
{
    let Some(line) = lines.first() else {
        return Ok(None);
    };
    let Some(reply) = reply_line(alloc, shape, number, call, line)? else {
        return Ok(None);
    };
    lines.pass();
    Ok(Some(reply))
}

/// The reply to each call, in the order of the calls.
#[tactic(auto, using(crate::proofs::ReplyLemmas::replies_more, crate::proofs::ReplyLemmas::replies_none, crate::proofs::ReplyLemmas::replies_done))]
pub(crate) fn read_replies(
    alloc: Global,
    script: &Script,
    lines: &mut Lines,
) -> Result<Option<List<Reply>>, NoMemory>
    requires shape { IsShape script.now.shape }
    requires few { length script.now.calls ≤ 200000 }
    ensures lines { IfOk result (Reads (replies_section script.now) lines.old.0 lines.new.0) }
    ensures rest { lines.new.1 ≡ lines.old.1 }
{
    let calls = script.calls.as_slice();
    let mut replies = List::of(Vec::new(alloc));
    for index in 0..calls.len() {
        let number = index as u32 + 1;
        let Some(reply) = read_reply(alloc, &script.shape, number, &calls[index], lines)? else {
            return Ok(None);
        };
        replies.push(reply)?;
    }
    Ok(Some(replies))
}
