//! The replies of all CPUs, put together in the order of their calls.

ghost use Rattle.std.specs.Prelude.{◌≡◌, ◌≢◌, ◌<◌, ℕ, [], ◌∷◌, All, IfOk, MatchOption, length};
ghost use Rattle.map_types.specs.declared.call.Call.{Call};
ghost use Rattle.file_order.specs.Replies.{count_of, replies_by, replies_of};

use crate::ReplyQueue;
use map_types::{Call, NoMemory, Reply};
use std::alloc::Global;

/// The replies of all CPUs, in the order of the calls: each call has the first that is left of its CPU's.
pub fn in_file_order(
    alloc: Global,
    calls: &[Call],
    mut replies: Vec<ReplyQueue>,
) -> Result<Vec<Reply>, NoMemory>
    requires cpus { All (λ (call : Call). call.cpu < length replies.items) calls.now }
    requires counted { (cpu : ℕ) → cpu < length replies.items
        → length (replies_by cpu replies.items) ≡ count_of cpu calls.now }
    ensures count { IfOk result (λ all. length all.items ≡ length calls.now) }
    ensures each { IfOk result (λ all. (cpu : ℕ) → cpu < length replies.items
        → replies_of cpu calls.now all.items ≡ replies_by cpu replies.items) }
{
    let mut all = Vec::with_capacity(alloc, calls.len())?;
    for call in calls {
        let Some(reply) = next_reply(replies.as_mut_slice(), call.cpu) else {
            unreachable!()
        };
        all.push(reply)?;
    }
    Ok(all)
}

/// Takes the first of the replies of a CPU that are left, if there is one.
fn next_reply(replies: &mut [ReplyQueue], cpu: u32) -> Option<Reply>
    requires { cpu < length replies.old }
    ensures own { MatchOption result ((replies_by cpu replies.old ≡ []) × (replies_by cpu replies.new ≡ []))
        (λ reply. replies_by cpu replies.old ≡ reply ∷ replies_by cpu replies.new) }
    ensures others { (other : ℕ) → other ≢ cpu
        → replies_by other replies.new ≡ replies_by other replies.old }
{
    replies[cpu as usize].pop()
}
