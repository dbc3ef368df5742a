//! Replies that are taken in the order in which they were added.

ghost use Rattle.std.specs.Prelude.{◌≡◌, ◌∷◌, ◌++◌, [], OnOk, MatchOption};

use map_types::{NoMemory, Reply};
use std::alloc::Global;
use std::collections::VecDeque;
use std::marker::Model;

/// Replies, first in, first out. Contracts see them as a list.
#[derive(Drop)]
pub struct ReplyQueue {
    replies: VecDeque<Reply>,
}

impl Model for ReplyQueue {
    ghost use Rattle.std.specs.Prelude.{List};
    ghost use Rattle.map_types.specs.declared.reply.Reply.{Reply};

    ghost Value = { List Reply };

    ghost view = { λ q. q.replies.items };
}

impl ReplyQueue {
    /// No replies.
    pub fn new(alloc: Global) -> ReplyQueue
        ensures { result ≡ [] }
    {
        ReplyQueue {
            replies: VecDeque::new(alloc),
        }
    }

    /// Adds one behind the others.
    pub fn push(&mut self, reply: Reply) -> Result<(), NoMemory>
        ensures { OnOk result (self.new ≡ self.old ++ reply ∷ []) }
    {
        self.replies.push_back(reply)?;
        Ok(())
    }

    /// Takes the first, if there is one.
    pub fn pop(&mut self) -> Option<Reply>
        ensures { MatchOption result ((self.old ≡ []) × (self.new ≡ [])) (λ reply. self.old ≡ reply ∷ self.new) }
    {
        self.replies.pop_front()
    }
}
