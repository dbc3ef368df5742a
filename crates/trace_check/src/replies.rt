//! Whether a reply is the one that goes with what was read.

ghost use Rattle.std.specs.Prelude.{◌≡◌, ◌≢◌, MatchBool};
ghost use Rattle.map_types.specs.declared.reply.Reply.TheVariants as replies;
ghost use Rattle.place_words.specs.PlainTraces.{reply_of_gone, reply_of_got, reply_of_put};
ghost use Rattle.place_words.specs.Walks.{refused_with};

use map_types::{Bytes, Errno, Reply};
use place_words::Put;

/// Whether it is done, with nothing to give.
pub fn is_done(reply: &Reply) -> bool
    ensures { MatchBool result (reply.now ≡ replies.Done) (reply.now ≢ replies.Done) }
{
    matches!(reply, Reply::Done)
}

/// Whether it gives these bytes.
pub fn is_value(reply: &Reply, bytes: &[u8]) -> bool
    ensures { MatchBool result (reply.now ≡ replies.Value bytes.now) (reply.now ≢ replies.Value bytes.now) }
{
    match reply {
        Reply::Value(given) => given.as_slice() == bytes,
        _ => false,
    }
}

/// Whether it is refused with this error.
pub fn is_refused(reply: &Reply, errno: Errno) -> bool
    ensures { MatchBool result (reply.now ≡ replies.Refused errno) (reply.now ≢ replies.Refused errno) }
{
    match reply {
        Reply::Refused(given) => *given == errno,
        _ => false,
    }
}

/// Whether it goes with what a lookup got.
pub fn is_got(reply: &Reply, got: &Option<(u32, Bytes)>) -> bool
    ensures { MatchBool result (reply.now ≡ reply_of_got got.now) (reply.now ≢ reply_of_got got.now) }
{
    match got {
        None => is_refused(reply, Errno::Enoent),
        Some((_, value)) => is_value(reply, value.as_slice()),
    }
}

/// Whether it goes with what a delete took out.
pub(crate) fn is_gone(reply: &Reply, gone: Option<u32>) -> bool
    ensures { MatchBool result (reply.now ≡ reply_of_gone gone) (reply.now ≢ reply_of_gone gone) }
{
    match gone {
        None => is_refused(reply, Errno::Enoent),
        Some(_) => is_done(reply),
    }
}

/// The error with which an update is refused that puts this.
pub(crate) fn put_refusal(put: Put) -> Option<Errno>
    ensures { result ≡ refused_with (reply_of_put put) }
{
    match put {
        Put::Added(_) | Put::Replaced { .. } | Put::Written(_) => None,
        Put::Exists => Some(Errno::Eexist),
        Put::Absent => Some(Errno::Enoent),
        Put::Full => Some(Errno::E2big),
    }
}

/// Whether it goes with what an update put.
pub(crate) fn is_put(reply: &Reply, put: Put) -> bool
    ensures { MatchBool result (reply.now ≡ reply_of_put put) (reply.now ≢ reply_of_put put) }
{
    match put {
        Put::Added(_) | Put::Replaced { .. } | Put::Written(_) => is_done(reply),
        Put::Exists => is_refused(reply, Errno::Eexist),
        Put::Absent => is_refused(reply, Errno::Enoent),
        Put::Full => is_refused(reply, Errno::E2big),
    }
}

/// Whether two calls ended alike: with one error, or both with none.
pub fn is_same_error(told: Option<Errno>, read: Option<Errno>) -> bool
    ensures { MatchBool result (told ≡ read) (told ≢ read) }
{
    match (told, read) {
        (Some(one), Some(other)) => one == other,
        (None, None) => true,
        _ => false,
    }
}
