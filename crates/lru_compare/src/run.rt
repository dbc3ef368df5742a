//! Runs of whole scripts with strict recency.

ghost use Rattle.std.specs.Prelude.{◌≡◌, ◌<◌, length, position, Err, IfOk, IfSome, MatchOption};
ghost use Rattle.lru_compare.specs.Law.{HasRoomForAll};
ghost use Rattle.lru_compare.specs.Run.{is_other, refused, strict, IsStrictRun};
ghost use Rattle.lru_compare.specs.Strict.{is_asked};
ghost use Rattle.map_report.specs.Runs.{serial};
ghost use Rattle.map_script.specs.WellFormed.{IsWellFormed};

use crate::cache::{Strict, replies_of};
use map_script::Script;
use map_types::{Call, List, MapKind, NoMemory, Reply, Verb};
use std::alloc::Global;
use thiserror::Error;

/// What a run with strict recency answers.
#[derive(Drop)]
pub struct StrictOut {
    /// One reply for each call, in order.
    pub replies: List<Reply>,
    /// How many pairs were evicted.
    pub evicted: u32,
}

/// Why a script isn't run with strict recency.
#[derive(Clone, Copy, Debug, PartialEq, Eq, Error)]
pub enum StrictRefusal {
    /// The map isn't of kind LRU_HASH.
    #[error("Kind")]
    Kind,
    /// This is the first call that is no lookup, update, delete or take. Calls are counted from 1.
    #[error("Verb")]
    Verb { call: u32 },
    /// Memory was not found.
    #[error("NoMemory")]
    NoMemory,
}

/// Makes the calls of a script, one after another, on a map that always evicts the pair that was used least recently. A pair is
/// used by an update that isn't refused, and by a program's lookup that finds it, but not by the system call's. The map has
/// room for as many pairs as the script's, and evicts where it is full and takes a new key. A script that isn't run is never
/// answered with want of memory.
pub fn strict_run(alloc: Global, script: &Script) -> Result<StrictOut, StrictRefusal>
    requires { IsWellFormed script.now }
    ensures run { MatchOption (refused script.now) (IsStrictRun script.now result)
        (λ refusal. result ≡ Err refusal) }
    // Where both have room for all keys, the replies are those of the run by the kernel's policy.
    ensures alike { HasRoomForAll script.now
        → IfOk result (λ out. out.replies ≡ (serial script.now).replies) }
{
    match refused(script) {
        Some(refusal) => Err(refusal),
        None => match run(alloc, script) {
            Ok(out) => Ok(out),
            Err(_) => Err(StrictRefusal::NoMemory),
        },
    }
}

/// Why the script isn't run.
fn refused(script: &Script) -> Option<StrictRefusal>
    requires { IsWellFormed script.now }
    ensures { result ≡ refused script.now }
{
    match script.shape.kind {
        MapKind::LruHash => match first_unasked(script.calls.as_slice()) {
            Some(place) => Some(StrictRefusal::Verb {
                call: place as u32 + 1,
            }),
            None => None,
        },
        _ => Some(StrictRefusal::Kind),
    }
}

/// The place of the first call that is no lookup, update, delete or take.
fn first_unasked(calls: &[Call]) -> Option<usize>
    ensures exact { result ≡ position is_other calls.now }
    ensures within { IfSome result (λ place. place < length calls.now) }
{
    calls.iter().position(|call| !is_asked(&call.verb))
}

/// Whether a call is a lookup, an update, a delete or a take.
fn is_asked(verb: &Verb) -> bool
    ensures { result ≡ is_asked verb.now }
{
    match verb {
        Verb::Lookup { .. } | Verb::Update { .. } | Verb::Delete { .. } | Verb::Take { .. } => true,
        Verb::Next { .. }
        | Verb::BatchRead { .. }
        | Verb::BatchUpdate { .. }
        | Verb::BatchDelete { .. }
        | Verb::Each { .. } => false,
    }
}

/// The run of a script.
fn run(alloc: Global, script: &Script) -> Result<StrictOut, NoMemory>
    requires { IsWellFormed script.now }
    ensures { IfOk result (λ out. out ≡ strict script.now) }
{
    let mut cache = Strict::new(alloc, script.shape.capacity)?;
    let replies = replies_of(alloc, &mut cache, script.calls.as_slice())?;
    Ok(StrictOut {
        replies: List::of(replies),
        evicted: cache.evicted(),
    })
}
