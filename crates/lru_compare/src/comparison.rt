//! What is printed of a script's run beside its run with strict recency.

ghost use Rattle.std.specs.Prelude.{◌≡◌, ◌++◌, IfOk, OnOk, Some, codes, count_by, decimal, string_bytes};
ghost use Rattle.lru_compare.specs.Comparison.{are_equal, comparison, count_text, gives, hits, is_done, is_hit, is_lookup, is_value, lookups, map_text, refuses, same};
ghost use Rattle.map_report.specs.Summary.{error_number, evicted, evicts};
ghost use Rattle.map_report.specs.Words.{number_text};
ghost use Rattle.place_words.specs.Entries.{part_read};

use crate::StrictOut;
use map_report::RunRecord;
use map_script::Script;
use map_types::{Call, Errno, NoMemory, Reply, Verb};
use place_words::{Entries, LockHistory, PartAt, Seen};
use std::alloc::{AllocError, Global};
use std::fmt::Write;

/// What is printed of a script's run and of what its run with strict recency answered: the capacity, the number of lookups of
/// either side, for each of the two maps how many of them answered a value and how many elements or pairs it evicted, and how
/// many calls both answered alike. It fails only where memory does, or a number would pass 2^64 - 1, which no memory holds.
#[tactic(auto, unfolding(crate::specs::Comparison::comparison))]
pub fn comparison_of(
    alloc: Global,
    script: &Script,
    kept: &RunRecord,
    strict: &StrictOut,
) -> Result<Vec<u8>, NoMemory>
    ensures { IfOk result (λ text. text.items ≡ comparison script.now kept.now strict.now) }
{
    let calls = script.calls.as_slice();
    let found = hits(calls, kept.replies.as_slice());
    let evictions = evicted(kept.histories.as_slice())?;
    let found_strictly = hits(calls, strict.replies.as_slice());
    let alike = same(kept.replies.as_slice(), strict.replies.as_slice());
    let mut text = String::new(alloc);
    push_count(&mut text, "compare capacity", script.shape.capacity as u64)?;
    push_count(&mut text, "lookups", lookups(calls))?;
    push_map(&mut text, "map", found, evictions)?;
    push_map(&mut text, "strict", found_strictly, strict.evicted as u64)?;
    push_count(&mut text, "same", alike)?;
    text.push_str("end\n")?;
    Ok(text.into_bytes())
}

/// Adds a line of a word and a number.
#[tactic(auto, unfolding(crate::specs::Comparison::count_text))]
fn push_count(text: &mut String, word: &str, count: u64) -> Result<(), AllocError>
    ensures { OnOk result (string_bytes text.new ≡ string_bytes text.old ++ count_text word.now count) }
{
    text.push_str(word)?;
    push_number(text, count)?;
    text.push_str("\n")
}

/// Adds a line of a map: how many lookups found their key in it, and how many elements or pairs it evicted.
#[tactic(auto, unfolding(crate::specs::Comparison::map_text))]
fn push_map(text: &mut String, word: &str, found: u64, evicted: u64) -> Result<(), AllocError>
    ensures { OnOk result (string_bytes text.new ≡ string_bytes text.old ++ map_text word.now found evicted) }
{
    text.push_str(word)?;
    text.push_str(" hits")?;
    push_number(text, found)?;
    text.push_str(" evicted")?;
    push_number(text, evicted)?;
    text.push_str("\n")
}

/// Adds a number behind a blank.
fn push_number(text: &mut String, number: u64) -> Result<(), AllocError>
    ensures { OnOk result (string_bytes text.new ≡ string_bytes text.old ++ number_text number) }
{
    text.push_str(" ")?;
    push_decimal(text, number)
}

/// Adds a number in decimal digits.
fn push_decimal(text: &mut String, number: u64) -> Result<(), AllocError>
    ensures { OnOk result (string_bytes text.new ≡ string_bytes text.old ++ decimal number) }
{
    write!(text, "{number}")
}

/// How many of the calls are lookups.
fn lookups(calls: &[Call]) -> u64
    ensures { result ≡ lookups calls.now }
{
    let mut count = 0;
    for call in calls {
        if is_lookup(&call.verb) {
            count += 1;
        }
    }
    count
}

/// Whether a call is a lookup, of either side.
fn is_lookup(verb: &Verb) -> bool
    ensures { result ≡ is_lookup verb.now }
{
    matches!(verb, Verb::Lookup { .. })
}

/// Whether a reply is a value.
fn is_value(reply: &Reply) -> bool
    ensures { result ≡ is_value reply.now }
{
    matches!(reply, Reply::Value(_))
}

/// Whether a call is a lookup that answered a value.
fn is_hit(call: &Call, reply: &Reply) -> bool
    ensures { result ≡ is_hit (call.now, reply.now) }
{
    is_lookup(&call.verb) && is_value(reply)
}

/// How many lookups answered a value.
fn hits(calls: &[Call], replies: &[Reply]) -> u64
    ensures { result ≡ hits calls.now replies.now }
{
    let mut count = 0;
    for (call, reply) in calls.iter().zip(replies) {
        if is_hit(call, reply) {
            count += 1;
        }
    }
    count
}

/// Whether a reply gives no more than that the call is done.
fn is_done(reply: &Reply) -> bool
    ensures { result ≡ is_done reply.now }
{
    matches!(reply, Reply::Done)
}

/// Whether a reply gives this value.
fn gives(value: &[u8], reply: &Reply) -> bool
    ensures { result ≡ gives value.now reply.now }
{
    match reply {
        Reply::Value(other) => value == other.as_slice(),
        _ => false,
    }
}

/// Whether a reply refuses a call with this error.
fn refuses(errno: Errno, reply: &Reply) -> bool
    ensures { result ≡ refuses errno reply.now }
{
    match reply {
        Reply::Refused(other) => error_number(errno) == error_number(*other),
        _ => false,
    }
}

/// The kernel's number of an error.
fn error_number(errno: Errno) -> u32
    ensures { result ≡ error_number (Some errno) }
{
    errno as u32
}

/// Whether two replies of a lookup, an update, a delete or a take are equal.
fn are_equal(reply: &Reply, other: &Reply) -> bool
    ensures { result ≡ are_equal reply.now other.now }
{
    match reply {
        Reply::Done => is_done(other),
        Reply::Value(value) => gives(value.as_slice(), other),
        Reply::Refused(errno) => refuses(*errno, other),
        Reply::Batch { .. } | Reply::Count { .. } => false,
    }
}

/// How many calls have equal replies.
fn same(replies: &[Reply], others: &[Reply]) -> u64
    ensures { result ≡ same replies.now others.now }
{
    let mut count = 0;
    for (reply, other) in replies.iter().zip(others) {
        if are_equal(reply, other) {
            count += 1;
        }
    }
    count
}

/// How many elements were evicted.
fn evicted(histories: &[LockHistory]) -> Result<u64, AllocError>
    ensures { IfOk result (λ total. total ≡ evicted histories.now) }
{
    let mut total: u64 = 0;
    for history in histories {
        let count = evicted_in(&history.entries);
        total = total.checked_add(count).ok_or(AllocError)?;
    }
    Ok(total)
}

/// How many elements were evicted in these turns of a lock.
fn evicted_in(entries: &Entries) -> u64
    ensures { result ≡ count_by (λ entry. evicts entry.part) entries.now }
{
    let mut count = 0;
    for index in 0..entries.len() {
        if evicts(entries.at(index).part) {
            count += 1;
        }
    }
    count
}

/// Whether a turn took out an element, for another key.
fn evicts(part: PartAt<'_>) -> bool
    ensures { result ≡ evicts (part_read part.entry) }
{
    match part {
        PartAt::Bucket(packed) => matches!(packed.eviction(), Some((_, Seen::Removed))),
        _ => false,
    }
}
