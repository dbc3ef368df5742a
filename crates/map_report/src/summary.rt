//! The summary of a run.

ghost use Rattle.std.specs.Prelude.{◌≡◌, ◌++◌, IfOk, OnOk, codes, count_by, length, map};
ghost use Rattle.std.specs.List.{flat_map};
ghost use Rattle.map_report.specs.Summary.{element_lines, error_number, names, evicts, evicted, outcome_line, outcomes, present, summary_lines, summary, total_line};
ghost use Rattle.map_types.specs.Replies.{error_of};
ghost use Rattle.place_words.specs.Entries.{part_read};

use crate::lines::Lines;
use crate::piece::{Piece, push_number};
use crate::reply::stop_name;
use crate::text::{add_dump_if, add_history_if};
use crate::{Options, RunRecord};
use map_script::Script;
use map_types::{Errno, List, NoMemory, Reply};
use place_words::{Entries, Kept, LockHistory, PartAt, Seen};
use std::alloc::{AllocError, Global};

/// What is printed of a run in place of its replies: a line for the map, one for the number of calls, for `ok` and each
/// error one with the number of replies that name it (a batch's names that at which it stopped), one for the number of
/// elements that were evicted, and one for the number of those in buckets at the end. Then come what happened under each
/// lock and what the map holds at the end, where that is asked for, and `end`. `options.json` is not looked at. It fails
/// only where memory does, or a number would pass 2^64 - 1, which no memory holds.
#[tactic(auto, unfolding(crate::specs::Summary::summary))]
pub fn summary_of(
    alloc: Global,
    script: &Script,
    kept: &RunRecord,
    options: Options,
) -> Result<Vec<u8>, NoMemory>
    ensures { IfOk result (λ text. text.items ≡ summary script.now kept.now options) }
{
    let mut text = String::new(alloc);
    text.add(&script.shape)?;
    add_summary(&mut text, script, kept)?;
    add_history_if(&mut text, script.version, kept, options.history)?;
    add_dump_if(&mut text, &script.shape, &kept.finals, options.dump)?;
    text.push_str("end\n")?;
    Ok(text.into_bytes())
}

/// Adds the numbers of calls, of replies by the error that they name, of evicted elements and of present ones.
#[tactic(auto, unfolding(crate::specs::Summary::summary_lines))]
pub(crate) fn add_summary<L: Lines>(
    lines: &mut L,
    script: &Script,
    kept: &RunRecord,
) -> Result<(), AllocError>
    ensures { OnOk result (L.written lines.new
        ≡ L.written lines.old ++ flat_map L.line (summary_lines script.now kept.now)) }
{
    add_calls(lines, script)?;
    add_replies(lines, kept)?;
    add_elements(lines, kept)
}

/// Adds the number of calls.
fn add_calls<L: Lines>(lines: &mut L, script: &Script) -> Result<(), AllocError>
    ensures { OnOk result (L.written lines.new
        ≡ L.written lines.old ++ L.line (total_line (codes "calls") (length script.now.calls))) }
{
    add_total(lines, "calls", script.calls.len() as u64)
}

/// Adds the numbers of replies by the error that they name.
#[tactic(auto, unfolding(crate::specs::Summary::outcomes))]
fn add_replies<L: Lines>(lines: &mut L, kept: &RunRecord) -> Result<(), AllocError>
    ensures { OnOk result (L.written lines.new
        ≡ L.written lines.old ++ flat_map L.line (map (outcome_line kept.now.replies) outcomes)) }
{
    let errors = [
        None,
        Some(Errno::Einval),
        Some(Errno::Enoent),
        Some(Errno::Eexist),
        Some(Errno::E2big),
        Some(Errno::Enomem),
        Some(Errno::Enospc),
    ];
    add_outcomes(lines, kept, &errors)
}

/// Adds the numbers of evicted elements and of present ones.
fn add_elements<L: Lines>(lines: &mut L, kept: &RunRecord) -> Result<(), AllocError>
    ensures { OnOk result (L.written lines.new
        ≡ L.written lines.old ++ flat_map L.line (element_lines kept.now)) }
{
    add_total(lines, "evicted", evicted(kept.histories.as_slice())?)?;
    add_total(lines, "present", present(kept.finals.buckets.as_slice())?)
}

/// Adds a line for none or each of these errors, with the number of replies that name it.
fn add_outcomes<L: Lines>(
    lines: &mut L,
    kept: &RunRecord,
    errors: &[Option<Errno>],
) -> Result<(), AllocError>
    ensures { OnOk result (L.written lines.new
        ≡ L.written lines.old ++ flat_map L.line (map (outcome_line kept.now.replies) errors.now)) }
{
    for error in errors {
        let count = count_of(kept.replies.as_slice(), *error);
        add_total(lines, stop_name(*error), count)?;
    }
    Ok(())
}

/// Adds a word with a number.
fn add_total<L: Lines>(lines: &mut L, word: &str, total: u64) -> Result<(), AllocError>
    ensures { OnOk result (L.written lines.new
        ≡ L.written lines.old ++ L.line (total_line word.now total)) }
{
    lines.add(&Total { word, total })
}

/// A word with a number.
#[derive(Clone, Copy)]
struct Total<'a> {
    word: &'a str,
    total: u64,
}

impl Piece for Total<'_> {
    ghost shown = { λ total. total_line total.word.now total.total };

    fn push_to(&self, text: &mut String) -> Result<(), AllocError> {
        text.push_str(self.word)?;
        push_number(text, self.total)
    }
}

/// How many replies name this error, or none.
fn count_of(replies: &[Reply], error: Option<Errno>) -> u64
    ensures { result ≡ count_by (names error) replies.now }
{
    let mut count = 0;
    for reply in replies {
        if names(error, reply) {
            count += 1;
        }
    }
    count
}

/// Whether a reply names this error, or none.
fn names(error: Option<Errno>, reply: &Reply) -> bool
    ensures { result ≡ names error reply.now }
{
    error_number(error_of(reply)) == error_number(error)
}

/// The error that a reply names.
fn error_of(reply: &Reply) -> Option<Errno>
    ensures { result ≡ error_of reply.now }
{
    match reply {
        Reply::Done | Reply::Value(_) => None,
        Reply::Refused(errno) => Some(*errno),
        Reply::Batch { stop, .. } | Reply::Count { stop, .. } => *stop,
    }
}

/// The kernel's number of an error, and 0 for none.
fn error_number(error: Option<Errno>) -> u32
    ensures { result ≡ error_number error }
{
    match error {
        None => 0,
        Some(Errno::Enoent) => 2,
        Some(Errno::E2big) => 7,
        Some(Errno::Enomem) => 12,
        Some(Errno::Eexist) => 17,
        Some(Errno::Einval) => 22,
        Some(Errno::Enospc) => 28,
    }
}

/// How many elements were evicted.
fn evicted(histories: &[LockHistory]) -> Result<u64, AllocError>
    ensures { IfOk result (λ total. total ≡ evicted histories.now) }
{
    let mut total: u64 = 0;
    for history in histories {
        let count = evicted_in(&history.entries);
        total = total.checked_add(count).ok_or(AllocError)?;
    }
    Ok(total)
}

/// How many elements were evicted in these turns of a lock.
fn evicted_in(entries: &Entries) -> u64
    ensures { result ≡ count_by (λ entry. evicts entry.part) entries.now }
{
    let mut count = 0;
    for index in 0..entries.len() {
        if evicts(entries.at(index).part) {
            count += 1;
        }
    }
    count
}

/// Whether a turn took out an element, for another key.
fn evicts(part: PartAt<'_>) -> bool
    ensures { result ≡ evicts (part_read part.entry) }
{
    match part {
        PartAt::Bucket(packed) => matches!(packed.eviction(), Some((_, Seen::Removed))),
        _ => false,
    }
}

/// How many elements lie in buckets.
fn present(buckets: &[List<Kept>]) -> Result<u64, AllocError>
    ensures { IfOk result (λ total. total ≡ present buckets.now) }
{
    let mut total: u64 = 0;
    for bucket in buckets {
        total = total.checked_add(bucket.len() as u64).ok_or(AllocError)?;
    }
    Ok(total)
}
