//! The lines of what a map holds.

ghost use Rattle.std.specs.Prelude.{◌≡◌, ◌++◌, IfOk, MatchOption, None, Some, codes};
ghost use Rattle.map_types.specs.Creation.{IsShape};
ghost use Rattle.map_types.specs.Sides.{part_count};
ghost use Rattle.map_report.specs.Words.{lock_name};
ghost use Rattle.record_reading.specs.DumpReaders.{cursor_part, list_named, spare_part, steal_part, stored_part};
ghost use Rattle.record_reading.specs.LineReaders.{marks};
ghost use Rattle.record_reading.specs.Readers.{after, behind, bytes, whole, word_then};

use crate::hexadecimal::bytes;
use crate::lock_names::{behind_name, behind_numbered};
use crate::many::{Readable, times};
use crate::numbers::{element_text, option_text, u32_text};
use crate::to_end::{ascends, numbers_to_end};
use crate::values::key_text;
use crate::words::behind;
use map_types::{Bytes, DomainId, NoMemory, Numbers, Shape};
use place_words::{Kept, KeptValues};
use std::alloc::Global;

/// A value of one part, behind a blank.
impl Readable for Bytes {
    ghost front = { λ shape. after (codes " ") (bytes shape.value_size) };

    fn read<'a>(
        alloc: Global,
        shape: &Shape,
        text: &'a [u8],
    ) -> Result<Option<(Bytes, &'a [u8])>, NoMemory> {
        match behind(text, b" ") {
            Some(rest) => bytes(alloc, rest, shape.value_size as usize),
            None => Ok(None),
        }
    }
}

/// `bucket B E KEY`, and a value for each part.
#[tactic(auto, unfolding(crate::specs::DumpReaders::stored_part))]
pub(crate) fn stored_line(
    alloc: Global,
    shape: &Shape,
    bucket: u32,
    line: &[u8],
) -> Result<Option<Kept>, NoMemory>
    requires { IsShape shape.now }
    ensures { IfOk result (λ found. found ≡ whole (stored_part shape.now bucket) line.now) }
{
    let Some(rest) = behind_name(line, DomainId::Bucket(bucket)) else {
        return Ok(None);
    };
    let Some((element, rest)) = element_text(shape, rest) else {
        return Ok(None);
    };
    let Some((key, rest)) = key_text(alloc, shape, rest)? else {
        return Ok(None);
    };
    let Some((values, rest)) = times::<Bytes>(alloc, shape, rest, part_count(shape) as u64)? else {
        return Ok(None);
    };
    if !rest.is_empty() {
        return Ok(None);
    }
    Ok(Some(Kept {
        element,
        key,
        values: KeptValues::each(values),
    }))
}

/// How many parts the values of an element have.
fn part_count(shape: &Shape) -> u32
    ensures { result ≡ part_count shape.now }
{
    if shape.kind.is_percpu() {
        shape.cpus
    } else {
        1
    }
}

/// What stands behind a lock's name and a word.
#[tactic(auto, using(crate::proofs::NameLemmas::behind_neither, crate::proofs::NameLemmas::behind_then))]
fn behind_list<'a>(text: &'a [u8], lock: DomainId, word: &[u8]) -> Option<&'a [u8]>
    ensures { MatchOption result (behind (lock_name lock ++ word.now) text.now ≡ None)
        (λ rest. behind (lock_name lock ++ word.now) text.now ≡ Some rest.now) }
{
    let Some(rest) = behind_name(text, lock) else {
        return None;
    };
    behind(rest, word)
}

/// A list under a lock, by the lock's name and a word.
#[tactic(auto, unfolding(crate::specs::DumpReaders::list_named))]
pub(crate) fn list_line(
    alloc: Global,
    shape: &Shape,
    lock: DomainId,
    word: &[u8],
    line: &[u8],
) -> Result<Option<Numbers>, NoMemory>
    ensures { IfOk result
        (λ found. found ≡ list_named shape.now (lock_name lock ++ word.now) line.now) }
{
    match behind_list(line, lock, word) {
        Some(rest) => numbers_to_end(alloc, shape.elements, rest),
        None => Ok(None),
    }
}

/// `spare C E`.
#[tactic(auto, unfolding(crate::specs::DumpReaders::spare_part))]
pub(crate) fn spare_line(shape: &Shape, cpu: u32, line: &[u8]) -> Option<u32>
    ensures { result ≡ spare_part shape.now cpu line.now }
{
    let Some(rest) = behind_numbered(line, b"spare", cpu) else {
        return None;
    };
    let Some((element, rest)) = element_text(shape, rest) else {
        return None;
    };
    if rest.is_empty() { Some(element) } else { None }
}

/// Where the cursor of the lists under a lock stands.
#[tactic(auto, unfolding(crate::specs::DumpReaders::cursor_part))]
pub(crate) fn cursor_line(shape: &Shape, lock: DomainId, line: &[u8]) -> Option<Option<u32>>
    ensures { result ≡ cursor_part shape.now (lock_name lock) line.now }
{
    let Some(rest) = behind_list(line, lock, b" cursor") else {
        return None;
    };
    let Some((cursor, rest)) = option_text(shape, rest) else {
        return None;
    };
    if rest.is_empty() { Some(cursor) } else { None }
}

/// The CPU from which a CPU steals next.
#[tactic(auto, unfolding(crate::specs::DumpReaders::steal_part))]
pub(crate) fn steal_line(lock: DomainId, line: &[u8]) -> Option<u32>
    ensures { result ≡ steal_part (lock_name lock) line.now }
{
    let Some(rest) = behind_list(line, lock, b" steal") else {
        return None;
    };
    let Some((cpu, rest)) = u32_text(rest) else {
        return None;
    };
    if rest.is_empty() { Some(cpu) } else { None }
}

/// `marked` and the elements whose bit is set.
pub(crate) fn marked_line(
    alloc: Global,
    shape: &Shape,
    line: &[u8],
) -> Result<Option<Numbers>, NoMemory>
    ensures { IfOk result
        (λ found. found ≡ word_then (codes "marked") (marks shape.now) line.now) }
{
    match behind(line, b"marked") {
        Some(rest) => marks(alloc, shape, rest),
        None => Ok(None),
    }
}

/// Elements in ascending order, to the end of a line.
#[tactic(auto, unfolding(crate::specs::LineReaders::marks))]
pub(crate) fn marks(alloc: Global, shape: &Shape, text: &[u8]) -> Result<Option<Numbers>, NoMemory>
    ensures { IfOk result (λ found. found ≡ marks shape.now text.now) }
{
    let Some(found) = numbers_to_end(alloc, shape.elements, text)? else {
        return Ok(None);
    };
    if ascends(found.as_slice()) {
        Ok(Some(found))
    } else {
        Ok(None)
    }
}
