//! What is read to the end of a line.

ghost use Rattle.std.specs.Prelude.{◌≡◌, IfOk, MatchOption, None, Some, codes};
ghost use Rattle.record_reading.specs.Readers.{after, ascends, ascends_above, number, numbers_to_end, some_bytes, the_line};

use crate::hexadecimal::bytes;
use crate::numbers::number_below;
use crate::words::behind;
use map_types::{Bytes, List, NoMemory, Numbers};
use std::alloc::Global;

/// This very line.
#[tactic(auto, unfolding(crate::specs::Readers::the_line))]
pub(crate) fn the_line(line: &[u8], text: &[u8]) -> Option<()>
    ensures { result ≡ the_line line.now text.now }
{
    if text == line { Some(()) } else { None }
}

/// Numbers below this one, each behind a blank.
#[tactic(auto, using(crate::proofs::ToEndLemmas::numbers_start, crate::proofs::ToEndLemmas::numbers_more, crate::proofs::ToEndLemmas::numbers_none, crate::proofs::ToEndLemmas::numbers_done))]
pub(crate) fn numbers_to_end(
    alloc: Global,
    below: u32,
    text: &[u8],
) -> Result<Option<Numbers>, NoMemory>
    ensures { IfOk result (λ found. found ≡ numbers_to_end below text.now) }
{
    let mut found = List::of(Vec::new(alloc));
    let mut rest = text;
    while !rest.is_empty() {
        let Some((number, next)) = blank_below(rest, below) else {
            return Ok(None);
        };
        found.push(number)?;
        rest = next;
    }
    Ok(Some(found))
}

/// A number below this one, behind a blank.
fn blank_below(text: &[u8], below: u32) -> Option<(u32, &[u8])>
    ensures { MatchOption result (after (codes " ") (number below) text.now ≡ None)
        (λ f. after (codes " ") (number below) text.now ≡ Some (f.0, f.1.now)) }
{
    number_below(behind(text, b" ")?, below)
}

/// Bytes of some size that isn't 0.
#[tactic(auto, unfolding(crate::specs::Readers::some_bytes))]
pub(crate) fn some_bytes(alloc: Global, text: &[u8]) -> Result<Option<Bytes>, NoMemory>
    ensures { IfOk result (λ found. found ≡ some_bytes text.now) }
{
    let Some((found, rest)) = bytes(alloc, text, text.len() / 2)? else {
        return Ok(None);
    };
    if found.is_empty() || !rest.is_empty() {
        return Ok(None);
    }
    Ok(Some(found))
}

/// Whether each number is less than the next.
pub(crate) fn ascends(numbers: &[u32]) -> bool
    ensures { result ≡ ascends numbers.now }
{
    match numbers.split_first() {
        Some((first, others)) => ascends_above(*first, others),
        None => true,
    }
}

/// Whether each of the numbers is less than the next, and this one less than the first of them.
#[tactic(auto, using(crate::proofs::AscendLemmas::above_start, crate::proofs::AscendLemmas::above_more, crate::proofs::AscendLemmas::above_none, crate::proofs::AscendLemmas::above_all))]
fn ascends_above(first: u32, numbers: &[u32]) -> bool
    ensures { result ≡ ascends_above first numbers.now }
{
    let mut least = first;
    for number in numbers {
        if *number <= least {
            return false;
        }
        least = *number;
    }
    true
}
