//! Numbers that are known and names of locks, read from the front of a text.

ghost use Rattle.std.specs.Prelude.{◌≡◌, ◌++◌, MatchOption, None, Some};
ghost use Rattle.map_report.specs.Words.{lock_name, number_text};
ghost use Rattle.record_reading.specs.BucketReaders.{u32_text};
ghost use Rattle.record_reading.specs.LineReaders.{lock_part, name_part};
ghost use Rattle.record_reading.specs.Readers.{after, behind};

use crate::numbers::u32_text;
use crate::words::behind;
use itoa::Buffer;
use map_types::{DomainId, Shape};
use place_words::is_lock;

/// What stands behind a blank and this number.
#[tactic(auto, using(crate::proofs::NameLemmas::blank_not, crate::proofs::NameLemmas::blank_then))]
pub(crate) fn behind_number(text: &[u8], number: u32) -> Option<&[u8]>
    ensures { MatchOption result (behind (number_text number) text.now ≡ None)
        (λ rest. behind (number_text number) text.now ≡ Some rest.now) }
{
    let Some(rest) = behind(text, b" ") else {
        return None;
    };
    let mut digits = Buffer::new();
    behind(rest, digits.format(number).as_bytes())
}

/// What stands behind a lock's name.
pub(crate) fn behind_name(text: &[u8], lock: DomainId) -> Option<&[u8]>
    ensures { MatchOption result (behind (lock_name lock) text.now ≡ None)
        (λ rest. behind (lock_name lock) text.now ≡ Some rest.now) }
{
    match lock {
        DomainId::Local(cpu) => behind_numbered(text, b"local", cpu),
        DomainId::Global => behind(text, b"global"),
        DomainId::CpuLru(cpu) => behind_numbered(text, b"lru", cpu),
        DomainId::Bucket(bucket) => behind_numbered(text, b"bucket", bucket),
        DomainId::Freelist(cpu) => behind_numbered(text, b"freelist", cpu),
    }
}

/// What stands behind a word and a number.
#[tactic(auto, using(crate::proofs::NameLemmas::behind_neither, crate::proofs::NameLemmas::behind_then))]
pub(crate) fn behind_numbered<'a>(text: &'a [u8], word: &[u8], number: u32) -> Option<&'a [u8]>
    ensures { MatchOption result (behind (word.now ++ number_text number) text.now ≡ None)
        (λ rest. behind (word.now ++ number_text number) text.now ≡ Some rest.now) }
{
    let Some(rest) = behind(text, word) else {
        return None;
    };
    behind_number(rest, number)
}

/// The name of a lock that the map has.
#[tactic(auto, unfolding(crate::specs::LineReaders::lock_part))]
pub(crate) fn lock_part<'a>(shape: &Shape, text: &'a [u8]) -> Option<(DomainId, &'a [u8])>
    ensures { MatchOption result (lock_part shape.now text.now ≡ None)
        (λ f. lock_part shape.now text.now ≡ Some (f.0, f.1.now)) }
{
    let (lock, rest) = name_part(text)?;
    if !is_lock(shape, lock) {
        return None;
    }
    Some((lock, rest))
}

/// The name of a lock.
#[tactic(auto, unfolding(crate::specs::LineReaders::name_part, crate::specs::Readers::or_else))]
fn name_part(text: &[u8]) -> Option<(DomainId, &[u8])>
    ensures { MatchOption result (name_part text.now ≡ None)
        (λ f. name_part text.now ≡ Some (f.0, f.1.now)) }
{
    if let Some((cpu, rest)) = number_behind(text, b"local") {
        return Some((DomainId::Local(cpu), rest));
    }
    if let Some(rest) = behind(text, b"global") {
        return Some((DomainId::Global, rest));
    }
    if let Some((cpu, rest)) = number_behind(text, b"lru") {
        return Some((DomainId::CpuLru(cpu), rest));
    }
    if let Some((bucket, rest)) = number_behind(text, b"bucket") {
        return Some((DomainId::Bucket(bucket), rest));
    }
    let (cpu, rest) = number_behind(text, b"freelist")?;
    Some((DomainId::Freelist(cpu), rest))
}

/// A word, and a number behind it.
fn number_behind<'a>(text: &'a [u8], word: &[u8]) -> Option<(u32, &'a [u8])>
    ensures { MatchOption result (after word.now u32_text text.now ≡ None)
        (λ f. after word.now u32_text text.now ≡ Some (f.0, f.1.now)) }
{
    u32_text(behind(text, word)?)
}
