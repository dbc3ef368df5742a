//! Keys and values, read from the front of a text.

ghost use Rattle.std.specs.Prelude.{◌*◌, ◌==◌, ◌≡◌, ◌≤◌, IfOk, MatchOption, None, Some, bytes_eq, codes, length};
ghost use Rattle.std.specs.List.{list_all};
ghost use Rattle.map_types.specs.Creation.{IsShape};
ghost use Rattle.map_types.specs.Parts.{fields_of, values_in};
ghost use Rattle.map_types.specs.ValueLen.{round8, value_len_of};
ghost use Rattle.record_reading.specs.BucketReaders.{is_padded, key_text, value, value_text};
ghost use Rattle.record_reading.specs.Readers.{after, bytes};

use crate::hexadecimal::bytes;
use crate::words::behind;
use map_types::{Bytes, NoMemory, Shape, Side, value_len};
use std::alloc::Global;

/// A key behind a blank.
#[tactic(auto, unfolding(crate::specs::BucketReaders::key_text))]
pub(crate) fn key_text<'a>(
    alloc: Global,
    shape: &Shape,
    text: &'a [u8],
) -> Result<Option<(Bytes, &'a [u8])>, NoMemory>
    ensures { IfOk result (λ found. MatchOption found (key_text shape.now text.now ≡ None)
        (λ f. key_text shape.now text.now ≡ Some (f.0, f.1.now))) }
{
    match behind(text, b" ") {
        Some(rest) => bytes(alloc, rest, shape.key_size as usize),
        None => Ok(None),
    }
}

/// A value as a side reads it.
#[tactic(auto, unfolding(crate::specs::BucketReaders::value))]
pub(crate) fn value<'a>(
    alloc: Global,
    shape: &Shape,
    side: Side,
    text: &'a [u8],
) -> Result<Option<(Bytes, &'a [u8])>, NoMemory>
    requires { IsShape shape.now }
    ensures { IfOk result (λ found. MatchOption found (value shape.now side text.now ≡ None)
        (λ f. value shape.now side text.now ≡ Some (f.0, f.1.now))) }
{
    let Some((value, rest)) = bytes(alloc, text, value_len(shape, side) as usize)? else {
        return Ok(None);
    };
    if !is_padded(shape, side, value.as_slice()) {
        return Ok(None);
    }
    Ok(Some((value, rest)))
}

/// A value as a side reads it, behind a blank.
#[tactic(auto, unfolding(crate::specs::BucketReaders::value_text))]
pub(crate) fn value_text<'a>(
    alloc: Global,
    shape: &Shape,
    side: Side,
    text: &'a [u8],
) -> Result<Option<(Bytes, &'a [u8])>, NoMemory>
    requires { IsShape shape.now }
    ensures { IfOk result (λ found. MatchOption found (value_text shape.now side text.now ≡ None)
        (λ f. value_text shape.now side text.now ≡ Some (f.0, f.1.now))) }
{
    match behind(text, b" ") {
        Some(rest) => value(alloc, shape, side, rest),
        None => Ok(None),
    }
}

/// Bytes of a value's size behind a blank, whatever they are.
pub(crate) fn given_text<'a>(
    alloc: Global,
    shape: &Shape,
    side: Side,
    text: &'a [u8],
) -> Result<Option<(Bytes, &'a [u8])>, NoMemory>
    requires { IsShape shape.now }
    ensures { IfOk result (λ found. MatchOption found
        (after (codes " ") (bytes (value_len_of shape.now side)) text.now ≡ None)
        (λ f. after (codes " ") (bytes (value_len_of shape.now side)) text.now
        ≡ Some (f.0, f.1.now))) }
{
    match behind(text, b" ") {
        Some(rest) => bytes(alloc, rest, value_len(shape, side) as usize),
        None => Ok(None),
    }
}

/// Whether what the system call reads has zeros behind each part.
fn is_padded(shape: &Shape, side: Side, value: &[u8]) -> bool
    requires shape { IsShape shape.now }
    requires long { length value.now ≡ value_len_of shape.now side }
    ensures { result ≡ is_padded shape.now side value.now }
{
    if side == Side::Prog || !shape.kind.is_percpu() {
        return true;
    }
    are_padded(shape.cpus, shape.value_size, value)
}

/// Whether zeros stand behind each of so many parts of a size.
#[tactic(auto, using(crate::proofs::PaddedLemmas::field_more, crate::proofs::PaddedLemmas::field_other, crate::proofs::PaddedLemmas::fields_done))]
fn are_padded(parts: u32, size: u32, fields: &[u8]) -> bool
    requires short { size ≤ 4096 }
    requires long { length fields.now ≡ parts * round8 size }
    ensures { result ≡ bytes_eq (fields_of (values_in parts size fields.now)) fields.now }
{
    let whole = size.next_multiple_of(8) as usize;
    let mut rest = fields;
    for i in 0..parts {
        let (field, after) = rest.split_at(whole);
        if !are_zeros(&field[size as usize..]) {
            return false;
        }
        rest = after;
    }
    true
}

/// Whether all bytes are 0.
fn are_zeros(bytes: &[u8]) -> bool
    ensures { result ≡ list_all (λ b. b == 0) bytes.now }
{
    bytes.iter().all(|byte| *byte == 0)
}
