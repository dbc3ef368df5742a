//! Bytes in hexadecimal digits, read from the front of a text.

ghost use Rattle.std.specs.Prelude.{◌*◌, ◌<◌, ◌≡◌, ◌≤◌, IfOk, IsTrue, MatchBool, MatchOption, None, Ok, Some, length};
ghost use Rattle.std.specs.List.{list_all};
ghost use Rattle.hex.specs.Hex.{decode_of, hex_digit_value};
ghost use Rattle.record_reading.specs.Readers.{bytes, hash, is_lower_hex};

use map_types::{Bytes, NoMemory};
use std::alloc::Global;

/// So many bytes are decoded without a block of their own.
const SHORT: usize = 22;

/// So many bytes.
pub(crate) fn bytes(
    alloc: Global,
    text: &[u8],
    size: usize,
) -> Result<Option<(Bytes, &[u8])>, NoMemory>
    ensures { IfOk result (λ found. MatchOption found (bytes size text.now ≡ None)
        (λ f. bytes size text.now ≡ Some (f.0, f.1.now))) }
{
    if size <= SHORT {
        short_bytes(alloc, text, size)
    } else {
        long_bytes(alloc, text, size)
    }
}

/// So many bytes, which are few.
#[tactic(auto, using(crate::proofs::HexLemmas::bytes_short, crate::proofs::HexLemmas::bytes_other, crate::proofs::HexLemmas::bytes_found))]
fn short_bytes(alloc: Global, text: &[u8], size: usize) -> Result<Option<(Bytes, &[u8])>, NoMemory>
    requires { size ≤ 22 }
    ensures { IfOk result (λ found. MatchOption found (bytes size text.now ≡ None)
        (λ f. bytes size text.now ≡ Some (f.0, f.1.now))) }
{
    if text.len() < 2 * size {
        return Ok(None);
    }
    let (digits, rest) = text.split_at(2 * size);
    let mut place = [0u8; SHORT];
    let decoded = &mut place[..size];
    if !decode(digits, decoded) {
        return Ok(None);
    }
    Ok(Some((Bytes::from_slice(alloc, decoded)?, rest)))
}

/// So many bytes, which are many.
#[tactic(auto, using(crate::proofs::HexLemmas::bytes_short, crate::proofs::HexLemmas::bytes_other, crate::proofs::HexLemmas::bytes_found))]
fn long_bytes(alloc: Global, text: &[u8], size: usize) -> Result<Option<(Bytes, &[u8])>, NoMemory>
    ensures { IfOk result (λ found. MatchOption found (bytes size text.now ≡ None)
        (λ f. bytes size text.now ≡ Some (f.0, f.1.now))) }
{
    if text.len() / 2 < size {
        return Ok(None);
    }
    let (digits, rest) = text.split_at(2 * size);
    let mut decoded = vec![in alloc; 0u8; size]?;
    if !decode(digits, decoded.as_mut_slice()) {
        return Ok(None);
    }
    Ok(Some((Bytes::from_slice(alloc, decoded.as_slice())?, rest)))
}

/// A hash of 8 digits.
#[tactic(auto, using(crate::proofs::DecodeLemmas::hash_short, crate::proofs::DecodeLemmas::hash_other, crate::proofs::DecodeLemmas::hash_found))]
pub(crate) fn hash(text: &[u8]) -> Option<(u32, &[u8])>
    ensures { MatchOption result (hash text.now ≡ None)
        (λ f. hash text.now ≡ Some (f.0, f.1.now)) }
{
    if text.len() < 8 {
        return None;
    }
    let (digits, rest) = text.split_at(8);
    let mut bytes = [0u8; 4];
    if !decode(digits, &mut bytes) {
        return None;
    }
    Some((u32::from_be_bytes(bytes), rest))
}

/// Decodes twice as many digits as there is room for bytes, and answers whether each is a digit as they are written: where one
/// isn't, the bytes mean nothing. It judges all digits in one pass with no branch, so that a processor takes many at a time.
#[inline(always)]
fn decode(digits: &[u8], bytes: &mut [u8]) -> bool
    requires { length digits.now ≡ 2 * length bytes.old }
    ensures judged { result ≡ list_all is_lower_hex digits.now }
    ensures decoded { IsTrue result → decode_of digits.now ≡ Ok bytes.new }
    ensures room { length bytes.new ≡ length bytes.old }
{
    let mut worst: u8 = 0;
    for i in 0..bytes.len() {
        let high = lower_value(digits[2 * i]);
        let low = lower_value(digits[2 * i + 1]);
        worst = worst.max(high).max(low);
        bytes[i] = high.wrapping_mul(16).wrapping_add(low);
    }
    worst < 16
}

/// The value of a hexadecimal digit in lower case, and 255 of any other byte.
#[inline(always)]
fn lower_value(byte: u8) -> u8
    ensures { MatchBool (is_lower_hex byte)
        ((hex_digit_value byte ≡ Some result) × (result < 16))
        (result ≡ 255) }
{
    let decimal = byte.wrapping_sub(b'0');
    let letter = byte.wrapping_sub(b'a');
    if decimal < 10 {
        decimal
    } else if letter < 6 {
        letter + 10
    } else {
        255
    }
}
