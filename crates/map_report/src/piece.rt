//! Pieces of a report's text.

ghost use Rattle.std.specs.Prelude.{◌≡◌, ℕ, List, ◌++◌, OnOk, decimal, string_bytes};
ghost use Rattle.std.specs.List.{flat_map};
ghost use Rattle.hex.specs.Hex.{encode_lower};
ghost use Rattle.map_report.specs.Words.{bytes_text, counted, hash_digits, number_text, option_text};

use itoa::Buffer;
use map_types::{Bytes, Pairs};
use std::alloc::AllocError;

/// What is a piece of a report's text.
pub(crate) trait Piece {
    /// The text.
    ghost shown: { Self → List ℕ };

    /// Adds it to a text.
    fn push_to(&self, text: &mut String) -> Result<(), AllocError>
        ensures { OnOk result (string_bytes text.new ≡ string_bytes text.old ++ shown self.now) };
}

/// A number behind a blank.
impl Piece for u32 {
    ghost shown = { number_text };

    fn push_to(&self, text: &mut String) -> Result<(), AllocError> {
        push_number(text, *self as u64)
    }
}

/// Bytes behind a blank.
impl Piece for Bytes {
    ghost shown = { bytes_text };

    fn push_to(&self, text: &mut String) -> Result<(), AllocError> {
        push_bytes(text, self.as_slice())
    }
}

/// A number behind a blank, and `-` where there is none.
impl Piece for Option<u32> {
    ghost shown = { option_text };

    fn push_to(&self, text: &mut String) -> Result<(), AllocError> {
        match self {
            Some(number) => number.push_to(text),
            None => text.push_str(" -"),
        }
    }
}

/// Adds each of the items.
pub(crate) fn push_each<T: Piece>(text: &mut String, items: &[T]) -> Result<(), AllocError>
    ensures { OnOk result (string_bytes text.new
        ≡ string_bytes text.old ++ flat_map T.shown items.now) }
{
    for item in items {
        item.push_to(text)?;
    }
    Ok(())
}

/// Adds how many items there are, and each of them.
#[tactic(auto, unfolding(crate::specs::Words::counted))]
pub(crate) fn push_counted<T: Piece>(text: &mut String, items: &[T]) -> Result<(), AllocError>
    ensures { OnOk result (string_bytes text.new
        ≡ string_bytes text.old ++ counted T.shown items.now) }
{
    push_number(text, items.len() as u64)?;
    push_each(text, items)
}

/// Adds a number in decimal digits.
pub(crate) fn push_decimal(text: &mut String, number: u64) -> Result<(), AllocError>
    ensures { OnOk result (string_bytes text.new ≡ string_bytes text.old ++ decimal number) }
{
    text.push_str(Buffer::new().format(number))
}

/// Adds a number behind a blank.
pub(crate) fn push_number(text: &mut String, number: u64) -> Result<(), AllocError>
    ensures { OnOk result (string_bytes text.new ≡ string_bytes text.old ++ number_text number) }
{
    text.push_str(" ")?;
    push_decimal(text, number)
}

/// The digits of at most so many bytes are made in place.
const SHORT: usize = 32;

/// Adds bytes as two hexadecimal digits each, in lower case.
pub(crate) fn push_hex(text: &mut String, bytes: &[u8]) -> Result<(), AllocError>
    ensures { OnOk result (string_bytes text.new
        ≡ string_bytes text.old ++ encode_lower bytes.now) }
{
    if bytes.len() <= SHORT {
        let mut digits = [0; 2 * SHORT];
        let place = &mut digits[..2 * bytes.len()];
        if hex::encode_to_slice(bytes, place).is_ok() {
            if let Ok(digits) = str::from_utf8(place) {
                return text.push_str(digits);
            }
        }
    }
    let digits = hex::encode(*text.allocator(), bytes)?;
    text.push_str(digits.as_str())
}

/// Adds bytes behind a blank.
pub(crate) fn push_bytes(text: &mut String, bytes: &[u8]) -> Result<(), AllocError>
    ensures { OnOk result (string_bytes text.new ≡ string_bytes text.old ++ bytes_text bytes.now) }
{
    text.push_str(" ")?;
    push_hex(text, bytes)
}

/// Adds a hash as 8 hexadecimal digits.
#[tactic(auto, unfolding(crate::specs::Words::hash_digits))]
pub(crate) fn push_hash(text: &mut String, hash: u32) -> Result<(), AllocError>
    ensures { OnOk result (string_bytes text.new ≡ string_bytes text.old ++ hash_digits hash) }
{
    push_hex(text, &hash.to_be_bytes())
}
