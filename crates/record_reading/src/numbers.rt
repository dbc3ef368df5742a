//! Numbers, read from the front of a text.

ghost use Rattle.std.specs.Prelude.{◌+◌, ◌≡◌, ◌&&◌, MatchOption, None, Some, codes, if◌then◌else◌, nat_lt};
ghost use Rattle.std.specs.Str.Parse.{AllDigits, digits_value};
ghost use Rattle.record_reading.specs.BucketReaders.{cpu_text, element_colon, element_text, u32_text};
ghost use Rattle.record_reading.specs.Readers.{after, behind_digits, digits_of, is_written, number, option};

use crate::words::behind;
use map_types::Shape;

/// The digits at the front of a text, and what stands behind them.
fn split_digits(text: &[u8]) -> (&[u8], &[u8])
    ensures digits { result.0.now ≡ digits_of text.now }
    ensures rest { result.1.now ≡ behind_digits text.now }
    ensures all { AllDigits 10 result.0.now }
{
    let mut count = 0;
    while count < text.len() && text[count].is_ascii_digit() {
        count += 1;
    }
    text.split_at(count)
}

/// The value of digits as numbers are written: more than one only where the first isn't 0.
#[tactic(auto, using(crate::proofs::LeafLemmas::digits_utf8))]
fn written(digits: &[u8]) -> Option<u64>
    requires { AllDigits 10 digits.now }
    ensures { result
        ≡ (if is_written digits.now && nat_lt (digits_value 10 digits.now) 18446744073709551616 then Some (digits_value 10 digits.now) else None) }
{
    if digits.is_empty() || (digits.len() > 1 && digits[0] == b'0') {
        return None;
    }
    str::from_utf8(digits).ok()?.parse::<u64>().ok()
}

/// A number.
#[tactic(auto, unfolding(crate::specs::Readers::number))]
pub(crate) fn number(text: &[u8]) -> Option<(u64, &[u8])>
    ensures { MatchOption result (number 18446744073709551616 text.now ≡ None)
        (λ f. number 18446744073709551616 text.now ≡ Some (f.0, f.1.now)) }
{
    let (digits, rest) = split_digits(text);
    let value = written(digits)?;
    Some((value, rest))
}

/// A number of 32 bits.
#[tactic(auto, unfolding(crate::specs::Readers::number))]
pub(crate) fn u32_number(text: &[u8]) -> Option<(u32, &[u8])>
    ensures { MatchOption result (number 4294967296 text.now ≡ None)
        (λ f. number 4294967296 text.now ≡ Some (f.0, f.1.now)) }
{
    let (digits, rest) = split_digits(text);
    let value = written(digits)?;
    if value >= 4294967296 {
        return None;
    }
    Some((value as u32, rest))
}

/// A number below this one.
#[tactic(auto, unfolding(crate::specs::Readers::number))]
pub(crate) fn number_below(text: &[u8], below: u32) -> Option<(u32, &[u8])>
    ensures { MatchOption result (number below text.now ≡ None)
        (λ found. number below text.now ≡ Some (found.0, found.1.now)) }
{
    let (digits, rest) = split_digits(text);
    let value = written(digits)?;
    if value >= below as u64 {
        return None;
    }
    Some((value as u32, rest))
}

/// A number up to this one.
#[tactic(auto, unfolding(crate::specs::Readers::number))]
pub(crate) fn number_to(text: &[u8], most: u32) -> Option<(u32, &[u8])>
    ensures { MatchOption result (number (most + 1) text.now ≡ None)
        (λ f. number (most + 1) text.now ≡ Some (f.0, f.1.now)) }
{
    let (digits, rest) = split_digits(text);
    let value = written(digits)?;
    if value > most as u64 {
        return None;
    }
    Some((value as u32, rest))
}

/// A number behind a blank.
pub(crate) fn blank_number(text: &[u8]) -> Option<(u64, &[u8])>
    ensures { MatchOption result (after (codes " ") (number 18446744073709551616) text.now ≡ None)
        (λ f. after (codes " ") (number 18446744073709551616) text.now ≡ Some (f.0, f.1.now)) }
{
    number(behind(text, b" ")?)
}

/// A number of 32 bits behind a blank.
#[tactic(auto, unfolding(crate::specs::BucketReaders::u32_text))]
pub(crate) fn u32_text(text: &[u8]) -> Option<(u32, &[u8])>
    ensures { MatchOption result (u32_text text.now ≡ None)
        (λ f. u32_text text.now ≡ Some (f.0, f.1.now)) }
{
    u32_number(behind(text, b" ")?)
}

/// An element behind a blank.
#[tactic(auto, unfolding(crate::specs::BucketReaders::element_text))]
pub(crate) fn element_text<'a>(shape: &Shape, text: &'a [u8]) -> Option<(u32, &'a [u8])>
    ensures { MatchOption result (element_text shape.now text.now ≡ None)
        (λ f. element_text shape.now text.now ≡ Some (f.0, f.1.now)) }
{
    number_below(behind(text, b" ")?, shape.elements)
}

/// An element, with a blank before it and a colon behind it.
#[tactic(auto, unfolding(crate::specs::BucketReaders::element_colon))]
pub(crate) fn element_colon<'a>(shape: &Shape, text: &'a [u8]) -> Option<(u32, &'a [u8])>
    ensures { MatchOption result (element_colon shape.now text.now ≡ None)
        (λ f. element_colon shape.now text.now ≡ Some (f.0, f.1.now)) }
{
    let (element, rest) = number_below(behind(text, b" ")?, shape.elements)?;
    let rest = behind(rest, b":")?;
    Some((element, rest))
}

/// A CPU behind a blank.
#[tactic(auto, unfolding(crate::specs::BucketReaders::cpu_text))]
pub(crate) fn cpu_text<'a>(shape: &Shape, text: &'a [u8]) -> Option<(u32, &'a [u8])>
    ensures { MatchOption result (cpu_text shape.now text.now ≡ None)
        (λ f. cpu_text shape.now text.now ≡ Some (f.0, f.1.now)) }
{
    number_below(behind(text, b" ")?, shape.cpus)
}

/// A word, and an element behind it.
pub(crate) fn element_behind<'a>(
    shape: &Shape,
    text: &'a [u8],
    word: &[u8],
) -> Option<(u32, &'a [u8])>
    ensures { MatchOption result (after word.now (element_text shape.now) text.now ≡ None)
        (λ f. after word.now (element_text shape.now) text.now ≡ Some (f.0, f.1.now)) }
{
    element_text(shape, behind(text, word)?)
}

/// An element behind a blank, or `-` where there is none.
#[tactic(auto, unfolding(crate::specs::BucketReaders::element_text, crate::specs::Readers::or_else))]
pub(crate) fn option_text<'a>(shape: &Shape, text: &'a [u8]) -> Option<(Option<u32>, &'a [u8])>
    ensures { MatchOption result (option shape.now.elements text.now ≡ None)
        (λ f. option shape.now.elements text.now ≡ Some (f.0, f.1.now)) }
{
    if let Some((element, rest)) = element_text(shape, text) {
        return Some((Some(element), rest));
    }
    let rest = behind(text, b" -")?;
    Some((None, rest))
}
