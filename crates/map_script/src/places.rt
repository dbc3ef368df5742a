//! The places of a line, each read from the front of its tokens.

ghost use Rattle.std.specs.Prelude.{◌≡◌, ◌≤◌, length, Some, None, Ok, Err, MatchResult, if◌then◌else◌};
ghost use Rattle.std.specs.Char.{is_ascii_digit};
ghost use Rattle.std.specs.List.{list_all};
ghost use Rattle.std.specs.Str.Parse.{digits_value};
ghost use Rattle.hex.specs.Hex.{is_hex_digit};
ghost use Rattle.map_script.specs.Parsed.{IsParsedWithRest, IsParsedAs};
ghost use Rattle.map_script.specs.Places.{token, at_end, number, cpu, start_of, start, flag_of, flag, bytes_in, bytes, stop_in, stop, word, labelled, if_labelled, number_or_end};
ghost use Rattle.map_script.specs.Tokens.{number_of};

use crate::front::bytes_of;
use crate::line_error::LineError;
use crate::refusal::Cause;
use crate::tokens::Tokens;
use map_types::Bytes;
use std::alloc::Global;

/// A number has 1 to 10 digits.
const MAX_DIGITS: usize = 10;

impl<'a> Tokens<'a> {
    /// Reads any token.
    pub(crate) fn token(&mut self) -> Result<&'a [u8], Cause>
        ensures { MatchResult result
            (λ found. token self.old ≡ Ok (found.now, self.new))
            (λ cause. token self.old ≡ Err cause) }
    {
        self.next_token().ok_or(Cause::Missing)
    }

    /// The value, where no token is left.
    pub(crate) fn at_end<T: Drop>(&self, value: T) -> Result<T, Cause>
        ensures { result ≡ at_end value self.now }
    {
        if self.is_empty() {
            Ok(value)
        } else {
            Err(Cause::Extra)
        }
    }

    /// Reads this word, or there is this cause.
    pub(crate) fn word(&mut self, cause: Cause, text: &[u8]) -> Result<(), Cause>
        ensures { IsParsedWithRest result self.new (word cause text.now self.old) }
    {
        if self.token()? == text {
            Ok(())
        } else {
            Err(cause)
        }
    }

    /// Reads `N`.
    pub(crate) fn number(&mut self) -> Result<u32, Cause>
        ensures { IsParsedWithRest result self.new (number self.old) }
    {
        number_of(self.token()?).ok_or(Cause::Number)
    }

    /// Reads `CPU`, of so many CPUs.
    pub(crate) fn cpu(&mut self, cpus: u32) -> Result<u32, Cause>
        ensures { IsParsedWithRest result self.new (cpu cpus self.old) }
    {
        let found = self.number()?;
        if found < cpus {
            Ok(found)
        } else {
            Err(Cause::Cpu)
        }
    }

    /// Reads `START`.
    pub(crate) fn start(&mut self) -> Result<Option<u32>, Cause>
        ensures { IsParsedWithRest result self.new (start self.old) }
    {
        start_of(self.token()?).ok_or(Cause::Number)
    }

    /// Reads `FLAG`.
    pub(crate) fn flag(&mut self) -> Result<u32, Cause>
        ensures { IsParsedWithRest result self.new (flag self.old) }
    {
        flag_of(self.token()?).ok_or(Cause::Flag)
    }

    /// Reads `KEY` or `VALUE`, of so many bytes.
    pub(crate) fn bytes(&mut self, alloc: Global, size: u32) -> Result<Bytes, LineError>
        ensures { IsParsedAs (λ found. (found, self.new)) result (bytes size self.old) }
    {
        let digits = self.token()?;
        bytes_in(alloc, size, digits)
    }

    /// Reads `STOP`: a key of so many bytes, or `-`.
    pub(crate) fn stop(&mut self, alloc: Global, size: u32) -> Result<Option<Bytes>, LineError>
        ensures { IsParsedAs (λ found. (found, self.new)) result (stop size self.old) }
    {
        let word = self.token()?;
        stop_in(alloc, size, word)
    }

    /// Reads this word and `N`.
    pub(crate) fn labelled(&mut self, label: &[u8]) -> Result<u32, Cause>
        ensures { IsParsedWithRest result self.new (labelled label.now self.old) }
    {
        self.word(Cause::Missing, label)?;
        self.number()
    }

    /// Reads this word and `N`, or neither of them, which stands for 0.
    pub(crate) fn if_labelled(&mut self, label: &[u8]) -> Result<u32, Cause>
        ensures { IsParsedWithRest result self.new (if_labelled label.now self.old) }
    {
        if self.takes(label) {
            self.number()
        } else {
            Ok(0)
        }
    }

    /// Reads `N`, or the end, which stands for 0.
    pub(crate) fn number_or_end(&mut self) -> Result<u32, Cause>
        ensures { IsParsedWithRest result self.new (number_or_end self.old) }
    {
        if self.is_empty() {
            Ok(0)
        } else {
            self.number()
        }
    }
}

/// The number that a token writes.
pub(crate) fn number_of(token: &[u8]) -> Option<u32>
    ensures { result ≡ number_of token.now }
{
    if token.is_empty() || token.len() > MAX_DIGITS {
        return None;
    }
    u32::try_from(digits_value(token)?).ok()
}

/// The value of decimal digits.
fn digits_value(token: &[u8]) -> Option<u64>
    requires { length token.now ≤ 10 }
    ensures { result
        ≡ (if list_all is_ascii_digit token.now then Some (digits_value 10 token.now) else None) }
{
    let mut value: u64 = 0;
    for digit in token {
        if !digit.is_ascii_digit() {
            return None;
        }
        value = value * 10 + u64::from(*digit - b'0');
    }
    Some(value)
}

/// Where a batch begins that a token writes.
fn start_of(word: &[u8]) -> Option<Option<u32>>
    ensures { result ≡ start_of word.now }
{
    if word == b"-".as_slice() {
        Some(None)
    } else {
        Some(Some(number_of(word)?))
    }
}

/// The key that a token writes, of so many bytes, or none.
fn stop_in(alloc: Global, size: u32, word: &[u8]) -> Result<Option<Bytes>, LineError>
    ensures { IsParsedAs (λ found. found) result (stop_in size word.now) }
{
    if word == b"-".as_slice() {
        return Ok(None);
    }
    let key = bytes_in(alloc, size, word)?;
    Ok(Some(key))
}

/// The flags that a token names or writes.
pub(crate) fn flag_of(word: &[u8]) -> Option<u32>
    ensures { result ≡ flag_of word.now }
{
    if word == b"any".as_slice() {
        Some(0)
    } else if word == b"noexist".as_slice() {
        Some(1)
    } else if word == b"exist".as_slice() {
        Some(2)
    } else {
        number_of(word)
    }
}

/// The bytes that a token writes, so many.
pub(crate) fn bytes_in(alloc: Global, size: u32, word: &[u8]) -> Result<Bytes, LineError>
    ensures { IsParsedAs (λ found. found) result (bytes_in size word.now) }
{
    if let Some(found) = bytes_of(alloc, size, word) {
        return Ok(found);
    }
    if !is_all_hex(word) {
        return Err(LineError::Fault(Cause::Digits));
    }
    if word.len() != 2 * size as usize {
        return Err(LineError::Fault(Cause::Length));
    }
    // These digits can be decoded, so only memory may be missing.
    match hex::decode(alloc, word) {
        Ok(bytes) => match Bytes::from_slice(alloc, bytes.as_slice()) {
            Ok(copy) => Ok(copy),
            Err(_) => Err(LineError::NoMemory),
        },
        Err(_) => Err(LineError::NoMemory),
    }
}

/// Whether each byte is a hexadecimal digit of either case.
fn is_all_hex(word: &[u8]) -> bool
    ensures { result ≡ list_all is_hex_digit word.now }
{
    word.iter().all(|byte| is_hex_digit(*byte))
}

/// Whether a byte is a hexadecimal digit of either case.
fn is_hex_digit(byte: u8) -> bool
    ensures { result ≡ is_hex_digit byte }
{
    byte.is_ascii_hexdigit()
}
