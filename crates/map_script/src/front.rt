//! Call lines as most are written, each read from the front of a text: one space between tokens, no comment, and a verb
//! that is no batch and no walk over all elements. What is found here is what the line says, in either version. Where nothing
//! is found the line has to be read by its tokens.

ghost use Rattle.std.specs.Prelude.{◌≡◌, ℕ, ◌*◌, ◌≤◌, ◌<◌, List, [], ◌∷◌, ◌++◌, length, slice_index, Ok, true, ⊤, MatchOption, IsTrue, codes};
ghost use Rattle.hex.specs.Hex.{decode_of, hex_digit_value};
ghost use Rattle.map_types.specs.Creation.{IsShape};
ghost use Rattle.map_script.specs.Grammar.{call_line, verb_line, update_places};
ghost use Rattle.map_script.specs.Places.{bytes_in};
ghost use Rattle.map_script.specs.Plain.{is_token, BeginsWith, BeginsWithCpu, BeginsWithBytes};

use crate::places::{flag_of, number_of};
use map_types::{Bytes, Call, Shape, Side, Verb, value_len};
use std::alloc::Global;

/// Names and numbers that are read here have at most so many bytes.
const LONGEST_WORD: usize = 9;

/// Reads a call, and gives the text behind its line.
pub(crate) fn call_at_front<'a>(
    alloc: Global,
    shape: &Shape,
    text: &'a [u8],
) -> Option<(Call, &'a [u8])>
    requires { IsShape shape.now }
    ensures { MatchOption result ⊤ (λ found. (version : ℕ) → BeginsWith
        (call_line version shape.now) text.now found.0 found.1.now) }
{
    let (cpu, places) = cpu_at_front(shape.cpus, text)?;
    let (verb, rest) = verb_at_front(alloc, shape, places)?;
    Some((Call { cpu, verb }, rest))
}

/// Reads a CPU, and a space.
fn cpu_at_front(cpus: u32, text: &[u8]) -> Option<(u32, &[u8])>
    ensures { MatchOption result ⊤ (λ found. BeginsWithCpu cpus text.now found.0 found.1.now) }
{
    match text {
        [digit, b' ', rest @ ..] if digit.is_ascii_digit() => {
            let cpu = u32::from(*digit - b'0');
            if cpu < cpus { Some((cpu, rest)) } else { None }
        }
        [digit, ..] if digit.is_ascii_digit() => long_cpu_at_front(cpus, text),
        _ => None,
    }
}

/// Reads a CPU of any number of digits, and a space.
fn long_cpu_at_front(cpus: u32, text: &[u8]) -> Option<(u32, &[u8])>
    ensures { MatchOption result ⊤ (λ found. BeginsWithCpu cpus text.now found.0 found.1.now) }
{
    let (word, rest) = word_at_front(text)?;
    let cpu = number_of(word)?;
    if cpu < cpus { Some((cpu, rest)) } else { None }
}

/// Cuts a text at its first space, where one stands near.
fn word_at_front(text: &[u8]) -> Option<(&[u8], &[u8])>
    ensures { MatchOption result ⊤ (λ parts. text.now ≡ parts.0.now ++ 32 ∷ parts.1.now) }
{
    let at = space_at(text)?;
    Some((&text[..at], &text[at + 1..]))
}

/// Where the first space stands, if one is near.
fn space_at(text: &[u8]) -> Option<usize>
    ensures { MatchOption result ⊤ (λ at. (at < length text.now)
        × (slice_index text.now at ≡ 32)) }
{
    for at in 0..text.len().min(LONGEST_WORD + 1) {
        if text[at] == b' ' {
            return Some(at);
        }
    }
    None
}

/// Reads what a call does.
fn verb_at_front<'a>(alloc: Global, shape: &Shape, text: &'a [u8]) -> Option<(Verb, &'a [u8])>
    requires { IsShape shape.now }
    ensures { MatchOption result ⊤ (λ found. BeginsWith
        (verb_line shape.now) text.now found.0 found.1.now) }
{
    if let Some(places) = behind_lookup(text) {
        lookup_at_front(alloc, shape, text, places)
    } else if let Some(places) = behind_update(text) {
        update_at_front(alloc, shape, text, places)
    } else if let Some(places) = behind_delete(text) {
        delete_at_front(alloc, shape, text, places)
    } else if let Some(found) = next_at_front(text) {
        Some(found)
    } else {
        named_at_front(alloc, shape, text)
    }
}

/// What stands behind `lookup`.
fn behind_lookup(text: &[u8]) -> Option<&[u8]>
    ensures { MatchOption result ⊤ (λ rest. text.now ≡ codes "lookup " ++ rest.now) }
{
    match text {
        [b'l', b'o', b'o', b'k', b'u', b'p', b' ', rest @ ..] => Some(rest),
        _ => None,
    }
}

/// What stands behind `update any`.
fn behind_update(text: &[u8]) -> Option<&[u8]>
    ensures { MatchOption result ⊤ (λ rest. text.now ≡ codes "update any " ++ rest.now) }
{
    match text {
        [
            b'u',
            b'p',
            b'd',
            b'a',
            b't',
            b'e',
            b' ',
            b'a',
            b'n',
            b'y',
            b' ',
            rest @ ..,
        ] => Some(rest),
        _ => None,
    }
}

/// What stands behind `delete`.
fn behind_delete(text: &[u8]) -> Option<&[u8]>
    ensures { MatchOption result ⊤ (λ rest. text.now ≡ codes "delete " ++ rest.now) }
{
    match text {
        [b'd', b'e', b'l', b'e', b't', b'e', b' ', rest @ ..] => Some(rest),
        _ => None,
    }
}

/// What stands behind a line `next`.
fn behind_next(text: &[u8]) -> Option<&[u8]>
    ensures { MatchOption result ⊤ (λ rest. text.now ≡ codes "next\n" ++ rest.now) }
{
    match text {
        [b'n', b'e', b'x', b't', b'\n', rest @ ..] => Some(rest),
        _ => None,
    }
}

/// Reads `next` without a key.
fn next_at_front(text: &[u8]) -> Option<(Verb, &[u8])>
    ensures { MatchOption result ⊤ (λ found. (shape : Shape) → BeginsWith
        (verb_line shape) text.now found.0 found.1.now) }
{
    let rest = behind_next(text)?;
    Some((Verb::Next { key: None }, rest))
}

/// Reads what a call does whose verb comes more seldom, or with other flags.
fn named_at_front<'a>(alloc: Global, shape: &Shape, text: &'a [u8]) -> Option<(Verb, &'a [u8])>
    requires { IsShape shape.now }
    ensures { MatchOption result ⊤ (λ found. BeginsWith
        (verb_line shape.now) text.now found.0 found.1.now) }
{
    let (name, places) = word_at_front(text)?;
    match update_side(name) {
        Some(side) => flagged_at_front(alloc, shape, side, name, text, places),
        None => keyed_at_front(alloc, shape, name, text, places),
    }
}

/// The side of a verb that updates.
fn update_side(name: &[u8]) -> Option<Side>
    ensures { MatchOption result ⊤ (λ side. (is_token name.now ≡ true)
        × ((shape : Shape) (tokens : List (List ℕ)) → verb_line shape (name.now ∷ tokens)
        ≡ update_places shape side tokens)) }
{
    if name == b"update".as_slice() {
        Some(Side::Prog)
    } else if name == b"sysupdate".as_slice() {
        Some(Side::Sys)
    } else {
        None
    }
}

/// The verb of this name whose only place is a key.
fn verb_with_key(name: &[u8], key: Bytes) -> Option<Verb>
    ensures { MatchOption result ⊤ (λ verb. (shape : Shape) (token : List ℕ)
        → bytes_in shape.key_size token ≡ Ok key → (is_token name.now ≡ true)
        × (verb_line shape (name.now ∷ token ∷ []) ≡ Ok verb)) }
{
    if name == b"syslookup".as_slice() {
        Some(Verb::Lookup {
            side: Side::Sys,
            key,
        })
    } else if name == b"take".as_slice() {
        Some(Verb::Take { key })
    } else if name == b"next".as_slice() {
        Some(Verb::Next { key: Some(key) })
    } else {
        None
    }
}

/// Reads the key of a call of this name.
fn keyed_at_front<'a>(
    alloc: Global,
    shape: &Shape,
    name: &'a [u8],
    text: &'a [u8],
    places: &'a [u8],
) -> Option<(Verb, &'a [u8])>
    requires { text.now ≡ name.now ++ 32 ∷ places.now }
    ensures { MatchOption result ⊤ (λ found. BeginsWith
        (verb_line shape.now) text.now found.0 found.1.now) }
{
    let (key, rest) = bytes_before(b'\n', alloc, shape.key_size, places)?;
    let verb = verb_with_key(name, key)?;
    Some((verb, rest))
}

/// Reads the flags, the key and the value of an update of this name and side.
fn flagged_at_front<'a>(
    alloc: Global,
    shape: &Shape,
    side: Side,
    name: &'a [u8],
    text: &'a [u8],
    places: &'a [u8],
) -> Option<(Verb, &'a [u8])>
    requires shape { IsShape shape.now }
    requires text { text.now ≡ name.now ++ 32 ∷ places.now }
    requires name { is_token name.now ≡ true }
    requires reads { (tokens : List (List ℕ)) → verb_line shape.now (name.now ∷ tokens)
        ≡ update_places shape.now side tokens }
    ensures { MatchOption result ⊤ (λ found. BeginsWith
        (verb_line shape.now) text.now found.0 found.1.now) }
{
    let (word, behind) = word_at_front(places)?;
    let flags = flag_of(word)?;
    let (key, middle) = bytes_before(b' ', alloc, shape.key_size, behind)?;
    let (value, rest) = bytes_before(b'\n', alloc, value_len(shape, side), middle)?;
    Some((
        Verb::Update {
            side,
            flags,
            key,
            value,
        },
        rest,
    ))
}

/// Reads the key of a lookup.
fn lookup_at_front<'a>(
    alloc: Global,
    shape: &Shape,
    text: &'a [u8],
    places: &'a [u8],
) -> Option<(Verb, &'a [u8])>
    requires { text.now ≡ codes "lookup " ++ places.now }
    ensures { MatchOption result ⊤ (λ found. BeginsWith
        (verb_line shape.now) text.now found.0 found.1.now) }
{
    let (key, rest) = bytes_before(b'\n', alloc, shape.key_size, places)?;
    Some((
        Verb::Lookup {
            side: Side::Prog,
            key,
        },
        rest,
    ))
}

/// Reads the key and the value of an update.
fn update_at_front<'a>(
    alloc: Global,
    shape: &Shape,
    text: &'a [u8],
    places: &'a [u8],
) -> Option<(Verb, &'a [u8])>
    requires shape { IsShape shape.now }
    requires text { text.now ≡ codes "update any " ++ places.now }
    ensures { MatchOption result ⊤ (λ found. BeginsWith
        (verb_line shape.now) text.now found.0 found.1.now) }
{
    let (key, behind) = bytes_before(b' ', alloc, shape.key_size, places)?;
    let (value, rest) = bytes_before(b'\n', alloc, value_len(shape, Side::Prog), behind)?;
    Some((
        Verb::Update {
            side: Side::Prog,
            flags: 0,
            key,
            value,
        },
        rest,
    ))
}

/// Reads the key of a delete.
fn delete_at_front<'a>(
    alloc: Global,
    shape: &Shape,
    text: &'a [u8],
    places: &'a [u8],
) -> Option<(Verb, &'a [u8])>
    requires { text.now ≡ codes "delete " ++ places.now }
    ensures { MatchOption result ⊤ (λ found. BeginsWith
        (verb_line shape.now) text.now found.0 found.1.now) }
{
    let (key, rest) = bytes_before(b'\n', alloc, shape.key_size, places)?;
    Some((Verb::Delete { key }, rest))
}

/// Reads bytes of a size, and this byte behind them.
fn bytes_before<'a>(end: u8, alloc: Global, size: u32, text: &'a [u8]) -> Option<(Bytes, &'a [u8])>
    ensures { MatchOption result ⊤ (λ found. BeginsWithBytes size text.now found.0
        (end ∷ found.1.now)) }
{
    let (bytes, behind) = bytes_at_front(alloc, size, text)?;
    match behind {
        [byte, rest @ ..] if *byte == end => Some((bytes, rest)),
        _ => None,
    }
}

/// The bytes of a size that a whole text writes.
pub(crate) fn bytes_of(alloc: Global, size: u32, text: &[u8]) -> Option<Bytes>
    ensures { MatchOption result ⊤ (λ found. bytes_in size text.now ≡ Ok found) }
{
    let (bytes, rest) = bytes_at_front(alloc, size, text)?;
    if rest.is_empty() { Some(bytes) } else { None }
}

/// Reads bytes of a size. Those of the sizes that most keys and values have are decoded many digits at a time.
fn bytes_at_front(alloc: Global, size: u32, text: &[u8]) -> Option<(Bytes, &[u8])>
    ensures { MatchOption result ⊤ (λ found. BeginsWithBytes size text.now found.0 found.1.now) }
{
    if size == 16 {
        return sized_at_front::<16, 32>(alloc, text);
    }
    if size == 8 {
        return sized_at_front::<8, 16>(alloc, text);
    }
    if size == 4 {
        return sized_at_front::<4, 8>(alloc, text);
    }
    any_at_front(alloc, size, text)
}

/// Reads so many bytes, of twice as many digits.
fn sized_at_front<const BYTES: usize, const DIGITS: usize>(
    alloc: Global,
    text: &[u8],
) -> Option<(Bytes, &[u8])>
    requires twice { DIGITS ≡ 2 * BYTES }
    requires some { (1 ≤ BYTES) × (BYTES ≤ 1024) }
    ensures { MatchOption result ⊤ (λ found. BeginsWithBytes BYTES text.now found.0 found.1.now) }
{
    let (digits, rest) = text.split_first_chunk::<DIGITS>()?;
    let mut bytes = [0; BYTES];
    if !decode_sized(digits, &mut bytes) {
        return None;
    }
    let copy = Bytes::from_slice(alloc, bytes.as_slice()).ok()?;
    Some((copy, rest))
}

/// Decodes the digits of so many bytes. It isn't inlined, since else the bytes are taken apart before they are all there.
#[inline(never)]
fn decode_sized<const BYTES: usize, const DIGITS: usize>(
    digits: &[u8; DIGITS],
    bytes: &mut [u8; BYTES],
) -> bool
    requires twice { DIGITS ≡ 2 * BYTES }
    requires some { (1 ≤ BYTES) × (BYTES ≤ 1024) }
    ensures { IsTrue result → decode_of digits.now ≡ Ok bytes.new }
{
    let mut values = [0; DIGITS];
    decode_digits(digits, &mut values, bytes)
}

/// Reads bytes of any size but 0.
fn any_at_front(alloc: Global, size: u32, text: &[u8]) -> Option<(Bytes, &[u8])>
    ensures { MatchOption result ⊤ (λ found. BeginsWithBytes size text.now found.0 found.1.now) }
{
    if size == 0 {
        return None;
    }
    let (digits, rest) = text.split_at_checked(2 * size as usize)?;
    let mut values = vec![in alloc; 0u8; digits.len()].ok()?;
    let mut bytes = vec![in alloc; 0u8; size as usize].ok()?;
    if !decode_digits(digits, values.as_mut_slice(), bytes.as_mut_slice()) {
        return None;
    }
    let copy = Bytes::from_slice(alloc, bytes.as_slice()).ok()?;
    Some((copy, rest))
}

/// Decodes twice as many digits as there is room for bytes, by way of the value of each digit. Where one is no digit it answers
/// false, and the bytes mean nothing. Neither pass has a branch or looks at every other byte of a text, so that a processor takes
/// many at a time.
#[inline(always)]
fn decode_digits(digits: &[u8], values: &mut [u8], bytes: &mut [u8]) -> bool
    requires bytes { length digits.now ≡ 2 * length bytes.old }
    requires values { length values.old ≡ length digits.now }
    ensures { IsTrue result → decode_of digits.now ≡ Ok bytes.new }
{
    if digit_values(digits, values) > 15 {
        return false;
    }
    for i in 0..bytes.len() {
        bytes[i] = values[2 * i]
            .wrapping_mul(16)
            .wrapping_add(values[2 * i + 1]);
    }
    true
}

/// Writes the value of each digit, and answers the greatest of them, which is 255 where one is no digit.
#[inline(always)]
fn digit_values(digits: &[u8], values: &mut [u8]) -> u8
    requires { length values.old ≡ length digits.now }
    ensures len { length values.new ≡ length values.old }
    ensures values { (i : ℕ) → i < length digits.now
        → MatchOption (hex_digit_value (slice_index digits.now i)) (slice_index values.new i ≡ 255)
        (λ value. slice_index values.new i ≡ value) }
    ensures greatest { (i : ℕ) → i < length digits.now → slice_index values.new i ≤ result }
{
    let mut greatest: u8 = 0;
    for i in 0..digits.len() {
        let value = digit_value(digits[i]);
        values[i] = value;
        greatest = greatest.max(value);
    }
    greatest
}

/// The value of a hexadecimal digit of either case, and 255 of any other byte.
#[inline(always)]
fn digit_value(byte: u8) -> u8
    ensures { MatchOption (hex_digit_value byte) (result ≡ 255) (λ value. result ≡ value) }
{
    let decimal = byte.wrapping_sub(b'0');
    let letter = byte.wrapping_sub(b'A').min(byte.wrapping_sub(b'a'));
    if decimal < 10 {
        decimal
    } else if letter < 6 {
        letter + 10
    } else {
        255
    }
}
