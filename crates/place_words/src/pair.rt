//! A key and a value in place.

ghost use Rattle.std.specs.Prelude.{◌≡◌, ◌≤◌, ◌+◌, ◌++◌, [], IfSome, length, take, drop};
ghost use Rattle.place_words.specs.PackedBuckets.{bytes_of, key_in, value_in, FitsPair};

use map_types::Bytes;

/// How many bytes a pair has room for.
const ROOM: usize = 26;

/// How many bytes a key or a value of a pair has at most, as short bytes do.
const SHORT: usize = 22;

/// How many bytes a word has.
const WORD: usize = 8;

/// A key with a value behind it, of at most 22 bytes each, and 26 together. The key, the value behind it, and then bytes that
/// say nothing, stand in three words and the two bytes of `last`, which are the last ones.
#[derive(Clone, Copy, Debug)]
pub(crate) struct Pair {
    /// How many bytes the key has.
    key_len: u8,
    /// How many the value has.
    value_len: u8,
    last: [u8; 2],
    first: [u8; WORD],
    second: [u8; WORD],
    third: [u8; WORD],
}

/// A key of 16 bytes with a value of 8, which is copied in words. None for other sizes.
#[inline(always)]
pub(crate) fn usual_pair(key: &[u8], value: &[u8]) -> Option<Pair>
    ensures whole { IfSome result (λ pair. FitsPair pair) }
    ensures key { IfSome result (λ pair. key_in pair ≡ key.now) }
    ensures value { IfSome result (λ pair. value_in pair ≡ value.now) }
{
    if key.len() != 2 * WORD || value.len() != WORD {
        return None;
    }
    Some(Pair {
        key_len: 16,
        value_len: 8,
        first: word_of(&key[..WORD]),
        second: word_of(&key[WORD..]),
        third: word_of(value),
        last: [0; 2],
    })
}

/// A key of 16 bytes with no value, which is copied in words. None for other sizes.
#[inline(always)]
pub(crate) fn usual_key(key: &[u8]) -> Option<Pair>
    ensures whole { IfSome result (λ pair. FitsPair pair) }
    ensures key { IfSome result (λ pair. key_in pair ≡ key.now) }
    ensures value { IfSome result (λ pair. value_in pair ≡ []) }
{
    if key.len() != 2 * WORD {
        return None;
    }
    Some(Pair {
        key_len: 16,
        value_len: 0,
        first: word_of(&key[..WORD]),
        second: word_of(&key[WORD..]),
        third: [0; WORD],
        last: [0; 2],
    })
}

/// A key and a value side by side, if they fit.
pub(crate) fn pair_of(key: &[u8], value: &[u8]) -> Option<Pair>
    ensures whole { IfSome result (λ pair. FitsPair pair) }
    ensures key { IfSome result (λ pair. key_in pair ≡ key.now) }
    ensures value { IfSome result (λ pair. value_in pair ≡ value.now) }
{
    let (start, len) = (key.len(), value.len());
    if start > SHORT || len > SHORT || start + len > ROOM {
        return None;
    }
    let bytes = behind(with_key(key), start, value);
    Some(in_words(&bytes, start as u8, len as u8))
}

/// An array that begins with these bytes.
fn with_key(key: &[u8]) -> [u8; ROOM]
    requires { length key.now ≤ 26 }
    ensures { take (length key.now) result ≡ key.now }
{
    let mut bytes = [0; ROOM];
    bytes[..key.len()].copy_from_slice(key);
    bytes
}

/// An array with these bytes at a place, and what it had before it.
fn behind(bytes: [u8; ROOM], start: usize, value: &[u8]) -> [u8; ROOM]
    requires { start + length value.now ≤ 26 }
    ensures before { take start result ≡ take start bytes }
    ensures value { take (length value.now) (drop start result) ≡ value.now }
{
    let mut bytes = bytes;
    bytes[start..start + value.len()].copy_from_slice(value);
    bytes
}

/// These bytes word by word, with the lengths of a key and a value.
fn in_words(bytes: &[u8], key_len: u8, value_len: u8) -> Pair
    requires { length bytes.now ≡ 26 }
    ensures bytes { bytes_of result ≡ bytes.now }
    ensures key_len { result.key_len ≡ key_len }
    ensures value_len { result.value_len ≡ value_len }
{
    let mut last = [0; 2];
    last.copy_from_slice(&bytes[3 * WORD..]);
    Pair {
        key_len,
        value_len,
        last,
        first: word_of(&bytes[..WORD]),
        second: word_of(&bytes[WORD..2 * WORD]),
        third: word_of(&bytes[2 * WORD..3 * WORD]),
    }
}

/// The bytes of a word.
#[inline(always)]
fn word_of(bytes: &[u8]) -> [u8; WORD]
    requires { length bytes.now ≡ 8 }
    ensures { result ≡ bytes.now }
{
    let mut word = [0; WORD];
    word.copy_from_slice(bytes);
    word
}

/// The bytes of a pair in one array.
fn bytes_in(pair: &Pair) -> [u8; ROOM]
    ensures { result ≡ bytes_of pair.now }
{
    let bytes = with_word([0; ROOM], 0, &pair.first);
    let bytes = with_word(bytes, WORD, &pair.second);
    let mut bytes = with_word(bytes, 2 * WORD, &pair.third);
    bytes[3 * WORD..].copy_from_slice(&pair.last);
    bytes
}

/// An array with a word at a place, and what it had before it.
fn with_word(bytes: [u8; ROOM], start: usize, word: &[u8; WORD]) -> [u8; ROOM]
    requires { start + 8 ≤ 26 }
    ensures { take (start + 8) result ≡ take start bytes ++ word.now }
{
    let mut bytes = bytes;
    bytes[start..start + WORD].copy_from_slice(word);
    bytes
}

/// The key.
pub(crate) fn key_of(pair: &Pair) -> Bytes
    requires { FitsPair pair.now }
    ensures { result ≡ key_in pair.now }
{
    let bytes = bytes_in(pair);
    Bytes::short(&bytes[..pair.key_len as usize])
}

/// The value.
pub(crate) fn value_of(pair: &Pair) -> Bytes
    requires { FitsPair pair.now }
    ensures { result ≡ value_in pair.now }
{
    let bytes = bytes_in(pair);
    let start = pair.key_len as usize;
    Bytes::short(&bytes[start..start + pair.value_len as usize])
}
