//! The lines of a text.

ghost use Rattle.std.specs.Prelude.{◌≡◌, ◌<◌, [], ◌∷◌, length, ⊤, MatchOption};
ghost use Rattle.record_reading.specs.TextLines.{lines_in};

use memchr::memchr;

/// The first line without its line feed, and what is behind it. There is no line where there is no line feed.
pub fn next_line(text: &[u8]) -> Option<(&[u8], &[u8])>
    ensures lines { MatchOption result (lines_in text.now ≡ ([], text.now))
        (λ found. lines_in text.now ≡ (found.0.now ∷ (lines_in found.1.now).0, (lines_in found.1.now).1)) }
    ensures shorter { MatchOption result ⊤ (λ found. length found.1.now < length text.now) }
{
    match memchr(b'\n', text) {
        Some(at) => Some((&text[..at], &text[at + 1..])),
        None => None,
    }
}
