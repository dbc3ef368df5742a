//! How the input of mode `check` is divided.

ghost use Rattle.std.specs.Prelude.{◌≡◌, ◌≤◌, ◌<◌, ⊤, ◌++◌, [], ◌∷◌, codes, false, drop, length, take, IsTrue, MatchOption};
ghost use Rattle.run_endings.specs.Divided.{all_lines, divides, is_divided, report_part, script_part};

use memchr::memchr;

/// The line that divides an input.
#[derive(Clone, Copy)]
pub(crate) struct Divider {
    /// How many bytes stand before it, which are the script.
    pub(crate) before: usize,
    /// Where the report begins: behind its line feed, or at the end where it has none.
    pub(crate) behind: usize,
}

/// The first line of an input that is exactly `%%`. It goes over the bytes once.
pub(crate) fn divider_of(input: &[u8]) -> Option<Divider>
    ensures divided { MatchOption result (is_divided input.now ≡ false) (λ divider. IsTrue (is_divided input.now)) }
    ensures script { MatchOption result ⊤ (λ divider. take divider.before input.now ≡ script_part input.now) }
    ensures report { MatchOption result ⊤ (λ divider. drop divider.behind input.now ≡ report_part input.now) }
    ensures inside { MatchOption result ⊤ (λ divider. (divider.before ≤ length input.now)
        × (divider.behind ≤ length input.now)) }
{
    let mut rest = input;
    while let Some((line, behind)) = cut_line(rest) {
        if divides(line) {
            return Some(Divider {
                before: input.len() - rest.len(),
                behind: input.len() - behind.len(),
            });
        }
        rest = behind;
    }
    if divides(rest) {
        Some(Divider {
            before: input.len() - rest.len(),
            behind: input.len(),
        })
    } else {
        None
    }
}

/// The first line without its line feed, and what stands behind it, where it has one.
fn cut_line(text: &[u8]) -> Option<(&[u8], &[u8])>
    ensures lines { MatchOption result (all_lines text.now ≡ text.now ∷ [])
        (λ parts. all_lines text.now ≡ parts.0.now ∷ all_lines parts.1.now) }
    ensures whole { MatchOption result ⊤ (λ parts. text.now ≡ parts.0.now ++ codes "\n" ++ parts.1.now) }
    ensures shorter { MatchOption result ⊤ (λ parts. length parts.1.now < length text.now) }
{
    match memchr(b'\n', text) {
        Some(at) => Some((&text[..at], &text[at + 1..])),
        None => None,
    }
}

/// Whether a line divides: it is exactly `%%`.
fn divides(line: &[u8]) -> bool
    ensures { result ≡ divides line.now }
{
    line == b"%%".as_slice()
}
