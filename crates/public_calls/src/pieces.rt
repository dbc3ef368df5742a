//! Scripts that come in pieces, as a library may get them.

ghost use Rattle.std.specs.Prelude.{◌≡◌, ◌≤◌, ◌<◌, ◌-◌, ◌^◌, count_by};
ghost use Rattle.map_script.specs.Lines.{is_line_feed};
ghost use Rattle.map_script.specs.Reading.{read_as, IsReading};

use crate::scripts::{REFUSED, TEXTS};
use map_script::{Form, Script, ScriptReader, ScriptRefusal};
use std::alloc::Global;

/// Reads a text that is fed in pieces of this size, the last of which may be shorter. What it is read as doesn't depend on the
/// size.
fn read_in_pieces(
    alloc: Global,
    text: &[u8],
    size: usize,
    form: Form,
) -> Result<Script, ScriptRefusal>
    requires some { 0 < size }
    requires line_feeds { count_by is_line_feed text.now ≤ 2 ^ 32 - 3 }
    ensures { IsReading result (read_as form text.now) }
{
    let mut reader = ScriptReader::open(alloc, form)?;
    let mut rest = text;
    while !rest.is_empty() {
        let (piece, more) = rest.split_at(size.min(rest.len()));
        reader.feed(piece)?;
        rest = more;
    }
    reader.finish()
}

/// The same of a text that is short enough to be read.
fn read(alloc: Global, text: &str, size: usize, form: Form) -> Result<Script, ScriptRefusal>
    requires { 0 < size }
{
    let bytes = text.as_bytes();
    if bytes.len() > 16_777_216 {
        return Err(ScriptRefusal::NoMemory);
    }
    read_in_pieces(alloc, bytes, size, form)
}

/// The canonical text of one that is fed in pieces.
fn rewritten(alloc: Global, text: &str, size: usize, form: Form) -> Option<Vec<u8>>
    requires { 0 < size }
{
    let Ok(script) = read(alloc, text, size, form) else {
        return None;
    };
    script.text(alloc).ok()
}

/// The first row whose text, fed in pieces of this size, is not read, or written otherwise.
fn wrong_text(alloc: Global, rows: &[(Form, &str, &str)], size: usize) -> Option<usize>
    requires { 0 < size }
{
    for row in 0..rows.len() {
        let (form, text, canonical) = rows[row];
        match rewritten(alloc, text, size, form) {
            Some(found) if found.as_slice() == canonical.as_bytes() => {}
            _ => return Some(row),
        }
    }
    None
}

#[test]
fn canonical_texts_in_pieces(rt: HostRuntime) {
    assert_eq!(rt; wrong_text(rt.alloc(), &TEXTS, 1), None);
    assert_eq!(rt; wrong_text(rt.alloc(), &TEXTS, 7), None);
    assert_eq!(rt; wrong_text(rt.alloc(), &TEXTS, 64), None);
}

/// The first row whose text, fed in pieces of this size, is refused otherwise, or not.
fn wrong_refusal(alloc: Global, rows: &[(Form, &str, ScriptRefusal)], size: usize) -> Option<usize>
    requires { 0 < size }
{
    for row in 0..rows.len() {
        let (form, text, refusal) = rows[row];
        match read(alloc, text, size, form) {
            Err(found) if found == refusal => {}
            _ => return Some(row),
        }
    }
    None
}

#[test]
fn faults_in_pieces(rt: HostRuntime) {
    assert_eq!(rt; wrong_refusal(rt.alloc(), &REFUSED, 1), None);
    assert_eq!(rt; wrong_refusal(rt.alloc(), &REFUSED, 7), None);
    assert_eq!(rt; wrong_refusal(rt.alloc(), &REFUSED, 64), None);
}
