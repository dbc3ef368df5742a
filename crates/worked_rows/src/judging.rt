//! What a run left beside what its row says.

use crate::row::Row;
use std::alloc::{AllocError, Global};

/// What a run left.
#[derive(Clone, Copy)]
pub(crate) struct Left<'a> {
    pub(crate) written: &'a [u8],
    pub(crate) status: u8,
    pub(crate) unread: usize,
    /// Whether a record is kept.
    pub(crate) kept: bool,
    /// How many calls of the source and of the sink failed.
    pub(crate) faults: u64,
    pub(crate) missed: bool,
}

/// What a run did that isn't as its row says, where a call of this number failed: the first line that differs, or else the
/// status, the bytes left unread, the record that is kept, the calls that failed, or the holds.
pub(crate) fn fault_of(
    alloc: Global,
    row: &Row,
    call: Option<u32>,
    left: &Left,
) -> Result<Option<String>, AllocError> {
    let due = due_of(row, call);
    if left.written != due {
        return Ok(Some(difference(alloc, left.written, due)?));
    }
    let status = row.status;
    if left.status != status {
        let got = left.status;
        return Ok(Some(format!(in alloc; "the status is {got} and not {status}")?));
    }
    let got = left.unread;
    if let Some(wanted) = row.unread
        && got != wanted
    {
        return Ok(Some(format!(in alloc; "{got} bytes are unread and not {wanted}")?));
    }
    let got = left.faults;
    let wanted = faults_due(status);
    if got != wanted {
        return Ok(Some(format!(in alloc; "{got} calls failed and not {wanted}")?));
    }
    match flaw_of(row, left) {
        Some(flaw) => Ok(Some(String::from_str(alloc, flaw)?)),
        None => Ok(None),
    }
}

/// How many calls fail in all: the one that gives the status, since none is made after it, or none.
fn faults_due(status: u8) -> u64 {
    match status {
        3 | 4 => 1,
        _ => 0,
    }
}

/// What else isn't as a row says.
fn flaw_of(row: &Row, left: &Left) -> Option<&'static str> {
    match (left.kept, keeps_record(row.report.as_slice())) {
        (true, false) => return Some("a record is kept"),
        (false, true) => return Some("no record is kept"),
        _ => {}
    }
    match (left.missed, row.missed) {
        (true, false) => Some("a hold was missed"),
        (false, true) => Some("no hold was missed"),
        _ => None,
    }
}

/// Whether a record is kept of a run that writes this: where it is a report, also where writing it fails, and neither a
/// comparison, nor what is said of a report, nor a line that says why there is none.
fn keeps_record(text: &[u8]) -> bool {
    !text.starts_with(b"bpfmap: ") && !text.starts_with(b"compare ") && text != b"yes\n".as_slice()
}

/// What has to be written: the report, or as much of it as the sink takes.
fn due_of<'b>(row: &'b Row, call: Option<u32>) -> &'b [u8] {
    let whole = row.report.as_slice();
    let mut count = whole.len().min(row.room as usize);
    if let (Some(failing), Some(call)) = (row.failing, call) {
        if failing.of_sink {
            count = count.min((call as usize).saturating_mul(row.pieces as usize));
        }
    }
    &whole[..count]
}

/// The first line that differs.
fn difference(alloc: Global, written: &[u8], due: &[u8]) -> Result<String, AllocError> {
    let mut wanted = due.split(|byte| *byte == b'\n');
    let mut number = 0u64;
    for line in written.split(|byte| *byte == b'\n') {
        number = number.saturating_add(1);
        let Some(other) = wanted.next() else {
            let got = shown(line);
            return format!(in alloc; "line {number} is \"{got}\" and not the end");
        };
        if line != other {
            let (got, want) = (shown(line), shown(other));
            return format!(in alloc; "line {number} is \"{got}\" and not \"{want}\"");
        }
    }
    let want = wanted.next().map_or("", shown);
    format!(in alloc; "it ends before \"{want}\"")
}

/// A line as text.
fn shown(line: &[u8]) -> &str {
    str::from_utf8(line).unwrap_or("(not text)")
}
