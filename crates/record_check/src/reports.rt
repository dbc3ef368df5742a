//! A report is judged.

ghost use Rattle.std.specs.Prelude.{◌≤◌, ◌-◌, ◌^◌, IfOk, count_by};
ghost use Rattle.map_script.specs.Lines.{is_line_feed};
ghost use Rattle.map_script.specs.WellFormed.{IsWellFormed};
ghost use Rattle.record_check.specs.Said.{IsSaid};

use crate::check::check_record;
use map_script::Script;
use map_types::NoMemory;
use record_flaws::Said;
use record_reading::{RecordRefusal, read_record};
use std::alloc::{AllocError, Global};

/// What is said of a report of a run of the script, made with `--history` and `--dump`: the verdict on the record that it tells, or,
/// where no record has this report, the line at fault, counted from 1. It has at most 2^32 - 3 line feeds. Only want of memory is
/// refused.
pub fn judge(alloc: Global, script: &Script, report: &[u8]) -> Result<Said, NoMemory>
    requires script { IsWellFormed script.now }
    requires lines { count_by is_line_feed report.now ≤ 2 ^ 32 - 3 }
    ensures { IfOk result (IsSaid script.now report.now) }
{
    match read_record(alloc, report, script) {
        Ok(kept) => Ok(Said::Judged(check_record(alloc, script, &kept)?)),
        Err(RecordRefusal::Fault { line }) => Ok(Said::Unread { line }),
        Err(RecordRefusal::NoMemory) => Err(AllocError.into()),
    }
}
