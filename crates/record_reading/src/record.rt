//! A report is read as the record that it tells.

ghost use Rattle.std.specs.Prelude.{◌≡◌, ◌≤◌, ◌-◌, ◌^◌, IfOk, codes, count_by, length, suc};
ghost use Rattle.map_report.specs.History.{record_line};
ghost use Rattle.map_report.specs.Text.{map_line};
ghost use Rattle.map_script.specs.Lines.{is_line_feed};
ghost use Rattle.map_script.specs.WellFormed.{IsWellFormed};
ghost use Rattle.map_types.specs.Creation.{IsShape};
ghost use Rattle.record_reading.specs.Outcomes.{Reads};
ghost use Rattle.record_reading.specs.ReadRecord.{lines_of};
ghost use Rattle.record_reading.specs.Readers.{the_line};
ghost use Rattle.record_reading.specs.RecordAnswers.{IsRecordIn};
ghost use Rattle.record_reading.specs.RecordReaders.{record_section};
ghost use Rattle.record_reading.specs.Sections.{one_line};

use crate::finals::read_finals;
use crate::head_lines::{map_line, record_line};
use crate::histories::read_histories;
use crate::lines::Lines;
use crate::refusal::RecordRefusal;
use crate::replies::read_replies;
use crate::starts::read_starts;
use crate::strands::read_strands;
use crate::to_end::the_line;
use map_report::RunRecord;
use map_script::Script;
use map_types::{NoMemory, Shape};
use std::alloc::Global;

/// The line of the map.
#[tactic(auto, using(crate::proofs::LineLemmas::line_found, crate::proofs::LineLemmas::line_other, crate::proofs::LineLemmas::line_missing))]
fn read_map_line(shape: &Shape, lines: &mut Lines) -> Result<Option<()>, NoMemory>
    requires { IsShape shape.now }
    ensures lines { IfOk result (Reads (one_line (the_line (map_line shape.now))) lines.old.0 lines.new.0) }
    ensures rest { lines.new.1 ≡ lines.old.1 }
{
    let Some(line) = lines.first() else {
        return Ok(None);
    };
    let Some(found) = map_line(shape, line) else {
        return Ok(None);
    };
    lines.pass();
    Ok(Some(found))
}

/// The line at which the history begins.
#[tactic(auto, using(crate::proofs::LineLemmas::line_found, crate::proofs::LineLemmas::line_other, crate::proofs::LineLemmas::line_missing))]
fn read_record_line(version: u32, lines: &mut Lines) -> Result<Option<()>, NoMemory>
    requires { version ≤ 2 }
    ensures lines { IfOk result
        (Reads (one_line (the_line (record_line (record { number = suc version }))))
        lines.old.0 lines.new.0) }
    ensures rest { lines.new.1 ≡ lines.old.1 }
{
    let Some(line) = lines.first() else {
        return Ok(None);
    };
    let Some(found) = record_line(version, line) else {
        return Ok(None);
    };
    lines.pass();
    Ok(Some(found))
}

/// The line at the end.
#[tactic(auto, using(crate::proofs::LineLemmas::line_found, crate::proofs::LineLemmas::line_other, crate::proofs::LineLemmas::line_missing))]
fn read_end(lines: &mut Lines) -> Result<Option<()>, NoMemory>
    ensures lines { IfOk result (Reads (one_line (the_line (codes "end"))) lines.old.0 lines.new.0) }
    ensures rest { lines.new.1 ≡ lines.old.1 }
{
    let Some(line) = lines.first() else {
        return Ok(None);
    };
    let Some(found) = the_line(b"end", line) else {
        return Ok(None);
    };
    lines.pass();
    Ok(Some(found))
}

/// All sections of a report.
#[tactic(auto, unfolding(crate::specs::Sections::go_on))]
fn read_sections(
    alloc: Global,
    script: &Script,
    lines: &mut Lines,
) -> Result<Option<RunRecord>, NoMemory>
    requires shape { IsShape script.now.shape }
    requires calls { length script.now.calls ≤ 200000 }
    requires cuts { length script.now.cuts ≤ 63 }
    requires version { script.now.version ≤ 2 }
    ensures lines { IfOk result (Reads (record_section script.now) lines.old.0 lines.new.0) }
    ensures rest { lines.new.1 ≡ lines.old.1 }
{
    let Some(of_map) = read_map_line(&script.shape, lines)? else {
        return Ok(None);
    };
    let Some(replies) = read_replies(alloc, script, lines)? else {
        return Ok(None);
    };
    let Some(of_record) = read_record_line(script.version, lines)? else {
        return Ok(None);
    };
    let Some(histories) = read_histories(alloc, script, lines)? else {
        return Ok(None);
    };
    let Some(phases) = read_starts(alloc, script, lines)? else {
        return Ok(None);
    };
    let Some(strands) = read_strands(alloc, script, lines)? else {
        return Ok(None);
    };
    let Some(finals) = read_finals(alloc, &script.shape, lines)? else {
        return Ok(None);
    };
    let Some(at_end) = read_end(lines)? else {
        return Ok(None);
    };
    Ok(Some(RunRecord {
        replies,
        histories,
        strands,
        finals,
        phases,
    }))
}

/// The number of the first of the lines that are left of a text.
fn line_number(text: &[u8], left: &Lines) -> u32
    requires { count_by is_line_feed text.now ≤ 2 ^ 32 - 3 }
    ensures { result ≡ suc (length (lines_of text.now) - length left.now.0) }
{
    let all = Lines::of(text);
    all.count().saturating_sub(left.count()) as u32 + 1
}

/// Reads the report of a run of this script, with its history and its dump, back into the record that it tells. A line is
/// what a line feed ends, and the text has at most 2^32 - 3 line feeds. The record is well shaped; whether a map could
/// have done what it tells isn't asked.
///
/// - `Fault`: the line at fault, counted from 1: the least number of lines that no well-shaped record's report begins
///   with. Where there is none such, and the text is no such report, it is the number of line feeds plus 1.
/// - `NoMemory`: memory for the record was not found.
pub fn read_record(alloc: Global, text: &[u8], script: &Script) -> Result<RunRecord, RecordRefusal>
    requires script { IsWellFormed script.now }
    requires lines { count_by is_line_feed text.now ≤ 2 ^ 32 - 3 }
    ensures { IsRecordIn script.now text.now result }
{
    let mut lines = Lines::of(text);
    match read_sections(alloc, script, &mut lines) {
        Ok(Some(kept)) => {
            if lines.is_over() {
                Ok(kept)
            } else {
                Err(RecordRefusal::Fault {
                    line: line_number(text, &lines),
                })
            }
        }
        Ok(None) => Err(RecordRefusal::Fault {
            line: line_number(text, &lines),
        }),
        Err(error) => Err(error.into()),
    }
}
