//! The text of a copy.

ghost use Rattle.std.specs.Prelude.{◌≡◌, ◌++◌, IfOk, OnOk, string_bytes};
ghost use Rattle.std.specs.List.{flat_map};
ghost use Rattle.copy_report.specs.CopyText.{copy_text, target_lines};
ghost use Rattle.map_report.specs.Text.{ended};

use crate::outcome::add_outcome;
use map_report::{Options, RunRecord, add_dump_if, add_history_if, add_told};
use map_script::Script;
use map_types::{NoMemory, Reply, Shape};
use std::alloc::{AllocError, Global};

/// What is printed of a copy: the report of the source without its last line; a line for the target, whose shape this is, one for
/// the number of reads, one for the number of entries that the puts did, and one for the error of the put that stopped; what
/// happened under each lock of the target and what it holds at the end where that is asked for, and `end`. The replies that the
/// target's run kept are those of the puts. `options.json` is not looked at. It fails only where memory does, or the number of
/// entries would pass 2^64 - 1, which no memory holds.
pub fn copy_text_of(
    alloc: Global,
    script: &Script,
    kept: &RunRecord,
    shape: &Shape,
    target: &RunRecord,
    reads: &[Reply],
    options: Options,
) -> Result<Vec<u8>, NoMemory>
    ensures { IfOk result (λ text. text.items
        ≡ copy_text script.now kept.now shape.now target.now reads.now options) }
{
    let mut text = String::new(alloc);
    add_told(&mut text, script, kept, options)?;
    add_outcome(&mut text, shape, reads, target.replies.as_slice())?;
    add_target(&mut text, shape, target, options)?;
    text.push_str("end\n")?;
    Ok(text.into_bytes())
}

/// Adds what happened under each lock of the target and what it holds at the end, where that is asked for.
fn add_target(
    text: &mut String,
    shape: &Shape,
    target: &RunRecord,
    options: Options,
) -> Result<(), AllocError>
    ensures { OnOk result (string_bytes text.new
        ≡ string_bytes text.old ++ flat_map ended (target_lines shape.now target.now options)) }
{
    add_history_if(text, 1, target, options.history)?;
    add_dump_if(text, shape, &target.finals, options.dump)
}
