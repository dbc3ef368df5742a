//! The first call of a record that isn't right.

ghost use Rattle.std.specs.Prelude.{◌≡◌, ℕ, All, IfOk, length, slice_index_or};
ghost use Rattle.map_script.specs.WellFormed.{IsWellFormed};
ghost use Rattle.place_words.specs.Histories.{IsLegal};
ghost use Rattle.record_shape.specs.WellShaped.{WellShaped};
ghost use Rattle.record_flaws.specs.First.{IsFirstWrong};
ghost use Rattle.record_flaws.specs.StrandFlaws.{AreStrandsRight};
ghost use Rattle.call_check.specs.Judged.{AreNoted};
ghost use Rattle.call_check.specs.RightCalls.{IsRightAt};

use crate::judge::{is_right_at, tables_of};
use map_report::RunRecord;
use map_script::Script;
use map_types::{List, NoMemory};
use replay_words::Note;
use std::alloc::Global;

/// The first call, counted from 0, that isn't right: a step of it in its strand is of another CPU or stands behind a step of a later
/// call, or its steps with its reply are not its trace. Of each lock of lists `notes` tells what was noted of its turns.
pub fn call_flaw(
    alloc: Global,
    script: &Script,
    kept: &RunRecord,
    notes: &[List<Note>],
) -> Result<Option<usize>, NoMemory>
    requires script { IsWellFormed script.now }
    requires shaped { WellShaped script.now kept.now }
    requires strands { AreStrandsRight script.now kept.now }
    requires legal { All (λ history. IsLegal script.now.shape history.lock history.entries) kept.now.histories }
    requires noted { AreNoted script.now.shape kept.now.histories notes.now }
    ensures { IfOk result (λ flaw. IsFirstWrong (IsRightAt script.now kept.now) (length script.now.calls) flaw) }
{
    let tables = tables_of(alloc, script, kept)?;
    let mut cursors = zeros(alloc, kept.strands.len())?;
    for place in 0..script.calls.len() {
        if !is_right_at(alloc, script, kept, notes, &tables, place, &mut cursors)? {
            return Ok(Some(place));
        }
    }
    Ok(None)
}

/// So many zeros.
fn zeros(alloc: Global, count: usize) -> Result<Vec<usize>, NoMemory>
    ensures each { IfOk result (λ zeros. length zeros.items ≡ count) }
    ensures zeros { IfOk result (λ zeros. (n : ℕ) → slice_index_or zeros.items n 0 ≡ 0) }
{
    Ok(vec![in alloc; 0; count]?)
}
