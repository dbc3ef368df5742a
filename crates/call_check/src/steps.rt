//! The steps of a call in its strand.

ghost use Rattle.std.specs.Prelude.{◌≡◌, ◌≤◌, ◌<◌, ◌+◌, ◌*◌, ℕ, All, MatchBool, true, false, length, slice_index_or};
ghost use Rattle.std.specs.List.{list_all};
ghost use Rattle.place_words.specs.StrandSteps.{row_read};
ghost use Rattle.call_check.specs.RightCalls.{is_of_call, is_of_cpu};
ghost use Rattle.call_check.specs.Steps.{StepsFit};

use crate::histories::Histories;
use place_words::StepRow;

/// Where a row of steps of a call ends that begins at a place.
pub(crate) fn run_end(
    histories: &Histories<'_>,
    steps: StepRow<'_>,
    from: usize,
    number: u32,
) -> usize
    requires steps { StepsFit histories.now.shape (row_read steps) }
    requires from { from ≤ length (row_read steps) }
    ensures from { from ≤ result }
    ensures to { result ≤ length (row_read steps.entry) }
    ensures row { (k : ℕ) → (d : _) → from ≤ k → k < result → is_of_call histories.now.all number (slice_index_or (row_read steps.entry) k d) ≡ true }
    ensures end { (d : _) → result < length (row_read steps.entry) → is_of_call histories.now.all number (slice_index_or (row_read steps.entry) result d) ≡ false }
{
    for place in from..steps.len() {
        if histories.call_of(steps.at(place)) != number {
            return place;
        }
    }
    steps.len()
}

/// Whether steps are of one CPU.
pub(crate) fn are_of_cpu(histories: &Histories<'_>, cpu: u32, steps: StepRow<'_>) -> bool
    requires { StepsFit histories.now.shape (row_read steps) }
    ensures { result ≡ list_all (is_of_cpu histories.now.all cpu) (row_read steps.entry) }
{
    for place in 0..steps.len() {
        if !histories.is_of_cpu(cpu, steps.at(place)) {
            return false;
        }
    }
    true
}
