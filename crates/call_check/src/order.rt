//! Which calls have a step behind a step of a later call.

ghost use Rattle.std.specs.Prelude.{◌≡◌, ◌+◌, ◌≤◌, ◌<◌, ◌==◌, ◌&&◌, ◌||◌, nat_lt, ◌^◌, ℕ, All, IfOk, false, length, slice_index_or};
ghost use Rattle.std.specs.List.{list_any};
ghost use Rattle.place_words.specs.StrandSteps.{row_read};
ghost use Rattle.call_check.specs.Steps.{StepsFit, greater, is_late, is_late_from};

use crate::histories::Histories;
use map_types::NoMemory;
use place_words::{StepRow, Strand};
use std::alloc::Global;

/// Of each call, by its number, whether in a strand a step of it stands behind one of a later call.
pub(crate) fn late_calls(
    alloc: Global,
    histories: &Histories<'_>,
    strands: &[Strand],
    calls: usize,
) -> Result<Vec<bool>, NoMemory>
    requires few { calls + 1 < 2 ^ 64 }
    requires steps { All (λ strand. StepsFit histories.now.shape strand.steps) strands.now }
    ensures size { IfOk result (λ late. length late.items ≡ calls + 1) }
    ensures late { IfOk result (λ late. (number : ℕ) → number < calls + 1
        → slice_index_or late.items number false ≡ list_any (is_late histories.now.all number) strands.now) }
{
    let mut late = none_late(alloc, calls + 1)?;
    for strand in strands {
        mark_late(histories, strand.steps.row(), &mut late);
    }
    Ok(late)
}

/// None of so many calls.
fn none_late(alloc: Global, count: usize) -> Result<Vec<bool>, NoMemory>
    ensures size { IfOk result (λ late. length late.items ≡ count) }
    ensures none { IfOk result (λ late. (number : ℕ) → slice_index_or late.items number false ≡ false) }
{
    Ok(vec![in alloc; false; count]?)
}

/// Marks the calls of which a step stands behind one of a later call.
fn mark_late(histories: &Histories<'_>, steps: StepRow<'_>, late: &mut Vec<bool>)
    requires { StepsFit histories.now.shape (row_read steps) }
    ensures size { length late.new.items ≡ length late.old.items }
    ensures late { (number : ℕ) → number < length late.old.items → slice_index_or late.new.items number false
        ≡ (slice_index_or late.old.items number false || is_late_from histories.now.all number 0 (row_read steps.entry)) }
{
    let mut greatest = 0;
    for place in 0..steps.len() {
        let number = histories.call_of(steps.at(place));
        mark_below(late, number, greatest);
        greatest = greater(greatest, number);
    }
}

/// Marks a call, if there is a later one.
fn mark_below(late: &mut Vec<bool>, call: u32, greatest: u32)
    ensures size { length late.new.items ≡ length late.old.items }
    ensures late { (number : ℕ) → number < length late.old.items → slice_index_or late.new.items number false
        ≡ (slice_index_or late.old.items number false || ((call == number) && nat_lt number greatest)) }
{
    if call < greatest && (call as usize) < late.len() {
        late[call as usize] = true;
    }
}

/// The greater of two numbers.
fn greater(first: u32, second: u32) -> u32
    ensures { result ≡ greater first second }
{
    if first < second { second } else { first }
}
