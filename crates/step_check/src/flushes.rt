//! Whether what a turn of the global lists flushes isn't free.

ghost use Rattle.std.specs.Prelude.{◌≡◌, ◌≢◌, All, MatchBool, map};
ghost use Rattle.place_words.specs.declared.owner.Owner.TheVariants as owners;
ghost use Rattle.place_words.specs.Entries.{part_read};
ghost use Rattle.step_check.specs.Answers.{view_of};
ghost use Rattle.step_check.specs.Judged.{FlushesListed, flushed_in};
ghost use Rattle.step_check.specs.WordsView.{AreWords, words_in};

use crate::words::Kept;
use place_words::{GlobalPart, Owner, PackedGlobal, PartAt};

/// Whether what a part flushes isn't free.
pub(crate) fn part_flushes_listed(kept: &Kept, part: PartAt<'_>) -> bool
    requires { AreWords (view_of kept.now) }
    ensures { MatchBool result (FlushesListed (words_in (view_of kept.now)) (part_read part.entry))
        (¬ FlushesListed (words_in (view_of kept.now)) (part_read part.entry)) }
{
    match part {
        PartAt::Global(part) => packed_flushes_listed(kept, part),
        PartAt::Bucket(_) | PartAt::Free(_) | PartAt::Local(_) | PartAt::Own(_) => true,
    }
}

/// The same of a turn of the global lists, as it is kept.
fn packed_flushes_listed(kept: &Kept, part: &PackedGlobal) -> bool
    requires { AreWords (view_of kept.now) }
    ensures { MatchBool result (All (λ e. (words_in (view_of kept.now)).owner e ≢ owners.Free) (flushed_in part.now))
        (¬ All (λ e. (words_in (view_of kept.now)).owner e ≢ owners.Free) (flushed_in part.now)) }
{
    match part.part() {
        Ok(part) => turn_flushes_listed(kept, part),
        Err(part) => turn_flushes_listed(kept, &part),
    }
}

/// Whether what a turn of the global lists flushes isn't free.
fn turn_flushes_listed(kept: &Kept, part: &GlobalPart) -> bool
    requires { AreWords (view_of kept.now) }
    ensures { MatchBool result (All (λ e. (words_in (view_of kept.now)).owner e ≢ owners.Free) (flushed_in part.now))
        (¬ All (λ e. (words_in (view_of kept.now)).owner e ≢ owners.Free) (flushed_in part.now)) }
{
    match part {
        GlobalPart::Turn { flushed, .. } => {
            for flush in flushed.as_slice() {
                if is_free(kept, flush.element) {
                    return false;
                }
            }
            true
        }
        GlobalPart::Push { .. } => true,
    }
}

/// Whether an element is free.
fn is_free(kept: &Kept, element: u32) -> bool
    requires { AreWords (view_of kept.now) }
    ensures { MatchBool result ((words_in (view_of kept.now)).owner element ≡ owners.Free)
        ((words_in (view_of kept.now)).owner element ≢ owners.Free) }
{
    if element >= kept.shape.elements {
        return true;
    }
    matches!(kept.owners[element as usize], Owner::Free)
}
