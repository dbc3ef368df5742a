//! The second part of a rotation.

ghost use Rattle.std.specs.Prelude.{◌≡◌, ◌≢◌, ℕ, ◌+◌, ◌-◌, ◌<◌, ◌≤◌, ◌++◌, [], ◌∷◌, length, if◌then◌else◌, Some, option_map, IsSome};
ghost use Rattle.lru_lists.specs.Notes.{AreNoted};
ghost use Rattle.lru_lists.specs.Sets.{IsSet, IsPlace, moved_to};
ghost use Rattle.lru_lists.specs.declared.bits.BitCall.TheVariants.{Cleared};
ghost use Rattle.lru_lists.specs.declared.name.ListName.TheVariants as names;
ghost use Rattle.map_types.specs.ElementLists.{IsIn};
ghost use Rattle.map_types.specs.Listed.{elements_of};
ghost use Rattle.row_list.specs.RowWords.{tail_row, row_before};
ghost use Rattle.lru_rotate.specs.Asking.{OnlyBits};
ghost use Rattle.lru_rotate.specs.Rotating.{InactivePart, stands_at};

use lru_lists::{Bits, ListName, ListSet, Noted};
use place_words::Visit;
use row_list::Rows;

/// Visits up to `scans` rows of inactive from the cursor on, and leaves the cursor before the last of them. Without a visit
/// it is left at the mark.
pub fn visit_inactive<R: Rows, B: Bits>(
    set: &mut ListSet<R>,
    bits: &mut B,
    scans: u32,
    notes: &mut Noted<Visit>,
)
    requires noted { B.can_note bits.old scans }
    requires asked { (e : ℕ) → IsIn e (elements_of set.old.inactive) → B.may_ask bits.old e }
    ensures part { InactivePart scans set.old set.new (B.calls bits.old)
        (B.calls bits.new) notes.old notes.new }
    ensures was_whole { IsSet set.old }
    ensures whole { IsSet set.new }
    ensures noted { (n : ℕ) → B.can_note bits.old n
        → B.can_note bits.new (n - (length (B.calls bits.new) - length (B.calls bits.old))) }
    ensures only { OnlyBits B.may_ask B.probes B.may_probe B.gives B.lender bits.old bits.new }
{
    let mut stop = None;
    let mut at = set.cursor();
    for _ in 0..scans.min(set.rows(ListName::Inactive).len()) {
        let (visit, next) = visit_at(set, bits, at);
        notes.note(visit);
        at = next;
        stop = next;
    }
    set.set_cursor(stop);
}

/// Visits an inactive element, or the tail where the walk is at the mark. Answers besides where the walk goes on: at the
/// neighbour towards the head, or at the mark.
#[tactic(auto, using(crate::proofs::TailLemmas::standing_is_in))]
fn visit_at<R: Rows, B: Bits>(
    set: &mut ListSet<R>,
    bits: &mut B,
    at: Option<u32>,
) -> (Visit, Option<u32>)
    requires some { set.old.inactive ≢ [] }
    requires place { IsPlace at set.old }
    requires noted { B.can_note bits.old 1 }
    requires asked { (e : ℕ) → IsIn e (elements_of set.old.inactive) → B.may_ask bits.old e }
    ensures here { stands_at at set.old.inactive ≡ Some result.0.element }
    ensures next { result.1
        ≡ option_map (λ row. row.element) (row_before result.0.element set.old.inactive) }
    ensures set { set.new
        ≡ (if result.0.bit then moved_to result.0.element names.Active set.old else set.old) }
    ensures call { B.calls bits.new ≡ B.calls bits.old ++ Cleared result.0 ∷ [] }
    ensures was_whole { IsSet set.old }
    ensures whole { IsSet set.new }
    ensures noted { (n : ℕ) → B.can_note bits.old n → B.can_note bits.new (n - 1) }
    ensures only { OnlyBits B.may_ask B.probes B.may_probe B.gives B.lender bits.old bits.new }
{
    let inactive = set.rows(ListName::Inactive);
    let element = standing_at(inactive, at);
    let next = inactive.before(element).map(|row| row.element);
    let bit = bits.clear(element);
    if bit {
        set.move_to(element, ListName::Active);
    }
    (Visit { element, bit }, next)
}

/// The element at which a walk stands: at the mark the tail.
fn standing_at<R: Rows>(rows: &R, at: Option<u32>) -> u32
    requires { R.rows rows.now ≢ [] }
    ensures { stands_at at (R.rows rows.now) ≡ Some result }
{
    match (at, rows.tail()) {
        (Some(element), _) => element,
        (None, Some(row)) => row.element,
        (None, None) => unreachable!(),
    }
}
