//! The first part of a rotation.

ghost use Rattle.std.specs.Prelude.{◌≡◌, ◌≢◌, ℕ, ◌+◌, ◌-◌, ◌<◌, ◌≤◌, ◌++◌, [], ◌∷◌, length, if◌then◌else◌, Some, option_map, IsSome};
ghost use Rattle.lru_lists.specs.Notes.{AreNoted};
ghost use Rattle.lru_lists.specs.Sets.{IsSet, moved_to};
ghost use Rattle.lru_lists.specs.declared.bits.BitCall.TheVariants.{Cleared};
ghost use Rattle.lru_lists.specs.declared.name.ListName.TheVariants as names;
ghost use Rattle.map_types.specs.ElementLists.{IsIn};
ghost use Rattle.map_types.specs.Listed.{elements_of};
ghost use Rattle.row_list.specs.RowWords.{tail_row};
ghost use Rattle.lru_rotate.specs.Asking.{OnlyBits};
ghost use Rattle.lru_rotate.specs.Rotating.{ActivePart};

use lru_lists::{Bits, ListName, ListSet, Noted};
use place_words::Visit;
use row_list::Rows;

/// Where inactive is shorter than active, visits up to `scans` rows of active from the tail.
pub fn visit_active<R: Rows, B: Bits>(
    set: &mut ListSet<R>,
    bits: &mut B,
    scans: u32,
    notes: &mut Noted<Visit>,
)
    requires noted { B.can_note bits.old scans }
    requires asked { (e : ℕ) → IsIn e (elements_of set.old.active) → B.may_ask bits.old e }
    ensures part { ActivePart scans set.old set.new (B.calls bits.old)
        (B.calls bits.new) notes.old notes.new }
    ensures was_whole { IsSet set.old }
    ensures whole { IsSet set.new }
    ensures noted { (n : ℕ) → B.can_note bits.old n
        → B.can_note bits.new (n - (length (B.calls bits.new) - length (B.calls bits.old))) }
    ensures only { OnlyBits B.may_ask B.probes B.may_probe B.gives B.lender bits.old bits.new }
{
    let active = set.rows(ListName::Active).len();
    if set.rows(ListName::Inactive).len() < active {
        for _ in 0..scans.min(active) {
            notes.note(visit_tail(set, bits));
        }
    }
}

/// Visits the tail of active.
#[tactic(auto, using(crate::proofs::TailLemmas::tail_is_in))]
fn visit_tail<R: Rows, B: Bits>(set: &mut ListSet<R>, bits: &mut B) -> Visit
    requires some { set.old.active ≢ [] }
    requires noted { B.can_note bits.old 1 }
    requires asked { (e : ℕ) → IsIn e (elements_of set.old.active) → B.may_ask bits.old e }
    ensures tail { option_map (λ row. row.element) (tail_row set.old.active) ≡ Some result.element }
    ensures set { set.new
        ≡ moved_to result.element (if result.bit then names.Active else names.Inactive) set.old }
    ensures call { B.calls bits.new ≡ B.calls bits.old ++ Cleared result ∷ [] }
    ensures was_whole { IsSet set.old }
    ensures whole { IsSet set.new }
    ensures noted { (n : ℕ) → B.can_note bits.old n → B.can_note bits.new (n - 1) }
    ensures only { OnlyBits B.may_ask B.probes B.may_probe B.gives B.lender bits.old bits.new }
{
    let Some(row) = set.rows(ListName::Active).tail() else {
        unreachable!()
    };
    let bit = bits.clear(row.element);
    let to = if bit {
        ListName::Active
    } else {
        ListName::Inactive
    };
    set.move_to(row.element, to);
    Visit {
        element: row.element,
        bit,
    }
}
