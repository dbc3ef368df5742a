//! A rotation.

ghost use Rattle.std.specs.Prelude.{◌≡◌, ℕ, ◌+◌, ◌-◌, ◌*◌, ◌<◌, ◌≤◌, ◌++◌, length, IsPermutation};
ghost use Rattle.lru_lists.specs.Sets.{IsListed, IsSet};
ghost use Rattle.lru_rotate.specs.Asking.{OnlyBits};
ghost use Rattle.lru_rotate.specs.Rotating.{Rotation};

use crate::active::visit_active;
use crate::inactive::visit_inactive;
use lru_lists::{Bits, ListSet, RotateNotes};
use row_list::Rows;

/// Rotates a set. First, where inactive is shorter than active, up to `scans` rows of active are visited from the tail: one
/// whose bit is set goes to the head of active, another to the head of inactive. Then up to `scans` rows of inactive are
/// visited from the cursor on, or from the tail where it is at the mark, and from the tail again after the head, none twice:
/// one whose bit is set goes to the head of active, another stays. Each visit clears the bit of its element. The cursor is
/// left at the neighbour of the last one visited, towards the head, or at the mark where it has none. The visits are added
/// to the notes; a note for which no memory is found makes these Lost and changes nothing else.
pub fn rotate<R: Rows, B: Bits>(
    set: &mut ListSet<R>,
    bits: &mut B,
    scans: u32,
    notes: &mut RotateNotes,
)
    requires noted { B.can_note bits.old (2 * scans) }
    requires asked { (e : ℕ) → IsListed e set.old → B.may_ask bits.old e }
    ensures rotation { Rotation scans set.old set.new (B.calls bits.old)
        (B.calls bits.new) notes.old notes.new }
    // no row is made or lost
    ensures rows { IsPermutation (set.old.active ++ set.old.inactive)
        (set.new.active ++ set.new.inactive) }
    ensures whole { IsSet set.new }
    ensures noted { (n : ℕ) → B.can_note bits.old n
        → B.can_note bits.new (n - (length (B.calls bits.new) - length (B.calls bits.old))) }
    ensures only { OnlyBits B.may_ask B.probes B.may_probe B.gives B.lender bits.old bits.new }
{
    visit_active(set, bits, scans, &mut notes.active);
    visit_inactive(set, bits, scans, &mut notes.inactive);
}
